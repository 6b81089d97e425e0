//! Worked examples of the library, as tests: whole texts, with answers from the standards' rules.
#![tactic(auto)]

#[cfg(test)]
mod tests;
