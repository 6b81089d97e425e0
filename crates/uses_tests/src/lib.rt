//! Worked examples of the proved callers, as tests.
#![tactic(auto)]

#[cfg(test)]
mod tests;
