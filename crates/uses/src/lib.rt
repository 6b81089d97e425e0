//! Callers of `data_url`, as users write them: each is proved from the library's public contracts.
#![tactic(auto)]

pub mod body;
pub mod chunks;
pub mod fetch;
pub mod inliner;
pub mod loader;
pub mod negotiation;
pub mod reader;
