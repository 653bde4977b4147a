//! The words that all layers share: what a search is asked, what it answers, and why it is refused.
#![tactic(auto)]

pub mod alphabet;
pub mod device;
pub mod error;
pub mod history;
pub mod laws;
pub mod looks;
pub mod patterns;
pub mod plain;
pub mod prefilter;
pub mod primitives;
pub mod search;
pub mod tally;
