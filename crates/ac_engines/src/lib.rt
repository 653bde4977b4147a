//! The engines that are built from a noncontiguous NFA.
#![tactic(auto)]

mod classes;
mod commits;
pub mod dfa;
mod matches;
pub mod nfa;
#[cfg(test)]
mod tests;
