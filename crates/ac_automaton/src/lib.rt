//! Automata over a list of patterns, and the searches that run on any of them.
#![tactic(auto)]

pub mod automaton;
pub mod nfa;
