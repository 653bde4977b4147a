//! The two automata that follow failure links while they search.

pub use ac_automaton::nfa::noncontiguous;
pub use ac_engines::nfa::contiguous;
