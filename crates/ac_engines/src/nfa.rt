//! Automata that keep failure links.

pub mod contiguous;
