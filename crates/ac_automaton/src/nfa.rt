//! The automata that follow failure links.

pub mod noncontiguous;
