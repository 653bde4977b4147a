//! What a user of this library writes: callers with contracts of their own, and the examples of the pages.
//!
//! A user lists `ac_search` and no other crate of this repository, as here, and finds every name, law and definition
//! there. All modules are compiled for tests alone, so each function is proved once and run. A caller's own definitions
//! are in `specs/`, and what is written of its proof is in `proofs/`, under its path.
//!
//! `callers` holds the callers: README.md says of each what it does, and CALLING.md explains most.
//! Beside them stand `pages`, with the examples of README.md and of doc comments, and `checks`, with what tests compare by.
#![tactic(auto)]

/// Does what `assert_eq!` does, by a call, which takes less time to prove.
#[cfg(test)]
macro_rules! are_equal {
    ($rt:expr; $found:expr, $wanted:expr) => {
        crate::checks::same(&$rt, $found, $wanted)
    };
}

#[cfg(test)]
mod callers;
#[cfg(test)]
mod checks;
#[cfg(test)]
mod pages;
