//! The examples of README.md and of doc comments. Each block stands here, line by line, with `are_equal!` for `assert_eq!`
//! (`scripts/check_readme`).
mod builders;
mod engines;
mod finds;
mod first;
mod inputs;
mod overlaps;
mod readme;
mod replacements;
mod streams;
mod threads;
mod values;
