//! Lists of patterns, as they are stored.
use crate::tests::same;
use ac_util::error::BuildError;
use ac_util::patterns::pieces::Pieces;
use ac_util::patterns::{Patterns, plain_byte};
use std::alloc::{AllocError, Allocator};
use std::test::Fail;

const ROWS: &[(&str, &[&[u8]])] = &[
    ("none", &[]),
    ("an empty one", &[b""]),
    ("one", &[b"abc"]),
    ("two alike", &[b"ab", b"ab"]),
    ("empty ones between others", &[b"", b"ab", b"", b"", b"c"]),
    (
        "a prefix of another",
        &[b"append", b"appendage", b"app", b"ab"],
    ),
];

/// Returns whether the stored patterns are these.
fn are<A: Allocator>(stored: &Patterns<A>, patterns: &[&[u8]]) -> bool {
    if stored.len() != patterns.len() {
        return false;
    }
    for number in 0..patterns.len() {
        if stored.get(number) != patterns[number] {
            return false;
        }
    }
    true
}

#[test]
fn patterns_are_stored(rt: HostRuntime) -> Result<(), Fail> {
    let alloc = rt.alloc();
    for &(name, patterns) in ROWS {
        let owned = Patterns::new(alloc, patterns)?;
        assert!(rt; are(&owned, patterns), "{name}");
        let lent = Patterns::new(&alloc, patterns)?;
        assert!(rt; are(&lent, patterns), "{name}");
    }
    Ok(())
}

#[test]
fn pieces_and_their_copy_are_stored_in_order(rt: HostRuntime) -> Result<(), Fail> {
    let wanted: [&[usize]; 3] = [&[7, 9], &[], &[8]];
    let mut pieces: Pieces<usize, _> = Pieces::new(rt.alloc())?;
    for piece in wanted {
        pieces.push(piece)?;
    }
    let copy = pieces.clone()?;
    same(&rt, pieces.len(), 3);
    for (index, piece) in wanted.into_iter().enumerate() {
        assert!(rt; index < copy.len());
        same(&rt, copy.get(index), piece);
    }
    Ok(())
}

#[test]
fn a_capital_is_plain_where_case_counts(rt: HostRuntime) {
    let bytes = (plain_byte(true, b'A'), plain_byte(false, b'A'));
    same(&rt, bytes, (b'a', b'A'));
}

#[test]
fn a_refused_request_becomes_want_of_memory(rt: HostRuntime) {
    same(&rt, BuildError::from(AllocError), BuildError::Memory);
}
