//! The sizes of DFAs that were built.
use crate::tests::same_by;
use crate::tests::searches::{dfa_over, trie_of};
use ac_util::error::BuildError;
use ac_util::search::Anchored::No;
use ac_util::search::MatchKind::{LeftmostFirst, Standard};
use ac_util::search::StartKind::{Anchored, Both, Unanchored};
use ac_util::search::{MatchKind, StartKind};
use std::alloc::Global;
use std::test::Fail;

/// Three patterns, two of which begin alike.
const THREE: &[&[u8]] = &[b"b", b"abc", b"abcd"];

/// Patterns, a match kind and a start kind, with how many states the trie has, how many entries the table, and the
/// number at which its last row begins.
type Size = (&'static [&'static [u8]], MatchKind, StartKind, [usize; 3]);

const SIZES: [Size; 9] = [
    (&[], Standard, Unanchored, [4, 4, 3]),
    (&[], Standard, Both, [4, 4, 3]),
    (THREE, Standard, Unanchored, [9, 72, 64]),
    (THREE, Standard, Anchored, [9, 72, 64]),
    (THREE, Standard, Both, [9, 112, 104]),
    (THREE, LeftmostFirst, Unanchored, [8, 64, 56]),
    (THREE, LeftmostFirst, Both, [8, 96, 88]),
    (&[b"abcd"], Standard, Unanchored, [8, 64, 56]),
    (&[b"abcd"], Standard, Both, [8, 96, 88]),
];

/// Returns how many states the trie of patterns has, how many entries the table of its DFA, and where its last row begins.
fn sizes_of(
    alloc: Global,
    kind: MatchKind,
    start_kind: StartKind,
    patterns: &[&[u8]],
) -> Result<[usize; 3], BuildError> {
    let trie = trie_of(alloc, (kind, false, No), patterns)?;
    let dfa = dfa_over(alloc, &trie, start_kind)?;
    let entries = dfa.table.len();
    Ok([
        trie.states_len(),
        entries,
        entries.saturating_sub(dfa.classes.stride()),
    ])
}

#[test]
fn tables_have_their_size(rt: HostRuntime) -> Result<(), Fail> {
    for (patterns, kind, start_kind, sizes) in SIZES {
        let found = sizes_of(rt.alloc(), kind, start_kind, patterns)?;
        same_by(&rt, found, sizes, &start_kind);
    }
    Ok(())
}
