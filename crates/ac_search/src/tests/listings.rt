//! Each engine lists all occurrences as rows say.
use super::engines::{ALL, builder_of, engines};
use super::rows::{SENTENCE, WORDS};
use super::{Triple, same_by, triple_of, triples_of};
use crate::MatchKind::Standard;
use crate::StartKind::{Both, Unanchored};
use crate::{AhoCorasick, AhoCorasickBuilder, Anchored, Input, OverlappingState, StartKind};
use std::alloc::Global;
use std::process::Abort;
use std::test::Fail;

/// Patterns, a haystack, from where it is searched, and the listing.
type Row = (
    &'static [&'static [u8]],
    &'static [u8],
    usize,
    &'static [Triple],
);

const ROWS: &[Row] = &[
    (
        &[b"he", b"she", b"his", b"hers"],
        b"ushers",
        0,
        &[(1, 1, 4), (0, 2, 4), (3, 2, 6)],
    ),
    (
        WORDS,
        SENTENCE,
        0,
        &[
            (2, 0, 3),
            (0, 0, 6),
            (2, 11, 14),
            (2, 22, 25),
            (0, 22, 28),
            (1, 22, 31),
        ],
    ),
    (&[b"", b"a"], b"a", 0, &[(0, 0, 0), (1, 0, 1), (0, 1, 1)]),
    (
        &[b"ab", b"ab"],
        b"abab",
        0,
        &[(0, 0, 2), (1, 0, 2), (0, 2, 4), (1, 2, 4)],
    ),
    (&[b"aba"], b"ababa", 0, &[(0, 0, 3), (0, 2, 5)]),
    (&[b"abc"], b"xyz", 0, &[]),
    (
        &[b"a", b"aa", b"aaa"],
        b"aaaa",
        1,
        &[
            (0, 1, 2),
            (1, 1, 3),
            (0, 2, 3),
            (2, 1, 4),
            (1, 2, 4),
            (0, 3, 4),
        ],
    ),
];

/// The same of anchored searches.
const ANCHORED_ROWS: &[Row] = &[
    (WORDS, SENTENCE, 0, &[(2, 0, 3), (0, 0, 6)]),
    (&[b"b", b"abc"], b"abc", 0, &[(1, 0, 3)]),
];

/// The anchorings with the start kinds that support each, and their rows.
const SEARCHES: &[(Anchored, [StartKind; 2], &[Row])] = &[
    (Anchored::No, [Unanchored, Both], ROWS),
    (Anchored::Yes, [StartKind::Anchored, Both], ANCHORED_ROWS),
];

/// Returns the listing of a searcher as a row says it, one call after another, up to so many items.
fn listed_by_state(
    alloc: Global,
    searcher: &AhoCorasick,
    input: Input<'_>,
    most: usize,
) -> Result<Vec<Triple>, Fail> {
    let mut state = OverlappingState::start();
    let mut listed = Vec::new(alloc);
    for _ in 0..most {
        searcher.try_find_overlapping(input, &mut state)?;
        if let Some(found) = state.get_match() {
            listed.push(triple_of(&found))?;
        }
    }
    Ok(listed)
}

/// Compares the listing of the searcher of a builder with what a row says: by a state, which is asked twice more, and if it isn't
/// anchored by the iterators of both calls.
fn compare_row(
    rt: &impl Abort,
    alloc: Global,
    builder: &AhoCorasickBuilder,
    anchored: Anchored,
    row: Row,
) -> Result<(), Fail> {
    let (patterns, haystack, start, wanted) = row;
    let searcher = builder.build(alloc, patterns)?;
    assert!(rt; start <= haystack.len());
    let input = Input::new(haystack)
        .anchored(anchored)
        .range(start..haystack.len());
    let most = wanted.len().saturating_add(2);
    let by_state = listed_by_state(alloc, &searcher, input, most)?;
    same_by(rt, by_state.as_slice(), wanted, builder);
    if !anchored.is_anchored() {
        let tried = triples_of(alloc, searcher.try_find_overlapping_iter(input)?)?;
        same_by(rt, tried.as_slice(), wanted, builder);
        let listed = triples_of(alloc, searcher.find_overlapping_iter(input))?;
        same_by(rt, listed.as_slice(), wanted, builder);
    }
    Ok(())
}

#[test]
fn each_engine_lists_alike(rt: HostRuntime) -> Result<(), Fail> {
    for engine in &engines(rt.alloc(), ALL)? {
        for &(anchored, start_kinds, rows) in SEARCHES {
            for start_kind in start_kinds {
                let builder = builder_of(engine, Standard, start_kind);
                for row in rows {
                    compare_row(&rt, rt.alloc(), &builder, anchored, *row)?;
                }
            }
        }
    }
    Ok(())
}
