//! Worked rows by `find`, `is_match` and `find_iter`, which each engine answers with its usual settings.
use super::engines::{EACH, KINDS, builder_of, usual};
use super::rows::{FAILS_LATE, FAILS_LATER, PREFIXES, SENTENCE, WORDS};
use super::{Triple, same_by, triple_of, triples_of};
use crate::MatchKind::{LeftmostFirst, LeftmostLongest, Standard};
use crate::StartKind::{Both, Unanchored};
use crate::{AhoCorasickBuilder, Anchored, Input, MatchKind, StartKind};
use std::alloc::{AllocError, Global};
use std::process::Abort;
use std::test::Fail;

const STANDARD: &[MatchKind] = &[Standard];

const FIRST: &[MatchKind] = &[LeftmostFirst];

const LONGEST: &[MatchKind] = &[LeftmostLongest];

const LEFTMOST: &[MatchKind] = &[LeftmostFirst, LeftmostLongest];

/// Patterns, match kinds, a haystack, and the walk.
type Row = (
    &'static [&'static [u8]],
    &'static [MatchKind],
    &'static [u8],
    &'static [Triple],
);

const APPLES: &[&[u8]] = &[b"apple", b"maple", b"Snapple"];

const NOBODY: &[u8] = b"Nobody likes maple in their apple flavored Snapple.";

/// The walk of the apples in that haystack.
const THREE: &[Triple] = &[(1, 13, 18), (0, 28, 33), (2, 43, 50)];

const SAMS: &[&[u8]] = &[b"Samwise", b"Sam"];

/// Rows in which nothing is said but the match kind.
const ROWS: &[Row] = &[
    (APPLES, EACH, NOBODY, THREE),
    (PREFIXES, STANDARD, b"abcd", &[(0, 1, 2)]),
    (PREFIXES, FIRST, b"abcd", &[(1, 0, 3)]),
    (PREFIXES, LONGEST, b"abcd", &[(2, 0, 4)]),
    (SAMS, STANDARD, b"Samwise", &[(1, 0, 3)]),
    (SAMS, FIRST, b"Samwise", &[(0, 0, 7)]),
    (
        WORDS,
        STANDARD,
        SENTENCE,
        &[(2, 0, 3), (2, 11, 14), (2, 22, 25)],
    ),
    (
        WORDS,
        FIRST,
        SENTENCE,
        &[(0, 0, 6), (2, 11, 14), (0, 22, 28)],
    ),
    (
        WORDS,
        LONGEST,
        SENTENCE,
        &[(0, 0, 6), (2, 11, 14), (1, 22, 31)],
    ),
    (&[b"", b"a"], STANDARD, b"a", &[(0, 0, 0), (0, 1, 1)]),
    (FAILS_LATE, FIRST, b"abcdefghz", &[(0, 0, 1), (2, 7, 9)]),
    (FAILS_LATE, LONGEST, b"abcdefghz", &[(3, 0, 8)]),
    (FAILS_LATER, LEFTMOST, b"abcdefghz", &[(3, 0, 8)]),
    (
        &[b"abc", b"bd", b""],
        FIRST,
        b"abd",
        &[(2, 0, 0), (1, 1, 3)],
    ),
    (&[b"ab", b"ab"], EACH, b"abab", &[(0, 0, 2), (0, 2, 4)]),
    (&[], EACH, b"abc", &[]),
    (&[b""], EACH, b"", &[(0, 0, 0)]),
    (CAPITALS, EACH, b"foo bar baz", &[]),
    (
        &[b"he", b"she", b"his", b"hers"],
        STANDARD,
        b"ushers",
        &[(1, 1, 4)],
    ),
    (
        &[b"a", b"aa"],
        STANDARD,
        b"aaa",
        &[(0, 0, 1), (0, 1, 2), (0, 2, 3)],
    ),
    (&[b""], STANDARD, b"ab", &[(0, 0, 0), (0, 1, 1), (0, 2, 2)]),
    (&[b"bc", b"abcd"], STANDARD, b"abcd", &[(0, 1, 3)]),
    (&[b"abcd", b"bc"], FIRST, b"abce", &[(1, 1, 3)]),
    (&[b"abcd", b"bc"], FIRST, b"abcd", &[(0, 0, 4)]),
    (&[b"aba"], EACH, b"ababa", &[(0, 0, 3)]),
];

/// Rows of earliest searches.
const EARLIEST_ROWS: &[Row] = &[
    (PREFIXES, EACH, b"abcd", &[(0, 1, 2)]),
    (PREFIXES, EACH, b"foo abcd", &[(0, 5, 6)]),
    (PREFIXES, EACH, b"abcdabcd", &[(0, 1, 2), (0, 5, 6)]),
];

const CAPITALS: &[&[u8]] = &[b"FOO", b"bAr", b"BaZ"];

/// Rows in which case is ignored.
const CASELESS_ROWS: &[Row] = &[
    (
        CAPITALS,
        EACH,
        b"foo bar baz",
        &[(0, 0, 3), (1, 4, 7), (2, 8, 11)],
    ),
    (&[b"apple", b"maple", b"snapple"], EACH, NOBODY, THREE),
    (&[b"ab", b"AB"], EACH, b"aB", &[(0, 0, 2)]),
    (&[b"["], EACH, b"{", &[]),
];

/// Rows of searchers that support both anchorings.
const BOTH_ROWS: &[Row] = &[
    (&[b"", b"a"], LONGEST, b"ba", &[(0, 0, 0), (1, 1, 2)]),
    (PREFIXES, FIRST, b"foo abcd", &[(1, 4, 7)]),
    (PREFIXES, EACH, b"xb", &[(0, 1, 2)]),
];

/// Rows of anchored searches.
const ANCHORED_ROWS: &[Row] = &[
    (&[b"", b"a"], LONGEST, b"ba", &[(0, 0, 0), (1, 1, 2)]),
    (PREFIXES, FIRST, b"foo abcd", &[]),
    (PREFIXES, STANDARD, b"abcd", &[(1, 0, 3)]),
    (PREFIXES, LONGEST, b"abcd", &[(2, 0, 4)]),
    (PREFIXES, EACH, b"abd", &[]),
    (PREFIXES, EACH, b"xb", &[]),
    (
        &[b"foo", b"bar", b"quux"],
        FIRST,
        b"fooquuxbar foo",
        &[(0, 0, 3), (2, 3, 7), (1, 7, 10)],
    ),
];

/// Rows of searches that are anchored and earliest.
const FIRST_END_ROWS: &[Row] = &[(PREFIXES, LONGEST, b"abcd", &[(1, 0, 3)])];

/// A span of "xabcx", and what is found of "abc" in it.
const SPANS: &[((usize, usize), &[Triple])] = &[
    ((1, 4), &[(0, 1, 4)]),
    ((1, 3), &[]),
    ((2, 5), &[]),
    ((5, 5), &[]),
];

/// Compares the find, the answer whether there is a match, and the walk with what a row says.
fn compare_input(
    rt: &impl Abort,
    alloc: Global,
    builder: &AhoCorasickBuilder,
    patterns: &[&[u8]],
    input: Input<'_>,
    wanted: &[Triple],
) -> Result<(), Fail> {
    let searcher = builder.build(alloc, patterns)?;
    searcher.try_find(input)?;
    let found = searcher.find(input).map(|m| triple_of(&m));
    same_by(rt, found, wanted.first().copied(), builder);
    same_by(rt, searcher.is_match(input), !wanted.is_empty(), builder);
    let walk = triples_of(alloc, searcher.find_iter(input))?;
    same_by(rt, walk.as_slice(), wanted, builder);
    Ok(())
}

/// How rows are searched: the start kind, whether the search is anchored, whether it is earliest, and whether case is ignored.
type How = (StartKind, Anchored, bool, bool);

/// Compares rows by each engine and each match kind that they name.
fn compare_rows(
    rt: &impl Abort,
    alloc: Global,
    (start_kind, anchored, is_earliest, ignores_case): How,
    rows: &[Row],
) -> Result<(), Fail> {
    for &(patterns, kinds, haystack, wanted) in rows {
        let input = Input::new(haystack)
            .anchored(anchored)
            .earliest(is_earliest);
        for engine in KINDS {
            for &kind in kinds {
                let mut builder = builder_of(&usual(engine), kind, start_kind);
                builder.ascii_case_insensitive(ignores_case);
                compare_input(rt, alloc, &builder, patterns, input, wanted)?;
            }
        }
    }
    Ok(())
}

/// How rows are searched, and the rows.
const SEARCHES: &[(How, &[Row])] = &[
    ((Unanchored, Anchored::No, false, false), ROWS),
    ((Unanchored, Anchored::No, true, false), EARLIEST_ROWS),
    ((Unanchored, Anchored::No, false, true), CASELESS_ROWS),
    ((Both, Anchored::No, false, false), BOTH_ROWS),
    ((Both, Anchored::Yes, false, false), ANCHORED_ROWS),
    ((Both, Anchored::Yes, true, false), FIRST_END_ROWS),
    (
        (StartKind::Anchored, Anchored::Yes, false, false),
        ANCHORED_ROWS,
    ),
];

#[test]
fn each_engine_finds_alike(rt: HostRuntime) -> Result<(), Fail> {
    for &(how, rows) in SEARCHES {
        compare_rows(&rt, rt.alloc(), how, rows)?;
    }
    Ok(())
}

#[test]
fn each_engine_finds_alike_in_a_span(rt: HostRuntime) -> Result<(), Fail> {
    for engine in KINDS {
        for &kind in EACH {
            let builder = builder_of(&usual(engine), kind, Unanchored);
            for &((start, end), wanted) in SPANS {
                let input = Input::new(b"xabcx").range(start..end);
                compare_input(&rt, rt.alloc(), &builder, &[b"abc"], input, wanted)?;
            }
        }
    }
    Ok(())
}

/// Anchored at 4, the first pattern that stands there matches.
#[test]
fn each_engine_finds_alike_from_an_offset(rt: HostRuntime) -> Result<(), Fail> {
    let input = Input::new(b"foo abcd").anchored(Anchored::Yes).range(4..8);
    for engine in KINDS {
        let builder = builder_of(&usual(engine), LeftmostFirst, Both);
        compare_input(&rt, rt.alloc(), &builder, PREFIXES, input, &[(1, 4, 7)])?;
    }
    Ok(())
}

/// Returns the byte "a" before each byte from 128 up to a last one.
fn pairs_up_to(alloc: Global, last: u8) -> Result<Vec<u8>, AllocError> {
    let mut pairs = Vec::new(alloc);
    for second in 128..=last {
        pairs.extend_from_slice(&[b'a', second])?;
    }
    Ok(pairs)
}

/// Compares the walk over all pairs, each of which is a pattern, with them in order.
fn compare_pairs(rt: &impl Abort, alloc: Global, pairs: &[u8]) -> Result<(), Fail> {
    let mut patterns = Vec::new(alloc);
    let mut wanted = Vec::new(alloc);
    for (number, pair) in pairs.chunks(2).enumerate() {
        let start = number.saturating_mul(2);
        patterns.push(pair)?;
        wanted.push((number, start, start.saturating_add(2)))?;
    }
    for engine in KINDS {
        let mut builder = builder_of(&usual(engine), Standard, Unanchored);
        builder.dense_depth(0);
        compare_input(rt, alloc, &builder, &patterns, Input::new(pairs), &wanted)?;
    }
    Ok(())
}

/// A state leads on by 127 bytes, or by one more than a sparse one may.
#[test]
fn each_engine_finds_each_pair(rt: HostRuntime) -> Result<(), Fail> {
    for last in [254, 255] {
        let pairs = pairs_up_to(rt.alloc(), last)?;
        compare_pairs(&rt, rt.alloc(), &pairs)?;
    }
    Ok(())
}
