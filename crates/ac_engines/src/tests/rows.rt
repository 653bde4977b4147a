//! Worked rows of the engines: patterns, haystacks, and what is found in them.
use super::{PRONOUNS, Triple};
use ac_util::search::Anchored::{No, Yes};
use ac_util::search::MatchKind::{LeftmostFirst, LeftmostLongest, Standard};
use ac_util::search::{Anchored, MatchKind};

/// A match kind, whether case is ignored, and whether searches are anchored.
pub(crate) type Search = (MatchKind, bool, Anchored);

pub(super) const STANDARD: Search = (Standard, false, No);

const FIRST: Search = (LeftmostFirst, false, No);

const LONGEST: Search = (LeftmostLongest, false, No);

const FOLDED: Search = (Standard, true, No);

const FOLDED_FIRST: Search = (LeftmostFirst, true, No);

const FROM_START: Search = (Standard, false, Yes);

const FIRST_FROM_START: Search = (LeftmostFirst, false, Yes);

const LONGEST_FROM_START: Search = (LeftmostLongest, false, Yes);

const FRUIT: &[&[u8]] = &[b"apple", b"maple", b"Snapple"];

const LIKES: &[u8] = b"Nobody likes maple in their apple flavored Snapple.";

const FRUITS: &[Triple] = &[(1, 13, 18), (0, 28, 33), (2, 43, 50)];

const PREFIXES: &[&[u8]] = &[b"b", b"abc", b"abcd"];

const WORDS: &[&[u8]] = &[b"append", b"appendage", b"app"];

const SENTENCE: &[u8] = b"append the app to the appendage";

/// A long pattern that fails at its last byte.
const FAILS_LATE: &[&[u8]] = &[b"a", b"abcdefghi", b"hz", b"abcdefgh"];

const FAILS_LATER: &[&[u8]] = &[b"b", b"abcdefghi", b"hz", b"abcdefgh"];

const FOO: &[&[u8]] = &[b"FOO", b"bAr", b"BaZ"];

const QUUX: &[&[u8]] = &[b"foo", b"bar", b"quux"];

/// How is searched, for which patterns, in which haystack, and the walk.
pub(super) type Row = (
    Search,
    &'static [&'static [u8]],
    &'static [u8],
    &'static [Triple],
);

pub(super) const WALKS: &[Row] = &[
    (STANDARD, FRUIT, LIKES, FRUITS),
    (FIRST, FRUIT, LIKES, FRUITS),
    (LONGEST, FRUIT, LIKES, FRUITS),
    (STANDARD, &PRONOUNS, b"ushers", &[(1, 1, 4)]),
    (STANDARD, PREFIXES, b"abcd", &[(0, 1, 2)]),
    (FIRST, PREFIXES, b"abcd", &[(1, 0, 3)]),
    (LONGEST, PREFIXES, b"abcd", &[(2, 0, 4)]),
    (STANDARD, &[b"Samwise", b"Sam"], b"Samwise", &[(1, 0, 3)]),
    (FIRST, &[b"Samwise", b"Sam"], b"Samwise", &[(0, 0, 7)]),
    (
        STANDARD,
        WORDS,
        SENTENCE,
        &[(2, 0, 3), (2, 11, 14), (2, 22, 25)],
    ),
    (
        FIRST,
        WORDS,
        SENTENCE,
        &[(0, 0, 6), (2, 11, 14), (0, 22, 28)],
    ),
    (
        LONGEST,
        WORDS,
        SENTENCE,
        &[(0, 0, 6), (2, 11, 14), (1, 22, 31)],
    ),
    (STANDARD, &[b"", b"a"], b"a", &[(0, 0, 0), (0, 1, 1)]),
    (LONGEST, &[b"", b"a"], b"ba", &[(0, 0, 0), (1, 1, 2)]),
    (
        LONGEST_FROM_START,
        &[b"", b"a"],
        b"ba",
        &[(0, 0, 0), (1, 1, 2)],
    ),
    (FIRST, FAILS_LATE, b"abcdefghz", &[(0, 0, 1), (2, 7, 9)]),
    (LONGEST, FAILS_LATE, b"abcdefghz", &[(3, 0, 8)]),
    (FIRST, FAILS_LATER, b"abcdefghz", &[(3, 0, 8)]),
    (LONGEST, FAILS_LATER, b"abcdefghz", &[(3, 0, 8)]),
    (
        FIRST,
        &[b"abc", b"bd", b""],
        b"abd",
        &[(2, 0, 0), (1, 1, 3)],
    ),
    (STANDARD, &[b"ab", b"ab"], b"abab", &[(0, 0, 2), (0, 2, 4)]),
    (FIRST, PREFIXES, b"foo abcd", &[(1, 4, 7)]),
    (FIRST_FROM_START, PREFIXES, b"foo abcd", &[]),
    (FROM_START, PREFIXES, b"abcd", &[(1, 0, 3)]),
    (LONGEST_FROM_START, PREFIXES, b"abcd", &[(2, 0, 4)]),
    (
        FIRST_FROM_START,
        QUUX,
        b"fooquuxbar foo",
        &[(0, 0, 3), (2, 3, 7), (1, 7, 10)],
    ),
    (STANDARD, &[b"abc", b"bd"], b"abd", &[(1, 1, 3)]),
    (FROM_START, &[b"abc", b"bd"], b"abd", &[]),
    (STANDARD, &[], b"abc", &[]),
    (STANDARD, &[b""], b"", &[(0, 0, 0)]),
    (STANDARD, FOO, b"foo bar baz", &[]),
    (
        FOLDED,
        FOO,
        b"foo bar baz",
        &[(0, 0, 3), (1, 4, 7), (2, 8, 11)],
    ),
    (FOLDED, &[b"apple", b"maple", b"snapple"], LIKES, FRUITS),
    (
        FOLDED_FIRST,
        &[b"b", b"ABC", b"abcd"],
        b"abcd",
        &[(1, 0, 3)],
    ),
];

/// Patterns, a haystack, and the listing.
pub(super) type Listing = (&'static [&'static [u8]], &'static [u8], &'static [Triple]);

pub(super) const LISTINGS: &[Listing] = &[
    (&PRONOUNS, b"ushers", &[(1, 1, 4), (0, 2, 4), (3, 2, 6)]),
    (
        WORDS,
        SENTENCE,
        &[
            (2, 0, 3),
            (0, 0, 6),
            (2, 11, 14),
            (2, 22, 25),
            (0, 22, 28),
            (1, 22, 31),
        ],
    ),
    (&[b"", b"a"], b"a", &[(0, 0, 0), (1, 0, 1), (0, 1, 1)]),
    (
        &[b"ab", b"ab"],
        b"abab",
        &[(0, 0, 2), (1, 0, 2), (0, 2, 4), (1, 2, 4)],
    ),
];
