//! Worked rows of streams: what is found in them.
use super::Triple;
use super::devices::{ALWAYS, End, READ};
use super::engines::EACH;
use super::rows::{FAILS_LATE, FAILS_LATER, PREFIXES, SENTENCE, WORDS};
use crate::MatchKind;
use crate::MatchKind::{LeftmostFirst, LeftmostLongest, Standard};
use std::io::ErrorKind;
use std::io::ErrorKind::Interrupted;

/// What a reader gives: bytes, so many a call at most; after so many calls it fails once, or gives none, and would go on.
pub(super) type Given<'a> = (&'a [u8], usize, usize, Option<ErrorKind>);

/// A stream, its matches, how it ends, and how many bytes are kept then.
pub(super) type Walk<'a> = (Given<'a>, &'a [Triple], End, usize);

pub(super) const FOX: &[&[u8]] = &[b"fox", b"brown", b"quick"];

pub(super) const QUICK: &[u8] = b"The quick brown fox.";

pub(super) const STANDARD: &[MatchKind] = &[Standard];

pub(super) const FIRST: &[MatchKind] = &[LeftmostFirst];

pub(super) const LONGEST: &[MatchKind] = &[LeftmostLongest];

const LEFTMOST: &[MatchKind] = &[LeftmostFirst, LeftmostLongest];

/// How a stream ends whose reader fails.
pub(super) const FAILED: End = End::Io(READ);

/// Patterns, match kinds, and streams.
pub(super) const WALKS: &[(&[&[u8]], &[MatchKind], &[Walk<'static>])] = &[
    (
        FOX,
        STANDARD,
        &[((QUICK, 1, 12, Some(READ)), &[(2, 4, 9)], FAILED, 3)],
    ),
    (
        WORDS,
        FIRST,
        &[(
            (SENTENCE, 1, ALWAYS, None),
            &[(0, 0, 6), (2, 11, 14), (0, 22, 28)],
            End::Whole,
            0,
        )],
    ),
    (
        WORDS,
        LONGEST,
        &[(
            (SENTENCE, 1, ALWAYS, None),
            &[(0, 0, 6), (2, 11, 14), (1, 22, 31)],
            End::Whole,
            0,
        )],
    ),
    (
        FAILS_LATER,
        LEFTMOST,
        &[((b"abcdefghz", 1, ALWAYS, None), &[(3, 0, 8)], End::Whole, 0)],
    ),
    (
        FAILS_LATE,
        FIRST,
        &[(
            (b"abcdefghz", 1, ALWAYS, None),
            &[(0, 0, 1), (2, 7, 9)],
            End::Whole,
            0,
        )],
    ),
    (
        FAILS_LATE,
        LONGEST,
        &[((b"abcdefghz", 1, ALWAYS, None), &[(3, 0, 8)], End::Whole, 0)],
    ),
    (
        PREFIXES,
        FIRST,
        &[((b"abcd", 1, 4, Some(READ)), &[(1, 0, 3)], FAILED, 1)],
    ),
    // A match that one more byte may change isn't given where the reader fails.
    (
        PREFIXES,
        LONGEST,
        &[
            ((b"abc", 1, ALWAYS, None), &[(1, 0, 3)], End::Whole, 0),
            ((b"abc", 1, 3, Some(READ)), &[], FAILED, 3),
            ((b"abcd", 1, 4, Some(READ)), &[], FAILED, 4),
            ((b"abcda", 1, 5, Some(READ)), &[(2, 0, 4)], FAILED, 1),
            ((b"abcx", 1, 4, Some(READ)), &[(1, 0, 3)], FAILED, 1),
            ((b"abcxxxxx", 1, 8, Some(READ)), &[(1, 0, 3)], FAILED, 4),
        ],
    ),
];

/// The same that are walked once by each engine, since settings show nothing there: a read of no byte is the end, and an
/// interrupted read isn't tried again.
pub(super) const STOPPED_WALKS: &[(&[&[u8]], &[MatchKind], &[Walk<'static>])] = &[(
    &[b"abc"],
    EACH,
    &[
        ((b"abc", 2, 1, None), &[], End::Whole, 0),
        ((b"xabcabc", 3, 2, None), &[(0, 1, 4)], End::Whole, 0),
        (
            (b"abc", 3, 0, Some(Interrupted)),
            &[],
            End::Io(Interrupted),
            0,
        ),
        (
            (b"xabcabc", 6, 1, Some(Interrupted)),
            &[(0, 1, 4)],
            End::Io(Interrupted),
            2,
        ),
    ],
)];
