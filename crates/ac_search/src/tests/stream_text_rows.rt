//! Worked rows of streams: what is written with their matches exchanged.
use super::devices::{ALWAYS, End, READ, WRITE};
use super::engines::EACH;
use super::rows::PREFIXES;
use super::stream_rows::{FAILED, FIRST, FOX, Given, LONGEST, QUICK, STANDARD};
use crate::MatchKind;
use std::io::ErrorKind::{Interrupted, Other};

/// How matches are exchanged: by a list, or by a closure that writes the text of the pattern, and fails after that of this number.
#[derive(Clone, Copy)]
pub(super) enum Form {
    List,
    Closure { failing: usize },
}

/// A list, and a closure that doesn't fail.
pub(super) const FORMS: &[Form] = &[Form::List, Form::Closure { failing: 9 }];

/// How many bytes a writer takes a call, how many in all, and whether it fails then.
pub(super) type Taken = (usize, usize, bool);

/// A stream and a writer, what is written, and how the call ends.
pub(super) type Text<'a> = (Given<'a>, Taken, &'a [u8], End);

/// Patterns, match kinds, the texts of the patterns, and how these are written.
pub(super) type Exchange = (
    &'static [&'static [u8]],
    &'static [MatchKind],
    &'static [&'static [u8]],
    &'static [Form],
);

/// More bytes than any writer here takes.
pub(super) const ROOM: usize = 64;

/// A writer that takes a byte a call.
const NARROW: Taken = (1, ROOM, true);

const SLOTH: Exchange = (FOX, STANDARD, &[b"sloth", b"grey", b"slow"], FORMS);

const DIGITS: &[&[u8]] = &[b"0", b"1", b"2"];

/// Texts for patterns of which one begins the other.
pub(super) const NUMBERS: &[&[u8]] = &[b"1", b"2", b"3"];

/// A stream in which such patterns stand.
const LETTERS: &[u8] = b"xabcdbx";

/// Streams and writers, by what is exchanged.
pub(super) const TEXTS: &[(Exchange, &[Text<'static>])] = &[
    (SLOTH, READS),
    (SLOTH, WRITES),
    ((PREFIXES, LONGEST, NUMBERS, FORMS), SETTLED),
    (
        (PREFIXES, FIRST, NUMBERS, FORMS),
        &[(
            (b"xabcdabcbx", 1, ALWAYS, None),
            NARROW,
            b"x2d21x",
            End::Whole,
        )],
    ),
    (
        (FOX, STANDARD, &[b"", b"", b""], FORMS),
        &[((QUICK, 1, ALWAYS, None), NARROW, b"The   .", End::Whole)],
    ),
    (
        (FOX, STANDARD, DIGITS, FORMS),
        &[((QUICK, 1, ALWAYS, None), NARROW, b"The 2 1 0.", End::Whole)],
    ),
    (
        (FOX, STANDARD, DIGITS, &[Form::Closure { failing: 1 }]),
        &[((QUICK, 1, ALWAYS, None), NARROW, b"The 2 1", End::Io(Other))],
    ),
    (
        (&[], EACH, &[], &[Form::List]),
        &[((b"abc", 1, ALWAYS, None), NARROW, b"abc", End::Whole)],
    ),
];

/// The same that are replaced once by each engine.
pub(super) const STOPPED_TEXTS: &[(Exchange, &[Text<'static>])] = &[
    ((&[b"abc"], EACH, &[b"-"], FORMS), STOPS),
    (
        (PREFIXES, STANDARD, NUMBERS, FORMS),
        &[((LETTERS, 1, ALWAYS, None), NARROW, b"xa1cd1x", End::Whole)],
    ),
    (
        (PREFIXES, FIRST, NUMBERS, FORMS),
        &[((LETTERS, 1, ALWAYS, None), NARROW, b"x2d1x", End::Whole)],
    ),
    (
        (PREFIXES, LONGEST, NUMBERS, FORMS),
        &[((LETTERS, 1, ALWAYS, None), NARROW, b"x31x", End::Whole)],
    ),
];

/// Reads that cut a stream anywhere, and that fail anywhere.
const READS: &[Text<'static>] = &[
    (
        (QUICK, 1, ALWAYS, None),
        NARROW,
        b"The slow grey sloth.",
        End::Whole,
    ),
    (
        (QUICK, 2, ALWAYS, None),
        NARROW,
        b"The slow grey sloth.",
        End::Whole,
    ),
    (
        (QUICK, 3, ALWAYS, None),
        NARROW,
        b"The slow grey sloth.",
        End::Whole,
    ),
    (
        (QUICK, 7, ALWAYS, None),
        NARROW,
        b"The slow grey sloth.",
        End::Whole,
    ),
    (
        (QUICK, 65536, ALWAYS, None),
        NARROW,
        b"The slow grey sloth.",
        End::Whole,
    ),
    ((QUICK, 1, 0, Some(READ)), NARROW, b"", FAILED),
    ((QUICK, 1, 4, Some(READ)), NARROW, b"", FAILED),
    ((QUICK, 1, 5, Some(READ)), NARROW, b"T", FAILED),
    ((QUICK, 1, 9, Some(READ)), NARROW, b"The slow", FAILED),
    ((QUICK, 1, 14, Some(READ)), NARROW, b"The slow ", FAILED),
    ((QUICK, 1, 15, Some(READ)), NARROW, b"The slow grey", FAILED),
    (
        (QUICK, 1, 19, Some(READ)),
        NARROW,
        b"The slow grey sloth",
        FAILED,
    ),
    (
        (QUICK, 1, 20, Some(READ)),
        NARROW,
        b"The slow grey sloth",
        FAILED,
    ),
    ((QUICK, 12, 1, Some(READ)), NARROW, b"The slow", FAILED),
];

/// Writes that fail or take nothing anywhere.
const WRITES: &[Text<'static>] = &[
    (
        (QUICK, 1, ALWAYS, None),
        (7, ROOM, true),
        b"The slow grey sloth.",
        End::Whole,
    ),
    (
        (QUICK, 1, ALWAYS, None),
        (1, 10, true),
        b"The slow g",
        End::Io(WRITE),
    ),
    (
        (QUICK, 1, ALWAYS, None),
        (3, 3, true),
        b"The",
        End::Io(WRITE),
    ),
    (
        (QUICK, 1, ALWAYS, None),
        (1, 5, false),
        b"The s",
        End::WriteZero,
    ),
    ((QUICK, 1, ALWAYS, None), (1, 0, false), b"", End::WriteZero),
    (
        (QUICK, 1, ALWAYS, None),
        (1, 19, true),
        b"The slow grey sloth",
        End::Io(WRITE),
    ),
];

/// What is settled under a leftmost kind is written.
const SETTLED: &[Text<'static>] = &[
    ((b"abc", 1, 3, Some(READ)), NARROW, b"", FAILED),
    ((b"abc", 1, ALWAYS, None), NARROW, b"2", End::Whole),
    ((b"abcxxxxx", 1, 8, Some(READ)), NARROW, b"2x", FAILED),
    (
        (b"abcxxxxx", 1, ALWAYS, None),
        NARROW,
        b"2xxxxx",
        End::Whole,
    ),
    ((b"xabcdabcbx", 1, 9, Some(READ)), NARROW, b"x32", FAILED),
    (
        (b"xabcdabcbx", 1, ALWAYS, None),
        NARROW,
        b"x321x",
        End::Whole,
    ),
];

/// A read of no byte is the end, and an interrupted read isn't tried again.
const STOPS: &[Text<'static>] = &[
    ((b"abc", 2, 1, None), NARROW, b"ab", End::Whole),
    ((b"xabcabc", 3, 2, None), NARROW, b"x-ab", End::Whole),
    (
        (b"abc", 3, 0, Some(Interrupted)),
        NARROW,
        b"",
        End::Io(Interrupted),
    ),
    (
        (b"xabcabc", 6, 1, Some(Interrupted)),
        NARROW,
        b"x-",
        End::Io(Interrupted),
    ),
];
