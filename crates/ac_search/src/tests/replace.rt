//! Each engine replaces as rows say, by lists and by closures.
use super::engines::{ALL, builder_of, engines};
use super::rows::WORDS;
use super::{same, same_by};
use crate::MatchKind::{LeftmostFirst, Standard};
use crate::StartKind::{Both, Unanchored};
use crate::{AhoCorasick, MatchError, MatchKind, ReplaceError};
use std::alloc::Global;
use std::process::Abort;
use std::test::Fail;

const SENTENCE: &str = "append the app to the appendage";

const FOX: &[&[u8]] = &[b"fox", b"brown", b"quick"];

/// Patterns, a match kind, their texts as such and as bytes, a haystack, and the same with the matches exchanged: as bytes, and as
/// a text, in which no character is cut.
type Row = (
    &'static [&'static [u8]],
    MatchKind,
    (&'static [&'static str], &'static [&'static [u8]]),
    &'static str,
    &'static [u8],
    &'static str,
);

const ROWS: &[Row] = &[
    (
        WORDS,
        LeftmostFirst,
        (&["x", "y", "z"], &[b"x", b"y", b"z"]),
        SENTENCE,
        b"x the z to the xage",
        "x the z to the xage",
    ),
    (
        FOX,
        Standard,
        (&["sloth", "grey", "slow"], &[b"sloth", b"grey", b"slow"]),
        "The quick brown fox.",
        b"The slow grey sloth.",
        "The slow grey sloth.",
    ),
    (&[b""], Standard, (&["-"], &[b"-"]), "ab", b"-a-b-", "-a-b-"),
    (
        &[b""],
        Standard,
        (&["-"], &[b"-"]),
        "é",
        b"-\xC3-\xA9-",
        "-é-",
    ),
    (&[b"\xC3"], Standard, (&["x"], &[b"x"]), "é", b"x\xA9", "é"),
    // the second pattern stands in what the first one cut, where a walk taken anew would find it
    (
        &[b"\xA9 ", b" "],
        LeftmostFirst,
        (&["x", "y"], &[b"x", b"y"]),
        "é é",
        b"\xC3x\xC3\xA9",
        "é é",
    ),
    (&[], Standard, (&[], &[]), "abc", b"abc", "abc"),
];

/// Compares the replacement of bytes and of a text with what a row says.
fn compare_replaced(
    rt: &impl Abort,
    alloc: Global,
    searcher: &AhoCorasick,
    (_, _, (texts, bytes), haystack, in_bytes, in_text): Row,
) -> Result<(), Fail> {
    let len = searcher.patterns_len();
    assert!(rt; texts.len() == len && bytes.len() == len);
    let replaced = searcher.try_replace_all_bytes(alloc, haystack.as_bytes(), bytes)?;
    same_by(rt, replaced.as_slice(), in_bytes, searcher);
    let replaced = searcher.try_replace_all(alloc, haystack, texts)?;
    same_by(rt, replaced.as_str(), in_text, searcher);
    Ok(())
}

#[test]
fn each_engine_replaces_alike(rt: HostRuntime) -> Result<(), Fail> {
    for engine in &engines(rt.alloc(), ALL)? {
        for &row in ROWS {
            for start_kind in [Unanchored, Both] {
                let builder = builder_of(engine, row.1, start_kind);
                let searcher = builder.build(rt.alloc(), row.0)?;
                compare_replaced(&rt, rt.alloc(), &searcher, row)?;
            }
        }
    }
    Ok(())
}

/// What a closure does at a match: it appends something, and goes on unless the pattern has this number; it takes away all that
/// was appended and what was there before; it appends nothing; it appends nothing, and asks for no more to be exchanged.
#[derive(Clone, Copy)]
enum Act {
    UpTo(usize),
    Clear,
    Drop,
    Stop,
}

/// Does this in a text, to which it appends the number of a pattern.
fn act_in_text(act: Act, number: usize, destination: &mut String) -> bool {
    match act {
        Act::UpTo(last) => {
            let digit = ["0", "1", "2"].get(number);
            destination.push_str(digit.unwrap_or(&"?")).is_ok() && number != last
        }
        Act::Clear => {
            destination.clear();
            true
        }
        Act::Drop => true,
        Act::Stop => false,
    }
}

/// Does this in bytes, to which it appends the match with a mark.
fn act_in_bytes(act: Act, number: usize, slice: &[u8], destination: &mut Vec<u8>) -> bool {
    match act {
        Act::UpTo(last) => {
            let appended = destination.extend_from_slice(slice).is_ok();
            appended && destination.push(b'!').is_ok() && number != last
        }
        Act::Clear => {
            destination.clear();
            true
        }
        Act::Drop => true,
        Act::Stop => false,
    }
}

/// Patterns and a haystack, what stands in the destination before, what the closure does, and what stands there then: in a
/// text and in bytes.
type ClosureRow = (
    &'static [&'static [u8]],
    &'static str,
    &'static str,
    Act,
    &'static str,
    &'static [u8],
);

const CLOSURES: &[ClosureRow] = &[
    (
        WORDS,
        SENTENCE,
        "pre",
        Act::UpTo(0),
        "pre0 the app to the appendage",
        b"preappend! the app to the appendage",
    ),
    (
        WORDS,
        SENTENCE,
        "",
        Act::UpTo(2),
        "0 the 2 to the appendage",
        b"append! the app! to the appendage",
    ),
    (
        WORDS,
        SENTENCE,
        "pre",
        Act::UpTo(2),
        "pre0 the 2 to the appendage",
        b"preappend! the app! to the appendage",
    ),
    (
        WORDS,
        SENTENCE,
        "pre",
        Act::UpTo(3),
        "pre0 the 2 to the 0age",
        b"preappend! the app! to the append!age",
    ),
    (WORDS, SENTENCE, "keep", Act::Clear, "age", b"age"),
    (
        WORDS,
        SENTENCE,
        "",
        Act::Stop,
        " the app to the appendage",
        b" the app to the appendage",
    ),
    (&[b"\xC3"], "é", "", Act::Drop, "é", b"\xA9"),
];

/// Does this at each match of a text.
fn act_on_text(
    searcher: &AhoCorasick,
    text: &str,
    destination: &mut String,
    act: Act,
) -> Result<(), ReplaceError> {
    searcher.try_replace_all_with(text, destination, |m, _, destination| {
        act_in_text(act, m.pattern().as_usize(), destination)
    })
}

/// Does this at each match of bytes.
fn act_on_bytes(
    searcher: &AhoCorasick,
    haystack: &[u8],
    destination: &mut Vec<u8>,
    act: Act,
) -> Result<(), ReplaceError> {
    searcher.try_replace_all_with_bytes(haystack, destination, |m, slice, destination| {
        act_in_bytes(act, m.pattern().as_usize(), slice, destination)
    })
}

/// Compares what closures leave in a text and in bytes with what a row says.
fn compare_closures(
    rt: &impl Abort,
    alloc: Global,
    searcher: &AhoCorasick,
    (_, haystack, before, act, in_text, in_bytes): ClosureRow,
) -> Result<(), Fail> {
    let mut text = String::from_str(alloc, before)?;
    act_on_text(searcher, haystack, &mut text, act)?;
    same_by(rt, text.as_str(), in_text, searcher);
    let mut bytes = before.as_bytes().to_vec(alloc)?;
    act_on_bytes(searcher, haystack.as_bytes(), &mut bytes, act)?;
    same_by(rt, bytes.as_slice(), in_bytes, searcher);
    Ok(())
}

#[test]
fn each_engine_calls_closures_alike(rt: HostRuntime) -> Result<(), Fail> {
    for engine in &engines(rt.alloc(), ALL)? {
        let builder = builder_of(engine, LeftmostFirst, Unanchored);
        for &row in CLOSURES {
            let searcher = builder.build(rt.alloc(), row.0)?;
            compare_closures(&rt, rt.alloc(), &searcher, row)?;
        }
    }
    Ok(())
}

/// Why a replacement is refused of a searcher that supports anchored searches alone.
const REFUSED: ReplaceError = ReplaceError::Match(MatchError::InvalidInputUnanchored);

/// Compares what replacements answer with a refusal, and what those by closures leave in the destination.
pub(super) fn compare_refused(
    rt: &impl Abort,
    alloc: Global,
    searcher: &AhoCorasick,
) -> Result<(), Fail> {
    assert!(rt; searcher.patterns_len() == 1);
    let text = searcher.try_replace_all(alloc, "a", &["x"]).err();
    let bytes = searcher.try_replace_all_bytes(alloc, b"a", &[b"x"]).err();
    same(rt, (text, bytes), (Some(REFUSED), Some(REFUSED)));
    let mut text = String::from_str(alloc, "pre")?;
    let answer = act_on_text(searcher, "a", &mut text, Act::Clear);
    same(rt, (answer, text.as_str()), (Err(REFUSED), "pre"));
    let mut bytes = b"pre".to_vec(alloc)?;
    let answer = act_on_bytes(searcher, b"a", &mut bytes, Act::Clear);
    same(rt, (answer, bytes.as_slice()), (Err(REFUSED), b"pre"));
    Ok(())
}
