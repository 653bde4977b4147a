ghost use Rattle.std.specs.Iterator.{IsFinite};

use crate::MatchKind::{LeftmostFirst, LeftmostLongest, Standard};
use crate::StartKind::Both;
use crate::{AhoCorasick, AhoCorasickBuilder, AhoCorasickKind, Input, Match, MatchKind, StartKind};
use std::alloc::{AllocError, Global};
use std::fmt::Debug;
use std::process::Abort;
use std::test::Fail;

mod choice;
mod devices;
mod engines;
mod listings;
mod pieces;
mod refusals;
mod replace;
mod replacers;
mod rows;
mod stream;
mod stream_rows;
mod stream_text_rows;
mod stream_texts;
mod util;
mod walks;
mod worked;

/// A pattern number, a start and an end.
type Triple = (usize, usize, usize);

/// Ends the test where what was found is not what was wanted. It is proved once, and `assert_eq!` where it stands.
fn same<T: PartialEq + Debug + Drop>(rt: &impl Abort, found: T, wanted: T) {
    assert_eq!(rt; found, wanted);
}

/// The same, and says what the search was made by.
pub(crate) fn same_by<T: PartialEq + Debug + Drop, B: Debug>(
    rt: &impl Abort,
    found: T,
    wanted: T,
    by: &B,
) {
    assert_eq!(rt; found, wanted, "{by:?}");
}

/// Returns what a row says of a match.
fn triple_of(m: &Match) -> Triple {
    (m.pattern().as_usize(), m.start(), m.end())
}

/// Returns what a row says of each match of an iterator.
fn triples_of<I: Iterator<Item = Match>>(
    alloc: Global,
    matches: I,
) -> Result<Vec<Triple>, AllocError>
    requires can { I.can_next matches }
    requires finite { IsFinite (I.remaining matches) }
{
    let mut triples = Vec::new(alloc);
    for found in matches {
        triples.push(triple_of(&found))?;
    }
    Ok(triples)
}

/// Returns the walk of a searcher as a row says it.
fn walk_of(alloc: Global, searcher: &AhoCorasick, input: Input<'_>) -> Result<Vec<Triple>, Fail> {
    Ok(triples_of(alloc, searcher.try_find_iter(input)?)?)
}

/// Compares the walk of a searcher with what it has to be.
fn same_walk(
    rt: &impl Abort,
    alloc: Global,
    searcher: &AhoCorasick,
    input: Input<'_>,
    wanted: &[Triple],
) -> Result<(), Fail> {
    let walked = walk_of(alloc, searcher, input)?;
    same(rt, walked.as_slice(), wanted);
    Ok(())
}

/// Compares which engine serves, the match kind and the start kind with what they have to be.
fn same_kinds(
    rt: &impl Abort,
    searcher: &AhoCorasick,
    engine: AhoCorasickKind,
    kind: MatchKind,
    start_kind: StartKind,
) {
    same(rt, searcher.kind(), engine);
    same(rt, searcher.match_kind(), kind);
    same(rt, searcher.start_kind(), start_kind);
}

/// Returns the shortest length of a pattern, the longest, and how many patterns there are.
fn lengths_of(searcher: &AhoCorasick) -> (usize, usize, usize) {
    (
        searcher.min_pattern_len(),
        searcher.max_pattern_len(),
        searcher.patterns_len(),
    )
}

/// Compares these with what they have to be.
fn same_lengths(rt: &impl Abort, searcher: &AhoCorasick, wanted: (usize, usize, usize)) {
    same(rt, lengths_of(searcher), wanted);
}

/// A builder can be used again after a build, and with other settings.
#[test]
fn each_setting_counts(rt: HostRuntime) -> Result<(), Fail> {
    let patterns: [&[u8]; 3] = [b"append", b"appendage", b"app"];
    let mut builder = AhoCorasick::builder();
    let usual = builder.build(rt.alloc(), &patterns)?;
    builder.match_kind(LeftmostFirst).start_kind(Both);
    builder
        .kind(Some(AhoCorasickKind::NoncontiguousNFA))
        .ascii_case_insensitive(true);
    let all = builder.build(rt.alloc(), &patterns)?;
    let engine = AhoCorasickKind::NoncontiguousNFA;
    same_kinds(&rt, &all, engine, LeftmostFirst, Both);
    let input = Input::new(b"appendage APP");
    same_walk(&rt, rt.alloc(), &usual, input, &[(2, 0, 3)])?;
    same_walk(&rt, rt.alloc(), &all, input, &[(0, 0, 6), (2, 10, 13)])
}

/// A clone of a builder has the settings from then, and a clone of a searcher answers as it does.
#[test]
fn a_clone_answers_equally(rt: HostRuntime) -> Result<(), Fail> {
    let mut builder = AhoCorasickBuilder::new();
    builder.match_kind(LeftmostLongest).start_kind(Both);
    builder.ascii_case_insensitive(true);
    let settings = builder.clone();
    builder.ascii_case_insensitive(false);
    let patterns: &[&[u8]] = &[b"he", b"she", b"hers"];
    let clone = settings.build(rt.alloc(), patterns)?.clone()?;
    let engine = AhoCorasickKind::ContiguousNFA;
    same_kinds(&rt, &clone, engine, LeftmostLongest, Both);
    same_lengths(&rt, &clone, (2, 4, 3));
    let wanted = [(1, 1, 4), (0, 7, 9)];
    same_walk(&rt, rt.alloc(), &clone, Input::new(b"usHERS he"), &wanted)
}

#[test]
fn a_searcher_is_shown(rt: HostRuntime) -> Result<(), Fail> {
    let alloc = rt.alloc();
    let searcher = AhoCorasick::new(alloc, &[b"a", b"b"])?;
    let shown = format!(in alloc; "{searcher:?}")?;
    let wanted = "AhoCorasick { kind: DFA, match_kind: Standard, patterns: 2 }";
    same(&rt, shown.as_str(), wanted);
    Ok(())
}
