//! Streams by lists of at most two short patterns, cut in every way, and the plain search beside them.
ghost use Rattle.std.specs.Prelude.{◌≡◌, ◌≤◌, length};

use ac_search::MatchKind::{LeftmostFirst, LeftmostLongest, Standard};
use ac_search::plain::{Query, walk};
use ac_search::{
    AhoCorasick, AhoCorasickBuilder, AhoCorasickKind, Anchored, Input, Match, MatchKind, Span,
};
use cuts::{Wanted, compare_cuts};
use std::alloc::{AllocError, Global};
use std::test::Fail;

mod cuts;

/// How many words over two letters have at most three letters.
const PATTERNS: usize = 15;

/// How many have at most five.
const HAYSTACKS: usize = 63;

/// The engines, of which another one serves from list to list.
const ENGINES: [AhoCorasickKind; 3] = [
    AhoCorasickKind::NoncontiguousNFA,
    AhoCorasickKind::ContiguousNFA,
    AhoCorasickKind::DFA,
];

/// Returns the span of a whole haystack.
fn all_of(haystack: &[u8]) -> Span
    ensures { result ≡ record { start = 0; end = length haystack.now } }
{
    Span {
        start: 0,
        end: haystack.len(),
    }
}

/// Returns the walk of a searcher in memory.
fn walk_in_memory(
    alloc: Global,
    searcher: &AhoCorasick,
    stream: &[u8],
) -> Result<Vec<Match>, Fail> {
    let matches = searcher.try_find_iter(Input::new(stream))?;
    Ok(matches.collect(alloc)?)
}

/// Returns the walk of the plain search.
fn plain_walk(
    alloc: Global,
    kind: MatchKind,
    patterns: &[&[u8]],
    stream: &[u8],
) -> Result<Vec<Match>, AllocError>
    requires few { length patterns.now ≤ 2 }
{
    let query = Query::new(patterns, false, stream, Anchored::No, all_of(stream));
    walk(alloc, kind, &query)
}

/// How many words over two letters have at most three letters: by more of them no pattern goes on.
const ENDINGS: usize = 15;

/// Returns how many of the first matches of a stream the last byte can't have changed: those that the walk gives whichever
/// bytes stand in its place.
fn sure_of(
    alloc: Global,
    kind: MatchKind,
    patterns: &[&[u8]],
    stream: &[u8],
    walk: &[Match],
) -> Result<usize, AllocError>
    requires few { length patterns.now ≤ 2 }
{
    let before = &stream[..stream.len().saturating_sub(1)];
    let mut sure = walk.len();
    for number in 0..ENDINGS {
        let mut other = Vec::from_slice(alloc, before)?;
        other.extend_from_slice(&word(alloc, number)?)?;
        let other_walk = plain_walk(alloc, kind, patterns, &other)?;
        let same = walk.iter().zip(&other_walk).take_while(|(m, n)| m == n);
        sure = sure.min(same.count());
    }
    Ok(sure)
}

/// Compares the walk in memory, and those of the stream, with the plain search.
fn compare_stream(
    alloc: Global,
    searcher: &AhoCorasick,
    patterns: &[&[u8]],
    texts: &[&[u8]],
    stream: &[u8],
) -> Result<(), Fail>
    requires few { length patterns.now ≤ 2 }
    requires texts { length texts.now ≡ length patterns.now }
    requires built { length searcher.now.built.patterns ≡ length patterns.now }
{
    let walk = plain_walk(alloc, searcher.match_kind(), patterns, stream)?;
    if walk_in_memory(alloc, searcher, stream)?.as_slice() != walk.as_slice() {
        return Err(Fail::new("another walk in memory"));
    }
    let sure = sure_of(alloc, searcher.match_kind(), patterns, stream, &walk)?;
    let wanted = Wanted {
        stream,
        walk: &walk,
        sure,
        texts,
    };
    compare_cuts(alloc, searcher, &wanted)
}

/// Compares one of the engines under a match kind for a list of patterns, another one from list to list.
fn compare_kind(
    alloc: Global,
    number: usize,
    kind: MatchKind,
    patterns: &[&[u8]],
    texts: &[&[u8]],
    streams: &[Vec<u8>],
) -> Result<(), Fail>
    requires few { length patterns.now ≤ 2 }
    requires texts { length texts.now ≡ length patterns.now }
{
    let mut builder = AhoCorasickBuilder::new();
    builder.kind(Some(ENGINES[number % 3])).match_kind(kind);
    builder.prefilter(number % 2 == 0).dense_depth(number % 5);
    let searcher = builder.build(alloc, patterns)?;
    for stream in streams {
        compare_stream(alloc, &searcher, patterns, texts, stream)?;
    }
    Ok(())
}

/// Does so under each match kind.
fn compare(
    alloc: Global,
    number: usize,
    patterns: &[&[u8]],
    texts: &[&[u8]],
    streams: &[Vec<u8>],
) -> Result<(), Fail>
    requires few { length patterns.now ≤ 2 }
    requires texts { length texts.now ≡ length patterns.now }
{
    for kind in [Standard, LeftmostFirst, LeftmostLongest] {
        compare_kind(alloc, number, kind, patterns, texts, streams)?;
    }
    Ok(())
}

/// Returns the word of a number: its letters are the digits of the number, from 1 on, the least one first.
fn word(alloc: Global, number: usize) -> Result<Vec<u8>, AllocError> {
    let mut word = Vec::new(alloc);
    let mut left = number;
    for _ in 0..usize::BITS {
        if left > 0 {
            word.push(b"ab"[(left - 1) % 2])?;
            left = (left - 1) / 2;
        }
    }
    Ok(word)
}

/// Returns the first words over two letters, shorter ones first.
fn words(alloc: Global, count: usize) -> Result<Vec<Vec<u8>>, AllocError> {
    let mut words = Vec::new(alloc);
    for number in 0..count {
        words.push(word(alloc, number)?)?;
    }
    Ok(words)
}

/// Compares a list of two patterns.
fn compare_pair(
    alloc: Global,
    number: usize,
    first: &[u8],
    second: usize,
    streams: &[Vec<u8>],
) -> Result<(), Fail> {
    let second = word(alloc, second)?;
    compare(alloc, number, &[first, &second], &[b"-", b"bab"], streams)
}

/// Compares the lists that begin with the pattern of a number.
fn compare_lists(alloc: Global, number: usize, streams: &[Vec<u8>]) -> Result<(), Fail> {
    let first = word(alloc, number)?;
    compare(alloc, number, &[&first], &[b"-"], streams)?;
    for second in 1..PATTERNS {
        compare_pair(alloc, number.wrapping_add(second), &first, second, streams)?;
    }
    Ok(())
}

#[test]
fn streams_are_cut_in_every_way(rt: HostRuntime) -> Result<(), Fail> {
    let streams = words(rt.alloc(), HAYSTACKS)?;
    compare(rt.alloc(), 0, &[], &[], &streams)?;
    for number in 1..PATTERNS {
        compare_lists(rt.alloc(), number, &streams)?;
    }
    Ok(())
}
