//! What calls cost where no contract says it: how many reads and writes are made, and which bytes are copied.
use super::devices::Device;
use super::{many, same_by};
use ac_search::AhoCorasickKind::DFA;
use ac_search::MatchKind::{LeftmostFirst, LeftmostLongest, Standard};
use ac_search::{
    AhoCorasick, AhoCorasickBuilder, AhoCorasickKind, BuildError, FromRead, Input, IntoWrite,
    Match, MatchKind, ReplaceError, StreamError, Written,
};
use std::alloc::{AllocError, Global};
use std::test::Fail;

/// How many bytes a stream gives: the room of its buffer many times over.
const STREAM: usize = 1 << 20;

/// How many times a stream with many matches gives the same bytes.
const TIMES: usize = 1 << 10;

/// How many bytes the longest pattern has.
const LONG: usize = 1 << 20;

/// How many bytes a match has whose slice is lent, but for one.
const SLICE: usize = 1 << 14;

/// How many of these matches there are.
const SLICES: usize = 200;

/// How many bytes a pattern has whose states take more than a hundred megabytes.
const LONGER: usize = 1 << 22;

/// A stream of one byte, as a device gives it.
#[derive(Clone, Copy)]
struct Stream {
    byte: u8,
    /// How many bytes it has.
    len: usize,
    /// How many a read gives at most.
    piece: usize,
    /// How many reads there are at most.
    reads: usize,
}

/// Returns whether a walk of a stream gives nothing.
fn walk_gives_nothing(
    alloc: Global,
    searcher: &AhoCorasick,
    from: &mut Device,
) -> Result<bool, StreamError> {
    let mut matches = searcher.try_stream_find_iter(alloc, FromRead::new(from))?;
    Ok(matches.next().is_none())
}

/// Builds a searcher for a pattern.
fn searcher_of(
    alloc: Global,
    kind: MatchKind,
    engine: Option<AhoCorasickKind>,
    pattern: &[u8],
) -> Result<AhoCorasick, BuildError> {
    let mut builder = AhoCorasickBuilder::new();
    builder.match_kind(kind).kind(engine);
    builder.build(alloc, &[pattern])
}

/// Returns whether a pattern isn't found in a stream, of which a walk takes no more reads than it may.
fn is_not_found(
    alloc: Global,
    searcher: &AhoCorasick,
    stream: Stream,
) -> Result<bool, StreamError> {
    let mut from = Device::of(many(alloc, stream.byte, stream.len, b"")?);
    from.piece = stream.piece;
    let nothing = walk_gives_nothing(alloc, searcher, &mut from)?;
    Ok(nothing && from.calls <= stream.reads)
}

/// Does so by a searcher that it builds.
fn is_not_found_by(
    alloc: Global,
    kind: MatchKind,
    engine: Option<AhoCorasickKind>,
    pattern: &[u8],
    stream: Stream,
) -> Result<bool, Fail> {
    let searcher = searcher_of(alloc, kind, engine, pattern)?;
    Ok(is_not_found(alloc, &searcher, stream)?)
}

/// A full buffer gives up all of its room at once, so that a stream takes few reads.
#[test]
fn a_full_buffer_makes_room_at_once(rt: HostRuntime) -> Result<(), Fail> {
    let stream = Stream {
        byte: b'x',
        len: STREAM,
        piece: STREAM,
        reads: STREAM / 65536 + 3,
    };
    for kind in [Standard, LeftmostFirst, LeftmostLongest] {
        assert!(rt;
            is_not_found_by(rt.alloc(), kind, None, b"ab", stream)?,
            "{kind:?}"
        );
    }
    Ok(())
}

/// A stream's bytes are not moved at each read, however many are kept.
#[test]
fn a_long_rest_is_not_moved_at_each_read(rt: HostRuntime) -> Result<(), Fail> {
    let pattern = many(rt.alloc(), b'a', LONG, b"b")?;
    let stream = Stream {
        byte: b'a',
        len: 2 * LONG,
        piece: 1,
        reads: usize::MAX,
    };
    for kind in [Standard, LeftmostLongest] {
        assert!(rt;
            is_not_found_by(rt.alloc(), kind, Some(DFA), &pattern, stream)?,
            "{kind:?}"
        );
    }
    Ok(())
}

/// Returns the same bytes so many times over.
fn repeated(alloc: Global, piece: &[u8], times: usize) -> Result<Vec<u8>, AllocError> {
    let mut bytes = Vec::with_capacity(alloc, piece.len().saturating_mul(times))?;
    for _ in 0..times {
        bytes.extend_from_slice(piece)?;
    }
    Ok(bytes)
}

/// Exchanges a pattern in a stream by a list.
fn exchange(alloc: Global, from: &mut Device, into: &mut Device) -> Result<(), Fail> {
    let searcher = AhoCorasick::new(alloc, &[b"ab".as_slice()])?;
    let mut writer = IntoWrite::new(into);
    searcher.try_stream_replace_all(alloc, &mut FromRead::new(from), &mut writer, &[b"cde"])?;
    Ok(())
}

/// A replacement by a list writes many pieces at once.
#[test]
fn a_list_is_written_in_few_writes(rt: HostRuntime) -> Result<(), Fail> {
    let bytes = repeated(rt.alloc(), b"ab-ab---ab------ab-----------ab-", TIMES)?;
    let mut from = Device::of(bytes);
    from.piece = 32;
    let mut into = Device::taking(rt.alloc())?;
    exchange(rt.alloc(), &mut from, &mut into)?;
    let written = into.held.len();
    same_by(&rt, written, TIMES * (32 + 5), &TIMES);
    // At most one write for each read, and one where the room of 8,192 bytes is full.
    let most = (written / 8192).saturating_add(TIMES + 2);
    same_by(&rt, into.calls <= most, true, &into.calls);
    Ok(())
}

/// Returns how many bytes a closure is lent that is called at each match in memory.
fn lent_of_memory(
    alloc: Global,
    searcher: &AhoCorasick,
    haystack: &[u8],
) -> Result<usize, ReplaceError> {
    let mut lent = 0usize;
    let mut bytes = Vec::new(alloc);
    searcher.try_replace_all_with_bytes(haystack, &mut bytes, |_, slice, _| {
        lent = lent.saturating_add(slice.len());
        true
    })?;
    Ok(lent)
}

/// The same in a stream.
fn lent_of_stream(
    alloc: Global,
    searcher: &AhoCorasick,
    stream: Vec<u8>,
) -> Result<usize, StreamError> {
    let mut lent = 0usize;
    let mut from = Device::of(stream);
    from.piece = SLICE + 1;
    let mut reader = FromRead::new(from);
    let mut writer = Written::new(alloc);
    let take = |_: &Match, slice: &[u8], _: &mut Written<Global>| {
        lent = lent.saturating_add(slice.len());
        Ok(())
    };
    searcher.try_stream_replace_all_with(alloc, &mut reader, &mut writer, take)?;
    Ok(lent)
}

/// Returns whether a closure is lent all bytes of a haystack of which each is in a match, and all of the same stream.
fn lends_all(alloc: Global, pattern: &[u8], haystack: Vec<u8>) -> Result<bool, Fail> {
    let searcher = AhoCorasick::new(alloc, &[pattern])?;
    let len = haystack.len();
    let lent = lent_of_memory(alloc, &searcher, &haystack)?;
    Ok(lent == len && lent_of_stream(alloc, &searcher, haystack)? == len)
}

/// What a closure gets is a slice of the haystack or of the stream's buffer, and no copy: a copy of each match would take more
/// memory than `scripts/check_refused` lets this test take.
#[test]
fn slices_are_lent(rt: HostRuntime) -> Result<(), Fail> {
    let pattern = many(rt.alloc(), b'a', SLICE, b"b")?;
    let haystack = repeated(rt.alloc(), &pattern, SLICES)?;
    assert!(rt; lends_all(rt.alloc(), &pattern, haystack)?);
    Ok(())
}

/// Returns where a pattern ends in itself, or 0 where it is not found.
fn end_of_find(alloc: Global, pattern: &[u8]) -> Result<usize, Fail> {
    let searcher = AhoCorasick::new(alloc, &[pattern])?;
    match searcher.try_find(Input::new(pattern)) {
        Ok(Some(m)) => Ok(m.end()),
        _ => Ok(0),
    }
}

/// A pattern of some megabytes, for whose states more than a hundred are taken, is built and found.
#[test]
fn a_long_pattern_is_built(rt: HostRuntime) -> Result<(), Fail> {
    let pattern = many(rt.alloc(), b'a', LONGER, b"b")?;
    let end = end_of_find(rt.alloc(), &pattern)?;
    same_by(&rt, end, pattern.len(), &LONGER);
    Ok(())
}
