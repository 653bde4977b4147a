//! Walks of streams by readers that give little at once, and fail: each engine answers as rows say.
use super::devices::{ALWAYS, End, Pieces, end_of};
use super::engines::{EACH, Engine, FEWER, KINDS, builder_of, engines, usual};
use super::stream_rows::{Given, STOPPED_WALKS, WALKS, Walk};
use super::{Triple, same, same_by, triple_of};
use crate::MatchKind::Standard;
use crate::StartKind::Unanchored;
use crate::{AhoCorasick, MatchKind, StreamFindIter};
use std::alloc::{AllocError, Global};
use std::process::Abort;
use std::test::Fail;

/// Returns a reader that gives this.
pub(super) fn reader_of<'a>((bytes, most, good, stop): Given<'a>) -> Pieces<'a> {
    Pieces::stopping(bytes, most, good, stop)
}

/// More calls than a row here has matches.
const MOST: usize = 8;

/// Returns the matches that a walk gives, how it ends, and whether nothing follows when it is asked twice more.
fn walked<'a>(
    alloc: Global,
    matches: &mut StreamFindIter<'a, Pieces<'a>>,
) -> Result<(Vec<Triple>, Option<End>, bool), AllocError> {
    let mut walk = Vec::new(alloc);
    let mut end = None;
    for _ in 0..MOST {
        match matches.next() {
            Some(Ok(found)) => walk.push(triple_of(&found))?,
            Some(Err(e)) => {
                end = Some(end_of(Err(e)));
                break;
            }
            None => {
                end = Some(End::Whole);
                break;
            }
        }
    }
    let ended = matches.next().is_none() && matches.next().is_none();
    Ok((walk, end, ended))
}

/// Compares a walk of a stream with what a row says.
fn compare_given<'a>(
    rt: &impl Abort,
    alloc: Global,
    searcher: &AhoCorasick,
    mut matches: StreamFindIter<'a, Pieces<'a>>,
    (_, wanted, end, kept): Walk<'a>,
) -> Result<(), AllocError> {
    let (walk, ended, stays) = walked(alloc, &mut matches)?;
    same_by(rt, (walk.as_slice(), ended), (wanted, Some(end)), searcher);
    same_by(rt, (stays, matches.kept_len()), (true, kept), searcher);
    Ok(())
}

/// Compares two walks of one stream: by the call that tests the searcher, and by the one that doesn't.
fn compare_walk<'a>(
    rt: &impl Abort,
    alloc: Global,
    searcher: &'a AhoCorasick,
    row: Walk<'a>,
) -> Result<(), Fail> {
    let tried = searcher.try_stream_find_iter(alloc, reader_of(row.0))?;
    compare_given(rt, alloc, searcher, tried, row)?;
    let begun = searcher.stream_find_iter(alloc, reader_of(row.0))?;
    Ok(compare_given(rt, alloc, searcher, begun, row)?)
}

/// Patterns, match kinds, and streams.
pub(super) type Walks = (
    &'static [&'static [u8]],
    &'static [MatchKind],
    &'static [Walk<'static>],
);

/// Compares walks of streams over an engine with what rows say.
fn compare_walks(
    rt: &impl Abort,
    alloc: Global,
    engine: &Engine,
    (patterns, kinds, rows): Walks,
) -> Result<(), Fail> {
    for &kind in kinds {
        let searcher = builder_of(engine, kind, Unanchored).build(alloc, patterns)?;
        for row in rows {
            compare_walk(rt, alloc, &searcher, *row)?;
        }
    }
    Ok(())
}

#[test]
fn each_engine_walks_a_stream_alike(rt: HostRuntime) -> Result<(), Fail> {
    for engine in &engines(rt.alloc(), FEWER)? {
        for &walks in WALKS {
            compare_walks(&rt, rt.alloc(), engine, walks)?;
        }
    }
    Ok(())
}

#[test]
fn each_engine_walks_a_stopped_stream_alike(rt: HostRuntime) -> Result<(), Fail> {
    for engine in KINDS {
        for &walks in STOPPED_WALKS {
            compare_walks(&rt, rt.alloc(), &usual(engine), walks)?;
        }
    }
    Ok(())
}

/// Returns a stream of other bytes, and after so many of them a text.
fn stream_with(alloc: Global, before: usize, text: &[u8]) -> Result<Vec<u8>, AllocError> {
    let mut stream = Vec::new(alloc);
    stream.resize(before, b'x')?;
    stream.extend_from_slice(text)?;
    Ok(stream)
}

/// Compares the walks of a stream that is read to its end, by such an engine for `abc`, with what is wanted.
fn compare_read(
    rt: &impl Abort,
    alloc: Global,
    engine: &Engine,
    stream: &[u8],
    wanted: &[Triple],
) -> Result<(), Fail> {
    let builder = builder_of(engine, Standard, Unanchored);
    let searcher = builder.build(alloc, &[b"abc"])?;
    for most in [1, ALWAYS] {
        let row = ((stream, most, ALWAYS, None), wanted, End::Whole, 0);
        compare_walk(rt, alloc, &searcher, row)?;
    }
    Ok(())
}

/// The buffer has room for one byte of the match.
#[test]
fn a_match_begins_where_a_buffer_ends(rt: HostRuntime) -> Result<(), Fail> {
    let stream = stream_with(rt.alloc(), 65_535, b"abc")?;
    for engine in KINDS {
        let wanted = [(0, 65_535, 65_538)];
        compare_read(&rt, rt.alloc(), &usual(engine), &stream, &wanted)?;
    }
    Ok(())
}

/// How long a pattern is, how many bytes a buffer for it has, how many bytes stand before its first match in a stream, and how
/// many bytes a read gives.
const BUFFERS: [(usize, usize, usize, usize); 9] = [
    (3, 65_536, 65_535, 1),
    (3, 65_536, 100_000, 7),
    (3, 65_536, 65_535, 65_535),
    (3, 65_536, 65_535, 65_536),
    (3, 65_536, 65_535, 65_537),
    (8_192, 65_536, 100_000, ALWAYS),
    (8_193, 65_544, 100_000, 65_535),
    (8_193, 65_544, 100_000, ALWAYS),
    (70_000, 560_000, 100_000, 65_537),
];

/// Returns a pattern of this length.
fn pattern_of(alloc: Global, len: usize) -> Result<Vec<u8>, AllocError> {
    let mut pattern = Vec::new(alloc);
    pattern.resize(len.saturating_sub(1), b'a')?;
    pattern.push(b'b')?;
    Ok(pattern)
}

/// Compares the length of a buffer, and the walk of what a reader gives, with what is wanted.
fn compare_buffered<'a>(
    rt: &impl Abort,
    alloc: Global,
    searcher: &'a AhoCorasick,
    reader: Pieces<'a>,
    buffer: usize,
    wanted: &[Triple],
) -> Result<(), Fail> {
    let mut matches = searcher.try_stream_find_iter(alloc, reader)?;
    same(rt, matches.buffer_len(), buffer);
    let (walk, end, _) = walked(alloc, &mut matches)?;
    same(rt, (walk.as_slice(), end), (wanted, Some(End::Whole)));
    Ok(())
}

/// Compares the same by each match kind for a pattern, of which each read gives so many bytes at most.
fn compare_buffers(
    rt: &impl Abort,
    alloc: Global,
    pattern: &[u8],
    (stream, most): (&[u8], usize),
    buffer: usize,
    wanted: &[Triple],
) -> Result<(), Fail> {
    for &kind in EACH {
        let builder = builder_of(&usual(None), kind, Unanchored);
        let searcher = builder.build(alloc, &[pattern])?;
        let reader = Pieces::new(stream, most, ALWAYS);
        compare_buffered(rt, alloc, &searcher, reader, buffer, wanted)?;
    }
    Ok(())
}

/// A match may span two buffers.
#[test]
fn long_patterns_have_long_buffers(rt: HostRuntime) -> Result<(), Fail> {
    for (len, buffer, before, most) in BUFFERS {
        let pattern = pattern_of(rt.alloc(), len)?;
        let mut stream = stream_with(rt.alloc(), before, &pattern)?;
        stream.extend_from_slice(&pattern)?;
        let between = before.saturating_add(len);
        let found = [(0, before, between), (0, between, stream.len())];
        compare_buffers(&rt, rt.alloc(), &pattern, (&stream, most), buffer, &found)?;
    }
    Ok(())
}
