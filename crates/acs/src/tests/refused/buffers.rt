//! Streams in a heap that has no room left once their buffer is made.
use super::SENTENCE;
use super::builds::{ENGINES, KINDS, STARTS, SearcherBuild};
use super::heaps::{AMPLE, filled};
use ac_search::MatchKind::{LeftmostFirst, LeftmostLongest, Standard};
use ac_search::{AhoCorasick, Bytes, MatchKind, StreamError, StreamFindIter};
use linked_list_allocator::LocalHeap;
use std::alloc::{AllocError, Allocator, Global};
use std::test::Fail;

/// Returns the patterns and the ends of the matches in the sentence.
fn walk_of(kind: MatchKind) -> [(usize, usize); 3] {
    match kind {
        Standard => [(2, 3), (2, 14), (2, 25)],
        LeftmostFirst => [(0, 6), (2, 14), (0, 28)],
        LeftmostLongest => [(0, 6), (2, 14), (1, 31)],
    }
}

/// How many bytes the heap has beside the buffer.
const BESIDE: usize = 1 << 10;

/// A walk of the sentence as a stream, whose buffer is in other memory than its searcher.
type Walk<'a, Z> = StreamFindIter<'a, Bytes<'static>, Global, Z>;

/// Returns a walk whose buffer is in this memory.
fn walk_in<Z: Allocator>(
    usual: Global,
    searcher: &AhoCorasick,
    room: Z,
) -> Result<Walk<'_, Z>, StreamError> {
    let supported = searcher.try_stream_finder(usual)?;
    drop(supported);
    Ok(searcher.stream_find_iter(room, Bytes::new(SENTENCE.as_bytes()))?)
}

/// Returns whether the next match of a walk is this one.
fn gives_next<Z: Allocator>(matches: &mut Walk<'_, Z>, (pattern, end): (usize, usize)) -> bool {
    match matches.next() {
        Some(Ok(m)) => m.pattern().as_usize() == pattern && m.end() == end,
        _ => false,
    }
}

/// Returns whether a walk gives these matches and no more.
fn gives<Z: Allocator>(matches: &mut Walk<'_, Z>, walk: [(usize, usize); 3]) -> bool {
    gives_next(matches, walk[0])
        && gives_next(matches, walk[1])
        && gives_next(matches, walk[2])
        && matches.next().is_none()
}

/// Returns whether it does so in a heap that refuses each further request, of which it takes nothing more.
fn gives_in_a_full_heap<Z: Allocator>(
    usual: Global,
    heap: &LocalHeap,
    matches: &mut Walk<'_, Z>,
    walk: [(usize, usize); 3],
) -> Result<bool, AllocError> {
    let pieces = filled(usual, heap)?;
    let used = heap.used();
    let is_right = gives(matches, walk) && heap.used() == used && used >= AMPLE + BESIDE;
    drop(pieces);
    Ok(is_right)
}

/// Returns whether a searcher's walk of a stream takes its buffer alone.
fn takes_its_buffer(usual: Global, searcher: &AhoCorasick) -> Result<bool, StreamError> {
    let heap = LocalHeap::new(usual, AMPLE + BESIDE)?;
    let mut matches = walk_in(usual, searcher, &heap)?;
    let walk = walk_of(searcher.match_kind());
    Ok(gives_in_a_full_heap(usual, &heap, &mut matches, walk)?)
}

/// Returns whether that of a searcher does that is built so.
fn built_takes_its_buffer(usual: Global, build: SearcherBuild) -> Result<bool, Fail> {
    let searcher = build.build(usual)?;
    Ok(takes_its_buffer(usual, &searcher)?)
}

#[test]
fn a_stream_takes_its_buffer_alone(rt: HostRuntime) -> Result<(), Fail> {
    for engine in ENGINES {
        for kind in KINDS {
            for start_kind in STARTS {
                let build = SearcherBuild {
                    engine,
                    kind,
                    start_kind,
                };
                assert!(rt; built_takes_its_buffer(rt.alloc(), build)?);
            }
        }
    }
    Ok(())
}
