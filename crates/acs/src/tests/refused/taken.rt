//! What searchers and engines take of a heap, and that searches take none.
use super::builds::{KINDS, STARTS, SearcherBuild};
use super::heaps::{AMPLE, filled, least_room};
use super::{Call, SENTENCE, WORDS};
use ac_search::AhoCorasickKind::{ContiguousNFA, DFA, NoncontiguousNFA};
use ac_search::MatchKind::{LeftmostFirst, LeftmostLongest, Standard};
use ac_search::nfa::{contiguous, noncontiguous};
use ac_search::{
    AhoCorasick, AhoCorasickKind, BuildError, Input, Match, MatchError, MatchKind,
    OverlappingState, StartKind, dfa,
};
use linked_list_allocator::LocalHeap;
use std::alloc::{AllocError, Allocator, Global};
use std::test::Fail;

/// How many bytes a searcher takes at most beside what it says that it takes: counts of those that share its parts, blocks
/// that are rounded up, and lists with room for more.
const BESIDE: usize = 1024;

/// The pattern and the end of a match, if there is one.
type End = Option<(usize, usize)>;

/// Returns what a searcher over the words answers in the sentence: the find, and the last match of the walk, of the listing
/// and of three calls of a search by a state. A leftmost kind refuses the last two.
fn wanted_of(kind: MatchKind) -> [End; 4] {
    match kind {
        Standard => [Some((2, 3)), Some((2, 25)), Some((1, 31)), Some((2, 14))],
        LeftmostFirst => [Some((0, 6)), Some((0, 28)), None, None],
        LeftmostLongest => [Some((0, 6)), Some((1, 31)), None, None],
    }
}

/// Returns whether an answer is a match with this pattern and this end, or is none.
fn is_end(answer: Result<Option<Match>, MatchError>, wanted: End) -> bool {
    match (answer, wanted) {
        (Ok(Some(m)), Some((pattern, end))) => {
            m.pattern().as_usize() == pattern && m.end() == end
        }
        (Ok(None) | Err(_), None) => true,
        _ => false,
    }
}

/// Returns the last match of the walk.
fn last_of_walk<A: Allocator + Clone>(
    searcher: &AhoCorasick<A>,
) -> Result<Option<Match>, MatchError> {
    let matches = searcher.try_find_iter(Input::of_text(SENTENCE))?;
    Ok(matches.last())
}

/// Returns the last match of the listing.
fn last_of_listing<A: Allocator + Clone>(
    searcher: &AhoCorasick<A>,
) -> Result<Option<Match>, MatchError> {
    let items = searcher.try_find_overlapping_iter(Input::of_text(SENTENCE))?;
    Ok(items.last())
}

/// Returns the third match that a search by a state gives.
fn third_of<A: Allocator + Clone>(searcher: &AhoCorasick<A>) -> Result<Option<Match>, MatchError> {
    let (input, mut state) = (Input::of_text(SENTENCE), OverlappingState::start());
    searcher.try_find_overlapping(input, &mut state)?;
    searcher.try_find_overlapping(input, &mut state)?;
    searcher.try_find_overlapping(input, &mut state)?;
    Ok(state.get_match())
}

/// Returns whether a searcher over the words answers what it has to in the sentence.
fn answers<A: Allocator + Clone>(searcher: &AhoCorasick<A>) -> bool {
    let input = Input::of_text(SENTENCE);
    let [found, last, listed, third] = wanted_of(searcher.match_kind());
    let Ok(answer) = searcher.try_find(input) else {
        return false;
    };
    searcher.is_match(input)
        && is_end(Ok(answer), found)
        && is_end(last_of_walk(searcher), last)
        && is_end(last_of_listing(searcher), listed)
        && is_end(third_of(searcher), third)
}

/// Returns whether a clone of a searcher answers the same, and takes nothing of a heap.
fn clone_answers<A: Allocator + Clone>(heap: &LocalHeap, searcher: &AhoCorasick<A>) -> bool {
    let used = heap.used();
    match searcher.clone() {
        Ok(clone) => answers(&clone) && heap.used() == used,
        Err(_) => false,
    }
}

/// Returns whether a searcher over the words and its clone answer what they have to where no memory is left, and take none.
fn searches_take_nothing<A: Allocator + Clone>(
    alloc: Global,
    heap: &LocalHeap,
    searcher: &AhoCorasick<A>,
) -> Result<bool, AllocError> {
    let used = heap.used();
    let pieces = filled(alloc, heap)?;
    let is_right = answers(searcher) && clone_answers(heap, searcher);
    drop(pieces);
    Ok(is_right && heap.used() == used)
}

/// What a searcher takes.
#[derive(Clone, Copy)]
struct Taken {
    /// Which engine serves.
    engine: AhoCorasickKind,
    /// How many bytes it takes.
    used: usize,
    /// How many it says that it takes.
    usage: usize,
    /// Whether these agree, and searches take nothing more.
    is_right: bool,
}

/// Returns what a searcher takes that is in a heap.
fn taken_by<A: Allocator + Clone>(
    alloc: Global,
    heap: &LocalHeap,
    searcher: &AhoCorasick<A>,
) -> Result<Taken, AllocError> {
    let (used, usage) = (heap.used(), searcher.memory_usage());
    let agree = usage <= used && used <= usage.saturating_add(BESIDE);
    Ok(Taken {
        engine: searcher.kind(),
        used,
        usage,
        is_right: searches_take_nothing(alloc, heap, searcher)? && agree,
    })
}

/// Builds a searcher in a heap, and returns what it takes.
fn taken_by_build(alloc: Global, build: SearcherBuild) -> Result<Taken, BuildError> {
    let heap = LocalHeap::new(alloc, AMPLE)?;
    let searcher = build.build(&heap)?;
    Ok(taken_by(alloc, &heap, &searcher)?)
}

/// Returns whether a searcher takes what the one takes for which the engine is named that it chooses, and is built in as
/// little room.
fn takes_one_engine(
    alloc: Global,
    kind: MatchKind,
    start_kind: StartKind,
) -> Result<bool, BuildError> {
    let build = SearcherBuild {
        engine: None,
        kind,
        start_kind,
    };
    let chosen = taken_by_build(alloc, build)?;
    let named_build = SearcherBuild {
        engine: Some(chosen.engine),
        kind,
        start_kind,
    };
    let named = taken_by_build(alloc, named_build)?;
    let (room, _) = least_room(alloc, Call::Searcher(build));
    let (named_room, _) = least_room(alloc, Call::Searcher(named_build));
    let takes_as_much = chosen.engine == named.engine && chosen.used == named.used;
    Ok(takes_as_much && chosen.is_right && named.is_right && room == named_room)
}

/// A searcher takes what its engine takes, and nothing for the engines that it doesn't choose, while it is built neither.
#[test]
fn a_searcher_takes_one_engine(rt: HostRuntime) -> Result<(), Fail> {
    for kind in KINDS {
        for start_kind in STARTS {
            assert!(rt; takes_one_engine(rt.alloc(), kind, start_kind)?, "{kind:?}");
        }
    }
    Ok(())
}

/// The engine, the start kind and the bytes that the searcher says that it takes under Standard, by the rules of
/// `docs/PERFORMANCE.md`: 13 states, 12 classes of bytes and so a stride of 16, 84 words, 3 matches, and 42 bytes for the
/// patterns.
const USAGES: [(AhoCorasickKind, StartKind, usize); 4] = [
    (DFA, StartKind::Unanchored, 13 * 16 * 4 + 3 * 4 + 3 * 8 + 42),
    (DFA, StartKind::Both, 22 * 16 * 4 + 6 * 4 + 6 * 8 + 42),
    (ContiguousNFA, StartKind::Unanchored, 84 * 4 + 42),
    (
        NoncontiguousNFA,
        StartKind::Unanchored,
        13 * 28 + 9 * 8 + 3 * 4 + 1024 + 42,
    ),
];

/// How many bytes more it says: where lists begin and end.
const BOUNDS: usize = 64;

/// Returns how many bytes a searcher says that it takes by an engine.
fn usage_by(
    alloc: Global,
    engine: AhoCorasickKind,
    start_kind: StartKind,
) -> Result<Option<usize>, BuildError> {
    let build = SearcherBuild {
        engine: Some(engine),
        kind: Standard,
        start_kind,
    };
    let taken = taken_by_build(alloc, build)?;
    Ok(if taken.is_right {
        Some(taken.usage)
    } else {
        None
    })
}

#[test]
fn engines_take_what_their_layout_needs(rt: HostRuntime) -> Result<(), Fail> {
    for (engine, start_kind, wanted) in USAGES {
        let usage = usage_by(rt.alloc(), engine, start_kind)?.unwrap_or(0);
        assert!(rt;
            wanted <= usage && usage <= wanted.saturating_add(BOUNDS),
            "{engine:?}: {usage}"
        );
    }
    Ok(())
}

/// Returns whether what was built takes at least so many bytes of a heap, of another one no more than were taken, and gives
/// them back.
fn takes<E: Drop>(
    built: Result<E, BuildError>,
    least: usize,
    heap: &LocalHeap,
    taken: usize,
    other: &LocalHeap,
) -> bool {
    let is_right = built.is_ok() && heap.used() >= least && other.used() == taken;
    drop(built);
    is_right && heap.used() == 0
}

/// Returns whether a DFA that is built in a heap from an automaton in another one takes its own memory.
fn dfa_takes_its_own<'h>(
    nfa: &noncontiguous::NFA<&'h LocalHeap>,
    heap: &'h LocalHeap,
    other: &LocalHeap,
) -> bool {
    let taken = other.used();
    let built = dfa::Builder::new().build_from_noncontiguous(heap, nfa);
    takes(built, 13 * 16 * 4, heap, taken, other)
}

/// Returns whether a contiguous NFA does.
fn contiguous_takes_its_own<'h>(
    nfa: &noncontiguous::NFA<&'h LocalHeap>,
    heap: &'h LocalHeap,
    other: &LocalHeap,
) -> bool {
    let taken = other.used();
    let built = contiguous::Builder::new().build_from_noncontiguous(heap, nfa);
    takes(built, 84 * 4, heap, taken, other)
}

/// Returns whether both do, where the automaton is in the first heap.
fn engines_take_their_own<'h>(
    first: &'h LocalHeap,
    second: &'h LocalHeap,
) -> Result<bool, BuildError> {
    let nfa = noncontiguous::NFA::new(first, &WORDS)?;
    Ok(dfa_takes_its_own(&nfa, second, first) && contiguous_takes_its_own(&nfa, second, first))
}

/// A DFA that is built from an automaton takes memory of the allocator that the build is handed, and none of the automaton's.
/// So does a contiguous NFA.
#[test]
fn engines_take_memory_of_their_own(rt: HostRuntime) -> Result<(), Fail> {
    let first = LocalHeap::new(rt.alloc(), AMPLE)?;
    let second = LocalHeap::new(rt.alloc(), AMPLE)?;
    assert!(rt; engines_take_their_own(&first, &second)?);
    Ok(())
}
