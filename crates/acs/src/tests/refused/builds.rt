//! Builds of engines and of searchers, and clones of them.
use super::{Call, Room, SENTENCE, Trial, WORDS};
use ac_search::AhoCorasickKind::{ContiguousNFA, DFA, NoncontiguousNFA};
use ac_search::MatchKind::{LeftmostFirst, LeftmostLongest, Standard};
use ac_search::nfa::{contiguous, noncontiguous};
use ac_search::{
    AhoCorasick, AhoCorasickBuilder, AhoCorasickKind, Automaton, BuildError, Input, Match,
    MatchError, MatchKind, StartKind, dfa,
};
use std::alloc::{Allocator, Global};
use std::test::Fail;

/// Each match kind.
pub(super) const KINDS: [MatchKind; 3] = [Standard, LeftmostFirst, LeftmostLongest];

/// The engines, and that one is chosen.
pub(super) const ENGINES: [Option<AhoCorasickKind>; 4] = [
    None,
    Some(NoncontiguousNFA),
    Some(ContiguousNFA),
    Some(DFA),
];

/// The start kinds by which an unanchored search is supported.
pub(super) const STARTS: [StartKind; 2] = [StartKind::Unanchored, StartKind::Both];

/// Returns whether a find in the sentence answers what it has to.
fn is_first(found: Result<Option<Match>, MatchError>, kind: MatchKind) -> bool {
    let wanted = match kind {
        Standard => Match::must(2, 0..3),
        LeftmostFirst | LeftmostLongest => Match::must(0, 0..6),
    };
    match found {
        Ok(Some(m)) => m == wanted,
        _ => false,
    }
}

/// Returns whether a find by an engine answers what it has to.
fn engine_finds<E: Automaton>(engine: &E, kind: MatchKind) -> bool {
    is_first(engine.try_find(Input::of_text(SENTENCE)), kind)
}

/// Returns what the clone of an engine comes to: it and the engine find what they have to, the engine also where it can't be
/// cloned.
fn clone_room<E: Automaton + Clone>(engine: &E, kind: MatchKind) -> Room {
    let room = match engine.clone() {
        Ok(clone) => Room::of_answer(engine_finds(&clone, kind)),
        Err(_) => Room::Lacking,
    };
    if engine_finds(engine, kind) {
        room
    } else {
        Room::Other("another find")
    }
}

/// Returns what the build of an engine and its clone come to.
fn build_room<E: Automaton + Clone>(built: Result<E, BuildError>, kind: MatchKind) -> Room {
    match built {
        Ok(engine) => clone_room(&engine, kind),
        Err(e) => Room::of_refusal(e == BuildError::Memory),
    }
}

/// Builds a noncontiguous NFA.
fn noncontiguous_room<A: Allocator + Clone>(kind: MatchKind, alloc: A) -> Room {
    let mut builder = noncontiguous::Builder::new();
    builder.match_kind(kind);
    build_room(builder.build(alloc, &WORDS), kind)
}

/// Builds a contiguous NFA.
fn contiguous_room<A: Allocator + Clone>(kind: MatchKind, alloc: A) -> Room {
    let mut builder = contiguous::Builder::new();
    builder.match_kind(kind);
    build_room(builder.build(alloc, &WORDS), kind)
}

/// Builds a DFA for both starts.
fn dfa_room<A: Allocator + Clone>(kind: MatchKind, alloc: A) -> Room {
    let mut builder = dfa::Builder::new();
    builder.match_kind(kind).start_kind(StartKind::Both);
    build_room(builder.build(alloc, &WORDS), kind)
}

/// Builds an engine by itself, and clones it.
pub(super) fn engine_room<A: Allocator + Clone>(
    engine: AhoCorasickKind,
    kind: MatchKind,
    alloc: A,
) -> Room {
    match engine {
        NoncontiguousNFA => noncontiguous_room(kind, alloc),
        ContiguousNFA => contiguous_room(kind, alloc),
        DFA => dfa_room(kind, alloc),
    }
}

/// The build of a searcher.
#[derive(Clone, Copy)]
pub(super) struct SearcherBuild {
    pub(super) engine: Option<AhoCorasickKind>,
    pub(super) kind: MatchKind,
    pub(super) start_kind: StartKind,
}

/// Returns whether a find by a searcher answers what it has to.
fn searcher_finds<A: Allocator + Clone>(searcher: &AhoCorasick<A>, kind: MatchKind) -> bool {
    is_first(searcher.try_find(Input::of_text(SENTENCE)), kind)
}

/// Returns whether a clone of it takes no memory, and its find answers the same.
fn clone_finds<A: Allocator + Clone>(searcher: &AhoCorasick<A>, kind: MatchKind) -> bool {
    match searcher.clone() {
        Ok(clone) => searcher_finds(&clone, kind),
        Err(_) => false,
    }
}

impl SearcherBuild {
    /// Builds the searcher.
    pub(super) fn build<A: Allocator + Clone>(
        self,
        alloc: A,
    ) -> Result<AhoCorasick<A>, BuildError> {
        let mut builder = AhoCorasickBuilder::new();
        builder.match_kind(self.kind).kind(self.engine);
        builder.start_kind(self.start_kind);
        builder.build(alloc, &WORDS)
    }

    /// Returns what the build of the searcher and its clone come to.
    pub(super) fn room<A: Allocator + Clone>(self, alloc: A) -> Room {
        match self.build(alloc) {
            Ok(searcher) => Room::of_answer(
                searcher_finds(&searcher, self.kind) && clone_finds(&searcher, self.kind),
            ),
            Err(e) => Room::of_refusal(e == BuildError::Memory),
        }
    }
}

/// Tries the builds of searchers by an engine and a match kind.
fn try_searchers(
    alloc: Global,
    trial: Trial,
    engine: Option<AhoCorasickKind>,
    kind: MatchKind,
) -> Result<(), Fail> {
    for start_kind in STARTS {
        let build = SearcherBuild {
            engine,
            kind,
            start_kind,
        };
        trial.tries(alloc, Call::Searcher(build))?;
    }
    Ok(())
}

/// Tries each build.
pub(super) fn try_each(alloc: Global, trial: Trial) -> Result<(), Fail> {
    for kind in KINDS {
        for engine in [NoncontiguousNFA, ContiguousNFA, DFA] {
            trial.tries(alloc, Call::Engine(engine, kind))?;
        }
        for engine in ENGINES {
            try_searchers(alloc, trial, engine, kind)?;
        }
    }
    Ok(())
}
