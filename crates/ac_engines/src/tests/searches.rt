//! What the engines answer by themselves.
use super::answers::{compare_listing, compare_pronouns, compare_refusal, compare_walk};
use super::rows::{LISTINGS, STANDARD, Search, WALKS};
use super::states::compare_states;
use super::{PRONOUNS, Triple, same, same_by};
use crate::dfa;
use crate::nfa::contiguous;
use ac_automaton::automaton::Automaton;
use ac_automaton::nfa::noncontiguous;
use ac_util::error::{BuildError, MatchError};
use ac_util::search::Anchored::{No, Yes};
use ac_util::search::MatchKind::LeftmostLongest;
use ac_util::search::{Input, StartKind};
use std::alloc::Global;
use std::fmt::Debug;
use std::process::Abort;
use std::test::Fail;

/// Returns the trie of patterns.
pub(crate) fn trie_of(
    alloc: Global,
    search: Search,
    patterns: &[&[u8]],
) -> Result<noncontiguous::NFA, BuildError> {
    let mut builder = noncontiguous::Builder::new();
    builder
        .match_kind(search.0)
        .ascii_case_insensitive(search.1);
    builder.build(alloc, patterns)
}

/// Returns the contiguous NFA of a trie, whose kind and case count, and not the builder's.
fn contiguous_over(
    alloc: Global,
    trie: &noncontiguous::NFA,
) -> Result<contiguous::NFA, BuildError> {
    let mut builder = contiguous::Builder::new();
    builder
        .match_kind(LeftmostLongest)
        .ascii_case_insensitive(false);
    builder.build_from_noncontiguous(alloc, trie)
}

/// Returns the DFA of a trie, whose kind and case count, and not the builder's.
pub(crate) fn dfa_over(
    alloc: Global,
    trie: &noncontiguous::NFA,
    start_kind: StartKind,
) -> Result<dfa::DFA, BuildError> {
    let mut builder = dfa::Builder::new();
    builder
        .match_kind(LeftmostLongest)
        .ascii_case_insensitive(false)
        .start_kind(start_kind);
    builder.build_from_noncontiguous(alloc, trie)
}

/// What is asked of an engine, and what it has to answer.
#[derive(Clone, Copy)]
enum Case {
    /// The walk of a clone over a haystack.
    Walk(&'static [u8], &'static [Triple]),
    /// The listing of a haystack.
    Listing(&'static [u8], &'static [Triple]),
    /// What an engine over the pronouns says of them, and what its cores find.
    Pronouns,
    /// The states of such an engine.
    States,
    /// Why a stream is refused.
    Refusal(MatchError),
}

/// Compares what an engine answers with what it has to.
fn compare<E: Automaton + Clone + Debug + Drop>(
    rt: &impl Abort,
    alloc: Global,
    engine: &E,
    (kind, _, anchored): Search,
    case: Case,
) -> Result<(), Fail> {
    same_by(rt, engine.match_kind(), kind, engine);
    match case {
        Case::Walk(haystack, walk) => {
            let input = Input::new(haystack).anchored(anchored);
            compare_walk(rt, alloc, &engine.clone()?, input, walk)
        }
        Case::Listing(haystack, listing) => compare_listing(rt, alloc, engine, haystack, listing),
        Case::Pronouns => Ok(compare_pronouns(rt, engine)?),
        Case::States => Ok(compare_states(rt, engine)?),
        Case::Refusal(refusal) => compare_refusal(alloc, engine, refusal),
    }
}

/// Compares the answers of DFAs with these starts.
fn compare_dfas(
    rt: &impl Abort,
    alloc: Global,
    trie: &noncontiguous::NFA,
    search: Search,
    starts: [StartKind; 2],
    case: Case,
) -> Result<(), Fail> {
    for start_kind in starts {
        compare(rt, alloc, &dfa_over(alloc, trie, start_kind)?, search, case)?;
    }
    Ok(())
}

/// Compares the answers of the contiguous NFA.
fn compare_contiguous(
    rt: &impl Abort,
    alloc: Global,
    trie: &noncontiguous::NFA,
    search: Search,
    case: Case,
) -> Result<(), Fail> {
    compare(rt, alloc, &contiguous_over(alloc, trie)?, search, case)
}

/// Compares the answers of each engine over patterns.
fn compare_engines(
    rt: &impl Abort,
    alloc: Global,
    search: Search,
    patterns: &[&[u8]],
    case: Case,
) -> Result<(), Fail> {
    let trie = trie_of(alloc, search, patterns)?;
    let one = match (case, search.2) {
        (Case::States, _) => StartKind::Both,
        (_, No) => StartKind::Unanchored,
        (_, Yes) => StartKind::Anchored,
    };
    compare_dfas(rt, alloc, &trie, search, [StartKind::Both, one], case)?;
    compare_contiguous(rt, alloc, &trie, search, case)?;
    compare(rt, alloc, &trie, search, case)
}

#[test]
fn engines_walk(rt: HostRuntime) -> Result<(), Fail> {
    for &(search, patterns, haystack, walk) in WALKS {
        let case = Case::Walk(haystack, walk);
        compare_engines(&rt, rt.alloc(), search, patterns, case)?;
    }
    Ok(())
}

#[test]
fn engines_list(rt: HostRuntime) -> Result<(), Fail> {
    for &(patterns, haystack, listing) in LISTINGS {
        let case = Case::Listing(haystack, listing);
        compare_engines(&rt, rt.alloc(), STANDARD, patterns, case)?;
    }
    Ok(())
}

#[test]
fn engines_know_their_patterns_and_states(rt: HostRuntime) -> Result<(), Fail> {
    for case in [Case::Pronouns, Case::States] {
        compare_engines(&rt, rt.alloc(), STANDARD, &PRONOUNS, case)?;
    }
    Ok(())
}

#[test]
fn a_refused_stream_is_not_read(rt: HostRuntime) -> Result<(), Fail> {
    let case = Case::Refusal(MatchError::UnsupportedEmpty);
    compare_engines(&rt, rt.alloc(), STANDARD, &[b"a", b""], case)
}

#[test]
fn a_stream_that_lacks_its_start_is_not_read(rt: HostRuntime) -> Result<(), Fail> {
    let trie = noncontiguous::NFA::new(rt.alloc(), &[b"a"])?;
    let case = Case::Refusal(MatchError::InvalidInputUnanchored);
    compare_dfas(
        &rt,
        rt.alloc(),
        &trie,
        STANDARD,
        [StartKind::Anchored; 2],
        case,
    )
}

/// A DFA without the start that is asked for refuses, even where the span starts past its end.
#[test]
fn a_dfa_refuses_before_it_looks_at_the_span(rt: HostRuntime) -> Result<(), Fail> {
    let dfa = dfa::DFA::new(rt.alloc(), &[b"abc"])?;
    let input = Input::new(b"abc").range(4..3).anchored(Yes);
    let refusal = Err(MatchError::InvalidInputAnchored);
    same(&rt, dfa.try_find(input), refusal);
    same(&rt, dfa.try_find(input.anchored(No)), Ok(None));
    Ok(())
}

/// Compares how an engine is shown.
fn compare_shown<A: Debug>(alloc: Global, automaton: &A, wanted: &str) -> Result<(), Fail> {
    if format!(in alloc; "{automaton:?}")?.as_str() != wanted {
        return Err(Fail::new(wanted));
    }
    Ok(())
}

#[test]
fn engines_are_shown(rt: HostRuntime) -> Result<(), Fail> {
    let (alloc, patterns): (_, [&[u8]; 2]) = (rt.alloc(), [b"a", b"b"]);
    let wanted = "NFA { match_kind: Standard, patterns: 2 }";
    compare_shown(alloc, &noncontiguous::NFA::new(alloc, &patterns)?, wanted)?;
    compare_shown(alloc, &contiguous::NFA::new(alloc, &patterns)?, wanted)?;
    let wanted = "DFA { match_kind: Standard, patterns: 2 }";
    compare_shown(alloc, &dfa::DFA::new(alloc, &patterns)?, wanted)
}
