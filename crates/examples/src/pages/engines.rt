//! Engines without a searcher.
use crate::checks::same;
use ac_search::dfa::{self, table_len};
use ac_search::nfa::contiguous::{self, Format, format_of, state_words};
use ac_search::nfa::noncontiguous;
use ac_search::{
    AhoCorasick, Anchored, Automaton, BuildError, Input, Looks, Match, MatchKind, MatchRest,
    PatternID, StartKind,
};
use std::alloc::Global;
use std::fmt::Debug;
use std::process::Abort;
use std::test::Fail;

#[test]
fn a_noncontiguous_nfa(rt: HostRuntime) -> Result<(), Fail> {
    let alloc = rt.alloc();
    let nfa = noncontiguous::NFA::new(alloc, &[b"he", b"she"])?;
    let found = nfa.try_find(Input::new(b"ushers"));
    are_equal!(rt; found, Ok(Some(Match::must(1, 1..4))));
    Ok(())
}

#[test]
fn a_contiguous_nfa(rt: HostRuntime) -> Result<(), Fail> {
    let alloc = rt.alloc();
    let nfa = contiguous::NFA::new(alloc, &[b"he", b"she"])?;
    let found = nfa.try_find(Input::new(b"ushers"));
    are_equal!(rt; found, Ok(Some(Match::must(1, 1..4))));
    Ok(())
}

#[test]
fn a_dfa(rt: HostRuntime) -> Result<(), Fail> {
    let alloc = rt.alloc();
    let dfa = dfa::DFA::new(alloc, &[b"he", b"she"])?;
    let found = dfa.try_find(Input::new(b"ushers"));
    are_equal!(rt; found, Ok(Some(Match::must(1, 1..4))));
    Ok(())
}

/// Compares what a person is shown of a searcher or an engine.
fn compare_shown<T: Debug>(
    rt: &impl Abort,
    alloc: Global,
    value: &T,
    wanted: &str,
) -> Result<(), Fail> {
    let shown = format!(in alloc; "{:?}", *value)?;
    same(rt, shown.as_str(), wanted);
    Ok(())
}

#[test]
fn searchers_and_engines_are_shown(rt: HostRuntime) -> Result<(), Fail> {
    let alloc = rt.alloc();
    let patterns: &[&[u8]] = &[b"he", b"she"];
    let shown = "NFA { match_kind: Standard, patterns: 2 }";
    compare_shown(
        &rt,
        alloc,
        &noncontiguous::NFA::new(alloc, patterns)?,
        shown,
    )?;
    compare_shown(&rt, alloc, &contiguous::NFA::new(alloc, patterns)?, shown)?;
    let shown = "DFA { match_kind: Standard, patterns: 2 }";
    compare_shown(&rt, alloc, &dfa::DFA::new(alloc, patterns)?, shown)?;
    let shown = "AhoCorasick { kind: DFA, match_kind: Standard, patterns: 2 }";
    compare_shown(&rt, alloc, &AhoCorasick::new(alloc, patterns)?, shown)
}

#[test]
fn noncontiguous_builders(rt: HostRuntime) -> Result<(), Fail> {
    let alloc = rt.alloc();
    let mut builder = noncontiguous::Builder::new();
    builder.match_kind(MatchKind::LeftmostFirst);
    builder.ascii_case_insensitive(true).prefilter(false);
    let copy = builder.clone();
    let nfa = copy.build(alloc, &[b"Sam", b"Samwise"])?;
    let found = nfa.try_find(Input::new(b"SAMWISE"));
    are_equal!(rt; found, Ok(Some(Match::must(0, 0..3))));
    Ok(())
}

#[test]
fn contiguous_builders(rt: HostRuntime) -> Result<(), Fail> {
    let alloc = rt.alloc();
    let mut builder = contiguous::Builder::new();
    builder.match_kind(MatchKind::LeftmostFirst);
    builder.dense_depth(3).byte_classes(false).prefilter(false);
    let nfa = builder.build(alloc, &[b"Sam", b"Samwise"])?;
    let found = nfa.try_find(Input::new(b"Samwise"));
    are_equal!(rt; found, Ok(Some(Match::must(0, 0..3))));
    Ok(())
}

#[test]
fn dfa_builders(rt: HostRuntime) -> Result<(), Fail> {
    let alloc = rt.alloc();
    let mut builder = dfa::Builder::new();
    builder.match_kind(MatchKind::LeftmostFirst);
    builder.start_kind(StartKind::Both).byte_classes(false);
    let dfa = builder.build(alloc, &[b"Sam", b"Samwise"])?;
    let input = Input::new(b"Samwise").anchored(Anchored::Yes);
    are_equal!(rt; dfa.try_find(input), Ok(Some(Match::must(0, 0..3))));
    Ok(())
}

#[test]
fn states_are_stepped_through(rt: HostRuntime) -> Result<(), Fail> {
    let alloc = rt.alloc();
    let nfa = noncontiguous::NFA::new(alloc, &[b"he", b"she"])?;
    let (mut looks, anchored) = (Looks::new(), Anchored::No);
    let start = nfa.start_state(anchored)?;
    let h = nfa.next_state(anchored, start, b'h', &mut looks);
    let he = nfa.next_state(anchored, h, b'e', &mut looks);
    assert!(rt; nfa.is_start(start) && !nfa.is_dead(he));
    assert!(rt; nfa.is_match(he) && nfa.match_len(he) == 1);
    are_equal!(rt; nfa.match_pattern(he, 0), PatternID::must(0));
    assert!(rt; nfa.is_match_or_dead(he) && nfa.is_special(start) && !nfa.is_special(h));
    let (state, index) = (he, 0);
    let taken = nfa.take_match(MatchRest { state, index });
    assert!(rt; taken.is_some_and(|(pattern, rest)| pattern.as_usize() == 0 && rest.index == 1));
    Ok(())
}

#[test]
fn a_dfa_from_a_noncontiguous_nfa(rt: HostRuntime) -> Result<(), Fail> {
    let alloc = rt.alloc();
    let nfa = noncontiguous::NFA::new(alloc, &[b"he", b"she"])?;
    let builder = dfa::Builder::new();
    assert!(rt; builder.fits(&nfa));
    let dfa = builder.build_from_noncontiguous(alloc, &nfa)?;
    let found = dfa.try_find(Input::new(b"ushers"));
    are_equal!(rt; found, Ok(Some(Match::must(1, 1..4))));
    Ok(())
}

#[test]
fn a_contiguous_nfa_from_another(rt: HostRuntime) -> Result<(), Fail> {
    let alloc = rt.alloc();
    let nfa = noncontiguous::NFA::new(alloc, &[b"he", b"she"])?;
    let builder = contiguous::Builder::new();
    assert!(rt; builder.fits(&nfa));
    let nfa = builder.build_from_noncontiguous(alloc, &nfa)?;
    let found = nfa.try_find(Input::new(b"ushers"));
    are_equal!(rt; found, Ok(Some(Match::must(1, 1..4))));
    Ok(())
}

#[test]
fn what_engines_have(rt: HostRuntime) -> Result<(), Fail> {
    let alloc = rt.alloc();
    let nfa = noncontiguous::NFA::new(alloc, &[b"foo", b"bar", b"quux"])?;
    are_equal!(rt; nfa.match_kind(), nfa.common().match_kind());
    are_equal!(rt; nfa.pattern_len(PatternID::must(2)), 4);
    are_equal!(rt; nfa.patterns_len(), 3);
    are_equal!(rt; (nfa.min_pattern_len(), nfa.max_pattern_len()), (3, 4));
    assert!(rt; nfa.prefilter().is_some() && nfa.memory_usage() > 0);
    Ok(())
}

#[test]
fn sizes(rt: HostRuntime) {
    are_equal!(rt; table_len(10, 5), Ok(320));
    let (max, requested) = (2_147_483_646, 25_599_999_744); // where the last row would begin
    let refused = BuildError::StateIdOverflow { max, requested };
    are_equal!(rt; table_len(100_000_000, 8), Err(refused));

    are_equal!(rt; format_of(1, 2, 1, 0), Format::Dense);
    are_equal!(rt; format_of(2, 2, 1, 0), Format::One);
    are_equal!(rt; format_of(2, 2, 1, 1), Format::Sparse);

    are_equal!(rt; state_words(Format::Dense, 3, 1, 0), 5);
    are_equal!(rt; state_words(Format::Sparse, 30, 5, 2), 12); // 2 + 2 + 5 + 3
}
