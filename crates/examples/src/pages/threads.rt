//! What threads may share: values of these types, by reference, and each may go from one thread to another. Nothing here
//! starts a thread: a program that may do so needs no more than these functions ask.
use ac_search::automaton::{Chains, Commits, Common};
use ac_search::nfa::{contiguous, noncontiguous};
use ac_search::plain::Query;
use ac_search::{
    AhoCorasick, AhoCorasickBuilder, AhoCorasickKind, Anchored, BuildError, ByteClasses, Bytes,
    Candidate, FindIter, FindOverlappingIter, Finder, FirstBytes, FromRead, Input, IntoWrite,
    Looks, Match, MatchError, MatchKind, MatchRest, Needle, OverlappingPieceFinder,
    OverlappingState, PatternID, Patterns, Phase, PieceFinder, Prefilter, ReplaceError, Span,
    StartKind, StateID, StreamError, StreamFindIter, StreamFinder, Tally, Tape, TooLarge,
    WriteError, Written, dfa,
};
use std::alloc::{Allocator, Global};
use std::io::{Read, Write};

/// Asks of a type that threads may share its values and pass them on.
fn crosses<T: Send + Sync>() {}

#[test]
fn searchers_cross_threads() {
    crosses::<AhoCorasick>();
    crosses::<AhoCorasickBuilder>();
    crosses::<AhoCorasickKind>();
    crosses::<OverlappingState>();
}

#[test]
fn engines_cross_threads() {
    crosses::<noncontiguous::NFA>();
    crosses::<contiguous::NFA>();
    crosses::<dfa::DFA>();
    crosses::<noncontiguous::Builder>();
    crosses::<contiguous::Builder>();
    crosses::<dfa::Builder>();
    crosses::<Common>();
    crosses::<Commits>();
    crosses::<Chains<Global>>();
}

#[test]
fn finds_of_engines_cross_threads() {
    crosses::<Finder<'_, noncontiguous::NFA>>();
    crosses::<Finder<'_, contiguous::NFA>>();
    crosses::<Finder<'_, dfa::DFA>>();
    crosses::<MatchRest>();
}

#[test]
fn walks_and_listings_cross_threads() {
    crosses::<FindIter<'_, '_>>();
    crosses::<FindOverlappingIter<'_, '_>>();
}

#[test]
fn streams_cross_threads() {
    crosses::<StreamFinder<'_>>();
    crosses::<StreamFindIter<'_, Bytes<'_>>>();
    crosses::<PieceFinder>();
    crosses::<OverlappingPieceFinder>();
}

#[test]
fn readers_and_writers_cross_threads() {
    crosses::<Bytes<'_>>();
    crosses::<Written<Global>>();
    crosses::<Phase>();
}

#[test]
fn patterns_and_prefilters_cross_threads() {
    crosses::<Patterns<Global>>();
    crosses::<Prefilter>();
    crosses::<Needle>();
    crosses::<FirstBytes>();
    crosses::<Candidate>();
    crosses::<ByteClasses>();
}

#[test]
fn inputs_and_matches_cross_threads() {
    crosses::<Input<'_>>();
    crosses::<Span>();
    crosses::<Anchored>();
    crosses::<StartKind>();
    crosses::<MatchKind>();
    crosses::<Match>();
    crosses::<PatternID>();
    crosses::<StateID>();
}

#[test]
fn errors_and_counts_cross_threads() {
    crosses::<BuildError>();
    crosses::<MatchError>();
    crosses::<ReplaceError>();
    crosses::<StreamError>();
    crosses::<WriteError>();
    crosses::<TooLarge>();
    crosses::<Looks>();
    crosses::<Tape<'_>>();
    crosses::<Tally>();
    crosses::<Query<'_>>();
}

/// Searchers cross threads wherever their allocator does.
fn searchers_cross_with<A: Allocator + Send + Sync>() {
    crosses::<AhoCorasick<A>>();
    crosses::<noncontiguous::NFA<A>>();
    crosses::<contiguous::NFA<A>>();
    crosses::<dfa::DFA<A>>();
}

/// Readers and writers cross threads wherever what they read from and write to does.
fn devices_cross_with<R: Read + Drop + Send + Sync, W: Write + Drop + Send + Sync>() {
    crosses::<FromRead<R>>();
    crosses::<IntoWrite<W>>();
}
