//! What one engine answers: its walks and listings, what it says of its patterns, and why it refuses a stream.
use super::{Triple, same, same_by, triple_of, triples_of};
use ac_automaton::automaton::{Automaton, Finder, find_core};
use ac_util::device::FromRead;
use ac_util::error::{MatchError, StreamError};
use ac_util::looks::open;
use ac_util::primitives::PatternID;
use ac_util::search::Anchored::No;
use ac_util::search::{Input, Span};
use std::alloc::Global;
use std::fmt::Debug;
use std::process::Abort;
use std::test::Fail;

/// Compares the walk of an input, and its first match, with what they have to be.
pub(super) fn compare_walk<E: Automaton + Debug>(
    rt: &impl Abort,
    alloc: Global,
    engine: &E,
    input: Input<'_>,
    walk: &[Triple],
) -> Result<(), Fail> {
    let walked = triples_of(alloc, engine.try_find_iter(input)?)?;
    same_by(rt, walked.as_slice(), walk, engine);
    let found = engine.try_find(input)?.as_ref().map(triple_of);
    same_by(rt, found, walk.first().copied(), engine);
    Ok(())
}

/// Compares the listing of a haystack with what it has to be.
pub(super) fn compare_listing<E: Automaton + Debug>(
    rt: &impl Abort,
    alloc: Global,
    engine: &E,
    haystack: &[u8],
    listing: &[Triple],
) -> Result<(), Fail> {
    let items = engine.try_find_overlapping_iter(Input::new(haystack))?;
    let listed = triples_of(alloc, items)?;
    same_by(rt, listed.as_slice(), listing, engine);
    Ok(())
}

/// Compares what an automaton over the pronouns says of them, and what its cores find.
pub(super) fn compare_pronouns<A: Automaton>(
    rt: &impl Abort,
    automaton: &A,
) -> Result<(), MatchError> {
    let lengths = (automaton.min_pattern_len(), automaton.max_pattern_len());
    same(rt, lengths, (2, 4));
    assert!(rt; automaton.patterns_len() == 4 && automaton.memory_usage() > 0);
    same(rt, automaton.pattern_len(PatternID::must(3)), 4);
    compare_cores(rt, automaton)
}

/// Compares what the core finds in `ushers`, and a finder from its third byte on.
fn compare_cores<A: Automaton>(rt: &impl Abort, automaton: &A) -> Result<(), MatchError> {
    let input = Input::new(b"ushers");
    let mut finder = Finder::new(automaton, No, false)?;
    let (mut tape, mut looks) = open(&input);
    let found = find_core(automaton, No, false, 0, 6, &mut tape, &mut looks);
    same(rt, found.as_ref().map(triple_of), Some((1, 1, 4)));
    let (mut tape, mut looks) = open(&input);
    let found = finder.find(Span { start: 2, end: 6 }, &mut tape, &mut looks);
    same(rt, found.as_ref().map(triple_of), Some((0, 2, 4)));
    Ok(())
}

/// A stream that is refused.
const STREAM: &[u8] = b"abc";

/// Compares why an automaton refuses a stream, and that the reader which it was lent is as it was.
pub(super) fn compare_refusal<A: Automaton>(
    alloc: Global,
    automaton: &A,
    refusal: MatchError,
) -> Result<(), Fail> {
    let mut left = STREAM;
    let matches = automaton.try_stream_find_iter(alloc, FromRead::new(&mut left));
    match matches.err() {
        Some(StreamError::Match(e)) if e == refusal && left == STREAM => Ok(()),
        answer => Err(Fail::new(format_args!("{answer:?}, {left:?}"))),
    }
}
