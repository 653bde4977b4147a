//! The words of automata that were built.
use super::state::FAIL;
use super::{Builder, NFA};
use crate::tests::{same, same_by};
use ac_automaton::automaton::Automaton;
use ac_util::error::MatchError;
use ac_util::looks::Looks;
use ac_util::primitives::StateID;
use ac_util::search::MatchKind::{LeftmostFirst, LeftmostLongest, Standard};
use ac_util::search::{Anchored, MatchKind};
use std::test::Fail;

/// Three patterns, two of which begin alike.
const THREE: &[&[u8]] = &[b"b", b"abc", b"abcd"];

/// A pattern that stands in the list twice.
const TWICE: &[&[u8]] = &[b"ab", b"ab"];

/// Patterns and whether case is ignored, a match kind, a dense depth and whether bytes share classes, with how many
/// classes and how many words there are.
type Size = (
    &'static [&'static [u8]],
    bool,
    MatchKind,
    usize,
    bool,
    usize,
    usize,
);

const SIZES: [Size; 17] = [
    (&[], false, Standard, 2, true, 1, 9),
    (THREE, false, Standard, 0, true, 6, 43),
    (THREE, false, Standard, 1, true, 6, 43),
    (THREE, false, Standard, 2, true, 6, 54),
    (THREE, false, Standard, 3, true, 6, 58),
    (THREE, false, Standard, 4, true, 6, 62),
    (THREE, false, Standard, 5, true, 6, 68),
    (THREE, false, Standard, 6, true, 6, 68),
    (THREE, false, Standard, usize::MAX, true, 6, 68),
    (TWICE, false, Standard, 2, true, 4, 29),
    (TWICE, false, LeftmostLongest, 2, true, 4, 29),
    (TWICE, false, LeftmostFirst, 2, true, 4, 27),
    (THREE, false, LeftmostFirst, 2, true, 6, 49),
    (&[b"abcd"], false, Standard, 2, true, 6, 41),
    (&[b"ab"], true, Standard, 2, true, 7, 39),
    (&[b"ab"], true, Standard, 0, true, 7, 35),
    (&[b"ab"], true, Standard, 0, false, 256, 782),
];

#[test]
fn words_have_their_number(rt: HostRuntime) -> Result<(), Fail> {
    for (patterns, ignores_case, kind, dense_depth, byte_classes, classes, words) in SIZES {
        let mut builder = Builder::new();
        builder
            .ascii_case_insensitive(ignores_case)
            .match_kind(kind)
            .dense_depth(dense_depth)
            .byte_classes(byte_classes);
        let nfa = builder.build(rt.alloc(), patterns)?;
        let numbers = (nfa.classes.alphabet_len(), nfa.words.len());
        same_by(&rt, numbers, (classes, words), &builder);
    }
    Ok(())
}

/// Returns `a` with each byte from 80 on, one pair after the other.
fn pairs() -> [u8; 256] {
    let mut text = [b'a'; 256];
    for index in 0..0x80u8 {
        text[2 * index as usize + 1] = 0x80 + index;
    }
    text
}

/// Returns the number of the state of `a`.
fn state_of_a(nfa: &NFA) -> Result<StateID, MatchError> {
    let start = nfa.start_state(Anchored::No)?;
    Ok(nfa.next_state(Anchored::No, start, b'a', &mut Looks::new()))
}

/// Patterns of `a` and each byte from 80 on, so that the state of `a` has 127 transitions or 128. It is the last one,
/// since the patterns' own states have matches.
#[test]
fn a_state_of_many_transitions(rt: HostRuntime) -> Result<(), Fail> {
    let text = pairs();
    // How many patterns there are, and of the state the number of its words, the first, and another one with its place.
    let rows = [(127, 161, 127, 33, 0x8181807F), (128, 133, 0xFF, 4, FAIL)];
    for (count, len, form, place, word) in rows {
        let patterns: Vec<&[u8]> = text.chunks(2).take(count).collect(rt.alloc())?;
        let nfa = Builder::new().dense_depth(0).build(rt.alloc(), &patterns)?;
        let words = nfa
            .words
            .get(state_of_a(&nfa)?.as_usize()..)
            .unwrap_or_default();
        let read = (
            words.len(),
            words.first().copied(),
            words.get(place).copied(),
        );
        same(&rt, read, (len, Some(form), Some(word)));
        same(&rt, nfa.classes.alphabet_len(), 131);
    }
    Ok(())
}
