//! The states of the engines, and what they are made of.
ghost use Rattle.std.specs.Prelude.{IfOk};
ghost use Rattle.ac_automaton.specs.Automata.{IsState};

use super::{PRONOUNS, same};
use crate::dfa;
use crate::nfa::contiguous;
use crate::nfa::contiguous::{Format, check_words, format_of, state_words};
use ac_automaton::automaton::Automaton;
use ac_automaton::nfa::noncontiguous;
use ac_automaton::nfa::noncontiguous::FIRST_INNER;
use ac_util::error::{BuildError, MatchError};
use ac_util::looks::Looks;
use ac_util::primitives::StateID;
use ac_util::search::Anchored;
use ac_util::search::Anchored::{No, Yes};
use std::process::Abort;
use std::test::Fail;

/// Returns the state in which an automaton stands after three bytes.
fn state_after<A: Automaton>(
    automaton: &A,
    anchored: Anchored,
    bytes: [u8; 3],
) -> Result<StateID, MatchError>
    ensures { IfOk result (λ sid. IsState ((A.seen automaton.now).stands anchored) sid) }
{
    let mut looks = Looks::new();
    let start = automaton.start_state(anchored)?;
    let one = automaton.next_state(anchored, start, bytes[0], &mut looks);
    let two = automaton.next_state(anchored, one, bytes[1], &mut looks);
    Ok(automaton.next_state(anchored, two, bytes[2], &mut looks))
}

/// Compares the states of an automaton over the pronouns.
pub(super) fn compare_states<A: Automaton>(
    rt: &impl Abort,
    automaton: &A,
) -> Result<(), MatchError> {
    let she = state_after(automaton, No, *b"she")?;
    assert!(rt; automaton.is_match(she) && automaton.match_len(she) == 2);
    let (first, second) = (
        automaton.match_pattern(she, 0),
        automaton.match_pattern(she, 1),
    );
    same(rt, (first.as_usize(), second.as_usize()), (1, 0));
    let lost = state_after(automaton, No, *b"shx")?;
    let kinds = (
        automaton.is_start(lost),
        automaton.is_special(lost),
        automaton.is_match(lost),
    );
    same(rt, kinds, (true, true, false));
    let dead = state_after(automaton, Yes, *b"ush")?;
    let kinds = (automaton.is_dead(dead), automaton.is_match_or_dead(dead));
    same(rt, kinds, (true, true));
    // A step that a state has no transition for goes on at its failure target, and so on.
    let begun = state_after(automaton, No, *b"xxh")?;
    same(rt, state_after(automaton, No, *b"shh")?, begun);
    Ok(())
}

/// Returns a byte by which a state leads on, how deep the next state is, by how many bytes that one leads on, and its
/// failure target.
fn lead_of(
    rt: &impl Abort,
    trie: &noncontiguous::NFA,
    sid: StateID,
    index: usize,
) -> (u8, usize, usize, StateID) {
    let states = trie.states_len();
    assert!(rt; sid.as_usize() < states);
    assert!(rt; index < trie.own_len(sid));
    let (byte, next) = trie.own(sid, index);
    assert!(rt; FIRST_INNER <= next.as_usize() && next.as_usize() < states);
    (byte, trie.depth(next), trie.own_len(next), trie.fail(next))
}

/// Both patterns begin at the start, and what is after one byte fails to it.
#[test]
fn a_trie_is_read(rt: HostRuntime) -> Result<(), Fail> {
    let trie = noncontiguous::NFA::new(rt.alloc(), &[b"abc", b"bd"])?;
    let settings = (trie.fold(), trie.wants_prefilter(), trie.patterns().len());
    same(&rt, settings, (false, true, 2));
    let start = trie.start_state(No)?;
    assert!(rt; start.as_usize() < trie.states_len());
    let sizes = (trie.states_len(), trie.depth(start), trie.own_len(start));
    same(&rt, sizes, (9, 0, 2));
    same(&rt, lead_of(&rt, &trie, start, 0), (b'a', 1, 1, start));
    same(&rt, lead_of(&rt, &trie, start, 1), (b'b', 1, 1, start));
    Ok(())
}

/// Returns the refusal of an engine that would need this number.
fn too_large(requested: u64) -> BuildError {
    BuildError::StateIdOverflow {
        max: 2147483646,
        requested,
    }
}

#[test]
fn sizes_have_limits(rt: HostRuntime) {
    same(&rt, dfa::table_len(9, 3), Ok(72));
    same(&rt, dfa::table_len(8388608, 8), Ok(2147483648));
    let refused = Err(too_large(2147483648));
    same(&rt, dfa::table_len(8388609, 8), refused);
    same(&rt, dfa::table_len(2147483647, 0), Ok(2147483647));
    let refused = Err(too_large(2147483647));
    same(&rt, dfa::table_len(2147483648, 0), refused);
    same(&rt, check_words(2147483646), Ok(2147483646));
    let refused = Err(too_large(2147483647));
    same(&rt, check_words(2147483647), refused);
}

/// The depth of a state, the dense depth, how many transitions and matches it has, and the form that it takes.
const FORMS: [(usize, usize, usize, usize, Format); 9] = [
    (1, 0, 1, 0, Format::One),
    (1, 0, 1, 1, Format::Sparse),
    (1, 0, 127, 0, Format::Sparse),
    (1, 0, 128, 0, Format::Dense),
    (2, 2, 127, 0, Format::Sparse),
    (2, 2, 128, 0, Format::Dense),
    (1, 2, 1, 0, Format::Dense),
    (2, 2, 1, 0, Format::One),
    (2, 2, 1, 1, Format::Sparse),
];

/// A form, how many classes, transitions and matches there are, and how many words.
const WORDS: [(Format, u64, u64, u64, u64); 4] = [
    (Format::Sparse, 131, 127, 0, 161),
    (Format::Dense, 131, 128, 0, 133),
    (Format::One, 256, 1, 0, 3),
    (Format::Sparse, 6, 0, 3, 6),
];

#[test]
fn states_have_forms(rt: HostRuntime) {
    for (depth, dense_depth, transitions, matches, form) in FORMS {
        same(
            &rt,
            format_of(depth, dense_depth, transitions, matches),
            form,
        );
    }
    for (form, classes, transitions, matches, words) in WORDS {
        assert!(rt; classes <= 256 && transitions <= 256 && matches <= 2147483647);
        same(&rt, state_words(form, classes, transitions, matches), words);
    }
}
