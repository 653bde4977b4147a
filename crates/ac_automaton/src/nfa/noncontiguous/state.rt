//! The states of a noncontiguous NFA, and the walks over them.
ghost use Rattle.std.specs.Prelude.{◌≡◌, ◌+◌, ◌-◌, ◌<◌, ◌≤◌, IfSome, Some, length, slice_index, slice_get, ◌≢◌, []};
ghost use Rattle.std.specs.List.Sorted.{IsStrictlyIncreasing};
ghost use Rattle.ac_automaton.specs.Util.{more_looks, Node, step, plain_byte};
ghost use Rattle.ac_automaton.specs.Tries.{HasState, IsRoot, IsStateAmong, IsTarget, TakesLooks, TrieView, all_matches, transition_bytes, dead_state, transitions_of, ForState, TakesMatch};
ghost use Rattle.ac_automaton.specs.declared.nfa.noncontiguous.state.TheConstants.{ANCHORED_START};

use crate::automaton::MatchRest;
use ac_util::looks::Looks;
use ac_util::primitives::{PatternID, StateID};
use ac_util::search::Anchored;

/// The number of the dead state, from which nothing is found any more.
pub const DEAD: usize = 0;

/// The number of the state that no search reaches.
pub const FAIL: usize = 1;

/// The number of the state at which an unanchored search starts.
pub const START: usize = 2;

/// The number of the state at which an anchored search starts.
pub const ANCHORED_START: usize = 3;

/// The number of the first of the other states, which follow breadth first.
pub const FIRST_INNER: usize = 4;

/// A byte that leads on from a state, and the state that it leads to.
#[derive(Clone, Copy)]
pub(crate) struct Transition {
    pub(crate) byte: u8,
    pub(crate) target: StateID,
}

/// A state stands for a string: the bytes that lead to it from the start.
///
/// The transitions of all states stand in one list, those of a state side by side in ascending order of their
/// bytes. Where case is ignored there is one for each case of a letter, so that a step does nothing more for
/// it.
#[derive(Clone, Copy)]
pub(crate) struct State {
    /// Where the transitions begin.
    pub(crate) transitions: u32,
    /// Where they end.
    pub(crate) transitions_end: u32,
    /// The failure target: where an unanchored search goes on by a byte without a transition.
    pub(crate) fail: StateID,
    /// Where in the sorted list the patterns that equal the state's string begin.
    pub(crate) patterns: u32,
    /// Where they end.
    pub(crate) patterns_end: u32,
    /// The output link: the next state along the failure targets that has patterns, or the dead state.
    pub(crate) output_link: StateID,
    /// How many bytes the state's string has.
    pub(crate) depth: u32,
}

impl State {
    /// Returns a state from which nothing leads on.
    pub(crate) fn dead() -> State
        ensures { result ≡ dead_state }
    {
        State {
            transitions: 0,
            transitions_end: 0,
            fail: StateID::must(DEAD),
            patterns: 0,
            patterns_end: 0,
            output_link: StateID::must(DEAD),
            depth: 0,
        }
    }

    /// Returns how many patterns equal the state's string.
    #[inline]
    fn patterns_len(&self) -> usize
        requires ordered { self.now.patterns ≤ self.now.patterns_end }
        ensures value { result ≡ self.now.patterns_end - self.now.patterns }
        ensures small { result < 4294967296 }
    {
        (self.patterns_end - self.patterns) as usize
    }
}

/// Returns the target of the transition by a byte, if there is one, among some in ascending order.
///
/// A byte that is n above the first one is at most n places after it. So the search goes down from there: by no step where
/// the bytes follow one another, as letters do, and mostly by few.
#[inline]
fn target_among(own: &[Transition], byte: u8) -> Option<StateID>
    requires ascending { IsStrictlyIncreasing (transition_bytes own.now) }
    ensures { IsTarget own.now byte result }
{
    if own.is_empty() {
        return None;
    }
    let above = usize::from(byte.saturating_sub(own[0].byte));
    let mut at = above.min(own.len() - 1);
    while at > 0 && own[at].byte > byte {
        at -= 1;
    }
    let next = own[at];
    if next.byte == byte {
        Some(next.target)
    } else {
        None
    }
}

/// Returns the transitions of a state.
#[inline]
pub(super) fn own_transitions<'a>(state: &State, transitions: &'a [Transition]) -> &'a [Transition]
    requires ordered { state.now.transitions ≤ state.now.transitions_end }
    requires listed { state.now.transitions_end ≤ length transitions.now }
    ensures { result.now ≡ transitions_of transitions.now state.now }
{
    &transitions[state.transitions as usize..state.transitions_end as usize]
}

/// Returns the state to which a byte leads, if there is a transition by it.
#[inline]
fn target(state: &State, transitions: &[Transition], byte: u8) -> Option<StateID>
    requires ordered { state.now.transitions ≤ state.now.transitions_end }
    requires listed { state.now.transitions_end ≤ length transitions.now }
    requires ascending { IsStrictlyIncreasing
        (transition_bytes (transitions_of transitions.now state.now)) }
    ensures { IsTarget (transitions_of transitions.now state.now) byte result }
{
    target_among(own_transitions(state, transitions), byte)
}

/// Returns the state to which a byte leads, if there is a transition by it, and counts the look at the state.
///
/// A step reaches the transitions of a state by this alone.
#[inline]
fn look(state: &State, transitions: &[Transition], byte: u8, looks: &mut Looks) -> Option<StateID>
    requires ordered { state.now.transitions ≤ state.now.transitions_end }
    requires listed { state.now.transitions_end ≤ length transitions.now }
    requires ascending { IsStrictlyIncreasing
        (transition_bytes (transitions_of transitions.now state.now)) }
    ensures target { IsTarget (transitions_of transitions.now state.now) byte result }
    ensures counted { looks.new ≡ more_looks 1 looks.old }
{
    looks.look();
    target(state, transitions, byte)
}

/// Returns where a byte leads from the start by the root table, and counts the look at the start.
#[inline]
fn look_in_root(root: &[StateID], byte: u8, looks: &mut Looks) -> StateID
    requires whole { length root.now ≡ 256 }
    ensures target { result ≡ slice_index root.now byte }
    ensures counted { looks.new ≡ more_looks 1 looks.old }
{
    looks.look();
    root[byte as usize]
}

/// What a search follows: the states, the transitions of them all, and where there is one a root table, which has
/// for each byte where an unanchored search goes on from the start.
#[derive(Clone, Copy)]
pub(crate) struct TrieSlices<'a> {
    pub(crate) states: &'a [State],
    pub(crate) transitions: &'a [Transition],
    pub(crate) root: Option<&'a [StateID]>,
}

/// Returns where a byte leads from a state, and counts a look at each state on the way.
///
/// An unanchored search goes on along the failure targets as long as there is no transition by the byte. Each
/// target is a shorter string, so n bytes take at most 2n looks. At the start a root table says where it goes on.
#[inline]
pub(crate) fn follow(
    trie: TrieSlices<'_>,
    anchored: Anchored,
    from: StateID,
    byte: u8,
    looks: &mut Looks,
) -> StateID
    requires state { IsStateAmong trie from }
    requires rooted { IfSome trie.root (λ root. IsRoot trie.transitions.now trie.states.now root.now) }
    ensures steps { ForState trie.entry from
        (λ g u. slice_get g.nodes result
        ≡ Some (step g.kind g.patterns anchored u (plain_byte g.ignores_case byte))) }
    ensures looks { TakesLooks trie.entry anchored from byte looks.old looks.new }
    ensures unanchored { ForState trie.entry from
        (λ g u. slice_get g.nodes ANCHORED_START ≡ Some (Some []) → result ≢ ANCHORED_START) }
{
    let (states, transitions) = (trie.states, trie.transitions);
    let mut at = from;
    loop {
        if at.as_usize() == START
            && matches!(anchored, Anchored::No)
            && let Some(root) = trie.root
        {
            return look_in_root(root, byte, looks);
        }
        let state = &states[at.as_usize()];
        if let Some(next) = look(state, transitions, byte, looks) {
            return next;
        }
        if matches!(anchored, Anchored::Yes) {
            return StateID::must(DEAD);
        }
        if at.as_usize() < FIRST_INNER {
            return state.fail;
        }
        at = state.fail;
    }
}

/// Returns how many patterns a state has, with those that it reaches by output links.
pub(crate) fn listed_len(states: &[State], from: StateID) -> usize
    requires state { (g : TrieView) × (u : Node) × HasState g states.now from u }
    ensures { (g : TrieView) (u : Node) → HasState g states.now from u
        → result ≡ length (all_matches g u) }
{
    let mut at = from.as_usize();
    let mut count = 0;
    loop {
        let state = &states[at];
        count += state.patterns_len();
        at = state.output_link.as_usize();
        if at == DEAD {
            return count;
        }
    }
}

/// Returns the first of these patterns in a rest of the list, those of the state itself first, and the rest after
/// it.
#[inline]
pub(crate) fn take_listed(
    states: &[State],
    order: &[PatternID],
    rest: MatchRest,
) -> Option<(PatternID, MatchRest)>
    requires state { (g : TrieView) × (u : Node) × (g.order ≡ order.now) × HasState g states.now rest.state u }
    ensures { (g : TrieView) (u : Node) → g.order ≡ order.now → HasState g states.now rest.state u
        → TakesMatch g states.now u rest.index result }
{
    let mut at = rest.state;
    let mut left = rest.index;
    loop {
        let state = &states[at.as_usize()];
        let len = state.patterns_len();
        if left < len {
            let pattern = order[state.patterns as usize + left];
            let rest = MatchRest {
                state: at,
                index: left + 1,
            };
            return Some((pattern, rest));
        }
        if state.output_link.as_usize() == DEAD {
            return None;
        }
        left -= len;
        at = state.output_link;
    }
}
