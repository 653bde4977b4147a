//! Readers of a trie's states. The DFA and the contiguous NFA are built by these alone.
ghost use Rattle.std.specs.Prelude.{◌≡◌, ◌≢◌, ℕ, ◌+◌, ◌<◌, ◌≤◌, List, length};
ghost use Rattle.ac_automaton.specs.Util.{depth, Node, state_count};
ghost use Rattle.ac_automaton.specs.Automata.{plain_of};
ghost use Rattle.ac_automaton.specs.Tries.{AreNodes, ForNode, HasOwn, IsFailureOf, transition_bytes_of, IsNumbered, IsOwn};

use super::{ANCHORED_START, FIRST_INNER, NFA};
use ac_util::patterns::Patterns;
use ac_util::primitives::{GREATEST, StateID};
use std::alloc::Allocator;
use std::sync::Arc;

impl<A: Allocator> NFA<A> {
    /// Returns how many states there are: their numbers are those below this one.
    #[inline]
    pub fn states_len(&self) -> usize
        ensures value { result ≡ state_count self.now.built.kind (plain_of self.now.built) }
        ensures numbered { (nodes : List Node) × AreNodes self.now nodes }
        ensures small { result ≤ GREATEST + 1 }
    {
        self.states().len()
    }

    /// Returns how many bytes lead from the start to a state. The number has to be that of a state.
    #[inline]
    pub fn depth(&self, sid: StateID) -> usize
        requires numbered { sid < state_count self.now.built.kind (plain_of self.now.built) }
        ensures { ForNode (AreNodes self.now) sid (λ nodes u. result ≡ depth u) }
    {
        self.states()[sid.as_usize()].depth as usize
    }

    /// Returns the failure target of a state: where an unanchored search goes on by a byte that doesn't lead on.
    /// The number has to be that of a state after the two starts.
    ///
    /// The target has a lesser number. The empty string is given as the start of unanchored searches.
    #[inline]
    pub fn fail(&self, sid: StateID) -> StateID
        requires inner { FIRST_INNER ≤ sid }
        requires numbered { sid < state_count self.now.built.kind (plain_of self.now.built) }
        ensures target { IsFailureOf self.now sid result }
        ensures start { result ≢ ANCHORED_START }
        ensures back { result < sid }
    {
        self.states()[sid.as_usize()].fail
    }

    /// Returns how many bytes lead on from a state. The number has to be that of a state.
    #[inline]
    pub fn own_len(&self, sid: StateID) -> usize
        requires numbered { sid < state_count self.now.built.kind (plain_of self.now.built) }
        ensures value { ForNode (AreNodes self.now) sid
            (λ nodes u. result ≡ length (transition_bytes_of self.now.built u)) }
        ensures places { (index : ℕ) → index < result → HasOwn self.now sid index }
    {
        let state = &self.states()[sid.as_usize()];
        (state.transitions_end - state.transitions) as usize
    }

    /// Returns one of the bytes that lead on from a state, in ascending order from 0 up to `own_len`, and the state
    /// to which it leads.
    ///
    /// Where case is ignored a letter leads on in both cases, each at a place of its own.
    #[inline]
    pub fn own(&self, sid: StateID, index: usize) -> (u8, StateID)
        requires numbered { sid < state_count self.now.built.kind (plain_of self.now.built) }
        requires within { HasOwn self.now sid index }
        ensures { (nodes : List Node) (w : List ℕ) → AreNodes self.now nodes → IsNumbered nodes sid w
            → IsOwn self.now nodes w index result.0 result.1 }
    {
        let state = &self.states()[sid.as_usize()];
        let next = &self.transitions()[state.transitions as usize + index];
        (next.byte, next.target)
    }

    /// Returns the patterns, which an engine that is built from this one shares.
    #[inline]
    pub fn patterns(&self) -> &Arc<Patterns<A>, A>
        ensures { result.now.value ≡ self.now.built.patterns }
    {
        self.common.patterns()
    }

    /// Returns whether case is ignored.
    #[inline]
    pub fn fold(&self) -> bool
        ensures { result ≡ self.now.built.ignores_case }
    {
        self.common.fold()
    }

    /// Returns whether it was built to have a prefilter, where there is one for its patterns.
    #[inline]
    pub fn wants_prefilter(&self) -> bool
        ensures { result ≡ self.now.wants_prefilter }
    {
        self.common.wants_prefilter()
    }
}
