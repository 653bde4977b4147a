//! A noncontiguous NFA: small, and quickly built.
ghost use Rattle.std.specs.Prelude.{◌≡◌, ◌≢◌, IfSome, List, None};
ghost use Rattle.std.proofs.Common.{inr, refl};
ghost use Rattle.ac_automaton.specs.Util.{bytes_of, Node};
ghost use Rattle.ac_automaton.specs.Builds.{BuildsNoncontiguous, usual_engine_settings};
ghost use Rattle.ac_automaton.specs.Tries.{automaton_of, IsRoot, IsTrie, stands-lists};
ghost use Rattle.ac_automaton.specs.declared.nfa.noncontiguous.state.State.{State};

use crate::automaton::{Automaton, Commits, Common, MatchRest};
use ac_util::error::{BuildError, MatchError};
use ac_util::looks::Looks;
use ac_util::primitives::{PatternID, StateID};
use ac_util::search::Anchored;
use lists::TrieLists;
use state::{State, Transition, TrieSlices, follow, listed_len, take_listed};
use std::alloc::{AllocError, Allocator, Global};
use std::fmt;
use std::marker::Model;
use std::mem::size_of;
use std::sync::Arc;

mod builder;
mod commits;
mod growth;
mod lists;
mod readers;
mod root;
pub(crate) mod sorted;
pub(crate) mod state;

pub use builder::Builder;
pub use state::{ANCHORED_START, DEAD, FAIL, FIRST_INNER, START};

/// An automaton that keeps its states and their transitions in lists, and follows failure links while it searches.
///
/// It takes little memory and is built in time linear in the bytes of the patterns, but for the sort of their list. A
/// search looks at states at most twice for each byte that it reads. It serves unanchored and anchored searches. This
/// ports `nfa::noncontiguous::NFA`.
///
/// ```
/// let nfa = noncontiguous::NFA::new(alloc, &[b"he", b"she"])?;
/// let found = nfa.try_find(Input::new(b"ushers"));
/// assert_eq!(rt; found, Ok(Some(Match::must(1, 1..4))));
/// ```
#[derive(Drop)]
pub struct NFA<A: Allocator = Global> {
    common: Common<A>,
    lists: TrieLists<A>,
    /// Where an unanchored search goes on from the start, for each byte.
    root: Vec<StateID, A>,
    commits: Arc<Commits<A>, A>,
}

impl<A: Allocator> Model for NFA<A> {
    ghost use Rattle.std.specs.Prelude.{List};
    ghost use Rattle.ac_util.specs.Node.{Node};
    ghost use Rattle.ac_automaton.specs.Commits.{HasCommits};
    ghost use Rattle.ac_automaton.specs.Tries.{automaton_of, IsRoot, IsTrie, Trie, trie_of};

    ghost Value = { Trie };

    ghost view = { λ n. trie_of n.common n.lists.order.items n.lists.transitions.items n.lists.states.items };

    ghost invariant = { λ n. record {
      is_trie : (nodes : List Node) × IsTrie
          (trie_of n.common n.lists.order.items n.lists.transitions.items n.lists.states.items) nodes;
      rooted : IsRoot n.lists.transitions.items n.lists.states.items n.root.items;
      committed : HasCommits (automaton_of (trie_of n.common n.lists.order.items n.lists.transitions.items
          n.lists.states.items)) n.commits.value;
    } };
}

/// Shown as `NFA { match_kind: Standard, patterns: 3 }`.
impl<A: Allocator> fmt::Debug for NFA<A> {
    fn fmt<W: fmt::Write>(&self, f: &mut fmt::Formatter<W>) -> fmt::Result {
        let (kind, patterns) = (self.match_kind(), self.patterns_len());
        write!(f, "NFA {{ match_kind: {kind:?}, patterns: {patterns} }}")
    }
}

impl<A: Allocator + Clone> Clone for NFA<A> {
    ghost is_clone = { λ s t. t ≡ s };

    /// Returns a copy, which shares the patterns with this automaton and gives the same answers.
    ///
    /// # Errors
    /// `AllocError` where a request for memory is refused.
    fn clone(&self) -> Result<NFA<A>, AllocError> {
        Ok(NFA {
            common: self.common.clone()?,
            lists: self.lists.clone()?,
            root: self.root.clone()?,
            commits: self.commits.clone()?,
        })
    }
}

impl<A: Allocator + Clone> NFA<A> {
    /// Builds an automaton over a list of patterns with the usual settings: `MatchKind::Standard`, the case of letters
    /// counts, and there is a prefilter where the patterns have one. This ports `NFA::new`.
    ///
    /// # Errors
    /// As `Builder::build`.
    pub fn new(alloc: A, patterns: &[&[u8]]) -> Result<NFA<A>, BuildError>
        ensures { BuildsNoncontiguous usual_engine_settings (bytes_of patterns.now) result }
    {
        Builder::new().build(alloc, patterns)
    }
}

impl NFA {
    /// Returns a builder with the usual settings, those of `Builder::new`. This ports `NFA::builder`.
    pub fn builder() -> Builder
        ensures { result ≡ usual_engine_settings }
    {
        Builder::new()
    }
}

impl<A: Allocator> NFA<A> {
    /// Returns the states, which are those of an automaton.
    #[inline]
    fn states(&self) -> &[State]
        ensures value { result.now ≡ self.now.states }
        ensures is_trie { (nodes : List Node) × IsTrie self.now nodes }
    {
        &self.lists.states
    }

    /// Returns the lists that a search reads.
    #[inline]
    fn slices(&self) -> TrieSlices<'_>
        ensures states { result.states.now ≡ self.now.states }
        ensures transitions { result.transitions.now ≡ self.now.transitions }
        ensures rooted { IfSome result.root (λ root. IsRoot self.now.transitions self.now.states root.now) }
        ensures given { result.root ≢ None }
    {
        TrieSlices {
            states: &self.lists.states,
            transitions: &self.lists.transitions,
            root: Some(&self.root),
        }
    }

    /// Returns the transitions of all states.
    #[inline]
    fn transitions(&self) -> &[Transition]
        ensures { result.now ≡ self.now.transitions }
    {
        &self.lists.transitions
    }

    /// Returns the patterns that take part, in ascending order of their bytes.
    #[inline]
    fn order(&self) -> &[PatternID]
        ensures { result.now ≡ self.now.order }
    {
        &self.lists.order
    }

    /// Returns the allocator of the automaton.
    pub fn allocator(&self) -> &A {
        self.lists.states.allocator()
    }
}

impl<A: Allocator> Automaton for NFA<A> {
    type Memory = A;

    const LOOKS: usize = 2;

    ghost LOOKS = { 2 };

    ghost seen = { automaton_of };

    ghost one_or_two = { inr refl };

    ghost allows = { λ n. refl };

    ghost lists = { stands-lists };

    fn start_state(&self, anchored: Anchored) -> Result<StateID, MatchError> {
        // Contracts learn here which states are the starts.
        let _states = self.states();
        match anchored {
            Anchored::No => Ok(StateID::must(START)),
            Anchored::Yes => Ok(StateID::must(ANCHORED_START)),
        }
    }

    #[inline]
    fn next_state(&self, anchored: Anchored, sid: StateID, byte: u8, looks: &mut Looks) -> StateID {
        follow(self.slices(), anchored, sid, byte, looks)
    }

    #[inline]
    fn is_dead(&self, sid: StateID) -> bool {
        sid.as_usize() < START
    }

    #[inline]
    fn is_match(&self, sid: StateID) -> bool {
        let state = &self.states()[sid.as_usize()];
        state.patterns < state.patterns_end || state.output_link.as_usize() != DEAD
    }

    #[inline]
    fn is_start(&self, sid: StateID) -> bool {
        START <= sid.as_usize() && sid.as_usize() < FIRST_INNER
    }

    fn match_len(&self, sid: StateID) -> usize {
        listed_len(self.states(), sid)
    }

    fn match_pattern(&self, sid: StateID, index: usize) -> PatternID {
        let rest = MatchRest { state: sid, index };
        let Some((pattern, _rest)) = self.take_match(rest) else {
            unreachable!()
        };
        pattern
    }

    #[inline]
    fn take_match(&self, rest: MatchRest) -> Option<(PatternID, MatchRest)> {
        take_listed(self.states(), self.order(), rest)
    }

    #[inline]
    fn common(&self) -> &Common<A> {
        &self.common
    }

    #[inline]
    fn shared_commits(&self) -> &Arc<Commits<A>, A> {
        &self.commits
    }

    fn memory_usage(&self) -> usize {
        let lists = &self.lists;
        let states = lists.states.len().saturating_mul(size_of::<State>());
        let transitions = lists
            .transitions
            .len()
            .saturating_mul(size_of::<Transition>());
        let order = lists.order.len().saturating_mul(size_of::<PatternID>());
        let root = self.root.len().saturating_mul(size_of::<StateID>());
        states
            .saturating_add(transitions)
            .saturating_add(order)
            .saturating_add(root)
            .saturating_add(self.commits.as_ref().memory_usage())
            .saturating_add(self.patterns().memory_usage())
    }
}
