//! The lists of a noncontiguous NFA.
ghost use Rattle.std.specs.Prelude.{◌≡◌, None};
ghost use Rattle.ac_automaton.specs.Growths.{BuildsLists};

use super::growth::Growth;
use super::state::{State, Transition, TrieSlices};
use ac_util::error::BuildError;
use ac_util::patterns::Patterns;
use ac_util::primitives::PatternID;
use ac_util::search::MatchKind;
use std::alloc::Allocator;

/// The lists of an automaton: the numbers of the sorted patterns, the transitions of all states, and the
/// states.
#[derive(Clone, Drop)]
pub(crate) struct TrieLists<A: Allocator> {
    pub(crate) order: Vec<PatternID, A>,
    pub(crate) transitions: Vec<Transition, A>,
    pub(crate) states: Vec<State, A>,
}

impl<A: Allocator + Clone> TrieLists<A> {
    /// Returns the lists of an automaton over these patterns.
    ///
    /// # Errors
    /// `StateIdOverflow` where there are more nodes than state numbers, `Memory` where a request for memory is
    /// refused.
    pub(crate) fn of(
        patterns: &Patterns<A>,
        kind: MatchKind,
        ignores_case: bool,
    ) -> Result<TrieLists<A>, BuildError>
        ensures { BuildsLists patterns.now ignores_case kind result }
    {
        Growth::new(patterns, kind, ignores_case)?.grow()
    }
}

impl<A: Allocator> TrieLists<A> {
    /// Returns what a search follows, without a root table.
    pub(crate) fn slices(&self) -> TrieSlices<'_>
        ensures states { result.states.now ≡ self.now.states.items }
        ensures transitions { result.transitions.now ≡ self.now.transitions.items }
        ensures root { result.root ≡ None }
    {
        TrieSlices {
            states: &self.states,
            transitions: &self.transitions,
            root: None,
        }
    }
}
