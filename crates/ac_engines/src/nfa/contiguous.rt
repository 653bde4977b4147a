//! The contiguous NFA: states packed into one list of words, small and nearly as fast as a DFA.
ghost use Rattle.std.specs.Prelude.{◌≡◌, drop};
ghost use Rattle.std.proofs.Common.{inr, refl};
ghost use Rattle.ac_util.specs.declared.search.Anchored.{Anchored};
ghost use Rattle.ac_util.specs.Patterns.{bytes_of};
ghost use Rattle.ac_automaton.specs.Prelude.{IsState};
ghost use Rattle.ac_engines.specs.Contiguous.{IsContiguous, IsContiguousState, Places, contiguous_automaton};
ghost use Rattle.ac_engines.specs.Contiguous.Builds.{BuildsContiguous, usual_contiguous_settings};
ghost use Rattle.ac_engines.specs.Listed.{contiguous-lists};

use ac_automaton::automaton::{Automaton, Commits, Common, MatchRest};
use ac_automaton::nfa::noncontiguous::DEAD;
use ac_util::alphabet::ByteClasses;
use ac_util::error::{BuildError, MatchError};
use ac_util::looks::Looks;
use ac_util::primitives::{PatternID, StateID};
use ac_util::search::Anchored;
use state::State;
use std::alloc::{AllocError, Allocator, Global};
use std::fmt;
use std::marker::Model;
use std::mem::size_of;
use std::sync::Arc;
use step::follow;

mod builder;
mod format;
mod pack;
mod plan;
mod state;
mod state_fields;
mod step;
mod transitions;

pub use builder::Builder;
pub use format::{Format, check_words, format_of, state_words};

/// An automaton whose states are packed into one list of words, and which follows failure links while it searches.
///
/// It is made to take little memory, and a search looks at states at most twice for each byte that it reads. It serves
/// unanchored and anchored searches. This ports `nfa::contiguous::NFA`.
///
/// A state's number is the index of its first word. The dead state comes first, then the states that have matches, then
/// the others: so comparisons of the number say what a search has to know about a state.
///
/// ```
/// let nfa = contiguous::NFA::new(alloc, &[b"he", b"she"])?;
/// let found = nfa.try_find(Input::new(b"ushers"));
/// assert_eq!(rt; found, Ok(Some(Match::must(1, 1..4))));
/// ```
#[derive(Drop)]
pub struct NFA<A: Allocator = Global> {
    common: Common<A>,
    classes: ByteClasses,
    /// States of strings shorter than this are dense.
    dense_depth: usize,
    words: Vec<u32, A>,
    commits: Arc<Commits<A>, A>,
    start: StateID,
    anchored_start: StateID,
    /// No state with this number or a greater one has matches.
    match_end: usize,
}

impl<A: Allocator> Model for NFA<A> {
    ghost use Rattle.ac_automaton.specs.Commits.{HasCommits};
    ghost use Rattle.ac_engines.specs.Contiguous.{ContiguousView, IsContiguous, Places, contiguous_automaton, contiguous_of};

    ghost Value = { ContiguousView };

    ghost view = { λ n. contiguous_of n.common n.dense_depth n.classes n.words.items n.start n.anchored_start
        n.match_end };

    ghost invariant = { λ n. record {
      is_contiguous : (at : Places) × IsContiguous (contiguous_of n.common n.dense_depth n.classes n.words.items n.start
          n.anchored_start n.match_end) at;
      committed : HasCommits (contiguous_automaton (contiguous_of n.common n.dense_depth n.classes n.words.items n.start
          n.anchored_start n.match_end)) n.commits.value;
    } };
}

/// Shown as `NFA { match_kind: Standard, patterns: 3 }`.
impl<A: Allocator> fmt::Debug for NFA<A> {
    fn fmt<W: fmt::Write>(&self, f: &mut fmt::Formatter<W>) -> fmt::Result {
        let (kind, patterns) = (self.match_kind(), self.patterns_len());
        write!(f, "NFA {{ match_kind: {kind:?}, patterns: {patterns} }}")
    }
}

impl<A: Allocator + Clone> Clone for NFA<A> {
    ghost is_clone = { λ s t. t ≡ s };

    /// Returns a copy, which shares the patterns with this automaton and gives the same answers.
    ///
    /// # Errors
    /// `AllocError` where a request for memory is refused.
    fn clone(&self) -> Result<NFA<A>, AllocError> {
        Ok(NFA {
            common: self.common.clone()?,
            words: self.words.clone()?,
            commits: self.commits.clone()?,
            ..*self
        })
    }
}

impl<A: Allocator + Clone> NFA<A> {
    /// Builds an automaton over a list of patterns with the usual settings: `MatchKind::Standard`, the case of letters
    /// counts, states of no byte and of one byte are dense, bytes that need not be distinguished share a class, and
    /// there is a prefilter where the patterns have one. This ports `NFA::new`.
    ///
    /// # Errors
    /// As `Builder::build`.
    pub fn new(alloc: A, patterns: &[&[u8]]) -> Result<NFA<A>, BuildError>
        ensures { BuildsContiguous usual_contiguous_settings (bytes_of patterns.now) result }
    {
        Builder::new().build(alloc, patterns)
    }
}

impl NFA {
    /// Returns a builder with the usual settings, those of `Builder::new`. This ports `NFA::builder`.
    pub fn builder() -> Builder
        ensures { result ≡ usual_contiguous_settings }
    {
        Builder::new()
    }
}

impl<A: Allocator> NFA<A> {
    /// Returns the words of all states.
    #[inline]
    fn words(&self) -> &[u32]
        ensures value { result.now ≡ self.now.words }
        ensures is_contiguous { (at : Places) × IsContiguous self.now at }
    {
        &self.words
    }

    /// Returns the packed state with this number.
    #[inline]
    fn state(&self, sid: StateID) -> State<'_>
        requires { (anchored : Anchored) × IsState (λ s u. IsContiguousState self.now anchored s u) sid }
        ensures { result.words.now ≡ drop sid self.now.words }
    {
        State::at(self.words(), sid.as_usize())
    }
}

impl<A: Allocator> Automaton for NFA<A> {
    type Memory = A;

    const LOOKS: usize = 2;

    ghost LOOKS = { 2 };

    ghost seen = { contiguous_automaton };

    ghost one_or_two = { inr refl };

    ghost allows = { λ n. refl };

    ghost lists = { contiguous-lists };

    fn start_state(&self, anchored: Anchored) -> Result<StateID, MatchError> {
        // Contracts learn here which states are the starts.
        let _words = self.words();
        match anchored {
            Anchored::No => Ok(self.start),
            Anchored::Yes => Ok(self.anchored_start),
        }
    }

    #[inline]
    fn next_state(&self, anchored: Anchored, sid: StateID, byte: u8, looks: &mut Looks) -> StateID {
        follow(self.words(), self.classes.get(byte), anchored, sid, looks)
    }

    #[inline]
    fn is_dead(&self, sid: StateID) -> bool {
        sid.as_usize() == DEAD
    }

    #[inline]
    fn is_match(&self, sid: StateID) -> bool {
        DEAD < sid.as_usize() && sid.as_usize() < self.match_end
    }

    #[inline]
    fn is_match_or_dead(&self, sid: StateID) -> bool {
        sid.as_usize() < self.match_end
    }

    #[inline]
    fn is_start(&self, sid: StateID) -> bool {
        sid == self.start || sid == self.anchored_start
    }

    #[inline]
    fn match_len(&self, sid: StateID) -> usize {
        self.state(sid).match_len(self.classes.alphabet_len())
    }

    #[inline]
    fn match_pattern(&self, sid: StateID, index: usize) -> PatternID {
        let pattern = self
            .state(sid)
            .match_pattern(self.classes.alphabet_len(), index);
        PatternID::must(pattern as usize)
    }

    #[inline]
    fn take_match(&self, rest: MatchRest) -> Option<(PatternID, MatchRest)> {
        if !self.is_match(rest.state) || rest.index >= self.match_len(rest.state) {
            return None;
        }
        let pattern = self.match_pattern(rest.state, rest.index);
        let rest = MatchRest {
            state: rest.state,
            index: rest.index + 1,
        };
        Some((pattern, rest))
    }

    #[inline]
    fn common(&self) -> &Common<A> {
        &self.common
    }

    #[inline]
    fn shared_commits(&self) -> &Arc<Commits<A>, A> {
        &self.commits
    }

    fn memory_usage(&self) -> usize {
        let words = self.words.len().saturating_mul(size_of::<u32>());
        words
            .saturating_add(self.commits.as_ref().memory_usage())
            .saturating_add(self.common.patterns().as_ref().memory_usage())
    }
}

#[cfg(test)]
mod tests;
