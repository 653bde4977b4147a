//! The DFA: one look for each byte.
ghost use Rattle.std.specs.Prelude.{◌≡◌, ℕ, ◌+◌, ◌<◌, ◌≤◌, IsTrue, List, length, slice_index_or};
ghost use Rattle.std.proofs.Common.{inl, refl};
ghost use Rattle.ac_automaton.specs.Util.{bytes_of, more_looks};
ghost use Rattle.ac_engines.specs.Dfa.{dfa_automaton, HasMatchesAmong, IsDfa, list_at};
ghost use Rattle.ac_engines.specs.Dfa.Builds.{BuildsDfa, usual_dfa_settings};
ghost use Rattle.ac_engines.specs.Listed.{dfa-lists};

use ac_automaton::automaton::{Automaton, Commits, Common, MatchRest};
use ac_util::alphabet::ByteClasses;
use ac_util::error::{BuildError, MatchError};
use ac_util::looks::Looks;
use ac_util::patterns::pieces::Pieces;
use ac_util::primitives::{PatternID, StateID};
use ac_util::search::{Anchored, StartKind};
use std::alloc::{AllocError, Allocator, Global};
use std::fmt;
use std::marker::Model;
use std::mem::size_of;
use std::ops::Range;
use std::sync::Arc;

mod builder;
mod fill;
mod layout;
mod lists;
mod table;

pub use builder::Builder;
pub use table::table_len;

/// The number of the dead state: nothing is found from it on.
const DEAD: usize = 0;

/// An automaton that looks up where each byte leads: the fastest to search with, and the largest. This ports
/// `dfa::DFA`.
///
/// Its transition table has a row for each state, and in it an entry for each class of bytes: the state where a byte of
/// that class leads, with all failure links followed when it was built. So a search looks at one state for each byte.
///
/// A state's number is the index of the first entry of its row. The rows of the dead state and of the starts come
/// first, then those of match states, then the others: so one or two comparisons say what a search has to know about a
/// state.
///
/// ```
/// let dfa = dfa::DFA::new(alloc, &[b"he", b"she"])?;
/// let found = dfa.try_find(Input::new(b"ushers"));
/// assert_eq!(rt; found, Ok(Some(Match::must(1, 1..4))));
/// ```
#[derive(Drop)]
pub struct DFA<A: Allocator = Global> {
    common: Common<A>,
    start_kind: StartKind,
    classes: ByteClasses,
    /// A row has two to the power of this many entries.
    stride2: u32,
    table: Vec<StateID, A>,
    /// The match list of each row up to the last that has one.
    lists: Pieces<PatternID, A>,
    commits: Arc<Commits<A>, A>,
    /// The unanchored start, or the dead state where there is none.
    start: StateID,
    /// The anchored start, or the dead state where there is none.
    anchored_start: StateID,
    /// No state with a lesser number has matches.
    first_match: usize,
    /// No state with this number or a greater one has matches.
    match_end: usize,
}

impl<A: Allocator> Model for DFA<A> {
    ghost use Rattle.std.specs.Prelude.{◌≡◌, ◌≤◌, ◌^◌, List, ℕ};
    ghost use Rattle.ac_automaton.specs.Util.{No, Yes};
    ghost use Rattle.ac_automaton.specs.Commits.{HasCommits};
    ghost use Rattle.ac_engines.specs.Dfa.{DfaView, HasMatchesAmong, IsDfa, dfa_automaton, dfa_of, start_number};

    ghost Value = { DfaView };

    ghost view = { λ d. dfa_of d.common d.start_kind d.classes d.stride2 d.table.items d.lists };

    ghost invariant = { λ d. record {
      is_dfa : (place : List ℕ → ℕ)
          × IsDfa (dfa_of d.common d.start_kind d.classes d.stride2 d.table.items d.lists) place;
      few : d.stride2 ≤ 8;
      start : d.start ≡ start_number d.start_kind No (2 ^ d.stride2);
      anchored_start : d.anchored_start ≡ start_number d.start_kind Yes (2 ^ d.stride2);
      among : HasMatchesAmong (dfa_of d.common d.start_kind d.classes d.stride2 d.table.items d.lists)
          d.first_match d.match_end;
      committed : HasCommits
          (dfa_automaton (dfa_of d.common d.start_kind d.classes d.stride2 d.table.items d.lists)) d.commits.value;
    } };
}

/// Shown as `DFA { match_kind: Standard, patterns: 3 }`.
impl<A: Allocator> fmt::Debug for DFA<A> {
    fn fmt<W: fmt::Write>(&self, f: &mut fmt::Formatter<W>) -> fmt::Result {
        let (kind, patterns) = (self.match_kind(), self.patterns_len());
        write!(f, "DFA {{ match_kind: {kind:?}, patterns: {patterns} }}")
    }
}

impl<A: Allocator + Clone> Clone for DFA<A> {
    ghost is_clone = { λ s t. t ≡ s };

    /// Returns a copy, which shares the patterns with this automaton and gives the same answers.
    ///
    /// # Errors
    /// `AllocError` where a request for memory is refused.
    fn clone(&self) -> Result<DFA<A>, AllocError> {
        Ok(DFA {
            common: self.common.clone()?,
            table: self.table.clone()?,
            lists: self.lists.clone()?,
            commits: self.commits.clone()?,
            ..*self
        })
    }
}

impl<A: Allocator + Clone> DFA<A> {
    /// Builds an automaton over a list of patterns with the usual settings: `MatchKind::Standard`, the case of letters
    /// counts, unanchored searches only, bytes that need not be distinguished share a class, and there is a prefilter
    /// where the patterns have one. This ports `DFA::new`.
    ///
    /// # Errors
    /// As `Builder::build`.
    pub fn new(alloc: A, patterns: &[&[u8]]) -> Result<DFA<A>, BuildError>
        ensures { BuildsDfa usual_dfa_settings (bytes_of patterns.now) result }
    {
        Builder::new().build(alloc, patterns)
    }
}

impl DFA {
    /// Returns a builder with the usual settings, those of `Builder::new`. This ports `DFA::builder`.
    pub fn builder() -> Builder
        ensures { result ≡ usual_dfa_settings }
    {
        Builder::new()
    }
}

impl<A: Allocator> DFA<A> {
    /// Returns the entries of the transition table.
    #[inline]
    fn entries(&self) -> &[StateID]
        ensures value { result.now ≡ self.now.entries }
        ensures is_dfa { (place : List ℕ → ℕ) × IsDfa self.now place }
    {
        &self.table
    }

    /// Returns between which numbers the states stand that have matches. Where there are both starts there are others
    /// among them: rows of anchored searches where only the node's suffixes match.
    #[inline]
    fn match_numbers(&self) -> Range<usize>
        ensures { HasMatchesAmong self.now result.start result.end }
    {
        self.first_match..self.match_end
    }

    /// Returns the match list of a state.
    #[inline]
    fn list(&self, sid: StateID) -> &[PatternID]
        ensures { result.now ≡ list_at self.now sid }
    {
        let row = sid.as_usize() >> self.stride2;
        if row < self.lists.len() {
            self.lists.get(row)
        } else {
            &[]
        }
    }
}

impl<A: Allocator> Automaton for DFA<A> {
    type Memory = A;

    const LOOKS: usize = 1;

    ghost LOOKS = { 1 };

    ghost seen = { dfa_automaton };

    ghost one_or_two = { inl refl };

    ghost allows = { λ d. refl };

    ghost lists = { dfa-lists };

    fn start_state(&self, anchored: Anchored) -> Result<StateID, MatchError> {
        // Contracts learn here which state is the start.
        let _entries = self.entries();
        let (start, refusal) = match anchored {
            Anchored::No => (self.start, MatchError::InvalidInputUnanchored),
            Anchored::Yes => (self.anchored_start, MatchError::InvalidInputAnchored),
        };
        if start.as_usize() == DEAD {
            return Err(refusal);
        }
        Ok(start)
    }

    #[inline]
    fn next_state(
        &self,
        _anchored: Anchored,
        sid: StateID,
        byte: u8,
        looks: &mut Looks,
    ) -> StateID {
        look(self.entries(), self.classes.get(byte) as usize, sid, looks)
    }

    #[inline]
    fn is_dead(&self, sid: StateID) -> bool {
        sid.as_usize() == DEAD
    }

    #[inline]
    fn is_match(&self, sid: StateID) -> bool {
        lies_in(self.match_numbers(), sid.as_usize()) && !self.list(sid).is_empty()
    }

    #[inline]
    fn is_start(&self, sid: StateID) -> bool {
        sid.as_usize() != DEAD && (sid == self.start || sid == self.anchored_start)
    }

    #[inline]
    fn match_len(&self, sid: StateID) -> usize {
        self.list(sid).len()
    }

    #[inline]
    fn match_pattern(&self, sid: StateID, index: usize) -> PatternID {
        self.list(sid)[index]
    }

    #[inline]
    fn take_match(&self, rest: MatchRest) -> Option<(PatternID, MatchRest)> {
        let pattern = *self.list(rest.state).get(rest.index)?;
        let rest = MatchRest {
            state: rest.state,
            index: rest.index + 1,
        };
        Some((pattern, rest))
    }

    #[inline]
    fn common(&self) -> &Common<A> {
        &self.common
    }

    #[inline]
    fn shared_commits(&self) -> &Arc<Commits<A>, A> {
        &self.commits
    }

    fn memory_usage(&self) -> usize {
        let table = self.table.len().saturating_mul(size_of::<StateID>());
        table
            .saturating_add(self.lists.memory_usage())
            .saturating_add(self.commits.as_ref().memory_usage())
            .saturating_add(self.common.patterns().as_ref().memory_usage())
    }
}

/// Returns what stands in the row of a state at a class, and counts the look.
///
/// The column of the class is found first, since it depends on the byte alone: then one load leads from state to state.
#[inline]
fn look(entries: &[StateID], class: usize, sid: StateID, looks: &mut Looks) -> StateID
    requires within { sid + class < length entries.now }
    ensures target { result ≡ slice_index_or entries.now (sid + class) 0 }
    ensures counted { looks.new ≡ more_looks 1 looks.old }
{
    looks.look();
    let column = &entries[class..];
    column[sid.as_usize()]
}

/// Returns whether a number lies in a range, by one compare: a number before the range wraps, and so is too large. Where
/// the range ends before it starts, nothing is promised.
#[inline]
fn lies_in(range: Range<usize>, number: usize) -> bool
    ensures finds { range.start ≤ number → number < range.end → IsTrue result }
    ensures only { range.start ≤ range.end → IsTrue result → (range.start ≤ number) × (number < range.end) }
{
    number.wrapping_sub(range.start) < range.end.wrapping_sub(range.start)
}

#[cfg(test)]
mod tests;
