//! Where the rows of a DFA stand.
ghost use Rattle.std.specs.Prelude.{◌≡◌, ◌∷◌, [], ◌+◌, ◌-◌, ◌*◌, ◌^◌, ◌≤◌, ◌<◌, IfOk};
ghost use Rattle.ac_automaton.specs.Util.{GREATEST};
ghost use Rattle.ac_util.specs.declared.search.StartKind;
ghost use Rattle.ac_automaton.specs.declared.nfa.noncontiguous.state.TheConstants.{FIRST_INNER, START};
ghost use Rattle.ac_engines.specs.Dfa.Layouts.{IsLayoutOver, PlacesState, rows_each, rows_over, table_rows};
ghost use Rattle.ac_engines.specs.Listed.{HasNode};

use super::lists::{add_rows, first_lists};
use ac_automaton::automaton::Automaton;
use ac_automaton::nfa::noncontiguous::{FIRST_INNER, NFA, START};
use ac_util::patterns::pieces::Pieces;
use ac_util::primitives::{PatternID, StateID};
use ac_util::search::StartKind;
use std::alloc::{AllocError, Allocator};

/// Where the rows of a DFA stand, and their match lists.
#[derive(Drop)]
pub(super) struct Layout<A: Allocator> {
    /// The number of the first row of each state of the trie.
    pub(super) numbers: Vec<StateID, A>,
    pub(super) lists: Pieces<PatternID, A>,
    /// No state before this number has matches.
    pub(super) first_match: usize,
    /// Nor from this one on.
    pub(super) match_end: usize,
}

impl<A: Allocator + Clone> Layout<A> {
    /// Lays out the rows of a DFA with these starts, which have two to the power of `stride2` entries.
    ///
    /// # Errors
    /// `AllocError` where a request for memory is refused.
    pub(super) fn of(
        alloc: A,
        nfa: &NFA<A>,
        start_kind: StartKind,
        stride2: u32,
    ) -> Result<Layout<A>, AllocError>
        requires narrow { stride2 ≤ 8 }
        requires small { (rows_over start_kind nfa.now - 1) * 2 ^ stride2 ≤ GREATEST }
        ensures { IfOk result (IsLayoutOver nfa.now start_kind stride2) }
    {
        let states = nfa.states_len();
        let mut numbers = first_numbers(alloc.clone()?, stride2)?;
        let mut matches = Vec::new(alloc.clone()?);
        let mut rows = Rows {
            lists: first_lists(alloc, &mut matches, nfa, start_kind)?,
            matches,
            back: table_rows(start_kind, states),
        };
        for state in FIRST_INNER..states {
            let row = rows.place(nfa, StateID::must(state), start_kind)?;
            numbers.push(state_id(row, stride2))?;
        }
        let first = if nfa.is_match(StateID::must(START)) {
            START
        } else {
            FIRST_INNER
        };
        Ok(Layout {
            numbers,
            first_match: number(first, stride2),
            match_end: number(rows.lists.len(), stride2),
            lists: rows.lists,
        })
    }
}

/// The rows that states have so far: in front those of the starts and of the states that have matches, which have
/// lists, and from the back on those of the others.
#[derive(Drop)]
struct Rows<A: Allocator> {
    lists: Pieces<PatternID, A>,
    /// A list that is filled anew for each row.
    matches: Vec<PatternID, A>,
    back: usize,
}

impl<A: Allocator> Rows<A> {
    /// Gives a state its rows, after those in front where it has matches and else before those at the back. Returns
    /// the first of them.
    ///
    /// # Errors
    /// `AllocError` where a request for memory is refused.
    fn place(
        &mut self,
        nfa: &NFA<A>,
        sid: StateID,
        start_kind: StartKind,
    ) -> Result<usize, AllocError>
        requires state { HasNode nfa.now sid }
        requires room { rows_each start_kind ≤ self.old.back }
        ensures { PlacesState nfa.now start_kind sid self.old result self.new }
    {
        if !nfa.is_match(sid) {
            self.back -= rows_each(start_kind);
            return Ok(self.back);
        }
        let row = self.lists.len();
        add_rows(&mut self.lists, &mut self.matches, nfa, sid, start_kind)?;
        Ok(row)
    }
}

/// Returns the numbers of the first four states of a trie: the dead one, the one that no search reaches, and the
/// starts.
///
/// # Errors
/// `AllocError` where a request for memory is refused.
fn first_numbers<A: Allocator>(alloc: A, stride2: u32) -> Result<Vec<StateID, A>, AllocError>
    requires narrow { stride2 ≤ 8 }
    ensures { IfOk result (λ numbers. numbers.items ≡ 0 ∷ 0 ∷ 2 * 2 ^ stride2 ∷ 3 * 2 ^ stride2 ∷ []) }
{
    let mut numbers = Vec::new(alloc);
    numbers.push(StateID::must(0))?;
    numbers.push(StateID::must(0))?;
    numbers.push(state_id(2, stride2))?;
    numbers.push(state_id(3, stride2))?;
    Ok(numbers)
}

/// Returns how many rows a state has.
fn rows_each(start_kind: StartKind) -> usize
    ensures { result ≡ rows_each start_kind }
{
    match start_kind {
        StartKind::Both => 2,
        StartKind::Unanchored | StartKind::Anchored => 1,
    }
}

/// Returns how many rows a DFA with these starts has for a trie of so many states.
pub(super) fn table_rows(start_kind: StartKind, states: usize) -> usize
    requires first { FIRST_INNER ≤ states }
    requires few { states ≤ GREATEST + 1 }
    ensures value { result ≡ table_rows start_kind states }
    ensures some { 1 ≤ result }
    ensures few { result ≤ table_rows StartKind.Both (GREATEST + 1) }
{
    match start_kind {
        StartKind::Both => 2 * states - FIRST_INNER,
        StartKind::Unanchored | StartKind::Anchored => states,
    }
}

/// Returns the number of the state that has a row.
fn state_id(row: usize, stride2: u32) -> StateID
    requires narrow { stride2 ≤ 8 }
    requires small { row * 2 ^ stride2 ≤ GREATEST }
    ensures { result ≡ row * 2 ^ stride2 }
{
    StateID::must(number(row, stride2))
}

/// Returns where a row begins.
fn number(row: usize, stride2: u32) -> usize
    requires narrow { stride2 ≤ 8 }
    requires small { row < 2 ^ 32 }
    ensures { result ≡ row * 2 ^ stride2 }
{
    row << stride2
}
