//! Filling the rows of a DFA.
ghost use Rattle.std.specs.Prelude.{◌≡◌, ◌≢◌, ◌⊎◌, ◌&&◌, ℕ, ◌+◌, ◌<◌, ◌≤◌, List, [], length, slice_index_or, if◌then◌else◌, Some};
ghost use Rattle.std.specs.List.{CopiedTo, SameBelow, SameFrom};
ghost use Rattle.ac_automaton.specs.Util.{GREATEST, is_leftmost, Node, begins_with_pattern};
ghost use Rattle.ac_util.specs.declared.search.Anchored;
ghost use Rattle.ac_engines.specs.Dfa.Filling.{FillsAll, FillsRow, FillsState, HasRow, IsRowToFill, MayFill, SameBeside, SetsOwn, row_at, row_input, FilledUpTo};
ghost use Rattle.ac_engines.specs.Dfa.{anchored_shift};
ghost use Rattle.ac_automaton.specs.Prelude.{plain_of};

use ac_automaton::automaton::Automaton;
use ac_automaton::nfa::noncontiguous::{DEAD, FIRST_INNER, NFA, START};
use ac_util::alphabet::ByteClasses;
use ac_util::primitives::StateID;
use ac_util::search::{Anchored, StartKind};
use std::alloc::Allocator;
use std::marker::Model;

/// What the rows of a DFA are filled by.
#[derive(Drop)]
pub(super) struct Filler<'a, A: Allocator> {
    pub(super) nfa: &'a NFA<A>,
    pub(super) classes: &'a ByteClasses,
    /// Which starts the table has.
    pub(super) start_kind: StartKind,
    /// How many entries a row has.
    pub(super) stride: usize,
    /// The number of the first row of each state of the trie.
    pub(super) numbers: &'a [StateID],
}

impl<'a, A: Allocator> Model for Filler<'a, A> {
    ghost use Rattle.ac_engines.specs.Dfa.Filling.{Filling};

    ghost Value = { Filling };

    ghost view = { λ f. record {
      trie = f.nfa.now;
      classes = f.classes.now;
      start_kind = f.start_kind;
      stride = f.stride;
      numbers = f.numbers.now;
    } };
}

impl<'a, A: Allocator> Filler<'a, A> {
    /// Returns how far the anchored row of a state stands after its unanchored one.
    fn anchored_shift(&self, anchored: Anchored) -> usize
        ensures { result ≡ anchored_shift self.now.start_kind anchored self.now.stride }
    {
        match (self.start_kind, anchored) {
            (StartKind::Both, Anchored::Yes) => self.stride,
            _ => 0,
        }
    }

    /// Returns the number of a state in the table.
    fn number(&self, sid: StateID, anchored: Anchored) -> StateID
        requires { (nodes : List Node) × (size : ℕ) × (w : List ℕ) × HasRow self.now nodes size sid w }
        ensures { (nodes : List Node) (size : ℕ) (w : List ℕ) → HasRow self.now nodes size sid w → result
            ≡ row_at (row_input self.now nodes) anchored (Some w) }
    {
        StateID::must(first_row(self.numbers, sid) + self.anchored_shift(anchored))
    }

    /// Sets the own transitions of a state in one of its rows.
    fn set_own(&self, table: &mut [StateID], sid: StateID, anchored: Anchored)
        requires { (nodes : List Node) × (w : List ℕ) × HasRow self.now nodes (length table.old) sid w }
        ensures { SetsOwn self.now sid anchored table.old table.new }
    {
        let row = self.number(sid, anchored).as_usize();
        for index in 0..self.nfa.own_len(sid) {
            let (byte, next) = self.nfa.own(sid, index);
            table[row + self.classes.get(byte) as usize] = self.number(next, anchored);
        }
    }

    /// Fills the row of the start in unanchored searches. Bytes without a transition stay at the start, or lead to
    /// the dead state where under a leftmost kind an empty pattern has begun the match.
    fn fill_start(&self, table: &mut [StateID])
        requires { IsRowToFill self.now 2 [] Anchored.No table.old }
        ensures { FillsRow self.now 2 [] Anchored.No table.old table.new }
    {
        let sid = StateID::must(START);
        let start = self.number(sid, Anchored::No);
        lead_all(
            table,
            start,
            self.default_target(start),
            self.classes.alphabet_len(),
        );
        self.set_own(table, sid, Anchored::No);
    }

    /// Returns where a byte leads from the start that doesn't lead on.
    fn default_target(&self, start: StateID) -> StateID
        ensures { result
            ≡ (if is_leftmost self.now.trie.built.kind && begins_with_pattern (plain_of self.now.trie.built) [] then 0
            else start) }
    {
        if self.nfa.match_kind().is_leftmost() && self.nfa.min_pattern_len() == 0 {
            StateID::must(DEAD)
        } else {
            start
        }
    }

    /// Fills the unanchored row of a state after the starts: each class leads where it leads from the failure target,
    /// but for those of the state's own transitions.
    fn fill_inner(&self, table: &mut [StateID], sid: StateID)
        requires { (w : List ℕ) × (w ≢ []) × IsRowToFill self.now sid w Anchored.No table.old }
        ensures { (w : List ℕ) → w ≢ [] → FillsRow self.now sid w Anchored.No table.old table.new }
    {
        let from = first_row(self.numbers, self.nfa.fail(sid));
        let to = self.number(sid, Anchored::No).as_usize();
        copy_row(table, from, to, self.classes.alphabet_len());
        self.set_own(table, sid, Anchored::No);
    }

    /// Fills one of the rows of a state.
    fn fill_row(&self, table: &mut [StateID], sid: StateID, anchored: Anchored)
        requires { (w : List ℕ) × IsRowToFill self.now sid w anchored table.old }
        ensures { (w : List ℕ) → FillsRow self.now sid w anchored table.old table.new }
    {
        match anchored {
            Anchored::Yes => self.set_own(table, sid, Anchored::Yes),
            Anchored::No if sid.as_usize() == START => self.fill_start(table),
            Anchored::No => self.fill_inner(table, sid),
        }
    }

    /// Fills the rows of a state.
    fn fill_state(&self, table: &mut [StateID], sid: StateID)
        requires { (nodes : List Node) × (w : List ℕ) × HasRow self.now nodes (length table.old) sid w
            × FilledUpTo self.now nodes (length table.old) sid table.old }
        ensures { FillsState self.now sid table.old table.new }
    {
        match self.start_kind {
            StartKind::Unanchored => self.fill_row(table, sid, Anchored::No),
            StartKind::Anchored => self.fill_row(table, sid, Anchored::Yes),
            StartKind::Both => {
                self.fill_row(table, sid, Anchored::No);
                self.fill_row(table, sid, Anchored::Yes);
            }
        }
    }

    /// Fills all rows of a DFA that has nothing but dead entries.
    pub(super) fn fill(&self, table: &mut [StateID])
        requires may { (nodes : List Node) × MayFill self.now nodes (length table.old) }
        requires blank { (k : ℕ) → slice_index_or table.old k 0 ≡ 0 }
        ensures { FillsAll self.now (length table.old) table.new }
    {
        self.fill_state(table, StateID::must(START));
        for state in FIRST_INNER..self.nfa.states_len() {
            self.fill_state(table, StateID::must(state));
        }
    }
}

/// Lets each of so many classes lead from one state to another.
fn lead_all(table: &mut [StateID], from: StateID, to: StateID, classes: usize)
    requires within { from + classes ≤ length table.old }
    ensures same_length { length table.new ≡ length table.old }
    ensures filled { (k : ℕ) → from ≤ k → k < from + classes → slice_index_or table.new k 0 ≡ to }
    ensures beside { SameBeside from classes table.old table.new }
{
    for class in 0..classes {
        table[from.as_usize() + class] = to;
    }
}

/// Lets each of so many classes lead from the row at `to` to where it leads from the row at `from`.
fn copy_row(table: &mut [StateID], from: usize, to: usize, classes: usize)
    requires from_within { from + classes ≤ length table.old }
    requires to_within { to + classes ≤ length table.old }
    requires apart { (from + classes ≤ to) ⊎ (to + classes ≤ from) }
    ensures same_length { length table.new ≡ length table.old }
    ensures copied { CopiedTo table.old table.new from to classes }
    ensures below { SameBelow table.old table.new to }
    ensures above { SameFrom table.old table.new (to + classes) }
{
    for class in 0..classes {
        table[to + class] = table[from + class];
    }
}

/// Returns where the first row of a state begins.
fn first_row(numbers: &[StateID], sid: StateID) -> usize
    requires numbered { sid < length numbers.now }
    ensures value { result ≡ slice_index_or numbers.now sid 0 }
    ensures small { result ≤ GREATEST }
{
    numbers[sid.as_usize()].as_usize()
}
