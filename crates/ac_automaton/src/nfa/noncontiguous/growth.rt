//! Growing a noncontiguous NFA, breadth first.
//!
//! A state is the range of the sorted patterns that have its string as a prefix. First in the range stand the
//! patterns that equal the string; after them each run of patterns with one more byte in common is a child. So
//! each byte of each pattern is looked at a few times, and no pattern is moved: only a state's transitions are
//! sorted, since those by capitals come before those by small letters. A child's failure target is a step from
//! that of its parent: along a pattern each byte makes the target at most one byte longer, and each failure link
//! makes it shorter, so a build follows few of them. It counts none.
ghost use Rattle.std.specs.Prelude.{◌≡◌, ◌≢◌, ℕ, ◌+◌, ◌<◌, ◌≤◌, Bool, List, IfOk, None, Some, length, []};
ghost use Rattle.ac_automaton.specs.Util.{GREATEST, plain};
ghost use Rattle.ac_automaton.specs.Growths.{BranchesAt, EndsPatterns, HasRoot, HasChildIn, HasSorted, IsChildFailure, IsLinkFrom, MayBranch, PushesState, source_of, BuildsLists, Waits};
ghost use Rattle.ac_automaton.specs.Tries.{AreStates, TrieView};
ghost use Rattle.ac_automaton.specs.Sorted.{IsOrder};
ghost use Rattle.ac_automaton.specs.declared.nfa.noncontiguous.state.TheConstants.{START};

use super::lists::TrieLists;
use super::sorted::SortedPatterns;
use super::state::{
    ANCHORED_START, DEAD, FIRST_INNER, START, State, Transition, TrieSlices, follow,
};
use ac_util::error::BuildError;
use ac_util::looks::Looks;
use ac_util::patterns::Patterns;
use ac_util::primitives::{GREATEST, PatternID, StateID};
use ac_util::search::{Anchored, MatchKind};
use std::alloc::{AllocError, Allocator};

/// A state in the queue, which waits for its children.
#[derive(Clone, Copy)]
struct QueuedState {
    /// Where the range of its patterns begins.
    from: u32,
    /// Where the range ends.
    to: u32,
    /// How many bytes the string has.
    depth: u32,
    /// Its failure target.
    fail: StateID,
}

/// A trie that grows: the patterns, the transitions and states so far, and the queue of the states from
/// `FIRST_INNER` on.
#[derive(Drop)]
pub(super) struct Growth<'p, A: Allocator> {
    sorted: SortedPatterns<'p, A>,
    kind: MatchKind,
    transitions: Vec<Transition, A>,
    states: Vec<State, A>,
    queue: Vec<QueuedState, A>,
}

impl<'p, A: Allocator + Clone> Growth<'p, A> {
    /// Returns a trie of these patterns that has its first two states.
    ///
    /// # Errors
    /// `AllocError` where a request for memory is refused.
    pub(super) fn new(
        patterns: &'p Patterns<A>,
        kind: MatchKind,
        ignores_case: bool,
    ) -> Result<Growth<'p, A>, AllocError>
        ensures begun { IfOk result (HasRoot ignores_case patterns.now) }
        ensures kind { IfOk result (λ growth. growth.kind ≡ kind) }
    {
        let alloc = patterns.allocator();
        let sorted = SortedPatterns::of(alloc.clone()?, patterns, kind, ignores_case)?;
        let mut states = Vec::new(alloc.clone()?);
        states.resize(START, State::dead())?;
        Ok(Growth {
            sorted,
            kind,
            transitions: Vec::new(alloc.clone()?),
            states,
            queue: Vec::new(alloc.clone()?),
        })
    }

    /// Grows the whole trie.
    ///
    /// # Errors
    /// `StateIdOverflow` where there are more nodes than state numbers, `Memory` where a request for memory is
    /// refused.
    pub(super) fn grow(mut self) -> Result<TrieLists<A>, BuildError>
        requires begun { (ignores_case : Bool) × (texts : List (List ℕ)) × HasRoot ignores_case texts self }
        ensures { (ignores_case : Bool) (texts : List (List ℕ)) → HasRoot ignores_case texts self.entry
            → BuildsLists texts ignores_case self.entry.kind result }
    {
        let start = self.start();
        let start = self.branch(start)?;
        self.states.resize(FIRST_INNER, start)?;
        let mut at = 0;
        while at < self.queue.len() {
            let queued = self.queue[at];
            let state = self.branch(queued)?;
            self.states.push(state)?;
            at += 1;
        }
        Ok(TrieLists {
            order: self.sorted.numbers(self.states.allocator().clone()?)?,
            transitions: self.transitions,
            states: self.states,
        })
    }

    /// Adds the children of a state to the queue, and returns the state.
    ///
    /// # Errors
    /// `StateIdOverflow` where there are too many states, `Memory` where a request for memory is refused.
    fn branch(&mut self, queued: QueuedState) -> Result<State, BuildError>
        requires ready { (patterns : List (List ℕ)) × MayBranch patterns self.old queued }
        ensures branched { BranchesAt self.old queued result self.new }
        ensures kept { source_of self.new ≡ source_of self.old }
    {
        let (to, depth) = (queued.to as usize, queued.depth as usize);
        let patterns_end = self.patterns_end(&queued);
        let first = self.transitions.len();
        let mut place = patterns_end;
        while place < to {
            let end = self.sorted.run_end(place, to, depth);
            let Some(byte) = self.sorted.byte(place, depth) else {
                unreachable!()
            };
            let fail = self.child_fail(&queued, place, byte);
            let child = QueuedState {
                from: place as u32,
                to: end as u32,
                depth: queued.depth + 1,
                fail,
            };
            self.push(byte, child)?;
            place = end;
        }
        sort_from(&mut self.transitions, first);
        Ok(State {
            transitions: first as u32,
            transitions_end: self.transitions.len() as u32,
            fail: queued.fail,
            patterns: queued.from,
            patterns_end: patterns_end as u32,
            output_link: self.output_link(queued.fail),
            depth: queued.depth,
        })
    }

    /// Adds a state to the queue, and the transition to it by a plain byte, or where case is ignored those by
    /// both cases of a letter.
    ///
    /// # Errors
    /// `StateIdOverflow` where no number is left for it, `Memory` where a request for memory is refused.
    fn push(&mut self, byte: u8, queued: QueuedState) -> Result<(), BuildError>
        requires few { FIRST_INNER + length self.old.queue.items ≤ GREATEST + 1 }
        ensures pushed { PushesState self.old byte queued result self.new }
        ensures kept { source_of self.new ≡ source_of self.old }
    {
        let number = FIRST_INNER + self.queue.len();
        if number > GREATEST {
            return Err(BuildError::StateIdOverflow {
                max: GREATEST as u64,
                requested: number as u64,
            });
        }
        let target = StateID::must(number);
        self.transitions.push(Transition { byte, target })?;
        if self.sorted.fold() && byte.is_ascii_lowercase() {
            let byte = byte.to_ascii_uppercase();
            self.transitions.push(Transition { byte, target })?;
        }
        self.queue.push(queued)?;
        Ok(())
    }
}

impl<'p, A: Allocator> Growth<'p, A> {
    /// Returns the start as it waits for its children.
    fn start(&self) -> QueuedState
        ensures waits { (patterns : List (List ℕ)) → IsOrder self.now.kind patterns self.now.sorted.patterns
            → Waits self.now.kind patterns self.now.sorted.patterns [] START result }
        ensures depth { result.depth ≡ 0 }
    {
        let sorted = &self.sorted;
        let fail = if self.kind.is_leftmost() && sorted.len() > 0 && sorted.byte(0, 0).is_none() {
            DEAD
        } else {
            START
        };
        QueuedState {
            from: 0,
            to: sorted.len() as u32,
            depth: 0,
            fail: StateID::must(fail),
        }
    }

    /// Returns where the patterns end that equal the string of a state.
    fn patterns_end(&self, queued: &QueuedState) -> usize
        requires ordered { queued.now.from ≤ queued.now.to }
        requires within { queued.now.to ≤ length self.now.sorted.patterns }
        ensures { EndsPatterns self.now.sorted.patterns queued.now result }
    {
        let (from, to) = (queued.from as usize, queued.to as usize);
        let depth = queued.depth as usize;
        if from < to && self.sorted.byte(from, depth).is_none() {
            self.sorted.run_end(from, to, depth)
        } else {
            from
        }
    }

    /// Returns the failure target of the child by a byte, whose patterns begin at a place.
    fn child_fail(&self, queued: &QueuedState, place: usize, byte: u8) -> StateID
        requires child { (patterns : List (List ℕ)) × HasChildIn patterns self.now queued.now place byte }
        ensures fails { IsChildFailure self.now queued.now place byte result }
        ensures unanchored { result ≢ ANCHORED_START }
    {
        if self.kind.is_leftmost() && self.sorted.byte(place, queued.depth as usize + 1).is_none() {
            return StateID::must(DEAD);
        }
        if queued.depth == 0 {
            return queued.fail;
        }
        let trie = TrieSlices {
            states: &self.states,
            transitions: &self.transitions,
            root: None,
        };
        follow(trie, Anchored::No, queued.fail, byte, &mut Looks::new())
    }

    /// Returns the output link of a state with this failure target: the target where it has patterns, else the
    /// output link of the target. A target that isn't complete yet is the start's own, and leads nowhere.
    fn output_link(&self, fail: StateID) -> StateID
        requires { (g : TrieView) × AreStates g self.now.states.items }
        ensures { IsLinkFrom self.now fail result }
    {
        if fail.as_usize() >= self.states.len() {
            return StateID::must(DEAD);
        }
        let target = &self.states[fail.as_usize()];
        if target.patterns < target.patterns_end {
            fail
        } else {
            target.output_link
        }
    }
}

/// Puts the transitions from a place on in ascending order of their bytes.
fn sort_from(transitions: &mut [Transition], first: usize)
    requires within { first ≤ length transitions.old }
    ensures { HasSorted first transitions.old transitions.new }
{
    transitions[first..].sort_unstable_by_key(|t| t.byte);
}
