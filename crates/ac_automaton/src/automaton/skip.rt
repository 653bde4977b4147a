//! Skipping: how a search passes over bytes at which no match can start.
//!
//! It calls a prefilter where the automaton is at its start: the bytes that are skipped would lead from there to the start
//! again.
ghost use Rattle.std.specs.Prelude.{◌≤◌, ◌<◌, ◌≡◌, false, true, IfSome, None};
ghost use Rattle.ac_util.specs.Prefilters.{first_bytes_of};
ghost use Rattle.ac_automaton.specs.Automata.{IsState};
ghost use Rattle.ac_automaton.specs.Reads.{IsAtStart, MayScan, Moves, Scans, Seeks, at, Advances};
ghost use Rattle.ac_automaton.specs.Scans.{MayAdvance, scanner, SkipsTo};

use super::Automaton;
use super::scan::{Cursor, Dead, Scanner};
use ac_util::looks::{Looks, Tape};
use ac_util::prefilter::FirstBytes;
use ac_util::primitives::StateID;
use ac_util::search::{Match, Span};

/// How many bytes a call of a prefilter has to skip to be worth its time.
const CALL_WORTH: usize = 16;

/// The budget that a search starts with, in bytes.
const BUDGET_AT_FIRST: usize = 16 * CALL_WORTH;

/// The most that it can grow to, by calls that skip much.
const MOST_BUDGET: usize = 64 * CALL_WORTH;

/// How many bytes are read without the prefilter, once no budget is left, before it is tried again for the first time.
const FIRST_REST: usize = 4096;

/// The most bytes that are so read between two tries. The number doubles after each try, until the budget is full
/// again.
const MOST_REST: usize = 256 * FIRST_REST;

/// The budget that a new try starts with.
const BUDGET_AFTER_REST: usize = 4 * CALL_WORTH;

/// Whether it pays to call a prefilter: calls that skip little cost more than they save.
///
/// Each call is charged to the budget, and each byte that it skips is added to it. Without budget a search reads on without
/// the prefilter for a while, and then tries it again. No answer depends on it.
#[derive(Clone, Copy)]
pub(super) struct SkipBudget {
    bytes: usize,
    /// How many bytes are still to be read without the prefilter, once no budget is left.
    rest: usize,
    /// What `rest` will be after the next try.
    next_rest: usize,
}

impl SkipBudget {
    /// Returns the budget that a search starts with.
    #[inline]
    pub(super) fn new() -> SkipBudget {
        SkipBudget {
            bytes: BUDGET_AT_FIRST,
            rest: FIRST_REST,
            next_rest: 2 * FIRST_REST,
        }
    }

    /// Returns whether a call may be made.
    #[inline]
    pub(super) fn is_left(&self) -> bool {
        self.bytes >= CALL_WORTH
    }

    /// Charges a call, and adds the bytes that it skipped.
    #[inline]
    pub(super) fn record_skip(&mut self, skipped: usize) {
        let left = self.bytes.saturating_sub(CALL_WORTH);
        self.bytes = left.saturating_add(skipped);
        if self.bytes > MOST_BUDGET {
            self.bytes = MOST_BUDGET;
            self.rest = FIRST_REST;
            self.next_rest = 2 * FIRST_REST;
        }
    }

    /// Charges a call that looked for a needle from an offset on, and adds the bytes up to where it was found.
    #[inline]
    pub(super) fn record_needle(&mut self, from: usize, found: &Option<Match>) {
        if let Some(found) = found {
            self.record_skip(found.start().saturating_sub(from));
        }
    }

    /// Returns the offset up to which a search reads without the prefilter: one byte on where there is budget, else
    /// as far as it rests, and no further than the end.
    #[inline]
    pub(super) fn rest_end(&self, at: usize, end: usize) -> usize
        requires before_end { at < end }
        ensures onward { at < result }
        ensures within { result ≤ end }
    {
        let most = if self.is_left() { 1 } else { self.rest.max(1) };
        at.saturating_add(most).min(end)
    }

    /// Records bytes that were read without the prefilter: where there is budget they are charged, and else it may
    /// be called again after enough of them.
    #[inline]
    pub(super) fn record_rest(&mut self, read: usize) {
        if self.is_left() {
            self.bytes = self.bytes.saturating_sub(read);
        } else if read < self.rest {
            self.rest -= read;
        } else {
            self.bytes = BUDGET_AFTER_REST;
            self.rest = self.next_rest;
            self.next_rest = self.next_rest.saturating_mul(2).min(MOST_REST);
        }
    }
}

/// Where a search has come to that reads on to its start.
#[derive(Clone, Copy)]
pub(super) enum ToStart {
    /// There, and a call of the prefilter pays.
    There,
    /// As far as it reads, and to this byte.
    Stopped(Option<Dead>),
}

impl<'a, A: Automaton> Scanner<'a, A> {
    /// Reads on by a byte at least, up to a state that has matches or is dead, or up to the end of the span. It skips ahead
    /// to the first bytes where some are given and that pays.
    // Always inlined: the anchoring is known in its caller, and so the engine's step is inlined too.
    #[inline(always)]
    pub(super) fn read_ahead(
        &self,
        first: Option<FirstBytes>,
        cursor: &mut Cursor,
        budget: &mut SkipBudget,
        tape: &mut Tape<'_>,
        looks: &mut Looks,
    )
        requires stops { self.now.stops ≡ true }
        requires skips { IfSome first (λ f. SkipsTo (scanner A.seen self.now).scan (first_bytes_of f)) }
        requires may { MayAdvance (scanner A.seen self.now) tape.old cursor.old }
        ensures { Advances (scanner A.seen self.now) (at cursor.old tape.old looks.old)
            (at cursor.new tape.new looks.new) }
    {
        let dead = self.read_to_match_or_skip(first, cursor, budget, tape, looks);
        cursor.enter(dead);
    }

    /// Reads on as `read` does that stops at a match. It skips ahead to the first bytes where some are given and that pays.
    // Always inlined, as `read_ahead` is.
    #[inline(always)]
    pub(super) fn read_to_match_or_skip(
        &self,
        first: Option<FirstBytes>,
        cursor: &mut Cursor,
        budget: &mut SkipBudget,
        tape: &mut Tape<'_>,
        looks: &mut Looks,
    ) -> Option<Dead>
        requires stops { self.now.stops ≡ true }
        requires skips { IfSome first (λ f. SkipsTo (scanner A.seen self.now).scan (first_bytes_of f)) }
        requires may { MayScan A.seen self.now (at cursor.old tape.old looks.old) }
        ensures { Scans A.seen self.now (at cursor.old tape.old looks.old) result (at cursor.new tape.new looks.new) }
    {
        match first {
            Some(first) => self.read_skipping(first, cursor, budget, tape, looks),
            None => self.read_to_match(cursor, tape, looks),
        }
    }

    /// Reads on as `read` does that stops at no match. It skips ahead to the first bytes where some are given and that pays.
    #[inline(always)]
    pub(super) fn read_past_or_skip(
        &self,
        first: Option<FirstBytes>,
        cursor: &mut Cursor,
        budget: &mut SkipBudget,
        tape: &mut Tape<'_>,
        looks: &mut Looks,
    ) -> Option<Dead>
        requires past { self.now.stops ≡ false }
        requires skips { IfSome first (λ f. SkipsTo (scanner A.seen self.now).scan (first_bytes_of f)) }
        requires may { MayScan A.seen self.now (at cursor.old tape.old looks.old) }
        ensures { Scans A.seen self.now (at cursor.old tape.old looks.old) result (at cursor.new tape.new looks.new) }
    {
        match first {
            Some(first) => self.read_skipping(first, cursor, budget, tape, looks),
            None => self.read_past(cursor, tape, looks),
        }
    }

    /// Reads on as `read` does, and skips ahead to the first bytes where the automaton is at its start and that pays.
    #[inline(never)]
    fn read_skipping(
        &self,
        first: FirstBytes,
        cursor: &mut Cursor,
        budget: &mut SkipBudget,
        tape: &mut Tape<'_>,
        looks: &mut Looks,
    ) -> Option<Dead>
        requires skips { SkipsTo (scanner A.seen self.now).scan (first_bytes_of first) }
        requires may { MayScan A.seen self.now (at cursor.old tape.old looks.old) }
        ensures { Scans A.seen self.now (at cursor.old tape.old looks.old) result (at cursor.new tape.new looks.new) }
    {
        // A copy, which stays in registers.
        let mut copied = *cursor;
        let here = &mut copied;
        loop {
            if let ToStart::Stopped(dead) = self.read_to_start(here, budget, tape, looks) {
                *cursor = *here;
                return dead;
            }
            let dead = self.skip(first, here, budget, tape, looks);
            if dead.is_some() || self.is_to_stop(here.state) {
                *cursor = *here;
                return dead;
            }
        }
    }

    /// Returns whether a call of the prefilter pays and may be made: the automaton is at its start.
    #[inline]
    pub(super) fn is_to_skip(&self, state: StateID, budget: &SkipBudget) -> bool
        requires state { IsState (scanner A.seen self.now).scan.stands state }
        ensures { result ≡ true → IsAtStart (scanner A.seen self.now).scan state }
    {
        budget.is_left() && self.automaton.is_start(state)
    }

    /// Skips ahead to the next of the first bytes, and tries it.
    #[inline]
    fn skip(
        &self,
        first: FirstBytes,
        cursor: &mut Cursor,
        budget: &mut SkipBudget,
        tape: &mut Tape<'_>,
        looks: &mut Looks,
    ) -> Option<Dead>
        requires skips { SkipsTo (scanner A.seen self.now).scan (first_bytes_of first) }
        requires may { MayScan A.seen self.now (at cursor.old tape.old looks.old) }
        requires before { cursor.old.at < self.now.span.end }
        requires at_start { IsAtStart (scanner A.seen self.now).scan cursor.old.state }
        ensures { Moves A.seen self.now (at cursor.old tape.old looks.old) result (at cursor.new tape.new looks.new) }
    {
        let from = cursor.at;
        let Some(next) = tape.skip_to(first, from, self.span.end, looks) else {
            cursor.at = self.span.end;
            return None;
        };
        budget.record_skip(next - from);
        cursor.at = next;
        let (byte, state) = self.read_byte(*cursor, tape, looks);
        let there = Cursor {
            state,
            at: next + 1,
        };
        if self.automaton.is_dead(state) {
            return Some(Dead { byte, next: there });
        }
        *cursor = there;
        None
    }

    /// Reads on without the prefilter: as far as the budget has it rest, or by a byte where there is budget, and no further than
    /// `read` does.
    #[inline]
    pub(super) fn read_rest(
        &self,
        cursor: &mut Cursor,
        budget: &mut SkipBudget,
        tape: &mut Tape<'_>,
        looks: &mut Looks,
    ) -> Option<Dead>
        requires may { MayScan A.seen self.now (at cursor.old tape.old looks.old) }
        requires before { cursor.old.at < self.now.span.end }
        ensures { Moves A.seen self.now (at cursor.old tape.old looks.old) result (at cursor.new tape.new looks.new) }
    {
        let from = cursor.at;
        let scanner = Scanner {
            automaton: self.automaton,
            anchored: self.anchored,
            stops: self.stops,
            span: Span {
                start: self.span.start,
                end: budget.rest_end(from, self.span.end),
            },
        };
        let dead = scanner.read(cursor, tape, looks);
        budget.record_rest(cursor.at - from);
        dead
    }

    /// Reads on to where a call of the prefilter pays and may be made, or else as far as `read` does.
    #[inline]
    pub(super) fn read_to_start(
        &self,
        cursor: &mut Cursor,
        budget: &mut SkipBudget,
        tape: &mut Tape<'_>,
        looks: &mut Looks,
    ) -> ToStart
        requires may { MayScan A.seen self.now (at cursor.old tape.old looks.old) }
        ensures { Seeks A.seen self.now (at cursor.old tape.old looks.old) result (at cursor.new tape.new looks.new) }
    {
        while cursor.at < self.span.end {
            if self.is_to_skip(cursor.state, budget) {
                return ToStart::There;
            }
            let dead = self.read_rest(cursor, budget, tape, looks);
            if dead.is_some() || self.is_to_stop(cursor.state) {
                return ToStart::Stopped(dead);
            }
        }
        ToStart::Stopped(None)
    }
}
