//! Reading a byte and following it, and reading on from match to match: the scan that all searches share.
//!
//! A search adds to it what it answers, and nothing else: where the automaton stands, what was read and what was
//! counted is kept here.
ghost use Rattle.std.specs.Prelude.{◌≡◌, ◌<◌, ◌↔◌, false, true, IsTrue, None};
ghost use Rattle.ac_automaton.specs.Automata.{IsState};
ghost use Rattle.ac_automaton.specs.Finds.{FindsAt, StandsIn};
ghost use Rattle.ac_automaton.specs.Overlaps.{is_due};
ghost use Rattle.ac_automaton.specs.Reads.{MayScan, Scans, StopsAt, at, entered, Tries};
ghost use Rattle.ac_automaton.specs.Scans.{TellsOver, scanner, work_of};

use super::Automaton;
use super::onward::match_ending;
use ac_util::looks::{Looks, Tape};
use ac_util::primitives::StateID;
use ac_util::search::{Anchored, Match, Span};

/// Where an automaton stands: its state, and the place up to which it has read the haystack.
#[derive(Clone, Copy)]
pub(super) struct Cursor {
    pub(super) state: StateID,
    pub(super) at: usize,
}

/// A byte that leads to the dead state, and where the automaton stands once it has followed it.
#[derive(Clone, Copy)]
pub(super) struct Dead {
    pub(super) byte: u8,
    pub(super) next: Cursor,
}

impl Cursor {
    /// Follows the byte that leads to the dead state, if one was read.
    #[inline]
    pub(super) fn enter(&mut self, dead: Option<Dead>)
        ensures { self.new ≡ entered dead self.old }
    {
        if let Some(dead) = dead {
            *self = dead.next;
        }
    }
}

/// Returns whether a match of this length counts after so many bytes of the span were read. In an anchored search it
/// has to be as long as that, or it would start later than the span.
#[inline]
pub fn is_due(anchored: Anchored, len: usize, read: usize) -> bool
    ensures { result ≡ is_due anchored len read }
{
    match anchored {
        Anchored::No => true,
        Anchored::Yes => len == read,
    }
}

/// An automaton under an anchoring, and the span of a tape that it searches.
#[derive(Drop)]
pub(super) struct Scanner<'a, A: Automaton> {
    pub(super) automaton: &'a A,
    pub(super) anchored: Anchored,
    /// Whether it reads no further than to a match.
    pub(super) stops: bool,
    pub(super) span: Span,
}

impl<'a, A: Automaton> Scanner<'a, A> {
    /// Reads the byte at the cursor's place, and returns it with the state to which it leads.
    // Always inlined: a call for each byte takes longer.
    #[inline(always)]
    pub(super) fn read_byte(
        &self,
        cursor: Cursor,
        tape: &mut Tape<'_>,
        looks: &mut Looks,
    ) -> (u8, StateID)
        requires before { cursor.at < self.now.span.end }
        requires may { MayScan A.seen self.now (at cursor tape.old looks.old) }
        ensures bytes { tape.new.bytes ≡ tape.old.bytes }
        ensures tries { Tries (scanner A.seen self.now).scan (at cursor tape.old looks.old) result.0 result.1
            (work_of tape.new looks.new) }
    {
        let byte = tape.read(cursor.at, looks);
        let next = self
            .automaton
            .next_state(self.anchored, cursor.state, byte, looks);
        (byte, next)
    }

    /// Reads on up to a byte that leads to the dead state, which it returns, or up to the end of the span, or if it stops at a
    /// match up to a state that has some. The cursor stays before that byte.
    // Always inlined: the anchoring is known in its caller, and so the engine's step is inlined too.
    #[inline(always)]
    pub(super) fn read(
        &self,
        cursor: &mut Cursor,
        tape: &mut Tape<'_>,
        looks: &mut Looks,
    ) -> Option<Dead>
        requires may { MayScan A.seen self.now (at cursor.old tape.old looks.old) }
        ensures { Scans A.seen self.now (at cursor.old tape.old looks.old) result (at cursor.new tape.new looks.new) }
    {
        if self.stops {
            self.read_to_match(cursor, tape, looks)
        } else {
            self.read_past(cursor, tape, looks)
        }
    }

    /// Reads on as `read` does that stops at a match. It tests the end last, which is faster where most bytes lead on.
    #[inline]
    pub(super) fn read_to_match(
        &self,
        cursor: &mut Cursor,
        tape: &mut Tape<'_>,
        looks: &mut Looks,
    ) -> Option<Dead>
        requires stops { self.now.stops ≡ true }
        requires may { MayScan A.seen self.now (at cursor.old tape.old looks.old) }
        ensures { Scans A.seen self.now (at cursor.old tape.old looks.old) result (at cursor.new tape.new looks.new) }
    {
        let (mut state, mut at) = (cursor.state, cursor.at);
        let end = self.span.end;
        if at >= end {
            return None;
        }
        loop {
            let (byte, next) = self.read_byte(Cursor { state, at }, tape, looks);
            let there = Cursor {
                state: next,
                at: at + 1,
            };
            if self.automaton.is_match_or_dead(next) || there.at >= end {
                if self.automaton.is_dead(next) {
                    *cursor = Cursor { state, at };
                    return Some(Dead { byte, next: there });
                }
                *cursor = there;
                return None;
            }
            state = next;
            at += 1;
        }
    }

    /// Reads on as `read` does that stops at no match.
    #[inline]
    pub(super) fn read_past(
        &self,
        cursor: &mut Cursor,
        tape: &mut Tape<'_>,
        looks: &mut Looks,
    ) -> Option<Dead>
        requires past { self.now.stops ≡ false }
        requires may { MayScan A.seen self.now (at cursor.old tape.old looks.old) }
        ensures { Scans A.seen self.now (at cursor.old tape.old looks.old) result (at cursor.new tape.new looks.new) }
    {
        let (mut state, mut at) = (cursor.state, cursor.at);
        let end = self.span.end;
        while at < end {
            let (byte, next) = self.read_byte(Cursor { state, at }, tape, looks);
            if self.automaton.is_dead(next) {
                *cursor = Cursor { state, at };
                let next = Cursor {
                    state: next,
                    at: at + 1,
                };
                return Some(Dead { byte, next });
            }
            state = next;
            at += 1;
        }
        *cursor = Cursor { state, at };
        None
    }

    /// Returns whether the scan is to stop at a state: it stops at a match, and the state has some.
    #[inline]
    pub(super) fn is_to_stop(&self, state: StateID) -> bool
        requires { IsState (scanner A.seen self.now).scan.stands state }
        ensures { IsTrue result ↔ StopsAt (scanner A.seen self.now).scan state }
    {
        self.stops && self.automaton.is_match(state)
    }

    /// Returns whether nothing is left to read, or nothing more is found.
    #[inline]
    pub(super) fn is_over(&self, cursor: &Cursor) -> bool
        requires { IsState (scanner A.seen self.now).scan.stands cursor.now.state }
        ensures { TellsOver (scanner A.seen self.now) cursor.now result }
    {
        cursor.at >= self.span.end || self.automaton.is_dead(cursor.state)
    }

    /// Returns the first match of the state where the automaton stands that counts, which ends at the cursor's place.
    #[inline]
    pub(super) fn match_at(&self, cursor: &Cursor) -> Option<Match>
        requires { StandsIn (scanner A.seen self.now) cursor.now }
        ensures { FindsAt (scanner A.seen self.now) cursor.now result }
    {
        if !self.automaton.is_match(cursor.state) {
            return None;
        }
        let pattern = self.automaton.match_pattern(cursor.state, 0);
        let len = self.automaton.pattern_len(pattern);
        if !is_due(self.anchored, len, cursor.at - self.span.start) {
            return None;
        }
        Some(match_ending(self.automaton, pattern, cursor.at))
    }
}
