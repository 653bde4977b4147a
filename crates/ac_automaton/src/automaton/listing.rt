//! The listing of all occurrences: how far it has come in its span, and how it goes on from item to item.
ghost use Rattle.std.specs.Prelude.{◌≡◌, true, IfSome, List, ℕ};
ghost use Rattle.ac_automaton.specs.Util.{first_bytes_of};

use super::Automaton;
use super::scan::{Cursor, Scanner, is_due};
use super::skip::SkipBudget;
use ac_util::looks::{Looks, Tape};
use ac_util::prefilter::{FirstBytes, Prefilter};
use ac_util::primitives::StateID;
use ac_util::search::{Anchored, Match, Span};

/// A rest of a match list: the matches of `state` from index `index` on.
#[derive(Clone, Copy, Debug)]
pub struct MatchRest {
    /// The state whose list it is.
    pub state: StateID,
    /// How many matches of that list come before the rest.
    pub index: usize,
}

/// How far a listing has come: in which state its automaton is, up to which offset the span was read, and which matches
/// there are left.
#[derive(Clone, Copy, Debug)]
pub(super) struct Reached {
    pub(super) state: StateID,
    pub(super) at: usize,
    pub(super) rest: MatchRest,
}

impl Reached {
    /// Returns the beginning of a state's matches: the listing has come to it, and all its matches are left.
    #[inline]
    pub(super) fn new(state: StateID, at: usize) -> Reached
        ensures { result ≡ record { state = state; at = at; rest = record { state = state; index = 0 } } }
    {
        let rest = MatchRest { state, index: 0 };
        Reached { state, at, rest }
    }
}

impl<'a, A: Automaton> Scanner<'a, A> {
    ghost use Rattle.ac_automaton.specs.Overlaps.{ListsOn, MayList, TakesDue, IsListed};
    ghost use Rattle.ac_automaton.specs.Scans.{scanner, SkipsTo, in_memory};

    /// Returns the first bytes to which a listing may skip, in an unanchored search.
    ///
    /// It can't skip to a needle: where that is found first, the automaton need not have been at its start.
    #[inline]
    pub(super) fn listing_skips_to(&self) -> Option<FirstBytes>
        ensures { IfSome result (λ first. SkipsTo (scanner A.seen self.now).scan (first_bytes_of first)) }
    {
        match (self.anchored, self.automaton.prefilter()) {
            (Anchored::No, Some(prefilter)) => match prefilter {
                Prefilter::Bytes(first) => Some(*first),
                Prefilter::Needle(_) => None,
            },
            _ => None,
        }
    }

    /// Takes the next match of the current state, or returns None where there is none.
    // The match isn't made by `match_ending`, which would look the length up a second time.
    #[inline]
    pub(super) fn take_due(&self, reached: &mut Reached) -> Option<Match>
        requires { (bytes : List ℕ)
            × IsListed (scanner A.seen self.now).scan (in_memory bytes (scanner A.seen self.now).span) reached.old }
        ensures { TakesDue (scanner A.seen self.now) reached.old result reached.new }
    {
        let (pattern, rest) = self.automaton.take_match(reached.rest)?;
        let len = self.automaton.pattern_len(pattern);
        let end = reached.at;
        if !is_due(self.anchored, len, end - self.span.start) {
            return None;
        }
        let span = Span {
            start: end - len,
            end,
        };
        reached.rest = rest;
        Some(Match::new(pattern, span))
    }

    /// Returns the next item of the listing of the span, and moves on past it. It skips ahead to the first bytes, where
    /// some are given and that pays.
    #[inline]
    pub(super) fn next_item(
        &self,
        first: Option<FirstBytes>,
        reached: &mut Reached,
        budget: &mut SkipBudget,
        tape: &mut Tape<'_>,
        looks: &mut Looks,
    ) -> Option<Match>
        requires stops { self.now.stops ≡ true }
        requires skips { IfSome first (λ f. SkipsTo (scanner A.seen self.now).scan (first_bytes_of f)) }
        requires may { MayList (scanner A.seen self.now) tape.old reached.old }
        ensures { ListsOn (scanner A.seen self.now) reached.old tape.old looks.old result reached.new tape.new looks.new }
    {
        loop {
            if let Some(found) = self.take_due(reached) {
                return Some(found);
            }
            let mut here = Cursor {
                state: reached.state,
                at: reached.at,
            };
            if self.is_over(&here) {
                return None;
            }
            self.read_ahead(first, &mut here, budget, tape, looks);
            *reached = Reached::new(here.state, here.at);
        }
    }
}
