//! Where a search stands, what it gives there, and how it goes on.
//!
//! What is given is a function of the state: where the search stops at a match that state's first one, and else what its commit says.
//! A leftmost match is known only once bytes after it were read. A walk doesn't read them again: the commit of the state where it
//! stands says which matches lie in them, and at which state it goes on.
ghost use Rattle.std.specs.Prelude.{◌≡◌, ◌<◌, ◌≤◌, [], false, true, is_none, length, option_map, IfSome, Some, None};
ghost use Rattle.ac_util.specs.Prefilters.{first_bytes_of};
ghost use Rattle.ac_automaton.specs.Util.{No, pattern_of};
ghost use Rattle.ac_automaton.specs.Scans.{SkipsTo};
ghost use Rattle.ac_automaton.specs.Automata.{IsState};
ghost use Rattle.ac_automaton.specs.Finds.{finding_of, place_of, between};
ghost use Rattle.ac_automaton.specs.Reads.{hand_of};
ghost use Rattle.ac_automaton.specs.Cores.{MayTakeFrom, SkipsToOnly, TakesKnown, end_of};
ghost use Rattle.ac_automaton.specs.Onward.{BeginsPast};

use super::Automaton;
use super::commits::{Chains, Commits};
use super::scan::{Cursor, Dead, Scanner};
use super::skip::{SkipBudget, ToStart};
use ac_util::looks::{Looks, Tape};
use ac_util::prefilter::{FirstBytes, Needle, Prefilter};
use ac_util::primitives::{PatternID, StateID};
use ac_util::search::{Anchored, Match, Span};

/// The matches of a chain that a walk is still to give.
#[derive(Clone, Copy)]
pub(super) struct ChainRest {
    chain: usize,
    /// How many were given.
    index: usize,
    /// Where the match before the chain ended, from which their ends are counted.
    base: usize,
}

/// What a walk gives that leaves a state by a byte that leads to the dead state, as a commit says it.
#[derive(Clone, Copy)]
pub(super) struct Given {
    pub(super) pattern: PatternID,
    /// How many bytes of the state's string come after the match.
    pub(super) rest: usize,
    pub(super) next: StateID,
    /// The chain of matches that come in these bytes, if some do.
    pub(super) chain: Option<usize>,
}

/// Where a search stands. It borrows nothing.
#[derive(Clone, Copy)]
pub(super) struct Position {
    pub(super) cursor: Cursor,
    /// The byte at the cursor where that was read, and didn't lead on.
    pub(super) byte: Option<u8>,
    /// What of a chain is still to be given.
    pub(super) rest: Option<ChainRest>,
    pub(super) budget: SkipBudget,
    /// Up to where it may read.
    pub(super) end: usize,
}

/// A search that goes on from match to match: its automaton with the commits, the state at which it begins, whether it stops at a
/// match, and how it skips.
#[derive(Drop)]
pub(super) struct Core<'a, A: Automaton> {
    pub(super) automaton: &'a A,
    pub(super) commits: &'a Commits<A::Memory>,
    pub(super) start: StateID,
    /// Whether the first match found is given.
    pub(super) stops: bool,
    pub(super) prefilter: Option<&'a Prefilter<A::Memory>>,
}

/// A walk that reads each byte once.
#[derive(Drop)]
pub(super) struct Onward<'a, A: Automaton> {
    pub(super) core: Core<'a, A>,
    pub(super) here: Position,
}

impl<'a, A: Automaton> Core<'a, A> {
    ghost use Rattle.ac_automaton.specs.Cores.{begun_by, FitsBefore, GivesHere, GivesIn, Goes, IsCore, IsSearchBy, Leads, MayGo, MayGoOn, Picks, scan_by, spot, Stops};

    /// Returns a walk of a span.
    #[inline]
    pub(super) fn onward(&self, span: Span) -> Onward<'a, A>
        requires lawful { IsSearchBy A.seen self.now }
        requires past { self.now.stops ≡ false }
        ensures { BeginsPast A.seen (finding_of (A.seen self.now.automaton.now) No false) span result }
    {
        Onward {
            core: Core {
                automaton: self.automaton,
                commits: self.commits,
                start: self.start,
                stops: self.stops,
                prefilter: self.prefilter,
            },
            here: self.begin(span, SkipBudget::new()),
        }
    }

    /// Returns where a search stands that begins where a span does, with a budget for skipping.
    #[inline]
    pub(super) fn begin(&self, span: Span, budget: SkipBudget) -> Position
        ensures { result ≡ begun_by self.now span budget }
    {
        Position {
            cursor: Cursor {
                state: self.start,
                at: span.start,
            },
            byte: None,
            rest: None,
            budget,
            end: span.end,
        }
    }

    /// Returns the next match up to its end, and moves on: the next one of the chain, if one is left, or what is found.
    pub(super) fn next(
        &self,
        here: &mut Position,
        tape: &mut Tape<'_>,
        looks: &mut Looks,
    ) -> Option<Match>
        requires lawful { IsSearchBy A.seen self.now }
        requires past { self.now.stops ≡ false }
        requires may { MayGo A.seen self.now (spot here.old tape.old looks.old) }
        ensures { Goes A.seen self.now (spot here.old tape.old looks.old) result (spot here.new tape.new looks.new) }
    {
        let chains = self.commits.chains();
        if let Some(found) = take_next(self.automaton, chains, &mut here.rest) {
            return Some(found);
        }
        if !self.try_byte(here, tape, looks) {
            return self.give(here);
        }
        self.find_on(false, here, tape, looks)
    }

    /// Returns the match of a find that begins, as `find_on` does.
    #[inline]
    pub(super) fn find_first(
        &self,
        here: &mut Position,
        tape: &mut Tape<'_>,
        looks: &mut Looks,
    ) -> Option<Match>
        requires lawful { IsSearchBy A.seen self.now }
        requires empty { here.old.byte ≡ None }
        requires fits { FitsBefore (scan_by A.seen self.now) here.old.cursor }
        requires may { MayGoOn A.seen self.now (spot here.old tape.old looks.old) }
        ensures { Picks A.seen self.now (spot here.old tape.old looks.old) result (spot here.new tape.new looks.new) }
    {
        self.find_on(self.stops, here, tape, looks)
    }

    /// Returns the next match up to its end, where none of a chain is left and nothing is in hand, and moves on. Its
    /// caller says whether it stops at a match.
    // Always inlined, so that a walk has the loop alone that reads past matches.
    #[inline(always)]
    fn find_on(
        &self,
        stops: bool,
        here: &mut Position,
        tape: &mut Tape<'_>,
        looks: &mut Looks,
    ) -> Option<Match>
        requires stops { stops ≡ self.now.stops }
        requires lawful { IsSearchBy A.seen self.now }
        requires empty { here.old.byte ≡ None }
        requires fits { FitsBefore (scan_by A.seen self.now) here.old.cursor }
        requires may { MayGoOn A.seen self.now (spot here.old tape.old looks.old) }
        ensures { Picks A.seen self.now (spot here.old tape.old looks.old) result (spot here.new tape.new looks.new) }
    {
        if let Some(Prefilter::Needle(needle)) = self.prefilter {
            return self.give_needle(needle, here, tape, looks);
        }
        self.read_on(stops, here, tape, looks);
        self.give(here)
    }

    /// Reads on as far as it reads, with nothing in hand at first. It skips ahead to the first bytes where the prefilter has some and
    /// that pays.
    #[inline(always)]
    fn read_on(&self, stops: bool, here: &mut Position, tape: &mut Tape<'_>, looks: &mut Looks)
        requires stops { stops ≡ self.now.stops }
        requires lawful { IsSearchBy A.seen self.now }
        requires empty { here.old.byte ≡ None }
        requires may { MayGoOn A.seen self.now (spot here.old tape.old looks.old) }
        ensures reads { Stops A.seen self.now (spot here.old tape.old looks.old) (spot here.new tape.new looks.new) }
    {
        if stops {
            self.read_to_match(here, tape, looks);
        } else {
            self.read_past(here, tape, looks);
        }
    }

    /// Reads on where it stops at a match.
    #[inline]
    fn read_to_match(&self, here: &mut Position, tape: &mut Tape<'_>, looks: &mut Looks)
        requires lawful { IsSearchBy A.seen self.now }
        requires stops { self.now.stops ≡ true }
        requires empty { here.old.byte ≡ None }
        requires may { MayGoOn A.seen self.now (spot here.old tape.old looks.old) }
        ensures reads { Stops A.seen self.now (spot here.old tape.old looks.old) (spot here.new tape.new looks.new) }
    {
        let scanner = self.scanner(true, here.end);
        let (cursor, budget) = (&mut here.cursor, &mut here.budget);
        let dead = scanner.read_to_match_or_skip(self.first_bytes(), cursor, budget, tape, looks);
        here.byte = byte_of(dead);
    }

    /// Reads on where it stops at no match.
    // Always inlined: else the noncontiguous NFA's step is a call in the C library.
    #[inline(always)]
    fn read_past(&self, here: &mut Position, tape: &mut Tape<'_>, looks: &mut Looks)
        requires lawful { IsSearchBy A.seen self.now }
        requires past { self.now.stops ≡ false }
        requires empty { here.old.byte ≡ None }
        requires may { MayGoOn A.seen self.now (spot here.old tape.old looks.old) }
        ensures reads { Stops A.seen self.now (spot here.old tape.old looks.old) (spot here.new tape.new looks.new) }
    {
        let scanner = self.scanner(false, here.end);
        let (cursor, budget) = (&mut here.cursor, &mut here.budget);
        let dead = scanner.read_past_or_skip(self.first_bytes(), cursor, budget, tape, looks);
        here.byte = byte_of(dead);
    }

    /// Returns the first bytes to which it may skip, if it may to some.
    #[inline]
    fn first_bytes(&self) -> Option<FirstBytes>
        requires lawful { IsSearchBy A.seen self.now }
        ensures { IfSome result (λ first. SkipsTo (scan_by A.seen self.now) (first_bytes_of first)) }
    {
        match self.prefilter {
            Some(Prefilter::Bytes(first)) => Some(*first),
            _ => None,
        }
    }

    /// Gives the next match of the only pattern, and goes on after it. Nothing is in hand.
    #[inline(never)]
    fn give_needle(
        &self,
        needle: &Needle<A::Memory>,
        here: &mut Position,
        tape: &mut Tape<'_>,
        looks: &mut Looks,
    ) -> Option<Match>
        requires lawful { IsSearchBy A.seen self.now }
        requires needle { SkipsToOnly (A.seen self.now.automaton.now) needle.now }
        requires empty { here.old.byte ≡ None }
        requires fits { FitsBefore (scan_by A.seen self.now) here.old.cursor }
        requires may { MayGoOn A.seen self.now (spot here.old tape.old looks.old) }
        ensures { Picks A.seen self.now (spot here.old tape.old looks.old) result (spot here.new tape.new looks.new) }
    {
        let scanner = self.scanner(self.stops, here.end);
        let (cursor, budget) = (&mut here.cursor, &mut here.budget);
        if let ToStart::Stopped(dead) = scanner.read_to_start(cursor, budget, tape, looks) {
            here.byte = byte_of(dead);
            return self.give(here);
        }
        let from = here.cursor.at;
        let found = tape.find_needle(needle, from, here.end, looks);
        here.budget.record_needle(from, &found);
        here.rest = None;
        here.cursor.at = end_of(&found, here.end);
        found
    }

    /// Tries the byte in hand, if there is one. Returns whether nothing is in hand then: where the byte leads to the dead state it
    /// stays.
    #[inline]
    fn try_byte(&self, here: &mut Position, tape: &Tape<'_>, looks: &mut Looks) -> bool
        requires may { MayGoOn A.seen self.now (spot here.old tape.now looks.old) }
        ensures empty { result ≡ is_none here.new.byte }
        ensures reads { Leads A.seen self.now (spot here.old tape.now looks.old) (spot here.new tape.now looks.new) }
    {
        let Some(byte) = here.byte else {
            return true;
        };
        let state = here.cursor.state;
        let next = self.automaton.next_state(Anchored::No, state, byte, looks);
        if self.automaton.is_dead(next) {
            return false;
        }
        here.cursor = Cursor {
            state: next,
            at: here.cursor.at + 1,
        };
        here.byte = None;
        true
    }

    /// Gives the match that is picked where the search stands, and goes on from there; or none where nothing is picked.
    // Without a hint: where it is inlined a leftmost match takes 20 instructions less, and each byte by the contiguous NFA one more.
    fn give(&self, here: &mut Position) -> Option<Match>
        requires lawful { IsSearchBy A.seen self.now }
        requires fits { FitsBefore (scan_by A.seen self.now) here.old.cursor }
        ensures { GivesHere A.seen self.now here.old result here.new }
    {
        let Some(given) = self.given_at(here.cursor.state) else {
            return None;
        };
        let end = here.cursor.at - given.rest;
        here.cursor.state = given.next;
        here.rest = chain_rest(given.chain, end);
        Some(match_ending(self.automaton, given.pattern, end))
    }

    /// Returns a scanner that reads up to an end, and stops at a match or not.
    // A caller says which, so that only one of the loops that read becomes a part of it.
    #[inline]
    pub(super) fn scanner(&self, stops: bool, end: usize) -> Scanner<'a, A>
        ensures { result
            ≡ (record { automaton = self.now.automaton; anchored = No; stops = stops; span = between 0 end }) }
    {
        Scanner {
            automaton: self.automaton,
            anchored: Anchored::No,
            stops,
            span: Span { start: 0, end },
        }
    }

    /// Returns what is given that leaves a state, or `None` where nothing is picked in its string, or if the search stops at a
    /// match where the state has none.
    #[inline]
    pub(super) fn given_at(&self, state: StateID) -> Option<Given>
        requires core { IsCore (A.seen self.now.automaton.now) self.now.commits.now self.now.start self.now.stops }
        requires state { IsState ((A.seen self.now.automaton.now).stands No) state }
        ensures { GivesIn A.seen self.now state result }
    {
        if self.automaton.is_match(state) {
            return Some(Given {
                pattern: self.automaton.match_pattern(state, 0),
                rest: 0,
                next: self.start,
                chain: None,
            });
        }
        if self.stops {
            return None;
        }
        let Some(commit) = self.commits.of(state) else {
            return None;
        };
        Some(Given {
            pattern: commit.pattern,
            rest: commit.rest,
            next: commit.next,
            chain: Some(commit.chain),
        })
    }
}

/// Returns where a match ends, or else an end.
#[inline]
fn end_of(found: &Option<Match>, end: usize) -> usize
    ensures { result ≡ end_of end found.now }
{
    match found {
        Some(found) => found.end(),
        None => end,
    }
}

/// Returns the byte that leads to the dead state, if one was read.
#[inline]
pub(super) fn byte_of(dead: Option<Dead>) -> Option<u8>
    ensures { result ≡ hand_of dead }
{
    let dead = dead?;
    Some(dead.byte)
}

/// Returns all matches of a chain as still to be given, after a match that ended at an offset.
#[inline]
pub(super) fn chain_rest(chain: Option<usize>, base: usize) -> Option<ChainRest>
    ensures { result ≡ option_map (λ number. record { chain = number; index = 0; base = base }) chain }
{
    let chain = chain?;
    Some(ChainRest {
        chain,
        index: 0,
        base,
    })
}

/// Returns the match of a pattern that ends at an offset.
#[inline]
pub(super) fn match_ending<A: Automaton>(automaton: &A, pattern: PatternID, end: usize) -> Match
    requires numbered { pattern < length (A.seen automaton.now).built.patterns }
    requires within { length (pattern_of (A.seen automaton.now).built.patterns pattern) ≤ end }
    ensures { result ≡ place_of (A.seen automaton.now).built end pattern }
{
    let len = automaton.pattern_len(pattern);
    Match::new(
        pattern,
        Span {
            start: end - len,
            end,
        },
    )
}

/// Returns the next match of a chain, if one is left, and what is to be given after it.
#[inline]
pub(super) fn take_next<A: Automaton>(
    automaton: &A,
    chains: &Chains<A::Memory>,
    rest: &mut Option<ChainRest>,
) -> Option<Match>
    requires may { IfSome rest.old (MayTakeFrom (A.seen automaton.now).built chains.now) }
    ensures { TakesKnown (A.seen automaton.now).built chains.now rest.old result rest.new }
{
    let Some(old) = *rest else {
        return None;
    };
    let Some(known) = chains.get(old.chain, old.index) else {
        *rest = None;
        return None;
    };
    *rest = Some(ChainRest {
        chain: old.chain,
        index: old.index + 1,
        base: old.base,
    });
    Some(match_ending(automaton, known.pattern, old.base + known.end))
}
