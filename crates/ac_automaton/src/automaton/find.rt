//! The core of every find.
ghost use Rattle.std.specs.Prelude.{◌≡◌, ◌≤◌, ◌↔◌, false, true, IsTrue, None, MatchOption};
ghost use Rattle.ac_automaton.specs.Util.{Standard, start_refusal};
ghost use Rattle.ac_automaton.specs.Answers.{BeginsBy};
ghost use Rattle.ac_automaton.specs.Finds.{asked, between, finding_of, FindsIn, found_by, MaySearch};
ghost use Rattle.ac_automaton.specs.Onward.{BeginsPast};
ghost use Rattle.ac_automaton.specs.Scans.{tape_with};
ghost use Rattle.ac_automaton.specs.Iterators.{reads_past_by};

use super::Automaton;
use super::onward::{Core, Onward, Position};
use super::scan::{Cursor, Scanner};
use super::skip::SkipBudget;
use ac_util::error::MatchError;
use ac_util::looks::{Looks, Tape};
use ac_util::search::{Anchored, Match, MatchKind, Span};
use std::marker::Model;

/// Returns the match that the automaton's match kind picks in the span `start..end` of a tape's haystack, or with
/// `earliest` the one that `MatchKind::Standard` picks.
///
/// The automaton has to support the anchoring. The span has to end within the haystack, and to start no later than one
/// past its own end, and not before the tape's place of reading.
///
/// What is read and counted is bounded. Each byte is read at most once; unless the prefilter was called, each byte up
/// to the end of the match is read. For each byte read, states are looked at once in an anchored search, and else at
/// least once and at most `LOOKS` times on the whole. No byte is read from the dead node on, where nothing more is
/// found: an anchored search is there once it has left all patterns, and a leftmost one once its match can't change.
/// Under `MatchKind::Standard` or with `earliest` no byte past the end of the match is read, so the next find can go on
/// with the same tape. An unanchored search skips ahead with the automaton's prefilter where it helps: it calls it at
/// most once for each byte of the span, and the answer is the same without.
#[inline]
pub fn find_core<A: Automaton>(
    automaton: &A,
    anchored: Anchored,
    earliest: bool,
    start: usize,
    end: usize,
    tape: &mut Tape<'_>,
    looks: &mut Looks,
) -> Option<Match>
    requires supported { start_refusal (A.seen automaton.now).built.start_kind anchored ≡ None }
    requires may { MaySearch (between start end) tape.old }
    ensures pick { result ≡ found_by (A.seen automaton.now) (asked tape.old.bytes start end anchored earliest) }
    ensures finds { FindsIn (finding_of (A.seen automaton.now) anchored earliest) (between start end)
        (tape_with tape.old looks.old) result (tape_with tape.new looks.new) }
{
    let Ok(mut finder) = Finder::new(automaton, anchored, earliest) else {
        unreachable!()
    };
    finder.find(Span { start, end }, tape, looks)
}

/// A find by an automaton whose start state and prefilter are looked up once, for finds in many spans.
///
/// `find` is the core of every find: `find_core` and `Automaton::try_find` call it once, and a walk once or twice for each
/// match. Contracts see what the automaton was built from, the anchoring, and the order by which the find picks.
#[derive(Drop)]
pub struct Finder<'a, A: Automaton> {
    core: Core<'a, A>,
    anchored: Anchored,
    /// Whether a match may be picked anywhere in a span: the find isn't anchored, and no pattern is empty. Else it begins where the
    /// span does.
    free: bool,
    /// Where a find stands. Its budget is kept from find to find, so that no prefilter is called often where it skips little.
    here: Position,
}

impl<'a, A: Automaton> Model for Finder<'a, A> {
    ghost use Rattle.std.specs.Prelude.{◌≡◌, false, true, [], Some};
    ghost use Rattle.ac_automaton.specs.Util.{is_leftmost};
    ghost use Rattle.ac_automaton.specs.Finds.{Finding, finding_of, is_free};
    ghost use Rattle.ac_automaton.specs.Cores.{IsSearchBy};

    ghost Value = { Finding };

    ghost view = { λ f. finding_of (A.seen f.core.automaton.now) f.anchored f.core.stops };

    ghost invariant = { λ f. record {
      starts : (A.seen f.core.automaton.now).stands f.anchored f.core.start (Some []);
      leftmost : f.core.stops ≡ false → is_leftmost (A.seen f.core.automaton.now).built.kind ≡ true;
      free : f.free ≡ is_free f.anchored (A.seen f.core.automaton.now).built.patterns;
      lawful : f.free ≡ true → IsSearchBy A.seen f.core;
    } };
}

impl<'a, A: Automaton> Finder<'a, A> {
    /// Returns a finder with the automaton's match kind, or with `earliest` with `MatchKind::Standard`.
    ///
    /// # Errors
    /// `InvalidInputAnchored` or `InvalidInputUnanchored` where the automaton has no start for the anchoring.
    #[inline]
    pub fn new(
        automaton: &'a A,
        anchored: Anchored,
        earliest: bool,
    ) -> Result<Finder<'a, A>, MatchError>
        ensures { BeginsBy (A.seen automaton.now) anchored
            (λ f. f ≡ finding_of (A.seen automaton.now) anchored earliest) result }
    {
        let start = automaton.start_state(anchored)?;
        let free = !anchored.is_anchored() && automaton.min_pattern_len() > 0;
        let core = Core {
            automaton,
            commits: automaton.commits(),
            start,
            stops: earliest || matches!(automaton.match_kind(), MatchKind::Standard),
            prefilter: if free { automaton.prefilter() } else { None },
        };
        let here = core.begin(Span { start: 0, end: 0 }, SkipBudget::new());
        Ok(Finder {
            core,
            anchored,
            free,
            here,
        })
    }

    /// Returns whether the first match found is the answer.
    #[inline]
    pub(super) fn stops_at_match(&self) -> bool
        ensures { IsTrue result ↔ (self.now.picking.order ≡ Standard) }
    {
        self.core.stops
    }

    /// Returns a walk of a span that reads each byte once, where a walk by these finds may be one.
    #[inline]
    pub(super) fn onward(&self, span: Span) -> Option<Onward<'a, A>>
        ensures { MatchOption result
            (reads_past_by self.now.picking.order self.now.anchored self.now.built.patterns ≡ false)
            (BeginsPast A.seen self.now span) }
    {
        if self.core.stops || !self.free {
            return None;
        }
        Some(self.core.onward(span))
    }

    /// Returns the match that is picked in a span of a tape's haystack, as `find_core` does, with the same conditions
    /// and the same bounds on what is read and counted. It calls the prefilter where that has paid, in this find and in
    /// earlier ones of this finder; else it reads on for a while and tries it again.
    #[inline]
    pub fn find(&mut self, span: Span, tape: &mut Tape<'_>, looks: &mut Looks) -> Option<Match>
        requires { MaySearch span tape.old }
        ensures finds { FindsIn self.old span (tape_with tape.old looks.old) result (tape_with tape.new looks.new) }
        ensures same { self.new ≡ self.old }
    {
        if span.start > span.end {
            return None;
        }
        if !self.free {
            return self.find_front(span, tape, looks);
        }
        self.here = self.core.begin(span, self.here.budget);
        self.core.find_first(&mut self.here, tape, looks)
    }

    /// Returns what `find` does where each match that is picked begins where the span does: it reads on from match to match, until the
    /// last one can't change, or up to the first if it stops there. It isn't part of `find`, which so stays short.
    #[inline(never)]
    fn find_front(&self, span: Span, tape: &mut Tape<'_>, looks: &mut Looks) -> Option<Match>
        requires may { MaySearch span tape.old }
        requires some { span.start ≤ span.end }
        ensures finds { FindsIn self.now span (tape_with tape.old looks.old) result (tape_with tape.new looks.new) }
    {
        let scanner = Scanner {
            automaton: self.core.automaton,
            anchored: self.anchored,
            stops: true,
            span,
        };
        let mut here = Cursor {
            state: self.core.start,
            at: span.start,
        };
        let mut last = scanner.match_at(&here);
        while !scanner.is_decided(self.core.stops, &here, &last) {
            let dead = scanner.read(&mut here, tape, looks);
            here.enter(dead);
            last = scanner.match_at(&here).or(last);
        }
        last
    }
}

impl<'a, A: Automaton> Scanner<'a, A> {
    ghost use Rattle.ac_automaton.specs.Automata.{IsState};
    ghost use Rattle.ac_automaton.specs.Finds.{TellsAnswer};
    ghost use Rattle.ac_automaton.specs.Scans.{scanner};

    /// Returns whether the last match found is the answer: nothing is left to read, nothing more is found, or the
    /// first match counts.
    #[inline]
    fn is_decided(&self, stops: bool, cursor: &Cursor, last: &Option<Match>) -> bool
        requires { IsState (scanner A.seen self.now).scan.stands cursor.now.state }
        ensures { TellsAnswer (scanner A.seen self.now) stops cursor.now last.now result }
    {
        self.is_over(cursor) || (stops && last.is_some())
    }
}
