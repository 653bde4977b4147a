//! The iterator over all occurrences.
ghost use Rattle.std.specs.Iterator.{item_count};
ghost use Rattle.ac_automaton.specs.Util.{input_of};
ghost use Rattle.ac_automaton.specs.Answers.{AnswersListing};
ghost use Rattle.ac_automaton.specs.Overlaps.{ListsNext};

use super::Automaton;
use super::listing::Reached;
use super::overlap::start_of;
use super::scan::Scanner;
use super::skip::SkipBudget;
use ac_util::error::MatchError;
use ac_util::looks::{Looks, Tape, open};
use ac_util::prefilter::FirstBytes;
use ac_util::search::{Input, Match};
use std::marker::Model;

/// An iterator over all occurrences in the span of an input, made by `Automaton::try_find_overlapping_iter`.
///
/// After the last occurrence it keeps returning `None`. Contracts see the occurrences still to come, and what was read
/// and counted since it was made: all calls together read each byte of the span at most once, and none past the end of
/// the occurrence that was returned last.
#[derive(Drop)]
pub struct FindOverlappingIter<'a, 'h, A: Automaton> {
    scanner: Scanner<'a, A>,
    /// That of `Scanner::listing_skips_to`.
    first: Option<FirstBytes>,
    /// None where the span starts past its end.
    reached: Option<Reached>,
    /// Kept from item to item, so that a listing seldom calls a prefilter that skips too little.
    budget: SkipBudget,
    tape: Tape<'h>,
    looks: Looks,
}

impl<'a, 'h, A: Automaton> Model for FindOverlappingIter<'a, 'h, A> {
    ghost use Rattle.std.specs.Prelude.{◌≡◌, true, IfSome};
    ghost use Rattle.ac_util.specs.Prefilters.{first_bytes_of};
    ghost use Rattle.ac_automaton.specs.Overlaps.{IsListing, Overlapping, overlapping_by};
    ghost use Rattle.ac_automaton.specs.Scans.{work_of, in_memory, scan_of, SkipsTo};

    ghost Value = { Overlapping };

    ghost view = { λ s. overlapping_by (scan_of (A.seen s.scanner.automaton.now) s.scanner.anchored s.scanner.stops)
        (in_memory s.tape.bytes s.scanner.span) s.reached (work_of s.tape s.looks) };

    ghost invariant = { λ s.
        let scan = scan_of (A.seen s.scanner.automaton.now) s.scanner.anchored s.scanner.stops in
        record {
          listing : IsListing scan (in_memory s.tape.bytes s.scanner.span) s.reached (work_of s.tape s.looks);
          stops : s.scanner.stops ≡ true;
          skips : IfSome s.first (λ first. SkipsTo scan (first_bytes_of first));
        } };
}

impl<'a, 'h, A: Automaton> FindOverlappingIter<'a, 'h, A> {
    /// Returns what `Automaton::try_find_overlapping_iter` does.
    #[inline]
    pub(super) fn new(
        automaton: &'a A,
        input: Input<'h>,
    ) -> Result<FindOverlappingIter<'a, 'h, A>, MatchError>
        ensures { AnswersListing (A.seen automaton.now) (input_of input.entry) result }
    {
        let anchored = input.get_anchored();
        let begun = start_of(automaton, anchored)?;
        if anchored.is_anchored() {
            return Err(MatchError::InvalidInputAnchored);
        }
        let reached = if input.is_done() {
            None
        } else {
            Some(Reached::new(begun, input.start()))
        };
        let scanner = Scanner {
            automaton,
            anchored,
            stops: true,
            span: input.get_span(),
        };
        let first = scanner.listing_skips_to();
        let (tape, looks) = open(&input);
        Ok(FindOverlappingIter {
            scanner,
            first,
            reached,
            budget: SkipBudget::new(),
            tape,
            looks,
        })
    }

    /// Returns the next item, and moves on.
    #[inline]
    fn advance(&mut self) -> Option<Match>
        ensures { ListsNext self.old result self.new }
    {
        let mut reached = self.reached?;
        let found = self.scanner.next_item(
            self.first,
            &mut reached,
            &mut self.budget,
            &mut self.tape,
            &mut self.looks,
        );
        self.reached = Some(reached);
        found
    }
}

impl<'a, 'h, A: Automaton> Iterator for FindOverlappingIter<'a, 'h, A> {
    type Item = Match;

    ghost next_gives = { ListsNext };

    ghost remaining = { item_count (λ l. l.rest) };

    #[inline]
    fn next(&mut self) -> Option<Match> {
        self.advance()
    }
}
