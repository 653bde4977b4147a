//! The matches of a walk, one after another.
ghost use Rattle.std.specs.Prelude.{◌≡◌, ◌+◌, ◌<◌, ◌≤◌, true, IfSome};
ghost use Rattle.std.specs.Iterator.{item_count};
ghost use Rattle.ac_automaton.specs.Util.{input_of, next_match, repeats, usize_max};
ghost use Rattle.ac_automaton.specs.Answers.{AnswersWalk};
ghost use Rattle.ac_automaton.specs.Iterators.{FindsBy, GoesOn, KeepsInput, MayFindIn, WalksBy, after, reads_past, search_by};

use super::Automaton;
use super::find::Finder;
use super::onward::Onward;
use super::replace::Walk;
use ac_util::error::MatchError;
use ac_util::history::Remembered;
use ac_util::looks::{Looks, Tape, open};
use ac_util::search::{Input, Match, Span};
use std::marker::Model;

/// An iterator over the matches of an input that don't overlap, made by `Automaton::try_find_iter`.
///
/// After the last match it keeps returning `None`. Contracts see the matches still to come, and what was read and
/// counted since it was made.
///
/// Under `MatchKind::Standard`, or with `earliest`, it makes one find for each match, or two where the first finds an
/// empty match again at the end of the match before. These read each byte at most once on the whole.
///
/// Under a leftmost kind a search may have to read past the end of the match that it picks. An unanchored walk by patterns
/// none of which is empty goes on from where that has come to: the automaton's commits say which matches lie in the bytes
/// that were read, so each byte is read at most once on the whole. Any other leftmost walk makes one find for each match,
/// or two, and each reads on from where the match before it ended.
#[derive(Drop)]
pub struct FindIter<'a, 'h, A: Automaton> {
    search: TapedFinder<'a, 'h, A>,
    /// Where the walk reads each byte once.
    onward: Option<Onward<'a, A>>,
    /// What is left of the span.
    span: Span,
    /// Where the match before this ended.
    last: Option<usize>,
    /// Where the span began.
    from: Remembered<usize>,
}

impl<'a, 'h, A: Automaton> Model for FindIter<'a, 'h, A> {
    ghost use Rattle.std.specs.Prelude.{◌≡◌, ◌<◌, ◌≤◌, length};
    ghost use Rattle.ac_automaton.specs.Util.{input_of, usize_max};
    ghost use Rattle.ac_automaton.specs.Iterators.{Walking, walking_of};
    ghost use Rattle.ac_automaton.specs.Onward.{IsKept, kept_work};

    ghost Value = { Walking };

    ghost view = { λ s. walking_of s.search.finder s.search.tape.bytes s.span s.last s.from.value
        (kept_work s.onward s.search.tape s.search.looks) };

    ghost invariant = { λ s. record {
      whole : s.search.tape.bytes ≡ (input_of s.search.input).haystack;
      inside : s.span.end ≤ length s.search.tape.bytes;
      small : s.span.end < usize_max;
      kept : IsKept A.seen s.search.finder s.search.tape s.span s.last s.from.value s.search.looks s.onward;
    } };
}

impl<'a, 'h, A: Automaton> FindIter<'a, 'h, A> {
    /// Returns what `Automaton::try_find_iter` does.
    #[inline]
    pub(super) fn new(automaton: &'a A, input: Input<'h>) -> Result<FindIter<'a, 'h, A>, MatchError>
        ensures { AnswersWalk (A.seen automaton.now) (input_of input.entry) result }
    {
        let finder = Finder::new(automaton, input.get_anchored(), input.get_earliest())?;
        let (tape, looks) = open(&input);
        let span = input.get_span();
        let onward = finder.onward(span);
        Ok(FindIter {
            search: TapedFinder {
                finder,
                input,
                tape,
                looks,
            },
            onward,
            span,
            last: None,
            from: Remembered::of(&span.start),
        })
    }

    /// Returns the next match, and moves on.
    #[inline]
    fn advance(&mut self) -> Option<Match>
        ensures { GoesOn self.old result self.new }
    {
        if self.onward.is_some() {
            return self.advance_past();
        }
        let found = self.search.next_left(self.span, self.last);
        self.span.start = after(self.span, &found);
        if let Some(found) = &found {
            self.last = Some(found.end());
        }
        found
    }

    /// Returns the next match of a walk that reads on past its matches, and moves on. It opens a new tape, of which it reads
    /// only what comes after the bytes that the walk has read.
    #[inline]
    fn advance_past(&mut self) -> Option<Match>
        requires past { reads_past self.old ≡ true }
        ensures { GoesOn self.old result self.new }
    {
        if self.span.start > self.span.end {
            return None;
        }
        let Some(onward) = &mut self.onward else {
            return None;
        };
        let search = &mut self.search;
        let (tape, _) = open(&search.input);
        search.tape = tape;
        let here = &mut onward.here;
        let found = onward.core.next(here, &mut search.tape, &mut search.looks);
        self.span.start = after(self.span, &found);
        if let Some(found) = &found {
            self.last = Some(found.end());
        }
        found
    }
}

/// A finder, the input in whose spans it finds, a tape of that input, and the counts.
#[derive(Drop)]
struct TapedFinder<'a, 'h, A: Automaton> {
    finder: Finder<'a, A>,
    input: Input<'h>,
    tape: Tape<'h>,
    looks: Looks,
}

impl<'a, 'h, A: Automaton> TapedFinder<'a, 'h, A> {
    /// Returns the next match of a walk in a span, after one that ended at `last`.
    #[inline]
    fn next_left(&mut self, span: Span, last: Option<usize>) -> Option<Match>
        requires may { MayFindIn self.old span }
        requires small { span.end < usize_max }
        requires beyond { IfSome last (λ e. e ≤ span.start) }
        ensures next { result ≡ next_match self.old.finder.picking.order (search_by self.old span) last }
        ensures same { KeepsInput self.old self.new }
        ensures finds { WalksBy self.old span last self.new }
    {
        let first = self.find(span);
        if !repeats(&first, last) {
            return first;
        }
        let further = Span {
            start: span.start + 1,
            end: span.end,
        };
        self.find(further)
    }

    /// Returns the pick of a span. Where the find before may have read past its match, it opens a new tape.
    #[inline]
    fn find(&mut self, span: Span) -> Option<Match>
        requires may { MayFindIn self.old span }
        ensures same { KeepsInput self.old self.new }
        ensures found { FindsBy self.old span result self.new }
    {
        if !self.finder.stops_at_match() {
            let (tape, _) = open(&self.input);
            self.tape = tape;
        }
        self.finder.find(span, &mut self.tape, &mut self.looks)
    }
}

/// Returns where a walk in a span goes on: at the end of the match that was found in it, or past its own end where there is
/// none.
#[inline]
fn after(span: Span, found: &Option<Match>) -> usize
    requires small { span.end < usize_max }
    ensures { result ≡ after span.end found.now }
{
    match found {
        Some(found) => found.end(),
        None => span.end + 1,
    }
}

/// Returns whether a match is empty and ends where the one before it did.
#[inline]
fn repeats(found: &Option<Match>, last: Option<usize>) -> bool
    ensures { result ≡ repeats found.now last }
{
    match found {
        Some(found) => found.is_empty() && last == Some(found.end()),
        None => false,
    }
}

impl<'a, 'h, A: Automaton> Iterator for FindIter<'a, 'h, A> {
    type Item = Match;

    ghost next_gives = { GoesOn };

    ghost remaining = { item_count (λ s. s.rest) };

    #[inline]
    fn next(&mut self) -> Option<Match> {
        self.advance()
    }
}

impl<'a, 'h, A: Automaton> Walk for FindIter<'a, 'h, A> {
    ghost left = { λ s. s.rest };

    #[inline]
    fn next_match(&mut self) -> Option<Match> {
        self.advance()
    }
}
