//! Overlapping searches.
ghost use Rattle.std.specs.Prelude.{◌≡◌, None};
ghost use Rattle.std.specs.Iterator.{item_count};
ghost use Rattle.std.specs.Iterator.Runs.{YieldsInOrder};
ghost use Rattle.ac_automaton.specs.Util.{input_of, overlapping_iter_refusal, overlapping_refusal, AnswersUnless};
ghost use Rattle.ac_automaton.specs.Overlaps.{ListsNext};
ghost use Rattle.ac_search.specs.Searchers.{FindsItem, HasPlace, IsNextPlace, next_item, initial_listing_by};

use super::engine::{Engine, EngineFindOverlappingIter, by_engine};
use super::{AhoCorasick, check_start};
use ac_automaton::automaton::{Automaton, OverlappingState};
use ac_util::error::MatchError;
use ac_util::search::{Input, Match};
use std::alloc::{Allocator, Global};
use std::marker::Model;

impl<A: Allocator> AhoCorasick<A> {
    /// Moves on to the next occurrence in the listing of the input: `OverlappingState::get_match` then returns it. This
    /// ports `AhoCorasick::find_overlapping`.
    ///
    /// The listing has each occurrence in the span once, ordered by end, then by start, then by pattern number. If the
    /// input is anchored, it has only those that start where the span starts. After the last one `get_match` returns
    /// `None`, however often this is called again. `laws::listing_is_exact` says what the listing has, and
    /// `laws::answers_lie_inside` that all of it lies in the span.
    ///
    /// The searcher has to support the input's anchoring, and its match kind has to be `MatchKind::Standard`. The state
    /// has to be fresh, or left by this searcher over this same input.
    ///
    /// ```
    /// let searcher = AhoCorasick::new(alloc, &[b"append", b"appendage", b"app"])?;
    /// let (input, mut state) = (Input::new(b"append"), OverlappingState::start());
    /// searcher.find_overlapping(input, &mut state);
    /// assert_eq!(rt; state.get_match(), Some(Match::must(2, 0..3)));
    /// searcher.find_overlapping(input, &mut state);
    /// assert_eq!(rt; state.get_match(), Some(Match::must(0, 0..6)));
    /// let copy = state.clone();
    /// searcher.find_overlapping(input, &mut state);
    /// assert_eq!(rt; state.get_match(), None);
    /// assert_eq!(rt; copy.get_match(), Some(Match::must(0, 0..6)));
    /// ```
    #[inline]
    pub fn find_overlapping(&self, input: Input<'_>, state: &mut OverlappingState)
        requires supported { overlapping_refusal self.now.built (input_of input) ≡ None }
        requires placed { HasPlace self.now (input_of input) state.old }
        ensures item { state.new.found ≡ next_item self.now (input_of input.entry) state.old }
        ensures place { IsNextPlace self.now (input_of input.entry) state.old state.new }
        ensures placed { HasPlace self.now (input_of input.entry) state.new }
    {
        let Ok(()) = self.try_find_overlapping(input, state) else {
            unreachable!()
        };
    }

    /// Returns an iterator over all occurrences in the input's span, in the order of `find_overlapping`. This ports
    /// `AhoCorasick::find_overlapping_iter`.
    ///
    /// The searcher has to support unanchored searches, its match kind has to be `MatchKind::Standard`, and the input
    /// has to be unanchored. `laws::answers_lie_inside` says that all occurrences lie in the span: call it before a
    /// loop over them.
    ///
    /// ```
    /// let patterns: &[&[u8]] = &[b"append", b"appendage", b"app"];
    /// let searcher = AhoCorasick::new(alloc, patterns)?;
    /// let mut all = Vec::new(alloc);
    /// for m in searcher.find_overlapping_iter(Input::new(b"appendage")) {
    ///     all.push(m)?; // pattern 2 at 0..3, pattern 0 at 0..6, pattern 1 at 0..9
    /// }
    /// ```
    #[inline]
    pub fn find_overlapping_iter<'a, 'h>(
        &'a self,
        input: Input<'h>,
    ) -> FindOverlappingIter<'a, 'h, A>
        requires supported { overlapping_iter_refusal self.now.built (input_of input) ≡ None }
        ensures begun { result ≡ initial_listing_by self.now (input_of input.entry) }
        ensures runs { YieldsInOrder ListsNext (λ l. l.rest) }
    {
        let Ok(items) = self.try_find_overlapping_iter(input) else {
            unreachable!()
        };
        items
    }

    /// Does what `find_overlapping` does, or returns an error where the searcher doesn't support the search. This ports
    /// `AhoCorasick::try_find_overlapping`.
    ///
    /// The state has to be fresh, or left by this searcher over this same input.
    ///
    /// # Errors
    /// As `try_find`, else `UnsupportedOverlapping` where the match kind isn't `MatchKind::Standard`. The state is then
    /// as it was.
    ///
    /// ```
    /// let mut builder = AhoCorasick::builder();
    /// builder.match_kind(MatchKind::LeftmostFirst);
    /// let searcher = builder.build(alloc, &[b"append", b"app"])?;
    /// let mut state = OverlappingState::start();
    /// let outcome = searcher.try_find_overlapping(Input::new(b"append"), &mut state);
    /// let got = MatchKind::LeftmostFirst;
    /// assert_eq!(rt; outcome, Err(MatchError::UnsupportedOverlapping { got }));
    /// ```
    #[inline]
    pub fn try_find_overlapping(
        &self,
        input: Input<'_>,
        state: &mut OverlappingState,
    ) -> Result<(), MatchError>
        requires placed { HasPlace self.now (input_of input) state.old }
        ensures { FindsItem self.now (input_of input.entry) state.old result state.new }
    {
        check_start(self.start_kind, input.get_anchored())?;
        by_engine!(Engine, &self.engine, engine => engine.as_ref().try_find_overlapping(input, state))
    }

    /// Returns what `find_overlapping_iter` returns, or an error where the searcher doesn't support the search. This
    /// ports `AhoCorasick::try_find_overlapping_iter`.
    ///
    /// # Errors
    /// As `try_find_overlapping`, else `InvalidInputAnchored` for an anchored input.
    ///
    /// ```
    /// let searcher = AhoCorasick::new(alloc, &[b"append", b"app"])?;
    /// let mut matches = searcher.try_find_overlapping_iter(Input::new(b"append"))?;
    /// assert_eq!(rt; matches.next(), Some(Match::must(1, 0..3)));
    /// assert_eq!(rt; matches.next(), Some(Match::must(0, 0..6)));
    /// ```
    #[inline]
    pub fn try_find_overlapping_iter<'a, 'h>(
        &'a self,
        input: Input<'h>,
    ) -> Result<FindOverlappingIter<'a, 'h, A>, MatchError>
        ensures begun { AnswersUnless (overlapping_iter_refusal self.now.built (input_of input.entry))
            (initial_listing_by self.now (input_of input.entry)) result }
        ensures runs { YieldsInOrder ListsNext (λ l. l.rest) }
    {
        check_start(self.start_kind, input.get_anchored())?;
        let items =
            by_engine!(Engine, &self.engine, engine => EngineFindOverlappingIter, engine.as_ref().try_find_overlapping_iter(input)?);
        Ok(FindOverlappingIter { items })
    }
}

/// An iterator over all occurrences in the span of an input, made by `AhoCorasick::find_overlapping_iter`.
///
/// After the last occurrence it keeps returning `None`. Contracts see the occurrences still to come, and what was read
/// and counted since it was made: all calls together read each byte of the span at most once, and none past the end of
/// the occurrence that was returned last.
///
/// See the example of `AhoCorasick::try_find_overlapping_iter`.
#[derive(Drop)]
pub struct FindOverlappingIter<'a, 'h, A: Allocator = Global> {
    pub(super) items: EngineFindOverlappingIter<'a, 'h, A>,
}

impl<'a, 'h, A: Allocator> Model for FindOverlappingIter<'a, 'h, A> {
    ghost use Rattle.ac_automaton.specs.Overlaps.{Overlapping};
    ghost use Rattle.ac_search.specs.Engines.{listing_in};

    ghost Value = { Overlapping };

    ghost view = { λ s. listing_in s.items };
}

impl<'a, 'h, A: Allocator> Iterator for FindOverlappingIter<'a, 'h, A> {
    type Item = Match;

    ghost next_gives = { ListsNext };

    ghost remaining = { item_count (λ l. l.rest) };

    #[inline]
    fn next(&mut self) -> Option<Match> {
        self.items.next()
    }
}
