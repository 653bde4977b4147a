//! Finds, and walks over the matches that don't overlap.
ghost use Rattle.std.specs.Prelude.{◌≡◌, ◌↔◌, IsTrue, None};
ghost use Rattle.std.specs.Iterator.{item_count};
ghost use Rattle.std.specs.Iterator.Runs.{YieldsInOrder};
ghost use Rattle.ac_automaton.specs.Util.{input_of, find_refusal, find_result, AnswersUnless};
ghost use Rattle.ac_automaton.specs.Answers.{AnswersFind};
ghost use Rattle.ac_automaton.specs.Iterators.{GoesOn};
ghost use Rattle.ac_search.specs.Alike.{SomeOccurs};
ghost use Rattle.ac_search.specs.Searchers.{initial_walk_by};

use super::engine::{Engine, EngineFindIter, by_engine};
use super::{AhoCorasick, check_start};
use ac_automaton::automaton::{Automaton, Walk};
use ac_util::error::MatchError;
use ac_util::search::{Input, Match};
use std::alloc::{Allocator, Global};
use std::marker::Model;

impl<A: Allocator> AhoCorasick<A> {
    /// Returns whether some pattern occurs in the input's span. If the input is anchored, only an occurrence that
    /// starts where the span starts counts. This ports `AhoCorasick::is_match`.
    ///
    /// The search ends as soon as it knows of an occurrence, so under a leftmost kind it may read less than `find`. The
    /// searcher has to support the input's anchoring; where that isn't known, call `try_find` with `Input::earliest`.
    /// `laws::finds_if_something_occurs` says that this is whether `find` returns a match.
    ///
    /// ```
    /// let searcher = AhoCorasick::new(alloc, &[b"foo", b"bar", b"quux"])?;
    /// assert!(rt; searcher.is_match(Input::new(b"xxx bar xxx")));
    /// assert!(rt; !searcher.is_match(Input::new(b"xxx qux xxx")));
    /// ```
    #[inline]
    pub fn is_match(&self, input: Input<'_>) -> bool
        requires supported { find_refusal self.now.built (input_of input) ≡ None }
        ensures { IsTrue result ↔ SomeOccurs self.now.built (input_of input.entry) }
    {
        self.find(input.earliest(true)).is_some()
    }

    /// Returns the match that the match kind picks from all occurrences in the input's span, or `None` if nothing
    /// occurs there. This ports `AhoCorasick::find`.
    ///
    /// Offsets count bytes of the whole haystack, wherever the span starts; an end is one past the last byte. With
    /// `Input::earliest` the match is the one that `MatchKind::Standard` picks, under every match kind.
    ///
    /// The searcher has to support the input's anchoring; `try_find` returns an error where it doesn't.
    /// `laws::answers_lie_inside` says that the match lies in the span, so that the haystack can be sliced by it, and
    /// `laws::answers_cut_no_character` says so of a text and patterns that are texts, none of them empty;
    /// `laws::pick_comes_first` says that nothing else can be picked.
    ///
    /// ```
    /// let patterns: &[&[u8]] = &[b"apple", b"maple", b"Snapple"];
    /// let searcher = AhoCorasick::new(alloc, patterns)?;
    /// let text = "Nobody likes maple in their apple flavored Snapple.";
    /// let found = searcher.find(Input::of_text(text));
    /// assert_eq!(rt; found, Some(Match::must(1, 13..18)));
    /// ```
    #[inline]
    pub fn find(&self, input: Input<'_>) -> Option<Match>
        requires supported { find_refusal self.now.built (input_of input) ≡ None }
        ensures { result ≡ find_result self.now.built (input_of input.entry) }
    {
        let Ok(found) = self.try_find(input) else {
            unreachable!()
        };
        found
    }

    /// Returns an iterator over the matches of the input that don't overlap: the match kind picks each from where the
    /// one before it ended. This ports `AhoCorasick::find_iter`.
    ///
    /// The searcher has to support the input's anchoring; `try_find_iter` returns an error where it doesn't.
    /// `laws::answers_lie_inside` says that all matches lie in the span, and how many there are at most, and
    /// `laws::answers_cut_no_character` that they can slice a text, if the patterns are texts and none is empty: call
    /// one before a loop over the matches.
    /// `laws::walk_is_in_order` says that they don't overlap.
    ///
    /// ```
    /// let searcher = AhoCorasick::new(alloc, &[b"apple", b"maple"])?;
    /// let mut ends = Vec::new(alloc);
    /// for m in searcher.find_iter(Input::new(b"maple, apple")) {
    ///     ends.push(m.end())?; // pattern 1 at 0..5, pattern 0 at 7..12
    /// }
    /// assert_eq!(rt; ends.as_slice(), [5, 12].as_slice());
    /// ```
    #[inline]
    pub fn find_iter<'a, 'h>(&'a self, input: Input<'h>) -> FindIter<'a, 'h, A>
        requires supported { find_refusal self.now.built (input_of input) ≡ None }
        ensures begun { result ≡ initial_walk_by self.now (input_of input.entry) }
        ensures runs { YieldsInOrder GoesOn (λ w. w.rest) }
    {
        let Ok(matches) = self.try_find_iter(input) else {
            unreachable!()
        };
        matches
    }

    /// Returns what `find` returns, or an error where the searcher doesn't support the search. This ports
    /// `AhoCorasick::try_find`.
    ///
    /// # Errors
    /// `InvalidInputAnchored` where the input is anchored and the searcher supports unanchored searches only;
    /// `InvalidInputUnanchored` where it is the other way around. The haystack has no influence on this.
    ///
    /// ```
    /// let searcher = AhoCorasick::new(alloc, &[b"bar"])?;
    /// let input = Input::new(b"foo bar");
    /// assert_eq!(rt; searcher.try_find(input), Ok(Some(Match::must(0, 4..7))));
    /// let refused = searcher.try_find(input.anchored(Anchored::Yes));
    /// assert_eq!(rt; refused, Err(MatchError::InvalidInputAnchored));
    /// ```
    #[inline]
    pub fn try_find(&self, input: Input<'_>) -> Result<Option<Match>, MatchError>
        ensures { AnswersFind self.now.built (input_of input.entry) result }
    {
        check_start(self.start_kind, input.get_anchored())?;
        by_engine!(Engine, &self.engine, engine => engine.as_ref().try_find(input))
    }

    /// Returns what `find_iter` returns, or an error where the searcher doesn't support the search. This ports
    /// `AhoCorasick::try_find_iter`.
    ///
    /// # Errors
    /// As `try_find`.
    ///
    /// ```
    /// let mut builder = AhoCorasick::builder();
    /// builder.start_kind(StartKind::Anchored);
    /// let searcher = builder.build(alloc, &[b"ab"])?;
    /// let input = Input::new(b"abxab");
    /// let refused = searcher.try_find_iter(input).err();
    /// assert_eq!(rt; refused, Some(MatchError::InvalidInputUnanchored));
    /// let mut matches = searcher.try_find_iter(input.anchored(Anchored::Yes))?;
    /// assert_eq!(rt; matches.next(), Some(Match::must(0, 0..2)));
    /// ```
    #[inline]
    pub fn try_find_iter<'a, 'h>(
        &'a self,
        input: Input<'h>,
    ) -> Result<FindIter<'a, 'h, A>, MatchError>
        ensures begun { AnswersUnless (find_refusal self.now.built (input_of input.entry))
            (initial_walk_by self.now (input_of input.entry)) result }
        ensures runs { YieldsInOrder GoesOn (λ w. w.rest) }
    {
        check_start(self.start_kind, input.get_anchored())?;
        let matches =
            by_engine!(Engine, &self.engine, engine => EngineFindIter, engine.as_ref().try_find_iter(input)?);
        Ok(FindIter { matches })
    }
}

/// An iterator over the matches of an input that don't overlap, made by `AhoCorasick::find_iter`.
///
/// After the last match it keeps returning `None`. Contracts see the matches still to come, and what was read and
/// counted since it was made. A call makes one find, or two where the first finds an empty match again at the end of
/// the match before. Under `MatchKind::Standard`, or with `earliest`, all calls together keep the bounds of one find.
///
/// See the example of `AhoCorasick::try_find_iter`.
#[derive(Drop)]
pub struct FindIter<'a, 'h, A: Allocator = Global> {
    pub(super) matches: EngineFindIter<'a, 'h, A>,
}

impl<'a, 'h, A: Allocator> Model for FindIter<'a, 'h, A> {
    ghost use Rattle.ac_automaton.specs.Iterators.{Walking};
    ghost use Rattle.ac_search.specs.Engines.{walking_in};

    ghost Value = { Walking };

    ghost view = { λ s. walking_in s.matches };
}

impl<'a, 'h, A: Allocator> Iterator for FindIter<'a, 'h, A> {
    type Item = Match;

    ghost next_gives = { GoesOn };

    ghost remaining = { item_count (λ s. s.rest) };

    #[inline]
    fn next(&mut self) -> Option<Match> {
        self.matches.next()
    }
}

impl<'a, 'h, A: Allocator> Walk for FindIter<'a, 'h, A> {
    ghost left = { λ s. s.rest };

    #[inline]
    fn next_match(&mut self) -> Option<Match> {
        self.matches.next()
    }
}
