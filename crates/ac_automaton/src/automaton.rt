//! What an engine has to offer, and the searches that run on any engine.
ghost use Rattle.std.specs.Prelude.{◌≡◌, ◌≢◌, ◌↔◌, ◌⊎◌, ℕ, ◌<◌, [], length, option_map, slice_get, Some, None, IfSome, IsTrue};
ghost use Rattle.std.specs.Iterator.Runs.{YieldsInOrder};
ghost use Rattle.ac_util.specs.declared.search.Anchored.{Anchored};
ghost use Rattle.ac_automaton.specs.Util.{input_of, bytes_of, longest_len, Node, pattern_of, shortest_len, skip_of};
ghost use Rattle.ac_automaton.specs.Answers.{AnswersBytes, AnswersFind, AnswersListing, ExchangesStream, ExchangesStreamBy, AnswersText, AnswersWalk, BeginsBy, BeginsStream, ExchangesBytes, ExchangesText, FindsNext, IsPlacedIn};
ghost use Rattle.ac_automaton.specs.Automata.{AutomatonView, CountsLooks, IsAnyState, IsState, KeepsAnchoring, Lists, StepsTo, Tells, common_of};
ghost use Rattle.ac_automaton.specs.Commits.{HasCommits};
ghost use Rattle.ac_automaton.specs.Iterators.{GoesOn};
ghost use Rattle.ac_automaton.specs.Overlaps.{ListsNext, Takes};
ghost use Rattle.ac_automaton.specs.Streams.{initial_stream, on};
ghost use Rattle.ac_automaton.specs.Scans.{Serves, skip_with};

use ac_util::device::{Sink, Source};
use ac_util::error::{MatchError, ReplaceError, StreamError};
use ac_util::looks::{Looks, open};
use ac_util::primitives::PatternID;
use ac_util::search::{Anchored, Input, Match, MatchKind};
use std::alloc::Allocator;
use std::io;
use std::sync::Arc;
use stream_replace::{ByClosure, ByTexts, replace_stream};

mod commits;
mod common;
mod find;
mod gathered;
mod lengths;
mod listing;
mod onward;
mod overlap;
mod overlap_iter;
mod overlapping_pieces;
mod pieces;
mod replace;
mod scan;
mod skip;
mod stream;
mod stream_iter;
mod stream_replace;
mod stream_settled;
mod walk;

pub use ac_util::prefilter::{Candidate, Prefilter};
pub use ac_util::primitives::StateID;
pub use commits::{ChainMatch, Chains, Commit, Commits};
pub use common::Common;
pub use find::{Finder, find_core};
pub use listing::MatchRest;
pub use overlap::OverlappingState;
pub use overlap_iter::FindOverlappingIter;
pub use overlapping_pieces::OverlappingPieceFinder;
pub use pieces::PieceFinder;
pub use replace::{Walk, replace_all, replace_all_bytes, replace_all_with, replace_all_with_bytes};
pub use scan::is_due;
pub use stream::StreamFinder;
pub use stream_iter::StreamFindIter;
pub use stream_settled::{Phase, buffer_len};
pub use walk::FindIter;

/// An automaton that finds patterns: it has states, and from each state every byte leads to a state. This ports
/// `Automaton`.
///
/// A state is identified by its number. In an unanchored or in an anchored search a number stands for a node, which
/// contracts see: a string of bytes, or the dead node from which nothing is found any more. State numbers that are
/// passed have to stand for some node: `start_state` returns such a number, and `next_state` returns one if it was
/// passed one, under the same anchoring.
///
/// These calls read the bytes of "he":
///
/// ```
/// let nfa = noncontiguous::NFA::new(alloc, &[b"he", b"she"])?;
/// let (mut looks, anchored) = (Looks::new(), Anchored::No);
/// let start = nfa.start_state(anchored)?;
/// let h = nfa.next_state(anchored, start, b'h', &mut looks);
/// let he = nfa.next_state(anchored, h, b'e', &mut looks);
/// assert!(rt; nfa.is_start(start) && !nfa.is_dead(he));
/// assert!(rt; nfa.is_match(he) && nfa.match_len(he) == 1);
/// assert_eq!(rt; nfa.match_pattern(he, 0), PatternID::must(0));
/// assert!(rt; nfa.is_match_or_dead(he) && nfa.is_special(start) && !nfa.is_special(h));
/// let (state, index) = (he, 0);
/// let taken = nfa.take_match(MatchRest { state, index });
/// assert!(rt; taken.is_some_and(|(pattern, rest)| pattern.as_usize() == 0 && rest.index == 1));
/// ```
pub trait Automaton {
    /// The allocator of the automaton's memory.
    type Memory: Allocator;

    /// How many looks at states a search may take for each byte that it reads, on the whole: 2 where failed transitions
    /// are followed one after another, 1 in a DFA.
    const LOOKS: usize;

    ghost LOOKS: { ℕ };

    // What contracts see of an automaton.
    ghost seen: { Self → AutomatonView };

    /// Returns the state in which a search starts.
    ///
    /// # Errors
    /// `InvalidInputAnchored` or `InvalidInputUnanchored` where the automaton has no start for this anchoring.
    ///
    /// See the example of `Automaton`.
    fn start_state(&self, anchored: Anchored) -> Result<StateID, MatchError>
        ensures { BeginsBy (seen self.now) anchored (λ sid. (seen self.now).stands anchored sid (Some [])) result };

    /// Returns the state to which a byte leads from a state, and counts the looks at states that this takes. See the
    /// example of `Automaton`.
    fn next_state(&self, anchored: Anchored, sid: StateID, byte: u8, looks: &mut Looks) -> StateID
        requires state { IsState ((seen self.now).stands anchored) sid }
        ensures steps { StepsTo (seen self.now) anchored sid byte result }
        ensures looks { CountsLooks (seen self.now) anchored sid byte looks.old looks.new };

    /// Returns whether the state is dead: nothing is found from it on. See the example of `Automaton`.
    fn is_dead(&self, sid: StateID) -> bool
        requires state { IsAnyState (seen self.now) sid }
        ensures { Tells (seen self.now) sid result (λ u. u ≡ None) };

    /// Returns whether the state has matches. See the example of `Automaton`.
    fn is_match(&self, sid: StateID) -> bool
        requires state { IsAnyState (seen self.now) sid }
        ensures { IsTrue result ↔ ((seen self.now).listed sid ≢ []) };

    /// Returns whether the state has matches or is dead. In any other state, also at the start, a search without a
    /// prefilter reads on without a further test. See the example of `Automaton`.
    #[inline]
    fn is_match_or_dead(&self, sid: StateID) -> bool
        requires state { IsAnyState (seen self.now) sid }
        ensures { Tells (seen self.now) sid result (λ u. (u ≡ None) ⊎ ((seen self.now).listed sid ≢ [])) }
    {
        self.is_match(sid) || self.is_dead(sid)
    }

    /// Returns whether the state is one in which a search starts. See the example of `Automaton`.
    fn is_start(&self, sid: StateID) -> bool
        requires state { IsAnyState (seen self.now) sid }
        ensures { Tells (seen self.now) sid result (λ u. u ≡ Some []) };

    /// Returns whether the state is dead, has matches or is a start. In any other state nothing is found, and nothing
    /// begins or ends. See the example of `Automaton`.
    #[inline]
    fn is_special(&self, sid: StateID) -> bool
        requires state { IsAnyState (seen self.now) sid }
        ensures { Tells (seen self.now) sid result
            (λ u. (u ≡ None) ⊎ (u ≡ Some []) ⊎ ((seen self.now).listed sid ≢ [])) }
    {
        self.is_match_or_dead(sid) || self.is_start(sid)
    }

    /// Returns how many matches a state has. It has to have some. See the example of `Automaton`.
    fn match_len(&self, sid: StateID) -> usize
        requires state { IsAnyState (seen self.now) sid }
        requires matches { (seen self.now).listed sid ≢ [] }
        ensures { result ≡ length ((seen self.now).listed sid) };

    /// Returns the pattern of one of the matches of a state. The index has to be less than the number of its matches.
    /// See the example of `Automaton`.
    fn match_pattern(&self, sid: StateID, index: usize) -> PatternID
        requires state { IsAnyState (seen self.now) sid }
        requires within { index < length ((seen self.now).listed sid) }
        ensures { slice_get ((seen self.now).listed sid) index ≡ Some result };

    /// Returns the first match in a rest of a match list and the rest after it, or `None` if the rest is empty. So a
    /// list is read in as many steps as it has matches. See the example of `Automaton`.
    fn take_match(&self, rest: MatchRest) -> Option<(PatternID, MatchRest)>
        requires state { IsAnyState (seen self.now) rest.state }
        ensures taken { Takes (seen self.now).listed rest result }
        ensures state { KeepsAnchoring (seen self.now) rest result };

    /// Returns what every engine has, whatever its states are.
    ///
    /// ```
    /// let nfa = noncontiguous::NFA::new(alloc, &[b"foo", b"bar", b"quux"])?;
    /// assert_eq!(rt; nfa.match_kind(), nfa.common().match_kind());
    /// assert_eq!(rt; nfa.pattern_len(PatternID::must(2)), 4);
    /// assert_eq!(rt; nfa.patterns_len(), 3);
    /// assert_eq!(rt; (nfa.min_pattern_len(), nfa.max_pattern_len()), (3, 4));
    /// assert!(rt; nfa.prefilter().is_some() && nfa.memory_usage() > 0);
    /// ```
    fn common(&self) -> &Common<Self::Memory>
        ensures { result.now ≡ common_of (seen self.now).built (seen self.now).wants_prefilter };

    /// Returns the commits of the states, by which a leftmost walk reads on from match to match, as searches share them that outlive a
    /// borrow of the automaton.
    fn shared_commits(&self) -> &Arc<Commits<Self::Memory>, Self::Memory>
        ensures { HasCommits (seen self.now) result.now.value };

    /// Returns the commits of the states.
    #[inline]
    final fn commits(&self) -> &Commits<Self::Memory>
        ensures { HasCommits (seen self.now) result.now }
    {
        self.shared_commits().as_ref()
    }

    /// Returns the match kind, which decides which of the occurrences in a span a search returns. See the example of
    /// `common`.
    #[inline]
    final fn match_kind(&self) -> MatchKind
        ensures { result ≡ (seen self.now).built.kind }
    {
        self.common().match_kind()
    }

    /// Returns how many patterns there are. See the example of `common`.
    #[inline]
    final fn patterns_len(&self) -> usize
        ensures { result ≡ length (seen self.now).built.patterns }
    {
        self.common().patterns().as_ref().len()
    }

    /// Returns the length of a pattern in bytes. The pattern has to be one of the automaton's. See the
    /// example of `common`.
    #[inline]
    final fn pattern_len(&self, pattern: PatternID) -> usize
        requires numbered { pattern < length (seen self.now).built.patterns }
        ensures { result ≡ length (pattern_of (seen self.now).built.patterns pattern) }
    {
        self.common()
            .patterns()
            .as_ref()
            .get(pattern.as_usize())
            .len()
    }

    /// Returns the length of the shortest pattern in bytes, or `usize::MAX` if there are no patterns. See the example
    /// of `common`.
    #[inline]
    final fn min_pattern_len(&self) -> usize
        ensures { result ≡ shortest_len (seen self.now).built.patterns }
    {
        self.common().min_pattern_len()
    }

    /// Returns the length of the longest pattern in bytes, or 0 if there are no patterns. See the example of `common`.
    #[inline]
    final fn max_pattern_len(&self) -> usize
        ensures { result ≡ longest_len (seen self.now).built.patterns }
    {
        self.common().max_pattern_len()
    }

    /// Returns the prefilter, if the automaton was built to have one and there is one for its patterns. An unanchored
    /// search may skip ahead with it, and returns what it would return without. See the example of `common`.
    #[inline]
    final fn prefilter(&self) -> Option<&Prefilter<Self::Memory>>
        ensures skips { option_map (λ p. skip_of p.now) result
            ≡ skip_with (seen self.now).wants_prefilter (seen self.now).built }
        ensures serves { IfSome result (λ p. Serves (seen self.now).built (skip_of p.now)) }
    {
        self.common().prefilter()
    }

    /// Returns about how many bytes of memory the automaton takes. Nothing is promised about the number.
    /// See the example of `common`.
    fn memory_usage(&self) -> usize;

    ghost one_or_two: { (LOOKS ≡ 1) ⊎ (LOOKS ≡ 2) };

    ghost allows: { (automaton : Self) → (seen automaton).most ≡ LOOKS };

    ghost lists: { (automaton : Self) (anchored : Anchored) (s : ℕ) (u : Node)
        → (seen automaton).stands anchored s u → Lists (seen automaton).built anchored u ((seen automaton).listed s) };

    /// Returns the match that the match kind picks from all occurrences in the input's span, or `None` if nothing
    /// occurs there. With `Input::earliest` the match is the one that `MatchKind::Standard` picks. This ports
    /// `Automaton::try_find`. The law `ac_util::laws::matches_lie_inside` says that the match lies in the span.
    ///
    /// # Errors
    /// `InvalidInputAnchored` or `InvalidInputUnanchored` where the automaton has no start for the input's anchoring.
    ///
    /// ```
    /// let nfa = noncontiguous::NFA::new(alloc, &[b"he", b"she"])?;
    /// let found = nfa.try_find(Input::new(b"ushers"));
    /// assert_eq!(rt; found, Ok(Some(Match::must(1, 1..4))));
    /// ```
    #[inline]
    final fn try_find(&self, input: Input<'_>) -> Result<Option<Match>, MatchError>
    where
        Self: Sized,
        ensures { AnswersFind (seen self.now).built (input_of input.entry) result }
    {
        let mut finder = Finder::new(self, input.get_anchored(), input.get_earliest())?;
        let (mut tape, mut looks) = open(&input);
        Ok(finder.find(input.get_span(), &mut tape, &mut looks))
    }

    /// Returns an iterator over the matches of an input that don't overlap: the match kind picks each from where the
    /// one before it ended. This ports `Automaton::try_find_iter`. The laws `matches_lie_inside` and `walk_is_short` of
    /// `ac_util::laws` say that all matches lie in the span, and how many there are at most.
    ///
    /// # Errors
    /// As `try_find`.
    ///
    /// See the example of `AhoCorasick::try_find_iter`, which is called alike.
    #[inline]
    final fn try_find_iter<'a, 'h>(
        &'a self,
        input: Input<'h>,
    ) -> Result<FindIter<'a, 'h, Self>, MatchError>
    where
        Self: Sized,
        ensures begun { AnswersWalk (seen self.now) (input_of input.entry) result }
        ensures runs { YieldsInOrder GoesOn (λ w. w.rest) }
    {
        FindIter::new(self, input)
    }

    /// Moves on to the next occurrence in the listing of an input: `OverlappingState::get_match` then returns it. This
    /// ports `Automaton::try_find_overlapping`.
    ///
    /// The listing has each occurrence in the span once, ordered by end, then by start, then by pattern number. After
    /// the last one `get_match` returns `None`, however often this is called again. The law
    /// `ac_util::laws::listing_is_exact` says what the listing has. The state has to be fresh, or left by this
    /// automaton over this same input.
    ///
    /// # Errors
    /// `InvalidInputAnchored` or `InvalidInputUnanchored` where the automaton has no start for the input's anchoring,
    /// else `UnsupportedOverlapping` where its match kind isn't `MatchKind::Standard`. The state is then as it was.
    ///
    /// See the example of `AhoCorasick::find_overlapping`, which is called alike.
    #[inline]
    final fn try_find_overlapping(
        &self,
        input: Input<'_>,
        state: &mut OverlappingState,
    ) -> Result<(), MatchError>
    where
        Self: Sized,
        requires placed { IsPlacedIn (seen self.now) (input_of input) state.old }
        ensures { FindsNext (seen self.now) (input_of input.entry) state.old result state.new }
    {
        overlap::try_find_overlapping(self, input, state)
    }

    /// Returns an iterator over all occurrences in the input's span, in the order of `try_find_overlapping`. This ports
    /// `Automaton::try_find_overlapping_iter`. The law `ac_util::laws::matches_lie_inside` says that all of them lie in
    /// the span.
    ///
    /// # Errors
    /// As `try_find_overlapping`, else `InvalidInputAnchored` for an anchored input.
    ///
    /// See the example of `AhoCorasick::try_find_overlapping_iter`, which is called alike.
    #[inline]
    final fn try_find_overlapping_iter<'a, 'h>(
        &'a self,
        input: Input<'h>,
    ) -> Result<FindOverlappingIter<'a, 'h, Self>, MatchError>
    where
        Self: Sized,
        ensures begun { AnswersListing (seen self.now) (input_of input.entry) result }
        ensures runs { YieldsInOrder ListsNext (λ l. l.rest) }
    {
        FindOverlappingIter::new(self, input)
    }

    /// Returns the haystack with each match of `try_find_iter` over it replaced by the text of its pattern. A match
    /// that starts or ends inside a character is left as it is, and nothing else is matched in its place. This ports
    /// `Automaton::try_replace_all`.
    ///
    /// There have to be as many texts as patterns.
    ///
    /// # Errors
    /// `ReplaceError::Match` with `InvalidInputUnanchored` where the automaton has no unanchored start, else
    /// `ReplaceError::Memory` where a request for memory is refused.
    ///
    /// See the example of `AhoCorasick::try_replace_all`, which is called alike.
    final fn try_replace_all<Z: Allocator>(
        &self,
        alloc: Z,
        haystack: &str,
        texts: &[&str],
    ) -> Result<String<Z>, ReplaceError>
    where
        Self: Sized,
        requires texts { length texts.now ≡ length (seen self.now).built.patterns }
        ensures { AnswersText (seen self.now).built haystack.now (bytes_of texts.now) result }
    {
        let walk = FindIter::new(self, Input::of_text(haystack))?;
        Ok(replace::replace_all(walk, alloc, haystack, texts)?)
    }

    /// Returns the haystack with each match of `try_find_iter` over it replaced by the text of its pattern. This ports
    /// `Automaton::try_replace_all_bytes`.
    ///
    /// There have to be as many texts as patterns.
    ///
    /// # Errors
    /// As `try_replace_all`.
    ///
    /// See the example of `AhoCorasick::replace_all_bytes`, which is called alike.
    final fn try_replace_all_bytes<Z: Allocator>(
        &self,
        alloc: Z,
        haystack: &[u8],
        texts: &[&[u8]],
    ) -> Result<Vec<u8, Z>, ReplaceError>
    where
        Self: Sized,
        requires texts { length texts.now ≡ length (seen self.now).built.patterns }
        ensures { AnswersBytes (seen self.now).built haystack.now (bytes_of texts.now) result }
    {
        let walk = FindIter::new(self, Input::new(haystack))?;
        Ok(replace::replace_all_bytes(walk, alloc, haystack, texts)?)
    }

    /// Appends the haystack to the destination, and calls the closure at each match of `try_find_iter` over it, except
    /// at those that start or end inside a character. This ports `Automaton::try_replace_all_with`.
    ///
    /// The closure is handed the match, the slice that matched and the destination, to which it appends what replaces
    /// the match. It returns whether to go on: after `false` it isn't called again, and the rest of the haystack is
    /// appended as it is. It has to accept any match and destination. The law
    /// `ac_util::laws::text_closure_exchanges` says what is left by a closure that appends at each call.
    ///
    /// # Errors
    /// As `try_replace_all`. Where the search is refused the destination is as it was; where memory is refused it is as
    /// the steps before left it.
    ///
    /// See the example of `AhoCorasick::try_replace_all_with`, which is called alike.
    final fn try_replace_all_with<F>(
        &self,
        haystack: &str,
        destination: &mut String,
        exchange: F,
    ) -> Result<(), ReplaceError>
    where
        Self: Sized,
        F: FnMut(&Match, &str, &mut String) -> bool,
        requires callable { F.IsAlwaysCallable exchange }
        ensures { ExchangesText F.FnMut (seen self.now).built haystack.now exchange destination.old destination.new result }
    {
        let walk = FindIter::new(self, Input::of_text(haystack))?;
        Ok(replace::replace_all_with(walk, haystack, destination, exchange)?)
    }

    /// Appends the haystack to the destination, and calls the closure at each match of `try_find_iter` over it, as
    /// `try_replace_all_with` does for a text. This ports `Automaton::try_replace_all_with_bytes`. The law
    /// `ac_util::laws::closure_exchanges` says what is left by a closure that appends at each call.
    ///
    /// # Errors
    /// As `try_replace_all_with`.
    ///
    /// See the example of `AhoCorasick::try_replace_all_with_bytes`, which is called alike.
    final fn try_replace_all_with_bytes<F>(
        &self,
        haystack: &[u8],
        destination: &mut Vec<u8>,
        exchange: F,
    ) -> Result<(), ReplaceError>
    where
        Self: Sized,
        F: FnMut(&Match, &[u8], &mut Vec<u8>) -> bool,
        requires callable { F.IsAlwaysCallable exchange }
        ensures { ExchangesBytes F.FnMut (seen self.now).built haystack.now exchange destination.old destination.new result }
    {
        let walk = FindIter::new(self, Input::new(haystack))?;
        Ok(replace::replace_all_with_bytes(walk, haystack, destination, exchange)?)
    }

    /// Returns an iterator over the matches of all bytes that a reader gives: those of the walk over these bytes,
    /// however the reads cut them. Offsets count bytes of the whole stream from 0. This ports
    /// `Automaton::try_stream_find_iter`.
    ///
    /// # Errors
    /// `StreamError::Match` with `InvalidInputUnanchored` where the automaton has no unanchored start, else with
    /// `UnsupportedEmpty` where some pattern is empty; else `StreamError::Memory` where the memory for the buffer is
    /// refused. Nothing was read then.
    ///
    /// See the example of `AhoCorasick::try_stream_find_iter`, which is called alike.
    final fn try_stream_find_iter<'a, R: Source + Drop, Z: Allocator>(
        &'a self,
        alloc: Z,
        reader: R,
    ) -> Result<StreamFindIter<'a, Self, R, Z>, StreamError>
    where
        Self: Sized,
        ensures { BeginsStream (seen self.now).built (λ matches. matches ≡ on R.told (initial_stream (seen self.now).built) reader) result }
    {
        StreamFindIter::new(self, alloc, reader)
    }

    /// Writes all bytes that a reader gives, with each match of the walk over them replaced by the text of its pattern.
    /// This ports `Automaton::try_stream_replace_all`.
    ///
    /// It writes while it reads: before each read all of the replaced text was written except for the bytes that a
    /// match to come may still need, which are no more than the longest pattern has. Between two reads it gathers what
    /// it writes. The writer isn't flushed. There have to be as many texts as patterns.
    ///
    /// # Errors
    /// Those of `try_stream_find_iter`: then nothing was read or written. `Io` where a read or a write failed, and
    /// `TooLong` where more bytes came than a `usize` counts: what was written before that read stays written.
    /// `WriteZero` where a write took no byte. Where a write failed or took nothing, a prefix of the replaced text as
    /// far as the stream was settled was written, and nothing was read after that.
    ///
    /// See the example of `AhoCorasick::try_stream_replace_all`, which is called alike.
    final fn try_stream_replace_all<R: Source, W: Sink, Z: Allocator>(
        &self,
        alloc: Z,
        reader: &mut R,
        writer: &mut W,
        texts: &[&[u8]],
    ) -> Result<(), StreamError>
    where
        Self: Sized,
        requires texts { length texts.now ≡ length (seen self.now).built.patterns }
        ensures { ExchangesStream R.empty_means_end R.told W.told (seen self.now).built (bytes_of texts.now)
            reader.old writer.old reader.new writer.new result }
    {
        let mut finder = StreamFinder::new(self, alloc)?;
        let mut exchange = ByTexts::new(texts);
        replace_stream(&mut finder, reader, writer, &mut exchange)
    }

    /// Writes all bytes that a reader gives, with a call of the closure at each match of the walk over them. This ports
    /// `Automaton::try_stream_replace_all_with`.
    ///
    /// The closure is handed the match, with offsets in the whole stream, the slice that matched and the writer, to
    /// which it writes what replaces the match. It has to accept any match and writer. All bytes before a match
    /// were written when the closure is called. Apart from that this does what `try_stream_replace_all` does.
    ///
    /// # Errors
    /// As `try_stream_replace_all`; and `Io` where the closure failed: what it wrote stays written, and nothing
    /// follows.
    ///
    /// See the example of `AhoCorasick::try_stream_replace_all_with`, which is called alike.
    final fn try_stream_replace_all_with<R: Source, W: Sink, Z: Allocator, F>(
        &self,
        alloc: Z,
        reader: &mut R,
        writer: &mut W,
        closure: F,
    ) -> Result<(), StreamError>
    where
        Self: Sized,
        F: FnMut(&Match, &[u8], &mut W) -> io::Result<()>,
        requires callable { F.IsAlwaysCallable closure }
        ensures { ExchangesStreamBy R.empty_means_end R.told W.told F.FnMut (seen self.now).built closure
            reader.old writer.old reader.new writer.new result }
    {
        let mut finder = StreamFinder::new(self, alloc)?;
        let mut exchange = ByClosure { closure };
        replace_stream(&mut finder, reader, writer, &mut exchange)
    }
}
