//! The searcher, and the choice of its engine.
ghost use Rattle.std.specs.Prelude.{◌≡◌, length};
ghost use Rattle.ac_automaton.specs.Util.{AnswersUnless, bytes_of, longest_len, shortest_len, start_refusal};
ghost use Rattle.ac_search.specs.Engines.{Supports, searcher_of};
ghost use Rattle.ac_search.specs.Searchers.{BuildsSearcher, usual_settings};

use ac_automaton::automaton::OverlappingState;
use ac_util::error::{BuildError, MatchError};
use ac_util::search::{Anchored, Input, Match, MatchKind, StartKind};
use engine::Engine;
use std::alloc::{AllocError, Allocator, Global};
use std::fmt;
use std::marker::Model;

mod builder;
mod choice;
mod engine;
mod find;
mod overlap;
mod overlapping_pieces;
mod piece_replacer;
mod pieces;
mod replace;
mod stream;
mod stream_iter;

pub use builder::AhoCorasickBuilder;
pub use choice::{AhoCorasickKind, choose_kind};
pub use find::FindIter;
pub use overlap::FindOverlappingIter;
pub use overlapping_pieces::OverlappingPieceFinder;
pub use piece_replacer::PieceReplacer;
pub use pieces::PieceFinder;
pub use stream::StreamFinder;
pub use stream_iter::StreamFindIter;

/// A searcher for many patterns at once.
///
/// `AhoCorasick::new` builds one with the usual settings, `AhoCorasickBuilder` with others. The patterns, the match
/// kind, the case setting and the start kind decide every answer, whichever engine serves the searcher
/// (`laws::engines_agree`). Contracts see what it was built from, and which engine serves it. Threads may share a searcher:
/// it is `Send` and `Sync` where its allocator is, and a clone shares its engine. This ports `AhoCorasick`.
///
/// ```
/// let patterns: &[&[u8]] = &[b"apple", b"maple", b"Snapple"];
/// let searcher = AhoCorasick::new(alloc, patterns)?;
/// let text = "Nobody likes maple in their apple flavored Snapple.";
/// let found = searcher.find(Input::of_text(text));
/// assert_eq!(rt; found, Some(Match::must(1, 13..18)));
/// ```
///
/// What it was built from, and which engine serves it:
///
/// ```
/// let searcher = AhoCorasick::new(alloc, &[b"foo", b"bar", b"quux"])?;
/// assert_eq!(rt; searcher.kind(), AhoCorasickKind::DFA);
/// assert_eq!(rt; searcher.match_kind(), MatchKind::Standard);
/// assert_eq!(rt; searcher.start_kind(), StartKind::Unanchored);
/// assert_eq!(rt; searcher.patterns_len(), 3);
/// assert_eq!(rt; searcher.min_pattern_len(), 3);
/// assert_eq!(rt; searcher.max_pattern_len(), 4);
/// assert!(rt; searcher.memory_usage() > 0);
/// ```
#[derive(Drop)]
pub struct AhoCorasick<A: Allocator = Global> {
    engine: Engine<A>,
    start_kind: StartKind,
}

impl<A: Allocator> Model for AhoCorasick<A> {
    ghost use Rattle.ac_search.specs.Engines.{Supports, searcher_of};
    ghost use Rattle.ac_search.specs.Searchers.{Searcher};

    ghost Value = { Searcher };

    ghost view = { λ s. searcher_of s.engine s.start_kind };

    ghost invariant = { λ s. Supports s.engine s.start_kind };
}

/// Shown as `AhoCorasick { kind: DFA, match_kind: Standard, patterns: 3 }`.
impl<A: Allocator> fmt::Debug for AhoCorasick<A> {
    fn fmt<W: fmt::Write>(&self, f: &mut fmt::Formatter<W>) -> fmt::Result {
        let (engine, kind, patterns) = (self.kind(), self.match_kind(), self.patterns_len());
        write!(
            f,
            "AhoCorasick {{ kind: {engine:?}, match_kind: {kind:?}, patterns: {patterns} }}"
        )
    }
}

impl<A: Allocator> Clone for AhoCorasick<A> {
    ghost is_clone = { λ s t. t ≡ s };

    /// Returns a searcher that shares this one's engine, so no automaton is copied.
    ///
    /// # Errors
    /// `AllocError` where there are more clones than a `usize` counts.
    fn clone(&self) -> Result<AhoCorasick<A>, AllocError> {
        let engine = self.engine.share()?;
        Ok(AhoCorasick::new_by(engine, self.start_kind))
    }
}

impl<A: Allocator + Clone> AhoCorasick<A> {
    /// Builds a searcher over a list of patterns with the usual settings: `MatchKind::Standard`, unanchored searches
    /// only, the case of letters counts, and the engine is chosen. This ports `AhoCorasick::new`.
    ///
    /// The number of a pattern is its index in the list. `AhoCorasickBuilder` builds with other settings.
    ///
    /// # Errors
    /// As `AhoCorasickBuilder::build`.
    ///
    /// ```
    /// let patterns: &[&[u8]] = &[b"foo", b"bar", b"baz"];
    /// let searcher = AhoCorasick::new(alloc, patterns)?;
    /// let found = searcher.find(Input::new(b"xxx bar xxx"));
    /// assert_eq!(rt; found, Some(Match::must(1, 4..7)));
    /// ```
    pub fn new(alloc: A, patterns: &[&[u8]]) -> Result<AhoCorasick<A>, BuildError>
        ensures { BuildsSearcher usual_settings (bytes_of patterns.now) result }
    {
        AhoCorasickBuilder::new().build(alloc, patterns)
    }
}

impl AhoCorasick {
    /// Returns a builder with the usual settings, those of `AhoCorasickBuilder::new`. This ports
    /// `AhoCorasick::builder`.
    ///
    /// ```
    /// let patterns: &[&[u8]] = &[b"Sam", b"Samwise"];
    /// let mut builder = AhoCorasick::builder();
    /// let standard = builder.build(alloc, patterns)?;
    /// builder.match_kind(MatchKind::LeftmostLongest);
    /// let longest = builder.build(alloc, patterns)?;
    /// let input = Input::new(b"Samwise");
    /// assert_eq!(rt; standard.try_find(input), Ok(Some(Match::must(0, 0..3))));
    /// assert_eq!(rt; longest.try_find(input), Ok(Some(Match::must(1, 0..7))));
    /// ```
    pub fn builder() -> AhoCorasickBuilder
        ensures { result ≡ usual_settings }
    {
        AhoCorasickBuilder::new()
    }
}

impl<A: Allocator> AhoCorasick<A> {
    /// Returns a searcher that an engine serves, which has to support these starts.
    fn new_by(engine: Engine<A>, start_kind: StartKind) -> AhoCorasick<A>
        requires supports { Supports engine start_kind }
        ensures { result ≡ searcher_of engine start_kind }
    {
        AhoCorasick { engine, start_kind }
    }

    /// Returns which engine serves the searcher: the one that was named to the builder, or the one that was chosen.
    /// This ports `AhoCorasick::kind`. See the example of `AhoCorasick`.
    pub fn kind(&self) -> AhoCorasickKind
        ensures { result ≡ self.now.kind }
    {
        self.engine.kind()
    }

    /// Returns whether the searcher supports unanchored searches, anchored ones or both, as its builder was set. This
    /// ports `AhoCorasick::start_kind`. See the example of `AhoCorasick`.
    pub fn start_kind(&self) -> StartKind
        ensures { result ≡ self.now.built.start_kind }
    {
        self.start_kind
    }

    /// Returns the match kind, which decides which of the occurrences in a span a search returns. This ports
    /// `AhoCorasick::match_kind`. See the example of `AhoCorasick`.
    pub fn match_kind(&self) -> MatchKind
        ensures { result ≡ self.now.built.kind }
    {
        self.engine.common().match_kind()
    }

    /// Returns the length of the shortest pattern in bytes, or `usize::MAX` if there are no patterns. This ports
    /// `AhoCorasick::min_pattern_len`.
    ///
    /// It is 0 exactly if some pattern is empty (`laws::shortest_is_empty`). See the example of `AhoCorasick`.
    pub fn min_pattern_len(&self) -> usize
        ensures { result ≡ shortest_len self.now.built.patterns }
    {
        self.engine.common().min_pattern_len()
    }

    /// Returns the length of the longest pattern in bytes, or 0 if there are no patterns. This ports
    /// `AhoCorasick::max_pattern_len`. See the example of `AhoCorasick`.
    pub fn max_pattern_len(&self) -> usize
        ensures { result ≡ longest_len self.now.built.patterns }
    {
        self.engine.common().max_pattern_len()
    }

    /// Returns how many patterns the searcher was built from. This ports `AhoCorasick::patterns_len`.
    ///
    /// Patterns that no search can return count too, such as "Samwise" after "Sam" under `MatchKind::LeftmostFirst`.
    /// See the example of `AhoCorasick`.
    pub fn patterns_len(&self) -> usize
        ensures { result ≡ length self.now.built.patterns }
    {
        self.engine.common().patterns().as_ref().len()
    }

    /// Returns about how many bytes of memory the searcher takes. Nothing is promised about the number. This ports
    /// `AhoCorasick::memory_usage`. See the example of `AhoCorasick`.
    pub fn memory_usage(&self) -> usize {
        self.engine.memory_usage()
    }
}

/// Checks that a start kind supports an anchoring.
///
/// # Errors
/// `InvalidInputAnchored` or `InvalidInputUnanchored` where it doesn't.
#[inline]
fn check_start(start_kind: StartKind, anchored: Anchored) -> Result<(), MatchError>
    ensures { AnswersUnless (start_refusal start_kind anchored) tt result }
{
    match (start_kind, anchored) {
        (StartKind::Unanchored, Anchored::Yes) => Err(MatchError::InvalidInputAnchored),
        (StartKind::Anchored, Anchored::No) => Err(MatchError::InvalidInputUnanchored),
        _ => Ok(()),
    }
}
