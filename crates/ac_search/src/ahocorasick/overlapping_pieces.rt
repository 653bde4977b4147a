//! Overlapping searches of texts that come in pieces.
ghost use Rattle.ac_automaton.specs.OverlappingPieces.{BeginsPieceListing, ListsTaken};
ghost use Rattle.ac_search.specs.Searchers.{HasBegunPieceListing};

use super::engine::{Engine, EngineOverlappingPieceFinder, by_engine};
use super::{AhoCorasick, check_start};
use ac_automaton::automaton;
use ac_util::error::StreamError;
use ac_util::search::{Anchored, Match};
use std::alloc::{Allocator, Global};
use std::marker::Model;

impl<A: Allocator> AhoCorasick<A> {
    /// Returns an overlapping search of a text that comes in pieces, of which nothing came yet. It shares this searcher's engine,
    /// so it may outlive the searcher, and takes no memory. Upstream has no such search.
    ///
    /// # Errors
    /// `StreamError::Match` with `InvalidInputUnanchored` where the searcher doesn't support unanchored searches, else
    /// with `UnsupportedOverlapping` where the match kind isn't `MatchKind::Standard`, else with `UnsupportedEmpty` where some
    /// pattern is empty; else `StreamError::Memory` where more searches share the engine than a `usize` counts.
    ///
    /// See the example of `OverlappingPieceFinder`.
    pub fn try_overlapping_piece_finder(&self) -> Result<OverlappingPieceFinder<A>, StreamError>
        ensures { BeginsPieceListing self.now.built (HasBegunPieceListing self.now.built) result }
    {
        check_start(self.start_kind, Anchored::No)?;
        let finder =
            by_engine!(Engine, &self.engine, engine => EngineOverlappingPieceFinder, automaton::OverlappingPieceFinder::new(engine)?);
        Ok(OverlappingPieceFinder { finder })
    }
}

/// An overlapping search of a text that comes in pieces, made by `AhoCorasick::try_overlapping_piece_finder`. Its caller hands
/// over one piece after another, and it keeps where it stands and no byte of them. `PieceFinder` gives the matches of the walk so.
///
/// The matches are those of `AhoCorasick::find_overlapping_iter` over all pieces, as one haystack, in the same order, however the
/// text is cut; offsets count bytes of the whole text from 0. A match is given as soon as its last byte was taken. What was given
/// stays, whatever follows. Contracts see all bytes that were taken, and how many of their matches were given.
///
/// ```
/// let searcher = AhoCorasick::new(alloc, &[b"append", b"app", b"pen"])?;
/// let mut finder = searcher.try_overlapping_piece_finder()?;
/// let mut piece = b"appe".as_slice();
/// assert_eq!(rt; finder.next(&mut piece), Some(Match::must(1, 0..3)));
/// assert_eq!(rt; piece, b"e".as_slice()); // it is handed over again
/// assert_eq!(rt; finder.next(&mut piece), None); // all of it was taken
/// let mut piece = b"nd".as_slice();
/// assert_eq!(rt; finder.next(&mut piece), Some(Match::must(2, 2..5)));
/// assert_eq!(rt; finder.next(&mut piece), Some(Match::must(0, 0..6)));
/// assert_eq!(rt; finder.next(&mut piece), None);
/// ```
#[derive(Drop)]
pub struct OverlappingPieceFinder<A: Allocator = Global> {
    finder: EngineOverlappingPieceFinder<A>,
}

impl<A: Allocator> Model for OverlappingPieceFinder<A> {
    ghost use Rattle.ac_automaton.specs.OverlappingPieces.{PieceListing};
    ghost use Rattle.ac_search.specs.Engines.{piece_listing_in};

    ghost Value = { PieceListing };

    ghost view = { λ f. piece_listing_in f.finder };
}

impl<A: Allocator> OverlappingPieceFinder<A> {
    /// Returns the next match, and takes of the piece what that needs: `piece` is what is left of it then, which is handed over
    /// again. `None` says that the piece was taken whole, and that all matches of what was taken were given.
    ///
    /// No more bytes are taken than a `usize` counts.
    pub fn next(&mut self, piece: &mut &[u8]) -> Option<Match>
        ensures { ListsTaken self.old piece.old.now result self.new piece.new.now }
    {
        self.finder.next(piece)
    }
}
