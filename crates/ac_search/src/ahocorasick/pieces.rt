//! Searches of texts that come in pieces.
ghost use Rattle.std.specs.Prelude.{◌≡◌};
ghost use Rattle.ac_automaton.specs.Answers.{BeginsStream};
ghost use Rattle.ac_automaton.specs.Pieces.{TakesOn};
ghost use Rattle.ac_automaton.specs.declared.automaton.stream_settled.Phase.TheVariants.{Ended};
ghost use Rattle.ac_search.specs.Searchers.{HasBegunInPieces};

use super::engine::{Engine, EnginePieceFinder, by_engine};
use super::{AhoCorasick, check_start};
use ac_automaton::automaton;
use ac_util::error::StreamError;
use ac_util::search::{Anchored, Match};
use std::alloc::{Allocator, Global};
use std::marker::Model;

impl<A: Allocator> AhoCorasick<A> {
    /// Returns a search of a text that comes in pieces, of which nothing came yet. It shares this searcher's engine, so it may
    /// outlive the searcher, and takes no memory. Upstream has no such search.
    ///
    /// # Errors
    /// `StreamError::Match` with `InvalidInputUnanchored` where the searcher doesn't support unanchored searches, else
    /// with `UnsupportedEmpty` where some pattern is empty; else `StreamError::Memory` where more searches share the engine than
    /// a `usize` counts.
    ///
    /// See the example of `PieceFinder`.
    pub fn try_piece_finder(&self) -> Result<PieceFinder<A>, StreamError>
        ensures { BeginsStream self.now.built (HasBegunInPieces self.now.built) result }
    {
        check_start(self.start_kind, Anchored::No)?;
        let finder =
            by_engine!(Engine, &self.engine, engine => EnginePieceFinder, automaton::PieceFinder::new(engine)?);
        Ok(PieceFinder { finder })
    }
}

/// A search of a text that comes in pieces, made by `AhoCorasick::try_piece_finder`. Its caller hands over one piece after
/// another, and it keeps where it stands and no byte of them: so it suits a program that gets its text from elsewhere, as from a
/// socket or by a callback, where `StreamFinder` reads from a reader.
///
/// The matches are those of the walk over all pieces, as one haystack, however the text is cut; offsets count bytes of the whole
/// text from 0. A match is given once it is settled: under `MatchKind::Standard` when its last byte was taken, under a leftmost kind
/// at most one byte after no byte to come can change it. What was given stays, whatever follows. Contracts see all bytes that were taken,
/// and how many of their matches were given.
///
/// ```
/// let searcher = AhoCorasick::new(alloc, &[b"append", b"app"])?;
/// let mut finder = searcher.try_piece_finder()?;
/// let mut piece = b"append the ap".as_slice();
/// assert_eq!(rt; finder.next(&mut piece), Some(Match::must(1, 0..3)));
/// assert_eq!(rt; piece, b"end the ap".as_slice()); // it is handed over again
/// assert_eq!(rt; finder.next(&mut piece), None); // "ap" may begin a match
/// let mut piece = b"p".as_slice();
/// assert_eq!(rt; finder.next(&mut piece), Some(Match::must(1, 11..14)));
/// finder.end();
/// assert_eq!(rt; (finder.next(&mut piece), finder.settled()), (None, 14));
/// ```
#[derive(Drop)]
pub struct PieceFinder<A: Allocator = Global> {
    finder: EnginePieceFinder<A>,
}

impl<A: Allocator> Model for PieceFinder<A> {
    ghost use Rattle.ac_automaton.specs.Streams.{Streaming};
    ghost use Rattle.ac_search.specs.Engines.{in_pieces};

    ghost Value = { Streaming };

    ghost view = { λ f. in_pieces f.finder };
}

impl<A: Allocator> PieceFinder<A> {
    /// Returns the next match, and takes of the piece what that needs: `piece` is what is left of it then, which is handed over again.
    /// `None` says that the piece was taken whole, and that all matches of what was taken that are settled were given. After the end
    /// nothing is taken.
    ///
    /// No more bytes are taken than a `usize` counts.
    pub fn next(&mut self, piece: &mut &[u8]) -> Option<Match>
        ensures { TakesOn self.old piece.old.now result self.new piece.new.now }
    {
        self.finder.next(piece)
    }

    /// Says that nothing follows. What was given stays, and `next` gives the other matches of what was taken.
    pub fn end(&mut self)
        ensures { self.new ≡ record self.old { phase = Ended } }
    {
        self.finder.end();
    }

    /// Returns up to which offset the text is settled: no match to come begins before it. It is at least the end of the last
    /// match given.
    pub fn settled(&self) -> usize
        ensures { result ≡ self.now.kept }
    {
        self.finder.settled()
    }
}
