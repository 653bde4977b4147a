//! A search of a text in pieces, which writes matches to a slice.
ghost use Rattle.std.specs.Prelude.{◌≡◌, false};
ghost use Rattle.ac_search.specs.Built.{stream_refusal};
ghost use Rattle.ac_search.specs.OverlappingPieces.{piece_listing_refusal};
ghost use Rattle.ac_c.specs.declared.stream.search.PieceSearch.TheVariants.{Listing, Walk};
ghost use Rattle.ac_c.specs.Streams.{AnswersBegun, TakesNext, TakesAndWrites, ended_stream, piece_mode};

use crate::search::FoundMatch;
use ac_search::{AhoCorasick, Match, OverlappingPieceFinder, PieceFinder, StreamError};
use std::alloc::Global;
use std::marker::Model;

/// What is searched for.
#[derive(Drop)]
pub enum PieceSearch {
    /// The matches of a walk.
    Walk(PieceFinder<Global>),
    /// All occurrences.
    Listing(OverlappingPieceFinder<Global>),
}

/// A search of a text in pieces. It shares the engine of its searcher.
#[derive(Drop)]
pub struct Stream {
    search: PieceSearch,
    /// Whether it was said that nothing follows.
    ended: bool,
}

impl Model for Stream {
    ghost use Rattle.std.specs.Prelude.{◌≡◌, false};
    ghost use Rattle.ac_c.specs.Streams.{Feeding, TakesMore, feeding_by};

    ghost Value = { Feeding };

    ghost view = { λ s. feeding_by s.search s.ended };

    ghost invariant = { λ s. s.ended ≡ false → TakesMore s.search };
}

impl PieceSearch {
    /// Returns the next match, and takes of the piece what that needs.
    fn next(&mut self, piece: &mut &[u8]) -> Option<Match>
        ensures { TakesNext self.old piece.old.now result self.new piece.new.now }
    {
        match self {
            PieceSearch::Walk(finder) => walk_on(finder, piece),
            PieceSearch::Listing(finder) => list_on(finder, piece),
        }
    }
}

/// Returns the next match of a walk.
fn walk_on(finder: &mut PieceFinder<Global>, piece: &mut &[u8]) -> Option<Match>
    ensures { TakesNext (Walk finder.old) piece.old.now result (Walk finder.new) piece.new.now }
{
    finder.next(piece)
}

/// Returns the next occurrence of a listing.
fn list_on(finder: &mut OverlappingPieceFinder<Global>, piece: &mut &[u8]) -> Option<Match>
    ensures { TakesNext (Listing finder.old) piece.old.now result (Listing finder.new) piece.new.now }
{
    finder.next(piece)
}

impl Stream {
    /// Returns a walk of a text of which nothing came yet.
    ///
    /// # Errors
    /// Those of `AhoCorasick::try_piece_finder`.
    pub fn walk(searcher: &AhoCorasick<Global>) -> Result<Stream, StreamError>
        ensures { AnswersBegun searcher.now.built 0 (stream_refusal searcher.now.built) result }
    {
        let finder = searcher.try_piece_finder()?;
        Ok(Stream {
            search: PieceSearch::Walk(finder),
            ended: false,
        })
    }

    /// Returns a listing of a text of which nothing came yet.
    ///
    /// # Errors
    /// Those of `AhoCorasick::try_overlapping_piece_finder`.
    pub fn listing(searcher: &AhoCorasick<Global>) -> Result<Stream, StreamError>
        ensures { AnswersBegun searcher.now.built 1 (piece_listing_refusal searcher.now.built) result }
    {
        let finder = searcher.try_overlapping_piece_finder()?;
        Ok(Stream {
            search: PieceSearch::Listing(finder),
            ended: false,
        })
    }

    /// Returns the number of what is searched for: 0 for a walk, 1 for a listing.
    pub fn mode(&self) -> u32
        ensures { result ≡ piece_mode self.now.search }
    {
        match &self.search {
            PieceSearch::Walk(_) => 0,
            PieceSearch::Listing(_) => 1,
        }
    }

    /// Returns whether it was said that nothing follows.
    pub fn is_ended(&self) -> bool
        ensures { result ≡ self.now.ended }
    {
        self.ended
    }

    /// Says that nothing follows.
    pub fn end(&mut self)
        ensures { self.new ≡ ended_stream self.old }
    {
        match &mut self.search {
            PieceSearch::Walk(finder) => finder.end(),
            PieceSearch::Listing(_) => {}
        }
        self.ended = true;
    }

    /// Writes the next matches to `out`, and takes of the piece what these need. Returns how many matches it wrote: fewer than `out` has
    /// room for only where the piece was taken whole and no more are settled.
    pub fn write(&mut self, piece: &mut &[u8], out: &mut [FoundMatch]) -> usize
        ensures { TakesAndWrites self.old piece.old.now out.old out.new result self.new piece.new.now }
    {
        for filled in 0..out.len() {
            match self.search.next(piece) {
                Some(found) => out[filled] = FoundMatch::of(found),
                None => return filled,
            }
        }
        out.len()
    }
}
