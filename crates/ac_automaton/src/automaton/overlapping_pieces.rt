//! The listing of a text that comes in pieces, each of which is handed to it.
ghost use Rattle.std.specs.Prelude.{◌≡◌, ◌≤◌, length};
ghost use Rattle.ac_automaton.specs.Util.{usize_max};
ghost use Rattle.ac_automaton.specs.OverlappingPieces.{BeginsPieceListing, GivesNextTaken, ListsTaken, TakesToItem, listed_taken, nothing_listed};

use super::Automaton;
use super::listing::Reached;
use super::overlap::start_of;
use super::pieces::SharedCore;
use super::scan::Cursor;
use ac_util::error::{MatchError, StreamError};
use ac_util::history::History;
use ac_util::search::{Anchored, Match};
use ac_util::tally::Tally;
use std::alloc::Allocator;
use std::marker::Model;
use std::sync::Arc;

/// An overlapping search of a text that comes in pieces: its caller hands over each piece, and it keeps where it stands and no
/// byte of them.
///
/// The matches are those of the listing of all pieces, as one haystack, however the text is cut. A match is given as soon as its
/// last byte was taken. The search shares its automaton and takes no memory after it was made. Contracts see all bytes that were
/// taken, and how many of their matches were given.
///
/// See the example of `OverlappingPieceFinder` of `ac_search`.
#[derive(Drop)]
pub struct OverlappingPieceFinder<A: Automaton + Drop, Z: Allocator> {
    shared: SharedCore<A, Z>,
    /// How many bytes were taken, and which matches are left of the state to which they have led.
    reached: Reached,
    given: Tally,
    history: History,
}

impl<A: Automaton + Drop, Z: Allocator> Model for OverlappingPieceFinder<A, Z> {
    ghost use Rattle.ac_automaton.specs.OverlappingPieces.{IsPieceListing, PieceListing, piece_listing};

    ghost Value = { PieceListing };

    ghost view = { λ f. piece_listing (A.seen f.shared.automaton.value).built f.history.bytes f.given.number };

    ghost invariant = { λ f. IsPieceListing (A.seen f.shared.automaton.value) f.shared.stops f.reached
        (piece_listing (A.seen f.shared.automaton.value).built f.history.bytes f.given.number) };
}

impl<A: Automaton + Drop, Z: Allocator> OverlappingPieceFinder<A, Z> {
    /// Returns a search of a text of which nothing came yet.
    ///
    /// # Errors
    /// `StreamError::Match` with `InvalidInputUnanchored` where the automaton has no unanchored start, else with
    /// `UnsupportedOverlapping` where its match kind isn't `MatchKind::Standard`, else with `UnsupportedEmpty` where some
    /// pattern is empty; else `StreamError::Memory` where there are more of them than a `usize` counts.
    pub fn new(automaton: &Arc<A, Z>) -> Result<OverlappingPieceFinder<A, Z>, StreamError>
        ensures { let b = (A.seen automaton.now.value).built in BeginsPieceListing b (λ f. f ≡ nothing_listed b) result }
    {
        let lent = automaton.as_ref();
        let start = start_of(lent, Anchored::No)?;
        if lent.min_pattern_len() == 0 {
            return Err(StreamError::Match(MatchError::UnsupportedEmpty));
        }
        Ok(OverlappingPieceFinder {
            shared: SharedCore::of(automaton, start, true)?,
            reached: Reached::new(start, 0),
            given: Tally::zero(),
            history: History::empty(),
        })
    }

    /// Returns the next match, and takes of the piece what that needs: `piece` is what is left of it then. `None` says that the
    /// piece was taken whole, and that all matches of what was taken were given.
    ///
    /// No more bytes are taken than a `usize` counts.
    pub fn next(&mut self, piece: &mut &[u8]) -> Option<Match>
        ensures { ListsTaken self.old piece.old.now result self.new piece.new.now }
    {
        if let Some(found) = self.take_due() {
            return Some(found);
        }
        self.read_on(piece);
        self.take_due()
    }

    /// Returns the next match that is left of the state where the automaton stands, or `None` where none is.
    fn take_due(&mut self) -> Option<Match>
        ensures gives { GivesNextTaken self.old result self.new }
        ensures small { length self.new.bytes ≤ usize_max }
    {
        let scanner = self.shared.core().scanner(true, self.reached.at);
        let found = scanner.take_due(&mut self.reached)?;
        self.given = Tally::after(&self.given);
        Some(found)
    }

    /// Reads on in a piece up to a state with matches, and takes what it has read. All matches were given that end before.
    fn read_on(&mut self, piece: &mut &[u8])
        requires given { self.old.given ≡ length (listed_taken self.old) }
        ensures { TakesToItem self.old piece.old.now self.new piece.new.now }
    {
        let most = piece.len().min(usize::MAX - self.reached.at);
        if most == 0 {
            return;
        }
        let mut here = Cursor {
            state: self.reached.state,
            at: 0,
        };
        self.shared.core().read_through(&piece[..most], &mut here);
        self.history = History::with(&self.history, &piece[..here.at]);
        *piece = &piece[here.at..];
        self.reached = Reached::new(here.state, self.reached.at + here.at);
    }
}
