//! The search of a text that comes in pieces, each of which is handed to it.
ghost use Rattle.std.specs.Prelude.{◌≡◌, ◌++◌, false, IfOk, IfSome};
ghost use Rattle.ac_automaton.specs.Util.{No};
ghost use Rattle.ac_automaton.specs.Answers.{BeginsStream};
ghost use Rattle.ac_automaton.specs.Automata.{IsLiveState};
ghost use Rattle.ac_automaton.specs.Commits.{HasCommits};
ghost use Rattle.ac_automaton.specs.Pieces.{TakesOn, hand_bytes, most_of, no_pieces};
ghost use Rattle.ac_automaton.specs.Reads.{in_hand};
ghost use Rattle.ac_automaton.specs.StreamInside.{ReadsThrough};
ghost use Rattle.ac_automaton.specs.declared.automaton.stream_settled.Phase.TheVariants.{Ended};

use super::Automaton;
use super::commits::Commits;
use super::onward::{ChainRest, Core, chain_rest, match_ending, take_next};
use super::scan::Cursor;
use super::stream_settled::{Phase, most_kept, settled_from};
use ac_util::error::{MatchError, StreamError};
use ac_util::history::{History, Remembered};
use ac_util::looks::Looks;
use ac_util::primitives::StateID;
use ac_util::search::{Anchored, Match, MatchKind};
use ac_util::tally::Tally;
use std::alloc::{AllocError, Allocator};
use std::marker::Model;
use std::sync::Arc;

/// A search of a text that comes in pieces: its caller hands over each piece, and it keeps where it stands and no byte of them.
///
/// The matches are those of the walk over all pieces, as one haystack, however the text is cut. A match is given once it is
/// settled, as `StreamFinder` gives it. The search shares its automaton and takes no memory after it was made. Contracts see all bytes
/// that were taken, and how many of their matches were given.
///
/// See the example of `PieceFinder` of `ac_search`.
#[derive(Drop)]
pub struct PieceFinder<A: Automaton + Drop, Z: Allocator> {
    shared: SharedCore<A, Z>,
    /// How many bytes a match to come may need.
    reserve: usize,
    state: StateID,
    /// How many bytes it has followed.
    read: usize,
    /// The byte after these, where it was taken and leads to the dead state.
    byte: Option<u8>,
    /// The matches of a chain that are still to be given.
    rest: Option<ChainRest>,
    /// From where on a match to come may begin.
    kept: usize,
    phase: Phase,
    /// Where the last match given ended.
    begun: Remembered<usize>,
    given: Tally,
    history: History,
}

impl<A: Automaton + Drop, Z: Allocator> Model for PieceFinder<A, Z> {
    ghost use Rattle.ac_automaton.specs.Pieces.{IsFed, inside_of};
    ghost use Rattle.ac_automaton.specs.Streams.{Streaming, streaming_by};

    ghost Value = { Streaming };

    ghost view = { λ f. streaming_by (A.seen f.shared.automaton.value).built f.history.bytes f.given.number 0 f.kept f.phase 0 };

    ghost invariant = { λ f. IsFed (A.seen f.shared.automaton.value) f.shared.commits.value
        (inside_of f.shared.start f.shared.stops f.reserve f.history.bytes f.state f.read f.rest f.begun.value) f.byte
        (streaming_by (A.seen f.shared.automaton.value).built f.history.bytes f.given.number 0 f.kept f.phase 0) };
}

impl<A: Automaton + Drop, Z: Allocator> PieceFinder<A, Z> {
    /// Returns a search of a text of which nothing came yet.
    ///
    /// # Errors
    /// `StreamError::Match` with `InvalidInputUnanchored` where the automaton has no unanchored start, else with
    /// `UnsupportedEmpty` where some pattern is empty; else `StreamError::Memory` where there are more of them than a `usize`
    /// counts.
    pub fn new(automaton: &Arc<A, Z>) -> Result<PieceFinder<A, Z>, StreamError>
        ensures { let b = (A.seen automaton.now.value).built in BeginsStream b (λ f. f ≡ no_pieces b) result }
    {
        let lent = automaton.as_ref();
        let start = lent.start_state(Anchored::No)?;
        if lent.min_pattern_len() == 0 {
            return Err(StreamError::Match(MatchError::UnsupportedEmpty));
        }
        let longest = lent.max_pattern_len();
        let stops = matches!(lent.match_kind(), MatchKind::Standard);
        Ok(PieceFinder {
            shared: SharedCore::of(automaton, start, stops)?,
            reserve: most_kept(stops, longest),
            state: start,
            read: 0,
            byte: None,
            rest: None,
            kept: 0,
            phase: Phase::Open,
            begun: Remembered::of(&0),
            given: Tally::zero(),
            history: History::empty(),
        })
    }

    /// Says that nothing follows. What was given stays, and `next` gives the other matches of what was taken.
    pub fn end(&mut self)
        ensures { self.new ≡ record self.old { phase = Ended } }
    {
        self.phase = Phase::Ended;
    }

    /// Returns up to which offset the text is settled: no match to come begins before it.
    pub fn settled(&self) -> usize
        ensures { result ≡ self.now.kept }
    {
        self.kept
    }

    /// Returns the next match, and takes of the piece what that needs: `piece` is what is left of it then. `None` says that the piece
    /// was taken whole, and that all matches of what was taken that are settled were given. After the end nothing is taken.
    ///
    /// No more bytes are taken than a `usize` counts.
    pub fn next(&mut self, piece: &mut &[u8]) -> Option<Match>
        ensures { TakesOn self.old piece.old.now result self.new piece.new.now }
    {
        let core = self.shared.core();
        if let Some(found) = take_next(core.automaton, core.commits.chains(), &mut self.rest) {
            self.begun = Remembered::of(&found.end());
            self.given = Tally::after(&self.given);
            self.kept = found.end();
            return Some(found);
        }
        let held = in_hand(self.byte);
        let most = most_of(self.phase, self.read + held, piece.len());
        let mut here = Cursor {
            state: self.state,
            at: 0,
        };
        let byte = core.read_after(self.byte, &piece[..most], &mut here);
        let taken = here.at + in_hand(byte) - held;
        self.history = History::with(&self.history, &piece[..taken]);
        *piece = &piece[taken..];
        self.read += here.at;
        self.byte = byte;
        let Some(given) = core.given_settled(here.state, byte, self.phase) else {
            self.state = here.state;
            self.kept = settled_from(self.phase, self.kept, self.read, self.reserve);
            return None;
        };
        let end = self.read - given.rest;
        self.state = given.next;
        self.rest = chain_rest(given.chain, end);
        self.begun = Remembered::of(&end);
        self.given = Tally::after(&self.given);
        self.kept = end;
        Some(match_ending(core.automaton, given.pattern, end))
    }
}

/// What a core is made of that a search shares: its automaton with the commits, the state at which it begins, and whether it stops at
/// a match.
#[derive(Drop)]
pub(super) struct SharedCore<A: Automaton + Drop, Z: Allocator> {
    pub(super) automaton: Arc<A, Z>,
    pub(super) commits: Arc<Commits<A::Memory>, A::Memory>,
    pub(super) start: StateID,
    pub(super) stops: bool,
}

impl<A: Automaton + Drop, Z: Allocator> SharedCore<A, Z> {
    /// Returns what an automaton's core is made of that begins at a state, and stops at a match or not.
    ///
    /// # Errors
    /// `AllocError` where more of them share the automaton than a `usize` counts.
    pub(super) fn of(
        automaton: &Arc<A, Z>,
        start: StateID,
        stops: bool,
    ) -> Result<SharedCore<A, Z>, AllocError>
        ensures automaton { IfOk result (λ core. core.automaton.value ≡ automaton.now.value) }
        ensures commits { IfOk result (λ core. HasCommits (A.seen automaton.now.value) core.commits.value) }
        ensures start { IfOk result (λ core. core.start ≡ start) }
        ensures stops { IfOk result (λ core. core.stops ≡ stops) }
    {
        Ok(SharedCore {
            automaton: automaton.clone()?,
            commits: automaton.as_ref().shared_commits().clone()?,
            start,
            stops,
        })
    }

    /// Returns the core, which skips nothing.
    #[inline]
    pub(super) fn core(&self) -> Core<'_, A>
        ensures automaton { result.automaton.now ≡ self.now.automaton.value }
        ensures commits { result.commits.now ≡ self.now.commits.value }
        ensures start { result.start ≡ self.now.start }
        ensures stops { result.stops ≡ self.now.stops }
    {
        Core {
            automaton: self.automaton.as_ref(),
            commits: self.commits.as_ref(),
            start: self.start,
            stops: self.stops,
            prefilter: None,
        }
    }
}

/// Returns how many bytes are in hand.
#[inline]
fn in_hand(byte: Option<u8>) -> usize
    ensures { result ≡ in_hand byte }
{
    match byte {
        Some(_) => 1,
        None => 0,
    }
}

/// Returns how many bytes are taken of so many at most where so many came: all, as far as a `usize` counts them, and none
/// after the end.
fn most_of(phase: Phase, before: usize, len: usize) -> usize
    ensures { result ≡ most_of phase before len }
{
    match phase {
        Phase::Open => len.min(usize::MAX - before),
        Phase::Ended | Phase::Failed => 0,
    }
}

impl<'a, A: Automaton> Core<'a, A> {
    ghost use Rattle.ac_automaton.specs.Cores.{scan_by};

    /// Reads on by the byte in hand and then in some bytes, as `read_through` does in all of them.
    fn read_after(&self, hand: Option<u8>, bytes: &[u8], cursor: &mut Cursor) -> Option<u8>
        requires alive { IsLiveState ((A.seen self.now.automaton.now).stands No) cursor.old.state }
        requires past { IfSome hand (λ b. self.now.stops ≡ false) }
        requires begins { cursor.old.at ≡ 0 }
        ensures { ReadsThrough (scan_by A.seen self.now) (hand_bytes hand ++ bytes.now) cursor.old cursor.new result }
    {
        let Some(byte) = hand else {
            return self.read_through(bytes, cursor);
        };
        let next = self
            .automaton
            .next_state(Anchored::No, cursor.state, byte, &mut Looks::new());
        if self.automaton.is_dead(next) {
            return hand;
        }
        cursor.state = next;
        let dead = self.read_through(bytes, cursor);
        cursor.at += 1;
        dead
    }
}
