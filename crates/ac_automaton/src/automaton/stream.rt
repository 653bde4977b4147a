//! The search of a stream: what a reader gives is read into a buffer, and its matches are returned one after another.
ghost use Rattle.std.specs.Prelude.{◌≡◌, ◌≢◌, ◌≤◌, ◌<◌, ◌+◌, ◌-◌, [], None, Some, drop, false, true, length, slice_range, take, MatchOption, MatchResult};
ghost use Rattle.ac_automaton.specs.Util.{is_leftmost, IsNear, No, Reads, Standard};
ghost use Rattle.ac_automaton.specs.Answers.{BeginsStream};
ghost use Rattle.ac_automaton.specs.Automata.{IsLiveState, IsState};
ghost use Rattle.ac_automaton.specs.Commits.{AreCommits, reads_on};
ghost use Rattle.ac_automaton.specs.declared.automaton.stream_settled.Phase.TheVariants.{Ended, Failed, Open};
ghost use Rattle.ac_automaton.specs.StreamInside.{GivesSettled, ReadsThrough};
ghost use Rattle.ac_automaton.specs.Streams.{Fills, GivesRead, IsAllGiven, Streams, kept_len, initial_stream, on, HasGivenLast, GivesMatch};

use super::Automaton;
use super::onward::{ChainRest, Core, Given, byte_of, chain_rest, match_ending, take_next};
use super::scan::Cursor;
use super::stream_settled::{Phase, buffer_len, most_kept, settled_from};
use ac_util::device::Source;
use ac_util::error::{MatchError, StreamError};
use ac_util::history::{History, Remembered};
use ac_util::looks::open;
use ac_util::primitives::StateID;
use ac_util::search::{Anchored, Input, Match, MatchKind};
use ac_util::tally::Tally;
use std::alloc::Allocator;
use std::io;
use std::marker::Model;

/// A search of a stream whose reader is handed to each call. `StreamFindIter` has its own reader.
///
/// The matches are those of the walk over all bytes that the readers gave, however they cut them. A match is returned
/// once it is settled, which means that the search has seen that no byte to come can change it: under
/// `MatchKind::Standard` when it is found, under a leftmost kind at most one byte after that is so. Some bytes after
/// the match may have been read by then: the automaton's commits say what lies in these, so that only the last of them
/// is read again.
///
/// What was read is in one buffer, which is made at first and never grows: it is read into as far as it has room, and
/// the bytes that a match to come may need are moved to its front only when it is full. Contracts see all bytes that
/// were read, and how many of their matches were returned.
///
/// See the example of `StreamFinder` of `ac_search`.
#[derive(Drop)]
pub struct StreamFinder<'a, A: Automaton, Z: Allocator> {
    core: Core<'a, A>,
    /// How many bytes may be kept back.
    reserve: usize,
    buffer: Vec<u8, Z>,
    /// How many bytes of the buffer are filled.
    filled: usize,
    /// Where in the stream the buffer begins.
    front: usize,
    /// From where in the stream on bytes are kept.
    kept: usize,
    state: StateID,
    /// Up to where the buffer was searched.
    at: usize,
    /// The matches of a chain that are still to be given.
    rest: Option<ChainRest>,
    phase: Phase,
    /// Where in the stream the last match given ended.
    begun: Remembered<usize>,
    given: Tally,
    history: History,
}

impl<'a, A: Automaton, Z: Allocator> Model for StreamFinder<'a, A, Z> {
    ghost use Rattle.std.specs.Prelude.{length};
    ghost use Rattle.ac_automaton.specs.StreamInside.{IsSearching};
    ghost use Rattle.ac_automaton.specs.Streams.{Streaming, streaming_by};

    ghost Value = { Streaming };

    ghost view = { λ f. streaming_by (A.seen f.core.automaton.now).built f.history.bytes f.given.number f.front f.kept f.phase
        (length f.buffer.items) };

    ghost invariant = { λ f. IsSearching (A.seen f.core.automaton.now) f.core.commits.now
        (record {
          start = f.core.start;
          stops = f.core.stops;
          reserve = f.reserve;
          buffer = f.buffer.items;
          filled = f.filled;
          state = f.state;
          at = f.at;
          rest = f.rest;
          begun = f.begun.value;
        })
        (streaming_by (A.seen f.core.automaton.now).built f.history.bytes f.given.number f.front f.kept f.phase
        (length f.buffer.items)) };
}

impl<'a, A: Automaton, Z: Allocator> StreamFinder<'a, A, Z> {
    /// Returns a search of a stream from which nothing was read yet, and makes its buffer.
    ///
    /// # Errors
    /// `StreamError::Match` with `InvalidInputUnanchored` where the automaton has no unanchored start, else with
    /// `UnsupportedEmpty` where some pattern is empty; else `StreamError::Memory` where the memory for the buffer is
    /// refused.
    pub fn new(automaton: &'a A, alloc: Z) -> Result<StreamFinder<'a, A, Z>, StreamError>
        ensures { let b = (A.seen automaton.now).built in BeginsStream b (λ f. f ≡ initial_stream b) result }
    {
        let start = automaton.start_state(Anchored::No)?;
        if automaton.min_pattern_len() == 0 {
            return Err(StreamError::Match(MatchError::UnsupportedEmpty));
        }
        let longest = automaton.max_pattern_len();
        let stops = matches!(automaton.match_kind(), MatchKind::Standard);
        let mut buffer = Vec::new(alloc);
        buffer.resize(buffer_len(longest), 0)?;
        Ok(StreamFinder {
            core: Core {
                automaton,
                commits: automaton.commits(),
                start,
                stops,
                prefilter: None,
            },
            reserve: most_kept(stops, longest),
            buffer,
            filled: 0,
            front: 0,
            kept: 0,
            state: start,
            at: 0,
            rest: None,
            phase: Phase::Open,
            begun: Remembered::of(&0),
            given: Tally::zero(),
            history: History::empty(),
        })
    }

    /// Returns the size of the buffer in bytes: 65,536, or eight times the length of the longest pattern if that is
    /// more.
    pub fn buffer_len(&self) -> usize
        ensures { result ≡ self.now.buffer }
    {
        self.buffer.len()
    }

    /// Returns how many bytes of the stream are kept: all that were read from the end of the last returned match on.
    /// Once all settled matches of what was read were returned, only as many of these are kept as a match to come may
    /// need. After an error they are no more than the longest pattern has, and after the end there are none: then no
    /// other byte of the stream is left in the buffer.
    pub fn kept_len(&self) -> usize
        ensures { result ≡ kept_len self.now }
    {
        self.front + self.filled - self.kept
    }

    /// Returns from where in the stream on bytes are kept: the end of the last match that was given, or further on.
    pub(super) fn kept(&self) -> usize
        ensures kept { result ≡ self.now.kept }
        ensures in_buffer { self.now.front ≤ self.now.kept }
        ensures within { self.now.kept ≤ length self.now.bytes }
    {
        self.kept
    }

    /// Returns the bytes of the stream from one offset up to another, as they stand in the buffer.
    pub(super) fn bytes(&self, from: usize, to: usize) -> &[u8]
        requires in_buffer { self.now.front ≤ from }
        requires ordered { from ≤ to }
        requires within { to ≤ length self.now.bytes }
        ensures { result.now ≡ slice_range self.now.bytes from to }
    {
        &self.buffer[from - self.front..to - self.front]
    }

    /// Returns the next match of the bytes that were read, without reading on. `None` says that all their matches that
    /// are settled were returned. After an error it returns `None`.
    // Its loop is slower where it becomes a part of its caller's.
    #[inline(never)]
    pub fn next_read(&mut self) -> Option<Match>
        ensures { GivesRead self.old result self.new }
    {
        if matches!(self.phase, Phase::Failed) {
            return None;
        }
        let chains = self.core.commits.chains();
        if let Some(found) = take_next(self.core.automaton, chains, &mut self.rest) {
            self.begun = Remembered::of(&found.end());
            self.given = Tally::after(&self.given);
            self.kept = found.end();
            return Some(found);
        }
        let mut here = Cursor {
            state: self.state,
            at: self.at,
        };
        let byte = self
            .core
            .read_through(&self.buffer[..self.filled], &mut here);
        self.at = here.at;
        let read = self.front + here.at;
        let Some(given) = self.core.given_settled(here.state, byte, self.phase) else {
            self.state = here.state;
            self.kept = settled_from(self.phase, self.kept, read, self.reserve);
            return None;
        };
        let end = read - given.rest;
        self.state = given.next;
        self.rest = chain_rest(given.chain, end);
        self.begun = Remembered::of(&end);
        self.given = Tally::after(&self.given);
        self.kept = end;
        Some(match_ending(self.core.automaton, given.pattern, end))
    }

    /// Reads more bytes into the buffer, and returns whether some came: else the end was met. All matches of what was read that
    /// are settled have to be given.
    ///
    /// # Errors
    /// `Io` where the read failed, and `TooLong` where more bytes have come than a `usize` counts: its bytes aren't searched.
    pub(super) fn fill<R: Source>(&mut self, reader: &mut R) -> Result<bool, StreamError>
        requires goes_on { self.old.phase ≡ Open }
        requires settled { IsAllGiven self.old }
        ensures { Fills R.empty_means_end (on R.told self.old reader.old) result (on R.told self.new reader.new) }
    {
        self.make_room();
        match read_after(reader, &mut self.buffer, self.filled) {
            Ok(0) => {
                self.close(Phase::Ended);
                Ok(false)
            }
            Ok(n) if self.front + self.filled <= usize::MAX - n => {
                let more = &self.buffer[self.filled..self.filled + n];
                self.history = History::with(&self.history, more);
                self.filled += n;
                Ok(true)
            }
            Ok(_) => {
                self.close(Phase::Failed);
                Err(StreamError::TooLong)
            }
            Err(e) => {
                self.close(Phase::Failed);
                Err(StreamError::Io(e))
            }
        }
    }

    /// Moves the bytes that are kept to the front of the buffer where it is full.
    fn make_room(&mut self)
        requires goes_on { self.old.phase ≡ Open }
        requires near { IsNear self.old.built self.old.bytes self.old.kept }
        ensures same { self.new ≡ record self.old { front = self.new.front } }
        ensures room { length self.new.bytes < self.new.front + self.new.buffer }
    {
        if self.filled == self.buffer.len() {
            self.move_kept();
        }
    }

    /// Moves the bytes that are kept to the front of the buffer.
    fn move_kept(&mut self)
        requires goes_on { self.old.phase ≡ Open }
        ensures { self.new ≡ record self.old { front = self.old.kept } }
    {
        let from = self.kept - self.front;
        self.buffer.copy_within(from..self.filled, 0);
        self.filled -= from;
        self.at -= from;
        self.front = self.kept;
    }

    /// Closes the stream: nothing is read any more. Of its bytes those that are kept are left in the buffer, and no others.
    fn close(&mut self, phase: Phase)
        requires goes_on { self.old.phase ≡ Open }
        requires settled { IsAllGiven self.old }
        requires closed { phase ≢ Open }
        ensures { self.new ≡ record self.old { front = self.old.kept; phase = phase } }
    {
        self.move_kept();
        let filled = self.filled;
        self.buffer[filled..].fill(0);
        self.phase = phase;
    }

    /// Clears what is left in the buffer, once the end was met and no byte is kept.
    fn clear(&mut self)
        requires ended { self.old.phase ≡ Ended }
        requires none { self.old.kept ≡ length self.old.bytes }
        ensures { self.new ≡ record self.old { front = self.old.kept } }
    {
        if self.front == self.kept {
            return;
        }
        self.buffer.fill(0);
        self.front = self.kept;
        self.filled = 0;
        self.at = 0;
    }

    /// Returns the next match of the stream, and reads on as far as that needs.
    ///
    /// After the end of the stream, once all matches were returned, it keeps returning `None`, and so it does after an
    /// error; the reader isn't called again.
    ///
    /// # Errors
    /// `Io` where a read failed, and `TooLong` where more bytes came than a `usize` counts. All matches of the bytes
    /// read before it that are settled were returned by then.
    pub fn next<R: Source>(&mut self, reader: &mut R) -> Option<Result<Match, StreamError>>
        ensures { Streams R.empty_means_end (on R.told self.old reader.old) result (on R.told self.new reader.new) }
    {
        match self.phase {
            Phase::Open => {}
            Phase::Ended => return self.next_at_end(),
            Phase::Failed => return None,
        }
        loop {
            if let Some(found) = self.next_read() {
                return Some(Ok(found));
            }
            match self.fill(reader) {
                Ok(true) => {}
                Ok(false) => return self.next_at_end(),
                Err(e) => return Some(Err(e)),
            }
        }
    }

    /// Returns the next match once the end was met: nothing is left to read.
    fn next_at_end(&mut self) -> Option<Result<Match, StreamError>>
        requires ended { self.old.phase ≡ Ended }
        ensures { MatchOption result (HasGivenLast self.old self.new)
            (λ item. MatchResult item (λ m. GivesMatch self.old m self.new) (λ e. ⊥)) }
    {
        match self.next_read() {
            Some(found) => Some(Ok(found)),
            None => {
                self.clear();
                None
            }
        }
    }
}

/// Reads into a buffer after its first bytes, which stay as they are.
fn read_after<R: Source>(reader: &mut R, buffer: &mut [u8], filled: usize) -> io::Result<usize>
    requires inside { filled ≤ length buffer.old }
    ensures long { length buffer.new ≡ length buffer.old }
    ensures keeps { take filled buffer.new ≡ take filled buffer.old }
    ensures by { Reads R.empty_means_end (R.told reader.old) (R.told reader.new) result (drop filled buffer.new) }
{
    reader.read_some(&mut buffer[filled..])
}

impl<'a, A: Automaton> Core<'a, A> {
    ghost use Rattle.ac_automaton.specs.Cores.{IsCore, scan_by};

    /// Reads on in some bytes up to their end, or as far as `Scanner::read` does.
    pub(super) fn read_through(&self, bytes: &[u8], cursor: &mut Cursor) -> Option<u8>
        requires alive { IsLiveState ((A.seen self.now.automaton.now).stands No) cursor.old.state }
        ensures { ReadsThrough (scan_by A.seen self.now) bytes.now cursor.old cursor.new result }
    {
        let (mut tape, mut looks) = open(&Input::new(bytes));
        if self.stops {
            let scanner = self.scanner(true, bytes.len());
            return byte_of(scanner.read(cursor, &mut tape, &mut looks));
        }
        let scanner = self.scanner(false, bytes.len());
        byte_of(scanner.read(cursor, &mut tape, &mut looks))
    }

    /// Returns what is given that leaves a state, if that is settled: where the search stops at a match, a byte was read that
    /// leads to the dead state, or the stream has ended.
    pub(super) fn given_settled(
        &self,
        state: StateID,
        byte: Option<u8>,
        phase: Phase,
    ) -> Option<Given>
        requires core { IsCore (A.seen self.now.automaton.now) self.now.commits.now self.now.start self.now.stops }
        requires state { IsState ((A.seen self.now.automaton.now).stands No) state }
        ensures { GivesSettled A.seen self.now state (byte, phase) result }
    {
        if self.stops || byte.is_some() || matches!(phase, Phase::Ended) {
            self.given_at(state)
        } else {
            None
        }
    }
}
