//! The iterator over the matches of what a reader gives.
ghost use Rattle.std.specs.Prelude.{◌≡◌};
ghost use Rattle.std.specs.Iterator.{at_most};
ghost use Rattle.ac_automaton.specs.Streams.{Streams, items_left, kept_len, GivesRead};

use super::stream::StreamFinder;
use ac_util::device::Source;
use ac_util::error::StreamError;
use ac_util::search::Match;
use std::alloc::{Allocator, Global};
use std::marker::Model;

/// An iterator over the matches of all bytes that a reader gives, made by `AhoCorasick::stream_find_iter`.
///
/// The matches are those of the walk over all these bytes, however the reads cut them; offsets count bytes of the whole
/// stream from 0. An item is `Io` where a read failed, and `TooLong` where more bytes came than a `usize` counts. The
/// first error is the last item: after an error, as after the end, it keeps returning `None`, and the reader isn't
/// called again. Before each read all matches of the bytes read so far that are settled were returned.
///
/// ```
/// let searcher = AhoCorasick::new(alloc, &[b"append", b"app"])?;
/// let mut matches = searcher.stream_find_iter(alloc, Bytes::new(b"append the app"))?;
/// assert_eq!(rt; matches.next_read(), None); // nothing was read yet
/// assert_eq!(rt; matches.next().transpose()?, Some(Match::must(1, 0..3)));
/// assert_eq!(rt; (matches.kept_len(), matches.buffer_len()), (11, 65_536)); // "end the app" is kept
/// assert_eq!(rt; matches.next_read(), Some(Match::must(1, 11..14)));
/// assert!(rt; matches.next().is_none());
/// ```
#[derive(Drop)]
pub struct StreamFindIter<'a, R: Source + Drop, A: Allocator = Global, Z: Allocator = Global> {
    pub(super) finder: StreamFinder<'a, A, Z>,
    pub(super) reader: R,
}

impl<'a, R: Source + Drop, A: Allocator, Z: Allocator> Model for StreamFindIter<'a, R, A, Z> {
    ghost use Rattle.ac_automaton.specs.Streams.{StreamReading};

    ghost Value = { StreamReading };

    ghost view = { λ s. record { stream = s.finder; reader = R.told s.reader } };
}

impl<'a, R: Source + Drop, A: Allocator, Z: Allocator> StreamFindIter<'a, R, A, Z> {
    /// Returns the next match of the bytes that were read, without reading on. `None` says that all their matches that
    /// are settled were returned.
    pub fn next_read(&mut self) -> Option<Match>
        ensures { GivesRead self.old.stream result self.new.stream × (self.new.reader ≡ self.old.reader) }
    {
        self.finder.next_read()
    }

    /// Returns how many bytes of the stream are kept: all that were read from the end of the last returned match on.
    /// Once all settled matches of what was read were returned, only as many of these are kept as a match to come may
    /// need. After an error they are no more than the longest pattern has, and after the end there are none.
    pub fn kept_len(&self) -> usize
        ensures { result ≡ kept_len self.now.stream }
    {
        self.finder.kept_len()
    }

    /// Returns the size of the buffer in bytes: 65,536, or eight times the length of the longest pattern if that is
    /// more.
    pub fn buffer_len(&self) -> usize
        ensures { result ≡ self.now.stream.buffer }
    {
        self.finder.buffer_len()
    }

    /// Returns the next match of the stream, and reads on as far as that needs.
    #[inline]
    fn advance(&mut self) -> Option<Result<Match, StreamError>>
        ensures { Streams R.empty_means_end self.old result self.new }
    {
        self.finder.next(&mut self.reader)
    }
}

impl<'a, R: Source + Drop, A: Allocator, Z: Allocator> Iterator for StreamFindIter<'a, R, A, Z> {
    type Item = Result<Match, StreamError>;

    ghost next_gives = { Streams R.empty_means_end };

    ghost remaining = { λ s. at_most (items_left s) };

    #[inline]
    fn next(&mut self) -> Option<Result<Match, StreamError>> {
        self.advance()
    }
}
