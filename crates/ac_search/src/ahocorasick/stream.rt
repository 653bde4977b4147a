//! Searches of streams, and replacement in them.
ghost use Rattle.std.specs.Prelude.{◌≡◌, Err, IfErr, IfOk, MatchResult, None, Ok, length};
ghost use Rattle.ac_automaton.specs.Util.{bytes_of, stream_refusal};
ghost use Rattle.ac_automaton.specs.Answers.{BeginsStream, ExchangesStream, ExchangesStreamBy};
ghost use Rattle.ac_automaton.specs.Streams.{GivesRead, Streams, kept_len, on};
ghost use Rattle.ac_search.specs.Searchers.{HasBegun, HasBegunOver};

use super::engine::{Engine, EngineStreamFinder, by_engine};
use super::stream_iter::StreamFindIter;
use super::{AhoCorasick, check_start};
use ac_automaton::automaton::{self, Automaton};
use ac_util::device::{Sink, Source};
use ac_util::error::StreamError;
use ac_util::search::{Anchored, Match};
use std::alloc::{AllocError, Allocator, Global};
use std::io;
use std::marker::Model;

impl<A: Allocator> AhoCorasick<A> {
    /// Returns an iterator over the matches of all bytes that a reader gives: those of `find_iter` over these bytes,
    /// however the reads cut them. This ports `AhoCorasick::stream_find_iter`, which supports `MatchKind::Standard`
    /// only.
    ///
    /// Offsets count bytes of the whole stream from 0; an end is one past the last byte. A match is returned once it is
    /// settled, which means that the search has seen that no byte to come can change it. Under `MatchKind::Standard`
    /// that is when it is found. Under a leftmost kind later bytes or the end of the stream settle it, at most one byte
    /// late.
    ///
    /// Nothing is read before the first match is asked for. The allocator makes one buffer, which never grows. The
    /// searcher has to support unanchored searches, and no pattern may be empty; `try_stream_find_iter` returns an
    /// error otherwise.
    ///
    /// # Errors
    /// `AllocError` where the memory for the buffer is refused.
    ///
    /// ```
    /// let searcher = AhoCorasick::new(alloc, &[b"append", b"appendage", b"app"])?;
    /// let mut ends = Vec::new(alloc);
    /// for found in searcher.stream_find_iter(alloc, Bytes::new(b"append the app"))? {
    ///     ends.push(found?.end())?; // pattern 2 at 0..3, pattern 2 at 11..14
    /// }
    /// assert_eq!(rt; ends.as_slice(), [3, 14].as_slice());
    /// ```
    pub fn stream_find_iter<R: Source + Drop, Z: Allocator>(
        &self,
        alloc: Z,
        reader: R,
    ) -> Result<StreamFindIter<'_, R, A, Z>, AllocError>
        requires supported { stream_refusal self.now.built ≡ None }
        ensures { IfOk result (HasBegunOver self.now.built (R.told reader)) }
    {
        unrefused(self.try_stream_find_iter(alloc, reader))
    }

    /// Returns what `stream_find_iter` returns, or an error where the searcher doesn't support the search. This ports
    /// `AhoCorasick::try_stream_find_iter`.
    ///
    /// # Errors
    /// `StreamError::Match` with `InvalidInputUnanchored` where the searcher doesn't support unanchored searches, else
    /// with `UnsupportedEmpty` where some pattern is empty; else `StreamError::Memory` where the memory for the buffer
    /// is refused. Nothing was read then.
    ///
    /// ```
    /// let searcher = AhoCorasick::new(alloc, &[b"secret".as_slice(), b""])?;
    /// let reader = Bytes::new(b"a secret");
    /// let refused = searcher.try_stream_find_iter(alloc, reader).err();
    /// assert!(rt; matches!(refused, Some(StreamError::Match(_)))); // one pattern is empty
    /// ```
    pub fn try_stream_find_iter<R: Source + Drop, Z: Allocator>(
        &self,
        alloc: Z,
        reader: R,
    ) -> Result<StreamFindIter<'_, R, A, Z>, StreamError>
        ensures { BeginsStream self.now.built (HasBegunOver self.now.built (R.told reader)) result }
    {
        let finder = self.try_stream_finder(alloc)?;
        Ok(StreamFindIter { finder, reader })
    }

    /// Writes all bytes that a reader gives, with each match of `find_iter` over them replaced by the text of its
    /// pattern: `texts[2]` replaces pattern 2. This ports `AhoCorasick::try_stream_replace_all`.
    ///
    /// It writes while it reads: before each read all of the replaced text was written except for the bytes that a
    /// match to come may still need, which are no more than the longest pattern has. The allocator makes one buffer for
    /// what is read, which never grows; no other memory is taken. Between two reads what is written is gathered, up to
    /// 8,192 bytes. The writer isn't flushed. There have to be as many texts as patterns.
    ///
    /// # Errors
    /// Those of `try_stream_find_iter`: then nothing was read or written. `Io` where a read or a write failed, and
    /// `TooLong` where more bytes came than a `usize` counts: what was written before that read stays written.
    /// `WriteZero` where a write took no byte. Where a write failed or took nothing, a prefix was written of the replaced
    /// text as far as no byte to come can change it, and nothing was read after that. The law `lists_write_exchanged` says
    /// what was written by the stream alone.
    ///
    /// ```
    /// let patterns: &[&[u8]] = &[b"secret", b"password"];
    /// let searcher = AhoCorasick::new(alloc, patterns)?;
    /// let mut reader = Bytes::new(b"a secret password");
    /// let mut writer = Written::new(alloc);
    /// searcher.try_stream_replace_all(alloc, &mut reader, &mut writer, &[b"***", b"***"])?;
    /// assert_eq!(rt; writer.bytes(), b"a *** ***".as_slice());
    /// ```
    pub fn try_stream_replace_all<R: Source, W: Sink, Z: Allocator>(
        &self,
        alloc: Z,
        reader: &mut R,
        writer: &mut W,
        texts: &[&[u8]],
    ) -> Result<(), StreamError>
        requires texts { length texts.now ≡ length self.now.built.patterns }
        ensures { ExchangesStream R.empty_means_end R.told W.told self.now.built (bytes_of texts.now)
            reader.old writer.old reader.new writer.new result }
    {
        check_start(self.start_kind, Anchored::No)?;
        by_engine!(Engine, &self.engine, engine => engine.as_ref().try_stream_replace_all(alloc, reader, writer, texts))
    }

    /// Writes all bytes that a reader gives, with a call of the closure at each match of `find_iter` over them. This
    /// ports `AhoCorasick::try_stream_replace_all_with`.
    ///
    /// The closure is handed the match, with offsets in the whole stream, the slice that matched and the writer, to
    /// which it writes what replaces the match. It has to accept any match and writer. All bytes before a match
    /// were written when the closure is called, so only the buffer for what is read is made. Apart from that this does
    /// what `try_stream_replace_all` does.
    ///
    /// # Errors
    /// As `try_stream_replace_all`; and `Io` where the closure failed: what it wrote stays written, and nothing
    /// follows. The law `closures_write_exchanged` says what was written by the stream alone.
    ///
    /// ```
    /// let searcher = AhoCorasick::new(alloc, &[b"fox", b"brown", b"quick"])?;
    /// let (mut reader, mut writer) = (Bytes::new(b"a fox"), Written::new(alloc));
    /// let closure = |_: &Match, slice: &[u8], writer: &mut Written<Global>| {
    ///     write_all(writer, slice).map_err(WriteError::into_error)?;
    ///     write_all(writer, b"!").map_err(WriteError::into_error)
    /// };
    /// searcher.try_stream_replace_all_with(alloc, &mut reader, &mut writer, closure)?;
    /// assert_eq!(rt; writer.bytes(), b"a fox!".as_slice());
    /// ```
    pub fn try_stream_replace_all_with<R: Source, W: Sink, Z: Allocator, F>(
        &self,
        alloc: Z,
        reader: &mut R,
        writer: &mut W,
        closure: F,
    ) -> Result<(), StreamError>
    where
        F: FnMut(&Match, &[u8], &mut W) -> io::Result<()>,
        requires callable { F.IsAlwaysCallable closure }
        ensures { ExchangesStreamBy R.empty_means_end R.told W.told F.FnMut self.now.built closure
            reader.old writer.old reader.new writer.new result }
    {
        check_start(self.start_kind, Anchored::No)?;
        by_engine!(Engine, &self.engine, engine => engine.as_ref().try_stream_replace_all_with(alloc, reader, writer, closure))
    }

    /// Returns a search of a stream from which nothing was read yet, whose reader is handed to each call. The iterator
    /// of `try_stream_find_iter` is this search together with its reader.
    ///
    /// # Errors
    /// As `try_stream_find_iter`.
    ///
    /// See the example of `StreamFinder`.
    pub fn try_stream_finder<Z: Allocator>(
        &self,
        alloc: Z,
    ) -> Result<StreamFinder<'_, A, Z>, StreamError>
        ensures { BeginsStream self.now.built (HasBegun self.now.built) result }
    {
        check_start(self.start_kind, Anchored::No)?;
        let finder =
            by_engine!(Engine, &self.engine, engine => EngineStreamFinder, automaton::StreamFinder::new(engine.as_ref(), alloc)?);
        Ok(StreamFinder { finder })
    }
}

/// A search of a stream whose reader is handed to each call, made by `AhoCorasick::try_stream_finder`. `StreamFindIter`
/// has its own reader.
///
/// The matches are those of the walk over all bytes that the readers gave, however they cut them. Contracts see all
/// bytes that were read, and how many of their matches were returned.
///
/// ```
/// let searcher = AhoCorasick::new(alloc, &[b"append", b"app"])?;
/// let mut finder = searcher.try_stream_finder(alloc)?;
/// let found = finder.next(&mut Bytes::new(b"append the ap")).transpose()?;
/// assert_eq!(rt; found, Some(Match::must(1, 0..3)));
/// assert_eq!(rt; finder.next_read(), None); // "ap" may begin a match
/// let found = finder.next(&mut Bytes::new(b"p")).transpose()?;
/// assert_eq!(rt; found, Some(Match::must(1, 11..14)));
/// assert_eq!(rt; (finder.kept_len(), finder.buffer_len()), (0, 65_536));
/// ```
#[derive(Drop)]
pub struct StreamFinder<'a, A: Allocator = Global, Z: Allocator = Global> {
    finder: EngineStreamFinder<'a, A, Z>,
}

impl<'a, A: Allocator, Z: Allocator> Model for StreamFinder<'a, A, Z> {
    ghost use Rattle.ac_automaton.specs.Streams.{Streaming};
    ghost use Rattle.ac_search.specs.Engines.{streaming_in};

    ghost Value = { Streaming };

    ghost view = { λ s. streaming_in s.finder };
}

impl<'a, A: Allocator, Z: Allocator> StreamFinder<'a, A, Z> {
    /// Returns the next match of the stream, and reads on as far as that needs.
    ///
    /// After the end of the stream, once all matches were returned, it keeps returning `None`, and so it does after an
    /// error; the reader isn't called again.
    ///
    /// # Errors
    /// `Io` where a read failed, and `TooLong` where more bytes came than a `usize` counts. All matches of the bytes
    /// read before it that are settled were returned by then.
    pub fn next<R: Source>(&mut self, reader: &mut R) -> Option<Result<Match, StreamError>>
        ensures { Streams R.empty_means_end (on R.told self.old reader.old) result (on R.told self.new reader.new) }
    {
        self.finder.next(reader)
    }

    /// Returns the next match of the bytes that were read, without reading on. `None` says that all their matches that
    /// are settled were returned.
    pub fn next_read(&mut self) -> Option<Match>
        ensures { GivesRead self.old result self.new }
    {
        self.finder.next_read()
    }

    /// Returns how many bytes of the stream are kept: all that were read from the end of the last returned match on.
    /// Once all settled matches of what was read were returned, only as many of these are kept as a match to come may
    /// need. After an error they are no more than the longest pattern has, and after the end there are none.
    pub fn kept_len(&self) -> usize
        ensures { result ≡ kept_len self.now }
    {
        self.finder.kept_len()
    }

    /// Returns the size of the buffer in bytes: 65,536, or eight times the length of the longest pattern if that is
    /// more.
    pub fn buffer_len(&self) -> usize
        ensures { result ≡ self.now.buffer }
    {
        self.finder.buffer_len()
    }
}

/// Returns the outcome of the start of a stream search that only a refused request for memory can stop.
fn unrefused<T: Drop>(outcome: Result<T, StreamError>) -> Result<T, AllocError>
    requires { IfErr outcome (λ e. e ≡ StreamError.Memory) }
    ensures { MatchResult result (λ value. outcome ≡ Ok value) (λ _. outcome ≡ Err StreamError.Memory) }
{
    match outcome {
        Ok(value) => Ok(value),
        Err(StreamError::Memory) => Err(AllocError),
        Err(_) => unreachable!(),
    }
}
