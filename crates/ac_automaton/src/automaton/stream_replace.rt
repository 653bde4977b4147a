//! Replacement in a stream: its bytes are written as they were read, with each match replaced from a list or by a
//! closure.
ghost use Rattle.std.specs.Prelude.{◌≡◌, ℕ, ◌<◌, List, [], None, OnOk, Result, length, slice_index_or};
ghost use Rattle.ac_automaton.specs.Util.{bytes_of, Occurrence, Replacing, stream_refusal, StreamError};
ghost use Rattle.ac_automaton.specs.Exchanges.{AcceptsMatches, beside, CallsBy, ExchangesRead, Passes, ReplacesOrFails, StillAccepts, by_texts, Passing};
ghost use Rattle.ac_automaton.specs.Streams.{initial_stream};

use super::Automaton;
use super::gathered::Gathered;
use super::stream::StreamFinder;
use ac_util::device::{Sink, Source, write_all};
use ac_util::error::StreamError;
use ac_util::search::Match;
use std::alloc::Allocator;
use std::io;

/// What the bytes of a stream go through on their way to a writer, and what writes in place of a match.
pub(super) trait Exchange<W: Sink> {
    // Whether it may be called with a match.
    ghost accepts: { Self → Occurrence → Type 0 };

    // What the writer was told, what it holds back, and what it is without that.
    ghost passing: { Passing Self W };

    // A call with a match and its slice may answer so, and leave it and the writer so.
    ghost calls: { Occurrence → List ℕ → Replacing Self W → Result (Unit {0}) StreamError → Replacing Self W → Type 0 };

    /// Passes on bytes that are in no match.
    ///
    /// # Errors
    /// As `write_all`.
    fn pass(&mut self, bytes: &[u8], writer: &mut W) -> Result<(), StreamError>
        ensures passes { Passes passing bytes.now (beside self.old writer.old) result (beside self.new writer.new) }
        ensures still { StillAccepts accepts self.old self.new };

    /// Writes in place of a match.
    ///
    /// # Errors
    /// As what is wrapped.
    fn exchange(&mut self, found: &Match, slice: &[u8], writer: &mut W) -> Result<(), StreamError>
        requires accepted { accepts self.old found.now }
        ensures calls { calls found.now slice.now (beside self.old writer.old) result (beside self.new writer.new) }
        ensures still { StillAccepts accepts self.old self.new };

    /// Writes what is held back.
    ///
    /// # Errors
    /// As `write_all`.
    fn write_held(&mut self, writer: &mut W) -> Result<(), StreamError>
        ensures passes { Passes passing [] (beside self.old writer.old) result (beside self.new writer.new) }
        ensures clear { OnOk result (passing.held self.new ≡ []) }
        ensures still { StillAccepts accepts self.old self.new };
}

/// Writes the text of a match's pattern. Texts and bytes between them are gathered.
#[derive(Drop)]
pub(super) struct ByTexts<'t> {
    pub(super) texts: &'t [&'t [u8]],
    pub(super) gathered: Gathered,
}

impl<'t> ByTexts<'t> {
    /// Returns an exchange by these texts that holds nothing back.
    pub(super) fn new(texts: &'t [&'t [u8]]) -> ByTexts<'t>
        ensures { result ≡ record { texts = texts.entry; gathered = [] } }
    {
        ByTexts {
            texts,
            gathered: Gathered::new(),
        }
    }
}

impl<'t, W: Sink> Exchange<W> for ByTexts<'t> {
    ghost accepts = { λ e m. m.pattern < length e.texts.now };

    ghost passing = { by_texts W.told };

    ghost calls = { λ m slice s r t. Passes (by_texts W.told)
        (slice_index_or (bytes_of s.closure.texts.now) m.pattern []) s r t };

    fn pass(&mut self, bytes: &[u8], writer: &mut W) -> Result<(), StreamError> {
        self.gathered.write(writer, bytes)?;
        Ok(())
    }

    fn exchange(
        &mut self,
        found: &Match,
        _slice: &[u8],
        writer: &mut W,
    ) -> Result<(), StreamError> {
        let text = self.texts[found.pattern().as_usize()];
        self.gathered.write(writer, text)?;
        Ok(())
    }

    fn write_held(&mut self, writer: &mut W) -> Result<(), StreamError> {
        self.gathered.write_held(writer)?;
        Ok(())
    }
}

/// Calls a closure. Nothing is held back.
#[derive(Drop)]
pub(super) struct ByClosure<F> {
    pub(super) closure: F,
}

impl<W: Sink, F: FnMut(&Match, &[u8], &mut W) -> io::Result<()>> Exchange<W> for ByClosure<F> {
    ghost accepts = { λ e m. F.IsAlwaysCallable e.closure };

    ghost passing = { record { told = W.told; held = λ e. []; without = λ e. e } };

    ghost calls = { λ m slice s r t. CallsBy F.FnMut m slice s.closure.closure s.destination r t.closure.closure t.destination };

    fn pass(&mut self, bytes: &[u8], writer: &mut W) -> Result<(), StreamError> {
        write_all(writer, bytes)?;
        Ok(())
    }

    fn exchange(&mut self, found: &Match, slice: &[u8], writer: &mut W) -> Result<(), StreamError> {
        match (self.closure)(found, slice, writer) {
            Ok(()) => Ok(()),
            Err(e) => Err(StreamError::Io(e)),
        }
    }

    fn write_held(&mut self, _writer: &mut W) -> Result<(), StreamError> {
        Ok(())
    }
}

/// Replaces all matches of what was read that are still to be given, and writes the bytes between them as far as they
/// are settled. Nothing is held back afterwards.
///
/// # Errors
/// `Io` where a write failed, `WriteZero` where one took no byte, and those of an exchange.
fn exchange_read<A: Automaton, Z: Allocator, W: Sink, E: Exchange<W>>(
    finder: &mut StreamFinder<'_, A, Z>,
    writer: &mut W,
    exchange: &mut E,
) -> Result<(), StreamError>
    requires accepted { AcceptsMatches E.accepts finder.old.built exchange.old }
    ensures accepted { StillAccepts E.accepts exchange.old exchange.new }
    ensures exchanged { ExchangesRead E.passing E.calls finder.old finder.new (beside exchange.old writer.old)
        (beside exchange.new writer.new) result }
{
    loop {
        let from = finder.kept();
        let Some(found) = finder.next_read() else {
            exchange.pass(finder.bytes(from, finder.kept()), writer)?;
            return exchange.write_held(writer);
        };
        exchange.pass(finder.bytes(from, found.start()), writer)?;
        exchange.exchange(&found, finder.bytes(found.start(), found.end()), writer)?;
    }
}

/// Replaces the matches of all bytes that a reader gives, and writes all other bytes as they are.
///
/// # Errors
/// As `Automaton::try_stream_replace_all`.
pub(super) fn replace_stream<A: Automaton, Z: Allocator, R: Source, W: Sink, E: Exchange<W>>(
    finder: &mut StreamFinder<'_, A, Z>,
    reader: &mut R,
    writer: &mut W,
    exchange: &mut E,
) -> Result<(), StreamError>
    requires allowed { stream_refusal finder.old.built ≡ None }
    requires begins { finder.old ≡ initial_stream finder.old.built }
    requires clear { E.passing.held exchange.old ≡ [] }
    requires accepted { AcceptsMatches E.accepts finder.old.built exchange.old }
    ensures { ReplacesOrFails E.passing E.calls R.empty_means_end finder.old.built (R.told reader.old) (R.told reader.new)
        (beside exchange.old writer.old) (beside exchange.new writer.new) result }
{
    while finder.fill(reader)? {
        exchange_read(finder, writer, exchange)?;
    }
    exchange_read(finder, writer, exchange)
}
