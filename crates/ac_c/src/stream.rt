//! Searches of a text that comes in pieces: each piece is handed to a call, which writes the matches that are settled.
ghost use Rattle.std.specs.Prelude.{◌≡◌, ◌≢◌, MatchOption, Some};
ghost use Rattle.ac_c.specs.Handles.{Changes, ChangesIn, stream_in};
ghost use Rattle.ac_c.specs.Replaces.{IsOkOrMemory};
ghost use Rattle.ac_c.specs.StreamCalls.{AnswersBegin, AnswersHeld, Ends, Feeds, HoldsBegun, Resets, begin_status, end_status, feed_status, reset_status};

use crate::handle::Handle;
use crate::handle::held::Held;
use crate::handle::raw_box::RawBox;
use crate::reader::Reader;
use crate::search::FoundMatch;
use crate::status::{ARGUMENTS, MEMORY, OK, refusal_status};
use ac_search::{AhoCorasick, StreamError};
use search::Stream;
use std::alloc::Global;

pub mod search;

/// Leaves in `out` a search of a text in pieces, of which nothing came yet, with a searcher that shares the reader's engine: a walk if the
/// mode is 0, and a listing if it is 1. What `out` held before is freed.
///
/// Returns `OK`; or `ARGUMENTS`, `UNANCHORED`, `OVERLAPPING`, `EMPTY_PATTERN` or `MEMORY`: then `out` is as it was.
#[unsafe(no_mangle)]
pub extern "C" fn ac_raw_stream_open(
    alloc: Global,
    reader: &mut Reader,
    mode: u32,
    out: &mut Handle,
) -> i32
    ensures status { IsOkOrMemory (begin_status reader.old.held.searcher mode) result }
    ensures begun { result ≡ OK → MatchOption out.new.held ⊥ (HoldsBegun reader.old.held.searcher mode) }
    ensures otherwise { result ≢ OK → out.new ≡ out.old }
    ensures reader { reader.new ≡ reader.old }
{
    let held = match begun(&reader.get().searcher, mode) {
        Ok(held) => held,
        Err(status) => return status,
    };
    match Handle::new(alloc, held) {
        Ok(handle) => {
            *out = handle;
            OK
        }
        Err(_) => MEMORY,
    }
}

/// Takes bytes of a piece, and writes their number to `taken`; and writes the next matches to `out`, and their number to `filled`. Where
/// fewer than `out` has room for are written, the piece was taken whole, and no more are settled.
///
/// Returns `OK`; or `ARGUMENTS`: then both numbers are 0, and all else is as it was.
#[unsafe(no_mangle)]
pub extern "C" fn ac_raw_stream_feed(
    alloc: Global,
    stream: &mut Handle,
    piece: &[u8],
    taken: &mut usize,
    out: &mut [FoundMatch],
    filled: &mut usize,
) -> i32
    ensures status { result ≡ feed_status (stream_in stream.old.held) piece.now }
    ensures feeds { result ≡ OK → ChangesIn stream.old.held (Feeds piece.now taken.new out.old out.new filled.new) stream.new.held }
    ensures otherwise { result ≢ OK → (stream.new.held ≡ stream.old.held) × (taken.new ≡ 0) × (filled.new ≡ 0) × (out.new ≡ out.old) }
{
    *taken = 0;
    *filled = 0;
    let Some(mut held) = stream.take(alloc) else {
        return ARGUMENTS;
    };
    let status = feed(&mut held.stream, piece, taken, out, filled);
    *stream = Handle::of(RawBox::of(held));
    status
}

/// Says that nothing follows, and writes the next matches that are left to `out`, and their number to `filled`. Where fewer than `out`
/// has room for are written, no more are left.
///
/// Returns `OK`; or `ARGUMENTS`: then `filled` is 0, and all else is as it was.
#[unsafe(no_mangle)]
pub extern "C" fn ac_raw_stream_end(
    alloc: Global,
    stream: &mut Handle,
    out: &mut [FoundMatch],
    filled: &mut usize,
) -> i32
    ensures status { result ≡ end_status (stream_in stream.old.held) }
    ensures ends { result ≡ OK → ChangesIn stream.old.held (Ends out.old out.new filled.new) stream.new.held }
    ensures otherwise { result ≢ OK → (stream.new.held ≡ stream.old.held) × (filled.new ≡ 0) × (out.new ≡ out.old) }
{
    *filled = 0;
    let Some(mut held) = stream.take(alloc) else {
        return ARGUMENTS;
    };
    let status = end(&mut held.stream, out, filled);
    *stream = Handle::of(RawBox::of(held));
    status
}

/// Begins anew: nothing came yet.
///
/// Returns `OK`; or `ARGUMENTS` or `MEMORY`: then the search is as it was.
#[unsafe(no_mangle)]
pub extern "C" fn ac_raw_stream_reset(alloc: Global, stream: &mut Handle) -> i32
    ensures status { IsOkOrMemory (reset_status stream.old.held) result }
    ensures resets { result ≡ OK → Resets stream.old.held stream.new.held }
    ensures otherwise { result ≢ OK → stream.new.held ≡ stream.old.held }
{
    let Some(mut held) = stream.take(alloc) else {
        return ARGUMENTS;
    };
    let status = reset(&mut held);
    *stream = Handle::of(RawBox::of(held));
    status
}

/// Returns a searcher of the same engine and a search that it has begun.
fn begun(searcher: &AhoCorasick, mode: u32) -> Result<Held, i32>
    ensures { AnswersHeld searcher.now mode result }
{
    let stream = begin(searcher, mode)?;
    let Ok(searcher) = searcher.clone() else {
        return Err(MEMORY);
    };
    Ok(Held {
        searcher,
        stream: Some(stream),
        replacer: None,
    })
}

/// Returns a search that begins, or the status that says why there is none.
fn begin(searcher: &AhoCorasick, mode: u32) -> Result<Stream, i32>
    ensures { AnswersBegin searcher.now mode result }
{
    let begun = match mode {
        0 => Stream::walk(searcher),
        1 => Stream::listing(searcher),
        _ => return Err(ARGUMENTS),
    };
    match begun {
        Ok(stream) => Ok(stream),
        Err(StreamError::Match(error)) => Err(refusal_status(error)),
        Err(_) => Err(MEMORY),
    }
}

/// Feeds a search, if there is one, and if it may be fed the piece.
fn feed(
    stream: &mut Option<Stream>,
    piece: &[u8],
    taken: &mut usize,
    out: &mut [FoundMatch],
    filled: &mut usize,
) -> i32
    ensures status { result ≡ feed_status stream.old piece.now }
    ensures feeds { result ≡ OK → Changes stream.old (Feeds piece.now taken.new out.old out.new filled.new) stream.new }
    ensures otherwise { result ≢ OK → (stream.new ≡ stream.old) × (out.new ≡ out.old) }
    ensures counts { result ≢ OK → (taken.new ≡ taken.old) × (filled.new ≡ filled.old) }
{
    let Some(stream) = stream else {
        return ARGUMENTS;
    };
    if stream.is_ended() && !piece.is_empty() {
        return ARGUMENTS;
    }
    let mut left = piece;
    *filled = stream.write(&mut left, out);
    *taken = piece.len() - left.len();
    OK
}

/// Ends a search, if there is one.
fn end(stream: &mut Option<Stream>, out: &mut [FoundMatch], filled: &mut usize) -> i32
    ensures status { result ≡ end_status stream.old }
    ensures ends { result ≡ OK → Changes stream.old (Ends out.old out.new filled.new) stream.new }
    ensures otherwise { result ≢ OK → (stream.new ≡ stream.old) × (filled.new ≡ filled.old) × (out.new ≡ out.old) }
{
    let Some(stream) = stream else {
        return ARGUMENTS;
    };
    stream.end();
    let mut nothing: &[u8] = &[];
    *filled = stream.write(&mut nothing, out);
    OK
}

/// Has the search that is held begin anew, if there is one.
fn reset(held: &mut Held) -> i32
    ensures status { IsOkOrMemory (reset_status (Some held.old)) result }
    ensures resets { result ≡ OK → Resets (Some held.old) (Some held.new) }
    ensures otherwise { result ≢ OK → held.new ≡ held.old }
{
    let mode = match &held.stream {
        Some(stream) => stream.mode(),
        None => return ARGUMENTS,
    };
    match begin(&held.searcher, mode) {
        Ok(stream) => {
            held.stream = Some(stream);
            OK
        }
        Err(status) => status,
    }
}
