//! Replacement in a text that comes in pieces: each piece is handed to a call, which writes the replaced text that is settled.
ghost use Rattle.std.specs.Prelude.{◌≡◌, ◌≢◌, MatchOption, Some};
ghost use Rattle.ac_c.specs.Handles.{Changes, ChangesReplacerIn, replacer_in};
ghost use Rattle.ac_c.specs.Replaces.{IsOkOrMemory};
ghost use Rattle.ac_c.specs.Replacers.{AllowsPieces, AnswersHeldReplacer, AnswersReplacer, EndsReplacer, FeedsReplacer, HoldsReplacer, replacer_end_status, replacer_feed_status, replacer_status};

use crate::handle::Handle;
use crate::handle::held::Held;
use crate::handle::raw_box::RawBox;
use crate::reader::Reader;
use crate::status::{ARGUMENTS, MEMORY, OK, refusal_status};
use crate::texts::{are_ends, texts_in};
use ac_search::{AhoCorasick, PieceReplacer, StreamError};
use std::alloc::Global;

/// Leaves in `out` a replacement in a text in pieces, of which nothing came yet, with a searcher that shares the reader's engine. A match
/// is replaced by the text of its pattern: the texts stand in `bytes`, each up to its end, one for each pattern. What `out` held
/// before is freed.
///
/// Returns `OK`; or `ARGUMENTS`, `UNANCHORED`, `EMPTY_PATTERN` or `MEMORY`: then `out` is as it was.
#[unsafe(no_mangle)]
pub extern "C" fn ac_raw_replacer_open(
    alloc: Global,
    reader: &mut Reader,
    bytes: &[u8],
    ends: &[usize],
    out: &mut Handle,
) -> i32
    ensures status { IsOkOrMemory (replacer_status reader.old.held.searcher bytes.now ends.now) result }
    ensures begun { result ≡ OK → MatchOption out.new.held ⊥ (HoldsReplacer reader.old.held.searcher bytes.now ends.now) }
    ensures otherwise { result ≢ OK → out.new ≡ out.old }
    ensures reader { reader.new ≡ reader.old }
{
    let held = match begun(alloc, &reader.get().searcher, bytes, ends) {
        Ok(held) => held,
        Err(status) => return status,
    };
    match Handle::new(alloc, held) {
        Ok(handle) => {
            *out = handle;
            OK
        }
        Err(_) => MEMORY,
    }
}

/// Takes bytes of a piece, and writes their number to `taken`; and writes what follows of the replaced text to `out`, and how many bytes
/// that is to `filled`. Where fewer than `out` has room for are written, the piece was taken whole, and no more is settled.
///
/// Returns `OK`; or `ARGUMENTS`: then both numbers are 0, and all else is as it was.
#[unsafe(no_mangle)]
pub extern "C" fn ac_raw_replacer_feed(
    alloc: Global,
    replacer: &mut Handle,
    piece: &[u8],
    taken: &mut usize,
    out: &mut [u8],
    filled: &mut usize,
) -> i32
    ensures status { result ≡ replacer_feed_status (replacer_in replacer.old.held) piece.now }
    ensures feeds { result ≡ OK
        → ChangesReplacerIn replacer.old.held (FeedsReplacer piece.now taken.new out.old out.new filled.new) replacer.new.held }
    ensures otherwise { result ≢ OK → (replacer.new.held ≡ replacer.old.held) × (taken.new ≡ 0) × (filled.new ≡ 0) × (out.new ≡ out.old) }
{
    *taken = 0;
    *filled = 0;
    let Some(mut held) = replacer.take(alloc) else {
        return ARGUMENTS;
    };
    let status = feed(&mut held.replacer, piece, taken, out, filled);
    *replacer = Handle::of(RawBox::of(held));
    status
}

/// Says that nothing follows, and writes what is left of the replaced text to `out`, and how many bytes that is to `filled`. Where fewer
/// than `out` has room for are written, nothing is left.
///
/// Returns `OK`; or `ARGUMENTS`: then `filled` is 0, and all else is as it was.
#[unsafe(no_mangle)]
pub extern "C" fn ac_raw_replacer_end(
    alloc: Global,
    replacer: &mut Handle,
    out: &mut [u8],
    filled: &mut usize,
) -> i32
    ensures status { result ≡ replacer_end_status (replacer_in replacer.old.held) }
    ensures ends { result ≡ OK → ChangesReplacerIn replacer.old.held (EndsReplacer out.old out.new filled.new) replacer.new.held }
    ensures otherwise { result ≢ OK → (replacer.new.held ≡ replacer.old.held) × (filled.new ≡ 0) × (out.new ≡ out.old) }
{
    *filled = 0;
    let Some(mut held) = replacer.take(alloc) else {
        return ARGUMENTS;
    };
    let status = end(&mut held.replacer, out, filled);
    *replacer = Handle::of(RawBox::of(held));
    status
}

/// Returns a searcher of the same engine and a replacement that it has begun.
fn begun(alloc: Global, searcher: &AhoCorasick, bytes: &[u8], ends: &[usize]) -> Result<Held, i32>
    ensures { AnswersHeldReplacer searcher.now bytes.now ends.now result }
{
    let replacer = begin(alloc, searcher, bytes, ends)?;
    let Ok(searcher) = searcher.clone() else {
        return Err(MEMORY);
    };
    Ok(Held {
        searcher,
        stream: None,
        replacer: Some(replacer),
    })
}

/// Returns a replacement that begins, or the status that says why there is none.
fn begin(
    alloc: Global,
    searcher: &AhoCorasick,
    bytes: &[u8],
    ends: &[usize],
) -> Result<PieceReplacer, i32>
    ensures { AnswersReplacer searcher.now bytes.now ends.now result }
{
    if !are_ends(ends, bytes.len()) || ends.len() != searcher.patterns_len() {
        return Err(ARGUMENTS);
    }
    check_pieces(searcher)?;
    let Ok(texts) = texts_in(alloc, bytes, ends) else {
        return Err(MEMORY);
    };
    match searcher.try_piece_replacer(alloc, &texts) {
        Ok(replacer) => Ok(replacer),
        Err(_) => Err(MEMORY),
    }
}

/// Checks that a searcher supports texts in pieces. It takes no memory.
fn check_pieces(searcher: &AhoCorasick) -> Result<(), i32>
    ensures { AllowsPieces searcher.now result }
{
    match searcher.try_piece_finder() {
        Ok(_) => Ok(()),
        Err(StreamError::Match(error)) => Err(refusal_status(error)),
        Err(_) => Err(MEMORY),
    }
}

/// Feeds a replacement, if there is one, and if it may be fed the piece.
fn feed(
    replacer: &mut Option<PieceReplacer>,
    piece: &[u8],
    taken: &mut usize,
    out: &mut [u8],
    filled: &mut usize,
) -> i32
    ensures status { result ≡ replacer_feed_status replacer.old piece.now }
    ensures feeds { result ≡ OK → Changes replacer.old (FeedsReplacer piece.now taken.new out.old out.new filled.new) replacer.new }
    ensures otherwise { result ≢ OK → (replacer.new ≡ replacer.old) × (out.new ≡ out.old) }
    ensures counts { result ≢ OK → (taken.new ≡ taken.old) × (filled.new ≡ filled.old) }
{
    let Some(replacer) = replacer else {
        return ARGUMENTS;
    };
    if replacer.is_ended() && !piece.is_empty() {
        return ARGUMENTS;
    }
    let mut left = piece;
    *filled = replacer.write(&mut left, out);
    *taken = piece.len() - left.len();
    OK
}

/// Ends a replacement, if there is one.
fn end(replacer: &mut Option<PieceReplacer>, out: &mut [u8], filled: &mut usize) -> i32
    ensures status { result ≡ replacer_end_status replacer.old }
    ensures ends { result ≡ OK → Changes replacer.old (EndsReplacer out.old out.new filled.new) replacer.new }
    ensures otherwise { result ≢ OK → (replacer.new ≡ replacer.old) × (filled.new ≡ filled.old) × (out.new ≡ out.old) }
{
    let Some(replacer) = replacer else {
        return ARGUMENTS;
    };
    replacer.end();
    let mut nothing: &[u8] = &[];
    *filled = replacer.write(&mut nothing, out);
    OK
}
