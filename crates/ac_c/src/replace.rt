//! Replacement of the matches of a haystack.
ghost use Rattle.std.specs.Prelude.{◌≡◌, ◌≢◌, length};
ghost use Rattle.ac_search.specs.Built.{AnswersUnless, replace_refusal};
ghost use Rattle.ac_c.specs.Replaces.{AnswersReplaced, IsOkOrMemory, Puts, Replaces, replace_status};

use crate::reader::Reader;
use crate::status::{ARGUMENTS, MEMORY, OK, refusal_status};
use crate::texts::{are_ends, texts_in};
use ac_search::{AhoCorasick, MatchError, StartKind};
use std::alloc::Global;

/// Replaces each match of a walk over the haystack by the text of its pattern. The texts stand in `bytes`, each up to
/// its end, one for each pattern. The length of the whole is written to `needed`, and the whole to `out`, if that has
/// room for it.
///
/// Returns `OK`; or `ARGUMENTS`, `UNANCHORED` or `MEMORY`: then all is as it was.
#[unsafe(no_mangle)]
pub extern "C" fn ac_raw_replace(
    alloc: Global,
    reader: &mut Reader,
    haystack: &[u8],
    bytes: &[u8],
    ends: &[usize],
    out: &mut [u8],
    needed: &mut usize,
) -> i32
    ensures status { IsOkOrMemory (replace_status reader.old.held.searcher bytes.now ends.now) result }
    ensures replaces { result ≡ OK
        → Replaces reader.old.held.searcher haystack.now bytes.now ends.now out.old out.new needed.new }
    ensures otherwise { result ≢ OK → (out.new ≡ out.old) × (needed.new ≡ needed.old) }
    ensures reader { reader.new ≡ reader.old }
{
    match replaced(alloc, &reader.get().searcher, haystack, bytes, ends) {
        Ok(whole) => {
            *needed = whole.len();
            put(&whole, out);
            OK
        }
        Err(status) => status,
    }
}

/// Returns the haystack with its matches replaced, or the status that says why there is none.
fn replaced(
    alloc: Global,
    searcher: &AhoCorasick,
    haystack: &[u8],
    bytes: &[u8],
    ends: &[usize],
) -> Result<Vec<u8>, i32>
    ensures { AnswersReplaced searcher.now haystack.now bytes.now ends.now result }
{
    if !are_ends(ends, bytes.len()) || ends.len() != searcher.patterns_len() {
        return Err(ARGUMENTS);
    }
    if let Err(error) = check_start(searcher) {
        return Err(refusal_status(error));
    }
    let Ok(texts) = texts_in(alloc, bytes, ends) else {
        return Err(MEMORY);
    };
    match searcher.replace_all_bytes(alloc, haystack, &texts) {
        Ok(whole) => Ok(whole),
        Err(_) => Err(MEMORY),
    }
}

/// Checks that a searcher supports replacement, whose walk is unanchored.
fn check_start(searcher: &AhoCorasick) -> Result<(), MatchError>
    ensures { AnswersUnless (replace_refusal searcher.now.built) tt result }
{
    match searcher.start_kind() {
        StartKind::Anchored => Err(MatchError::InvalidInputUnanchored),
        StartKind::Unanchored | StartKind::Both => Ok(()),
    }
}

/// Writes the whole to the beginning of `out`, if that has room for it.
fn put(whole: &[u8], out: &mut [u8])
    ensures { Puts whole.now out.old out.new (length whole.now) }
{
    if whole.len() <= out.len() {
        out[..whole.len()].copy_from_slice(whole);
    }
}
