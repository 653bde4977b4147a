//! Finds, and the count of all matches.
ghost use Rattle.std.specs.Prelude.{◌≡◌, ◌≢◌, length, Some};
ghost use Rattle.ac_c.specs.Searches.{walked_in, found_in, match_of};
ghost use Rattle.ac_c.specs.Statuses.{find_status, walk_status};

use crate::reader::Reader;
use crate::search::{FoundMatch, Span};
use crate::status::{ARGUMENTS, FOUND, OK, refusal_status};
use ac_search::laws::answers_lie_inside;

/// Writes the match that the match kind picks in a span to `out`.
///
/// Returns `FOUND`, or `OK` where nothing occurs; or `ARGUMENTS`, `ANCHORED` or `UNANCHORED`. Unless it is `FOUND`, `out`
/// is as it was.
#[unsafe(no_mangle)]
pub extern "C" fn ac_raw_find(
    reader: &mut Reader,
    haystack: &[u8],
    span: &Span,
    out: &mut FoundMatch,
) -> i32
    ensures status { result ≡ find_status reader.old.held.searcher haystack.now span.now }
    ensures found { result ≡ FOUND → found_in reader.old.held.searcher haystack.now span.now ≡ Some (match_of out.new) }
    ensures otherwise { result ≢ FOUND → out.new ≡ out.old }
    ensures reader { reader.new ≡ reader.old }
{
    let Some(input) = span.input(haystack) else {
        return ARGUMENTS;
    };
    match reader.get().searcher.try_find(input) {
        Ok(Some(found)) => {
            *out = FoundMatch::of(found);
            FOUND
        }
        Ok(None) => OK,
        Err(error) => refusal_status(error),
    }
}

/// Returns the status that `ac_raw_find` returns: `FOUND` exactly if some pattern occurs in the span. The search ends as
/// soon as it knows of an occurrence.
#[unsafe(no_mangle)]
pub extern "C" fn ac_raw_is_match(reader: &mut Reader, haystack: &[u8], span: &Span) -> i32
    ensures status { result ≡ find_status reader.old.held.searcher haystack.now span.now }
    ensures reader { reader.new ≡ reader.old }
{
    let Some(input) = span.input(haystack) else {
        return ARGUMENTS;
    };
    match reader.get().searcher.try_find(input.earliest(true)) {
        Ok(Some(_)) => FOUND,
        Ok(None) => OK,
        Err(error) => refusal_status(error),
    }
}

/// Writes how many matches a walk over a span has to `count`.
///
/// Returns `OK`; or `ARGUMENTS`, `ANCHORED` or `UNANCHORED`: then `count` is as it was.
#[unsafe(no_mangle)]
pub extern "C" fn ac_raw_count(
    reader: &mut Reader,
    haystack: &[u8],
    span: &Span,
    count: &mut usize,
) -> i32
    ensures status { result ≡ walk_status reader.old.held.searcher haystack.now span.now }
    ensures count { result ≡ OK → count.new ≡ length (walked_in reader.old.held.searcher haystack.now span.now) }
    ensures otherwise { result ≢ OK → count.new ≡ count.old }
    ensures reader { reader.new ≡ reader.old }
{
    let Some(input) = span.input(haystack) else {
        return ARGUMENTS;
    };
    let searcher = &reader.get().searcher;
    answers_lie_inside(searcher, input);
    match searcher.try_find_iter(input) {
        Ok(matches) => {
            *count = matches.count();
            OK
        }
        Err(error) => refusal_status(error),
    }
}
