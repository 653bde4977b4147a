//! Listings of all occurrences, a batch at a time.
ghost use Rattle.std.specs.Prelude.{◌≡◌, ◌≢◌, ◌^◌, ◌<◌, ◌≤◌, drop, length};
ghost use Rattle.ac_search.specs.Input.{input_of};
ghost use Rattle.ac_c.specs.Batches.{Gives, GivesNothing, listing_due, listing_from};
ghost use Rattle.ac_c.specs.Statuses.{status_unless};
ghost use Rattle.ac_c.specs.Steps.{GivesFirst, ListingStandsAt, ListsUnless};
ghost use Rattle.ac_c.specs.Searches.{is_input, input_by};
ghost use Rattle.ac_search.specs.Built.{overlapping_iter_refusal};
ghost use Rattle.ac_c.specs.declared.status.TheConstants.{OK};

use crate::reader::Reader;
use crate::search::{Cursor, FoundMatch, Span};
use crate::status::{ARGUMENTS, OK, refusal_status};
use ac_search::{AhoCorasick, FindOverlappingIter, Input, Match, MatchError};
use std::alloc::Global;

/// Writes the next occurrences of the listing of a span to `out`, and their number to `filled`, and moves the cursor
/// past them. Fewer than `out` has room for are written only where no more follow.
///
/// Returns `OK`; or `ARGUMENTS`, `UNANCHORED`, `OVERLAPPING` or `ANCHORED`: then `filled` is 0, and all else is as it
/// was.
#[unsafe(no_mangle)]
pub extern "C" fn ac_raw_overlapping(
    reader: &mut Reader,
    haystack: &[u8],
    span: &Span,
    cursor: &mut Cursor,
    out: &mut [FoundMatch],
    filled: &mut usize,
) -> i32
    ensures status { result
        ≡ status_unless (is_input haystack.now span.now)
        (overlapping_iter_refusal reader.old.held.searcher.built (input_by haystack.now span.now)) OK }
    ensures lists { result ≡ OK
        → Gives (listing_due reader.old.held.searcher haystack.now span.now) cursor.old cursor.new out.old out.new filled.new }
    ensures otherwise { result ≢ OK → GivesNothing cursor.old cursor.new out.old out.new filled.new }
    ensures reader { reader.new ≡ reader.old }
{
    *filled = 0;
    let Some(input) = span.input(haystack) else {
        return ARGUMENTS;
    };
    let mut here = cursor.in_span(span.start);
    match list(&reader.get().searcher, input, &mut here, out) {
        Ok(written) => {
            *cursor = here;
            *filled = written;
            OK
        }
        Err(error) => refusal_status(error),
    }
}

/// Writes the next occurrences from the cursor on, and moves it past them. Returns how many they are.
///
/// What ends at the cursor or later starts no earlier than the longest pattern's length before it, so the listing is made
/// again from there.
fn list(
    searcher: &AhoCorasick,
    input: Input<'_>,
    cursor: &mut Cursor,
    out: &mut [FoundMatch],
) -> Result<usize, MatchError>
    requires legal { (input_of input).start ≤ (input_of input).end }
    requires within { (input_of input).start ≤ cursor.old.at }
    ensures lists { ListsUnless searcher.now (input_of input.entry) cursor.old cursor.new out.old out.new result }
    ensures within { (input_of input.entry).start ≤ cursor.new.at }
{
    // Read for its bound: at most one occurrence of each pattern ends at an offset, so a cursor can count them.
    let _patterns_len = searcher.patterns_len();
    let reach = cursor.at.saturating_sub(searcher.max_pattern_len());
    let start = reach.max(input.start()).min(input.end());
    let mut items = searcher.try_find_overlapping_iter(input.range(start..input.end()))?;
    let mut here = Cursor {
        at: cursor.at,
        given: 0,
    };
    pass(&mut items, &mut here, cursor.given);
    let filled = fill(&mut items, &mut here, out);
    *cursor = if filled < out.len() {
        Cursor::past(input.haystack())
    } else {
        here
    };
    Ok(filled)
}

/// Passes over so many of the occurrences that are due, or over all of them.
fn pass<'a, 'h>(items: &mut FindOverlappingIter<'a, 'h, Global>, here: &mut Cursor, count: usize)
    requires stands { ListingStandsAt items.old here.old }
    requires counted { length items.old.search.patterns < 2 ^ 64 }
    ensures stands { ListingStandsAt items.new here.new }
    ensures same { items.new.search ≡ items.old.search }
    ensures passes { listing_from items.old.search here.new
        ≡ drop count (listing_from items.old.search here.old) }
    ensures onward { here.old.at ≤ here.new.at }
{
    for _ in 0..count {
        if next(items, here).is_none() {
            return;
        }
    }
}

/// Writes the occurrences that are due. Returns how many they are.
fn fill<'a, 'h>(
    items: &mut FindOverlappingIter<'a, 'h, Global>,
    here: &mut Cursor,
    out: &mut [FoundMatch],
) -> usize
    requires stands { ListingStandsAt items.old here.old }
    requires counted { length items.old.search.patterns < 2 ^ 64 }
    ensures gives { Gives (listing_from items.old.search) here.old here.new out.old out.new result }
    ensures onward { here.old.at ≤ here.new.at }
{
    for filled in 0..out.len() {
        match next(items, here) {
            Some(found) => out[filled] = FoundMatch::of(found),
            None => return filled,
        }
    }
    out.len()
}

/// Returns the next occurrence that ends at the cursor or later, and counts it.
fn next<'a, 'h>(items: &mut FindOverlappingIter<'a, 'h, Global>, here: &mut Cursor) -> Option<Match>
    requires stands { ListingStandsAt items.old here.old }
    requires counted { length items.old.search.patterns < 2 ^ 64 }
    ensures stands { ListingStandsAt items.new here.new }
    ensures same { items.new.search ≡ items.old.search }
    ensures gives { GivesFirst (listing_from items.old.search) here.old result here.new }
    ensures onward { here.old.at ≤ here.new.at }
{
    while let Some(found) = items.next() {
        if found.end() >= here.at {
            here.step(found.end());
            return Some(found);
        }
    }
    None
}
