//! Walks over the matches that don't overlap, a batch at a time.
ghost use Rattle.std.specs.Prelude.{◌≡◌, ◌≢◌, ◌≤◌, IfSome};
ghost use Rattle.ac_search.specs.Input.{input_of};
ghost use Rattle.ac_c.specs.Batches.{GivesNothing, walk_from, Gives, walk_due};
ghost use Rattle.ac_c.specs.Statuses.{walk_status};
ghost use Rattle.ac_c.specs.Steps.{GivesFirst, HasTaken, IsOfWalk, WalkStandsAt, WalksUnless};

use crate::reader::Reader;
use crate::search::{Cursor, FoundMatch, Span};
use crate::status::{ARGUMENTS, OK, refusal_status};
use ac_search::{AhoCorasick, FindIter, Input, Match, MatchError};
use std::alloc::Global;

/// Writes the next matches of a walk over a span to `out`, and their number to `filled`, and moves the cursor past them.
/// Fewer than `out` has room for are written only where no more follow.
///
/// Returns `OK`; or `ARGUMENTS`, `ANCHORED` or `UNANCHORED`: then `filled` is 0, and all else is as it was.
#[unsafe(no_mangle)]
pub extern "C" fn ac_raw_walk(
    reader: &mut Reader,
    haystack: &[u8],
    span: &Span,
    cursor: &mut Cursor,
    out: &mut [FoundMatch],
    filled: &mut usize,
) -> i32
    ensures status { result ≡ walk_status reader.old.held.searcher haystack.now span.now }
    ensures walks { result ≡ OK
        → Gives (walk_due reader.old.held.searcher haystack.now span.now) cursor.old cursor.new out.old out.new filled.new }
    ensures otherwise { result ≢ OK → GivesNothing cursor.old cursor.new out.old out.new filled.new }
    ensures reader { reader.new ≡ reader.old }
{
    *filled = 0;
    let Some(input) = span.input(haystack) else {
        return ARGUMENTS;
    };
    let mut here = cursor.in_span(span.start);
    match walk(&reader.get().searcher, input, &mut here, out) {
        Ok(written) => {
            *cursor = here;
            *filled = written;
            OK
        }
        Err(error) => refusal_status(error),
    }
}

/// Writes the next matches from the cursor on, and moves it past them. Returns how many they are.
fn walk(
    searcher: &AhoCorasick,
    input: Input<'_>,
    cursor: &mut Cursor,
    out: &mut [FoundMatch],
) -> Result<usize, MatchError>
    requires within { (input_of input).start ≤ cursor.old.at }
    ensures walks { WalksUnless searcher.now (input_of input.entry) cursor.old cursor.new out.old out.new result }
    ensures within { (input_of input.entry).start ≤ cursor.new.at }
{
    let start = cursor.at.min(input.end());
    let mut matches = searcher.try_find_iter(input.range(start..input.end()))?;
    if cursor.at > input.end() {
        return Ok(0);
    }
    for filled in 0..out.len() {
        match next(&mut matches, cursor) {
            Some(found) => out[filled] = FoundMatch::of(found),
            None => {
                *cursor = Cursor::past(input.haystack());
                return Ok(filled);
            }
        }
    }
    Ok(out.len())
}

/// Returns the next match, and moves the cursor past it.
fn next<'a, 'h>(matches: &mut FindIter<'a, 'h, Global>, cursor: &mut Cursor) -> Option<Match>
    requires { WalkStandsAt matches.old cursor.old }
    ensures same { IsOfWalk matches.old matches.new }
    ensures gives { GivesFirst
        (λ cursor. walk_from matches.old.picking.order matches.old.left cursor) cursor.old result cursor.new }
    ensures stands { IfSome result (λ _. WalkStandsAt matches.new cursor.new) }
    ensures onward { cursor.old.at ≤ cursor.new.at }
{
    let found = take(matches, cursor)?;
    *cursor = Cursor {
        at: found.end(),
        given: 1,
    };
    Some(found)
}

/// Takes the next match after the cursor. An iterator begins with no match before it, so it may return the empty match
/// at the cursor again, which was given.
fn take<'a, 'h>(matches: &mut FindIter<'a, 'h, Global>, cursor: &Cursor) -> Option<Match>
    requires { WalkStandsAt matches.old cursor.now }
    ensures { HasTaken matches.old cursor.now result matches.new }
{
    let found = matches.next();
    match found {
        Some(m) if cursor.given != 0 && m.is_empty() && m.end() == cursor.at => matches.next(),
        _ => found,
    }
}
