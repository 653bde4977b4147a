//! All occurrences of a search, found by trying each offset that its span has room for.
ghost use Rattle.std.specs.Prelude.{◌≤◌, filter};
ghost use Rattle.ac_util.specs.Listing.{all, places_at, places_ending_at};
ghost use Rattle.ac_util.specs.Plain.{Adds, AnswersItems};
ghost use Rattle.ac_util.specs.Occurrence.{occurs};

use super::Query;
use crate::search::Match;
use std::alloc::{AllocError, Global};

/// Returns all occurrences, ordered by end, then by start, then by pattern number.
///
/// # Errors
/// `AllocError` where a request for memory is refused.
pub fn listing(alloc: Global, query: &Query) -> Result<Vec<Match>, AllocError>
    ensures { AnswersItems (all query.now) result }
{
    let mut found = Vec::new(alloc);
    for end in query.low..query.high + 1 {
        add_ending_at(query, end, &mut found)?;
    }
    Ok(found)
}

/// Adds the occurrences that end at a place, by start and then by pattern number.
fn add_ending_at(query: &Query, end: usize, found: &mut Vec<Match>) -> Result<(), AllocError>
    requires { end ≤ query.now.high }
    ensures { Adds found.old found.new (filter (occurs query.now) (places_ending_at query.now end)) result }
{
    for start in query.low..end + 1 {
        add_at(query, start, end, found)?;
    }
    Ok(())
}

/// Adds the occurrences from a start to an end, by pattern number.
fn add_at(query: &Query, start: usize, end: usize, found: &mut Vec<Match>) -> Result<(), AllocError>
    ensures { Adds found.old found.new (filter (occurs query.now) (places_at query.now end start)) result }
{
    for number in 0..query.patterns.len() {
        if query.occurs(number, start, end) {
            found.push(Match::must(number, start..end))?;
        }
    }
    Ok(())
}
