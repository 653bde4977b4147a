//! The matches of a walk, each found anew.
ghost use Rattle.std.specs.Prelude.{◌≡◌};
ghost use Rattle.ac_util.specs.Plain.{AnswersItems};
ghost use Rattle.ac_util.specs.Walk.{next_match, walk};

use super::{Query, find};
use crate::search::{Match, MatchKind};
use std::alloc::{AllocError, Global};

/// Returns the next match of a walk, after one that ended at `last`.
///
/// It is the pick, unless that is empty and ends there again: then the pick from the next place on.
pub fn next_match(kind: MatchKind, query: &Query, last: Option<usize>) -> Option<Match>
    ensures { result ≡ next_match kind query.now last }
{
    let picked = find(kind, query)?;
    if picked.is_empty() && last == Some(picked.end()) {
        find(kind, &query.from(query.low + 1))
    } else {
        Some(picked)
    }
}

/// Returns the matches of the span, one after another.
///
/// Each is looked for from the end of the one before it, so none overlaps another.
///
/// # Errors
/// `AllocError` where a request for memory is refused.
pub fn walk(alloc: Global, kind: MatchKind, query: &Query) -> Result<Vec<Match>, AllocError>
    ensures { AnswersItems (walk kind query.now) result }
{
    let mut matches = Vec::new(alloc);
    let mut next = next_match(kind, query, None);
    while let Some(found) = next {
        matches.push(found)?;
        next = next_match(kind, &query.from(found.end()), Some(found.end()));
    }
    Ok(matches)
}
