//! Matches replaced by texts.
ghost use Rattle.std.specs.Prelude.{◌≤◌, length, All, AllPairs};
ghost use Rattle.ac_util.specs.Patterns.{bytes_of};
ghost use Rattle.ac_util.specs.Plain.{AnswersItems, IsReplaceable, EndsBy};
ghost use Rattle.ac_util.specs.Replacement.{replaced};
ghost use Rattle.ac_util.specs.Walk.{walk};

use super::{Query, walk};
use crate::search::{Match, MatchKind};
use std::alloc::{AllocError, Global};

/// Returns the haystack with each match replaced by the text of its pattern.
///
/// The matches have to lie in the haystack, in order and apart, and each of their patterns has to have a text.
///
/// # Errors
/// `AllocError` where a request for memory is refused.
pub fn replaced(
    alloc: Global,
    haystack: &[u8],
    texts: &[&[u8]],
    matches: &[Match],
) -> Result<Vec<u8>, AllocError>
    requires each { All (IsReplaceable (length haystack.now) (length texts.now)) matches.now }
    requires apart { AllPairs EndsBy matches.now }
    ensures { AnswersItems (replaced haystack.now (bytes_of texts.now) matches.now) result }
{
    let mut bytes = Vec::new(alloc);
    let mut place = 0;
    for found in matches {
        bytes.extend_from_slice(&haystack[place..found.start()])?;
        bytes.extend_from_slice(texts[found.pattern().as_usize()])?;
        place = found.end();
    }
    bytes.extend_from_slice(&haystack[place..])?;
    Ok(bytes)
}

/// Returns the whole haystack with each match of a walk replaced by the text of its pattern.
///
/// There has to be a text for each pattern. The walk is that of the span; what lies outside it stays as it is.
///
/// # Errors
/// `AllocError` where a request for memory is refused.
pub fn replace_walk(
    alloc: Global,
    kind: MatchKind,
    query: &Query,
    texts: &[&[u8]],
) -> Result<Vec<u8>, AllocError>
    requires { length query.now.patterns ≤ length texts.now }
    ensures { AnswersItems (replaced query.now.haystack (bytes_of texts.now) (walk kind query.now)) result }
{
    let matches = walk(alloc, kind, query)?;
    replaced(alloc, query.haystack, texts, &matches)
}
