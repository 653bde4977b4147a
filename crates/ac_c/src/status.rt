//! The statuses that calls return. Those of a call that has done nothing are below 0.
ghost use Rattle.std.specs.Prelude.{◌≡◌};
ghost use Rattle.ac_c.specs.Statuses.{refusal_status};

use ac_search::MatchError;

/// Done; where something is looked for, nothing was found.
pub const OK: i32 = 0;

/// Something was found.
pub const FOUND: i32 = 1;

/// An argument names nothing: a number that stands for no setting, ends of texts that fall or lie past the bytes, another
/// number of texts than of patterns, or a span that doesn't lie in the haystack.
pub const ARGUMENTS: i32 = -1;

/// A request for memory was refused.
pub const MEMORY: i32 = -2;

/// There are too many patterns, a pattern is too long, or the engine would need too many states.
pub const LIMIT: i32 = -3;

/// The search is anchored, and the searcher or the call supports no anchored search.
pub const ANCHORED: i32 = -4;

/// The search is unanchored, and the searcher supports anchored searches only.
pub const UNANCHORED: i32 = -5;

/// The search is overlapping, and the searcher's match kind isn't `MatchKind::Standard`.
pub const OVERLAPPING: i32 = -6;

/// The text comes in pieces, and some pattern is empty.
pub const EMPTY_PATTERN: i32 = -7;

/// Returns the status of a refused search.
pub fn refusal_status(error: MatchError) -> i32
    ensures { result ≡ refusal_status error }
{
    match error {
        MatchError::InvalidInputAnchored => ANCHORED,
        MatchError::InvalidInputUnanchored => UNANCHORED,
        MatchError::UnsupportedOverlapping { .. } | MatchError::UnsupportedStream { .. } =>
            OVERLAPPING,
        MatchError::UnsupportedEmpty => EMPTY_PATTERN,
    }
}
