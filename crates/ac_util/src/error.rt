//! The errors of builds and of searches.
ghost use Rattle.ac_util.specs.declared.error.BuildError.TheVariants.{Memory};
ghost use Rattle.std.specs.Prelude.{◌≡◌};

use crate::device::WriteError;
use crate::primitives::PatternID;
use crate::search::MatchKind;
use std::alloc::{AllocError, AllocFailed};
use std::io;
use thiserror::Error;

/// Why no automaton was built. The limits are checked in the order of the cases after `Memory`. This ports
/// `BuildError`.
#[derive(Clone, Copy, PartialEq, Eq, Debug, Error)]
pub enum BuildError {
    /// A request for memory was refused.
    #[error("a request for memory was refused")]
    Memory,
    /// There are more patterns than `PatternID::LIMIT`.
    #[error("a pattern would have the number {requested}, and the greatest is {max}")]
    PatternIdOverflow {
        /// The greatest number that a pattern may have.
        max: u64,
        /// The number that the last pattern would have.
        requested: u64,
    },
    /// A pattern is longer than `PatternID::MAX` bytes.
    #[error("the pattern with the number {} is too long: it has {len} bytes", .pattern.as_usize())]
    PatternTooLong {
        /// The number of the first such pattern.
        pattern: PatternID,
        /// How many bytes it has.
        len: usize,
    },
    /// An automaton would need more states than it has numbers for.
    #[error("a state would have the number {requested}, and the greatest is {max}")]
    StateIdOverflow {
        /// The greatest number that a state may have.
        max: u64,
        /// The number that would be needed.
        requested: u64,
    },
}

impl From<AllocError> for BuildError {
    ghost from_gives = { λ _ e. e ≡ Memory };

    fn from(_refused: AllocError) -> BuildError {
        BuildError::Memory
    }
}

impl<T: Drop> From<AllocFailed<T>> for BuildError {
    ghost from_gives = { λ _ e. e ≡ Memory };

    fn from(_refused: AllocFailed<T>) -> BuildError {
        BuildError::Memory
    }
}

/// Why a search is refused: the settings of its searcher, or the anchoring of its input, rule it out. This ports
/// `MatchError`.
///
/// The haystack has no influence: a refused call has read nothing, written nothing and changed nothing.
#[derive(Clone, Copy, PartialEq, Eq, Debug, Error)]
pub enum MatchError {
    /// The input is anchored, and the searcher supports no anchored search or the call has no anchored form.
    #[error("anchored searches are not supported")]
    InvalidInputAnchored,
    /// The search is unanchored, and the searcher supports anchored searches only.
    #[error("unanchored searches are not supported")]
    InvalidInputUnanchored,
    /// The search is overlapping, which needs `MatchKind::Standard`.
    #[error("overlapping searches are not supported with {got:?}")]
    UnsupportedOverlapping {
        /// The match kind of the searcher.
        got: MatchKind,
    },
    /// The search is over a stream, with a match kind that supports none. No call returns it, since every match kind
    /// supports streams here; upstream's streams need `MatchKind::Standard`.
    #[error("searches of streams are not supported with {got:?}")]
    UnsupportedStream {
        /// The match kind of the searcher.
        got: MatchKind,
    },
    /// The search is over a stream, and some pattern is empty.
    #[error("searches of streams are not supported with an empty pattern")]
    UnsupportedEmpty,
}

/// Why a replacement didn't return a whole text.
#[derive(Clone, Copy, PartialEq, Eq, Debug, Error)]
pub enum ReplaceError {
    /// The search is refused: nothing was appended, and no closure was called.
    #[error("{0}")]
    Match(MatchError),
    /// A request for memory was refused. The destination has what was appended before.
    #[error("a request for memory was refused")]
    Memory,
}

impl From<MatchError> for ReplaceError {
    ghost use Rattle.ac_util.specs.declared.error.ReplaceError.TheVariants.{Match};
    ghost use Rattle.std.specs.Prelude.{◌≡◌};

    ghost from_gives = { λ refusal e. e ≡ Match refusal };

    fn from(refusal: MatchError) -> ReplaceError {
        ReplaceError::Match(refusal)
    }
}

impl From<AllocError> for ReplaceError {
    ghost use Rattle.std.specs.Prelude.{◌≡◌};
    ghost use Rattle.ac_util.specs.declared.error.ReplaceError.TheVariants.{Memory};

    ghost from_gives = { λ _ e. e ≡ Memory };

    fn from(_refused: AllocError) -> ReplaceError {
        ReplaceError::Memory
    }
}

/// Why a stream was not searched, or not replaced, up to its end.
#[derive(Debug, Drop, Error)]
pub enum StreamError {
    /// The search is refused: nothing was read or written, and no closure was called.
    #[error("{0}")]
    Match(MatchError),
    /// The memory for a buffer was refused: nothing was read or written, and no closure was called.
    #[error("a request for memory was refused")]
    Memory,
    /// A read or a write failed, or a call of the closure did.
    #[error("{0}")]
    Io(io::Error),
    /// A write took no byte of a piece that isn't empty.
    #[error("a write took no byte")]
    WriteZero,
    /// More bytes came than a `usize` counts.
    #[error("more bytes came than can be counted")]
    TooLong,
}

impl From<MatchError> for StreamError {
    ghost use Rattle.ac_util.specs.declared.error.StreamError.TheVariants.{Match};
    ghost use Rattle.std.specs.Prelude.{◌≡◌};

    ghost from_gives = { λ refusal e. e ≡ Match refusal };

    fn from(refusal: MatchError) -> StreamError {
        StreamError::Match(refusal)
    }
}

impl From<AllocError> for StreamError {
    ghost use Rattle.std.specs.Prelude.{◌≡◌};
    ghost use Rattle.ac_util.specs.declared.error.StreamError.TheVariants.{Memory};

    ghost from_gives = { λ _ e. e ≡ Memory };

    fn from(_refused: AllocError) -> StreamError {
        StreamError::Memory
    }
}

impl From<WriteError> for StreamError {
    ghost use Rattle.std.specs.Prelude.{◌≡◌};
    ghost use Rattle.ac_util.specs.Stream.{error_of};

    ghost from_gives = { λ failure e. e ≡ error_of failure };

    fn from(failure: WriteError) -> StreamError {
        match failure {
            WriteError::Io(e) => StreamError::Io(e),
            WriteError::WriteZero => StreamError::WriteZero,
        }
    }
}
