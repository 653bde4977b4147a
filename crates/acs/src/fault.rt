//! Why a run fails.
ghost use Rattle.std.specs.Prelude.{◌≡◌};
ghost use Rattle.acs.specs.declared.fault.Fault.TheVariants.{Memory as OutOfMemory};
ghost use Rattle.acs.specs.Faults.{fault_of, line_of, refusal_fault_of, stream_fault_of, write_fault_of};

use ac_search::{BuildError, MatchError, StreamError, WriteError};
use std::alloc::AllocError;

/// Why a run fails.
#[derive(Clone, Copy, PartialEq, Eq, Debug)]
pub enum Fault {
    /// The words name no mode, match kind and engine that the program has, or a pattern that is to be replaced has
    /// no text.
    Usage,
    /// A request for memory was refused.
    Memory,
    /// There are more patterns than pattern numbers.
    TooManyPatterns,
    /// A pattern is too long.
    PatternTooLong,
    /// The patterns need more states than there are state numbers.
    TooManyStates,
    /// An overlapping search is asked for by a leftmost kind.
    OverlappingKind,
    /// A stream search is asked for by a match kind that has none. Each has one, so no run answers it.
    StreamKind,
    /// A stream search is asked for with an empty pattern.
    StreamEmpty,
    /// A read or a write failed.
    Io,
    /// A write took no byte.
    WriteZero,
    /// A stream has more bytes than a `usize` counts.
    TooLong,
}

impl Fault {
    /// Returns the line that reports the fault, without its end.
    pub fn line(&self) -> &'static str
        ensures { result.now ≡ line_of self.now }
    {
        match self {
            Fault::Usage => "acs: usage: acs MODE KIND ENGINE WORD..",
            Fault::Memory => "acs: out of memory",
            Fault::TooManyPatterns => "acs: too many patterns",
            Fault::PatternTooLong => "acs: pattern too long",
            Fault::TooManyStates => "acs: too many states",
            Fault::OverlappingKind => "acs: overlapping search needs std",
            Fault::StreamKind => "acs: stream search needs std",
            Fault::StreamEmpty => "acs: stream search refuses an empty pattern",
            Fault::Io => "acs: input or output failed",
            Fault::WriteZero => "acs: output took no byte",
            Fault::TooLong => "acs: stream too long",
        }
    }
}

impl From<BuildError> for Fault {
    ghost from_gives = { λ e fault. fault ≡ fault_of e };

    fn from(refusal: BuildError) -> Fault {
        match refusal {
            BuildError::Memory => Fault::Memory,
            BuildError::PatternIdOverflow { .. } => Fault::TooManyPatterns,
            BuildError::PatternTooLong { .. } => Fault::PatternTooLong,
            BuildError::StateIdOverflow { .. } => Fault::TooManyStates,
        }
    }
}

impl From<MatchError> for Fault {
    ghost from_gives = { λ e fault. fault ≡ refusal_fault_of e };

    fn from(refusal: MatchError) -> Fault {
        match refusal {
            MatchError::InvalidInputAnchored | MatchError::InvalidInputUnanchored => Fault::Usage,
            MatchError::UnsupportedOverlapping { .. } => Fault::OverlappingKind,
            MatchError::UnsupportedStream { .. } => Fault::StreamKind,
            MatchError::UnsupportedEmpty => Fault::StreamEmpty,
        }
    }
}

impl From<StreamError> for Fault {
    ghost from_gives = { λ e fault. fault ≡ stream_fault_of e };

    fn from(failure: StreamError) -> Fault {
        match failure {
            StreamError::Match(refusal) => Fault::from(refusal),
            StreamError::Memory => Fault::Memory,
            StreamError::Io(_) => Fault::Io,
            StreamError::WriteZero => Fault::WriteZero,
            StreamError::TooLong => Fault::TooLong,
        }
    }
}

impl From<WriteError> for Fault {
    ghost from_gives = { λ e fault. fault ≡ write_fault_of e };

    fn from(failure: WriteError) -> Fault {
        match failure {
            WriteError::Io(_) => Fault::Io,
            WriteError::WriteZero => Fault::WriteZero,
        }
    }
}

impl From<AllocError> for Fault {
    ghost from_gives = { λ _ fault. fault ≡ OutOfMemory };

    fn from(_refused: AllocError) -> Fault {
        Fault::Memory
    }
}
