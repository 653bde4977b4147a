//! What a person is shown of an error.
use crate::tests::same;
use ac_util::error::{BuildError, MatchError, ReplaceError, StreamError};
use ac_util::primitives::PatternID;
use ac_util::search::MatchKind;
use std::alloc::Global;
use std::error::Error;
use std::fmt::Display;
use std::process::Abort;
use std::test::Fail;

/// Compares what a person is shown of an error.
fn compare_shown<E: Error + Display>(
    rt: &impl Abort,
    alloc: Global,
    error: &E,
    wanted: &str,
) -> Result<(), Fail> {
    let shown = format!(in alloc; "{}", *error)?;
    same(rt, shown.as_str(), wanted);
    Ok(())
}

#[test]
fn errors_are_shown(rt: HostRuntime) -> Result<(), Fail> {
    let alloc = rt.alloc();
    let memory = "a request for memory was refused";
    compare_shown(&rt, alloc, &BuildError::Memory, memory)?;
    compare_shown(&rt, alloc, &ReplaceError::Memory, memory)?;
    compare_shown(&rt, alloc, &StreamError::Memory, memory)?;
    let long = BuildError::PatternTooLong {
        pattern: PatternID::must(3),
        len: 2147483647,
    };
    let text = "the pattern with the number 3 is too long: it has 2147483647 bytes";
    compare_shown(&rt, alloc, &long, text)?;
    let kind = MatchError::UnsupportedOverlapping {
        got: MatchKind::LeftmostFirst,
    };
    let text = "overlapping searches are not supported with LeftmostFirst";
    compare_shown(&rt, alloc, &kind, text)?;
    compare_shown(&rt, alloc, &ReplaceError::Match(kind), text)?;
    compare_shown(&rt, alloc, &StreamError::Match(kind), text)
}
