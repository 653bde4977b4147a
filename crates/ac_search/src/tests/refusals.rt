//! Each engine refuses as rows say.
use super::engines::{ALL, Engine, builder_of, engines};
use super::replace::compare_refused;
use super::rows::PREFIXES;
use super::same_by;
use crate::MatchKind::{LeftmostFirst, LeftmostLongest, Standard};
use crate::StartKind::{Both, Unanchored};
use crate::{AhoCorasick, Anchored, Input, MatchError, MatchKind, OverlappingState, StartKind};
use std::alloc::Global;
use std::process::Abort;
use std::test::Fail;

/// Why a search is refused.
type Refusal = Option<MatchError>;

const NOT_ANCHORED: Refusal = Some(MatchError::InvalidInputAnchored);

const NOT_UNANCHORED: Refusal = Some(MatchError::InvalidInputUnanchored);

const NOT_FIRST: Refusal = Some(MatchError::UnsupportedOverlapping { got: LeftmostFirst });

const NOT_LONGEST: Refusal = Some(MatchError::UnsupportedOverlapping {
    got: LeftmostLongest,
});

/// A start kind, a match kind and an anchoring, and why a find and a walk, an overlapping search by a state, and one by an
/// iterator are refused, if they are.
type Row = (StartKind, MatchKind, Anchored, Refusal, Refusal, Refusal);

const ROWS: &[Row] = &[
    (Unanchored, Standard, Anchored::No, None, None, None),
    (
        Unanchored,
        Standard,
        Anchored::Yes,
        NOT_ANCHORED,
        NOT_ANCHORED,
        NOT_ANCHORED,
    ),
    (
        Unanchored,
        LeftmostFirst,
        Anchored::No,
        None,
        NOT_FIRST,
        NOT_FIRST,
    ),
    (
        Unanchored,
        LeftmostFirst,
        Anchored::Yes,
        NOT_ANCHORED,
        NOT_ANCHORED,
        NOT_ANCHORED,
    ),
    (
        StartKind::Anchored,
        Standard,
        Anchored::No,
        NOT_UNANCHORED,
        NOT_UNANCHORED,
        NOT_UNANCHORED,
    ),
    (
        StartKind::Anchored,
        Standard,
        Anchored::Yes,
        None,
        None,
        NOT_ANCHORED,
    ),
    (
        StartKind::Anchored,
        LeftmostLongest,
        Anchored::No,
        NOT_UNANCHORED,
        NOT_UNANCHORED,
        NOT_UNANCHORED,
    ),
    (Both, Standard, Anchored::No, None, None, None),
    (Both, Standard, Anchored::Yes, None, None, NOT_ANCHORED),
    (
        Both,
        LeftmostLongest,
        Anchored::Yes,
        None,
        NOT_LONGEST,
        NOT_LONGEST,
    ),
];

/// Returns why searches of an input are refused: a find, a walk, one by a state and one by an iterator.
fn refusals_of(searcher: &AhoCorasick, input: Input<'_>) -> [Refusal; 4] {
    let mut state = OverlappingState::start();
    [
        searcher.try_find(input).err(),
        searcher.try_find_iter(input).err(),
        searcher.try_find_overlapping(input, &mut state).err(),
        searcher.try_find_overlapping_iter(input).err(),
    ]
}

/// Compares why the searches of an engine are refused, also in a span that starts past its end, with what a row says.
fn compare_row(
    rt: &impl Abort,
    alloc: Global,
    engine: &Engine,
    (start_kind, kind, anchored, find, by_state, by_iterator): Row,
) -> Result<(), Fail> {
    let builder = builder_of(engine, kind, start_kind);
    let searcher = builder.build(alloc, PREFIXES)?;
    let input = Input::new(b"abcd").anchored(anchored);
    for input in [input, input.range(1..0)] {
        let wanted = [find, find, by_state, by_iterator];
        same_by(rt, refusals_of(&searcher, input), wanted, &builder);
    }
    Ok(())
}

#[test]
fn each_engine_refuses_alike(rt: HostRuntime) -> Result<(), Fail> {
    for engine in &engines(rt.alloc(), ALL)? {
        for &row in ROWS {
            compare_row(&rt, rt.alloc(), engine, row)?;
        }
    }
    Ok(())
}

#[test]
fn each_engine_refuses_to_replace(rt: HostRuntime) -> Result<(), Fail> {
    for engine in &engines(rt.alloc(), ALL)? {
        let builder = builder_of(engine, Standard, StartKind::Anchored);
        let searcher = builder.build(rt.alloc(), &[b"a"])?;
        compare_refused(&rt, rt.alloc(), &searcher)?;
    }
    Ok(())
}
