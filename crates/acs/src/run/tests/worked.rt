//! Worked runs by `run` over memory.
use super::{Ending, ends_with};
use crate::fault::Fault;
use crate::run::Outcome;
use crate::tests::devices::Device;
use crate::tests::same_by;
use std::test::Fail;

const SENTENCE: &[u8] = b"append the app to the appendage";

/// The words of a run, its input, how it ends, and what it writes.
type Row = (
    &'static [&'static str],
    &'static [u8],
    Ending,
    &'static [u8],
);

const FOUND: Ending = Ok(Outcome::Found);

const NOTHING: Ending = Ok(Outcome::Nothing);

/// Runs that read all of their input.
const RUNS: &[Row] = &[
    (
        &["find", "std", "noncontiguous", "he", "she", "his", "hers"],
        b"ushers",
        FOUND,
        b"1 1 4\n",
    ),
    (&["walk", "std", "noncontiguous"], b"ushers", NOTHING, b""),
    (&["walk", "std", "auto"], b"abc", NOTHING, b""),
    (
        &["stream", "std", "contiguous", "abc"],
        b"xxabcabc",
        FOUND,
        b"0 2 5\n0 5 8\n",
    ),
    (
        &[
            "replace",
            "first",
            "dfa",
            "append",
            "x",
            "appendage",
            "y",
            "app",
            "z",
        ],
        SENTENCE,
        FOUND,
        b"x the z to the xage",
    ),
    (
        &["replace", "std", "noncontiguous"],
        SENTENCE,
        FOUND,
        SENTENCE,
    ),
    (
        &[
            "sreplace",
            "longest",
            "auto",
            "append",
            "x",
            "appendage",
            "y",
            "app",
            "z",
        ],
        SENTENCE,
        FOUND,
        b"x the z to the y",
    ),
    (
        &[
            "sreplace",
            "first",
            "auto",
            "append",
            "x",
            "appendage",
            "y",
            "app",
            "z",
        ],
        SENTENCE,
        FOUND,
        b"x the z to the xage",
    ),
];

/// Runs that are refused, and read nothing.
const REFUSED: &[Row] = &[
    (&["walk", "std"], b"a", Err(Fault::Usage), b""),
    (
        &["replace", "std", "auto", "a"],
        b"a",
        Err(Fault::Usage),
        b"",
    ),
    (
        &["overlap", "first", "auto", "a"],
        b"a",
        Err(Fault::OverlappingKind),
        b"",
    ),
];

#[test]
fn runs_end_as_rows_say(rt: HostRuntime) -> Result<(), Fail> {
    for &(words, input, ending, written) in RUNS {
        let mut from = Device::giving(rt.alloc(), input)?;
        let mut into = Device::taking(rt.alloc())?;
        ends_with(
            &rt,
            rt.alloc(),
            words,
            &mut from,
            &mut into,
            (ending, written),
        );
        same_by(&rt, from.read, input.len(), &words);
    }
    Ok(())
}

#[test]
fn a_refused_run_reads_nothing(rt: HostRuntime) -> Result<(), Fail> {
    for &(words, input, ending, written) in REFUSED {
        let mut from = Device::giving(rt.alloc(), input)?;
        let mut into = Device::taking(rt.alloc())?;
        ends_with(
            &rt,
            rt.alloc(),
            words,
            &mut from,
            &mut into,
            (ending, written),
        );
        same_by(&rt, (from.read, from.calls), (0, 0), &words);
    }
    Ok(())
}
