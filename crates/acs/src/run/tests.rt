//! Runs over devices that do little, pause or fail. What they write otherwise is tried with the built program: its runs stand
//! in runs.txt.
use super::{Outcome, run, status};
use crate::fault::Fault;
use crate::tests::devices::Device;
use crate::tests::same_by;
use ac_search::{FromRead, IntoWrite};
use std::alloc::Global;
use std::process::Abort;

mod reads;
mod sizes;
mod worked;
mod writes;

/// How a run ends.
type Ending = Result<Outcome, Fault>;

/// The words of a walk, its input and its lines.
const WORDS: &[&str] = &["walk", "std", "noncontiguous", "ab", "c"];

const INPUT: &[u8] = b"abcxab";

const LINES: &[u8] = b"0 0 2\n1 2 3\n0 4 6\n";

/// The words of a walk and of a replacement over this input, which is read whole first, and what each writes.
const WRITTEN: &[(&[&str], &[u8])] = &[
    (WORDS, LINES),
    (
        &["replace", "std", "noncontiguous", "ab", "-", "c", "+"],
        b"-+x-",
    ),
];

/// The words of the same in a stream.
const STREAMED: &[(&[&str], &[u8])] = &[
    (&["stream", "std", "auto", "ab", "c"], LINES),
    (&["sreplace", "std", "auto", "ab", "-", "c", "+"], b"-+x-"),
];

/// Runs from one device into another.
fn run_between(alloc: Global, words: &[&str], from: &mut Device, into: &mut Device) -> Ending {
    run(
        alloc,
        words,
        &mut FromRead::new(from),
        &mut IntoWrite::new(into),
    )
}

/// Tests how a run from one device into another ends, and that these bytes stand in that one then.
fn ends_with(
    rt: &impl Abort,
    alloc: Global,
    words: &[&str],
    from: &mut Device,
    into: &mut Device,
    (ending, written): (Ending, &[u8]),
) {
    same_by(rt, run_between(alloc, words, from, into), ending, &words);
    same_by(rt, into.held.as_slice(), written, &words);
}

/// Each fault, and what its line says after the program's name.
const FAULTS: &[(Fault, &str)] = &[
    (Fault::Usage, "usage: acs MODE KIND ENGINE WORD.."),
    (Fault::Memory, "out of memory"),
    (Fault::TooManyPatterns, "too many patterns"),
    (Fault::PatternTooLong, "pattern too long"),
    (Fault::TooManyStates, "too many states"),
    (Fault::OverlappingKind, "overlapping search needs std"),
    (Fault::StreamKind, "stream search needs std"),
    (Fault::StreamEmpty, "stream search refuses an empty pattern"),
    (Fault::Io, "input or output failed"),
    (Fault::WriteZero, "output took no byte"),
    (Fault::TooLong, "stream too long"),
];

#[test]
fn endings_have_a_status_and_a_line(rt: HostRuntime) {
    assert_eq!(rt; status(&Ok(Outcome::Found)), 0);
    assert_eq!(rt; status(&Ok(Outcome::Nothing)), 1);
    for (fault, line) in FAULTS {
        same_by(&rt, status(&Err(*fault)), 2, fault);
        same_by(&rt, fault.line().strip_prefix("acs: "), Some(*line), fault);
    }
}
