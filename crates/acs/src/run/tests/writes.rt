//! Writers that fail or take little.
use super::{Ending, INPUT, STREAMED, WRITTEN, ends_with};
use crate::fault::Fault;
use crate::run::Outcome;
use crate::tests::devices::Device;
use std::alloc::{AllocError, Global};
use std::process::Abort;
use std::test::Fail;

/// Tests how a run on these bytes ends whose reader gives so many bytes a call, and whose writer takes one a call and after
/// so many fails or takes none; and what the writer holds then.
fn writes_until(
    rt: &impl Abort,
    alloc: Global,
    words: &[&str],
    (given, piece): (&[u8], usize),
    fails: bool,
    end: (Ending, &[u8]),
) -> Result<(), AllocError> {
    let mut from = Device::giving(alloc, given)?;
    from.piece = piece;
    let mut into = Device::taking(alloc)?;
    into.piece = 1;
    into.room = end.1.len();
    into.fails = fails;
    ends_with(rt, alloc, words, &mut from, &mut into, end);
    Ok(())
}

/// The input, all at once.
const WHOLE: (&[u8], usize) = (INPUT, usize::MAX);

#[test]
fn a_failed_write_is_reported(rt: HostRuntime) -> Result<(), Fail> {
    for &(words, wanted) in WRITTEN.iter().chain(STREAMED) {
        for room in 0..wanted.len() {
            let taken = &wanted[..room];
            writes_until(&rt, rt.alloc(), words, WHOLE, true, (Err(Fault::Io), taken))?;
            writes_until(
                &rt,
                rt.alloc(),
                words,
                WHOLE,
                false,
                (Err(Fault::WriteZero), taken),
            )?;
        }
    }
    Ok(())
}

#[test]
fn short_reads_and_writes_change_nothing(rt: HostRuntime) -> Result<(), Fail> {
    for &(words, wanted) in WRITTEN.iter().chain(STREAMED) {
        let end = (Ok(Outcome::Found), wanted);
        writes_until(&rt, rt.alloc(), words, (INPUT, 1), true, end)?;
    }
    Ok(())
}

/// A writer that fails isn't asked to write nothing.
#[test]
fn an_empty_text_is_written_by_no_call(rt: HostRuntime) -> Result<(), Fail> {
    let words = ["replace", "std", "noncontiguous", "ab", ""];
    let end = (Ok(Outcome::Found), b"".as_slice());
    writes_until(&rt, rt.alloc(), &words, (b"abab", usize::MAX), true, end)?;
    Ok(())
}
