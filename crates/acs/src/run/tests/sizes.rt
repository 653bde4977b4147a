//! How many bytes the calls of a run over a large input are about.
use super::run_between;
use crate::run::Outcome;
use crate::tests::devices::Device;
use crate::tests::many;
use std::alloc::Global;
use std::test::Fail;

/// How many bytes the input has, each of which is a match: more than a mebibyte.
const LONG: usize = 1_100_000;

/// Runs a mode over many bytes of which each is a match, and returns how many bytes the largest read and write were about.
fn sizes_of(alloc: Global, mode: &str) -> Result<(usize, usize), Fail> {
    let mut from = Device::of(many(alloc, b'a', LONG, b"")?);
    let mut into = Device::taking(alloc)?;
    let words = [mode, "std", "auto", "a", "b"];
    match run_between(alloc, &words, &mut from, &mut into) {
        Ok(Outcome::Found) => Ok((from.most, into.most)),
        _ => Err(Fail::new("nothing is found")),
    }
}

/// A stream is read into the whole of its buffer, and written as it is read: no lines are held back for more reads.
#[test]
fn a_stream_is_read_and_written_in_large_pieces(rt: HostRuntime) -> Result<(), Fail> {
    let (read, written) = sizes_of(rt.alloc(), "stream")?;
    assert!(rt; read == 65536);
    assert!(rt; 4096 <= written && written < 131_072);
    Ok(())
}

/// Lines of a walk are written once there are many.
#[test]
fn lines_are_written_in_large_pieces(rt: HostRuntime) -> Result<(), Fail> {
    let (_, written) = sizes_of(rt.alloc(), "walk")?;
    assert!(rt; 65536 <= written && written < 131_072);
    Ok(())
}
