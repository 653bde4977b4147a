//! Readers that fail or pause, and modes that are refused before a read.
use super::{Ending, INPUT, LINES, STREAMED, WORDS, WRITTEN, ends_with};
use crate::fault::Fault;
use crate::run::{Outcome, status};
use crate::tests::devices::Device;
use crate::tests::same_by;
use std::alloc::{AllocError, Global};
use std::process::Abort;
use std::test::Fail;

/// Tests what was written once these bytes were read one by one, and the next read failed.
fn fails_after(
    rt: &impl Abort,
    alloc: Global,
    words: &[&str],
    given: &[u8],
    written: &[u8],
) -> Result<(), AllocError> {
    let mut from = Device::giving(alloc, given)?;
    from.piece = 1;
    from.fails = true;
    let mut into = Device::taking(alloc)?;
    let end = (Err(Fault::Io), written);
    ends_with(rt, alloc, words, &mut from, &mut into, end);
    Ok(())
}

#[test]
fn a_failed_read_is_reported(rt: HostRuntime) -> Result<(), Fail> {
    for &(words, _) in WRITTEN {
        for k in 0..INPUT.len() + 1 {
            fails_after(&rt, rt.alloc(), words, &INPUT[..k], b"")?;
        }
    }
    Ok(())
}

/// The first bytes of the input, and what either stream has written where they were read and no more came: the lines of the
/// matches so far, and the replaced text but for an `a` that may be the first byte of a match.
const SO_FAR: &[(&[u8], [&[u8]; 2])] = &[
    (b"", [b"", b""]),
    (b"a", [b"", b""]),
    (b"ab", [b"0 0 2\n", b"-"]),
    (b"abc", [b"0 0 2\n1 2 3\n", b"-+"]),
    (b"abcx", [b"0 0 2\n1 2 3\n", b"-+"]),
    (b"abcxa", [b"0 0 2\n1 2 3\n", b"-+x"]),
    (INPUT, [LINES, b"-+x-"]),
];

/// Before each read of a stream all is written that is settled: it stands where the read fails.
#[test]
fn a_failed_read_leaves_what_is_settled(rt: HostRuntime) -> Result<(), Fail> {
    for &(given, [lines, replaced]) in SO_FAR {
        fails_after(&rt, rt.alloc(), STREAMED[0].0, given, lines)?;
        fails_after(&rt, rt.alloc(), STREAMED[1].0, given, replaced)?;
    }
    Ok(())
}

/// A reader fails in the middle of a word that may be exchanged.
#[test]
fn a_failed_read_holds_back_what_may_match(rt: HostRuntime) -> Result<(), Fail> {
    let words = [
        "sreplace", "std", "auto", "fox", "sloth", "brown", "grey", "quick", "slow",
    ];
    fails_after(&rt, rt.alloc(), &words, b"The quick br", b"The slow")?;
    Ok(())
}

/// Tests how a run ends whose reader pauses after so many bytes of the input, and how many of them are read.
fn reads_until(
    rt: &impl Abort,
    alloc: Global,
    words: &[&str],
    room: usize,
    end: (Ending, &[u8]),
    read: usize,
) -> Result<(), AllocError> {
    let mut from = Device::giving(alloc, INPUT)?;
    from.room = room;
    let mut into = Device::taking(alloc)?;
    ends_with(rt, alloc, words, &mut from, &mut into, end);
    same_by(rt, from.read, read, &words);
    Ok(())
}

#[test]
fn a_read_of_nothing_is_the_end(rt: HostRuntime) -> Result<(), Fail> {
    let end = (Ok(Outcome::Found), b"0 0 2\n1 2 3\n".as_slice());
    reads_until(&rt, rt.alloc(), WORDS, 3, end, 3)?;
    Ok(())
}

/// Words of modes that a kind or an empty word refuses, and the fault.
const REFUSED: &[(&[&str], Fault)] = &[
    (&["overlap", "first", "auto", "a"], Fault::OverlappingKind),
    (&["overlap", "longest", "auto", "a"], Fault::OverlappingKind),
    (&["stream", "std", "auto", "a", ""], Fault::StreamEmpty),
    (&["stream", "longest", "auto", "a", ""], Fault::StreamEmpty),
    (&["sreplace", "std", "auto", "", "b"], Fault::StreamEmpty),
    (&["sreplace", "first", "auto", "", "b"], Fault::StreamEmpty),
];

#[test]
fn a_refused_mode_reads_and_writes_nothing(rt: HostRuntime) -> Result<(), Fail> {
    for &(words, fault) in REFUSED {
        assert!(rt; status(&Err(fault)) == 2);
        let end = (Err(fault), b"".as_slice());
        reads_until(&rt, rt.alloc(), words, usize::MAX, end, 0)?;
    }
    Ok(())
}
