//! Of writers: what they take of a piece, and what they hold after a failure.
use super::{BROKEN, Outcome, write};
use crate::tests::same;
use ac_util::device::{IntoWrite, WriteError, Written};
use std::alloc::{AllocError, Global};
use std::io;
use std::io::{ErrorKind, Write};
use std::test::Fail;

/// Takes one byte a call and three in all, and fails once where it holds `cut` bytes.
#[derive(Drop)]
pub(super) struct Narrow<'a> {
    held: &'a mut Vec<u8>,
    cut: Option<usize>,
}

impl<'a> Write for Narrow<'a> {
    fn write(&mut self, piece: &[u8]) -> io::Result<usize> {
        if self.cut == Some(self.held.len()) {
            self.cut = None;
            return Err(io::Error::from(ErrorKind::BrokenPipe));
        }
        match piece.first() {
            Some(byte) if self.held.len() < 3 => {
                self.held.push(*byte)?;
                Ok(1)
            }
            _ => Ok(0),
        }
    }

    fn flush(&mut self) -> io::Result<()> {
        Ok(())
    }
}

/// Writes `abc` in five writes, each of what is left, to a sink that fails once where it holds `cut` bytes.
fn cut_writes(held: &mut Vec<u8>, cut: Option<usize>) -> [Outcome; 5] {
    let mut sink = IntoWrite::new(Narrow { held, cut });
    let mut answers = [Ok(0); 5];
    let mut piece: &[u8] = b"abc";
    for turn in 0..5 {
        answers[turn] = write(&mut sink, piece);
        if answers[turn] == Ok(1) && !piece.is_empty() {
            piece = &piece[1..];
        }
    }
    answers
}

/// Returns whether such writes answer this, and `abc` is held after them.
fn are_written(
    alloc: Global,
    cut: Option<usize>,
    wanted: [Outcome; 5],
) -> Result<bool, AllocError> {
    let mut held = Vec::with_capacity(alloc, 3)?;
    let answers = cut_writes(&mut held, cut);
    Ok(answers == wanted && held.as_slice() == b"abc".as_slice())
}

/// Writes a piece, and once more where memory is refused.
fn write_again(sink: &mut Written<Global>, piece: &[u8]) -> Outcome {
    match write(sink, piece) {
        Err(ErrorKind::OutOfMemory) => write(sink, piece),
        answer => answer,
    }
}

#[test]
fn all_that_has_room_is_written_at_once(rt: HostRuntime) -> Result<(), Fail> {
    let mut held = Vec::with_capacity(rt.alloc(), 5)?;
    let mut sink = IntoWrite::new(&mut held);
    let answers = [
        write(&mut sink, b"abcd"),
        write(&mut sink, b"e"),
        write(&mut sink, b""),
    ];
    drop(sink);
    same(&rt, answers, [Ok(4), Ok(1), Ok(0)]);
    same(&rt, held.as_slice(), b"abcde".as_slice());
    Ok(())
}

#[test]
fn what_is_written_is_held(rt: HostRuntime) {
    let mut sink = Written::new(rt.alloc());
    same(&rt, sink.bytes(), b"".as_slice());
    let answers = [
        write_again(&mut sink, b"ab"),
        write_again(&mut sink, b""),
        write_again(&mut sink, b"c"),
        write_again(&mut sink, b"defghijklmn"),
    ];
    same(&rt, answers, [Ok(2), Ok(0), Ok(1), Ok(11)]);
    same(&rt, sink.bytes(), b"abcdefghijklmn".as_slice());
}

#[test]
fn writes_go_through(rt: HostRuntime) -> Result<(), Fail> {
    let alloc = rt.alloc();
    let whole = [Ok(1), Ok(1), Ok(1), Ok(0), Ok(0)];
    assert!(rt; are_written(alloc, None, whole)?);
    let first = [BROKEN, Ok(1), Ok(1), Ok(1), Ok(0)];
    assert!(rt; are_written(alloc, Some(0), first)?);
    let between = [Ok(1), Ok(1), BROKEN, Ok(1), Ok(0)];
    assert!(rt; are_written(alloc, Some(2), between)?);
    Ok(())
}

#[test]
fn a_failed_write_is_an_io_error(rt: HostRuntime) {
    let broken = io::Error::from(ErrorKind::BrokenPipe);
    let failed = WriteError::Io(broken).into_error().kind();
    same(&rt, failed, ErrorKind::BrokenPipe);
    let nothing = WriteError::WriteZero.into_error().kind();
    same(&rt, nothing, ErrorKind::WriteZero);
}
