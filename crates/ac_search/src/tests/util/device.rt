//! Readers and writers.
ghost use Rattle.std.specs.Prelude.{◌≤◌, IfOk};

mod reads;
mod writes;

use crate::tests::same;
use ac_util::device::{Bytes, FromRead, IntoWrite, Sink, Source, Written};
use reads::Drops;
use std::alloc::Global;
use std::io;
use std::io::{ErrorKind, Read, Write};
use std::process::Abort;
use std::test::Fail;
use writes::Narrow;

/// How many bytes a call moved, or the kind of its error.
type Outcome = Result<usize, ErrorKind>;

const BROKEN: Outcome = Err(ErrorKind::BrokenPipe);

const INTERRUPTED: Outcome = Err(ErrorKind::Interrupted);

/// What the calls of a `Logs` are to answer.
const ANSWERS: &[Outcome] = &[Ok(7), BROKEN, Ok(1), INTERRUPTED, Ok(0), Ok(8)];

/// Answers as it was set to, and keeps how many bytes each call was about; a flush is `usize::MAX`.
#[derive(Drop)]
struct Logs<'a> {
    calls: &'a mut Vec<usize>,
    answers: &'a [Outcome],
}

impl<'a> Logs<'a> {
    /// Answers a call that is about so many bytes.
    fn answer(&mut self, room: usize) -> io::Result<usize>
        ensures { IfOk result (λ n. n ≤ room) }
    {
        self.calls.push(room)?;
        let Some((answer, later)) = self.answers.split_first() else {
            return Ok(0);
        };
        self.answers = later;
        match answer {
            Ok(n) => Ok((*n).min(room)),
            Err(kind) => Err(io::Error::from(*kind)),
        }
    }
}

impl<'a> Read for Logs<'a> {
    fn read(&mut self, into: &mut [u8]) -> io::Result<usize> {
        self.answer(into.len())
    }
}

impl<'a> Write for Logs<'a> {
    fn write(&mut self, piece: &[u8]) -> io::Result<usize> {
        self.answer(piece.len())
    }

    fn flush(&mut self) -> io::Result<()> {
        self.calls.push(usize::MAX)?;
        Ok(())
    }
}

/// Reads from any source.
fn read<S: Source>(source: &mut S, into: &mut [u8]) -> Outcome {
    source.read_some(into).map_err(|e| e.kind())
}

/// Writes to any sink.
fn write<S: Sink>(sink: &mut S, piece: &[u8]) -> Outcome {
    sink.write_some(piece).map_err(|e| e.kind())
}

/// How many bytes a large read or write is about: more than nine million.
const LARGE: usize = 9 << 20;

/// Compares calls that are about so many bytes with the answers of a `Logs`, by a reader and by a writer.
fn compare_calls(rt: &impl Abort, alloc: Global, bytes: &mut [u8]) {
    let (mut reads, mut writes) = (Vec::new(alloc), Vec::new(alloc));
    let mut source = FromRead::new(Logs {
        calls: &mut reads,
        answers: ANSWERS,
    });
    for answer in ANSWERS {
        same(rt, read(&mut source, bytes), *answer);
    }
    drop(source);
    same(rt, reads.as_slice(), [bytes.len(); 6].as_slice());
    let mut sink = IntoWrite::new(Logs {
        calls: &mut writes,
        answers: ANSWERS,
    });
    for answer in ANSWERS {
        same(rt, write(&mut sink, bytes), *answer);
    }
    drop(sink);
    same(rt, writes.as_slice(), [bytes.len(); 6].as_slice());
}

#[test]
fn each_call_is_one_call(rt: HostRuntime) -> Result<(), Fail> {
    compare_calls(&rt, rt.alloc(), &mut [b'-'; 8]);
    let mut bytes = Vec::new(rt.alloc());
    bytes.resize(LARGE, b'-')?;
    compare_calls(&rt, rt.alloc(), &mut bytes);
    Ok(())
}

#[test]
fn large_pieces_are_written_whole(rt: HostRuntime) -> Result<(), Fail> {
    let mut bytes = Vec::new(rt.alloc());
    bytes.resize(LARGE, b'-')?;
    let mut sink = Written::new(rt.alloc());
    for _ in 0..5 {
        same(&rt, write(&mut sink, &bytes), Ok(LARGE));
    }
    same(&rt, sink.bytes().len(), 5 * LARGE);
    Ok(())
}

#[test]
fn adapters_take_no_bytes(rt: HostRuntime) {
    same(&rt, size_of::<Bytes<'static>>(), size_of::<&'static [u8]>());
    same(
        &rt,
        size_of::<FromRead<Drops<'static>>>(),
        size_of::<Drops<'static>>(),
    );
    same(&rt, size_of::<Written<Global>>(), size_of::<Vec<u8>>());
    same(
        &rt,
        size_of::<IntoWrite<Narrow<'static>>>(),
        size_of::<Narrow<'static>>(),
    );
}
