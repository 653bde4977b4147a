//! A reader and a writer over slices, which do little at once and fail, and how streams end over them.
use crate::{MatchError, Misses, Sink, Source, StreamError};
use std::io;
use std::io::{ErrorKind, Write};
use std::marker::Model;

/// How many calls of a reader are good that never fails.
pub(super) const ALWAYS: usize = 1_000_000;

/// The kind of the errors by which a reader fails here.
pub(super) const READ: ErrorKind = ErrorKind::BrokenPipe;

/// The kind of those of a writer.
pub(super) const WRITE: ErrorKind = ErrorKind::PermissionDenied;

/// Gives so many bytes a call at most. After so many calls it fails once, or gives none, and would go on.
#[derive(Drop)]
pub(super) struct Pieces<'a> {
    pub(super) left: &'a [u8],
    most: usize,
    good: usize,
    stop: Option<ErrorKind>,
    misses: Misses,
}

impl<'a> Model for Pieces<'a> {
    ghost use Rattle.std.specs.Prelude.{None};
    ghost use Rattle.ac_util.specs.Device.{Reading};

    ghost Value = { Reading };

    ghost view = { λ p. record { left = None; failed = p.misses.failed; error = p.misses.error; empties = p.misses.idles; blanks = p.misses.blanks } };
}

impl<'a> Pieces<'a> {
    /// Returns a reader that fails after so many calls.
    pub(super) fn new(bytes: &'a [u8], most: usize, good: usize) -> Pieces<'a> {
        Pieces::stopping(bytes, most, good, Some(READ))
    }

    /// Returns a reader that fails then by an error of this kind, or gives none.
    pub(super) fn stopping(
        bytes: &'a [u8],
        most: usize,
        good: usize,
        stop: Option<ErrorKind>,
    ) -> Pieces<'a> {
        Pieces {
            left: bytes,
            most,
            good,
            stop,
            misses: Misses::none(),
        }
    }
}

impl<'a> Source for Pieces<'a> {
    ghost use Rattle.std.specs.Prelude.{false};

    ghost told = { λ p. p };

    ghost empty_means_end = { false };

    fn read_some(&mut self, into: &mut [u8]) -> io::Result<usize> {
        let stops = self.good == 0;
        self.good = if stops { ALWAYS } else { self.good - 1 };
        if let (true, Some(kind)) = (stops, self.stop) {
            return Err(self.misses.fail(io::Error::from(kind), into.len()));
        }
        let most = if stops { 0 } else { self.most };
        let left = self.left;
        let n = most.min(left.len()).min(into.len());
        into[..n].copy_from_slice(&left[..n]);
        self.misses.record(n, into.len());
        self.left = &left[n..];
        Ok(n)
    }
}

/// Takes so many bytes a call at most while its space has room; then it fails, or takes none.
#[derive(Drop)]
pub(super) struct Few<'a> {
    pub(super) room: &'a mut [u8],
    most: usize,
    fails: bool,
    misses: Misses,
}

impl<'a> Model for Few<'a> {
    ghost use Rattle.std.specs.Prelude.{None};
    ghost use Rattle.ac_util.specs.Device.{Writing};

    ghost Value = { Writing };

    ghost view = { λ w. record { written = None; failed = w.misses.failed; error = w.misses.error; idles = w.misses.idles; blanks = w.misses.blanks } };
}

impl<'a> Few<'a> {
    pub(super) fn new(room: &'a mut [u8], most: usize, fails: bool) -> Few<'a> {
        Few {
            room,
            most,
            fails,
            misses: Misses::none(),
        }
    }
}

impl<'a> Sink for Few<'a> {
    ghost told = { λ w. w };

    fn write_some(&mut self, piece: &[u8]) -> io::Result<usize> {
        let n = self.most.min(piece.len());
        let n = self.room.write(&piece[..n])?;
        if n == 0 && self.fails {
            return Err(self.misses.fail(io::Error::from(WRITE), piece.len()));
        }
        self.misses.record(n, piece.len());
        Ok(n)
    }
}

/// How a call over a stream ended: of an `io::Error`, its kind.
#[derive(Clone, Copy, PartialEq, Eq, Debug)]
pub(super) enum End {
    Whole,
    Refused(MatchError),
    Memory,
    Io(ErrorKind),
    WriteZero,
    TooLong,
}

pub(super) fn end_of(ended: Result<(), StreamError>) -> End {
    match ended {
        Ok(()) => End::Whole,
        Err(StreamError::Match(refusal)) => End::Refused(refusal),
        Err(StreamError::Memory) => End::Memory,
        Err(StreamError::Io(e)) => End::Io(e.kind()),
        Err(StreamError::WriteZero) => End::WriteZero,
        Err(StreamError::TooLong) => End::TooLong,
    }
}
