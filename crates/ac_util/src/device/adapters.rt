//! Readers made of any `Read`, and writers made of any `Write`.
ghost use Rattle.std.specs.Prelude.{◌≡◌, true, None};

use super::misses::Misses;
use super::{Sink, Source};
use crate::history::Remembered;
use std::io;
use std::io::{Read, Write};
use std::marker::Model;

/// A reader that reads from any `Read`. Contracts see the bytes that are left where the `Read` reports them.
///
/// A `Read` that is lent by `&mut` stays lent until this is dropped.
#[derive(Drop)]
pub struct FromRead<R: Read + Drop> {
    inner: R,
    // The reader as it was after the last read that succeeded. A failed read changes none of the bytes that it
    // reports.
    known: Remembered<R>,
    misses: Misses,
}

impl<R: Read + Drop> Model for FromRead<R> {
    ghost use Rattle.std.specs.Io.KnownBytes.{Keeps};
    ghost use Rattle.ac_util.specs.Device.{Reading};

    ghost Value = { Reading };

    ghost view = { λ b. record { left = R.remaining b.known.value; failed = b.misses.failed; error = b.misses.error; empties = b.misses.idles; blanks = b.misses.blanks } };

    ghost invariant = { λ b. Keeps (R.remaining b.known.value) (R.remaining b.inner) };
}

impl<R: Read + Drop> FromRead<R> {
    /// Returns a reader over `inner`.
    pub fn new(inner: R) -> FromRead<R>
        ensures { result ≡ record { left = R.remaining inner; failed = 0; error = None; empties = 0; blanks = 0 } }
    {
        let known = Remembered::of(&inner);
        FromRead {
            inner,
            known,
            misses: Misses::none(),
        }
    }
}

impl<R: Read + Drop> Source for FromRead<R> {
    ghost told = { λ b. b };

    // A `Read` that reports its bytes gives none only at their end, if there was room.
    ghost empty_means_end = { true };

    fn read_some(&mut self, into: &mut [u8]) -> io::Result<usize> {
        match self.inner.read(into) {
            Ok(n) => {
                self.known = Remembered::of(&self.inner);
                self.misses.record(n, into.len());
                Ok(n)
            }
            Err(e) => Err(self.misses.fail(e, into.len())),
        }
    }
}

/// A writer that writes to any `Write`. Contracts see the bytes that were written where the `Write` reports them.
///
/// A `Write` that is lent by `&mut` stays lent until this is dropped.
#[derive(Drop)]
pub struct IntoWrite<W: Write + Drop> {
    inner: W,
    // The writer as it was after the last write that succeeded. A failed write changes none of the bytes that
    // it reports.
    known: Remembered<W>,
    misses: Misses,
}

impl<W: Write + Drop> Model for IntoWrite<W> {
    ghost use Rattle.std.specs.Io.KnownBytes.{Keeps};
    ghost use Rattle.ac_util.specs.Device.{Writing};

    ghost Value = { Writing };

    ghost view = { λ w. record { written = W.contents w.known.value; failed = w.misses.failed; error = w.misses.error; idles = w.misses.idles; blanks = w.misses.blanks } };

    ghost invariant = { λ w. Keeps (W.contents w.known.value) (W.contents w.inner) };
}

impl<W: Write + Drop> IntoWrite<W> {
    /// Returns a writer over `inner`.
    pub fn new(inner: W) -> IntoWrite<W>
        ensures { result ≡ record { written = W.contents inner; failed = 0; error = None; idles = 0; blanks = 0 } }
    {
        let known = Remembered::of(&inner);
        IntoWrite {
            inner,
            known,
            misses: Misses::none(),
        }
    }
}

impl<W: Write + Drop> Sink for IntoWrite<W> {
    ghost told = { λ w. w };

    fn write_some(&mut self, piece: &[u8]) -> io::Result<usize> {
        match self.inner.write(piece) {
            Ok(n) => {
                self.known = Remembered::of(&self.inner);
                self.misses.record(n, piece.len());
                Ok(n)
            }
            Err(e) => Err(self.misses.fail(e, piece.len())),
        }
    }
}
