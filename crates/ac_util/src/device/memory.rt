//! A reader and a writer of bytes in memory.
ghost use Rattle.std.specs.Prelude.{◌≡◌, true, [], None, Some, IfErr, IfOk, length, IfSome, Ok, min};
ghost use Rattle.std.specs.IoError.{error_kind};
ghost use Rattle.std.specs.declared.io.ErrorKind.TheVariants.{OutOfMemory};
ghost use Rattle.ac_util.specs.Device.{Reads, Writes};

use super::misses::Misses;
use super::{Sink, Source};
use std::alloc::Allocator;
use std::io;
use std::io::Read;
use std::marker::Model;

/// A reader of a slice of bytes. It never fails.
#[derive(Drop)]
pub struct Bytes<'a> {
    left: &'a [u8],
    misses: Misses,
}

impl<'a> Model for Bytes<'a> {
    ghost use Rattle.std.specs.Prelude.{Some};
    ghost use Rattle.ac_util.specs.Device.{Reading};

    ghost Value = { Reading };

    ghost view = { λ b. record { left = Some b.left.now; failed = b.misses.failed; error = b.misses.error; empties = b.misses.idles; blanks = b.misses.blanks } };
}

impl<'a> Bytes<'a> {
    /// Returns a reader of these bytes.
    pub fn new(bytes: &'a [u8]) -> Bytes<'a>
        ensures { result ≡ record { left = Some bytes.now; failed = 0; error = None; empties = 0; blanks = 0 } }
    {
        Bytes {
            left: bytes,
            misses: Misses::none(),
        }
    }
}

impl<'a> Source for Bytes<'a> {
    ghost told = { λ b. b };

    ghost empty_means_end = { true };

    /// Never fails, and gives all bytes that are left, or as many as fit.
    fn read_some(&mut self, into: &mut [u8]) -> io::Result<usize>
        ensures reads { Reads true self.old self.new result into.new }
        ensures full { IfSome self.old.left (λ bytes. result ≡ Ok (min (length bytes) (length into.old))) }
    {
        let n = self.left.read(into)?;
        self.misses.record(n, into.len());
        Ok(n)
    }
}

/// A writer that collects all that is written to it in memory. It fails only where a request for memory is refused.
#[derive(Drop)]
pub struct Written<A: Allocator> {
    bytes: Vec<u8, A>,
    misses: Misses,
}

impl<A: Allocator> Model for Written<A> {
    ghost use Rattle.std.specs.Prelude.{Some};
    ghost use Rattle.ac_util.specs.Device.{Writing};

    ghost Value = { Writing };

    ghost view = { λ w. record { written = Some w.bytes.items; failed = w.misses.failed; error = w.misses.error; idles = w.misses.idles; blanks = w.misses.blanks } };
}

impl<A: Allocator> Written<A> {
    /// Returns a writer that holds nothing yet. It takes no memory.
    pub fn new(alloc: A) -> Written<A>
        ensures { result ≡ record { written = Some []; failed = 0; error = None; idles = 0; blanks = 0 } }
    {
        Written {
            bytes: Vec::new(alloc),
            misses: Misses::none(),
        }
    }

    /// Returns all bytes that were written so far.
    pub fn bytes(&self) -> &[u8]
        ensures { self.now.written ≡ Some result.now }
    {
        self.bytes.as_slice()
    }
}

impl<A: Allocator> Sink for Written<A> {
    ghost told = { λ w. w };

    /// Fails only where a request for memory is refused, and else takes all.
    fn write_some(&mut self, piece: &[u8]) -> io::Result<usize>
        ensures writes { Writes self.old self.new result piece.now }
        ensures whole { IfOk result (λ n. n ≡ length piece.now) }
        ensures refused { IfErr result (λ e. error_kind e ≡ OutOfMemory) }
    {
        match self.bytes.extend_from_slice(piece) {
            Ok(()) => {
                self.misses.record(piece.len(), piece.len());
                Ok(piece.len())
            }
            Err(e) => Err(self.misses.fail(e.into(), piece.len())),
        }
    }
}
