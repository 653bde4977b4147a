//! Readers and writers: where the bytes of a stream come from, and where they go.
ghost use Rattle.std.specs.Prelude.{Bool, MatchResult};
ghost use Rattle.ac_util.specs.Device.{IsIoErrorOf, Reading, Reads, Writing, Writes, WritesAll, WritesUntilFailure};

mod adapters;
mod memory;
mod misses;

pub use adapters::{FromRead, IntoWrite};
pub use memory::{Bytes, Written};
pub use misses::Misses;
use std::io;

/// A reader of bytes. `FromRead` makes one of any `Read`, and `Bytes` one of a slice.
///
/// Contracts see the bytes that it has left, where it reports them, how often a call failed, the error of the last one
/// that did, how often one gave no byte though there was room, and how often there was no room. These counts only rise, and
/// have no greatest number. No function of this library reads into an empty slice.
///
/// A read that gives no byte, though there was room, is taken for the end by whoever reads. Where `empty_means_end` is
/// true, the bytes that the reader reports are at their end then too; else it may have more to give later.
pub trait Source {
    ghost told: { Self → Reading };

    ghost empty_means_end: { Bool };

    /// Reads bytes into the beginning of `into`, and returns how many were read.
    ///
    /// # Errors
    /// Those of the reader. A call that fails takes no bytes from the reader, and may leave anything in `into`.
    fn read_some(&mut self, into: &mut [u8]) -> io::Result<usize>
        ensures { Reads empty_means_end (told self.old) (told self.new) result into.new };
}

/// A writer of bytes. `IntoWrite` makes one of any `Write`, and `Written` collects them in memory.
///
/// Contracts see the bytes that were written to it, where it reports them, how often a call failed, the error of the last
/// one that did, how often one took no byte of a piece that isn't empty, and how often a piece was empty. No function of this
/// library writes an empty piece.
pub trait Sink {
    ghost told: { Self → Writing };

    /// Writes bytes from the beginning of `piece`, and returns how many were written. It may be none.
    ///
    /// # Errors
    /// Those of the writer. A call that fails has written nothing.
    fn write_some(&mut self, piece: &[u8]) -> io::Result<usize>
        ensures { Writes (told self.old) (told self.new) result piece.now };
}

/// Why some bytes were not all written.
#[derive(Debug, Drop)]
pub enum WriteError {
    /// A write failed.
    Io(io::Error),
    /// A write took no byte of a piece that isn't empty.
    WriteZero,
}

impl WriteError {
    /// Returns the error of the write that failed, or one of kind `WriteZero` where a write took no byte: what a closure
    /// returns that replaces matches of a stream.
    ///
    /// See the example of `AhoCorasick::try_stream_replace_all_with`.
    pub fn into_error(self) -> io::Error
        ensures { IsIoErrorOf self result }
    {
        match self {
            WriteError::Io(e) => e,
            WriteError::WriteZero => io::Error::from(io::ErrorKind::WriteZero),
        }
    }
}

/// Makes `?` work where an `io::Error` is returned, in a crate that lists `ac_util`. `WriteError::into_error` does the same
/// everywhere.
impl From<WriteError> for io::Error {
    ghost from_gives = { IsIoErrorOf };

    fn from(error: WriteError) -> io::Error {
        error.into_error()
    }
}

/// Writes all of the bytes, with as many calls of the writer as that needs, and none for no bytes.
///
/// # Errors
/// `Io` where a write failed, and `WriteZero` where one took no byte: a beginning of the bytes was written then, and
/// not all of them.
pub fn write_all<W: Sink>(writer: &mut W, bytes: &[u8]) -> Result<(), WriteError>
    ensures { MatchResult result
        (λ _. WritesAll (W.told writer.old) (W.told writer.new) bytes.now)
        (WritesUntilFailure (W.told writer.old) (W.told writer.new) bytes.now) }
{
    let mut at = 0;
    while at < bytes.len() {
        match writer.write_some(&bytes[at..]) {
            Ok(0) => return Err(WriteError::WriteZero),
            Ok(n) => at += n,
            Err(e) => return Err(WriteError::Io(e)),
        }
    }
    Ok(())
}
