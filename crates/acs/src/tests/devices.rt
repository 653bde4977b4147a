//! A device that does little at once, pauses, or fails, and counts its calls.
ghost use Rattle.std.specs.Prelude.{◌≡◌, IfOk};

use std::alloc::{AllocError, Global};
use std::io;
use std::io::{ErrorKind, Read, Write};

/// How many bytes a device has room for before it takes more memory.
const ROOM: usize = 64;

/// A reader of the bytes that it holds, or a writer that holds what it took. A call gives or takes nothing, or fails, once
/// the device has no more to give or stops to take.
#[derive(Drop)]
pub(crate) struct Device {
    pub(crate) held: Vec<u8>,
    /// How many of these bytes were read.
    pub(crate) read: usize,
    /// How many bytes a call gives or takes at most.
    pub(crate) piece: usize,
    /// After how many bytes it stops. A reader goes on after a call that gave nothing.
    pub(crate) room: usize,
    /// Whether calls fail where nothing is given or taken.
    pub(crate) fails: bool,
    /// How many calls there were.
    pub(crate) calls: usize,
    /// How many bytes the largest call was about.
    pub(crate) most: usize,
}

impl Device {
    /// Returns a device that gives these bytes, with no limit.
    pub(crate) fn of(held: Vec<u8>) -> Device {
        Device {
            held,
            read: 0,
            piece: usize::MAX,
            room: usize::MAX,
            fails: false,
            calls: 0,
            most: 0,
        }
    }

    /// Returns one that gives a copy of these bytes.
    pub(crate) fn giving(alloc: Global, bytes: &[u8]) -> Result<Device, AllocError> {
        Ok(Device::of(Vec::from_slice(alloc, bytes)?))
    }

    /// Returns one that takes all bytes, some of them without further memory.
    pub(crate) fn taking(alloc: Global) -> Result<Device, AllocError> {
        Ok(Device::of(Vec::with_capacity(alloc, ROOM)?))
    }

    /// Answers a call that gives or takes nothing.
    fn nothing(&self) -> io::Result<usize>
        ensures { IfOk result (λ n. n ≡ 0) }
    {
        if self.fails {
            return Err(io::Error::from(ErrorKind::BrokenPipe));
        }
        Ok(0)
    }

    /// Counts a call about so many bytes.
    fn count(&mut self, len: usize) {
        self.calls = self.calls.saturating_add(1);
        self.most = self.most.max(len);
    }
}

impl Read for Device {
    fn read(&mut self, into: &mut [u8]) -> io::Result<usize> {
        self.count(into.len());
        let left = self.held.get(self.read..).unwrap_or(&[]);
        let n = left.len().min(into.len()).min(self.piece).min(self.room);
        into[..n].copy_from_slice(&left[..n]);
        if n == 0 {
            self.room = usize::MAX;
            return self.nothing();
        }
        self.read = self.read.saturating_add(n);
        self.room -= n;
        Ok(n)
    }
}

impl Write for Device {
    fn write(&mut self, piece: &[u8]) -> io::Result<usize> {
        self.count(piece.len());
        let n = piece.len().min(self.piece).min(self.room);
        if n == 0 {
            return self.nothing();
        }
        self.held.extend_from_slice(&piece[..n])?;
        self.room -= n;
        Ok(n)
    }

    fn flush(&mut self) -> io::Result<()> {
        Ok(())
    }
}
