//! The last bytes of a text that comes in pieces.
ghost use Rattle.std.specs.Prelude.{◌≡◌, ◌⊎◌, ◌+◌, ◌<◌, ◌≤◌, ◌++◌, IfOk, length};
ghost use Rattle.ac_search.specs.Windows.{HasMadeRoom, clear_window, shown};

use std::alloc::{AllocError, Allocator};
use std::marker::Model;

/// The last bytes of a text that comes in pieces, in a buffer that never grows.
#[derive(Drop)]
pub(super) struct Window<Z: Allocator> {
    buffer: Vec<u8, Z>,
    /// How many bytes of the buffer are filled.
    filled: usize,
    /// Where in the text the buffer begins.
    front: usize,
}

impl<Z: Allocator> Model for Window<Z> {
    ghost use Rattle.std.specs.Prelude.{◌≤◌, length};
    ghost use Rattle.ac_search.specs.Windows.{WindowView, window_by};

    ghost Value = { WindowView };

    ghost view = { λ w. window_by w.buffer.items w.filled w.front };

    ghost invariant = { λ w. w.filled ≤ length w.buffer.items };
}

impl<Z: Allocator> Window<Z> {
    /// Returns a window of a size, over a text of which nothing came yet.
    ///
    /// # Errors
    /// `AllocError` where the memory for its buffer is refused.
    pub(super) fn new(alloc: Z, size: usize) -> Result<Window<Z>, AllocError>
        ensures clear { IfOk result (λ w. w ≡ clear_window size) }
        ensures small { IfOk result (λ w. size < 9223372036854775808) }
    {
        let mut buffer = Vec::new(alloc);
        buffer.resize(size, 0)?;
        Ok(Window {
            buffer,
            filled: 0,
            front: 0,
        })
    }

    /// Returns for how many bytes more there is room.
    pub(super) fn room(&self) -> usize
        ensures { length self.now.bytes + result ≡ self.now.size }
    {
        self.buffer.len() - self.filled
    }

    /// Returns the bytes of the text from one offset up to another.
    pub(super) fn bytes(&self, from: usize, to: usize) -> &[u8]
        requires after { self.now.front ≤ from }
        requires ordered { from ≤ to }
        requires within { to ≤ self.now.front + length self.now.bytes }
        ensures { result.now ≡ shown self.now from to }
    {
        &self.buffer[from - self.front..to - self.front]
    }

    /// Adds bytes that follow, for which there is room.
    pub(super) fn push(&mut self, bytes: &[u8])
        requires { length self.old.bytes + length bytes.now ≤ self.old.size }
        ensures { self.new ≡ record self.old { bytes = self.old.bytes ++ bytes.now } }
    {
        let end = self.filled + bytes.len();
        self.buffer[self.filled..end].copy_from_slice(bytes);
        self.filled = end;
    }

    /// Where it is full, drops the bytes before an offset, which move the others to its front.
    pub(super) fn make_room(&mut self, kept: usize)
        requires after { self.old.front ≤ kept }
        requires within { kept ≤ self.old.front + length self.old.bytes }
        ensures moved { HasMadeRoom self.old kept self.new }
        ensures room { (length self.new.bytes < self.new.size) ⊎ (self.new.front ≡ kept) }
    {
        if self.filled < self.buffer.len() {
            return;
        }
        let from = kept - self.front;
        self.buffer.copy_within(from..self.filled, 0);
        self.filled -= from;
        self.front = kept;
    }
}
