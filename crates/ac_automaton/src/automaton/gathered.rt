//! Bytes on their way to a writer, gathered so that one write takes many pieces.
ghost use Rattle.std.specs.Prelude.{◌≡◌, ◌+◌, ◌≤◌, ◌++◌, [], length};
ghost use Rattle.ac_automaton.specs.declared.automaton.gathered.TheConstants.{ROOM};
ghost use Rattle.ac_automaton.specs.Exchanges.{GathersOrFails, WritesHeld};

use ac_util::device::{Sink, WriteError, write_all};
use std::marker::Model;

/// How many bytes there is room for. A piece of this length or more is written by itself, since copying it would cost
/// more than a write.
const ROOM: usize = 8192;

/// The bytes that are held back before they are written, in an array of their own: it takes no memory. Contracts see
/// them alone.
#[derive(Drop)]
pub(super) struct Gathered {
    buffer: [u8; ROOM],
    /// How many bytes of the buffer are held back.
    held: usize,
}

impl Model for Gathered {
    ghost use Rattle.std.specs.Prelude.{◌≤◌, ℕ, List, take};
    ghost use Rattle.ac_automaton.specs.declared.automaton.gathered.TheConstants.{ROOM};

    ghost Value = { List ℕ };

    ghost view = { λ g. take g.held g.buffer };

    ghost invariant = { λ g. g.held ≤ ROOM };
}

impl Gathered {
    /// Returns a buffer that holds nothing back.
    pub(super) fn new() -> Gathered
        ensures { result ≡ [] }
    {
        Gathered {
            buffer: [0; ROOM],
            held: 0,
        }
    }

    /// Takes a piece, and first writes what is held back if there is no room for the piece. A long piece is written at
    /// once, after what is held back.
    ///
    /// # Errors
    /// As `write_all`: of what was held back and the piece a beginning was written then, and not all of it.
    pub(super) fn write<W: Sink>(&mut self, writer: &mut W, piece: &[u8]) -> Result<(), WriteError>
        ensures { GathersOrFails (W.told writer.old) (W.told writer.new) self.old piece.now self.new result }
    {
        if piece.len() >= ROOM {
            self.write_held(writer)?;
            return write_all(writer, piece);
        }
        if piece.len() > ROOM - self.held {
            self.write_held(writer)?;
        }
        self.hold(piece);
        Ok(())
    }

    /// Holds back a piece for which there is room.
    fn hold(&mut self, piece: &[u8])
        requires room { length self.old + length piece.now ≤ ROOM }
        ensures { self.new ≡ self.old ++ piece.now }
    {
        let end = self.held + piece.len();
        self.buffer[self.held..end].copy_from_slice(piece);
        self.held = end;
    }

    /// Writes all that is held back.
    ///
    /// # Errors
    /// As `write_all`.
    pub(super) fn write_held<W: Sink>(&mut self, writer: &mut W) -> Result<(), WriteError>
        ensures { WritesHeld (W.told writer.old) (W.told writer.new) self.old self.new result }
    {
        write_all(writer, &self.buffer[..self.held])?;
        self.held = 0;
        Ok(())
    }
}
