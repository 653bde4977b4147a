//! What tests compare by, and a reader that fails.
ghost use Rattle.std.specs.Iterator.{IsFinite};

use ac_search::Match;
use std::alloc::{AllocError, Global};
use std::fmt::Debug;
use std::io;
use std::io::{ErrorKind, Read};
use std::process::Abort;

/// A pattern number, a start and an end.
pub(crate) type Triple = (usize, usize, usize);

/// Ends the test where what was found is not what was wanted. It is proved once, and `assert_eq!` where it stands.
pub(crate) fn same<T: PartialEq + Debug + Drop>(rt: &impl Abort, found: T, wanted: T) {
    assert_eq!(rt; found, wanted);
}

/// Returns the numbers of a match.
pub(crate) fn triple_of(m: &Match) -> Triple {
    (m.pattern().as_usize(), m.start(), m.end())
}

/// Returns the numbers of each match of an iterator.
pub(crate) fn triples_of<I: Iterator<Item = Match>>(
    alloc: Global,
    matches: I,
) -> Result<Vec<Triple>, AllocError>
    requires can { I.can_next matches }
    requires finite { IsFinite (I.remaining matches) }
{
    let mut triples = Vec::new(alloc);
    for found in matches {
        triples.push(triple_of(&found))?;
    }
    Ok(triples)
}

/// How many reads succeed of a reader that never fails.
pub(crate) const ALWAYS: usize = usize::MAX;

/// Gives its bytes one a read, and fails once so many reads have succeeded.
#[derive(Drop)]
pub(crate) struct ByteByByte<'b> {
    left: &'b [u8],
    good: usize,
}

impl<'b> ByteByByte<'b> {
    pub(crate) fn new(bytes: &'b [u8], good: usize) -> ByteByByte<'b> {
        ByteByByte { left: bytes, good }
    }
}

impl<'b> Read for ByteByByte<'b> {
    fn read(&mut self, into: &mut [u8]) -> io::Result<usize> {
        if self.good == 0 {
            return Err(io::Error::from(ErrorKind::BrokenPipe));
        }
        self.good -= 1;
        match (self.left.split_first(), into.first_mut()) {
            (Some((byte, rest)), Some(room)) => {
                *room = *byte;
                self.left = rest;
                Ok(1)
            }
            _ => Ok(0),
        }
    }
}
