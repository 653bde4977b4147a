//! Runs of the program, from their words to their last line.
use super::{Call, Room, Trial};
use crate::fault::Fault;
use crate::run::{Outcome, run};
use crate::tests::devices::Device;
use ac_search::{FromRead, IntoWrite};
use std::alloc::{Allocator, Global};
use std::test::Fail;

/// The input of each run.
const INPUT: &[u8] = b"abcxab";

/// The words of a run, and what it writes.
#[derive(Clone, Copy)]
pub(super) struct Row {
    words: &'static [&'static str],
    written: &'static [u8],
}

/// Words, and what is written for the input.
const ROWS: [Row; 7] = [
    Row {
        words: &["find", "std", "dfa", "ab", "c"],
        written: b"0 0 2\n",
    },
    Row {
        words: &["walk", "first", "auto", "ab", "c"],
        written: b"0 0 2\n1 2 3\n0 4 6\n",
    },
    Row {
        words: &["overlap", "std", "contiguous", "ab", "b"],
        written: b"0 0 2\n1 1 2\n0 4 6\n1 5 6\n",
    },
    Row {
        words: &["stream", "std", "noncontiguous", "ab", "c"],
        written: b"0 0 2\n1 2 3\n0 4 6\n",
    },
    Row {
        words: &["stream", "longest", "auto", "ab", "abc"],
        written: b"1 0 3\n0 4 6\n",
    },
    Row {
        words: &["replace", "std", "auto", "ab", "-", "c", "+"],
        written: b"-+x-",
    },
    Row {
        words: &["sreplace", "first", "auto", "ab", "-", "c", "+"],
        written: b"-+x-",
    },
];

impl Row {
    /// Returns what a run comes to that ended so, by its devices.
    fn ended(self, ending: Result<Outcome, Fault>, from: &Device, into: &Device) -> Room {
        let written = into.held.as_slice();
        let is_begun = self.written.starts_with(written) && written.len() < self.written.len();
        match ending {
            Ok(Outcome::Found) => {
                Room::of_answer(written == self.written && from.read == INPUT.len())
            }
            Err(Fault::Memory) if is_begun && (from.read > 0 || written.is_empty()) => {
                Room::Lacking
            }
            _ => Room::Other("another end of a run"),
        }
    }

    /// Runs from one device into another.
    fn room_between<A: Allocator + Clone>(
        self,
        alloc: A,
        from: &mut Device,
        into: &mut Device,
    ) -> Room {
        let ending = run(
            alloc,
            self.words,
            &mut FromRead::new(&mut *from),
            &mut IntoWrite::new(&mut *into),
        );
        self.ended(ending, from, into)
    }

    /// Returns what a run comes to, whose devices take the usual memory before it.
    pub(super) fn room<A: Allocator + Clone>(self, usual: Global, alloc: A) -> Room {
        match (Device::giving(usual, INPUT), Device::taking(usual)) {
            (Ok(mut from), Ok(mut into)) => self.room_between(alloc, &mut from, &mut into),
            _ => Room::Lacking,
        }
    }
}

/// Tries each run.
pub(super) fn try_each(alloc: Global, trial: Trial) -> Result<(), Fail> {
    for row in ROWS {
        trial.tries(alloc, Call::Run(row))?;
    }
    Ok(())
}
