//! What readers and writers note of their calls.
ghost use Rattle.std.specs.Prelude.{◌≡◌, ◌+◌, None, Some};
ghost use Rattle.ac_util.specs.Device.{blank, idle};

use crate::history::Remembered;
use crate::tally::Tally;
use std::io;
use std::marker::Model;

/// How often a call failed, the error of the last one that did, how often one moved no byte though there was room, and how
/// often there was no room, as in a read into an empty slice or a write of an empty piece: what contracts see of a reader or a
/// writer beside its bytes.
///
/// A `Source` or a `Sink` of your own keeps one, and tells it of each call. At run time it takes no memory and no work.
#[derive(Drop)]
pub struct Misses {
    failed: Tally,
    error: Remembered<Option<io::Error>>,
    idles: Tally,
    blanks: Tally,
}

impl Model for Misses {
    ghost use Rattle.ac_util.specs.Device.{Missed};

    ghost Value = { Missed };

    ghost view = { λ m. record { failed = m.failed.number; error = m.error.value; idles = m.idles.number; blanks = m.blanks.number } };
}

impl Misses {
    /// Returns what is noted before the first call.
    pub fn none() -> Misses
        ensures { result ≡ record { failed = 0; error = None; idles = 0; blanks = 0 } }
    {
        Misses {
            failed: Tally::zero(),
            error: Remembered::of(&None),
            idles: Tally::zero(),
            blanks: Tally::zero(),
        }
    }

    /// Counts a call that failed with this error where there was room for so many bytes, and returns the error.
    pub fn fail(&mut self, error: io::Error, room: usize) -> io::Error
        ensures gives { result ≡ error }
        ensures failed { self.new ≡ record self.old {
          failed = self.old.failed + 1;
          error = Some error;
          blanks = self.old.blanks + blank room;
        } }
    {
        self.count_blank(room);
        self.failed = Tally::after(&self.failed);
        let error = Some(error);
        self.error = Remembered::of(&error);
        error.unwrap()
    }

    /// Counts a call that moved so many bytes where there was room for so many, if it moved none or there was no room.
    pub fn record(&mut self, moved: usize, room: usize)
        ensures { self.new ≡ record self.old {
          idles = self.old.idles + idle moved room;
          blanks = self.old.blanks + blank room;
        } }
    {
        self.count_blank(room);
        if moved == 0 && room > 0 {
            self.idles = Tally::after(&self.idles);
        }
    }

    /// Counts a call if there was no room.
    fn count_blank(&mut self, room: usize)
        ensures { self.new ≡ record self.old { blanks = self.old.blanks + blank room } }
    {
        if room == 0 {
            self.blanks = Tally::after(&self.blanks);
        }
    }
}
