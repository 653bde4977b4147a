//! A number that only contracts see.
ghost use Rattle.std.specs.Prelude.{◌≡◌, ◌+◌};

use crate::history::History;
use std::marker::Model;

/// A count without a greatest number. Contracts read it as `number`; at run time it takes no bytes and no work.
#[derive(Drop)]
pub struct Tally {
    /// A byte for each one that was counted.
    strokes: History,
}

impl Model for Tally {
    ghost use Rattle.std.specs.Prelude.{length};
    ghost use Rattle.ac_util.specs.Input.{Tallied};

    ghost Value = { Tallied };

    ghost view = { λ t. record { number = length t.strokes.bytes } };
}

impl Tally {
    /// Returns a count of 0.
    #[inline]
    pub fn zero() -> Tally
        ensures { result.number ≡ 0 }
    {
        Tally {
            strokes: History::empty(),
        }
    }

    /// Returns a count of one more.
    #[inline]
    pub fn after(before: &Tally) -> Tally
        ensures { result.number ≡ before.now.number + 1 }
    {
        Tally {
            strokes: History::with(&before.strokes, b"|"),
        }
    }
}
