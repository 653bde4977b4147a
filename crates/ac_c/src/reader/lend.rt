//! Lends what a reader reads. The function stands apart from its type, whose row its first clause names.
ghost use Rattle.std.specs.Prelude.{◌≡◌, ⊤};
ghost use mathlib.Core.Option.{none};
ghost use types.Logic.{sem};
ghost use denote.Follow.{follows_so};
ghost use Rattle.ac_c.specs.contracts.reader.Reader.{the_row};

use super::Reader;
use crate::handle::held::Held;

impl Reader {
    /// Lends what it reads, as long as the reader is lent.
    pub fn get<'a>(&'a mut self) -> &'a Held
        ensures* kept { sem 𝓛 (follows_so the_row the_row self.entry.ghost_name none (λ _ _. ⊤) (λ v. v ≡ self.old)) }
        ensures value { result.now ≡ self.old.held }
    {
        unsafe { &*(self.at as *const Held) }
    }
}
