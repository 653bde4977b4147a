//! The right to read a searcher that C lends: a share of it, as its address.
//!
//! What a `Reader` owns, and that it lends the searcher, is proved by hand.
ghost use Rattle.std.specs.Prelude.{ℕ};
ghost use Rattle.ac_c.specs.declared.handle.held.Held.{Held};
ghost use Rattle.ac_c.specs.Ownership.{held_row, part_owns};

use std::marker::{Model, Send};

mod lend;

/// The right to read the searcher of a handle, whose address it has. C makes one of a handle that isn't empty, and uses it
/// no longer than the handle. Each call has its own, in any thread: it owns a share of the searcher.
#[repr(C)]
#[derive(Drop)]
pub struct Reader {
    /// The address of what is lent.
    pub at: *const u8,
    /// What is lent.
    pub ghost held: { Held },
    /// The lifetime for which it is shared.
    pub ghost lifetime: { ℕ },
    /// How many parts of that lifetime the reader has.
    pub ghost parts: { ℕ },
}

impl Model for Reader {
    ghost also_owns = { λ r. part_owns held_row r.at r.held r.lifetime r.parts };
}

unsafe impl Send for Reader {}
