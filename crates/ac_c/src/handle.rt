//! A searcher on the heap, or none, as one address that C holds.
//!
//! What `Handle` and `RawBox` own is proved by hand, since they keep a box as a bare address.
ghost use Rattle.std.specs.Prelude.{◌≡◌, IfOk, MatchOption};
ghost use Rattle.std.specs.declared.option.Option.{Option};
ghost use Rattle.std.specs.declared.option.Option.TheVariants.{None, Some};
ghost use Rattle.ac_c.specs.declared.handle.held.Held.{Held};
ghost use Rattle.ac_c.specs.Ownership.{held_row, owns_held};

use held::Held;
use raw_box::RawBox;
use std::alloc::{AllocError, Global};
use std::marker::{Model, Send};
use std::mem;
use std::ptr::null_mut;

pub mod held;
pub mod raw_box;

/// A searcher on the heap, which may have begun a search of a text in pieces; or nothing, where the address is null. C sees a struct of
/// the address alone, and may move it, also to another thread, but not copy it.
#[repr(C)]
pub struct Handle {
    at: *mut u8,
    alloc: Global,
    /// What it holds, if it holds something.
    pub ghost held: { Option Held },
}

impl Model for Handle {
    ghost also_owns = { λ h. owns_held held_row h.alloc h.at h.held };
}

unsafe impl Send for Handle {}

impl Handle {
    /// Returns a handle that holds nothing.
    pub fn empty(alloc: Global) -> Handle
        ensures { result.held ≡ None }
    {
        Handle {
            at: null_mut(),
            alloc,
        }
    }

    /// Returns a handle that holds this.
    ///
    /// # Errors
    /// `AllocError` where there is no memory for its box.
    pub fn new(alloc: Global, held: Held) -> Result<Handle, AllocError>
        ensures { IfOk result (λ handle. handle.held ≡ Some held) }
    {
        let boxed = Box::new(alloc, held)?;
        Ok(Handle::of(RawBox::of(boxed)))
    }

    /// Returns a handle that holds what is in a box.
    pub fn of(raw: RawBox<Held, Global>) -> Handle
        ensures { result.held ≡ Some raw.value }
    {
        let RawBox { at, alloc } = raw;
        Handle {
            at: at as *mut u8,
            alloc,
        }
    }

    /// Takes out what it holds, if it holds something, and leaves it empty.
    pub fn take(&mut self, alloc: Global) -> Option<Box<Held>>
        ensures taken { MatchOption result (self.old.held ≡ None) (λ b. self.old.held ≡ Some b.value) }
        ensures left { self.new.held ≡ None }
    {
        let raw = mem::replace(self, Handle::empty(alloc)).into_raw_box()?;
        Some(raw.into_box())
    }

    /// Returns the box of what the handle holds, if it holds something.
    pub fn into_raw_box(self) -> Option<RawBox<Held, Global>>
        ensures { MatchOption result (self.held ≡ None) (λ raw. self.held ≡ Some raw.value) }
    {
        let Handle { at, alloc } = self;
        if at.is_null() {
            None
        } else {
            Some(RawBox {
                at: at as *mut Held,
                alloc,
            })
        }
    }
}

impl Drop for Handle {
    fn drop(self) {
        match self.into_raw_box() {
            Some(raw) => drop(raw.into_box()),
            None => {}
        }
    }
}
