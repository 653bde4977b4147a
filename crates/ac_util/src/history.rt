//! What only contracts see: the bytes that a stream has given, and what a value was.
ghost use Rattle.std.specs.Prelude.{◌≡◌, ℕ, List, [], ◌++◌};
ghost use Rattle.std.specs.Borrow.{ftrue};

use std::marker::{Model, PhantomData};

/// All bytes that a stream has given so far. Contracts read them as `bytes`; at run time they take no memory and no work.
#[derive(Drop)]
pub struct History {
    /// Private, so that a history is made in this module alone.
    seal: (),
    pub ghost bytes: { List ℕ },
}

impl Model for History {
    ghost also_owns = { λ _. ftrue };
}

// A struct with `also_owns` is neither `Send` nor `Sync` by itself. This one owns nothing.
unsafe impl Send for History {}

unsafe impl Sync for History {}

impl History {
    /// Returns a history without bytes.
    #[inline]
    pub fn empty() -> History
        ensures { result.bytes ≡ [] }
    {
        History { seal: () }
    }

    /// Returns a history with more bytes after those of another.
    #[inline]
    pub fn with(_before: &History, _more: &[u8]) -> History
        ensures { result.bytes ≡ _before.now.bytes ++ _more.now }
    {
        History { seal: () }
    }
}

/// What a value was when this was made. Contracts read it as `value`; at run time it takes no memory and no work.
#[derive(Drop)]
pub struct Remembered<T> {
    /// Private, so that one is made in this module alone.
    seal: PhantomData<T>,
    pub ghost value: { T },
}

impl<T> Model for Remembered<T> {
    ghost also_owns = { λ _. ftrue };
}

// It holds no value, so it may go from one thread to another whatever the value is.
unsafe impl<T> Send for Remembered<T> {}

unsafe impl<T> Sync for Remembered<T> {}

impl<T> Remembered<T> {
    /// Returns what a value is now.
    #[inline]
    pub fn of(_value: &T) -> Remembered<T>
        ensures { result.value ≡ _value.now }
    {
        Remembered { seal: PhantomData }
    }
}
