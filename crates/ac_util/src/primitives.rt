//! The numbers of patterns and states.
//!
//! They stop well below what 32 bits hold, so that sums of two of them never wrap.
ghost use Rattle.std.specs.Prelude.{◌≡◌, ◌+◌, ◌<◌, ◌≤◌, IfOk, IfErr};

use std::fmt;
use std::marker::{Model, PhantomData};

/// The greatest number that a pattern or a state may have.
pub const GREATEST: usize = 2147483646;

/// The error of a number that is greater than `GREATEST`.
#[derive(Clone, Copy, PartialEq, Eq, Debug)]
pub struct TooLarge {
    /// The number that was passed.
    pub attempted: usize,
}

/// The kind of number that a plain `SmallIndex` is.
#[derive(Clone, Copy, PartialEq, Eq, PartialOrd, Ord, Hash, Default, Debug)]
pub struct Plain;

/// The kind of number that a `PatternID` is.
#[derive(Clone, Copy, PartialEq, Eq, PartialOrd, Ord, Hash, Default, Debug)]
pub struct OfPattern;

/// The kind of number that a `StateID` is.
#[derive(Clone, Copy, PartialEq, Eq, PartialOrd, Ord, Hash, Default, Debug)]
pub struct OfState;

/// A number from 0 to `GREATEST`, both included. Contracts see it as that number. This ports `SmallIndex`.
///
/// Its kind keeps the number of a pattern from being taken for that of a state.
#[derive(Clone, Copy, PartialEq, Eq, PartialOrd, Ord, Hash, Default)]
pub struct SmallIndex<K = Plain> {
    number: u32,
    kind: PhantomData<K>,
}

/// The number of a pattern: its index in the list that a searcher was built from. This ports `PatternID`.
///
/// ```
/// let id = PatternID::must(3);
/// assert_eq!(rt; (id.as_usize(), id.as_u32(), id.as_u64()), (3, 3, 3));
/// assert_eq!(rt; id.one_more(), 4);
/// assert_eq!(rt; PatternID::new(3), Ok(id));
/// let attempted = PatternID::LIMIT;
/// assert_eq!(rt; PatternID::new(attempted), Err(TooLarge { attempted }));
/// ```
pub type PatternID = SmallIndex<OfPattern>;

/// The number of a state of an automaton. Each engine numbers its states as it likes. This ports `StateID`.
pub type StateID = SmallIndex<OfState>;

impl<K> Model for SmallIndex<K> {
    ghost use Rattle.std.specs.Prelude.{ℕ, ◌≤◌};
    ghost use Rattle.ac_util.specs.declared.primitives.TheConstants.{GREATEST};

    ghost Value = { ℕ };

    ghost view = { λ i. i.number };

    ghost invariant = { λ i. i.number ≤ GREATEST };

    ghost inverse = { λ n. record { number = n; kind = record {} } };
}

/// Written as `SmallIndex(3)`.
impl fmt::Debug for SmallIndex {
    fn fmt<W: fmt::Write>(&self, f: &mut fmt::Formatter<W>) -> fmt::Result {
        write!(f, "SmallIndex({})", self.number)
    }
}

/// Written as `PatternID(3)`.
impl fmt::Debug for PatternID {
    fn fmt<W: fmt::Write>(&self, f: &mut fmt::Formatter<W>) -> fmt::Result {
        write!(f, "PatternID({})", self.number)
    }
}

/// Written as `StateID(3)`.
impl fmt::Debug for StateID {
    fn fmt<W: fmt::Write>(&self, f: &mut fmt::Formatter<W>) -> fmt::Result {
        write!(f, "StateID({})", self.number)
    }
}

// Contracts don't see the value of a constant of a generic `impl`, so each kind has constants of its own.
impl SmallIndex {
    /// The greatest number.
    pub const MAX: usize = GREATEST;

    /// How many numbers there are.
    pub const LIMIT: usize = GREATEST + 1;
}

impl PatternID {
    /// The greatest number of a pattern.
    pub const MAX: usize = GREATEST;

    /// How many patterns can have a number.
    pub const LIMIT: usize = GREATEST + 1;
}

impl StateID {
    /// The greatest number of a state.
    pub const MAX: usize = GREATEST;

    /// How many states can have a number.
    pub const LIMIT: usize = GREATEST + 1;
}

impl<K> SmallIndex<K> {
    /// Returns the number as an index.
    ///
    /// # Errors
    /// `TooLarge` exactly where the number is greater than `MAX`.
    ///
    /// See the example of `PatternID`.
    pub fn new(number: usize) -> Result<SmallIndex<K>, TooLarge>
        ensures ok { IfOk result (λ index. (index ≡ number) × (number ≤ GREATEST)) }
        ensures err { IfErr result (λ e. (e.attempted ≡ number) × (GREATEST < number)) }
    {
        if number > GREATEST {
            return Err(TooLarge { attempted: number });
        }
        Ok(SmallIndex::must(number))
    }

    /// Returns the number as an index. It has to be at most `MAX`.
    pub fn must(number: usize) -> SmallIndex<K>
        requires small { number ≤ GREATEST }
        ensures value { result ≡ number }
    {
        SmallIndex {
            number: number as u32,
            kind: PhantomData,
        }
    }

    /// Returns the number.
    pub fn as_usize(self) -> usize
        ensures value { result ≡ self }
        ensures small { result ≤ GREATEST }
    {
        self.number as usize
    }

    /// Returns the number.
    pub fn as_u32(&self) -> u32
        ensures { result ≡ self.now }
    {
        self.number
    }

    /// Returns the number.
    pub fn as_u64(&self) -> u64
        ensures { result ≡ self.now }
    {
        u64::from(self.number)
    }

    /// Returns the number after this one. It is no index itself where this is the greatest.
    pub fn one_more(&self) -> usize
        ensures { result ≡ self.now + 1 }
    {
        (self.number + 1) as usize
    }
}
