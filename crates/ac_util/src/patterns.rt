//! The patterns of a searcher, which it stores once.
ghost use Rattle.std.specs.Prelude.{◌≡◌, ◌+◌, ◌<◌, ◌≤◌, length, map, slice_get, Some, Ok, MatchResult};
ghost use Rattle.ac_util.specs.Patterns.{bytes_of, IsCheckedFirst};
ghost use Rattle.ac_util.specs.Occurrence.{plain_byte};
ghost use Rattle.ac_util.specs.declared.error.BuildError.TheVariants.{Memory};

use crate::error::BuildError;
use crate::primitives::{GREATEST, PatternID};
use pieces::Pieces;
use std::alloc::Allocator;
use std::convert::AsSlice;
use std::marker::Model;

pub mod pieces;

/// A list of patterns, stored one after another.
///
/// Contracts see it as the list of the patterns. It never has more of them than there are numbers for, so each has a
/// `PatternID`.
#[derive(Drop)]
pub struct Patterns<A: Allocator> {
    pieces: Pieces<u8, A>,
}

impl<A: Allocator> Model for Patterns<A> {
    ghost use Rattle.std.specs.Prelude.{List, ℕ};
    ghost use Rattle.ac_util.specs.Patterns.{IsWithinLimits};

    ghost Value = { List (List ℕ) };

    ghost view = { λ p. p.pieces };

    ghost invariant = { λ p. IsWithinLimits p.pieces };
}

impl<A: Allocator> Patterns<A> {
    /// Returns how many patterns there are.
    #[inline]
    pub fn len(&self) -> usize
        ensures value { result ≡ length self.now }
        ensures numbered { result ≤ GREATEST + 1 }
    {
        self.pieces.len()
    }

    /// Returns the bytes of the pattern with this number, which has to be less than `len`.
    #[inline]
    pub fn get(&self, number: usize) -> &[u8]
        requires numbered { number < length self.now }
        ensures value { slice_get self.now number ≡ Some result.now }
        ensures short { length result.now ≤ GREATEST }
    {
        self.pieces.get(number)
    }
}

impl<A: Allocator> Patterns<A> {
    /// Returns the allocator of the list.
    pub fn allocator(&self) -> &A {
        self.pieces.allocator()
    }

    /// Returns about how many bytes of memory the patterns take. Nothing is promised about the number.
    pub fn memory_usage(&self) -> usize {
        self.pieces.memory_usage()
    }
}

impl<A: Allocator + Clone> Patterns<A> {
    /// Copies a list of patterns.
    ///
    /// # Errors
    /// `PatternIdOverflow` and `PatternTooLong` exactly where a limit is passed, checked over the whole list in this
    /// order, whether there is memory or not; else `Memory` where a request for memory is refused.
    pub fn new(alloc: A, patterns: &[&[u8]]) -> Result<Patterns<A>, BuildError>
        ensures { IsCheckedFirst (bytes_of patterns.now) result (MatchResult result
            (λ stored. stored ≡ (bytes_of patterns.now)) (λ e. e ≡ Memory)) }
    {
        check_limits(patterns)?;
        let mut pieces = Pieces::new(alloc)?;
        for pattern in patterns {
            pieces.push(pattern)?;
        }
        Ok(Patterns { pieces })
    }
}

/// Returns the byte itself or, where case is ignored and it is an ASCII capital, its small letter.
#[inline]
pub fn plain_byte(ignores_case: bool, byte: u8) -> u8
    ensures { result ≡ plain_byte ignores_case byte }
{
    if ignores_case {
        byte.to_ascii_lowercase()
    } else {
        byte
    }
}

/// Checks that each pattern can have a number and that none is too long. A pattern is a slice of bytes or a text.
///
/// This takes no memory. A caller that needs memory before it stores the patterns calls it first, and so reports a
/// passed limit even where there is no memory.
///
/// # Errors
/// `PatternIdOverflow` or `PatternTooLong`, whichever limit is passed first.
pub fn check_limits<P: AsSlice<u8>>(patterns: &[P]) -> Result<(), BuildError>
    ensures { IsCheckedFirst (map P.items patterns.now) result (result ≡ Ok tt) }
{
    if patterns.len() > PatternID::LIMIT {
        return Err(BuildError::PatternIdOverflow {
            max: PatternID::MAX as u64,
            requested: patterns.len() as u64 - 1,
        });
    }
    for (number, pattern) in patterns.iter().enumerate() {
        let len = pattern.as_slice().len();
        if len > PatternID::MAX {
            return Err(BuildError::PatternTooLong {
                pattern: PatternID::must(number),
                len,
            });
        }
    }
    Ok(())
}
