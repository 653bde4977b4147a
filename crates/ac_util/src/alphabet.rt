//! Classes of bytes that an automaton need not distinguish, which make its rows of transitions short.
ghost use Rattle.std.specs.Prelude.{◌≡◌, ℕ, ◌<◌, ◌≤◌, ◌||◌};
ghost use Rattle.ac_util.specs.Classes.{alphabet_len, class_at, classes_of, singletons, is_in_patterns, stride, stride2};
ghost use Rattle.ac_util.specs.Prefilters.{AreMarksOf, is_marked};
ghost use Rattle.std.specs.List.{list_any};
ghost use Rattle.ac_util.specs.Occurrence.{same_byte};

use crate::patterns::{Patterns, plain_byte};
use std::alloc::Allocator;
use std::marker::Model;

/// The class of each byte. This ports upstream's `util::alphabet::ByteClasses`.
///
/// An automaton can step by the class of a byte in place of the byte, so the row of a state needs one entry for each
/// class. Contracts see it as the list of the 256 classes.
#[derive(Clone, Copy, Debug)]
pub struct ByteClasses {
    classes: [u8; 256],
}

impl Model for ByteClasses {
    ghost use Rattle.std.specs.Prelude.{List, ℕ};
    ghost use Rattle.ac_util.specs.Classes.{AreClasses};

    ghost Value = { List ℕ };

    ghost view = { λ b. b.classes };

    ghost invariant = { λ b. AreClasses b.classes };

    ghost inverse = { λ classes. record { classes = classes } };
}

impl ByteClasses {
    /// Returns the classes with which each byte is in a class of its own. This ports `ByteClasses::singletons`.
    pub fn singletons() -> ByteClasses
        ensures { result ≡ singletons }
    {
        let mut classes = [0; 256];
        for byte in 0..256 {
            classes[byte] = byte as u8;
        }
        ByteClasses { classes }
    }

    /// Returns classes in which each byte that is in a pattern, in either letter case where case is ignored, has a
    /// class of its own. It takes no memory. This ports upstream's `ByteClassSet`, and its `byte_classes`.
    pub fn of<A: Allocator>(patterns: &Patterns<A>, ignores_case: bool) -> ByteClasses
        ensures { result ≡ classes_of ignores_case patterns.now }
    {
        let marks = marks_of(patterns, ignores_case);
        let mut classes = [0; 256];
        let mut class = 0;
        for byte in 0..255u8 {
            let here = marks[plain_byte(ignores_case, byte) as usize];
            let next = marks[plain_byte(ignores_case, byte + 1) as usize];
            if next || here {
                class += 1;
            }
            classes[byte as usize + 1] = class;
        }
        ByteClasses { classes }
    }

    /// Returns the class of a byte. This ports `ByteClasses::get`.
    #[inline]
    pub fn get(&self, byte: u8) -> u8
        ensures value { result ≡ class_at self.now byte }
        ensures small { result < alphabet_len self.now }
    {
        self.classes[byte as usize]
    }

    /// Returns how many classes there are, from 1 to 256. This ports `ByteClasses::alphabet_len`.
    #[inline]
    pub fn alphabet_len(&self) -> usize
        ensures value { result ≡ alphabet_len self.now }
        ensures some { 1 ≤ result }
        ensures few { result ≤ 256 }
    {
        self.classes[255] as usize + 1
    }

    /// Returns the exponent of the stride, which is a power of two. This ports `ByteClasses::stride2`.
    #[inline]
    pub fn stride2(&self) -> u32
        ensures value { result ≡ stride2 self.now }
        ensures small { result ≤ 8 }
    {
        let len = self.alphabet_len();
        for exponent in 0..8 {
            if len <= 1 << exponent {
                return exponent;
            }
        }
        8
    }

    /// Returns the stride: the least power of two that is at least the number of classes. Upstream has it as `stride`
    /// of its DFA.
    #[inline]
    pub fn stride(&self) -> usize
        ensures { result ≡ stride self.now }
    {
        1 << self.stride2()
    }
}

/// Marks the plain bytes that stand in some pattern.
fn marks_of<A: Allocator>(patterns: &Patterns<A>, ignores_case: bool) -> [bool; 256]
    ensures { AreMarksOf ignores_case result (is_in_patterns ignores_case patterns.now) }
{
    let mut marks = [false; 256];
    for number in 0..patterns.len() {
        mark(&mut marks, patterns.get(number), ignores_case);
    }
    marks
}

/// Marks the plain bytes of one pattern too.
fn mark(marks: &mut [bool; 256], pattern: &[u8], ignores_case: bool)
    ensures { AreMarksOf ignores_case marks.new
        (λ b. is_marked ignores_case marks.old b || list_any (same_byte ignores_case b) pattern.now) }
{
    for &byte in pattern {
        marks[plain_byte(ignores_case, byte) as usize] = true;
    }
}
