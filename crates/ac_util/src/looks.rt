//! What a search does: the bytes that it reads, and how often it looks at states.
ghost use Rattle.std.specs.Prelude.{◌≡◌, ◌+◌, ◌<◌, ◌≤◌, length, slice_index};
ghost use Rattle.ac_util.specs.Input.{no_counts, one_more_call, one_more_read, more_looks, input_of};
ghost use Rattle.ac_util.specs.Prefilters.{IsFirstAmong, IsNeedleMatch, PromisesFor, IsCandidateFor, first_bytes_of, skip_of};

use crate::history::Remembered;
use crate::prefilter::{Candidate, FirstBytes, Needle, Prefilter};
use crate::search::{Input, Match, Span};
use crate::tally::Tally;
use std::alloc::Allocator;
use std::marker::Model;

/// How many bytes a search has read, how many states it has looked at, and how often it has called a prefilter.
///
/// Only contracts see these counts: at run time they take no bytes and no work. They can't be copied, and no call makes
/// one of them less. So what a contract says of them holds for all that was counted since they were made.
#[derive(Drop)]
pub struct Looks {
    reads: Tally,
    looks: Tally,
    calls: Tally,
}

impl Model for Looks {
    ghost use Rattle.ac_util.specs.Input.{Counts};

    ghost Value = { Counts };

    ghost view = { λ l. record { reads = l.reads.number; looks = l.looks.number; calls = l.calls.number } };
}

impl Looks {
    /// Returns counts of 0.
    #[inline]
    pub fn new() -> Looks
        ensures { result ≡ no_counts }
    {
        Looks {
            reads: Tally::zero(),
            looks: Tally::zero(),
            calls: Tally::zero(),
        }
    }

    /// Counts one look at a state: one use of the state's transitions for a byte of the haystack, without following
    /// failure targets.
    #[inline]
    pub fn look(&mut self)
        ensures { self.new ≡ more_looks 1 self.old }
    {
        self.looks = Tally::after(&self.looks);
    }

    /// Counts one call of a prefilter.
    #[inline]
    fn call(&mut self)
        ensures { self.new ≡ one_more_call self.old }
    {
        self.calls = Tally::after(&self.calls);
    }

    /// Counts one byte read.
    #[inline]
    fn read(&mut self)
        ensures { self.new ≡ one_more_read self.old }
    {
        self.reads = Tally::after(&self.reads);
    }
}

/// Lends the bytes of a haystack one at a time, each at most once and in rising order.
///
/// Contracts see its bytes and the offset after the last one that was read; at run time it is only the slice.
#[derive(Drop)]
pub struct Tape<'h> {
    haystack: &'h [u8],
    place: Remembered<usize>,
}

impl<'h> Model for Tape<'h> {
    ghost use Rattle.ac_util.specs.Input.{Taped};

    ghost Value = { Taped };

    ghost view = { λ t. record { bytes = t.haystack.now; place = t.place.value } };
}

impl<'h> Tape<'h> {
    /// Returns a tape over a haystack of which nothing was read yet.
    #[inline]
    pub fn new(haystack: &'h [u8]) -> Tape<'h>
        ensures { result ≡ record { bytes = haystack.now; place = 0 } }
    {
        Tape {
            haystack,
            place: Remembered::of(&0),
        }
    }

    /// Returns the byte at an offset, and counts it as read.
    ///
    /// The offset has to lie in the haystack, and not before the one after the last byte read.
    #[inline]
    pub fn read(&mut self, at: usize, looks: &mut Looks) -> u8
        requires inside { at < length self.old.bytes }
        requires onward { self.old.place ≤ at }
        ensures byte { result ≡ slice_index self.old.bytes at }
        ensures place { self.new ≡ record { bytes = self.old.bytes; place = at + 1 } }
        ensures counted { looks.new ≡ one_more_read looks.old }
    {
        looks.read();
        let haystack = self.haystack;
        let _len = haystack.len();
        self.place = Remembered::of(&(at + 1));
        haystack[at]
    }
}

impl<'h> Tape<'h> {
    /// Returns what a prefilter finds in the bytes from `at` up to `end`, and counts the call. The place of reading
    /// stays.
    ///
    /// `at` has to be no later than `end`, and not before the offset after the last byte read; `end` has to lie in the
    /// haystack.
    #[inline]
    pub fn scan<A: Allocator>(
        &self,
        prefilter: &Prefilter<A>,
        at: usize,
        end: usize,
        looks: &mut Looks,
    ) -> Candidate
        requires onward { self.now.place ≤ at }
        requires ordered { at ≤ end }
        requires within { end ≤ length self.now.bytes }
        ensures says { IsCandidateFor (skip_of prefilter.now) self.now.bytes at end result }
        ensures promises { PromisesFor (skip_of prefilter.now) self.now.bytes at end result }
        ensures counted { looks.new ≡ one_more_call looks.old }
    {
        looks.call();
        prefilter.find_in(self.haystack, Span { start: at, end })
    }

    /// Returns the first offset from `at` up to `end` at which one of the bytes is, and counts a call of a prefilter. The
    /// conditions are those of `scan`.
    #[inline]
    pub fn skip_to(
        &self,
        first: FirstBytes,
        at: usize,
        end: usize,
        looks: &mut Looks,
    ) -> Option<usize>
        requires onward { self.now.place ≤ at }
        requires ordered { at ≤ end }
        requires within { end ≤ length self.now.bytes }
        ensures first { IsFirstAmong (first_bytes_of first) self.now.bytes at end result }
        ensures counted { looks.new ≡ one_more_call looks.old }
    {
        looks.call();
        first.find_in(self.haystack, Span { start: at, end })
    }

    /// Returns the first match of the needle from `at` up to `end`, and counts a call of a prefilter. The conditions are
    /// those of `scan`.
    #[inline]
    pub fn find_needle<A: Allocator>(
        &self,
        needle: &Needle<A>,
        at: usize,
        end: usize,
        looks: &mut Looks,
    ) -> Option<Match>
        requires onward { self.now.place ≤ at }
        requires ordered { at ≤ end }
        requires within { end ≤ length self.now.bytes }
        ensures found { IsNeedleMatch needle.now self.now.bytes at end result }
        ensures counted { looks.new ≡ one_more_call looks.old }
    {
        looks.call();
        needle.find_in(self.haystack, Span { start: at, end })
    }
}

/// Returns a tape over the haystack of an input, and counts of 0.
#[inline]
pub fn open<'h>(input: &Input<'h>) -> (Tape<'h>, Looks)
    ensures tape { result.0 ≡ record { bytes = (input_of input.now).haystack; place = 0 } }
    ensures looks { result.1 ≡ no_counts }
{
    (Tape::new(input.haystack()), Looks::new())
}
