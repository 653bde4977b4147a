//! Prefilters, which skip ahead to where a match may start.
//!
//! Fast searches for one to three bytes, or for one needle, are those of `memchr`.
ghost use Rattle.std.specs.Prelude.{◌≡◌, ◌≤◌, length, IfOk, MatchResult};
ghost use Rattle.std.specs.List.{list_any};
ghost use Rattle.memchr.specs.Find.{IsFirstByte};
ghost use Rattle.ac_util.specs.declared.error.BuildError.TheVariants.{Memory};
ghost use Rattle.ac_util.specs.Input.{IsLegal};
ghost use Rattle.ac_util.specs.Node.{is_empty};
ghost use Rattle.ac_util.specs.Prefilters.{AreMarksOf, IsFirstAmong, IsNeedleMatch, IsPrefilterFor, IsCandidateFor, PromisesFor, SkipsByFew, begins_with, byte_count, first_bytes_of, is_one_of, marked, skip_of};

use crate::error::BuildError;
use crate::patterns::{Patterns, plain_byte};
use crate::primitives::PatternID;
use crate::search::{Match, Span};
use memchr::{memchr, memchr2, memchr3, memmem};
use std::alloc::{AllocError, Allocator, Global};
use std::marker::Model;

/// The most patterns for which there is a prefilter by their first bytes.
const MOST_PATTERNS: usize = 100;

/// The most different first bytes that they may have.
const MOST_BYTES: usize = 3;

/// A way to skip ahead to where a match may start. It changes no answer of a search.
///
/// This ports upstream's `util::prefilter::Prefilter`, without its packed searchers and its rare bytes.
#[derive(Drop)]
pub enum Prefilter<A: Allocator = Global> {
    /// Skips to the next of the bytes with which the patterns begin.
    Bytes(FirstBytes),
    /// Skips to the next occurrence of the only pattern.
    Needle(Needle<A>),
}

/// What a prefilter returns for a span. This ports upstream's `util::prefilter::Candidate`.
#[derive(Clone, Copy, PartialEq, Eq, Debug)]
pub enum Candidate {
    /// No pattern occurs in the span.
    None,
    /// The match that a search of the span returns, whatever its match kind.
    Match(Match),
    /// An offset in the span before which no match starts.
    PossibleStart(usize),
}

/// The different bytes with which the patterns begin.
#[derive(Clone, Copy, PartialEq, Eq, Debug)]
pub enum FirstBytes {
    /// All patterns begin with this byte.
    One(u8),
    /// Each pattern begins with one of these.
    Two(u8, u8),
    /// Each pattern begins with one of these.
    Three(u8, u8, u8),
}

/// The only pattern of a list. Contracts see its bytes.
#[derive(Drop)]
pub struct Needle<A: Allocator = Global> {
    bytes: Vec<u8, A>,
}

impl<A: Allocator> Model for Needle<A> {
    ghost use Rattle.std.specs.Prelude.{List, ℕ};

    ghost Value = { List ℕ };

    ghost view = { λ n. n.bytes.items };
}

impl<A: Allocator + Clone> Clone for Needle<A> {
    ghost is_clone = { λ s t. t ≡ s };

    /// Returns a copy, which skips to the same offsets.
    ///
    /// # Errors
    /// `AllocError` where a request for memory is refused.
    fn clone(&self) -> Result<Needle<A>, AllocError> {
        Ok(Needle {
            bytes: self.bytes.clone()?,
        })
    }
}

impl<A: Allocator> Needle<A> {
    /// Returns a needle with the bytes of a pattern, which are copied.
    ///
    /// # Errors
    /// `AllocError` where a request for memory is refused.
    fn of(alloc: A, pattern: &[u8]) -> Result<Needle<A>, AllocError>
        ensures { IfOk result (λ needle. needle ≡ pattern.now) }
    {
        let mut bytes = Vec::new(alloc);
        bytes.extend_from_slice(pattern)?;
        Ok(Needle { bytes })
    }

    /// Returns the first match of the needle in a span, as the match of pattern 0.
    #[inline]
    pub(crate) fn find_in(&self, haystack: &[u8], span: Span) -> Option<Match>
        requires ordered { span.start ≤ span.end }
        requires within { span.end ≤ length haystack.now }
        ensures { IsNeedleMatch self.now haystack.now span.start span.end result }
    {
        let skipped = memmem::find(&haystack[span.start..span.end], &self.bytes)?;
        let start = span.start + skipped;
        let end = start + self.bytes.len();
        Some(Match::new(PatternID::must(0), Span { start, end }))
    }
}

impl FirstBytes {
    /// Returns the bytes whose plain byte is marked, if there are one to three of them.
    fn of(marks: &[bool; 256], ignores_case: bool) -> Option<FirstBytes>
        ensures { SkipsByFew (marked ignores_case marks.now) result }
    {
        let mut bytes = [0; MOST_BYTES];
        let mut count = 0;
        for byte in 0..256usize {
            if marks[plain_byte(ignores_case, byte as u8) as usize] {
                if count == MOST_BYTES {
                    return None;
                }
                bytes[count] = byte as u8;
                count += 1;
            }
        }
        match count {
            1 => Some(FirstBytes::One(bytes[0])),
            2 => Some(FirstBytes::Two(bytes[0], bytes[1])),
            3 => Some(FirstBytes::Three(bytes[0], bytes[1], bytes[2])),
            _ => None,
        }
    }

    /// Returns how many different bytes these are.
    fn count(&self) -> usize
        ensures { result ≡ length (first_bytes_of self.now) }
    {
        match self {
            FirstBytes::One(_) => 1,
            FirstBytes::Two(_, _) => 2,
            FirstBytes::Three(_, _, _) => 3,
        }
    }

    /// Returns the first offset in the haystack at which one of the bytes is.
    #[inline]
    fn find(&self, haystack: &[u8]) -> Option<usize>
        ensures { IsFirstByte (is_one_of (first_bytes_of self.now)) haystack.now result }
    {
        match *self {
            FirstBytes::One(a) => memchr(a, haystack),
            FirstBytes::Two(a, b) => memchr2(a, b, haystack),
            FirstBytes::Three(a, b, c) => memchr3(a, b, c, haystack),
        }
    }

    /// Returns the first offset in a span at which one of the bytes is.
    #[inline]
    pub(crate) fn find_in(&self, haystack: &[u8], span: Span) -> Option<usize>
        requires ordered { span.start ≤ span.end }
        requires within { span.end ≤ length haystack.now }
        ensures { IsFirstAmong (first_bytes_of self.now) haystack.now span.start span.end result }
    {
        let skipped = self.find(&haystack[span.start..span.end])?;
        Some(span.start + skipped)
    }
}

impl<A: Allocator + Clone> Clone for Prefilter<A> {
    ghost is_clone = { λ s t. t ≡ s };

    /// Returns a copy, which skips to the same offsets.
    ///
    /// # Errors
    /// `AllocError` where a request for memory is refused.
    fn clone(&self) -> Result<Prefilter<A>, AllocError> {
        Ok(match self {
            Prefilter::Bytes(bytes) => Prefilter::Bytes(*bytes),
            Prefilter::Needle(needle) => Prefilter::Needle(needle.clone()?),
        })
    }
}

impl<A: Allocator> Prefilter<A> {
    /// Returns the prefilter of a search for some patterns, or `None` if there is none for them. With `ignores_case`
    /// the search ignores the case of ASCII letters.
    ///
    /// There is none where a pattern is empty, since a match may then start anywhere, and none without patterns. A
    /// single pattern is searched for itself, unless case is ignored. Else at most 100 patterns are searched for by
    /// their first bytes, if these are at most three different ones; where case is ignored a letter counts in both
    /// cases.
    ///
    /// # Errors
    /// `BuildError::Memory` where a request for memory is refused.
    pub fn of<Z: Allocator>(
        alloc: A,
        patterns: &Patterns<Z>,
        ignores_case: bool,
    ) -> Result<Option<Prefilter<A>>, BuildError>
        ensures { MatchResult result (IsPrefilterFor ignores_case patterns.now) (λ e. e ≡ Memory) }
    {
        if has_empty(patterns) || patterns.len() == 0 {
            return Ok(None);
        }
        if patterns.len() == 1 && !ignores_case {
            let needle = Needle::of(alloc, patterns.get(0))?;
            return Ok(Some(Prefilter::Needle(needle)));
        }
        if patterns.len() > MOST_PATTERNS {
            return Ok(None);
        }
        let marks = first_marks(patterns, ignores_case);
        match FirstBytes::of(&marks, ignores_case) {
            Some(first) => Ok(Some(Prefilter::Bytes(first))),
            None => Ok(None),
        }
    }

    /// Returns how many different first bytes the prefilter looks for, which are one to three, or 0 if it looks for a
    /// needle.
    pub fn byte_count(&self) -> usize
        ensures { result ≡ byte_count (skip_of self.now) }
    {
        match self {
            Prefilter::Bytes(bytes) => bytes.count(),
            Prefilter::Needle(_) => 0,
        }
    }

    /// Returns what is known about a span: the offset of the first of its bytes that is a first byte of a pattern, or
    /// the first match of the needle; or that nothing occurs in it.
    ///
    /// The span has to end within the haystack, and to start no later than one past its own end. Nothing occurs in a
    /// span that starts past its end.
    #[inline]
    pub fn find_in(&self, haystack: &[u8], span: Span) -> Candidate
        requires legal { IsLegal haystack.now span.start span.end }
        ensures says { IsCandidateFor (skip_of self.now) haystack.now span.start span.end result }
        ensures promises { PromisesFor (skip_of self.now) haystack.now span.start span.end result }
    {
        if span.start > span.end {
            return Candidate::None;
        }
        self.candidate_in(haystack, span)
    }

    /// Returns what is known about a span that doesn't start past its end.
    #[inline]
    fn candidate_in(&self, haystack: &[u8], span: Span) -> Candidate
        requires ordered { span.start ≤ span.end }
        requires within { span.end ≤ length haystack.now }
        ensures { IsCandidateFor (skip_of self.now) haystack.now span.start span.end result }
    {
        match self {
            Prefilter::Bytes(first) => match first.find_in(haystack, span) {
                Some(start) => Candidate::PossibleStart(start),
                None => Candidate::None,
            },
            Prefilter::Needle(needle) => match needle.find_in(haystack, span) {
                Some(found) => Candidate::Match(found),
                None => Candidate::None,
            },
        }
    }
}

/// Returns whether some pattern has no bytes.
fn has_empty<A: Allocator>(patterns: &Patterns<A>) -> bool
    ensures { result ≡ list_any is_empty patterns.now }
{
    for number in 0..patterns.len() {
        if patterns.get(number).is_empty() {
            return true;
        }
    }
    false
}

/// Marks the plain bytes with which patterns begin.
fn first_marks<A: Allocator>(patterns: &Patterns<A>, ignores_case: bool) -> [bool; 256]
    ensures { AreMarksOf ignores_case result (λ b. list_any (begins_with ignores_case b) patterns.now) }
{
    let mut marks = [false; 256];
    for number in 0..patterns.len() {
        if let Some(&byte) = patterns.get(number).first() {
            marks[plain_byte(ignores_case, byte) as usize] = true;
        }
    }
    marks
}
