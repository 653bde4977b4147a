//! The options of a search, and what it returns: match kinds, anchoring, spans and matches.
ghost use Rattle.std.specs.Prelude.{◌≡◌, ◌+◌, ◌-◌, ◌<◌, ◌≤◌, ◌↔◌, IsTrue};
ghost use Rattle.ac_util.specs.Node.{is_leftmost};
ghost use Rattle.ac_util.specs.Occurrence.{occurrence};
ghost use Rattle.ac_util.specs.Patterns.{usize_max};

mod input;

use crate::primitives::{GREATEST, PatternID};
pub use input::Input;
use std::fmt;
use std::marker::Model;
use std::ops::Range;

/// Which of the occurrences in a span a search returns. This ports `MatchKind`.
///
/// In the haystack "abcd" a search for "b", "abc" and "abcd", listed in this order, returns "b" under `Standard`, "abc"
/// under `LeftmostFirst`, and "abcd" under `LeftmostLongest`:
///
/// ```
/// let patterns: &[&[u8]] = &[b"b", b"abc", b"abcd"];
/// let mut builder = AhoCorasick::builder();
/// for (kind, found) in [
///     (MatchKind::Standard, Match::must(0, 1..2)),
///     (MatchKind::LeftmostFirst, Match::must(1, 0..3)),
///     (MatchKind::LeftmostLongest, Match::must(2, 0..4)),
/// ] {
///     let searcher = builder.match_kind(kind).build(alloc, patterns)?;
///     assert_eq!(rt; searcher.try_find(Input::new(b"abcd")), Ok(Some(found)));
/// }
/// ```
#[derive(Clone, Copy, PartialEq, Eq, Default, Debug)]
pub enum MatchKind {
    /// The occurrence that ends first; of those that end there the one that starts first, then the least pattern
    /// number.
    #[default]
    Standard,
    /// The occurrence that starts first; of those that start there the least pattern number.
    LeftmostFirst,
    /// The occurrence that starts first; of those that start there the longest, then the least pattern number.
    LeftmostLongest,
}

impl MatchKind {
    /// Returns whether the kind is `LeftmostFirst` or `LeftmostLongest`, which prefer what starts first.
    ///
    /// ```
    /// assert!(rt; MatchKind::LeftmostFirst.is_leftmost());
    /// assert!(rt; !MatchKind::Standard.is_leftmost());
    /// ```
    pub fn is_leftmost(&self) -> bool
        ensures { result ≡ is_leftmost self.now }
    {
        match self {
            MatchKind::Standard => false,
            MatchKind::LeftmostFirst | MatchKind::LeftmostLongest => true,
        }
    }
}

/// Which searches a searcher supports. This ports `StartKind`. See the example of `AhoCorasickBuilder::start_kind`.
#[derive(Clone, Copy, PartialEq, Eq, Default, Debug)]
pub enum StartKind {
    /// Unanchored and anchored searches.
    Both,
    /// Unanchored searches only.
    #[default]
    Unanchored,
    /// Anchored searches only.
    Anchored,
}

/// Whether a match has to start where the span of the search starts. This ports `Anchored`. See the example of
/// `Input::anchored`.
#[derive(Clone, Copy, PartialEq, Eq, Debug)]
pub enum Anchored {
    /// A match may start anywhere in the span.
    No,
    /// A match has to start where the span starts.
    Yes,
}

/// A range of bytes in a haystack: from the offset `start` up to, but not including, `end`. This ports `Span`.
///
/// ```
/// let span = Span { start: 3, end: 6 };
/// assert_eq!(rt; span, Span::from(3..6));
/// assert_eq!(rt; (span.range(), span.len()), (3..6, 3));
/// assert_eq!(rt; span.offset(10), Span::from(13..16));
/// assert!(rt; span.contains(3) && span.contains(6) && !span.contains(7));
/// let empty = Span { start: 3, end: 3 };
/// assert!(rt; empty.is_empty() && !empty.contains(3));
/// ```
#[derive(Clone, Copy, PartialEq, Eq, Hash)]
pub struct Span {
    /// The offset of the first byte, counted from 0.
    pub start: usize,
    /// One past the offset of the last byte.
    pub end: usize,
}

impl Span {
    /// Returns the span as a range, for indexing.
    pub fn range(&self) -> Range<usize>
        ensures start { result.start ≡ self.now.start }
        ensures end { result.end ≡ self.now.end }
    {
        self.start..self.end
    }

    /// Returns whether the span has no bytes.
    pub fn is_empty(&self) -> bool
        ensures { IsTrue result ↔ (self.now.end ≤ self.now.start) }
    {
        self.start >= self.end
    }

    /// Returns how many bytes the span has.
    pub fn len(&self) -> usize
        ensures { result ≡ self.now.end - self.now.start }
    {
        self.end.saturating_sub(self.start)
    }

    /// Returns whether an offset lies in the span or is its end. No offset lies in a span without bytes. See the
    /// example of `Span`.
    pub fn contains(&self, offset: usize) -> bool
        ensures { IsTrue result
            ↔ ((self.now.start < self.now.end) × (self.now.start ≤ offset) × (offset ≤ self.now.end)) }
    {
        !self.is_empty() && self.start <= offset && offset <= self.end
    }

    /// Returns the span moved on by so many bytes. Its start and its end may then not be greater than `usize::MAX`.
    pub fn offset(&self, offset: usize) -> Span
        requires start { self.now.start + offset ≤ usize_max }
        requires end { self.now.end + offset ≤ usize_max }
        ensures { result ≡ record { start = self.now.start + offset; end = self.now.end + offset } }
    {
        Span {
            start: self.start + offset,
            end: self.end + offset,
        }
    }
}

/// A span is written as a range: `1..4`.
impl fmt::Debug for Span {
    fn fmt<W: fmt::Write>(&self, f: &mut fmt::Formatter<W>) -> fmt::Result {
        write!(f, "{}..{}", self.start, self.end)
    }
}

impl From<Range<usize>> for Span {
    ghost use Rattle.std.specs.Prelude.{◌≡◌};

    ghost from_gives = { λ range span. span ≡ record { start = range.start; end = range.end } };

    fn from(range: Range<usize>) -> Span {
        let Range { start, end } = range;
        Span { start, end }
    }
}

/// A match: the number of a pattern, and the span of bytes in the haystack where it occurs. This ports `Match`.
///
/// Contracts see it as an `Occurrence`: the pattern's number, the start and the end.
///
/// ```
/// let m = Match::must(1, 13..18);
/// assert_eq!(rt; m.pattern(), PatternID::must(1));
/// assert_eq!(rt; (m.start(), m.end(), m.len()), (13, 18, 5));
/// assert_eq!(rt; (m.span(), m.range()), (Span::from(13..18), 13..18));
/// assert!(rt; !m.is_empty());
/// assert_eq!(rt; m.offset(10), Match::must(1, 23..28));
/// assert_eq!(rt; m, Match::new(PatternID::must(1), m.span()));
/// ```
#[derive(Clone, Copy, PartialEq, Eq, Hash, Debug)]
pub struct Match {
    pattern: PatternID,
    span: Span,
}

impl Model for Match {
    ghost use Rattle.std.specs.Prelude.{◌≤◌};
    ghost use Rattle.ac_util.specs.Occurrence.{Occurrence, occurrence};

    ghost Value = { Occurrence };

    ghost view = { λ m. occurrence m.pattern m.span.start m.span.end };

    ghost invariant = { λ m. m.span.start ≤ m.span.end };

    ghost inverse = { λ o. record { pattern = o.pattern; span = record { start = o.start; end = o.end } } };
}

impl Match {
    /// Returns the match of a pattern at a span. The span may not start after its end.
    pub fn new(pattern: PatternID, span: Span) -> Match
        requires ordered { span.start ≤ span.end }
        ensures value { result ≡ occurrence pattern span.start span.end }
    {
        Match { pattern, span }
    }

    /// Returns the match of the pattern with this number at a range of offsets.
    ///
    /// The number has to be at most `PatternID::MAX`, and the range may not start after its end.
    pub fn must(pattern: usize, range: Range<usize>) -> Match
        requires small { pattern ≤ GREATEST }
        requires ordered { range.start ≤ range.end }
        ensures value { result ≡ occurrence pattern range.start range.end }
    {
        let span = Span {
            start: range.start,
            end: range.end,
        };
        Match::new(PatternID::must(pattern), span)
    }

    /// Returns the number of the pattern: its index in the list that the searcher was built from.
    pub fn pattern(&self) -> PatternID
        ensures { result ≡ self.now.pattern }
    {
        self.pattern
    }

    /// Returns the offset of the first byte of the match.
    pub fn start(&self) -> usize
        ensures { result ≡ self.now.start }
    {
        self.span.start
    }

    /// Returns the offset one past the last byte of the match.
    pub fn end(&self) -> usize
        ensures { result ≡ self.now.end }
    {
        self.span.end
    }

    /// Returns the span of the match as a range, for indexing.
    pub fn range(&self) -> Range<usize>
        ensures start { result.start ≡ self.now.start }
        ensures end { result.end ≡ self.now.end }
    {
        self.span.range()
    }

    /// Returns the span of the match.
    pub fn span(&self) -> Span
        ensures { result ≡ record { start = self.now.start; end = self.now.end } }
    {
        self.span
    }

    /// Returns the length of the match in bytes.
    pub fn len(&self) -> usize
        ensures { self.now.start + result ≡ self.now.end }
    {
        self.span.len()
    }

    /// Returns the match moved on by so many bytes. Its end may then not be greater than `usize::MAX`.
    pub fn offset(&self, offset: usize) -> Match
        requires end { self.now.end + offset ≤ usize_max }
        ensures { result ≡ occurrence self.now.pattern (self.now.start + offset) (self.now.end + offset) }
    {
        Match {
            pattern: self.pattern,
            span: self.span.offset(offset),
        }
    }

    /// Returns whether the match has no bytes, as a match of an empty pattern.
    pub fn is_empty(&self) -> bool
        ensures { IsTrue result ↔ (self.now.start ≡ self.now.end) }
    {
        self.span.is_empty()
    }
}

impl Anchored {
    /// Returns whether a match has to start where the span starts.
    pub fn is_anchored(&self) -> bool
        ensures { IsTrue result ↔ (self.now ≡ Anchored.Yes) }
    {
        matches!(self, Anchored::Yes)
    }
}
