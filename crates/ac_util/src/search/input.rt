//! The input of a search.
ghost use Rattle.std.specs.Prelude.{◌≡◌, ◌+◌, ◌<◌, ◌≤◌, ◌↔◌, length, IsTrue, false};

use super::{Anchored, Span};
use std::ops::Range;

/// The input of a search: a haystack, the span of it that is searched, whether a match has to start where the span
/// starts, and whether the search ends at the earliest offset at which some match is known. This ports `Input`.
///
/// Bytes outside the span never count. The span ends within the haystack, and may start one past its own end: then
/// nothing is found in it, not even an empty match. Offsets of matches count from the start of the haystack, not of the
/// span. Contracts see an input as an `InputView`, which `input_of` gives.
///
/// ```
/// let input = Input::new(b"foobar").range(3..6).anchored(Anchored::Yes);
/// assert_eq!(rt; input.haystack(), b"foobar".as_slice());
/// assert_eq!(rt; (input.start(), input.end()), (3, 6));
/// assert_eq!(rt; input.get_span(), Span { start: 3, end: 6 });
/// assert_eq!(rt; input.get_range(), 3..6);
/// assert_eq!(rt; input.get_anchored(), Anchored::Yes);
/// assert!(rt; !input.get_earliest() && !input.is_done());
/// ```
#[derive(Clone, Copy, Debug)]
pub struct Input<'h> {
    haystack: &'h [u8],
    start: usize,
    end: usize,
    anchored: Anchored,
    earliest: bool,
    ghost end_within: { end ≤ length haystack.now },
    ghost start_within: { start ≤ end + 1 },
}

impl<'h> Input<'h> {
    ghost use Rattle.ac_util.specs.Input.{IsLegal, whole_input, input_of};

    /// Returns an input that searches a whole haystack, unanchored and not for the earliest end. This ports
    /// `Input::new`.
    #[inline]
    pub fn new(haystack: &'h [u8]) -> Input<'h>
        ensures value { input_of result ≡ whole_input haystack.now }
    {
        Input {
            haystack,
            start: 0,
            end: haystack.len(),
            anchored: Anchored::No,
            earliest: false,
        }
    }

    /// Returns an input that searches a whole text. Offsets count its bytes, not its characters.
    ///
    /// ```
    /// let input = Input::of_text("\u{e9}b");
    /// assert_eq!(rt; input.haystack(), b"\xc3\xa9b".as_slice());
    /// assert_eq!(rt; input.get_range(), 0..3);
    /// ```
    #[inline]
    pub fn of_text(text: &'h str) -> Input<'h>
        ensures value { input_of result ≡ whole_input text.now }
    {
        Input::new(text.as_bytes())
    }

    /// Returns the input with this span. This ports `Input::span`.
    ///
    /// The span has to end within the haystack, and to start no later than one past its own end.
    ///
    /// ```
    /// let searcher = AhoCorasick::new(alloc, &[b"foo", b"bar"])?;
    /// let input = Input::new(b"foobar").range(3..6);
    /// assert_eq!(rt; searcher.find(input), Some(Match::must(1, 3..6)));
    /// let input = Input::new(b"foobar").span(Span { start: 0, end: 3 });
    /// assert_eq!(rt; searcher.find(input), Some(Match::must(0, 0..3)));
    /// ```
    #[inline]
    pub fn span(mut self, span: Span) -> Input<'h>
        requires legal { IsLegal (input_of self).haystack span.start span.end }
        ensures value { input_of result ≡ record (input_of self.entry) { start = span.start; end = span.end } }
    {
        self.set_span(span);
        self
    }

    /// Returns the input with the span of this range. This ports `Input::range`.
    ///
    /// The range has to end within the haystack, and to start no later than one past its own end. See the example of `span`.
    #[inline]
    pub fn range(mut self, range: Range<usize>) -> Input<'h>
        requires legal { IsLegal (input_of self).haystack range.start range.end }
        ensures value { input_of result ≡ record (input_of self.entry) { start = range.start; end = range.end } }
    {
        self.set_range(range);
        self
    }

    /// Returns the input with this anchoring. Default: `Anchored::No`. This ports `Input::anchored`.
    ///
    /// ```
    /// let mut builder = AhoCorasick::builder();
    /// builder.start_kind(StartKind::Both);
    /// let searcher = builder.build(alloc, &[b"bar"])?;
    /// let input = Input::new(b"foo bar").anchored(Anchored::Yes);
    /// assert_eq!(rt; searcher.try_find(input), Ok(None));
    /// let found = searcher.try_find(input.range(4..7));
    /// assert_eq!(rt; found, Ok(Some(Match::must(0, 4..7))));
    /// ```
    #[inline]
    pub fn anchored(mut self, mode: Anchored) -> Input<'h>
        ensures value { input_of result ≡ record (input_of self.entry) { anchored = mode } }
    {
        self.set_anchored(mode);
        self
    }

    /// Returns the input with or without the request for the earliest end. Default: without. This ports
    /// `Input::earliest`.
    ///
    /// With it a search returns the match that `MatchKind::Standard` picks, under every match kind.
    ///
    /// ```
    /// let mut builder = AhoCorasick::builder();
    /// builder.match_kind(MatchKind::LeftmostLongest);
    /// let searcher = builder.build(alloc, &[b"b", b"abc", b"abcd"])?;
    /// let input = Input::new(b"abcd");
    /// assert_eq!(rt; searcher.try_find(input), Ok(Some(Match::must(2, 0..4))));
    /// let earliest = searcher.try_find(input.earliest(true));
    /// assert_eq!(rt; earliest, Ok(Some(Match::must(0, 1..2))));
    /// ```
    #[inline]
    pub fn earliest(mut self, yes: bool) -> Input<'h>
        ensures value { input_of result ≡ record (input_of self.entry) { earliest = yes } }
    {
        self.set_earliest(yes);
        self
    }

    /// Sets the span, which has to end within the haystack and to start no later than one past its own end.
    ///
    /// ```
    /// let mut input = Input::new(b"foobar");
    /// input.set_span(Span { start: 1, end: 5 });
    /// input.set_start(3);
    /// input.set_end(6);
    /// assert_eq!(rt; input.get_range(), 3..6);
    /// input.set_range(6..5);
    /// assert!(rt; input.is_done());
    /// ```
    #[inline]
    pub fn set_span(&mut self, span: Span)
        requires legal { IsLegal (input_of self.old).haystack span.start span.end }
        ensures value { input_of self.new ≡ record (input_of self.old) { start = span.start; end = span.end } }
    {
        let Input {
            haystack,
            anchored,
            earliest,
            ..
        } = *self;
        *self = Input {
            haystack,
            start: span.start,
            end: span.end,
            anchored,
            earliest,
        };
    }

    /// Sets the span to that of this range, which has to end within the haystack and to start no later than one past
    /// its own end. See the example of `set_span`.
    #[inline]
    pub fn set_range(&mut self, range: Range<usize>)
        requires legal { IsLegal (input_of self.old).haystack range.start range.end }
        ensures value { input_of self.new ≡ record (input_of self.old) { start = range.start; end = range.end } }
    {
        self.set_span(Span {
            start: range.start,
            end: range.end,
        });
    }

    /// Sets the offset where the span starts: no later than one past the span's end. See the example of `set_span`.
    #[inline]
    pub fn set_start(&mut self, start: usize)
        requires legal { start ≤ (input_of self.old).end + 1 }
        ensures value { input_of self.new ≡ record (input_of self.old) { start = start } }
    {
        self.start = start;
    }

    /// Sets the offset where the span ends: within the haystack, and no earlier than one before the span's start. See
    /// the example of `set_span`.
    #[inline]
    pub fn set_end(&mut self, end: usize)
        requires legal { IsLegal (input_of self.old).haystack (input_of self.old).start end }
        ensures value { input_of self.new ≡ record (input_of self.old) { end = end } }
    {
        self.set_span(Span {
            start: self.start,
            end,
        });
    }

    /// Sets whether a match has to start where the span starts.
    ///
    /// ```
    /// let mut input = Input::new(b"foobar");
    /// input.set_anchored(Anchored::Yes);
    /// input.set_earliest(true);
    /// assert!(rt; input.get_anchored().is_anchored() && input.get_earliest());
    /// ```
    #[inline]
    pub fn set_anchored(&mut self, mode: Anchored)
        ensures value { input_of self.new ≡ record (input_of self.old) { anchored = mode } }
    {
        self.anchored = mode;
    }

    /// Sets whether the search ends at the earliest offset at which some match is known. See the example of
    /// `set_anchored`.
    #[inline]
    pub fn set_earliest(&mut self, yes: bool)
        ensures value { input_of self.new ≡ record (input_of self.old) { earliest = yes } }
    {
        self.earliest = yes;
    }

    /// Returns the whole haystack, including what lies outside the span.
    #[inline]
    pub fn haystack(&self) -> &'h [u8]
        ensures { result.now ≡ (input_of self.now).haystack }
    {
        self.haystack
    }

    /// Returns the offset where the span starts.
    #[inline]
    pub fn start(&self) -> usize
        ensures { result ≡ (input_of self.now).start }
    {
        self.start
    }

    /// Returns the offset one past the last byte of the span.
    #[inline]
    pub fn end(&self) -> usize
        ensures { result ≡ (input_of self.now).end }
    {
        self.end
    }

    /// Returns the span.
    #[inline]
    pub fn get_span(&self) -> Span
        ensures { result ≡ record { start = (input_of self.now).start; end = (input_of self.now).end } }
    {
        Span {
            start: self.start,
            end: self.end,
        }
    }

    /// Returns the span as a range.
    #[inline]
    pub fn get_range(&self) -> Range<usize>
        ensures start { result.start ≡ (input_of self.now).start }
        ensures end { result.end ≡ (input_of self.now).end }
    {
        self.start..self.end
    }

    /// Returns whether a match has to start where the span starts.
    #[inline]
    pub fn get_anchored(&self) -> Anchored
        ensures { result ≡ (input_of self.now).anchored }
    {
        self.anchored
    }

    /// Returns whether the search ends at the earliest offset at which some match is known.
    #[inline]
    pub fn get_earliest(&self) -> bool
        ensures { result ≡ (input_of self.now).earliest }
    {
        self.earliest
    }

    /// Returns whether the span starts past its own end, so that nothing can be found.
    #[inline]
    pub fn is_done(&self) -> bool
        ensures { IsTrue result ↔ ((input_of self.now).end < (input_of self.now).start) }
    {
        self.start > self.end
    }
}
