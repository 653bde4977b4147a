//! Spans, matches and cursors as C has them.
ghost use Rattle.std.specs.Prelude.{◌≡◌, ◌<◌};
ghost use Rattle.ac_search.specs.Input.{input_of};
ghost use Rattle.ac_c.specs.Searches.{AnswersIf, in_span, input_by, is_input, match_of, past, stepped};

use ac_search::{Anchored, Input, Match};

/// What is searched of a haystack, and how.
#[repr(C)]
#[derive(Clone, Copy)]
pub struct Span {
    /// The offset where the span starts.
    pub start: usize,
    /// The offset one past its last byte.
    pub end: usize,
    /// Whether a match has to start where the span starts: 0 or 1.
    pub anchored: u32,
    /// Whether the search ends as soon as some match is known: 0 or 1.
    pub earliest: u32,
}

/// A match, by offsets in the whole haystack.
#[repr(C)]
#[derive(Clone, Copy)]
pub struct FoundMatch {
    /// The number of its pattern.
    pub pattern: usize,
    /// The offset where it starts.
    pub start: usize,
    /// The offset one past its last byte.
    pub end: usize,
}

/// How far a walk or a listing has come. Any numbers are safe; a cursor before the span is one at its start, where nothing
/// was given.
#[repr(C)]
#[derive(Clone, Copy)]
pub struct Cursor {
    /// The offset where the last match that was given ends.
    pub at: usize,
    /// In a walk, 0 if no match came before. In a listing, how many of the occurrences that end at `at` or later were given;
    /// of those that end before it all were.
    pub given: usize,
}

impl Span {
    /// Returns the input that the span asks for, or `None` where it names none.
    pub fn input<'h>(&self, haystack: &'h [u8]) -> Option<Input<'h>>
        ensures { AnswersIf (is_input haystack.now self.now) input_of (input_by haystack.now self.now) result }
    {
        if self.start > self.end || self.end > haystack.len() {
            return None;
        }
        if self.anchored > 1 || self.earliest > 1 {
            return None;
        }
        let anchored = if self.anchored == 1 {
            Anchored::Yes
        } else {
            Anchored::No
        };
        let input = Input::new(haystack).range(self.start..self.end);
        Some(input.anchored(anchored).earliest(self.earliest == 1))
    }
}

impl FoundMatch {
    /// Returns a match as C has it.
    pub fn of(found: Match) -> FoundMatch
        ensures { match_of result ≡ found }
    {
        FoundMatch {
            pattern: found.pattern().as_usize(),
            start: found.start(),
            end: found.end(),
        }
    }
}

impl Cursor {
    /// Returns the cursor, or where it stands before a span the one at the span's start.
    pub fn in_span(&self, start: usize) -> Cursor
        ensures { result ≡ in_span start self.now }
    {
        if self.at < start {
            Cursor {
                at: start,
                given: 0,
            }
        } else {
            *self
        }
    }

    /// Returns a cursor past each span of a haystack.
    pub fn past(haystack: &[u8]) -> Cursor
        ensures { result ≡ past haystack.now }
    {
        Cursor {
            at: haystack.len() + 1,
            given: 0,
        }
    }

    /// Counts one more occurrence, which ends at `end`, as given.
    pub fn step(&mut self, end: usize)
        requires { self.old.at ≡ end → self.old.given < usize.MAX }
        ensures { self.new ≡ stepped self.old end }
    {
        if self.at == end {
            self.given += 1;
        } else {
            *self = Cursor { at: end, given: 1 };
        }
    }
}
