//! A plain and slow search, whose contracts are the definitions themselves.
//!
//! Tests compare every faster search with it.
ghost use Rattle.std.specs.Prelude.{◌≡◌, ◌↔◌, ◌+◌, ◌≤◌, ◌<◌, IsTrue, length};
ghost use Rattle.ac_util.specs.Patterns.{bytes_of};
ghost use Rattle.ac_util.specs.Occurrence.{occurrence, IsSame, Occurs, from};
ghost use Rattle.ac_util.specs.Pick.{beats, better, pick};
ghost use Rattle.ac_util.specs.Plain.{search_within};

use crate::patterns::plain_byte;
use crate::primitives::GREATEST;
use crate::search::{Anchored, Match, MatchKind, Span};
use std::marker::Model;

mod exchange;
mod list;
mod walks;

pub use exchange::{replace_walk, replaced};
pub use list::listing;
pub use walks::{next_match, walk};

/// What a search looks for, and where: contracts see it as a `Search`.
#[derive(Drop)]
pub struct Query<'a> {
    patterns: &'a [&'a [u8]],
    ignores_case: bool,
    haystack: &'a [u8],
    anchored: Anchored,
    low: usize,
    high: usize,
}

impl<'a> Model for Query<'a> {
    ghost use Rattle.std.specs.Prelude.{◌+◌, ◌≤◌, length};
    ghost use Rattle.ac_util.specs.declared.primitives.TheConstants.{GREATEST};
    ghost use Rattle.ac_util.specs.Patterns.{bytes_of};
    ghost use Rattle.ac_util.specs.Occurrence.{Search};

    ghost Value = { Search };

    ghost view = { λ q. record {
      patterns = bytes_of q.patterns.now;
      ignores_case = q.ignores_case;
      haystack = q.haystack.now;
      anchored = q.anchored;
      low = q.low;
      high = q.high;
    } };

    ghost invariant = { λ q. record {
      within : q.high ≤ length q.haystack.now;
      numbers : length q.patterns.now ≤ GREATEST + 1;
    } };
}

impl<'a> Query<'a> {
    /// Returns the search for these patterns in a span of the haystack.
    ///
    /// With `ignores_case` the case of ASCII letters is ignored. Offsets count bytes of the whole haystack, in which
    /// the span has to end. In a span that starts after its end nothing is found. There may be no more patterns than
    /// `PatternID::LIMIT`.
    pub fn new(
        patterns: &'a [&'a [u8]],
        ignores_case: bool,
        haystack: &'a [u8],
        anchored: Anchored,
        span: Span,
    ) -> Query<'a>
        requires numbers { length patterns.now ≤ GREATEST + 1 }
        requires within { span.end ≤ length haystack.now }
        ensures { result ≡ search_within (bytes_of patterns.now) ignores_case haystack.now anchored span }
    {
        Query {
            patterns,
            ignores_case,
            haystack,
            anchored,
            low: span.start,
            high: span.end,
        }
    }

    /// Returns the same search in a span that starts at this offset.
    pub fn from(&self, place: usize) -> Query<'a>
        ensures { result ≡ from self.now place }
    {
        Query {
            patterns: self.patterns,
            ignores_case: self.ignores_case,
            haystack: self.haystack,
            anchored: self.anchored,
            low: place,
            high: self.high,
        }
    }

    /// Returns whether the pattern of this number occurs from `start` to `end`.
    fn occurs(&self, number: usize, start: usize, end: usize) -> bool
        requires { number < length self.now.patterns }
        ensures { IsTrue result ↔ Occurs self.now (occurrence number start end) }
    {
        let patterns = self.patterns;
        let pattern = patterns[number];
        self.low <= start
            && start <= end
            && end <= self.high
            && end - start == pattern.len()
            && (!self.anchored.is_anchored() || start == self.low)
            && same_string(self.ignores_case, pattern, &self.haystack[start..end])
    }
}

/// Returns the match that the kind picks, found by trying each pattern at each offset.
pub fn find(kind: MatchKind, query: &Query) -> Option<Match>
    ensures { result ≡ pick kind query.now }
{
    let mut best = None;
    for number in 0..query.patterns.len() {
        let pattern = query.patterns[number];
        for start in query.low..query.high + 1 {
            // A sum that doesn't fit lies past the span's end, and then `occurs` answers no.
            let end = start.saturating_add(pattern.len());
            if query.occurs(number, start, end) {
                best = Some(better(kind, Match::must(number, start..end), best));
            }
        }
    }
    best
}

/// Returns the new match or the best one so far, as the kind prefers.
fn better(kind: MatchKind, new: Match, best: Option<Match>) -> Match
    ensures { result ≡ better kind new best }
{
    match best {
        None => new,
        Some(old) => if beats(kind, old, new) { old } else { new },
    }
}

/// Returns whether the kind prefers the left match.
fn beats(kind: MatchKind, left: Match, right: Match) -> bool
    ensures { result ≡ beats kind left right }
{
    let same_start = left.start() == right.start();
    let same_end = left.end() == right.end();
    let less_number = left.pattern().as_usize() < right.pattern().as_usize();
    match kind {
        MatchKind::Standard if !same_end => left.end() < right.end(),
        _ if !same_start => left.start() < right.start(),
        MatchKind::LeftmostLongest if !same_end => right.end() < left.end(),
        _ => less_number,
    }
}

/// Returns whether two strings are the same, where `ignores_case` ignores the case of ASCII letters.
fn same_string(ignores_case: bool, left: &[u8], right: &[u8]) -> bool
    ensures { IsTrue result ↔ IsSame ignores_case left.now right.now }
{
    if left.len() != right.len() {
        return false;
    }
    for i in 0..left.len() {
        if plain_byte(ignores_case, left[i]) != plain_byte(ignores_case, right[i]) {
            return false;
        }
    }
    true
}
