//! The patterns that take part, sorted by their bytes.
ghost use Rattle.std.specs.Prelude.{◌≡◌, ◌+◌, ◌-◌, ◌<◌, ◌≤◌, true, false, nat_eq, All, IfOk, IsTrue, OnOk, length, map, slice_get, slice_index_or, take, Bool, List, ℕ, ◌≢◌};
ghost use Rattle.std.specs.Cmp.Lexicographic.{slice_cmp};
ghost use Rattle.std.specs.List.{starts_with, AllWithin, HoldsAt};
ghost use Rattle.std.specs.Ordering.{nat_cmp};
ghost use Rattle.ac_automaton.specs.Util.{GREATEST, LeftmostFirst, plain, Standard};
ghost use Rattle.ac_automaton.specs.Sorted.{AreListed, AreNumbered, AreShort, AreSorted, HasShadow, IsHead, ListsParticipants, byte_at, compared, compared_by_bytes, key_at, keyed, numbers, is_prefix};

use ac_util::patterns::{Patterns, plain_byte};
use ac_util::primitives::PatternID;
use ac_util::search::MatchKind;
use std::alloc::{AllocError, Allocator};
use std::cmp::Ordering;
use std::marker::Model;

/// How many bytes of a pattern are compared as one number.
const HEAD_LEN: usize = 8;

/// A pattern that takes part.
#[derive(Clone, Copy)]
struct SortedPattern<'p> {
    bytes: &'p [u8],
    /// Its first plain bytes as one number, by which most patterns are told apart.
    head: u64,
    // no `PatternID`, since the borrow checker has no rule for one in a struct that also has a reference
    number: u32,
}

/// The patterns that take part in ascending order of their plain bytes, equal ones by number.
///
/// Those that begin with one string stand side by side. So a state of a trie is a range of them: of those that
/// have the state's string as a prefix.
#[derive(Drop)]
pub(crate) struct SortedPatterns<'p, A: Allocator> {
    patterns: Vec<SortedPattern<'p>, A>,
    ignores_case: bool,
}

impl<'p, A: Allocator> Model for SortedPatterns<'p, A> {
    ghost use Rattle.std.specs.Prelude.{◌≤◌, ◌+◌, All, length};
    ghost use Rattle.ac_util.specs.declared.primitives.TheConstants.{GREATEST};
    ghost use Rattle.ac_automaton.specs.Sorted.{Sorted, keyed};

    ghost Value = { Sorted };

    ghost view = { λ m. record { ignores_case = m.ignores_case; patterns = keyed m.ignores_case m.patterns.items } };

    ghost invariant = { λ m. record {
      few : length m.patterns.items ≤ GREATEST + 1;
      short : All (λ p. length p.bytes.now ≤ GREATEST) m.patterns.items;
      numbered : All (λ p. p.number ≤ GREATEST) m.patterns.items;
    } };
}

impl<'p, A: Allocator> SortedPatterns<'p, A> {
    /// Returns all patterns, sorted.
    ///
    /// # Errors
    /// `AllocError` where a request for memory is refused.
    fn sorted(
        alloc: A,
        patterns: &'p Patterns<A>,
        ignores_case: bool,
    ) -> Result<SortedPatterns<'p, A>, AllocError>
        ensures { IfOk result (AreSorted Standard ignores_case patterns.now) }
    {
        let mut patterns = listed(alloc, patterns, ignores_case)?;
        patterns.sort_unstable_by(|a, b| compare(a, b, ignores_case));
        Ok(SortedPatterns {
            patterns,
            ignores_case,
        })
    }

    /// Keeps those of all patterns that take part under `LeftmostFirst`.
    ///
    /// # Errors
    /// `AllocError` where a request for memory is refused.
    fn participating(mut self, alloc: A) -> Result<SortedPatterns<'p, A>, AllocError>
        ensures { IfOk result (λ new. (ignores_case : Bool) (texts : List (List ℕ))
            → AreSorted Standard ignores_case texts self.entry → AreSorted LeftmostFirst ignores_case texts new) }
    {
        let ignores_case = self.ignores_case;
        keep_participants(&mut self.patterns, ignores_case, alloc)?;
        Ok(self)
    }

    /// Returns whether their case is ignored.
    #[inline]
    pub(crate) fn fold(&self) -> bool
        ensures { result ≡ self.now.ignores_case }
    {
        self.ignores_case
    }

    /// Returns how many there are.
    #[inline]
    pub(crate) fn len(&self) -> usize
        ensures value { result ≡ length self.now.patterns }
        ensures few { result ≤ GREATEST + 1 }
    {
        self.patterns.len()
    }

    /// Returns the number of the one at a place.
    #[inline]
    fn number(&self, place: usize) -> PatternID
        requires within { place < length self.now.patterns }
        ensures { slice_get (numbers self.now.patterns) place ≡ Some result }
    {
        PatternID::must(self.patterns[place].number as usize)
    }

    /// Returns their numbers, in order.
    ///
    /// # Errors
    /// `AllocError` where a request for memory is refused.
    pub(crate) fn numbers(&self, alloc: A) -> Result<Vec<PatternID, A>, AllocError>
        ensures { IfOk result (λ order. order.items ≡ numbers self.now.patterns) }
    {
        let mut order = Vec::new(alloc);
        for place in 0..self.len() {
            order.push(self.number(place))?;
        }
        Ok(order)
    }

    /// Returns the plain byte at a depth of the one at a place, or `None` past its end.
    #[inline]
    pub(crate) fn byte(&self, place: usize, depth: usize) -> Option<u8>
        requires within { place < length self.now.patterns }
        ensures value { result ≡ byte_at self.now.patterns depth place }
        ensures short { length (key_at self.now.patterns place) ≤ GREATEST }
    {
        let byte = self.patterns[place].bytes.get(depth)?;
        Some(plain_byte(self.ignores_case, *byte))
    }

    /// Returns where those end that have the same byte at a depth as the one at the start, or none there as it.
    pub(crate) fn run_end(&self, start: usize, end: usize, depth: usize) -> usize
        requires some { start < end }
        requires within { end ≤ length self.now.patterns }
        ensures later { start < result }
        ensures within { result ≤ end }
        ensures same { (k : ℕ) → start ≤ k → k < result → byte_at self.now.patterns depth k
            ≡ byte_at self.now.patterns depth start }
        ensures other { result < end → byte_at self.now.patterns depth result ≢ byte_at self.now.patterns depth start }
    {
        let first = self.byte(start, depth);
        let mut at = start + 1;
        while at < end && self.byte(at, depth) == first {
            at += 1;
        }
        at
    }
}

impl<'p, A: Allocator + Clone> SortedPatterns<'p, A> {
    /// Returns the patterns that take part under a kind of match, sorted.
    ///
    /// # Errors
    /// `AllocError` where a request for memory is refused.
    pub(crate) fn of(
        alloc: A,
        patterns: &'p Patterns<A>,
        kind: MatchKind,
        ignores_case: bool,
    ) -> Result<SortedPatterns<'p, A>, AllocError>
        ensures { IfOk result (AreSorted kind ignores_case patterns.now) }
    {
        match kind {
            MatchKind::LeftmostFirst => {
                let all = SortedPatterns::sorted(alloc.clone()?, patterns, ignores_case)?;
                all.participating(alloc)
            }
            MatchKind::Standard | MatchKind::LeftmostLongest => {
                SortedPatterns::sorted(alloc, patterns, ignores_case)
            }
        }
    }
}

/// Returns all patterns by number.
///
/// # Errors
/// `AllocError` where a request for memory is refused.
fn listed<'p, A: Allocator>(
    alloc: A,
    patterns: &'p Patterns<A>,
    ignores_case: bool,
) -> Result<Vec<SortedPattern<'p>, A>, AllocError>
    ensures listed { IfOk result (λ listed. AreListed patterns.now listed.items) }
    ensures heads { IfOk result (λ listed. All (λ m. IsHead m.head (plain ignores_case m.bytes.now)) listed.items) }
    ensures few { IfOk result (λ listed. length listed.items ≤ GREATEST + 1) }
    ensures short { IfOk result (λ listed. AreShort listed.items) }
    ensures numbered { IfOk result (λ listed. AreNumbered listed.items) }
{
    let mut listed = Vec::new(alloc);
    for number in 0..patterns.len() {
        let bytes = patterns.get(number);
        listed.push(SortedPattern {
            bytes,
            head: head_of(bytes, ignores_case),
            number: number as u32,
        })?;
    }
    Ok(listed)
}

/// Returns the first plain bytes of a pattern as one number, which is the greater the later the bytes come in order.
fn head_of(bytes: &[u8], ignores_case: bool) -> u64
    ensures { IsHead result (plain ignores_case bytes.now) }
{
    let mut head = 0;
    for depth in 0..HEAD_LEN {
        head = head * 256 + u64::from(byte_or_zero(bytes, depth, ignores_case));
    }
    head
}

/// Returns the plain byte at a depth of a pattern, or 0 past its end.
#[inline]
fn byte_or_zero(bytes: &[u8], depth: usize, ignores_case: bool) -> u8
    ensures { result ≡ slice_index_or (plain ignores_case bytes.now) depth 0 }
{
    match bytes.get(depth) {
        Some(byte) => plain_byte(ignores_case, *byte),
        None => 0,
    }
}

/// Compares two patterns by their heads, and where these are the same by their plain bytes and by number.
#[inline]
fn compare(a: &SortedPattern<'_>, b: &SortedPattern<'_>, ignores_case: bool) -> Ordering
    ensures { result ≡ compared ignores_case a.now b.now }
{
    match a.head.cmp(&b.head) {
        Ordering::Equal => compare_whole(a, b, ignores_case),
        unequal => unequal,
    }
}

/// Compares two patterns by their plain bytes, and then by number.
#[inline(never)]
fn compare_whole(a: &SortedPattern<'_>, b: &SortedPattern<'_>, ignores_case: bool) -> Ordering
    ensures { result ≡ compared_by_bytes ignores_case a.now b.now }
{
    let by_number = a.number.cmp(&b.number);
    if ignores_case {
        return compare_letters(a.bytes, b.bytes).then(by_number);
    }
    compare_bytes(a.bytes, b.bytes).then(by_number)
}

/// Compares two patterns by their bytes.
fn compare_bytes(a: &[u8], b: &[u8]) -> Ordering
    ensures { result ≡ slice_cmp nat_cmp (plain false a.now) (plain false b.now) }
{
    a.cmp(b)
}

/// Compares two patterns by their bytes, each ASCII capital taken for its small letter.
fn compare_letters(a: &[u8], b: &[u8]) -> Ordering
    ensures { result ≡ slice_cmp nat_cmp (plain true a.now) (plain true b.now) }
{
    let plain = |x: &u8| plain_byte(true, *x);
    a.iter().map(plain).cmp(b.iter().map(plain))
}

/// Keeps those of all patterns that take part under `LeftmostFirst`: those without an earlier pattern as a
/// prefix.
///
/// Patterns that begin with a string stand right after it. So a stack holds the kept prefixes of the pattern
/// at hand, each with a lesser number than the one below it, and only the last is compared.
///
/// # Errors
/// `AllocError` where a request for memory is refused, and some patterns may then have been moved.
fn keep_participants<'p, A: Allocator>(
    sorted: &mut Vec<SortedPattern<'p>, A>,
    ignores_case: bool,
    alloc: A,
) -> Result<(), AllocError>
    ensures kept { OnOk result (ListsParticipants ignores_case sorted.old.items sorted.new.items) }
    ensures few { length sorted.new.items ≤ length sorted.old.items }
    ensures short { AreShort sorted.old.items → AreShort sorted.new.items }
    ensures numbered { AreNumbered sorted.old.items → AreNumbered sorted.new.items }
{
    let mut prefixes = Vec::new(alloc);
    let mut kept = 0;
    for at in 0..sorted.len() {
        let pattern = sorted[at];
        if !is_shadowed(&mut prefixes, &pattern, ignores_case) {
            prefixes.push(pattern)?;
            sorted[kept] = pattern;
            kept += 1;
        }
    }
    sorted.truncate(kept);
    Ok(())
}

/// Drops the patterns from the end of the stack that are no prefixes of this one, and returns whether the one
/// that is then the last has a lesser number.
fn is_shadowed<'p, A: Allocator>(
    prefixes: &mut Vec<SortedPattern<'p>, A>,
    pattern: &SortedPattern<'p>,
    ignores_case: bool,
) -> bool
    ensures left { prefixes.new.items ≡ take (length prefixes.new.items) prefixes.old.items }
    ensures gone { AllWithin (λ p. is_prefix ignores_case pattern.now p ≡ false)
        prefixes.old.items (length prefixes.new.items) (length prefixes.old.items) }
    ensures shadowed { IsTrue result → HasShadow ignores_case pattern.now prefixes.new.items }
    ensures free { result ≡ false → 0 < length prefixes.new.items
        → HoldsAt (λ p. pattern.now.number ≤ p.number) prefixes.new.items (length prefixes.new.items - 1) }
{
    let mut left = prefixes.len();
    while left > 0 && !begins_with(pattern.bytes, prefixes[left - 1].bytes, ignores_case) {
        left -= 1;
    }
    prefixes.truncate(left);
    left > 0 && prefixes[left - 1].number < pattern.number
}

/// Returns whether the plain bytes of a pattern begin with those of another.
fn begins_with(bytes: &[u8], prefix: &[u8], ignores_case: bool) -> bool
    ensures { result ≡ starts_with nat_eq (plain ignores_case bytes.now) (plain ignores_case prefix.now) }
{
    if bytes.len() < prefix.len() {
        return false;
    }
    for at in 0..prefix.len() {
        if plain_byte(ignores_case, prefix[at]) != plain_byte(ignores_case, bytes[at]) {
            return false;
        }
    }
    true
}
