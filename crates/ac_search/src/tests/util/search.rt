//! Matches, spans and settings.
use crate::tests::same;
use ac_util::primitives::PatternID;
use ac_util::search::{Anchored, Input, Match, MatchKind, Span, StartKind};
use std::alloc::Global;
use std::fmt::Debug;
use std::hash::{DefaultHasher, Hash, Hasher};
use std::process::Abort;
use std::test::Fail;

/// Returns what a hasher makes of a value.
fn hash_of<T: Hash>(value: &T) -> u64 {
    let mut hasher = DefaultHasher::new();
    value.hash(&mut hasher);
    hasher.finish()
}

/// Returns whether two matches are equal, whether their hashes are, and whether the hashes of their spans are.
fn alike(left: Match, right: Match) -> (bool, bool, bool) {
    (
        left == right,
        hash_of(&left) == hash_of(&right),
        hash_of(&left.span()) == hash_of(&right.span()),
    )
}

#[test]
fn spans(rt: HostRuntime) {
    let span = Span { start: 2, end: 3 };
    let empty = Span { start: 5, end: 5 };
    let backward = Span { start: 5, end: 2 };
    same(&rt, span.range(), 2..3);
    same(&rt, [span.len(), empty.len(), backward.len()], [1, 0, 0]);
    let empties = [span.is_empty(), empty.is_empty(), backward.is_empty()];
    same(&rt, empties, [false, true, true]);
}

#[test]
fn spans_hold_offsets_and_move(rt: HostRuntime) {
    let span = Span { start: 2, end: 4 };
    for (offset, held) in [(1, false), (2, true), (3, true), (4, true), (5, false)] {
        same(&rt, span.contains(offset), held);
    }
    same(&rt, Span { start: 5, end: 5 }.contains(5), false);
    same(&rt, Span { start: 5, end: 2 }.contains(3), false);
    same(&rt, span.offset(7), Span { start: 9, end: 11 });
    same(&rt, span.offset(usize::MAX - 4).end, usize::MAX);
    same(&rt, Span::from(2..4), span);
    same(&rt, Match::must(3, 1..4).offset(10), Match::must(3, 11..14));
}

/// Compares what a person is shown of a value.
fn compare_shown<T: Debug>(
    rt: &impl Abort,
    alloc: Global,
    value: &T,
    wanted: &str,
) -> Result<(), Fail> {
    let shown = format!(in alloc; "{:?}", *value)?;
    same(rt, shown.as_str(), wanted);
    Ok(())
}

#[test]
fn matches_are_shown_as_a_person_reads_them(rt: HostRuntime) -> Result<(), Fail> {
    let alloc = rt.alloc();
    let wanted = "Match { pattern: PatternID(1), span: 1..4 }";
    compare_shown(&rt, alloc, &Match::must(1, 1..4), wanted)?;
    compare_shown(&rt, alloc, &Span { start: 5, end: 2 }, "5..2")?;
    let wanted = "Input { haystack: [97, 98], start: 1, end: 2, anchored: No, earliest: false }";
    compare_shown(&rt, alloc, &Input::new(b"ab").range(1..2), wanted)
}

#[test]
fn matches(rt: HostRuntime) {
    let span = Span { start: 1, end: 9 };
    let found = Match::new(PatternID::must(2147483646), span);
    let empty = Match::must(1, 5..5);
    same(&rt, found, Match::must(2147483646, 1..9));
    same(&rt, found.pattern().as_usize(), 2147483646);
    same(
        &rt,
        [found.start(), found.end(), found.len(), empty.len()],
        [1, 9, 8, 0],
    );
    same(&rt, (found.span(), found.range()), (span, 1..9));
    same(&rt, [found.is_empty(), empty.is_empty()], [false, true]);
}

#[test]
fn matches_compare_by_their_parts(rt: HostRuntime) {
    let found = Match::must(1, 2..4);
    same(&rt, alike(found, Match::must(1, 2..4)), (true, true, true));
    same(
        &rt,
        alike(found, Match::must(0, 2..4)),
        (false, false, true),
    );
    same(
        &rt,
        alike(found, Match::must(1, 3..4)),
        (false, false, false),
    );
    same(
        &rt,
        alike(found, Match::must(1, 2..5)),
        (false, false, false),
    );
}

#[test]
fn settings_have_defaults(rt: HostRuntime) {
    same(&rt, MatchKind::default(), MatchKind::Standard);
    same(&rt, StartKind::default(), StartKind::Unanchored);
    assert!(rt; Anchored::Yes.is_anchored());
    assert!(rt; !Anchored::No.is_anchored());
}
