//! Spans and options of inputs, and match kinds.
use ac_search::{AhoCorasick, Anchored, Input, Match, MatchKind, Span, StartKind};
use std::test::Fail;

#[test]
fn kinds_pick_matches(rt: HostRuntime) -> Result<(), Fail> {
    let alloc = rt.alloc();
    let patterns: &[&[u8]] = &[b"b", b"abc", b"abcd"];
    let mut builder = AhoCorasick::builder();
    for (kind, found) in [
        (MatchKind::Standard, Match::must(0, 1..2)),
        (MatchKind::LeftmostFirst, Match::must(1, 0..3)),
        (MatchKind::LeftmostLongest, Match::must(2, 0..4)),
    ] {
        let searcher = builder.match_kind(kind).build(alloc, patterns)?;
        are_equal!(rt; searcher.try_find(Input::new(b"abcd")), Ok(Some(found)));
    }
    Ok(())
}

#[test]
fn spans_of_inputs_are_searched(rt: HostRuntime) -> Result<(), Fail> {
    let alloc = rt.alloc();
    let searcher = AhoCorasick::new(alloc, &[b"foo", b"bar"])?;
    let input = Input::new(b"foobar").range(3..6);
    are_equal!(rt; searcher.find(input), Some(Match::must(1, 3..6)));
    let input = Input::new(b"foobar").span(Span { start: 0, end: 3 });
    are_equal!(rt; searcher.find(input), Some(Match::must(0, 0..3)));
    Ok(())
}

#[test]
fn options_of_inputs_count(rt: HostRuntime) -> Result<(), Fail> {
    let alloc = rt.alloc();
    let mut builder = AhoCorasick::builder();
    builder.start_kind(StartKind::Both);
    let searcher = builder.build(alloc, &[b"bar"])?;
    let input = Input::new(b"foo bar").anchored(Anchored::Yes);
    are_equal!(rt; searcher.try_find(input), Ok(None));
    let found = searcher.try_find(input.range(4..7));
    are_equal!(rt; found, Ok(Some(Match::must(0, 4..7))));
    Ok(())
}

#[test]
fn the_earliest_match_is_found(rt: HostRuntime) -> Result<(), Fail> {
    let alloc = rt.alloc();
    let mut builder = AhoCorasick::builder();
    builder.match_kind(MatchKind::LeftmostLongest);
    let searcher = builder.build(alloc, &[b"b", b"abc", b"abcd"])?;
    let input = Input::new(b"abcd");
    are_equal!(rt; searcher.try_find(input), Ok(Some(Match::must(2, 0..4))));
    let earliest = searcher.try_find(input.earliest(true));
    are_equal!(rt; earliest, Ok(Some(Match::must(0, 1..2))));
    Ok(())
}
