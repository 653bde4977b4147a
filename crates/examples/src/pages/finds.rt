//! Searchers, finds and walks.
use ac_search::{
    AhoCorasick, AhoCorasickKind, Anchored, Input, Match, MatchError, MatchKind, StartKind,
    patterns_of,
};
use std::test::Fail;

#[test]
fn searchers(rt: HostRuntime) -> Result<(), Fail> {
    let alloc = rt.alloc();
    let patterns: &[&[u8]] = &[b"foo", b"bar", b"baz"];
    let searcher = AhoCorasick::new(alloc, patterns)?;
    let found = searcher.find(Input::new(b"xxx bar xxx"));
    are_equal!(rt; found, Some(Match::must(1, 4..7)));
    Ok(())
}

#[test]
fn searchers_for_texts(rt: HostRuntime) -> Result<(), Fail> {
    let alloc = rt.alloc();
    let patterns = patterns_of(alloc, &["apple", "maple", "Snapple"])?;
    let searcher = AhoCorasick::new(alloc, &patterns)?;
    let found = searcher.find(Input::of_text("a maple"));
    are_equal!(rt; found, Some(Match::must(1, 2..7)));
    let bytes: &[&[u8]] = &[b"apple", b"maple", b"Snapple"];
    are_equal!(rt; patterns.as_slice(), bytes);
    Ok(())
}

#[test]
fn settings_and_sizes(rt: HostRuntime) -> Result<(), Fail> {
    let alloc = rt.alloc();
    let searcher = AhoCorasick::new(alloc, &[b"foo", b"bar", b"quux"])?;
    are_equal!(rt; searcher.kind(), AhoCorasickKind::DFA);
    are_equal!(rt; searcher.match_kind(), MatchKind::Standard);
    are_equal!(rt; searcher.start_kind(), StartKind::Unanchored);
    are_equal!(rt; searcher.patterns_len(), 3);
    are_equal!(rt; searcher.min_pattern_len(), 3);
    are_equal!(rt; searcher.max_pattern_len(), 4);
    assert!(rt; searcher.memory_usage() > 0);
    Ok(())
}

#[test]
fn finds(rt: HostRuntime) -> Result<(), Fail> {
    let alloc = rt.alloc();
    let searcher = AhoCorasick::new(alloc, &[b"foo", b"bar", b"quux"])?;
    assert!(rt; searcher.is_match(Input::new(b"xxx bar xxx")));
    assert!(rt; !searcher.is_match(Input::new(b"xxx qux xxx")));
    Ok(())
}

#[test]
fn finds_that_may_be_refused(rt: HostRuntime) -> Result<(), Fail> {
    let alloc = rt.alloc();
    let searcher = AhoCorasick::new(alloc, &[b"bar"])?;
    let input = Input::new(b"foo bar");
    are_equal!(rt; searcher.try_find(input), Ok(Some(Match::must(0, 4..7))));
    let refused = searcher.try_find(input.anchored(Anchored::Yes));
    are_equal!(rt; refused, Err(MatchError::InvalidInputAnchored));
    Ok(())
}

#[test]
fn walks(rt: HostRuntime) -> Result<(), Fail> {
    let alloc = rt.alloc();
    let searcher = AhoCorasick::new(alloc, &[b"apple", b"maple"])?;
    let mut ends = Vec::new(alloc);
    for m in searcher.find_iter(Input::new(b"maple, apple")) {
        ends.push(m.end())?; // pattern 1 at 0..5, pattern 0 at 7..12
    }
    are_equal!(rt; ends.as_slice(), [5, 12].as_slice());
    Ok(())
}

#[test]
fn walks_that_may_be_refused(rt: HostRuntime) -> Result<(), Fail> {
    let alloc = rt.alloc();
    let mut builder = AhoCorasick::builder();
    builder.start_kind(StartKind::Anchored);
    let searcher = builder.build(alloc, &[b"ab"])?;
    let input = Input::new(b"abxab");
    let refused = searcher.try_find_iter(input).err();
    are_equal!(rt; refused, Some(MatchError::InvalidInputUnanchored));
    let mut matches = searcher.try_find_iter(input.anchored(Anchored::Yes))?;
    are_equal!(rt; matches.next(), Some(Match::must(0, 0..2)));
    Ok(())
}
