//! The builder of a searcher.
use ac_search::{
    AhoCorasickBuilder, AhoCorasickKind, Anchored, Input, Match, MatchError, StartKind, choose_kind,
};
use std::test::Fail;

#[test]
fn starts_of_searches(rt: HostRuntime) -> Result<(), Fail> {
    let alloc = rt.alloc();
    let mut builder = AhoCorasickBuilder::new();
    builder.start_kind(StartKind::Anchored);
    let searcher = builder.build(alloc, &[b"b", b"abc"])?;
    let input = Input::new(b"abcd");
    let refused = searcher.try_find(input);
    are_equal!(rt; refused, Err(MatchError::InvalidInputUnanchored));
    let found = searcher.try_find(input.anchored(Anchored::Yes));
    are_equal!(rt; found, Ok(Some(Match::must(1, 0..3))));
    Ok(())
}

#[test]
fn settings_of_engines(rt: HostRuntime) -> Result<(), Fail> {
    let alloc = rt.alloc();
    let mut builder = AhoCorasickBuilder::new();
    builder.kind(Some(AhoCorasickKind::ContiguousNFA));
    builder.dense_depth(0).byte_classes(false).prefilter(false);
    let copy = builder.clone();
    let searcher = copy.build(alloc, &[b"foo", b"bar"])?;
    are_equal!(rt; searcher.kind(), AhoCorasickKind::ContiguousNFA);
    let found = searcher.try_find(Input::new(b"xx bar"));
    are_equal!(rt; found, Ok(Some(Match::must(1, 3..6)))); // as with any engine
    Ok(())
}

#[test]
fn choices(rt: HostRuntime) {
    let few = choose_kind(3, StartKind::Unanchored, true, true);
    are_equal!(rt; few, AhoCorasickKind::DFA);
    let both = choose_kind(3, StartKind::Both, true, true);
    are_equal!(rt; both, AhoCorasickKind::ContiguousNFA);
    let large = choose_kind(101, StartKind::Unanchored, true, false);
    are_equal!(rt; large, AhoCorasickKind::NoncontiguousNFA);
}
