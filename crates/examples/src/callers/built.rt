//! Finds that stand far from the build of their searcher.
use crate::checks::{same, triples_of};
use ac_search::laws::finds_are_supported;
use ac_search::{AhoCorasick, Input, Match, MatchKind, StartKind};
use std::test::Fail;

#[test]
fn built_searchers_find(rt: HostRuntime) -> Result<(), Fail> {
    let alloc = rt.alloc();
    let patterns: &[&[u8]] = &[b"Sam", b"Samwise"];
    let mut builder = AhoCorasick::builder();
    builder.match_kind(MatchKind::LeftmostLongest);
    let searcher = builder.build(alloc, patterns)?;
    let input = Input::new(b"Samwise, Sam");
    same(&rt, searcher.find(input), Some(Match::must(1, 0..7)));

    builder
        .match_kind(MatchKind::LeftmostFirst)
        .start_kind(StartKind::Both);
    let both = builder.build(alloc, patterns)?;
    finds_are_supported(&both, input);
    let found = triples_of(alloc, both.find_iter(input))?;
    same(&rt, found.as_slice(), [(0, 0, 3), (0, 9, 12)].as_slice());
    Ok(())
}
