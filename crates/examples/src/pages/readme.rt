//! The examples of README.md.
use ac_search::{AhoCorasick, Anchored, Bytes, Input, Match, MatchKind, StartKind, Written};
use std::test::Fail;

#[test]
fn a_find_and_a_walk(rt: HostRuntime) -> Result<(), Fail> {
    let alloc = rt.alloc();
    let patterns: &[&[u8]] = &[b"apple", b"maple", b"Snapple"];
    let searcher = AhoCorasick::new(alloc, patterns)?;
    let text = "Nobody likes maple in their apple flavored Snapple.";

    let found = searcher.find(Input::of_text(text));
    are_equal!(rt; found, Some(Match::must(1, 13..18)));

    let mut ends = Vec::new(alloc);
    for m in searcher.find_iter(Input::of_text(text)) {
        ends.push((m.pattern().as_usize(), m.end()))?;
    }
    let wanted = [(1, 18), (0, 33), (2, 50)];
    are_equal!(rt; ends.as_slice(), wanted.as_slice());
    Ok(())
}

#[test]
fn match_kinds(rt: HostRuntime) -> Result<(), Fail> {
    let alloc = rt.alloc();
    let patterns: &[&[u8]] = &[b"Sam", b"Samwise"];
    let mut builder = AhoCorasick::builder();
    let standard = builder.build(alloc, patterns)?;
    builder.match_kind(MatchKind::LeftmostLongest);
    let longest = builder.build(alloc, patterns)?;

    let input = Input::new(b"Samwise");
    are_equal!(rt; standard.try_find(input), Ok(Some(Match::must(0, 0..3))));
    are_equal!(rt; longest.try_find(input), Ok(Some(Match::must(1, 0..7))));
    Ok(())
}

#[test]
fn case_and_anchored_searches(rt: HostRuntime) -> Result<(), Fail> {
    let alloc = rt.alloc();
    let patterns: &[&[u8]] = &[b"bar"];
    let mut builder = AhoCorasick::builder();
    builder
        .ascii_case_insensitive(true)
        .start_kind(StartKind::Both);
    let searcher = builder.build(alloc, patterns)?;

    let input = Input::new(b"foo BAR");
    are_equal!(rt; searcher.try_find(input), Ok(Some(Match::must(0, 4..7))));
    let anchored = input.anchored(Anchored::Yes);
    are_equal!(rt; searcher.try_find(anchored), Ok(None));
    are_equal!(rt;
        searcher.try_find(anchored.range(4..7)),
        Ok(Some(Match::must(0, 4..7)))
    );
    Ok(())
}

#[test]
fn overlapping_matches(rt: HostRuntime) -> Result<(), Fail> {
    let alloc = rt.alloc();
    let patterns: &[&[u8]] = &[b"append", b"appendage", b"app"];
    let searcher = AhoCorasick::new(alloc, patterns)?;

    let mut all = Vec::new(alloc);
    for m in searcher.find_overlapping_iter(Input::new(b"appendage")) {
        all.push(m)?; // pattern 2 at 0..3, pattern 0 at 0..6, pattern 1 at 0..9
    }
    let wanted = [
        Match::must(2, 0..3),
        Match::must(0, 0..6),
        Match::must(1, 0..9),
    ];
    are_equal!(rt; all.as_slice(), wanted.as_slice());
    Ok(())
}

#[test]
fn replacement(rt: HostRuntime) -> Result<(), Fail> {
    let alloc = rt.alloc();
    let patterns: &[&[u8]] = &[b"fox", b"brown", b"quick"];
    let searcher = AhoCorasick::new(alloc, patterns)?;
    let text = "The quick brown fox.";

    let sloth = searcher.try_replace_all(alloc, text, &["sloth", "grey", "slow"])?;
    are_equal!(rt; sloth.as_str(), "The slow grey sloth.");

    let mut shouted = String::new(alloc);
    searcher.try_replace_all_with(text, &mut shouted, |_, word, into| {
        into.push_str(word).is_ok() && into.push_str("!").is_ok()
    })?;
    are_equal!(rt; shouted.as_str(), "The quick! brown! fox!.");
    Ok(())
}

#[test]
fn streams(rt: HostRuntime) -> Result<(), Fail> {
    let alloc = rt.alloc();
    let patterns: &[&[u8]] = &[b"secret", b"password"];
    let searcher = AhoCorasick::new(alloc, patterns)?;

    let mut reader = Bytes::new(b"a secret password");
    let mut writer = Written::new(alloc);
    searcher.try_stream_replace_all(alloc, &mut reader, &mut writer, &[b"***", b"***"])?;
    are_equal!(rt; writer.bytes(), b"a *** ***".as_slice());
    Ok(())
}
