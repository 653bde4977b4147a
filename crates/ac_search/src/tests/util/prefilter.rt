//! Prefilters, by rows.
use crate::tests::same;
use ac_util::error::BuildError;
use ac_util::looks::open;
use ac_util::patterns::Patterns;
use ac_util::prefilter::{Candidate, Prefilter};
use ac_util::search::{Input, Match, Span};
use std::alloc::Global;
use std::test::Fail;

/// Returns the prefilter of a search for these patterns.
fn prefilter_of(
    alloc: Global,
    patterns: &[&[u8]],
    ignores_case: bool,
) -> Result<Option<Prefilter>, BuildError> {
    let patterns = Patterns::new(alloc, patterns)?;
    Prefilter::of(alloc, &patterns, ignores_case)
}

/// Returns how many first bytes the prefilter of these patterns skips by, or None without a prefilter.
fn count_of(
    alloc: Global,
    patterns: &[&[u8]],
    ignores_case: bool,
) -> Result<Option<usize>, BuildError> {
    match prefilter_of(alloc, patterns, ignores_case)? {
        Some(prefilter) => Ok(Some(prefilter.byte_count())),
        None => Ok(None),
    }
}

/// Returns what the prefilter of these patterns says of a span; of a list without one nothing occurs anywhere.
fn candidate_of(
    alloc: Global,
    patterns: &[&[u8]],
    ignores_case: bool,
    haystack: &[u8],
    start: usize,
    end: usize,
) -> Result<Option<Candidate>, BuildError> {
    if end > haystack.len() || start > end + 1 {
        return Ok(None);
    }
    match prefilter_of(alloc, patterns, ignores_case)? {
        Some(prefilter) => Ok(Some(prefilter.find_in(haystack, Span { start, end }))),
        None => Ok(None),
    }
}

#[test]
fn a_single_pattern_is_a_needle(rt: HostRuntime) -> Result<(), Fail> {
    let alloc = rt.alloc();
    same(&rt, count_of(alloc, &[b"foo"], false)?, Some(0));
    let answers = [
        candidate_of(alloc, &[b"foo"], false, b"xxfoo", 0, 5)?,
        candidate_of(alloc, &[b"foo"], false, b"xxfoo", 0, 4)?,
        candidate_of(alloc, &[b"foo"], false, b"xxfoo", 3, 5)?,
    ];
    let found = Candidate::Match(Match::must(0, 2..5));
    same(
        &rt,
        answers,
        [Some(found), Some(Candidate::None), Some(Candidate::None)],
    );
    Ok(())
}

#[test]
fn a_tape_is_skipped_to_a_first_byte(rt: HostRuntime) -> Result<(), Fail> {
    let input = Input::new(b"xxfoo");
    let (tape, mut looks) = open(&input);
    let prefilter = prefilter_of(rt.alloc(), &[b"foo", b"bar"], false)?;
    let Some(Prefilter::Bytes(first)) = &prefilter else {
        return Err(Fail::new("two patterns have no first bytes"));
    };
    same(&rt, tape.skip_to(*first, 0, 5, &mut looks), Some(2));
    same(&rt, tape.skip_to(*first, 3, 5, &mut looks), None);
    Ok(())
}

#[test]
fn a_tape_is_searched_for_a_needle(rt: HostRuntime) -> Result<(), Fail> {
    let input = Input::new(b"xxfoo");
    let (tape, mut looks) = open(&input);
    let prefilter = prefilter_of(rt.alloc(), &[b"foo"], false)?;
    let Some(Prefilter::Needle(needle)) = &prefilter else {
        return Err(Fail::new("a single pattern is no needle"));
    };
    same(
        &rt,
        tape.find_needle(needle, 0, 5, &mut looks),
        Some(Match::must(0, 2..5)),
    );
    same(&rt, tape.find_needle(needle, 0, 4, &mut looks), None);
    Ok(())
}

#[test]
fn patterns_begin_with_few_bytes(rt: HostRuntime) -> Result<(), Fail> {
    let alloc = rt.alloc();
    let two: [&[u8]; 2] = [b"foo", b"bar"];
    let four: [&[u8]; 4] = [b"foo", b"bar", b"quux", b"baz"];
    let counts = [
        count_of(alloc, &two, false)?,
        count_of(alloc, &four, false)?,
        count_of(alloc, &[b"ab", b"ab"], false)?,
    ];
    same(&rt, counts, [Some(2), Some(3), Some(1)]);
    let answers = [
        candidate_of(alloc, &two, false, b"xxbar", 0, 5)?,
        candidate_of(alloc, &two, false, b"xxxx", 0, 4)?,
        candidate_of(alloc, &four, false, b"zbx", 0, 3)?,
    ];
    let wanted = [
        Some(Candidate::PossibleStart(2)),
        Some(Candidate::None),
        Some(Candidate::PossibleStart(1)),
    ];
    same(&rt, answers, wanted);
    Ok(())
}

#[test]
fn nothing_occurs_in_a_span_that_starts_past_its_end(rt: HostRuntime) -> Result<(), Fail> {
    let alloc = rt.alloc();
    let two: [&[u8]; 2] = [b"foo", b"bar"];
    let answers = [
        candidate_of(alloc, &[b"foo"], false, b"xfoob", 4, 3)?,
        candidate_of(alloc, &two, false, b"xfoob", 4, 3)?,
    ];
    same(&rt, answers, [Some(Candidate::None), Some(Candidate::None)]);
    Ok(())
}

#[test]
fn case_counts_or_does_not(rt: HostRuntime) -> Result<(), Fail> {
    let alloc = rt.alloc();
    let counts = [
        count_of(alloc, &[b"foo"], true)?,
        count_of(alloc, &[b"foo", b"bar"], true)?,
        count_of(alloc, &[b"1a", b"foo"], true)?,
    ];
    same(&rt, counts, [Some(2), None, Some(3)]);
    let start = candidate_of(alloc, &[b"foo"], true, b"xFx", 0, 3)?;
    same(&rt, start, Some(Candidate::PossibleStart(1)));
    Ok(())
}

#[test]
fn many_or_empty_patterns_have_none(rt: HostRuntime) -> Result<(), Fail> {
    let alloc = rt.alloc();
    let many: [&[u8]; 101] = [b"ab"; 101];
    let counts = [
        count_of(alloc, &[b"foo", b"bar", b"quux", b"baz", b"zip"], false)?,
        count_of(alloc, &[b"", b"a"], false)?,
        count_of(alloc, &[], false)?,
        count_of(alloc, &many, false)?,
        count_of(alloc, &many[..100], false)?,
    ];
    same(&rt, counts, [None, None, None, None, Some(1)]);
    Ok(())
}
