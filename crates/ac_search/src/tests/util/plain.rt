//! The plain search, by rows.
ghost use Rattle.std.specs.Prelude.{◌≤◌, length};

use crate::tests::same;
use ac_util::plain::{Query, find, listing, replace_walk, walk};
use ac_util::search::Anchored::{No, Yes};
use ac_util::search::MatchKind::{LeftmostFirst, LeftmostLongest, Standard};
use ac_util::search::{Anchored, Match, MatchKind, Span};
use std::alloc::{AllocError, Global};
use std::test::Fail;

/// A pattern number, a start and an end.
type Triple = (usize, usize, usize);

const NESTED: &[&[u8]] = &[b"b", b"abc", b"abcd"];

const APPENDS: &[&[u8]] = &[b"append", b"appendage", b"app"];

const SENTENCE: &[u8] = b"append the app to the appendage";

/// Returns the search of a whole haystack.
fn whole<'a>(
    patterns: &'a [&'a [u8]],
    ignores_case: bool,
    haystack: &'a [u8],
    anchored: Anchored,
) -> Query<'a>
    requires { length patterns.now ≤ 100 }
{
    let span = Span {
        start: 0,
        end: haystack.len(),
    };
    Query::new(patterns, ignores_case, haystack, anchored, span)
}

/// Returns what a row says of a match.
fn triple_of(m: &Match) -> Triple {
    (m.pattern().as_usize(), m.start(), m.end())
}

/// Returns whether the matches are these.
fn are_equal(matches: &[Match], wanted: &[Triple]) -> bool {
    matches.iter().map(triple_of).eq(wanted.iter().copied())
}

/// Returns what a row says of the first match of a search.
fn found(kind: MatchKind, query: &Query) -> Option<Triple> {
    find(kind, query).map(|m| triple_of(&m))
}

/// Returns what a row says of the first match of `abc` in a span of `xabcx`.
fn abc_in(start: usize, end: usize) -> Option<Triple>
    requires { end ≤ 5 }
{
    let query = Query::new(&[b"abc"], false, b"xabcx", No, Span { start, end });
    found(LeftmostFirst, &query)
}

/// Returns whether a walk has these matches.
fn walks_by(
    alloc: Global,
    kind: MatchKind,
    query: &Query,
    wanted: &[Triple],
) -> Result<bool, AllocError> {
    let matches = walk(alloc, kind, query)?;
    Ok(are_equal(&matches, wanted))
}

/// Returns whether a listing has these items.
fn lists(alloc: Global, query: &Query, wanted: &[Triple]) -> Result<bool, AllocError> {
    let matches = listing(alloc, query)?;
    Ok(are_equal(&matches, wanted))
}

/// Returns whether the haystack, with each match exchanged for the text of its pattern, is this.
fn exchanges(
    alloc: Global,
    patterns: &[&[u8]],
    texts: &[&[u8]],
    haystack: &[u8],
    wanted: &[u8],
) -> Result<bool, AllocError>
    requires few { length patterns.now ≤ 100 }
    requires enough { length patterns.now ≤ length texts.now }
{
    let span = Span {
        start: 0,
        end: haystack.len(),
    };
    let query = Query::new(patterns, false, haystack, No, span);
    let bytes = replace_walk(alloc, LeftmostFirst, &query, texts)?;
    Ok(bytes.as_slice() == wanted)
}

#[test]
fn each_kind_finds_its_own(rt: HostRuntime) {
    let nested = whole(NESTED, false, b"abcd", No);
    same(&rt, found(Standard, &nested), Some((0, 1, 2)));
    same(&rt, found(LeftmostFirst, &nested), Some((1, 0, 3)));
    same(&rt, found(LeftmostLongest, &nested), Some((2, 0, 4)));
    let empty = whole(&[b"abc", b"bd", b""], false, b"abd", No);
    same(&rt, found(LeftmostFirst, &empty), Some((2, 0, 0)));
    let none = whole(&[], false, b"abc", No);
    same(&rt, found(Standard, &none), None);
}

#[test]
fn settings_change_what_is_found(rt: HostRuntime) {
    let folded = whole(&[b"ab", b"AB"], true, b"aB", No);
    same(&rt, found(Standard, &folded), Some((0, 0, 2)));
    let bracket = whole(&[b"["], true, b"{", No);
    same(&rt, found(Standard, &bracket), None);
    let anchored = whole(NESTED, false, b"abcd", Yes);
    same(&rt, found(Standard, &anchored), Some((1, 0, 3)));
    let further = whole(NESTED, false, b"xb", Yes);
    same(&rt, found(Standard, &further), None);
}

#[test]
fn walks(rt: HostRuntime) -> Result<(), Fail> {
    let alloc = rt.alloc();
    let query = whole(APPENDS, false, SENTENCE, No);
    let rows = [
        (Standard, [(2, 0, 3), (2, 11, 14), (2, 22, 25)]),
        (LeftmostFirst, [(0, 0, 6), (2, 11, 14), (0, 22, 28)]),
        (LeftmostLongest, [(0, 0, 6), (2, 11, 14), (1, 22, 31)]),
    ];
    for (kind, wanted) in rows {
        assert!(rt; walks_by(alloc, kind, &query, &wanted)?);
    }
    Ok(())
}

#[test]
fn settings_change_a_walk(rt: HostRuntime) -> Result<(), Fail> {
    let alloc = rt.alloc();
    let empty = whole(&[b""], false, b"ab", No);
    assert!(rt; walks_by(alloc, Standard, &empty, &[(0, 0, 0), (0, 1, 1), (0, 2, 2)])?);
    let folded = whole(&[b"FOO", b"bAr", b"BaZ"], true, b"foo bar baz", No);
    let wanted = [(0, 0, 3), (1, 4, 7), (2, 8, 11)];
    assert!(rt; walks_by(alloc, Standard, &folded, &wanted)?);
    let anchored = whole(&[b"foo", b"bar", b"quux"], false, b"fooquuxbar foo", Yes);
    let wanted = [(0, 0, 3), (2, 3, 7), (1, 7, 10)];
    assert!(rt; walks_by(alloc, LeftmostFirst, &anchored, &wanted)?);
    Ok(())
}

#[test]
fn listings(rt: HostRuntime) -> Result<(), Fail> {
    let alloc = rt.alloc();
    let all = whole(APPENDS, false, b"appendage app", No);
    let wanted = [(2, 0, 3), (0, 0, 6), (1, 0, 9), (2, 10, 13)];
    assert!(rt; lists(alloc, &all, &wanted)?);
    let anchored = whole(APPENDS, false, SENTENCE, Yes);
    assert!(rt; lists(alloc, &anchored, &[(2, 0, 3), (0, 0, 6)])?);
    let empty = whole(&[b"", b"a"], false, b"a", No);
    let wanted = [(0, 0, 0), (1, 0, 1), (0, 1, 1)];
    assert!(rt; lists(alloc, &empty, &wanted)?);
    Ok(())
}

#[test]
fn spans(rt: HostRuntime) {
    same(&rt, abc_in(1, 4), Some((0, 1, 4)));
    same(&rt, [abc_in(1, 3), abc_in(2, 5), abc_in(5, 5)], [None; 3]);
    let backward = Query::new(&[b""], false, b"abc", No, Span { start: 4, end: 3 });
    same(&rt, found(LeftmostFirst, &backward), None);
    let later = Query::new(NESTED, false, b"foo abcd", Yes, Span { start: 4, end: 8 });
    same(&rt, found(LeftmostFirst, &later), Some((1, 4, 7)));
}

#[test]
fn replacements(rt: HostRuntime) -> Result<(), Fail> {
    let alloc = rt.alloc();
    let texts: [&[u8]; 3] = [b"x", b"y", b"z"];
    let wanted = b"x the z to the xage";
    assert!(rt; exchanges(alloc, APPENDS, &texts, SENTENCE, wanted)?);
    let half = b"\x78\xa9";
    assert!(rt; exchanges(alloc, &[b"\xc3"], &[b"x"], b"\xc3\xa9", half)?);
    assert!(rt; exchanges(alloc, &[], &[], b"abc", b"abc")?);
    Ok(())
}
