//! Searches of texts that come in pieces: however a text is cut, each engine finds what rows say, and lists what it lists of the
//! whole.
ghost use Rattle.std.specs.Prelude.{◌≤◌, length};

use super::devices::End;
use super::engines::{EACH, Engine, FEWER, builder_of, engines};
use super::stream::Walks;
use super::stream_rows::WALKS;
use super::{Triple, same, same_by, triple_of, triples_of};
use crate::MatchKind::{LeftmostLongest, Standard};
use crate::StartKind::{Anchored, Unanchored};
use crate::{
    AhoCorasick, AhoCorasickBuilder, Input, Match, MatchError, OverlappingPieceFinder, PieceFinder,
    StreamError,
};
use std::alloc::{AllocError, Global};
use std::process::Abort;
use std::test::Fail;

/// More matches than a row here has.
const MOST: usize = 8;

/// Adds the matches that a search gives of a piece, and returns whether it has taken the piece whole.
fn add_of(
    finder: &mut PieceFinder,
    piece: &[u8],
    walk: &mut Vec<Triple>,
) -> Result<bool, AllocError> {
    let mut left = piece;
    for _ in 0..MOST {
        match finder.next(&mut left) {
            Some(found) => walk.push(triple_of(&found))?,
            None => return Ok(left.is_empty()),
        }
    }
    Ok(false)
}

/// Compares what is found in a text that is cut at two offsets with what a row says.
fn compare_cut(
    rt: &impl Abort,
    alloc: Global,
    searcher: &AhoCorasick,
    text: &[u8],
    cuts: (usize, usize),
    wanted: &[Triple],
) -> Result<(), Fail>
    requires ordered { cuts.0 ≤ cuts.1 }
    requires inside { cuts.1 ≤ length text.now }
{
    let (first, second) = cuts;
    let mut finder = searcher.try_piece_finder()?;
    let mut walk = Vec::new(alloc);
    for piece in [&text[..first], &text[first..second], &text[second..]] {
        same(rt, add_of(&mut finder, piece, &mut walk)?, true);
    }
    finder.end();
    same(rt, add_of(&mut finder, b"", &mut walk)?, true);
    same_by(rt, walk.as_slice(), wanted, searcher);
    Ok(())
}

/// Compares what is found in a text that is cut in three in every way with what a row says.
fn compare_cuts(
    rt: &impl Abort,
    alloc: Global,
    searcher: &AhoCorasick,
    (text, wanted): (&[u8], &[Triple]),
) -> Result<(), Fail> {
    for second in 0..text.len() + 1 {
        for first in 0..second + 1 {
            compare_cut(rt, alloc, searcher, text, (first, second), wanted)?;
        }
    }
    Ok(())
}

/// Compares what an engine finds in the texts of rows that end with what the rows say.
fn compare_rows(
    rt: &impl Abort,
    alloc: Global,
    engine: &Engine,
    (patterns, kinds, rows): Walks,
) -> Result<(), Fail> {
    for &kind in kinds {
        let searcher = builder_of(engine, kind, Unanchored).build(alloc, patterns)?;
        for &((text, ..), wanted, end, _) in rows {
            if end == End::Whole {
                compare_cuts(rt, alloc, &searcher, (text, wanted))?;
            }
        }
    }
    Ok(())
}

/// Each engine finds in each text of a row what the row says, however it is cut in three.
#[test]
fn texts_are_cut_in_every_way(rt: HostRuntime) -> Result<(), Fail> {
    for engine in &engines(rt.alloc(), FEWER)? {
        for &rows in WALKS {
            compare_rows(&rt, rt.alloc(), engine, rows)?;
        }
    }
    Ok(())
}

/// A match is given once it is settled, a byte that settles it is taken, and nothing is taken after the end.
#[test]
fn matches_are_given_once_they_are_settled(rt: HostRuntime) -> Result<(), Fail> {
    let patterns: &[&[u8]] = &[b"abc", b"abcd", b"b"];
    let mut builder = AhoCorasickBuilder::new();
    let standard = builder.build(rt.alloc(), patterns)?;
    let longest = builder
        .match_kind(LeftmostLongest)
        .build(rt.alloc(), patterns)?;
    let mut finder = standard.try_piece_finder()?;
    let mut left = b"abcd".as_slice();
    same(&rt, finder.next(&mut left), Some(Match::must(2, 1..2)));
    same(&rt, (left, finder.settled()), (b"cd".as_slice(), 2));
    let mut finder = longest.try_piece_finder()?;
    let mut left = b"xabcab".as_slice();
    same(&rt, finder.next(&mut left), Some(Match::must(0, 1..4)));
    same(&rt, (left, finder.settled()), (b"b".as_slice(), 4));
    same(&rt, finder.next(&mut left), None);
    same(&rt, (left, finder.settled()), (b"".as_slice(), 4));
    finder.end();
    let mut left = b"cd".as_slice();
    same(&rt, finder.next(&mut left), Some(Match::must(2, 5..6)));
    same(&rt, finder.next(&mut left), None);
    same(&rt, (left, finder.settled()), (b"cd".as_slice(), 6));
    Ok(())
}

/// A search of pieces is refused as that of a stream is.
#[test]
fn searches_of_pieces_are_refused_as_streams_are(rt: HostRuntime) -> Result<(), Fail> {
    for &kind in EACH {
        let mut builder = AhoCorasickBuilder::new();
        let empty = builder
            .match_kind(kind)
            .build(rt.alloc(), &[b"a".as_slice(), b""])?;
        let refused = empty.try_piece_finder().err();
        let unsupported = matches!(
            refused,
            Some(StreamError::Match(MatchError::UnsupportedEmpty))
        );
        same(&rt, unsupported, true);
        let anchored = builder
            .start_kind(Anchored)
            .build(rt.alloc(), &[b"a".as_slice(), b""])?;
        let refused = anchored.try_piece_finder().err();
        let unanchored = matches!(
            refused,
            Some(StreamError::Match(MatchError::InvalidInputUnanchored))
        );
        same(&rt, unanchored, true);
    }
    Ok(())
}

/// More matches than a text below has in its listing.
const MOST_LISTED: usize = 16;

/// Patterns and a text: some that are one, some that end together, and one that no piece has whole.
const LISTINGS: &[(&[&[u8]], &[u8])] = &[
    (&[b"he", b"she", b"his", b"hers"], b"ushershis"),
    (&[b"ab", b"b", b"ab", b"bab"], b"ababb"),
    (&[b"a", b"aa", b"aaa", b"aaaa"], b"aaaaa"),
    (&[b"abcdefg", b"cde", b"x"], b"abcdefgh"),
    (&[b"abc"], b"xyz"),
];

/// Adds the matches that a listing gives of a piece, and returns whether it has taken the piece whole.
fn list_of(
    finder: &mut OverlappingPieceFinder,
    piece: &[u8],
    listed: &mut Vec<Triple>,
) -> Result<bool, AllocError> {
    let mut left = piece;
    for _ in 0..MOST_LISTED {
        match finder.next(&mut left) {
            Some(found) => listed.push(triple_of(&found))?,
            None => return Ok(left.is_empty()),
        }
    }
    Ok(false)
}

/// Compares the listing of a text that is cut at two offsets with that of the whole.
fn compare_listed(
    rt: &impl Abort,
    alloc: Global,
    searcher: &AhoCorasick,
    text: &[u8],
    cuts: (usize, usize),
    wanted: &[Triple],
) -> Result<(), Fail>
    requires ordered { cuts.0 ≤ cuts.1 }
    requires inside { cuts.1 ≤ length text.now }
{
    let (first, second) = cuts;
    let mut finder = searcher.try_overlapping_piece_finder()?;
    let mut listed = Vec::new(alloc);
    for piece in [&text[..first], &text[first..second], &text[second..], b""] {
        same(rt, list_of(&mut finder, piece, &mut listed)?, true);
    }
    same_by(rt, listed.as_slice(), wanted, searcher);
    Ok(())
}

/// Compares the listing of a text that is cut in three in every way with that of the whole.
fn compare_listings(
    rt: &impl Abort,
    alloc: Global,
    searcher: &AhoCorasick,
    text: &[u8],
) -> Result<(), Fail> {
    let whole = triples_of(alloc, searcher.try_find_overlapping_iter(Input::new(text))?)?;
    for second in 0..text.len() + 1 {
        for first in 0..second + 1 {
            compare_listed(rt, alloc, searcher, text, (first, second), &whole)?;
        }
    }
    Ok(())
}

/// Each engine lists of each text what it lists of the whole, however it is cut in three.
#[test]
fn listings_are_cut_in_every_way(rt: HostRuntime) -> Result<(), Fail> {
    for engine in &engines(rt.alloc(), FEWER)? {
        for &(patterns, text) in LISTINGS {
            let searcher = builder_of(engine, Standard, Unanchored).build(rt.alloc(), patterns)?;
            compare_listings(&rt, rt.alloc(), &searcher, text)?;
        }
    }
    Ok(())
}

/// A match is given as soon as its last byte was taken, also of two patterns that are one, and nothing more is taken.
#[test]
fn occurrences_are_given_once_they_end(rt: HostRuntime) -> Result<(), Fail> {
    let searcher = AhoCorasick::new(rt.alloc(), &[b"ab".as_slice(), b"b", b"ab"])?;
    let mut finder = searcher.try_overlapping_piece_finder()?;
    let mut left = b"a".as_slice();
    same(&rt, finder.next(&mut left), None);
    let mut left = b"bc".as_slice();
    same(&rt, finder.next(&mut left), Some(Match::must(0, 0..2)));
    same(&rt, left, b"c".as_slice());
    same(&rt, finder.next(&mut left), Some(Match::must(2, 0..2)));
    same(&rt, left, b"c".as_slice());
    let mut none = b"".as_slice();
    same(&rt, finder.next(&mut none), Some(Match::must(1, 1..2)));
    same(&rt, finder.next(&mut none), None);
    same(&rt, finder.next(&mut left), None);
    same(&rt, left, b"".as_slice());
    Ok(())
}

/// A listing of pieces is refused for its start first, then for its match kind, and then for an empty pattern.
#[test]
fn listings_of_pieces_are_refused(rt: HostRuntime) -> Result<(), Fail> {
    for &kind in EACH {
        let mut builder = AhoCorasickBuilder::new();
        let empty = builder
            .match_kind(kind)
            .build(rt.alloc(), &[b"a".as_slice(), b""])?;
        let refused = match empty.try_overlapping_piece_finder().err() {
            Some(StreamError::Match(refused)) => Some(refused),
            _ => None,
        };
        let wanted = match kind {
            Standard => MatchError::UnsupportedEmpty,
            got => MatchError::UnsupportedOverlapping { got },
        };
        same(&rt, refused, Some(wanted));
        let anchored = builder
            .start_kind(Anchored)
            .build(rt.alloc(), &[b"a".as_slice(), b""])?;
        let refused = anchored.try_overlapping_piece_finder().err();
        let unanchored = matches!(
            refused,
            Some(StreamError::Match(MatchError::InvalidInputUnanchored))
        );
        same(&rt, unanchored, true);
    }
    Ok(())
}
