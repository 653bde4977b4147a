//! Replacement in texts that come in pieces: however a text is cut, and whatever room each call has, each engine writes what rows
//! say.
ghost use Rattle.std.specs.Prelude.{◌≡◌, ◌≤◌, length};

use super::engines::{KINDS, builder_of, usual};
use super::rows::PREFIXES;
use super::stream_text_rows::NUMBERS;
use super::{same, same_by};
use crate::MatchKind::{LeftmostFirst, LeftmostLongest, Standard};
use crate::StartKind::{Anchored, Unanchored};
use crate::{AhoCorasick, AhoCorasickBuilder, MatchError, MatchKind, PieceReplacer, StreamError};
use std::alloc::{AllocError, Global};
use std::process::Abort;
use std::test::Fail;

/// More calls than a piece here needs.
const MOST: usize = 16;

/// Adds what a replacement writes of a piece in calls that have room for two bytes, and returns whether it has taken the piece whole.
fn add_of(
    replacer: &mut PieceReplacer,
    piece: &[u8],
    written: &mut Vec<u8>,
) -> Result<bool, AllocError> {
    let mut left = piece;
    for _ in 0..MOST {
        let mut out = [0; 2];
        let filled = replacer.write(&mut left, &mut out);
        written.extend_from_slice(out.get(..filled).unwrap_or(&[]))?;
        if filled < 2 {
            return Ok(left.is_empty());
        }
    }
    Ok(false)
}

/// Compares what is written of a text that is cut at an offset with what a row says.
fn compare_cut(
    rt: &impl Abort,
    alloc: Global,
    searcher: &AhoCorasick,
    text: &[u8],
    cut: usize,
    wanted: &[u8],
) -> Result<(), Fail>
    requires { cut ≤ length text.now }
{
    assert!(rt; NUMBERS.len() == searcher.patterns_len());
    let mut replacer = searcher.try_piece_replacer(alloc, NUMBERS)?;
    let mut written = Vec::new(alloc);
    same(rt, add_of(&mut replacer, &text[..cut], &mut written)?, true);
    same(rt, add_of(&mut replacer, &text[cut..], &mut written)?, true);
    same_by(
        rt,
        Some(written.as_slice()),
        wanted.get(..written.len()),
        searcher,
    );
    replacer.end();
    same(rt, replacer.is_ended(), true);
    same(rt, add_of(&mut replacer, b"", &mut written)?, true);
    same_by(rt, written.as_slice(), wanted, searcher);
    Ok(())
}

/// Match kinds, and what each makes of `xabcdbx`.
const LETTERS: [(MatchKind, &'static [u8]); 3] = [
    (Standard, b"xa1cd1x"),
    (LeftmostFirst, b"x2d1x"),
    (LeftmostLongest, b"x31x"),
];

/// Each engine writes what a row says, wherever the text is cut.
#[test]
fn texts_are_replaced_in_pieces(rt: HostRuntime) -> Result<(), Fail> {
    for engine in KINDS {
        for (kind, wanted) in LETTERS {
            let builder = builder_of(&usual(engine), kind, Unanchored);
            let searcher = builder.build(rt.alloc(), PREFIXES)?;
            for cut in 0..8 {
                compare_cut(&rt, rt.alloc(), &searcher, b"xabcdbx", cut, wanted)?;
            }
        }
    }
    Ok(())
}

/// A replacement in pieces is refused as a stream is.
#[test]
fn replacements_in_pieces_are_refused(rt: HostRuntime) -> Result<(), Fail> {
    let mut builder = AhoCorasickBuilder::new();
    let patterns: &[&[u8]] = &[b"a", b""];
    let empty = builder.build(rt.alloc(), patterns)?;
    assert!(rt; empty.patterns_len() == 2);
    let refused = empty.try_piece_replacer(rt.alloc(), &[b"1", b"2"]).err();
    let unsupported = matches!(
        refused,
        Some(StreamError::Match(MatchError::UnsupportedEmpty))
    );
    same(&rt, unsupported, true);
    let anchored = builder.start_kind(Anchored).build(rt.alloc(), patterns)?;
    assert!(rt; anchored.patterns_len() == 2);
    let refused = anchored.try_piece_replacer(rt.alloc(), &[b"1", b"2"]).err();
    let unanchored = matches!(
        refused,
        Some(StreamError::Match(MatchError::InvalidInputUnanchored))
    );
    same(&rt, unanchored, true);
    Ok(())
}
