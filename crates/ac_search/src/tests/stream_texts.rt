//! Replacement in streams by readers and writers that do little at once, and fail: each engine answers as rows say.
ghost use Rattle.std.specs.Prelude.{◌≡◌, length};

use super::devices::{ALWAYS, End, Few, Pieces, WRITE, end_of};
use super::engines::{Engine, FEWER, KINDS, builder_of, engines, usual};
use super::rows::PREFIXES;
use super::stream::reader_of;
use super::stream_rows::{Given, QUICK};
use super::stream_text_rows::{Exchange, FORMS, Form, NUMBERS, ROOM, STOPPED_TEXTS, TEXTS, Text};
use super::{same, same_by};
use crate::MatchKind::{LeftmostFirst, Standard};
use crate::StartKind::Unanchored;
use crate::{AhoCorasick, FromRead, MatchError, MatchKind, Sink, StartKind};
use std::alloc::{AllocError, Global};
use std::io;
use std::io::ErrorKind;
use std::process::Abort;
use std::test::Fail;

/// Writes the text of a match's pattern, byte by byte, and fails after that of one pattern.
fn write_text(
    writer: &mut Few<'_>,
    texts: &[&[u8]],
    number: usize,
    failing: usize,
) -> io::Result<()> {
    for text in texts.get(number) {
        for byte in *text {
            writer.write_some(&[*byte])?;
        }
    }
    if number == failing {
        return Err(io::Error::from(ErrorKind::Other));
    }
    Ok(())
}

/// Replaces a stream, and returns how that ends.
fn exchange(
    alloc: Global,
    searcher: &AhoCorasick,
    reader: &mut Pieces<'_>,
    writer: &mut Few<'_>,
    texts: &[&[u8]],
    form: Form,
) -> End
    requires { length texts.now ≡ length searcher.now.built.patterns }
{
    end_of(match form {
        Form::List => searcher.try_stream_replace_all(alloc, reader, writer, texts),
        Form::Closure { failing } => searcher.try_stream_replace_all_with(
            alloc,
            reader,
            writer,
            |found, _, writer: &mut Few<'_>| {
                write_text(writer, texts, found.pattern().as_usize(), failing)
            },
        ),
    })
}

/// Compares how a replacement ends and what it writes with what a row says, and what a reader has left that stopped.
fn compare_text(
    rt: &impl Abort,
    alloc: Global,
    searcher: &AhoCorasick,
    texts: &[&[u8]],
    form: Form,
    row: Text<'_>,
) {
    let ((bytes, most, good, _), (taken, room, fails), wanted, end) = row;
    let mut reader = reader_of(row.0);
    let mut space = [0u8; ROOM];
    assert!(rt; texts.len() == searcher.patterns_len() && room <= ROOM);
    let mut writer = Few::new(&mut space[..room], taken, fails);
    let ended = exchange(alloc, searcher, &mut reader, &mut writer, texts, form);
    let written = room.saturating_sub(writer.room.len());
    drop(writer);
    same_by(
        rt,
        (ended, space.get(..written)),
        (end, Some(wanted)),
        searcher,
    );
    if good < ALWAYS {
        let unread = bytes.get(good.saturating_mul(most)..);
        same_by(rt, reader.left, unread.unwrap_or(&[]), searcher);
    }
}

/// Compares the replacements of streams over an engine with what rows say.
fn compare_texts(
    rt: &impl Abort,
    alloc: Global,
    engine: &Engine,
    (patterns, kinds, texts, forms): Exchange,
    rows: &[Text<'static>],
) -> Result<(), Fail> {
    for &kind in kinds {
        let searcher = builder_of(engine, kind, Unanchored).build(alloc, patterns)?;
        for row in rows {
            for &form in forms {
                compare_text(rt, alloc, &searcher, texts, form, *row);
            }
        }
    }
    Ok(())
}

#[test]
fn each_engine_replaces_in_a_stream_alike(rt: HostRuntime) -> Result<(), Fail> {
    for engine in &engines(rt.alloc(), FEWER)? {
        for &(exchange, rows) in TEXTS {
            compare_texts(&rt, rt.alloc(), engine, exchange, rows)?;
        }
    }
    Ok(())
}

#[test]
fn each_engine_replaces_in_a_stopped_stream_alike(rt: HostRuntime) -> Result<(), Fail> {
    for engine in KINDS {
        for &(exchange, rows) in STOPPED_TEXTS {
            compare_texts(&rt, rt.alloc(), &usual(engine), exchange, rows)?;
        }
    }
    Ok(())
}

/// Compares what is written by a writer that takes too few bytes, for each such number of bytes.
fn compare_beginnings(
    rt: &impl Abort,
    alloc: Global,
    searcher: &AhoCorasick,
    form: Form,
    (given, whole): (Given<'static>, &[u8]),
) {
    for room in 0..whole.len() {
        let wanted = &whole[..room];
        for (fails, end) in [(true, End::Io(WRITE)), (false, End::WriteZero)] {
            let row = (given, (1, room, fails), wanted, end);
            compare_text(rt, alloc, searcher, NUMBERS, form, row);
        }
    }
}

/// A stream in which the nested patterns stand, and what is made of it by each match kind.
const EXCHANGED: [(MatchKind, &'static [u8]); 3] = [
    (Standard, b"xa1cd1x"),
    (LeftmostFirst, b"x2d1x"),
    (MatchKind::LeftmostLongest, b"x31x"),
];

/// A closure doesn't see that a writer took nothing: the next write of the call itself does.
#[test]
fn each_write_fails_or_takes_nothing_in_turn(rt: HostRuntime) -> Result<(), Fail> {
    for engine in KINDS {
        for (kind, whole) in EXCHANGED {
            let builder = builder_of(&usual(engine), kind, Unanchored);
            let searcher = builder.build(rt.alloc(), PREFIXES)?;
            for &form in FORMS {
                let row = ((b"xabcdbx".as_slice(), 1, ALWAYS, None), whole);
                compare_beginnings(&rt, rt.alloc(), &searcher, form, row);
            }
        }
    }
    Ok(())
}

/// A start kind, a match kind, patterns, and why streams are refused.
type Refusal = (StartKind, MatchKind, &'static [&'static [u8]], MatchError);

const REFUSALS: &[Refusal] = &[
    (
        Unanchored,
        LeftmostFirst,
        &[b"", b"a"],
        MatchError::UnsupportedEmpty,
    ),
    (
        Unanchored,
        Standard,
        &[b"", b"a"],
        MatchError::UnsupportedEmpty,
    ),
    (
        StartKind::Anchored,
        LeftmostFirst,
        &[b"a", b"b"],
        MatchError::InvalidInputUnanchored,
    ),
];

/// Compares how a searcher refuses to replace in a stream with what a row says, and that nothing is read or written.
fn compare_refused_text(
    rt: &impl Abort,
    alloc: Global,
    searcher: &AhoCorasick,
    refusal: MatchError,
) {
    for &form in FORMS {
        let row = (
            (QUICK, 1, 0, None),
            (1, ROOM, true),
            b"".as_slice(),
            End::Refused(refusal),
        );
        compare_text(rt, alloc, searcher, &[b"-", b"+"], form, row);
    }
}

/// Compares how it refuses to search a stream, and that nothing is read.
fn compare_refused_walk(
    rt: &impl Abort,
    alloc: Global,
    searcher: &AhoCorasick,
    refusal: MatchError,
) {
    let mut left = QUICK;
    let ended = match searcher.try_stream_find_iter(alloc, FromRead::new(&mut left)) {
        Ok(_matches) => End::Whole,
        Err(e) => end_of(Err(e)),
    };
    same(rt, ended, End::Refused(refusal));
    same(rt, left, QUICK);
}

#[test]
fn a_refused_stream_is_not_read(rt: HostRuntime) -> Result<(), Fail> {
    for &(start_kind, kind, patterns, refusal) in REFUSALS {
        let builder = builder_of(&usual(None), kind, start_kind);
        let searcher = builder.build(rt.alloc(), patterns)?;
        compare_refused_text(&rt, rt.alloc(), &searcher, refusal);
        compare_refused_walk(&rt, rt.alloc(), &searcher, refusal);
    }
    Ok(())
}
