//! Searchers past sizes at which a body might answer otherwise, or report lack of memory that wasn't refused.
ghost use Rattle.std.specs.Prelude.{◌≡◌, length};

use super::many;
use ac_search::{
    AhoCorasick, AhoCorasickBuilder, AhoCorasickKind, BuildError, Bytes, Input, Match,
    ReplaceError, Sink, StreamError, Written,
};
use std::alloc::{AllocError, Global};
use std::test::Fail;

/// How many words there are, each of which has states of its own: more than 10,000, and than 100,000 states.
const WORDS: usize = 10_500;

/// How many digits a word has.
const DIGITS: usize = 15;

/// How long a haystack is: more than a mebibyte, and than a million matches.
const LONG: usize = 1_100_000;

/// The engines, and that one is chosen.
const ENGINES: [Option<AhoCorasickKind>; 4] = [
    None,
    Some(AhoCorasickKind::NoncontiguousNFA),
    Some(AhoCorasickKind::ContiguousNFA),
    Some(AhoCorasickKind::DFA),
];

/// Returns the word that begins with the digits of a number.
fn word(alloc: Global, number: usize) -> Result<String, AllocError> {
    format!(in alloc; "{number:05}{number:010}")
}

/// Returns all words.
fn words(alloc: Global) -> Result<Vec<String>, AllocError> {
    let mut words = Vec::new(alloc);
    for number in 0..WORDS {
        words.push(word(alloc, number)?)?;
    }
    Ok(words)
}

/// Returns the bytes of the words.
fn bytes_of(alloc: Global, words: &[String]) -> Result<Vec<&[u8]>, AllocError> {
    let mut bytes = Vec::new(alloc);
    for word in words {
        bytes.push(word.as_bytes())?;
    }
    Ok(bytes)
}

/// Returns whether a clone of a searcher finds the last word at the end of a haystack.
fn clone_finds_last(searcher: &AhoCorasick, haystack: &[u8]) -> bool {
    let wanted = Match::must(WORDS - 1, LONG..LONG + DIGITS);
    match searcher.clone() {
        Ok(clone) => matches!(clone.try_find(Input::new(haystack)), Ok(Some(m)) if m == wanted),
        Err(_) => false,
    }
}

/// Returns whether that of a searcher does whose states an engine has.
fn engine_finds_last(
    alloc: Global,
    engine: Option<AhoCorasickKind>,
    patterns: &[&[u8]],
    haystack: &[u8],
) -> Result<bool, BuildError> {
    let mut builder = AhoCorasickBuilder::new();
    builder.kind(engine);
    let searcher = builder.build(alloc, patterns)?;
    Ok(clone_finds_last(&searcher, haystack))
}

/// A clone of each engine over more than 100,000 states finds the last of the words where it stands after a long front.
#[test]
fn many_states(rt: HostRuntime) -> Result<(), Fail> {
    let words = words(rt.alloc())?;
    let patterns = bytes_of(rt.alloc(), &words)?;
    let last = patterns.last().copied().unwrap_or(&[]);
    let haystack = many(rt.alloc(), b'x', LONG, last)?;
    for engine in ENGINES {
        assert!(rt;
            engine_finds_last(rt.alloc(), engine, &patterns, &haystack)?,
            "{engine:?}"
        );
    }
    Ok(())
}

/// What each match is exchanged for.
const TEXT: &str = "bc";

/// Returns whether bytes are what more than a million matches are exchanged for, and nothing else.
fn are_exchanged(bytes: &[u8]) -> bool {
    let mut pairs = bytes.chunks(2);
    bytes.len() == 2 * LONG && pairs.all(|pair| pair == TEXT.as_bytes())
}

/// Returns whether a list exchanges each match in bytes.
fn list_exchanges(
    alloc: Global,
    searcher: &AhoCorasick,
    haystack: &[u8],
) -> Result<bool, ReplaceError>
    requires { length searcher.now.built.patterns ≡ 1 }
{
    let bytes = searcher.try_replace_all_bytes(alloc, haystack, &[TEXT.as_bytes()])?;
    Ok(are_exchanged(&bytes))
}

/// Returns whether a closure exchanges each match in a text.
fn closure_exchanges_text(
    alloc: Global,
    searcher: &AhoCorasick,
    haystack: &str,
) -> Result<bool, ReplaceError> {
    let mut text = String::new(alloc);
    searcher.try_replace_all_with(haystack, &mut text, |_, _, destination| {
        destination.push_str(TEXT).is_ok()
    })?;
    Ok(are_exchanged(text.as_bytes()))
}

/// Returns whether a closure exchanges each match in bytes.
fn closure_exchanges_bytes(
    alloc: Global,
    searcher: &AhoCorasick,
    haystack: &[u8],
) -> Result<bool, ReplaceError> {
    let mut bytes = Vec::new(alloc);
    searcher.try_replace_all_with_bytes(haystack, &mut bytes, |_, _, destination| {
        destination.extend_from_slice(TEXT.as_bytes()).is_ok()
    })?;
    Ok(are_exchanged(&bytes))
}

/// Returns whether a closure exchanges each match in a stream.
fn closure_exchanges_stream(
    alloc: Global,
    searcher: &AhoCorasick,
    stream: &[u8],
) -> Result<bool, StreamError> {
    let (mut reader, mut writer) = (Bytes::new(stream), Written::new(alloc));
    let exchange = |_: &Match, _: &[u8], writer: &mut Written<Global>| {
        writer.write_some(TEXT.as_bytes())?;
        Ok(())
    };
    searcher.try_stream_replace_all_with(alloc, &mut reader, &mut writer, exchange)?;
    Ok(are_exchanged(writer.bytes()))
}

/// Returns whether more than a million matches are exchanged for two bytes each: by a list and by closures, in memory and in a
/// stream.
fn exchange_all(alloc: Global, haystack: &str) -> Result<[bool; 4], Fail> {
    let searcher = AhoCorasick::new(alloc, &[b"a"])?;
    Ok([
        list_exchanges(alloc, &searcher, haystack.as_bytes())?,
        closure_exchanges_bytes(alloc, &searcher, haystack.as_bytes())?,
        closure_exchanges_text(alloc, &searcher, haystack)?,
        closure_exchanges_stream(alloc, &searcher, haystack.as_bytes())?,
    ])
}

#[test]
fn many_matches(rt: HostRuntime) -> Result<(), Fail> {
    let haystack = many(rt.alloc(), b'a', LONG, b"")?;
    let exchanged = exchange_all(rt.alloc(), str::from_utf8(&haystack)?)?;
    assert_eq!(rt; exchanged, [true; 4]);
    Ok(())
}
