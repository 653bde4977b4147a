//! A filter that writes a stream with stars in place of secrets, by a list and by a closure.
ghost use Rattle.std.specs.Prelude.{◌≡◌, IfOk, MatchResult, length, map};
ghost use Rattle.examples.specs.Callers.{Redacts, redactor_of, stars};
ghost use Rattle.ac_search.specs.Device.{WritesAll, WritesBeginning};
ghost use Rattle.ac_search.specs.Patterns.{bytes_of};

mod program;

use crate::checks::{ALWAYS, ByteByByte, same};
use ac_search::laws::{closures_write_exchanged, lists_write_exchanged, pieces_join};
use ac_search::{
    AhoCorasick, BuildError, Bytes, FromRead, Match, MatchKind, Sink, Source, StreamError, Written,
    write_all,
};
use std::alloc::{AllocError, Global};
use std::io;
use std::test::Fail;

/// Why a redaction has failed.
#[derive(Drop, Debug)]
enum RedactError {
    Build(BuildError),
    Stream(StreamError),
}

impl From<AllocError> for RedactError {
    fn from(_error: AllocError) -> RedactError {
        RedactError::Build(BuildError::Memory)
    }
}

impl From<BuildError> for RedactError {
    fn from(error: BuildError) -> RedactError {
        RedactError::Build(error)
    }
}

impl From<StreamError> for RedactError {
    fn from(error: StreamError) -> RedactError {
        RedactError::Stream(error)
    }
}

/// Returns a searcher for secrets, in either case; where several begin at one byte it takes the longest.
fn searcher_for(alloc: Global, secrets: &[&[u8]]) -> Result<AhoCorasick, BuildError>
    ensures { IfOk result (λ searcher. searcher.built ≡ redactor_of (bytes_of secrets.now)) }
{
    let mut builder = AhoCorasick::builder();
    builder
        .match_kind(MatchKind::LeftmostLongest)
        .ascii_case_insensitive(true);
    builder.build(alloc, secrets)
}

/// Returns as many stars for each secret as it has bytes.
fn stars_for(alloc: Global, secrets: &[&[u8]]) -> Result<Vec<Vec<u8>>, AllocError>
    ensures { IfOk result (λ texts. map (λ t. t.items) texts.items ≡ map (λ s. stars (length s)) (bytes_of secrets.now)) }
{
    let mut texts = Vec::new(alloc);
    for secret in secrets {
        texts.push(vec![in alloc; b'*'; secret.len()]?)?;
    }
    Ok(texts)
}

/// Returns the texts as slices.
fn slices_of(alloc: Global, texts: &[Vec<u8>]) -> Result<Vec<&[u8]>, AllocError>
    ensures { IfOk result (λ slices. bytes_of slices.items ≡ map (λ t. t.items) texts.now) }
{
    let mut slices = Vec::new(alloc);
    for text in texts {
        slices.push(text.as_slice())?;
    }
    Ok(slices)
}

/// Writes a stream with as many stars in place of each secret, by a searcher for the secrets and a list of stars.
///
/// # Errors
/// What was written by then begins what is written for every stream that begins with the bytes that were read.
fn write_redacted<R: Source, W: Sink>(
    alloc: Global,
    searcher: &AhoCorasick,
    texts: &[&[u8]],
    reader: &mut R,
    writer: &mut W,
) -> Result<(), StreamError>
    requires searcher { searcher.now.built ≡ redactor_of searcher.now.built.patterns }
    requires texts { bytes_of texts.now ≡ map (λ s. stars (length s)) searcher.now.built.patterns }
    ensures { Redacts R.empty_means_end R.told W.told searcher.now.built.patterns reader.old writer.old reader.new writer.new result }
{
    lists_write_exchanged::<R, W>();
    searcher.try_stream_replace_all(alloc, reader, writer, texts)
}

/// Copies a stream, with as many stars in place of each secret as it has bytes.
///
/// # Errors
/// What was written by then begins what is written for every stream that begins with the bytes that were read.
fn redact<R: Source, W: Sink>(
    alloc: Global,
    secrets: &[&[u8]],
    reader: &mut R,
    writer: &mut W,
) -> Result<(), RedactError>
    ensures { Redacts R.empty_means_end R.told W.told (bytes_of secrets.now) reader.old writer.old reader.new writer.new result }
{
    lists_write_exchanged::<R, W>();
    let searcher = searcher_for(alloc, secrets)?;
    let stars = stars_for(alloc, secrets)?;
    let texts = slices_of(alloc, &stars)?;
    write_redacted(alloc, &searcher, &texts, reader, writer)?;
    Ok(())
}

/// Writes so many stars.
fn write_stars<W: Sink>(writer: &mut W, count: usize) -> io::Result<()>
    ensures { MatchResult result (λ _. WritesAll (W.told writer.old) (W.told writer.new) (stars count))
        (λ _. WritesBeginning (W.told writer.old) (W.told writer.new) (stars count)) }
{
    pieces_join();
    let mut left = count;
    while left > 0 {
        if let Err(e) = write_all(writer, b"*") {
            return Err(e.into_error());
        }
        left -= 1;
    }
    Ok(())
}

/// Does what `write_redacted` does, by a closure: no list of stars is made.
///
/// # Errors
/// As `write_redacted`.
fn write_redacted_by_calls<R: Source, W: Sink>(
    alloc: Global,
    searcher: &AhoCorasick,
    reader: &mut R,
    writer: &mut W,
) -> Result<(), StreamError>
    requires searcher { searcher.now.built ≡ redactor_of searcher.now.built.patterns }
    ensures { Redacts R.empty_means_end R.told W.told searcher.now.built.patterns reader.old writer.old reader.new writer.new result }
{
    let stars = |_: &Match, secret: &[u8], writer: &mut W| write_stars(writer, secret.len());
    closures_write_exchanged::<R, W, _>(&stars);
    searcher.try_stream_replace_all_with(alloc, reader, writer, stars)
}

/// Does what `redact` does, by a closure.
///
/// # Errors
/// As `redact`.
fn redact_by_calls<R: Source, W: Sink>(
    alloc: Global,
    secrets: &[&[u8]],
    reader: &mut R,
    writer: &mut W,
) -> Result<(), RedactError>
    ensures { Redacts R.empty_means_end R.told W.told (bytes_of secrets.now) reader.old writer.old reader.new writer.new result }
{
    lists_write_exchanged::<R, W>();
    let searcher = searcher_for(alloc, secrets)?;
    write_redacted_by_calls(alloc, &searcher, reader, writer)?;
    Ok(())
}

const SECRETS: &[&[u8]] = &[b"secret", b"password", b"pass"];

#[test]
fn secrets_are_redacted(rt: HostRuntime) -> Result<(), Fail> {
    let text = b"a Secret password, secretly passed on";
    let wanted = b"a ****** ********, ******ly ****ed on";
    let mut writer = Written::new(rt.alloc());
    let ended = redact(rt.alloc(), SECRETS, &mut Bytes::new(text), &mut writer);
    let mut other = Written::new(rt.alloc());
    let mut reader = FromRead::new(ByteByByte::new(text, ALWAYS));
    let again = redact_by_calls(rt.alloc(), SECRETS, &mut reader, &mut other);
    same(&rt, (ended.is_ok(), again.is_ok()), (true, true));
    same(
        &rt,
        (writer.bytes(), other.bytes()),
        (wanted.as_slice(), wanted.as_slice()),
    );
    Ok(())
}

#[test]
fn nothing_leaks_at_a_failure(rt: HostRuntime) -> Result<(), Fail> {
    // the read fails within "password": "pass" has matched, but may still become longer
    let mut writer = Written::new(rt.alloc());
    let mut reader = FromRead::new(ByteByByte::new(b"a secretpasswords", 15));
    let ended = redact(rt.alloc(), SECRETS, &mut reader, &mut writer);
    same(&rt, ended.is_err(), true);
    same(&rt, writer.bytes(), b"a ******".as_slice());
    Ok(())
}
