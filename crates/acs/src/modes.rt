//! What each mode reads and writes, by a searcher that is built.
ghost use Rattle.std.specs.Prelude.{◌≡◌, ◌≢◌, MatchResult};
ghost use Rattle.ac_search.specs.declared.MatchKind.TheVariants.{Standard};
ghost use Rattle.ac_search.specs.declared.StartKind.TheVariants.{Unanchored};
ghost use Rattle.ac_search.specs.Patterns.{bytes_of};
ghost use Rattle.acs.specs.declared.fault.Fault.TheVariants.{OverlappingKind};
ghost use Rattle.acs.specs.declared.request.Mode.TheVariants.{Find, Overlap, Replace, Stream, StreamReplace, Walk};
ghost use Rattle.acs.specs.Devices.{AnswersOn, ReplacesOn};
ghost use Rattle.acs.specs.Requests.{firsts};

use crate::fault::Fault;
use crate::input::read_all;
use crate::output::{print_all, print_found, print_stream, print_text};
use crate::request::texts_of;
use crate::run::Outcome;
use ac_search::laws::streams_settle_alike;
use ac_search::{AhoCorasick, Input, MatchKind, Sink, Source};
use std::alloc::Allocator;

/// Reads all that the reader gives, and writes a line for the match that a find answers.
///
/// # Errors
/// `Io` where a read or a write fails, `WriteZero` where a write takes no byte, `Memory` where a request for memory is
/// refused. Before all was read nothing is written.
pub(crate) fn find<A: Allocator + Clone, R: Source, W: Sink>(
    alloc: A,
    searcher: &AhoCorasick<A>,
    reader: &mut R,
    writer: &mut W,
) -> Result<Outcome, Fault>
    requires unanchored { searcher.now.built.start_kind ≡ Unanchored }
    ensures { AnswersOn R.Source W.Sink Find searcher.now reader.old reader.new writer.old writer.new result }
{
    let haystack = read_all(alloc.clone()?, reader)?;
    print_found(alloc, searcher.find(Input::new(&haystack)), writer)
}

/// Reads all that the reader gives, and writes a line for each match of the walk.
///
/// # Errors
/// As `find`.
pub(crate) fn walk<A: Allocator + Clone, R: Source, W: Sink>(
    alloc: A,
    searcher: &AhoCorasick<A>,
    reader: &mut R,
    writer: &mut W,
) -> Result<Outcome, Fault>
    requires unanchored { searcher.now.built.start_kind ≡ Unanchored }
    ensures { AnswersOn R.Source W.Sink Walk searcher.now reader.old reader.new writer.old writer.new result }
{
    let haystack = read_all(alloc.clone()?, reader)?;
    print_all(alloc, searcher.find_iter(Input::new(&haystack)), writer)
}

/// Reads all that the reader gives, and writes a line for each occurrence.
///
/// # Errors
/// As `find`; and `OverlappingKind` where the match kind is a leftmost one, with nothing read.
pub(crate) fn overlap<A: Allocator + Clone, R: Source, W: Sink>(
    alloc: A,
    searcher: &AhoCorasick<A>,
    reader: &mut R,
    writer: &mut W,
) -> Result<Outcome, Fault>
    requires unanchored { searcher.now.built.start_kind ≡ Unanchored }
    ensures { AnswersOn R.Source W.Sink Overlap searcher.now reader.old reader.new writer.old writer.new result }
{
    check_overlapping(searcher.match_kind())?;
    let haystack = read_all(alloc.clone()?, reader)?;
    let items = searcher.find_overlapping_iter(Input::new(&haystack));
    print_all(alloc, items, writer)
}

/// Writes a line for each match of the stream that the reader gives, while it is read.
///
/// # Errors
/// As `find`, and `TooLong` where more bytes come than a `usize` counts; but before each read the lines of all matches so far
/// that are settled were written. `StreamEmpty` where some pattern is empty: then nothing was read.
pub(crate) fn stream<A: Allocator + Clone, R: Source, W: Sink>(
    alloc: A,
    searcher: &AhoCorasick<A>,
    reader: &mut R,
    writer: &mut W,
) -> Result<Outcome, Fault>
    ensures { AnswersOn R.Source W.Sink Stream searcher.now reader.old reader.new writer.old writer.new result }
{
    let mut finder = searcher.try_stream_finder(alloc.clone()?)?;
    streams_settle_alike();
    print_stream(alloc, &mut finder, reader, writer)
}

/// Reads all that the reader gives, and writes it with each match exchanged for the text that follows its pattern among the
/// words.
///
/// # Errors
/// As `find`; but where memory is refused nothing was written.
pub(crate) fn replace<A: Allocator + Clone, R: Source, W: Sink>(
    alloc: A,
    searcher: &AhoCorasick<A>,
    words: &[&str],
    reader: &mut R,
    writer: &mut W,
) -> Result<Outcome, Fault>
    requires unanchored { searcher.now.built.start_kind ≡ Unanchored }
    requires patterns { searcher.now.built.patterns ≡ firsts (bytes_of words.now) }
    ensures { ReplacesOn R.Source W.Sink Replace searcher.now words.now reader.old reader.new writer.old writer.new result }
{
    let haystack = read_all(alloc.clone()?, reader)?;
    let texts = texts_of(alloc.clone()?, words)?;
    let whole = searcher.replace_all_bytes(alloc, &haystack, &texts)?;
    print_text(&whole, writer)
}

/// Writes the stream that the reader gives, while it is read, with each match exchanged for the text that follows its pattern
/// among the words.
///
/// # Errors
/// As `stream`; but before each read all of the replaced text was written save the bytes that a match to come may still need.
pub(crate) fn replace_stream<A: Allocator + Clone, R: Source, W: Sink>(
    alloc: A,
    searcher: &AhoCorasick<A>,
    words: &[&str],
    reader: &mut R,
    writer: &mut W,
) -> Result<Outcome, Fault>
    requires patterns { searcher.now.built.patterns ≡ firsts (bytes_of words.now) }
    ensures { ReplacesOn R.Source W.Sink StreamReplace searcher.now words.now reader.old reader.new writer.old writer.new result }
{
    let texts = texts_of(alloc.clone()?, words)?;
    searcher.try_stream_replace_all(alloc, reader, writer, &texts)?;
    Ok(Outcome::Found)
}

/// Tests that a match kind allows an overlapping search.
///
/// # Errors
/// `OverlappingKind` where the kind is a leftmost one.
fn check_overlapping(kind: MatchKind) -> Result<(), Fault>
    ensures { MatchResult result (λ _. kind ≡ Standard) (λ fault. (fault ≡ OverlappingKind) × (kind ≢ Standard)) }
{
    match kind {
        MatchKind::Standard => Ok(()),
        MatchKind::LeftmostFirst | MatchKind::LeftmostLongest => Err(Fault::OverlappingKind),
    }
}
