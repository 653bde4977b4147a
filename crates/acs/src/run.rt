//! The program over any reader and writer.
ghost use Rattle.std.specs.Prelude.{◌≡◌, IfErr, MatchResult};
ghost use Rattle.std.specs.Iterator.{IsFinite};
ghost use Rattle.ac_search.specs.Patterns.{bytes_of};
ghost use Rattle.acs.specs.Devices.{EndsOn, EndsOnAll, HasAnsweredOn, RunsOn};
ghost use Rattle.acs.specs.Lines.{status_of};
ghost use Rattle.acs.specs.Runs.{HasReported};
ghost use Rattle.acs.specs.declared.fault.Fault.TheVariants.{Memory};
ghost use Rattle.ac_search.specs.Searchers.{IsBuilt};
ghost use Rattle.acs.specs.Requests.{settings_of};
ghost use Rattle.acs.specs.Faults.{IsRefusal};

use crate::fault::Fault;
use crate::modes::{find, overlap, replace, replace_stream, stream, walk};
use crate::output::write_line;
use crate::request::{Mode, Request, check_patterns, patterns_of, request_of, words_among};
use ac_search::{AhoCorasick, AhoCorasickBuilder, Sink, Source};
use std::alloc::Allocator;

/// How a run ends that meets no fault.
#[derive(Clone, Copy, PartialEq, Eq, Debug)]
pub enum Outcome {
    /// At least one line was written, or a whole replaced text.
    Found,
    /// No line was written.
    Nothing,
}

/// Searches all that a reader gives for what the words ask for, and writes a line for each match: its pattern's
/// number, its start and its end. In the modes `replace` and `sreplace` it writes all that the reader gave with each match
/// exchanged for the text of its pattern, and nothing else.
///
/// The words are tested first, then the searcher is built, then it is tested that it allows the mode. Only then the input
/// is read, up to the first read that gives no byte. The modes `stream` and `sreplace` write while they read: before each
/// read the lines of all matches so far were written that are settled, or the replaced text but for the bytes that a match to
/// come may still need. A match is settled once it is seen that no byte to come can change it: under
/// `MatchKind::Standard` when it is found, under a leftmost kind at most one byte later. In the other modes nothing is
/// written before all was read.
///
/// # Errors
/// - `Usage` exactly where the words ask for nothing that there is, or the last pattern of the modes `replace` and `sreplace`
///   has no text.
/// - `TooManyPatterns` and `PatternTooLong` exactly where that limit of the list is passed.
/// - `TooManyStates` only where the engine that serves would be too large for the numbers of states.
/// - `OverlappingKind` exactly where a leftmost kind is asked for in the mode `overlap`, and `StreamEmpty` exactly where some
///   pattern is empty in the modes `stream` and `sreplace`; if no limit or lack of memory refused the searcher. `StreamKind`
///   never.
/// - `Io` where a read or a write failed, `WriteZero` where a write took no byte, and `TooLong` where more bytes came in the
///   modes `stream` and `sreplace` than a `usize` counts.
/// - `Memory` where a request for memory was refused. A contract cannot count such requests; it says that none
///   of the causes above was there.
///
/// Before the first read nothing is written. Where a read fails in the modes `stream` and `sreplace`, so much was written as
/// has to be before each read; in the other modes nothing was. Where a run fails otherwise after its first read, a beginning
/// of the lines or of the replaced text was written, in these modes as far as they are settled, and not all of it; where
/// memory was refused for a replaced text, nothing was.
pub fn run<A: Allocator + Clone, R: Source, W: Sink>(
    alloc: A,
    words: &[&str],
    reader: &mut R,
    writer: &mut W,
) -> Result<Outcome, Fault>
    ensures { HasAnsweredOn R.Source W.Sink words.now reader.old reader.new writer.old writer.new result }
{
    let Some(request) = request_of(words) else {
        return Err(Fault::Usage);
    };
    search(alloc, request, &words[3..], reader, writer)
}

/// Runs on the words among the arguments: all but the first, which is the program's name, each as it was given. Reports a
/// fault and returns the exit status, as `run_and_report` does.
///
/// # Errors
/// `Memory` where the arguments can't be copied: then nothing is read, written or reported.
pub(crate) fn run_on_arguments<
    A: Allocator + Clone,
    I: Iterator<Item = String>,
    R: Source,
    W: Sink,
    E: Sink,
>(alloc: A, arguments: I, reader: &mut R, writer: &mut W, errors: &mut E) -> Result<u8, Fault>
    requires can { I.can_next arguments }
    requires finite { IsFinite (I.remaining arguments) }
    ensures ended { EndsOnAll R.Source W.Sink E.Sink I.next_gives arguments reader.old reader.new writer.old writer.new
        errors.old errors.new result }
    ensures refused { IfErr result (λ fault. (fault ≡ Memory) × (R.told reader.new ≡ R.told reader.old)
        × (W.told writer.new ≡ W.told writer.old) × (E.told errors.new ≡ E.told errors.old)) }
{
    let arguments: Vec<String, A> = arguments.collect(alloc.clone()?)?;
    let words = words_among(alloc.clone()?, &arguments)?;
    Ok(run_and_report(alloc, &words, reader, writer, errors))
}

/// Runs, reports a fault by its line on a third device, and returns the exit status: 0 where a line or a whole replaced
/// text was written, 1 where no line was, 2 after a fault.
///
/// Where that device fails, a beginning of the line was written. Where there is no fault nothing is written there.
fn run_and_report<A: Allocator + Clone, R: Source, W: Sink, E: Sink>(
    alloc: A,
    words: &[&str],
    reader: &mut R,
    writer: &mut W,
    errors: &mut E,
) -> u8
    ensures { EndsOn R.Source W.Sink E.Sink words.now reader.old reader.new writer.old writer.new
        errors.old errors.new result }
{
    let outcome = run(alloc, words, reader, writer);
    report(&outcome, errors);
    status(&outcome)
}

/// Writes the line of a fault, if there is one. A failure to write this line is ignored.
pub(crate) fn report<E: Sink>(outcome: &Result<Outcome, Fault>, errors: &mut E)
    ensures { HasReported outcome.now (E.told errors.old) (E.told errors.new) }
{
    if let Err(fault) = outcome {
        let _written = write_line(errors, fault.line());
    }
}

/// Searches all that a reader gives for what a request with these words asks for, and writes what it finds.
///
/// # Errors
/// As `run`, but for `Usage`.
fn search<A: Allocator + Clone, R: Source, W: Sink>(
    alloc: A,
    request: Request,
    words: &[&str],
    reader: &mut R,
    writer: &mut W,
) -> Result<Outcome, Fault>
    ensures { RunsOn R.Source W.Sink request words.now reader.old reader.new writer.old writer.new result }
{
    check_patterns(request.mode, words)?;
    let patterns = patterns_of(alloc.clone()?, request.mode, words)?;
    let searcher = searcher_for(alloc.clone()?, request, &patterns)?;
    match request.mode {
        Mode::Find => find(alloc, &searcher, reader, writer),
        Mode::Walk => walk(alloc, &searcher, reader, writer),
        Mode::Overlap => overlap(alloc, &searcher, reader, writer),
        Mode::Stream => stream(alloc, &searcher, reader, writer),
        Mode::Replace => replace(alloc, &searcher, words, reader, writer),
        Mode::StreamReplace => replace_stream(alloc, &searcher, words, reader, writer),
    }
}

/// Builds the searcher that is asked for.
///
/// # Errors
/// As `AhoCorasickBuilder::build`: a limit of the list is reported as that limit.
fn searcher_for<A: Allocator + Clone>(
    alloc: A,
    request: Request,
    patterns: &[&[u8]],
) -> Result<AhoCorasick<A>, Fault>
    ensures { MatchResult result (IsBuilt (settings_of request) (bytes_of patterns.now))
        (IsRefusal (settings_of request) (bytes_of patterns.now)) }
{
    let mut builder = AhoCorasickBuilder::new();
    builder.match_kind(request.kind);
    builder.kind(request.engine);
    Ok(builder.build(alloc, patterns)?)
}

/// Returns the exit status: 0 where a line or a whole replaced text was written, 1 where no line was, 2 after a fault.
pub fn status(outcome: &Result<Outcome, Fault>) -> u8
    ensures { result ≡ status_of outcome.now }
{
    match outcome {
        Ok(Outcome::Found) => 0,
        Ok(Outcome::Nothing) => 1,
        Err(_) => 2,
    }
}

#[cfg(test)]
mod tests;
