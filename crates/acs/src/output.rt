//! Lines for matches, written in large pieces, and replaced texts.
ghost use Rattle.std.specs.Prelude.{◌≡◌, ◌≤◌, ◌+◌, ◌++◌, ◌∷◌, codes, decimal, drop, length, OnOk, option_to_list};
ghost use Rattle.std.specs.Iterator.{IsFinite};
ghost use Rattle.ac_search.specs.Streams.{initial_stream};
ghost use Rattle.acs.specs.declared.output.TheConstants.{NUMBER};
ghost use Rattle.acs.specs.Devices.{PrintsStreamOn};
ghost use Rattle.acs.specs.Lines.{line};
ghost use Rattle.acs.specs.Modes.{PrintsWhole, WritesBytes};
ghost use Rattle.acs.specs.Printed.{PrintsEnd, PrintsLines, PrintsNext, PrintsRead, PrintsRest};

use crate::fault::Fault;
use crate::run::Outcome;
use ac_search::{Match, Sink, Source, StreamFinder};
use itoa::write_digits;
use std::alloc::{AllocError, Allocator};

/// From how many bytes on the lines are written.
const FULL: usize = 65536;

/// How many bytes the longest number takes, which has 20 digits, with a byte after it.
const NUMBER: usize = 21;

/// How many bytes a line has at most: three numbers, each with a byte after it.
const LINE: usize = 3 * NUMBER;

/// Writes a number and a byte after it so that they end at `end`, and returns where they start.
///
/// There have to be `NUMBER` bytes before `end`.
fn write_number(line: &mut [u8], end: usize, number: usize, after: u8) -> usize
    requires { (NUMBER ≤ end) × (end ≤ length line.old) }
    ensures start { (result ≤ end) × (end ≤ result + NUMBER) }
    ensures written { drop result line.new ≡ decimal number ++ after ∷ drop end line.old }
{
    line[end - 1] = after;
    write_digits(number as u64, line, end - 1)
}

/// Adds the line of a match to a text.
///
/// # Errors
/// `AllocError` where a request for memory is refused.
fn add_line<A: Allocator + Clone>(text: &mut Vec<u8, A>, m: &Match) -> Result<(), AllocError>
    ensures { OnOk result (text.new.items ≡ text.old.items ++ line m.now) }
{
    let mut line = [0; LINE];
    let end = write_number(&mut line, LINE, m.end(), b'\n');
    let start = write_number(&mut line, end, m.start(), b' ');
    let pattern = write_number(&mut line, start, m.pattern().as_usize(), b' ');
    text.extend_from_slice(&line[pattern..])
}

/// Writes all of the bytes.
///
/// # Errors
/// `Io` where a write fails, `WriteZero` where it takes no byte.
fn write_all<W: Sink>(writer: &mut W, bytes: &[u8]) -> Result<(), Fault>
    ensures { WritesBytes (W.told writer.old) (W.told writer.new) bytes.now result }
{
    ac_search::write_all(writer, bytes)?;
    Ok(())
}

/// Writes a line and its end.
///
/// # Errors
/// As `write_all`.
pub(crate) fn write_line<W: Sink>(writer: &mut W, line: &str) -> Result<(), Fault>
    ensures { WritesBytes (W.told writer.old) (W.told writer.new) (line.now ++ codes "\n") result }
{
    write_all(writer, line.as_bytes())?;
    write_all(writer, b"\n")
}

/// Adds the line of a match to the text, and writes the text where it is full.
///
/// # Errors
/// As `print_all`.
fn print_line<A: Allocator + Clone, W: Sink>(
    text: &mut Vec<u8, A>,
    m: &Match,
    writer: &mut W,
) -> Result<(), Fault>
    ensures { PrintsNext m.now (W.told writer.old) (W.told writer.new) text.old text.new result }
{
    add_line(text, m)?;
    if text.len() >= FULL {
        write_all(writer, text)?;
        text.clear();
    }
    Ok(())
}

/// Writes the text after the last line.
///
/// # Errors
/// As `print_all`.
fn print_end<W: Sink>(text: &[u8], writer: &mut W) -> Result<(), Fault>
    ensures { PrintsEnd (W.told writer.old) (W.told writer.new) text.now result }
{
    write_all(writer, text)
}

/// Writes a line for each match that an iterator has left.
///
/// # Errors
/// `Io` where a write fails, `WriteZero` where it takes no byte, `Memory` where a request for memory is
/// refused. A beginning of the lines was written then, and not all of them.
pub(crate) fn print_all<A: Allocator + Clone, I: Iterator<Item = Match> + Drop, W: Sink>(
    alloc: A,
    matches: I,
    writer: &mut W,
) -> Result<Outcome, Fault>
    requires can { I.can_next matches }
    requires finite { IsFinite (I.remaining matches) }
    ensures { PrintsRest I.next_gives matches (W.told writer.old) (W.told writer.new) result }
{
    let mut text = Vec::new(alloc);
    let mut outcome = Outcome::Nothing;
    for m in matches {
        outcome = Outcome::Found;
        print_line(&mut text, &m, writer)?;
    }
    print_end(&text, writer)?;
    Ok(outcome)
}

/// Adds the lines of all matches that need no further read, and writes the text.
///
/// # Errors
/// As `print_all`, of some of the matches that are settled.
fn print_read<A: Allocator + Clone, B: Allocator, Z: Allocator, W: Sink>(
    text: &mut Vec<u8, A>,
    finder: &mut StreamFinder<'_, B, Z>,
    writer: &mut W,
) -> Result<(), Fault>
    ensures { PrintsRead finder.old finder.new (W.told writer.old) (W.told writer.new) text.old text.new result }
{
    while let Some(m) = finder.next_read() {
        print_line(text, &m, writer)?;
    }
    write_all(writer, text)?;
    text.clear();
    Ok(())
}

/// Writes a line for each match of a stream of which nothing was read yet. Before each read the lines of all matches so far
/// that are settled were written.
///
/// # Errors
/// `Io` where a read fails and `TooLong` where more bytes come than a `usize` counts: these lines were written then. Those of
/// `print_all`: a beginning of the lines of some settled matches was written then, and not all of them.
pub(crate) fn print_stream<A: Allocator + Clone, B: Allocator, Z: Allocator, R: Source, W: Sink>(
    alloc: A,
    finder: &mut StreamFinder<'_, B, Z>,
    reader: &mut R,
    writer: &mut W,
) -> Result<Outcome, Fault>
    requires { finder.old ≡ initial_stream finder.old.built }
    ensures { PrintsStreamOn R.Source W.Sink finder.old.built reader.old reader.new writer.old writer.new result }
{
    let mut text = Vec::new(alloc);
    let mut outcome = Outcome::Nothing;
    while let Some(item) = finder.next(reader) {
        let m = item?;
        outcome = Outcome::Found;
        print_line(&mut text, &m, writer)?;
        print_read(&mut text, finder, writer)?;
    }
    Ok(outcome)
}

/// Writes a line for a match, if there is one.
///
/// # Errors
/// As `print_all`.
pub(crate) fn print_found<A: Allocator + Clone, W: Sink>(
    alloc: A,
    found: Option<Match>,
    writer: &mut W,
) -> Result<Outcome, Fault>
    ensures { PrintsLines (W.told writer.old) (W.told writer.new) (option_to_list found) result }
{
    let Some(m) = found else {
        return Ok(Outcome::Nothing);
    };
    let mut text = Vec::new(alloc);
    add_line(&mut text, &m)?;
    print_text(&text, writer)
}

/// Writes a text that is whole. No byte of an empty one is written, but it counts as written.
///
/// # Errors
/// `Io` where a write fails, `WriteZero` where it takes no byte. A beginning of the text was written then, and not
/// all of it.
pub(crate) fn print_text<W: Sink>(text: &[u8], writer: &mut W) -> Result<Outcome, Fault>
    ensures { PrintsWhole (W.told writer.old) (W.told writer.new) text.now result }
{
    write_all(writer, text)?;
    Ok(Outcome::Found)
}
