//! A caller that copies a stream, and has each match in hand on the way.
ghost use Rattle.std.specs.Prelude.{List, MatchResult, OnOk, ℕ};
ghost use Rattle.ac_search.specs.Device.{ReadsAll, WritesAll, WritesBeginning};

use crate::checks::same;
use ac_search::laws::{closures_write_exchanged, matches_and_gaps_make_the_whole, pieces_join};
use ac_search::{AhoCorasick, Bytes, Match, Sink, Source, StreamError, Written, write_all};
use std::alloc::Global;
use std::io;
use std::test::Fail;

/// Writes a slice.
///
/// # Errors
/// That of the writer, once a beginning of the slice was written.
fn write_slice<W: Sink>(writer: &mut W, slice: &[u8]) -> io::Result<()>
    ensures { MatchResult result (λ _. WritesAll (W.told writer.old) (W.told writer.new) slice.now)
        (λ _. WritesBeginning (W.told writer.old) (W.told writer.new) slice.now) }
{
    pieces_join();
    if let Err(e) = write_all(writer, slice) {
        return Err(e.into_error());
    }
    Ok(())
}

/// Copies a stream: what stands between the matches as it is, and each match by a call of its own.
fn copy<R: Source, W: Sink>(
    alloc: Global,
    searcher: &AhoCorasick,
    reader: &mut R,
    writer: &mut W,
) -> Result<(), StreamError>
    ensures { OnOk result ((bytes : List ℕ)
        × ReadsAll R.empty_means_end (R.told reader.old) (R.told reader.new) bytes
        × WritesAll (W.told writer.old) (W.told writer.new) bytes) }
{
    let keep = |_: &Match, slice: &[u8], writer: &mut W| write_slice(writer, slice);
    matches_and_gaps_make_the_whole();
    closures_write_exchanged::<R, W, _>(&keep);
    searcher.try_stream_replace_all_with(alloc, reader, writer, keep)
}

#[test]
fn a_stream_is_copied(rt: HostRuntime) -> Result<(), Fail> {
    let searcher = AhoCorasick::new(rt.alloc(), &[b"apple", b"maple"])?;
    let text = b"maple in their apple";
    let mut written = Written::new(rt.alloc());
    copy(rt.alloc(), &searcher, &mut Bytes::new(text), &mut written)?;
    same(&rt, written.bytes(), text.as_slice());
    Ok(())
}
