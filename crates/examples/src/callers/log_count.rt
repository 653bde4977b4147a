//! A caller that counts the matches of each pattern in a log, as far as it can be read.
ghost use Rattle.std.specs.Prelude.{◌≡◌, IfOk};
ghost use Rattle.examples.specs.Callers.{CountsLog};

use crate::checks::{ALWAYS, ByteByByte, same};
use ac_search::laws::finder_goes_on;
use ac_search::{AhoCorasick, FromRead, MatchKind, Source, StreamError};
use std::alloc::Global;
use std::process::Abort;
use std::test::Fail;

/// How many matches each pattern has in a log, and whether a read of it has failed after them.
#[derive(Drop)]
struct Counts {
    matches: Vec<usize>,
    failed: bool,
}

/// Returns how often each pattern matches in the bytes that were read, up to the end of the log or the first read that
/// failed.
fn counts_of<R: Source>(
    alloc: Global,
    searcher: &AhoCorasick,
    log: &mut R,
) -> Result<Counts, StreamError>
    requires { searcher.now.built.kind ≡ MatchKind.Standard }
    ensures { IfOk result (λ counts. CountsLog R.empty_means_end searcher.now.built (R.told log.old) (R.told log.new)
        counts.failed counts.matches.items) }
{
    finder_goes_on();
    let mut finder = searcher.try_stream_finder(alloc)?;
    let mut matches = vec![in alloc; 0usize; searcher.patterns_len()]?;
    while let Some(item) = finder.next(log) {
        match item {
            Ok(m) => matches[m.pattern().as_usize()] += 1,
            Err(StreamError::Io(_)) => {
                return Ok(Counts {
                    matches,
                    failed: true,
                });
            }
            Err(e) => return Err(e),
        }
    }
    Ok(Counts {
        matches,
        failed: false,
    })
}

/// Compares what is counted in a log, of which so many reads of a byte succeed, with what has to be.
fn compare_counts(
    rt: &impl Abort,
    alloc: Global,
    searcher: &AhoCorasick,
    log: ByteByByte<'_>,
    wanted: ([usize; 3], bool),
) -> Result<(), StreamError>
    requires { searcher.now.built.kind ≡ MatchKind.Standard }
{
    let counts = counts_of(alloc, searcher, &mut FromRead::new(log))?;
    same(rt, counts.matches.as_slice(), wanted.0.as_slice());
    same(rt, counts.failed, wanted.1);
    Ok(())
}

#[test]
fn labels_are_counted_up_to_a_failure(rt: HostRuntime) -> Result<(), Fail> {
    let searcher = AhoCorasick::new(rt.alloc(), &[b"error", b"warning", b"note"])?;
    let log = b"error: no disk, warning: slow, error: again";
    for (good, wanted, failed) in [
        (ALWAYS, [2, 1, 0], false),
        (4, [0, 0, 0], true),
        (5, [1, 0, 0], true),
        (28, [1, 1, 0], true),
    ] {
        let reader = ByteByByte::new(log, good);
        compare_counts(&rt, rt.alloc(), &searcher, reader, (wanted, failed))?;
    }
    Ok(())
}
