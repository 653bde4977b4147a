//! A stream that is cut in every way, and ends or fails: its walk and its replacements beside the plain ones.
ghost use Rattle.std.specs.Prelude.{◌≡◌, length};

use ac_search::{
    AhoCorasick, FromRead, Match, MatchKind, Sink, StreamError, StreamFindIter, Written,
};
use std::alloc::{AllocError, Global};
use std::io;
use std::io::{ErrorKind, Read};
use std::test::Fail;

/// Gives its bytes up to the next cut a call, and after them the end or a failure.
#[derive(Clone, Copy)]
struct Cut<'a> {
    left: &'a [u8],
    /// Bit by bit, the lowest first: whether a read ends after the next byte.
    cuts: u32,
    fails: bool,
}

impl<'a> Read for Cut<'a> {
    fn read(&mut self, into: &mut [u8]) -> io::Result<usize> {
        if self.left.is_empty() && self.fails {
            return Err(io::Error::from(ErrorKind::BrokenPipe));
        }
        let uncut = self.cuts.trailing_zeros();
        self.cuts = self.cuts.checked_shr(uncut.saturating_add(1)).unwrap_or(0);
        let n = (uncut as usize)
            .saturating_add(1)
            .min(self.left.len())
            .min(into.len());
        let left = self.left;
        into[..n].copy_from_slice(&left[..n]);
        self.left = &left[n..];
        Ok(n)
    }
}

/// What a stream has to give: its bytes, their walk, how many of its matches the last byte can't have changed, and the texts
/// of the patterns.
#[derive(Clone, Copy)]
pub(super) struct Wanted<'a> {
    pub(super) stream: &'a [u8],
    pub(super) walk: &'a [Match],
    pub(super) sure: usize,
    pub(super) texts: &'a [&'a [u8]],
}

/// What a walk of a stream came to: how many of the matches it gave, whether it failed then, and how many bytes are kept.
#[derive(Clone, Copy)]
struct Ended {
    given: usize,
    fails: bool,
    kept: usize,
}

/// Returns what a walk of a stream comes to, or None where it gives another match, or anything after its end.
fn walked(
    matches: &mut StreamFindIter<'_, FromRead<Cut<'_>>, Global, Global>,
    walk: &[Match],
) -> Option<Ended> {
    let (mut given, mut fails) = (0usize, false);
    for _ in 0..=walk.len() {
        let Some(item) = matches.next() else { break };
        let Ok(found) = item else {
            fails = true;
            break;
        };
        if walk.get(given) != Some(&found) {
            return None;
        }
        given = given.saturating_add(1);
    }
    if matches.next().is_some() {
        return None;
    }
    Some(Ended {
        given,
        fails,
        kept: matches.kept_len(),
    })
}

impl Wanted<'_> {
    /// Returns the end of the last of so many matches.
    fn end_of(&self, given: usize) -> usize {
        self.walk.iter().take(given).last().map_or(0, Match::end)
    }

    /// Returns whether a walk gave what it has to before its end, and kept no byte then.
    fn is_whole(&self, ended: &Ended) -> bool {
        ended.given == self.walk.len() && ended.kept == 0
    }

    /// Returns whether a walk that failed after all bytes gave what it has to. Under Standard these are all matches, and the
    /// bytes after the last one are kept, but no more than one fewer than the longest pattern has. Under a leftmost kind these
    /// are the matches before the bytes that are kept, and all that the last byte can't have changed.
    fn is_settled(&self, searcher: &AhoCorasick, ended: &Ended) -> bool {
        let end = self.end_of(ended.given);
        let rest = self.stream.len().saturating_sub(end);
        match searcher.match_kind() {
            MatchKind::Standard => {
                let most = searcher.max_pattern_len().saturating_sub(1);
                ended.given == self.walk.len() && ended.kept == rest.min(most)
            }
            _ => {
                let most = searcher.max_pattern_len();
                ended.given >= self.sure && ended.kept <= rest.min(most)
            }
        }
    }

    /// Returns what has to be written of a stream that fails: its bytes but those that are kept, with so many matches exchanged.
    fn written(&self, alloc: Global, ended: &Ended) -> Result<Vec<u8>, AllocError> {
        let mut written = Vec::new(alloc);
        let mut place = 0;
        for m in self.walk.iter().take(ended.given) {
            written.extend_from_slice(self.stream.get(place..m.start()).unwrap_or(&[]))?;
            let text = self.texts.get(m.pattern().as_usize());
            written.extend_from_slice(text.copied().unwrap_or(&[]))?;
            place = m.end();
        }
        let end = self.stream.len().saturating_sub(ended.kept);
        written.extend_from_slice(self.stream.get(place..end).unwrap_or(&[]))?;
        Ok(written)
    }
}

/// Returns what the walk of a stream that is cut so comes to, or None where it isn't what it has to be.
fn walk_of(
    alloc: Global,
    searcher: &AhoCorasick,
    cut: Cut<'_>,
    wanted: &Wanted<'_>,
) -> Result<Option<Ended>, StreamError> {
    let mut matches = searcher.try_stream_find_iter(alloc, FromRead::new(cut))?;
    Ok(walked(&mut matches, wanted.walk).filter(|ended| {
        ended.fails == cut.fails
            && if ended.fails {
                wanted.is_settled(searcher, ended)
            } else {
                wanted.is_whole(ended)
            }
    }))
}

/// Returns whether a text was written in place of a stream that ends or fails.
fn is_written(ended: Result<(), StreamError>, fails: bool, written: &[u8], wanted: &[u8]) -> bool {
    written == wanted
        && match ended {
            Ok(()) => !fails,
            Err(StreamError::Io(_)) => fails,
            Err(_) => false,
        }
}

/// Returns whether it is written where each match is exchanged by a list.
fn writes_by_list(
    alloc: Global,
    searcher: &AhoCorasick,
    cut: Cut<'_>,
    texts: &[&[u8]],
    wanted: &[u8],
) -> bool
    requires { length texts.now ≡ length searcher.now.built.patterns }
{
    let mut writer = Written::new(alloc);
    let mut reader = FromRead::new(cut);
    let ended = searcher.try_stream_replace_all(alloc, &mut reader, &mut writer, texts);
    is_written(ended, cut.fails, writer.bytes(), wanted)
}

/// Writes the text of a match's pattern.
fn write_text(texts: &[&[u8]], m: &Match, writer: &mut Written<Global>) -> io::Result<()> {
    if let Some(text) = texts.get(m.pattern().as_usize()) {
        writer.write_some(text)?;
    }
    Ok(())
}

/// Returns the same where a closure writes the text of each match's pattern.
fn writes_by_closure(
    alloc: Global,
    searcher: &AhoCorasick,
    cut: Cut<'_>,
    texts: &[&[u8]],
    wanted: &[u8],
) -> bool {
    let mut writer = Written::new(alloc);
    let mut reader = FromRead::new(cut);
    let write = |m: &Match, _: &[u8], into: &mut Written<Global>| write_text(texts, m, into);
    let ended = searcher.try_stream_replace_all_with(alloc, &mut reader, &mut writer, write);
    is_written(ended, cut.fails, writer.bytes(), wanted)
}

/// Compares the walk and the replacements of a stream that is cut in every way, and ends or fails, with what they have to be.
pub(super) fn compare_cuts(
    alloc: Global,
    searcher: &AhoCorasick,
    wanted: &Wanted<'_>,
) -> Result<(), Fail>
    requires { length wanted.now.texts.now ≡ length searcher.now.built.patterns }
{
    for case in 0..32u32 {
        let cut = Cut {
            left: wanted.stream,
            cuts: case / 2,
            fails: case % 2 == 1,
        };
        let Some(ended) = walk_of(alloc, searcher, cut, wanted)? else {
            return Err(Fail::new("another walk"));
        };
        let written = wanted.written(alloc, &ended)?;
        if !writes_by_list(alloc, searcher, cut, wanted.texts, &written) {
            return Err(Fail::new("another text by a list"));
        }
        if !writes_by_closure(alloc, searcher, cut, wanted.texts, &written) {
            return Err(Fail::new("another text by a closure"));
        }
    }
    Ok(())
}
