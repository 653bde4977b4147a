//! Streams: their buffer is all the memory that they take.
ghost use Rattle.std.specs.Prelude.{◌≡◌, length};

use super::{Call, Room, Trial};
use crate::tests::devices::Device;
use ac_search::{
    AhoCorasick, BuildError, FromRead, IntoWrite, Match, Source, StreamError, StreamFindIter,
};
use std::alloc::{Allocator, Global};
use std::test::Fail;

/// The pattern, and a stream in which it stands twice.
const PATTERN: &[u8] = b"abc";

const STREAM: &[u8] = b"xxabcabcx";

/// The stream with the pattern exchanged.
const EXCHANGED: &[u8] = b"xx--x";

/// The stream without the pattern.
const REMOVED: &[u8] = b"xxx";

/// What is made of a stream.
#[derive(Clone, Copy)]
pub(super) enum Form {
    Find,
    Replace,
    ReplaceWith,
}

/// Returns what a search in a stream comes to by its devices, which wrote these bytes and no others where it had room for
/// its buffer: if not, nothing is read or written.
fn ended(answer: Result<(), StreamError>, from: &Device, into: &Device, wanted: &[u8]) -> Room {
    match answer {
        Ok(()) => Room::of_answer(from.read == STREAM.len() && into.held.as_slice() == wanted),
        Err(StreamError::Memory) if from.calls == 0 && into.calls == 0 => Room::Lacking,
        Err(_) => Room::Other("another answer of a stream"),
    }
}

/// Returns whether the next match of a stream ends here; or whether it has no further one.
fn next_ends<R: Source + Drop, A: Allocator>(
    matches: &mut StreamFindIter<'_, R, Global, A>,
    end: Option<usize>,
) -> bool {
    match (matches.next(), end) {
        (Some(Ok(m)), Some(end)) => m.end() == end,
        (None, None) => true,
        _ => false,
    }
}

/// Walks a stream, and returns whether it had room for its buffer; it has two matches then.
fn walk<A: Allocator>(
    searcher: &AhoCorasick,
    alloc: A,
    from: &mut Device,
) -> Result<bool, StreamError> {
    let mut matches = searcher.try_stream_find_iter(alloc, FromRead::new(from))?;
    Ok(
        next_ends(&mut matches, Some(5))
            && next_ends(&mut matches, Some(8))
            && next_ends(&mut matches, None),
    )
}

/// Returns what this comes to.
fn walk_room<A: Allocator>(
    searcher: &AhoCorasick,
    alloc: A,
    from: &mut Device,
    into: &Device,
) -> Room {
    match walk(searcher, alloc, from) {
        Ok(true) => ended(Ok(()), from, into, b""),
        Ok(false) => Room::Other("another match"),
        Err(e) => ended(Err(e), from, into, b""),
    }
}

/// Exchanges the pattern in a stream by a list.
fn exchange<A: Allocator>(
    searcher: &AhoCorasick,
    alloc: A,
    from: &mut Device,
    into: &mut Device,
) -> Result<(), StreamError>
    requires { length searcher.now.built.patterns ≡ 1 }
{
    searcher.try_stream_replace_all(
        alloc,
        &mut FromRead::new(from),
        &mut IntoWrite::new(into),
        &[b"-"],
    )
}

/// Removes the pattern from a stream by a closure, whose calls are counted.
fn remove<A: Allocator>(
    searcher: &AhoCorasick,
    alloc: A,
    from: &mut Device,
    into: &mut Device,
    calls: &mut usize,
) -> Result<(), StreamError> {
    let mut reader = FromRead::new(from);
    let mut writer = IntoWrite::new(into);
    let exchange = |_: &Match, _: &[u8], _: &mut IntoWrite<&mut Device>| {
        *calls = calls.saturating_add(1);
        Ok(())
    };
    searcher.try_stream_replace_all_with(alloc, &mut reader, &mut writer, exchange)
}

/// Returns what this comes to: the closure is called at each of the two matches.
fn remove_room<A: Allocator>(
    searcher: &AhoCorasick,
    alloc: A,
    from: &mut Device,
    into: &mut Device,
) -> Room {
    let mut calls = 0;
    let answer = remove(searcher, alloc, from, into, &mut calls);
    match (ended(answer, from, into, REMOVED), calls) {
        (Room::Enough, 2) => Room::Enough,
        (Room::Lacking, 0) => Room::Lacking,
        (Room::Other(what), _) => Room::Other(what),
        _ => Room::Other("another number of calls"),
    }
}

impl Form {
    /// Searches between two devices, by a searcher that is built.
    fn room_between<A: Allocator>(
        self,
        searcher: &AhoCorasick,
        alloc: A,
        from: &mut Device,
        into: &mut Device,
    ) -> Room
        requires { length searcher.now.built.patterns ≡ 1 }
    {
        match self {
            Form::Find => walk_room(searcher, alloc, from, into),
            Form::Replace => {
                let answer = exchange(searcher, alloc, from, into);
                ended(answer, from, into, EXCHANGED)
            }
            Form::ReplaceWith => remove_room(searcher, alloc, from, into),
        }
    }

    /// Makes the devices, which take the usual memory, and searches between them.
    fn room_by<A: Allocator>(self, searcher: &AhoCorasick, usual: Global, alloc: A) -> Room
        requires { length searcher.now.built.patterns ≡ 1 }
    {
        match (Device::giving(usual, STREAM), Device::taking(usual)) {
            (Ok(mut from), Ok(mut into)) => {
                self.room_between(searcher, alloc, &mut from, &mut into)
            }
            _ => Room::Lacking,
        }
    }

    /// Returns what a search in a stream comes to, whose searcher takes the usual memory.
    pub(super) fn room<A: Allocator>(self, usual: Global, alloc: A) -> Room {
        match AhoCorasick::new(usual, &[PATTERN]) {
            Ok(searcher) => self.room_by(&searcher, usual, alloc),
            Err(e) => Room::of_refusal(e == BuildError::Memory),
        }
    }
}

/// Tries each form of stream.
pub(super) fn try_each(alloc: Global, trial: Trial) -> Result<(), Fail> {
    for form in [Form::Find, Form::Replace, Form::ReplaceWith] {
        trial.tries(alloc, Call::Stream(form))?;
    }
    Ok(())
}
