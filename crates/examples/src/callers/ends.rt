//! Callers with loops of their own over `next`, which end by a law, and which ask once more after the end.
ghost use Rattle.std.specs.Prelude.{◌≡◌, true, None};
ghost use Rattle.ac_search.specs.Built.{find_refusal};
ghost use Rattle.ac_search.specs.Input.{input_of};

use crate::checks::{ALWAYS, ByteByByte, same};
use ac_search::laws::{ended_iterators_stay_ended, iterators_end};
use ac_search::{AhoCorasick, FromRead, Input, Match, Source, StreamFindIter};
use std::alloc::Global;
use std::test::Fail;

/// Returns how many matches a walk has, and what its iterator returns after the end.
fn walk_past_end(searcher: &AhoCorasick, input: Input<'_>) -> (usize, Option<Match>)
    requires supported { find_refusal searcher.now.built (input_of input) ≡ None }
    ensures ended { result.1 ≡ None }
{
    iterators_end();
    ended_iterators_stay_ended();
    let mut matches = searcher.find_iter(input);
    let mut count = 0usize;
    while let Some(_) = matches.next() {
        count = count.saturating_add(1);
    }
    (count, matches.next())
}

/// Returns how many items a stream gives, and whether its iterator returns none after the end.
fn stream_past_end<R: Source + Drop>(
    mut matches: StreamFindIter<'_, R, Global, Global>,
) -> (usize, bool)
    ensures ended { result.1 ≡ true }
{
    iterators_end();
    ended_iterators_stay_ended();
    let mut count = 0usize;
    while let Some(_) = matches.next() {
        count = count.saturating_add(1);
    }
    (count, matches.next().is_none())
}

#[test]
fn nothing_follows_the_end_of_a_walk(rt: HostRuntime) -> Result<(), Fail> {
    let searcher = AhoCorasick::new(rt.alloc(), &[b"ab"])?;
    let (matches, after) = walk_past_end(&searcher, Input::new(b"abcab"));
    same(&rt, (matches, after.is_none()), (2, true));
    Ok(())
}

#[test]
fn nothing_follows_the_end_of_a_stream(rt: HostRuntime) -> Result<(), Fail> {
    let searcher = AhoCorasick::new(rt.alloc(), &[b"ab"])?;
    for (good, items) in [(ALWAYS, 2), (3, 2)] {
        let reader = FromRead::new(ByteByByte::new(b"abcab", good));
        let stream = searcher.try_stream_find_iter(rt.alloc(), reader)?;
        same(&rt, stream_past_end(stream), (items, true));
    }
    Ok(())
}
