//! Memory refused: what calls answer then, what stands as it was, and that they have room the next time.
//!
//! In heaps of rising size each call is refused at each size up to the one that it wants (`heaps`). Over the usual memory
//! each request is refused once: `scripts/check_refused` runs `requests` once for each request that it makes.
use ac_search::{AhoCorasickKind, MatchKind};
use builds::SearcherBuild;
use std::alloc::{Allocator, Global};
use std::test::Fail;

mod buffers;
mod builds;
mod heaps;
mod replaced;
mod requests;
mod runs;
mod streamed;
mod taken;

/// Three patterns, of which two begin others.
const WORDS: [&[u8]; 3] = [b"append", b"appendage", b"app"];

/// A text in which they stand.
const SENTENCE: &str = "append the app to the appendage";

/// What a call comes to that is tried with more or less memory.
#[derive(Clone, Copy)]
enum Room {
    /// It had room, and answered what it has to.
    Enough,
    /// It reported lack of memory, and what has to stands as it was.
    Lacking,
    /// It answered something else than it has to, reported another cause, or something else stands then: this.
    Other(&'static str),
}

impl Room {
    /// Returns what a call comes to that had room, by whether it answered what it has to.
    fn of_answer(is_right: bool) -> Room {
        if is_right {
            Room::Enough
        } else {
            Room::Other("another answer")
        }
    }

    /// Returns what a call comes to that was refused, by whether it reported lack of memory.
    fn of_refusal(is_memory: bool) -> Room {
        if is_memory {
            Room::Lacking
        } else {
            Room::Other("another cause")
        }
    }
}

/// A call that is tried with more or less memory.
#[derive(Clone, Copy)]
enum Call {
    /// The build of an engine by itself, and its clone.
    Engine(AhoCorasickKind, MatchKind),
    /// The build of a searcher, and its clone.
    Searcher(SearcherBuild),
    /// A replacement by a list, whose searcher takes the usual memory.
    List(replaced::Form),
    /// A replacement by a closure.
    Closure(replaced::Form),
    /// A search in a stream, whose searcher takes the usual memory.
    Stream(streamed::Form),
    /// A run of the program.
    Run(runs::Row),
}

impl Call {
    /// Makes the call with memory from `alloc`.
    fn room<A: Allocator + Clone>(self, usual: Global, alloc: A) -> Room {
        match self {
            Call::Engine(engine, kind) => builds::engine_room(engine, kind, alloc),
            Call::Searcher(build) => build.room(alloc),
            Call::List(form) => form.list_room(usual, alloc),
            Call::Closure(form) => form.closure_room(usual),
            Call::Stream(form) => form.room(usual, alloc),
            Call::Run(row) => row.room(usual, alloc),
        }
    }
}

/// What is done with each call.
#[derive(Clone, Copy)]
enum Trial {
    /// It is made, and made again where it had no room.
    Again,
    /// It is made in heaps of rising size.
    Heaps,
}

impl Trial {
    /// Tries a call.
    ///
    /// # Errors
    /// Where it comes to something else than it has to.
    fn tries(self, alloc: Global, call: Call) -> Result<(), Fail> {
        let room = match self {
            Trial::Again => requests::room_at_last(alloc, call),
            Trial::Heaps => heaps::room_in_some_heap(alloc, call),
        };
        match room {
            Room::Enough => Ok(()),
            Room::Lacking => Err(Fail::new("no room")),
            Room::Other(what) => Err(Fail::new(what)),
        }
    }
}

/// Tries each call that takes memory from the allocator that it is handed.
fn try_each(alloc: Global, trial: Trial) -> Result<(), Fail> {
    builds::try_each(alloc, trial)?;
    replaced::try_each(alloc, trial)?;
    streamed::try_each(alloc, trial)?;
    runs::try_each(alloc, trial)
}
