//! Replacements by lists and by closures.
ghost use Rattle.std.specs.Prelude.{◌≡◌, None, length};
ghost use Rattle.ac_search.specs.Built.{replace_refusal};

use super::{Call, Room, SENTENCE, Trial, WORDS};
use ac_search::MatchKind::LeftmostFirst;
use ac_search::{AhoCorasick, AhoCorasickBuilder, BuildError, Match, ReplaceError};
use std::alloc::{Allocator, Global};
use std::test::Fail;

/// What the words are exchanged for.
const TEXTS: [&str; 3] = ["x", "y", "z"];

const BYTES: [&[u8]; 3] = [b"x", b"y", b"z"];

/// The sentence with the words exchanged, under Standard.
const EXCHANGED: &str = "zend the z to the zendage";

/// The forms in which a replacement is called.
#[derive(Clone, Copy)]
pub(super) enum Form {
    Text,
    Bytes,
    TryText,
    TryBytes,
}

const FORMS: [Form; 4] = [Form::Text, Form::Bytes, Form::TryText, Form::TryBytes];

/// Exchanges the words in text by a list.
fn text_room<A: Allocator>(searcher: &AhoCorasick, alloc: A) -> Room
    requires supported { replace_refusal searcher.now.built ≡ None }
    requires words { length searcher.now.built.patterns ≡ 3 }
{
    match searcher.replace_all(alloc, SENTENCE, &TEXTS) {
        Ok(text) => Room::of_answer(text.as_str() == EXCHANGED),
        Err(_) => Room::Lacking,
    }
}

/// The same in bytes.
fn bytes_room<A: Allocator>(searcher: &AhoCorasick, alloc: A) -> Room
    requires supported { replace_refusal searcher.now.built ≡ None }
    requires words { length searcher.now.built.patterns ≡ 3 }
{
    match searcher.replace_all_bytes(alloc, SENTENCE.as_bytes(), &BYTES) {
        Ok(bytes) => Room::of_answer(bytes.as_slice() == EXCHANGED.as_bytes()),
        Err(_) => Room::Lacking,
    }
}

/// The same in text, by the form that refuses what a searcher doesn't support.
fn tried_text_room<A: Allocator>(searcher: &AhoCorasick, alloc: A) -> Room
    requires words { length searcher.now.built.patterns ≡ 3 }
{
    match searcher.try_replace_all(alloc, SENTENCE, &TEXTS) {
        Ok(text) => Room::of_answer(text.as_str() == EXCHANGED),
        Err(e) => Room::of_refusal(e == ReplaceError::Memory),
    }
}

/// The same in bytes, by that form.
fn tried_bytes_room<A: Allocator>(searcher: &AhoCorasick, alloc: A) -> Room
    requires words { length searcher.now.built.patterns ≡ 3 }
{
    match searcher.try_replace_all_bytes(alloc, SENTENCE.as_bytes(), &BYTES) {
        Ok(bytes) => Room::of_answer(bytes.as_slice() == EXCHANGED.as_bytes()),
        Err(e) => Room::of_refusal(e == ReplaceError::Memory),
    }
}

/// What stands before a replacement by a closure.
const BEFORE: &str = "pre";

/// Returns what a replacement by a closure comes to that appends nothing, by whether it had room, how often the closure was
/// called and what is left. Where there was no room, that is a beginning of what it has to be.
fn removed_room(has_room: bool, calls: usize, left: &[u8]) -> Room {
    let wanted = match (has_room, calls) {
        (true, 3) => "pre the  to the age",
        (false, 0 | 1) => "pre",
        (false, 2) => "pre the ",
        (false, 3) => "pre the  to the ",
        _ => return Room::Other("another number of calls"),
    };
    if wanted.as_bytes() != left {
        return Room::Other("another beginning");
    }
    if has_room {
        Room::Enough
    } else {
        Room::Lacking
    }
}

/// Counts a call of a closure, which appends nothing.
fn counted(calls: &mut usize) -> bool {
    *calls = calls.saturating_add(1);
    true
}

/// Returns whether a replacement had room, or none where it reported something else.
fn had_room(replaced: Result<(), ReplaceError>) -> Option<bool> {
    match replaced {
        Ok(()) => Some(true),
        Err(ReplaceError::Memory) => Some(false),
        Err(ReplaceError::Match(_)) => None,
    }
}

/// Removes the words by a closure, in text: by the form that refuses what a searcher doesn't support, or by the other.
fn removes_in_text(searcher: &AhoCorasick, text: &mut String, tries: bool) -> Room
    requires { replace_refusal searcher.now.built ≡ None }
{
    let mut calls = 0;
    let exchange = |_: &Match, _: &str, _: &mut String| counted(&mut calls);
    let had_room = if tries {
        had_room(searcher.try_replace_all_with(SENTENCE, text, exchange))
    } else {
        Some(searcher.replace_all_with(SENTENCE, text, exchange).is_ok())
    };
    match had_room {
        Some(had_room) => removed_room(had_room, calls, text.as_bytes()),
        None => Room::Other("another cause"),
    }
}

/// The same in bytes.
fn removes_in_bytes(searcher: &AhoCorasick, bytes: &mut Vec<u8>, tries: bool) -> Room
    requires { replace_refusal searcher.now.built ≡ None }
{
    let mut calls = 0;
    let sentence = SENTENCE.as_bytes();
    let exchange = |_: &Match, _: &[u8], _: &mut Vec<u8>| counted(&mut calls);
    let had_room = if tries {
        had_room(searcher.try_replace_all_with_bytes(sentence, bytes, exchange))
    } else {
        Some(
            searcher
                .replace_all_with_bytes(sentence, bytes, exchange)
                .is_ok(),
        )
    };
    match had_room {
        Some(had_room) => removed_room(had_room, calls, bytes),
        None => Room::Other("another cause"),
    }
}

/// Makes the text, and removes the words from it.
fn text_removed_room(searcher: &AhoCorasick, alloc: Global, tries: bool) -> Room
    requires { replace_refusal searcher.now.built ≡ None }
{
    match String::from_str(alloc, BEFORE) {
        Ok(mut text) => removes_in_text(searcher, &mut text, tries),
        Err(_) => Room::Lacking,
    }
}

/// The same in bytes.
fn bytes_removed_room(searcher: &AhoCorasick, alloc: Global, tries: bool) -> Room
    requires { replace_refusal searcher.now.built ≡ None }
{
    match Vec::from_slice(alloc, BEFORE.as_bytes()) {
        Ok(mut bytes) => removes_in_bytes(searcher, &mut bytes, tries),
        Err(_) => Room::Lacking,
    }
}

impl Form {
    /// Exchanges the words by a list, by a searcher that is built.
    fn exchange<A: Allocator>(self, searcher: &AhoCorasick, alloc: A) -> Room
        requires supported { replace_refusal searcher.now.built ≡ None }
        requires words { length searcher.now.built.patterns ≡ 3 }
    {
        match self {
            Form::Text => text_room(searcher, alloc),
            Form::Bytes => bytes_room(searcher, alloc),
            Form::TryText => tried_text_room(searcher, alloc),
            Form::TryBytes => tried_bytes_room(searcher, alloc),
        }
    }

    /// Returns what a replacement by a list comes to, whose searcher takes the usual memory.
    pub(super) fn list_room<A: Allocator>(self, usual: Global, alloc: A) -> Room {
        match AhoCorasick::new(usual, &WORDS) {
            Ok(searcher) => self.exchange(&searcher, alloc),
            Err(e) => Room::of_refusal(e == BuildError::Memory),
        }
    }

    /// Removes the words by a closure, by a searcher that is built.
    fn remove(self, searcher: &AhoCorasick, alloc: Global) -> Room
        requires { replace_refusal searcher.now.built ≡ None }
    {
        match self {
            Form::TryText => text_removed_room(searcher, alloc, true),
            Form::TryBytes => bytes_removed_room(searcher, alloc, true),
            Form::Text => text_removed_room(searcher, alloc, false),
            Form::Bytes => bytes_removed_room(searcher, alloc, false),
        }
    }

    /// Returns what a replacement by a closure comes to that appends nothing.
    ///
    /// It takes the usual memory alone: a bound on a closure can't name a destination in other memory yet. So it is tried
    /// where requests are refused one by one, and in no heap.
    pub(super) fn closure_room(self, usual: Global) -> Room {
        let mut builder = AhoCorasickBuilder::new();
        builder.match_kind(LeftmostFirst);
        match builder.build(usual, &WORDS) {
            Ok(searcher) => self.remove(&searcher, usual),
            Err(e) => Room::of_refusal(e == BuildError::Memory),
        }
    }
}

/// Tries each replacement by a list.
pub(super) fn try_each(alloc: Global, trial: Trial) -> Result<(), Fail> {
    for form in FORMS {
        trial.tries(alloc, Call::List(form))?;
    }
    Ok(())
}

/// Tries each replacement by a closure.
pub(super) fn try_each_closure(alloc: Global, trial: Trial) -> Result<(), Fail> {
    for form in FORMS {
        trial.tries(alloc, Call::Closure(form))?;
    }
    Ok(())
}
