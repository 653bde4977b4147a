//! Matches exchanged for texts, by a list or by a closure, in bytes and in text, whichever engine finds them.
ghost use Rattle.std.specs.Prelude.{◌≡◌, ℕ, List, IfOk, length, string_bytes};
ghost use Rattle.std.specs.Iterator.{YieldsFirst};
ghost use Rattle.ac_automaton.specs.Answers.{StepsOver};
ghost use Rattle.ac_automaton.specs.Util.{AreInOrder, Occurrence, bytes_of, is_whole, replaced, whole_characters};

use ac_util::search::Match;
use std::alloc::{AllocError, Allocator};

/// A walk whose matches can be replaced: `FindIter` of an engine, or of `AhoCorasick`. Contracts see the matches still to
/// come.
pub trait Walk {
    ghost left: { Self → List Occurrence };

    /// Returns the next match, and moves on.
    fn next_match(&mut self) -> Option<Match>
        ensures { YieldsFirst left self.old result self.new };
}

/// Returns bytes with each match of a walk over them replaced by the text of its pattern. The matches have to lie in the
/// bytes one after another, and each has to have a text.
///
/// # Errors
/// `AllocError` where a request for memory is refused.
///
/// `AhoCorasick::try_replace_all_bytes` does this with its own walk: see the example of `AhoCorasick::replace_all_bytes`.
pub fn replace_all_bytes<W: Walk + Drop, Z: Allocator>(
    mut walk: W,
    alloc: Z,
    haystack: &[u8],
    texts: &[&[u8]],
) -> Result<Vec<u8, Z>, AllocError>
    requires in_order { AreInOrder (length haystack.now) (length texts.now) 0 (W.left walk) }
    ensures { IfOk result (λ whole. whole.items ≡ replaced haystack.now (bytes_of texts.now) (W.left walk)) }
{
    let mut replaced = Vec::with_capacity(alloc, haystack.len())?;
    let mut place = 0;
    while let Some(found) = walk.next_match() {
        replaced.extend_from_slice(&haystack[place..found.start()])?;
        replaced.extend_from_slice(texts[found.pattern().as_usize()])?;
        place = found.end();
    }
    replaced.extend_from_slice(&haystack[place..])?;
    Ok(replaced)
}

/// Returns a text with each match of a walk over it replaced by the text of its pattern, but those that cut a
/// character. The matches have to lie in the text one after another, and each has to have a text.
///
/// # Errors
/// As `replace_all_bytes`.
///
/// See the example of `AhoCorasick::replace_all`, which does this with its own walk.
pub fn replace_all<W: Walk + Drop, Z: Allocator>(
    mut walk: W,
    alloc: Z,
    text: &str,
    texts: &[&str],
) -> Result<String<Z>, AllocError>
    requires in_order { AreInOrder (length text.now) (length texts.now) 0 (W.left walk) }
    ensures { IfOk result (λ whole. string_bytes whole
        ≡ replaced text.now (bytes_of texts.now) (whole_characters text.now (W.left walk))) }
{
    let mut replaced = String::with_capacity(alloc, text.len())?;
    let mut place = 0;
    while let Some(found) = walk.next_match() {
        if cuts_no_character(text, &found) {
            replaced.push_str(&text[place..found.start()])?;
            replaced.push_str(texts[found.pattern().as_usize()])?;
            place = found.end();
        }
    }
    replaced.push_str(&text[place..])?;
    Ok(replaced)
}

/// Appends bytes to a destination, and calls the closure at each match of a walk over them while it asks to go on. The
/// matches have to lie in the bytes one after another.
///
/// # Errors
/// `AllocError` where a request of this call for memory is refused. The destination is as the steps before left it.
///
/// See the example of `AhoCorasick::replace_all_with_bytes`, which does this with its own walk.
pub fn replace_all_with_bytes<W: Walk + Drop, F>(
    mut walk: W,
    haystack: &[u8],
    destination: &mut Vec<u8>,
    mut exchange: F,
) -> Result<(), AllocError>
where
    F: FnMut(&Match, &[u8], &mut Vec<u8>) -> bool,
    requires callable { F.IsAlwaysCallable exchange }
    requires in_order { (texts : ℕ) × AreInOrder (length haystack.now) texts 0 (W.left walk) }
    ensures { StepsOver F.FnMut (λ d. d.items) haystack.now (W.left walk) exchange destination.old destination.new result }
{
    let mut place = 0;
    while let Some(found) = walk.next_match() {
        destination.extend_from_slice(&haystack[place..found.start()])?;
        place = found.end();
        if !exchange(&found, &haystack[found.start()..place], destination) {
            break;
        }
    }
    destination.extend_from_slice(&haystack[place..])?;
    Ok(())
}

/// Appends a text to a destination, and calls the closure at each match of a walk over it that cuts no character, while
/// it asks to go on. The matches have to lie in the text one after another.
///
/// # Errors
/// As `replace_all_with_bytes`.
///
/// See the example of `AhoCorasick::replace_all_with`, which does this with its own walk.
pub fn replace_all_with<W: Walk + Drop, F>(
    mut walk: W,
    text: &str,
    destination: &mut String,
    mut exchange: F,
) -> Result<(), AllocError>
where
    F: FnMut(&Match, &str, &mut String) -> bool,
    requires callable { F.IsAlwaysCallable exchange }
    requires in_order { (texts : ℕ) × AreInOrder (length text.now) texts 0 (W.left walk) }
    ensures { StepsOver F.FnMut string_bytes text.now (whole_characters text.now (W.left walk)) exchange
        destination.old destination.new result }
{
    let mut place = 0;
    while let Some(found) = walk.next_match() {
        if cuts_no_character(text, &found) {
            destination.push_str(&text[place..found.start()])?;
            place = found.end();
            if !exchange(&found, &text[found.start()..place], destination) {
                break;
            }
        }
    }
    destination.push_str(&text[place..])?;
    Ok(())
}

/// Returns whether both ends of a match are boundaries of characters.
fn cuts_no_character(text: &str, found: &Match) -> bool
    ensures { result ≡ is_whole text.now found.now }
{
    text.is_char_boundary(found.start()) && text.is_char_boundary(found.end())
}
