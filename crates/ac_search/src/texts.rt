//! Patterns from texts.
ghost use Rattle.std.specs.Prelude.{◌≡◌, All, IfOk};
ghost use Rattle.std.specs.Str.{IsUtf8};
ghost use Rattle.ac_util.specs.Patterns.{bytes_of};

use std::alloc::{AllocError, Allocator};

/// Returns the bytes of each text, in their order: the patterns of a build where there are texts. No text is copied.
///
/// Texts that come from outside may be empty, and a match of an empty pattern may stand inside a character. Where
/// `min_pattern_len` of the searcher isn't 0, call `laws::nonempty_texts_are_texts` before a text is sliced at its matches.
///
/// # Errors
/// `AllocError` where the memory for the list is refused.
///
/// ```
/// let patterns = patterns_of(alloc, &["apple", "maple", "Snapple"])?;
/// let searcher = AhoCorasick::new(alloc, &patterns)?;
/// let found = searcher.find(Input::of_text("a maple"));
/// assert_eq!(rt; found, Some(Match::must(1, 2..7)));
/// ```
pub fn patterns_of<'t, A: Allocator>(
    alloc: A,
    texts: &[&'t str],
) -> Result<Vec<&'t [u8], A>, AllocError>
    ensures bytes { IfOk result (λ patterns. bytes_of patterns.items ≡ bytes_of texts.now) }
    ensures texts { IfOk result (λ patterns. All IsUtf8 (bytes_of patterns.items)) }
{
    let mut patterns = Vec::new(alloc);
    for text in texts {
        patterns.push(text.as_bytes())?;
    }
    Ok(patterns)
}
