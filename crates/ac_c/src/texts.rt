//! Lists of texts, which C passes as bytes and the place at which each text ends in them.
ghost use Rattle.std.specs.Prelude.{◌≡◌, IfOk, is_some, length, true};
ghost use Rattle.ac_search.specs.Patterns.{bytes_of, limit_refusal};
ghost use Rattle.ac_c.specs.Texts.{are_ends, texts_in};

use ac_search::PatternID;
use std::alloc::{AllocError, Global};

/// Returns whether the ends rise and stay within so many bytes.
pub fn are_ends(ends: &[usize], len: usize) -> bool
    ensures { result ≡ are_ends len 0 ends.now }
{
    let mut start = 0;
    for end in ends {
        if *end < start || *end > len {
            return false;
        }
        start = *end;
    }
    true
}

/// Returns whether texts with these ends are too many for a list of patterns, or one is too long. It takes no memory.
pub fn passes_limit(_bytes: &[u8], ends: &[usize]) -> bool
    requires { are_ends (length _bytes.now) 0 ends.now ≡ true }
    ensures { result ≡ is_some (limit_refusal (texts_in _bytes.now 0 ends.now)) }
{
    if ends.len() > PatternID::LIMIT {
        return true;
    }
    let mut start = 0;
    for end in ends {
        if *end - start > PatternID::MAX {
            return true;
        }
        start = *end;
    }
    false
}

/// Returns the texts that stand one after another in the bytes, each up to its end.
///
/// # Errors
/// `AllocError` where a request for memory is refused.
pub fn texts_in<'b>(
    alloc: Global,
    bytes: &'b [u8],
    ends: &[usize],
) -> Result<Vec<&'b [u8]>, AllocError>
    requires { are_ends (length bytes.now) 0 ends.now ≡ true }
    ensures { IfOk result (λ texts. bytes_of texts.items ≡ texts_in bytes.now 0 ends.now) }
{
    let mut texts = Vec::new(alloc);
    let mut start = 0;
    for end in ends {
        texts.push(&bytes[start..*end])?;
        start = *end;
    }
    Ok(texts)
}
