//! The engines by themselves, without a searcher.
ghost use Rattle.std.specs.Iterator.{IsFinite};

use ac_util::search::Match;
use std::alloc::{AllocError, Global};
use std::fmt::Debug;
use std::process::Abort;

mod answers;
mod rows;
pub(crate) mod searches;
mod states;

/// A pattern number, a start and an end.
type Triple = (usize, usize, usize);

/// The patterns of most tests.
const PRONOUNS: [&[u8]; 4] = [b"he", b"she", b"his", b"hers"];

/// Ends the test where what was found is not what was wanted. It is proved once, and `assert_eq!` where it stands.
pub(crate) fn same<T: PartialEq + Debug + Drop>(rt: &impl Abort, found: T, wanted: T) {
    assert_eq!(rt; found, wanted);
}

/// The same, and says by what it was found.
pub(crate) fn same_by<T: PartialEq + Debug + Drop, B: Debug>(
    rt: &impl Abort,
    found: T,
    wanted: T,
    by: &B,
) {
    assert_eq!(rt; found, wanted, "{by:?}");
}

/// Returns what a row says of a match.
fn triple_of(m: &Match) -> Triple {
    (m.pattern().as_usize(), m.start(), m.end())
}

/// Returns what a row says of each match of an iterator.
fn triples_of<I: Iterator<Item = Match>>(
    alloc: Global,
    matches: I,
) -> Result<Vec<Triple>, AllocError>
    requires can { I.can_next matches }
    requires finite { IsFinite (I.remaining matches) }
{
    let mut triples = Vec::new(alloc);
    for found in matches {
        triples.push(triple_of(&found))?;
    }
    Ok(triples)
}
