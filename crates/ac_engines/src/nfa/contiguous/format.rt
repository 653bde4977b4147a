//! The forms in which states are packed, and how many words they take.
ghost use Rattle.std.specs.Prelude.{◌≡◌, ◌<◌, ◌≤◌};
ghost use Rattle.ac_automaton.specs.Util.{StateIdOverflow};
ghost use Rattle.ac_engines.specs.Contiguous.Words.{format_of, words_of_state};
ghost use Rattle.ac_engines.specs.Listed.{AnswersSize};

use ac_util::error::BuildError;
use ac_util::primitives::StateID;

/// The most transitions that a state may have without being dense.
pub const MOST_SPARSE: usize = 127;

/// How many words come before a state's transitions: its form, and its failure target.
pub(super) const HEAD: usize = 2;

/// How many classes one word holds.
pub(super) const CLASSES_A_WORD: usize = 4;

/// The form in which a state is packed.
#[derive(Clone, Copy, PartialEq, Eq, Debug)]
pub enum Format {
    /// A target for each class of bytes.
    Dense,
    /// One transition, whose class is in the word of the form, and no match.
    One,
    /// The classes of the transitions, four in a word, and then their targets.
    Sparse,
}

/// Returns the form of a state other than the dead one and the starts, which are always dense. Its depth is the length
/// of its string in bytes.
///
/// A state of a depth less than `dense_depth` is dense, and so is one with more than 127 transitions.
///
/// ```
/// assert_eq!(rt; format_of(1, 2, 1, 0), Format::Dense);
/// assert_eq!(rt; format_of(2, 2, 1, 0), Format::One);
/// assert_eq!(rt; format_of(2, 2, 1, 1), Format::Sparse);
/// ```
pub fn format_of(depth: usize, dense_depth: usize, transitions: usize, matches: usize) -> Format
    ensures { result ≡ format_of depth dense_depth transitions matches }
{
    if depth < dense_depth || transitions > MOST_SPARSE {
        Format::Dense
    } else if transitions == 1 && matches == 0 {
        Format::One
    } else {
        Format::Sparse
    }
}

/// Returns how many words a state in this form takes, with so many classes of bytes, transitions and matches.
///
/// ```
/// assert_eq!(rt; state_words(Format::Dense, 3, 1, 0), 5);
/// assert_eq!(rt; state_words(Format::Sparse, 30, 5, 2), 12); // 2 + 2 + 5 + 3
/// ```
pub fn state_words(format: Format, classes: u64, transitions: u64, matches: u64) -> u64
    requires classes { classes ≤ 256 }
    requires transitions { transitions ≤ 256 }
    requires matches { matches ≤ 2147483647 }
    ensures { result ≡ words_of_state format classes transitions matches }
{
    let listed = match matches {
        0 => 0,
        1 => 1,
        several => several + 1,
    };
    match format {
        Format::Dense => HEAD as u64 + classes + listed,
        Format::One => HEAD as u64 + 1 + listed,
        Format::Sparse => {
            HEAD as u64 + transitions.div_ceil(CLASSES_A_WORD as u64) + transitions + listed
        }
    }
}

/// Returns the number of words of all states, if it is within the limit.
///
/// # Errors
/// `StateIdOverflow` exactly where it is greater than the greatest number of a state.
pub fn check_words(sum: u64) -> Result<u64, BuildError>
    ensures { AnswersSize sum sum result }
{
    if sum > StateID::MAX as u64 {
        return Err(BuildError::StateIdOverflow {
            max: StateID::MAX as u64,
            requested: sum,
        });
    }
    Ok(sum)
}
