//! What of a stream is settled, so that no byte to come can change it, and how many bytes are kept for the rest.
ghost use Rattle.std.specs.Prelude.{◌≡◌, ◌-◌, ◌*◌, if◌then◌else◌, max, min};
ghost use Rattle.ac_automaton.specs.Util.{usize_max};
ghost use Rattle.ac_automaton.specs.Streams.{kept_from};

/// How many bytes a buffer has at least.
const LEAST_BUFFER: usize = 65536;

/// How many times as long as the longest pattern a buffer is at least.
const BUFFER_FACTOR: usize = 8;

/// Whether a stream goes on.
#[derive(Clone, Copy, PartialEq, Eq, Debug)]
pub enum Phase {
    /// More may be read.
    Open,
    /// A read gave no byte, though there was room: the reader isn't called again.
    Ended,
    /// A read failed, or brought more than a `usize` counts: the reader isn't called again.
    Failed,
}

/// Returns the offset before which nothing is kept, once all matches of the bytes read that are settled were returned.
pub(super) fn settled_from(phase: Phase, kept: usize, read: usize, reserve: usize) -> usize
    ensures { result ≡ kept_from phase (max kept (read - reserve)) read }
{
    match phase {
        Phase::Ended => read,
        Phase::Open | Phase::Failed => kept.max(read.saturating_sub(reserve)),
    }
}

/// Returns the size of a stream's buffer in bytes, given the length of the longest pattern: 65,536, or eight times that length if
/// that is more.
pub fn buffer_len(longest: usize) -> usize
    ensures { result ≡ max 65536 (min usize_max (8 * longest)) }
{
    longest.saturating_mul(BUFFER_FACTOR).max(LEAST_BUFFER)
}

/// Returns how many bytes of a stream may be kept back: one fewer than the longest pattern has where the first match found is
/// given, and else, since a match that was found may still change, as many.
pub(super) fn most_kept(stops: bool, longest: usize) -> usize
    ensures { result ≡ if stops then max 1 longest - 1 else longest }
{
    if stops { longest.max(1) - 1 } else { longest }
}
