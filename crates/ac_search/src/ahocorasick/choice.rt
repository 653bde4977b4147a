//! The choice of the engine that serves a searcher.
ghost use Rattle.std.specs.Prelude.{◌≡◌};
ghost use Rattle.ac_search.specs.Searchers.{choose_kind, suits_dfa};

use ac_util::search::StartKind;

/// The most patterns for which a searcher chooses the DFA.
pub const MOST_FOR_DFA: usize = 100;

/// The engines that can serve a searcher. This ports `AhoCorasickKind`.
#[derive(Clone, Copy, PartialEq, Eq, Debug)]
pub enum AhoCorasickKind {
    /// `nfa::noncontiguous::NFA`, which is quickly built.
    NoncontiguousNFA,
    /// `nfa::contiguous::NFA`, which takes little memory.
    ContiguousNFA,
    /// `dfa::DFA`, mostly the fastest to search with, and the largest.
    DFA,
}

/// Returns the engine that a searcher over so many patterns takes where none was named. The last two arguments say
/// whether a DFA would be within its limit, and whether a contiguous NFA would be within its own.
///
/// The DFA serves at most 100 patterns and a start kind other than `Both`, where it fits; else the contiguous NFA
/// serves, where that fits; else the noncontiguous one.
///
/// ```
/// let few = choose_kind(3, StartKind::Unanchored, true, true);
/// assert_eq!(rt; few, AhoCorasickKind::DFA);
/// let both = choose_kind(3, StartKind::Both, true, true);
/// assert_eq!(rt; both, AhoCorasickKind::ContiguousNFA);
/// let large = choose_kind(101, StartKind::Unanchored, true, false);
/// assert_eq!(rt; large, AhoCorasickKind::NoncontiguousNFA);
/// ```
pub fn choose_kind(
    patterns_len: usize,
    start_kind: StartKind,
    dfa_fits: bool,
    contiguous_fits: bool,
) -> AhoCorasickKind
    ensures { result ≡ choose_kind patterns_len start_kind dfa_fits contiguous_fits }
{
    if suits_dfa(start_kind, patterns_len) && dfa_fits {
        AhoCorasickKind::DFA
    } else if contiguous_fits {
        AhoCorasickKind::ContiguousNFA
    } else {
        AhoCorasickKind::NoncontiguousNFA
    }
}

/// Returns whether so many patterns are few enough for a DFA, and their searches have one start.
fn suits_dfa(start_kind: StartKind, patterns: usize) -> bool
    ensures { result ≡ suits_dfa start_kind patterns }
{
    !matches!(start_kind, StartKind::Both) && patterns <= MOST_FOR_DFA
}
