//! The matches of a trie's states.
ghost use Rattle.std.specs.Prelude.{Some, IfOk, ◌≡◌};
ghost use Rattle.ac_engines.specs.Listed.{HasNode};
ghost use Rattle.ac_automaton.specs.Prelude.{ForNode, AreNodes, matches_of};

use ac_automaton::automaton::{Automaton, MatchRest, is_due};
use ac_automaton::nfa::noncontiguous::NFA;
use ac_util::primitives::{PatternID, StateID};
use ac_util::search::Anchored;
use std::alloc::{AllocError, Allocator};

/// Puts the matches of a state in searches with this anchoring into a list, and nothing else. Anchored ones find only
/// the patterns that are as long as the state is deep, which the trie lists first.
///
/// # Errors
/// `AllocError` where a request for memory is refused.
pub(crate) fn list_matches<A: Allocator>(
    nfa: &NFA<A>,
    sid: StateID,
    anchored: Anchored,
    matches: &mut Vec<PatternID, A>,
) -> Result<(), AllocError>
    requires state { HasNode nfa.now sid }
    ensures { ForNode (AreNodes nfa.now) sid
        (λ nodes u. IfOk result (λ done. matches.new.items ≡ matches_of nfa.now.built anchored u)) }
{
    matches.clear();
    let depth = nfa.depth(sid);
    let mut rest = MatchRest {
        state: sid,
        index: 0,
    };
    while let Some((pattern, after)) = nfa.take_match(rest) {
        if !is_due(anchored, nfa.pattern_len(pattern), depth) {
            break;
        }
        matches.push(pattern)?;
        rest = after;
    }
    Ok(())
}
