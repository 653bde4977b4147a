//! The root table: where an unanchored search goes on from the start, for each byte. Most bytes of a haystack are read
//! there, and most states fail to there.
ghost use Rattle.std.specs.Prelude.{IfOk, IfSome};
ghost use Rattle.ac_automaton.specs.Tries.{IsRoot, IsStateAmong};
ghost use Rattle.ac_automaton.specs.declared.nfa.noncontiguous.state.TheConstants.{START};

use super::state::{START, TrieSlices, follow};
use ac_util::looks::Looks;
use ac_util::primitives::StateID;
use ac_util::search::Anchored;
use std::alloc::{AllocError, Allocator};

/// How many bytes there are.
const BYTES: usize = 256;

/// Returns the root table of an automaton with these states.
///
/// # Errors
/// `AllocError` where a request for memory is refused.
pub(crate) fn root_of<A: Allocator>(
    alloc: A,
    trie: TrieSlices<'_>,
) -> Result<Vec<StateID, A>, AllocError>
    requires start { IsStateAmong trie START }
    requires rooted { IfSome trie.root (λ root. IsRoot trie.transitions.now trie.states.now root.now) }
    ensures { IfOk result (λ root. IsRoot trie.entry.transitions.now trie.entry.states.now root.items) }
{
    let mut root = Vec::with_capacity(alloc, BYTES)?;
    for byte in 0..BYTES {
        let start = StateID::must(START);
        let next = follow(trie, Anchored::No, start, byte as u8, &mut Looks::new());
        root.push(next)?;
    }
    Ok(root)
}
