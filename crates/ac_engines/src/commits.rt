//! The commits of an engine that is built from a noncontiguous NFA.
ghost use Rattle.std.specs.Prelude.{◌≡◌, IfOk};
ghost use Rattle.ac_engines.specs.Commits.{AreRenumbered, number_in, renumbered_one};

use ac_automaton::automaton::{Commit, Commits};
use ac_automaton::nfa::noncontiguous::{ANCHORED_START, START};
use ac_util::primitives::StateID;
use std::alloc::{AllocError, Allocator};
use std::sync::Arc;

/// Returns the commits of a trie's states by the numbers that an engine has for these.
///
/// # Errors
/// `AllocError` where a request for memory is refused.
pub(crate) fn renumbered<A: Allocator + Clone>(
    alloc: A,
    commits: &Commits<A>,
    numbers: &[StateID],
) -> Result<Arc<Commits<A>, A>, AllocError>
    ensures { IfOk result (λ shared. AreRenumbered numbers.now commits.now shared.value) }
{
    let all = commits.all();
    let mut list = Vec::new(alloc.clone()?);
    for index in 0..all.len() {
        if let Some(commit) = renumbered_one(all[index], numbers) {
            list.push(commit)?;
        }
    }
    let chains = commits.chains().clone()?;
    Ok(Arc::new(alloc, Commits::new(list, chains))?)
}

/// Returns a commit by these numbers, where the states that it names have some.
fn renumbered_one(commit: Commit, numbers: &[StateID]) -> Option<Commit>
    ensures { result ≡ renumbered_one numbers.now commit }
{
    let state = number_in(numbers, commit.state)?;
    let next = number_in(numbers, commit.next)?;
    Some(Commit {
        state,
        next,
        ..commit
    })
}

/// Returns the number of a state in unanchored searches, for which both starts of the trie are the unanchored one.
fn number_in(numbers: &[StateID], sid: StateID) -> Option<StateID>
    ensures { result ≡ number_in numbers.now sid }
{
    let state = sid.as_usize();
    let place = if state == ANCHORED_START {
        START
    } else {
        state
    };
    numbers.get(place).copied()
}
