//! The commits of a noncontiguous NFA: what a leftmost walk gives of the bytes after a match without reading them again.
//!
//! They are made breadth first, from that of a state's parent and one byte. Where the byte leads on from the state at which the
//! parent's commit ends, its chain stays as it is. Else the chain grows by the match that is picked there, as a walk would give
//! it, and the byte is tried again at the state where that one's commit ends.
ghost use Rattle.std.specs.Prelude.{◌≡◌, ◌+◌, ◌<◌, ◌≤◌, [], ◌∷◌, IfOk, List, length};
ghost use Rattle.ac_util.specs.Node.{Node};
ghost use Rattle.ac_automaton.specs.Util.{Both, GREATEST};
ghost use Rattle.ac_automaton.specs.Automata.{built_as};
ghost use Rattle.ac_automaton.specs.Commits.{HasCommits, reads_on};
ghost use Rattle.ac_automaton.specs.Committing.{HasAdded, HasLedOn, HasMadeNone, HoldsCommit, IsChild, IsMade, MakesNext, HasString, IsViewOf, LeadsToChild, lists_by, lists_of, made_of, trie_by};
ghost use Rattle.ac_automaton.specs.Tries.{automaton_of, IsTrie, TrieView};

use super::lists::TrieLists;
use super::state::{START, State, Transition, TrieSlices, follow, own_transitions, take_listed};
use crate::automaton::{Chains, Commit, Commits, Common, MatchRest};
use ac_util::looks::Looks;
use ac_util::primitives::{PatternID, StateID};
use ac_util::search::Anchored;
use std::alloc::{AllocError, Allocator};
use std::sync::Arc;

/// The states of an automaton, and the commits that were made of its states so far.
#[derive(Drop)]
struct Making<'a, A: Allocator> {
    states: &'a [State],
    transitions: &'a [Transition],
    order: &'a [PatternID],
    /// For each state the index of its commit and one more, or 0 where it has none.
    index: Vec<usize, A>,
    commits: Vec<Commit, A>,
    chains: Chains<A>,
}

impl<'a, A: Allocator + Clone> Making<'a, A> {
    /// Returns the states of these lists, of which no commit was made yet. It takes no memory.
    ///
    /// # Errors
    /// `AllocError` where the allocator has no copy of itself.
    fn new(lists: &'a TrieLists<A>) -> Result<Making<'a, A>, AllocError>
        ensures lists { IfOk result (λ making. lists_of making ≡ lists_by lists.now) }
        ensures none { IfOk result (λ making. HasMadeNone (made_of making)) }
    {
        let alloc = lists.states.allocator();
        Ok(Making {
            states: &lists.states,
            transitions: &lists.transitions,
            order: &lists.order,
            index: Vec::new(alloc.clone()?),
            commits: Vec::new(alloc.clone()?),
            chains: Chains::new(alloc.clone()?),
        })
    }
}

impl<'a, A: Allocator> Making<'a, A> {
    /// Makes the commits of all states.
    ///
    /// # Errors
    /// `AllocError` where a request for memory is refused.
    fn add_all(&mut self) -> Result<(), AllocError>
        requires few { length self.old.states.now ≤ GREATEST + 1 }
        requires begun { HasMadeNone (made_of self.old) }
        requires view { (g : TrieView) × IsViewOf (lists_of self.old) g }
        ensures { IfOk result (λ _. (g : TrieView) → IsViewOf (lists_of self.old) g
            → IsMade g (made_of self.new) (length g.nodes)) }
    {
        let count = self.states.len();
        self.index.resize(count, 0)?;
        for number in START..count {
            self.add_children(StateID::must(number))?;
        }
        Ok(())
    }

    /// Returns the commit of a state, if it was made. That of a state whose string ends with a match gives nothing after it.
    fn held(&self, sid: StateID) -> Option<Commit>
        requires at { HasString self.now sid }
        ensures { HoldsCommit self.now sid result }
    {
        let rest = MatchRest {
            state: sid,
            index: 0,
        };
        if let Some((pattern, _)) = take_listed(self.states, self.order, rest) {
            return Some(Commit {
                state: sid,
                pattern,
                rest: 0,
                next: StateID::must(START),
                chain: 0,
            });
        }
        let place = self.index[sid.as_usize()];
        if place == 0 {
            return None;
        }
        Some(self.commits[place - 1])
    }

    /// Returns the commit of the child of a state that has one.
    ///
    /// # Errors
    /// `AllocError` where a request for memory is refused.
    fn lead_on(&mut self, parent: Commit, next: Transition) -> Result<Commit, AllocError>
        requires leads { LeadsToChild self.old parent next }
        ensures leads { IfOk result (λ commit. (leads : LeadsToChild self.old parent next)
            → HasLedOn self.old self.new parent next leads.child commit) }
        ensures same { IfOk result (λ _. self.new ≡ record self.old { chains = self.new.chains }) }
    {
        let trie = TrieSlices {
            states: self.states,
            transitions: self.transitions,
            root: None,
        };
        let (mut at, mut chain) = (parent.next, parent.chain);
        loop {
            let to = follow(trie, Anchored::No, at, next.byte, &mut Looks::new());
            if to.as_usize() >= START {
                return Ok(Commit {
                    state: next.target,
                    rest: parent.rest + 1,
                    next: to,
                    chain,
                    ..parent
                });
            }
            let Some(held) = self.held(at) else {
                unreachable!()
            };
            let end = parent.rest - held.rest;
            chain = self.chains.push(chain, held.pattern, end)?;
            chain = self.chains.append(chain, held.chain, end)?;
            at = held.next;
        }
    }

    /// Makes the commit of a child by a transition, unless it was made before or its string ends with a match.
    ///
    /// # Errors
    /// `AllocError` where a request for memory is refused.
    fn add(&mut self, parent: &Commit, next: Transition) -> Result<(), AllocError>
        requires child { IsChild self.old parent.now next }
        ensures adds { IfOk result (λ _. (child : IsChild self.old parent.now next)
            → HasAdded child.at.view (made_of self.old) (made_of self.new) next) }
        ensures same { IfOk result (λ _. lists_of self.new ≡ lists_of self.old) }
    {
        if self.held(next.target).is_some() {
            return Ok(());
        }
        let commit = self.lead_on(*parent, next)?;
        let at = commit.state.as_usize();
        self.commits.push(commit)?;
        self.index[at] = self.commits.len();
        Ok(())
    }

    /// Makes the commits of the children of a state.
    ///
    /// # Errors
    /// `AllocError` where a request for memory is refused.
    fn add_children(&mut self, sid: StateID) -> Result<(), AllocError>
        requires next { MakesNext self.old sid }
        ensures adds { IfOk result (λ _. (next : MakesNext self.old sid)
            → IsMade next.at.view (made_of self.new) (sid + 1)) }
        ensures same { IfOk result (λ _. lists_of self.new ≡ lists_of self.old) }
    {
        let Some(parent) = self.held(sid) else {
            return Ok(());
        };
        let own = own_transitions(&self.states[sid.as_usize()], self.transitions);
        for index in 0..own.len() {
            self.add(&parent, own[index])?;
        }
        Ok(())
    }
}

/// Returns the commits of an automaton with these lists.
///
/// # Errors
/// `AllocError` where a request for memory is refused.
pub(super) fn commits_of<A: Allocator + Clone>(
    common: &Common<A>,
    lists: &TrieLists<A>,
) -> Result<Arc<Commits<A>, A>, AllocError>
    requires is_trie { (nodes : List Node) × IsTrie (trie_by common.now (lists_by lists.now)) nodes }
    ensures { IfOk result (λ shared. HasCommits (automaton_of (trie_by common.now (lists_by lists.now))) shared.value) }
{
    let mut making = Making::new(lists)?;
    if reads_on(common) {
        making.add_all()?;
    }
    let alloc = common.patterns().as_ref().allocator().clone()?;
    Ok(Arc::new(alloc, Commits::new(making.commits, making.chains))?)
}

/// Returns whether walks read on from match to match.
fn reads_on<A: Allocator>(common: &Common<A>) -> bool
    ensures { result ≡ reads_on (built_as common.now Both) }
{
    common.match_kind().is_leftmost() && common.min_pattern_len() > 0
}
