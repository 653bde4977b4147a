//! Packing the states of a trie.
ghost use Rattle.std.specs.Prelude.{◌≡◌, ◌<◌, ◌≤◌, IfOk, List, [], length, slice_get, slice_index_or, Some};
ghost use Rattle.ac_automaton.specs.Util.{alphabet_len, GREATEST, Node};
ghost use Rattle.ac_automaton.specs.Prelude.{HasOwn};
ghost use Rattle.ac_engines.specs.Contiguous.Plans.{HasFormat, all_words};
ghost use Rattle.ac_engines.specs.Contiguous.Packs.{AppendsSide, AppendsWordsOf, AreReady, ForPacked, HasPlaceIn, PacksAll, dead_words};
ghost use Rattle.ac_engines.specs.Contiguous.Words.{Appends};
ghost use Rattle.ac_engines.specs.declared.nfa.contiguous.format.Format;

use super::format::Format;
use super::plan::Plan;
use super::state::{Edge, FAIL};
use super::state_fields::{StateFields, push_one, push_state};
use crate::matches::list_matches;
use ac_automaton::automaton::Automaton;
use ac_automaton::nfa::noncontiguous::{DEAD, FIRST_INNER, START};
use ac_util::primitives::{PatternID, StateID};
use ac_util::search::Anchored;
use std::alloc::{AllocError, Allocator};
use std::marker::Model;

/// What states are packed by: a plan, and the place of each state of the trie.
#[derive(Drop)]
pub(super) struct Packer<'a, A: Allocator> {
    pub(super) plan: &'a Plan<'a, A>,
    pub(super) numbers: &'a [StateID],
}

impl<'a, A: Allocator> Model for Packer<'a, A> {
    ghost use Rattle.ac_engines.specs.Contiguous.Packs.{Packer};

    ghost Value = { Packer };

    ghost view = { λ p. record { plan = p.plan.now; numbers = p.numbers.now } };
}

/// The words of the states that were packed, and lists that are filled anew for each state that takes some.
#[derive(Drop)]
struct Buffers<A: Allocator> {
    words: Vec<u32, A>,
    edges: Vec<Edge, A>,
    matches: Vec<PatternID, A>,
}

impl<'a, A: Allocator> Packer<'a, A> {
    /// Returns the place of a state.
    fn number(&self, sid: StateID) -> u32
        requires numbered { sid < length self.now.numbers }
        ensures { result ≡ slice_index_or self.now.numbers sid 0 }
    {
        self.numbers[sid.as_usize()].as_usize() as u32
    }

    /// Returns one of the own transitions of a state.
    fn edge(&self, sid: StateID, index: usize) -> Edge
        requires state { HasPlaceIn self.now sid }
        requires within { HasOwn self.now.plan.trie sid index }
        ensures { ForPacked self.now sid (λ s. slice_get s.edges index ≡ Some result) }
    {
        let plan = self.plan;
        let (byte, next) = plan.nfa.own(sid, index);
        Edge {
            class: plan.classes.get(byte),
            target: self.number(next),
        }
    }

    /// Puts the own transitions of a state into a list, and nothing else.
    ///
    /// # Errors
    /// `AllocError` where a request for memory is refused.
    fn list_edges(&self, edges: &mut Vec<Edge, A>, sid: StateID) -> Result<(), AllocError>
        requires state { HasPlaceIn self.now sid }
        ensures { ForPacked self.now sid (λ s. IfOk result (λ _. edges.new.items ≡ s.edges)) }
    {
        let plan = self.plan;
        edges.clear();
        for index in 0..plan.nfa.own_len(sid) {
            edges.push(self.edge(sid, index))?;
        }
        Ok(())
    }

    /// Returns the place of a state's failure target. The starts have none, which is given as 0.
    fn failure(&self, sid: StateID) -> u32
        requires state { HasPlaceIn self.now sid }
        ensures { ForPacked self.now sid (λ s. result ≡ s.failure) }
    {
        if sid.as_usize() < FIRST_INNER {
            return 0;
        }
        let plan = self.plan;
        self.number(plan.nfa.fail(sid))
    }

    /// Returns where a byte leads from a state that doesn't lead on: from the unanchored start back to it, unless
    /// under a leftmost kind an empty pattern has begun the match, and from the others nowhere.
    fn default_target(&self, sid: StateID) -> u32
        requires state { HasPlaceIn self.now sid }
        ensures { ForPacked self.now sid (λ s. result ≡ s.default_target) }
    {
        let plan = self.plan;
        let nfa = plan.nfa;
        if sid.as_usize() != START {
            return FAIL;
        }
        if nfa.match_kind().is_leftmost() && nfa.min_pattern_len() == 0 {
            DEAD as u32
        } else {
            self.number(sid)
        }
    }

    /// Appends the words of a state. Most states of long patterns have one transition and no match, so these take no
    /// lists.
    ///
    /// # Errors
    /// `AllocError` where a request for memory is refused.
    fn push(&self, buffers: &mut Buffers<A>, sid: StateID) -> Result<(), AllocError>
        requires state { HasPlaceIn self.now sid }
        ensures { AppendsWordsOf self.now sid buffers.old.words.items buffers.new.words.items result }
    {
        let plan = self.plan;
        if plan.is_match(sid) {
            return self.push_lists(buffers, sid);
        }
        match plan.format(sid, 0) {
            Format::One => self.push_only(&mut buffers.words, sid),
            _ => self.push_lists(buffers, sid),
        }
    }

    /// Appends the words of a state with one transition and no match.
    ///
    /// # Errors
    /// `AllocError` where a request for memory is refused.
    fn push_only(&self, words: &mut Vec<u32, A>, sid: StateID) -> Result<(), AllocError>
        requires state { HasPlaceIn self.now sid }
        requires one { HasFormat self.now.plan sid Format.One }
        ensures { AppendsWordsOf self.now sid words.old.items words.new.items result }
    {
        let state_fields = StateFields {
            failure: self.failure(sid),
            default_target: FAIL,
            edges: &[self.edge(sid, 0)],
            matches: &[],
        };
        push_one(words, &state_fields)
    }

    /// Appends the words of a state in any form.
    ///
    /// # Errors
    /// `AllocError` where a request for memory is refused.
    fn push_lists(&self, buffers: &mut Buffers<A>, sid: StateID) -> Result<(), AllocError>
        requires state { HasPlaceIn self.now sid }
        ensures { AppendsWordsOf self.now sid buffers.old.words.items buffers.new.words.items result }
    {
        let plan = self.plan;
        self.list_edges(&mut buffers.edges, sid)?;
        list_matches(plan.nfa, sid, Anchored::No, &mut buffers.matches)?;
        let state_fields = StateFields {
            failure: self.failure(sid),
            default_target: self.default_target(sid),
            edges: &buffers.edges,
            matches: &buffers.matches,
        };
        push_state(
            &mut buffers.words,
            plan.format(sid, buffers.matches.len()),
            plan.classes.alphabet_len(),
            state_fields,
        )
    }

    /// Appends the words of the dead state.
    ///
    /// # Errors
    /// `AllocError` where a request for memory is refused.
    fn push_dead(&self, buffers: &mut Buffers<A>) -> Result<(), AllocError>
        requires few { alphabet_len self.now.plan.classes ≤ 256 }
        ensures { Appends buffers.old.words.items buffers.new.words.items (dead_words self.now.plan) result }
    {
        let state_fields = StateFields {
            failure: 0,
            default_target: DEAD as u32,
            edges: &[],
            matches: &[],
        };
        let plan = self.plan;
        push_state(
            &mut buffers.words,
            Format::Dense,
            plan.classes.alphabet_len(),
            state_fields,
        )
    }

    /// Appends the words of all states that have matches, or of all others.
    ///
    /// # Errors
    /// `AllocError` where a request for memory is refused.
    fn push_where(&self, buffers: &mut Buffers<A>, front: bool) -> Result<(), AllocError>
        requires ready { (nodes : List Node) × AreReady self.now nodes }
        ensures { AppendsSide self.now front buffers.old.words.items buffers.new.words.items result }
    {
        let plan = self.plan;
        for state in START..plan.nfa.states_len() {
            let sid = StateID::must(state);
            if plan.is_match(sid) == front {
                self.push(buffers, sid)?;
            }
        }
        Ok(())
    }
}

impl<'a, A: Allocator + Clone> Packer<'a, A> {
    /// Returns the words of all states, which are so many.
    ///
    /// # Errors
    /// `AllocError` where a request for memory is refused.
    pub(super) fn pack(&self, alloc: A, len: usize) -> Result<Vec<u32, A>, AllocError>
        requires ready { (nodes : List Node) × AreReady self.now nodes }
        requires small { all_words self.now.plan ≤ GREATEST }
        ensures long { IfOk result (λ words. length words.items ≡ all_words self.now.plan) }
        ensures packed { IfOk result (λ words. PacksAll self.now words.items) }
    {
        let mut buffers = Buffers {
            words: Vec::with_capacity(alloc.clone()?, len)?,
            edges: Vec::new(alloc.clone()?),
            matches: Vec::new(alloc),
        };
        self.push_dead(&mut buffers)?;
        self.push_where(&mut buffers, true)?;
        self.push_where(&mut buffers, false)?;
        Ok(buffers.words)
    }
}
