//! Which form the states of a trie take, and where each is placed.
ghost use Rattle.std.specs.Prelude.{◌≡◌, ◌+◌, ◌≤◌, ◌++◌, ◌∷◌, IfErr, IfOk, List, [], length, ◌⊎◌, ◌<◌};
ghost use Rattle.ac_automaton.specs.Prelude.{ForNode};
ghost use Rattle.ac_automaton.specs.Util.{alphabet_len, AreClasses, GREATEST, Node, SetsApart};
ghost use Rattle.ac_engines.specs.Contiguous.Plans.{HasFormat, HasMatchLen, HasWords, MayPack, all_words, has_matches, size_of, HasPlaces, front_end};
ghost use Rattle.ac_util.specs.declared.error.BuildError.TheVariants.{Memory};

use super::format::{Format, check_words, format_of, state_words};
use ac_automaton::automaton::Automaton;
use ac_automaton::nfa::noncontiguous::{DEAD, FIRST_INNER, NFA, START};
use ac_util::alphabet::ByteClasses;
use ac_util::error::BuildError;
use ac_util::primitives::StateID;
use std::alloc::{AllocError, Allocator};
use std::marker::Model;

/// What states are packed from: a trie, the class of each byte, and the length below which states are dense.
#[derive(Drop)]
pub(super) struct Plan<'a, A: Allocator> {
    pub(super) nfa: &'a NFA<A>,
    pub(super) classes: &'a ByteClasses,
    pub(super) dense_depth: usize,
}

impl<'a, A: Allocator> Model for Plan<'a, A> {
    ghost use Rattle.ac_engines.specs.Contiguous.Plans.{PackPlan};

    ghost Value = { PackPlan };

    ghost view = { λ p. record { trie = p.nfa.now; classes = p.classes.now; dense_depth = p.dense_depth } };
}

/// The number of each state of a trie, and how many words all states take.
#[derive(Drop)]
pub(super) struct Numbers<A: Allocator> {
    pub(super) list: Vec<StateID, A>,
    pub(super) all: u64,
}

impl<'a, A: Allocator> Plan<'a, A> {
    /// Returns a plan.
    pub(super) fn new(nfa: &'a NFA<A>, classes: &'a ByteClasses, dense_depth: usize) -> Plan<'a, A>
        requires classes { AreClasses classes.now }
        requires apart { SetsApart nfa.now.built.ignores_case nfa.now.built.patterns classes.now }
        ensures value { result ≡ record { trie = nfa.now; classes = classes.now; dense_depth = dense_depth } }
        ensures may { (nodes : List Node) × MayPack result nodes }
    {
        // Contracts learn here which nodes there are, that patterns are few, and that none is too long.
        let _states = nfa.states_len();
        let _patterns = nfa.patterns().len();
        let _longest = nfa.max_pattern_len();
        Plan {
            nfa,
            classes,
            dense_depth,
        }
    }

    /// Returns whether a state has matches.
    pub(super) fn is_match(&self, sid: StateID) -> bool
        requires state { HasWords self.now sid }
        ensures { ForNode (MayPack self.now) sid (λ nodes u. result ≡ has_matches self.now nodes u) }
    {
        self.nfa.is_match(sid)
    }

    /// Returns how many matches a state has.
    fn match_len(&self, sid: StateID) -> usize
        requires state { HasWords self.now sid }
        ensures value { HasMatchLen self.now sid result }
        ensures few { result ≤ GREATEST + 1 }
    {
        if self.nfa.is_match(sid) {
            self.nfa.match_len(sid)
        } else {
            0
        }
    }

    /// Returns the form of a state that has so many matches.
    pub(super) fn format(&self, sid: StateID, matches: usize) -> Format
        requires state { HasWords self.now sid }
        requires matches { HasMatchLen self.now sid matches }
        ensures { HasFormat self.now sid result }
    {
        if sid.as_usize() < FIRST_INNER {
            return Format::Dense;
        }
        format_of(
            self.nfa.depth(sid),
            self.dense_depth,
            self.nfa.own_len(sid),
            matches,
        )
    }

    /// Returns how many words a state takes.
    fn words(&self, sid: StateID) -> u64
        requires state { HasWords self.now sid }
        ensures value { ForNode (MayPack self.now) sid (λ nodes u. result ≡ size_of self.now nodes u) }
        ensures small { result ≤ GREATEST + 260 }
    {
        let matches = self.match_len(sid);
        state_words(
            self.format(sid, matches),
            self.classes.alphabet_len() as u64,
            self.nfa.own_len(sid) as u64,
            matches as u64,
        )
    }

    /// Returns how many words the dead state takes.
    fn dead_words(&self) -> u64
        ensures value { result ≡ 2 + alphabet_len self.now.classes }
        ensures small { result ≤ GREATEST + 260 }
    {
        state_words(Format::Dense, self.classes.alphabet_len() as u64, 0, 0)
    }

    /// Returns how many words all states take.
    pub(super) fn all_words(&self) -> u64
        requires may { (nodes : List Node) × MayPack self.now nodes }
        ensures { result ≡ all_words self.now }
    {
        let mut all = self.dead_words();
        for state in START..self.nfa.states_len() {
            all += self.words(StateID::must(state));
        }
        all
    }

    /// Returns the address at which the states that have matches end.
    pub(super) fn front_end(&self) -> u64
        requires may { (nodes : List Node) × MayPack self.now nodes }
        ensures { (nodes : List Node) → MayPack self.now nodes → result ≡ front_end self.now nodes }
    {
        let mut end = self.dead_words();
        for state in START..self.nfa.states_len() {
            let sid = StateID::must(state);
            if self.is_match(sid) {
                end += self.words(sid);
            }
        }
        end
    }
}

impl<'a, A: Allocator + Clone> Plan<'a, A> {
    /// Returns the number of each state of the trie, which is the address of its first word, and how many words there
    /// are. States that have matches come first, up to the address that is passed, and the others after them.
    ///
    /// # Errors
    /// `StateIdOverflow` where a number would be too great: then there are too many words. `Memory` where a request for
    /// memory is refused.
    pub(super) fn numbers(&self, alloc: &A, match_end: u64) -> Result<Numbers<A>, BuildError>
        requires may { (nodes : List Node) × MayPack self.now nodes }
        requires front { (nodes : List Node) → MayPack self.now nodes → match_end ≡ front_end self.now nodes }
        ensures places { IfOk result
            (λ numbers. (nodes : List Node) → MayPack self.now nodes → HasPlaces self.now nodes numbers.list.items) }
        ensures all { IfOk result (λ numbers. numbers.all ≡ all_words self.now) }
        ensures refused { IfErr result (λ e. (e ≡ Memory) ⊎ (GREATEST < all_words self.now)) }
    {
        let mut list = first_numbers(alloc.clone()?, self.nfa.states_len())?;
        let mut front = self.dead_words();
        let mut back = match_end;
        for state in START..self.nfa.states_len() {
            let sid = StateID::must(state);
            let words = self.words(sid);
            if self.is_match(sid) {
                push_number(&mut list, front)?;
                front += words;
            } else {
                push_number(&mut list, back)?;
                back += words;
            }
        }
        Ok(Numbers { list, all: back })
    }
}

/// Returns the places of the dead state and of the one that no search reaches, with room for those of all states.
///
/// # Errors
/// `AllocError` where a request for memory is refused.
fn first_numbers<A: Allocator>(alloc: A, states: usize) -> Result<Vec<StateID, A>, AllocError>
    ensures { IfOk result (λ numbers. numbers.items ≡ 0 ∷ 0 ∷ []) }
{
    let mut numbers = Vec::with_capacity(alloc, states)?;
    numbers.push(StateID::must(DEAD))?;
    numbers.push(StateID::must(DEAD))?;
    Ok(numbers)
}

/// Appends a number to a list.
///
/// # Errors
/// `StateIdOverflow` where it is too great, `Memory` where a request for memory is refused.
fn push_number<A: Allocator>(list: &mut Vec<StateID, A>, number: u64) -> Result<(), BuildError>
    ensures small { IfOk result (λ _. number ≤ GREATEST) }
    ensures items { IfOk result (λ _. list.new.items ≡ list.old.items ++ number ∷ []) }
    ensures refused { IfErr result (λ e. (e ≡ Memory) ⊎ (GREATEST < number)) }
{
    let number = check_words(number)?;
    list.push(StateID::must(number as usize))?;
    Ok(())
}
