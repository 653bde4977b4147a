//! What a leftmost walk gives of bytes that it has read past a match, without reading them again.
ghost use Rattle.std.specs.Prelude.{◌≡◌, ◌+◌, ◌<◌, ◌≤◌, ◌∷◌, [], length, map, All, IfOk, MatchResult, slice_get};
ghost use Rattle.std.specs.List.Sorted.{IsPermutation};
ghost use Rattle.ac_automaton.specs.Util.{usize_max};
ghost use Rattle.ac_automaton.specs.Commits.{FindsCommit, GrowsBy, IsFront, chain_at, shifted};

use ac_util::primitives::{PatternID, StateID};
use std::alloc::{AllocError, Allocator, Global};
use std::marker::Model;
use std::mem::size_of;

/// A match of a chain: its pattern, and where it ends, counted from the end of the match before the chain.
#[derive(Clone, Copy, Debug)]
pub struct ChainMatch {
    pub pattern: PatternID,
    pub end: usize,
}

/// What a walk does that leaves a state by a byte that leads to the dead state: it gives the match picked in the state's string,
/// then the matches of a chain, which lie in the bytes after that, and stands at the next state.
#[derive(Clone, Copy, Debug)]
pub struct Commit {
    /// The state that is left.
    pub state: StateID,
    /// The pattern of the match that is picked.
    pub pattern: PatternID,
    /// How many bytes of the state's string come after it.
    pub rest: usize,
    /// The state at which the walk goes on.
    pub next: StateID,
    /// The number of the chain.
    pub chain: usize,
}

/// A link of a chain. Chains that begin alike share their links, so a link knows the one before it and not the one after.
#[derive(Clone, Copy)]
struct Link {
    pattern: PatternID,
    end: usize,
    /// How many matches its chain has.
    count: usize,
    /// The number of the chain before it.
    before: usize,
    /// The number of a shorter chain with which its own begins, by which a match is found in few steps.
    jump: usize,
}

/// Chains of matches by their numbers. The chain 0 is empty; each other is one of the chains before it, and one match more.
#[derive(Drop)]
pub struct Chains<A: Allocator> {
    links: Vec<Link, A>,
}

impl<A: Allocator> Model for Chains<A> {
    ghost use Rattle.std.specs.Prelude.{List};
    ghost use Rattle.ac_automaton.specs.declared.automaton.commits.ChainMatch.{ChainMatch};
    ghost use Rattle.ac_automaton.specs.Commits.{AreLinks, chains_of};

    ghost Value = { List (List ChainMatch) };

    ghost view = { λ c. chains_of c.links.items };

    ghost invariant = { λ c. AreLinks c.links.items };
}

impl<A: Allocator + Clone> Clone for Chains<A> {
    ghost is_clone = { λ s t. t ≡ s };

    /// Returns a copy.
    ///
    /// # Errors
    /// `AllocError` where a request for memory is refused.
    fn clone(&self) -> Result<Chains<A>, AllocError> {
        Ok(Chains {
            links: self.links.clone()?,
        })
    }
}

impl<A: Allocator> Chains<A> {
    /// Returns the empty chain alone. It takes no memory.
    pub(crate) fn new(alloc: A) -> Chains<A>
        ensures { result ≡ [] ∷ [] }
    {
        Chains {
            links: Vec::new(alloc),
        }
    }

    /// Adds a match at the end of a chain, and returns the number of that longer chain. The chain itself stays.
    ///
    /// # Errors
    /// `AllocError` where a request for memory is refused.
    pub(crate) fn push(
        &mut self,
        before: usize,
        pattern: PatternID,
        end: usize,
    ) -> Result<usize, AllocError>
        requires chained { before < length self.old }
        ensures { IfOk result
            (GrowsBy self.old before (record { pattern = pattern; end = end } ∷ []) self.new) }
    {
        let link = Link {
            pattern,
            end,
            count: self.count(before) + 1,
            before,
            jump: self.jump_after(before),
        };
        self.links.push(link)?;
        Ok(self.links.len())
    }

    /// Adds the matches of another chain at the end of a chain, with their ends counted from an offset on, and returns the number
    /// of that longer chain. Both chains stay.
    ///
    /// # Errors
    /// `AllocError` where a request for memory is refused.
    pub(crate) fn append(
        &mut self,
        before: usize,
        other: usize,
        offset: usize,
    ) -> Result<usize, AllocError>
        requires chained { before < length self.old }
        requires other { other < length self.old }
        requires small { All (λ m. offset + m.end ≤ usize_max) (chain_at self.old other) }
        ensures { IfOk result (GrowsBy self.old before (map (shifted offset) (chain_at self.old other)) self.new) }
    {
        let mut chain = before;
        for index in 0..self.count(other) {
            let Some(found) = self.get(other, index) else {
                unreachable!()
            };
            chain = self.push(chain, found.pattern, offset + found.end)?;
        }
        Ok(chain)
    }

    /// Returns how many matches a chain has.
    #[inline]
    fn count(&self, chain: usize) -> usize
        requires chained { chain < length self.now }
        ensures value { result ≡ length (chain_at self.now chain) }
        ensures few { result ≤ chain }
    {
        let links = &self.links;
        if chain == 0 {
            return 0;
        }
        links[chain - 1].count
    }

    /// Returns a shorter chain with which a chain begins, or the empty one.
    #[inline]
    fn jump(&self, chain: usize) -> usize
        requires chained { chain < length self.now }
        ensures front { IsFront (chain_at self.now result) (chain_at self.now chain) }
        ensures back { result ≤ chain }
    {
        let links = &self.links;
        if chain == 0 {
            return 0;
        }
        links[chain - 1].jump
    }

    /// Returns the chain to which a link after a chain jumps: as far as two jumps from there that are equally far, else to that
    /// chain.
    fn jump_after(&self, chain: usize) -> usize
        requires chained { chain < length self.now }
        ensures front { IsFront (chain_at self.now result) (chain_at self.now chain) }
        ensures back { result ≤ chain }
    {
        let first = self.jump(chain);
        let second = self.jump(first);
        let counts = (self.count(chain), self.count(first), self.count(second));
        if counts.0.saturating_sub(counts.1) == counts.1.saturating_sub(counts.2) {
            second
        } else {
            chain
        }
    }

    /// Returns a match of a chain by its index in it.
    pub fn get(&self, chain: usize, index: usize) -> Option<ChainMatch>
        requires chained { chain < length self.now }
        ensures { result ≡ slice_get (chain_at self.now chain) index }
    {
        let mut at = chain;
        while at > 0 {
            let link = self.links[at - 1];
            if link.count <= index {
                return None;
            }
            if link.count - 1 == index {
                return Some(ChainMatch {
                    pattern: link.pattern,
                    end: link.end,
                });
            }
            at = if self.count(link.jump) > index {
                link.jump
            } else {
                link.before
            };
        }
        None
    }

    /// Returns about how many bytes of memory the chains take. Nothing is promised about the number.
    fn memory_usage(&self) -> usize {
        self.links.len().saturating_mul(size_of::<Link>())
    }
}

/// The commits of an automaton's states. A state has one where its string has a match and doesn't end with one.
#[derive(Drop)]
pub struct Commits<A: Allocator = Global> {
    /// In ascending order of their states.
    commits: Vec<Commit, A>,
    chains: Chains<A>,
}

impl<A: Allocator> Model for Commits<A> {
    ghost use Rattle.std.specs.List.Sorted.{IsNonDecreasingBy};
    ghost use Rattle.ac_automaton.specs.Commits.{CommitsView};

    ghost Value = { CommitsView };

    ghost view = { λ c. record { commits = c.commits.items; chains = c.chains } };

    ghost invariant = { λ c. IsNonDecreasingBy (λ commit. commit.state) c.commits.items };
}

impl<A: Allocator + Clone> Clone for Commits<A> {
    ghost is_clone = { λ s t. t ≡ s };

    /// Returns a copy.
    ///
    /// # Errors
    /// `AllocError` where a request for memory is refused.
    fn clone(&self) -> Result<Commits<A>, AllocError> {
        Ok(Commits {
            commits: self.commits.clone()?,
            chains: self.chains.clone()?,
        })
    }
}

impl<A: Allocator> Commits<A> {
    /// Returns some commits, whose chains these are.
    pub fn new(commits: Vec<Commit, A>, chains: Chains<A>) -> Commits<A>
        ensures same { IsPermutation commits.items result.commits }
        ensures chains { result.chains ≡ chains }
    {
        let mut commits = commits;
        commits.sort_unstable_by_key(|commit| commit.state.as_usize());
        Commits { commits, chains }
    }

    /// Returns the commit of a state, if it has one.
    #[inline]
    pub fn of(&self, sid: StateID) -> Option<Commit>
        ensures { FindsCommit self.now.commits sid result }
    {
        let number = sid.as_usize();
        match self
            .commits
            .binary_search_by_key(&number, |commit| commit.state.as_usize())
        {
            Ok(place) => Some(self.commits[place]),
            Err(_) => None,
        }
    }

    /// Returns all of them, in ascending order of their states.
    #[inline]
    pub fn all(&self) -> &[Commit]
        ensures { result.now ≡ self.now.commits }
    {
        &self.commits
    }

    /// Returns about how many bytes of memory they take, with their chains. Nothing is promised about the number.
    pub fn memory_usage(&self) -> usize {
        let commits = self.commits.len().saturating_mul(size_of::<Commit>());
        commits.saturating_add(self.chains.memory_usage())
    }

    /// Returns their chains.
    #[inline]
    pub fn chains(&self) -> &Chains<A>
        ensures { result.now ≡ self.now.chains }
    {
        &self.chains
    }
}
