//! Builds of a contiguous NFA.
ghost use Rattle.std.specs.Prelude.{◌≡◌};
ghost use Rattle.ac_util.specs.Patterns.{bytes_of};
ghost use Rattle.ac_automaton.specs.Builds.{fits};
ghost use Rattle.ac_engines.specs.Contiguous.Builds.{AnswersContiguousFrom, BuildsContiguous, contiguous_refusal, usual_contiguous_settings};

use super::NFA;
use super::format::check_words;
use super::pack::Packer;
use super::plan::Plan;
use crate::classes::classes_for;
use crate::commits::renumbered;
use ac_automaton::automaton::Automaton;
use ac_automaton::nfa::noncontiguous::{self, ANCHORED_START, START};
use ac_util::error::BuildError;
use ac_util::search::MatchKind;
use std::alloc::Allocator;
use std::marker::Model;

/// The dense depth unless another is set: states of strings shorter than this are dense.
const USUAL_DENSE_DEPTH: usize = 2;

/// The settings of a contiguous NFA, and its build. This ports `nfa::contiguous::Builder`.
///
/// Each setter returns the builder, so calls can be chained. A build changes no setting, so the builder can be used
/// again, also after an error.
///
/// ```
/// let mut builder = contiguous::Builder::new();
/// builder.match_kind(MatchKind::LeftmostFirst);
/// builder.dense_depth(3).byte_classes(false).prefilter(false);
/// let nfa = builder.build(alloc, &[b"Sam", b"Samwise"])?;
/// let found = nfa.try_find(Input::new(b"Samwise"));
/// assert_eq!(rt; found, Ok(Some(Match::must(0, 0..3))));
/// ```
#[derive(Debug, Drop)]
pub struct Builder {
    noncontiguous: noncontiguous::Builder,
    dense_depth: usize,
    byte_classes: bool,
}

impl Model for Builder {
    ghost use Rattle.ac_engines.specs.Contiguous.Builds.{ContiguousSettings};

    ghost Value = { ContiguousSettings };

    ghost view = { λ b. record {
      engine = b.noncontiguous;
      dense_depth = b.dense_depth;
      byte_classes = b.byte_classes;
    } };

    ghost inverse = { λ v. record {
      noncontiguous = v.engine;
      dense_depth = v.dense_depth;
      byte_classes = v.byte_classes;
    } };
}

impl Default for Builder {
    ghost is_default = { λ b. b ≡ usual_contiguous_settings };

    fn default() -> Builder {
        Builder::new()
    }
}

impl Builder {
    /// Returns a builder with the usual settings: `MatchKind::Standard`, the case of letters counts, states of no byte
    /// and of one byte are dense, bytes that need not be distinguished share a class, and there is a prefilter where
    /// the patterns have one. This ports `Builder::new`.
    pub fn new() -> Builder
        ensures { result ≡ usual_contiguous_settings }
    {
        Builder {
            noncontiguous: noncontiguous::Builder::new(),
            dense_depth: USUAL_DENSE_DEPTH,
            byte_classes: true,
        }
    }

    /// Returns a builder with the same settings. It takes no memory. See the example of `noncontiguous::Builder`.
    pub fn clone(&self) -> Builder
        ensures { result ≡ self.now }
    {
        Builder {
            noncontiguous: self.noncontiguous.clone(),
            ..*self
        }
    }

    /// Sets which of the occurrences in a span a search returns. Default: `MatchKind::Standard`. This ports
    /// `Builder::match_kind`.
    pub fn match_kind(&mut self, kind: MatchKind) -> &mut Builder
        ensures value { result.now ≡ record self.old { engine = record self.old.engine { kind = kind } } }
        ensures same { result.ghost_name ≡ self.entry.ghost_name }
    {
        self.noncontiguous.match_kind(kind);
        self
    }

    /// Sets whether searches ignore the case of ASCII letters, `a` to `z` and `A` to `Z`. Default: false. This
    /// ports `Builder::ascii_case_insensitive`.
    pub fn ascii_case_insensitive(&mut self, yes: bool) -> &mut Builder
        ensures value { result.now ≡ record self.old { engine = record self.old.engine { ignores_case = yes } } }
        ensures same { result.ghost_name ≡ self.entry.ghost_name }
    {
        self.noncontiguous.ascii_case_insensitive(yes);
        self
    }

    /// Sets below which depth states are dense. Default: 2. This ports `Builder::dense_depth`.
    ///
    /// The depth of a state is the length of its string in bytes. A dense state has a target for each class of bytes:
    /// it is faster, and larger. States of more than 127 transitions, the dead state and the starts are dense always.
    /// It changes no answer.
    pub fn dense_depth(&mut self, depth: usize) -> &mut Builder
        ensures value { result.now ≡ record self.old { dense_depth = depth } }
        ensures same { result.ghost_name ≡ self.entry.ghost_name }
    {
        self.dense_depth = depth;
        self
    }

    /// Sets whether bytes that need not be distinguished share a class, so that dense states are smaller.
    /// Default: true. It changes no answer. This ports `Builder::byte_classes`.
    pub fn byte_classes(&mut self, yes: bool) -> &mut Builder
        ensures value { result.now ≡ record self.old { byte_classes = yes } }
        ensures same { result.ghost_name ≡ self.entry.ghost_name }
    {
        self.byte_classes = yes;
        self
    }

    /// Sets whether searches may skip ahead with a prefilter, where there is one for the patterns. Default: true.
    /// It changes no answer. This ports `Builder::prefilter`.
    pub fn prefilter(&mut self, yes: bool) -> &mut Builder
        ensures value { result.now ≡ record self.old { engine = record self.old.engine { prefilter = yes } } }
        ensures same { result.ghost_name ≡ self.entry.ghost_name }
    {
        self.noncontiguous.prefilter(yes);
        self
    }

    /// Builds an automaton over a list of patterns. An empty list is allowed: such an automaton finds nothing. This
    /// ports `Builder::build`.
    ///
    /// # Errors
    /// `PatternIdOverflow` and `PatternTooLong` exactly where a limit is passed, whether there is memory or not. Else
    /// `StateIdOverflow` only where there are more nodes than state numbers, or more words than the greatest number of
    /// a state, and `Memory` where a request for memory is refused.
    pub fn build<A: Allocator + Clone>(
        &self,
        alloc: A,
        patterns: &[&[u8]],
    ) -> Result<NFA<A>, BuildError>
        ensures { BuildsContiguous self.now (bytes_of patterns.now) result }
    {
        let nfa = self.noncontiguous.build(alloc, patterns)?;
        let alloc = nfa.allocator().clone()?;
        self.build_from_noncontiguous(alloc, &nfa)
    }

    /// Returns whether a contiguous NFA that is built from this automaton would be within its limit. It takes no
    /// memory. See the example of `build_from_noncontiguous`.
    pub fn fits<A: Allocator>(&self, nfa: &noncontiguous::NFA<A>) -> bool
        ensures { result ≡ fits (contiguous_refusal self.now.dense_depth self.now.byte_classes nfa.now.built) }
    {
        let classes = classes_for(nfa, self.byte_classes);
        let plan = Plan::new(nfa, &classes, self.dense_depth);
        check_words(plan.all_words()).is_ok()
    }

    /// Builds an automaton that gives the same answers as a noncontiguous NFA, whose patterns it shares. Of the
    /// settings only `dense_depth` and `byte_classes` count: match kind, case and prefilter are those of the
    /// noncontiguous NFA. This ports `Builder::build_from_noncontiguous`.
    ///
    /// # Errors
    /// `StateIdOverflow` exactly where there would be more words than the greatest number of a state, whether there is
    /// memory or not; else `Memory` where a request for memory is refused.
    ///
    /// ```
    /// let nfa = noncontiguous::NFA::new(alloc, &[b"he", b"she"])?;
    /// let builder = contiguous::Builder::new();
    /// assert!(rt; builder.fits(&nfa));
    /// let nfa = builder.build_from_noncontiguous(alloc, &nfa)?;
    /// let found = nfa.try_find(Input::new(b"ushers"));
    /// assert_eq!(rt; found, Ok(Some(Match::must(1, 1..4))));
    /// ```
    pub fn build_from_noncontiguous<A: Allocator + Clone>(
        &self,
        alloc: A,
        nfa: &noncontiguous::NFA<A>,
    ) -> Result<NFA<A>, BuildError>
        ensures { AnswersContiguousFrom self.now nfa.now result }
    {
        let classes = classes_for(nfa, self.byte_classes);
        let plan = Plan::new(nfa, &classes, self.dense_depth);
        let match_end = plan.front_end();
        let numbers = match plan.numbers(&alloc, match_end) {
            Ok(numbers) => numbers,
            Err(e) => {
                // Whether there are too many words is counted without memory.
                check_words(plan.all_words())?;
                return Err(e);
            }
        };
        let len = check_words(numbers.all)?;
        let packer = Packer {
            plan: &plan,
            numbers: &numbers.list,
        };
        let words = packer.pack(alloc.clone()?, len as usize)?;
        let commits = renumbered(alloc, nfa.commits(), &numbers.list)?;
        Ok(NFA {
            common: nfa.common().clone()?,
            classes,
            dense_depth: self.dense_depth,
            words,
            commits,
            start: numbers.list[START],
            anchored_start: numbers.list[ANCHORED_START],
            match_end: match_end as usize,
        })
    }
}
