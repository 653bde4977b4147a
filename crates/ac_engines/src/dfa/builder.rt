//! Builds of a DFA.
ghost use Rattle.std.specs.Prelude.{◌≡◌, ◌≤◌, ◌^◌};
ghost use Rattle.ac_automaton.specs.Util.{bytes_of};
ghost use Rattle.ac_automaton.specs.Builds.{fits};
ghost use Rattle.ac_engines.specs.Dfa.Builds.{AnswersDfaFrom, BuildsDfa, dfa_refusal, usual_dfa_settings};
ghost use Rattle.ac_engines.specs.Dfa.{start_number};

use super::fill::Filler;
use super::layout::Layout;
use super::table::{filled_table, len_for};
use super::{DEAD, DFA};
use crate::classes::classes_for;
use crate::commits::renumbered;
use ac_automaton::automaton::Automaton;
use ac_automaton::nfa::noncontiguous::{self, NFA};
use ac_util::error::BuildError;
use ac_util::primitives::StateID;
use ac_util::search::{Anchored, MatchKind, StartKind};
use std::alloc::Allocator;
use std::marker::Model;

/// The settings of a DFA, and its build. This ports `dfa::Builder`.
///
/// Each setter returns the builder, so calls can be chained. A build changes no setting, so the builder can be used
/// again, also after an error.
///
/// ```
/// let mut builder = dfa::Builder::new();
/// builder.match_kind(MatchKind::LeftmostFirst);
/// builder.start_kind(StartKind::Both).byte_classes(false);
/// let dfa = builder.build(alloc, &[b"Sam", b"Samwise"])?;
/// let input = Input::new(b"Samwise").anchored(Anchored::Yes);
/// assert_eq!(rt; dfa.try_find(input), Ok(Some(Match::must(0, 0..3))));
/// ```
#[derive(Debug, Drop)]
pub struct Builder {
    noncontiguous: noncontiguous::Builder,
    start_kind: StartKind,
    byte_classes: bool,
}

impl Model for Builder {
    ghost use Rattle.ac_engines.specs.Dfa.Builds.{DfaSettings};

    ghost Value = { DfaSettings };

    ghost view = { λ b. record {
      engine = b.noncontiguous;
      start_kind = b.start_kind;
      byte_classes = b.byte_classes;
    } };

    ghost inverse = { λ v. record {
      noncontiguous = v.engine;
      start_kind = v.start_kind;
      byte_classes = v.byte_classes;
    } };
}

impl Default for Builder {
    ghost is_default = { λ b. b ≡ usual_dfa_settings };

    fn default() -> Builder {
        Builder::new()
    }
}

impl Builder {
    /// Returns a builder with the usual settings: `MatchKind::Standard`, the case of letters counts, unanchored
    /// searches only, bytes that need not be distinguished share a class, and there is a prefilter where the patterns
    /// have one. This ports `Builder::new`.
    pub fn new() -> Builder
        ensures { result ≡ usual_dfa_settings }
    {
        Builder {
            noncontiguous: noncontiguous::Builder::new(),
            start_kind: StartKind::Unanchored,
            byte_classes: true,
        }
    }

    /// Returns a builder with the same settings. It takes no memory. See the example of `noncontiguous::Builder`.
    pub fn clone(&self) -> Builder
        ensures { result ≡ self.now }
    {
        Builder {
            noncontiguous: self.noncontiguous.clone(),
            ..*self
        }
    }

    /// Sets which of the occurrences in a span a search returns. Default: `MatchKind::Standard`. This ports
    /// `Builder::match_kind`.
    pub fn match_kind(&mut self, kind: MatchKind) -> &mut Builder
        ensures value { result.now ≡ record self.old { engine = record self.old.engine { kind = kind } } }
        ensures same { result.ghost_name ≡ self.entry.ghost_name }
    {
        self.noncontiguous.match_kind(kind);
        self
    }

    /// Sets whether searches ignore the case of ASCII letters, `a` to `z` and `A` to `Z`. Default: false. This
    /// ports `Builder::ascii_case_insensitive`.
    pub fn ascii_case_insensitive(&mut self, yes: bool) -> &mut Builder
        ensures value { result.now ≡ record self.old { engine = record self.old.engine { ignores_case = yes } } }
        ensures same { result.ghost_name ≡ self.entry.ghost_name }
    {
        self.noncontiguous.ascii_case_insensitive(yes);
        self
    }

    /// Sets which searches the automaton serves: unanchored ones, anchored ones or both. `StartKind::Unanchored` unless
    /// set. This ports `Builder::start_kind`.
    ///
    /// With `StartKind::Both` the transition table has two rows for each state, and so takes about twice the memory.
    pub fn start_kind(&mut self, kind: StartKind) -> &mut Builder
        ensures value { result.now ≡ record self.old { start_kind = kind } }
        ensures same { result.ghost_name ≡ self.entry.ghost_name }
    {
        self.start_kind = kind;
        self
    }

    /// Sets whether bytes that need not be distinguished share a class, so that rows are shorter. Default: true.
    /// It changes no answer. This ports `Builder::byte_classes`.
    pub fn byte_classes(&mut self, yes: bool) -> &mut Builder
        ensures value { result.now ≡ record self.old { byte_classes = yes } }
        ensures same { result.ghost_name ≡ self.entry.ghost_name }
    {
        self.byte_classes = yes;
        self
    }

    /// Sets whether searches may skip ahead with a prefilter, where there is one for the patterns. Default: true.
    /// It changes no answer. This ports `Builder::prefilter`.
    pub fn prefilter(&mut self, yes: bool) -> &mut Builder
        ensures value { result.now ≡ record self.old { engine = record self.old.engine { prefilter = yes } } }
        ensures same { result.ghost_name ≡ self.entry.ghost_name }
    {
        self.noncontiguous.prefilter(yes);
        self
    }

    /// Builds an automaton over a list of patterns. An empty list is allowed: such an automaton finds nothing. This
    /// ports `Builder::build`.
    ///
    /// # Errors
    /// `PatternIdOverflow` and `PatternTooLong` exactly where a limit is passed, whether there is memory or not. Else
    /// `StateIdOverflow` only where there are more nodes than state numbers, or where the last row of the transition
    /// table would begin at a number that no state may have, and `Memory` where a request for memory is refused.
    pub fn build<A: Allocator + Clone>(
        &self,
        alloc: A,
        patterns: &[&[u8]],
    ) -> Result<DFA<A>, BuildError>
        ensures { BuildsDfa self.now (bytes_of patterns.now) result }
    {
        let nfa = self.noncontiguous.build(alloc, patterns)?;
        let alloc = nfa.allocator().clone()?;
        self.build_from_noncontiguous(alloc, &nfa)
    }

    /// Returns whether a DFA that is built from this automaton would be within its limit. It takes no memory.
    /// See the example of `build_from_noncontiguous`.
    pub fn fits<A: Allocator>(&self, nfa: &NFA<A>) -> bool
        ensures { result ≡ fits (dfa_refusal self.now.start_kind self.now.byte_classes nfa.now.built) }
    {
        let classes = classes_for(nfa, self.byte_classes);
        len_for(nfa, self.start_kind, &classes).is_ok()
    }

    /// Builds an automaton that gives the same answers as a noncontiguous NFA, whose patterns it shares. Of the
    /// settings only the start kind and the byte classes count: match kind, case and prefilter are those of the
    /// noncontiguous NFA. This ports `Builder::build_from_noncontiguous`.
    ///
    /// # Errors
    /// `StateIdOverflow` exactly where the last row of the transition table would begin at a number that no state may
    /// have, whether there is memory or not; else `Memory` where a request for memory is refused.
    ///
    /// ```
    /// let nfa = noncontiguous::NFA::new(alloc, &[b"he", b"she"])?;
    /// let builder = dfa::Builder::new();
    /// assert!(rt; builder.fits(&nfa));
    /// let dfa = builder.build_from_noncontiguous(alloc, &nfa)?;
    /// let found = dfa.try_find(Input::new(b"ushers"));
    /// assert_eq!(rt; found, Ok(Some(Match::must(1, 1..4))));
    /// ```
    pub fn build_from_noncontiguous<A: Allocator + Clone>(
        &self,
        alloc: A,
        nfa: &NFA<A>,
    ) -> Result<DFA<A>, BuildError>
        ensures { AnswersDfaFrom self.now nfa.now result }
    {
        let classes = classes_for(nfa, self.byte_classes);
        let len = len_for(nfa, self.start_kind, &classes)?;
        let stride2 = classes.stride2();
        let layout = Layout::of(alloc.clone()?, nfa, self.start_kind, stride2)?;
        let filler = Filler {
            nfa,
            classes: &classes,
            start_kind: self.start_kind,
            stride: classes.stride(),
            numbers: &layout.numbers,
        };
        let table = filled_table(alloc.clone()?, &filler, len as usize)?;
        let commits = renumbered(alloc, nfa.commits(), &layout.numbers)?;
        Ok(DFA {
            common: nfa.common().clone()?,
            start_kind: self.start_kind,
            classes,
            stride2,
            table,
            lists: layout.lists,
            commits,
            start: start_of(self.start_kind, Anchored::No, stride2),
            anchored_start: start_of(self.start_kind, Anchored::Yes, stride2),
            first_match: layout.first_match,
            match_end: layout.match_end,
        })
    }
}

/// Returns the state at which a search with this anchoring begins, or the dead one where there is none.
fn start_of(start_kind: StartKind, anchored: Anchored, stride2: u32) -> StateID
    requires narrow { stride2 ≤ 8 }
    ensures { result ≡ start_number start_kind anchored (2 ^ stride2) }
{
    let row = match (start_kind, anchored) {
        (StartKind::Both, Anchored::Yes) => 3,
        (StartKind::Both | StartKind::Unanchored, Anchored::No) => 2,
        (StartKind::Anchored, Anchored::Yes) => 2,
        _ => return StateID::must(DEAD),
    };
    StateID::must(row << stride2)
}
