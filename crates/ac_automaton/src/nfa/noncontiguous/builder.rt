//! Builds of a noncontiguous NFA.
ghost use Rattle.std.specs.Prelude.{◌≡◌};
ghost use Rattle.ac_util.specs.Patterns.{bytes_of};
ghost use Rattle.ac_automaton.specs.Builds.{BuildsNoncontiguous, usual_engine_settings};

use super::NFA;
use super::commits::commits_of;
use super::lists::TrieLists;
use super::root::root_of;
use crate::automaton::Common;
use ac_util::error::BuildError;
use ac_util::patterns::Patterns;
use ac_util::search::MatchKind;
use std::alloc::Allocator;
use std::marker::Model;

/// The settings of a noncontiguous NFA, and its build. This ports `nfa::noncontiguous::Builder`.
///
/// Each setter returns the builder, so calls can be chained. A build changes no setting, so the builder can be used
/// again, also after an error.
///
/// ```
/// let mut builder = noncontiguous::Builder::new();
/// builder.match_kind(MatchKind::LeftmostFirst);
/// builder.ascii_case_insensitive(true).prefilter(false);
/// let copy = builder.clone();
/// let nfa = copy.build(alloc, &[b"Sam", b"Samwise"])?;
/// let found = nfa.try_find(Input::new(b"SAMWISE"));
/// assert_eq!(rt; found, Ok(Some(Match::must(0, 0..3))));
/// ```
#[derive(Debug, Drop)]
pub struct Builder {
    kind: MatchKind,
    ignores_case: bool,
    prefilter: bool,
}

impl Model for Builder {
    ghost use Rattle.ac_automaton.specs.Builds.{EngineSettings};

    ghost Value = { EngineSettings };

    ghost view = { λ b. record { kind = b.kind; ignores_case = b.ignores_case; prefilter = b.prefilter } };

    ghost inverse = { λ v. record { kind = v.kind; ignores_case = v.ignores_case; prefilter = v.prefilter } };
}

impl Default for Builder {
    ghost is_default = { λ b. b ≡ usual_engine_settings };

    fn default() -> Builder {
        Builder::new()
    }
}

impl Builder {
    /// Returns a builder with the usual settings: `MatchKind::Standard`, the case of letters counts, and there is a
    /// prefilter where the patterns have one. This ports `Builder::new`.
    pub fn new() -> Builder
        ensures { result ≡ usual_engine_settings }
    {
        Builder {
            kind: MatchKind::Standard,
            ignores_case: false,
            prefilter: true,
        }
    }

    /// Returns a builder with the same settings. It takes no memory. See the example of `Builder`.
    pub fn clone(&self) -> Builder
        ensures { result ≡ self.now }
    {
        Builder { ..*self }
    }

    /// Sets which of the occurrences in a span a search returns. Default: `MatchKind::Standard`. This ports
    /// `Builder::match_kind`.
    pub fn match_kind(&mut self, kind: MatchKind) -> &mut Builder
        ensures value { result.now ≡ record self.old { kind = kind } }
        ensures same { result.ghost_name ≡ self.entry.ghost_name }
    {
        self.kind = kind;
        self
    }

    /// Sets whether searches ignore the case of ASCII letters, `a` to `z` and `A` to `Z`. Default: false. This
    /// ports `Builder::ascii_case_insensitive`.
    pub fn ascii_case_insensitive(&mut self, yes: bool) -> &mut Builder
        ensures value { result.now ≡ record self.old { ignores_case = yes } }
        ensures same { result.ghost_name ≡ self.entry.ghost_name }
    {
        self.ignores_case = yes;
        self
    }

    /// Sets whether searches may skip ahead with a prefilter, where there is one for the patterns. Default: true.
    /// It changes no answer. This ports `Builder::prefilter`.
    pub fn prefilter(&mut self, yes: bool) -> &mut Builder
        ensures value { result.now ≡ record self.old { prefilter = yes } }
        ensures same { result.ghost_name ≡ self.entry.ghost_name }
    {
        self.prefilter = yes;
        self
    }

    /// Has no effect. Upstream's builder has it, so callers of that one need no change.
    ///
    /// There it sets how deep a state may be to have a row with an entry for each byte. States of this automaton have
    /// no such rows.
    pub fn dense_depth(&mut self, depth: usize) -> &mut Builder
        ensures value { result.now ≡ self.old }
        ensures same { result.ghost_name ≡ self.entry.ghost_name }
    {
        let _ = depth;
        self
    }

    /// Builds an automaton over a list of patterns. An empty list is allowed: such an automaton finds nothing. This
    /// ports `Builder::build`.
    ///
    /// Time is linear in the bytes of the patterns but for the sort of the list, and so is memory.
    ///
    /// # Errors
    /// `PatternIdOverflow` and `PatternTooLong` exactly where a limit is passed, whether there is memory or not. Else
    /// `StateIdOverflow` only where there are more nodes than state numbers, and `Memory` where a request for memory is
    /// refused.
    pub fn build<A: Allocator + Clone>(
        &self,
        alloc: A,
        patterns: &[&[u8]],
    ) -> Result<NFA<A>, BuildError>
        ensures { BuildsNoncontiguous self.now (bytes_of patterns.now) result }
    {
        let patterns = Patterns::new(alloc, patterns)?;
        let lists = TrieLists::of(&patterns, self.kind, self.ignores_case)?;
        let root = root_of(patterns.allocator().clone()?, lists.slices())?;
        let common = Common::new(patterns, self.kind, self.ignores_case, self.prefilter)?;
        let commits = commits_of(&common, &lists)?;
        Ok(NFA {
            common,
            lists,
            root,
            commits,
        })
    }
}
