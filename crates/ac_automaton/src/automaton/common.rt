//! What every engine has, whatever its states are.
ghost use Rattle.std.specs.Prelude.{◌≡◌, IfSome, MatchResult, option_map};
ghost use Rattle.ac_util.specs.declared.error.BuildError.TheVariants.{Memory};
ghost use Rattle.ac_automaton.specs.Util.{IsSkipFor, longest_len, shortest_len, skip_for, skip_of};

use super::lengths::{longest_of, shortest_of};
use ac_util::error::BuildError;
use ac_util::patterns::Patterns;
use ac_util::prefilter::Prefilter;
use ac_util::search::MatchKind;
use std::alloc::{AllocError, Allocator, Global};
use std::marker::Model;
use std::sync::Arc;

/// What every engine has: the patterns, which engines that are built from one another share, the match kind, the case
/// setting, the lengths of the shortest and the longest pattern, and the prefilter.
#[derive(Drop)]
pub struct Common<A: Allocator = Global> {
    patterns: Arc<Patterns<A>, A>,
    kind: MatchKind,
    ignores_case: bool,
    shortest: usize,
    longest: usize,
    /// Whether to have a prefilter, where there is one for the patterns.
    wants_prefilter: bool,
    prefilter: Option<Prefilter<A>>,
}

impl<A: Allocator> Model for Common<A> {
    ghost use Rattle.std.specs.Prelude.{◌≡◌, IfSome, option_map};
    ghost use Rattle.ac_automaton.specs.Util.{IsSkipFor, longest_len, shortest_len, skip_for, skip_of};
    ghost use Rattle.ac_automaton.specs.Automata.{CommonView};

    ghost Value = { CommonView };

    ghost view = { λ c. record {
      patterns = c.patterns.value;
      ignores_case = c.ignores_case;
      kind = c.kind;
      wants_prefilter = c.wants_prefilter;
    } };

    ghost invariant = { λ c. record {
      shortest : c.shortest ≡ shortest_len c.patterns.value;
      longest : c.longest ≡ longest_len c.patterns.value;
      skips : option_map skip_of c.prefilter ≡ skip_for c.wants_prefilter c.ignores_case c.patterns.value;
      serves : IfSome c.prefilter (λ p. IsSkipFor (skip_of p) c.ignores_case c.patterns.value);
    } };
}

impl<A: Allocator + Clone> Clone for Common<A> {
    ghost is_clone = { λ s t. t ≡ s };

    /// Returns a copy, which shares the patterns.
    ///
    /// # Errors
    /// `AllocError` where a request for memory is refused.
    fn clone(&self) -> Result<Common<A>, AllocError> {
        Ok(Common {
            patterns: self.patterns.clone()?,
            kind: self.kind,
            ignores_case: self.ignores_case,
            shortest: self.shortest,
            longest: self.longest,
            wants_prefilter: self.wants_prefilter,
            prefilter: self.prefilter.clone()?,
        })
    }
}

impl<A: Allocator + Clone> Common<A> {
    /// Returns what an engine over these patterns has.
    ///
    /// # Errors
    /// `Memory` where a request for memory is refused.
    pub(crate) fn new(
        patterns: Patterns<A>,
        kind: MatchKind,
        ignores_case: bool,
        wants_prefilter: bool,
    ) -> Result<Common<A>, BuildError>
        ensures { MatchResult result
            (λ common. common ≡ record { patterns = patterns; ignores_case = ignores_case; kind = kind; wants_prefilter = wants_prefilter })
            (λ e. e ≡ Memory) }
    {
        let prefilter = if wants_prefilter {
            Prefilter::of(patterns.allocator().clone()?, &patterns, ignores_case)?
        } else {
            None
        };
        let alloc = patterns.allocator().clone()?;
        Ok(Common {
            shortest: shortest_of(&patterns),
            longest: longest_of(&patterns),
            patterns: Arc::new(alloc, patterns)?,
            kind,
            ignores_case,
            wants_prefilter,
            prefilter,
        })
    }
}

impl<A: Allocator> Common<A> {
    /// Returns the patterns.
    #[inline]
    pub fn patterns(&self) -> &Arc<Patterns<A>, A>
        ensures { result.now.value ≡ self.now.patterns }
    {
        &self.patterns
    }

    /// Returns the match kind, which decides which of the occurrences in a span a search returns.
    #[inline]
    pub fn match_kind(&self) -> MatchKind
        ensures { result ≡ self.now.kind }
    {
        self.kind
    }

    /// Returns whether the case of ASCII letters is ignored.
    #[inline]
    pub fn fold(&self) -> bool
        ensures { result ≡ self.now.ignores_case }
    {
        self.ignores_case
    }

    /// Returns whether to have a prefilter, where there is one for the patterns.
    #[inline]
    pub fn wants_prefilter(&self) -> bool
        ensures { result ≡ self.now.wants_prefilter }
    {
        self.wants_prefilter
    }

    /// Returns the length of the shortest pattern in bytes, or `usize::MAX` if there are no patterns.
    #[inline]
    pub fn min_pattern_len(&self) -> usize
        ensures { result ≡ shortest_len self.now.patterns }
    {
        self.shortest
    }

    /// Returns the length of the longest pattern in bytes, or 0 if there are no patterns.
    #[inline]
    pub fn max_pattern_len(&self) -> usize
        ensures { result ≡ longest_len self.now.patterns }
    {
        self.longest
    }

    /// Returns the prefilter, if there is to be one and there is one for the patterns.
    #[inline]
    pub fn prefilter(&self) -> Option<&Prefilter<A>>
        ensures skips { option_map (λ p. skip_of p.now) result
            ≡ skip_for self.now.wants_prefilter self.now.ignores_case self.now.patterns }
        ensures serves { IfSome result
            (λ p. IsSkipFor (skip_of p.now) self.now.ignores_case self.now.patterns) }
    {
        self.prefilter.as_ref()
    }
}
