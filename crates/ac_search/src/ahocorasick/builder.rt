//! The settings of a searcher, and its build.
ghost use Rattle.std.specs.Prelude.{◌≡◌, IfOk, None};
ghost use Rattle.ac_util.specs.declared.search.StartKind;
ghost use Rattle.ac_util.specs.Patterns.{bytes_of};
ghost use Rattle.ac_search.specs.Engines.{IsMadeOrRefused};
ghost use Rattle.ac_search.specs.declared.ahocorasick.choice.AhoCorasickKind.TheVariants.{ContiguousNFA, DFA};
ghost use Rattle.ac_search.specs.Searchers.{BuildsSearcher, engine_chosen_from, usual_settings};

use super::AhoCorasick;
use super::choice::{AhoCorasickKind, choose_kind};
use super::engine::Engine;
use ac_automaton::automaton::Automaton;
use ac_automaton::nfa::noncontiguous;
use ac_engines::dfa;
use ac_engines::nfa::contiguous;
use ac_util::error::BuildError;
use ac_util::search::{MatchKind, StartKind};
use std::alloc::{AllocError, Allocator};
use std::marker::Model;
use std::sync::Arc;

/// The dense depth of a contiguous NFA unless another is set: states of strings shorter than this are dense.
const USUAL_DENSE_DEPTH: usize = 2;

/// The settings of a searcher, and its build. This ports `AhoCorasickBuilder`.
///
/// Each setter returns the builder, so calls can be chained. A build changes no setting, so the builder can be used
/// again, also after an error.
///
/// ```
/// let patterns: &[&[u8]] = &[b"bar"];
/// let mut builder = AhoCorasick::builder();
/// builder
///     .ascii_case_insensitive(true)
///     .start_kind(StartKind::Both);
/// let searcher = builder.build(alloc, patterns)?;
/// let input = Input::new(b"foo BAR");
/// assert_eq!(rt; searcher.try_find(input), Ok(Some(Match::must(0, 4..7))));
/// ```
#[derive(Debug, Drop)]
pub struct AhoCorasickBuilder {
    noncontiguous: noncontiguous::Builder,
    start_kind: StartKind,
    kind: Option<AhoCorasickKind>,
    dense_depth: usize,
    byte_classes: bool,
}

impl Model for AhoCorasickBuilder {
    ghost use Rattle.ac_search.specs.Searchers.{Settings};

    ghost Value = { Settings };

    ghost view = { λ b. record {
      engine = b.noncontiguous;
      start_kind = b.start_kind;
      kind = b.kind;
      dense_depth = b.dense_depth;
      byte_classes = b.byte_classes;
    } };

    ghost inverse = { λ v. record {
      noncontiguous = v.engine;
      start_kind = v.start_kind;
      kind = v.kind;
      dense_depth = v.dense_depth;
      byte_classes = v.byte_classes;
    } };
}

impl Default for AhoCorasickBuilder {
    ghost is_default = { λ b. b ≡ usual_settings };

    fn default() -> AhoCorasickBuilder {
        AhoCorasickBuilder::new()
    }
}

impl AhoCorasickBuilder {
    /// Returns a builder with the usual settings: `MatchKind::Standard`, unanchored searches only, the case of letters
    /// counts, the engine is chosen, states of a contiguous NFA are dense below depth 2, bytes that need not be
    /// distinguished share a class, and there is a prefilter where the patterns have one. This ports
    /// `AhoCorasickBuilder::new`. See the example of `kind`.
    pub fn new() -> AhoCorasickBuilder
        ensures { result ≡ usual_settings }
    {
        AhoCorasickBuilder {
            noncontiguous: noncontiguous::Builder::new(),
            start_kind: StartKind::Unanchored,
            kind: None,
            dense_depth: USUAL_DENSE_DEPTH,
            byte_classes: true,
        }
    }

    /// Returns a builder with the same settings. It takes no memory. See the example of `kind`.
    pub fn clone(&self) -> AhoCorasickBuilder
        ensures { result ≡ self.now }
    {
        AhoCorasickBuilder {
            noncontiguous: self.noncontiguous.clone(),
            ..*self
        }
    }

    /// Sets which of the occurrences in a span a search returns. Default: `MatchKind::Standard`.
    ///
    /// Overlapping searches need `MatchKind::Standard`; all other searches serve every match kind. This ports
    /// `AhoCorasickBuilder::match_kind`.
    ///
    /// ```
    /// let patterns: &[&[u8]] = &[b"Sam", b"Samwise"];
    /// let mut builder = AhoCorasick::builder();
    /// let standard = builder.build(alloc, patterns)?;
    /// builder.match_kind(MatchKind::LeftmostLongest);
    /// let longest = builder.build(alloc, patterns)?;
    /// let input = Input::new(b"Samwise");
    /// assert_eq!(rt; standard.try_find(input), Ok(Some(Match::must(0, 0..3))));
    /// assert_eq!(rt; longest.try_find(input), Ok(Some(Match::must(1, 0..7))));
    /// ```
    pub fn match_kind(&mut self, kind: MatchKind) -> &mut AhoCorasickBuilder
        ensures value { result.now ≡ record self.old { engine = record self.old.engine { kind = kind } } }
        ensures same { result.ghost_name ≡ self.entry.ghost_name }
    {
        self.noncontiguous.match_kind(kind);
        self
    }

    /// Sets which searches the searcher supports: unanchored ones, anchored ones or both. Default:
    /// `StartKind::Unanchored`.
    ///
    /// Any other search is refused, also where the engine could serve it. With `StartKind::Both` no DFA is chosen, and
    /// one that is named takes about twice the memory. This ports `AhoCorasickBuilder::start_kind`.
    ///
    /// ```
    /// let mut builder = AhoCorasickBuilder::new();
    /// builder.start_kind(StartKind::Anchored);
    /// let searcher = builder.build(alloc, &[b"b", b"abc"])?;
    /// let input = Input::new(b"abcd");
    /// let refused = searcher.try_find(input);
    /// assert_eq!(rt; refused, Err(MatchError::InvalidInputUnanchored));
    /// let found = searcher.try_find(input.anchored(Anchored::Yes));
    /// assert_eq!(rt; found, Ok(Some(Match::must(1, 0..3))));
    /// ```
    pub fn start_kind(&mut self, kind: StartKind) -> &mut AhoCorasickBuilder
        ensures value { result.now ≡ record self.old { start_kind = kind } }
        ensures same { result.ghost_name ≡ self.entry.ghost_name }
    {
        self.start_kind = kind;
        self
    }

    /// Sets whether searches ignore the case of ASCII letters, `a` to `z` and `A` to `Z`. Default: false.
    ///
    /// Letters beyond ASCII always differ by case. This ports `AhoCorasickBuilder::ascii_case_insensitive`.
    ///
    /// ```
    /// let patterns: &[&[u8]] = &[b"bar"];
    /// let mut builder = AhoCorasick::builder();
    /// builder
    ///     .ascii_case_insensitive(true)
    ///     .start_kind(StartKind::Both);
    /// let searcher = builder.build(alloc, patterns)?;
    /// let input = Input::new(b"foo BAR");
    /// assert_eq!(rt; searcher.try_find(input), Ok(Some(Match::must(0, 4..7))));
    /// ```
    pub fn ascii_case_insensitive(&mut self, yes: bool) -> &mut AhoCorasickBuilder
        ensures value { result.now ≡ record self.old { engine = record self.old.engine { ignores_case = yes } } }
        ensures same { result.ghost_name ≡ self.entry.ghost_name }
    {
        self.noncontiguous.ascii_case_insensitive(yes);
        self
    }

    /// Names the engine, or with `None` lets `choose_kind` choose it. Default: `None`.
    ///
    /// It changes no answer. A named engine serves or the build is refused: `StateIdOverflow` where it would be too
    /// large. Without a name another engine serves then. This ports `AhoCorasickBuilder::kind`.
    ///
    /// ```
    /// let mut builder = AhoCorasickBuilder::new();
    /// builder.kind(Some(AhoCorasickKind::ContiguousNFA));
    /// builder.dense_depth(0).byte_classes(false).prefilter(false);
    /// let copy = builder.clone();
    /// let searcher = copy.build(alloc, &[b"foo", b"bar"])?;
    /// assert_eq!(rt; searcher.kind(), AhoCorasickKind::ContiguousNFA);
    /// let found = searcher.try_find(Input::new(b"xx bar"));
    /// assert_eq!(rt; found, Ok(Some(Match::must(1, 3..6)))); // as with any engine
    /// ```
    pub fn kind(&mut self, kind: Option<AhoCorasickKind>) -> &mut AhoCorasickBuilder
        ensures value { result.now ≡ record self.old { kind = kind } }
        ensures same { result.ghost_name ≡ self.entry.ghost_name }
    {
        self.kind = kind;
        self
    }

    /// Sets below which depth the states of a contiguous NFA are dense. Default: 2. The other engines have no use for
    /// it.
    ///
    /// The depth of a state is the length of its string in bytes. A dense state has a target for each class of bytes.
    /// States of more than 127 transitions, the dead state and the starts are dense always.
    ///
    /// It changes no answer of a search. Where no engine was named, a contiguous NFA may be too large with more dense
    /// states, and then the noncontiguous one serves. This ports `AhoCorasickBuilder::dense_depth`. See the example of
    /// `kind`.
    pub fn dense_depth(&mut self, depth: usize) -> &mut AhoCorasickBuilder
        ensures value { result.now ≡ record self.old { dense_depth = depth } }
        ensures same { result.ghost_name ≡ self.entry.ghost_name }
    {
        self.dense_depth = depth;
        self
    }

    /// Sets whether bytes that need not be distinguished share a class, so that a DFA or a contiguous NFA takes less
    /// memory. Default: true.
    ///
    /// It changes no answer of a search. Where no engine was named, an engine may be too large without classes, and
    /// then another one serves. This ports `AhoCorasickBuilder::byte_classes`. See the example of `kind`.
    pub fn byte_classes(&mut self, yes: bool) -> &mut AhoCorasickBuilder
        ensures value { result.now ≡ record self.old { byte_classes = yes } }
        ensures same { result.ghost_name ≡ self.entry.ghost_name }
    {
        self.byte_classes = yes;
        self
    }

    /// Sets whether searches may skip ahead with a prefilter, where there is one for the patterns. Default: true.
    ///
    /// It changes no answer. This ports `AhoCorasickBuilder::prefilter`. See the example of `kind`.
    pub fn prefilter(&mut self, yes: bool) -> &mut AhoCorasickBuilder
        ensures value { result.now ≡ record self.old { engine = record self.old.engine { prefilter = yes } } }
        ensures same { result.ghost_name ≡ self.entry.ghost_name }
    {
        self.noncontiguous.prefilter(yes);
        self
    }

    /// Builds a searcher over a list of patterns. An empty list is allowed: such a searcher finds nothing. This ports
    /// `AhoCorasickBuilder::build`.
    ///
    /// The number of a pattern is its index in the list. Where no engine was named `choose_kind` names it: the DFA for
    /// at most 100 patterns and a start kind other than `Both`, else the contiguous NFA, else the noncontiguous one;
    /// each of the first two unless it would be too large.
    ///
    /// # Errors
    /// `PatternIdOverflow` and `PatternTooLong` exactly where a limit is passed, whether there is memory or not. Else
    /// `StateIdOverflow` only where the noncontiguous NFA would need more states than there are numbers, or where
    /// another engine was named that would be too large, and `Memory` where a request for memory is refused.
    ///
    /// See the example of `AhoCorasickBuilder`.
    pub fn build<A: Allocator + Clone>(
        &self,
        alloc: A,
        patterns: &[&[u8]],
    ) -> Result<AhoCorasick<A>, BuildError>
        ensures { BuildsSearcher self.now (bytes_of patterns.now) result }
    {
        let nfa = self.noncontiguous.build(alloc, patterns)?;
        let kind = self.kind_over(&nfa);
        let engine = self.engine_over(kind, nfa)?;
        Ok(AhoCorasick::new_by(engine, self.start_kind))
    }

    /// Returns the engine that was named, or else the one that is chosen, for a searcher built from this noncontiguous
    /// NFA.
    fn kind_over<A: Allocator>(&self, nfa: &noncontiguous::NFA<A>) -> AhoCorasickKind
        ensures { result ≡ engine_chosen_from self.now nfa.now.built }
    {
        if let Some(kind) = self.kind {
            return kind;
        }
        let dfa_fits = self.dfa().fits(nfa);
        let contiguous_fits = self.contiguous().fits(nfa);
        choose_kind(
            nfa.patterns_len(),
            self.start_kind,
            dfa_fits,
            contiguous_fits,
        )
    }

    /// Returns the engine of this kind, built from a noncontiguous NFA.
    fn engine_over<A: Allocator + Clone>(
        &self,
        kind: AhoCorasickKind,
        nfa: noncontiguous::NFA<A>,
    ) -> Result<Engine<A>, BuildError>
        requires both { nfa.built.start_kind ≡ StartKind.Both }
        ensures { IsMadeOrRefused nfa self.now kind result }
    {
        match kind {
            AhoCorasickKind::NoncontiguousNFA => {
                let alloc = nfa.allocator().clone()?;
                Ok(Engine::Noncontiguous(shared_in(alloc, nfa)?))
            }
            AhoCorasickKind::ContiguousNFA => self.contiguous_over(&nfa),
            AhoCorasickKind::DFA => self.dfa_over(&nfa),
        }
    }

    /// Returns the contiguous NFA that is built from a noncontiguous one.
    fn contiguous_over<A: Allocator + Clone>(
        &self,
        nfa: &noncontiguous::NFA<A>,
    ) -> Result<Engine<A>, BuildError>
        requires both { nfa.now.built.start_kind ≡ StartKind.Both }
        ensures { IsMadeOrRefused nfa.now self.now ContiguousNFA result }
    {
        let alloc = nfa.allocator();
        let engine = self
            .contiguous()
            .build_from_noncontiguous(alloc.clone()?, nfa)?;
        Ok(Engine::Contiguous(shared(alloc, engine)?))
    }

    /// Returns the DFA that is built from a noncontiguous NFA.
    fn dfa_over<A: Allocator + Clone>(
        &self,
        nfa: &noncontiguous::NFA<A>,
    ) -> Result<Engine<A>, BuildError>
        requires both { nfa.now.built.start_kind ≡ StartKind.Both }
        ensures { IsMadeOrRefused nfa.now self.now DFA result }
    {
        let alloc = nfa.allocator();
        let engine = self.dfa().build_from_noncontiguous(alloc.clone()?, nfa)?;
        Ok(Engine::Dfa(shared(alloc, engine)?))
    }

    /// Returns the builder of a contiguous NFA with this builder's dense depth and byte classes.
    fn contiguous(&self) -> contiguous::Builder
        ensures dense_depth { result.dense_depth ≡ self.now.dense_depth }
        ensures byte_classes { result.byte_classes ≡ self.now.byte_classes }
    {
        let mut contiguous = contiguous::Builder::new();
        contiguous.dense_depth(self.dense_depth);
        contiguous.byte_classes(self.byte_classes);
        contiguous
    }

    /// Returns the builder of a DFA with this builder's start kind and byte classes.
    fn dfa(&self) -> dfa::Builder
        ensures start_kind { result.start_kind ≡ self.now.start_kind }
        ensures byte_classes { result.byte_classes ≡ self.now.byte_classes }
    {
        let mut dfa = dfa::Builder::new();
        dfa.start_kind(self.start_kind);
        dfa.byte_classes(self.byte_classes);
        dfa
    }
}

/// Returns a value that can be shared, in memory of a clone of this allocator.
///
/// # Errors
/// `AllocError` where a request for memory is refused.
fn shared<T: Drop, A: Allocator + Clone>(alloc: &A, value: T) -> Result<Arc<T, A>, AllocError>
    ensures { IfOk result (λ shared. shared.value ≡ value) }
{
    shared_in(alloc.clone()?, value)
}

/// Returns a value that can be shared, in memory of this allocator.
///
/// # Errors
/// `AllocError` where a request for memory is refused.
fn shared_in<T: Drop, A: Allocator>(alloc: A, value: T) -> Result<Arc<T, A>, AllocError>
    ensures { IfOk result (λ shared. shared.value ≡ value) }
{
    Ok(Arc::new(alloc, value)?)
}
