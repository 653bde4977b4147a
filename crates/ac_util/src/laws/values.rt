//! Of the plain types: how values compare, are hashed and are cloned, and what classes of bytes are.
ghost use Rattle.std.specs.Prelude.{◌≡◌, ℕ, ◌^◌, ◌≤◌, ◌++◌, ◌↔◌, Bool, List, true, ◌<◌};
ghost use Rattle.std.specs.Hash as fed;
ghost use Rattle.std.specs.Ordering.{nat_cmp};
ghost use Rattle.ac_util.specs.declared.error.BuildError.{BuildError};
ghost use Rattle.ac_util.specs.declared.error.MatchError.{MatchError};
ghost use Rattle.ac_util.specs.declared.error.ReplaceError.{ReplaceError};
ghost use Rattle.ac_util.specs.declared.prefilter.Candidate.{Candidate};
ghost use Rattle.ac_util.specs.declared.primitives.TheConstants.{GREATEST};
ghost use Rattle.ac_util.specs.declared.primitives.TooLarge.{TooLarge};
ghost use Rattle.ac_util.specs.declared.search.Anchored.{Anchored};
ghost use Rattle.ac_util.specs.declared.search.MatchKind.{MatchKind};
ghost use Rattle.ac_util.specs.declared.search.MatchKind.TheVariants.{Standard};
ghost use Rattle.ac_util.specs.declared.search.Span.{Span};
ghost use Rattle.ac_util.specs.declared.search.input.Input.{Input as AnInput};
ghost use Rattle.ac_util.specs.declared.search.StartKind.{StartKind};
ghost use Rattle.ac_util.specs.declared.search.StartKind.TheVariants.{Unanchored};
ghost use Rattle.ac_util.specs.Classes.{AreClasses, alphabet_len, class_of, classes_of, singletons, stride, stride2, class_at};
ghost use Rattle.ac_util.specs.Input.{input_of};
ghost use Rattle.ac_util.specs.Laws.{AlwaysSetsApart, HashesEqually, IsAlwaysLawful, IsLawfulAsRead, OnlyPatternsLead};
ghost use Rattle.ac_util.specs.Occurrence.{Occurrence};

use crate::error::{BuildError, MatchError, ReplaceError};
use crate::prefilter::Candidate;
use crate::primitives::{PatternID, SmallIndex, StateID, TooLarge};
use crate::search::{Anchored, Input, Match, MatchKind, Span, StartKind};
use std::hash::Hash;

/// The numbers of patterns and of states are equal, and are in order, as numbers are.
pub fn numbers_compare_as_numbers()
    ensures patterns { (a b : ℕ) → (⟦<PatternID as PartialEq>⟧.eq a b ≡ true) ↔ (a ≡ b) }
    ensures patterns_order { (a b : ℕ) → ⟦<PatternID as Ord>⟧.cmp a b ≡ nat_cmp a b }
    ensures states { (a b : ℕ) → (⟦<StateID as PartialEq>⟧.eq a b ≡ true) ↔ (a ≡ b) }
    ensures states_order { (a b : ℕ) → ⟦<StateID as Ord>⟧.cmp a b ≡ nat_cmp a b }
    ensures plain { (a b : ℕ) → (⟦<SmallIndex as PartialEq>⟧.eq a b ≡ true) ↔ (a ≡ b) }
    ensures plain_order { (a b : ℕ) → ⟦<SmallIndex as Ord>⟧.cmp a b ≡ nat_cmp a b }
{}

/// A clone of a plain value is that value.
pub fn clones_are_equal()
    ensures patterns { (a b : ℕ) → ⟦<PatternID as Clone>⟧.is_clone a b → b ≡ a }
    ensures states { (a b : ℕ) → ⟦<StateID as Clone>⟧.is_clone a b → b ≡ a }
    ensures plain { (a b : ℕ) → ⟦<SmallIndex as Clone>⟧.is_clone a b → b ≡ a }
    ensures matches { (a b : Occurrence) → ⟦<Match as Clone>⟧.is_clone a b → b ≡ a }
    ensures spans { (a b : Span) → ⟦<Span as Clone>⟧.is_clone a b → b ≡ a }
    ensures inputs { (a b : AnInput) → ⟦<Input<'static> as Clone>⟧.is_clone a b → input_of b ≡ input_of a }
    ensures kinds { (a b : MatchKind) → ⟦<MatchKind as Clone>⟧.is_clone a b → b ≡ a }
    ensures starts { (a b : StartKind) → ⟦<StartKind as Clone>⟧.is_clone a b → b ≡ a }
    ensures anchorings { (a b : Anchored) → ⟦<Anchored as Clone>⟧.is_clone a b → b ≡ a }
    ensures candidates { (a b : Candidate) → ⟦<Candidate as Clone>⟧.is_clone a b → b ≡ a }
    ensures builds { (a b : BuildError) → ⟦<BuildError as Clone>⟧.is_clone a b → b ≡ a }
    ensures searches { (a b : MatchError) → ⟦<MatchError as Clone>⟧.is_clone a b → b ≡ a }
    ensures replacements { (a b : ReplaceError) → ⟦<ReplaceError as Clone>⟧.is_clone a b → b ≡ a }
    ensures numbers { (a b : TooLarge) → ⟦<TooLarge as Clone>⟧.is_clone a b → b ≡ a }
{}

/// A plain value can be cloned whether there is memory or not.
pub fn clones_take_no_memory()
    ensures patterns { (a : ℕ) → ⟦<PatternID as Clone>⟧.is_infallible a }
    ensures states { (a : ℕ) → ⟦<StateID as Clone>⟧.is_infallible a }
    ensures plain { (a : ℕ) → ⟦<SmallIndex as Clone>⟧.is_infallible a }
    ensures matches { (a : Occurrence) → ⟦<Match as Clone>⟧.is_infallible a }
    ensures spans { (a : Span) → ⟦<Span as Clone>⟧.is_infallible a }
    ensures inputs { (a : AnInput) → ⟦<Input<'static> as Clone>⟧.is_infallible a }
    ensures kinds { (a : MatchKind) → ⟦<MatchKind as Clone>⟧.is_infallible a }
    ensures starts { (a : StartKind) → ⟦<StartKind as Clone>⟧.is_infallible a }
    ensures anchorings { (a : Anchored) → ⟦<Anchored as Clone>⟧.is_infallible a }
    ensures candidates { (a : Candidate) → ⟦<Candidate as Clone>⟧.is_infallible a }
    ensures builds { (a : BuildError) → ⟦<BuildError as Clone>⟧.is_infallible a }
    ensures searches { (a : MatchError) → ⟦<MatchError as Clone>⟧.is_infallible a }
    ensures replacements { (a : ReplaceError) → ⟦<ReplaceError as Clone>⟧.is_infallible a }
    ensures numbers { (a : TooLarge) → ⟦<TooLarge as Clone>⟧.is_infallible a }
{}

/// What a search is asked, what it answers, and what a prefilter returns are equal where all of their parts are.
pub fn values_compare_by_their_fields()
    ensures matches { (a b : Occurrence)
        → (⟦<Match as PartialEq>⟧.eq a b ≡ true) ↔ (a ≡ b) }
    ensures spans { (a b : Span) → (⟦<Span as PartialEq>⟧.eq a b ≡ true) ↔ (a ≡ b) }
    ensures kinds { (a b : MatchKind) → (⟦<MatchKind as PartialEq>⟧.eq a b ≡ true) ↔ (a ≡ b) }
    ensures starts { (a b : StartKind) → (⟦<StartKind as PartialEq>⟧.eq a b ≡ true) ↔ (a ≡ b) }
    ensures anchorings { (a b : Anchored)
        → (⟦<Anchored as PartialEq>⟧.eq a b ≡ true) ↔ (a ≡ b) }
    ensures candidates { (a b : Candidate)
        → (⟦<Candidate as PartialEq>⟧.eq a b ≡ true) ↔ (a ≡ b) }
{}

/// Errors are equal where they are of one case, with the same numbers in it.
pub fn errors_compare_by_their_fields()
    ensures builds { (a b : BuildError)
        → (⟦<BuildError as PartialEq>⟧.eq a b ≡ true) ↔ (a ≡ b) }
    ensures searches { (a b : MatchError)
        → (⟦<MatchError as PartialEq>⟧.eq a b ≡ true) ↔ (a ≡ b) }
    ensures replacements { (a b : ReplaceError)
        → (⟦<ReplaceError as PartialEq>⟧.eq a b ≡ true) ↔ (a ≡ b) }
    ensures numbers { (a b : TooLarge) → (⟦<TooLarge as PartialEq>⟧.eq a b ≡ true) ↔ (a ≡ b) }
{}

/// A hasher is handed the number of a pattern or a state, the two ends of a span, and all three of a match.
pub fn values_hash_by_their_fields()
    ensures patterns { (n : ℕ) → ⟦<PatternID as Hash>⟧.hash_input n ≡ fed.u32 n }
    ensures states { (n : ℕ) → ⟦<StateID as Hash>⟧.hash_input n ≡ fed.u32 n }
    ensures plain { (n : ℕ) → ⟦<SmallIndex as Hash>⟧.hash_input n ≡ fed.u32 n }
    ensures spans { (s : Span)
        → ⟦<Span as Hash>⟧.hash_input s ≡ fed.usize s.start ++ fed.usize s.end }
    ensures matches { (m : Occurrence) → ⟦<Match as Hash>⟧.hash_input m
        ≡ (fed.u32 m.pattern ++ fed.usize m.start ++ fed.usize m.end) }
{}

/// Values that compare as equal hand a hasher the same.
pub fn equal_values_hash_equally()
    ensures patterns { HashesEqually ⟦<PatternID as PartialEq>⟧.eq ⟦<PatternID as Hash>⟧.hash_input }
    ensures states { HashesEqually ⟦<StateID as PartialEq>⟧.eq ⟦<StateID as Hash>⟧.hash_input }
    ensures plain { HashesEqually ⟦<SmallIndex as PartialEq>⟧.eq ⟦<SmallIndex as Hash>⟧.hash_input }
    ensures spans { HashesEqually ⟦<Span as PartialEq>⟧.eq ⟦<Span as Hash>⟧.hash_input }
    ensures matches { HashesEqually ⟦<Match as PartialEq>⟧.eq ⟦<Match as Hash>⟧.hash_input }
{}

/// By default a number is 0, the match kind is `Standard`, and unanchored searches alone are served.
pub fn defaults_are_stated()
    ensures patterns { (n : ℕ) → ⟦<PatternID as Default>⟧.is_default n → n ≡ 0 }
    ensures states { (n : ℕ) → ⟦<StateID as Default>⟧.is_default n → n ≡ 0 }
    ensures plain { (n : ℕ) → ⟦<SmallIndex as Default>⟧.is_default n → n ≡ 0 }
    ensures kinds { (kind : MatchKind) → ⟦<MatchKind as Default>⟧.is_default kind → kind ≡ Standard }
    ensures starts { (start : StartKind) → ⟦<StartKind as Default>⟧.is_default start → start ≡ Unanchored }
{}

/// The greatest number of a pattern or a state is 2,147,483,646.
pub fn greatest_number_is_stated()
    ensures { GREATEST ≡ 2147483646 }
{}

/// An automaton may step by the classes of its patterns' bytes, or by each byte as a class of its own. The last
/// two say it of the classes as they are read from their list.
pub fn classes_are_lawful()
    ensures of_patterns { IsAlwaysLawful class_of }
    ensures singletons { IsAlwaysLawful (λ _ _ b. b) }
    ensures of_patterns_read { IsLawfulAsRead classes_of }
    ensures singletons_read { IsLawfulAsRead (λ _ _. singletons) }
{}

/// Each byte of a pattern has a class of its own, and only such a byte leads on from a node.
pub fn classes_set_apart()
    ensures of_patterns { AlwaysSetsApart classes_of }
    ensures singletons { AlwaysSetsApart (λ _ _. singletons) }
    ensures nodes { (ignores_case : Bool) (kind : MatchKind) → OnlyPatternsLead ignores_case kind }
{}

/// A stride has room for each class, and no lesser power of two has.
#[tactic(auto, using(crate::proofs::LawSets::strides_have_room))]
pub fn strides_have_room()
    ensures of_patterns { (ignores_case : Bool) (patterns : List (List ℕ))
        → AreClasses (classes_of ignores_case patterns) }
    ensures singletons { AreClasses singletons }
    ensures below { (classes : List ℕ) → AreClasses classes → (b : ℕ) → b < 256
        → class_at classes b < (alphabet_len classes) }
    ensures enough { (classes : List ℕ) → AreClasses classes → alphabet_len classes ≤ stride classes }
    ensures least { (classes : List ℕ) (k : ℕ) → alphabet_len classes ≤ 2 ^ k → stride2 classes ≤ k }
{}
