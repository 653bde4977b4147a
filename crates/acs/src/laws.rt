//! Laws of the plain values that a run answers.
ghost use Rattle.std.specs.Prelude.{◌≡◌, ◌↔◌, true};
ghost use Rattle.acs.specs.declared.fault.Fault.{Fault};
ghost use Rattle.acs.specs.declared.run.Outcome.{Outcome};

use crate::fault::Fault;
use crate::run::Outcome;

/// Faults and outcomes are equal where they are the same, and a clone of one is the same.
pub(crate) fn answers_compare()
    ensures faults { (a b : Fault) → (⟦<Fault as PartialEq>⟧.eq a b ≡ true) ↔ (a ≡ b) }
    ensures outcomes { (a b : Outcome) → (⟦<Outcome as PartialEq>⟧.eq a b ≡ true) ↔ (a ≡ b) }
    ensures fault_clones { (a b : Fault) → ⟦<Fault as Clone>⟧.is_clone a b → b ≡ a }
    ensures outcome_clones { (a b : Outcome) → ⟦<Outcome as Clone>⟧.is_clone a b → b ≡ a }
{}
