//! The step from state to state along failure links.
ghost use Rattle.ac_automaton.specs.Automata.{step_of};
ghost use Rattle.ac_engines.specs.Contiguous.{ContiguousView, ForStep, IsContiguousState, LooksBy};
ghost use Rattle.std.specs.Prelude.{ℕ, ◌≡◌, ◌<◌};
ghost use Rattle.ac_automaton.specs.Util.{Node, class_at};

use super::state::State;
use ac_automaton::nfa::noncontiguous::DEAD;
use ac_util::looks::Looks;
use ac_util::primitives::StateID;
use ac_util::search::Anchored;

/// Returns where a class leads from a state, and counts a look at each state on the way.
///
/// An unanchored search goes on along the failure targets as long as there is no transition by the class. Each
/// target is a shorter string, so n bytes take at most 2n looks.
#[inline]
pub(super) fn follow(
    words: &[u32],
    class: u8,
    anchored: Anchored,
    from: StateID,
    looks: &mut Looks,
) -> StateID
    requires state { (p : ContiguousView) × (b : ℕ) × (u : Node) × (p.words ≡ words.now) × (b < 256)
        × (class ≡ class_at p.classes b) × IsContiguousState p anchored from u }
    ensures steps { ForStep words.now class anchored from
        (λ p b u. IsContiguousState p anchored result (step_of p.built anchored u b)) }
    ensures looks { LooksBy words.now class anchored from looks.old looks.new }
{
    let mut at = from.as_usize();
    loop {
        let state = State::at(words, at);
        if let Some(next) = state.look(class, looks) {
            return StateID::must(next as usize);
        }
        if anchored.is_anchored() {
            return StateID::must(DEAD);
        }
        at = state.fail() as usize;
    }
}
