//! The transition table of a DFA: how long it is, and what fills it.
ghost use Rattle.std.specs.Prelude.{◌≡◌, ◌≤◌, ◌-◌, ◌+◌, ◌*◌, ◌^◌, IfOk, List, length};
ghost use Rattle.ac_automaton.specs.Util.{GREATEST, Node};
ghost use Rattle.ac_automaton.specs.Prelude.{AreNodes};
ghost use Rattle.ac_util.specs.declared.search.StartKind;
ghost use Rattle.ac_engines.specs.Dfa.Builds.{AnswersLen};
ghost use Rattle.ac_engines.specs.Dfa.Filling.{FillsAll, MayFill};
ghost use Rattle.ac_engines.specs.Dfa.Layouts.{table_rows};
ghost use Rattle.ac_engines.specs.Listed.{AnswersSize};

use super::DEAD;
use super::fill::Filler;
use super::layout::table_rows;
use ac_automaton::nfa::noncontiguous::NFA;
use ac_util::alphabet::ByteClasses;
use ac_util::error::BuildError;
use ac_util::primitives::StateID;
use ac_util::search::StartKind;
use std::alloc::{AllocError, Allocator};

/// Returns how many entries the table of a DFA has that is built from an automaton with these starts and classes.
///
/// # Errors
/// `StateIdOverflow` exactly where the last row would begin at a number that no state may have.
pub(super) fn len_for<A: Allocator>(
    nfa: &NFA<A>,
    start_kind: StartKind,
    classes: &ByteClasses,
) -> Result<u64, BuildError>
    ensures len { AnswersLen start_kind classes.now nfa.now result }
    ensures numbered { (nodes : List Node) × AreNodes nfa.now nodes }
{
    let rows = table_rows(start_kind, nfa.states_len()) as u64;
    table_len(rows, classes.stride2())
}

/// Returns how many entries the transition table of a DFA has with so many rows, each two to the power of `stride2`
/// long.
///
/// The number of a state is the index of the first entry of its row, so the limit is one on where the last row begins.
/// This ports the size and the limit of upstream's `Builder::build_from_noncontiguous`.
///
/// # Errors
/// `StateIdOverflow` exactly where that index is above the greatest number of a state.
///
/// ```
/// assert_eq!(rt; table_len(10, 5), Ok(320));
/// let (max, requested) = (2_147_483_646, 25_599_999_744); // where the last row would begin
/// let refused = BuildError::StateIdOverflow { max, requested };
/// assert_eq!(rt; table_len(100_000_000, 8), Err(refused));
/// ```
pub fn table_len(rows: u64, stride2: u32) -> Result<u64, BuildError>
    requires some { 1 ≤ rows }
    requires few { rows ≤ table_rows StartKind.Both (GREATEST + 1) }
    requires narrow { stride2 ≤ 8 }
    ensures { AnswersSize (rows * 2 ^ stride2) ((rows - 1) * 2 ^ stride2) result }
{
    let stride = 1 << stride2;
    let last = (rows - 1) * stride;
    if last > StateID::MAX as u64 {
        return Err(BuildError::StateIdOverflow {
            max: StateID::MAX as u64,
            requested: last,
        });
    }
    Ok(last + stride)
}

/// Returns a table of this size whose rows are filled.
pub(super) fn filled_table<A: Allocator>(
    alloc: A,
    filler: &Filler<'_, A>,
    len: usize,
) -> Result<Vec<StateID, A>, AllocError>
    requires may { (nodes : List Node) × MayFill filler.now nodes len }
    ensures long { IfOk result (λ table. length table.items ≡ len) }
    ensures filled { IfOk result (λ table. FillsAll filler.now len table.items) }
{
    let mut table = vec![in alloc; StateID::must(DEAD); len]?;
    filler.fill(&mut table);
    Ok(table)
}
