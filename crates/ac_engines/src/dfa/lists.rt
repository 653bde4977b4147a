//! The match lists of the rows of a DFA, one after another.
ghost use Rattle.std.specs.Prelude.{◌≡◌, [], IfOk, ◌++◌};
ghost use Rattle.ac_automaton.specs.declared.nfa.noncontiguous.state.TheConstants.{START};
ghost use Rattle.ac_engines.specs.Dfa.Layouts.{first_lists, row_lists};
ghost use Rattle.ac_engines.specs.Listed.{HasNode};
ghost use Rattle.ac_automaton.specs.Prelude.{ForNode, AreNodes};

use crate::matches::list_matches;
use ac_automaton::nfa::noncontiguous::{NFA, START};
use ac_util::patterns::pieces::Pieces;
use ac_util::primitives::{PatternID, StateID};
use ac_util::search::{Anchored, StartKind};
use std::alloc::{AllocError, Allocator};

/// Returns the lists of the first four rows: that of the dead state, that of no state, and those of the starts. What
/// is in `matches` is replaced.
///
/// # Errors
/// `AllocError` where a request for memory is refused.
pub(super) fn first_lists<A: Allocator + Clone>(
    alloc: A,
    matches: &mut Vec<PatternID, A>,
    nfa: &NFA<A>,
    start_kind: StartKind,
) -> Result<Pieces<PatternID, A>, AllocError>
    requires state { HasNode nfa.now START }
    ensures { IfOk result (λ lists. lists ≡ first_lists start_kind nfa.now.built) }
{
    let mut lists = Pieces::new(alloc)?;
    lists.push(&[])?;
    lists.push(&[])?;
    add_rows(&mut lists, matches, nfa, StateID::must(START), start_kind)?;
    match start_kind {
        StartKind::Both => {}
        StartKind::Unanchored | StartKind::Anchored => lists.push(&[])?,
    }
    Ok(lists)
}

/// Adds the lists of a state's rows in a DFA with these starts: that of unanchored searches, that of anchored ones, or
/// the one and then the other. What is in `matches` is replaced.
///
/// # Errors
/// `AllocError` where a request for memory is refused.
pub(super) fn add_rows<A: Allocator>(
    lists: &mut Pieces<PatternID, A>,
    matches: &mut Vec<PatternID, A>,
    nfa: &NFA<A>,
    sid: StateID,
    start_kind: StartKind,
) -> Result<(), AllocError>
    requires state { HasNode nfa.now sid }
    ensures { ForNode (AreNodes nfa.now) sid
        (λ nodes u. IfOk result (λ done. lists.new ≡ lists.old ++ row_lists start_kind nfa.now.built u)) }
{
    if start_kind != StartKind::Anchored {
        list_matches(nfa, sid, Anchored::No, matches)?;
        lists.push(matches)?;
    }
    if start_kind != StartKind::Unanchored {
        list_matches(nfa, sid, Anchored::Yes, matches)?;
        lists.push(matches)?;
    }
    Ok(())
}
