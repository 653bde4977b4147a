//! States that are read from words written by hand.
ghost use Rattle.std.specs.Prelude.{◌≢◌, []};
ghost use Rattle.ac_engines.specs.declared.nfa.contiguous.format.Format.{Format};
ghost use Rattle.ac_engines.specs.Contiguous.Words.{BeginsWith, PackedState};

use super::*;
use crate::tests::same;
use std::test::Fail;

/// A sparse state, by classes 3, 7, 9, 12 and 20 to 100, 110, 120, 130 and 140. Its failure target is 40, its match 6.
const SPARSE: [u32; 10] = [
    5, 40, 0x0C090703, 0x14141414, 100, 110, 120, 130, 140, 0x80000006,
];

/// A state with one transition, by class 9 to 100. Its failure target is 40.
const LONE: [u32; 3] = [0x09FE, 40, 100];

/// A dense state over three classes, by class 1 to 100. Its failure target is 40, its matches 6, 2 and 9.
const FULL: [u32; 9] = [0xFF, 40, 1, 100, 1, 3, 6, 2, 9];

/// A state without transitions. Its failure target is 40, its match 0.
const BARE: [u32; 3] = [0, 40, 0x80000000];

/// Returns whether a state has a failure target of 40 and these transitions in this order.
fn leads(words: &[u32], classes: usize, edges: &[(u8, u32)]) -> bool
    requires { (format : Format) × (s : PackedState) × BeginsWith words.now format classes s }
{
    let state = State::at(words, 0);
    let transitions = state
        .transitions(classes)
        .map(|edge| (edge.class, edge.target));
    transitions.eq(edges.iter().copied()) && state.fail() == 40
}

/// Returns whether a state has these matches in this order.
fn lists(words: &[u32], classes: usize, matches: &[u32]) -> bool
    requires { (format : Format) × (s : PackedState) × BeginsWith words.now format classes s × (s.matches ≢ []) }
{
    let state = State::at(words, 0);
    if state.match_len(classes) != matches.len() {
        return false;
    }
    for (index, wanted) in matches.iter().enumerate() {
        if state.match_pattern(classes, index) != *wanted {
            return false;
        }
    }
    true
}

#[test]
fn states_are_read(rt: HostRuntime) {
    let edges = [(3, 100), (7, 110), (9, 120), (12, 130), (20, 140)];
    assert!(rt; leads(&SPARSE, 131, &edges));
    assert!(rt; lists(&SPARSE, 131, &[6]));
    assert!(rt; leads(&LONE, 131, &[(9, 100)]));
    assert!(rt; leads(&FULL, 3, &[(0, FAIL), (1, 100), (2, FAIL)]));
    assert!(rt; lists(&FULL, 3, &[6, 2, 9]));
    assert!(rt; leads(&BARE, 131, &[]));
    assert!(rt; lists(&BARE, 131, &[0]));
}

/// Where a class leads nowhere, an anchored step answers the dead state, and an unanchored one goes on at the failure target.
#[test]
fn a_class_leads_to_its_target_or_to_none(rt: HostRuntime) {
    let state = State::at(&SPARSE, 0);
    let mut looks = Looks::new();
    same(&rt, state.look(20, &mut looks), Some(140));
    same(&rt, state.look(21, &mut looks), None);
    same(&rt, state.fail(), 40);
}

#[test]
fn transitions_are_shown(rt: HostRuntime) -> Result<(), Fail> {
    let shown = format!(in rt.alloc(); "{:?}", State::at(&FULL, 0).transitions(3))?;
    same(&rt, shown.as_str(), "{0: 1, 1: 100, 2: 1}");
    Ok(())
}
