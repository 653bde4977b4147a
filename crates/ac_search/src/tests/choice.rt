//! Which engine is chosen.
use super::engines::EACH;
use super::{same, same_by};
use crate::AhoCorasickKind::{ContiguousNFA, DFA, NoncontiguousNFA};
use crate::StartKind::{Both, Unanchored};
use crate::{AhoCorasickBuilder, AhoCorasickKind, StartKind, choose_kind};
use std::test::Fail;

/// A number of patterns, a start kind, the engine that is named, and the one that serves.
type Choice = (usize, StartKind, Option<AhoCorasickKind>, AhoCorasickKind);

const CHOICES: [Choice; 9] = [
    (0, StartKind::Anchored, None, DFA),
    (100, Unanchored, None, DFA),
    (101, Unanchored, None, ContiguousNFA),
    (1, Both, None, ContiguousNFA),
    (101, Both, Some(DFA), DFA),
    (1, Unanchored, Some(DFA), DFA),
    (1, Unanchored, Some(ContiguousNFA), ContiguousNFA),
    (1, Unanchored, Some(NoncontiguousNFA), NoncontiguousNFA),
    (0, Both, Some(NoncontiguousNFA), NoncontiguousNFA),
];

#[test]
fn an_engine_is_chosen(rt: HostRuntime) -> Result<(), Fail> {
    for (count, start_kind, named, wanted) in CHOICES {
        let patterns: Vec<&[u8]> = (0..count).map(|_| b"ab".as_slice()).collect(rt.alloc())?;
        for &kind in EACH {
            let mut builder = AhoCorasickBuilder::new();
            builder.start_kind(start_kind).kind(named).match_kind(kind);
            let searcher = builder.build(rt.alloc(), &patterns)?;
            let chosen = (searcher.kind(), searcher.patterns_len());
            same_by(&rt, chosen, (wanted, count), &(start_kind, named));
            same(&rt, searcher.clone()?.kind(), wanted);
        }
    }
    Ok(())
}

/// A number of patterns, a start kind, and whether a DFA and a contiguous NFA fit, with the engine.
type Fitting = (usize, StartKind, bool, bool, AhoCorasickKind);

const FITTINGS: [Fitting; 6] = [
    (100, Unanchored, true, true, DFA),
    (0, StartKind::Anchored, true, true, DFA),
    (100, StartKind::Anchored, false, true, ContiguousNFA),
    (100, StartKind::Anchored, false, false, NoncontiguousNFA),
    (101, Unanchored, true, true, ContiguousNFA),
    (1, Both, true, true, ContiguousNFA),
];

#[test]
fn what_fits_is_chosen(rt: HostRuntime) {
    for (patterns_len, start_kind, dfa_fits, contiguous_fits, wanted) in FITTINGS {
        let kind = choose_kind(patterns_len, start_kind, dfa_fits, contiguous_fits);
        same_by(&rt, kind, wanted, &(patterns_len, start_kind));
    }
}
