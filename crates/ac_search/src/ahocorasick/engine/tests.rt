use super::super::{AhoCorasick, AhoCorasickBuilder};
use super::AhoCorasickKind;
use crate::tests::same_by;
use ac_util::patterns::Patterns;
use ac_util::prefilter::Prefilter;
use std::alloc::Global;
use std::test::Fail;

const KINDS: [Option<AhoCorasickKind>; 4] = [
    None,
    Some(AhoCorasickKind::NoncontiguousNFA),
    Some(AhoCorasickKind::ContiguousNFA),
    Some(AhoCorasickKind::DFA),
];

/// Patterns, and whether case is ignored.
type List = (&'static [&'static [u8]], bool);

const LISTS: [List; 4] = [
    (&[b"foo"], false),
    (&[b"foo", b"bar"], false),
    (&[b"1a", b"foo"], true),
    (&[b"", b"a"], false),
];

/// Returns how many first bytes the prefilter of a searcher's engine skips by, if there is one.
fn byte_count(searcher: &AhoCorasick) -> Option<usize> {
    match searcher.engine.common().prefilter() {
        Some(prefilter) => Some(prefilter.byte_count()),
        None => None,
    }
}

/// Returns the same of a clone of the searcher of an engine, where the setting is made or left as it is.
fn count_by(
    alloc: Global,
    kind: Option<AhoCorasickKind>,
    (patterns, ignores_case): List,
    setting: Option<bool>,
) -> Result<Option<usize>, Fail> {
    let mut builder = AhoCorasickBuilder::new();
    builder.kind(kind).ascii_case_insensitive(ignores_case);
    if let Some(prefilter) = setting {
        builder.prefilter(prefilter);
    }
    Ok(byte_count(&builder.build(alloc, patterns)?.clone()?))
}

/// Returns how many first bytes the prefilter of patterns and their case skips by, if there is one.
fn own_count(alloc: Global, (patterns, ignores_case): List) -> Result<Option<usize>, Fail> {
    let stored = Patterns::new(alloc, patterns)?;
    Ok(match &Prefilter::of(alloc, &stored, ignores_case)? {
        Some(prefilter) => Some(prefilter.byte_count()),
        None => None,
    })
}

/// Each engine has the prefilter of the patterns and their case, and none where the setting is off.
#[test]
fn engines_have_the_prefilter_that_was_set(rt: HostRuntime) -> Result<(), Fail> {
    for list in LISTS {
        let own = own_count(rt.alloc(), list)?;
        for kind in KINDS {
            for (setting, wanted) in [(None, own), (Some(true), own), (Some(false), None)] {
                same_by(
                    &rt,
                    count_by(rt.alloc(), kind, list, setting)?,
                    wanted,
                    &kind,
                );
            }
        }
    }
    Ok(())
}
