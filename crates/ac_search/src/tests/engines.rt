//! The engines with their settings.
use crate::AhoCorasickKind::{ContiguousNFA, DFA, NoncontiguousNFA};
use crate::MatchKind::{LeftmostFirst, LeftmostLongest, Standard};
use crate::{AhoCorasickBuilder, AhoCorasickKind, MatchKind, StartKind};
use std::alloc::{AllocError, Global};

/// How a searcher is served: the engine, or None to let it choose, the dense depth, whether bytes share classes, and
/// whether there may be a prefilter.
#[derive(Clone, Copy)]
pub(super) struct Engine {
    kind: Option<AhoCorasickKind>,
    dense_depth: usize,
    byte_classes: bool,
    prefilter: bool,
}

/// Returns the usual settings of an engine.
pub(super) fn usual(kind: Option<AhoCorasickKind>) -> Engine {
    Engine {
        kind,
        dense_depth: 2,
        byte_classes: true,
        prefilter: true,
    }
}

/// The engines, and that one is chosen.
pub(super) const KINDS: [Option<AhoCorasickKind>; 4] = [
    None,
    Some(NoncontiguousNFA),
    Some(ContiguousNFA),
    Some(DFA),
];

/// Whether bytes share classes, and whether there may be a prefilter.
const CLASSES_AND_PREFILTERS: [(bool, bool); 4] = [
    (true, true),
    (true, false),
    (false, true),
    (false, false),
];

/// Engines, and a dense depth of each.
type Depths = &'static [(Option<AhoCorasickKind>, usize)];

/// Each engine with dense depths: the contiguous NFA with those up to 6, one that a byte doesn't count, and the greatest, the one
/// that is chosen with some of these, and the others, on which they have no effect, with the least and the greatest.
pub(super) const ALL: Depths = &[
    (None, 0),
    (None, 2),
    (None, usize::MAX),
    (Some(ContiguousNFA), 0),
    (Some(ContiguousNFA), 1),
    (Some(ContiguousNFA), 2),
    (Some(ContiguousNFA), 3),
    (Some(ContiguousNFA), 4),
    (Some(ContiguousNFA), 5),
    (Some(ContiguousNFA), 6),
    (Some(ContiguousNFA), 300),
    (Some(ContiguousNFA), usize::MAX),
    (Some(NoncontiguousNFA), 0),
    (Some(NoncontiguousNFA), usize::MAX),
    (Some(DFA), 0),
    (Some(DFA), usize::MAX),
];

/// Fewer of them, for searches that take long.
pub(super) const FEWER: Depths = &[
    (None, 0),
    (Some(ContiguousNFA), 0),
    (Some(ContiguousNFA), 1),
    (Some(ContiguousNFA), 2),
    (Some(ContiguousNFA), 6),
    (Some(NoncontiguousNFA), 0),
    (Some(DFA), 0),
];

/// Returns engines with these dense depths, with classes and without, and with a prefilter and without.
pub(super) fn engines(alloc: Global, depths: Depths) -> Result<Vec<Engine>, AllocError> {
    let mut engines = Vec::new(alloc);
    for &(kind, dense_depth) in depths {
        for (byte_classes, prefilter) in CLASSES_AND_PREFILTERS {
            engines.push(Engine {
                kind,
                dense_depth,
                byte_classes,
                prefilter,
            })?;
        }
    }
    Ok(engines)
}

pub(super) const EACH: &[MatchKind] = &[Standard, LeftmostFirst, LeftmostLongest];

/// Returns a builder that takes this engine.
pub(super) fn builder_of(
    engine: &Engine,
    kind: MatchKind,
    start_kind: StartKind,
) -> AhoCorasickBuilder {
    let mut builder = AhoCorasickBuilder::new();
    builder.kind(engine.kind).byte_classes(engine.byte_classes);
    builder
        .dense_depth(engine.dense_depth)
        .prefilter(engine.prefilter);
    builder.match_kind(kind).start_kind(start_kind);
    builder
}
