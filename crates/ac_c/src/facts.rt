//! What a searcher is.
ghost use Rattle.std.specs.Prelude.{◌≡◌, Some, slice_get};
ghost use Rattle.ac_c.specs.Settings.{IsFactsOf, engines, match_kinds, start_kinds};

use crate::reader::Reader;
use ac_search::{AhoCorasickKind, MatchKind, StartKind};

/// What a searcher is. The numbers are those of `Options`.
#[repr(C)]
#[derive(Clone, Copy)]
pub struct Facts {
    /// How many patterns it has.
    pub patterns: usize,
    /// The length of the shortest pattern, `usize::MAX` without patterns.
    pub shortest: usize,
    /// The length of the longest pattern, 0 without patterns.
    pub longest: usize,
    /// About how many bytes of memory it takes. Nothing is promised about this.
    pub memory: usize,
    /// The number of the engine that serves it.
    pub engine: u32,
    /// The number of its match kind.
    pub match_kind: u32,
    /// The number of its start kind.
    pub start_kind: u32,
}

/// Writes what a searcher is to `out`.
#[unsafe(no_mangle)]
pub extern "C" fn ac_raw_facts(reader: &mut Reader, out: &mut Facts)
    ensures facts { IsFactsOf reader.old.held.searcher out.new }
    ensures reader { reader.new ≡ reader.old }
{
    let searcher = &reader.get().searcher;
    *out = Facts {
        patterns: searcher.patterns_len(),
        shortest: searcher.min_pattern_len(),
        longest: searcher.max_pattern_len(),
        memory: searcher.memory_usage(),
        engine: engine_number(searcher.kind()),
        match_kind: match_number(searcher.match_kind()),
        start_kind: start_number(searcher.start_kind()),
    };
}

/// Returns the number of an engine.
fn engine_number(engine: AhoCorasickKind) -> u32
    ensures { slice_get engines result ≡ Some (Some engine) }
{
    match engine {
        AhoCorasickKind::NoncontiguousNFA => 1,
        AhoCorasickKind::ContiguousNFA => 2,
        AhoCorasickKind::DFA => 3,
    }
}

/// Returns the number of a match kind.
fn match_number(kind: MatchKind) -> u32
    ensures { slice_get match_kinds result ≡ Some kind }
{
    match kind {
        MatchKind::Standard => 0,
        MatchKind::LeftmostFirst => 1,
        MatchKind::LeftmostLongest => 2,
    }
}

/// Returns the number of a start kind.
fn start_number(kind: StartKind) -> u32
    ensures { slice_get start_kinds result ≡ Some kind }
{
    match kind {
        StartKind::Unanchored => 0,
        StartKind::Anchored => 1,
        StartKind::Both => 2,
    }
}
