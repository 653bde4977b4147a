//! The settings of a searcher as numbers.
ghost use Rattle.std.specs.Prelude.{◌≡◌, slice_get};
ghost use Rattle.ac_c.specs.Searches.{AnswersIf};
ghost use Rattle.ac_c.specs.Settings.{engines, flags, match_kinds, names_settings, settings_by, start_kinds};

use ac_search::{AhoCorasick, AhoCorasickBuilder, AhoCorasickKind, MatchKind, StartKind};

/// The settings of a searcher, those of `AhoCorasickBuilder`.
#[repr(C)]
#[derive(Clone, Copy)]
pub struct Options {
    /// 0 for `MatchKind::Standard`, 1 for `MatchKind::LeftmostFirst`, 2 for `MatchKind::LeftmostLongest`.
    pub match_kind: u32,
    /// 0 for `StartKind::Unanchored`, 1 for `StartKind::Anchored`, 2 for `StartKind::Both`.
    pub start_kind: u32,
    /// 0 for none that is named, 1 for the noncontiguous NFA, 2 for the contiguous NFA, 3 for the DFA.
    pub engine: u32,
    /// Whether searches ignore the case of ASCII letters: 0 or 1.
    pub ignore_case: u32,
    /// Whether searches may skip ahead with a prefilter: 0 or 1.
    pub prefilter: u32,
    /// Whether bytes that need not be distinguished share a class: 0 or 1.
    pub byte_classes: u32,
    /// Below which depth the states of a contiguous NFA are dense.
    pub dense_depth: usize,
}

/// Returns the match kind of this number, if there is one.
fn match_kind_of(number: u32) -> Option<MatchKind>
    ensures { result ≡ slice_get match_kinds number }
{
    match number {
        0 => Some(MatchKind::Standard),
        1 => Some(MatchKind::LeftmostFirst),
        2 => Some(MatchKind::LeftmostLongest),
        _ => None,
    }
}

/// Returns the start kind of this number, if there is one.
fn start_kind_of(number: u32) -> Option<StartKind>
    ensures { result ≡ slice_get start_kinds number }
{
    match number {
        0 => Some(StartKind::Unanchored),
        1 => Some(StartKind::Anchored),
        2 => Some(StartKind::Both),
        _ => None,
    }
}

/// Returns the engine of this number, if there is one: at 0 none is named, so that one is chosen.
fn engine_of(number: u32) -> Option<Option<AhoCorasickKind>>
    ensures { result ≡ slice_get engines number }
{
    match number {
        0 => Some(None),
        1 => Some(Some(AhoCorasickKind::NoncontiguousNFA)),
        2 => Some(Some(AhoCorasickKind::ContiguousNFA)),
        3 => Some(Some(AhoCorasickKind::DFA)),
        _ => None,
    }
}

/// Returns the flag of this number, if there is one.
fn flag_of(number: u32) -> Option<bool>
    ensures { result ≡ slice_get flags number }
{
    match number {
        0 => Some(false),
        1 => Some(true),
        _ => None,
    }
}

impl Options {
    /// Returns a builder with these settings, or `None` where a number names none.
    pub fn builder(&self) -> Option<AhoCorasickBuilder>
        ensures { AnswersIf (names_settings self.now) (λ settings. settings) (settings_by self.now) result }
    {
        let mut builder = AhoCorasick::builder();
        builder.match_kind(match_kind_of(self.match_kind)?);
        builder.start_kind(start_kind_of(self.start_kind)?);
        builder.kind(engine_of(self.engine)?);
        builder.ascii_case_insensitive(flag_of(self.ignore_case)?);
        builder.prefilter(flag_of(self.prefilter)?);
        builder.byte_classes(flag_of(self.byte_classes)?);
        builder.dense_depth(self.dense_depth);
        Some(builder)
    }
}
