//! Searches for all matches of many patterns at once.
//!
//! `AhoCorasick` is the searcher. Everything that contracts here cite has a name in this crate, so a user lists no
//! other crate. Definitions are in `specs/`, and types with their cases in `specs.declared`, as
//! `Rattle.ac_search.specs.declared.MatchKind.TheVariants`. A function that is handed a searcher cites them:
//!
//! ```
//! ghost use Rattle.ac_search.specs.Built.{find_refusal, find_result};
//! ghost use Rattle.ac_search.specs.Input.{whole_input};
//! ```
//!
//! Its clauses say that the searcher supports the search, and what is found:
//!
//! ```
//! fn first(searcher: &AhoCorasick, haystack: &[u8]) -> Option<Match>
//!     requires { find_refusal searcher.now.built (whole_input haystack.now) ≡ None }
//!     ensures { result ≡ find_result searcher.now.built (whole_input haystack.now) }
//! {
//!     searcher.find(Input::new(haystack))
//! }
//! ```
#![tactic(auto)]

pub mod ahocorasick;
pub mod laws;
pub mod nfa;
mod texts;

pub use ac_automaton::automaton;
pub use ac_automaton::automaton::{
    Automaton, Finder, MatchRest, OverlappingState, Phase, find_core,
};
pub use ac_engines::dfa;
pub use ac_util::alphabet::ByteClasses;
pub use ac_util::device::{
    Bytes, FromRead, IntoWrite, Misses, Sink, Source, WriteError, Written, write_all,
};
pub use ac_util::error::{BuildError, MatchError, ReplaceError, StreamError};
pub use ac_util::looks::{Looks, Tape, open};
pub use ac_util::patterns::{Patterns, check_limits};
pub use ac_util::plain;
pub use ac_util::prefilter::{Candidate, FirstBytes, Needle, Prefilter};
pub use ac_util::primitives::{
    GREATEST, OfPattern, OfState, PatternID, Plain, SmallIndex, StateID, TooLarge,
};
pub use ac_util::search::{Anchored, Input, Match, MatchKind, Span, StartKind};
pub use ac_util::tally::Tally;
pub use ahocorasick::{
    AhoCorasick, AhoCorasickBuilder, AhoCorasickKind, FindIter, FindOverlappingIter,
    OverlappingPieceFinder, PieceFinder, PieceReplacer, StreamFindIter, StreamFinder, choose_kind,
};
pub use texts::patterns_of;

#[cfg(test)]
mod tests;
