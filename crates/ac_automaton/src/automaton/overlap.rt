//! Overlapping searches whose state the caller holds.
ghost use Rattle.std.specs.Prelude.{◌≡◌};
ghost use Rattle.ac_automaton.specs.Util.{input_of};
ghost use Rattle.ac_automaton.specs.Answers.{FindsNext, IsPlacedIn};
ghost use Rattle.ac_automaton.specs.Overlaps.{StartsListing, fresh};

use super::Automaton;
use super::listing::Reached;
use super::scan::Scanner;
use super::skip::SkipBudget;
use ac_util::error::MatchError;
use ac_util::looks::open;
use ac_util::primitives::StateID;
use ac_util::search::{Anchored, Input, Match, MatchKind};

/// How far an overlapping search has come in the listing of its input, and what its last call found. This ports
/// `automaton::OverlappingState`.
///
/// It belongs to one automaton, or searcher, and to one input: each call of an overlapping search over these moves it
/// on.
///
/// ```
/// let searcher = AhoCorasick::new(alloc, &[b"append", b"appendage", b"app"])?;
/// let (input, mut state) = (Input::new(b"append"), OverlappingState::start());
/// searcher.find_overlapping(input, &mut state);
/// assert_eq!(rt; state.get_match(), Some(Match::must(2, 0..3)));
/// searcher.find_overlapping(input, &mut state);
/// assert_eq!(rt; state.get_match(), Some(Match::must(0, 0..6)));
/// let copy = state.clone();
/// searcher.find_overlapping(input, &mut state);
/// assert_eq!(rt; state.get_match(), None);
/// assert_eq!(rt; copy.get_match(), Some(Match::must(0, 0..6)));
/// ```
#[derive(Debug, Drop)]
pub struct OverlappingState {
    found: Option<Match>,
    /// None before the first call, and where the span starts past its end.
    reached: Option<Reached>,
}

impl OverlappingState {
    /// Returns a state with which a search starts, at the beginning of any listing. This ports
    /// `OverlappingState::start`.
    pub fn start() -> OverlappingState
        ensures { result ≡ fresh }
    {
        OverlappingState {
            found: None,
            reached: None,
        }
    }

    /// Returns the match that the last call found, or `None` if it found none or there was no call. This ports
    /// `OverlappingState::get_match`.
    #[inline]
    pub fn get_match(&self) -> Option<Match>
        ensures { result ≡ self.now.found }
    {
        self.found
    }

    /// Returns a state that has come as far. See the example of `OverlappingState`.
    pub fn clone(&self) -> OverlappingState
        ensures { result ≡ self.now }
    {
        OverlappingState {
            found: self.found,
            reached: self.reached,
        }
    }
}

/// Returns what `Automaton::try_find_overlapping` does.
#[inline]
pub(super) fn try_find_overlapping<A: Automaton>(
    automaton: &A,
    input: Input<'_>,
    state: &mut OverlappingState,
) -> Result<(), MatchError>
    requires placed { IsPlacedIn (A.seen automaton.now) (input_of input) state.old }
    ensures { FindsNext (A.seen automaton.now) (input_of input.entry) state.old result state.new }
{
    let anchored = input.get_anchored();
    let start = start_of(automaton, anchored)?;
    if input.is_done() {
        state.found = None;
        return Ok(());
    }
    let scanner = Scanner {
        automaton,
        anchored,
        stops: true,
        span: input.get_span(),
    };
    let mut reached = match state.reached {
        Some(reached) => reached,
        None => Reached::new(start, input.start()),
    };
    let (mut tape, mut looks) = open(&input);
    let found = scanner.next_item(
        scanner.listing_skips_to(),
        &mut reached,
        &mut SkipBudget::new(),
        &mut tape,
        &mut looks,
    );
    *state = OverlappingState {
        found,
        reached: Some(reached),
    };
    Ok(())
}

/// Returns the state at which an overlapping search begins.
///
/// # Errors
/// `InvalidInputAnchored` or `InvalidInputUnanchored` where the automaton has no such start, else
/// `UnsupportedOverlapping` where its match kind isn't `MatchKind::Standard`.
#[inline]
pub(super) fn start_of<A: Automaton>(
    automaton: &A,
    anchored: Anchored,
) -> Result<StateID, MatchError>
    ensures { StartsListing (A.seen automaton.now) anchored result }
{
    let start = automaton.start_state(anchored)?;
    match automaton.match_kind() {
        MatchKind::Standard => Ok(start),
        got => Err(MatchError::UnsupportedOverlapping { got }),
    }
}
