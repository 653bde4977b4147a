//! Overlapping searches.
use ac_search::{AhoCorasick, Input, Match, MatchError, MatchKind, OverlappingState};
use std::test::Fail;

#[test]
fn states_move_on(rt: HostRuntime) -> Result<(), Fail> {
    let alloc = rt.alloc();
    let searcher = AhoCorasick::new(alloc, &[b"append", b"appendage", b"app"])?;
    let (input, mut state) = (Input::new(b"append"), OverlappingState::start());
    searcher.find_overlapping(input, &mut state);
    are_equal!(rt; state.get_match(), Some(Match::must(2, 0..3)));
    searcher.find_overlapping(input, &mut state);
    are_equal!(rt; state.get_match(), Some(Match::must(0, 0..6)));
    let copy = state.clone();
    searcher.find_overlapping(input, &mut state);
    are_equal!(rt; state.get_match(), None);
    are_equal!(rt; copy.get_match(), Some(Match::must(0, 0..6)));
    Ok(())
}

#[test]
fn listings_that_may_be_refused(rt: HostRuntime) -> Result<(), Fail> {
    let alloc = rt.alloc();
    let mut builder = AhoCorasick::builder();
    builder.match_kind(MatchKind::LeftmostFirst);
    let searcher = builder.build(alloc, &[b"append", b"app"])?;
    let mut state = OverlappingState::start();
    let outcome = searcher.try_find_overlapping(Input::new(b"append"), &mut state);
    let got = MatchKind::LeftmostFirst;
    are_equal!(rt; outcome, Err(MatchError::UnsupportedOverlapping { got }));
    Ok(())
}

#[test]
fn listings_that_are_supported(rt: HostRuntime) -> Result<(), Fail> {
    let alloc = rt.alloc();
    let searcher = AhoCorasick::new(alloc, &[b"append", b"app"])?;
    let mut matches = searcher.try_find_overlapping_iter(Input::new(b"append"))?;
    are_equal!(rt; matches.next(), Some(Match::must(1, 0..3)));
    are_equal!(rt; matches.next(), Some(Match::must(0, 0..6)));
    Ok(())
}

#[test]
fn listings_of_pieces(rt: HostRuntime) -> Result<(), Fail> {
    let alloc = rt.alloc();
    let searcher = AhoCorasick::new(alloc, &[b"append", b"app", b"pen"])?;
    let mut finder = searcher.try_overlapping_piece_finder()?;
    let mut piece = b"appe".as_slice();
    are_equal!(rt; finder.next(&mut piece), Some(Match::must(1, 0..3)));
    are_equal!(rt; piece, b"e".as_slice()); // it is handed over again
    are_equal!(rt; finder.next(&mut piece), None); // all of it was taken
    let mut piece = b"nd".as_slice();
    are_equal!(rt; finder.next(&mut piece), Some(Match::must(2, 2..5)));
    are_equal!(rt; finder.next(&mut piece), Some(Match::must(0, 0..6)));
    are_equal!(rt; finder.next(&mut piece), None);
    Ok(())
}
