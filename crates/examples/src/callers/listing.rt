//! A caller of an overlapping search that makes one call after another.
ghost use Rattle.std.specs.Prelude.{◌≡◌, IfOk, None};
ghost use Rattle.ac_search.specs.Built.{overlapping_refusal, search_in};
ghost use Rattle.ac_search.specs.Listing.{all};
ghost use Rattle.ac_search.specs.Input.{whole_input};

use crate::checks::{same, triples_of};
use ac_search::laws::listing_goes_on;
use ac_search::{AhoCorasick, Input, Match, OverlappingState};
use std::alloc::{AllocError, Global};
use std::test::Fail;

/// Returns all occurrences in a haystack, one call after another.
fn all_by_state(
    alloc: Global,
    searcher: &AhoCorasick,
    haystack: &[u8],
) -> Result<Vec<Match>, AllocError>
    requires { overlapping_refusal searcher.now.built (whole_input haystack.now) ≡ None }
    ensures { IfOk result (λ found. found.items
        ≡ all (search_in searcher.now.built (whole_input haystack.now))) }
{
    listing_goes_on();
    let mut state = OverlappingState::start();
    let mut found = Vec::new(alloc);
    loop {
        searcher.find_overlapping(Input::new(haystack), &mut state);
        let Some(m) = state.get_match() else {
            return Ok(found);
        };
        found.push(m)?;
    }
}

#[test]
fn all_occurrences_are_listed(rt: HostRuntime) -> Result<(), Fail> {
    let searcher = AhoCorasick::new(rt.alloc(), &[b"he", b"she", b"his", b"hers"])?;
    let found = all_by_state(rt.alloc(), &searcher, b"ushers")?;
    let listed = triples_of(rt.alloc(), found.into_iter())?;
    let wanted = [(1, 1, 4), (0, 2, 4), (3, 2, 6)];
    same(&rt, listed.as_slice(), wanted.as_slice());
    let items = searcher.find_overlapping_iter(Input::new(b"ushers"));
    same(&rt, items.count(), 3);
    Ok(())
}
