//! A caller that keeps an overlapping search in a struct of its own.
use crate::checks::{same, triple_of};
use ac_search::{AhoCorasick, Input, Match, OverlappingState};
use std::marker::Model;
use std::test::Fail;

/// An overlapping search, and how far it has come.
#[derive(Drop)]
struct Occurrences<'s, 'h> {
    searcher: &'s AhoCorasick,
    input: Input<'h>,
    state: OverlappingState,
}

impl<'s, 'h> Model for Occurrences<'s, 'h> {
    ghost use Rattle.std.specs.Prelude.{◌≡◌, None};
    ghost use Rattle.ac_search.specs.Built.{overlapping_refusal};
    ghost use Rattle.ac_search.specs.Input.{input_of};
    ghost use Rattle.ac_search.specs.Searchers.{HasPlace};

    ghost Value = { Unit {0} };

    ghost view = { λ _. tt };

    ghost invariant = { λ o. record {
      supported : overlapping_refusal o.searcher.now.built (input_of o.input) ≡ None;
      placed : HasPlace o.searcher.now (input_of o.input) o.state;
    } };
}

impl<'s, 'h> Occurrences<'s, 'h> {
    /// Returns the next occurrence, or none where there are no more.
    fn next(&mut self) -> Option<Match> {
        self.searcher.find_overlapping(self.input, &mut self.state);
        self.state.get_match()
    }
}

#[test]
fn a_caller_keeps_an_overlapping_search(rt: HostRuntime) -> Result<(), Fail> {
    let searcher = AhoCorasick::new(rt.alloc(), &[b"append", b"appendage", b"app"])?;
    let mut occurrences = Occurrences {
        searcher: &searcher,
        input: Input::new(b"appendage"),
        state: OverlappingState::start(),
    };
    for wanted in [(2, 0, 3), (0, 0, 6), (1, 0, 9)] {
        same(
            &rt,
            occurrences.next().as_ref().map(triple_of),
            Some(wanted),
        );
    }
    same(&rt, occurrences.next().is_none(), true);
    Ok(())
}
