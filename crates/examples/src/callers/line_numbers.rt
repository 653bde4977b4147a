//! A caller that counts lines up to each match.
ghost use Rattle.std.specs.Prelude.{◌≡◌, ◌==◌, IfOk, None, count_by, map};
ghost use Rattle.ac_search.specs.Built.{find_refusal, walk_result};
ghost use Rattle.ac_search.specs.Input.{whole_input};
ghost use Rattle.examples.specs.Callers.{line_at};

use crate::checks::same;
use ac_search::laws::matches_stand_in_order;
use ac_search::{AhoCorasick, Input};
use std::alloc::{AllocError, Global};
use std::test::Fail;

/// Returns how many line feeds some bytes have.
fn feeds_in(bytes: &[u8]) -> usize
    ensures { result ≡ count_by (λ b. b == 10) bytes.now }
{
    bytes.iter().filter(|byte| **byte == b'\n').count()
}

/// Returns the number of the line in which each match starts, from 0: how many line feeds stand before it. No byte is
/// counted twice.
fn line_numbers(
    alloc: Global,
    searcher: &AhoCorasick,
    haystack: &[u8],
) -> Result<Vec<usize>, AllocError>
    requires { find_refusal searcher.now.built (whole_input haystack.now) ≡ None }
    ensures { IfOk result (λ numbers. numbers.items
        ≡ map (λ m. line_at haystack.now m.start) (walk_result searcher.now.built (whole_input haystack.now))) }
{
    let input = Input::new(haystack);
    matches_stand_in_order(searcher, input);
    let mut numbers = Vec::new(alloc);
    let (mut line, mut counted) = (0, 0);
    for m in searcher.find_iter(input) {
        line += feeds_in(&haystack[counted..m.start()]);
        counted = m.start();
        numbers.push(line)?;
    }
    Ok(numbers)
}

#[test]
fn lines_of_matches_are_numbered(rt: HostRuntime) -> Result<(), Fail> {
    let searcher = AhoCorasick::new(rt.alloc(), &[b"error", b"slow\n"])?;
    let log = b"start\nerror, error\n\nslow\nerror";
    let numbers = line_numbers(rt.alloc(), &searcher, log)?;
    same(&rt, numbers.as_slice(), [1, 1, 3, 4].as_slice());
    Ok(())
}
