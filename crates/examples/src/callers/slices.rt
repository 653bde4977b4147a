//! Callers that slice a haystack at matches, or take a list at their patterns.
ghost use Rattle.std.specs.Prelude.{◌≡◌, Contains, IfSome, None, false, length};
ghost use Rattle.ac_search.specs.Built.{find_refusal, walk_result};
ghost use Rattle.ac_search.specs.Input.{whole_input};

use crate::checks::same;
use ac_search::laws::{answers_are_their_patterns, answers_lie_inside};
use ac_search::{AhoCorasick, Input};
use std::alloc::{AllocError, Global};
use std::test::Fail;

/// Returns the slice at which the first match stands.
fn first_slice<'t>(searcher: &AhoCorasick, haystack: &'t [u8]) -> Option<&'t [u8]>
    requires { find_refusal searcher.now.built (whole_input haystack.now) ≡ None }
{
    answers_lie_inside(searcher, Input::new(haystack));
    let m = searcher.find(Input::new(haystack))?;
    Some(&haystack[m.range()])
}

/// Returns the slice at which the first match stands, where case counts: it is a pattern.
fn first_pattern<'t>(searcher: &AhoCorasick, haystack: &'t [u8]) -> Option<&'t [u8]>
    requires supported { find_refusal searcher.now.built (whole_input haystack.now) ≡ None }
    requires case { searcher.now.built.ignores_case ≡ false }
    ensures { IfSome result (λ slice. Contains searcher.now.built.patterns slice.now) }
{
    answers_lie_inside(searcher, Input::new(haystack));
    answers_are_their_patterns(searcher, Input::new(haystack));
    let m = searcher.find(Input::new(haystack))?;
    Some(&haystack[m.range()])
}

/// Returns the name that belongs to the pattern of each match, and the slice at which the match stands.
fn names_and_slices_of<'n, 't>(
    alloc: Global,
    searcher: &AhoCorasick,
    names: &[&'n str],
    haystack: &'t [u8],
) -> Result<Vec<(&'n str, &'t [u8])>, AllocError>
    requires supported { find_refusal searcher.now.built (whole_input haystack.now) ≡ None }
    requires named { length names.now ≡ length searcher.now.built.patterns }
{
    let input = Input::new(haystack);
    let mut found = Vec::new(alloc);
    answers_lie_inside(searcher, input);
    for m in searcher.find_iter(input) {
        found.push((names[m.pattern().as_usize()], &haystack[m.range()]))?;
    }
    Ok(found)
}

/// Returns how many matches the walk has.
fn count_of(searcher: &AhoCorasick, haystack: &[u8]) -> usize
    requires { find_refusal searcher.now.built (whole_input haystack.now) ≡ None }
    ensures { result ≡ length (walk_result searcher.now.built (whole_input haystack.now)) }
{
    answers_lie_inside(searcher, Input::new(haystack));
    searcher.find_iter(Input::new(haystack)).count()
}

#[test]
fn matches_can_be_used_as_indices(rt: HostRuntime) -> Result<(), Fail> {
    let searcher = AhoCorasick::new(rt.alloc(), &[b"apple", b"maple", b"Snapple"])?;
    let haystack = b"Nobody likes maple in their apple flavored Snapple.";
    let names = ["fruit", "tree", "drink"];
    let found = names_and_slices_of(rt.alloc(), &searcher, &names, haystack)?;
    let wanted: [(&str, &[u8]); 3] = [
        ("tree", b"maple"),
        ("fruit", b"apple"),
        ("drink", b"Snapple"),
    ];
    same(&rt, found.as_slice(), wanted.as_slice());
    same(&rt, count_of(&searcher, haystack), 3);
    same(
        &rt,
        first_slice(&searcher, haystack),
        Some(b"maple".as_slice()),
    );
    same(
        &rt,
        first_pattern(&searcher, haystack),
        Some(b"maple".as_slice()),
    );
    Ok(())
}
