//! A caller that lists which patterns occur in each line of a log.
ghost use Rattle.std.specs.Prelude.{◌≡◌, ◌++◌, false, filter, flat_map, get_or, IfOk, length, map, None};
ghost use Rattle.std.specs.List.{enumerate_from, range_with_len};
ghost use Rattle.std.specs.Str.Lines.{lines};
ghost use Rattle.ac_search.specs.Built.{overlapping_iter_refusal};
ghost use Rattle.ac_search.specs.Input.{whole_input};
ghost use Rattle.examples.specs.Callers.{numbered_markers, occurs_in};

use crate::checks::same;
use ac_search::laws::answers_lie_inside;
use ac_search::{AhoCorasick, Input};
use std::alloc::{AllocError, Global};
use std::test::Fail;

/// Returns for each pattern whether it occurs in a line.
fn marks_of(alloc: Global, searcher: &AhoCorasick, line: &str) -> Result<Vec<bool>, AllocError>
    requires { overlapping_iter_refusal searcher.now.built (whole_input line.now) ≡ None }
    ensures { IfOk result (λ marks. marks.items
        ≡ map (occurs_in searcher.now.built line.now) (range_with_len 0 (length searcher.now.built.patterns))) }
{
    let input = Input::of_text(line);
    answers_lie_inside(searcher, input);
    let mut marks = vec![in alloc; false; searcher.patterns_len()]?;
    for m in searcher.find_overlapping_iter(input) {
        marks[m.pattern().as_usize()] = true;
    }
    Ok(marks)
}

/// Adds the number of the line and that of the pattern for each mark.
fn push_marked(
    found: &mut Vec<(usize, usize)>,
    number: usize,
    marks: &[bool],
) -> Result<(), AllocError>
    ensures { IfOk result (λ _. found.new.items ≡ found.old.items
        ++ map (λ n. (number, n)) (filter (λ n. get_or marks.now n false) (range_with_len 0 (length marks.now)))) }
{
    for pattern in 0..marks.len() {
        if marks[pattern] {
            found.push((number, pattern))?;
        }
    }
    Ok(())
}

/// Returns the number of each line, from 0, with the number of each pattern that occurs in it: each once, in ascending
/// order.
fn markers_in(
    alloc: Global,
    searcher: &AhoCorasick,
    log: &str,
) -> Result<Vec<(usize, usize)>, AllocError>
    requires { overlapping_iter_refusal searcher.now.built (whole_input log.now) ≡ None }
    ensures { IfOk result (λ found. found.items
        ≡ flat_map (numbered_markers searcher.now.built) (enumerate_from 0 (lines log.now))) }
{
    let mut found = Vec::new(alloc);
    for (number, line) in log.lines().enumerate() {
        let marks = marks_of(alloc, searcher, line)?;
        push_marked(&mut found, number, &marks)?;
    }
    Ok(found)
}

#[test]
fn each_marker_of_a_line_is_listed_once(rt: HostRuntime) -> Result<(), Fail> {
    let searcher = AhoCorasick::new(rt.alloc(), &[b"slow", b"disk", b"slow disk"])?;
    let log = "slow disk, slow\nfine\ndisk\n";
    let found = markers_in(rt.alloc(), &searcher, log)?;
    same(
        &rt,
        found.as_slice(),
        [(0, 0), (0, 1), (0, 2), (2, 1)].as_slice(),
    );
    Ok(())
}
