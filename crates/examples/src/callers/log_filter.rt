//! A caller that keeps the lines of a log in which something occurs.
ghost use Rattle.std.specs.Prelude.{◌≡◌, IfOk, None, filter, is_some};
ghost use Rattle.std.specs.Str.Lines.{lines};
ghost use Rattle.ac_search.specs.Patterns.{bytes_of};
ghost use Rattle.ac_search.specs.Built.{find_refusal, find_result};
ghost use Rattle.ac_search.specs.Input.{whole_input};

use crate::checks::same;
use ac_search::{AhoCorasick, Input};
use std::alloc::{AllocError, Global};
use std::test::Fail;

/// Returns the lines in which a find answers a match, in their order.
fn lines_with_a_match<'l>(
    alloc: Global,
    searcher: &AhoCorasick,
    log: &'l str,
) -> Result<Vec<&'l str>, AllocError>
    requires { find_refusal searcher.now.built (whole_input log.now) ≡ None }
    ensures { IfOk result (λ kept. bytes_of kept.items
        ≡ filter (λ line. is_some (find_result searcher.now.built (whole_input line))) (lines log.now)) }
{
    log.lines()
        .filter(|line| searcher.find(Input::of_text(line)).is_some())
        .collect(alloc)
}

#[test]
fn lines_are_kept(rt: HostRuntime) -> Result<(), Fail> {
    let searcher = AhoCorasick::new(rt.alloc(), &[b"error", b"warning"])?;
    let log = "start\nerror: no disk\nwarning: slow\nend\n";
    let kept = lines_with_a_match(rt.alloc(), &searcher, log)?;
    let wanted = ["error: no disk", "warning: slow"];
    same(&rt, kept.as_slice(), wanted.as_slice());
    Ok(())
}
