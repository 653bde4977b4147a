//! A caller that keeps something of each match.
ghost use Rattle.std.specs.Prelude.{◌≡◌, IfOk, None, map};
ghost use Rattle.ac_search.specs.Built.{find_refusal, walk_result};
ghost use Rattle.ac_search.specs.Input.{whole_input};

use crate::checks::same;
use ac_search::{AhoCorasick, Input};
use std::alloc::{AllocError, Global};
use std::test::Fail;

/// Returns where the matches start.
fn starts_of(
    alloc: Global,
    searcher: &AhoCorasick,
    haystack: &[u8],
) -> Result<Vec<usize>, AllocError>
    requires { find_refusal searcher.now.built (whole_input haystack.now) ≡ None }
    ensures { IfOk result (λ starts. starts.items
        ≡ map (λ m. m.start) (walk_result searcher.now.built (whole_input haystack.now))) }
{
    let mut starts = Vec::new(alloc);
    for m in searcher.find_iter(Input::new(haystack)) {
        starts.push(m.start())?;
    }
    Ok(starts)
}

#[test]
fn matches_are_kept(rt: HostRuntime) -> Result<(), Fail> {
    let alloc = rt.alloc();
    let patterns: &[&[u8]] = &[b"he", b"she", b"his", b"hers"];
    let searcher = AhoCorasick::new(alloc, patterns)?;
    let starts = starts_of(alloc, &searcher, b"ushers, his")?;
    same(&rt, starts.as_slice(), [1, 8].as_slice());
    Ok(())
}
