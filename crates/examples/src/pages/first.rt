//! The example of the whole crate, and the first program of README.md.
ghost use Rattle.std.specs.Prelude.{◌≡◌, None};
ghost use Rattle.ac_search.specs.Built.{find_refusal, find_result};
ghost use Rattle.ac_search.specs.Input.{whole_input};

use ac_search::{AhoCorasick, Input, Match};
use std::test::Fail;

fn first(searcher: &AhoCorasick, haystack: &[u8]) -> Option<Match>
    requires { find_refusal searcher.now.built (whole_input haystack.now) ≡ None }
    ensures { result ≡ find_result searcher.now.built (whole_input haystack.now) }
{
    searcher.find(Input::new(haystack))
}

#[test]
fn the_first_match(rt: HostRuntime) -> Result<(), Fail> {
    let searcher = AhoCorasick::new(rt.alloc(), &[b"he", b"she"])?;
    are_equal!(rt; first(&searcher, b"ushers"), Some(Match::must(1, 1..4)));
    Ok(())
}

#[test]
fn the_first_program(rt: HostRuntime) -> Result<(), Fail> {
    let patterns: &[&[u8]] = &[b"apple", b"maple", b"Snapple"];
    let searcher = AhoCorasick::new(rt.alloc(), patterns)?;
    let text = "Nobody likes maple in their apple flavored Snapple.";
    for m in searcher.find_iter(Input::of_text(text)) {
        println!(rt; "{} at {}..{}", m.pattern().as_usize(), m.start(), m.end())?;
    }
    Ok(())
}
