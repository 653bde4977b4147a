//! A caller that says what a match means by the text alone.
ghost use Rattle.std.specs.Prelude.{◌≡◌, ◌↔◌, ◌∷◌, IsTrue, None, [], false};
ghost use Rattle.ac_search.specs.Built.{find_refusal};
ghost use Rattle.ac_search.specs.Input.{whole_input};
ghost use Rattle.examples.specs.Callers.{HasWord};

use crate::checks::same;
use ac_search::laws::{patterns_stand_between, sameness_is_by_letter};
use ac_search::{AhoCorasick, Input};
use std::test::Fail;

/// Returns whether a text has a word, by a searcher for that word.
fn contains(searcher: &AhoCorasick, word: &[u8], text: &[u8]) -> bool
    requires supported { find_refusal searcher.now.built (whole_input text.now) ≡ None }
    requires word { searcher.now.built.patterns ≡ word.now ∷ [] }
    requires case { searcher.now.built.ignores_case ≡ false }
    ensures { IsTrue result ↔ HasWord word.now text.now }
{
    sameness_is_by_letter();
    patterns_stand_between();
    searcher.is_match(Input::new(text))
}

#[test]
fn words_are_contained(rt: HostRuntime) -> Result<(), Fail> {
    let word = b"nib";
    let searcher = AhoCorasick::new(rt.alloc(), &[word])?;
    for (text, wanted) in [
        ("nib", true),
        ("a nibble", true),
        ("ni", false),
        ("Nib", false),
        ("", false),
    ] {
        same(&rt, contains(&searcher, word, text.as_bytes()), wanted);
    }
    Ok(())
}
