//! Callers that slice a text at matches.
ghost use Rattle.std.specs.Prelude.{◌≡◌, None};
ghost use Rattle.ac_search.specs.Built.{find_refusal, AreTexts};
ghost use Rattle.ac_search.specs.Input.{whole_input};

use crate::checks::same;
use ac_search::laws::{answers_cut_no_character, words_are_texts};
use ac_search::{AhoCorasick, BuildError, Input};
use std::alloc::{AllocError, Global};
use std::test::Fail;

/// Returns the parts of a text at which the matches stand, where the patterns cut no character.
fn parts_of<'t>(
    alloc: Global,
    searcher: &AhoCorasick,
    text: &'t str,
) -> Result<Vec<&'t str>, AllocError>
    requires supported { find_refusal searcher.now.built (whole_input text.now) ≡ None }
    requires texts { AreTexts searcher.now.built.patterns }
{
    let mut parts = Vec::new(alloc);
    answers_cut_no_character(searcher, Input::of_text(text));
    for m in searcher.find_iter(Input::of_text(text)) {
        parts.push(&text[m.range()])?;
    }
    Ok(parts)
}

/// Returns the words of the text that are in a list here, each as it is written there.
fn words_in<'t>(alloc: Global, text: &'t str) -> Result<Vec<&'t str>, BuildError> {
    let words: &[&[u8]] = &[b"error", b"warn"];
    let searcher = AhoCorasick::new(alloc, words)?;
    words_are_texts(&searcher);
    Ok(parts_of(alloc, &searcher, text)?)
}

#[test]
fn literal_words_cut_no_character(rt: HostRuntime) -> Result<(), Fail> {
    let found = words_in(rt.alloc(), "ein Käfer: error, warnt")?;
    same(&rt, found.as_slice(), ["error", "warn"].as_slice());
    Ok(())
}

#[test]
fn matches_of_texts_cut_no_character(rt: HostRuntime) -> Result<(), Fail> {
    let searcher = AhoCorasick::new(rt.alloc(), &["é".as_bytes(), "a".as_bytes()])?;
    let parts = parts_of(rt.alloc(), &searcher, "aêéa")?;
    same(&rt, parts.as_slice(), ["a", "é", "a"].as_slice());
    Ok(())
}
