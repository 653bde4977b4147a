//! A caller that writes a list of labels beside its list of patterns.
ghost use Rattle.std.specs.Prelude.{◌+◌, ◌≤◌, IfOk, length};

use crate::checks::same;
use ac_search::laws::{answers_have_values, answers_lie_inside};
use ac_search::{AhoCorasick, BuildError, Input};
use std::alloc::Global;
use std::test::Fail;

/// Returns the labels of the matches, at most one more than the text has bytes.
fn labels_in(alloc: Global, text: &str) -> Result<Vec<&'static str>, BuildError>
    ensures { IfOk result (λ found. length found.items ≤ length text.now + 1) }
{
    let patterns: &[&[u8]] = &[b"apple", b"maple", b"Snapple"];
    let labels = ["fruit", "tree", "drink"];
    let searcher = AhoCorasick::new(alloc, patterns)?;
    let input = Input::of_text(text);

    let mut found = Vec::new(alloc);
    answers_lie_inside(&searcher, input);
    answers_have_values(&searcher, input, &labels);
    for m in searcher.find_iter(input) {
        found.push(labels[m.pattern().as_usize()])?;
    }
    Ok(found)
}

#[test]
fn each_match_has_its_label(rt: HostRuntime) -> Result<(), Fail> {
    let text = "Nobody likes maple in their apple flavored Snapple.";
    let found = labels_in(rt.alloc(), text)?;
    same(&rt, found.as_slice(), ["tree", "fruit", "drink"].as_slice());
    Ok(())
}
