//! Callers that replace in memory by closures, of which they know no more than the contracts of these say.
ghost use Rattle.std.specs.Prelude.{◌≡◌, ◌++◌, IfOk, List, ℕ, None, [], string_bytes};
ghost use Rattle.ac_search.specs.Built.{exchanged, replace_refusal};
ghost use Rattle.ac_search.specs.Replacement.{exchanged_from};

use crate::checks::same;
use ac_search::laws::{closure_exchanges, text_closure_exchanges};
use ac_search::{AhoCorasick, Match};
use std::alloc::AllocError;
use std::test::Fail;

/// Appends the haystack without its matches.
fn remove(
    searcher: &AhoCorasick,
    haystack: &[u8],
    destination: &mut Vec<u8>,
) -> Result<(), AllocError>
    requires { replace_refusal searcher.now.built ≡ None }
    ensures { IfOk result (λ _. destination.new.items ≡ destination.old.items
        ++ exchanged_from haystack.now (λ _ _. []) 0 (exchanged searcher.now.built haystack.now)) }
{
    let nothing = |_: &Match, _: &[u8], _: &mut Vec<u8>| true;
    closure_exchanges(&nothing);
    searcher.replace_all_with_bytes(haystack, destination, nothing)
}

/// Appends the text with a mark in place of each match. What was in the destination stays there.
fn mark(searcher: &AhoCorasick, text: &str, destination: &mut String) -> Result<(), AllocError>
    requires { replace_refusal searcher.now.built ≡ None }
    ensures { (more : List ℕ) × (string_bytes destination.new ≡ string_bytes destination.old ++ more) }
{
    let dash = |_: &Match, _: &str, destination: &mut String| destination.push_str("-").is_ok();
    text_closure_exchanges(&dash);
    searcher.replace_all_with(text, destination, dash)
}

#[test]
fn a_closure_in_bytes_needs_its_own_contract_alone(rt: HostRuntime) -> Result<(), Fail> {
    let searcher = AhoCorasick::new(rt.alloc(), &[b"app"])?;
    let mut removed = Vec::new(rt.alloc());
    removed.extend_from_slice(b"pre")?;
    remove(&searcher, b"an app, apps", &mut removed)?;
    same(&rt, removed.as_slice(), b"prean , s".as_slice());
    Ok(())
}

#[test]
fn a_closure_in_text_needs_its_own_contract_alone(rt: HostRuntime) -> Result<(), Fail> {
    let searcher = AhoCorasick::new(rt.alloc(), &[b"app"])?;
    let mut marked = String::from_str(rt.alloc(), "pre")?;
    mark(&searcher, "an app, apps", &mut marked)?;
    same(&rt, marked.as_str(), "prean -, -s");
    Ok(())
}
