//! Replacement in memory.
use ac_search::AhoCorasick;
use std::test::Fail;

#[test]
fn replacements(rt: HostRuntime) -> Result<(), Fail> {
    let alloc = rt.alloc();
    let searcher = AhoCorasick::new(alloc, &[b"append", b"appendage", b"app"])?;
    let text = "append the app to the appendage";
    let replaced = searcher.replace_all(alloc, text, &["x", "y", "z"])?;
    are_equal!(rt; replaced.as_str(), "zend the z to the zendage");
    Ok(())
}

#[test]
fn replacements_of_bytes(rt: HostRuntime) -> Result<(), Fail> {
    let alloc = rt.alloc();
    let searcher = AhoCorasick::new(alloc, &[b"fox", b"brown", b"quick"])?;
    let texts: &[&[u8]] = &[b"sloth", b"grey", b"slow"];
    let replaced = searcher.replace_all_bytes(alloc, b"The quick brown fox.", texts)?;
    are_equal!(rt; replaced.as_slice(), b"The slow grey sloth.".as_slice());
    Ok(())
}

#[test]
fn replacements_by_closures(rt: HostRuntime) -> Result<(), Fail> {
    let alloc = rt.alloc();
    let searcher = AhoCorasick::new(alloc, &[b"append", b"app"])?;
    let mut destination = String::new(alloc);
    searcher.replace_all_with("the app", &mut destination, |_, slice, destination| {
        destination.push_str(slice).is_ok() && destination.push_str("!").is_ok()
    })?;
    are_equal!(rt; destination.as_str(), "the app!");
    Ok(())
}

#[test]
fn replacements_of_bytes_by_closures(rt: HostRuntime) -> Result<(), Fail> {
    let alloc = rt.alloc();
    let searcher = AhoCorasick::new(alloc, &[b"password"])?;
    let mut destination = Vec::new(alloc);
    searcher.replace_all_with_bytes(b"a password", &mut destination, |_, _, destination| {
        destination.extend_from_slice(b"***").is_ok()
    })?;
    are_equal!(rt; destination.as_slice(), b"a ***".as_slice());
    Ok(())
}

#[test]
fn replacements_by_closures_that_stop(rt: HostRuntime) -> Result<(), Fail> {
    let alloc = rt.alloc();
    let searcher = AhoCorasick::new(alloc, &[b"a"])?;
    let mut destination = String::new(alloc);
    searcher.try_replace_all_with("aba", &mut destination, |m, _, destination| {
        m.start() > 0 && destination.push_str("x").is_ok()
    })?;
    are_equal!(rt; destination.as_str(), "ba"); // it stopped at the first match
    Ok(())
}

#[test]
fn replacements_of_bytes_by_closures_that_stop(rt: HostRuntime) -> Result<(), Fail> {
    let alloc = rt.alloc();
    let searcher = AhoCorasick::new(alloc, &[b"a"])?;
    let mut destination = Vec::new(alloc);
    searcher.try_replace_all_with_bytes(b"aba", &mut destination, |_, slice, destination| {
        destination.extend_from_slice(slice).is_ok() && destination.push(b'!').is_ok()
    })?;
    are_equal!(rt; destination.as_slice(), b"a!ba!".as_slice());
    Ok(())
}
