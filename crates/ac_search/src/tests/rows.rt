//! Patterns and a text of several rows.
/// One pattern begins the other, and one stands inside both.
pub(super) const PREFIXES: &[&[u8]] = &[b"b", b"abc", b"abcd"];

pub(super) const WORDS: &[&[u8]] = &[b"append", b"appendage", b"app"];

pub(super) const SENTENCE: &[u8] = b"append the app to the appendage";

/// A long pattern that fails at its last byte.
pub(super) const FAILS_LATE: &[&[u8]] = &[b"a", b"abcdefghi", b"hz", b"abcdefgh"];

pub(super) const FAILS_LATER: &[&[u8]] = &[b"b", b"abcdefghi", b"hz", b"abcdefgh"];
