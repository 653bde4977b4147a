//! What the words after the program's name ask for.
ghost use Rattle.std.specs.Prelude.{◌≡◌, IfOk};
ghost use Rattle.ac_search.specs.Patterns.{bytes_of};
ghost use Rattle.acs.specs.Faults.{ChecksLimits};
ghost use Rattle.acs.specs.Requests.{allows_count, engine_of, firsts, kind_of, mode_of, patterns_in, request_of, seconds, side, words_among};

use crate::fault::Fault;
use ac_search::{AhoCorasickKind, MatchKind, PatternID, check_limits};
use std::alloc::{AllocError, Allocator};

/// What is printed.
#[derive(Clone, Copy, PartialEq, Eq, Debug)]
pub(crate) enum Mode {
    /// The match that a find answers.
    Find,
    /// The matches of a walk.
    Walk,
    /// All occurrences, also those that overlap.
    Overlap,
    /// The matches of a walk, while the input is read.
    Stream,
    /// The input with each match exchanged for the text of its pattern.
    Replace,
    /// The same, while the input is read.
    StreamReplace,
}

/// What is asked for, without the patterns and texts.
#[derive(Clone, Copy)]
pub(crate) struct Request {
    pub(crate) mode: Mode,
    pub(crate) kind: MatchKind,
    /// The engine that is named; with none the searcher chooses.
    pub(crate) engine: Option<AhoCorasickKind>,
}

/// Returns the words among the arguments: all but the first, which is the program's name.
///
/// # Errors
/// `AllocError` where a request for memory is refused.
pub(crate) fn words_among<'w, A: Allocator>(
    alloc: A,
    arguments: &'w [String],
) -> Result<Vec<&'w str, A>, AllocError>
    ensures { IfOk result (λ words. bytes_of words.items ≡ words_among arguments.now) }
{
    let mut words = Vec::new(alloc);
    if let Some((_name, rest)) = arguments.split_first() {
        for word in rest {
            words.push(word.as_str())?;
        }
    }
    Ok(words)
}

/// Returns what the words ask for, or `None` where they ask for nothing that there is.
pub(crate) fn request_of(words: &[&str]) -> Option<Request>
    ensures { result ≡ request_of (bytes_of words.now) }
{
    if words.len() < 3 {
        return None;
    }
    let mode = mode_of(words[0])?;
    let kind = kind_of(words[1])?;
    let engine = engine_of(words[2])?;
    if !allows_count(mode, words.len() - 3) {
        return None;
    }
    Some(Request { mode, kind, engine })
}

/// Returns the mode of a name.
fn mode_of(word: &str) -> Option<Mode>
    ensures { result ≡ mode_of word.now }
{
    match word {
        "find" => Some(Mode::Find),
        "walk" => Some(Mode::Walk),
        "overlap" => Some(Mode::Overlap),
        "stream" => Some(Mode::Stream),
        "replace" => Some(Mode::Replace),
        "sreplace" => Some(Mode::StreamReplace),
        _ => None,
    }
}

/// Returns the match kind of a name.
fn kind_of(word: &str) -> Option<MatchKind>
    ensures { result ≡ kind_of word.now }
{
    match word {
        "std" => Some(MatchKind::Standard),
        "first" => Some(MatchKind::LeftmostFirst),
        "longest" => Some(MatchKind::LeftmostLongest),
        _ => None,
    }
}

/// Returns the engine of a name; by `auto` the searcher chooses.
fn engine_of(word: &str) -> Option<Option<AhoCorasickKind>>
    ensures { result ≡ engine_of word.now }
{
    match word {
        "auto" => Some(None),
        "noncontiguous" => Some(Some(AhoCorasickKind::NoncontiguousNFA)),
        "contiguous" => Some(Some(AhoCorasickKind::ContiguousNFA)),
        "dfa" => Some(Some(AhoCorasickKind::DFA)),
        _ => None,
    }
}

/// Returns whether a mode allows so many words after the first three: for the replacing modes they stand in pairs.
fn allows_count(mode: Mode, count: usize) -> bool
    ensures { result ≡ allows_count mode count }
{
    match mode {
        Mode::Find | Mode::Walk | Mode::Overlap | Mode::Stream => true,
        Mode::Replace | Mode::StreamReplace => count % 2 == 0,
    }
}

/// Tests the limits of the patterns among the words, which takes no memory. A text has no limit.
///
/// # Errors
/// `TooManyPatterns` or `PatternTooLong`, whichever limit is passed first.
pub(crate) fn check_patterns(mode: Mode, words: &[&str]) -> Result<(), Fault>
    ensures { ChecksLimits (patterns_in mode (bytes_of words.now)) result }
{
    match mode {
        Mode::Find | Mode::Walk | Mode::Overlap | Mode::Stream => Ok(check_limits(words)?),
        Mode::Replace | Mode::StreamReplace => check_firsts(words),
    }
}

/// Tests the limits of the first words of pairs.
///
/// # Errors
/// As `check_patterns`.
fn check_firsts(words: &[&str]) -> Result<(), Fault>
    ensures { ChecksLimits (firsts (bytes_of words.now)) result }
{
    if words.len() / 2 > PatternID::LIMIT {
        return Err(Fault::TooManyPatterns);
    }
    for pair in words.chunks_exact(2) {
        check_limits(&pair[..1])?;
    }
    Ok(())
}

/// Returns the bytes of the patterns among the words.
///
/// # Errors
/// `AllocError` where a request for memory is refused.
pub(crate) fn patterns_of<'w, A: Allocator>(
    alloc: A,
    mode: Mode,
    words: &[&'w str],
) -> Result<Vec<&'w [u8], A>, AllocError>
    ensures { IfOk result (λ patterns. bytes_of patterns.items ≡ patterns_in mode (bytes_of words.now)) }
{
    match mode {
        Mode::Find | Mode::Walk | Mode::Overlap | Mode::Stream => all_of(alloc, words),
        Mode::Replace | Mode::StreamReplace => side_of(alloc, words, false),
    }
}

/// Returns the bytes of the texts among the words, which stand after their patterns.
///
/// # Errors
/// As `patterns_of`.
pub(crate) fn texts_of<'w, A: Allocator>(
    alloc: A,
    words: &[&'w str],
) -> Result<Vec<&'w [u8], A>, AllocError>
    ensures { IfOk result (λ texts. bytes_of texts.items ≡ seconds (bytes_of words.now)) }
{
    side_of(alloc, words, true)
}

/// Returns the bytes of one word of each pair: the second one, or else the first.
///
/// # Errors
/// As `patterns_of`.
fn side_of<'w, A: Allocator>(
    alloc: A,
    words: &[&'w str],
    second: bool,
) -> Result<Vec<&'w [u8], A>, AllocError>
    ensures { IfOk result (λ chosen. bytes_of chosen.items ≡ side second (bytes_of words.now)) }
{
    let mut side = Vec::new(alloc);
    for pair in words.chunks_exact(2) {
        side.push(pair[usize::from(second)].as_bytes())?;
    }
    Ok(side)
}

/// Returns the bytes of all words.
///
/// # Errors
/// As `patterns_of`.
fn all_of<'w, A: Allocator>(alloc: A, words: &[&'w str]) -> Result<Vec<&'w [u8], A>, AllocError>
    ensures { IfOk result (λ patterns. bytes_of patterns.items ≡ bytes_of words.now) }
{
    let mut patterns = Vec::new(alloc);
    for word in words {
        patterns.push(word.as_bytes())?;
    }
    Ok(patterns)
}
