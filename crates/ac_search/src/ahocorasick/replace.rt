//! Replacement of the matches of a haystack in memory.
ghost use Rattle.std.specs.Prelude.{◌≡◌, Err, IfErr, IfOk, MatchResult, None, Ok, length, string_bytes};
ghost use Rattle.ac_automaton.specs.Util.{bytes_of, replace_refusal, exchanged, exchanged_in_text, replaced};
ghost use Rattle.ac_automaton.specs.Answers.{AnswersBytes, AnswersText, ExchangesBytes, ExchangesText, IsReplacedText, StepsBy};

use super::AhoCorasick;
use ac_automaton::automaton::{
    replace_all, replace_all_bytes, replace_all_with, replace_all_with_bytes,
};
use ac_util::error::ReplaceError;
use ac_util::search::{Input, Match};
use std::alloc::{AllocError, Allocator};

impl<A: Allocator> AhoCorasick<A> {
    /// Returns the haystack with each match of `find_iter` over it replaced by the text of its pattern: `texts[2]`
    /// replaces pattern 2. This ports `AhoCorasick::replace_all`.
    ///
    /// A match that starts or ends inside a character is left as it is, and nothing else is matched in its place. There
    /// have to be as many texts as patterns, and the searcher has to support unanchored searches; `try_replace_all`
    /// returns an error where it doesn't.
    ///
    /// # Errors
    /// `AllocError` where a request for memory is refused.
    ///
    /// ```
    /// let searcher = AhoCorasick::new(alloc, &[b"append", b"appendage", b"app"])?;
    /// let text = "append the app to the appendage";
    /// let replaced = searcher.replace_all(alloc, text, &["x", "y", "z"])?;
    /// assert_eq!(rt; replaced.as_str(), "zend the z to the zendage");
    /// ```
    pub fn replace_all<Z: Allocator>(
        &self,
        alloc: Z,
        haystack: &str,
        texts: &[&str],
    ) -> Result<String<Z>, AllocError>
        requires supported { replace_refusal self.now.built ≡ None }
        requires texts { length texts.now ≡ length self.now.built.patterns }
        ensures { IfOk result (IsReplacedText self.now.built haystack.now (bytes_of texts.now)) }
    {
        unrefused(self.try_replace_all(alloc, haystack, texts))
    }

    /// Returns the haystack with each match of `find_iter` over it replaced by the text of its pattern: `texts[2]`
    /// replaces pattern 2. This ports `AhoCorasick::replace_all_bytes`.
    ///
    /// Every match is replaced, since bytes have no characters that one could cut. There have to be as many texts as
    /// patterns, and the searcher has to support unanchored searches; `try_replace_all_bytes` returns an error where it
    /// doesn't.
    ///
    /// # Errors
    /// `AllocError` where a request for memory is refused.
    ///
    /// ```
    /// let searcher = AhoCorasick::new(alloc, &[b"fox", b"brown", b"quick"])?;
    /// let texts: &[&[u8]] = &[b"sloth", b"grey", b"slow"];
    /// let replaced = searcher.replace_all_bytes(alloc, b"The quick brown fox.", texts)?;
    /// assert_eq!(rt; replaced.as_slice(), b"The slow grey sloth.".as_slice());
    /// ```
    pub fn replace_all_bytes<Z: Allocator>(
        &self,
        alloc: Z,
        haystack: &[u8],
        texts: &[&[u8]],
    ) -> Result<Vec<u8, Z>, AllocError>
        requires supported { replace_refusal self.now.built ≡ None }
        requires texts { length texts.now ≡ length self.now.built.patterns }
        ensures { IfOk result (λ whole.
            whole.items ≡ replaced haystack.now (bytes_of texts.now) (exchanged self.now.built haystack.now)) }
    {
        unrefused(self.try_replace_all_bytes(alloc, haystack, texts))
    }

    /// Appends the haystack to the destination, and calls the closure at each match of `find_iter` over it, except at
    /// those that start or end inside a character. This ports `AhoCorasick::replace_all_with`.
    ///
    /// The closure is handed the match, the slice that matched and the destination, to which it appends what replaces
    /// the match. It returns whether to go on: after `false` it isn't called again, and the rest of the haystack is
    /// appended as it is.
    ///
    /// The searcher has to support unanchored searches, and the closure has to accept any match and destination.
    /// `laws::text_closure_exchanges` says what is left by a closure that appends at each call.
    ///
    /// # Errors
    /// `AllocError` where a request of this call for memory is refused. The destination is then as the steps before
    /// left it. A closure that lacks memory itself can only return `false`: the rest is then appended as it is.
    ///
    /// ```
    /// let searcher = AhoCorasick::new(alloc, &[b"append", b"app"])?;
    /// let mut destination = String::new(alloc);
    /// searcher.replace_all_with("the app", &mut destination, |_, slice, destination| {
    ///     destination.push_str(slice).is_ok() && destination.push_str("!").is_ok()
    /// })?;
    /// assert_eq!(rt; destination.as_str(), "the app!");
    /// ```
    pub fn replace_all_with<F>(
        &self,
        haystack: &str,
        destination: &mut String,
        exchange: F,
    ) -> Result<(), AllocError>
    where
        F: FnMut(&Match, &str, &mut String) -> bool,
        requires supported { replace_refusal self.now.built ≡ None }
        requires callable { F.IsAlwaysCallable exchange }
        ensures { StepsBy F.FnMut string_bytes exchanged_in_text self.now.built haystack.now exchange destination.old
            destination.new result }
    {
        unrefused(self.try_replace_all_with(haystack, destination, exchange))
    }

    /// Appends the haystack to the destination, and calls the closure at each match of `find_iter` over it, as
    /// `replace_all_with` does for a text. This ports `AhoCorasick::replace_all_with_bytes`.
    ///
    /// `laws::closure_exchanges` says what is left by a closure that appends at each call.
    ///
    /// # Errors
    /// As `replace_all_with`.
    ///
    /// ```
    /// let searcher = AhoCorasick::new(alloc, &[b"password"])?;
    /// let mut destination = Vec::new(alloc);
    /// searcher.replace_all_with_bytes(b"a password", &mut destination, |_, _, destination| {
    ///     destination.extend_from_slice(b"***").is_ok()
    /// })?;
    /// assert_eq!(rt; destination.as_slice(), b"a ***".as_slice());
    /// ```
    pub fn replace_all_with_bytes<F>(
        &self,
        haystack: &[u8],
        destination: &mut Vec<u8>,
        exchange: F,
    ) -> Result<(), AllocError>
    where
        F: FnMut(&Match, &[u8], &mut Vec<u8>) -> bool,
        requires supported { replace_refusal self.now.built ≡ None }
        requires callable { F.IsAlwaysCallable exchange }
        ensures { StepsBy F.FnMut
            (λ d. d.items) exchanged self.now.built haystack.now exchange destination.old destination.new result }
    {
        unrefused(self.try_replace_all_with_bytes(haystack, destination, exchange))
    }

    /// Returns what `replace_all` returns, or an error where the searcher doesn't support unanchored searches. This
    /// ports `AhoCorasick::try_replace_all`.
    ///
    /// There have to be as many texts as patterns.
    ///
    /// # Errors
    /// `ReplaceError::Match` with `InvalidInputUnanchored` where the searcher doesn't support unanchored searches, else
    /// `ReplaceError::Memory` where a request for memory is refused.
    ///
    /// ```
    /// let patterns: &[&[u8]] = &[b"fox", b"brown", b"quick"];
    /// let searcher = AhoCorasick::new(alloc, patterns)?;
    /// let text = "The quick brown fox.";
    /// let sloth = searcher.try_replace_all(alloc, text, &["sloth", "grey", "slow"])?;
    /// assert_eq!(rt; sloth.as_str(), "The slow grey sloth.");
    /// ```
    pub fn try_replace_all<Z: Allocator>(
        &self,
        alloc: Z,
        haystack: &str,
        texts: &[&str],
    ) -> Result<String<Z>, ReplaceError>
        requires texts { length texts.now ≡ length self.now.built.patterns }
        ensures { AnswersText self.now.built haystack.now (bytes_of texts.now) result }
    {
        let walk = self.try_find_iter(Input::of_text(haystack))?;
        Ok(replace_all(walk, alloc, haystack, texts)?)
    }

    /// Returns what `replace_all_bytes` returns, or an error where the searcher doesn't support unanchored searches.
    /// This ports `AhoCorasick::try_replace_all_bytes`.
    ///
    /// There have to be as many texts as patterns.
    ///
    /// # Errors
    /// As `try_replace_all`.
    ///
    /// See the example of `replace_all_bytes`.
    pub fn try_replace_all_bytes<Z: Allocator>(
        &self,
        alloc: Z,
        haystack: &[u8],
        texts: &[&[u8]],
    ) -> Result<Vec<u8, Z>, ReplaceError>
        requires texts { length texts.now ≡ length self.now.built.patterns }
        ensures { AnswersBytes self.now.built haystack.now (bytes_of texts.now) result }
    {
        let walk = self.try_find_iter(Input::new(haystack))?;
        Ok(replace_all_bytes(walk, alloc, haystack, texts)?)
    }

    /// Does what `replace_all_with` does, or returns an error where the searcher doesn't support unanchored searches.
    /// This ports `AhoCorasick::try_replace_all_with`.
    ///
    /// The closure has to accept any match and destination.
    ///
    /// # Errors
    /// As `try_replace_all`. Where the search is refused the destination is as it was; where memory is refused it is as
    /// the steps before left it.
    ///
    /// ```
    /// let searcher = AhoCorasick::new(alloc, &[b"a"])?;
    /// let mut destination = String::new(alloc);
    /// searcher.try_replace_all_with("aba", &mut destination, |m, _, destination| {
    ///     m.start() > 0 && destination.push_str("x").is_ok()
    /// })?;
    /// assert_eq!(rt; destination.as_str(), "ba"); // it stopped at the first match
    /// ```
    pub fn try_replace_all_with<F>(
        &self,
        haystack: &str,
        destination: &mut String,
        exchange: F,
    ) -> Result<(), ReplaceError>
    where
        F: FnMut(&Match, &str, &mut String) -> bool,
        requires callable { F.IsAlwaysCallable exchange }
        ensures { ExchangesText F.FnMut self.now.built haystack.now exchange destination.old destination.new result }
    {
        let walk = self.try_find_iter(Input::of_text(haystack))?;
        Ok(replace_all_with(walk, haystack, destination, exchange)?)
    }

    /// Does what `replace_all_with_bytes` does, or returns an error where the searcher doesn't support unanchored
    /// searches. This ports `AhoCorasick::try_replace_all_with_bytes`.
    ///
    /// The closure has to accept any match and destination.
    ///
    /// # Errors
    /// As `try_replace_all_with`.
    ///
    /// ```
    /// let searcher = AhoCorasick::new(alloc, &[b"a"])?;
    /// let mut destination = Vec::new(alloc);
    /// searcher.try_replace_all_with_bytes(b"aba", &mut destination, |_, slice, destination| {
    ///     destination.extend_from_slice(slice).is_ok() && destination.push(b'!').is_ok()
    /// })?;
    /// assert_eq!(rt; destination.as_slice(), b"a!ba!".as_slice());
    /// ```
    pub fn try_replace_all_with_bytes<F>(
        &self,
        haystack: &[u8],
        destination: &mut Vec<u8>,
        exchange: F,
    ) -> Result<(), ReplaceError>
    where
        F: FnMut(&Match, &[u8], &mut Vec<u8>) -> bool,
        requires callable { F.IsAlwaysCallable exchange }
        ensures { ExchangesBytes F.FnMut self.now.built haystack.now exchange destination.old destination.new result }
    {
        let walk = self.try_find_iter(Input::new(haystack))?;
        Ok(replace_all_with_bytes(walk, haystack, destination, exchange)?)
    }
}

/// Returns the outcome of a replacement that only a refused request for memory can stop.
fn unrefused<T: Drop>(outcome: Result<T, ReplaceError>) -> Result<T, AllocError>
    requires { IfErr outcome (λ e. e ≡ ReplaceError.Memory) }
    ensures { MatchResult result (λ value. outcome ≡ Ok value) (λ _. outcome ≡ Err ReplaceError.Memory) }
{
    match outcome {
        Ok(value) => Ok(value),
        Err(ReplaceError::Memory) => Err(AllocError),
        Err(ReplaceError::Match(_)) => unreachable!(),
    }
}
