//! A tokenizer: the words of a vocabulary that is made at run time, and what stands between them.
ghost use Rattle.std.specs.Prelude.{◌≡◌, ◌≤◌, IfOk, length};
ghost use Rattle.std.specs.Str.{IsCharBoundary};
ghost use Rattle.ac_search.specs.Built.{walk_result};
ghost use Rattle.examples.specs.Callers.{Adds, Covers, tokenizer_of, words_in};
ghost use Rattle.ac_search.specs.Input.{whole_input};
ghost use Rattle.ac_search.specs.Patterns.{bytes_of};

use crate::checks::same;
use ac_search::laws::{
    answers_cut_no_character, matches_stand_apart, nonempty_texts_are_texts, shortest_is_empty,
};
use ac_search::{AhoCorasick, BuildError, Input, MatchKind, patterns_of};
use std::alloc::{AllocError, Global};
use std::marker::Model;
use std::test::Fail;

/// A piece of a text: a word, with its number in the vocabulary, or what stands between words; and where it starts.
#[derive(Drop)]
struct Token<'t> {
    word: Option<usize>,
    start: usize,
    text: &'t str,
}

impl<'t> Model for Token<'t> {
    ghost use Rattle.examples.specs.Callers.{Piece};

    ghost Value = { Piece };

    ghost view = { λ t. record { word = t.word; start = t.start; text = t.text.now } };
}

/// Why a text has no tokens.
#[derive(Drop, Debug)]
enum TokenizeError {
    Build(BuildError),
    EmptyWord,
}

impl From<AllocError> for TokenizeError {
    fn from(_error: AllocError) -> TokenizeError {
        TokenizeError::Build(BuildError::Memory)
    }
}

impl From<BuildError> for TokenizeError {
    fn from(error: BuildError) -> TokenizeError {
        TokenizeError::Build(error)
    }
}

/// Adds what stands from one place of a text to another, unless nothing does.
fn push<'t>(
    tokens: &mut Vec<Token<'t>>,
    text: &'t str,
    word: Option<usize>,
    from: usize,
    to: usize,
) -> Result<(), AllocError>
    requires starts { IsCharBoundary text.now from }
    requires ends { IsCharBoundary text.now to }
    requires ordered { from ≤ to }
    ensures { IfOk result (λ _. Adds text.now word from to tokens.old.items tokens.new.items) }
{
    if from == to {
        return Ok(());
    }
    tokens.push(Token {
        word,
        start: from,
        text: &text[from..to],
    })?;
    Ok(())
}

/// A searcher for the words of a vocabulary, each a text that isn't empty.
#[derive(Drop)]
struct Tokenizer {
    searcher: AhoCorasick,
}

impl Model for Tokenizer {
    ghost use Rattle.std.specs.Prelude.{◌≡◌, All, false};
    ghost use Rattle.std.specs.Str.{IsUtf8};
    ghost use Rattle.ac_search.specs.Built.{Built, has_empty};
    ghost use Rattle.examples.specs.Callers.{tokenizer_of};

    ghost Value = { Built };

    ghost view = { λ t. t.searcher.built };

    ghost invariant = { λ t. record {
      built : t.searcher.built ≡ tokenizer_of t.searcher.built.patterns;
      texts : All IsUtf8 t.searcher.built.patterns;
      nonempty : has_empty t.searcher.built ≡ false;
    } };
}

impl Tokenizer {
    /// Returns a tokenizer. Where several words begin at one byte it takes the longest.
    ///
    /// # Errors
    /// `EmptyWord` where a word is empty; else those of the build.
    fn new(alloc: Global, vocabulary: &[&str]) -> Result<Tokenizer, TokenizeError>
        ensures { IfOk result (λ tokenizer. tokenizer ≡ tokenizer_of (bytes_of vocabulary.now)) }
    {
        let patterns = patterns_of(alloc, vocabulary)?;
        let mut builder = AhoCorasick::builder();
        builder.match_kind(MatchKind::LeftmostLongest);
        let searcher = builder.build(alloc, &patterns)?;
        shortest_is_empty();
        if searcher.min_pattern_len() == 0 {
            return Err(TokenizeError::EmptyWord);
        }
        Ok(Tokenizer { searcher })
    }

    /// Returns the tokens of a text: the words of the walk, and what stands between them.
    fn tokens<'t>(&self, alloc: Global, text: &'t str) -> Result<Vec<Token<'t>>, AllocError>
        ensures covers { IfOk result (λ tokens. Covers text.now 0 (length text.now) tokens.items) }
        ensures words { IfOk result (λ tokens. words_in tokens.items ≡ walk_result self.now (whole_input text.now)) }
    {
        let searcher = &self.searcher;
        let input = Input::of_text(text);
        nonempty_texts_are_texts(searcher);
        answers_cut_no_character(searcher, input);
        matches_stand_apart(searcher, input);
        let mut tokens = Vec::new(alloc);
        let mut end = 0;
        for m in searcher.find_iter(input) {
            push(&mut tokens, text, None, end, m.start())?;
            push(
                &mut tokens,
                text,
                Some(m.pattern().as_usize()),
                m.start(),
                m.end(),
            )?;
            end = m.end();
        }
        push(&mut tokens, text, None, end, text.len())?;
        Ok(tokens)
    }
}

#[test]
fn tokens_are_words_and_gaps(rt: HostRuntime) -> Result<(), Fail> {
    let mut found = Vec::new(rt.alloc());
    if let Ok(tokenizer) = Tokenizer::new(rt.alloc(), &["un", "unhappy", "Käfer"]) {
        for token in tokenizer.tokens(rt.alloc(), "unhappy Käfer, un")? {
            found.push((token.word, token.start, token.text))?;
        }
    }
    let wanted: [(Option<usize>, usize, &str); 5] = [
        (Some(1), 0, "unhappy"),
        (None, 7, " "),
        (Some(2), 8, "Käfer"),
        (None, 14, ", "),
        (Some(0), 16, "un"),
    ];
    same(&rt, found.as_slice(), wanted.as_slice());
    let refused = Tokenizer::new(rt.alloc(), &["a", ""]);
    same(&rt, matches!(refused, Err(TokenizeError::EmptyWord)), true);
    Ok(())
}
