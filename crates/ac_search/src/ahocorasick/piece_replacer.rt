//! Replacement in a text that comes in pieces.
ghost use Rattle.std.specs.Prelude.{◌≡◌, ◌+◌, ◌≤◌, [], IfOk, IfSome, length, take, drop, min, ◌++◌};
ghost use Rattle.ac_automaton.specs.Util.{bytes_of, usize_max};
ghost use Rattle.ac_automaton.specs.Answers.{BeginsStream};
ghost use Rattle.ac_automaton.specs.declared.automaton.stream_settled.Phase.TheVariants.{Ended};
ghost use Rattle.ac_search.specs.PieceReplacements.{HasBegunToReplace, IsDueFrom, IsReplacedSoFar, TakesAndReplaces, TakesSome, WritesDue, due_after, due_text, is_closed};

use super::AhoCorasick;
use super::pieces::PieceFinder;
use ac_automaton::automaton::buffer_len;
use ac_util::error::StreamError;
use ac_util::history::History;
use ac_util::patterns::pieces::Pieces;
use std::alloc::{AllocError, Allocator, Global};
use std::marker::Model;
use window::Window;

mod window;

impl<A: Allocator> AhoCorasick<A> {
    /// Returns a replacement of a text that comes in pieces, of which nothing came yet: each match is replaced by the text of its
    /// pattern, so `texts[2]` replaces pattern 2. It shares this searcher's engine and copies the texts, so it may outlive both.
    /// Upstream has no such replacement.
    ///
    /// The allocator makes a buffer of 65,536 bytes, or of eight times as many as the longest pattern has if that is more, and the
    /// copy of the texts; no other memory is taken. There have to be as many texts as patterns.
    ///
    /// # Errors
    /// As `try_piece_finder`; and `StreamError::Memory` where a request for memory is refused.
    ///
    /// See the example of `PieceReplacer`.
    pub fn try_piece_replacer<Z: Allocator + Clone>(
        &self,
        alloc: Z,
        texts: &[&[u8]],
    ) -> Result<PieceReplacer<A, Z>, StreamError>
        requires texts { length texts.now ≡ length self.now.built.patterns }
        ensures { BeginsStream self.now.built (HasBegunToReplace self.now.built (bytes_of texts.now)) result }
    {
        let finder = self.try_piece_finder()?;
        let window = Window::new(alloc.clone()?, buffer_len(self.max_pattern_len()))?;
        Ok(PieceReplacer {
            finder,
            texts: copy_of(alloc, texts)?,
            window,
            due: Due {
                from: 0,
                to: 0,
                text: None,
            },
            ended: false,
            written: History::empty(),
        })
    }
}

/// A replacement of a text that comes in pieces, made by `AhoCorasick::try_piece_replacer`. Its caller hands over one piece after
/// another, and room for what is written: so it suits a program that gets its text from elsewhere and passes it on, as from a socket to
/// another, where `AhoCorasick::try_stream_replace_all` reads from a reader and writes to a writer.
///
/// What calls write, one after another, is what `replace_all_bytes` gives for all pieces, as one haystack, however the text is cut and
/// however much room each call has. It is written as far as it is settled: no byte to come can change it. Contracts see all bytes that
/// were taken, and all that were written.
///
/// ```
/// let searcher = AhoCorasick::new(alloc, &[b"append", b"app"])?;
/// let mut replacer = searcher.try_piece_replacer(alloc, &[b"x", b"yy"])?;
/// let (mut piece, mut out) = (b"append the ap".as_slice(), [0; 4]);
/// assert_eq!(rt; replacer.write(&mut piece, &mut out), 4); // there is room for no more
/// assert_eq!(rt; out.as_slice(), b"yyen".as_slice());
/// assert_eq!(rt; replacer.write(&mut piece, &mut out), 3); // the last 5 bytes are kept
/// let mut piece = b"p".as_slice();
/// assert_eq!(rt; replacer.write(&mut piece, &mut out), 4);
/// replacer.end();
/// assert_eq!(rt; replacer.write(&mut piece, &mut out), 1);
/// assert_eq!(rt; &out[..1], b"y".as_slice()); // all was written
/// ```
#[derive(Drop)]
pub struct PieceReplacer<A: Allocator = Global, Z: Allocator = Global> {
    finder: PieceFinder<A>,
    /// What replaces a match of each pattern.
    texts: Pieces<u8, Z>,
    /// The bytes of the text that are still needed.
    window: Window<Z>,
    due: Due,
    /// Whether it was said that nothing follows.
    ended: bool,
    written: History,
}

/// What is settled and still to be written: bytes of the text that comes in pieces, and then what is left of the text of a match.
#[derive(Clone, Copy)]
struct Due {
    /// From where on bytes of the text that comes in pieces are to be written.
    from: usize,
    /// Up to where they are.
    to: usize,
    text: Option<DueText>,
}

/// What is left of the text of a match.
#[derive(Clone, Copy)]
struct DueText {
    /// The number of its pattern.
    number: usize,
    /// How many bytes of it were written.
    at: usize,
}

impl Due {
    /// Returns what is left once so many bytes of the text were written, and so many of the text of the match.
    fn after(self, gap: usize, count: usize) -> Due
        requires gap { self.from + gap ≤ self.to }
        requires count { IfSome self.text (λ t. t.at + count ≤ usize_max) }
        ensures { result ≡ due_after self gap count }
    {
        let text = match self.text {
            Some(text) => Some(DueText {
                number: text.number,
                at: text.at + count,
            }),
            None => None,
        };
        Due {
            from: self.from + gap,
            to: self.to,
            text,
        }
    }
}

impl<A: Allocator, Z: Allocator> Model for PieceReplacer<A, Z> {
    ghost use Rattle.ac_search.specs.PieceReplacements.{IsReplacing, PieceReplacing, due_bytes, replacing_by};

    ghost Value = { PieceReplacing };

    ghost view = { λ r. replacing_by r.finder r.texts r.written.bytes (due_bytes r.finder.bytes r.texts r.due) };

    ghost invariant = { λ r. IsReplacing (replacing_by r.finder r.texts r.written.bytes (due_bytes r.finder.bytes r.texts r.due))
        r.window r.due r.ended };
}

impl<A: Allocator, Z: Allocator> PieceReplacer<A, Z> {
    /// Takes bytes of the piece, and writes what follows of the replaced text to the beginning of `out`. Returns how many bytes it wrote;
    /// `piece` is what is left of it then, which is handed over again. Fewer bytes than `out` has room for were written only where the
    /// piece was taken whole, and all of the replaced text that is settled was written. After the end nothing is taken, and what is
    /// settled is all of it.
    ///
    /// No more bytes are taken than a `usize` counts.
    pub fn write(&mut self, piece: &mut &[u8], out: &mut [u8]) -> usize
        ensures { TakesAndReplaces self.old piece.old.now out.old out.new result self.new piece.new.now }
    {
        let mut filled = self.write_due(out);
        while filled < out.len() && self.take_some(piece) {
            filled += self.write_due(&mut out[filled..]);
        }
        filled
    }

    /// Says that nothing follows. `write` gives what is left of the replaced text of all that was taken.
    pub fn end(&mut self)
        ensures { self.new ≡ record self.old { text = record self.old.text { phase = Ended } } }
    {
        self.finder.end();
        self.ended = true;
    }

    /// Returns whether it was said that nothing follows.
    pub fn is_ended(&self) -> bool
        ensures { result ≡ is_closed self.now.text.phase }
    {
        self.ended
    }

    /// Writes as much of what is due as `out` has room for, and returns how much that is.
    fn write_due(&mut self, out: &mut [u8]) -> usize
        ensures writes { WritesDue self.old out.old out.new result self.new }
        ensures so_far { IsReplacedSoFar self.new }
    {
        let gap = copy_to(self.window.bytes(self.due.from, self.due.to), out);
        let text = copy_to(left_of(&self.texts, self.due.text), &mut out[gap..]);
        let filled = gap + text;
        self.due = self.due.after(gap, text);
        self.written = History::with(&self.written, &out[..filled]);
        filled
    }

    /// Takes bytes of the piece up to the next match, or as many as there is room for. Returns whether that brought anything.
    fn take_some(&mut self, piece: &mut &[u8]) -> bool
        requires { self.old.due ≡ [] }
        ensures takes { TakesSome self.old piece.old.now result self.new piece.new.now }
        ensures so_far { IsReplacedSoFar self.new }
    {
        let from = self.finder.settled();
        self.window.make_room(from);
        let most = piece.len().min(self.window.room());
        let mut left = &piece[..most];
        let found = self.finder.next(&mut left);
        let taken = most - left.len();
        self.window.push(&piece[..taken]);
        *piece = &piece[taken..];
        match found {
            Some(found) => {
                self.due = Due {
                    from,
                    to: found.start(),
                    text: Some(DueText {
                        number: found.pattern().as_usize(),
                        at: 0,
                    }),
                };
                true
            }
            None => {
                let to = self.finder.settled();
                self.due = Due {
                    from,
                    to,
                    text: None,
                };
                taken > 0 || from < to
            }
        }
    }
}

/// Returns what is left of the text of a match.
fn left_of<Z: Allocator>(texts: &Pieces<u8, Z>, text: Option<DueText>) -> &[u8]
    requires { IfSome text (IsDueFrom texts.now) }
    ensures value { result.now ≡ due_text texts.now text }
    ensures small { IfSome text (λ t. t.at + length result.now ≤ usize_max) }
{
    match text {
        Some(text) => &texts.get(text.number)[text.at..],
        None => &[],
    }
}

/// Copies as many bytes of a slice to the beginning of another as that has room for, and returns how many these are.
fn copy_to(bytes: &[u8], out: &mut [u8]) -> usize
    ensures least { result ≡ min (length bytes.now) (length out.old) }
    ensures copied { out.new ≡ take result bytes.now ++ drop result out.old }
{
    let count = bytes.len().min(out.len());
    out[..count].copy_from_slice(&bytes[..count]);
    count
}

/// Returns a copy of a list of texts.
///
/// # Errors
/// `AllocError` where a request for memory is refused.
fn copy_of<Z: Allocator + Clone>(alloc: Z, texts: &[&[u8]]) -> Result<Pieces<u8, Z>, AllocError>
    ensures { IfOk result (λ pieces. pieces ≡ bytes_of texts.now) }
{
    let mut pieces = Pieces::new(alloc)?;
    for text in texts {
        pieces.push(text)?;
    }
    Ok(pieces)
}
