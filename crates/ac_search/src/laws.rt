//! Laws that users of a searcher may rely on, each the contract of a function that does nothing. They are about the
//! definitions that the contracts of the searches are made of: nothing is called, nothing is assumed.
ghost use Rattle.std.specs.Prelude.{◌≡◌, ◌≢◌, ◌↔◌, All, Bool, Contains, IsTrue, List, None, false, length, map, true, ℕ, ◌≤◌, ◌+◌, ◌-◌};
ghost use Rattle.std.specs.Str.{IsUtf8};
ghost use Rattle.ac_util.specs.Input.{whole_input};
ghost use Rattle.ac_util.specs.Replacement.{Calls};
ghost use Rattle.ac_util.specs.Stream.{AlwaysWritesOut, by_length, text_of};
ghost use Rattle.ac_automaton.specs.Util.{all, AreTexts, InputView, input_of, Built, find_refusal, find_result, exchanged, exchanged_in_text, has_empty, LiesIn, MatchKind, Occurrence, Occurs, search_in, shortest_len, StartKind, stream_result, walk_result, IsAllSettled, IsSettledBy};
ghost use Rattle.ac_automaton.specs.Iterators.{GoesOn};
ghost use Rattle.ac_automaton.specs.Overlaps.{ListsNext};
ghost use Rattle.ac_automaton.specs.Streams.{Streams, items_left};
ghost use Rattle.ac_search.specs.Alike.{ClosuresWrite, ListsWrite, UnchangedBegins, BuildAlike, FindAlike, ListAlike, ReplaceAlike, StreamAlike, EndsAtError, LeavesLess, StaysEnded, EndsInside, FindsOnly, IsItsPattern, IsNumberedBelow, LeavesWhole, ListsOnly, SomeOccurs, StandApart, StandInOrder, StandsBetween, StandsBetweenCharacters, WalksOnly, AreWords};
ghost use Rattle.ac_search.specs.Searchers.{Settings, with_start};
ghost use Rattle.ac_search.specs.StreamLoops.{BeginsUnderway, ErrorLeavesSettled, MatchGoesOn, NoneEnds};
ghost use Rattle.ac_search.specs.declared.ahocorasick.choice.AhoCorasickKind.{AhoCorasickKind};
ghost use Rattle.ac_engines.specs.declared.nfa.contiguous.format.Format.{Format};

use crate::ahocorasick::{AhoCorasick, AhoCorasickKind};
use ac_engines::nfa::contiguous::Format;
use ac_util::device::{Sink, Source};
pub use ac_util::laws::{
    classes_are_lawful, classes_set_apart, clones_are_equal, clones_take_no_memory,
    closure_exchanges, defaults_are_stated, earliest_is_standard, equal_values_hash_equally,
    errors_compare_by_their_fields, greatest_number_is_stated, listing_goes_on, listing_is_exact,
    matches_are_not_empty, matches_cut_no_character, matches_lie_inside,
    numbers_compare_as_numbers, only_the_span_counts, pick_comes_first, pieces_join,
    sameness_is_by_letter, settled_begins_whole, settled_stays, standard_holds_back, steps_replace,
    stream_goes_on, strides_have_room, tests_decide, text_closure_exchanges,
    values_compare_by_their_fields, values_hash_by_their_fields, walk_goes_on, walk_has_beginnings,
    walk_is_in_order, walk_is_short,
};
use ac_util::search::{Anchored, Input, Match, StartKind};
use std::alloc::Allocator;
use std::io;

/// The match that a find returns, each match of a walk and each occurrence of the listing lie in the input's span, and
/// so in the haystack, and have the number of a pattern. A walk has at most one match more than the span has bytes.
///
/// Call this before a loop over the matches in which the haystack is sliced at them, or a list is indexed by their
/// patterns. The loop's invariant is then `walk` or `listing`, over the matches still to come; or `ends` or
/// `listing_ends` where the searcher is a variable of the function. A `count` of the matches needs no more than the
/// call.
pub fn answers_lie_inside<A: Allocator>(searcher: &AhoCorasick<A>, input: Input<'_>)
    ensures find { FindsOnly LiesIn searcher.now.built (input_of input.entry) }
    ensures walk { WalksOnly LiesIn searcher.now.built (input_of input.entry) }
    ensures ends { WalksOnly EndsInside searcher.now.built (input_of input.entry) }
    ensures listing { ListsOnly LiesIn searcher.now.built (input_of input.entry) }
    ensures listing_ends { ListsOnly EndsInside searcher.now.built (input_of input.entry) }
    ensures few { length (walk_result searcher.now.built (input_of input.entry)) ≤ (input_of input.entry).end + 1 -
        (input_of input.entry).start }
{}

/// A searcher supports a find and a walk over an input that isn't anchored, unless it supports anchored searches alone.
///
/// Call this before a `find` or a loop over the matches, in a function where much else stands after the build and the check
/// doesn't find this by itself.
pub fn finds_are_supported<A: Allocator>(searcher: &AhoCorasick<A>, input: Input<'_>)
    requires starts { searcher.now.built.start_kind ≢ StartKind.Anchored }
    requires unanchored { (input_of input).anchored ≡ Anchored.No }
    ensures { find_refusal searcher.now.built (input_of input.entry) ≡ None }
{}

/// Where there is a value for each pattern, the answer of a find, each match of a walk and each item of the listing have
/// the number of a value.
///
/// Call this before a loop over the matches in which the values are indexed by their patterns. The loop's invariant is then
/// `walk` or `listing` over the matches still to come, also where the searcher is a variable of the function.
pub fn answers_have_values<A: Allocator, T>(
    searcher: &AhoCorasick<A>,
    input: Input<'_>,
    values: &[T],
)
    requires { length values.now ≡ length searcher.now.built.patterns }
    ensures find { FindsOnly (IsNumberedBelow (length values.now)) searcher.now.built (input_of input.entry) }
    ensures walk { WalksOnly (IsNumberedBelow (length values.now)) searcher.now.built (input_of input.entry) }
    ensures listing { ListsOnly (IsNumberedBelow (length values.now)) searcher.now.built (input_of input.entry) }
{}

/// The matches of a walk stand one after another in the input's span, and so in the haystack.
///
/// Call this before a loop over the matches that also slices the haystack between them. The loop's invariant is then
/// `StandInOrder`, from where the match before ended, over the matches still to come.
pub fn matches_stand_in_order<A: Allocator>(searcher: &AhoCorasick<A>, input: Input<'_>)
    ensures { StandInOrder (input_of input.entry).start (length (input_of input.entry).haystack)
        (walk_result searcher.now.built (input_of input.entry)) }
{}

/// The matches of a walk, and what stands between them, make the whole haystack: with each match exchanged for what the haystack
/// has there, it stays as it is. So do a text and a stream.
///
/// Call this where a haystack is cut into its matches and the gaps between them, and put together again.
pub fn matches_and_gaps_make_the_whole()
    ensures bytes { (built : Built) (bytes : List ℕ) → LeavesWhole bytes (exchanged built bytes) }
    ensures text { (built : Built) (text : List ℕ) → LeavesWhole text (exchanged_in_text built text) }
    ensures stream { (built : Built) (bytes : List ℕ) → LeavesWhole bytes (stream_result built bytes) }
{}

/// Where no pattern is empty, the matches of a walk stand one after another, and none of them is empty.
///
/// Call this as `matches_stand_in_order`, where each match has to have a byte. The loop's invariant is then `StandApart`.
pub fn matches_stand_apart<A: Allocator>(searcher: &AhoCorasick<A>, input: Input<'_>)
    requires { has_empty searcher.now.built ≡ false }
    ensures { StandApart (input_of input.entry).start (length (input_of input.entry).haystack)
        (walk_result searcher.now.built (input_of input.entry)) }
{}

/// The matches of a stream stand one after another in its bytes; and where no pattern is empty, none of them is.
pub fn stream_matches_stand_in_order<A: Allocator>(searcher: &AhoCorasick<A>)
    ensures in_order { (bytes : List ℕ)
        → StandInOrder 0 (length bytes) (stream_result searcher.now.built bytes) }
    ensures apart { (bytes : List ℕ) → has_empty searcher.now.built ≡ false
        → StandApart 0 (length bytes) (stream_result searcher.now.built bytes) }
{}

/// Patterns that `patterns_of` made of texts are texts as `answers_cut_no_character` requires, if none of them is empty.
///
/// Call this before it. A searcher whose `min_pattern_len` isn't 0 has no empty pattern (`shortest_is_empty`).
pub fn nonempty_texts_are_texts<A: Allocator>(searcher: &AhoCorasick<A>)
    requires texts { All IsUtf8 searcher.now.built.patterns }
    requires nonempty { has_empty searcher.now.built ≡ false }
    ensures { AreTexts searcher.now.built.patterns }
{}

/// Patterns of ASCII bytes of which none is empty are texts, as `answers_cut_no_character` requires.
///
/// Call this before it. The check sees by itself that literals are such patterns (`AreWords`).
pub fn words_are_texts<A: Allocator>(searcher: &AhoCorasick<A>)
    requires { AreWords searcher.now.built.patterns }
    ensures { AreTexts searcher.now.built.patterns }
{}

/// Where the haystack and all patterns are texts, and no pattern is empty, the match that a find returns, each match of
/// a walk and each occurrence of the listing start and end between characters.
///
/// Call this as `answers_lie_inside`, where the haystack is a `str`.
pub fn answers_cut_no_character<A: Allocator>(searcher: &AhoCorasick<A>, input: Input<'_>)
    requires patterns { AreTexts searcher.now.built.patterns }
    requires haystack { IsUtf8 (input_of input).haystack }
    ensures find { FindsOnly StandsBetweenCharacters searcher.now.built (input_of input.entry) }
    ensures walk { WalksOnly StandsBetweenCharacters searcher.now.built (input_of input.entry) }
    ensures listing { ListsOnly StandsBetweenCharacters searcher.now.built (input_of input.entry) }
{}

/// Where case counts, what the haystack has at a match is the match's pattern: at the one that a find returns, at each of a
/// walk, and at each item of the listing. Where case is ignored it is the same as the pattern (`answers_lie_inside`).
///
/// Call this where a slice of the haystack at a match stands for the pattern.
pub fn answers_are_their_patterns<A: Allocator>(searcher: &AhoCorasick<A>, input: Input<'_>)
    requires { searcher.now.built.ignores_case ≡ false }
    ensures find { FindsOnly IsItsPattern searcher.now.built (input_of input.entry) }
    ensures walk { WalksOnly IsItsPattern searcher.now.built (input_of input.entry) }
    ensures listing { ListsOnly IsItsPattern searcher.now.built (input_of input.entry) }
{}

/// A pattern occurs in a haystack exactly where that is some bytes, then the pattern, and then some more; and exactly there it
/// has an item in the listing.
///
/// Call this to say what a match, or that there is none, means by the haystack alone.
pub fn patterns_stand_between()
    ensures occurs { (built : Built) (bytes : List ℕ) (m : Occurrence)
        → Occurs (search_in built (whole_input bytes)) m ↔ StandsBetween built bytes m }
    ensures listed { (built : Built) (bytes : List ℕ) (m : Occurrence)
        → Contains (all (search_in built (whole_input bytes))) m ↔ StandsBetween built bytes m }
{}

/// A find returns a match exactly if something occurs, whatever the match kind and `earliest`.
pub fn finds_if_something_occurs()
    ensures { (built : Built) (input : InputView) → SomeOccurs built input ↔ (find_result built input ≢ None) }
{}

/// The shortest pattern has no bytes exactly if some pattern is empty.
pub fn shortest_is_empty()
    ensures { (built : Built) → (shortest_len built.patterns ≡ 0) ↔ IsTrue (has_empty built) }
{}

/// Two searchers over the same patterns, match kind, case setting and start kind give the same answer to every search,
/// whatever their engines, dense depths and classes of bytes are, and whether they have a prefilter: what one refuses,
/// finds, walks over, lists or replaces, in memory or in a stream, the other does too.
///
/// Their values differ in what serves them, so this speaks of the parts that decide.
pub fn engines_agree<A: Allocator, B: Allocator>(one: &AhoCorasick<A>, other: &AhoCorasick<B>)
    requires patterns { one.now.built.patterns ≡ other.now.built.patterns }
    requires kind { one.now.built.kind ≡ other.now.built.kind }
    requires ignores_case { one.now.built.ignores_case ≡ other.now.built.ignores_case }
    requires start_kind { one.now.built.start_kind ≡ other.now.built.start_kind }
    ensures built { one.now.built ≡ other.now.built }
    ensures find { FindAlike one.now.built other.now.built }
    ensures walk { (input : InputView) → walk_result one.now.built input ≡ walk_result other.now.built input }
    ensures listing { ListAlike one.now.built other.now.built }
    ensures replacement { ReplaceAlike one.now.built other.now.built }
    ensures streams { StreamAlike one.now.built other.now.built }
{}

/// Two builds over the same patterns, whose settings have the same match kind, case setting and start kind, give
/// searchers about which `engines_agree` speaks, whatever the other settings are.
pub fn settings_change_no_answer()
    ensures { (one other : Settings) → BuildAlike one other }
{}

/// An iterator that has returned `None` keeps returning it: one over a walk, over a listing, or over the matches of a stream,
/// which does so after an error too. With `walk_is_in_order` this is all that a walk promises of its order.
pub fn ended_iterators_stay_ended()
    ensures walk { StaysEnded GoesOn }
    ensures listing { StaysEnded ListsNext }
    ensures stream { (ends : Bool) → StaysEnded (Streams ends) }
    ensures failed { (ends : Bool) → EndsAtError (Streams ends) }
{}

/// Every iterator ends, since each item leaves fewer that may follow: of a walk, of a listing, and of a stream, whatever its
/// reader gives.
///
/// A loop of one's own over `next` has what is left as its measure.
pub fn iterators_end()
    ensures walk { LeavesLess (λ w. length w.rest) GoesOn }
    ensures listing { LeavesLess (λ l. length l.rest) ListsNext }
    ensures stream { (ends : Bool) → LeavesLess items_left (Streams ends) }
{}

/// What a loop over `StreamFinder::next` has seen. A search that begins is under way and has given no match. Each match that it
/// gives is one more of those of the stream, and is never taken back. At `None` it has met the end and given all of them. At an error it has
/// given those of the bytes that came which no longer stream changes; under `MatchKind::Standard` these are all of them.
///
/// Call this before such a loop. The loop's invariant is then that the search is under way (`IsUnderway`), and what the loop has
/// made of the matches that were given (`given_matches`).
pub fn finder_goes_on()
    ensures begins { (ends : Bool) (built : Built) → BeginsUnderway ends built }
    ensures goes_on { (ends : Bool) (built : Built) → MatchGoesOn ends built }
    ensures ends { (ends : Bool) (built : Built) → NoneEnds ends built }
    ensures failed { (ends : Bool) (built : Built) → ErrorLeavesSettled ends built }
{}

/// Whichever starts are supported, a stream is settled up to the same offsets by the same matches.
///
/// The search that `AhoCorasick::try_stream_finder` returns is for what its searcher was built from, but its engine may
/// support more starts. Call this where what that search says of a failed read has to be said of the searcher.
pub fn streams_settle_alike()
    ensures some { (kind : MatchKind) (built : Built) (start : StartKind) → (bytes : List ℕ) (given place : ℕ)
        → IsSettledBy kind (with_start built start) bytes given place → IsSettledBy kind built bytes given place }
    ensures all { (built : Built) (start : StartKind) → (bytes : List ℕ) (given place : ℕ)
        → IsAllSettled (with_start built start) bytes given place → IsAllSettled built bytes given place }
{}

/// Two values of `AhoCorasickKind` compare equal exactly if they are the same, and a clone of one is that value.
pub fn engine_names_compare()
    ensures equal { (a b : AhoCorasickKind)
        → (⟦<AhoCorasickKind as PartialEq>⟧.eq a b ≡ true) ↔ (a ≡ b) }
    ensures clone { (a b : AhoCorasickKind) → ⟦<AhoCorasickKind as Clone>⟧.is_clone a b → b ≡ a }
    ensures no_memory { (a : AhoCorasickKind) → ⟦<AhoCorasickKind as Clone>⟧.is_infallible a }
{}

/// Two forms of packed states compare equal exactly if they are the same, and a clone of one is that form.
pub fn formats_compare()
    ensures equal { (a b : Format) → (⟦<Format as PartialEq>⟧.eq a b ≡ true) ↔ (a ≡ b) }
    ensures clone { (a b : Format) → ⟦<Format as Clone>⟧.is_clone a b → b ≡ a }
    ensures no_memory { (a : Format) → ⟦<Format as Clone>⟧.is_infallible a }
{}

/// A replacement of a stream by a list leaves the stream with each match exchanged for the text of its pattern; and where it
/// fails, a prefix of what is written for every stream that begins with the bytes that were read. Where each text is what `f`
/// gives for the length of its pattern, `f` of a match's length stands for the match.
///
/// Call this before such a replacement, as `lists_write_exchanged::<R, W>()`, to say what was written by the stream alone. It
/// also says that where nothing was read or written, an empty prefix was written: for errors that come before the replacement.
pub fn lists_write_exchanged<R: Source, W: Sink>()
    ensures texts { (built : Built) (texts : List (List ℕ)) → ListsWrite R.empty_means_end R.told W.told built texts (text_of texts) }
    ensures by_length { (built : Built) (texts : List (List ℕ)) (f : ℕ → List ℕ)
        → texts ≡ map (λ p. f (length p)) built.patterns → ListsWrite R.empty_means_end R.told W.told built texts (by_length f) }
    ensures unchanged { (built : Built) (write : Occurrence → List ℕ → List ℕ) (reader : R) (writer : W)
        → UnchangedBegins R.empty_means_end R.told W.told built write reader writer }
{}

/// A closure that writes what `write` gives for each match and its slice, and that returns an error only after a prefix of
/// that, leaves the stream with each match exchanged for it; and where the replacement fails, a prefix of what is written for
/// every stream that begins with the bytes that were read.
///
/// Call this before a replacement of a stream by such a closure, as `closures_write_exchanged::<R, W, _>(&closure)`.
pub fn closures_write_exchanged<
    R: Source,
    W: Sink,
    F: FnMut(&Match, &[u8], &mut W) -> io::Result<()>,
>(_closure: &F)
    ensures closure { (built : Built) (write : Occurrence → List ℕ → List ℕ) → AlwaysWritesOut (Calls F.FnMut) W.told write
        → ClosuresWrite R.empty_means_end R.told W.told F.FnMut built write }
    ensures unchanged { (built : Built) (write : Occurrence → List ℕ → List ℕ) (reader : R) (writer : W)
        → UnchangedBegins R.empty_means_end R.told W.told built write reader writer }
{}
