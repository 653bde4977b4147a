//! For users: what follows from the definitions of what a search answers.
ghost use Rattle.std.specs.Prelude.{◌≡◌, ℕ, ◌++◌, ◌<◌, ◌≤◌, ◌↔◌, ◌⊎◌, Bool, true, false, List, [], Contains, AllPairs, length, slice_get, Option, None, Some, ◌+◌, ◌-◌, filter, nat_le, take, slice_index};
ghost use Rattle.std.specs.Str.{IsCharBoundary, IsUtf8};
ghost use Rattle.ac_util.specs.declared.search.MatchKind.{MatchKind};
ghost use Rattle.ac_util.specs.declared.search.MatchKind.TheVariants.{Standard};
ghost use Rattle.ac_util.specs.Built.{Built, find_result, has_empty, LiesIn, search_in, walk_result, AreTexts, IsBetweenCharacters};
ghost use Rattle.ac_util.specs.Device.{Writing, WritesAll, WritesBeginning, WritesUntilFailure};
ghost use Rattle.ac_util.specs.declared.device.WriteError.{WriteError};
ghost use Rattle.ac_util.specs.Input.{InputView};
ghost use Rattle.ac_util.specs.Laws.{AllLieIn, Decides, EarliestIsStandard, HoldsBack, SettledBegins, SettledStays, StayingIsDecided, StepsKeep, StepsLeaveBeginning, StepsLeaveWhole, WalkGoesOn};
ghost use Rattle.ac_util.specs.Listing.{all, IsBefore, item_at, place_after};
ghost use Rattle.ac_util.specs.Occurrence.{Occurrence, IsSame, same_byte, same_string, Occurs, Search, occurs, pattern_of, IsCapitalOf};
ghost use Rattle.ac_util.specs.Pick.{IsPick, order_of, pick};
ghost use Rattle.ac_util.specs.Replacement.{is_char_boundary, Calls, ClosureExchanges};
ghost use Rattle.ac_util.specs.declared.error.ReplaceError.{ReplaceError};
ghost use Rattle.ac_util.specs.Node.{cut, outward};
ghost use Rattle.ac_util.specs.Walk.{IsAfter, walk, next_match, walk_after};
ghost use Rattle.ac_util.specs.Stream.{stream_result};

use crate::error::ReplaceError;
use crate::search::Match;

/// Two bytes are the same if they are equal or, where case is ignored, one ASCII letter in its two cases. Two strings
/// are the same if they have one length and their bytes are the same, one by one; where case counts they are the same
/// if they are equal.
pub fn sameness_is_by_letter()
    ensures bytes { (a b : ℕ) → (same_byte false a b ≡ true) ↔ (a ≡ b) }
    ensures letters { (a b : ℕ) → (same_byte true a b ≡ true) ↔ ((a ≡ b) ⊎ (IsCapitalOf a b ⊎ IsCapitalOf b a)) }
    ensures strings { (ignores_case : Bool) (s t : List ℕ)
        → IsSame ignores_case s t ↔ ((length s ≡ length t)
        × ((k : ℕ) → k < length s → same_byte ignores_case (slice_index s k) (slice_index t k) ≡ true)) }
    ensures counted { (s t : List ℕ) → IsSame false s t ↔ (s ≡ t) }
{}

/// The computed tests of sameness, occurrence and character boundaries are true exactly where their facts hold.
pub fn tests_decide()
    ensures strings { (ignores_case : Bool) → Decides (same_string ignores_case) (IsSame ignores_case) }
    ensures occurrences { Decides occurs Occurs }
    ensures boundaries { Decides is_char_boundary IsCharBoundary }
{}

/// The listing has exactly the occurrences, in strict order and so each once.
pub fn listing_is_exact()
    ensures exact { (q : Search) (m : Occurrence) → Contains (all q) m ↔ Occurs q m }
    ensures in_order { (q : Search) → AllPairs IsBefore (all q) }
{}

/// At a rank before its end the listing has an item, and the next rank is one further on; past its end the rank stays,
/// and all items were given. Call this in a loop over the ranks of a listing: the number of items that are left is its
/// measure.
pub fn listing_goes_on()
    ensures ends { (q : Search) (place : ℕ) → item_at q place ≡ None → (length (all q) ≤ place)
        × (place_after q place ≡ place) }
    ensures goes_on { (q : Search) (place : ℕ) (m : Occurrence) → item_at q place ≡ Some m → (place < length (all q))
        × (place_after q place ≡ place + 1) }
{}

/// Bytes outside the span never count: what occurs in it is what occurs in its bytes alone. In a span without
/// bytes only empty patterns occur, and in one that starts past its end nothing does.
pub fn only_the_span_counts()
    ensures cut { (q : Search) (m : Occurrence) → q.low ≤ q.high
        → Occurs (cut q) m ↔ Occurs q (outward q.low m) }
    ensures empty { (q : Search) (m : Occurrence) → q.low ≡ q.high → Occurs q m → pattern_of q.patterns m.pattern ≡ [] }
    ensures past_end { (q : Search) (m : Occurrence) → q.high < q.low → ¬ Occurs q m }
{}

/// What a find, a walk or a listing gives lies in the input's span, and so in the haystack: it has the number
/// of a pattern, and that pattern's length and bytes. Call this where a haystack is sliced at a match, or a
/// list is indexed by its pattern.
#[tactic(auto, using(crate::proofs::LawSets::matches_lie_inside))]
pub fn matches_lie_inside()
    ensures find { (built : Built) (input : InputView) (m : Occurrence) → input.end ≤ length input.haystack
        → find_result built input ≡ Some m → LiesIn built input m }
    ensures walk { AllLieIn walk_result }
    ensures listing { AllLieIn (λ built input. all (search_in built input)) }
{}

/// Where the haystack and all patterns are texts, and no pattern is empty, a match starts and ends between
/// characters, whether case counts or not. Call this where a `str` is sliced at a match.
pub fn matches_cut_no_character()
    ensures { (built : Built) (input : InputView) (m : Occurrence) → AreTexts built.patterns → IsUtf8 input.haystack
        → LiesIn built input m → IsBetweenCharacters input.haystack m }
{}

/// The pick is the one answer that its relation allows; under Standard it is the first of the listing.
#[tactic(auto, using(crate::proofs::LawSets::pick_comes_first))]
pub fn pick_comes_first()
    ensures first { (kind : MatchKind) (q : Search) → IsPick kind q (pick kind q) }
    ensures only { (kind : MatchKind) (q : Search) (r : Option Occurrence) → IsPick kind q r
        → r ≡ pick kind q }
    ensures standard { (q : Search) → pick Standard q ≡ slice_get (all q) 0 }
{}

/// `earliest` changes nothing under Standard, and gives what Standard picks under every kind, in a find and in a walk.
pub fn earliest_is_standard()
    ensures standard { (earliest : Bool)
        → order_of Standard earliest ≡ Standard }
    ensures others { (kind : MatchKind) → order_of kind true ≡ Standard }
    ensures unasked { (kind : MatchKind) → order_of kind false ≡ kind }
    ensures find { EarliestIsStandard find_result }
    ensures walk { EarliestIsStandard walk_result }
{}

/// The walk ends where there is no next match; else it is that match, and then the walk from its end on.
pub fn walk_goes_on()
    ensures ends { (kind : MatchKind) (q : Search) (last : Option ℕ) → next_match kind q last ≡ None
        → walk_after kind q last ≡ [] }
    ensures goes_on { (kind : MatchKind) (q : Search) (last : Option ℕ) → WalkGoesOn kind q last }
{}

/// The matches of a walk are in order and never overlap, and their ends rise: no empty one ends where the one
/// before it did.
pub fn walk_is_in_order()
    ensures { (kind : MatchKind) (q : Search) → AllPairs IsAfter (walk kind q) }
{}

/// A walk has at most one match more than the span has bytes. Call this where matches are counted.
pub fn walk_is_short()
    ensures { (built : Built) (input : InputView) → length (walk_result built input) ≤ (input.end + 1 - input.start) }
{}

/// Under Standard the walk over a beginning of the span is those matches of the whole walk that end within it.
pub fn walk_has_beginnings()
    ensures { (q : Search) (end : ℕ) → end ≤ q.high
        → walk Standard (record q { high = end }) ≡ filter (λ m. nat_le m.end end) (walk Standard q) }
{}

/// Under Standard the matches of a stream stay as more of it comes, and others follow: what was given before a read is right
/// whatever the read brings.
pub fn stream_goes_on()
    ensures { (built : Built) (bytes more : List ℕ) → built.kind ≡ Standard
        → take (length (stream_result built bytes)) (stream_result built (bytes ++ more))
        ≡ stream_result built bytes }
{}

/// Under a leftmost kind without an empty pattern the matches by which a stream is settled stay as more of it comes,
/// and no other match starts before the offset up to which it is settled. And a match that stays the next one whatever
/// follows is decided: no offset up to and including its start is open.
pub fn settled_stays()
    ensures stays { (built : Built) (bytes more : List ℕ) → SettledStays built bytes more }
    ensures decided { (built : Built) (bytes : List ℕ) → StayingIsDecided built bytes }
{}

/// Under Standard the replaced text of a stream as far as it is settled is all of the replaced text but as many bytes as are
/// held back.
pub fn standard_holds_back()
    ensures { (built : Built) (bytes : List ℕ) (texts : List (List ℕ)) → HoldsBack built bytes texts }
{}

/// Calls that append the text of each pattern and go on leave the replaced text after what was there, and a
/// beginning of it where an append failed, though it took some of its bytes. What was there stays.
pub fn steps_replace()
    ensures whole { (haystack : List ℕ) (texts : List (List ℕ)) → StepsLeaveWhole haystack texts }
    ensures begun { (haystack : List ℕ) (texts : List (List ℕ)) → StepsLeaveBeginning haystack texts }
    ensures kept { (haystack : List ℕ) (texts : List (List ℕ)) → StepsKeep haystack texts }
{}

/// A closure that appends to its destination, at each call, what `write` gives for the match and its slice, and returns
/// true, leaves the haystack with each match replaced by that, after what was there before; and a beginning of it where
/// an append was refused. One that only appends, whatever it returns, leaves what was there before at the beginning.
/// Call this before a replacement by such a closure.
pub fn closure_exchanges<D, F: FnMut(&Match, &[u8], &mut D) -> bool>(_closure: &F)
    ensures { ClosureExchanges ReplaceError (Calls F.FnMut) }
{}

/// The same as `closure_exchanges`, for a replacement in a text.
pub fn text_closure_exchanges<D, F: FnMut(&Match, &str, &mut D) -> bool>(_closure: &F)
    ensures { ClosureExchanges ReplaceError (Calls F.FnMut) }
{}

/// What is settled of a stream begins what is written for every stream that begins as it does, whatever its matches are
/// replaced by. So nothing that was written by then would have been replaced in a longer stream.
pub fn settled_begins_whole()
    ensures { (built : Built) (write : Occurrence → List ℕ → List ℕ) (bytes more : List ℕ)
        → SettledBegins built write bytes more }
{}

/// Where no pattern is empty, neither is any match.
pub fn matches_are_not_empty()
    ensures { (built : Built) (input : InputView) (m : Occurrence) → has_empty built ≡ false → LiesIn built input m
        → m.start < m.end }
{}

/// Pieces that are written one after another are written as one: all of them, or a beginning where the last one fails. Call
/// this in a function that writes in several pieces, as a closure may that replaces matches of a stream.
pub fn pieces_join()
    ensures whole { (a b c : Writing) (xs ys : List ℕ) → WritesAll a b xs → WritesAll b c ys → WritesAll a c (xs ++ ys) }
    ensures begun { (a b c : Writing) (xs ys : List ℕ) → WritesAll a b xs → WritesBeginning b c ys
        → WritesBeginning a c (xs ++ ys) }
    ensures longer { (a b : Writing) (xs ys : List ℕ) → WritesBeginning a b xs → WritesBeginning a b (xs ++ ys) }
    ensures failed { (a b : Writing) (xs : List ℕ) (e : WriteError) → WritesUntilFailure a b xs e → WritesBeginning a b xs }
{}
