//! What C relies on, and what follows from the definitions of what is due, as contracts of functions that do nothing.
ghost use Rattle.std.specs.Prelude.{◌≡◌, neg_ℤ, pos};
ghost use Rattle.ac_c.specs.Batches.{BeginsWithAll, listing_due, walk_due};
ghost use Rattle.ac_c.specs.Searches.{overlapping_in, walked_in};
ghost use Rattle.ac_c.specs.Streams.{IsAllWritten, ended_search, matches_taken, matches_given};
ghost use Rattle.ac_c.specs.declared.stream.search.PieceSearch.{PieceSearch};
ghost use Rattle.ac_c.specs.declared.status.TheConstants.{ANCHORED, ARGUMENTS, EMPTY_PATTERN, FOUND, LIMIT, MEMORY, OK, OVERLAPPING, UNANCHORED};

/// At the start of a span or before it, where nothing was given, all matches of the walk over the span are due, and all
/// occurrences of its listing.
///
/// So batches from there give, one after another, what a walk or a listing gives as a whole.
pub fn batches_begin_with_all()
    ensures walk { BeginsWithAll walk_due walked_in }
    ensures listing { BeginsWithAll listing_due overlapping_in }
{}

/// Once it was said that nothing follows, and all that is settled was written, all matches of the text were written.
///
/// So what all calls on a stream have written, one after another, is what a walk or a listing of the text gives as a whole.
pub fn streams_end_with_all()
    ensures { (s : PieceSearch) → IsAllWritten (ended_search s) → matches_given (ended_search s) ≡ matches_taken (ended_search s) }
{}

/// The statuses have these numbers, which the header of the C library names: 0 or more where a call has done its work, and below 0
/// where it has not.
pub fn statuses_are_numbered()
    ensures done { (OK ≡ pos 0) × (FOUND ≡ pos 1) }
    ensures wrong { (ARGUMENTS ≡ neg_ℤ (pos 1)) × (MEMORY ≡ neg_ℤ (pos 2)) × (LIMIT ≡ neg_ℤ (pos 3)) }
    ensures refused { (ANCHORED ≡ neg_ℤ (pos 4)) × (UNANCHORED ≡ neg_ℤ (pos 5)) }
    ensures unsupported { (OVERLAPPING ≡ neg_ℤ (pos 6)) × (EMPTY_PATTERN ≡ neg_ℤ (pos 7)) }
{}
