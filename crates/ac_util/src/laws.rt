//! Laws of the definitions. Each is the contract of a function that does nothing and has no condition.
//!
//! `answers` are for users of a search, and `values` are laws of the plain types.
pub mod answers;
pub mod values;

pub use answers::{
    closure_exchanges, earliest_is_standard, listing_goes_on, listing_is_exact,
    matches_are_not_empty, matches_cut_no_character, matches_lie_inside, only_the_span_counts,
    pick_comes_first, pieces_join, sameness_is_by_letter, settled_begins_whole, settled_stays,
    standard_holds_back, steps_replace, stream_goes_on, tests_decide, text_closure_exchanges,
    walk_goes_on, walk_has_beginnings, walk_is_in_order, walk_is_short,
};
pub use values::{
    classes_are_lawful, classes_set_apart, clones_are_equal, clones_take_no_memory,
    defaults_are_stated, equal_values_hash_equally, errors_compare_by_their_fields,
    greatest_number_is_stated, numbers_compare_as_numbers, strides_have_room,
    values_compare_by_their_fields, values_hash_by_their_fields,
};
