//! The exports for C of `ac_search`, which searches for many patterns at once.
//!
//! A handle owns a searcher, and the search of a text in pieces or the replacement in one that it has begun, if it has; or
//! it is empty. C lends the searcher to a call as a reader, and a slice as a pointer, which isn't null, and a length. All else is tested: whatever
//! numbers C passes, a call does no harm. Handles and readers are `Send`, so calls in many threads may read one searcher
//! at once.
#![tactic(auto)]

pub mod clone;
pub mod facts;
pub mod find;
pub mod handle;
pub mod laws;
pub mod open;
pub mod options;
pub mod overlapping;
pub mod reader;
pub mod replace;
pub mod replacer;
pub mod search;
pub mod status;
pub mod stream;
pub mod texts;
pub mod walk;
