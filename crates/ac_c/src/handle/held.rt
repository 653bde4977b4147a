//! What a handle holds on the heap.
ghost use Rattle.std.specs.Prelude.{◌≡◌, None};

use crate::stream::search::Stream;
use ac_search::{AhoCorasick, PieceReplacer};
use std::alloc::Global;

/// A searcher, and the search of a text in pieces or the replacement in one that was begun by it, if one was.
#[derive(Drop)]
pub struct Held {
    /// The searcher.
    pub searcher: AhoCorasick<Global>,
    /// The search of a text in pieces.
    pub stream: Option<Stream>,
    /// The replacement in a text in pieces.
    pub replacer: Option<PieceReplacer<Global, Global>>,
}

impl Held {
    /// Returns a searcher that has begun neither.
    pub fn of(searcher: AhoCorasick<Global>) -> Held
        ensures { result ≡ record { searcher = searcher; stream = None; replacer = None } }
    {
        Held {
            searcher,
            stream: None,
            replacer: None,
        }
    }
}
