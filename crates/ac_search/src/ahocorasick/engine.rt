//! The engines of a searcher and their iterators.
ghost use Rattle.std.specs.Prelude.{◌≡◌, IfOk};
ghost use Rattle.ac_automaton.specs.Prelude.{common_of, GivesRead, GoesOn, kept_len, ListsNext, ListsTaken, Streams, TakesOn};
ghost use Rattle.ac_search.specs.Engines.{built_of, wants_prefilter_of, in_pieces, listing_in, name_of, piece_listing_in, states_of, streaming_in, walking_in};
ghost use Rattle.ac_automaton.specs.Streams.{on};
ghost use Rattle.ac_automaton.specs.declared.automaton.stream_settled.Phase.TheVariants.{Ended};

use super::choice::AhoCorasickKind;
use ac_automaton::automaton::{self, Automaton, Common};
use ac_automaton::nfa::noncontiguous;
use ac_engines::dfa;
use ac_engines::nfa::contiguous;
use ac_util::device::{Sink, Source};
use ac_util::error::{MatchError, ReplaceError, StreamError};
use ac_util::search::{Input, Match, MatchKind};
use std::alloc::{AllocError, Allocator};
use std::io;
use std::sync::Arc;

/// Does the same with a value of each engine's type. With a second name, what that gives is made a value of that enum.
macro_rules! by_engine {
    ($kinds:ident, $value:expr, $it:ident => $does:expr) => {
        match $value {
            $kinds::Noncontiguous($it) => $does,
            $kinds::Contiguous($it) => $does,
            $kinds::Dfa($it) => $does,
        }
    };
    ($kinds:ident, $value:expr, $it:ident => $into:ident, $does:expr) => {
        match $value {
            $kinds::Noncontiguous($it) => $into::Noncontiguous($does),
            $kinds::Contiguous($it) => $into::Contiguous($does),
            $kinds::Dfa($it) => $into::Dfa($does),
        }
    };
}

pub(super) use by_engine;

/// The engine of a searcher, which its clones share.
#[derive(Drop)]
pub(super) enum Engine<A: Allocator> {
    Noncontiguous(Arc<noncontiguous::NFA<A>, A>),
    Contiguous(Arc<contiguous::NFA<A>, A>),
    Dfa(Arc<dfa::DFA<A>, A>),
}

impl<A: Allocator> Engine<A> {
    /// Returns another handle to the same engine.
    ///
    /// # Errors
    /// `AllocError` where there are more handles than a `usize` counts.
    pub(super) fn share(&self) -> Result<Engine<A>, AllocError>
        ensures built { IfOk result (λ engine. built_of engine ≡ built_of self.now) }
        ensures wants_prefilter { IfOk result (λ engine. wants_prefilter_of engine ≡ wants_prefilter_of self.now) }
        ensures states { IfOk result (λ engine. states_of engine ≡ states_of self.now) }
        ensures kind { IfOk result (λ engine. name_of engine ≡ name_of self.now) }
    {
        Ok(by_engine!(Engine, self, engine => Engine, engine.clone()?))
    }

    /// Returns the engine's name.
    pub(super) fn kind(&self) -> AhoCorasickKind
        ensures { result ≡ name_of self.now }
    {
        match self {
            Engine::Noncontiguous(_) => AhoCorasickKind::NoncontiguousNFA,
            Engine::Contiguous(_) => AhoCorasickKind::ContiguousNFA,
            Engine::Dfa(_) => AhoCorasickKind::DFA,
        }
    }

    /// Returns what every engine has, whatever its states are.
    pub(super) fn common(&self) -> &Common<A>
        ensures { result.now ≡ common_of (built_of self.now) (wants_prefilter_of self.now) }
    {
        by_engine!(Engine, self, engine => engine.as_ref().common())
    }

    /// Returns about how many bytes of memory the engine takes. Nothing is promised about the number.
    pub(super) fn memory_usage(&self) -> usize {
        by_engine!(Engine, self, engine => engine.as_ref().memory_usage())
    }
}

/// An engine's iterator over the matches of a walk.
#[derive(Drop)]
pub(super) enum EngineFindIter<'a, 'h, A: Allocator> {
    Noncontiguous(automaton::FindIter<'a, 'h, noncontiguous::NFA<A>>),
    Contiguous(automaton::FindIter<'a, 'h, contiguous::NFA<A>>),
    Dfa(automaton::FindIter<'a, 'h, dfa::DFA<A>>),
}

impl<'a, 'h, A: Allocator> EngineFindIter<'a, 'h, A> {
    /// Returns the next match, and moves on.
    #[inline]
    pub(super) fn next(&mut self) -> Option<Match>
        ensures { GoesOn (walking_in self.old) result (walking_in self.new) }
    {
        by_engine!(EngineFindIter, self, matches => matches.next())
    }
}

/// An engine's iterator over the listing.
#[derive(Drop)]
pub(super) enum EngineFindOverlappingIter<'a, 'h, A: Allocator> {
    Noncontiguous(automaton::FindOverlappingIter<'a, 'h, noncontiguous::NFA<A>>),
    Contiguous(automaton::FindOverlappingIter<'a, 'h, contiguous::NFA<A>>),
    Dfa(automaton::FindOverlappingIter<'a, 'h, dfa::DFA<A>>),
}

impl<'a, 'h, A: Allocator> EngineFindOverlappingIter<'a, 'h, A> {
    /// Returns the next item, and moves on.
    #[inline]
    pub(super) fn next(&mut self) -> Option<Match>
        ensures { ListsNext (listing_in self.old) result (listing_in self.new) }
    {
        by_engine!(EngineFindOverlappingIter, self, items => items.next())
    }
}

/// An engine's search of a stream.
#[derive(Drop)]
pub(super) enum EngineStreamFinder<'a, A: Allocator, Z: Allocator> {
    Noncontiguous(automaton::StreamFinder<'a, noncontiguous::NFA<A>, Z>),
    Contiguous(automaton::StreamFinder<'a, contiguous::NFA<A>, Z>),
    Dfa(automaton::StreamFinder<'a, dfa::DFA<A>, Z>),
}

impl<'a, A: Allocator, Z: Allocator> EngineStreamFinder<'a, A, Z> {
    /// Returns the next match of the stream, and reads more of it where that is needed.
    ///
    /// # Errors
    /// As `StreamFinder::next` of `ac_automaton::automaton`.
    pub(super) fn next<R: Source>(&mut self, reader: &mut R) -> Option<Result<Match, StreamError>>
        ensures { Streams R.empty_means_end (on R.told (streaming_in self.old) reader.old) result
            (on R.told (streaming_in self.new) reader.new) }
    {
        by_engine!(EngineStreamFinder, self, finder => finder.next(reader))
    }

    /// Returns the next match of the bytes that were read, without reading more of them.
    pub(super) fn next_read(&mut self) -> Option<Match>
        ensures { GivesRead (streaming_in self.old) result (streaming_in self.new) }
    {
        by_engine!(EngineStreamFinder, self, finder => finder.next_read())
    }

    /// Returns how many bytes of the stream are kept.
    pub(super) fn kept_len(&self) -> usize
        ensures { result ≡ kept_len (streaming_in self.now) }
    {
        by_engine!(EngineStreamFinder, self, finder => finder.kept_len())
    }

    /// Returns how many bytes the buffer has.
    pub(super) fn buffer_len(&self) -> usize
        ensures { result ≡ (streaming_in self.now).buffer }
    {
        by_engine!(EngineStreamFinder, self, finder => finder.buffer_len())
    }
}

/// An engine's search of a text that comes in pieces.
#[derive(Drop)]
pub(super) enum EnginePieceFinder<A: Allocator> {
    Noncontiguous(automaton::PieceFinder<noncontiguous::NFA<A>, A>),
    Contiguous(automaton::PieceFinder<contiguous::NFA<A>, A>),
    Dfa(automaton::PieceFinder<dfa::DFA<A>, A>),
}

impl<A: Allocator> EnginePieceFinder<A> {
    /// Returns the next match, and takes of the piece what that needs.
    #[inline]
    pub(super) fn next(&mut self, piece: &mut &[u8]) -> Option<Match>
        ensures { TakesOn (in_pieces self.old) piece.old.now result (in_pieces self.new) piece.new.now }
    {
        by_engine!(EnginePieceFinder, self, finder => finder.next(piece))
    }

    /// Says that nothing follows.
    pub(super) fn end(&mut self)
        ensures { in_pieces self.new ≡ record (in_pieces self.old) { phase = Ended } }
    {
        by_engine!(EnginePieceFinder, self, finder => finder.end())
    }

    /// Returns up to which offset the text is settled.
    pub(super) fn settled(&self) -> usize
        ensures { result ≡ (in_pieces self.now).kept }
    {
        by_engine!(EnginePieceFinder, self, finder => finder.settled())
    }
}

/// An engine's overlapping search of a text that comes in pieces.
#[derive(Drop)]
pub(super) enum EngineOverlappingPieceFinder<A: Allocator> {
    Noncontiguous(automaton::OverlappingPieceFinder<noncontiguous::NFA<A>, A>),
    Contiguous(automaton::OverlappingPieceFinder<contiguous::NFA<A>, A>),
    Dfa(automaton::OverlappingPieceFinder<dfa::DFA<A>, A>),
}

impl<A: Allocator> EngineOverlappingPieceFinder<A> {
    /// Returns the next match, and takes of the piece what that needs.
    #[inline]
    pub(super) fn next(&mut self, piece: &mut &[u8]) -> Option<Match>
        ensures { ListsTaken (piece_listing_in self.old) piece.old.now result (piece_listing_in self.new) piece.new.now }
    {
        by_engine!(EngineOverlappingPieceFinder, self, finder => finder.next(piece))
    }
}

#[cfg(test)]
mod tests;
