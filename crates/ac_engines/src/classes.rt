//! The classes of bytes that an engine is built with.
ghost use Rattle.std.specs.Prelude.{◌≡◌};
ghost use Rattle.ac_util.specs.Classes.{SetsApart};
ghost use Rattle.ac_engines.specs.Listed.{classes_by};

use ac_automaton::nfa::noncontiguous::NFA;
use ac_util::alphabet::ByteClasses;
use std::alloc::Allocator;

/// Returns the classes by which an engine steps that is built from an automaton.
pub(crate) fn classes_for<A: Allocator>(nfa: &NFA<A>, byte_classes: bool) -> ByteClasses
    ensures value { result ≡ classes_by byte_classes nfa.now.built.ignores_case nfa.now.built.patterns }
    ensures apart { SetsApart nfa.now.built.ignores_case nfa.now.built.patterns result }
{
    if byte_classes {
        ByteClasses::of(nfa.patterns(), nfa.fold())
    } else {
        ByteClasses::singletons()
    }
}
