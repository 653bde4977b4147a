//! Going through the transitions of a state.
ghost use Rattle.std.specs.Prelude.{◌≡◌, ◌/◌, ◌<◌, IfSome, length};
ghost use Rattle.std.specs.Iterator.{YieldsFirst, item_count};
ghost use Rattle.ac_engines.specs.Contiguous.Reads.{class_of_place};

use super::format::CLASSES_A_WORD;
use super::state::Edge;
use std::fmt;
use std::marker::Model;

/// An iterator over the transitions of a state in ascending order of their classes, made by `State::transitions`.
///
/// Contracts see the transitions still to come.
#[derive(Drop)]
pub(super) struct Transitions<'a> {
    /// The classes, four in a word. Where there are no such words, each class is one more than the one before it.
    pub(super) classes: Option<&'a [u32]>,
    /// The place of the next class in these words, or that class itself.
    pub(super) place: usize,
    /// The targets still to come.
    pub(super) targets: &'a [u32],
}

impl<'a> Model for Transitions<'a> {
    ghost use Rattle.std.specs.Prelude.{◌+◌, ◌*◌, ◌≤◌, IfSome, List, length};
    ghost use Rattle.ac_engines.specs.declared.nfa.contiguous.state.Edge.{Edge};
    ghost use Rattle.ac_engines.specs.Contiguous.Reads.{class_of_place, edges_from};

    ghost Value = { List Edge };

    ghost view = { λ t. edges_from (class_of_place t.classes) t.place t.targets.now };

    ghost invariant = { λ t. record {
      few : t.place + length t.targets.now ≤ 256;
      packed : IfSome t.classes (λ words. t.place + length t.targets.now ≤ 4 * length words.now);
    } };
}

impl<'a> Iterator for Transitions<'a> {
    type Item = Edge;

    ghost next_gives = { YieldsFirst (λ rest. rest) };

    ghost remaining = { item_count (λ rest. rest) };

    fn next(&mut self) -> Option<Edge> {
        let (target, targets) = self.targets.split_first()?;
        let class = class_of_place(self.classes, self.place);
        self.place += 1;
        self.targets = targets;
        Some(Edge {
            class,
            target: *target,
        })
    }
}

impl<'a> fmt::Debug for Transitions<'a> {
    fn fmt<W: fmt::Write>(&self, f: &mut fmt::Formatter<W>) -> fmt::Result {
        let transitions = Transitions { ..*self };
        let mut shown = f.debug_map();
        for edge in transitions {
            shown.entry(&edge.class, &edge.target);
        }
        shown.finish()
    }
}

/// Returns the class of a place: that in the class words, or the place itself where there are none.
fn class_of_place(words: Option<&[u32]>, place: usize) -> u8
    requires small { place < 256 }
    requires within { IfSome words (λ w. place / 4 < length w.now) }
    ensures { result ≡ class_of_place words.entry place }
{
    match words {
        Some(words) => words[place / CLASSES_A_WORD].to_le_bytes()[place % CLASSES_A_WORD],
        None => place as u8,
    }
}
