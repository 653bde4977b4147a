//! Reading the words of a state.
ghost use Rattle.std.specs.Prelude.{◌≡◌, ◌≢◌, ◌+◌, ◌<◌, ◌≤◌, [], drop, length, ⊤, ℕ, slice_index};
ghost use Rattle.ac_util.specs.Input.{more_looks};
ghost use Rattle.ac_engines.specs.declared.nfa.contiguous.format.Format.{Format};
ghost use Rattle.ac_engines.specs.Contiguous.Words.{BeginsWith, PackedState, word_of};
ghost use Rattle.ac_engines.specs.Contiguous.Reads.{AreMatchWords, AreNamed, EachState, LeadsBy, SomeState, SomeStateOf, SparseLeadsBy, StateOf, transitions_of_state, first_of};
ghost use Rattle.ac_engines.specs.declared.nfa.contiguous.format.Format.TheVariants.{Sparse};

use super::format::{CLASSES_A_WORD, HEAD};
use super::transitions::Transitions;
use ac_util::looks::Looks;

/// The low byte of a dense state's first word.
pub const DENSE: u8 = 0xFF;

/// The low byte of the first word of a state with one transition and no match. The next byte is the transition's class.
pub const ONE: u8 = 0xFE;

/// The target of a class that has no transition. No state has this number.
pub const FAIL: u32 = 1;

/// What is added to the number of a match that is the only one of its state.
pub const ONE_MATCH: u32 = 1 << 31;

/// A transition: the class of a byte, and the number of the state to which it leads.
#[derive(Clone, Copy)]
pub struct Edge {
    pub(super) class: u8,
    pub(super) target: u32,
}

/// A state in the words of an automaton, from its first word on.
#[derive(Clone, Copy)]
pub(super) struct State<'a> {
    words: &'a [u32],
}

impl<'a> State<'a> {
    /// Returns the state with this address, the index of its first word.
    #[inline]
    pub(super) fn at(words: &'a [u32], place: usize) -> State<'a>
        requires { place ≤ length words.now }
        ensures { result.words.now ≡ drop place words.now }
    {
        State {
            words: &words[place..],
        }
    }

    /// Returns the failure target.
    #[inline]
    pub(super) fn fail(self) -> u32
        requires { SomeState self.words.now (λ format classes s. ⊤) }
        ensures { EachState self.entry.words.now (λ format classes s. result ≡ s.failure) }
    {
        self.words[1]
    }

    /// Returns where a class leads, if anywhere, and counts the look.
    ///
    /// A step reaches the transitions of a state by this alone.
    #[inline]
    pub(super) fn look(self, class: u8, looks: &mut Looks) -> Option<u32>
        requires { SomeState self.words.now (λ format classes s. AreNamed s.edges × (class < classes)) }
        ensures target { EachState self.entry.words.now (LeadsBy class result) }
        ensures counted { looks.new ≡ more_looks 1 looks.old }
    {
        looks.look();
        self.target(class)
    }

    /// Returns where a class leads, if anywhere.
    #[inline]
    fn target(self, class: u8) -> Option<u32>
        requires { SomeState self.words.now (λ format classes s. AreNamed s.edges × (class < classes)) }
        ensures { EachState self.entry.words.now (LeadsBy class result) }
    {
        let [form, only, _, _] = self.words[0].to_le_bytes();
        if form == DENSE {
            let target = self.words[HEAD + class as usize];
            return if target == FAIL { None } else { Some(target) };
        }
        if form != ONE {
            return self.sparse_target(form as usize, class);
        }
        if only == class {
            Some(self.words[HEAD])
        } else {
            None
        }
    }

    /// Returns where a class leads from a state that has so many transitions, four classes in a word.
    #[inline]
    fn sparse_target(self, transitions: usize, class: u8) -> Option<u32>
        requires { (classes : ℕ) × (s : PackedState) × BeginsWith self.words.now Sparse classes s
            × (transitions ≡ length s.edges) }
        ensures { SparseLeadsBy self.entry.words.now transitions class result }
    {
        let (classes, targets) = self.words[HEAD..].split_at(transitions.div_ceil(CLASSES_A_WORD));
        for (index, word) in classes.iter().enumerate() {
            let place = place_in(*word, class);
            if place < CLASSES_A_WORD {
                return Some(targets[CLASSES_A_WORD * index + place]);
            }
        }
        None
    }

    /// Returns an iterator over the state's own transitions in ascending order of their classes. A dense state has one
    /// for each class, to `FAIL` where it leads nowhere.
    pub(super) fn transitions(self, classes: usize) -> Transitions<'a>
        requires { (format : Format) × (s : PackedState) × BeginsWith self.words.now format classes s }
        ensures { StateOf self.entry.words.now classes (λ format s. result ≡ transitions_of_state format classes s) }
    {
        let [form, only, _, _] = self.words[0].to_le_bytes();
        if form == DENSE {
            return Transitions {
                classes: None,
                place: 0,
                targets: &self.words[HEAD..HEAD + classes],
            };
        }
        if form == ONE {
            return Transitions {
                classes: None,
                place: only as usize,
                targets: &self.words[HEAD..HEAD + 1],
            };
        }
        let transitions = form as usize;
        let (classes, targets) = self.words[HEAD..].split_at(transitions.div_ceil(CLASSES_A_WORD));
        Transitions {
            classes: Some(classes),
            place: 0,
            targets: &targets[..transitions],
        }
    }

    /// Returns how many matches the state has. It has to have some.
    #[inline]
    pub(super) fn match_len(self, classes: usize) -> usize
        requires { SomeStateOf self.words.now classes (λ s. s.matches ≢ []) }
        ensures { StateOf self.entry.words.now classes (λ format s. s.matches ≢ [] → result ≡ length s.matches) }
    {
        let first = self.match_words(classes)[0];
        if first >= ONE_MATCH {
            1
        } else {
            first as usize
        }
    }

    /// Returns one of its matches.
    #[inline]
    pub(super) fn match_pattern(self, classes: usize, index: usize) -> u32
        requires { SomeStateOf self.words.now classes (λ s. index < length s.matches) }
        ensures { StateOf self.entry.words.now classes
            (λ format s. index < length s.matches → result ≡ slice_index s.matches index) }
    {
        let words = self.match_words(classes);
        if words[0] >= ONE_MATCH {
            words[0] - ONE_MATCH
        } else {
            words[1 + index]
        }
    }

    /// Returns the words from those of the state's matches on. It has to have some, so it is dense or sparse.
    #[inline]
    fn match_words(self, classes: usize) -> &'a [u32]
        requires { SomeStateOf self.words.now classes (λ s. s.matches ≢ []) }
        ensures { AreMatchWords self.entry.words.now classes result.now }
    {
        let [form, _, _, _] = self.words[0].to_le_bytes();
        if form == DENSE {
            return &self.words[HEAD + classes..];
        }
        let transitions = form as usize;
        &self.words[HEAD + transitions.div_ceil(CLASSES_A_WORD) + transitions..]
    }
}

/// Returns at which of the four places of a word a class stands first, or 4 where it stands at none.
#[inline]
fn place_in(word: u32, class: u8) -> usize
    ensures { (a b c d : ℕ) → a < 256 → b < 256 → c < 256 → d < 256 → word ≡ word_of a b c d → result
        ≡ first_of a b c d class }
{
    let [first, second, third, fourth] = word.to_le_bytes();
    if first == class {
        0
    } else if second == class {
        1
    } else if third == class {
        2
    } else if fourth == class {
        3
    } else {
        CLASSES_A_WORD
    }
}

#[cfg(test)]
mod tests;
