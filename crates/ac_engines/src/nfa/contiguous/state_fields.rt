//! Writing the words of a state.
ghost use Rattle.std.specs.Prelude.{◌≡◌, ◌-◌, ◌<◌, ◌≤◌, ◌++◌, ◌∷◌, IfOk, [], length, map, min, slice_index};
ghost use Rattle.std.specs.List.{All};
ghost use Rattle.std.specs.List.Sorted.{IsStrictlyIncreasing};
ghost use Rattle.ac_engines.specs.Contiguous.Words.{Appends, Fits, HasTargets, class_words, match_list_words, dense_head, format_words, sparse_head, one_words};

use super::format::{CLASSES_A_WORD, Format, MOST_SPARSE};
use super::state::{DENSE, Edge, ONE, ONE_MATCH};
use ac_util::primitives::PatternID;
use std::alloc::{AllocError, Allocator};
use std::marker::Model;

/// What is to be spelled in a state's words.
#[derive(Drop)]
pub(super) struct StateFields<'a> {
    pub(super) failure: u32,
    /// Where a class without a transition leads.
    pub(super) default_target: u32,
    /// The transitions, in ascending order of their classes.
    pub(super) edges: &'a [Edge],
    pub(super) matches: &'a [PatternID],
}

impl<'a> Model for StateFields<'a> {
    ghost use Rattle.ac_engines.specs.Contiguous.Words.{PackedState};

    ghost Value = { PackedState };

    ghost view = { λ d. record {
      failure = d.failure;
      default_target = d.default_target;
      edges = d.edges.now;
      matches = d.matches.now;
    } };
}

/// Appends the words of a state in a form, where there are so many classes.
///
/// # Errors
/// `AllocError` where a request for memory is refused.
#[inline]
pub(super) fn push_state<A: Allocator>(
    words: &mut Vec<u32, A>,
    format: Format,
    classes: usize,
    state_fields: StateFields<'_>,
) -> Result<(), AllocError>
    requires fits { Fits format state_fields }
    requires few { classes ≤ 256 }
    requires ascending { IsStrictlyIncreasing (map (λ e. e.class) state_fields.edges) }
    requires within { All (λ e. e.class < classes) state_fields.edges }
    requires few_matches { length state_fields.matches < ONE_MATCH }
    ensures { Appends words.old.items words.new.items (format_words format classes state_fields.entry) result }
{
    match format {
        Format::Dense => {
            push_dense(words, classes, &state_fields)?;
            push_matches(words, state_fields.matches)
        }
        Format::One => push_one(words, &state_fields),
        Format::Sparse => {
            push_sparse(words, &state_fields)?;
            push_matches(words, state_fields.matches)
        }
    }
}

/// Appends the words of a state with a target for each of so many classes, up to its matches.
///
/// # Errors
/// `AllocError` where a request for memory is refused.
fn push_dense<A: Allocator>(
    words: &mut Vec<u32, A>,
    classes: usize,
    state_fields: &StateFields<'_>,
) -> Result<(), AllocError>
    requires few { classes ≤ 256 }
    requires ascending { IsStrictlyIncreasing (map (λ e. e.class) state_fields.now.edges) }
    requires within { All (λ e. e.class < classes) state_fields.now.edges }
    ensures { Appends words.old.items words.new.items (dense_head classes state_fields.now) result }
{
    words.push(u32::from(DENSE))?;
    words.push(state_fields.failure)?;
    let start = words.len();
    words.resize(start + classes, state_fields.default_target)?;
    set_targets(&mut words[start..], state_fields.edges);
    Ok(())
}

/// Sets the target of each transition at its class.
fn set_targets(targets: &mut [u32], edges: &[Edge])
    requires ascending { IsStrictlyIncreasing (map (λ e. e.class) edges.now) }
    requires within { All (λ e. e.class < length targets.old) edges.now }
    ensures { HasTargets targets.old edges.now targets.new }
{
    for edge in edges {
        targets[edge.class as usize] = edge.target;
    }
}

/// Appends the words of a state with one transition and no match.
///
/// # Errors
/// `AllocError` where a request for memory is refused.
#[inline]
pub(super) fn push_one<A: Allocator>(
    words: &mut Vec<u32, A>,
    state_fields: &StateFields<'_>,
) -> Result<(), AllocError>
    requires one { length state_fields.now.edges ≡ 1 }
    ensures { Appends words.old.items words.new.items
        (one_words state_fields.now.failure state_fields.now.edges) result }
{
    let edge = state_fields.edges[0];
    words.push(u32::from_le_bytes([ONE, edge.class, 0, 0]))?;
    words.push(state_fields.failure)?;
    words.push(edge.target)?;
    Ok(())
}

/// Appends the words of a state with the classes of its transitions, four in a word, and then their targets, up to
/// its matches.
///
/// # Errors
/// `AllocError` where a request for memory is refused.
fn push_sparse<A: Allocator>(
    words: &mut Vec<u32, A>,
    state_fields: &StateFields<'_>,
) -> Result<(), AllocError>
    requires few { length state_fields.now.edges ≤ MOST_SPARSE }
    ensures { Appends words.old.items words.new.items (sparse_head state_fields.now) result }
{
    words.push(state_fields.edges.len() as u32)?;
    words.push(state_fields.failure)?;
    push_classes(words, state_fields.edges)?;
    words.extend(state_fields.edges.iter().map(|edge| edge.target))?;
    Ok(())
}

/// Appends the classes of transitions, four in a word.
///
/// # Errors
/// `AllocError` where a request for memory is refused.
fn push_classes<A: Allocator>(words: &mut Vec<u32, A>, edges: &[Edge]) -> Result<(), AllocError>
    ensures { IfOk result (λ _. words.new.items ≡ words.old.items ++ class_words (map (λ e. e.class) edges.now)) }
{
    for four in edges.chunks(CLASSES_A_WORD) {
        words.push(class_word(four))?;
    }
    Ok(())
}

/// Returns the classes of up to four transitions in one word, which is filled up with the last one.
fn class_word(edges: &[Edge]) -> u32
    requires some { 0 < length edges.now }
    requires few { length edges.now ≤ CLASSES_A_WORD }
    ensures { class_words (map (λ e. e.class) edges.now) ≡ result ∷ [] }
{
    u32::from_le_bytes([
        class_at(edges, 0),
        class_at(edges, 1),
        class_at(edges, 2),
        class_at(edges, 3),
    ])
}

/// Returns the class of the transition at a place, or of the last one where there are fewer.
fn class_at(edges: &[Edge], place: usize) -> u8
    requires some { 0 < length edges.now }
    ensures { result ≡ slice_index (map (λ e. e.class) edges.now) (min place (length edges.now - 1)) }
{
    edges[place.min(edges.len() - 1)].class
}

/// Appends the words of a state's matches.
///
/// # Errors
/// `AllocError` where a request for memory is refused.
#[inline]
fn push_matches<A: Allocator>(
    words: &mut Vec<u32, A>,
    matches: &[PatternID],
) -> Result<(), AllocError>
    requires { length matches.now < ONE_MATCH }
    ensures { IfOk result (λ _. words.new.items ≡ words.old.items ++ match_list_words matches.now) }
{
    match matches {
        [] => {}
        [only] => words.push(ONE_MATCH + number(only))?,
        several => {
            words.push(several.len() as u32)?;
            words.extend(several.iter().map(number))?;
        }
    }
    Ok(())
}

/// Returns the number of a pattern as a word.
fn number(pattern: &PatternID) -> u32
    ensures value { result ≡ pattern.now }
    ensures small { result < ONE_MATCH }
{
    pattern.as_usize() as u32
}
