//! Many lists stored in one, one after another.
ghost use Rattle.std.specs.Prelude.{◌≡◌, ◌<◌, ◌++◌, ◌∷◌, [], length, slice_get, IfOk, MatchResult, Some, ◌+◌};
ghost use Rattle.ac_util.specs.Patterns.{AreBounds, pieces};

use std::alloc::{AllocError, Allocator};
use std::marker::Model;
use std::mem::size_of_val;

/// A list that is cut into pieces: all their items in one list, and where in it each piece starts and the last one
/// ends.
///
/// Contracts see it as the list of the pieces.
#[derive(Drop)]
pub struct Pieces<T, A: Allocator> {
    items: Vec<T, A>,
    bounds: Vec<usize, A>,
}

impl<T, A: Allocator> Model for Pieces<T, A> {
    ghost use Rattle.std.specs.Prelude.{List, length};
    ghost use Rattle.ac_util.specs.Patterns.{AreBounds, pieces};

    ghost Value = { List (List T) };

    ghost view = { λ p. pieces p.items.items p.bounds.items };

    ghost invariant = { λ p. AreBounds p.bounds.items (length p.items.items) };
}

impl<T: Copy, A: Allocator + Clone> Clone for Pieces<T, A> {
    ghost is_clone = { λ s t. t ≡ s };

    /// Returns a copy, which has the same pieces.
    ///
    /// # Errors
    /// `AllocError` where a request for memory is refused.
    fn clone(&self) -> Result<Pieces<T, A>, AllocError> {
        let alloc = self.allocator().clone()?;
        Ok(Pieces {
            items: Vec::from_slice(alloc, &self.items)?,
            bounds: self.bounds.clone()?,
        })
    }
}

impl<T, A: Allocator + Clone> Pieces<T, A> {
    /// Returns a list of no pieces.
    ///
    /// # Errors
    /// `AllocError` where a request for memory is refused.
    pub fn new(alloc: A) -> Result<Pieces<T, A>, AllocError>
        ensures { IfOk result (λ pieces. pieces ≡ []) }
    {
        let mut bounds = Vec::new(alloc.clone()?);
        bounds.push(0)?;
        Ok(Pieces {
            items: Vec::new(alloc),
            bounds,
        })
    }
}

impl<T, A: Allocator> Pieces<T, A> {
    /// Returns how many pieces there are.
    #[inline]
    pub fn len(&self) -> usize
        ensures { result ≡ length self.now }
    {
        self.bounds.len() - 1
    }

    /// Returns a piece by its number, which has to be below `len`.
    #[inline]
    pub fn get(&self, number: usize) -> &[T]
        requires numbered { number < length self.now }
        ensures { slice_get self.now number ≡ Some result.now }
    {
        piece(&self.items, &self.bounds, number)
    }

    /// Returns the allocator of the list.
    pub fn allocator(&self) -> &A {
        self.items.allocator()
    }

    /// Returns about how many bytes of memory the pieces take. Nothing is promised about the number.
    pub fn memory_usage(&self) -> usize {
        let items = size_of_val(self.items.as_slice());
        items.saturating_add(size_of_val(self.bounds.as_slice()))
    }
}

impl<T: Copy, A: Allocator> Pieces<T, A> {
    /// Adds a piece after the others.
    ///
    /// # Errors
    /// `AllocError` where a request for memory is refused. The pieces are then as before.
    pub fn push(&mut self, piece: &[T]) -> Result<(), AllocError>
        ensures { MatchResult result (λ _. self.new ≡ self.old ++ piece.now ∷ []) (λ _. self.new ≡ self.old) }
    {
        let before = self.items.len();
        self.items.extend_from_slice(piece)?;
        match self.bounds.push(self.items.len()) {
            Ok(()) => Ok(()),
            Err(refused) => {
                self.items.truncate(before);
                Err(refused.into())
            }
        }
    }
}

/// Returns a piece of a list by its number.
#[inline]
fn piece<'a, T>(items: &'a [T], bounds: &[usize], number: usize) -> &'a [T]
    requires bounds { AreBounds bounds.now (length items.now) }
    requires numbered { number + 1 < length bounds.now }
    ensures { slice_get (pieces items.now bounds.now) number ≡ Some result.now }
{
    let start = bounds[number];
    let end = bounds[number + 1];
    &items[start..end]
}
