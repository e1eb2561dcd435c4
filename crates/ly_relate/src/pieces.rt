ghost use Rattle.std.specs.Prelude.{◌≡◌, ◌<◌, ◌++◌, ◌↔◌, [], ◌∷◌, length, slice_get, IsTrue, OnOk, Some};
ghost use Rattle.ly_relate.specs.Private.Pieces.{elements_of, AreFull};

use std::alloc::{AllocError, Global};
use std::marker::Model;
use std::mem::swap;

/// The number of elements in a full block.
const PIECE: usize = 4096;

/// An append-only list, stored in blocks of 4,096 elements. So memory of shorter lists that were freed is used again,
/// and no element is moved.
#[derive(Drop)]
pub struct Pieces<T> {
    /// The allocator.
    alloc: Global,
    /// The full blocks.
    full: Vec<Vec<T>>,
    /// The block after them.
    last: Vec<T>,
    /// The number of elements.
    len: usize,
}

impl<T> Model for Pieces<T> {
    ghost use Rattle.std.specs.Prelude.{◌≡◌, length, List};
    ghost use Rattle.ly_relate.specs.Private.Pieces.{elements_of, AreFull};

    ghost Value = { List T };

    ghost view = { λ p. elements_of p.full.items p.last.items };

    ghost invariant = { λ p. AreFull p.full.items × (p.len ≡ length (elements_of p.full.items p.last.items)) };
}

impl<T: Copy> Pieces<T> {
    /// An empty list.
    pub(crate) fn new(alloc: Global) -> Pieces<T>
        ensures { result ≡ [] }
    {
        Pieces {
            alloc,
            full: Vec::new(alloc),
            last: Vec::new(alloc),
            len: 0,
        }
    }

    /// Adds an element.
    pub(crate) fn push(&mut self, element: T) -> Result<(), AllocError>
        ensures { OnOk result (self.new ≡ self.old ++ element ∷ []) }
    {
        let len = self.len.checked_add(1).ok_or(AllocError)?;
        make_room(self.alloc, &mut self.full, &mut self.last)?;
        self.last.push(element)?;
        self.len = len;
        Ok(())
    }

    /// The number of elements.
    pub fn len(&self) -> usize
        ensures { result ≡ length self.now }
    {
        self.len
    }

    /// The element at an index.
    pub fn get(&self, index: usize) -> T
        requires { index < length self.now }
        ensures { slice_get self.now index ≡ Some result }
    {
        let place = index / PIECE;
        if place < self.full.len() {
            self.full[place][index % PIECE]
        } else {
            self.last[index - self.full.len() * PIECE]
        }
    }
}

/// Moves the last block to the full ones if it is full, and starts another.
fn make_room<T: Copy>(
    alloc: Global,
    full: &mut Vec<Vec<T>>,
    last: &mut Vec<T>,
) -> Result<(), AllocError>
    requires { AreFull full.old.items }
    ensures full { AreFull full.new.items }
    ensures elements { elements_of full.new.items last.new.items ≡ elements_of full.old.items last.old.items }
{
    if last.len() == PIECE {
        full.push(Vec::with_capacity(alloc, PIECE)?)?;
        let place = full.len() - 1;
        swap(&mut full[place], last);
    }
    Ok(())
}
