ghost use Rattle.std.specs.Prelude.{◌≡◌};
ghost use Rattle.ly_pack.specs.Combs.{IsFirstFit};

use crate::cell::Cell;
use crate::comb_rows::Comb;
use crate::rows::Rows;
use ly_base::{OutOfMemory, StateNo};
use std::alloc::Global;
use std::borrow::CowSlice;
use std::marker::Model;
use std::rc::Rc;

/// A comb whose rows are placed by first fit.
#[derive(Drop)]
pub struct Packed<E> {
    comb: Comb<E>,
}

impl<E> Model for Packed<E> {
    ghost use Rattle.ly_pack.specs.Rows as value;
    ghost use Rattle.ly_pack.specs.Combs.{IsFirstFit};

    ghost Value = { value.Comb E };

    ghost view = { λ p. p.comb };

    ghost invariant = { λ p. IsFirstFit p.comb };
}

impl<E: Copy> Packed<E> {
    /// The comb, packed.
    pub fn new(comb: Comb<E>) -> Packed<E>
        requires { IsFirstFit comb }
        ensures { result ≡ comb }
    {
        Packed { comb }
    }

    /// The comb.
    pub fn comb(&self) -> &Comb<E>
        ensures same { result.now ≡ self.now }
        ensures placed { IsFirstFit self.now }
    {
        &self.comb
    }

    /// The comb, by value.
    pub fn into_comb(self) -> Comb<E>
        ensures same { result ≡ self }
        ensures placed { IsFirstFit self }
    {
        let Packed { comb } = self;
        comb
    }
}

impl<E: Copy> Rows<E> for Packed<E> {
    ghost use Rattle.std.specs.Prelude.{length};
    ghost use Rattle.ly_pack.specs.Rows.{comb_entry};

    ghost entries = { λ c. comb_entry c };

    ghost rows = { λ c. length c.bases };

    ghost width = { λ c. c.width };

    fn entry(&self, row: StateNo, column: usize) -> Option<E> {
        self.comb.entry(row, column)
    }

    fn cells(&self, alloc: Global) -> Result<CowSlice<'_, Rc<Vec<Cell<E>>>>, OutOfMemory> {
        self.comb.cells(alloc)
    }
}
