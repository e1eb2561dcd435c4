ghost use Rattle.std.specs.Prelude.{◌≡◌, ◌+◌, ◌<◌, ◌++◌, [], ◌∷◌, length, map, slice_get, All, IfOk, IfSome, OnOk};
ghost use Rattle.std.specs.Prelude.{Some};
ghost use Rattle.ly_resolve.specs.Private.ActionRows.{row_at, rows_from, IsWithin};
ghost use Rattle.ly_resolve.specs.Values.{terminal_action_from};

use crate::action::TerminalAction;
use std::alloc::{AllocError, Global};

/// The range of a row in the list of entries.
#[derive(Clone, Copy)]
pub(crate) struct RowPlace {
    /// The index of its first entry.
    pub(crate) start: usize,
    /// The index after its last entry.
    pub(crate) end: usize,
}

/// The rows of the first states. A row that equals the row before is stored once. All rows are in one list, because a
/// large block is returned to the system when it is freed, and many small ones aren't.
#[derive(Drop)]
pub(crate) struct ActionRows {
    /// For each state, the range of its row.
    pub(crate) places: Vec<RowPlace>,
    /// The stored rows, one after another.
    pub(crate) kept: Vec<TerminalAction>,
    ghost within: { All (IsWithin (length kept.items)) places.items },
}

impl ActionRows {
    /// No rows, with capacity for this many states.
    pub(crate) fn with_capacity(alloc: Global, states: usize) -> Result<ActionRows, AllocError>
        ensures { IfOk result (λ r. rows_from r.places.items r.kept.items ≡ []) }
    {
        Ok(ActionRows {
            places: Vec::with_capacity(alloc, states)?,
            kept: Vec::new(alloc),
        })
    }

    /// The row of a state.
    pub(crate) fn row(&self, state: usize) -> &[TerminalAction]
        requires { state < length self.now.places.items }
        ensures { slice_get (rows_from self.now.places.items self.now.kept.items) state
            ≡ Some (map terminal_action_from result.now) }
    {
        let place = self.places[state];
        &self.kept[place.start..place.end]
    }

    /// Adds the row of the next state.
    pub(crate) fn push(&mut self, row: &[TerminalAction]) -> Result<(), AllocError>
        ensures { OnOk result (rows_from self.new.places.items self.new.kept.items
            ≡ rows_from self.old.places.items self.old.kept.items ++ map terminal_action_from row.now ∷ []) }
    {
        let place = match self.last_place(row) {
            Some(place) => place,
            None => self.keep(row)?,
        };
        self.places.push(place)?;
        Ok(())
    }

    /// The range of the last row, if it is equal to this one.
    fn last_place(&self, row: &[TerminalAction]) -> Option<RowPlace>
        ensures within { IfSome result (IsWithin (length self.now.kept.items)) }
        ensures same { IfSome result (λ p. row_at self.now.kept.items p ≡ map terminal_action_from row.now) }
    {
        let place = *self.places.last()?;
        if &self.kept[place.start..place.end] == row {
            Some(place)
        } else {
            None
        }
    }

    /// Stores a row after the others, and returns its range.
    fn keep(&mut self, row: &[TerminalAction]) -> Result<RowPlace, AllocError>
        ensures kept { OnOk result (self.new.kept.items ≡ self.old.kept.items ++ row.now) }
        ensures places { self.new.places ≡ self.old.places }
        ensures start { IfOk result (λ p. p.start ≡ length self.old.kept.items) }
        ensures end { IfOk result (λ p. p.end ≡ length self.old.kept.items + length row.now) }
    {
        let start = self.kept.len();
        self.kept.extend_from_slice(row)?;
        Ok(RowPlace {
            start,
            end: self.kept.len(),
        })
    }
}
