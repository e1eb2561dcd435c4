ghost use Rattle.std.specs.Prelude.{◌≡◌, ◌≤◌, ◌↔◌, ◌++◌, [], ◌∷◌, length, slice_get, count_by, IsTrue, OnOk};
ghost use Rattle.ly_resolve.specs.Private.Conflicts.{before, end_from, items_from, AreRuns, GoesOn, IsPlace};
ghost use Rattle.ly_resolve.specs.Values.{same_kind};

use crate::conflict::{Conflict, ConflictKind};
use ly_base::Sym;
use std::alloc::{AllocError, Global};
use std::marker::Model;

/// Conflicts in their order. Consecutive ones that differ only in their terminals, which are consecutive too, are
/// stored as one run.
#[derive(Drop)]
pub struct Conflicts {
    /// The runs.
    runs: Vec<Run>,
}

/// A run of conflicts.
#[derive(Clone, Copy)]
pub(crate) struct Run {
    /// The last of them.
    pub(crate) last: Conflict,
    /// The number of conflicts in this run and all before it.
    pub(crate) end: usize,
}

impl Model for Conflicts {
    ghost use Rattle.std.specs.Prelude.{List};
    ghost use Rattle.ly_resolve.specs.Private.Conflicts.{items_from, AreRuns};
    ghost use Rattle.ly_resolve.specs.declared.conflict.Conflict as value;

    ghost Value = { List value.Conflict };

    ghost view = { λ c. items_from 0 c.runs.items };

    ghost invariant = { λ c. AreRuns 0 c.runs.items };
}

impl Conflicts {
    /// No conflicts.
    pub(crate) fn new(alloc: Global) -> Conflicts
        ensures { result ≡ [] }
    {
        Conflicts {
            runs: Vec::new(alloc),
        }
    }

    /// Adds a conflict.
    pub(crate) fn push(&mut self, conflict: Conflict) -> Result<(), AllocError>
        ensures { OnOk result (self.new ≡ self.old ++ conflict ∷ []) }
    {
        let Some(end) = end_of(&self.runs).checked_add(1) else {
            return Err(AllocError);
        };
        let run = Run {
            last: conflict,
            end,
        };
        if goes_on(&self.runs, conflict) {
            let place = self.runs.len() - 1;
            self.runs[place] = run;
        } else {
            self.runs.push(run)?;
        }
        Ok(())
    }

    /// The number of conflicts.
    pub fn len(&self) -> usize
        ensures { result ≡ length self.now }
    {
        end_of(&self.runs)
    }

    /// Whether there are no conflicts.
    pub fn is_empty(&self) -> bool
        ensures { IsTrue result ↔ (self.now ≡ []) }
    {
        self.len() == 0
    }

    /// The conflict at an index. Its run is found by a binary search.
    pub fn get(&self, index: usize) -> Option<Conflict>
        ensures { result ≡ slice_get self.now index }
    {
        conflict_at(&self.runs, place_of(&self.runs, index), index)
    }

    /// The conflict at an index. `run` is a hint: the run with this number is tried first, then the next, and then a
    /// search. `run` becomes the number of the run found. So iterating over all conflicts takes no search.
    pub fn get_near(&self, index: usize, run: &mut usize) -> Option<Conflict>
        ensures { result ≡ slice_get self.now index }
    {
        if !is_within(&self.runs, *run, index) {
            *run = next_place(&self.runs, *run, index);
        }
        conflict_at(&self.runs, *run, index)
    }

    /// The number of conflicts of a kind.
    pub fn count(&self, kind: ConflictKind) -> usize
        ensures { result ≡ count_by (λ c. same_kind kind c.kind) self.now }
    {
        let mut count = 0;
        let mut start = 0;
        for run in &self.runs {
            if run.last.kind == kind {
                count += run.end - start;
            }
            start = run.end;
        }
        count
    }
}

/// The number of conflicts in some runs.
fn end_of(runs: &[Run]) -> usize
    ensures { result ≡ end_from 0 runs.now }
{
    match runs.last() {
        Some(run) => run.end,
        None => 0,
    }
}

/// Whether a conflict continues the last run: it differs from the run's last conflict only in the terminal, which is
/// the next one.
fn goes_on(runs: &[Run], conflict: Conflict) -> bool
    ensures { IsTrue result → GoesOn runs.now conflict }
{
    let Some(terminal) = conflict.terminal.0.checked_sub(1) else {
        return false;
    };
    match runs.last() {
        Some(run) => {
            run.last
                == Conflict {
                    terminal: Sym(terminal),
                    ..conflict
                }
        }
        None => false,
    }
}

/// The number of the run that contains the conflict at an index, or the number of runs if none does.
fn place_of(runs: &[Run], index: usize) -> usize
    ensures { IsPlace runs.now index result }
{
    let mut low = 0;
    let mut high = runs.len();
    while low < high {
        let middle = low + (high - low) / 2;
        if runs[middle].end <= index {
            low = middle + 1;
        } else {
            high = middle;
        }
    }
    low
}

/// The number of the run that contains the conflict at an index. The run after `place` is tried first.
fn next_place(runs: &[Run], place: usize, index: usize) -> usize
    ensures { IsPlace runs.now index result }
{
    let next = place.saturating_add(1);
    if is_within(runs, next, index) {
        next
    } else {
        place_of(runs, index)
    }
}

/// Whether the run at this place contains the conflict at an index.
fn is_within(runs: &[Run], place: usize, index: usize) -> bool
    ensures { IsTrue result → IsPlace runs.now index place }
{
    match runs.get(place) {
        Some(run) => index < run.end && end_of(&runs[..place]) <= index,
        None => false,
    }
}

/// The conflict at an index, given the number of its run.
fn conflict_at(runs: &[Run], place: usize, index: usize) -> Option<Conflict>
    requires runs { AreRuns 0 runs.now }
    requires place { IsPlace runs.now index place }
    ensures { result ≡ slice_get (items_from 0 runs.now) index }
{
    let run = runs.get(place)?;
    Some(earlier(run.last, run.end - 1 - index))
}

/// The same conflict before the terminal whose number is less by `count`.
fn earlier(conflict: Conflict, count: usize) -> Conflict
    requires { count ≤ conflict.terminal.0 }
    ensures { result ≡ before count conflict }
{
    Conflict {
        terminal: Sym(conflict.terminal.0 - count as u32),
        ..conflict
    }
}
