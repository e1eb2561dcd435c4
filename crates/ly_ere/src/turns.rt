// Topological sort (Kahn 1962) of items that use one another: the next item is always the least one whose uses have all
// been taken. An item waits for one use at a time, the first that isn't taken, so each use is visited once.
ghost use Rattle.std.specs.Prelude.{◌≡◌, ◌<◌, ◌≤◌, ℕ, List, ◌∷◌, [], All, false, length, map, IfOk, OnOk};
ghost use Rattle.std.specs.BTreeSet.{contains};
ghost use Rattle.std.specs.Ordering.{nat_cmp};
ghost use Rattle.ly_ere.specs.Private.Turns.{AreThere, AreTurns, ArePut, IsNextUse, IsThrough};
ghost use Rattle.ly_ere.specs.Private.Turns.{count_untaken, numbers_from, uses_in};

use std::alloc::{AllocError, Global};
use std::collections::BTreeSet;
use std::mem;

/// Sorts items so that each follows those that it uses. The next one is always the least possible. An item that leads
/// into a cycle is left out.
pub(crate) fn in_turn(alloc: Global, uses: &[Vec<usize>]) -> Result<InTurn, AllocError>
    requires { AreThere (map (λ v. v.items) uses.now) }
    ensures { IfOk result (ArePut (map (λ v. v.items) uses.now)) }
{
    let mut turns = Turns::new(alloc, uses)?;
    for number in 0..uses.len() {
        turns.settle(number)?;
    }
    while let Some(number) = turns.ready.pop_first() {
        turns.take(alloc, number)?;
    }
    Ok(turns.in_order())
}

/// A sorted list of items, and the least item that isn't in it.
#[derive(Drop)]
pub(crate) struct InTurn {
    /// The numbers of the items in order.
    pub(crate) order: Vec<usize>,
    /// The least number that isn't in the list.
    pub(crate) left: Option<usize>,
}

/// The state of the sort.
#[derive(Drop)]
struct Turns<'u> {
    /// The items that each item uses.
    uses: &'u [Vec<usize>],
    /// For each item the number of its first uses that are known to be taken.
    passed: Vec<usize>,
    /// For each item those that wait for it.
    waiting: Vec<Vec<usize>>,
    /// Whether each item is taken.
    taken: Vec<bool>,
    /// The items that aren't taken and whose uses all are.
    ready: BTreeSet<usize>,
    /// The taken items, in that order.
    order: Vec<usize>,
}

impl<'u> Turns<'u> {
    /// Begins the sort: nothing is taken, and the next use of each item is still to be found.
    fn new(alloc: Global, uses: &'u [Vec<usize>]) -> Result<Self, AllocError>
        requires { AreThere (map (λ v. v.items) uses.now) }
        ensures same { IfOk result (λ t. t.uses.now ≡ uses.now) }
        ensures turns { IfOk result (λ t. AreTurns t (numbers_from 0 (length uses.now))) }
    {
        let mut waiting = Vec::with_capacity(alloc, uses.len())?;
        for _ in uses {
            waiting.push(Vec::new(alloc))?;
        }
        Ok(Turns {
            uses,
            passed: vec![in alloc; 0; uses.len()]?,
            waiting,
            taken: vec![in alloc; false; uses.len()]?,
            ready: BTreeSet::new(alloc),
            order: Vec::new(alloc),
        })
    }

    /// Finds the next use that an item waits for. If there is none, the item is ready.
    fn settle(&mut self, number: usize) -> Result<(), AllocError>
        requires { (rest : List ℕ) × AreTurns self.old (number ∷ rest) }
        ensures same { self.new.uses.now ≡ self.old.uses.now }
        ensures taken { self.new.taken.items ≡ self.old.taken.items }
        ensures order { self.new.order.items ≡ self.old.order.items }
        ensures turns { (rest : List ℕ) → AreTurns self.old (number ∷ rest) → OnOk result (AreTurns self.new rest) }
    {
        let uses = &self.uses[number];
        let at = next_use(uses, &self.taken, self.passed[number]);
        self.passed[number] = at;
        if at < uses.len() {
            self.waiting[uses[at]].push(number)?;
        } else {
            self.ready.insert(number)?;
        }
        Ok(())
    }

    /// Takes a ready item, and settles those that waited for it.
    fn take(&mut self, alloc: Global, number: usize) -> Result<(), AllocError>
        requires turns { AreTurns self.old (number ∷ []) }
        requires through { IsThrough (uses_in self.old) self.old.passed.items number }
        requires least { (k : ℕ) → k ≤ number → contains nat_cmp self.old.ready k ≡ false }
        ensures same { self.new.uses.now ≡ self.old.uses.now }
        ensures fewer { OnOk result (count_untaken self.new.taken.items < count_untaken self.old.taken.items) }
        ensures turns { OnOk result (AreTurns self.new []) }
    {
        self.order.push(number)?;
        self.taken[number] = true;
        let woken = mem::replace(&mut self.waiting[number], Vec::new(alloc));
        for sleeper in &woken {
            self.settle(*sleeper)?;
        }
        Ok(())
    }

    /// Returns the sorted list, and the least item that isn't taken.
    fn in_order(self) -> InTurn
        requires turns { AreTurns self [] }
        requires none { (n : ℕ) → contains nat_cmp self.ready n ≡ false }
        ensures { ArePut (uses_in self.entry) result }
    {
        let left = self.taken.iter().position(|taken| !*taken);
        InTurn {
            order: self.order,
            left,
        }
    }
}

/// The index of the first use, from `from` on, that isn't taken; the number of uses if all are.
fn next_use(uses: &[usize], taken: &[bool], from: usize) -> usize
    requires within { from ≤ length uses.now }
    requires there { All (λ u. u < length taken.now) uses.now }
    ensures { IsNextUse uses.now taken.now from result }
{
    let mut at = from;
    while at < uses.len() && taken[uses[at]] {
        at += 1;
    }
    at
}
