//! The items of a state.
ghost use Rattle.std.specs.Prelude.{◌≡◌, ◌↔◌, ◌<◌, Contains, IfOk, length};
ghost use Rattle.ly_join.specs.Grammar.{symbol_of};
ghost use Rattle.ly_lr0.specs.Automaton.{prefix_of, HasInCore};
ghost use Rattle.ly_lr0.specs.Private.Closing.{AreByLeft, AreKept};
ghost use Rattle.ly_lr0.specs.Private.Items.{IsClosed, IsMovedOver};
ghost use Rattle.ly_lr0.specs.declared.item.Item as spec;

use crate::by_left::RulesByLeft;
use crate::closing::{close, list_items, move_of};
use crate::item::Item;
use crate::lr0::Lr0;
use ly_base::{OutOfMemory, SparseSet, StateNo};
use ly_grammar::Reduced;
use ly_join::Symbol;
use std::alloc::{AllocError, Global};

impl Lr0<'_> {
    /// The items of a state, without lookaheads: the core of the strings that lead there.
    ///
    /// `OutOfMemory` if an allocation fails.
    pub fn core(&self, alloc: Global, state: StateNo) -> Result<Vec<Item>, OutOfMemory>
        requires { state.0 < length self.now.states }
        ensures { IfOk result (λ items. (i : spec.Item)
            → Contains items.items i ↔ HasInCore self.now.grammar (prefix_of self.now state.0) i.rule i.dot) }
    {
        let prefix = self.prefix(alloc, state)?;
        let mut kernel = Vec::new(alloc);
        kernel.push(Item { rule: 0, dot: 0 })?;
        let mut left = prefix.len();
        while left > 0 {
            left -= 1;
            let items = closed(alloc, self.reduced, &self.by_left, &kernel)?;
            kernel = kernel_behind(alloc, self.reduced, &items, prefix[left])?;
        }
        Ok(closed(alloc, self.reduced, &self.by_left, &kernel)?)
    }
}

/// The closure of a kernel, its own items first.
fn closed(
    alloc: Global,
    reduced: &Reduced<'_>,
    by_left: &RulesByLeft,
    kernel: &[Item],
) -> Result<Vec<Item>, AllocError>
    requires by_left { AreByLeft reduced.now.grammar by_left.now }
    requires kept { AreKept reduced.now.grammar kernel.now }
    ensures { IfOk result (λ items. (i : spec.Item)
        → Contains items.items i ↔ IsClosed reduced.now.grammar kernel.now i.rule i.dot) }
{
    let mut entered = SparseSet::new(alloc, reduced.grammar().accept().0 as usize + 1)?;
    close(reduced, by_left, kernel, &mut entered);
    let mut others = Vec::new(alloc);
    list_items(by_left, entered.members(), &mut others)?;
    let mut items = Vec::from_slice(alloc, kernel)?;
    items.extend_from_slice(&others)?;
    Ok(items)
}

/// The items that others move to over a symbol.
fn kernel_behind(
    alloc: Global,
    reduced: &Reduced<'_>,
    items: &[Item],
    symbol: Symbol,
) -> Result<Vec<Item>, AllocError>
    requires { AreKept reduced.now.grammar items.now }
    ensures { IfOk result (λ kernel. (i : spec.Item)
        → Contains kernel.items i ↔ IsMovedOver reduced.now.grammar items.now (symbol_of symbol) i) }
{
    let mut kernel = Vec::new(alloc);
    for item in items {
        if let Some(step) = move_of(reduced, *item) {
            if step.symbol == symbol {
                kernel.push(step.item)?;
            }
        }
    }
    Ok(kernel)
}
