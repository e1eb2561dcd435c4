//! The nonkernel items: the closure of a kernel without its own items (Aho, Sethi and Ullman 1986, 4.7). Consecutive
//! states often have the same ones, so their moves are listed once.
ghost use Rattle.std.specs.Prelude.{◌<◌, ℕ, [], Contains, length, OnOk};
ghost use Rattle.ly_join.specs.Grammar.{Grammar};
ghost use Rattle.ly_lr0.specs.Private.Closing.{AreByLeft};
ghost use Rattle.ly_lr0.specs.Private.Nonkernel.{AreNonkernel};

use crate::by_left::RulesByLeft;
use crate::closing::{complete_rules, list_items, list_moves};
use crate::item::{Item, Move};
use ly_grammar::Reduced;
use std::alloc::{AllocError, Global};

/// The rules of some nonterminals, with the dot at the front.
#[derive(Drop)]
pub(crate) struct Nonkernel {
    /// The allocator.
    alloc: Global,
    /// The nonterminals.
    entered: Vec<u32>,
    /// The items.
    items: Vec<Item>,
    /// Their moves, in the order of symbols, rules and dots.
    pub(crate) moves: Vec<Move>,
    /// The empty rules among them, in rising order.
    pub(crate) complete: Vec<usize>,
}

impl Nonkernel {
    /// The items of no nonterminal.
    pub(crate) fn new(alloc: Global) -> Self
        ensures { (G : Grammar) → AreNonkernel G [] result }
    {
        Nonkernel {
            alloc,
            entered: Vec::new(alloc),
            items: Vec::new(alloc),
            moves: Vec::new(alloc),
            complete: Vec::new(alloc),
        }
    }

    /// Changes it to the items of the entered nonterminals. If they are the same as before, nothing is listed again.
    pub(crate) fn enter(
        &mut self,
        reduced: &Reduced<'_>,
        by_left: &RulesByLeft,
        entered: &[u32],
    ) -> Result<(), AllocError>
        requires by_left { AreByLeft reduced.now.grammar by_left.now }
        requires within { (A : ℕ) → Contains entered.now A → A < length by_left.now }
        requires before { AreNonkernel reduced.now.grammar self.old.entered.items self.old }
        ensures { OnOk result (AreNonkernel reduced.now.grammar entered.now self.new) }
    {
        let before: &[u32] = &self.entered;
        if before == entered {
            return Ok(());
        }
        list_items(by_left, entered, &mut self.items)?;
        list_moves(reduced, &self.items, &[], &mut self.moves)?;
        self.complete = complete_rules(self.alloc, reduced, &self.items, &[])?;
        self.entered.clear();
        self.entered.extend_from_slice(entered)?;
        Ok(())
    }
}
