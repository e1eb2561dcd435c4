ghost use Rattle.std.specs.Prelude.{◌≡◌, ◌↔◌, ◌⊎◌, ◌<◌, ◌≤◌, ◌+◌, ◌^◌, ℕ, suc, [], length, slice_index_or, Contains};
ghost use Rattle.std.specs.Prelude.{AllPairs, IfOk, IsTrue, MatchOption, OnOk};
ghost use Rattle.ly_join.specs.Grammar.{IsAugmented, symbol_of, terminal};
ghost use Rattle.ly_lr0.specs.Private.Closing.{AreAdded, AreByLeft, AreKept, IsAdded, IsAtEnd};
ghost use Rattle.ly_lr0.specs.Private.Closing.{IsKept, IsListed, IsMove, IsMoveOfOne, IsRuleAtEnd, MoveIsLess};
ghost use Rattle.ly_lr0.specs.Private.Items.{IsEntered};
ghost use Rattle.ly_lr0.specs.declared.item.Item as spec;
ghost use Rattle.ly_lr0.specs.declared.item.Move as moved;

use crate::by_left::RulesByLeft;
use crate::item::{Item, Move};
use ly_base::{SparseSet, Sym};
use ly_grammar::Reduced;
use ly_join::Symbol;
use std::alloc::{AllocError, Global};

/// The symbol after an item's dot and the item with the dot after it, if the dot isn't at the end.
pub(crate) fn move_of(reduced: &Reduced<'_>, item: Item) -> Option<Move>
    requires { IsKept reduced.now.grammar item.rule }
    ensures behind { MatchOption result (IsAtEnd reduced.now.grammar item) (IsMove reduced.now.grammar item) }
    ensures lawful { IsAugmented reduced.now.grammar }
{
    let body = reduced.grammar().rule(item.rule).body();
    let symbol = *body.get(item.dot)?;
    let behind = Item {
        rule: item.rule,
        dot: item.dot + 1,
    };
    Some(Move {
        symbol,
        item: behind,
    })
}

/// Adds the nonterminal after the dot of an item to `entered`, if there is one.
fn enter(reduced: &Reduced<'_>, item: Item, entered: &mut SparseSet)
    requires kept { IsKept reduced.now.grammar item.rule }
    requires room { reduced.now.grammar.accept < entered.old.below }
    ensures { IsAdded reduced.now.grammar item entered.old entered.new }
{
    if let Some(step) = move_of(reduced, item) {
        if let Symbol::Nonterminal(symbol) = step.symbol {
            entered.insert(symbol.0);
        }
    }
}

/// Adds the nonterminals at the front of rules to `entered`.
fn enter_rules(reduced: &Reduced<'_>, rules: &[usize], entered: &mut SparseSet)
    requires kept { (q : ℕ) → Contains rules.now q → IsKept reduced.now.grammar q }
    requires room { reduced.now.grammar.accept < entered.old.below }
    ensures { AreAdded reduced.now.grammar rules.now entered.old entered.new }
{
    for &rule in rules {
        enter(reduced, Item { rule, dot: 0 }, entered);
    }
}

/// Adds the nonterminals after the dots of a kernel to `entered`, and those at the front of the rules of entered ones.
/// The rules of each nonterminal are visited once.
pub(crate) fn close(
    reduced: &Reduced<'_>,
    by_left: &RulesByLeft,
    kernel: &[Item],
    entered: &mut SparseSet,
)
    requires by_left { AreByLeft reduced.now.grammar by_left.now }
    requires kept { AreKept reduced.now.grammar kernel.now }
    requires room { reduced.now.grammar.accept < entered.old.below }
    ensures entered { (A : ℕ) → Contains entered.new.members A ↔ IsEntered reduced.now.grammar kernel.now A }
    ensures below { entered.new.below ≡ entered.old.below }
{
    entered.clear();
    for item in kernel {
        enter(reduced, *item, entered);
    }
    let mut next = 0;
    while next < entered.members().len() {
        let left = entered.members()[next];
        enter_rules(reduced, by_left.of(Sym(left)), entered);
        next += 1;
    }
}

/// Lists the rules of the entered nonterminals, with the dot at the front.
pub(crate) fn list_items(
    by_left: &RulesByLeft,
    entered: &[u32],
    items: &mut Vec<Item>,
) -> Result<(), AllocError>
    requires { (A : ℕ) → Contains entered.now A → A < length by_left.now }
    ensures { OnOk result ((i : spec.Item) → Contains items.new.items i ↔ IsListed by_left.now [] entered.now i) }
{
    items.clear();
    for left in entered {
        for &rule in by_left.of(Sym(*left)) {
            items.push(Item { rule, dot: 0 })?;
        }
    }
    Ok(())
}

/// Lists the moves of items, except those over the end, and other known moves, in the order of symbols, rules and dots.
pub(crate) fn list_moves(
    reduced: &Reduced<'_>,
    items: &[Item],
    known: &[Move],
    moves: &mut Vec<Move>,
) -> Result<(), AllocError>
    requires { AreKept reduced.now.grammar items.now }
    ensures each { OnOk result ((m : moved.Move) → Contains moves.new.items m
        ↔ (Contains known.now m ⊎ IsMoveOfOne reduced.now.grammar items.now m)) }
    ensures rising { OnOk result (AllPairs MoveIsLess moves.new.items) }
{
    moves.clear();
    // Dots of a kernel are mostly before nonterminals, which come after terminals: so the moves are nearly sorted.
    for step in known {
        moves.push(*step)?;
    }
    for item in items {
        if let Some(step) = move_of(reduced, *item) {
            if !is_end(step.symbol) {
                moves.push(step)?;
            }
        }
    }
    moves.sort_unstable();
    moves.dedup();
    Ok(())
}

/// Whether a symbol is the end of the text.
fn is_end(symbol: Symbol) -> bool
    ensures { IsTrue result ↔ (symbol_of symbol ≡ terminal 0) }
{
    match symbol {
        Symbol::Terminal(number) => number.0 == 0,
        Symbol::Nonterminal(_) => false,
    }
}

/// Lists the rules of the items whose dots are at the end, and other known complete rules, in rising order.
pub(crate) fn complete_rules(
    alloc: Global,
    reduced: &Reduced<'_>,
    items: &[Item],
    known: &[usize],
) -> Result<Vec<usize>, AllocError>
    requires { AreKept reduced.now.grammar items.now }
    ensures each { IfOk result (λ rules. (p : ℕ) → Contains rules.items p
        ↔ (Contains known.now p ⊎ IsRuleAtEnd reduced.now.grammar items.now p)) }
    ensures rising { IfOk result (λ rules. AllPairs (λ p q. p < q) rules.items) }
{
    let mut rules = Vec::from_slice(alloc, known)?;
    for item in items {
        if move_of(reduced, *item).is_none() {
            rules.push(item.rule)?;
        }
    }
    rules.sort_unstable();
    rules.dedup();
    Ok(rules)
}
