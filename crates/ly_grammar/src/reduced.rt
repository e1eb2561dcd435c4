ghost use Rattle.std.specs.Prelude.{◌≡◌, ◌<◌, ◌≤◌, ◌↔◌, ℕ, length, IsTrue, IfOk, Err, [], ◌∷◌};
ghost use Rattle.ly_base.specs.Trees.{Tree};
ghost use Rattle.ly_sets.specs.NumberSet.{Member};
ghost use Rattle.ly_sets.specs.SetMatrix.{row};
ghost use Rattle.ly_join.specs.Grammar.{nonterminal, IsRule, GrammarRule};
ghost use Rattle.ly_grammar.specs.Derivations.{BeginsYield, IsNullable, IsReduced, IsTree};
ghost use Rattle.ly_grammar.specs.Reduction.{reduction_of, IsReduction, KeepsUseful};

use crate::fault::GrammarFault;
use crate::first::first_sets;
use crate::search::with_trees;
use crate::useful::useful_rules;
use ly_base::Sym;
use ly_join::Grammar;
use ly_sets::SetMatrix;
use std::alloc::Global;
use std::marker::Model;

/// A grammar without its useless rules, with its nullable nonterminals and FIRST sets.
#[derive(Drop)]
pub struct Reduced<'a> {
    /// The grammar with all rules.
    grammar: &'a Grammar,
    /// For each rule, whether it is rule 0 or useful.
    kept: Vec<bool>,
    /// For each nonterminal, whether it derives the empty string.
    nullable: Vec<bool>,
    /// For each nonterminal, the terminals that may begin what it derives.
    first: SetMatrix,
}

impl<'a> Model for Reduced<'a> {
    ghost use Rattle.ly_grammar.specs.Reduction.{Reduction, reduction_code};

    ghost Value = { Reduction };

    ghost coded = { reduction_code };

    ghost use Rattle.ly_grammar.specs.Reduction.{reduction_of, IsReduction};
    ghost use Rattle.ly_grammar.specs.Private.Sizes.{HasSizes};

    ghost view = { λ r. reduction_of r.grammar.now r.kept.items r.nullable.items r.first };

    ghost invariant = { λ r. IsReduction r.grammar.now
        (reduction_of r.grammar.now r.kept.items r.nullable.items r.first)
        × HasSizes r.grammar.now r.kept.items r.nullable.items r.first };
}

/// Removes the rules that occur in no tree of the start symbol, and finds the nullable nonterminals and the FIRST sets.
/// Removed rules keep their numbers. The time is linear in the grammar, except for the sets of terminals.
///
/// `StartUnproductive` if the start symbol has no tree, `OutOfMemory` if an allocation fails.
pub fn reduce<'a>(alloc: Global, grammar: &'a Grammar) -> Result<Reduced<'a>, GrammarFault>
    ensures ok { IfOk result (IsReduction grammar.now) }
    ensures unproductive { result ≡ Err GrammarFault.StartUnproductive
        → (d : Tree) → IsTree grammar.now (nonterminal grammar.now.start) d → ⊥ }
{
    let kept = useful_rules(alloc, grammar)?;
    let nullable = with_trees(alloc, grammar, &kept, false)?;
    let first = first_sets(alloc, grammar, &kept, &nullable)?;
    Ok(Reduced {
        grammar,
        kept,
        nullable,
        first,
    })
}

impl<'a> Reduced<'a> {
    /// The grammar with all rules.
    pub fn grammar(&self) -> &'a Grammar
        ensures { IsReduction result.now self.now }
    {
        self.grammar
    }

    /// Whether the rule with this number is kept: rule 0, or a useful rule.
    pub fn is_kept(&self, number: usize) -> bool
        requires { number < length self.now.grammar.rules }
        ensures { IsTrue result ↔ ((r : GrammarRule) × IsRule self.now.grammar number r) }
    {
        self.kept[number]
    }

    /// Whether a nonterminal derives the empty string.
    pub fn is_nullable(&self, symbol: Sym) -> bool
        requires { symbol.0 ≤ self.now.grammar.accept }
        ensures { IsTrue result ↔ IsNullable self.now.grammar (nonterminal symbol.0 ∷ []) }
    {
        self.nullable[symbol.0 as usize]
    }

    /// Whether a terminal may begin what a nonterminal derives.
    pub fn begins(&self, symbol: Sym, terminal: Sym) -> bool
        requires symbol { symbol.0 ≤ self.now.grammar.accept }
        requires terminal { terminal.0 < self.now.grammar.terminals }
        ensures { IsTrue result ↔ BeginsYield self.now.grammar (nonterminal symbol.0 ∷ []) terminal.0 }
    {
        self.first.contains(symbol.0 as usize, terminal)
    }
}
