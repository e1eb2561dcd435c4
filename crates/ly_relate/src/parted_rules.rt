//! The rules of nonterminals, split by whether they begin with a terminal.
ghost use Rattle.std.specs.Prelude.{◌≡◌, ◌<◌, ◌≤◌, [], length, slice_index_or, IfOk, IsTrue};
ghost use Rattle.ly_join.specs.Grammar.{IsRule, GrammarRule};
ghost use Rattle.ly_relate.specs.Private.Groups.{AreAllParted, AreParted, BeginsSolid};

use ly_base::{OutOfMemory, Sym};
use ly_join::Symbol;
use ly_lr0::Lr0;
use std::alloc::Global;
use std::marker::Model;

/// The rules of nonterminals, in two lists each.
#[derive(Drop)]
pub(crate) struct PartedRules {
    /// For each nonterminal, the rules that begin with a terminal.
    solid: Vec<Vec<usize>>,
    /// For each nonterminal, its other rules.
    others: Vec<Vec<usize>>,
}

impl Model for PartedRules {
    ghost use Rattle.std.specs.Prelude.{map};
    ghost use Rattle.ly_relate.specs.Private.Groups.{RuleLists};

    ghost Value = { RuleLists };

    ghost view = { λ r. record {
      solid = map (λ v. v.items) r.solid.items;
      others = map (λ v. v.items) r.others.items;
    } };
}

impl PartedRules {
    /// The rules of an automaton's grammar.
    pub(crate) fn new(alloc: Global, lr0: &Lr0<'_>) -> Result<PartedRules, OutOfMemory>
        ensures { IfOk result (AreAllParted lr0.now) }
    {
        let nonterminals = lr0.reduced().grammar().accept().0 as usize + 1;
        let mut solid = Vec::with_capacity(alloc, nonterminals)?;
        let mut others = Vec::with_capacity(alloc, nonterminals)?;
        for symbol in 0..nonterminals {
            let (first, second) = parted(alloc, lr0, Sym(symbol as u32))?;
            solid.push(first)?;
            others.push(second)?;
        }
        Ok(PartedRules { solid, others })
    }

    /// The number of nonterminals.
    pub(crate) fn len(&self) -> usize
        ensures { result ≡ length self.now.solid }
    {
        self.solid.len()
    }

    /// The rules of a nonterminal that begin with a terminal.
    pub(crate) fn solid(&self, symbol: Sym) -> &[usize]
        requires { symbol.0 < length self.now.solid }
        ensures { result.now ≡ slice_index_or self.now.solid symbol.0 [] }
    {
        &self.solid[symbol.0 as usize]
    }

    /// The rules of a nonterminal that don't begin with a terminal.
    pub(crate) fn others(&self, symbol: Sym) -> &[usize]
        requires { symbol.0 < length self.now.others }
        ensures { result.now ≡ slice_index_or self.now.others symbol.0 [] }
    {
        &self.others[symbol.0 as usize]
    }
}

/// The rules of a nonterminal in two lists: those that begin with a terminal, and the others.
fn parted(
    alloc: Global,
    lr0: &Lr0<'_>,
    symbol: Sym,
) -> Result<(Vec<usize>, Vec<usize>), OutOfMemory>
    requires { symbol.0 ≤ lr0.now.grammar.accept }
    ensures { IfOk result (λ lists. AreParted lr0.now symbol.0 lists.0.items lists.1.items) }
{
    let mut solid = Vec::new(alloc);
    let mut others = Vec::new(alloc);
    for &rule in lr0.rules_of(symbol) {
        if begins_solid(lr0, rule) {
            solid.push(rule)?;
        } else {
            others.push(rule)?;
        }
    }
    Ok((solid, others))
}

/// Whether the body of a rule begins with a terminal.
fn begins_solid(lr0: &Lr0<'_>, rule: usize) -> bool
    requires { (r : GrammarRule) × IsRule lr0.now.grammar rule r }
    ensures { IsTrue result → BeginsSolid lr0.now.grammar rule }
{
    let body = lr0.reduced().grammar().rule(rule).body();
    matches!(body.first(), Some(Symbol::Terminal(_)))
}
