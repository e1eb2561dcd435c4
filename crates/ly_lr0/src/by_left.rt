ghost use Rattle.std.specs.Prelude.{◌≡◌, ◌<◌, ◌++◌, [], ◌∷◌, length, replicate, slice_index_or, slice_set, IfOk, OnOk};
ghost use Rattle.ly_lr0.specs.Private.Closing.{AreByLeft};

use ly_base::Sym;
use ly_grammar::Reduced;
use std::alloc::{AllocError, Global};
use std::marker::Model;

/// The rules of a reduced grammar, by left side.
#[derive(Drop)]
pub(crate) struct RulesByLeft {
    /// For each nonterminal, its rules.
    lists: Vec<Vec<usize>>,
}

impl Model for RulesByLeft {
    ghost use Rattle.std.specs.Prelude.{List, ℕ, map};

    ghost Value = { List (List ℕ) };

    ghost view = { λ w. map (λ rules. rules.items) w.lists.items };
}

/// The kept rules, by left side.
pub(crate) fn rules_by_left(alloc: Global, reduced: &Reduced<'_>) -> Result<RulesByLeft, AllocError>
    ensures { IfOk result (AreByLeft reduced.now.grammar) }
{
    let grammar = reduced.grammar();
    let mut by_left = RulesByLeft::new(alloc, grammar.accept().0 as usize + 1)?;
    for number in 0..grammar.rules().len() {
        if reduced.is_kept(number) {
            by_left.add(grammar.rule(number).left(), number)?;
        }
    }
    Ok(by_left)
}

impl RulesByLeft {
    /// Lists for this many nonterminals, without rules.
    fn new(alloc: Global, nonterminals: usize) -> Result<Self, AllocError>
        ensures { IfOk result (λ w. w ≡ replicate nonterminals []) }
    {
        let mut lists = Vec::with_capacity(alloc, nonterminals)?;
        for _ in 0..nonterminals {
            lists.push(Vec::new(alloc))?;
        }
        Ok(RulesByLeft { lists })
    }

    /// Adds a rule of a nonterminal.
    fn add(&mut self, left: Sym, rule: usize) -> Result<(), AllocError>
        requires { left.0 < length self.old }
        ensures { OnOk result (self.new ≡
            slice_set self.old left.0 (slice_index_or self.old left.0 [] ++ rule ∷ [])) }
    {
        self.lists[left.0 as usize].push(rule)?;
        Ok(())
    }

    /// The rules of a nonterminal.
    pub(crate) fn of(&self, left: Sym) -> &[usize]
        requires { left.0 < length self.now }
        ensures { result.now ≡ slice_index_or self.now left.0 [] }
    {
        &self.lists[left.0 as usize]
    }
}
