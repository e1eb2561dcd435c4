//! By which rules symbols begin with a terminal the soonest: each nonterminal is expanded until the terminal shows.
use ly_analysis::body_of;
use ly_base::Sym;
use ly_grammar::Reduced;
use ly_join::{Grammar, Symbol};
use std::alloc::{AllocError, Global};

/// The greatest number of passes over the rules, and so of rules that are expanded.
pub(crate) const ROUNDS: usize = 64;

/// How symbols begin with a terminal.
#[derive(Drop)]
pub(crate) struct Begins {
    /// The terminal.
    terminal: Sym,
    /// For each nonterminal the rule by which it begins with the terminal, if it can.
    rules: Vec<Option<Beginning>>,
    /// For each nonterminal whether it derives the empty string.
    nullable: Vec<bool>,
}

/// How a nonterminal begins with a terminal.
#[derive(Clone, Copy)]
pub(crate) struct Beginning {
    /// The rule.
    pub(crate) rule: usize,
    /// The number of symbols of its body that are empty before the one that begins with the terminal.
    pub(crate) passed: usize,
    /// The number of rules from here to the terminal.
    depth: usize,
}

impl Begins {
    /// Computes how the nonterminals of a grammar begin with a terminal.
    pub(crate) fn of(
        alloc: Global,
        reduced: &Reduced<'_>,
        terminal: Sym,
    ) -> Result<Begins, AllocError> {
        let last = reduced.grammar().accept().0;
        let mut begins = Begins {
            terminal,
            rules: vec![in alloc; None; last as usize + 1]?,
            nullable: Vec::new(alloc),
        };
        for number in 0..=last {
            begins.nullable.push(is_nullable(reduced, Sym(number)))?;
        }
        for _ in 0..ROUNDS {
            if !begins.shorten(reduced) {
                break;
            }
        }
        Ok(begins)
    }

    /// Records each rule by which its left side begins with the terminal sooner than by those that are known. Returns
    /// whether there was one.
    fn shorten(&mut self, reduced: &Reduced<'_>) -> bool {
        let rules = reduced.grammar().rules();
        let mut shortened = false;
        for (number, rule) in rules.iter().enumerate() {
            if reduced.is_kept(number)
                && let Some((passed, depth)) = self.soonest_in(rule.body())
            {
                let beginning = Beginning {
                    rule: number,
                    passed,
                    depth: depth.saturating_add(1),
                };
                shortened |= self.take(rule.left(), beginning);
            }
        }
        shortened
    }

    /// Records how a nonterminal begins with the terminal, if it does so sooner.
    fn take(&mut self, left: Sym, beginning: Beginning) -> bool {
        let Some(known) = self.rules.get_mut(left.0 as usize) else {
            return false;
        };
        let sooner = match known {
            Some(known) => beginning.depth < known.depth,
            None => true,
        };
        if sooner {
            *known = Some(beginning);
        }
        sooner
    }

    /// The number of symbols before the one by which these symbols begin with the terminal the soonest, if they can.
    pub(crate) fn place_in(&self, symbols: &[Symbol]) -> Option<usize> {
        let (place, _) = self.soonest_in(symbols)?;
        Some(place)
    }

    /// That number, and the number of rules that are expanded.
    fn soonest_in(&self, symbols: &[Symbol]) -> Option<(usize, usize)> {
        let mut soonest: Option<(usize, usize)> = None;
        for (place, symbol) in symbols.iter().enumerate() {
            if let Some(depth) = self.depth_of(*symbol) {
                soonest = match soonest {
                    Some((_, least)) if least <= depth => soonest,
                    _ => Some((place, depth)),
                };
            }
            if !self.is_nullable(*symbol) {
                break;
            }
        }
        soonest
    }

    /// The number of rules that are expanded until a symbol begins with the terminal, if it can.
    fn depth_of(&self, symbol: Symbol) -> Option<usize> {
        match symbol {
            Symbol::Terminal(number) => (number == self.terminal).then_some(0),
            Symbol::Nonterminal(number) => Some(self.beginning_of(number)?.depth),
        }
    }

    /// Whether a symbol derives the empty string.
    fn is_nullable(&self, symbol: Symbol) -> bool {
        match symbol {
            Symbol::Terminal(_) => false,
            Symbol::Nonterminal(number) => self.nullable.get(number.0 as usize) == Some(&true),
        }
    }

    /// How a nonterminal begins with the terminal, if it can.
    pub(crate) fn beginning_of(&self, left: Sym) -> Option<Beginning> {
        *self.rules.get(left.0 as usize)?
    }
}

/// Whether a nonterminal derives the empty string; false for a number without a nonterminal.
fn is_nullable(reduced: &Reduced<'_>, number: Sym) -> bool {
    number.0 <= reduced.grammar().accept().0 && reduced.is_nullable(number)
}

/// The symbols of a rule's body before the one that begins with the terminal, that one, and those after it.
pub(crate) fn parts_of(
    grammar: &Grammar,
    beginning: Beginning,
) -> Option<(&[Symbol], Symbol, &[Symbol])> {
    let body = body_of(grammar, beginning.rule);
    let before = body.get(..beginning.passed)?;
    let (first, behind) = body.get(beginning.passed..)?.split_first()?;
    Some((before, *first, behind))
}
