//! A partial parse of a sentence around the conflict point.
use crate::yields::push_reversed;
use ly_analysis::{body_of, rest_of};
use ly_base::Sym;
use ly_join::{Grammar, Symbol};
use ly_lr0::Item;
use std::alloc::{AllocError, Global};

/// The greatest number of symbols that a parse has ahead, and of rules that are open in it or completed after the
/// point.
pub(crate) const LONGEST: usize = 300;

/// A partial parse of a sentence.
#[derive(Drop)]
pub(crate) struct Reading {
    /// The partially parsed rules, the innermost first. The dot of that one is at the conflict point; the dot of each
    /// other is before the rule inside it.
    pub(crate) open: Vec<Item>,
    /// The number of their symbols before the conflict point.
    pub(crate) passed: usize,
    /// The rules of what was read after the conflict point.
    pub(crate) rules: Vec<usize>,
    /// The symbols ahead in the rules, the next one last.
    pub(crate) ahead: Vec<Symbol>,
}

impl Reading {
    /// Returns the parse that begins with the rule of an item, whose dot is at the conflict point.
    pub(crate) fn of(alloc: Global, grammar: &Grammar, item: Item) -> Result<Reading, AllocError> {
        let mut open = Vec::new(alloc);
        open.push(item)?;
        let mut ahead = Vec::new(alloc);
        push_reversed(&mut ahead, rest_of(grammar, item.rule, item.dot))?;
        Ok(Reading {
            open,
            passed: item.dot,
            rules: Vec::new(alloc),
            ahead,
        })
    }

    /// Returns the parse of a whole text that a path begins.
    pub(crate) fn of_way(
        alloc: Global,
        grammar: &Grammar,
        way: &[Item],
        passed: usize,
    ) -> Result<Reading, AllocError> {
        let mut open: Vec<Item> = Vec::new(alloc);
        for item in way {
            match open.last_mut() {
                Some(top) if item.dot > 0 => *top = *item,
                _ => open.push(*item)?,
            }
        }
        let mut ahead = Vec::new(alloc);
        for (place, item) in open.iter().enumerate() {
            let inmost = place.saturating_add(1) == open.len();
            let behind = item.dot.saturating_add(!inmost as usize);
            push_reversed(&mut ahead, rest_of(grammar, item.rule, behind))?;
        }
        open.reverse();
        Ok(Reading {
            open,
            passed,
            rules: Vec::new(alloc),
            ahead,
        })
    }

    /// The next symbol.
    pub(crate) fn next(&self) -> Option<Symbol> {
        self.ahead.last().copied()
    }

    /// The number of rules and symbols in the parse.
    pub(crate) fn size(&self) -> usize {
        let rules = self.open.len().saturating_add(self.rules.len());
        rules.saturating_add(self.ahead.len())
    }

    /// Whether the parse is too long to be continued.
    pub(crate) fn is_long(&self) -> bool {
        self.ahead.len() > LONGEST || self.rules.len() > LONGEST || self.open.len() > LONGEST
    }

    /// The outermost partially parsed rule.
    pub(crate) fn outmost(&self) -> Option<Item> {
        self.open.last().copied()
    }

    /// The left side of the outermost partially parsed rule.
    pub(crate) fn left(&self, grammar: &Grammar) -> Option<Sym> {
        let outmost = self.outmost()?;
        let rule = grammar.rules().get(outmost.rule)?;
        Some(rule.left())
    }

    /// The parse with the next symbol expanded to the body of a rule.
    pub(crate) fn with_rule(
        &self,
        alloc: Global,
        grammar: &Grammar,
        rule: usize,
    ) -> Result<Reading, AllocError> {
        let mut reading = self.copy(alloc)?;
        reading.ahead.pop();
        reading.rules.push(rule)?;
        push_reversed(&mut reading.ahead, body_of(grammar, rule))?;
        Ok(reading)
    }

    /// The parse with an enclosing rule, in which the outermost rule follows the dot of this item. Only what follows it
    /// there is ahead.
    pub(crate) fn within(
        &self,
        alloc: Global,
        grammar: &Grammar,
        around: Item,
    ) -> Result<Reading, AllocError> {
        let mut reading = self.copy(alloc)?;
        reading.open.push(around)?;
        reading.passed = reading.passed.saturating_add(around.dot);
        let behind = around.dot.saturating_add(1);
        push_reversed(&mut reading.ahead, rest_of(grammar, around.rule, behind))?;
        Ok(reading)
    }

    /// A copy of the reading.
    pub(crate) fn copy(&self, alloc: Global) -> Result<Reading, AllocError> {
        Ok(Reading {
            open: Vec::from_slice(alloc, &self.open)?,
            passed: self.passed,
            rules: Vec::from_slice(alloc, &self.rules)?,
            ahead: Vec::from_slice(alloc, &self.ahead)?,
        })
    }
}
