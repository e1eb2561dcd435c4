//! Two partial parses of one sentence, which take the two actions of a conflict at the same point.
use crate::drawing::begin;
use crate::growing::Search;
use crate::reading::Reading;
use crate::waiting::states_before;
use crate::yields::Yields;
use ly_analysis::{body_of, symbol_to};
use ly_base::{StateNo, Sym};
use ly_counterexamples::Examples;
use ly_join::{Grammar, Symbol};
use ly_lr0::{Item, Lr0};
use std::alloc::{AllocError, Global};

/// Two partial parses of one sentence.
#[derive(Drop)]
pub(crate) struct Pair {
    /// The parse that shifts, or reduces by the rule that is chosen.
    pub(crate) one: Reading,
    /// The parse that reduces by the rule of the conflict.
    pub(crate) other: Reading,
    /// The symbols before the conflict point in the longer of them, from the point backwards.
    pub(crate) string: Vec<Symbol>,
    /// The states from which these symbols lead to the state of the conflict.
    pub(crate) states: Vec<StateNo>,
    /// Whether the terminal of the conflict isn't read yet.
    pub(crate) pending: bool,
    /// The number of tokens read after the conflict point.
    pub(crate) read: u64,
    /// The number of rules that were added on the way to this pair.
    pub(crate) taken: u64,
}

/// One of two parses, or both.
#[derive(Clone, Copy, PartialEq, Eq)]
pub(crate) enum Which {
    /// The first one.
    One,
    /// The second one.
    Other,
    /// Both of them.
    Both,
}

/// What precedes the conflict point of two parses.
#[derive(Drop)]
pub(crate) struct Before {
    /// The symbols, from the point backwards.
    string: Vec<Symbol>,
    /// The states from which these symbols lead to the state of the conflict.
    states: Vec<StateNo>,
}

impl Pair {
    /// Whether both parses are of the same nonterminal, from the same symbol on, and have nothing ahead.
    pub(crate) fn is_joined(&self, grammar: &Grammar) -> bool {
        self.one.ahead.is_empty()
            && self.other.ahead.is_empty()
            && self.one.passed == self.other.passed
            && self.one.left(grammar) == self.other.left(grammar)
    }

    /// Whether both parses are of the whole text, and have nothing ahead.
    pub(crate) fn is_whole(&self, grammar: &Grammar) -> bool {
        self.is_joined(grammar)
            && match self.one.outmost() {
                Some(item) => item.rule == 0,
                None => false,
            }
    }

    /// The number of symbols, states and rules that the pair holds.
    pub(crate) fn size(&self) -> usize {
        let readings = self.one.size().saturating_add(self.other.size());
        let before = self.string.len().saturating_add(self.states.len());
        readings.saturating_add(before)
    }

    /// One of the parses; for both, the first one.
    pub(crate) fn reading(&self, which: Which) -> &Reading {
        match which {
            Which::One | Which::Both => &self.one,
            Which::Other => &self.other,
        }
    }

    /// Which of two parses gets an enclosing rule. At least one of them has nothing ahead. `None` if either may.
    pub(crate) fn shorter(&self, grammar: &Grammar) -> Option<Which> {
        if self.is_joined(grammar) {
            return Some(Which::Both);
        }
        if !self.other.ahead.is_empty() {
            return Some(Which::One);
        }
        if !self.one.ahead.is_empty() {
            return Some(Which::Other);
        }
        if self.one.passed < self.other.passed {
            return Some(Which::One);
        }
        if self.other.passed < self.one.passed {
            return Some(Which::Other);
        }
        None
    }

    /// What precedes the conflict point after a parse gets the rule of an item as its enclosing rule; `None` if no such
    /// string leads to the state of the conflict. It takes steps of the search.
    pub(crate) fn before_within(
        &self,
        alloc: Global,
        examples: &Examples<'_>,
        search: &mut Search,
        which: Which,
        around: Item,
    ) -> Result<Option<Before>, AllocError> {
        let lr0 = examples.resolved().lr0();
        let body = body_of(lr0.reduced().grammar(), around.rule);
        let front = body.get(..around.dot).unwrap_or_default();
        let known = self.known_before(which);
        let Some(new) = unknown_part(front, known) else {
            return Ok(None);
        };
        search.take_steps(self.states.len());
        if !self.goes_back_over(lr0, new.last()) {
            return Ok(None);
        }
        search.take_steps(self.size());
        let mut before = Before {
            string: Vec::from_slice(alloc, &self.string)?,
            states: Vec::from_slice(alloc, &self.states)?,
        };
        for symbol in new.iter().rev() {
            before.string.push(*symbol)?;
            before.states = states_before(alloc, examples, &before.states, *symbol)?;
            search.take_steps(before.states.len());
            if before.states.is_empty() {
                return Ok(None);
            }
        }
        if front.len() >= known.len() {
            before.states = beginning(alloc, lr0, &before.states, around.rule)?;
        }
        if before.states.is_empty() {
            return Ok(None);
        }
        Ok(Some(before))
    }

    /// The symbols that are known to precede a parse, the last one first.
    fn known_before(&self, which: Which) -> &[Symbol] {
        self.string
            .get(self.reading(which).passed..)
            .unwrap_or_default()
    }

    /// Whether one of the states is reached by this symbol, if there is one. It is called for each possible enclosing
    /// rule, and mostly returns false.
    fn goes_back_over(&self, lr0: &Lr0<'_>, symbol: Option<&Symbol>) -> bool {
        match symbol {
            Some(symbol) => self
                .states
                .iter()
                .any(|state| symbol_to(lr0, *state) == Some(*symbol)),
            None => true,
        }
    }

    /// The pair whose parses have the rule of an item as enclosing rule. `before` precedes the conflict point in it.
    pub(crate) fn within(
        &self,
        alloc: Global,
        grammar: &Grammar,
        before: Before,
        which: Which,
        around: Item,
    ) -> Result<Pair, AllocError> {
        let one = match which {
            Which::One | Which::Both => self.one.within(alloc, grammar, around)?,
            Which::Other => self.one.copy(alloc)?,
        };
        let other = match which {
            Which::Other | Which::Both => self.other.within(alloc, grammar, around)?,
            Which::One => self.other.copy(alloc)?,
        };
        let Before { string, states } = before;
        Ok(Pair {
            one,
            other,
            string,
            states,
            pending: self.pending,
            read: self.read,
            taken: self.taken.saturating_add(1),
        })
    }

    /// The pair whose parses have the next symbol expanded to the body of a rule.
    pub(crate) fn with_rule(
        &self,
        alloc: Global,
        grammar: &Grammar,
        which: Which,
        rule: usize,
    ) -> Result<Pair, AllocError> {
        let one = match which {
            Which::One | Which::Both => self.one.with_rule(alloc, grammar, rule)?,
            Which::Other => self.one.copy(alloc)?,
        };
        let other = match which {
            Which::Other | Which::Both => self.other.with_rule(alloc, grammar, rule)?,
            Which::One => self.other.copy(alloc)?,
        };
        Ok(Pair {
            one,
            other,
            string: Vec::from_slice(alloc, &self.string)?,
            states: Vec::from_slice(alloc, &self.states)?,
            pending: self.pending,
            read: self.read,
            taken: self.taken.saturating_add(1),
        })
    }

    /// Whether a parse can continue with symbols: with the terminal of the conflict if it isn't read yet, and else with
    /// the next terminal of the other parse, if it has one.
    pub(crate) fn may_meet(
        &self,
        lr0: &Lr0<'_>,
        terminal: Sym,
        which: Which,
        symbols: &[Symbol],
    ) -> bool {
        let wanted = if self.pending {
            Some(terminal)
        } else {
            match which {
                Which::One => terminal_of(self.other.next()),
                Which::Other => terminal_of(self.one.next()),
                Which::Both => None,
            }
        };
        match wanted {
            Some(terminal) => {
                let (begins, nullable) = begin(lr0.reduced(), symbols, terminal);
                begins || nullable
            }
            None => true,
        }
    }

    /// The cost of the pair: the tokens that it has or needs at least, and the rules that were added. `None` if it is
    /// unknown.
    pub(crate) fn price(&self, yields: &Yields) -> Option<u64> {
        let before = yields.length(&self.string)?;
        let ahead = yields
            .length(&self.one.ahead)?
            .max(yields.length(&self.other.ahead)?);
        Some(
            before
                .saturating_add(ahead)
                .saturating_add(self.read)
                .saturating_add(self.taken),
        )
    }

    /// A key that is equal for pairs with the same continuations.
    pub(crate) fn key(&self, alloc: Global, grammar: &Grammar) -> Result<Vec<u32>, AllocError> {
        let mut key = Vec::new(alloc);
        key.push(self.pending as u32)?;
        push_reading(&mut key, grammar, &self.one)?;
        push_reading(&mut key, grammar, &self.other)?;
        let shared = self.one.passed.min(self.other.passed);
        push_symbols(&mut key, self.string.get(shared..).unwrap_or_default())?;
        for state in &self.states {
            key.push(state.0)?;
        }
        Ok(key)
    }
}

/// The symbols of a front that precede the known ones, which stand with the last one first. `None` if the end of the
/// front isn't what is known.
fn unknown_part<'s>(front: &'s [Symbol], known: &[Symbol]) -> Option<&'s [Symbol]> {
    for (symbol, same) in front.iter().rev().zip(known.iter()) {
        if symbol != same {
            return None;
        }
    }
    front.get(..front.len().saturating_sub(known.len()))
}

/// Selects the states in which a rule begins.
pub(crate) fn beginning(
    alloc: Global,
    lr0: &Lr0<'_>,
    states: &[StateNo],
    rule: usize,
) -> Result<Vec<StateNo>, AllocError> {
    let mut found = Vec::new(alloc);
    let Some(left) = lr0
        .reduced()
        .grammar()
        .rules()
        .get(rule)
        .map(|rule| rule.left())
    else {
        return Ok(found);
    };
    for state in states {
        let begins = if rule == 0 {
            state.0 == 0
        } else {
            (state.0 as usize) < lr0.states()
                && lr0.goto(*state, Symbol::Nonterminal(left)).is_some()
        };
        if begins {
            found.push(*state)?;
        }
    }
    Ok(found)
}

/// The terminal that a symbol is, if it is one.
fn terminal_of(symbol: Option<Symbol>) -> Option<Sym> {
    match symbol {
        Some(Symbol::Terminal(terminal)) => Some(terminal),
        _ => None,
    }
}

/// Adds numbers to a key that are equal for parses with the same continuations.
fn push_reading(
    key: &mut Vec<u32>,
    grammar: &Grammar,
    reading: &Reading,
) -> Result<(), AllocError> {
    if let Some(left) = reading.left(grammar) {
        key.push(left.0)?;
    }
    key.push(u32::try_from(reading.passed).unwrap_or(u32::MAX))?;
    push_symbols(key, &reading.ahead)
}

/// Adds symbols to a key as numbers, and how many there are.
fn push_symbols(key: &mut Vec<u32>, symbols: &[Symbol]) -> Result<(), AllocError> {
    key.push(u32::try_from(symbols.len()).unwrap_or(u32::MAX))?;
    for symbol in symbols {
        match symbol {
            Symbol::Terminal(number) => {
                key.push(0)?;
                key.push(number.0)?;
            }
            Symbol::Nonterminal(number) => {
                key.push(1)?;
                key.push(number.0)?;
            }
        }
    }
    Ok(())
}
