//! Why rules are useless: a nonterminal of the body derives no string of tokens, or the start symbol never leads to the
//! left side.
//!
//! Which nonterminals derive a string is found as by Dowling and Gallier (1984): each rule counts the nonterminals of
//! its body that aren't known yet, and gives its left side once there are none. That takes time linear in the grammar.
use crate::lint::Uselessness;
use ly_analysis::body_of;
use ly_base::{OutOfMemory, Sym};
use ly_join::{Grammar, Symbol};
use std::alloc::Global;

/// The end of a list of uses.
const END: usize = usize::MAX;

/// A nonterminal in the body of a rule.
#[derive(Clone, Copy)]
struct Use {
    /// The rule.
    rule: usize,
    /// The index of the next use of the same nonterminal, or `END`.
    next: usize,
}

/// Which nonterminals derive a string of tokens.
#[derive(Drop)]
pub(crate) struct Derived<'g> {
    /// The grammar.
    grammar: &'g Grammar,
    /// Whether the nonterminal of each number does.
    known: Vec<bool>,
}

/// The search for nonterminals that derive a string.
#[derive(Drop)]
struct Search<'g> {
    /// What is found so far.
    derived: Derived<'g>,
    /// The first use of each nonterminal, or `END`.
    first: Vec<usize>,
    /// The uses of all nonterminals.
    uses: Vec<Use>,
    /// The number of nonterminals in the body of each rule that aren't known to derive a string.
    waiting: Vec<usize>,
    /// The rules whose bodies derive a string, in the order in which they were found.
    ready: Vec<usize>,
}

impl<'g> Derived<'g> {
    /// Finds the nonterminals of a grammar that derive a string of tokens.
    pub(crate) fn of(alloc: Global, grammar: &'g Grammar) -> Result<Derived<'g>, OutOfMemory> {
        let symbols = (grammar.accept().0 as usize).saturating_add(1);
        let mut search = Search {
            derived: Derived {
                grammar,
                known: vec![in alloc; false; symbols]?,
            },
            first: vec![in alloc; END; symbols]?,
            uses: Vec::new(alloc),
            waiting: Vec::new(alloc),
            ready: Vec::new(alloc),
        };
        for rule in 0..grammar.rules().len() {
            search.begin(rule)?;
        }
        for step in 0..grammar.rules().len() {
            match search.ready.get(step) {
                Some(&rule) => search.derive(rule)?,
                None => break,
            }
        }
        let Search { derived, .. } = search;
        Ok(derived)
    }

    /// Whether a symbol derives a string of tokens.
    fn has(&self, symbol: Symbol) -> bool {
        match symbol {
            Symbol::Terminal(_) => true,
            Symbol::Nonterminal(number) => self.known.get(number.0 as usize) == Some(&true),
        }
    }

    /// Why a useless rule is useless.
    pub(crate) fn reason(&self, rule: usize) -> Uselessness {
        for symbol in body_of(self.grammar, rule) {
            if let Symbol::Nonterminal(number) = symbol
                && !self.has(*symbol)
            {
                return Uselessness::DerivesNothing(*number);
            }
        }
        Uselessness::Unreached(match self.grammar.rules().get(rule) {
            Some(rule) => rule.left(),
            None => Sym(0),
        })
    }
}

impl Search<'_> {
    /// Lists the nonterminals in the body of the next rule.
    fn begin(&mut self, rule: usize) -> Result<(), OutOfMemory> {
        let mut count: usize = 0;
        for symbol in body_of(self.derived.grammar, rule) {
            if let Symbol::Nonterminal(number) = symbol
                && let Some(first) = self.first.get_mut(number.0 as usize)
            {
                self.uses.push(Use { rule, next: *first })?;
                *first = self.uses.len() - 1;
                count = count.saturating_add(1);
            }
        }
        self.waiting.push(count)?;
        if count == 0 {
            self.ready.push(rule)?;
        }
        Ok(())
    }

    /// The left side of a rule whose body derives a string derives one too.
    fn derive(&mut self, rule: usize) -> Result<(), OutOfMemory> {
        let Some(found) = self.derived.grammar.rules().get(rule) else {
            return Ok(());
        };
        let left = found.left().0 as usize;
        match self.derived.known.get_mut(left) {
            Some(known) if !*known => *known = true,
            _ => return Ok(()),
        }
        let mut at = self.first.get(left).copied().unwrap_or(END);
        for _ in 0..self.uses.len() {
            let Some(&Use { rule, next }) = self.uses.get(at) else {
                break;
            };
            if let Some(count) = self.waiting.get_mut(rule) {
                *count = count.saturating_sub(1);
                if *count == 0 {
                    self.ready.push(rule)?;
                }
            }
            at = next;
        }
        Ok(())
    }
}
