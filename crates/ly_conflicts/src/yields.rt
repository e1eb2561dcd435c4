//! The shortest token strings that symbols derive.
use ly_analysis::body_of;
use ly_base::{OutOfMemory, Sym};
use ly_grammar::Reduced;
use ly_join::{Grammar, Spec, Symbol};
use ly_text_buffer::TextBuffer;
use std::alloc::{AllocError, Global};

/// The greatest number of passes over the rules. A nonterminal that needs more has no yield here.
const ROUNDS: usize = 64;

/// The greatest number of symbols that are visited to print what symbols derive.
const MOST: usize = 400;

/// For each nonterminal the first rule of its shortest derivation.
#[derive(Drop)]
pub(crate) struct Yields {
    /// The rules, with the lengths of the strings.
    shortest: Vec<Option<Shortest>>,
}

/// The first rule of the shortest derivation of a nonterminal.
#[derive(Clone, Copy)]
struct Shortest {
    /// The rule.
    rule: usize,
    /// The number of tokens.
    length: u64,
}

/// Trees of symbols.
#[derive(Drop)]
pub(crate) struct Derived {
    /// The rules in preorder.
    pub(crate) rules: Vec<usize>,
    /// The tokens.
    pub(crate) tokens: Vec<Sym>,
    /// Whether these are all tokens, and not only the first ones.
    pub(crate) whole: bool,
}

impl Yields {
    /// Computes the shortest yields of a grammar's nonterminals.
    pub(crate) fn of(alloc: Global, reduced: &Reduced<'_>) -> Result<Yields, AllocError> {
        let nonterminals = reduced.grammar().accept().0 as usize + 1;
        let mut yields = Yields {
            shortest: vec![in alloc; None; nonterminals]?,
        };
        for _ in 0..ROUNDS {
            if !yields.shorten(reduced) {
                break;
            }
        }
        Ok(yields)
    }

    /// Records each rule that begins a shorter derivation. Returns whether there was one.
    fn shorten(&mut self, reduced: &Reduced<'_>) -> bool {
        let rules = reduced.grammar().rules();
        let mut shortened = false;
        for (number, rule) in rules.iter().enumerate() {
            if reduced.is_kept(number) {
                let length = self.length(rule.body());
                shortened |= self.take(rule.left().0 as usize, number, length);
            }
        }
        shortened
    }

    /// Records a rule for its left side, if this length is shorter.
    fn take(&mut self, left: usize, rule: usize, length: Option<u64>) -> bool {
        let (Some(length), Some(shortest)) = (length, self.shortest.get_mut(left)) else {
            return false;
        };
        let shorter = match shortest {
            Some(known) => length < known.length,
            None => true,
        };
        if shorter {
            *shortest = Some(Shortest { rule, length });
        }
        shorter
    }

    /// The total length of the shortest yields of symbols, if it is known.
    pub(crate) fn length(&self, symbols: &[Symbol]) -> Option<u64> {
        let mut length: u64 = 0;
        for symbol in symbols {
            length = length.saturating_add(match symbol {
                Symbol::Terminal(_) => 1,
                Symbol::Nonterminal(number) => self.shortest_of(*number)?.length,
            });
        }
        Some(length)
    }

    /// The first rule of the shortest derivation of a nonterminal, with its length.
    fn shortest_of(&self, symbol: Sym) -> Option<Shortest> {
        *self.shortest.get(symbol.0 as usize)?
    }

    /// The trees of symbols with the fewest tokens.
    pub(crate) fn derive(
        &self,
        alloc: Global,
        grammar: &Grammar,
        symbols: &[Symbol],
    ) -> Result<Derived, AllocError> {
        let mut derived = Derived {
            rules: Vec::new(alloc),
            tokens: Vec::new(alloc),
            whole: false,
        };
        let mut ahead = Vec::new(alloc);
        push_reversed(&mut ahead, symbols)?;
        for _ in 0..MOST {
            let Some(symbol) = ahead.pop() else {
                derived.whole = true;
                break;
            };
            derived.derive(self, grammar, symbol, &mut ahead)?;
        }
        Ok(derived)
    }
}

impl Derived {
    /// Prints the tokens, with a space before each. A row that isn't complete ends with dots.
    pub(crate) fn write(&self, buffer: &mut TextBuffer, spec: &Spec) {
        for token in &self.tokens {
            buffer.push(b" ");
            buffer.push_terminal(spec, *token);
        }
        if !self.whole {
            buffer.push(b" ..");
        }
    }

    /// Processes a symbol: a terminal becomes a token, and a nonterminal is replaced by the body of its shortest rule.
    fn derive(
        &mut self,
        yields: &Yields,
        grammar: &Grammar,
        symbol: Symbol,
        ahead: &mut Vec<Symbol>,
    ) -> Result<(), AllocError> {
        match symbol {
            Symbol::Terminal(number) => Ok(self.tokens.push(number)?),
            Symbol::Nonterminal(number) => {
                let rule = match yields.shortest_of(number) {
                    Some(shortest) => shortest.rule,
                    None => 0,
                };
                self.rules.push(rule)?;
                push_reversed(ahead, body_of(grammar, rule))
            }
        }
    }
}

/// Adds symbols, the last one first.
pub(crate) fn push_reversed(list: &mut Vec<Symbol>, symbols: &[Symbol]) -> Result<(), AllocError> {
    for symbol in symbols.iter().rev() {
        list.push(*symbol)?;
    }
    Ok(())
}
