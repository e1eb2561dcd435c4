//! The locations of the rules and terminals of a yacc file.
use crate::lines::{FRONT, Lines};
use indexmap::IndexSet;
use ly_base::{Location, OutOfMemory, Sym, literal, locate};
use ly_join::{Spec, TerminalName};
use ly_yaccread::{
    DeclarationKind, Production, RuleOffsets, SymbolName, TreeAction, WordSpan, YaccFault,
    YaccFile, read_yacc, word_spans,
};
use std::alloc::Global;

/// An accepted yacc file with the locations of its rules.
#[derive(Drop)]
pub struct Places {
    /// The parsed file; `None` if it is rejected.
    file: Option<YaccFile>,
    /// The location of each rule, in the order of the file: its left side, or the bar before a further body.
    rules: Vec<Location>,
    /// The spans of its words.
    words: Vec<WordSpan>,
    /// The rules that have a `%prec`.
    ranked: Vec<usize>,
}

/// A symbol that a `%token` declares again.
#[derive(Drop)]
pub struct DeclaredAgain<'p> {
    /// The symbol.
    pub symbol: &'p SymbolName,
    /// The offset of the second declaration.
    pub offset: usize,
    /// The offset of the first declaration.
    pub first: usize,
}

/// The number of rules with a `%prec` that are searched for a token.
const RANKS: usize = 1_000;

impl Places {
    /// Computes the locations in a yacc file.
    pub fn of(alloc: Global, text: &[u8]) -> Result<Places, OutOfMemory> {
        let words = word_spans(alloc, text)?;
        match read_yacc(alloc, text) {
            Ok(file) => Ok(Places {
                rules: rule_locations(alloc, text, &file.rule_offsets)?,
                ranked: ranked_rules(alloc, &file.rules)?,
                file: Some(file),
                words,
            }),
            Err(YaccFault::Refused { .. }) => Ok(Places {
                file: None,
                rules: Vec::new(alloc),
                words,
                ranked: Vec::new(alloc),
            }),
            Err(YaccFault::OutOfMemory) => Err(OutOfMemory),
        }
    }

    /// The location of a rule by its number, counted from 1.
    pub fn location_of_rule(&self, rule: usize) -> Location {
        match rule.checked_sub(1) {
            Some(place) => self.rules.get(place).copied().unwrap_or(FRONT),
            None => FRONT,
        }
    }

    /// The rules that have a `%prec`, ascending.
    pub fn ranked_rules(&self) -> &[usize] {
        &self.ranked
    }

    /// Whether a rule has a `%prec`.
    pub fn has_prec(&self, rule: usize) -> bool {
        self.ranked.binary_search(&rule).is_ok()
    }

    /// Whether the `%prec` of a rule names this terminal.
    pub fn is_prec_of(&self, rule: usize, name: &TerminalName) -> bool {
        let production = self.production(rule);
        production.is_some_and(|production| is_ranked_by(production, name))
    }

    /// The rule with a number, as it was read.
    fn production(&self, rule: usize) -> Option<&Production> {
        self.file.as_ref()?.rules.get(rule.checked_sub(1)?)
    }

    /// The rules without an action whose bodies begin with a literal and also have a symbol that is no literal,
    /// ascending. Empty if no rule of the file has an action.
    pub fn losing_rules(&self, alloc: Global) -> Result<Vec<usize>, OutOfMemory> {
        let mut losing = Vec::new(alloc);
        if let Some(file) = &self.file
            && !file.rules.iter().all(has_no_action)
        {
            for (place, rule) in file.rules.iter().enumerate() {
                if has_no_action(rule) && loses_symbols(&rule.body) {
                    losing.push(place.saturating_add(1))?;
                }
            }
        }
        Ok(losing)
    }

    /// The symbols that a `%token` declares again.
    pub fn declared_again(&self, alloc: Global) -> Result<Vec<DeclaredAgain<'_>>, OutOfMemory> {
        let mut again = Vec::new(alloc);
        let Some(file) = &self.file else {
            return Ok(again);
        };
        let mut known = IndexSet::new(alloc);
        let mut firsts = Vec::new(alloc);
        let mut offsets = file.token_offsets.iter();
        for declaration in &file.declarations {
            for symbol in &declaration.symbols {
                let offset = offsets.next().copied().unwrap_or(0) as usize;
                if declaration.kind != DeclarationKind::Token {
                    continue;
                }
                let key = key_of(alloc, symbol)?;
                match known.get_index_of(key.as_slice()) {
                    Some(place) => again.push(DeclaredAgain {
                        symbol,
                        offset,
                        first: firsts.get(place).copied().unwrap_or(0),
                    })?,
                    None => {
                        known.insert(key)?;
                        firsts.push(offset)?;
                    }
                }
            }
        }
        Ok(again)
    }

    /// Whether a terminal is named by a `%prec`, and so gives a rule its precedence.
    pub fn gives_precedence(&self, spec: &Spec, terminal: Sym) -> bool {
        let (Some(file), Some(name)) = (&self.file, spec.terminals().get(terminal.0 as usize))
        else {
            return false;
        };
        for rule in self.ranked.iter().take(RANKS) {
            if let Some(production) = file.rules.get(rule.saturating_sub(1))
                && is_ranked_by(production, name)
            {
                return true;
            }
        }
        false
    }

    /// The location of a terminal's declaration, or else of its first occurrence in a rule.
    pub fn location_of_terminal(&self, spec: &Spec, text: &[u8], terminal: Sym) -> Location {
        match self.offset_of_terminal(spec, text, terminal) {
            Some(offset) => locate(text, offset),
            None => FRONT,
        }
    }

    /// The offset of a terminal's declaration, or else of its first occurrence in a rule.
    fn offset_of_terminal(&self, spec: &Spec, text: &[u8], terminal: Sym) -> Option<usize> {
        let name = spec.terminals().get(terminal.0 as usize)?;
        let file = self.file.as_ref()?;
        match declared_offset(file, name) {
            Some(offset) => Some(offset),
            None => self.offset_in_rules(file, text, name),
        }
    }

    /// The offset of a terminal's first occurrence in a rule.
    fn offset_in_rules(&self, file: &YaccFile, text: &[u8], name: &TerminalName) -> Option<usize> {
        let rule = file.rules.iter().position(|rule| has_terminal(&rule.body, name)
            || is_ranked_by(rule, name))?;
        let from = file.rule_offsets.get(rule)?.body as usize;
        for span in &self.words {
            if span.start >= from && spells(span.word(text), name) {
                return Some(span.start);
            }
        }
        None
    }
}

/// The locations of rules.
fn rule_locations(
    alloc: Global,
    text: &[u8],
    rules: &[RuleOffsets],
) -> Result<Vec<Location>, OutOfMemory> {
    let mut locations = Vec::new(alloc);
    let mut lines = Lines::of(text);
    let mut last = None;
    for rule in rules {
        let offset = if last == Some(rule.left) {
            (rule.body as usize).saturating_sub(1)
        } else {
            rule.left as usize
        };
        last = Some(rule.left);
        locations.push(lines.locate(offset))?;
    }
    Ok(locations)
}

/// The numbers of the rules that have a `%prec`.
fn ranked_rules(alloc: Global, rules: &[Production]) -> Result<Vec<usize>, OutOfMemory> {
    let mut ranked = Vec::new(alloc);
    for (place, rule) in rules.iter().enumerate() {
        if rule.precedence.is_some() {
            ranked.push(place.saturating_add(1))?;
        }
    }
    Ok(ranked)
}

/// Whether a rule has no action.
fn has_no_action(rule: &Production) -> bool {
    matches!(rule.action, TreeAction::Default)
}

/// Whether a body begins with a literal and also has a name.
fn loses_symbols(body: &[SymbolName]) -> bool {
    matches!(body.first(), Some(SymbolName::Literal(_)))
        && body
            .iter()
            .any(|symbol| matches!(symbol, SymbolName::Name(_)))
}

/// A key that identifies a symbol: a name has no quote.
fn key_of(alloc: Global, symbol: &SymbolName) -> Result<Vec<u8>, OutOfMemory> {
    match symbol {
        SymbolName::Name(name) => Ok(Vec::from_slice(alloc, name)?),
        SymbolName::Literal(byte) => Ok(Vec::from_slice(alloc, &[b'\'', *byte])?),
    }
}

/// The offset of a terminal's declaration.
fn declared_offset(file: &YaccFile, name: &TerminalName) -> Option<usize> {
    let mut offsets = file.token_offsets.iter();
    for declaration in &file.declarations {
        for symbol in &declaration.symbols {
            let offset = offsets.next()?;
            if name.is_symbol(symbol) {
                return Some(*offset as usize);
            }
        }
    }
    None
}

/// Whether a rule names a terminal in its `%prec`.
fn is_ranked_by(rule: &Production, name: &TerminalName) -> bool {
    match &rule.precedence {
        Some(symbol) => name.is_symbol(symbol),
        None => false,
    }
}

/// Whether a terminal is one of these symbols.
fn has_terminal(symbols: &[SymbolName], name: &TerminalName) -> bool {
    for symbol in symbols {
        if name.is_symbol(symbol) {
            return true;
        }
    }
    false
}

/// Whether a word spells a terminal.
fn spells(word: &[u8], terminal: &TerminalName) -> bool {
    match terminal {
        TerminalName::Token(name) => word == name.as_slice(),
        TerminalName::Literal(byte) => match literal(word) {
            Some((found, _)) => found == *byte,
            None => false,
        },
        TerminalName::End | TerminalName::Undefined => false,
    }
}
