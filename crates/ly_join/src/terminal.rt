ghost use Rattle.std.specs.Prelude.{◌≡◌, ◌↔◌, ◌<◌, [], ◌∷◌, ◌+◌, ◌^◌, length, map, IfOk, IsTrue, Contains};
ghost use Rattle.ly_join.specs.Terminals.{byte as byte_terminal, end, undefined, same_terminal, terminal_from};
ghost use Rattle.ly_join.specs.Terminals.{terminal_in, token as token_terminal, IsNumbered, IsOfByte};
ghost use Rattle.ly_join.specs.Private.Numbering.{with_one};
ghost use Rattle.ly_join.specs.Private.Tables.{terminal_of, AreLiterals, IsFoundAs};
ghost use Rattle.ly_yaccread.specs.File.{symbol_word};

use indexmap::IndexMap;
use ly_base::{OutOfMemory, Sym};
use ly_yaccread::SymbolName;
use std::alloc::Global;
use std::marker::Model;

/// The name of a terminal.
#[derive(Debug, Drop)]
pub enum TerminalName {
    /// `$end`, the end of the text.
    End,
    /// `$undef`, which represents every byte that the grammar doesn't name.
    Undefined,
    /// The token with this name.
    Token(Vec<u8>),
    /// The literal of this byte.
    Literal(u8),
}

impl TerminalName {
    /// Whether a symbol of a yacc file is this terminal.
    pub fn is_symbol(&self, symbol: &SymbolName) -> bool
        ensures { IsTrue result ↔ (terminal_in (symbol_word symbol.now) ≡ Some (terminal_from self.now)) }
    {
        match (self, symbol) {
            (TerminalName::Token(token), SymbolName::Name(name)) => token.as_slice()
                == name.as_slice(),
            (TerminalName::Literal(byte), SymbolName::Literal(other)) => byte == other,
            _ => false,
        }
    }
}

/// Terminals, numbered in the order they are added, without duplicates: `$end`, `$undef`, and then tokens and literals.
#[derive(Drop)]
pub(crate) struct Terminals<'t> {
    /// The name of each terminal.
    names: Vec<TerminalName>,
    /// The numbers of the tokens by name. The names are borrowed from the yacc file.
    tokens: IndexMap<&'t [u8], Sym>,
    /// The number of each byte's literal, if there is one.
    literals: Vec<Option<Sym>>,
}

impl<'t> Model for Terminals<'t> {
    ghost use Rattle.std.specs.Prelude.{List, map};
    ghost use Rattle.ly_join.specs.Terminals as value;
    ghost use Rattle.ly_join.specs.Terminals.{terminal_from};
    ghost use Rattle.ly_join.specs.Private.Tables.{AreTables};

    ghost Value = { List value.TerminalName };

    ghost view = { λ t. map terminal_from t.names.items };

    ghost invariant = { λ t. AreTables (λ k. k.now) (map terminal_from t.names.items) t.tokens.entries
        t.literals.items };
}

impl<'t> Terminals<'t> {
    /// `$end` and `$undef`.
    pub(crate) fn new(alloc: Global) -> Result<Terminals<'t>, OutOfMemory>
        ensures { IfOk result (λ t. t ≡ end ∷ undefined ∷ []) }
    {
        let mut names = Vec::new(alloc);
        names.push(TerminalName::End)?;
        names.push(TerminalName::Undefined)?;
        Ok(Terminals {
            names,
            tokens: IndexMap::new(alloc),
            literals: vec![in alloc; None; 256]?,
        })
    }

    /// The name of each terminal, by number.
    pub(crate) fn names(&self) -> &[TerminalName]
        ensures { map terminal_from result.now ≡ self.now }
    {
        &self.names
    }

    /// The number of terminals.
    pub(crate) fn count(&self) -> u32
        ensures { result ≡ length self.now }
    {
        self.names.len() as u32
    }

    /// The number of the token with this name, if there is one.
    pub(crate) fn token(&self, name: &[u8]) -> Option<Sym>
        ensures { IsFoundAs self.now (token_terminal name.now) result }
    {
        self.tokens.get(name).copied()
    }

    /// The number of a byte's literal, if it is a terminal.
    pub(crate) fn literal(&self, byte: u8) -> Option<Sym>
        ensures { IsFoundAs self.now (byte_terminal byte) result }
    {
        self.literals[byte as usize]
    }

    /// The number of a byte's literal; 1 if it is no terminal.
    pub(crate) fn of_byte(&self, byte: u8) -> Sym
        ensures { IsOfByte self.now byte result.0 }
    {
        self.literal(byte).unwrap_or(Sym(1))
    }

    /// The number of a symbol, if it is a terminal.
    pub(crate) fn find(&self, symbol: &SymbolName) -> Option<Sym>
        ensures { IsFoundAs self.now (terminal_of symbol.now) result }
    {
        match symbol {
            SymbolName::Name(name) => self.token(name),
            SymbolName::Literal(byte) => self.literal(*byte),
        }
    }

    /// The number of a symbol that is a terminal.
    pub(crate) fn number(&self, symbol: &SymbolName) -> Sym
        requires { Contains self.now (terminal_of symbol.now) }
        ensures { IsNumbered self.now (terminal_of symbol.now) result.0 }
    {
        self.find(symbol).unwrap()
    }

    /// The name of each terminal, by number, and the number of each byte's literal, if there is one.
    pub(crate) fn into_lists(self) -> (Vec<TerminalName>, Vec<Option<Sym>>)
        ensures names { map terminal_from result.0.items ≡ self.entry }
        ensures literals { AreLiterals self.entry result.1.items }
    {
        let Terminals {
            names,
            tokens: _,
            literals,
        } = self;
        (names, literals)
    }

    /// Adds a symbol to the terminals. A new symbol gets the next number.
    pub(crate) fn with_symbol(
        self,
        alloc: Global,
        symbol: &'t SymbolName,
    ) -> Result<Terminals<'t>, OutOfMemory>
        ensures { IfOk result (λ t. t ≡ with_one same_terminal self.entry (terminal_of symbol.now)) }
    {
        match symbol {
            SymbolName::Name(name) => self.with_token(alloc, name),
            SymbolName::Literal(byte) => self.with_literal(*byte),
        }
    }

    /// Adds the token with this name to the terminals.
    fn with_token(mut self, alloc: Global, name: &'t [u8]) -> Result<Terminals<'t>, OutOfMemory>
        ensures { IfOk result (λ t. t ≡ with_one same_terminal self.entry (token_terminal name.now)) }
    {
        if self.token(name).is_some() {
            return Ok(self);
        }
        let number = next_number(self.names.len())?;
        self.tokens.insert(name, number)?;
        self.names
            .push(TerminalName::Token(Vec::from_slice(alloc, name)?))?;
        Ok(self)
    }

    /// Adds the literal of a byte to the terminals.
    fn with_literal(mut self, byte: u8) -> Result<Terminals<'t>, OutOfMemory>
        ensures { IfOk result (λ t. t ≡ with_one same_terminal self.entry (byte_terminal byte)) }
    {
        if self.literal(byte).is_some() {
            return Ok(self);
        }
        let number = next_number(self.names.len())?;
        self.literals[byte as usize] = Some(number);
        self.names.push(TerminalName::Literal(byte))?;
        Ok(self)
    }
}

/// The number that comes after this many. The error is `OutOfMemory` if it doesn't fit in a `u32`.
pub(crate) fn next_number(count: usize) -> Result<Sym, OutOfMemory>
    ensures number { IfOk result (λ n. n.0 ≡ count) }
    ensures small { IfOk result (λ n. count + 1 < 2 ^ 32) }
{
    if count < u32::MAX as usize {
        Ok(Sym(count as u32))
    } else {
        Err(OutOfMemory)
    }
}
