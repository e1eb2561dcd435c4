//! The reduced form of two files: names are numbers, and whatever causes no error of both files is left out. It can be
//! joined often, however long the files are.
use indexmap::IndexSet;
use ly_base::OutOfMemory;
use ly_ere::Names;
use ly_join::{JoinFault, TerminalName};
use ly_lexread::{LexAction, LexFile, Returned};
use ly_yaccread::{Declaration, Production, SymbolName, TreeAction, YaccFile};
use std::alloc::Global;
use std::rc::RcSlice;

/// Two files in reduced form.
#[derive(Drop)]
pub(crate) struct Short<'a> {
    /// What the lex file returns.
    pub(crate) lex: LexFile,
    /// The symbols of the yacc file, each in the rule that names it first.
    pub(crate) yacc: YaccFile,
    /// The names, by their numbers.
    names: Numbered<'a>,
}

/// A numbering of names.
#[derive(Drop)]
struct Numbered<'a> {
    /// The names. The index of a name is its number.
    names: IndexSet<&'a [u8]>,
}

/// The names in the rules so far.
#[derive(Drop)]
struct Named {
    /// Their left sides.
    left: IndexSet<u32>,
    /// The names in their bodies.
    body: IndexSet<u32>,
    /// The names after their `%prec`.
    ranked: IndexSet<u32>,
}

impl<'a> Short<'a> {
    /// Reduces two files. The lex file is given by the actions of its rules.
    pub(crate) fn of(
        alloc: Global,
        lex: &'a [LexAction],
        yacc: &'a YaccFile,
    ) -> Result<Short<'a>, OutOfMemory> {
        let mut names = Numbered {
            names: IndexSet::new(alloc),
        };
        let lex = names.lex(alloc, lex)?;
        let yacc = names.yacc(alloc, yacc)?;
        Ok(Short { lex, yacc, names })
    }

    /// The error of the original files for an error of the reduced ones.
    pub(crate) fn restored(
        &self,
        alloc: Global,
        fault: &JoinFault,
    ) -> Result<JoinFault, OutOfMemory> {
        let names = &self.names;
        Ok(match fault {
            JoinFault::UndefinedSymbol(name) => JoinFault::UndefinedSymbol(names.restored(
                alloc, name,
            )?),
            JoinFault::TokenOnLeft(name) => JoinFault::TokenOnLeft(names.restored(alloc, name)?),
            JoinFault::PrecedenceTwice(TerminalName::Token(name)) => JoinFault::PrecedenceTwice(
                TerminalName::Token(names.restored(alloc, name)?),
            ),
            JoinFault::PrecedenceTwice(TerminalName::Literal(byte)) => JoinFault::PrecedenceTwice(
                TerminalName::Literal(*byte),
            ),
            JoinFault::PrecedenceTwice(TerminalName::End) => JoinFault::PrecedenceTwice(
                TerminalName::End,
            ),
            JoinFault::PrecedenceTwice(TerminalName::Undefined) => JoinFault::PrecedenceTwice(
                TerminalName::Undefined,
            ),
            JoinFault::UnknownStart(name) => JoinFault::UnknownStart(names.restored(alloc, name)?),
            JoinFault::ReturnUndeclared(name) => JoinFault::ReturnUndeclared(names.restored(
                alloc, name,
            )?),
            JoinFault::PrecUnknown(name) => JoinFault::PrecUnknown(names.restored(alloc, name)?),
            JoinFault::NoRules => JoinFault::NoRules,
            JoinFault::LimitPassed { which } => JoinFault::LimitPassed { which: *which },
            JoinFault::OutOfMemory => JoinFault::OutOfMemory,
        })
    }
}

impl<'a> Numbered<'a> {
    /// The number of a name.
    fn number(&mut self, name: &'a [u8]) -> Result<u32, OutOfMemory> {
        let (place, _) = self.names.insert_full(name)?;
        Ok(u32::try_from(place).unwrap_or(u32::MAX))
    }

    /// The name with the number that these bytes hold.
    fn restored(&self, alloc: Global, number: &[u8]) -> Result<Vec<u8>, OutOfMemory> {
        let mut place: usize = 0;
        for byte in number {
            place = place.wrapping_mul(256).wrapping_add(*byte as usize);
        }
        match self.names.get_index(place) {
            Some(name) => Ok(Vec::from_slice(alloc, name)?),
            None => Ok(Vec::new(alloc)),
        }
    }

    /// The reduced form of a name.
    fn short(&mut self, alloc: Global, name: &'a [u8]) -> Result<Vec<u8>, OutOfMemory> {
        bytes_of(alloc, self.number(name)?)
    }

    /// What the actions of a lex file return.
    fn lex(&mut self, alloc: Global, given: &'a [LexAction]) -> Result<LexFile, OutOfMemory> {
        let mut actions = Vec::new(alloc);
        for action in given {
            if let Returned::Token(name) = &action.returns {
                actions.push(LexAction {
                    begin: None,
                    returns: Returned::Token(RcSlice::from_vec(self.short(alloc, name)?)?),
                })?;
            }
        }
        Ok(LexFile {
            names: Names::new(alloc),
            rules: Vec::new(alloc),
            actions,
            conditions: 1,
            start_conditions: Vec::new(alloc),
            rule_starts: Vec::new(alloc),
            definition_starts: Vec::new(alloc),
        })
    }

    /// The symbols of a yacc file.
    fn yacc(&mut self, alloc: Global, yacc: &'a YaccFile) -> Result<YaccFile, OutOfMemory> {
        let mut declarations = Vec::new(alloc);
        for declaration in &yacc.declarations {
            declarations.push(self.declaration(alloc, declaration)?)?;
        }
        let start = match &yacc.start {
            Some(name) => Some(self.short(alloc, name)?),
            None => None,
        };
        Ok(YaccFile {
            declarations,
            start,
            rules: self.rules(alloc, &yacc.rules)?,
            token_offsets: Vec::new(alloc),
            rule_offsets: Vec::new(alloc),
        })
    }

    /// A declaration.
    fn declaration(
        &mut self,
        alloc: Global,
        declaration: &'a Declaration,
    ) -> Result<Declaration, OutOfMemory> {
        let mut symbols = Vec::new(alloc);
        for symbol in &declaration.symbols {
            symbols.push(match symbol {
                SymbolName::Name(name) => SymbolName::Name(self.short(alloc, name)?),
                SymbolName::Literal(byte) => SymbolName::Literal(*byte),
            })?;
        }
        Ok(Declaration {
            kind: declaration.kind,
            symbols,
        })
    }

    /// The rules that name symbols for the first time.
    fn rules(
        &mut self,
        alloc: Global,
        rules: &'a [Production],
    ) -> Result<Vec<Production>, OutOfMemory> {
        let mut named = Named {
            left: IndexSet::new(alloc),
            body: IndexSet::new(alloc),
            ranked: IndexSet::new(alloc),
        };
        let mut kept = Vec::new(alloc);
        let mut last: Option<(&RcSlice<u8>, u32)> = None;
        for rule in rules {
            // consecutive rules of the same left side share it
            let left = match last {
                Some((left, number)) if RcSlice::ptr_eq(left, &rule.left) => number,
                _ => self.number(&rule.left)?,
            };
            last = Some((&rule.left, left));
            if let Some(rule) = self.rule(alloc, rule, left, &mut named)? {
                kept.push(rule)?;
            }
        }
        Ok(kept)
    }

    /// The reduced form of a rule whose left side has this number, if it names a symbol for the first time.
    fn rule(
        &mut self,
        alloc: Global,
        rule: &'a Production,
        left: u32,
        named: &mut Named,
    ) -> Result<Option<Production>, OutOfMemory> {
        let mut body = Vec::new(alloc);
        for symbol in &rule.body {
            if let Some(symbol) = self.new_name(alloc, symbol, &mut named.body)? {
                body.push(symbol)?;
            }
        }
        let ranked = match &rule.precedence {
            Some(symbol) => self.new_name(alloc, symbol, &mut named.ranked)?,
            None => None,
        };
        let is_new = named.left.insert(left)?;
        if !is_new && body.is_empty() && ranked.is_none() {
            return Ok(None);
        }
        let left = bytes_of(alloc, left)?;
        let precedence = match ranked {
            Some(symbol) => Some(Box::new(alloc, symbol)?),
            None => None,
        };
        Ok(Some(Production {
            left: RcSlice::from_slice(alloc, &left)?,
            body,
            precedence,
            action: TreeAction::Default,
        }))
    }

    /// The reduced form of a symbol, if its name isn't in this set yet. Then it is.
    fn new_name(
        &mut self,
        alloc: Global,
        symbol: &'a SymbolName,
        known: &mut IndexSet<u32>,
    ) -> Result<Option<SymbolName>, OutOfMemory> {
        let SymbolName::Name(name) = symbol else {
            return Ok(None);
        };
        let number = self.number(name)?;
        if !known.insert(number)? {
            return Ok(None);
        }
        Ok(Some(SymbolName::Name(bytes_of(alloc, number)?)))
    }
}

/// The bytes of a number.
fn bytes_of(alloc: Global, number: u32) -> Result<Vec<u8>, OutOfMemory> {
    Ok(Vec::from_slice(alloc, &number.to_be_bytes())?)
}
