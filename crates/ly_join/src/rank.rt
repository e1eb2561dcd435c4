//! The precedences that declarations give to terminals.
ghost use Rattle.std.specs.Prelude.{◌≡◌, ◌≢◌, ◌++◌, List, length, map, AllPairs, IfErr, IfOk, OnOk};
ghost use Rattle.std.specs.List.{flat_map};
ghost use Rattle.ly_yaccread.specs.File.{declared_of};
ghost use Rattle.ly_join.specs.Numbering.{declared_terminals};
ghost use Rattle.ly_join.specs.Precedences.{associativity_of, given as given_all};
ghost use Rattle.ly_join.specs.Terminals as value;
ghost use Rattle.ly_join.specs.Terminals.{terminal_from};
ghost use Rattle.ly_join.specs.Private.Rules.{AreGiven, HasAll, IsGivingFault};
ghost use Rattle.ly_join.specs.Private.Tables.{terminal_of};
ghost use Rattle.ly_join.specs.declared.precedence.Precedence as spec;

use crate::fault::JoinFault;
use crate::precedence::{Associativity, Precedence};
use crate::terminal::{TerminalName, Terminals};
use ly_yaccread::{Declaration, DeclarationKind, SymbolName};
use std::alloc::{AllocError, Global};

/// The precedence of each terminal, if a declaration gives it one.
pub(crate) fn precedences(
    alloc: Global,
    terminals: &Terminals<'_>,
    declarations: &[Declaration],
) -> Result<Vec<Option<Precedence>>, JoinFault>
    requires once { AllPairs (λ x y. x ≢ y) terminals.now }
    requires all { HasAll terminals.now (flat_map declared_terminals (map declared_of declarations.now)) }
    ensures ok { IfOk result (λ p. AreGiven (given_all (map declared_of declarations.now)) terminals.now p.items) }
    ensures fault { IfErr result (IsGivingFault (given_all (map declared_of declarations.now))) }
{
    let mut given = vec![in alloc; None; terminals.names().len()]?;
    for (level, declaration) in declarations.iter().enumerate() {
        if let Some(associativity) = associativity_of(declaration.kind) {
            let precedence = Precedence {
                level,
                associativity,
            };
            give(
                alloc,
                &mut given,
                terminals,
                &declaration.symbols,
                precedence,
            )?;
        }
    }
    Ok(given)
}

/// The associativity that a declaration gives to its tokens, if it gives them a precedence.
fn associativity_of(kind: DeclarationKind) -> Option<Associativity>
    ensures { result ≡ associativity_of kind }
{
    match kind {
        DeclarationKind::Token => None,
        DeclarationKind::Left => Some(Associativity::Left),
        DeclarationKind::Right => Some(Associativity::Right),
        DeclarationKind::Nonassociative => Some(Associativity::Nonassociative),
    }
}

/// Gives symbols a precedence. None of them may have one already.
fn give(
    alloc: Global,
    given: &mut [Option<Precedence>],
    terminals: &Terminals<'_>,
    symbols: &[SymbolName],
    precedence: Precedence,
) -> Result<(), JoinFault>
    requires once { AllPairs (λ x y. x ≢ y) terminals.now }
    requires all { HasAll terminals.now (map terminal_of symbols.now) }
    requires long { length given.old ≡ length terminals.now }
    ensures ok { OnOk result
        ((before : List (value.TerminalName × spec.Precedence)) → AreGiven before terminals.now given.old
        → AreGiven (before ++ map (λ s. (terminal_of s, precedence)) symbols.now) terminals.now given.new) }
    ensures fault { IfErr result (λ f. (before : List (value.TerminalName × spec.Precedence))
        → AreGiven before terminals.now given.old
        → IsGivingFault (before ++ map (λ s. (terminal_of s, precedence)) symbols.now) f) }
{
    for symbol in symbols {
        let at = terminals.number(symbol).0 as usize;
        if given[at].is_some() {
            return Err(JoinFault::PrecedenceTwice(name_of(alloc, symbol)?));
        }
        given[at] = Some(precedence);
    }
    Ok(())
}

/// An owned copy of a symbol as a terminal.
fn name_of(alloc: Global, symbol: &SymbolName) -> Result<TerminalName, AllocError>
    ensures { IfOk result (λ name. terminal_from name ≡ terminal_of symbol.now) }
{
    match symbol {
        SymbolName::Name(name) => Ok(TerminalName::Token(Vec::from_slice(alloc, name)?)),
        SymbolName::Literal(byte) => Ok(TerminalName::Literal(*byte)),
    }
}
