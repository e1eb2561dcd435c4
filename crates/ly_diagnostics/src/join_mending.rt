//! Fixes errors of both files in what was read of the yacc file, so that the others can be found.
use ly_base::OutOfMemory;
use ly_join::{JoinFault, TerminalName};
use ly_yaccread::{Declaration, DeclarationKind, SymbolName, YaccFile};
use std::alloc::Global;

/// Fixes an error. An unknown name becomes a token. A name that must not be a token loses its declarations. A second
/// precedence is removed. An unknown start symbol or `%prec` is removed.
pub(crate) fn mend(
    alloc: Global,
    file: &mut YaccFile,
    fault: &JoinFault,
) -> Result<(), OutOfMemory> {
    match fault {
        JoinFault::UndefinedSymbol(name) | JoinFault::ReturnUndeclared(name) => {
            return declare(alloc, file, name);
        }
        JoinFault::TokenOnLeft(name) => undeclare(file, name),
        JoinFault::PrecedenceTwice(terminal) => give_once(file, terminal),
        JoinFault::UnknownStart(_) => file.start = None,
        JoinFault::PrecUnknown(name) => leave_out_precedence(file, name),
        JoinFault::NoRules | JoinFault::LimitPassed { .. } | JoinFault::OutOfMemory => {}
    }
    Ok(())
}

/// Declares a name as a token.
fn declare(alloc: Global, file: &mut YaccFile, name: &[u8]) -> Result<(), OutOfMemory> {
    let mut symbols = Vec::new(alloc);
    symbols.push(SymbolName::Name(Vec::from_slice(alloc, name)?))?;
    file.declarations.push(Declaration {
        kind: DeclarationKind::Token,
        symbols,
    })?;
    Ok(())
}

/// Removes a name from all declarations.
fn undeclare(file: &mut YaccFile, name: &[u8]) {
    for declaration in &mut file.declarations {
        declaration.symbols.retain(|symbol| !is_name(symbol, name));
    }
}

/// Removes each `%prec` with a name.
fn leave_out_precedence(file: &mut YaccFile, name: &[u8]) {
    for rule in &mut file.rules {
        if let Some(symbol) = &rule.precedence
            && is_name(symbol, name)
        {
            rule.precedence = None;
        }
    }
}

/// Removes a terminal from all declarations that give it a precedence but the first.
fn give_once(file: &mut YaccFile, terminal: &TerminalName) {
    let mut given = false;
    for declaration in &mut file.declarations {
        if declaration.kind == DeclarationKind::Token {
            continue;
        }
        declaration.symbols.retain(|symbol| {
            let stays = !given || !terminal.is_symbol(symbol);
            given = given || terminal.is_symbol(symbol);
            stays
        });
    }
}

/// Whether a symbol is this name.
pub(crate) fn is_name(symbol: &SymbolName, name: &[u8]) -> bool {
    match symbol {
        SymbolName::Name(found) => found.as_slice() == name,
        SymbolName::Literal(_) => false,
    }
}
