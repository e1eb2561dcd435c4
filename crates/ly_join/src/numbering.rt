//! The symbols of a yacc file, numbered by their first appearance.
ghost use Rattle.std.specs.Prelude.{◌≡◌, map, IfOk};
ghost use Rattle.std.specs.Option.{option_to_list};
ghost use Rattle.std.specs.Str.{bytes_eq};
ghost use Rattle.ly_yaccread.specs.File.{ruling_of, symbol_word, written_of};
ghost use Rattle.ly_join.specs.Numbering.{nonterminals_of, rule_literals, terminals_of};
ghost use Rattle.ly_join.specs.Terminals.{literal_in, same_terminal};
ghost use Rattle.ly_join.specs.Private.Numbering.{with_all};
ghost use Rattle.ly_join.specs.Private.Tables.{terminal_of};

use crate::nonterminals::Nonterminals;
use crate::terminal::Terminals;
use ly_base::OutOfMemory;
use ly_yaccread::{Production, SymbolName, YaccFile};
use std::alloc::Global;

/// Numbers the terminals: `$end`, `$undef`, and the tokens and literals of declarations, bodies and `%prec`.
pub(crate) fn number_terminals(alloc: Global, yacc: &YaccFile) -> Result<Terminals<'_>, OutOfMemory>
    ensures { IfOk result (λ t. t ≡ terminals_of (written_of yacc.now)) }
{
    let mut terminals = Terminals::new(alloc)?;
    for declaration in &yacc.declarations {
        terminals = with_symbols(alloc, terminals, &declaration.symbols)?;
    }
    for production in &yacc.rules {
        terminals = with_rule(alloc, terminals, production)?;
    }
    Ok(terminals)
}

/// Adds the symbols of a declaration to the terminals.
fn with_symbols<'t>(
    alloc: Global,
    mut terminals: Terminals<'t>,
    symbols: &'t [SymbolName],
) -> Result<Terminals<'t>, OutOfMemory>
    ensures { IfOk result (λ t. t ≡ with_all same_terminal terminals.entry (map terminal_of symbols.now)) }
{
    for symbol in symbols {
        terminals = terminals.with_symbol(alloc, symbol)?;
    }
    Ok(terminals)
}

/// Adds the literals of a rule to the terminals.
fn with_rule<'t>(
    alloc: Global,
    mut terminals: Terminals<'t>,
    production: &'t Production,
) -> Result<Terminals<'t>, OutOfMemory>
    ensures { IfOk result (λ t. t ≡ with_all same_terminal terminals.entry (rule_literals (ruling_of production.now))) }
{
    for symbol in &production.body {
        terminals = with_literal(alloc, terminals, symbol)?;
    }
    match &production.precedence {
        Some(symbol) => with_literal(alloc, terminals, symbol),
        None => Ok(terminals),
    }
}

/// Adds a symbol of a rule to the terminals, if it is a literal.
fn with_literal<'t>(
    alloc: Global,
    terminals: Terminals<'t>,
    symbol: &'t SymbolName,
) -> Result<Terminals<'t>, OutOfMemory>
    ensures { IfOk result (λ t. t ≡ with_all same_terminal terminals.entry
        (option_to_list (literal_in (symbol_word symbol.now)))) }
{
    match symbol {
        SymbolName::Name(_) => Ok(terminals),
        SymbolName::Literal(_) => terminals.with_symbol(alloc, symbol),
    }
}

/// Numbers the nonterminals in the order of their first left sides.
pub(crate) fn number_nonterminals(
    alloc: Global,
    yacc: &YaccFile,
) -> Result<Nonterminals<'_>, OutOfMemory>
    ensures { IfOk result (λ n. n ≡ nonterminals_of (written_of yacc.now)) }
{
    let mut nonterminals = Nonterminals::new(alloc);
    for production in &yacc.rules {
        nonterminals = nonterminals.with_name(&production.left)?;
    }
    Ok(nonterminals)
}
