//! Symbols as they are printed.
ghost use Rattle.std.specs.Prelude.{◌≡◌, ◌++◌, map, All, OnOk};
ghost use Rattle.ly_join.specs.Grammar.{symbol_of};
ghost use Rattle.ly_join.specs.Terminals.{terminal_from};
ghost use Rattle.ly_report.specs.Report.{behind_spaces, spaced, symbol_name, terminal_name};
ghost use Rattle.ly_report.specs.Private.Symbols.{IsNamed};

use ly_join::{Spec, Symbol, TerminalName};
use ly_print::{Terminal, push_name};
use std::alloc::AllocError;

/// Appends the name of a symbol.
pub(crate) fn push_symbol(out: &mut Vec<u8>, spec: &Spec, symbol: Symbol) -> Result<(), AllocError>
    requires { IsNamed spec.now (symbol_of symbol) }
    ensures { OnOk result (out.new.items ≡ out.old.items ++ symbol_name spec.now (symbol_of symbol)) }
{
    match symbol {
        Symbol::Terminal(number) => push_terminal(out, &spec.terminals()[number.0 as usize]),
        Symbol::Nonterminal(number) => out.extend_from_slice(spec.nonterminal(number)),
    }
}

/// Appends the name of a terminal: `$end`, `$undef`, the name of a token, or the byte of a literal in single quotes.
///
/// It fails if an allocation fails. How much has been appended by then is unspecified.
pub fn push_terminal(out: &mut Vec<u8>, terminal: &TerminalName) -> Result<(), AllocError>
    ensures { OnOk result (out.new.items ≡ out.old.items ++ terminal_name (terminal_from terminal.now)) }
{
    match terminal {
        TerminalName::End => out.extend_from_slice(b"$end"),
        TerminalName::Undefined => out.extend_from_slice(b"$undef"),
        TerminalName::Token(name) => push_name(out, Terminal::Token(name)),
        TerminalName::Literal(byte) => push_name(out, Terminal::Literal(*byte)),
    }
}

/// Appends the names of symbols, a space before each.
pub(crate) fn push_behind_spaces(
    out: &mut Vec<u8>,
    spec: &Spec,
    symbols: &[Symbol],
) -> Result<(), AllocError>
    requires { All (λ x. IsNamed spec.now (symbol_of x)) symbols.now }
    ensures { OnOk result (out.new.items
        ≡ out.old.items ++ behind_spaces (map (symbol_name spec.now) (map symbol_of symbols.now))) }
{
    for symbol in symbols {
        out.push(b' ')?;
        push_symbol(out, spec, *symbol)?;
    }
    Ok(())
}

/// Appends the names of symbols, a space before each but the first.
pub(crate) fn push_spaced(
    out: &mut Vec<u8>,
    spec: &Spec,
    symbols: &[Symbol],
) -> Result<(), AllocError>
    requires { All (λ x. IsNamed spec.now (symbol_of x)) symbols.now }
    ensures { OnOk result
        (out.new.items ≡ out.old.items ++ spaced (map (symbol_name spec.now) (map symbol_of symbols.now))) }
{
    match symbols.split_first() {
        Some((first, rest)) => {
            push_symbol(out, spec, *first)?;
            push_behind_spaces(out, spec, rest)
        }
        None => Ok(()),
    }
}
