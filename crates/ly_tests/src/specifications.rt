//! Joined files and a reduced grammar: what no run shows of them.

use ly_base::{Limits, Sym};
use ly_grammar::{Reduced, reduce};
use ly_join::{Grammar, Spec, join};
use ly_lexread::{LexFile, read_lex};
use ly_yaccread::{YaccFile, read_yacc};
use std::alloc::Global;
use std::test::Fail;

/// A lex file with one rule.
fn lex_file(alloc: Global) -> Result<LexFile, Fail> {
    match read_lex(alloc, b"%%\n. return yytext[0];\n", &Limits::V1) {
        Ok(lex) => Ok(lex),
        Err(_) => Err(Fail::from("a lex file was refused that is to be read")),
    }
}

/// A yacc file as it is read.
fn yacc_file(alloc: Global, yacc: &[u8]) -> Result<YaccFile, Fail> {
    match read_yacc(alloc, yacc) {
        Ok(yacc) => Ok(yacc),
        Err(_) => Err(Fail::from("a yacc file was refused that is to be read")),
    }
}

/// The specification of two files.
fn joined(alloc: Global, lex: &LexFile, yacc: &YaccFile) -> Result<Spec, Fail> {
    match join(alloc, lex, yacc, &Limits::V1) {
        Ok(spec) => Ok(spec),
        Err(_) => Err(Fail::from("files were refused that are to be joined")),
    }
}

/// The specification of a lex file that was read, and of a yacc file.
fn specification_under(alloc: Global, lex: &LexFile, yacc: &[u8]) -> Result<Spec, Fail> {
    let yacc = yacc_file(alloc, yacc)?;
    joined(alloc, lex, &yacc)
}

/// The specification of a yacc file, and of a lex file with one rule.
fn specification(alloc: Global, yacc: &[u8]) -> Result<Spec, Fail> {
    let lex = lex_file(alloc)?;
    specification_under(alloc, &lex, yacc)
}

/// Rules that derive the empty string. The strings of `a` and `b` may begin with `'x'`, and those of `a` and `c` with
/// `'y'`.
const NULLABLE: &[u8] = b"%left 'y'\n%%a : b c ; b : | 'x' ; c : | 'y' ;";

/// Whether a specification has all parts of `NULLABLE`, where `'x'` is the last terminal.
fn has_parts(spec: &Spec) -> bool {
    let grammar = spec.terminals().len() == 4 && spec.grammar().rules().len() == 6;
    let beside = spec.notes().len() == 6 && spec.precedences().len() == 4;
    grammar && beside && spec.scanner().len() == 1 && spec.of_byte(b'x') == Sym(3)
}

/// Nonterminals of `NULLABLE`, terminals, and whether the terminal begins a string of the nonterminal.
const BEGINNINGS: [(u32, u32, bool); 6] = [
    (0, 3, true),
    (0, 2, true),
    (1, 3, true),
    (1, 2, false),
    (2, 3, false),
    (2, 2, true),
];

/// Whether there is a nonterminal with this number, and it is nullable.
fn is_nullable(reduced: &Reduced<'_>, symbol: u32) -> bool {
    symbol <= reduced.grammar().accept().0 && reduced.is_nullable(Sym(symbol))
}

/// Whether there are such a nonterminal and terminal, and the terminal begins a string of the nonterminal.
fn begins(reduced: &Reduced<'_>, symbol: u32, terminal: u32) -> bool {
    symbol <= reduced.grammar().accept().0
        && terminal < reduced.grammar().terminals()
        && reduced.begins(Sym(symbol), Sym(terminal))
}

/// Whether a reduced grammar has the first sets of `NULLABLE`.
fn has_beginnings(reduced: &Reduced<'_>) -> bool {
    let mut same = true;
    for (symbol, terminal, wanted) in &BEGINNINGS {
        same &= is_nullable(reduced, *symbol) && begins(reduced, *symbol, *terminal) == *wanted;
    }
    same
}

/// Whether a grammar has them once it is reduced.
fn is_reduced_so(alloc: Global, grammar: &Grammar) -> bool {
    match reduce(alloc, grammar) {
        Ok(reduced) => has_beginnings(&reduced),
        Err(_) => false,
    }
}

/// Whether `NULLABLE` is joined and reduced like this.
fn is_joined_so(alloc: Global) -> Result<bool, Fail> {
    let spec = specification(alloc, NULLABLE)?;
    let joined = has_parts(&spec) && is_reduced_so(alloc, spec.grammar());
    drop(spec);
    Ok(joined)
}

#[test]
fn a_yacc_file_is_joined_and_reduced(rt: HostRuntime) -> Result<(), Fail> {
    assert!(rt; is_joined_so(rt.alloc())?);
    Ok(())
}
