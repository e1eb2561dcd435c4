ghost use Rattle.std.specs.Prelude.{◌≡◌, ◌≢◌, ◌<◌, length, map, AllPairs, IfErr, IfOk, OnOk, Some, slice_get, Err};
ghost use Rattle.std.specs.List.{AllZip};
ghost use Rattle.ly_yaccread.specs.File.{declared_of, ruling_of, written_of};
ghost use Rattle.ly_join.specs.Counts.{IsWithin};
ghost use Rattle.ly_join.specs.Faults.{IsAtFault, IsOfFiles};
ghost use Rattle.ly_join.specs.Joined as spec;
ghost use Rattle.ly_join.specs.Joined.{note_of, Joined};
ghost use Rattle.ly_join.specs.Numbering.{start_name};
ghost use Rattle.ly_join.specs.Scanning.{scanning_of, IsScanAction};
ghost use Rattle.ly_join.specs.Private.Joining.{spec_from, AreNumbered, IsReady, IsStart, IsStartFault};
ghost use Rattle.ly_join.specs.Private.Rules.{table_from, IsGivingFault, RulesJoined};
ghost use Rattle.ly_join.specs.Precedences.{given};
ghost use Rattle.ly_join.specs.declared.fault.JoinFault.TheVariants as fault;

use crate::fault::JoinFault;
use crate::grammar::{Grammar, GrammarRule};
use crate::limit::check_limits;
use crate::numbering::{number_nonterminals, number_terminals};
use crate::rank::precedences;
use crate::rule::{RuleNote, SymbolTable, join_rules};
use crate::scan_action::scan_actions;
use crate::spec::Spec;
use ly_base::{Limits, OutOfMemory, ScanAction, Sym};
use ly_lexread::LexFile;
use ly_yaccread::YaccFile;
use std::alloc::Global;

/// Joins a lex file and a yacc file into one specification (POSIX, XCU yacc). Symbols are numbered by their first
/// appearance, and the rules of both files refer to these numbers.
///
/// The first error in this order is returned: `NoRules`; `PrecedenceTwice`, by declarations; `UnknownStart`; rule by
/// rule `TokenOnLeft`, `UndefinedSymbol` and `PrecUnknown`; `ReturnUndeclared`, by rules of the lex file;
/// `LimitPassed`, in the order of `Limit`. `OutOfMemory` if an allocation fails.
pub fn join(
    alloc: Global,
    lex: &LexFile,
    yacc: &YaccFile,
    limits: &Limits,
) -> Result<Spec, JoinFault>
    ensures ok { IfOk result (Joined (scanning_of lex.now) (written_of yacc.now)) }
    ensures within { OnOk result (IsWithin limits.now (scanning_of lex.now) (written_of yacc.now)) }
    ensures fault { IfErr result (IsAtFault limits.now (scanning_of lex.now) (written_of yacc.now)) }
    ensures refused { IfErr result (λ f. f ≢ fault.OutOfMemory → (s : spec.Spec)
        → Joined (scanning_of lex.now) (written_of yacc.now) s
        → IsWithin limits.now (scanning_of lex.now) (written_of yacc.now) → ⊥) }
    ensures none { IfErr result (λ f. IsOfFiles f → (s : spec.Spec)
        → Joined (scanning_of lex.now) (written_of yacc.now) s → ⊥) }
{
    if yacc.rules.is_empty() {
        return Err(JoinFault::NoRules);
    }
    let table = number_symbols(alloc, yacc)?;
    specify(alloc, lex, yacc, limits, table)
}

/// Joins two files whose symbols have been numbered.
fn specify(
    alloc: Global,
    lex: &LexFile,
    yacc: &YaccFile,
    limits: &Limits,
    table: SymbolTable<'_>,
) -> Result<Spec, JoinFault>
    requires numbered { AreNumbered (written_of yacc.now) (table_from table) }
    requires some { 0 < length yacc.now.rules.items }
    ensures ok { IfOk result (Joined (scanning_of lex.now) (written_of yacc.now)) }
    ensures within { OnOk result (IsWithin limits.now (scanning_of lex.now) (written_of yacc.now)) }
    ensures fault { IfErr result (IsAtFault limits.now (scanning_of lex.now) (written_of yacc.now)) }
{
    let contents = contents_of(alloc, lex, yacc, limits, &table)?;
    Ok(specification(alloc, table, contents)?)
}

/// The content of two files, over numbered symbols.
#[derive(Drop)]
struct Contents {
    /// The start symbol.
    start: Sym,
    /// The rules but rule 0.
    rules: Vec<GrammarRule>,
    /// The note of each rule, with rule 0.
    notes: Vec<RuleNote>,
    /// The action of the scanner for each rule of the lex file.
    scanner: Vec<ScanAction>,
}

/// The content of two files whose symbols have been numbered.
fn contents_of(
    alloc: Global,
    lex: &LexFile,
    yacc: &YaccFile,
    limits: &Limits,
    table: &SymbolTable<'_>,
) -> Result<Contents, JoinFault>
    requires numbered { AreNumbered (written_of yacc.now) (table_from table.now) }
    requires some { 0 < length yacc.now.rules.items }
    ensures ready { IfOk result (λ c. IsReady (table_from table.now) c.start.0 c.rules.items
        (map note_of c.notes.items)) }
    ensures ok { IfOk result (λ c. Joined (scanning_of lex.now) (written_of yacc.now)
        (spec_from (table_from table.now) c.start.0 c.rules.items (map note_of c.notes.items) c.scanner.items)) }
    ensures within { OnOk result (IsWithin limits.now (scanning_of lex.now) (written_of yacc.now)) }
    ensures fault { IfErr result (IsAtFault limits.now (scanning_of lex.now) (written_of yacc.now)) }
{
    let start = start_symbol(alloc, table, yacc)?;
    let symbols = table.terminals.count() as usize + table.nonterminals.count() as usize + 1;
    let (rules, notes) = join_rules(alloc, table, &yacc.rules, limits.yacc_rules() as usize)?;
    let scanner = scan_actions(alloc, &table.terminals, &lex.actions)?;
    check_limits(limits, lex, yacc, symbols)?;
    Ok(Contents {
        start,
        rules,
        notes,
        scanner,
    })
}

/// Numbers the symbols and finds the precedence of each terminal.
fn number_symbols(alloc: Global, yacc: &YaccFile) -> Result<SymbolTable<'_>, JoinFault>
    ensures ok { IfOk result (λ table. AreNumbered (written_of yacc.now) (table_from table)) }
    ensures fault { IfErr result (IsGivingFault (given (map declared_of yacc.now.declarations.items))) }
{
    let terminals = number_terminals(alloc, yacc)?;
    let nonterminals = number_nonterminals(alloc, yacc)?;
    let precedences = precedences(alloc, &terminals, &yacc.declarations)?;
    Ok(SymbolTable {
        terminals,
        nonterminals,
        precedences,
    })
}

/// The number of the start symbol: the name after `%start`, which must be a left side, or else the first left side.
fn start_symbol(alloc: Global, table: &SymbolTable<'_>, yacc: &YaccFile) -> Result<Sym, JoinFault>
    requires numbered { AreNumbered (written_of yacc.now) (table_from table.now) }
    requires some { 0 < length yacc.now.rules.items }
    ensures ok { IfOk result (λ start. IsStart (written_of yacc.now) (table_from table.now) start.0) }
    ensures fault { IfErr result (IsStartFault (written_of yacc.now) (table_from table.now)) }
{
    let Some(name) = &yacc.start else {
        return Ok(table.nonterminals.number(&yacc.rules[0].left));
    };
    match table.nonterminals.find(name) {
        Some(start) => Ok(start),
        None => Err(JoinFault::UnknownStart(Vec::from_slice(alloc, name)?)),
    }
}

/// The specification with these symbols and this content.
fn specification(
    alloc: Global,
    table: SymbolTable<'_>,
    contents: Contents,
) -> Result<Spec, OutOfMemory>
    requires { IsReady (table_from table) contents.start.0 contents.rules.items (map note_of contents.notes.items) }
    ensures { IfOk result (λ s. s ≡ spec_from (table_from table.entry) contents.start.0 contents.rules.items
        (map note_of contents.notes.items) contents.scanner.items) }
{
    let Contents {
        start,
        rules,
        notes,
        scanner,
    } = contents;
    let SymbolTable {
        terminals,
        nonterminals,
        precedences,
    } = table;
    let grammar = Grammar::new(alloc, terminals.count(), nonterminals.count(), start, rules)?;
    let nonterminals = nonterminals.into_names(alloc)?;
    let (terminals, literals) = terminals.into_lists();
    Ok(Spec {
        grammar,
        terminals,
        literals,
        nonterminals,
        precedences,
        notes,
        scanner,
    })
}
