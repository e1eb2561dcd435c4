//! The table set of a specification.
ghost use Rattle.std.specs.Prelude.{◌≡◌, ◌*◌, ◌<◌, ℕ, All, IfOk, length, map};
ghost use Rattle.ly_base.specs.declared.version.Version.{Version};
ghost use Rattle.ly_base.specs.declared.version.Version.TheVariants.{V2};
ghost use Rattle.ly_emit.specs.FitsFile.{FitsFile};
ghost use Rattle.ly_emit.specs.Private.Listing.{AreLiterals};
ghost use Rattle.ly_emit.specs.SetOf.{IsMachineBy, IsSetOf};
ghost use Rattle.ly_join.specs.Sizes.{HasSizes};
ghost use Rattle.ly_join.specs.Terminals.{terminal_from};
ghost use Rattle.ly_lr0.specs.Automaton.{Lr0Automaton};
ghost use Rattle.ly_pack.specs.Steady.{IsSteady};
ghost use Rattle.ly_report.specs.Report.{terminal_name as printed};
ghost use Rattle.ly_tables.specs.Ranges.{IsWithinVersion};
ghost use Rattle.ly_tables.specs.TableSet.{machine_of};
ghost use Rattle.ly_tables.specs.Values.{set_of};

use crate::scanner_tables::scanner_tables;
use ly_base::{OutOfMemory, StateNo, Sym};
use ly_ere::Rule;
use ly_join::{Spec, TerminalName};
use ly_pack::{Dense, Machine, TableAction, pack};
use ly_report::push_terminal;
use ly_subset::Dfa;
use ly_tables::{TableParts, TableSet};
use std::alloc::{AllocError, Global};

/// The table set of a specification, from its parser's tables, which may come from any automaton of its useful rules,
/// and the automaton of its scanner.
///
/// The inputs must fit a file of version 2, so that no number is too large; if they fit one of version 1, so does the
/// set. `OutOfMemory` if an allocation fails. (`ly_pack` checks that a base fits in a `u32`, which is always true for
/// rows within a file's counts.)
pub fn table_set(
    alloc: Global,
    spec: &Spec,
    machine: Machine<Dense<TableAction>, Dense<StateNo>>,
    rules: &[Rule],
    dfa: &Dfa,
) -> Result<TableSet, OutOfMemory>
    requires fits { (M : Lr0Automaton) × IsMachineBy spec.now M machine × FitsFile V2 spec.now rules.now dfa.now M }
    requires steady { IsSteady machine }
    requires rules { length rules.now ≡ length spec.now.scanner }
    requires starts { (conditions : ℕ) × (dfa.now.starts ≡ 2 * conditions) }
    ensures set { IfOk result (λ s. (M : Lr0Automaton) → IsMachineBy spec.now M machine
        → IsSetOf spec.now M rules.now dfa.now s) }
    ensures within { IfOk result (λ s. (v : Version) (M : Lr0Automaton) → IsMachineBy spec.now M machine
        → FitsFile v spec.now rules.now dfa.now M → IsWithinVersion v s) }
    ensures ends { IfOk result (λ s. IsSteady (machine_of s)) }
{
    let parts = table_parts(alloc, spec, machine, rules, dfa)?;
    Ok(TableSet::new(parts))
}

/// The parts of the table set of a specification.
fn table_parts(
    alloc: Global,
    spec: &Spec,
    machine: Machine<Dense<TableAction>, Dense<StateNo>>,
    rules: &[Rule],
    dfa: &Dfa,
) -> Result<TableParts, OutOfMemory>
    requires fits { (M : Lr0Automaton) × IsMachineBy spec.now M machine × FitsFile V2 spec.now rules.now dfa.now M }
    requires rules { length rules.now ≡ length spec.now.scanner }
    requires starts { (conditions : ℕ) × (dfa.now.starts ≡ 2 * conditions) }
    ensures same { IfOk result (λ parts. machine_of (set_of parts) ≡ machine) }
    ensures set { IfOk result (λ parts. (M : Lr0Automaton) → IsMachineBy spec.now M machine
        → IsSetOf spec.now M rules.now dfa.now (set_of parts)) }
    ensures within { IfOk result (λ parts. (v : Version) (M : Lr0Automaton) → IsMachineBy spec.now M machine
        → FitsFile v spec.now rules.now dfa.now M → IsWithinVersion v (set_of parts)) }
{
    let parser = pack(alloc, machine)?.into_parts();
    let scanner = scanner_tables(alloc, spec.scanner(), rules, dfa)?;
    Ok(TableParts {
        terminals: terminal_names(alloc, spec)?,
        nonterminals: spec.grammar().accept().0 as usize,
        literals: literals(alloc, spec)?,
        scan_rules: scanner.rules,
        conditions: scanner.conditions,
        class_count: dfa.classes(),
        classes: scanner.classes,
        accepted: scanner.accepted,
        scan_rows: scanner.rows,
        rules: parser.rules,
        defaults: parser.defaults,
        actions: parser.actions.into_comb(),
        gotos: parser.gotos.into_comb(),
    })
}

/// The printed names of the terminals, by their numbers.
fn terminal_names(alloc: Global, spec: &Spec) -> Result<Vec<Vec<u8>>, AllocError>
    ensures names { IfOk result (λ names. map (λ name. name.items) names.items ≡ map printed spec.now.terminals) }
    ensures bytes { IfOk result (λ names. All (λ name. All (λ byte. byte < 256) name.items) names.items) }
    ensures sizes { HasSizes spec.now }
{
    let mut names = Vec::with_capacity(alloc, spec.grammar().terminals() as usize)?;
    for terminal in spec.terminals() {
        names.push(terminal_name(alloc, terminal)?)?;
    }
    Ok(names)
}

/// The printed name of a terminal.
fn terminal_name(alloc: Global, terminal: &TerminalName) -> Result<Vec<u8>, AllocError>
    ensures name { IfOk result (λ name. name.items ≡ printed (terminal_from terminal.now)) }
    ensures bytes { IfOk result (λ name. All (λ byte. byte < 256) name.items) }
{
    let mut name = Vec::new(alloc);
    push_terminal(&mut name, terminal)?;
    // the call's contract requires what the type of a byte guarantees
    are_bytes(&name);
    Ok(name)
}

/// Proves that a name consists of bytes.
fn are_bytes(name: &[u8])
    ensures { All (λ byte. byte < 256) name.now }
{}

/// The terminal of each byte as a literal.
fn literals(alloc: Global, spec: &Spec) -> Result<Vec<Sym>, AllocError>
    ensures literals { IfOk result (λ literals. AreLiterals spec.now.terminals (map (λ t. t.0) literals.items)) }
    ensures count { IfOk result (λ literals. length literals.items ≡ 256) }
{
    let mut literals = Vec::with_capacity(alloc, 256)?;
    for byte in 0..256usize {
        literals.push(spec.of_byte(byte as u8))?;
    }
    Ok(literals)
}
