ghost use Rattle.std.specs.Prelude.{◌↔◌, IfErr, IfOk, IsTrue};
ghost use Rattle.ly_base.specs.Limits.{least_of, sizes_in, Sizes};
ghost use Rattle.ly_base.specs.declared.version.Version.TheVariants.{V2};
ghost use Rattle.ly_emit.specs.Tables.{AreShapesWithin, IsMachineOf};
ghost use Rattle.ly_grammar.specs.Reduction.{KeepsUseful};
ghost use Rattle.ly_join.specs.Joined as joined;
ghost use Rattle.ly_lr0.specs.Automaton as parser;
ghost use Rattle.ly_pack.specs.Steady.{IsSteady};
ghost use Rattle.ly_resolve.specs.Actions.{IsConflictFree};
ghost use Rattle.ly_resolve.specs.Resolved.{AreResolved};
ghost use Rattle.ly_generate.specs.Accepted.{IsRefusedFor, IsUnfitFor, Specifies};
ghost use Rattle.ly_generate.specs.Parser.{IsParserOf, IsReportIf};
ghost use Rattle.ly_generate.specs.Private.Settled.{IsParserOver};

use crate::gen_fault::GenFault;
use crate::report_request::ReportRequest;
use crate::specification::read_specification;
use ly_base::{Limits, OutOfMemory, StateNo, Version};
use ly_emit::steady_machine;
use ly_grammar::reduce;
use ly_join::Spec;
use ly_lookahead::lookaheads;
use ly_loop::LoopFault;
use ly_lr0::{Lr0, automaton};
use ly_pack::{Dense, Machine, TableAction};
use ly_report::{ConflictCounts, push_terminal, report_text};
use ly_resolve::{Resolved, resolve};
use std::alloc::Global;

/// The parser of a specification, and its conflicts.
#[derive(Drop)]
pub struct SpecParser {
    /// The parser's tables. Every run of them ends.
    pub machine: Machine<Dense<TableAction>, Dense<StateNo>>,
    /// How many conflicts of each kind there are.
    pub conflicts: ConflictCounts,
    /// Whether no state has two possible actions on one terminal, before precedence is applied.
    pub conflict_free: bool,
    /// The bytes of the report, if requested: the removed rules, and the conflicts.
    pub report: Option<Vec<u8>>,
}

/// Makes the parser of a specification, if its states are within the limits.
///
/// Its errors are `Grammar`, `Automaton`, `Endless` and `OutOfMemory` of `GenFault`.
pub fn specification_parser(
    alloc: Global,
    spec: &Spec,
    limits: &Limits,
    report: ReportRequest,
) -> Result<SpecParser, GenFault>
    requires { AreShapesWithin spec.now }
    ensures parser { IfOk result (IsParserOf limits.now spec.now report) }
    ensures unfit { IfErr result (IsUnfitFor limits.now spec.now) }
{
    let reduced = reduce(alloc, spec.grammar())?;
    let lr0 = automaton(alloc, &reduced, limits)?;
    let resolved = settle(alloc, spec, &lr0)?;
    settled_parser(alloc, &resolved, report)
}

/// Makes the parser from the actions that are settled.
fn settled_parser(
    alloc: Global,
    resolved: &Resolved<'_>,
    report: ReportRequest,
) -> Result<SpecParser, GenFault>
    requires shapes { AreShapesWithin resolved.now.spec }
    requires lawful { parser.IsLr0Automaton resolved.now.automaton }
    requires useful { KeepsUseful resolved.now.spec.grammar resolved.now.automaton.grammar }
    requires free { IsTrue resolved.now.conflict_free ↔ IsConflictFree resolved.now.automaton.grammar }
    ensures parser { IfOk result (IsParserOver resolved.now.spec resolved.now.automaton report) }
    ensures unfit { IfErr result (λ fault. (limits : Sizes) → IsUnfitFor limits resolved.now.spec fault) }
{
    let machine = parser_tables(alloc, resolved)?;
    let report = report_if(alloc, resolved, report)?;
    Ok(SpecParser {
        machine,
        conflicts: ConflictCounts::of(resolved),
        conflict_free: resolved.conflict_free(),
        report,
    })
}

/// Makes the parser of a lex file and a yacc file, for callers that need no table file.
///
/// A limit above that of version 2 of the table file is lowered to it. Its errors are those of `GenFault`.
pub fn file_parser(
    alloc: Global,
    lex: &[u8],
    yacc: &[u8],
    limits: &Limits,
    report: ReportRequest,
) -> Result<SpecParser, GenFault>
    ensures parser { IfOk result (λ p. (s : joined.Spec)
        × Specifies (least_of limits.now (sizes_in V2)) lex.now yacc.now s
        × IsParserOf (least_of limits.now (sizes_in V2)) s report p) }
    ensures refused { IfErr result (IsRefusedFor (least_of limits.now (sizes_in V2)) lex.now yacc.now) }
{
    let limits = limits.within(Version::V2);
    let given = read_specification(alloc, lex, yacc, &limits)?;
    specification_parser(alloc, &given.spec, &limits, report)
}

/// The bytes of the report, if requested.
fn report_if(
    alloc: Global,
    resolved: &Resolved<'_>,
    report: ReportRequest,
) -> Result<Option<Vec<u8>>, OutOfMemory>
    ensures { IfOk result (IsReportIf report resolved.now.spec) }
{
    match report {
        ReportRequest::Wanted => Ok(Some(report_text(alloc, resolved)?)),
        ReportRequest::Unwanted => Ok(None),
    }
}

/// Decides the actions in the states of a specification's automaton.
///
/// Returns `OutOfMemory` if an allocation fails.
pub fn settle<'a>(
    alloc: Global,
    spec: &'a Spec,
    lr0: &'a Lr0<'a>,
) -> Result<Resolved<'a>, OutOfMemory>
    requires { KeepsUseful spec.now.grammar lr0.now.grammar }
    ensures { IfOk result (AreResolved spec.now lr0.now) }
{
    let lookaheads = lookaheads(alloc, lr0)?;
    resolve(alloc, spec, lr0, &lookaheads)
}

/// Makes the tables of a parser. Every run of them ends.
///
/// Its errors are `Endless` and `OutOfMemory` of `GenFault`.
pub fn parser_tables(
    alloc: Global,
    resolved: &Resolved<'_>,
) -> Result<Machine<Dense<TableAction>, Dense<StateNo>>, GenFault>
    requires shapes { AreShapesWithin resolved.now.spec }
    requires lawful { parser.IsLr0Automaton resolved.now.automaton }
    requires useful { KeepsUseful resolved.now.spec.grammar resolved.now.automaton.grammar }
    ensures tables { IfOk result (IsMachineOf resolved.now.spec resolved.now.automaton) }
    ensures steady { IfOk result IsSteady }
    ensures unfit { IfErr result (λ fault. (limits : Sizes) → IsUnfitFor limits resolved.now.spec fault) }
{
    match steady_machine(alloc, resolved) {
        Ok(machine) => Ok(machine),
        Err(LoopFault::Endless { below, top, token }) => {
            let mut name = Vec::new(alloc);
            if let Some(terminal) = resolved.spec().terminals().get(token.0 as usize) {
                push_terminal(&mut name, terminal)?;
            }
            Err(GenFault::Endless {
                below,
                top,
                token,
                name,
            })
        }
        Err(LoopFault::OutOfMemory) => Err(GenFault::OutOfMemory),
    }
}
