ghost use Rattle.std.specs.Prelude.{◌≡◌, ◌*◌, ℕ, IfErr, IfOk, length};
ghost use Rattle.ly_base.specs.Limits.{least_of, sizes_in};
ghost use Rattle.ly_base.specs.declared.version.Version.{Version};
ghost use Rattle.ly_base.specs.declared.version.Version.TheVariants.{V2};
ghost use Rattle.ly_emit.specs.Tables.{AreShapesWithin};
ghost use Rattle.ly_report.specs.Counts.{AreCounts};
ghost use Rattle.ly_subset.specs.Automaton.{IsAutomaton};
ghost use Rattle.ly_generate.specs.Accepted.{IsRefusedFor, IsUnfitFor};
ghost use Rattle.ly_generate.specs.Generated.{IsGenerated};
ghost use Rattle.ly_generate.specs.Parser.{IsReportIf};
ghost use Rattle.ly_generate.specs.Private.Making.{FitsWith, IsMadeOf};

use crate::gen_fault::GenFault;
use crate::parser::specification_parser;
use crate::report_request::ReportRequest;
use crate::specification::read_specification;
use ly_base::{Limits, Version};
use ly_emit::table_set;
use ly_join::Spec;
use ly_lexread::LexFile;
use ly_minim::minimise;
use ly_report::ConflictCounts;
use ly_subset::Dfa;
use ly_tables::TableSet;
use std::alloc::Global;

/// The tables that are generated from two files.
#[derive(Drop)]
pub struct FileTables {
    /// The table set.
    pub set: TableSet,
    /// How many conflicts of each kind there are.
    pub conflicts: ConflictCounts,
    /// The bytes of the report, if requested.
    pub report: Option<Vec<u8>>,
}

/// Generates the tables of a lex file and a yacc file (POSIX, XCU lex and yacc), for a version of the table file.
///
/// A limit above that of the version is lowered to it. Its errors are those of `GenFault`.
pub fn file_tables(
    alloc: Global,
    lex: &[u8],
    yacc: &[u8],
    limits: &Limits,
    version: Version,
    report: ReportRequest,
) -> Result<FileTables, GenFault>
    ensures generated { IfOk result (λ m.
        (g : IsGenerated version (least_of limits.now (sizes_in version)) lex.now yacc.now m.set)
        × AreCounts g.spec m.conflicts × IsReportIf report g.spec m.report) }
    ensures refused { IfErr result (IsRefusedFor (least_of limits.now (sizes_in version)) lex.now yacc.now) }
{
    let limits = limits.within(version);
    let given = read_specification(alloc, lex, yacc, &limits)?;
    let dfa = minimise(alloc, given.subsets)?;
    // by its contract each state has a row
    let _states = dfa.len();
    let made = specification_tables(alloc, &given.file, &given.spec, &dfa, &limits, report);
    drop(dfa);
    drop(given.spec);
    drop(given.file);
    made
}

/// Generates the tables of a specification and the minimal DFA of its scanner.
fn specification_tables(
    alloc: Global,
    file: &LexFile,
    spec: &Spec,
    dfa: &Dfa,
    limits: &Limits,
    report: ReportRequest,
) -> Result<FileTables, GenFault>
    requires shapes { AreShapesWithin spec.now }
    requires rules { length file.now.rules.items ≡ length spec.now.scanner }
    requires starts { (conditions : ℕ) × (dfa.now.starts ≡ 2 * conditions) }
    requires whole { IsAutomaton dfa.now }
    requires fits { FitsWith V2 limits.now spec.now file.now.rules.items dfa.now }
    ensures made { IfOk result (λ m. (v : Version) → FitsWith v limits.now spec.now file.now.rules.items dfa.now
        → IsMadeOf v limits.now file.now spec.now dfa.now m.set) }
    ensures counted { IfOk result (λ m. AreCounts spec.now m.conflicts) }
    ensures reported { IfOk result (λ m. IsReportIf report spec.now m.report) }
    ensures unfit { IfErr result (IsUnfitFor limits.now spec.now) }
{
    let parser = specification_parser(alloc, spec, limits, report)?;
    let set = table_set(alloc, spec, parser.machine, &file.rules, dfa)?;
    Ok(FileTables {
        set,
        conflicts: parser.conflicts,
        report: parser.report,
    })
}
