ghost use Rattle.std.specs.Prelude.{IfErr, IfOk};
ghost use Rattle.ly_base.specs.Limits.{least_of, sizes_in};
ghost use Rattle.ly_generate.specs.Accepted.{IsRefusedFor};
ghost use Rattle.ly_generate.specs.Generated.{IsGenerated};
ghost use Rattle.ly_generate.specs.Parser.{IsReportIf};
ghost use Rattle.ly_report.specs.Counts.{AreCounts};
ghost use Rattle.ly_tables.specs.Ranges.{IsWithinVersion};
ghost use Rattle.ly_tables.specs.TableSet.{TableSet as Tables};
ghost use Rattle.ly_tables.specs.TableText.{TableText};

use ly_base::{Limits, OutOfMemory, Version};
use ly_generate::{GenFault, ReportRequest, file_tables};
use ly_report::ConflictCounts;
use ly_tables::{FormatFault, TableSet, write_tables};
use std::alloc::Global;

/// What `build` makes of a lex file and a yacc file.
#[derive(Debug, Drop)]
pub struct Built {
    /// The bytes of the table file.
    pub tables: Vec<u8>,
    /// How many conflicts of each kind there are.
    pub conflicts: ConflictCounts,
    /// The bytes of the report, if requested: the removed rules, and the conflicts.
    pub report: Option<Vec<u8>>,
}

/// Makes the bytes of the table file of a lex file and a yacc file (POSIX, XCU lex and yacc), in a version. A driver
/// that uses it gives for each text the result that the files specify.
///
/// A limit above that of the version is lowered to it. Its errors are those of `GenFault`.
pub fn generate(
    alloc: Global,
    lex: &[u8],
    yacc: &[u8],
    limits: &Limits,
    version: Version,
) -> Result<Vec<u8>, GenFault>
    ensures generated { IfOk result (λ bytes. (s : Tables)
        × IsGenerated version (least_of limits.now (sizes_in version)) lex.now yacc.now s
        × TableText bytes.items version s) }
    ensures refused { IfErr result (IsRefusedFor (least_of limits.now (sizes_in version)) lex.now yacc.now) }
{
    let generated = file_tables(alloc, lex, yacc, limits, version, ReportRequest::Unwanted)?;
    let tables = written(alloc, &generated.set, version);
    drop(generated);
    Ok(tables?)
}

/// Makes the table file of a lex file and a yacc file like `generate`, counts the conflicts and, if requested, makes
/// the report that `generate_report` writes. A report has a line for each conflict, so it can be much longer than the
/// table file.
///
/// A limit above that of the version is lowered to it. Its errors are those of `GenFault`.
pub fn build(
    alloc: Global,
    lex: &[u8],
    yacc: &[u8],
    limits: &Limits,
    version: Version,
    report: ReportRequest,
) -> Result<Built, GenFault>
    ensures built { IfOk result (λ b. (s : Tables)
        × (g : IsGenerated version (least_of limits.now (sizes_in version)) lex.now yacc.now s)
        × TableText b.tables.items version s × AreCounts g.spec b.conflicts × IsReportIf report g.spec b.report) }
    ensures refused { IfErr result (IsRefusedFor (least_of limits.now (sizes_in version)) lex.now yacc.now) }
{
    let generated = file_tables(alloc, lex, yacc, limits, version, report)?;
    let tables = written(alloc, &generated.set, version);
    drop(generated.set);
    Ok(Built {
        tables: tables?,
        conflicts: generated.conflicts,
        report: generated.report,
    })
}

/// The bytes of a table set that is within the ranges of the version.
fn written(alloc: Global, set: &TableSet, version: Version) -> Result<Vec<u8>, OutOfMemory>
    requires { IsWithinVersion version set.now }
    ensures { IfOk result (λ bytes. TableText bytes.items version set.now) }
{
    match write_tables(alloc, set, version) {
        Ok(bytes) => Ok(bytes),
        Err(FormatFault::OutOfMemory) => Err(OutOfMemory),
        // a set that is within the version's ranges is not too large for it
        Err(FormatFault::TooLargeForVersion) => unreachable!(),
    }
}
