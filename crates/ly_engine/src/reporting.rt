ghost use Rattle.std.specs.Prelude.{◌≡◌, ◌<◌, ◌↔◌, ℕ, List, length, take, Err, IfOk, IsTrue, OnOk};
ghost use Rattle.std.specs.Io.KnownBytes.{Appends};
ghost use Rattle.ly_print.specs.Device.{next_count};
ghost use Rattle.ly_base.specs.Limits.{least_of, sizes_in};
ghost use Rattle.ly_base.specs.declared.version.Version.TheVariants.{V2};
ghost use Rattle.ly_join.specs.Grammar.{Grammar};
ghost use Rattle.ly_join.specs.Joined as spec;
ghost use Rattle.ly_report.specs.Report.{IsReport};
ghost use Rattle.ly_resolve.specs.Actions.{IsConflictFree};
ghost use Rattle.ly_generate.specs.Accepted.{IsFit, IsRefusedFor, Specifies};
ghost use Rattle.ly_generate.specs.declared.gen_fault.GenFault.{GenFault};

use crate::reporting_fault::ReportingFault;
use ly_base::Limits;
use ly_generate::{ReportRequest, file_parser};
use ly_print::{Sink, write_whole};
use std::alloc::Global;

/// Writes the report of a lex file and a yacc file (POSIX, XCU yacc, "Conflicts"): the removed rules, and the
/// conflicts. Returns true if no state has two possible actions on one terminal, before precedence is applied. Nothing
/// is written before the whole report is known.
///
/// A limit above that of version 2 of the table file is lowered to it. Its errors are those of `ReportingFault`.
pub fn generate_report<W: Sink>(
    alloc: Global,
    lex: &[u8],
    yacc: &[u8],
    limits: &Limits,
    writer: &mut W,
) -> Result<bool, ReportingFault>
    ensures reported { IfOk result (λ free. (s : spec.Spec)
        × Specifies (least_of limits.now (sizes_in V2)) lex.now yacc.now s
        × (useful : Grammar) × IsFit (least_of limits.now (sizes_in V2)) s useful
        × (IsTrue free ↔ IsConflictFree useful)
        × (text : List ℕ) × IsReport s text × Appends (W.contents writer.old) (W.contents writer.new) text) }
    ensures beginning { (written : ℕ) → result ≡ Err (ReportingFault.Write written) → (s : spec.Spec)
        × Specifies (least_of limits.now (sizes_in V2)) lex.now yacc.now s
        × (text : List ℕ) × IsReport s text × (written < length text)
        × Appends (W.contents writer.old) (W.contents writer.new) (take written text) }
    ensures refused { (fault : GenFault) → result ≡ Err (ReportingFault.Files fault)
        → IsRefusedFor (least_of limits.now (sizes_in V2)) lex.now yacc.now fault }
    ensures failed { (written : ℕ) → result ≡ Err (ReportingFault.Write written)
        → W.failures writer.new ≡ next_count (W.failures writer.old) }
    ensures held { OnOk result (W.failures writer.new ≡ W.failures writer.old) }
    ensures untouched { (fault : GenFault) → result ≡ Err (ReportingFault.Files fault) → writer.new ≡ writer.old }
{
    let parser = file_parser(alloc, lex, yacc, limits, ReportRequest::Wanted)?;
    // by the call's contract the report exists, since it is requested
    let text = parser.report.unwrap();
    write_whole(writer, &text)?;
    Ok(parser.conflict_free)
}
