ghost use Rattle.std.specs.Prelude.{◌≡◌, length};
ghost use Rattle.lytab_c.specs.Building.{IsBuilt};
ghost use Rattle.lytab_c.specs.Private.Putting.{AreTablesPut};
ghost use Rattle.lytab_c.specs.Statuses.{status_number};
ghost use Rattle.lytab_c.specs.declared.status.Status.{Status as Code};

use crate::block::put;
use crate::build_report::BuildReport;
use crate::status::Status;
use ly_base::{Limits, Version};
use ly_engine::build;
use ly_generate::ReportRequest;
use ly_report::ConflictCounts;
use std::alloc::Global;

/// Makes the table file of a lex file and a yacc file, as `lytab build` writes it.
#[unsafe(no_mangle)]
pub extern "C" fn lytab_build(
    alloc: Global,
    lex: &[u8],
    yacc: &[u8],
    tables: &mut [u8],
    built: &mut BuildReport,
) -> u32
    ensures built { (status : Code) × (result ≡ status_number status)
        × IsBuilt lex.now yacc.now tables.old tables.new built.new status }
    ensures length { length tables.new ≡ length tables.old }
{
    build_into(alloc, lex, yacc, tables, built).number()
}

/// Makes the table file of a lex file and a yacc file, and writes it to a block, if it fits.
fn build_into(
    alloc: Global,
    lex: &[u8],
    yacc: &[u8],
    block: &mut [u8],
    built: &mut BuildReport,
) -> Status
    ensures { IsBuilt lex.now yacc.now block.old block.new built.new result }
{
    match build(
        alloc,
        lex,
        yacc,
        &Limits::V2,
        Version::V2,
        ReportRequest::Unwanted,
    ) {
        Ok(made) => put_tables(&made.tables, &made.conflicts, block, built),
        Err(fault) => built.tell_fault(&fault, lex, yacc),
    }
}

/// Writes a table file to a block, if it fits, and reports it.
fn put_tables(
    tables: &[u8],
    conflicts: &ConflictCounts,
    block: &mut [u8],
    built: &mut BuildReport,
) -> Status
    ensures { AreTablesPut tables.now conflicts.now block.old block.new built.new result }
{
    *built = BuildReport::of_tables(tables.len() as u64, conflicts);
    if block.len() < tables.len() {
        return Status::Short;
    }
    put(tables, block);
    Status::Done
}
