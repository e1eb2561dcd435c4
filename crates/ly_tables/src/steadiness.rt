//! Makes a table set from its parts.
ghost use Rattle.std.specs.Prelude.{◌≡◌, ◌⊎◌, IfErr, IfOk};
ghost use Rattle.ly_base.specs.declared.version.Version.TheVariants.{V2};
ghost use Rattle.ly_pack.specs.Steady.{IsSteady};
ghost use Rattle.ly_tables.specs.Private.Refused.{refusal_of, IsUnsteady};
ghost use Rattle.ly_tables.specs.Ranges.{IsWithinVersion};
ghost use Rattle.ly_tables.specs.TableSet.{machine_of};
ghost use Rattle.ly_tables.specs.Values.{set_of};

use crate::fault::TableFault;
use crate::table_parts::TableParts;
use crate::table_set::TableSet;
use ly_loop::{LoopFault, steady};
use std::alloc::Global;

/// The set with these parts, which are within the ranges of version 2, if their parser's tables are steady.
pub(crate) fn steady_set(alloc: Global, parts: TableParts) -> Result<TableSet, TableFault>
    requires { IsWithinVersion V2 (set_of parts) }
    ensures same { IfOk result (λ s. s ≡ set_of parts) }
    ensures steady { IfOk result (λ s. IsSteady (machine_of s)) }
    ensures refused { IfErr result (IsUnsteady (machine_of (set_of parts))) }
{
    if let Err(fault) = steady(alloc, &parts.machine()) {
        return Err(refusal(fault));
    }
    Ok(TableSet::new(parts))
}

/// The error of a table file for an error of the loop check.
fn refusal(fault: LoopFault) -> TableFault
    ensures { result ≡ refusal_of fault }
{
    match fault {
        LoopFault::Endless { .. } => TableFault::Endless,
        LoopFault::OutOfMemory => TableFault::OutOfMemory,
    }
}
