ghost use Rattle.std.specs.Prelude.{IfErr, IfOk};
ghost use Rattle.ly_pack.specs.Steady.{IsSteady};
ghost use Rattle.ly_tables.specs.Refusal.{IsRefusedAs};
ghost use Rattle.ly_tables.specs.TableSet.{machine_of};
ghost use Rattle.ly_tables.specs.TableText.{TableText};

use crate::conversion::table_parts;
use crate::fault::TableFault;
use crate::raw_reading::read_raw;
use crate::sections::section_out;
use crate::steadiness::steady_set;
use crate::table_set::TableSet;
use ly_base::Version;
use std::alloc::Global;

/// Reads a table file, and returns the set with its version. The first error in this order is returned: a wrong magic,
/// a wrong version, a missing field, bytes after the last field, the first section out of its ranges, tables that could
/// run forever. It is `OutOfMemory` if an allocation fails before that.
pub fn read_tables(alloc: Global, bytes: &[u8]) -> Result<(TableSet, Version), TableFault>
    ensures spelled { IfOk result (λ r. TableText bytes.now r.1 r.0) }
    ensures steady { IfOk result (λ r. IsSteady (machine_of r.0)) }
    ensures refused { IfErr result (IsRefusedAs bytes.now) }
{
    let (raw, version) = read_raw(alloc, bytes)?;
    if let Some(section) = section_out(version, &raw) {
        let section = section.number();
        return Err(TableFault::OutOfRange { section });
    }
    let parts = table_parts(alloc, version, raw)?;
    let set = steady_set(alloc, parts)?;
    Ok((set, version))
}
