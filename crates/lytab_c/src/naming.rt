ghost use Rattle.std.specs.Prelude.{◌≡◌, length};
ghost use Rattle.lytab_c.specs.Naming.{names_of, AreNamesTold};
ghost use Rattle.lytab_c.specs.Private.Listing.{IsListOf};
ghost use Rattle.lytab_c.specs.Private.Putting.{AreNamesPut, AreSetNamed};
ghost use Rattle.lytab_c.specs.Statuses.{status_number};
ghost use Rattle.lytab_c.specs.declared.status.Status.{Status as Code};

use crate::block::put;
use crate::name_counts::NameCounts;
use crate::name_list::NameList;
use crate::status::Status;
use ly_tables::{TableSet, read_tables};
use std::alloc::Global;

/// Writes the names of a table file: first those of the terminals as they are printed, then the constructors of the
/// rules. The name of a rule that makes no node is empty. The names follow one another, and `ends` gets the offset at
/// which each ends.
#[unsafe(no_mangle)]
pub extern "C" fn lytab_names(
    alloc: Global,
    tables: &[u8],
    ends: &mut [u64],
    names: &mut [u8],
    counts: &mut NameCounts,
) -> u32
    ensures named { (status : Code) × (result ≡ status_number status)
        × AreNamesTold tables.now (record { ends = ends.old; names = names.old })
        (record { ends = ends.new; names = names.new }) counts.new status }
    ensures ends { length ends.new ≡ length ends.old }
    ensures names { length names.new ≡ length names.old }
{
    name_into(alloc, tables, ends, names, counts).number()
}

/// Writes the names of a table file to blocks, if they fit.
fn name_into(
    alloc: Global,
    tables: &[u8],
    ends: &mut [u64],
    names: &mut [u8],
    counts: &mut NameCounts,
) -> Status
    ensures { AreNamesTold tables.now (record { ends = ends.old; names = names.old })
        (record { ends = ends.new; names = names.new }) counts.new result }
{
    match read_tables(alloc, tables) {
        Ok((set, _version)) => name_set(alloc, &set, ends, names, counts),
        Err(fault) => counts.tell_fault(&fault),
    }
}

/// Writes the names of a set to blocks, if they fit.
fn name_set(
    alloc: Global,
    set: &TableSet,
    ends: &mut [u64],
    names: &mut [u8],
    counts: &mut NameCounts,
) -> Status
    ensures { AreSetNamed set.now (record { ends = ends.old; names = names.old })
        (record { ends = ends.new; names = names.new }) counts.new result }
{
    match NameList::of(alloc, set) {
        Ok(list) => put_names(set, &list, ends, names, counts),
        Err(_) => {
            *counts = NameCounts::nothing();
            Status::Memory
        }
    }
}

/// Writes the names of a set to blocks, if they fit, and reports their counts.
fn put_names(
    set: &TableSet,
    list: &NameList,
    ends: &mut [u64],
    names: &mut [u8],
    counts: &mut NameCounts,
) -> Status
    requires { IsListOf (names_of set.now) list.now }
    ensures { AreNamesPut set.now (record { ends = ends.old; names = names.old })
        (record { ends = ends.new; names = names.new }) counts.new result }
{
    *counts = NameCounts::of(set, list);
    if ends.len() < list.ends.len() || names.len() < list.bytes.len() {
        return Status::Short;
    }
    put(&list.ends, ends);
    put(&list.bytes, names);
    Status::Done
}
