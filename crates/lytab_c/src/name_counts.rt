ghost use Rattle.std.specs.Prelude.{◌≡◌};
ghost use Rattle.lytab_c.specs.Naming.{counts_of, names_of, nothing_counted};
ghost use Rattle.lytab_c.specs.Private.Listing.{IsListOf};
ghost use Rattle.lytab_c.specs.Private.Putting.{IsRefusalTold};

use crate::name_list::NameList;
use crate::report::table_section;
use crate::status::Status;
use ly_tables::{TableFault, TableSet};

/// How many names a table file has. Unknown counts are 0.
#[repr(C)]
#[derive(Clone, Copy)]
pub struct NameCounts {
    /// The number of the error.
    pub fault: u32,
    /// The section of the table file that is out of range.
    pub section: u32,
    /// The number of terminal names.
    pub terminals: u64,
    /// The number of rule names.
    pub rules: u64,
    /// The length of all names together in bytes.
    pub bytes: u64,
}

impl NameCounts {
    /// The counts for the names of a set.
    pub(crate) fn of(set: &TableSet, list: &NameList) -> NameCounts
        requires { IsListOf (names_of set.now) list.now }
        ensures { result ≡ counts_of set.now }
    {
        NameCounts {
            terminals: set.terminals().len() as u64,
            rules: set.rules().len() as u64,
            bytes: list.bytes.len() as u64,
            ..NameCounts::nothing()
        }
    }

    /// Counts that are all 0.
    pub(crate) fn nothing() -> NameCounts
        ensures { result ≡ nothing_counted }
    {
        NameCounts {
            fault: 0,
            section: 0,
            terminals: 0,
            rules: 0,
            bytes: 0,
        }
    }

    /// Reports an error in a table file.
    pub(crate) fn tell_fault(&mut self, fault: &TableFault) -> Status
        ensures { IsRefusalTold fault.now self.new result }
    {
        match fault.number() {
            Some(number) => {
                *self = NameCounts {
                    fault: u32::from(number),
                    section: table_section(fault),
                    ..NameCounts::nothing()
                };
                Status::Fault
            }
            None => {
                *self = NameCounts::nothing();
                Status::Memory
            }
        }
    }
}
