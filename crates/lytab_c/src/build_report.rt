ghost use Rattle.std.specs.Prelude.{◌≡◌};
ghost use Rattle.lytab_c.specs.Building.{built_of, fault_at, fault_built, nothing_built};
ghost use Rattle.lytab_c.specs.Private.Putting.{IsBuildFaultTold};

use crate::status::Status;
use ly_base::locate;
use ly_generate::GenFault;
use ly_lexread::LexFault;
use ly_report::ConflictCounts;
use ly_yaccread::YaccFault;

/// What a build reports beside the status. Fields that don't belong to the status are 0.
#[repr(C)]
#[derive(Clone, Copy)]
pub struct BuildReport {
    /// The number of the error.
    pub fault: u32,
    /// The file that the error is in, if it is in one file alone: 1 for the lex file, 2 for the yacc file, else 0.
    pub file: u32,
    /// The line of the error in that file. The first is 1.
    pub line: u64,
    /// The column of the error in bytes. The first is 1.
    pub column: u64,
    /// The length of the table file in bytes.
    pub needed: u64,
    /// The number of shift/reduce conflicts.
    pub shift_reduce: u64,
    /// The number of reduce/reduce conflicts.
    pub reduce_reduce: u64,
}

impl BuildReport {
    /// The report for a table file of this length, with its conflicts.
    pub(crate) fn of_tables(needed: u64, conflicts: &ConflictCounts) -> BuildReport
        ensures { result ≡ built_of needed conflicts.now }
    {
        BuildReport {
            needed,
            shift_reduce: conflicts.shift_reduce as u64,
            reduce_reduce: conflicts.reduce_reduce as u64,
            ..BuildReport::nothing()
        }
    }

    /// Reports an error in a lex file and a yacc file.
    pub(crate) fn tell_fault(&mut self, fault: &GenFault, lex: &[u8], yacc: &[u8]) -> Status
        ensures { IsBuildFaultTold fault.now lex.now yacc.now self.new result }
    {
        match fault.number() {
            Some(number) => {
                *self = BuildReport::of_fault(fault, u32::from(number), lex, yacc);
                Status::Fault
            }
            None => {
                *self = BuildReport::nothing();
                Status::Memory
            }
        }
    }

    /// The report for an error with this number.
    fn of_fault(fault: &GenFault, number: u32, lex: &[u8], yacc: &[u8]) -> BuildReport
        ensures { result ≡ fault_built fault.now number lex.now yacc.now }
    {
        match fault {
            GenFault::Lex(LexFault::Refused { offset, .. }) => {
                BuildReport::at_byte(number, 1, lex, *offset)
            }
            GenFault::Yacc(YaccFault::Refused { offset, .. }) => {
                BuildReport::at_byte(number, 2, yacc, *offset)
            }
            _ => BuildReport {
                fault: number,
                ..BuildReport::nothing()
            },
        }
    }

    /// The report for an error with this number at a byte of one file.
    fn at_byte(number: u32, file: u32, bytes: &[u8], offset: usize) -> BuildReport
        ensures { result ≡ fault_at number file bytes.now offset }
    {
        let location = locate(bytes, offset);
        BuildReport {
            fault: number,
            file,
            line: location.line,
            column: location.column,
            ..BuildReport::nothing()
        }
    }

    /// A report with all fields 0.
    fn nothing() -> BuildReport
        ensures { result ≡ nothing_built }
    {
        BuildReport {
            fault: 0,
            file: 0,
            line: 0,
            column: 0,
            needed: 0,
            shift_reduce: 0,
            reduce_reduce: 0,
        }
    }
}
