ghost use Rattle.std.specs.Prelude.{◌≡◌};
ghost use Rattle.lytab_c.specs.Faults.{drive_section, section_of};
ghost use Rattle.lytab_c.specs.Private.Putting.{FitsSyntaxError, FitsOutcome, IsFaultTold};
ghost use Rattle.lytab_c.specs.Reports.{syntax_error_report, needing, numbering, outcome_report};

use crate::status::Status;
use ly_drive::{DriveFault, Outcome};
use ly_feed::SyntaxError;
use ly_tables::TableFault;

/// What a call reports about a text beside the status. Fields that don't belong to the status are 0.
#[repr(C)]
#[derive(Clone, Copy)]
pub struct Report {
    /// The number of the error.
    pub fault: u32,
    /// The section of the table file that is out of range.
    pub section: u32,
    /// The unexpected terminal of a syntax error; 0 is the end of the text.
    pub terminal: u32,
    /// Always 0.
    pub unused: u32,
    /// The number of the unexpected token, or of the invalid argument. The first is 1.
    pub number: u64,
    /// The offset at which the unexpected token begins, or of the byte that no rule matches.
    pub start: u64,
    /// The offset at which the unexpected token ends.
    pub end: u64,
    /// How many items the output has: bytes or parts.
    pub needed: u64,
    /// How many terminals are expected.
    pub expected: u64,
}

impl Report {
    /// A report for an output of this many items, with all other fields 0.
    pub(crate) fn needing(needed: u64) -> Report
        ensures { result ≡ needing needed }
    {
        Report {
            fault: 0,
            section: 0,
            terminal: 0,
            unused: 0,
            number: 0,
            start: 0,
            end: 0,
            needed,
            expected: 0,
        }
    }

    /// A report for an invalid argument with this number.
    pub(crate) fn numbering(number: u64) -> Report
        ensures { result ≡ numbering number }
    {
        Report {
            number,
            ..Report::needing(0)
        }
    }

    /// The report for an outcome with an output of this many bytes.
    pub(crate) fn of_outcome(outcome: &Outcome, needed: u64) -> Report
        requires { FitsOutcome outcome.now }
        ensures { result ≡ outcome_report outcome.now needed }
    {
        match outcome {
            Outcome::Tree => Report::needing(needed),
            Outcome::Syntax {
                token,
                byte,
                length,
                expected,
            } => Report {
                number: *token,
                start: *byte,
                end: *byte + *length as u64,
                expected: expected.len() as u64,
                ..Report::needing(needed)
            },
            Outcome::NoRule { byte } => Report {
                start: *byte,
                end: *byte,
                ..Report::needing(needed)
            },
        }
    }

    /// The report for a syntax error.
    pub(crate) fn of_syntax_error(syntax_error: &SyntaxError<'_>) -> Report
        requires { FitsSyntaxError syntax_error.now }
        ensures { result ≡ syntax_error_report syntax_error.now }
    {
        match syntax_error {
            SyntaxError::Refused {
                number,
                token,
                expected,
            } => Report {
                terminal: token.terminal.0,
                number: *number,
                start: token.at,
                end: token.at + token.text.len() as u64,
                expected: expected.len() as u64,
                ..Report::needing(0)
            },
            SyntaxError::NoRule { byte } => Report {
                start: *byte,
                end: *byte,
                ..Report::needing(0)
            },
        }
    }

    /// Reports an error.
    pub(crate) fn tell_fault(&mut self, fault: &DriveFault) -> Status
        ensures { IsFaultTold fault.now self.new result }
    {
        match fault.number() {
            Some(number) => {
                *self = Report {
                    fault: u32::from(number),
                    section: section_of(fault),
                    ..Report::needing(0)
                };
                Status::Fault
            }
            None => {
                *self = Report::needing(0);
                Status::Memory
            }
        }
    }
}

/// The section of the table file that is out of range, or 0.
fn section_of(fault: &DriveFault) -> u32
    ensures { result ≡ drive_section fault.now }
{
    match fault {
        DriveFault::Tables(fault) => table_section(fault),
        DriveFault::Text(_) => 0,
    }
}

/// The section of the table file that is out of range, or 0, for an error in a table file.
pub(crate) fn table_section(fault: &TableFault) -> u32
    ensures { result ≡ section_of fault.now }
{
    match fault {
        TableFault::OutOfRange { section } => u32::from(*section),
        _ => 0,
    }
}
