use crate::advice::Advice;
use ly_base::{Location, OutOfMemory};
use ly_generate::GenFault;
use std::alloc::Global;

/// How many errors of one file, or of both together, are printed at most. It also limits how often a file is fixed to
/// find them.
pub(crate) const MOST: usize = 20;

/// An error that was found.
#[derive(Drop)]
pub(crate) struct Finding {
    /// The error.
    pub(crate) fault: GenFault,
    /// The location.
    pub(crate) at: Location,
    /// The suggestion.
    pub(crate) advice: Advice,
}

/// The errors that were found: first those of the lex file, then those of the yacc file, each in the order of lines,
/// then those of both together.
#[derive(Drop)]
pub(crate) struct Findings {
    /// The errors.
    list: Vec<Finding>,
    /// How many more errors may be added for the file that is being read.
    room: usize,
    /// Whether there may be more errors than these.
    more: bool,
}

impl Findings {
    /// No errors so far.
    pub(crate) fn new(alloc: Global) -> Findings {
        Findings {
            list: Vec::new(alloc),
            room: MOST,
            more: false,
        }
    }

    /// Begins with the next file, or with both together.
    pub(crate) fn begin_next(&mut self) {
        self.room = MOST;
    }

    /// Whether no error was found.
    pub(crate) fn is_empty(&self) -> bool {
        self.list.is_empty()
    }

    /// Whether there may be more errors than these.
    pub(crate) fn has_more(&self) -> bool {
        self.more
    }

    /// Notes that there may be more errors than these.
    pub(crate) fn note_more(&mut self) {
        self.more = true;
    }

    /// The errors.
    pub(crate) fn list(&self) -> &[Finding] {
        &self.list
    }

    /// Adds an error, unless its line has the same one already or the maximum is reached.
    pub(crate) fn add(&mut self, finding: Finding) -> Result<(), OutOfMemory> {
        if self.has(&finding) {
            return Ok(());
        }
        match self.room.checked_sub(1) {
            Some(room) => {
                self.room = room;
                Ok(self.list.push(finding)?)
            }
            None => {
                self.more = true;
                Ok(())
            }
        }
    }

    /// Whether the line has the same error already.
    fn has(&self, finding: &Finding) -> bool {
        for found in &self.list {
            if found.is_like(finding) {
                return true;
            }
        }
        false
    }
}

impl Finding {
    /// Whether both are the same error of one file on the same line.
    fn is_like(&self, other: &Finding) -> bool {
        let number = number_in_file(&self.fault);
        self.at.line == other.at.line
            && number.is_some()
            && number == number_in_file(&other.fault)
            && self.advice.is_like(&other.advice)
    }
}

/// The number of an error in one of the files; `None` for any other error.
fn number_in_file(fault: &GenFault) -> Option<u8> {
    match fault {
        GenFault::Lex(fault) => fault.number(),
        GenFault::Yacc(fault) => fault.number(),
        _ => None,
    }
}
