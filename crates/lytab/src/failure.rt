//! Failures of commands, and their lines on standard error.
ghost use Rattle.std.specs.Prelude.{◌≡◌, ◌⊎◌, ◌≤◌};
ghost use Rattle.ly_generate.specs.GenFault.{gen_line};
ghost use Rattle.lytab.specs.Failure.{failure_of_file, failure_status, IsOfAnswering, IsOfDriving};
ghost use Rattle.lytab.specs.declared.failure.Failure.TheVariants as failure;

use crate::files::STANDARD;
use crate::shown_path::ShownPath;
use ly_base::OutOfMemory;
use ly_drive::{DriveFault, TextFault};
use ly_engine::{ConflictCounts, GenFault};
use ly_files::FileFault;
use ly_join::JoinFault;
use ly_report::push_terminal;
use ly_tables::TableFault;
use std::alloc::{AllocError, Global};
use std::io::{self, Write};

const TEXT_REFUSED: u8 = 1;

const UNEXPECTED: u8 = 1;

const REFUSED: u8 = 2;

const DEVICE_OR_MEMORY: u8 = 3;

/// The line if memory runs out.
pub const NO_MEMORY: &[u8] = b"lytab: out of memory\n";

/// Why a command failed.
#[derive(Drop)]
pub enum Failure<'a> {
    /// The file with this path, or standard input, can't be read.
    CannotRead(&'a str),
    /// The file with this path can't be read, for this reason.
    Unreadable(&'a str, io::Error),
    /// The file with this path, or standard output, can't be written.
    CannotWrite(&'a str),
    /// The lex file, the yacc file, or both together are rejected; with the line of the error, if it is in one of them.
    Refused(GenFault, Option<u64>),
    /// The lex file and the yacc file have these conflicts, but exactly this many shift/reduce conflicts and no
    /// reduce/reduce conflicts are expected.
    Unexpected(ConflictCounts, usize),
    /// The table file is rejected.
    Tables(TableFault),
    /// The tables fail on the text.
    FaultyTables,
    /// The text has more than 2^64-1 bytes.
    TooLong,
    /// Out of memory.
    OutOfMemory,
}

impl<'a> From<FileFault<'a>> for Failure<'a> {
    ghost from_gives = { λ fault f. f ≡ failure_of_file fault };

    fn from(fault: FileFault<'a>) -> Self {
        match fault {
            FileFault::CannotRead(path, _) => Failure::CannotRead(path),
            FileFault::CannotWrite(path, _) => Failure::CannotWrite(path),
            FileFault::OutOfMemory => Failure::OutOfMemory,
        }
    }
}

impl Failure<'_> {
    /// The failure for files with these bytes that are rejected with this error.
    pub fn of_files(fault: GenFault, lex: &[u8], yacc: &[u8]) -> Self
        ensures { result ≡ failure.Refused fault (gen_line fault lex.now yacc.now) }
    {
        let line = fault.line(lex, yacc);
        Failure::Refused(fault, line)
    }
}

impl<'a> Failure<'a> {
    /// The failure for a text with this name and this error.
    pub fn of_answering(fault: TextFault, path: &'a str) -> Self
        ensures { IsOfAnswering fault result }
    {
        match fault {
            TextFault::FaultyTables => Failure::FaultyTables,
            TextFault::TooLong => Failure::TooLong,
            TextFault::Read => Failure::CannotRead(path),
            TextFault::Write { .. } => Failure::CannotWrite(STANDARD),
            TextFault::OutOfMemory => Failure::OutOfMemory,
        }
    }

    /// The failure for a text with this name and this error, parsed with a table file.
    pub fn of_driving(fault: DriveFault, path: &'a str) -> Self
        ensures { IsOfDriving fault result }
    {
        match fault {
            DriveFault::Tables(fault) => Failure::Tables(fault),
            DriveFault::Text(fault) => Failure::of_answering(fault, path),
        }
    }
}

impl From<TableFault> for Failure<'_> {
    ghost from_gives = { λ fault f. f ≡ failure.Tables fault };

    fn from(fault: TableFault) -> Self {
        Failure::Tables(fault)
    }
}

impl From<OutOfMemory> for Failure<'_> {
    ghost from_gives = { λ _ f. f ≡ failure.OutOfMemory };

    fn from(_error: OutOfMemory) -> Self {
        Failure::OutOfMemory
    }
}

impl From<AllocError> for Failure<'_> {
    ghost from_gives = { λ _ f. f ≡ failure.OutOfMemory };

    fn from(_error: AllocError) -> Self {
        Failure::OutOfMemory
    }
}

/// Writes the line of a failure and the notes after it, and returns the exit status. If there is no memory for these,
/// the failure is out of memory.
pub fn told<E: Write>(
    alloc: Global,
    failure: Failure<'_>,
    notes: Result<Vec<u8>, OutOfMemory>,
    faults: &mut E,
) -> u8
    ensures range { (1 ≤ result) × (result ≤ 3) }
    ensures status { (result ≡ failure_status failure.entry) ⊎ (result ≡ 3) }
{
    let Some(lines) = lines_of(alloc, &failure, notes) else {
        let _ = faults.write_all(NO_MEMORY);
        return DEVICE_OR_MEMORY;
    };
    let _ = faults.write_all(&lines);
    status_of(&failure)
}

/// The line of a failure and the notes after it. Returns `None` if memory runs out, or ran out for the notes.
fn lines_of(
    alloc: Global,
    failure: &Failure<'_>,
    notes: Result<Vec<u8>, OutOfMemory>,
) -> Option<Vec<u8>> {
    let notes = notes.ok()?;
    let mut lines = Vec::new(alloc);
    push_line(&mut lines, failure).ok()?;
    lines.extend_from_slice(&notes).ok()?;
    Some(lines)
}

/// The exit status of a failure: 1 if the text is too long or there are other conflicts than expected, 2 if a file is
/// rejected, 3 for a read or write error or if memory runs out.
fn status_of(failure: &Failure<'_>) -> u8
    ensures range { (1 ≤ result) × (result ≤ 3) }
    ensures status { result ≡ failure_status failure.entry.now }
{
    match failure {
        Failure::CannotRead(_)
        | Failure::Unreadable(..)
        | Failure::CannotWrite(_)
        | Failure::Refused(GenFault::OutOfMemory, _)
        | Failure::Tables(TableFault::OutOfMemory)
        | Failure::OutOfMemory => DEVICE_OR_MEMORY,
        Failure::Refused(..) | Failure::Tables(_) | Failure::FaultyTables => REFUSED,
        Failure::TooLong => TEXT_REFUSED,
        Failure::Unexpected(..) => UNEXPECTED,
    }
}

/// Appends the line of a failure. Returns an error if memory runs out.
fn push_line(out: &mut Vec<u8>, failure: &Failure<'_>) -> io::Result<()> {
    out.write_all(b"lytab: ")?;
    match failure {
        Failure::CannotRead(path) => writeln!(out, "cannot read {}", ShownPath(path)),
        Failure::Unreadable(path, reason) => {
            writeln!(out, "cannot read {}: {reason}", ShownPath(path))
        }
        Failure::CannotWrite(path) => writeln!(out, "cannot write {}", ShownPath(path)),
        Failure::Refused(fault, line) => push_refusal(out, fault, *line),
        Failure::Unexpected(counts, expected) => push_unexpected(out, counts, *expected),
        Failure::Tables(fault) => push_table_fault(out, fault),
        Failure::FaultyTables => {
            out.write_all(b"tables: ")?;
            push_text_fault(out, TextFault::FaultyTables)
        }
        Failure::TooLong => push_text_fault(out, TextFault::TooLong),
        Failure::OutOfMemory => writeln!(out, "out of memory"),
    }
}

/// Appends why a lex file and a yacc file are rejected, and the line of the error in one of them.
fn push_refusal(out: &mut Vec<u8>, fault: &GenFault, line: Option<u64>) -> io::Result<()> {
    match fault {
        GenFault::Lex(_) => push_place(out, "lex", line)?,
        GenFault::Yacc(_) => push_place(out, "yacc", line)?,
        _ => {}
    }
    push_fault(out, fault.number(), fault.name())?;
    match fault {
        GenFault::Join(fault) => push_at_fault(out, fault)?,
        GenFault::Endless {
            below,
            top,
            name,
            ..
        } => {
            write!(out, " below {} top {} token ", below.0, top.0)?;
            out.write_all(name)?;
        }
        _ => {}
    }
    out.write_all(b"\n")
}

/// Appends how many conflicts there are, and how many are expected.
fn push_unexpected(out: &mut Vec<u8>, counts: &ConflictCounts, expected: usize) -> io::Result<()> {
    let (shifts, reductions) = (counts.shift_reduce, counts.reduce_reduce);
    writeln!(
        out,
        "{shifts} shift/reduce and {reductions} reduce/reduce conflicts; expected {expected} and 0"
    )
}

/// Appends the location of an error: the file, and its line if there is one.
fn push_place(out: &mut Vec<u8>, file: &str, line: Option<u64>) -> io::Result<()> {
    match line {
        Some(line) => write!(out, "{file}:{line}: "),
        None => Ok(()),
    }
}

/// Appends the number and the name of an error of a text.
fn push_text_fault(out: &mut Vec<u8>, fault: TextFault) -> io::Result<()> {
    push_fault(out, fault.number(), fault.name())?;
    out.write_all(b"\n")
}

/// Appends the number and the name of an error. Out of memory has no number.
fn push_fault(out: &mut Vec<u8>, number: Option<u8>, name: &str) -> io::Result<()> {
    match number {
        Some(number) => write!(out, "fault {number} {name}"),
        None => write!(out, "out of memory"),
    }
}

/// Appends what an error of both files is about.
fn push_at_fault(out: &mut Vec<u8>, fault: &JoinFault) -> io::Result<()> {
    match fault {
        JoinFault::UndefinedSymbol(name)
        | JoinFault::TokenOnLeft(name)
        | JoinFault::UnknownStart(name)
        | JoinFault::ReturnUndeclared(name)
        | JoinFault::PrecUnknown(name) => {
            out.push(b' ')?;
            out.write_all(name)
        }
        JoinFault::PrecedenceTwice(terminal) => {
            out.push(b' ')?;
            push_terminal(out, terminal)?;
            Ok(())
        }
        JoinFault::LimitPassed { which } => write!(out, " {}", which.name()),
        JoinFault::NoRules | JoinFault::OutOfMemory => Ok(()),
    }
}

/// Appends why a table file is rejected.
fn push_table_fault(out: &mut Vec<u8>, fault: &TableFault) -> io::Result<()> {
    if fault.number().is_some() {
        out.write_all(b"tables: ")?;
    }
    push_fault(out, fault.number(), fault.name())?;
    match fault {
        TableFault::OutOfRange { section } => writeln!(out, " section {section}"),
        _ => writeln!(out),
    }
}
