ghost use Rattle.std.specs.Prelude.{◌≡◌, ◌≤◌, IfErr, IfOk, length, map};
ghost use Rattle.ly_places.specs.Parts.{parts_of};
ghost use Rattle.ly_places.specs.Placed.{Placed};
ghost use Rattle.lytab_c.specs.Block.{IsFilled, IsPut};
ghost use Rattle.lytab_c.specs.Faults.{IsFaultOn};
ghost use Rattle.lytab_c.specs.Parsing.{listed, IsParsed};
ghost use Rattle.lytab_c.specs.Private.Putting.{ArePartsPut, EndWithin, FitsSyntaxError, IsSyntaxErrorPut, IsParsedBy};
ghost use Rattle.lytab_c.specs.Statuses.{status_number};
ghost use Rattle.lytab_c.specs.declared.status.Status.{Status as Code};

use crate::part::Part;
use crate::report::Report;
use crate::status::Status;
use ly_base::Sym;
use ly_drive::DriveFault;
use ly_feed::SyntaxError;
use ly_places::{Parsed, Part as TreePart, parse};
use ly_tables::read_tables;
use std::alloc::Global;

/// Parses a text with a table file and writes the parts of its tree. If the text has a syntax error, the block of parts
/// is unchanged, and the expected terminals are written in ascending order, as many as the block holds.
#[unsafe(no_mangle)]
pub extern "C" fn lytab_parse(
    alloc: Global,
    tables: &[u8],
    text: &[u8],
    parts: &mut [Part],
    expected: &mut [u32],
    report: &mut Report,
) -> u32
    ensures parsed { (status : Code) × (result ≡ status_number status)
        × IsParsed tables.now text.now (record { parts = parts.old; expected = expected.old })
        (record { parts = parts.new; expected = expected.new }) report.new status }
    ensures parts { length parts.new ≡ length parts.old }
    ensures expected { length expected.new ≡ length expected.old }
{
    parse_into(alloc, tables, text, parts, expected, report).number()
}

/// Parses a text with a table file and writes the parts of its tree to blocks, if they fit.
fn parse_into(
    alloc: Global,
    tables: &[u8],
    text: &[u8],
    parts: &mut [Part],
    expected: &mut [u32],
    report: &mut Report,
) -> Status
    ensures { IsParsed tables.now text.now (record { parts = parts.old; expected = expected.old })
        (record { parts = parts.new; expected = expected.new }) report.new result }
{
    match parse_by(alloc, tables, text) {
        Ok(Parsed::Tree(list)) => put_parts(&list, parts, report),
        Ok(Parsed::Refused(syntax_error)) => put_syntax_error(&syntax_error, expected, report),
        Err(fault) => report.tell_fault(&fault),
    }
}

/// Returns the parts of a text's tree by a table file, or the syntax error.
fn parse_by<'t>(alloc: Global, tables: &[u8], text: &'t [u8]) -> Result<Parsed<'t>, DriveFault>
    ensures parsed { IfOk result (IsParsedBy tables.now text.now) }
    ensures fault { IfErr result (IsFaultOn tables.now text.now) }
{
    let (set, _version) = read_tables(alloc, tables)?;
    let parsed = parse(alloc, &set, text);
    drop(set);
    Ok(parsed?)
}

/// Writes the parts of a tree to a block, if they fit, and reports them.
pub(crate) fn put_parts(list: &[TreePart], block: &mut [Part], report: &mut Report) -> Status
    requires { (t : Placed) × (list.now ≡ parts_of t) }
    ensures { ArePartsPut list.now block.old block.new report.new result }
{
    *report = Report::needing(list.len() as u64);
    if block.len() < list.len() {
        return Status::Short;
    }
    put_list(list, block);
    Status::Done
}

/// Writes a list of parts to the start of a block that is long enough.
fn put_list(list: &[TreePart], block: &mut [Part])
    requires room { length list.now ≤ length block.old }
    requires ends { EndWithin (length list.now) 0 list.now }
    ensures { IsPut (listed 0 list.now) block.old block.new }
{
    for (index, part) in list.iter().enumerate() {
        block[index] = Part::at(index, part);
    }
}

/// Reports a syntax error, and writes the expected terminals to a block, as many as it holds.
pub(crate) fn put_syntax_error(
    syntax_error: &SyntaxError<'_>,
    block: &mut [u32],
    report: &mut Report,
) -> Status
    requires { FitsSyntaxError syntax_error.now }
    ensures { IsSyntaxErrorPut syntax_error.now block.old block.new report.new result }
{
    *report = Report::of_syntax_error(syntax_error);
    match syntax_error {
        SyntaxError::Refused { expected, .. } => fill(expected, block),
        SyntaxError::NoRule { .. } => {}
    }
    Status::Refused
}

/// Writes the numbers of terminals to the start of a block, as many as it holds.
fn fill(terminals: &[Sym], block: &mut [u32])
    ensures { IsFilled (map (λ t. t.0) terminals.now) block.old block.new }
{
    let count = terminals.len().min(block.len());
    for index in 0..count {
        block[index] = terminals[index].0;
    }
}
