ghost use Rattle.std.specs.Prelude.{◌≡◌, List, [], ◌∷◌, ◌++◌, length, map, OnOk};
ghost use Rattle.lytab_c.specs.Many.{TextAnswer};
ghost use Rattle.lytab_c.specs.Parsing.{listed};
ghost use Rattle.lytab_c.specs.Private.Answers.{fault_answer, syntax_error_answer, tree_answer, AreHeld};
ghost use Rattle.lytab_c.specs.Private.Putting.{EndWithin, FitsSyntaxError};
ghost use Rattle.lytab_c.specs.Statuses.{status_number};

use crate::part::Part;
use crate::report::Report;
use crate::status::Status;
use crate::text_report::TextReport;
use ly_base::{OutOfMemory, Sym};
use ly_feed::SyntaxError;
use ly_places::Part as TreePart;
use std::alloc::Global;

/// The error number for tables that fail on a text.
const FAULTY_TABLES: u32 = 90;

/// The results for many texts, one after another.
#[derive(Drop)]
pub struct AnswerList {
    /// The report of each text.
    pub(crate) texts: Vec<TextReport>,
    /// The parts of the texts' trees.
    pub(crate) parts: Vec<Part>,
    /// The expected terminals of the texts with a syntax error.
    pub(crate) expected: Vec<u32>,
}

impl AnswerList {
    /// No results.
    pub(crate) fn new(alloc: Global) -> AnswerList
        ensures { AreHeld [] result }
    {
        AnswerList {
            texts: Vec::new(alloc),
            parts: Vec::new(alloc),
            expected: Vec::new(alloc),
        }
    }

    /// Appends the result for the next text: a tree of these parts. Returns an error if memory runs out.
    pub(crate) fn push_tree(&mut self, list: &[TreePart]) -> Result<(), OutOfMemory>
        requires { EndWithin (length list.now) 0 list.now }
        ensures { (xs : List TextAnswer) → AreHeld xs self.old
            → OnOk result (AreHeld (xs ++ tree_answer list.now ∷ []) self.new) }
    {
        push_parts(&mut self.parts, list)?;
        self.push_report(Status::Done, Report::needing(list.len() as u64))
    }

    /// Appends the result for the next text: this syntax error. Returns an error if memory runs out.
    pub(crate) fn push_syntax_error(
        &mut self,
        syntax_error: &SyntaxError<'_>,
    ) -> Result<(), OutOfMemory>
        requires { FitsSyntaxError syntax_error.now }
        ensures { (xs : List TextAnswer) → AreHeld xs self.old
            → OnOk result (AreHeld (xs ++ syntax_error_answer syntax_error.now ∷ []) self.new) }
    {
        let report = Report::of_syntax_error(syntax_error);
        match syntax_error {
            SyntaxError::Refused { expected, .. } => {
                push_terminals(&mut self.expected, expected)?;
                self.push_report(Status::Refused, report)
            }
            SyntaxError::NoRule { .. } => self.push_report(Status::Refused, report),
        }
    }

    /// Appends the result for the next text: the tables fail on it. Returns an error if memory runs out.
    pub(crate) fn push_fault(&mut self) -> Result<(), OutOfMemory>
        ensures { (xs : List TextAnswer) → AreHeld xs self.old
            → OnOk result (AreHeld (xs ++ fault_answer ∷ []) self.new) }
    {
        let report = Report {
            fault: FAULTY_TABLES,
            ..Report::needing(0)
        };
        self.push_report(Status::Fault, report)
    }

    /// Appends the report of a text whose parts and terminals are appended already.
    fn push_report(&mut self, status: Status, report: Report) -> Result<(), OutOfMemory>
        ensures texts { OnOk result (self.new.texts.items ≡ self.old.texts.items
            ++ (record {
              status = status_number status;
              unused = 0;
              parts_end = length self.old.parts.items;
              expected_end = length self.old.expected.items;
              report = report;
            }) ∷ []) }
        ensures parts { self.new.parts ≡ self.old.parts }
        ensures expected { self.new.expected ≡ self.old.expected }
    {
        self.texts.push(TextReport {
            status: status.number(),
            unused: 0,
            parts_end: self.parts.len() as u64,
            expected_end: self.expected.len() as u64,
            report,
        })?;
        Ok(())
    }
}

/// Appends the parts of a tree in their C form. Returns an error if memory runs out.
fn push_parts(parts: &mut Vec<Part>, list: &[TreePart]) -> Result<(), OutOfMemory>
    requires { EndWithin (length list.now) 0 list.now }
    ensures { OnOk result (parts.new.items ≡ parts.old.items ++ listed 0 list.now) }
{
    for (index, part) in list.iter().enumerate() {
        parts.push(Part::at(index, part))?;
    }
    Ok(())
}

/// Appends the numbers of terminals. Returns an error if memory runs out.
fn push_terminals(numbers: &mut Vec<u32>, terminals: &[Sym]) -> Result<(), OutOfMemory>
    ensures { OnOk result (numbers.new.items ≡ numbers.old.items ++ map (λ t. t.0) terminals.now) }
{
    for terminal in terminals {
        numbers.push(terminal.0)?;
    }
    Ok(())
}
