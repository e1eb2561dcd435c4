//! The results of commands.
ghost use Rattle.std.specs.Prelude.{◌≡◌, IfErr, IfOk};
ghost use Rattle.lytab.specs.Completion.{completion_of_findings, completion_of_lines, completion_of_outcome};
ghost use Rattle.lytab.specs.Completion.{are_expected, completion_of_tokens, completion_status, count_due};
ghost use Rattle.lytab.specs.Completion.{pass};
ghost use Rattle.lytab.specs.Devices.{OutputFailuresReported, WroteAllOrPrefix};
ghost use Rattle.lytab.specs.Failure.{IsOfDevice};

use crate::failure::Failure;
use crate::files::{STANDARD, write_to};
use ly_cli::Strictness;
use ly_engine::{ConflictCounts, LinesOutcome, Outcome, TokenEnd};
use ly_explain::Findings;
use ly_print::Sink;

/// The result of a command without failures.
#[derive(Clone, Copy)]
pub enum Completion {
    /// Success.
    Done,
    /// The text, or one of its lines, has a syntax error.
    TextRefused,
    /// The explained files are accepted, but have warnings or conflicts that aren't allowed.
    NotPassed,
    /// The explained files are rejected.
    FilesRefused,
}

impl Completion {
    /// The result of printing tokens that end like this.
    pub fn of_tokens(end: TokenEnd) -> Completion
        ensures { result ≡ completion_of_tokens end }
    {
        match end {
            TokenEnd::Clean => Completion::Done,
            TokenEnd::Stuck { .. } => Completion::TextRefused,
        }
    }

    /// The result of parsing a text with this outcome.
    pub fn of_outcome(outcome: &Outcome) -> Completion
        ensures { result ≡ completion_of_outcome outcome.now }
    {
        match outcome {
            Outcome::Tree => Completion::Done,
            Outcome::Syntax { .. } | Outcome::NoRule { .. } => Completion::TextRefused,
        }
    }

    /// The result of parsing lines with this outcome.
    pub fn of_lines(outcome: LinesOutcome) -> Completion
        ensures { result ≡ completion_of_lines outcome }
    {
        match outcome {
            LinesOutcome::AllTrees => Completion::Done,
            LinesOutcome::SomeRefused => Completion::TextRefused,
        }
    }

    /// The result of explaining files. `findings` is what was found in them, if they are accepted.
    pub fn of_findings(findings: &Option<Findings>, strictness: Strictness) -> Completion
        ensures { result ≡ completion_of_findings strictness findings.now }
    {
        match findings {
            Some(findings) if pass(strictness, findings) => Completion::Done,
            Some(_) => Completion::NotPassed,
            None => Completion::FilesRefused,
        }
    }

    /// Writes the output of a command to standard output, and returns this result.
    pub fn said<'a, W: Sink>(self, output: &mut W, text: &[u8]) -> Result<Completion, Failure<'a>>
        ensures said { WroteAllOrPrefix result (W.contents output.old) (W.contents output.new) text.now }
        ensures completed { IfOk result (λ c. c ≡ self) }
        ensures failed { IfErr result IsOfDevice }
        ensures devices { OutputFailuresReported result output.old output.new (W.failures output.old)
            (W.failures output.new) }
    {
        match write_to(output, STANDARD, text) {
            Ok(()) => Ok(self),
            Err(failure) => Err(failure),
        }
    }

    /// The exit status.
    pub fn status(self) -> u8
        ensures { result ≡ completion_status self }
    {
        match self {
            Completion::Done => 0,
            Completion::TextRefused | Completion::NotPassed => 1,
            Completion::FilesRefused => 2,
        }
    }
}

/// Whether files with these findings pass: they have only the warnings and conflicts that are allowed.
fn pass(strictness: Strictness, findings: &Findings) -> bool
    ensures { result ≡ pass strictness findings.now }
{
    if strictness.strict && findings.has_warnings {
        return false;
    }
    are_expected(count_due(strictness), &findings.conflicts)
}

/// How many conflicts are expected: the given count, or 0 if warnings aren't allowed either.
fn count_due(strictness: Strictness) -> Option<usize>
    ensures { result ≡ count_due strictness }
{
    match strictness.expected {
        Some(expected) => Some(expected),
        None if strictness.strict => Some(0),
        None => None,
    }
}

/// Whether there are exactly as many shift/reduce conflicts as expected and no reduce/reduce conflicts. True if no
/// count is expected.
pub fn are_expected(expected: Option<usize>, counts: &ConflictCounts) -> bool
    ensures { result ≡ are_expected expected counts.now }
{
    match expected {
        Some(expected) => counts.shift_reduce == expected && counts.reduce_reduce == 0,
        None => true,
    }
}
