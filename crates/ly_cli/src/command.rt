ghost use Rattle.ly_cli.specs.declared.command.CommandFault.TheVariants.{OutOfMemory};
ghost use Rattle.std.specs.Prelude.{◌≡◌};

use ly_base::Version;
use ly_print::AnswerForm;
use std::alloc::AllocError;

/// What the arguments ask for. Each `&str` is a path. Without `text`, standard input is read.
#[derive(Clone, Copy, Debug, PartialEq, Eq)]
pub enum Command<'a> {
    /// Write the tokens of a text under a lex file.
    Tokens {
        /// The lex file.
        lex: &'a str,
        /// The text.
        text: Option<&'a str>,
        /// How they are written.
        by: Answering,
    },
    /// Write the tokens of a text with the scanner of a table file.
    TableTokens {
        /// The table file.
        tables: &'a str,
        /// The text.
        text: Option<&'a str>,
        /// How they are written.
        by: Answering,
    },
    /// Write the table file of a lex file and a yacc file.
    Build {
        /// The paths to read and write.
        paths: Paths<'a>,
        /// The version of the table file.
        version: Version,
        /// The exact number of shift/reduce conflicts that is expected, with no other conflicts, if `--expect` is
        /// given.
        expected: Option<usize>,
        /// Whether to print the location of an error and its source line to standard error.
        points: bool,
    },
    /// Parse a text with a table file.
    Run {
        /// The table file.
        tables: &'a str,
        /// The text.
        text: Option<&'a str>,
        /// How the result is written.
        by: Answering,
    },
    /// Parse each line of a text as a text of its own, with a table file.
    Lines {
        /// The table file.
        tables: &'a str,
        /// The text.
        text: Option<&'a str>,
        /// How the result of each line is written.
        by: Answering,
    },
    /// Parse a text with a lex file and a yacc file.
    Try {
        /// The lex file.
        lex: &'a str,
        /// The yacc file.
        yacc: &'a str,
        /// The text.
        text: Option<&'a str>,
        /// How the result is written.
        by: Answering,
    },
    /// Parse a text with a table file, and write the span of each part of its tree.
    RunPlaced {
        /// The table file.
        tables: &'a str,
        /// The text.
        text: Option<&'a str>,
        /// Whether to print the location of an error and its source line to standard error.
        points: bool,
    },
    /// Parse a text with a lex file and a yacc file, and write the span of each part of its tree.
    TryPlaced {
        /// The lex file.
        lex: &'a str,
        /// The yacc file.
        yacc: &'a str,
        /// The text.
        text: Option<&'a str>,
        /// Whether to print the location of an error and its source line to standard error.
        points: bool,
    },
    /// Check a table file and print its sizes.
    Check {
        /// The table file.
        tables: &'a str,
        /// How they are written.
        by: Answering,
    },
    /// Report the errors, warnings and conflicts of a lex file and a yacc file, or of a yacc file alone.
    Explain {
        /// The paths to read and write.
        paths: ExplainPaths<'a>,
        /// Which warnings and conflicts make the command exit with 1.
        strictness: Strictness,
        /// How the report is written.
        form: ReportForm,
    },
}

/// The form of the report of `explain`.
#[derive(Clone, Copy, Debug, PartialEq, Eq)]
pub enum ReportForm {
    /// Text for people.
    Plain,
    /// One line of JSON.
    Json,
    /// One line of SARIF 2.1.0.
    Sarif,
}

/// Which warnings and conflicts accepted files may have. If they have others, `explain` exits with 1.
#[derive(Clone, Copy, Debug, PartialEq, Eq)]
pub struct Strictness {
    /// Whether warnings and conflicts are not allowed.
    pub strict: bool,
    /// The exact number of shift/reduce conflicts that is expected, with no other conflicts, if `--expect` is given.
    pub expected: Option<usize>,
}

/// How a result is written.
#[derive(Clone, Copy, Debug, PartialEq, Eq)]
pub struct Answering {
    /// The form of the output.
    pub form: AnswerForm,
    /// Whether to print the location of an error and its source line to standard error.
    pub points: bool,
}

/// The paths that `build` reads and writes.
#[derive(Clone, Copy, Debug, PartialEq, Eq)]
pub struct Paths<'a> {
    /// The lex file.
    pub lex: &'a str,
    /// The yacc file.
    pub yacc: &'a str,
    /// The table file.
    pub tables: &'a str,
    /// The report, if requested.
    pub report: Option<&'a str>,
}

/// The paths that `explain` reads and writes.
#[derive(Clone, Copy, Debug, PartialEq, Eq)]
pub struct ExplainPaths<'a> {
    /// The lex file; `None` if a yacc file is checked alone.
    pub lex: Option<&'a str>,
    /// The yacc file.
    pub yacc: &'a str,
    /// The states of the parser, if requested.
    pub states: Option<&'a str>,
    /// The graph of the states, if requested.
    pub graph: Option<&'a str>,
}

/// Why there is no command.
#[derive(Debug, Drop)]
pub enum CommandFault {
    /// A help text or the version was requested: the text.
    Help(String),
    /// Any other usage error: the message.
    Bad(String),
    /// Out of memory.
    OutOfMemory,
}

impl From<AllocError> for CommandFault {
    ghost from_gives = { λ _ e. e ≡ OutOfMemory };

    fn from(_error: AllocError) -> CommandFault {
        CommandFault::OutOfMemory
    }
}
