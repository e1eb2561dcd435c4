ghost use Rattle.std.specs.Prelude.{◌≡◌, IfErr, IfOk, IsSome, OnOk, Some, [], codes, map, option_and_then, option_map};
ghost use Rattle.std.specs.Prelude.{MatchResult, string_bytes, true};
ghost use Rattle.clap.specs.Words.{first_value, found_of, kind_of, subcommand_rows_of};
ghost use Rattle.ly_cli.specs.CommandLine.{answering_by, build_by, check_by, count_by, strictness_by, expected_by};
ghost use Rattle.ly_cli.specs.CommandLine.{explain_by, form_by, is_said, line_faults, line_takes, request_by};
ghost use Rattle.ly_cli.specs.CommandLine.{report_form_by, request_of, run_by, subcommand_in, tokens_by, try_by};
ghost use Rattle.ly_cli.specs.CommandLine.{version_by, Mean};
ghost use Rattle.ly_cli.specs.Command.{said};
ghost use Rattle.ly_cli.specs.Request.{Request};

use crate::command::{
    Answering, Command, CommandFault, ExplainPaths, Paths, ReportForm, Strictness,
};
use crate::line::line;
use clap::ArgMatches;
use clap::error::ErrorKind;
use ly_base::Version;
use ly_print::AnswerForm;
use std::alloc::{AllocError, Global};

/// Usage errors in arguments that `clap` accepts.
const NO_VERSION: &str = "error: invalid value for '--format <VERSION>': it must be 1 or 2\n";

const NO_COUNT: &str =
    "error: invalid value for '--expect <COUNT>': it must be a number below 2^64\n";

const NO_PAIR: &str =
    "error: explain takes a lex file and a yacc file, or '--yacc' and a yacc file alone\n";

const NO_FORM: &str = "error: the argument '--json' cannot be used with '--sarif'\n";

const NO_LINES: &str = "error: the argument '--lines' cannot be used with '--places'\n";

/// Reads the arguments, the first of which is the program's name: `tokens LEX [TEXT] [--json] [--where]`,
/// `tokens --tables TABLES [TEXT] [--json] [--where]`,
/// `build LEX YACC TABLES [--report FILE] [--format 1|2] [--expect COUNT] [--where]`,
/// `run TABLES [TEXT] [--lines] [--json] [--places] [--where]`,
/// `try LEX YACC [TEXT] [--json] [--places] [--where]`, `check TABLES [--json] [--where]` or
/// `explain LEX YACC [--json|--sarif] [--states FILE] [--graph FILE] [--strict] [--expect COUNT]`, or this with
/// `--yacc YACC` in place of both files. `--places` implies `--json`.
///
/// Returns `Help` if a help text or the version is requested. Returns `Bad` if `clap` rejects the arguments for another
/// reason, if `--format` is neither 1 nor 2, if `--expect` has no number, if `--lines` comes with `--places` or `--json`
/// of `explain` with `--sarif`, or if `explain` gets a file too few or too many. Returns `OutOfMemory` if an allocation
/// fails.
pub fn read_command<'a>(alloc: Global, words: &'a [String]) -> Result<Command<'a>, CommandFault>
    ensures said { IfOk result (λ c. request_of (map string_bytes words.entry.now) ≡ Some (said c)) }
    ensures faultless { OnOk result (line_faults (map string_bytes words.entry.now) ≡ []) }
    ensures refused { IfErr result (λ e. line_takes (map string_bytes words.entry.now) ≡ true
        → IsSome (request_of (map string_bytes words.entry.now)) → e ≡ CommandFault.OutOfMemory) }
    ensures taken { (request : Request) → Mean (map string_bytes words.entry.now) request
        → MatchResult result (λ c. said c ≡ request) (λ e. e ≡ CommandFault.OutOfMemory) }
{
    let matches = matched(alloc, words)?;
    match command_in(&matches) {
        Some(command) => Ok(command),
        None => Err(CommandFault::Bad(String::from_str(alloc, wrong_with(&matches))?)),
    }
}

/// The message for arguments that name no command.
fn wrong_with(matches: &ArgMatches<'_>) -> &'static str {
    match matches.subcommand() {
        Some(("build", values)) if version_of(values.get_str("VERSION")).is_none() => NO_VERSION,
        Some(("build" | "explain", values)) if expected_in(values).is_none() => NO_COUNT,
        Some(("explain", values)) if report_form_in(values).is_none() => NO_FORM,
        Some(("explain", _)) => NO_PAIR,
        _ => NO_LINES,
    }
}

/// What `clap` finds in the arguments.
fn matched<'a>(alloc: Global, words: &'a [String]) -> Result<ArgMatches<'a>, CommandFault>
    ensures found { IfOk result (λ m. subcommand_rows_of m ≡ subcommand_in (map string_bytes words.entry.now)) }
    ensures faultless { OnOk result (line_faults (map string_bytes words.entry.now) ≡ []) }
    ensures taken { IfErr result (λ e. line_takes (map string_bytes words.entry.now) ≡ true
        → e ≡ CommandFault.OutOfMemory) }
{
    match line(alloc)?.try_get_matches_from(words) {
        Ok(matches) => Ok(matches),
        Err(error) => Err(refusal(alloc, &error)),
    }
}

/// The command that the matches name.
fn command_in<'a>(matches: &ArgMatches<'a>) -> Option<Command<'a>>
    ensures { option_map said result ≡ option_and_then request_by (subcommand_rows_of matches.now) }
{
    let (name, values) = matches.subcommand()?;
    match name {
        "tokens" => tokens_in(values),
        "build" => build_in(values),
        "run" => run_in(values),
        "try" => try_in(values),
        "check" => check_in(values),
        "explain" => explain_in(values),
        _ => None,
    }
}

/// The command `tokens` with these values.
fn tokens_in<'a>(values: &ArgMatches<'a>) -> Option<Command<'a>>
    ensures { option_map said result ≡ tokens_by (first_value (found_of values.now)) }
{
    let path = values.get_str("LEX")?;
    let text = values.get_str("TEXT");
    let by = answering_in(values);
    Some(if is_said(values, "SCANNER") {
        Command::TableTokens {
            tables: path,
            text,
            by,
        }
    } else {
        Command::Tokens {
            lex: path,
            text,
            by,
        }
    })
}

/// How a result is written, by the flags.
fn answering_in(values: &ArgMatches<'_>) -> Answering
    ensures { result ≡ answering_by (first_value (found_of values.now)) }
{
    Answering {
        form: form_in(values),
        points: is_said(values, "WHERE"),
    }
}

/// The form of the output, by `--json`.
fn form_in(values: &ArgMatches<'_>) -> AnswerForm
    ensures { result ≡ form_by (first_value (found_of values.now)) }
{
    if is_said(values, "JSON") {
        AnswerForm::Json
    } else {
        AnswerForm::Plain
    }
}

/// Whether a flag is given.
fn is_said(values: &ArgMatches<'_>, id: &str) -> bool
    ensures { result ≡ is_said (first_value (found_of values.now)) id.now }
{
    match values.get_str(id) {
        Some(word) => word == "true",
        None => false,
    }
}

/// The command `build` with these values.
fn build_in<'a>(values: &ArgMatches<'a>) -> Option<Command<'a>>
    ensures { option_map said result ≡ build_by (first_value (found_of values.now)) }
{
    let paths = Paths {
        lex: values.get_str("LEX")?,
        yacc: values.get_str("YACC")?,
        tables: values.get_str("TABLES")?,
        report: values.get_str("FILE"),
    };
    Some(Command::Build {
        paths,
        version: version_of(values.get_str("VERSION"))?,
        expected: expected_in(values)?,
        points: is_said(values, "WHERE"),
    })
}

/// How many conflicts are expected, if `--expect` is given. Returns `None` if its value is no number.
fn expected_in(values: &ArgMatches<'_>) -> Option<Option<usize>>
    ensures { result ≡ expected_by (first_value (found_of values.now) (codes "COUNT")) }
{
    match values.get_str("COUNT") {
        None => Some(None),
        Some(word) => Some(Some(count_of(word)?)),
    }
}

/// The number that digits stand for. A plus may precede them. Returns `None` if there is no such number.
fn count_of(word: &str) -> Option<usize>
    ensures { result ≡ count_by word.now }
{
    match word.parse::<usize>() {
        Ok(count) => Some(count),
        Err(_) => None,
    }
}

/// The version with a number, or the default version without one. Returns `None` for any other number.
fn version_of(number: Option<&str>) -> Option<Version>
    ensures { result ≡ version_by (option_map (λ s. s.now) number.entry) }
{
    match number {
        None => Some(Version::V2),
        Some(number) => match number {
            "1" => Some(Version::V1),
            "2" => Some(Version::V2),
            _ => None,
        },
    }
}

/// The command `run` with these values.
fn run_in<'a>(values: &ArgMatches<'a>) -> Option<Command<'a>>
    ensures { option_map said result ≡ run_by (first_value (found_of values.now)) }
{
    let tables = values.get_str("TABLES")?;
    let text = values.get_str("TEXT");
    let by = answering_in(values);
    match (is_said(values, "LINES"), is_said(values, "PLACES")) {
        (false, false) => Some(Command::Run { tables, text, by }),
        (true, false) => Some(Command::Lines { tables, text, by }),
        (false, true) => Some(Command::RunPlaced {
            tables,
            text,
            points: by.points,
        }),
        (true, true) => None,
    }
}

/// The command `try` with these values.
fn try_in<'a>(values: &ArgMatches<'a>) -> Option<Command<'a>>
    ensures { option_map said result ≡ try_by (first_value (found_of values.now)) }
{
    let lex = values.get_str("LEX")?;
    let yacc = values.get_str("YACC")?;
    let text = values.get_str("TEXT");
    let by = answering_in(values);
    Some(if is_said(values, "PLACES") {
        Command::TryPlaced {
            lex,
            yacc,
            text,
            points: by.points,
        }
    } else {
        Command::Try {
            lex,
            yacc,
            text,
            by,
        }
    })
}

/// The command `check` with these values.
fn check_in<'a>(values: &ArgMatches<'a>) -> Option<Command<'a>>
    ensures { option_map said result ≡ check_by (first_value (found_of values.now)) }
{
    Some(Command::Check {
        tables: values.get_str("TABLES")?,
        by: answering_in(values),
    })
}

/// The command `explain` with these values.
fn explain_in<'a>(values: &ArgMatches<'a>) -> Option<Command<'a>>
    ensures { option_map said result ≡ explain_by (first_value (found_of values.now)) }
{
    let first = values.get_str("LEX")?;
    let second = values.get_str("YACC");
    let states = values.get_str("STATES");
    let graph = values.get_str("GRAPH");
    let form = report_form_in(values)?;
    let strictness = strictness_in(values)?;
    match (is_said(values, "GRAMMAR"), second) {
        (false, Some(yacc)) => Some(Command::Explain {
            paths: ExplainPaths {
                lex: Some(first),
                yacc,
                states,
                graph,
            },
            strictness,
            form,
        }),
        (true, None) => Some(Command::Explain {
            paths: ExplainPaths {
                lex: None,
                yacc: first,
                states,
                graph,
            },
            strictness,
            form,
        }),
        _ => None,
    }
}

/// The form of the report, by `--json` and `--sarif`. Returns `None` if both are given.
fn report_form_in(values: &ArgMatches<'_>) -> Option<ReportForm>
    ensures { result ≡ report_form_by (first_value (found_of values.now)) }
{
    match (is_said(values, "JSON"), is_said(values, "SARIF")) {
        (false, false) => Some(ReportForm::Plain),
        (true, false) => Some(ReportForm::Json),
        (false, true) => Some(ReportForm::Sarif),
        (true, true) => None,
    }
}

/// Which warnings and conflicts are allowed. Returns `None` if the count is no number.
fn strictness_in(values: &ArgMatches<'_>) -> Option<Strictness>
    ensures { result ≡ strictness_by (first_value (found_of values.now)) }
{
    Some(Strictness {
        strict: is_said(values, "STRICT"),
        expected: expected_in(values)?,
    })
}

/// The error for an error of `clap`.
fn refusal(alloc: Global, error: &clap::Error) -> CommandFault
    ensures { kind_of error.now ≡ ErrorKind.OutOfMemory → result ≡ CommandFault.OutOfMemory }
{
    if error.kind() == ErrorKind::OutOfMemory {
        return CommandFault::OutOfMemory;
    }
    let is_asked_for = !error.use_stderr();
    match error.to_string(alloc) {
        Ok(text) if is_asked_for => CommandFault::Help(text),
        Ok(text) => CommandFault::Bad(text),
        Err(AllocError) => CommandFault::OutOfMemory,
    }
}
