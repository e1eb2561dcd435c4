ghost use Rattle.std.specs.Prelude.{◌≡◌, IfOk, codes, false};
ghost use Rattle.clap.specs.Words.{App, app_of, rule_of, with_subcommand};
ghost use Rattle.ly_cli.specs.CommandLine.{IsApp, build_app, build_paths_app, check_app, expect_rule, explain_app};
ghost use Rattle.ly_cli.specs.CommandLine.{explain_forms_app, explain_paths_app, files_app, flag_rule, format_rule};
ghost use Rattle.ly_cli.specs.CommandLine.{graph_rule, line_app, other_rule, path_rule, report_rule, run_app};
ghost use Rattle.ly_cli.specs.CommandLine.{run_paths_app};
ghost use Rattle.ly_cli.specs.CommandLine.{states_rule, text_rule, tokens_app, tokens_paths_app, top_app, try_app};

use clap::{Arg, ArgAction, Command};
use std::alloc::{AllocError, Global};

/// The version of the program. Table files have their own versions.
const VERSION: &str = "1.0";

/// The end of the program's help.
const FIRST_STEPS: &str = "\
Start with explain, which reports errors and suggests fixes; then try a text:
  lytab explain sums.l sums.y
  lytab try sums.l sums.y sums.txt --where

Exit status: 0 on success, 1 for a syntax error in the text or if the files fail --strict or
--expect, 2 if a lex file, a yacc file or a table file is rejected, 3 for a read or write error
or if memory runs out, 4 for a usage error";

/// The command line as `clap` declares it.
pub fn line<'a>(alloc: Global) -> Result<Command<'a>, AllocError>
    ensures { IfOk result (λ c. app_of c ≡ line_app) }
{
    let line = with(top(alloc), tokens_line(alloc))?;
    let line = with(line, build_line(alloc))?;
    let line = with(line, run_line(alloc))?;
    let line = with(line, try_line(alloc))?;
    let line = with(line, check_line(alloc))?;
    with(line, explain_line(alloc))
}

/// The command line without its subcommands.
fn top<'a>(alloc: Global) -> Command<'a>
    ensures { app_of result ≡ top_app }
{
    Command::new(alloc, "lytab")
        .about(
            "A proved lex and yacc: generates tables from POSIX lex and yacc files, and parses with them",
        )
        .version(VERSION)
        .subcommand_required(true)
        .after_help(FIRST_STEPS)
}

/// A command with one more subcommand. Returns an error if an allocation failed.
fn with<'a>(
    command: Command<'a>,
    sub: Result<Command<'a>, AllocError>,
) -> Result<Command<'a>, AllocError>
    ensures { IfOk result (λ c. (app : App) → IfOk sub.entry (IsApp app)
        → app_of c ≡ with_subcommand (app_of command.entry) app.top) }
{
    command.subcommand(sub?)
}

/// The subcommand `tokens`.
fn tokens_line<'a>(alloc: Global) -> Result<Command<'a>, AllocError>
    ensures { IfOk result (IsApp tokens_app) }
{
    tokens_paths(alloc)?
        .arg(by_tables(alloc))?
        .arg(json(alloc))?
        .arg(pointing(alloc))
}

/// The subcommand `tokens` with its paths alone.
fn tokens_paths<'a>(alloc: Global) -> Result<Command<'a>, AllocError>
    ensures { IfOk result (IsApp tokens_paths_app) }
{
    Command::new(alloc, "tokens")
        .about("Print the tokens of a text, one per line")
        .arg(path(alloc, "LEX", LEX))?
        .arg(text(alloc))
}

/// The subcommand `build`.
fn build_line<'a>(alloc: Global) -> Result<Command<'a>, AllocError>
    ensures { IfOk result (IsApp build_app) }
{
    build_paths(alloc)?
        .arg(report(alloc))?
        .arg(format(alloc))?
        .arg(expect(alloc))?
        .arg(pointing(alloc))
}

/// The subcommand `build` with its paths alone.
fn build_paths<'a>(alloc: Global) -> Result<Command<'a>, AllocError>
    ensures { IfOk result (IsApp build_paths_app) }
{
    files(
        alloc,
        "build",
        "Generate a table file from a lex file and a yacc file",
    )?
    .arg(path(alloc, "TABLES", "The table file to write"))
}

/// The subcommand `run`.
fn run_line<'a>(alloc: Global) -> Result<Command<'a>, AllocError>
    ensures { IfOk result (IsApp run_app) }
{
    run_paths(alloc)?
        .arg(lines(alloc))?
        .arg(json(alloc))?
        .arg(places(alloc))?
        .arg(pointing(alloc))
}

/// The subcommand `run` with its paths alone.
fn run_paths<'a>(alloc: Global) -> Result<Command<'a>, AllocError>
    ensures { IfOk result (IsApp run_paths_app) }
{
    Command::new(alloc, "run")
        .about("Parse a text with a table file and print its tree")
        .arg(path(alloc, "TABLES", BUILT))?
        .arg(text(alloc))
}

/// The subcommand `try`.
fn try_line<'a>(alloc: Global) -> Result<Command<'a>, AllocError>
    ensures { IfOk result (IsApp try_app) }
{
    let about = "Parse a text directly with a lex file and a yacc file and print its tree";
    files(alloc, "try", about)?
        .arg(text(alloc))?
        .arg(json(alloc))?
        .arg(places(alloc))?
        .arg(pointing(alloc))
}

/// The subcommand `check`.
fn check_line<'a>(alloc: Global) -> Result<Command<'a>, AllocError>
    ensures { IfOk result (IsApp check_app) }
{
    Command::new(alloc, "check")
        .about("Check a table file and print its sizes")
        .arg(path(alloc, "TABLES", BUILT))?
        .arg(json(alloc))?
        .arg(pointing(alloc))
}

/// The subcommand `explain`.
fn explain_line<'a>(alloc: Global) -> Result<Command<'a>, AllocError>
    ensures { IfOk result (IsApp explain_app) }
{
    explain_forms(alloc)?.arg(strict(alloc))?.arg(expect(alloc))
}

/// The subcommand `explain` with its paths and the flags for what is read and in which form the report is.
fn explain_forms<'a>(alloc: Global) -> Result<Command<'a>, AllocError>
    ensures { IfOk result (IsApp explain_forms_app) }
{
    explain_paths(alloc)?
        .arg(alone(alloc))?
        .arg(json(alloc))?
        .arg(sarif(alloc))
}

/// The subcommand `explain` with its paths alone.
fn explain_paths<'a>(alloc: Global) -> Result<Command<'a>, AllocError>
    ensures { IfOk result (IsApp explain_paths_app) }
{
    Command::new(alloc, "explain")
        .about("Report the errors, warnings and conflicts of a lex file and a yacc file")
        .arg(path(alloc, "LEX", LEX_OR_YACC))?
        .arg(other_file(alloc))?
        .arg(states(alloc))?
        .arg(graph(alloc))
}

/// A subcommand with the paths of a lex file and a yacc file.
fn files<'a>(alloc: Global, name: &'a str, about: &'a str) -> Result<Command<'a>, AllocError>
    ensures { IfOk result (IsApp (files_app name.entry.now)) }
{
    Command::new(alloc, name)
        .about(about)
        .arg(path(alloc, "LEX", LEX))?
        .arg(path(alloc, "YACC", YACC))
}

const LEX: &str = "The lex file: definitions, %%, rules";

const LEX_OR_YACC: &str = "The lex file; with --yacc, the yacc file";

const YACC: &str = "The yacc file: declarations, %%, rules";

const BUILT: &str = "The table file, made by build";

/// A required path.
fn path<'a>(alloc: Global, id: &'a str, help: &'a str) -> Arg<'a>
    ensures rule { rule_of result ≡ path_rule id.entry.now }
    ensures local { result.global ≡ false }
{
    Arg::new(alloc, id).required(true).help(help)
}

/// The optional path of the text.
fn text<'a>(alloc: Global) -> Arg<'a>
    ensures rule { rule_of result ≡ text_rule }
    ensures local { result.global ≡ false }
{
    Arg::new(alloc, "TEXT").help("The text; standard input if it is left out")
}

/// The path of the yacc file. It is left out with `--yacc`.
fn other_file<'a>(alloc: Global) -> Arg<'a>
    ensures rule { rule_of result ≡ other_rule }
    ensures local { result.global ≡ false }
{
    Arg::new(alloc, "YACC").help(YACC)
}

/// `--yacc`: check a yacc file alone.
fn alone<'a>(alloc: Global) -> Arg<'a>
    ensures rule { rule_of result ≡ flag_rule (codes "GRAMMAR") (codes "yacc") }
    ensures local { result.global ≡ false }
{
    Arg::new(alloc, "GRAMMAR")
        .long("yacc")
        .action(ArgAction::SetTrue)
        .help("Check a yacc file alone: give it in place of LEX, without YACC")
}

/// `--tables`: a table file in place of a lex file.
fn by_tables<'a>(alloc: Global) -> Arg<'a>
    ensures rule { rule_of result ≡ flag_rule (codes "SCANNER") (codes "tables") }
    ensures local { result.global ≡ false }
{
    Arg::new(alloc, "SCANNER")
        .long("tables")
        .action(ArgAction::SetTrue)
        .help("Use the scanner of a table file: give it in place of LEX")
}

/// `--lines`.
fn lines<'a>(alloc: Global) -> Arg<'a>
    ensures rule { rule_of result ≡ flag_rule (codes "LINES") (codes "lines") }
    ensures local { result.global ≡ false }
{
    Arg::new(alloc, "LINES")
        .long("lines")
        .action(ArgAction::SetTrue)
        .help("Parse each line as a text of its own, before the next line is read")
}

/// `--json`.
fn json<'a>(alloc: Global) -> Arg<'a>
    ensures rule { rule_of result ≡ flag_rule (codes "JSON") (codes "json") }
    ensures local { result.global ≡ false }
{
    Arg::new(alloc, "JSON")
        .long("json")
        .action(ArgAction::SetTrue)
        .help("Print the result as JSON")
}

/// `--sarif`.
fn sarif<'a>(alloc: Global) -> Arg<'a>
    ensures rule { rule_of result ≡ flag_rule (codes "SARIF") (codes "sarif") }
    ensures local { result.global ≡ false }
{
    Arg::new(alloc, "SARIF")
        .long("sarif")
        .action(ArgAction::SetTrue)
        .help("Print the findings as SARIF 2.1.0, for code scanning and editors")
}

/// `--places`.
fn places<'a>(alloc: Global) -> Arg<'a>
    ensures rule { rule_of result ≡ flag_rule (codes "PLACES") (codes "places") }
    ensures local { result.global ≡ false }
{
    Arg::new(alloc, "PLACES")
        .long("places")
        .action(ArgAction::SetTrue)
        .help("Print JSON with the span of each part of the tree")
}

/// `--where`.
fn pointing<'a>(alloc: Global) -> Arg<'a>
    ensures rule { rule_of result ≡ flag_rule (codes "WHERE") (codes "where") }
    ensures local { result.global ≡ false }
{
    Arg::new(alloc, "WHERE")
        .long("where")
        .action(ArgAction::SetTrue)
        .help("Print the location of an error and its source line to standard error")
}

/// `--report FILE`.
fn report<'a>(alloc: Global) -> Arg<'a>
    ensures rule { rule_of result ≡ report_rule }
    ensures local { result.global ≡ false }
{
    Arg::new(alloc, "FILE")
        .long("report")
        .help("Write a report of removed rules and conflicts to FILE")
}

/// `--format VERSION`.
fn format<'a>(alloc: Global) -> Arg<'a>
    ensures rule { rule_of result ≡ format_rule }
    ensures local { result.global ≡ false }
{
    Arg::new(alloc, "VERSION")
        .long("format")
        .help("The version of the table file: 1 or 2 (the default)")
}

/// `--expect COUNT`.
fn expect<'a>(alloc: Global) -> Arg<'a>
    ensures rule { rule_of result ≡ expect_rule }
    ensures local { result.global ≡ false }
{
    Arg::new(alloc, "COUNT").long("expect").help(
        "Exit with 1 unless there are exactly COUNT shift/reduce conflicts and no reduce/reduce conflicts",
    )
}

/// `--strict`.
fn strict<'a>(alloc: Global) -> Arg<'a>
    ensures rule { rule_of result ≡ flag_rule (codes "STRICT") (codes "strict") }
    ensures local { result.global ≡ false }
{
    Arg::new(alloc, "STRICT")
        .long("strict")
        .action(ArgAction::SetTrue)
        .help("Exit with 1 if there is a warning, or a conflict that --expect doesn't allow")
}

/// `--states STATES`.
fn states<'a>(alloc: Global) -> Arg<'a>
    ensures rule { rule_of result ≡ states_rule }
    ensures local { result.global ≡ false }
{
    Arg::new(alloc, "STATES")
        .long("states")
        .help("Write the states of the parser to STATES")
}

/// `--graph GRAPH`.
fn graph<'a>(alloc: Global) -> Arg<'a>
    ensures rule { rule_of result ≡ graph_rule }
    ensures local { result.global ≡ false }
{
    Arg::new(alloc, "GRAPH")
        .long("graph")
        .help("Write the states as a graph for Graphviz's dot to GRAPH")
}
