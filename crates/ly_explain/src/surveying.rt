ghost use Rattle.std.specs.Prelude.{IfOk};
ghost use Rattle.ly_explain.specs.Findings.{AreFoundIn, IsInForm};
ghost use Rattle.ly_lookahead.specs.Lookaheads.{AreLookaheads};
ghost use Rattle.ly_subset.specs.Automaton.{IsBreadthFirst};

use crate::form::{text_in_form, write_json};
use crate::picture::write_picture;
use crate::rules::write_rules;
use crate::sarif::write_sarif;
use crate::scanner::{write_other_bytes, write_scanner};
use crate::states::{Tables, write_states};
use ly_analysis::{Analysis, Form, Options, Places};
use ly_base::OutOfMemory;
use ly_conflicts::write_conflicts;
use ly_join::Spec;
use ly_lexread::LexFile;
use ly_lints::{Lint, lints_of, write_lints};
use ly_lookahead::Lookaheads;
use ly_report::ConflictCounts;
use ly_resolve::Resolved;
use ly_subset::Dfa;
use ly_text_buffer::{NamedFile, TextBuffer};
use std::alloc::Global;

/// The report on two files.
#[derive(Debug, Drop)]
pub struct Explanation {
    /// The text, in English or as JSON.
    pub text: Vec<u8>,
    /// The states of the parser, if they are requested and the files are accepted.
    pub states: Option<Vec<u8>>,
    /// A picture of the parser's states, in the language of Graphviz's `dot`, if it is requested and the files are
    /// accepted.
    pub picture: Option<Vec<u8>>,
    /// The findings, if the files are accepted.
    pub findings: Option<Findings>,
}

/// The findings about two accepted files.
#[derive(Clone, Copy, Debug, PartialEq, Eq)]
pub struct Findings {
    /// The number of conflicts of each kind.
    pub conflicts: ConflictCounts,
    /// Whether there are warnings.
    pub has_warnings: bool,
}

/// Reports on two accepted files: the warnings, the conflicts, and the numbered rules; on request also the states and
/// their picture.
///
/// Error: `OutOfMemory` if an allocation failed.
pub(crate) fn survey(
    alloc: Global,
    files: Analysis<'_>,
    tables: &Tables,
    options: Options,
) -> Result<Explanation, OutOfMemory>
    requires order { IsBreadthFirst files.dfa.now }
    requires sets { AreLookaheads files.resolved.now.automaton files.lookaheads.now }
    ensures found { IfOk result (AreFoundIn files.entry.resolved.now.spec) }
    ensures form { IfOk result (λ e. IsInForm options.form e.findings e.text.items) }
{
    let (said, has_warnings) = said_of(alloc, &files, options)?;
    let findings = Some(Findings {
        conflicts: ConflictCounts::of(files.resolved),
        has_warnings,
    });
    Ok(Explanation {
        text: text_in_form(alloc, options.form, &findings, said)?,
        states: states_if(alloc, &files, tables, options)?,
        picture: picture_if(alloc, &files, options.picture)?,
        findings,
    })
}

/// The warnings, conflicts and numbered rules as text, and whether there are warnings.
fn said_of(
    alloc: Global,
    files: &Analysis<'_>,
    options: Options,
) -> Result<(Vec<u8>, bool), OutOfMemory>
    requires order { IsBreadthFirst files.now.dfa.now }
    requires sets { AreLookaheads files.now.resolved.now.automaton files.now.lookaheads.now }
{
    let places = Places::of(alloc, files.yacc.bytes)?;
    let lints = lints_of(alloc, *files, &places, options)?;
    let mut buffer = TextBuffer::new(alloc);
    match options.form {
        Form::Plain => write_all(alloc, &mut buffer, files, &places, &lints.list, options)?,
        Form::Json => write_json(alloc, &mut buffer, files, &places, &lints.list, options)?,
        Form::Sarif => write_sarif(alloc, &mut buffer, files, &places, &lints.list, options)?,
    }
    Ok((buffer.finish()?, !lints.is_empty()))
}

/// Prints all of this in English, given the locations of symbols and rules and the warnings.
fn write_all(
    alloc: Global,
    buffer: &mut TextBuffer,
    files: &Analysis<'_>,
    places: &Places,
    lints: &[Lint<'_>],
    options: Options,
) -> Result<(), OutOfMemory> {
    write_sizes(buffer, files, options);
    write_lints(buffer, files, lints);
    if lints.is_empty() && files.resolved.conflicts().is_empty() {
        buffer.push(b"No warnings.\n");
    }
    if !options.grammar_alone {
        write_other_bytes(alloc, buffer, files)?;
    }
    write_conflicts(alloc, buffer, files, places, options)?;
    write_rules(buffer, files, places);
    Ok(())
}

/// The states of the scanner, if there is a lex file, and of the parser, if they are requested.
fn states_if(
    alloc: Global,
    files: &Analysis<'_>,
    tables: &Tables,
    options: Options,
) -> Result<Option<Vec<u8>>, OutOfMemory>
    requires { AreLookaheads files.now.resolved.now.automaton files.now.lookaheads.now }
{
    if !options.states {
        return Ok(None);
    }
    let mut buffer = TextBuffer::new(alloc);
    if !options.grammar_alone {
        write_scanner(alloc, &mut buffer, files)?;
    }
    write_states(alloc, &mut buffer, files, tables)?;
    Ok(Some(buffer.finish()?))
}

/// The picture of the parser's states, if it is requested.
fn picture_if(
    alloc: Global,
    files: &Analysis<'_>,
    asked: bool,
) -> Result<Option<Vec<u8>>, OutOfMemory> {
    if !asked {
        return Ok(None);
    }
    let mut buffer = TextBuffer::new(alloc);
    write_picture(alloc, &mut buffer, files)?;
    Ok(Some(buffer.finish()?))
}

/// Prints that the files are accepted, and the size of their parser.
fn write_sizes(buffer: &mut TextBuffer, files: &Analysis<'_>, options: Options) {
    let grammar = files.spec.grammar();
    let rules = grammar.rules().len().saturating_sub(1);
    if options.grammar_alone {
        buffer.push(files.yacc.name.as_bytes());
        buffer.push(b" is accepted: ");
    } else {
        buffer.push(files.lex.name.as_bytes());
        buffer.push(b" and ");
        buffer.push(files.yacc.name.as_bytes());
        buffer.push(b" are accepted: ");
    }
    buffer.push_count(rules, b"rule, ", b"rules, ");
    buffer.push_count(grammar.terminals() as usize, b"terminal, ", b"terminals, ");
    buffer.push_count(
        grammar.accept().0 as usize,
        b"nonterminal, ",
        b"nonterminals, ",
    );
    buffer.push_count(files.resolved.lr0().states(), b"state.\n", b"states.\n");
}
