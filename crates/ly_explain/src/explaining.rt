ghost use Rattle.std.specs.Prelude.{◌≡◌, IfErr, IfOk};
ghost use Rattle.ly_explain.specs.Findings.{AreFoundIn, IsInForm};
ghost use Rattle.ly_base.specs.Limits.{least_of, sizes_in, Sizes};
ghost use Rattle.ly_base.specs.declared.version.Version.TheVariants.{V2};
ghost use Rattle.ly_emit.specs.Tables.{AreShapesWithin};
ghost use Rattle.ly_generate.specs.Accepted.{HasSteadyTables, IsRefusedFor, IsUnfitFor};
ghost use Rattle.ly_grammar.specs.Reduction.{KeepsUseful};
ghost use Rattle.ly_lookahead.specs.Lookaheads.{AreLookaheads};
ghost use Rattle.ly_lr0.specs.Automaton as parser;
ghost use Rattle.ly_subset.specs.Automaton.{IsBreadthFirst};
ghost use Rattle.ly_explain.specs.Explained.{IsExplained, IsFitFor, no_rules};

use crate::form::text_in_form;
use crate::sarif::{RESULTS_BEGIN, RESULTS_END};
use crate::states::Tables;
use crate::surveying::{Explanation, survey};
use ly_analysis::{Analysis, Form, Options};
use ly_base::{Limits, OutOfMemory, Version};
use ly_diagnostics::{indented_lines, write_faults, write_json_faults, write_sarif_faults};
use ly_generate::{GenFault, Specification, parser_tables, read_specification};
use ly_grammar::reduce;
use ly_join::Spec;
use ly_lexread::LexFile;
use ly_lookahead::{Lookaheads, lookaheads};
use ly_lr0::{Lr0, automaton};
use ly_minim::minimise;
use ly_resolve::{Resolved, resolve};
use ly_subset::Dfa;
use ly_text_buffer::{NamedFile, TextBuffer};
use std::alloc::Global;

/// Two files as they were read.
#[derive(Clone, Copy)]
struct Read<'a> {
    /// The lex file.
    lex: NamedFile<'a>,
    /// The yacc file.
    yacc: NamedFile<'a>,
    /// The lex file as it was read.
    file: &'a LexFile,
    /// The specification of both files.
    spec: &'a Spec,
    /// The minimal DFA of the scanner.
    dfa: &'a Dfa,
}

/// Reports the errors of a lex file and a yacc file if they are rejected, and otherwise their warnings, their conflicts
/// and the numbers of their rules. They are accepted if `build` accepts them.
///
/// A limit above that of version 2 of the table file is lowered to it. Returns `OutOfMemory` if an allocation fails.
pub fn explain(
    alloc: Global,
    lex: NamedFile<'_>,
    yacc: NamedFile<'_>,
    limits: &Limits,
    options: Options,
) -> Result<Explanation, OutOfMemory>
    ensures explained { IfOk result
        (IsExplained (least_of limits.now (sizes_in V2)) lex.entry.bytes.now yacc.entry.bytes.now) }
    ensures form { IfOk result (λ e. IsInForm options.form e.findings e.text.items) }
{
    let limits = limits.within(Version::V2);
    match of_accepted(alloc, lex, yacc, &limits, options) {
        Ok(explanation) => Ok(explanation),
        Err(GenFault::OutOfMemory) => Err(OutOfMemory),
        Err(fault) => {
            let said = said_of_refused(alloc, lex, yacc, &limits, &fault, options.form)?;
            Ok(Explanation {
                text: text_in_form(alloc, options.form, &None, said)?,
                states: None,
                picture: None,
                findings: None,
            })
        }
    }
}

/// The report of two files that are rejected with this error.
fn said_of_refused(
    alloc: Global,
    lex: NamedFile<'_>,
    yacc: NamedFile<'_>,
    limits: &Limits,
    fault: &GenFault,
    form: Form,
) -> Result<Vec<u8>, OutOfMemory> {
    let mut buffer = TextBuffer::new(alloc);
    match form {
        Form::Plain => write_faults(alloc, &mut buffer, lex, yacc, limits, fault)?,
        Form::Json => {
            write_json_faults(alloc, &mut buffer, lex, yacc, limits, fault)?;
            buffer.push(b",\"warnings\":[],\"conflicts\":[],\"suggestion\":null,\"omitted\":0}\n");
        }
        Form::Sarif => {
            buffer.push(RESULTS_BEGIN);
            write_sarif_faults(alloc, &mut buffer, lex, yacc, limits, fault)?;
            buffer.push(RESULTS_END);
        }
    }
    buffer.finish()
}

/// A lex file without rules, in place of a missing one.
const NO_RULES: &[u8] = b"%%\n";

/// Reports for a yacc file alone what `explain` reports for it, and nothing about a lex file. It is accepted if it is
/// accepted with a lex file without rules.
///
/// A limit above that of version 2 of the table file is lowered to it. Returns `OutOfMemory` if an allocation fails.
pub fn explain_grammar(
    alloc: Global,
    yacc: NamedFile<'_>,
    limits: &Limits,
    options: Options,
) -> Result<Explanation, OutOfMemory>
    ensures explained { IfOk result
        (IsExplained (least_of limits.now (sizes_in V2)) no_rules yacc.entry.bytes.now) }
    ensures form { IfOk result (λ e. IsInForm options.form e.findings e.text.items) }
{
    let options = Options {
        states: options.states,
        picture: options.picture,
        grammar_alone: true,
        form: options.form,
    };
    explain(alloc, NamedFile::new("", NO_RULES), yacc, limits, options)
}

/// The report of two files if they are accepted. Otherwise their error.
fn of_accepted(
    alloc: Global,
    lex: NamedFile<'_>,
    yacc: NamedFile<'_>,
    limits: &Limits,
    options: Options,
) -> Result<Explanation, GenFault>
    ensures formed { IfOk result (IsExplained limits.now lex.entry.bytes.now yacc.entry.bytes.now) }
    ensures form { IfOk result (λ e. IsInForm options.form e.findings e.text.items) }
    ensures refused { IfErr result (IsRefusedFor limits.now lex.entry.bytes.now yacc.entry.bytes.now) }
{
    let given = read_specification(alloc, lex.bytes, yacc.bytes, limits)?;
    let Specification {
        file,
        spec,
        subsets,
    } = given;
    let dfa = minimise(alloc, subsets)?;
    let read = Read {
        lex,
        yacc,
        file: &file,
        spec: &spec,
        dfa: &dfa,
    };
    let said = of_read(alloc, read, limits, options);
    drop(dfa);
    drop(spec);
    drop(file);
    said
}

/// The report of two files with a specification, if its tables can be made. Otherwise their error.
fn of_read(
    alloc: Global,
    read: Read<'_>,
    limits: &Limits,
    options: Options,
) -> Result<Explanation, GenFault>
    requires shapes { AreShapesWithin read.spec.now }
    requires order { IsBreadthFirst read.dfa.now }
    ensures fit { IfOk result (IsFitFor limits.now read.entry.spec.now) }
    ensures form { IfOk result (λ e. IsInForm options.form e.findings e.text.items) }
    ensures unfit { IfErr result (IsUnfitFor limits.now read.entry.spec.now) }
{
    let reduced = reduce(alloc, read.spec.grammar())?;
    let lr0 = automaton(alloc, &reduced, limits)?;
    of_automaton(alloc, read, &lr0, options)
}

/// The report of two files with an automaton, if its tables can be made. Otherwise their error.
fn of_automaton(
    alloc: Global,
    read: Read<'_>,
    lr0: &Lr0<'_>,
    options: Options,
) -> Result<Explanation, GenFault>
    requires shapes { AreShapesWithin read.spec.now }
    requires order { IsBreadthFirst read.dfa.now }
    requires lawful { parser.IsLr0Automaton lr0.now }
    requires useful { KeepsUseful read.spec.now.grammar lr0.now.grammar }
    ensures found { IfOk result (AreFoundIn read.entry.spec.now) }
    ensures form { IfOk result (λ e. IsInForm options.form e.findings e.text.items) }
    ensures steady { IfOk result (λ _. HasSteadyTables read.entry.spec.now lr0.now.grammar) }
    ensures unfit { IfErr result (λ fault. (limits : Sizes) → IsUnfitFor limits read.entry.spec.now fault) }
{
    let lookaheads = lookaheads(alloc, lr0)?;
    let resolved = resolve(alloc, read.spec, lr0, &lookaheads)?;
    let tables = parser_tables(alloc, &resolved)?;
    let told = told(alloc, read, &resolved, &lookaheads, &tables, options);
    drop(tables);
    drop(resolved);
    drop(lookaheads);
    Ok(told?)
}

/// The report of two accepted files.
fn told(
    alloc: Global,
    read: Read<'_>,
    resolved: &Resolved<'_>,
    lookaheads: &Lookaheads,
    tables: &Tables,
    options: Options,
) -> Result<Explanation, OutOfMemory>
    requires order { IsBreadthFirst read.dfa.now }
    requires same { resolved.now.spec ≡ read.spec.now }
    requires sets { AreLookaheads resolved.now.automaton lookaheads.now }
    ensures found { IfOk result (AreFoundIn read.entry.spec.now) }
    ensures form { IfOk result (λ e. IsInForm options.form e.findings e.text.items) }
{
    let indented = indented_lines(alloc, read.lex.bytes)?;
    let files = Analysis {
        lex: read.lex,
        yacc: read.yacc,
        file: read.file,
        spec: read.spec,
        dfa: read.dfa,
        resolved,
        lookaheads,
        indented: &indented,
    };
    survey(alloc, files, tables, options)
}
