//! Two files that are accepted, and what is known of them.
ghost use Rattle.std.specs.Prelude.{◌≡◌, ◌++◌, take};
ghost use Rattle.std.specs.Fmt.{decimal};
ghost use Rattle.ly_text_buffer.specs.TextBuffer.{Says};

use ly_join::Spec;
use ly_lexread::LexFile;
use ly_lookahead::Lookaheads;
use ly_resolve::Resolved;
use ly_subset::Dfa;
use ly_text_buffer::{NamedFile, TextBuffer};

/// Options of the report.
#[derive(Clone, Copy, Debug, PartialEq, Eq)]
pub struct Options {
    /// Whether to add the states of the parser.
    pub states: bool,
    /// Whether to add the picture of the states.
    pub picture: bool,
    /// Whether to leave out the lex file, because there is none.
    pub grammar_alone: bool,
    /// The form of the report.
    pub form: Form,
}

/// The form of a report.
#[derive(Clone, Copy, Debug, PartialEq, Eq)]
pub enum Form {
    /// English text.
    Plain,
    /// An object of JSON.
    Json,
    /// A log of SARIF 2.1.0.
    Sarif,
}

/// Two accepted files, with their automata.
#[derive(Clone, Copy)]
pub struct Analysis<'a> {
    /// The lex file.
    pub lex: NamedFile<'a>,
    /// The yacc file.
    pub yacc: NamedFile<'a>,
    /// The parsed lex file.
    pub file: &'a LexFile,
    /// The specification that both files define.
    pub spec: &'a Spec,
    /// The minimal DFA.
    pub dfa: &'a Dfa,
    /// The parser's actions in each state, and the conflicts.
    pub resolved: &'a Resolved<'a>,
    /// The lookaheads of the complete rules in its states.
    pub lookaheads: &'a Lookaheads,
    /// The lines among the rules of the lex file that begin with a blank and aren't empty.
    pub indented: &'a [u64],
}

/// Prints a number, with text before and after it.
pub fn write_numbered(buffer: &mut TextBuffer, before: &[u8], number: u64, behind: &[u8])
    ensures { Says buffer.old (before.now ++ decimal number ++ behind.now) buffer.new }
{
    buffer.push(before);
    buffer.push_number(number);
    buffer.push(behind);
}

/// The first elements, at most `most`.
pub fn first_of<T>(things: &[T], most: usize) -> &[T]
    ensures { result.now ≡ take most things.now }
{
    things.get(..most).unwrap_or(things)
}
