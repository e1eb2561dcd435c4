ghost use Rattle.std.specs.Prelude.{◌≡◌, ◌≢◌, ◌<◌, ◌≤◌, ℕ, List, length, IfOk, MatchBool, MatchOption, MatchResult};
ghost use Rattle.ly_lexread.specs.Private.Statements.{EndsBy, statement_of, value_meaning};
ghost use Rattle.ly_lexread.specs.Private.Words.{word_of};
ghost use Rattle.ly_lexread.specs.Action.{Meaning};
ghost use Rattle.ly_lexread.specs.Statements.{gaps, Closed, Given, NamesCondition, Opens, StandsFor, StatementFirst};
ghost use Rattle.ly_lexread.specs.Statements.{Statement as SaidStatement};
ghost use Rattle.ly_lexread.specs.Words.{HasInFront, Word, mark as mark_word};
ghost use Rattle.ly_lexread.specs.declared.statement.Statement.TheVariants.{Ends};

use crate::action_fault::ActionFault;
use crate::conditions::Conditions;
use crate::words::{NextWord, next_word};
use ly_base::Language;

/// Where the statements of an action end.
#[derive(Clone, Copy)]
pub(crate) enum Extent {
    /// At the end of their line.
    Line,
    /// At a `}`, perhaps on a later line.
    Braces,
}

impl Extent {
    /// The language whose whitespace separates the words. In braces it is that of yacc, which includes newlines.
    pub(crate) fn gaps(self) -> Language
        ensures { result ≡ gaps self }
    {
        match self {
            Extent::Line => Language::Lex,
            Extent::Braces => Language::Yacc,
        }
    }

    /// Whether the statements end at this word.
    fn is_ended_by(self, word: NextWord<'_>) -> bool
        ensures { MatchBool result (EndsBy self word.entry) (EndsBy self word.entry → ⊥) }
    {
        match self {
            Extent::Line => word.is_end(),
            Extent::Braces => word.is(b'}'),
        }
    }
}

/// A statement, or the end of the statements.
#[derive(Clone, Copy)]
pub(crate) enum Statement<'t> {
    /// The end.
    Ends,
    /// `;` alone.
    Empty,
    /// `BEGIN` and a condition.
    Begins(u32),
    /// `return` and a token.
    Returns(Value<'t>),
}

impl Statement<'_> {
    /// Whether it is the end.
    pub(crate) fn is_end(&self) -> bool
        ensures { MatchBool result (self.now ≡ Ends) (self.now ≢ Ends) }
    {
        matches!(self, Statement::Ends)
    }
}

/// The token that an action returns.
#[derive(Clone, Copy)]
pub(crate) enum Value<'t> {
    /// The token of this name.
    Name(&'t [u8]),
    /// The literal of this byte.
    Byte(u8),
    /// The literal of the first byte of the text.
    TextByte,
}

/// Reads the statement at the start, or the end of the statements. Returns what follows it.
pub(crate) fn read_statement<'t>(
    text: &'t [u8],
    extent: Extent,
    conditions: &Conditions,
) -> Result<(Statement<'t>, &'t [u8]), ActionFault<'t>>
    ensures these { MatchResult result
        (λ found. StatementFirst conditions.now extent text.now (statement_of found.0) found.1.now)
        (λ _. (s : SaidStatement) (rest : List ℕ) → StatementFirst conditions.now extent text.now s rest → ⊥) }
    ensures shorter { IfOk result (λ found. found.0 ≢ Ends → length found.1.now < length text.now) }
{
    let spaces = extent.gaps();
    let (word, rest) = next_word(text, spaces);
    if extent.is_ended_by(word) {
        return Ok((Statement::Ends, rest));
    }
    if word.is(b';') {
        return Ok((Statement::Empty, rest));
    }
    if word.is_name(b"BEGIN") {
        let (condition, behind) = read_condition(rest, spaces, conditions)?;
        return Ok((Statement::Begins(condition), behind));
    }
    if word.is_name(b"return") {
        let (value, behind) = read_value(rest, spaces)?;
        return Ok((Statement::Returns(value), behind));
    }
    Err(ActionFault::Word(text))
}

/// Reads what follows `BEGIN`: a condition, perhaps in parentheses, and a `;`.
fn read_condition<'t>(
    text: &'t [u8],
    gaps: Language,
    conditions: &Conditions,
) -> Result<(u32, &'t [u8]), ActionFault<'t>>
    ensures these { MatchResult result
        (λ found. (x : Word) × Given gaps text.now x found.1.now × NamesCondition conditions.now x found.0)
        (λ _. (x : Word) (rest : List ℕ) (n : ℕ) → Given gaps text.now x rest → NamesCondition conditions.now x n → ⊥) }
    ensures shorter { IfOk result (λ found. length found.1.now < length text.now) }
{
    let (is_open, inside) = open(text, gaps);
    let (word, behind) = next_word(inside, gaps);
    let Some(condition) = named_condition(word, conditions) else {
        return Err(no_condition(word, inside));
    };
    let rest = close(behind, is_open, gaps)?;
    Ok((condition, rest))
}

/// Reads what follows `return`: a token, perhaps in parentheses, and a `;`.
fn read_value<'t>(text: &'t [u8], gaps: Language) -> Result<(Value<'t>, &'t [u8]), ActionFault<'t>>
    ensures these { MatchResult result
        (λ found. (x : Word) × Given gaps text.now x found.1.now × StandsFor x (value_meaning found.0))
        (λ _. (x : Word) (rest : List ℕ) (m : Meaning) → Given gaps text.now x rest → StandsFor x m → ⊥) }
    ensures shorter { IfOk result (λ found. length found.1.now < length text.now) }
{
    let (is_open, inside) = open(text, gaps);
    let (word, behind) = next_word(inside, gaps);
    let Some(value) = value_of(word) else {
        return Err(ActionFault::Word(inside));
    };
    let rest = close(behind, is_open, gaps)?;
    Ok((value, rest))
}

/// Skips a `(` at the start, if there is one. Returns whether there is one, and what follows.
fn open(text: &[u8], gaps: Language) -> (bool, &[u8])
    ensures these { Opens gaps text.now result.0 result.1.now }
    ensures within { length result.1.now ≤ length text.now }
{
    let (word, inside) = next_word(text, gaps);
    if word.is(b'(') {
        (true, inside)
    } else {
        (false, text)
    }
}

/// Skips the closing `)`, if one was opened, and a `;`. Returns what follows.
fn close<'t>(text: &'t [u8], is_open: bool, gaps: Language) -> Result<&'t [u8], ActionFault<'t>>
    ensures these { MatchResult result (λ rest. Closed gaps is_open text.now rest.now)
        (λ _. (rest : List ℕ) → Closed gaps is_open text.now rest → ⊥) }
    ensures within { IfOk result (λ rest. length rest.now ≤ length text.now) }
{
    if !is_open {
        return behind_mark(text, b';', gaps);
    }
    let behind = behind_mark(text, b')', gaps)?;
    behind_mark(behind, b';', gaps)
}

/// Skips this mark, which has to come first. Returns what follows.
fn behind_mark<'t>(text: &'t [u8], mark: u8, gaps: Language) -> Result<&'t [u8], ActionFault<'t>>
    requires { 0 < mark }
    ensures these { MatchResult result (λ rest. HasInFront gaps text.now (mark_word mark) rest.now)
        (λ _. (rest : List ℕ) → HasInFront gaps text.now (mark_word mark) rest → ⊥) }
    ensures within { IfOk result (λ rest. length rest.now ≤ length text.now) }
{
    let (word, rest) = next_word(text, gaps);
    if word.is(mark) {
        Ok(rest)
    } else {
        Err(ActionFault::Word(text))
    }
}

/// The number of the condition with this name.
fn named_condition(word: NextWord<'_>, conditions: &Conditions) -> Option<u32>
    ensures { MatchOption result ((n : ℕ) → NamesCondition conditions.now (word_of word.entry) n → ⊥)
        (λ n. NamesCondition conditions.now (word_of word.entry) n) }
{
    match word {
        NextWord::Mark(b'0') => Some(0),
        NextWord::Name(name) => conditions.find(name),
        _ => None,
    }
}

/// The error of a word at the start of `text` that isn't a declared condition.
fn no_condition<'t>(word: NextWord<'_>, text: &'t [u8]) -> ActionFault<'t> {
    match word {
        NextWord::Name(_) => ActionFault::Condition(text),
        _ => ActionFault::Word(text),
    }
}

/// The token that a word denotes.
fn value_of(word: NextWord<'_>) -> Option<Value<'_>>
    ensures { MatchOption result ((m : Meaning) → StandsFor (word_of word.entry) m → ⊥)
        (λ value. StandsFor (word_of word.entry) (value_meaning value)) }
{
    match word {
        NextWord::Name(name) => Some(Value::Name(name)),
        NextWord::Literal(byte) => Some(Value::Byte(byte)),
        NextWord::TextByte => Some(Value::TextByte),
        _ => None,
    }
}
