ghost use Rattle.std.specs.Prelude.{◌≡◌, ◌≢◌, ◌≤◌, ℕ, List, Some, drop, length, take, IfOk, IfErr, IfSome, MatchBool};
ghost use Rattle.std.specs.Prelude.{MatchOption};
ghost use Rattle.ly_base.specs.Gap.{Gap};
ghost use Rattle.ly_base.specs.declared.language.Language.TheVariants.{Lex};
ghost use Rattle.ly_lexread.specs.Action.{Effect, Saying, effect_of, meaning_of, no_effect, nothing, own};
ghost use Rattle.ly_lexread.specs.Faults.{IsAtMost, IsTooHeavy};
ghost use Rattle.ly_lexread.specs.Private.Statements.{saying_of, statement_of, value_meaning};
ghost use Rattle.ly_lexread.specs.Statements.{HasEffect, LineEnds, SaysAction, Statements};
ghost use Rattle.ly_lexread.specs.declared.action_fault.ActionFault.TheVariants as refusal;
ghost use Rattle.ly_lexread.specs.declared.fault.LexFault.TheVariants.{OutOfMemory};
ghost use Rattle.ly_lexread.specs.declared.statement.Extent.TheVariants.{Braces};

use crate::action_fault::ActionFault;
use crate::conditions::Conditions;
use crate::fault::{LexFault, LexFaultKind};
use crate::rest::{Line, Rest, behind_newline, line_length};
use crate::statement::{Extent, Statement, Value, read_statement};
use crate::words::next_word;
use ly_base::{Language, after_gap};
use std::alloc::{AllocError, Global};
use std::rc::RcSlice;

/// What a rule's action does.
#[derive(Drop)]
pub struct LexAction {
    /// The start condition to set, if any.
    pub begin: Option<u32>,
    /// The token that it returns.
    pub returns: Returned,
}

/// The token that an action returns, as it is written.
#[derive(Drop)]
pub enum Returned {
    /// None: the match is skipped.
    Nothing,
    /// The token with this name. Rules with the same action share the name.
    Token(RcSlice<u8>),
    /// The literal of this byte.
    Literal(u8),
    /// The literal of the first matched byte.
    FirstByte,
}

/// The action of a rule, as it is written.
#[derive(Drop)]
pub(crate) enum Said {
    /// The rule has this action.
    Own(LexAction),
    /// The rule has the action of the next rule, written `|`. The number is that of the bytes of the file from the `|`
    /// on.
    Next(usize),
}

impl Returned {
    /// Whether no token is returned.
    fn is_nothing(&self) -> bool
        ensures { MatchBool result (meaning_of self.now ≡ nothing) (meaning_of self.now ≢ nothing) }
    {
        matches!(self, Returned::Nothing)
    }

    /// Returns a copy that shares the name.
    fn share(&self) -> Result<Returned, AllocError>
        ensures { IfOk result (λ returned. meaning_of returned ≡ meaning_of self.now) }
    {
        match self {
            Returned::Nothing => Ok(Returned::Nothing),
            Returned::Token(name) => Ok(Returned::Token(name.clone()?)),
            Returned::Literal(byte) => Ok(Returned::Literal(*byte)),
            Returned::FirstByte => Ok(Returned::FirstByte),
        }
    }
}

impl Value<'_> {
    /// Returns the token with a name of its own.
    fn returned(self, alloc: Global) -> Result<Returned, AllocError>
        ensures { IfOk result (λ returned. meaning_of returned ≡ value_meaning self.entry) }
    {
        match self {
            Value::Name(name) => Ok(Returned::Token(RcSlice::from_slice(alloc, name)?)),
            Value::Byte(byte) => Ok(Returned::Literal(byte)),
            Value::TextByte => Ok(Returned::FirstByte),
        }
    }
}

impl LexAction {
    /// Returns the action of a rule whose matches are skipped.
    fn none() -> LexAction
        ensures { effect_of result ≡ no_effect }
    {
        LexAction {
            begin: None,
            returns: Returned::Nothing,
        }
    }

    /// Returns a copy that shares the name of the token.
    pub(crate) fn share(&self) -> Result<LexAction, AllocError>
        ensures { IfOk result (λ action. effect_of action ≡ effect_of self.now) }
    {
        Ok(LexAction {
            begin: self.begin,
            returns: self.returns.share()?,
        })
    }

    /// Adds a statement to the action. `None` if the statement isn't allowed after those before it.
    fn with(self, alloc: Global, statement: Statement<'_>) -> Result<Option<LexAction>, AllocError>
        ensures { IfOk result (λ made. MatchOption made
            ((e : Effect) → HasEffect (effect_of self) (statement_of statement.entry) e → ⊥)
            (λ action. HasEffect (effect_of self) (statement_of statement.entry) (effect_of action))) }
    {
        match statement {
            Statement::Ends => Ok(None),
            Statement::Empty => Ok(Some(self)),
            Statement::Begins(condition) => Ok(self.with_begin(condition)),
            Statement::Returns(value) => self.with_return(alloc, value),
        }
    }

    /// Adds a condition to set, if the action did nothing so far.
    fn with_begin(self, condition: u32) -> Option<LexAction>
        ensures { MatchOption result (effect_of self ≢ no_effect)
            (λ action. (effect_of self ≡ no_effect)
            × (effect_of action ≡ record { begin = Some condition; returns = nothing })) }
    {
        if self.begin.is_some() || !self.returns.is_nothing() {
            return None;
        }
        Some(LexAction {
            begin: Some(condition),
            returns: Returned::Nothing,
        })
    }

    /// Adds a token to return, if the action returned none so far.
    fn with_return(self, alloc: Global, value: Value<'_>) -> Result<Option<LexAction>, AllocError>
        ensures { IfOk result (λ made. MatchOption made ((effect_of self).returns ≢ nothing)
            (λ action. ((effect_of self).returns ≡ nothing)
            × (effect_of action ≡ record { begin = self.begin; returns = value_meaning value.entry }))) }
    {
        if !self.returns.is_nothing() {
            return Ok(None);
        }
        let returns = value.returned(alloc)?;
        Ok(Some(LexAction {
            begin: self.begin,
            returns,
        }))
    }
}

/// Reads the action at the start of a text (POSIX, XCU lex, "Actions in lex"). The first `on_line` bytes are on its
/// line. An action consists of statements, of `|`, or of statements in braces, which may span lines. Returns the action
/// and what follows its last line.
pub(crate) fn read_action<'t>(
    alloc: Global,
    text: Rest<'t>,
    on_line: usize,
    conditions: &Conditions,
) -> Result<(Said, Rest<'t>), LexFault>
    requires { on_line ≤ length text.bytes.now }
    ensures ok { IfOk result (λ read. SaysAction conditions.now (take on_line text.entry.bytes.now)
        (drop on_line text.entry.bytes.now) (saying_of read.0) read.1.bytes.now) }
    ensures light { IfErr result (λ fault. IsTooHeavy fault → ⊥) }
    ensures refused { IfErr result (λ fault. fault ≢ OutOfMemory → (s : Saying) (rest : List ℕ)
        → SaysAction conditions.now
        (take on_line text.entry.bytes.now) (drop on_line text.entry.bytes.now) s rest → ⊥) }
    ensures whole { IfOk result (λ read. read.1.whole ≡ text.entry.whole) }
    ensures within { IfErr result (IsAtMost text.entry.whole) }
{
    let (line, end) = text.bytes.split_at(on_line);
    let (word, inside) = next_word(line, Language::Lex);
    if word.is(b'{') {
        let (_front, bytes) = text.bytes.split_at(line.len() - inside.len());
        return read_braced(alloc, Rest { bytes, ..text }, conditions);
    }
    let behind = Rest {
        bytes: behind_newline(end),
        ..text
    };
    let here = Line { bytes: line, text };
    if word.is(b'|') {
        if !is_gap(inside) {
            return Err(here.fault(LexFaultKind::BadAction, after_gap(inside, Language::Lex)));
        }
        let left = here.left_from(inside).saturating_add(1);
        return Ok((Said::Next(left), behind));
    }
    match read_statements(alloc, line, Extent::Line, conditions) {
        Ok((action, _rest)) => Ok((Said::Own(action), behind)),
        Err(fault) => Err(fault.on_line(here)),
    }
}

/// Reads statements up to a `}`. The line has to end after it.
fn read_braced<'t>(
    alloc: Global,
    text: Rest<'t>,
    conditions: &Conditions,
) -> Result<(Said, Rest<'t>), LexFault>
    ensures ok { IfOk result (λ read. (e : Effect) × ((behind : List ℕ) × (saying_of read.0 ≡ own e)
        × Statements conditions.now Braces no_effect text.entry.bytes.now e behind
        × LineEnds behind read.1.bytes.now)) }
    ensures light { IfErr result (λ fault. IsTooHeavy fault → ⊥) }
    ensures refused { IfErr result (λ fault. fault ≢ OutOfMemory → (e : Effect) (behind rest : List ℕ)
        → Statements conditions.now Braces no_effect text.entry.bytes.now e behind → LineEnds behind rest → ⊥) }
    ensures whole { IfOk result (λ read. read.1.whole ≡ text.entry.whole) }
    ensures within { IfErr result (IsAtMost text.entry.whole) }
{
    let (action, behind) = match read_statements(alloc, text.bytes, Extent::Braces, conditions) {
        Ok(read) => read,
        Err(fault) => return Err(fault.in_braces(text)),
    };
    match behind_gap_line(behind) {
        Some(bytes) => Ok((Said::Own(action), Rest { bytes, ..text })),
        None => Err(ActionFault::Word(behind).in_braces(text)),
    }
}

/// Reads statements to their end. Returns what follows them.
fn read_statements<'t>(
    alloc: Global,
    text: &'t [u8],
    extent: Extent,
    conditions: &Conditions,
) -> Result<(LexAction, &'t [u8]), ActionFault<'t>>
    ensures ok { IfOk result (λ read. Statements conditions.now extent no_effect text.now
        (effect_of read.0) read.1.now) }
    ensures refused { IfErr result (λ fault. fault ≢ refusal.OutOfMemory → (e : Effect) (rest : List ℕ)
        → Statements conditions.now extent no_effect text.now e rest → ⊥) }
{
    let mut action = LexAction::none();
    let mut left = text;
    loop {
        let (statement, behind) = read_statement(left, extent, conditions)?;
        if statement.is_end() {
            return Ok((action, behind));
        }
        let Some(longer) = action.with(alloc, statement)? else {
            return Err(ActionFault::Word(left));
        };
        action = longer;
        left = behind;
    }
}

/// Returns what follows the first line, if that has only whitespace and comments.
fn behind_gap_line(text: &[u8]) -> Option<&[u8]>
    ensures { MatchOption result ((rest : List ℕ) → LineEnds text.now rest → ⊥) (λ rest. LineEnds text.now rest.now) }
{
    let (line, end) = text.split_at(line_length(text));
    is_gap(line).then_some(behind_newline(end))
}

/// Whether the text consists of blanks and comments.
fn is_gap(text: &[u8]) -> bool
    ensures { MatchBool result (Gap Lex text.now) (Gap Lex text.now → ⊥) }
{
    let (word, _rest) = next_word(text, Language::Lex);
    word.is_end()
}
