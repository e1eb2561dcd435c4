//! The units of a rejected lex file that its lines belong to. Its lines needn't be valid.
ghost use Rattle.std.specs.Prelude.{◌≡◌, ◌≤◌, ◌+◌, ◌-◌, ◌⊎◌, [], false, min, true, IfSome};
ghost use Rattle.ly_diagnostics.specs.Lines.{ArePassed, IsKindOf, LinesBefore};
ghost use Rattle.ly_diagnostics.specs.declared.lex_units.Kind.TheVariants.{Mark};

use crate::location::{from_offset, is_newline, length_to_blank, line_length};
use crate::pieces::braces_length;
use ly_base::{after_comment, is_blank};
use ly_lexread::{LineKind, kind_of};

/// What the lines of a unit are.
#[derive(Clone, Copy, PartialEq, Eq)]
pub(crate) enum Kind {
    /// A line that begins with `%%`.
    Mark,
    /// A line that has no use.
    Unused,
    /// A block, from `%{` to `%}`.
    Block,
    /// A comment of the definitions.
    Comment,
    /// Another line of the definitions that begins with `%`.
    Directive,
    /// Any other line of the definitions.
    Definition,
    /// A rule.
    Rule,
}

/// Lines that belong together.
#[derive(Clone, Copy)]
pub(crate) struct Unit {
    /// What they are.
    pub(crate) kind: Kind,
    /// The number of the first line.
    pub(crate) first: u64,
    /// The number of the last line.
    pub(crate) last: u64,
    /// Whether they end with open braces.
    pub(crate) open: bool,
}

/// How many bytes of an action are searched for its closing brace.
const LONGEST: usize = 4096;

/// The unit of a line of a text. The line after a rule with open braces belongs to that rule.
pub(crate) fn unit_at(text: &[u8], line: u64) -> Unit {
    let mut units = Units::of(text);
    for _ in 0..=text.len() {
        let unit = units.front(first_line(units.rest));
        let last = unit.last.saturating_add(u64::from(unit.open));
        if line <= last || units.rest.is_empty() {
            return unit;
        }
        units.pass(unit);
    }
    units.front(b"")
}

/// The units of a text, one after another, without those that were passed.
#[derive(Clone, Copy)]
pub(crate) struct Units<'t> {
    /// The rest of the text.
    pub(crate) rest: &'t [u8],
    /// How many lines were passed.
    pub(crate) passed: u64,
    /// Whether a line that begins with `%%` was passed.
    pub(crate) in_rules: bool,
}

impl<'t> Units<'t> {
    /// All units of a text.
    pub(crate) fn of(text: &'t [u8]) -> Self
        ensures rest { result.rest ≡ text.entry }
        ensures passed { result.passed ≡ 0 }
        ensures in_rules { result.in_rules ≡ false }
    {
        Units {
            rest: text,
            passed: 0,
            in_rules: false,
        }
    }

    /// The units after the first line that begins with `%%`, if there is such a line and something after it.
    pub(crate) fn behind_mark(text: &'t [u8]) -> Option<Units<'t>>
        ensures { IfSome result (λ units. ArePassed text.now units × (units.in_rules ≡ true)) }
    {
        let mut units = Units::of(text);
        for _ in 0..text.len() {
            if units.in_rules {
                return Some(units);
            }
            let (line, _behind) = ly_lexread::first_line(units.rest)?;
            let unit = units.front(line);
            units.pass(unit);
        }
        None
    }

    /// The next unit. Its first line is given.
    pub(crate) fn front(&self, line: &[u8]) -> Unit
        ensures first { result.first ≡ min (self.now.passed + 1) 18446744073709551615 }
        ensures last { result.first ≤ result.last }
        ensures kind { IsKindOf line.now result.kind }
    {
        let first = self.passed.saturating_add(1);
        let kind = kind_in(line, self.in_rules);
        let (more, open) = match kind {
            Kind::Block => (lines_to_block_end(self.rest), false),
            Kind::Comment => (lines_to_comment_end(self.rest), false),
            Kind::Rule => lines_to_rule_end(self.rest),
            _ => (0, false),
        };
        Unit {
            kind,
            first,
            last: first.saturating_add(more),
            open,
        }
    }

    /// Passes the next unit.
    pub(crate) fn pass(&mut self, unit: Unit)
        ensures rest { (self.new.rest.now ≡ [])
            ⊎ LinesBefore (unit.last - self.old.passed) self.old.rest.now self.new.rest.now }
        ensures passed { self.new.passed ≡ unit.last }
        ensures in_rules { self.new.in_rules ≡ true → (self.old.in_rules ≡ true) ⊎ (unit.kind ≡ Mark) }
        ensures kept { self.old.in_rules ≡ true → self.new.in_rules ≡ true }
    {
        self.in_rules = self.in_rules || unit.kind == Kind::Mark;
        self.rest = behind_lines(self.rest, unit.last.saturating_sub(self.passed));
        self.passed = unit.last;
    }
}

/// What a line begins.
fn kind_in(line: &[u8], in_rules: bool) -> Kind
    ensures { IsKindOf line.now result }
{
    match kind_of(line) {
        LineKind::Unused => Kind::Unused,
        LineKind::Mark => Kind::Mark,
        LineKind::Block => Kind::Block,
        LineKind::Directive | LineKind::Comment | LineKind::Plain if in_rules => Kind::Rule,
        LineKind::Directive => Kind::Directive,
        LineKind::Comment => Kind::Comment,
        LineKind::Plain => Kind::Definition,
    }
}

/// The first line, without its newline.
pub(crate) fn first_line(text: &[u8]) -> &[u8] {
    text.get(..line_length(text)).unwrap_or(text)
}

/// The text after this many lines; empty if there are fewer.
fn behind_lines(text: &[u8], lines: u64) -> &[u8]
    ensures { (result.now ≡ []) ⊎ LinesBefore lines text.now result.now }
{
    let mut rest = text;
    for _ in 0..lines {
        match ly_lexread::first_line(rest) {
            Some((_line, behind)) => rest = behind,
            None => break,
        }
    }
    rest
}

/// How many more lines a block has after its first; 0 if it isn't closed.
fn lines_to_block_end(text: &[u8]) -> u64 {
    text.split(is_newline)
        .position(|line| line.starts_with(b"%}"))
        .unwrap_or(0) as u64
}

/// How many more lines a comment has after its first; 0 if it isn't closed.
fn lines_to_comment_end(text: &[u8]) -> u64 {
    match after_comment(from_offset(text, 2)) {
        Some(rest) => {
            let length = text.len().saturating_sub(rest.len());
            newlines(text.get(..length).unwrap_or_default())
        }
        None => 0,
    }
}

/// How many more lines a rule has after its first, and whether it ends with open braces. With open braces it ends
/// before the next line that begins neither with a blank nor with a `}`.
fn lines_to_rule_end(text: &[u8]) -> (u64, bool) {
    let line = first_line(text);
    let start = action_start(line);
    if !from_offset(line, start).starts_with(b"{") {
        return (0, false);
    }
    let action = from_offset(text, start);
    let front = action.get(..LONGEST).unwrap_or(action);
    match braces_length(front) {
        Some(length) => (newlines(front.get(..length).unwrap_or(front)), false),
        None => (lines_that_go_on(text), true),
    }
}

/// How many lines after the first begin with a blank or a `}`, up to the first that doesn't.
fn lines_that_go_on(text: &[u8]) -> u64 {
    let behind = from_offset(text, line_length(text).saturating_add(1));
    behind
        .split(is_newline)
        .take_while(|line| matches!(line.first(), Some(b' ' | b'\t' | b'}')))
        .count() as u64
}

/// The number of newlines.
fn newlines(text: &[u8]) -> u64 {
    text.iter().filter(|byte| **byte == b'\n').count() as u64
}

/// The length of the list of conditions before the pattern, on the line of a rule.
pub(crate) fn pattern_start(line: &[u8]) -> usize {
    if !line.starts_with(b"<") {
        return 0;
    }
    match line.iter().position(|byte| *byte == b'>') {
        Some(offset) => offset.saturating_add(1),
        None => 0,
    }
}

/// How many bytes precede the action on the line of a rule.
pub(crate) fn action_start(line: &[u8]) -> usize {
    let start = pattern_start(line);
    let body = from_offset(line, start);
    let behind = pattern_length(body);
    let blanks = leading_blanks(from_offset(body, behind));
    start.saturating_add(behind).saturating_add(blanks)
}

/// The number of leading blanks.
pub(crate) fn leading_blanks(line: &[u8]) -> usize {
    line.iter().take_while(|byte| is_blank(**byte)).count()
}

/// What a byte of a pattern is in.
#[derive(Clone, Copy, PartialEq, Eq)]
enum Inside {
    /// None of these.
    Nothing,
    /// A string.
    Quotes,
    /// A bracket expression.
    Brackets,
}

/// How many bytes precede the first blank outside strings, bracket expressions and escapes. If one of these isn't
/// closed, how many precede the first blank.
fn pattern_length(text: &[u8]) -> usize {
    let mut inside = Inside::Nothing;
    let mut escaped = false;
    for (at, byte) in text.iter().enumerate() {
        if inside == Inside::Nothing && !escaped && is_blank(*byte) {
            return at;
        }
        inside = match (inside, *byte) {
            _ if escaped => inside,
            (Inside::Nothing, b'"') => Inside::Quotes,
            (Inside::Nothing, b'[') => Inside::Brackets,
            (Inside::Quotes, b'"') | (Inside::Brackets, b']') => Inside::Nothing,
            _ => inside,
        };
        escaped = *byte == b'\\' && !escaped;
    }
    if inside == Inside::Nothing {
        return text.len();
    }
    length_to_blank(text)
}
