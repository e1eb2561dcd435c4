//! Warnings as text, and their names.
ghost use Rattle.ly_text_buffer.specs.TextBuffer.{SaysMore};

use crate::lint::{Hiding, Lint, LintKind, Side, Uselessness};
use crate::pattern_lint_messages::write_pattern_lint;
use crate::patterns::PatternLint;
use ly_analysis::{Analysis, body_of, first_of, write_numbered};
use ly_base::locate;
use ly_join::{Grammar, Symbol};
use ly_text_buffer::{NamedFile, TextBuffer};
use ly_yaccread::SymbolName;

/// The greatest number of rules that are named as the reason why another one never matches.
const NAMED: usize = 5;

/// The greatest number of warnings of a file whose source lines are shown.
const SHOWN: usize = 20;

/// The file of a side.
pub fn file_of<'a>(files: &Analysis<'a>, side: Side) -> NamedFile<'a> {
    match side {
        Side::Lex => files.lex,
        Side::Yacc => files.yacc,
    }
}

/// Prints warnings, each on a line. The source lines of the first ones of each file follow them, with a caret.
pub fn write_lints(buffer: &mut TextBuffer, files: &Analysis<'_>, lints: &[Lint<'_>])
    ensures { SaysMore buffer.old buffer.new }
{
    let mut page = buffer.beside();
    write_page(&mut page, files, lints);
    buffer.push_buffer(page);
}

/// Prints warnings on a page of their own.
fn write_page(buffer: &mut TextBuffer, files: &Analysis<'_>, lints: &[Lint<'_>]) {
    let (mut lex, mut yacc) = (0, 0);
    for lint in lints {
        let count: &mut usize = match lint.side {
            Side::Lex => &mut lex,
            Side::Yacc => &mut yacc,
        };
        write_lint(buffer, files, lint, *count < SHOWN);
        *count = count.saturating_add(1);
    }
}

/// Prints a warning on a line: the file, the location, `warning: `, and the message. If the source line is to be shown
/// it follows. That of a pattern always does.
fn write_lint(buffer: &mut TextBuffer, files: &Analysis<'_>, lint: &Lint<'_>, is_shown: bool) {
    let file = file_of(files, lint.side);
    match lint.at {
        Some(at) => buffer.push_location_in(file, at),
        None => {
            buffer.push(file.name.as_bytes());
            buffer.push(b": ");
        }
    }
    buffer.push(b"warning: ");
    write_kind(buffer, files, &lint.kind);
    buffer.push(b"\n");
    if let LintKind::PatternLint { line, offset, .. } = &lint.kind {
        // Only this line is passed, so that it isn't searched from the start of the file.
        buffer.push_excerpt(NamedFile::new(file.name, line), locate(line, *offset));
    } else if let (Some(at), true) = (lint.at, is_shown) {
        buffer.push_excerpt(file, at);
    }
}

/// Prints the message of a warning.
pub fn write_kind(buffer: &mut TextBuffer, files: &Analysis<'_>, kind: &LintKind<'_>) {
    match kind {
        LintKind::UnsetCondition(name) => write_about(
            buffer,
            b"no action enters the start condition ",
            name,
        ),
        LintKind::IdleCondition(name) => {
            write_about(buffer, b"no rule is active in the start condition ", name)
        }
        LintKind::EndlessCondition(name) => write_about(
            buffer,
            b"no rule that is active in it leaves the start condition ",
            name,
        ),
        LintKind::UnusedDefinition(name) => {
            write_about(buffer, b"no rule uses the definition ", name)
        }
        LintKind::PatternLint { pattern_lint, .. } => write_pattern_lint(buffer, *pattern_lint),
        LintKind::IndentedLine => {
            buffer.push(b"this line begins with a blank, so it isn't a rule and is ignored")
        }
        LintKind::UnmatchedRule(hiding) => write_hiding(buffer, hiding),
        LintKind::UnnamedLiteral(byte) => {
            buffer.push_byte(*byte);
            buffer.push(b" is returned, and ");
            buffer.push(files.yacc.name.as_bytes());
            buffer.push(b" doesn't name it");
        }
        LintKind::UselessRule(..)
        | LintKind::UnreducedRule(_)
        | LintKind::LosingRule(_)
        | LintKind::IdlePrec(_) => write_of_rule(buffer, files, kind),
        _ => write_of_terminal(buffer, files, kind),
    }
}

/// Prints words and then a name.
fn write_about(buffer: &mut TextBuffer, words: &[u8], name: &[u8]) {
    buffer.push(words);
    buffer.push(name);
}

/// Prints the message of a warning about a rule of the grammar.
fn write_of_rule(buffer: &mut TextBuffer, files: &Analysis<'_>, kind: &LintKind<'_>) {
    match kind {
        LintKind::UselessRule(rule, reason) => {
            write_numbered(buffer, b"rule ", *rule as u64, b" is useless: ");
            write_uselessness(buffer, files, *reason);
        }
        LintKind::UnreducedRule(rule) => {
            let words = if is_roundabout(files.spec.grammar(), *rule) {
                b" is never reduced, and useless: its body is only its own left side".as_slice()
            } else {
                b" is never reduced: it loses every conflict"
            };
            write_numbered(buffer, b"rule ", *rule as u64, words);
        }
        LintKind::LosingRule(rule) => {
            let words = b" has no action: its tree is that of its first symbol, ";
            write_numbered(buffer, b"rule ", *rule as u64, words);
            if let Some(first) = body_of(files.spec.grammar(), *rule).first() {
                buffer.push_symbol(files.spec, *first);
            }
            buffer.push(b", alone");
        }
        LintKind::IdlePrec(rule) => {
            write_numbered(
                buffer,
                b"the %prec of rule ",
                *rule as u64,
                b" has no effect",
            );
        }
        _ => {}
    }
}

/// Prints why a rule is useless.
fn write_uselessness(buffer: &mut TextBuffer, files: &Analysis<'_>, reason: Uselessness) {
    match reason {
        Uselessness::DerivesNothing(number) => {
            buffer.push_symbol(files.spec, Symbol::Nonterminal(number));
            buffer.push(b" derives no string of tokens");
        }
        Uselessness::Unreached(number) => {
            buffer.push(b"the start symbol never leads to ");
            buffer.push_symbol(files.spec, Symbol::Nonterminal(number));
        }
    }
}

/// Whether the body of a rule consists of its left side alone.
fn is_roundabout(grammar: &Grammar, rule: usize) -> bool {
    match (grammar.rules().get(rule), body_of(grammar, rule)) {
        (Some(rule), [Symbol::Nonterminal(only)]) => rule.left() == *only,
        _ => false,
    }
}

/// Prints the message of a warning about a terminal, or about the number of further ones.
fn write_of_terminal(buffer: &mut TextBuffer, files: &Analysis<'_>, kind: &LintKind<'_>) {
    let spec = files.spec;
    match kind {
        LintKind::UnusedTerminal(terminal) => {
            buffer.push_terminal(spec, *terminal);
            buffer.push(b" is used in no rule");
        }
        LintKind::MoreUnused(count) => {
            let (one, many) = (
                b"more terminal is used in no rule",
                b"more terminals are used in no rule",
            );
            buffer.push_count(*count, one, many);
        }
        LintKind::UnreturnedTerminal(terminal) => {
            buffer.push_terminal(spec, *terminal);
            buffer.push(b" is never returned by ");
            buffer.push(files.lex.name.as_bytes());
        }
        LintKind::MoreUnreturned(count) => {
            let (one, many) = (
                b"more terminal is never returned",
                b"more terminals are never returned",
            );
            buffer.push_count(*count, one, many);
        }
        LintKind::DeclaredAgain { symbol, first } => {
            match symbol {
                SymbolName::Name(name) => buffer.push(name),
                SymbolName::Literal(byte) => buffer.push_byte(*byte),
            }
            write_numbered(buffer, b" is already declared on line ", first.line, b"");
        }
        LintKind::IdlePrecedence(terminal) => {
            buffer.push(b"the precedence of ");
            buffer.push_terminal(spec, *terminal);
            buffer.push(b" has no effect");
        }
        _ => {}
    }
}

/// Prints why a rule of the lex file never matches.
fn write_hiding(buffer: &mut TextBuffer, hiding: &Hiding) {
    buffer.push(b"this rule never matches: ");
    match hiding {
        Hiding::Earlier => buffer.push(b"earlier rules match all its strings"),
        Hiding::EmptyAlone => {
            buffer.push(b"its only string is the empty one, and no match is empty");
        }
        Hiding::Lines(lines) => write_rules(buffer, lines),
    }
}

/// Prints the lines of the rules that match all strings of another rule.
fn write_rules(buffer: &mut TextBuffer, lines: &[u64]) {
    let count = lines.len();
    buffer.push(if count == 1 {
        b"the rule on line".as_slice()
    } else {
        b"the rules on lines"
    });
    for (place, line) in first_of(lines, NAMED).iter().enumerate() {
        let last = place.saturating_add(1) == count;
        buffer.push(if place == 0 {
            b" ".as_slice()
        } else if last {
            b" and "
        } else {
            b", "
        });
        buffer.push_number(*line);
    }
    if count > NAMED {
        write_numbered(buffer, b" and ", (count - NAMED) as u64, b" more");
    }
    buffer.push(if count == 1 {
        b" matches all its strings".as_slice()
    } else {
        b" match all its strings"
    });
}

/// The name of a warning. Names never change.
pub fn name_of(kind: &LintKind<'_>) -> &'static [u8] {
    match kind {
        LintKind::UnsetCondition(_) => b"UnsetCondition",
        LintKind::IdleCondition(_) => b"IdleCondition",
        LintKind::EndlessCondition(_) => b"EndlessCondition",
        LintKind::UnusedDefinition(_) => b"UnusedDefinition",
        LintKind::PatternLint { pattern_lint, .. } => name_of_pattern_lint(*pattern_lint),
        LintKind::IndentedLine => b"IndentedLine",
        LintKind::UnmatchedRule(_) => b"UnmatchedRule",
        LintKind::UnnamedLiteral(_) => b"UnnamedLiteral",
        LintKind::UselessRule(..) => b"UselessRule",
        LintKind::UnreducedRule(_) => b"UnreducedRule",
        LintKind::LosingRule(_) => b"LosingRule",
        LintKind::UnusedTerminal(_) | LintKind::MoreUnused(_) => b"UnusedTerminal",
        LintKind::UnreturnedTerminal(_) | LintKind::MoreUnreturned(_) => b"UnreturnedTerminal",
        LintKind::DeclaredAgain { .. } => b"DeclaredAgain",
        LintKind::IdlePrecedence(_) => b"IdlePrecedence",
        LintKind::IdlePrec(_) => b"IdlePrec",
    }
}

/// The name of a warning about a pattern.
fn name_of_pattern_lint(pattern_lint: PatternLint) -> &'static [u8] {
    match pattern_lint {
        PatternLint::Letter(_) => b"EscapedLetter",
        PatternLint::Backspace => b"EscapedBackspace",
        PatternLint::Braces => b"EscapedBraces",
        PatternLint::Unicode => b"EscapedUnicode",
        PatternLint::WordEdge(_) => b"EscapedWordEdge",
        PatternLint::Reluctant => b"ReluctantOperator",
        PatternLint::ManyBytes => b"CharacterInBrackets",
        PatternLint::Interval => b"IntervalOfAll",
        PatternLint::LineEnd => b"NewlineBehind",
        PatternLint::EndOfFile => b"EndOfFile",
        PatternLint::SingleQuotes => b"SingleQuotes",
        PatternLint::BareName => b"BareName",
        PatternLint::BareClass => b"BareClass",
        PatternLint::MixedRange => b"MixedRange",
        PatternLint::Invisible => b"InvisibleCharacter",
    }
}
