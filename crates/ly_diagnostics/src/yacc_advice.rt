//! Suggestions for the errors of a yacc file.
use crate::advice::Advice;
use crate::nearest::nearest;
use crate::yacc_before::Before;
use crate::yacc_units::begins_rule;
use ly_base::{Language, OutOfMemory, after_gap, leading_name};
use ly_yaccread::YaccFaultKind;
use std::alloc::Global;

/// The suggestion for an error, by the text at its offset and before it.
pub(crate) fn yacc_advice(
    alloc: Global,
    before: &Before,
    kind: YaccFaultKind,
    rest: &[u8],
) -> Result<Advice, OutOfMemory> {
    if rest.starts_with(b"//") {
        return Ok(Advice::Words("comments are written `/* .. */`"));
    }
    if let (YaccFaultKind::BadDeclaration, Some(name)) = (kind, unknown_directive(rest))
        && let Some(near) = nearest(alloc, name, &NEAR)?
    {
        return Ok(Advice::Near([b"%", near].concat(alloc)?));
    }
    Ok(Advice::Words(match kind {
        YaccFaultKind::NoRulesMark => "write a line `%%` before the first rule",
        YaccFaultKind::BadDeclaration => declaration_advice(before, rest),
        YaccFaultKind::BadRule => rule_advice(before, rest),
        YaccFaultKind::BadLiteral => literal_advice(rest),
        YaccFaultKind::BadAction => action_advice(before, rest),
        YaccFaultKind::DollarRange => dollar_advice(rest),
        YaccFaultKind::DollarTwice => "use each `$` once: a subtree has one place in the tree",
        YaccFaultKind::ErrorToken => { "there is no error recovery: remove the body with `error`" }
        YaccFaultKind::MidRuleAction => {
            "an action must end its body: move the symbols before it to a rule of their own"
        }
        YaccFaultKind::UnclosedComment => unclosed_advice(rest),
    }))
}

/// The suggestion for a number that no symbol of the body has.
fn dollar_advice(rest: &[u8]) -> &'static str {
    if rest.starts_with(b"0") {
        "there is no `$0`: `$1` is the first symbol of the body"
    } else {
        "`$1` is the first symbol of the body, which has fewer symbols than that"
    }
}

/// The name of the directive at the start, if it is unknown.
fn unknown_directive(rest: &[u8]) -> Option<&[u8]> {
    let (name, _) = leading_name(rest.strip_prefix(b"%")?, Language::Yacc)?;
    let known = DECLARING.contains(&name)
        || DIRECTIVES.iter().any(|(directive, _)| *directive == name);
    if known { None } else { Some(name) }
}

/// The suggestion for an invalid literal.
fn literal_advice(rest: &[u8]) -> &'static str {
    let line = rest.split(|byte| *byte == b'\n').next().unwrap_or(rest);
    let inside = line.get(1..).unwrap_or_default();
    if inside.starts_with(b"\\0") || inside.starts_with(b"\\x0") || inside.starts_with(b"\0") {
        return "byte 0 can't be a literal, since 0 is the end of the input: return a named token for it";
    }
    if !inside.contains(&b'\'') {
        return "the quote isn't closed: a literal is one byte in single quotes, as in `'+'`";
    }
    if inside.starts_with(b"''") {
        return "write `'\\''` for the literal of a single quote";
    }
    if inside.starts_with(b"'") {
        return "a literal has one byte between its quotes, as in `'+'`";
    }
    "a literal is one byte in single quotes, as in `'+'`: give a longer token a name"
}

/// The suggestion for what isn't allowed in the declarations.
fn declaration_advice(before: &Before, rest: &[u8]) -> &'static str {
    if begins_rule(rest) {
        return "write a line `%%` before the first rule";
    }
    match rest.first() {
        Some(b'%') => directive_advice(before, rest),
        Some(b'"') =>
            "tokens have no string aliases: remove the string, and use the token's name in the rules",
        Some(b',') => "separate symbols by blanks, not commas",
        Some(b';') => "a declaration has no `;` at its end",
        Some(0x80..=0xFF) => OTHER_BYTE,
        _ =>
            "a declaration is `%token`, `%left`, `%right`, `%nonassoc` or `%type` and symbols, or `%start` and a name",
    }
}

/// Directives whose declarations name symbols.
const DECLARING: [&[u8]; 6] = [b"token", b"left", b"right", b"nonassoc", b"type", b"union"];

/// Directives that an unknown one may be meant for.
const NEAR: [&[u8]; 7] = [
    b"token",
    b"left",
    b"right",
    b"nonassoc",
    b"type",
    b"union",
    b"start",
];

/// Other directives, and the suggestion for each.
const DIRECTIVES: [(&[u8], &str); 4] = [
    (b"precedence", "write `%nonassoc` for bison's `%precedence`"),
    (
        b"nterm",
        "write `%type` for bison's `%nterm`, or nothing: nonterminals need no declaration",
    ),
    (b"start", "a file has one `%start`, with one name"),
    (b"option", "`%option` belongs to flex: remove it"),
];

/// The suggestion for a directive that isn't allowed there.
fn directive_advice(before: &Before, rest: &[u8]) -> &'static str {
    let behind = rest.strip_prefix(b"%").unwrap_or(rest);
    let Some((name, _)) = leading_name(behind, Language::Yacc) else {
        return "write `%{` and `%}` around C code, or remove it";
    };
    if DECLARING.contains(&name) {
        return if before.last.is_some() {
            "the declaration before this one names no symbol"
        } else {
            "a declaration needs at least one symbol"
        };
    }
    for (directive, advice) in &DIRECTIVES {
        if name == *directive {
            return advice;
        }
    }
    "POSIX has no such declaration: remove it"
}

/// The suggestion for a byte that isn't ASCII.
const OTHER_BYTE: &str =
    "this byte can't be part of a name: names have letters `a` to `z` and `A` to `Z`, digits, `_` and `.`";

/// The suggestion for a `:` in the place of a `|`.
pub(crate) const FURTHER_BODY: &str =
    "a further body of a rule begins with `|`, and only the first one with `:`";

/// The suggestion for what isn't allowed in the rules.
fn rule_advice(before: &Before, rest: &[u8]) -> &'static str {
    if let Some((_, [0x80..=0xFF, ..])) = leading_name(rest, Language::Yacc) {
        return OTHER_BYTE;
    }
    match rest.first() {
        Some(b'%') => rule_directive_advice(rest),
        Some(b'"') =>
            "a token is a name, or one byte in single quotes: name what the lex file returns",
        Some(b'*' | b'+' | b'?' | b'(' | b')' | b'[' | b']') => {
            "a body has only symbols: write a separate rule for a part that is optional or repeated"
        }
        Some(b':') if before.in_body && !before.at_body => FURTHER_BODY,
        Some(b':' | b'=' | b'-') => "a rule is `name : symbols ;`",
        Some(b'<') => "`$` has no types here: remove the tag",
        Some(0x80..=0xFF) => OTHER_BYTE,
        _ if before.in_body && before.behind_prec =>
            "write `%prec` and its token after the last symbol of a body",
        _ if before.in_body =>
            "a body has symbols and, at its end, an optional action: is a `;` or a `|` missing?",
        _ => "a rule is `name : symbols ;`: is a `:` or a `;` missing?",
    }
}

/// The suggestion for a directive in the rules.
fn rule_directive_advice(rest: &[u8]) -> &'static str {
    if rest.starts_with(b"%empty") {
        return "an empty body is written as nothing: remove `%empty`, or write `/* empty */`";
    }
    if rest.starts_with(b"%prec") {
        return "write `%prec` once, after the symbols of a body, followed by a token";
    }
    if let Some((name, _)) = leading_name(rest.get(1..).unwrap_or_default(), Language::Yacc)
        && (DECLARING.contains(&name) || name == b"start".as_slice())
    {
        return "declarations come before the first `%%`";
    }
    "`%prec` is the only directive in a rule: remove this one"
}

/// The suggestion for what isn't allowed in an action.
fn action_advice(before: &Before, rest: &[u8]) -> &'static str {
    if is_over(rest) || rest.starts_with(b"|") || rest.starts_with(b"%%") || begins_rule(rest) {
        "close the braces of the action with `}`"
    } else if rest.starts_with(b"}") && before.at_action {
        "an empty action is written as nothing: remove the braces"
    } else if rest.starts_with(b"}") {
        "the statement of an action ends with a `;`: write `{ $$ = Name($1,$3); }` or `{ $$ = $1; }`"
    } else if rest.starts_with(b";") {
        "a node without children has parentheses too: `{ $$ = Name(); }`"
    } else if before.at_child && leading_name(rest, Language::Yacc).is_some() {
        "the children of a node are `$1`, `$2` and so on: make an inner node with a rule of its own"
    } else {
        "write `{ $$ = Name($1,$3); }`, `{ $$ = $1; }`, or no action: lytab's actions are not C; \
        `lytab-from-bison --explain FILE` checks a grammar with C actions"
    }
}

/// Whether nothing follows in an action up to the end of the file. Such an error is reported at the last byte.
fn is_over(rest: &[u8]) -> bool {
    rest == b"{".as_slice() || after_gap(rest, Language::Yacc).is_empty()
}

/// The suggestion for what isn't closed.
fn unclosed_advice(rest: &[u8]) -> &'static str {
    if rest.starts_with(b"/*") {
        "close the comment with `*/`"
    } else if rest.starts_with(b"%{") {
        "close the block with `%}`"
    } else {
        "close the braces with `}`"
    }
}
