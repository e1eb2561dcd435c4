//! Suggestions for the errors of a lex file.
use crate::advice::Advice;
use crate::lex_names::{defined_names, known_conditions};
use crate::lex_units::{Kind, Unit, action_start, first_line};
use crate::location::{bytes_before, from_offset, line_start};
use crate::nearest::nearest;
use ly_base::{Language, Location, OutOfMemory, is_blank, leading_name, locate};
use ly_ere::EreFaultKind;
use ly_lexread::LexFaultKind;
use std::alloc::Global;

/// The suggestion for an error, by its location in a text and the unit there.
pub(crate) fn lex_advice(
    alloc: Global,
    text: &[u8],
    unit: Unit,
    kind: LexFaultKind,
    at: Location,
) -> Result<Advice, OutOfMemory> {
    let line = first_line(from_offset(text, line_start(text, at.line)));
    if let Some(words) = form_of_flex(unit, line) {
        return Ok(Advice::Words(words));
    }
    if unit.open && at.line > unit.last {
        return Ok(Advice::Words("close the braces of the action before this line with `}`"));
    }
    if unit.open && at == locate(text, text.len().saturating_sub(1)) {
        return Ok(Advice::Words("close the braces of the action with `}`"));
    }
    let rest = from_offset(line, bytes_before(at));
    if let Some(words) = form_of_others(kind, line, bytes_before(at)) {
        return Ok(Advice::Words(words));
    }
    let near = match kind {
        LexFaultKind::Pattern(EreFaultKind::UnknownName) => near_name(alloc, text, rest)?,
        LexFaultKind::UnknownCondition => near_condition(alloc, text, rest)?,
        _ => None,
    };
    Ok(match near {
        Some(near) => near,
        None => Advice::Words(words_for(unit, kind, line, bytes_before(at))),
    })
}

/// The suggestion for a line with a flex extension that POSIX doesn't have.
fn form_of_flex(unit: Unit, line: &[u8]) -> Option<&'static str> {
    if line.starts_with(b"//") {
        return Some("comments are `/* .. */`: among the rules they must follow a blank");
    }
    if unit.kind == Kind::Directive && line.starts_with(b"%option") {
        return Some(option_advice(line));
    }
    if unit.kind != Kind::Rule {
        return None;
    }
    if line.starts_with(b"/*") {
        return Some("among the rules a comment must follow a blank");
    }
    if line.starts_with(b"<<EOF>>") {
        return Some("the end of the text has no rule and no action: remove this rule");
    }
    if line.starts_with(b"<*>") {
        return Some("name the start conditions, separated by commas: `<INITIAL,NAME>`");
    }
    if line.starts_with(b"<") && !opens_list(line) {
        return Some("`<` begins a list of start conditions: for the byte write `\\<` or `\"<\"`");
    }
    let opens_scope = line.starts_with(b"<") && from_offset(line, action_start(line)).is_empty();
    if opens_scope && ends_with_brace(line) {
        return Some(
            "write the start conditions before each rule: there are no blocks `<NAME>{ .. }`",
        );
    }
    None
}

/// The suggestion for what has another meaning in other tools. `before` bytes of the line precede the error.
fn form_of_others(kind: LexFaultKind, line: &[u8], before: usize) -> Option<&'static str> {
    match kind {
        LexFaultKind::Pattern(EreFaultKind::BadInterval | EreFaultKind::UnknownName)
            if ends_with_escape(line.get(..before).unwrap_or(line)) => {
            Some(
                "write a byte with two digits and no braces, as in `\\x41`, and a character of several bytes as itself",
            )
        }
        LexFaultKind::Pattern(EreFaultKind::UnclosedBracket)
            if opens_collating(from_offset(line, before.saturating_add(1))) => {
            Some(
                "in a set `[.`, `[=` and `[:` begin a symbol that ends with `.]`, `=]` or `:]`: to match `[`, \
                write it last",
            )
        }
        LexFaultKind::UnknownCondition if before == 0 => {
            Some(
                "a list of start conditions is `<NAME>` or `<NAME,NAME>`: for the byte write `\\<` or `\"<\"`",
            )
        }
        _ => None,
    }
}

/// Whether a collating symbol, an equivalence class or a character class begins in a text.
fn opens_collating(text: &[u8]) -> bool {
    let openings: [&[u8]; 3] = [b"[.", b"[=", b"[:"];
    openings
        .iter()
        .any(|opening| offset_of(text, opening).is_some())
}

/// Whether a text ends with an escaped letter that begins a number: an unescaped backslash and the letter.
fn ends_with_escape(text: &[u8]) -> bool {
    let mut escaped = false;
    let mut ends = false;
    for byte in text {
        ends = escaped && matches!(*byte, b'x' | b'u' | b'U' | b'o' | b'N' | b'p' | b'P');
        escaped = !escaped && *byte == b'\\';
    }
    ends
}

/// Whether a line begins like one with start conditions: with a name or `0` after the `<`.
fn opens_list(line: &[u8]) -> bool {
    let behind = from_offset(line, 1);
    behind.starts_with(b"0") || leading_name(behind, Language::Lex).is_some()
}

/// The suggestion for an option.
fn option_advice(line: &[u8]) -> &'static str {
    let caseless: [&[u8]; 2] = [b"case-insensitive", b"caseless"];
    if caseless.iter().any(|word| offset_of(line, word).is_some()) {
        "options aren't supported: write both cases of each letter, as in `[aA]`"
    } else {
        "options aren't supported: remove the line"
    }
}

/// Whether a line ends with an open brace, perhaps followed by blanks.
fn ends_with_brace(line: &[u8]) -> bool {
    let mut ends = false;
    for byte in line {
        if !is_blank(*byte) {
            ends = *byte == b'{';
        }
    }
    ends
}

/// The name of a definition that is similar to one in braces.
fn near_name(alloc: Global, text: &[u8], rest: &[u8]) -> Result<Option<Advice>, OutOfMemory> {
    let Some((name, _)) = leading_name(from_offset(rest, 1), Language::Lex) else {
        return Ok(None);
    };
    let names = defined_names(alloc, text)?;
    Ok(match nearest(alloc, name, &names)? {
        Some(near) => Some(Advice::Near([b"{", near, b"}"].concat(alloc)?)),
        None => None,
    })
}

/// The name of a start condition that is similar to one before a rule, or after BEGIN.
fn near_condition(alloc: Global, text: &[u8], rest: &[u8]) -> Result<Option<Advice>, OutOfMemory> {
    let known = known_conditions(alloc, text)?;
    match nearest(alloc, unknown_in(rest, &known), &known)? {
        Some(near) => Ok(Some(Advice::Near(Vec::from_slice(alloc, near)?))),
        None => Ok(None),
    }
}

/// The first name in a list that is no known condition. If there is none, an empty one, which has no similar name.
fn unknown_in<'t>(list: &'t [u8], known: &[&[u8]]) -> &'t [u8] {
    for word in list.split(|byte| !Language::Lex.continues_name(*byte)) {
        if is_unknown(word, known) {
            return word;
        }
    }
    b""
}

/// Whether a word is the name of an unknown condition.
fn is_unknown(word: &[u8], known: &[&[u8]]) -> bool {
    let is_name = !word.is_empty() && word != b"BEGIN".as_slice() && word != b"0".as_slice();
    is_name && !known.contains(&word)
}

/// The suggestion for an error in a POSIX form. `before` bytes of the line precede the error.
fn words_for(unit: Unit, kind: LexFaultKind, line: &[u8], before: usize) -> &'static str {
    let rest = from_offset(line, before);
    match kind {
        LexFaultKind::NoRulesMark => "write a line `%%` before the first rule",
        LexFaultKind::BadDefinition => definition_advice(unit, line, rest),
        LexFaultKind::UnknownCondition => "declare it in the definitions: `%x NAME`",
        LexFaultKind::ConditionTwice => "declare each start condition once, and `INITIAL` never",
        LexFaultKind::BadAction => action_advice(line),
        LexFaultKind::BarAtEnd =>
            "`|` means the action of the next rule: the last rule needs its own",
        LexFaultKind::Pattern(EreFaultKind::StrayOperator) if opens_options(line, before) =>
            "groups are `( .. )`, without options",
        LexFaultKind::Pattern(EreFaultKind::BadInterval) if is_turned(rest) =>
            "write the smaller count first, as in `{1,3}`",
        LexFaultKind::Pattern(kind) => pattern_advice(kind),
    }
}

/// Whether a text begins with an interval whose first count is greater than the second.
fn is_turned(rest: &[u8]) -> bool {
    let Some((first, behind)) = leading_count(rest.strip_prefix(b"{").unwrap_or(rest)) else {
        return false;
    };
    match leading_count(behind.strip_prefix(b",").unwrap_or(b"")) {
        Some((second, end)) => end.starts_with(b"}") && second < first,
        None => false,
    }
}

/// The number at the start of a text, and what follows it. `None` if there is none, or if it has more than three
/// digits.
fn leading_count(text: &[u8]) -> Option<(u32, &[u8])> {
    let digits = text.iter().take_while(|byte| byte.is_ascii_digit()).count();
    if digits == 0 || digits > 3 {
        return None;
    }
    let mut count: u32 = 0;
    for byte in text.get(..digits)? {
        count = count
            .saturating_mul(10)
            .saturating_add(byte.saturating_sub(b'0') as u32);
    }
    Some((count, text.get(digits..)?))
}

/// Whether the byte of a line at this offset is the `?` of a group with options, like `(?i:`.
fn opens_options(line: &[u8], before: usize) -> bool {
    from_offset(line, before.saturating_sub(1)).starts_with(b"(?")
}

/// The suggestion for an invalid definition.
fn definition_advice(unit: Unit, line: &[u8], rest: &[u8]) -> &'static str {
    match unit.kind {
        Kind::Block => "close the block with a line `%}`",
        Kind::Comment => "close the comment with `*/`",
        Kind::Directive =>
            "only `%s` and `%x` with names of start conditions are supported: remove other lines with `%`",
        _ if offset_of(line, b"return").is_some() => "write a line `%%` before the first rule",
        _ if rest.starts_with(b"/*") || rest.starts_with(b"//") => {
            "write a comment on a line of its own"
        }
        _ if rest.len() == line.len() && leading_name(line, Language::Lex).is_some() => {
            "an earlier line defines this name: define each name once"
        }
        _ => "a definition is a name, blanks and an expression: define each name once",
    }
}

/// The suggestion for an invalid action.
fn action_advice(line: &[u8]) -> &'static str {
    if offset_of(line, b"_state").is_some() {
        return "there is no stack of start conditions: use `BEGIN NAME;`";
    }
    let left_out: [&[u8]; 8] = [
        b"REJECT",
        b"yymore",
        b"yyless",
        b"unput",
        b"input",
        b"ECHO",
        b"yywrap",
        b"yyterminate",
    ];
    if left_out.iter().any(|word| offset_of(line, word).is_some()) {
        return "actions aren't C: the text of a token is in the tree";
    }
    if offset_of(line, b"return \"").is_some() {
        return "a literal is one byte in single quotes: `return '(';`";
    }
    let action = from_offset(line, action_start(line));
    if offset_of(action, b"//").is_some() {
        return "comments are written `/* .. */`";
    }
    if ends_open(action) {
        return "a statement ends with a `;`: `return NAME;`";
    }
    "write `return NAME;`, `return 'c';`, `return yytext[0];`, `BEGIN NAME;`, `|` or nothing: lytab's actions are not C"
}

/// Whether an action has a `return` without a `;` after it.
fn ends_open(action: &[u8]) -> bool {
    match offset_of(action, b"return") {
        Some(offset) => !from_offset(action, offset).contains(&b';'),
        None => false,
    }
}

/// The suggestion for an invalid pattern.
fn pattern_advice(kind: EreFaultKind) -> &'static str {
    match kind {
        EreFaultKind::Empty => "the empty string is `\"\"`; a rule begins with its pattern",
        EreFaultKind::UnclosedQuote => "close the string with `\"`, or write `\\\"` for the byte",
        EreFaultKind::UnclosedBracket => "close the set with `]`, or write `\\[` for the byte",
        EreFaultKind::UnclosedGroup => "close the group with `)`, or write `\\(` for the byte",
        EreFaultKind::StrayOperator =>
            "to match the byte itself, write a backslash before it or quotes around it",
        EreFaultKind::BadRange =>
            "write the smaller byte first; to match `-` itself, write it first or last in the set",
        EreFaultKind::EmptySet => "a set needs at least one byte",
        EreFaultKind::UnknownClass =>
            "classes are `[:alpha:]`, `[:digit:]`, `[:alnum:]`, `[:space:]` and the others of POSIX",
        EreFaultKind::BadInterval =>
            "intervals are `{m}`, `{m,}` and `{m,n}`; for the byte write `\\{`",
        EreFaultKind::EscapeTooLarge => "the greatest byte is 255: `\\377` or `\\xff`",
        EreFaultKind::UnknownName => "define it before the first `%%`; for the byte write `\\{`",
        EreFaultKind::NameCycle => "a definition can't use itself, directly or through others",
        EreFaultKind::AnchorInside =>
            "`^` is allowed only at the start of a pattern and `$` only at its end: for the byte write `\\^` or `\\$`",
        EreFaultKind::TrailingTwice =>
            "a pattern has at most one `/` or `$`; for the byte write `\\/`",
        EreFaultKind::TrailingBothVary =>
            "the part before the `/` or the part after it must have a fixed length",
        EreFaultKind::TrailingHeadEmpty => "the part before the `/` must match at least one byte",
        EreFaultKind::TooHeavy => "intervals are expanded: use shorter ones",
    }
}

/// The offset in a line at which bytes occur first.
fn offset_of(line: &[u8], bytes: &[u8]) -> Option<usize> {
    for offset in 0..line.len() {
        if from_offset(line, offset).starts_with(bytes) {
            return Some(offset);
        }
    }
    None
}
