ghost use Rattle.std.specs.Prelude.{◌≡◌, ◌≢◌, ◌<◌, ℕ, List, ◌++◌, codes, length, MatchBool, MatchOption};
ghost use Rattle.ly_base.specs.Language.{NameBefore};
ghost use Rattle.ly_base.specs.declared.language.Language.TheVariants.{Lex};
ghost use Rattle.ly_lexread.specs.Private.Words.{IsFound, IsFront, IsNamedWord, word_of};
ghost use Rattle.ly_lexread.specs.Words.{is_mark, mark as mark_word, name as name_word};
ghost use Rattle.ly_lexread.specs.declared.words.NextWord.TheVariants.{End};

use ly_base::{Language, after_gap, leading_name, literal};

/// The next word of an action.
#[derive(Clone, Copy)]
pub(crate) enum NextWord<'t> {
    /// The end of the action.
    End,
    /// A mark of one byte, as `;`.
    Mark(u8),
    /// The first byte of the match: `yytext[0]` or `*yytext`.
    TextByte,
    /// A name.
    Name(&'t [u8]),
    /// A literal of this byte.
    Literal(u8),
    /// Anything else, which is no word.
    Other,
}

impl NextWord<'_> {
    /// Whether the action ends here.
    pub(crate) fn is_end(&self) -> bool
        ensures { MatchBool result (self.now ≡ End) (self.now ≢ End) }
    {
        matches!(self, NextWord::End)
    }

    /// Whether the word is this mark.
    pub(crate) fn is(&self, mark: u8) -> bool
        requires { 0 < mark }
        ensures { MatchBool result (word_of self.now ≡ mark_word mark) (word_of self.now ≢ mark_word mark) }
    {
        match self {
            NextWord::Mark(byte) => *byte == mark,
            _ => false,
        }
    }

    /// Whether the word is this name.
    pub(crate) fn is_name(&self, name: &[u8]) -> bool
        ensures { MatchBool result (word_of self.now ≡ name_word name.now) (word_of self.now ≢ name_word name.now) }
    {
        match self {
            NextWord::Name(found) => is_same(found, name),
            _ => false,
        }
    }
}

/// Whether the names are equal.
fn is_same(name: &[u8], other: &[u8]) -> bool
    ensures { MatchBool result (name.now ≡ other.now) (name.now ≢ other.now) }
{
    name == other
}

/// Skips the whitespace and comments at the start and reads a word. Returns the word and what follows it.
pub(crate) fn next_word(text: &[u8], gaps: Language) -> (NextWord<'_>, &[u8])
    ensures front { IsFront gaps text.now result.0 result.1.now }
    ensures shorter { IsFound result.0 → length result.1.now < length text.now }
{
    let text = after_gap(text, gaps);
    if let Some((byte, length)) = literal(text) {
        let (_literal, rest) = text.split_at(length);
        return (NextWord::Literal(byte), rest);
    }
    if let Some((name, rest)) = leading_name(text, Language::Lex) {
        return named_word(name, rest);
    }
    if let Some(rest) = behind_text_byte(text) {
        return (NextWord::TextByte, rest);
    }
    match text.split_first() {
        Some((first, rest)) if is_mark(*first) => (NextWord::Mark(*first), rest),
        Some(_) => (NextWord::Other, text),
        None => (NextWord::End, text),
    }
}

/// Whether the byte is a mark.
fn is_mark(byte: u8) -> bool
    ensures { result ≡ is_mark byte }
{
    matches!(byte, b';' | b'|' | b'(' | b')' | b'{' | b'}' | b'0')
}

/// The word that begins with this name: `yytext[0]`, or the name alone.
fn named_word<'t>(name: &'t [u8], rest: &'t [u8]) -> (NextWord<'t>, &'t [u8])
    ensures { IsNamedWord name.entry rest.now result.0 result.1.now }
{
    match rest.strip_prefix(b"[0]") {
        Some(behind) if is_text(name) => (NextWord::TextByte, behind),
        _ => (NextWord::Name(name), rest),
    }
}

/// Returns what follows `*yytext`, if the text starts with it.
fn behind_text_byte(text: &[u8]) -> Option<&[u8]>
    ensures { MatchOption result ((behind : List ℕ) (rest : List ℕ) → text.now ≡ codes "*" ++ behind
        → NameBefore Lex behind (codes "yytext") rest → ⊥)
        (λ rest. (behind : List ℕ) × (text.now ≡ codes "*" ++ behind)
        × NameBefore Lex behind (codes "yytext") rest.now) }
{
    let Some(behind) = text.strip_prefix(b"*") else {
        return None;
    };
    let Some((name, rest)) = leading_name(behind, Language::Lex) else {
        return None;
    };
    if is_text(name) { Some(rest) } else { None }
}

/// Whether the name is `yytext`.
fn is_text(name: &[u8]) -> bool
    ensures { MatchBool result (name.now ≡ codes "yytext") (name.now ≢ codes "yytext") }
{
    name == b"yytext".as_slice()
}
