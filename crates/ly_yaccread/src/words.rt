ghost use Rattle.std.specs.Prelude.{◌≡◌, ◌≢◌, ◌++◌, ◌∷◌, [], ℕ, List, MatchBool, MatchOption};
ghost use Rattle.ly_yaccread.specs.Private.Words.{IsWordAt, IsFront};
ghost use Rattle.ly_yaccread.specs.Words.{DirectiveBefore, GapPassed, MarkBefore, spelling};
ghost use Rattle.ly_yaccread.specs.declared.words.NextWord.TheVariants.{End, Other};

use ly_base::{Language, after_gap, leading_digits, leading_name, literal};

/// A word with fixed bytes.
#[derive(Clone, Copy, Debug, PartialEq, Eq)]
pub enum Mark {
    /// `%%`, before the rules and before the text after them.
    Section,
    /// `%{`, which opens a block that is ignored.
    Block,
    /// `$$`, the value of a rule.
    Whole,
    /// `$`, before the place of a symbol in a rule's body.
    Dollar,
    /// `:`, between a left side and its first body.
    Colon,
    /// `|`, before another body.
    Bar,
    /// `;`, after a rule or a statement.
    Semicolon,
    /// `{`.
    OpenBrace,
    /// `}`.
    CloseBrace,
    /// `(`.
    OpenParenthesis,
    /// `)`.
    CloseParenthesis,
    /// `<`, before a tag.
    OpenTag,
    /// `>`, after a tag.
    CloseTag,
    /// `=`.
    Equals,
    /// `,`.
    Comma,
}

/// The first word of a text.
#[derive(Clone, Copy)]
pub(crate) enum NextWord<'t> {
    /// The end of the file.
    End,
    /// A mark.
    Mark(Mark),
    /// A directive: a `%` and a name. This is the name.
    Directive(&'t [u8]),
    /// A name.
    Name(&'t [u8]),
    /// The digits of a number.
    Number(&'t [u8]),
    /// The byte of a literal.
    Literal(u8),
    /// A block from `%{` to `%}`.
    Block,
    /// Braces and the text between them.
    Braces,
    /// Bytes that are no word.
    Other,
}

impl NextWord<'_> {
    /// Whether this is the end of the file.
    pub(crate) fn is_end(&self) -> bool
        ensures { MatchBool result (self.now ≡ End) (self.now ≢ End) }
    {
        matches!(self, NextWord::End)
    }

    /// Whether this is no word.
    pub(crate) fn is_other(&self) -> bool
        ensures { MatchBool result (self.now ≡ Other) (self.now ≢ Other) }
    {
        matches!(self, NextWord::Other)
    }
}

/// A word of a file, with its offset.
#[derive(Clone, Copy)]
pub(crate) struct FileWord<'t> {
    /// The word.
    pub(crate) word: NextWord<'t>,
    /// The offset of its first byte.
    pub(crate) offset: usize,
}

/// The first word of a text, after whitespace and comments.
#[derive(Clone, Copy)]
pub(crate) struct Front<'t> {
    /// The word.
    pub(crate) word: NextWord<'t>,
    /// The text from the word on.
    pub(crate) from: &'t [u8],
    /// The text after the word.
    pub(crate) behind: &'t [u8],
}

/// The first word of a text, after whitespace and comments.
pub(crate) fn next_word(text: &[u8]) -> Front<'_>
    ensures word { IsFront text.now result.word result.behind.now }
    ensures from { GapPassed text.now result.from.now }
{
    let from = after_gap(text, Language::Yacc);
    let (word, behind) = word_at(from);
    Front { word, from, behind }
}

/// The word at the very front of a text, and the bytes after it.
fn word_at(text: &[u8]) -> (NextWord<'_>, &[u8])
    ensures { IsWordAt text.now result.0 result.1.now }
{
    if text.is_empty() {
        return (NextWord::End, text);
    }
    if let Some((mark, rest)) = leading_mark(text) {
        return (NextWord::Mark(mark), rest);
    }
    if let Some((name, rest)) = leading_directive(text) {
        return (NextWord::Directive(name), rest);
    }
    if let Some((name, rest)) = leading_name(text, Language::Yacc) {
        return (NextWord::Name(name), rest);
    }
    if let Some((digits, rest)) = leading_digits(text) {
        return (NextWord::Number(digits), rest);
    }
    match literal(text) {
        Some((byte, length)) => (NextWord::Literal(byte), &text[length..]),
        None => (NextWord::Other, text),
    }
}

/// The name after a `%` at the front, and the bytes after it.
fn leading_directive(text: &[u8]) -> Option<(&[u8], &[u8])>
    ensures { MatchOption result ((name rest : List ℕ) → DirectiveBefore text.now name rest → ⊥)
        (λ found. DirectiveBefore text.now found.0.now found.1.now) }
{
    leading_name(text.strip_prefix(b"%")?, Language::Yacc)
}

/// The mark at the front, and the bytes after it.
fn leading_mark(text: &[u8]) -> Option<(Mark, &[u8])>
    ensures { MatchOption result ((mark : Mark) (rest : List ℕ) → MarkBefore text.now mark rest → ⊥)
        (λ found. MarkBefore text.now found.0 found.1.now) }
{
    if let Some(rest) = text.strip_prefix(b"%%") {
        return Some((Mark::Section, rest));
    }
    if let Some(rest) = text.strip_prefix(b"%{") {
        return Some((Mark::Block, rest));
    }
    if let Some(rest) = text.strip_prefix(b"$$") {
        return Some((Mark::Whole, rest));
    }
    let (first, rest) = text.split_first()?;
    Some((mark_of(*first)?, rest))
}

/// The mark of this single byte.
fn mark_of(byte: u8) -> Option<Mark>
    ensures { MatchOption result ((mark : Mark) → spelling mark ≢ byte ∷ []) (λ mark. spelling mark ≡ byte ∷ []) }
{
    match byte {
        b'$' => Some(Mark::Dollar),
        b':' => Some(Mark::Colon),
        b'|' => Some(Mark::Bar),
        b';' => Some(Mark::Semicolon),
        b'{' => Some(Mark::OpenBrace),
        b'}' => Some(Mark::CloseBrace),
        b'(' => Some(Mark::OpenParenthesis),
        b')' => Some(Mark::CloseParenthesis),
        b'<' => Some(Mark::OpenTag),
        b'>' => Some(Mark::CloseTag),
        b'=' => Some(Mark::Equals),
        b',' => Some(Mark::Comma),
        _ => None,
    }
}
