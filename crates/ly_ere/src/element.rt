ghost use Rattle.std.specs.Prelude.{◌≡◌, ℕ, IfErr, ◌<◌, ◌≢◌, length, slice_index, not, nat_eq, IfOk};
ghost use Rattle.ly_ere.specs.Private.Elements.{ReadsElement};
ghost use Rattle.ly_ere.specs.Private.Faults.{IsLeftIn};
ghost use Rattle.ly_base.specs.ByteSet.{bytes_where, members};

use crate::braced::braced;
use crate::bracket::bracket;
use crate::fault::{SyntaxFault, SyntaxKind};
use crate::front::leading_escape;
use crate::node::Node;
use crate::quoted::quoted_length;
use ly_base::ByteSet;

/// An element of an expression: a token of its syntax.
#[derive(Clone, Copy)]
pub(crate) enum Element<'t> {
    /// One byte of the set: written as a byte, an escape, `.` or a bracket expression.
    OneOf(ByteSet),
    /// A string: the text after its opening quote, not read yet.
    String(&'t [u8]),
    /// A name in braces.
    Name(&'t [u8]),
    /// `(`
    Opening,
    /// `)`
    Closing,
    /// `|`
    Bar,
    /// An operator after its operand.
    Postfix(Postfix),
    /// An interval.
    Interval {
        /// The least number of repetitions.
        least: u8,
        /// The greatest number of repetitions, if it is bounded.
        most: Option<u8>,
    },
    /// A mark that applies to the whole pattern.
    Mark(Mark),
}

/// A mark that anchors a pattern or separates its trailing context.
#[derive(Clone, Copy)]
pub(crate) enum Mark {
    /// `^`
    Caret,
    /// `$`
    DollarSign,
    /// `/`
    Slash,
}

/// An operator after its operand.
#[derive(Clone, Copy)]
pub(crate) enum Postfix {
    /// `*`
    Asterisk,
    /// `+`
    PlusSign,
    /// `?`
    QuestionMark,
}

impl Postfix {
    ghost use Rattle.ly_ere.specs.Arena.{FitsAt, expression_of, part_of};
    ghost use Rattle.ly_ere.specs.Private.Levels.{operated};

    /// Applies the operator to an operand.
    pub(crate) fn over(self, part: usize) -> Node
        ensures fits { (n : ℕ) → part < n → FitsAt n result }
        ensures operator { (done : _) → expression_of done result ≡ operated self (part_of done part) }
    {
        match self {
            Postfix::Asterisk => Node::Star(part),
            Postfix::PlusSign => Node::Plus(part),
            Postfix::QuestionMark => Node::Optional(part),
        }
    }
}

/// Reads the element at the start of a text and returns the number of bytes read.
pub(crate) fn next_element(text: &[u8]) -> Result<(Element<'_>, usize), SyntaxFault>
    requires { 0 < length text.now }
    ensures element { ReadsElement text.entry.now result }
    ensures within { IfErr result (IsLeftIn text.entry.now) }
{
    match text[0] {
        b'(' => Ok((Element::Opening, 1)),
        b')' => Ok((Element::Closing, 1)),
        b'|' => Ok((Element::Bar, 1)),
        b'*' => Ok((Element::Postfix(Postfix::Asterisk), 1)),
        b'+' => Ok((Element::Postfix(Postfix::PlusSign), 1)),
        b'?' => Ok((Element::Postfix(Postfix::QuestionMark), 1)),
        b'"' => string(text),
        b'[' => list(text),
        b'\\' => escaped(text),
        b'.' => Ok((Element::OneOf(all_but_newline()), 1)),
        b'^' => Ok((Element::Mark(Mark::Caret), 1)),
        b'$' => Ok((Element::Mark(Mark::DollarSign), 1)),
        b'/' => Ok((Element::Mark(Mark::Slash), 1)),
        b'{' => braced(text),
        b' ' | b'\t' | b'\n' => Err(SyntaxFault::at(SyntaxKind::StrayOperator, text)),
        byte => Ok((Element::OneOf(ByteSet::of(byte)), 1)),
    }
}

/// Reads the string at the start, whose first byte is the opening quote.
fn string(text: &[u8]) -> Result<(Element<'_>, usize), SyntaxFault>
    requires some { 0 < length text.now }
    requires quote { slice_index text.now 0 ≡ 34 }
    ensures element { ReadsElement text.entry.now result }
    ensures within { IfErr result (IsLeftIn text.entry.now) }
{
    let behind = &text[1..];
    match quoted_length(behind) {
        Ok(length) => Ok((Element::String(behind), 1 + length)),
        Err(fault) => Err(fault.begun_at(SyntaxKind::UnclosedQuote, text)),
    }
}

/// Reads the bracket expression at the start, whose first byte is `[`.
fn list(text: &[u8]) -> Result<(Element<'_>, usize), SyntaxFault>
    requires some { 0 < length text.now }
    requires opening { slice_index text.now 0 ≡ 91 }
    ensures element { ReadsElement text.entry.now result }
    ensures within { IfErr result (IsLeftIn text.entry.now) }
{
    match bracket(text) {
        Ok((set, length)) => Ok((Element::OneOf(set), length)),
        Err(fault) => Err(fault.begun_at(SyntaxKind::UnclosedBracket, text)),
    }
}

/// Reads the escape at the start, whose first byte is the backslash.
fn escaped(text: &[u8]) -> Result<(Element<'_>, usize), SyntaxFault>
    requires some { 0 < length text.now }
    requires backslash { slice_index text.now 0 ≡ 92 }
    ensures element { ReadsElement text.entry.now result }
    ensures within { IfErr result (IsLeftIn text.entry.now) }
{
    let (byte, length) = leading_escape(text)?;
    Ok((Element::OneOf(ByteSet::of(byte)), length))
}

/// The bytes that `.` matches.
fn all_but_newline() -> ByteSet
    ensures { members result ≡ bytes_where (λ b. not (nat_eq b 10)) }
{
    ByteSet::of(b'\n').complement()
}
