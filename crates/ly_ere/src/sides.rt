ghost use Rattle.std.specs.Prelude.{◌≢◌, ℕ, Option, length, ◌≤◌, IfOk, IfErr};
ghost use Rattle.ly_ere.specs.Expression.{Expression};
ghost use Rattle.ly_ere.specs.Grammar.{Sides};
ghost use Rattle.ly_ere.specs.Patterns.{HasFrontSides};
ghost use Rattle.ly_ere.specs.Private.Faults.{IsLeftIn, IsReadIn};
ghost use Rattle.ly_ere.specs.Private.Front.{CanEnd, IsFrontExpression, IsFrontTail, IsFrontTailed};
ghost use Rattle.ly_ere.specs.Private.Sides.{sides_read};
ghost use Rattle.ly_ere.specs.declared.fault.ReadFault.TheVariants.{OutOfMemory};

use crate::fault::{EreFaultKind, ReadFault, SyntaxFault, SyntaxKind};
use crate::front::behind_byte;
use crate::names::Names;
use crate::re::Re;
use crate::read::{is_behind, read_expression};
use std::alloc::Global;

/// A pattern without its cut.
#[derive(Drop)]
pub(crate) struct Uncut {
    /// Whether it matches only at the start of a line.
    pub(crate) line_start: bool,
    /// The expression that the token matches.
    pub(crate) head: Re,
    /// The trailing context, if there is one.
    pub(crate) tail: Option<Re>,
    /// The offset of the end of the head.
    pub(crate) head_end: usize,
}

impl Uncut {
    /// The offset of an error that concerns the sides together: that of the `/` or `$`, but 0 for `TooHeavy`.
    pub(crate) fn offset_of(&self, kind: EreFaultKind) -> usize
        ensures { result ≤ self.now.head_end }
    {
        match kind {
            EreFaultKind::TooHeavy => 0,
            _ => self.head_end,
        }
    }
}

/// A head and its trailing context.
#[derive(Drop)]
struct Tailed {
    /// The expression that the token matches.
    head: Re,
    /// The trailing context, if there is one.
    tail: Option<Re>,
    /// The length of the head's text in bytes.
    head_length: usize,
    /// The length of both in bytes.
    length: usize,
}

/// Reads the sides of the pattern at the start of a line and returns the number of bytes read.
pub(crate) fn read_sides(
    alloc: Global,
    line: &[u8],
    names: &Names,
) -> Result<(Uncut, usize), ReadFault>
    ensures ok { IfOk result (λ found. HasFrontSides names.now line.now (sides_read found.0) found.1) }
    ensures refused { IfErr result (λ e. e ≢ OutOfMemory → (s : Sides) (n : ℕ) → HasFrontSides names.now line.now s n
        → ⊥) }
    ensures head { IfOk result (λ found. found.0.head_end ≤ length line.now) }
    ensures at { IfErr result (IsReadIn line.now) }
{
    if let Some(rest) = behind_byte(line, b'^') {
        let found = read_tailed(alloc, rest, names)?;
        let sides = Uncut {
            line_start: true,
            head: found.head,
            tail: found.tail,
            head_end: found.head_length + 1,
        };
        return Ok((sides, found.length + 1));
    }
    let found = read_tailed(alloc, line, names)?;
    let sides = Uncut {
        line_start: false,
        head: found.head,
        tail: found.tail,
        head_end: found.head_length,
    };
    Ok((sides, found.length))
}

/// Reads a head and its trailing context.
fn read_tailed(alloc: Global, line: &[u8], names: &Names) -> Result<Tailed, ReadFault>
    ensures within { IfOk result (λ found. found.length ≤ length line.now) }
    ensures head { IfOk result (λ found. found.head_length ≤ length line.now) }
    ensures ok { IfOk result (λ found. IsFrontTailed names.now line.now found.head found.tail found.length) }
    ensures refused { IfErr result (λ e. e ≢ OutOfMemory → (head : Expression) (tail : Option Expression) (n : ℕ)
        → IsFrontTailed names.now line.now head tail n → ⊥) }
    ensures at { IfErr result (IsReadIn line.now) }
{
    let (head, at) = read_expression(alloc, line, names)?;
    let (tail, length) = read_tail(alloc, &line[at..], names)?;
    Ok(Tailed {
        head,
        tail,
        head_length: at,
        length: at + length,
    })
}

/// Reads what follows a head: nothing, `$`, or `/` and a tail.
fn read_tail(alloc: Global, line: &[u8], names: &Names) -> Result<(Option<Re>, usize), ReadFault>
    requires { CanEnd line.now }
    ensures within { IfOk result (λ found. found.1 ≤ length line.now) }
    ensures ok { IfOk result (λ found. IsFrontTail names.now line.now found.0 found.1) }
    ensures refused { IfErr result (λ e. e ≢ OutOfMemory → (tail : Option Expression) (n : ℕ)
        → IsFrontTail names.now line.now tail n → ⊥) }
    ensures at { IfErr result (IsReadIn line.now) }
{
    if is_behind(line) {
        return Ok((None, 0));
    }
    if let Some(rest) = behind_byte(line, b'/') {
        let (tail, length) = read_expression(alloc, rest, names)?;
        if !is_behind(&rest[length..]) {
            return Err(ReadFault::Syntax(second_fault(&rest[length..])));
        }
        return Ok((Some(tail), length + 1));
    }
    if !is_behind(&line[1..]) {
        return Err(ReadFault::Syntax(SyntaxFault::at(SyntaxKind::AnchorInside, line)));
    }
    Ok((Some(Re::of_byte(alloc, b'\n')?), 1))
}

/// The error of a `/` or `$` after a tail. A `$` that isn't at the end is `AnchorInside`.
fn second_fault(rest: &[u8]) -> SyntaxFault
    ensures { IsLeftIn rest.now result }
{
    let kind = match behind_byte(rest, b'$') {
        Some(behind) if !is_behind(behind) => SyntaxKind::AnchorInside,
        _ => SyntaxKind::TrailingTwice,
    };
    SyntaxFault::at(kind, rest)
}
