ghost use Rattle.std.specs.Prelude.{All, [], ◌∷◌, ◌≡◌, ◌≢◌, ℕ, List, ◌<◌, ◌≤◌, Some, None, length, IfOk, IfErr, OnOk};
ghost use Rattle.std.specs.Prelude.{MatchBool};
ghost use Rattle.ly_ere.specs.Arena.{part_of};
ghost use Rattle.ly_ere.specs.Elements.{Quoted};
ghost use Rattle.ly_ere.specs.Expression.{Expression, set};
ghost use Rattle.ly_ere.specs.Faults.{IsAtMost};
ghost use Rattle.ly_ere.specs.Grammar.{in_order};
ghost use Rattle.ly_ere.specs.Patterns.{HasFrontSides, IsBehind, IsFrontPattern, IsPattern, IsRefused, pattern_weight};
ghost use Rattle.ly_ere.specs.Patterns.{SpellsSides};
ghost use Rattle.ly_ere.specs.Private.Elements.{IsWellFormed, LeadsOn, LeadsNowhere};
ghost use Rattle.ly_ere.specs.Private.Faults.{IsLeftIn, IsReadIn};
ghost use Rattle.ly_ere.specs.Private.Front.{BeginsNo, CanEnd, IsFrontExpression};
ghost use Rattle.ly_ere.specs.Private.Groups.{closed, whole};
ghost use Rattle.ly_ere.specs.Private.Levels.{IsExtended, ArePartsBelow, group_of, groups_of, reading_of};
ghost use Rattle.ly_ere.specs.declared.fault.ReadFault.TheVariants.{OutOfMemory};
ghost use Rattle.ly_ere.specs.declared.fault.StepFault.TheVariants as step;

use crate::arena::Arena;
use crate::cut::with_cut;
use crate::element::{Element, Mark, next_element};
use crate::fault::{EreFault, EreFaultKind, ReadFault, StepFault, SyntaxFault, SyntaxKind};
use crate::level::Level;
use crate::names::Names;
use crate::node::Node;
use crate::pattern::Pattern;
use crate::quoted::quoted_byte;
use crate::re::Re;
use crate::sides::read_sides;
use ly_base::{ByteSet, Limits, is_blank};
use std::alloc::{AllocError, Global};

/// Reads the pattern at the start of a line and returns the number of bytes read. The pattern ends at the end of the
/// line or at the first blank outside strings, bracket expressions and escapes. Rejects one whose weight is above the
/// limit.
pub fn read_front(
    alloc: Global,
    line: &[u8],
    names: &Names,
    limits: &Limits,
) -> Result<(Pattern, usize), EreFault>
    ensures ok { IfOk result (λ found. IsFrontPattern names.now line.now found.0 found.1) }
    ensures light { IfOk result (λ found. pattern_weight names.now found.0 ≤ limits.now.pattern_weight) }
    ensures refused { IfErr result (IsRefused limits.now.pattern_weight names.now
        (λ s. (n : ℕ) × HasFrontSides names.now line.now s n)
        (λ p. (n : ℕ) × IsFrontPattern names.now line.now p n)) }
    ensures within { IfErr result (IsAtMost (length line.now)) }
{
    let (sides, length) = match read_sides(alloc, line, names) {
        Ok(found) => found,
        Err(fault) => return Err(fault.in_text(line)),
    };
    let pattern = with_cut(alloc, sides, names, limits)?;
    Ok((pattern, length))
}

/// Reads the text of a pattern. Rejects one whose weight is above the limit.
pub fn read_pattern(
    alloc: Global,
    text: &[u8],
    names: &Names,
    limits: &Limits,
) -> Result<Pattern, EreFault>
    ensures ok { IfOk result (λ p. IsPattern names.now text.now p) }
    ensures light { IfOk result (λ p. pattern_weight names.now p ≤ limits.now.pattern_weight) }
    ensures refused { IfErr result (IsRefused limits.now.pattern_weight names.now (SpellsSides names.now text.now)
        (IsPattern names.now text.now)) }
    ensures within { IfErr result (IsAtMost (length text.now)) }
{
    let (sides, length) = match read_sides(alloc, text, names) {
        Ok(found) => found,
        Err(fault) => return Err(fault.in_text(text)),
    };
    if length < text.len() {
        return Err(EreFault::Refused {
            kind: EreFaultKind::StrayOperator,
            offset: length,
        });
    }
    with_cut(alloc, sides, names, limits)
}

/// Reads the expression at the start of a line and returns the number of bytes read. Open groups are kept on an
/// explicit stack.
pub(crate) fn read_expression(
    alloc: Global,
    line: &[u8],
    names: &Names,
) -> Result<(Re, usize), ReadFault>
    ensures ok { IfOk result (λ found. IsFrontExpression names.now line.now found.0 found.1) }
    ensures refused { IfErr result (λ e. e ≢ OutOfMemory → (re : Expression) (n : ℕ)
        → IsFrontExpression names.now line.now re n → ⊥) }
    ensures at { IfErr result (IsReadIn line.now) }
{
    let mut arena = Arena::new(alloc);
    let mut outer = Vec::new(alloc);
    let mut level = Level::new();
    let mut at = 0;
    while !can_end(&line[at..]) {
        let rest = &line[at..];
        let (element, length) = next_element(rest)?;
        level = match with_element(&mut arena, &mut outer, level, element, names) {
            Ok(level) => level,
            Err(fault) => return Err(fault.at(rest)),
        };
        at += length;
    }
    if !outer.is_empty() {
        return Err(ReadFault::Syntax(open_fault(line, at, outer.len())));
    }
    match level.whole(&mut arena) {
        Ok(root) => Ok((Re::of(arena, root), at)),
        Err(fault) => Err(fault.at(&line[at..])),
    }
}

/// Whether a side of a pattern may end before this text.
fn can_end(rest: &[u8]) -> bool
    ensures { MatchBool result (CanEnd rest.now) (CanEnd rest.now → ⊥) }
{
    match rest.first() {
        None => true,
        Some(first) => is_blank(*first) || *first == b'/' || *first == b'$',
    }
}

/// The error of groups that are still open at the end of a side. A `/` there is `StrayOperator`, and a `$` is
/// `AnchorInside`. Otherwise the error is that the innermost group isn't closed.
fn open_fault(line: &[u8], end: usize, groups: usize) -> SyntaxFault
    requires { end ≤ length line.now }
    ensures { IsLeftIn line.now result }
{
    let rest = &line[end..];
    match rest.first() {
        Some(b'/') => SyntaxFault::at(SyntaxKind::StrayOperator, rest),
        Some(b'$') => SyntaxFault::at(SyntaxKind::AnchorInside, rest),
        _ => {
            let opening = &line[opening_of(line, groups)..];
            SyntaxFault::at(SyntaxKind::UnclosedGroup, opening)
        }
    }
}

/// The offset of the `(` that opens the innermost group, if `groups` groups are open at the end of a side. It is the
/// last one that increases the depth to this number.
fn opening_of(line: &[u8], groups: usize) -> usize
    ensures { result ≤ length line.now }
{
    let mut opening = 0;
    let mut depth: usize = 0;
    let mut at = 0;
    while !can_end(&line[at..]) {
        let Ok((element, length)) = next_element(&line[at..]) else {
            return opening;
        };
        match element {
            Element::Opening => {
                depth = depth.saturating_add(1);
                if depth == groups {
                    opening = at;
                }
            }
            Element::Closing => depth = depth.saturating_sub(1),
            _ => {}
        }
        at += length;
    }
    opening
}

/// Whether a pattern may end before this text on its line.
pub(crate) fn is_behind(rest: &[u8]) -> bool
    ensures { MatchBool result (IsBehind rest.now) (IsBehind rest.now → ⊥) }
{
    match rest.first() {
        None => true,
        Some(first) => is_blank(*first),
    }
}

/// Returns the innermost group after one more element. `outer` has the groups around it.
fn with_element(
    arena: &mut Arena,
    outer: &mut Vec<Level>,
    level: Level,
    element: Element<'_>,
    names: &Names,
) -> Result<Level, StepFault>
    requires parts { ArePartsBelow (length arena.old) level }
    requires outer_parts { All (ArePartsBelow (length arena.old)) outer.old.items }
    requires formed { IsWellFormed element }
    ensures parts { IfOk result (ArePartsBelow (length arena.new)) }
    ensures outer_parts { OnOk result (All (ArePartsBelow (length arena.new)) outer.new.items) }
    ensures step { IfOk result (λ l. LeadsOn names.now element.entry (reading_of arena.old outer.old.items level)
        (reading_of arena.new outer.new.items l)) }
    ensures refused { IfErr result (λ e. e ≢ step.OutOfMemory
        → LeadsNowhere names.now element.entry (reading_of arena.old outer.old.items level)) }
{
    match element {
        Element::OneOf(set) => {
            let atom = arena.push(Node::Set(set))?;
            Ok(level.with_atom(arena, atom)?)
        }
        Element::String(inside) => {
            let atom = push_string(arena, inside)?;
            Ok(level.with_atom(arena, atom)?)
        }
        Element::Name(name) => {
            let number = names.find(name).ok_or(SyntaxKind::UnknownName)?;
            let atom = arena.push(Node::Name(number))?;
            Ok(level.with_atom(arena, atom)?)
        }
        Element::Opening => {
            outer.push(level)?;
            Ok(Level::new())
        }
        Element::Closing => close(arena, outer, level),
        Element::Bar => level.with_bar(arena),
        Element::Postfix(postfix) => level.with_postfix(arena, postfix),
        Element::Interval { least, most } => level.with_interval(arena, least, most),
        Element::Mark(mark) => Err(StepFault::Syntax(mark_fault(mark))),
    }
}

/// The error of a mark where none is allowed.
fn mark_fault(mark: Mark) -> SyntaxKind {
    match mark {
        Mark::Caret | Mark::DollarSign => SyntaxKind::AnchorInside,
        Mark::Slash => SyntaxKind::StrayOperator,
    }
}

/// Ends a group and returns the enclosing group, with the ended one as its next atom.
fn close(arena: &mut Arena, outer: &mut Vec<Level>, level: Level) -> Result<Level, StepFault>
    requires parts { ArePartsBelow (length arena.old) level }
    requires outer_parts { All (ArePartsBelow (length arena.old)) outer.old.items }
    ensures parts { IfOk result (ArePartsBelow (length arena.new)) }
    ensures outer_parts { OnOk result (All (ArePartsBelow (length arena.new)) outer.new.items) }
    ensures closed { IfOk result (λ l. closed (groups_of arena.old outer.old.items) (whole (group_of arena.old level))
        ≡ Some (reading_of arena.new outer.new.items l)) }
    ensures refused { IfErr result (λ e. e ≢ step.OutOfMemory
        → closed (groups_of arena.old outer.old.items) (whole (group_of arena.old level)) ≡ None) }
{
    let Some(around) = outer.pop() else {
        return Err(StepFault::Syntax(SyntaxKind::StrayOperator));
    };
    let atom = level.whole(arena)?;
    Ok(around.with_atom(arena, atom)?)
}

/// Adds a string's bytes one after another. `behind` is the text after its opening quote.
fn push_string(arena: &mut Arena, behind: &[u8]) -> Result<usize, StepFault>
    ensures within { IfOk result (λ n. n < length arena.new) }
    ensures grown { IsExtended arena.old arena.new }
    ensures string { IfOk result (λ n. (bs : List ℕ) × (rest : List ℕ) × Quoted behind.now bs rest
        × (part_of arena.new n ≡ in_order bs)) }
    ensures refused { IfErr result (λ e. e ≢ step.OutOfMemory → BeginsNo Quoted behind.now) }
{
    let Some((byte, mut at)) = quoted_byte(behind)? else {
        return Ok(arena.push(Node::Empty)?);
    };
    let mut string = push_byte(arena, byte)?;
    while let Some((byte, length)) = quoted_byte(&behind[at..])? {
        let next = push_byte(arena, byte)?;
        string = arena.push(Node::Concat(string, next))?;
        at += length;
    }
    Ok(string)
}

/// Adds a byte of a string.
fn push_byte(arena: &mut Arena, byte: u8) -> Result<usize, AllocError>
    ensures within { IfOk result (λ n. n < length arena.new) }
    ensures grown { IsExtended arena.old arena.new }
    ensures byte { IfOk result (λ n. part_of arena.new n ≡ set (byte ∷ [])) }
{
    arena.push(Node::Set(ByteSet::of(byte)))
}
