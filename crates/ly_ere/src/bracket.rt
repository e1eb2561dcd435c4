ghost use Rattle.std.specs.Option.{IfNone};
ghost use Rattle.std.specs.Prelude.{◌≡◌, ◌≢◌, ℕ, ◌+◌, ◌<◌, ◌≤◌, List, [], ◌∷◌, drop, length, true, Some, None, IfErr};
ghost use Rattle.std.specs.Prelude.{IfOk, IfSome};
ghost use Rattle.ly_base.specs.ByteSet.{has, members};
ghost use Rattle.ly_ere.specs.Private.Brackets.{AreItems, IsAdded, IsNamed, as_classes, names};
ghost use Rattle.ly_ere.specs.Private.Faults.{IsLeftIn};
ghost use Rattle.ly_ere.specs.Private.Front.{BeginsNo, IsTaken};
ghost use Rattle.ly_ere.specs.Elements.{begins};
ghost use Rattle.ly_ere.specs.Elements.{IsClass, Bracketed, Item, Items, Point, Points, begins_range, class_of};
ghost use Rattle.ly_ere.specs.Elements.{found_in};

use crate::fault::{SyntaxFault, SyntaxKind};
use crate::front::{begins, leading_escape, stands_at};
use ly_base::ByteSet;

/// Reads the bracket expression at the start of a text, whose first byte is `[`. Returns its bytes, at least one, and
/// the number of bytes read (POSIX, XBD 9.3.5, in the POSIX locale).
pub(crate) fn bracket(text: &[u8]) -> Result<(ByteSet, usize), SyntaxFault>
    requires some { 0 < length text.now }
    ensures set { IfOk result (λ found. members found.0 ≢ []) }
    ensures front { IfOk result (λ found. IsTaken text.now found.1) }
    ensures listed { IfOk result (λ found. Bracketed (drop 1 text.now) (members found.0) (drop found.1 text.now)) }
    ensures refused { IfErr result (λ _. BeginsNo Bracketed (drop 1 text.now)) }
    ensures at { IfErr result (IsLeftIn text.now) }
{
    let behind = &text[1..];
    if stands_at(behind, 0, b'^') {
        let (set, length) = items(&behind[1..])?;
        return Ok((some_byte(set.complement(), text)?, length + 2));
    }
    let (set, length) = items(behind)?;
    Ok((some_byte(set, text)?, length + 1))
}

/// Returns the set of the bracket expression at the start of `text`, or an error if it is empty.
fn some_byte(set: ByteSet, text: &[u8]) -> Result<ByteSet, SyntaxFault>
    ensures same { IfOk result (λ same. same ≡ set) }
    ensures some { IfOk result (λ same. members same ≢ []) }
    ensures none { IfErr result (λ _. members set ≡ []) }
    ensures at { IfErr result (IsLeftIn text.now) }
{
    if set.is_empty() {
        return Err(SyntaxFault::at(SyntaxKind::EmptySet, text));
    }
    Ok(set)
}

/// Reads one or more items up to the `]` that ends them. Returns their bytes, and the number of bytes read including
/// the `]`.
fn items(text: &[u8]) -> Result<(ByteSet, usize), SyntaxFault>
    ensures within { IfOk result (λ found. found.1 ≤ length text.now) }
    ensures items { IfOk result (λ found. AreItems text.now (has found.0) (drop found.1 text.now)) }
    ensures refused { IfErr result (λ _. BeginsNo (Items true) text.now) }
    ensures at { IfErr result (IsLeftIn text.now) }
{
    let mut set = ByteSet::new();
    let mut at = add_item(&mut set, text, true)?;
    while !stands_at(text, at, b']') {
        at += add_item(&mut set, &text[at..], false)?;
    }
    Ok((set, at + 1))
}

/// Adds the item at the start of a text to the set and returns the number of bytes read. A `-` denotes itself as the
/// first item, as the last one, and as the end of a range.
fn add_item(set: &mut ByteSet, text: &[u8], is_first: bool) -> Result<usize, SyntaxFault>
    ensures front { IfOk result (IsTaken text.now) }
    ensures item { IfOk result (λ taken. (rs : List (ℕ × ℕ)) × Item is_first text.now rs (drop taken text.now)
        × IsAdded set.old set.new rs) }
    ensures refused { IfErr result (λ _. BeginsNo (Item is_first) text.now) }
    ensures at { IfErr result (IsLeftIn text.now) }
{
    if begins(text, b':') {
        return add_class(set, text);
    }
    if begins(text, b'=') {
        let (byte, length) = named_byte(text, b'=')?;
        set.insert(byte);
        return Ok(length);
    }
    if !is_first && begins_range(text) {
        return Err(SyntaxFault::at(SyntaxKind::BadRange, text));
    }
    add_range(set, text)
}

/// Adds the class at the start of a text and returns the number of bytes read.
fn add_class(set: &mut ByteSet, text: &[u8]) -> Result<usize, SyntaxFault>
    requires { begins text.now 58 ≡ true }
    ensures front { IfOk result (IsTaken text.now) }
    ensures item { IfOk result (λ taken. (rs : List (ℕ × ℕ)) × IsClass text.now rs (drop taken text.now)
        × IsAdded set.old set.new rs) }
    ensures refused { IfErr result (λ _. BeginsNo IsClass text.now) }
    ensures at { IfErr result (IsLeftIn text.now) }
{
    let end = named_end(text, b':').ok_or(SyntaxFault::at(SyntaxKind::UnclosedBracket, text))?;
    let ranges = class(&text[2..end]).ok_or(SyntaxFault::at(SyntaxKind::UnknownClass, text))?;
    for (low, high) in ranges {
        set.insert_range(*low, *high);
    }
    Ok(end + 2)
}

/// Whether the text starts with a `-` that isn't the last item.
fn begins_range(text: &[u8]) -> bool
    ensures { result ≡ begins_range text.now }
{
    stands_at(text, 0, b'-') && !stands_at(text, 1, b']')
}

/// Adds the byte or the range at the start of a text and returns the number of bytes read.
fn add_range(set: &mut ByteSet, text: &[u8]) -> Result<usize, SyntaxFault>
    ensures front { IfOk result (IsTaken text.now) }
    ensures points { IfOk result (λ taken. (rs : List (ℕ × ℕ)) × Points text.now rs (drop taken text.now)
        × IsAdded set.old set.new rs) }
    ensures refused { IfErr result (λ _. BeginsNo Points text.now) }
    ensures at { IfErr result (IsLeftIn text.now) }
{
    let (low, low_length) = point(text)?;
    let behind = &text[low_length..];
    if !begins_range(behind) {
        set.insert(low);
        return Ok(low_length);
    }
    let end = &behind[1..];
    let (high, high_length) = match point(end) {
        Ok(found) => found,
        Err(fault) => return Err(fault.begun_at(SyntaxKind::BadRange, text)),
    };
    if high < low {
        return Err(SyntaxFault::at(SyntaxKind::BadRange, text));
    }
    set.insert_range(low, high);
    Ok(low_length + 1 + high_length)
}

/// Reads the byte, escape or `[. .]` at the start. Returns its byte and the number of bytes read.
fn point(text: &[u8]) -> Result<(u8, usize), SyntaxFault>
    ensures front { IfOk result (λ found. IsTaken text.now found.1) }
    ensures point { IfOk result (λ found. Point text.now found.0 (drop found.1 text.now)) }
    ensures refused { IfErr result (λ _. BeginsNo Point text.now) }
    ensures at { IfErr result (IsLeftIn text.now) }
{
    let Some(&byte) = text.first() else {
        return Err(SyntaxFault::at(SyntaxKind::UnclosedBracket, text));
    };
    if byte == b'\n' {
        return Err(SyntaxFault::at(SyntaxKind::UnclosedBracket, text));
    }
    if byte == b'\\' {
        return leading_escape(text);
    }
    if begins(text, b'.') {
        return named_byte(text, b'.');
    }
    if begins(text, b':') || begins(text, b'=') {
        return Err(SyntaxFault::at(SyntaxKind::BadRange, text));
    }
    Ok((byte, 1))
}

/// Reads the `[. .]` or `[= =]` at the start. Returns the one byte that it names and the number of bytes read.
fn named_byte(text: &[u8], mark: u8) -> Result<(u8, usize), SyntaxFault>
    ensures length { IfOk result (λ found. (found.1 ≡ 5) × (5 ≤ length text.now)) }
    ensures named { IfOk result (λ found. names text.now mark ≡ Some found.0) }
    ensures refused { IfErr result (λ _. names text.now mark ≡ None) }
    ensures at { IfErr result (IsLeftIn text.now) }
{
    if stands_at(text, 2, b'\n') {
        return Err(SyntaxFault::at(SyntaxKind::UnclosedBracket, text));
    }
    if stands_at(text, 3, mark) && stands_at(text, 4, b']') {
        return Ok((text[2], 5));
    }
    let kind = match named_end(text, mark) {
        None => SyntaxKind::UnclosedBracket,
        Some(_) => SyntaxKind::UnknownClass,
    };
    Err(SyntaxFault::at(kind, text))
}

/// The offset of the mark that, with a `]`, ends the named form at the start of a text; `None` if the line ends before.
fn named_end(text: &[u8], mark: u8) -> Option<usize>
    ensures within { IfSome result (λ end. (2 ≤ end) × (end + 2 ≤ length text.now)) }
    ensures ends { IfSome result (λ end. drop end text.now ≡ mark ∷ 93 ∷ drop (end + 2) text.now) }
    ensures first { IfSome result (λ end. (name rest : List ℕ) → IsNamed mark (drop 2 text.now) name rest
        → end ≡ 2 + length name) }
    ensures none { IfNone result (BeginsNo (IsNamed mark) (drop 2 text.now)) }
{
    for at in 2..text.len() {
        if text[at] == b'\n' {
            return None;
        }
        if text[at] == mark && stands_at(text, at + 1, b']') {
            return Some(at);
        }
    }
    None
}

/// The character classes of the POSIX locale: each name with its ranges.
static CLASSES: [(&[u8], &[(u8, u8)]); 12] = [
    (b"upper", &[(b'A', b'Z')]),
    (b"lower", &[(b'a', b'z')]),
    (b"alpha", &[(b'A', b'Z'), (b'a', b'z')]),
    (b"digit", &[(b'0', b'9')]),
    (b"alnum", &[(b'0', b'9'), (b'A', b'Z'), (b'a', b'z')]),
    (b"xdigit", &[(b'0', b'9'), (b'A', b'F'), (b'a', b'f')]),
    (b"blank", &[(b'\t', b'\t'), (b' ', b' ')]),
    (b"space", &[(9, 13), (b' ', b' ')]),
    (b"cntrl", &[(0, 31), (127, 127)]),
    (b"graph", &[(33, 126)]),
    (b"print", &[(32, 126)]),
    (b"punct", &[(33, 47), (58, 64), (91, 96), (123, 126)]),
];

/// The ranges of the character class with this name, if there is one.
fn class(name: &[u8]) -> Option<&'static [(u8, u8)]>
    ensures some { IfSome result (λ ranges. class_of name.now ≡ Some ranges.now) }
    ensures none { IfNone result (class_of name.now ≡ None) }
{
    ranges_in(&CLASSES, name)
}

/// The ranges of a name in a table.
fn ranges_in<'a>(table: &[(&[u8], &'a [(u8, u8)])], name: &[u8]) -> Option<&'a [(u8, u8)]>
    ensures some { IfSome result (λ ranges. found_in (as_classes table.now) name.now ≡ Some ranges.now) }
    ensures none { IfNone result (found_in (as_classes table.now) name.now ≡ None) }
{
    for (known, ranges) in table {
        if *known == name {
            return Some(ranges);
        }
    }
    None
}
