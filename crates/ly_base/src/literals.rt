ghost use Rattle.std.specs.Prelude.{◌≡◌, ◌↔◌, ℕ, List, ◌<◌, ◌≤◌, drop, length, IfSome};
ghost use Rattle.std.specs.Option.{IfNone};
ghost use Rattle.ly_base.specs.Literals.{Inside, Literal};

use crate::escapes::escape;

/// Reads the literal at the start of `text`: one byte or one escape between single quotes (POSIX, yacc, "Declarations
/// Section"). A backslash before a newline denotes the newline. Returns the byte, which isn't 0, and the number of
/// bytes read, or `None` if there is no literal.
pub fn literal(text: &[u8]) -> Option<(u8, usize)>
    ensures byte { IfSome result (λ found. 0 < found.0) }
    ensures within { IfSome result (λ found. found.1 ≤ length text.now) }
    ensures literal { IfSome result (λ found. Literal text.now found.0 (drop found.1 text.now)) }
    ensures none { IfNone result ((byte : ℕ) (rest : List ℕ) → Literal text.now byte rest → ⊥) }
{
    if *text.first()? != b'\'' {
        return None;
    }
    let inside = &text[1..];
    let (byte, length) = literal_byte(inside)?;
    let closing = *inside.get(length)?;
    if byte == 0 || closing != b'\'' {
        return None;
    }
    Some((byte, length + 2))
}

/// Reads the byte or escape that follows the opening quote.
fn literal_byte(inside: &[u8]) -> Option<(u8, usize)>
    ensures within { IfSome result (λ found. found.1 ≤ length inside.now) }
    ensures inside { IfSome result (λ found. (byte : ℕ) (rest : List ℕ) → Inside inside.now byte rest
        ↔ ((byte ≡ found.0) × (rest ≡ drop found.1 inside.now))) }
    ensures none { IfNone result ((byte : ℕ) (rest : List ℕ) → Inside inside.now byte rest → ⊥) }
{
    if inside.starts_with(b"\\\n") {
        return Some((b'\n', 2));
    }
    match *inside.first()? {
        b'\\' => escape(inside).ok(),
        b'\'' => None,
        byte => Some((byte, 1)),
    }
}
