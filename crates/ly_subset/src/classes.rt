ghost use Rattle.std.specs.Prelude.{◌≡◌, ◌<◌, ℕ, length, false, IfOk, IfSome};
ghost use Rattle.ly_base.specs.ByteSet.{has};
ghost use Rattle.ly_position.specs.Nfa.{ReadsByte};
ghost use Rattle.ly_subset.specs.Classes.{AreClasses};
ghost use Rattle.ly_subset.specs.Private.Classes.{AreOrdered, AreUnnamed, AreLeast, IsSplit, IsSplitBy, reads_in};

use ly_base::ByteSet;
use ly_position::{PosNfa, Position};
use std::alloc::{AllocError, Global};

/// The partition of the bytes into classes. Two bytes are in one class if the same positions read them.
#[derive(Drop)]
pub(crate) struct ByteClasses {
    /// The class of each byte.
    pub(crate) class_of: Vec<u8>,
    /// The least byte of each class.
    pub(crate) least: Vec<u8>,
}

/// Computes the classes of bytes, numbered by their least bytes.
pub(crate) fn byte_classes(alloc: Global, nfa: &PosNfa) -> Result<ByteClasses, AllocError>
    ensures classes { IfOk result (λ k. AreClasses nfa.now k.class_of.items (length k.least.items)) }
    ensures least { IfOk result (λ k. AreLeast k.class_of.items k.least.items) }
{
    let class_of = split_by_all(alloc, nfa)?;
    let least = least_bytes(alloc, &class_of)?;
    Ok(ByteClasses { class_of, least })
}

/// The class of each byte: one class of all bytes, split by the bytes of each position in turn.
fn split_by_all(alloc: Global, nfa: &PosNfa) -> Result<Vec<u8>, AllocError>
    ensures { IfOk result (λ c. IsSplitBy nfa.now (length nfa.now.positions) c.items) }
{
    let Ok(count) = u32::try_from(nfa.len()) else {
        return Err(AllocError);
    };
    let mut class_of = vec![in alloc; 0; 256]?;
    let mut names = vec![in alloc; None; 512]?;
    for number in 0..count {
        split(&mut class_of, &mut names, &nfa.position(number));
    }
    Ok(class_of)
}

/// Splits each class into the bytes that a position reads and those that it doesn't.
fn split(class_of: &mut Vec<u8>, names: &mut Vec<Option<u8>>, position: &Position)
    requires bytes { length class_of.old.items ≡ 256 }
    requires names { length names.old.items ≡ 512 }
    ensures split { IsSplit class_of.old.items (reads_in position.now) class_of.new.items }
    ensures names { length names.new.items ≡ 512 }
{
    if let Position::Reads { bytes } = position {
        clear(names);
        rename(class_of, names, bytes);
    }
}

/// Clears all new numbers.
fn clear(names: &mut Vec<Option<u8>>)
    ensures none { AreUnnamed names.new.items }
    ensures same { length names.new.items ≡ length names.old.items }
{
    for key in 0..names.len() {
        names[key] = None;
    }
}

/// Renumbers the classes in the order of their bytes, by their old numbers and whether a byte is in the set.
fn rename(class_of: &mut Vec<u8>, names: &mut Vec<Option<u8>>, bytes: &ByteSet)
    requires bytes { length class_of.old.items ≡ 256 }
    requires names { length names.old.items ≡ 512 }
    requires none { AreUnnamed names.old.items }
    ensures split { IsSplit class_of.old.items (has bytes.now) class_of.new.items }
    ensures names { length names.new.items ≡ 512 }
{
    let mut count = 0usize;
    for byte in 0..256 {
        let key = 2 * usize::from(class_of[byte]) + usize::from(bytes.contains(byte as u8));
        let class = match names[key] {
            Some(class) => class,
            None => {
                let class = count as u8;
                names[key] = Some(class);
                count += 1;
                class
            }
        };
        class_of[byte] = class;
    }
}

/// The least byte of each class, in the order of the classes.
fn least_bytes(alloc: Global, class_of: &[u8]) -> Result<Vec<u8>, AllocError>
    requires bytes { length class_of.now ≡ 256 }
    requires order { AreOrdered class_of.now }
    ensures { IfOk result (λ l. AreLeast class_of.now l.items) }
{
    let mut least = Vec::new(alloc);
    for byte in 0..256 {
        if usize::from(class_of[byte]) == least.len() {
            least.push(byte as u8)?;
        }
    }
    Ok(least)
}

/// The first of some bytes that no position reads, if there is one.
pub(crate) fn unread_byte(nfa: &PosNfa, bytes: &[u8]) -> Option<u8>
    ensures { IfSome result (λ b. (p : ℕ) → ReadsByte nfa.now p b → ⊥) }
{
    for byte in bytes {
        if !is_read(nfa, *byte) {
            return Some(*byte);
        }
    }
    None
}

/// Whether a position reads the byte. It may return true if none does.
fn is_read(nfa: &PosNfa, byte: u8) -> bool
    ensures { result ≡ false → (p : ℕ) → ReadsByte nfa.now p byte → ⊥ }
{
    let Ok(count) = u32::try_from(nfa.len()) else {
        return true;
    };
    for number in 0..count {
        if nfa.reads(number, byte) {
            return true;
        }
    }
    false
}
