use ly_base::OutOfMemory;
use std::alloc::Global;

/// A change of a text that fixes an error: bytes are replaced.
#[derive(Clone, Copy)]
pub(crate) struct Edit {
    /// The offset of the first replaced byte.
    pub(crate) from: usize,
    /// The offset after the last replaced byte.
    pub(crate) to: usize,
    /// The replacement. Blanks fill it up to the length of the replaced bytes.
    pub(crate) by: &'static [u8],
}

impl Edit {
    /// Replaces this many bytes, at least one, with blanks.
    pub(crate) fn blank(from: usize, length: usize) -> Edit {
        Edit {
            from,
            to: from.saturating_add(length.max(1)),
            by: b"",
        }
    }

    /// Replaces this many bytes with others.
    pub(crate) fn replace(from: usize, length: usize, by: &'static [u8]) -> Edit {
        Edit {
            from,
            to: from.saturating_add(length),
            by,
        }
    }

    /// Returns the changed text. The bytes after the change keep their offsets, unless the replacement is longer than
    /// what it replaces.
    pub(crate) fn applied(&self, alloc: Global, text: &[u8]) -> Result<Vec<u8>, OutOfMemory> {
        let (before, rest) = text.split_at(self.from.min(text.len()));
        let length = self.to.saturating_sub(self.from);
        let (replaced, behind) = rest.split_at(length.min(rest.len()));
        let mut edited = Vec::from_slice(alloc, before)?;
        edited.extend_from_slice(self.by)?;
        for byte in replaced.iter().skip(self.by.len()) {
            edited.push(if *byte == b'\n' { b'\n' } else { b' ' })?;
        }
        edited.extend_from_slice(behind)?;
        Ok(edited)
    }
}

/// Appends texts, one after another.
pub(crate) fn push_all(text: &mut Vec<u8>, parts: &[&[u8]]) -> Result<(), OutOfMemory> {
    for part in parts {
        text.extend_from_slice(part)?;
    }
    Ok(())
}

/// The changed text, or `None` if it is the same as before.
pub(crate) fn if_changed(text: &[u8], next: Vec<u8>) -> Option<Vec<u8>> {
    if next.as_slice() == text {
        None
    } else {
        Some(next)
    }
}
