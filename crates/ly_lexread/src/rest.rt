ghost use Rattle.std.specs.Prelude.{◌≡◌, [], ◌-◌, ◌<◌, ℕ, List, ◌≤◌, drop, length, not, nat_eq, IfSome, MatchOption};
ghost use Rattle.std.specs.List.{position_or_len};
ghost use Rattle.ly_lexread.specs.Lines.{LineBefore, LineOf, left_in};

use crate::fault::{LexFault, LexFaultKind};

/// The rest of a file that isn't read yet.
#[derive(Clone, Copy)]
pub(crate) struct Rest<'t> {
    /// The bytes that are left.
    pub(crate) bytes: &'t [u8],
    /// The length of the whole file in bytes.
    pub(crate) whole: usize,
}

impl<'t> Rest<'t> {
    /// Returns a whole file.
    pub(crate) fn of(bytes: &'t [u8]) -> Self
        ensures bytes { result.bytes ≡ bytes.entry }
        ensures whole { result.whole ≡ length bytes.now }
    {
        Rest {
            bytes,
            whole: bytes.len(),
        }
    }

    /// The offset of the first byte that is left.
    pub(crate) fn offset(self) -> usize
        ensures { result ≡ self.entry.whole - length self.entry.bytes.now }
    {
        self.whole.saturating_sub(self.bytes.len())
    }

    /// The offset in the file of `left`, which is the end of `front`. `front` is the start of the bytes that are left.
    pub(crate) fn offset_in(self, front: &[u8], left: &[u8]) -> usize
        ensures { result ≤ self.entry.whole }
    {
        let line = Line {
            bytes: front,
            text: self,
        };
        self.whole.saturating_sub(line.left_from(left))
    }

    /// The offset of the last byte of the file; 0 for an empty file.
    pub(crate) fn last_offset(self) -> usize
        ensures { result ≡ self.entry.whole - 1 }
    {
        self.whole.saturating_sub(1)
    }

    /// Splits off the first line, without its newline. Returns it and the rest; `None` if nothing is left.
    pub(crate) fn first_line(self) -> Option<(&'t [u8], Rest<'t>)>
        ensures these { MatchOption result (self.entry.bytes.now ≡ [])
            (λ found. LineBefore self.entry.bytes.now found.0.now found.1.bytes.now) }
        ensures shorter { IfSome result (λ found. length found.1.bytes.now < length self.entry.bytes.now) }
        ensures whole { IfSome result (λ found. found.1.whole ≡ self.entry.whole) }
    {
        if self.bytes.is_empty() {
            return None;
        }
        let (first, end) = self.bytes.split_at(line_length(self.bytes));
        let bytes = behind_newline(end);
        Some((first, Rest { bytes, ..self }))
    }

    /// The first line, without its newline.
    pub(crate) fn line_bytes(self) -> &'t [u8]
        ensures { (end : List ℕ) × LineOf self.entry.bytes.now result.now end }
    {
        let (line, _end) = self.bytes.split_at(line_length(self.bytes));
        line
    }
}

/// The first line of the rest of a file.
#[derive(Clone, Copy)]
pub(crate) struct Line<'t> {
    /// The bytes of the line, without the newline.
    pub(crate) bytes: &'t [u8],
    /// The rest of the file from the start of the line on.
    pub(crate) text: Rest<'t>,
}

impl Line<'_> {
    /// The number of bytes of the file from `left` on, which is the end of the line.
    pub(crate) fn left_from(self, left: &[u8]) -> usize
        ensures { result ≡ left_in self.entry.text.bytes.now self.entry.bytes.now left.now }
    {
        let before = self.bytes.len().saturating_sub(left.len());
        self.text.bytes.len().saturating_sub(before)
    }

    /// The error of the file at the start of `left`, which is the end of the line.
    pub(crate) fn fault(self, kind: LexFaultKind, left: &[u8]) -> LexFault
        ensures { (offset : ℕ) × (result ≡ LexFault.Refused kind offset) × (offset ≤ self.entry.text.whole) }
    {
        LexFault::Refused {
            kind,
            offset: self.text.whole.saturating_sub(self.left_from(left)),
        }
    }
}

/// Splits a text into its first line, without the newline, and the rest. `None` if the text is empty.
pub fn first_line(text: &[u8]) -> Option<(&[u8], &[u8])>
    ensures { MatchOption result (text.now ≡ []) (λ found. LineBefore text.now found.0.now found.1.now) }
{
    let (line, behind) = Rest::of(text).first_line()?;
    Some((line, behind.bytes))
}

/// The number of bytes before the first newline.
pub(crate) fn line_length(bytes: &[u8]) -> usize
    ensures within { result ≤ length bytes.now }
    ensures value { result ≡ position_or_len (λ byte. nat_eq byte 10) bytes.now }
{
    bytes
        .iter()
        .position(|byte| *byte == b'\n')
        .unwrap_or(bytes.len())
}

/// Returns what follows the newline that ends a line; nothing if the text ends there.
pub(crate) fn behind_newline(end: &[u8]) -> &[u8]
    ensures { result.now ≡ drop 1 end.now }
{
    match end.split_first() {
        Some((_newline, behind)) => behind,
        None => end,
    }
}
