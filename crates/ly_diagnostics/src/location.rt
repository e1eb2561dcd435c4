use ly_base::{Location, is_blank};

/// How many bytes of its line precede a location.
pub(crate) fn bytes_before(at: Location) -> usize {
    usize::try_from(at.column.saturating_sub(1)).unwrap_or(usize::MAX)
}

/// The offset of the start of a line. If there is no such line, it is the end of the text or past it.
pub(crate) fn line_start(text: &[u8], line: u64) -> usize {
    let before = usize::try_from(line.saturating_sub(1)).unwrap_or(usize::MAX);
    let mut start: usize = 0;
    for line in text.split(is_newline).take(before) {
        start = start.saturating_add(line.len()).saturating_add(1);
    }
    start
}

/// The length of the first line without its newline.
pub(crate) fn line_length(text: &[u8]) -> usize {
    text.iter().position(is_newline).unwrap_or(text.len())
}

/// How many bytes precede the first blank of the first line.
pub(crate) fn length_to_blank(text: &[u8]) -> usize {
    let line = text.get(..line_length(text)).unwrap_or(text);
    line.iter().position(is_blank_byte).unwrap_or(line.len())
}

/// Whether a byte ends a line.
pub(crate) fn is_newline(byte: &u8) -> bool {
    *byte == b'\n'
}

/// Whether a byte is a blank.
pub(crate) fn is_blank_byte(byte: &u8) -> bool {
    is_blank(*byte)
}

/// The text from an offset on; empty if the text ends before it.
pub(crate) fn from_offset(text: &[u8], offset: usize) -> &[u8] {
    text.get(offset..).unwrap_or(b"")
}
