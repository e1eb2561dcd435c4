//! What editors of other systems leave in a text: a byte-order mark at the start, and a CR before each newline.
use crate::edit::push_all;
use crate::location::is_newline;
use ly_base::OutOfMemory;
use std::alloc::Global;

/// The byte-order mark of UTF-8.
const BYTE_ORDER_MARK: &[u8] = b"\xef\xbb\xbf";

/// Whether a text begins with a byte-order mark.
pub(crate) fn has_byte_order_mark(text: &[u8]) -> bool {
    text.starts_with(BYTE_ORDER_MARK)
}

/// The text with these bytes in place of a byte-order mark, and without the CR before each newline. It is the same text
/// if it has neither.
pub(crate) fn without_marks(
    alloc: Global,
    text: &[u8],
    front: &[u8],
) -> Result<Vec<u8>, OutOfMemory> {
    let marked = text.strip_prefix(BYTE_ORDER_MARK);
    let mut plain = Vec::from_slice(alloc, if marked.is_some() { front } else { b"" })?;
    for line in marked.unwrap_or(text).split_inclusive(is_newline) {
        let parts: [&[u8]; 2] = match line.strip_suffix(b"\r\n") {
            Some(line) => [line, b"\n"],
            None => [line, b""],
        };
        push_all(&mut plain, &parts)?;
    }
    Ok(plain)
}
