//! Paths as they are printed.
use ly_text_buffer::is_printable;
use std::alloc::{AllocError, Global};
use std::fmt::{self, Display, Formatter};

/// A path in which characters that aren't printable are escaped byte by byte, as in source lines. So the name of a file
/// can't move the cursor of a terminal, change the order of what it shows, or begin a line.
#[derive(Clone, Copy)]
pub struct ShownPath<'a>(pub &'a str);

impl ShownPath<'_> {
    /// The path as text. Returns an error if memory runs out.
    pub fn text(&self, alloc: Global) -> Result<String, AllocError> {
        Ok(format!(in alloc; "{self}")?)
    }
}

impl Display for ShownPath<'_> {
    fn fmt<W: fmt::Write>(&self, f: &mut Formatter<W>) -> fmt::Result {
        for shown in self.0.chars() {
            match shown {
                '\n' => f.write_str("\\n")?,
                '\t' => f.write_str("\\t")?,
                _ if is_printable(shown) => f.write_char(shown)?,
                _ => escape(f, shown)?,
            }
        }
        Ok(())
    }
}

/// Writes the bytes of a character as their numbers.
fn escape<W: fmt::Write>(f: &mut Formatter<W>, shown: char) -> fmt::Result {
    let mut room = [0; 4];
    for byte in shown.encode_utf8(&mut room).bytes() {
        write!(f, "\\x{byte:02x}")?;
    }
    Ok(())
}
