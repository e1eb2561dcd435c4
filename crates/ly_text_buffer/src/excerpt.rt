ghost use Rattle.ly_text_buffer.specs.TextBuffer.{SaysMore};

use crate::buffer::TextBuffer;
use crate::named_file::NamedFile;
use crate::shown_text::{next_unit, push_shown, start_of_unit};
use ly_base::Location;

/// Printed before each line of an excerpt and each indented line below a message.
pub const MARGIN: &[u8] = b"    ";

/// Lines of more bytes are printed in part: about so many bytes of them.
const WIDEST: usize = 160;

impl TextBuffer {
    /// Appends the line at a location of a file, and a caret under the location. Of a line of more than 160 bytes it
    /// appends the part around the location. Appends nothing if the line is empty or doesn't exist.
    pub fn push_excerpt(&mut self, file: NamedFile<'_>, at: Location)
        ensures { SaysMore self.old self.new }
    {
        let mut lines = TextBuffer::new(self.allocator());
        push_lines(&mut lines, file, at);
        self.push_buffer(lines);
    }
}

/// Appends the line at a location, or the part of it around the location if it is long, and a caret under the location.
fn push_lines(buffer: &mut TextBuffer, file: NamedFile<'_>, at: Location) {
    let Some(line) = file.line(at.line) else {
        return;
    };
    let line = line.strip_suffix(b"\r").unwrap_or(line);
    if line.is_empty() {
        return;
    }
    let before = bytes_before(at);
    let start = if line.len() > WIDEST {
        start_of_unit(line, before.saturating_sub(WIDEST / 2).min(line.len()))
    } else {
        0
    };
    let (shown, cut) = shown_part(line, start);
    buffer.push(MARGIN);
    buffer.push(if start > 0 { b"..." } else { b"" });
    push_shown(buffer, shown);
    buffer.push(if cut { b"...\n" } else { b"\n" });
    buffer.push(MARGIN);
    buffer.push(if start > 0 { b"   " } else { b"" });
    push_distance(buffer, shown, before.saturating_sub(start));
    buffer.push(b"^\n");
}

/// How many bytes of its line precede a location.
fn bytes_before(at: Location) -> usize {
    usize::try_from(at.column.saturating_sub(1)).unwrap_or(usize::MAX)
}

/// The part of a line that is printed, and whether more of the line follows it.
fn shown_part(line: &[u8], start: usize) -> (&[u8], bool) {
    let behind = line.get(start..).unwrap_or(b"");
    if behind.len() <= WIDEST {
        return (behind, false);
    }
    (
        behind
            .get(..start_of_unit(behind, WIDEST))
            .unwrap_or(behind),
        true,
    )
}

/// Appends the blanks that are as wide as the characters among the first bytes of a line are when they are printed.
/// Tabs stay tabs.
fn push_distance(buffer: &mut TextBuffer, line: &[u8], bytes: usize) {
    let mut rest = line;
    for _ in 0..line.len() {
        let passed = line.len().saturating_sub(rest.len());
        let Some((unit, behind)) = next_unit(rest) else {
            return;
        };
        if passed >= bytes {
            return;
        }
        for _ in 0..unit.width() {
            buffer.push(if rest.first() == Some(&b'\t') {
                b"\t"
            } else {
                b" "
            });
        }
        rest = behind;
    }
}
