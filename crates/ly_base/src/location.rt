ghost use Rattle.std.specs.Prelude.{◌≡◌, ◌≤◌, count_by, length, not, reverse, take};
ghost use Rattle.std.specs.List.{take_while};
ghost use Rattle.ly_base.specs.Location.{column_behind, is_newline, line_behind};

/// A line and a column of a text.
#[derive(Clone, Copy, Debug, PartialEq, Eq)]
pub struct Location {
    /// The line, counted from 1.
    pub line: u64,
    /// The column, counted from 1 by bytes.
    pub column: u64,
}

/// Returns the line and column of an offset. For an offset past the end, returns the location of the end.
pub fn locate(text: &[u8], offset: usize) -> Location
    ensures line { result.line ≡ line_behind (take offset text.now) }
    ensures column { result.column ≡ column_behind (take offset text.now) }
{
    let front = text.get(..offset).unwrap_or(text);
    Location {
        line: newlines(front) as u64 + 1,
        column: since_newline(front) as u64 + 1,
    }
}

/// The number of newlines.
fn newlines(front: &[u8]) -> usize
    ensures counted { result ≡ count_by is_newline front.now }
    ensures within { result ≤ length front.now }
{
    front.iter().filter(|byte| **byte == b'\n').count()
}

/// The number of bytes after the last newline, or of all bytes if there is none.
fn since_newline(front: &[u8]) -> usize
    ensures counted { result ≡ length (take_while (λ byte. not (is_newline byte)) (reverse front.now)) }
    ensures within { result ≤ length front.now }
{
    front
        .iter()
        .rev()
        .take_while(|byte| **byte != b'\n')
        .count()
}
