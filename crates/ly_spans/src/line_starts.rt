ghost use Rattle.std.specs.Prelude.{◌≡◌, ◌≤◌, IfOk, length, take};
ghost use Rattle.std.specs.Bool.{OnTrue};
ghost use Rattle.ly_base.specs.Location.{column_behind, line_behind};
ghost use Rattle.ly_spans.specs.Private.LineStarts.{line_starts};

use ly_base::{Location, OutOfMemory};
use std::alloc::Global;
use std::marker::Model;

/// A text and the offsets where its lines begin.
#[derive(Drop)]
pub struct LineStarts<'t> {
    /// The text.
    text: &'t [u8],
    /// The offset of each line's first byte. The first is 0.
    starts: Vec<usize>,
}

impl<'t> Model for LineStarts<'t> {
    ghost use Rattle.std.specs.Prelude.{◌≡◌, ℕ, List};
    ghost use Rattle.ly_spans.specs.Private.LineStarts.{line_starts};

    ghost Value = { List ℕ };

    ghost view = { λ l. l.text.now };

    ghost invariant = { λ l. l.starts.items ≡ line_starts l.text.now };
}

impl<'t> LineStarts<'t> {
    /// Finds the lines of a text. Fails if memory runs out.
    pub fn of(alloc: Global, text: &'t [u8]) -> Result<LineStarts<'t>, OutOfMemory>
        ensures { IfOk result (λ lines. lines ≡ text.now) }
    {
        let mut starts = Vec::new(alloc);
        starts.push(0)?;
        for (index, byte) in text.iter().enumerate() {
            if *byte == b'\n' {
                starts.push(index + 1)?;
            }
        }
        Ok(LineStarts { text, starts })
    }

    /// The text.
    pub fn text(&self) -> &'t [u8]
        ensures { result.now ≡ self.now }
    {
        self.text
    }

    /// Returns the line and column of an offset.
    pub fn locate(&self, offset: usize) -> Location
        requires { offset ≤ length self.now }
        ensures line { result.line ≡ line_behind (take offset self.now) }
        ensures column { result.column ≡ column_behind (take offset self.now) }
    {
        self.on_line(offset, self.line_of(offset))
    }

    /// Returns the same as `locate`. It looks at line `near` and the next one first.
    pub fn locate_near(&self, offset: usize, near: u64) -> Location
        requires { offset ≤ length self.now }
        ensures line { result.line ≡ line_behind (take offset self.now) }
        ensures column { result.column ≡ column_behind (take offset self.now) }
    {
        let near = near as usize;
        if self.is_on(offset, near) {
            return self.on_line(offset, near);
        }
        let next = near.wrapping_add(1);
        if self.is_on(offset, next) {
            return self.on_line(offset, next);
        }
        self.locate(offset)
    }

    /// Returns the location of an offset on this line.
    fn on_line(&self, offset: usize, line: usize) -> Location
        requires within { offset ≤ length self.now }
        requires line { line ≡ line_behind (take offset self.now) }
        requires there { line ≤ length (line_starts self.now) }
        ensures line { result.line ≡ line_behind (take offset self.now) }
        ensures column { result.column ≡ column_behind (take offset self.now) }
    {
        Location {
            line: line as u64,
            column: (offset - self.starts[line - 1]) as u64 + 1,
        }
    }

    /// Whether an offset is on a line.
    fn is_on(&self, offset: usize, line: usize) -> bool
        ensures line { OnTrue result (line ≡ line_behind (take offset self.now)) }
        ensures there { OnTrue result (line ≤ length (line_starts self.now)) }
    {
        let Some(before) = line.checked_sub(1) else {
            return false;
        };
        let Some(start) = self.starts.get(before) else {
            return false;
        };
        if offset < *start {
            return false;
        }
        match self.starts.get(line) {
            Some(next) => offset < *next,
            None => true,
        }
    }

    /// Returns the line of an offset: the last one that begins no later.
    fn line_of(&self, offset: usize) -> usize
        ensures line { result ≡ line_behind (take offset self.now) }
        ensures there { result ≤ length (line_starts self.now) }
    {
        self.starts.partition_point(|start| *start <= offset)
    }
}
