//! Converts ascending offsets of a text into locations.
use crate::analysis::Analysis;
use ly_base::Location;
use std::alloc::{AllocError, Global};

/// The location of the start of a file.
pub(crate) const FRONT: Location = Location { line: 1, column: 1 };

/// A text, with an offset and its location, from which the next location is computed.
#[derive(Clone, Copy)]
pub struct Lines<'t> {
    /// The text.
    text: &'t [u8],
    /// The offset.
    offset: usize,
    /// Its location.
    at: Location,
}

impl<'t> Lines<'t> {
    /// Returns the start of a text.
    pub fn of(text: &'t [u8]) -> Lines<'t> {
        Lines {
            text,
            offset: 0,
            at: FRONT,
        }
    }

    /// The location of an offset. One before the last is counted from the start of the text.
    pub fn locate(&mut self, offset: usize) -> Location {
        if offset < self.offset {
            *self = Lines::of(self.text);
        }
        let between = self.text.get(self.offset..offset).unwrap_or_default();
        self.at = location_behind(self.at, between);
        self.offset = offset;
        self.at
    }
}

/// The location after these bytes, which begin at `start`.
fn location_behind(start: Location, bytes: &[u8]) -> Location {
    let mut at = start;
    for byte in bytes {
        at = if *byte == b'\n' {
            Location {
                line: at.line.saturating_add(1),
                column: 1,
            }
        } else {
            Location {
                line: at.line,
                column: at.column.saturating_add(1),
            }
        };
    }
    at
}

/// The lines of the rules of a lex file.
#[derive(Drop)]
pub struct RuleLines {
    /// The lines, by the numbers of the rules.
    lines: Vec<u64>,
}

impl RuleLines {
    /// Computes the lines of an accepted lex file.
    pub fn of(alloc: Global, files: &Analysis<'_>) -> Result<RuleLines, AllocError> {
        let mut counted = Lines::of(files.lex.bytes);
        let mut lines = Vec::with_capacity(alloc, files.file.rule_starts.len())?;
        for start in &files.file.rule_starts {
            lines.push(counted.locate(*start).line)?;
        }
        Ok(RuleLines { lines })
    }

    /// The line of a rule, by its number; the first line if there is no such rule.
    pub fn of_rule(&self, rule: usize) -> u64 {
        self.lines.get(rule).copied().unwrap_or(1)
    }
}
