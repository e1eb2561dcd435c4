ghost use Rattle.std.specs.Prelude.{IfOk, OnOk};
ghost use Rattle.ly_diagnostics.specs.Indented.{AreIndented};
ghost use Rattle.ly_diagnostics.specs.Private.Indented.{IsAdded};

use crate::lex_units::{Kind, Unit, Units};
use ly_lexread::first_line;
use std::alloc::{AllocError, Global};

/// The numbers of the indented lines among the rules of a lex file, in ascending order. These begin with a blank and
/// contain more than blanks and comments. Lines of an action or a block are left out.
pub fn indented_lines(alloc: Global, text: &[u8]) -> Result<Vec<u64>, AllocError>
    ensures { IfOk result (λ found. AreIndented text.now found.items) }
{
    let mut indented = Indented {
        numbers: Vec::new(alloc),
        in_comment: false,
    };
    let Some(mut units) = Units::behind_mark(text) else {
        return Ok(indented.numbers);
    };
    for _ in 0..text.len() {
        let Some((line, _behind)) = first_line(units.rest) else {
            break;
        };
        let unit = units.front(line);
        if unit.kind == Kind::Mark {
            break;
        }
        indented.add(unit, line)?;
        units.pass(unit);
    }
    Ok(indented.numbers)
}

/// The lines found so far.
#[derive(Drop)]
pub(crate) struct Indented {
    /// Their numbers.
    pub(crate) numbers: Vec<u64>,
    /// Whether the last of them begins a comment that is still open.
    pub(crate) in_comment: bool,
}

impl Indented {
    /// Adds the first line of a unit, if it has no use and contains more than blanks and comments.
    fn add(&mut self, unit: Unit, line: &[u8]) -> Result<(), AllocError>
        ensures { OnOk result (IsAdded self.old.numbers.items unit line.now self.new.numbers.items) }
    {
        if unit.kind != Kind::Unused {
            return Ok(());
        }
        let words = line.trim_ascii();
        let is_comment = self.in_comment || words.starts_with(b"/*");
        self.in_comment = is_comment && !words.ends_with(b"*/");
        if !is_comment && !words.is_empty() {
            self.numbers.push(unit.first)?;
        }
        Ok(())
    }
}
