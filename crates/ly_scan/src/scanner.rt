ghost use Rattle.std.specs.Bool.{OnTrue};
ghost use Rattle.std.specs.Prelude.{◌≡◌, ◌<◌, ℕ, Some, false, length, IfSome, All, option_map};
ghost use Rattle.ly_base.specs.declared.cut.Cut.TheVariants.{Whole};
ghost use Rattle.ly_scan.specs.Beginning.{anywhere, by_line, IsBegun};
ghost use Rattle.ly_scan.specs.StateRows.{state_at, Begins};
ghost use Rattle.ly_scan.specs.StateTable.{ahead_at, ahead_in, cut_at, start_at, states_of, table_from};
ghost use Rattle.ly_scan.specs.StateTable.{LeadsWithin, StandsIn};
ghost use Rattle.ly_scan.specs.StateWalk.{ahead_of-ended, state_walk, MindsNoLine};

use crate::beginning::{Anywhere, ByLine};
use crate::scanner_parts::ScannerParts;
use crate::state_rows::RowStart;
use crate::steps::Steps;
use ly_base::{Cut, RuleNo};
use std::marker::Model;

/// A scanner: a walk over states with a row of one column for each byte, so that a step is one index.
#[derive(Drop)]
pub struct Scanner {
    /// The parts of the scanner.
    parts: ScannerParts,
    /// The start of the initial condition elsewhere than at the start of a line.
    initial: Option<RowStart>,
    /// Whether some condition has another start state at the start of a line than elsewhere.
    lines: bool,
    /// Whether all rules are known to have no trailing context, so that no cut is looked up.
    uncut: bool,
}

impl Model for Scanner {
    ghost use Rattle.ly_scan.specs.StateTable.{StateTable, table_from};
    ghost use Rattle.ly_scan.specs.Private.Scanner.{IsKnown};

    ghost Value = { StateTable };

    ghost view = { λ s. table_from s.parts };

    ghost invariant = { λ s. IsKnown (table_from s.parts) s.initial s.lines s.uncut };
}

impl Scanner {
    /// Makes the scanner of these parts.
    pub fn new(parts: ScannerParts) -> Scanner
        requires { LeadsWithin (table_from parts) }
        ensures { result ≡ table_from parts }
    {
        Scanner {
            initial: start_of(&parts, 0, false),
            lines: minds_lines(&parts),
            uncut: is_uncut(&parts),
            parts,
        }
    }

    /// The rule of each state, if it has one.
    pub(crate) fn rules(&self) -> &[Option<RuleNo>]
        ensures { result.now ≡ self.now.rules }
    {
        &self.parts.rules
    }

    /// The start of walks in the initial condition, if it is the same at the start of a line and elsewhere.
    pub(crate) fn anywhere(&self) -> Option<Anywhere>
        ensures { IfSome result (λ b. IsBegun self.now (anywhere b)) }
    {
        if self.minds_lines() {
            return None;
        }
        let start = self.start(0, false)?;
        Some(Anywhere { start })
    }

    /// The starts of walks in the initial condition, if there is one both at the start of a line and elsewhere.
    pub(crate) fn by_line(&self) -> Option<ByLine>
        ensures { IfSome result (λ b. IsBegun self.now (by_line b)) }
    {
        let at_line = self.start(0, true)?;
        let elsewhere = self.start(0, false)?;
        Some(ByLine { at_line, elsewhere })
    }

    /// Looks up the start of a walk.
    #[inline(never)] // leaves the registers to the common start
    fn start_at(&self, condition: u32, at_line_start: bool) -> Option<RowStart>
        ensures is { option_map state_at result ≡ start_at self.now condition at_line_start }
        ensures stands { IfSome result (StandsIn self.now) }
    {
        start_of(&self.parts, condition, at_line_start)
    }

    /// Looks up the cut of a rule.
    #[inline(never)] // few scanners have trailing context
    fn cut_at(&self, rule: RuleNo) -> Cut
        ensures { result ≡ cut_at self.now rule.0 }
    {
        match self.parts.cuts.get(rule.0 as usize) {
            Some(cut) => *cut,
            None => Cut::Whole,
        }
    }
}

impl Steps for Scanner {
    type At = RowStart;

    ghost walk = { λ t. state_walk (states_of t) };

    ghost ahead = { ahead_at };

    ghost stands = { StandsIn };

    ghost ahead_by = { ahead_in };

    ghost cut_of = { cut_at };

    fn start(&self, condition: u32, at_line_start: bool) -> Option<RowStart> {
        if at_line_start || condition != 0 {
            return self.start_at(condition, at_line_start);
        }
        self.initial
    }

    fn minds_lines(&self) -> bool {
        self.lines
    }

    fn step(&self, at: RowStart, byte: u8) -> Option<RowStart> {
        self.parts.rows.next(at, byte)
    }

    fn number(&self, at: RowStart) -> usize {
        at.state()
    }

    fn accept(&self, at: RowStart) -> Option<RuleNo> {
        self.parts.rules[at.state()]
    }

    fn cut(&self, rule: RuleNo) -> Cut {
        if self.uncut {
            return Cut::Whole;
        }
        self.cut_at(rule)
    }

    ghost stays_ended = { λ t condition line text more h. ahead_of-ended (states_of t) (start_at t condition line) text
        more h };
}

/// The start of a condition, at the start of a line or not, if it has one.
fn start_of(parts: &ScannerParts, condition: u32, at_line_start: bool) -> Option<RowStart>
    ensures is { option_map state_at result ≡ start_at (table_from parts.now) condition at_line_start }
    ensures begins { IfSome result Begins }
{
    let start = parts.starts.get(condition as usize)?;
    let state = if at_line_start {
        start.at_line
    } else {
        start.elsewhere
    };
    state.map(|state| RowStart::of(state.0))
}

/// Whether some condition has another start state at the start of a line than elsewhere.
fn minds_lines(parts: &ScannerParts) -> bool
    ensures { result ≡ false → MindsNoLine (states_of (table_from parts.now)) }
{
    for start in &parts.starts {
        if start.at_line != start.elsewhere {
            return true;
        }
    }
    false
}

/// Whether no rule has trailing context.
fn is_uncut(parts: &ScannerParts) -> bool
    ensures { OnTrue result ((rule : ℕ) → cut_at (table_from parts.now) rule ≡ Whole) }
{
    for cut in &parts.cuts {
        if *cut != Cut::Whole {
            return false;
        }
    }
    true
}
