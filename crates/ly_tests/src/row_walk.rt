//! The simplest walk that a scanner can have: dense rows, made by hand.

ghost use Rattle.ly_tests.specs.RowWalk.{rows_ahead, rows_cut, rows_ends, rows_walk, led, next_state, start_entry};
ghost use Rattle.std.specs.Prelude.{◌≡◌, ⊤};

use ly_base::{Cut, RuleNo};
use ly_scan::Steps;

/// A state of dense rows.
#[derive(Clone, Copy)]
pub struct Row {
    /// For each byte the state that it leads to plus one, or 0.
    pub next: [u16; 256],
    /// The rule that ends here, if there is one.
    pub rule: Option<RuleNo>,
}

/// A walk over dense rows.
#[derive(Clone, Copy)]
pub struct RowWalk<'a> {
    /// The states.
    pub rows: &'a [Row],
    /// For each condition the state in which it starts plus one, or 0: elsewhere, and at the start of a line.
    pub starts: &'a [[u16; 2]],
    /// The cut of each rule's matches. A rule without an entry has none.
    pub cuts: &'a [Cut],
}

impl Steps for RowWalk<'_> {
    type At = u16;

    ghost walk = { λ d. rows_walk d.rows.now d.starts.now };

    ghost ahead = { λ d at. rows_ahead d.rows.now at };

    ghost stands = { λ d at. ⊤ };

    ghost ahead_by = { λ d. rows_ahead d.rows.now };

    ghost cut_of = { λ d. rows_cut d.cuts.now };

    fn start(&self, condition: u32, at_line_start: bool) -> Option<u16> {
        led(start_entry(self.starts, condition, at_line_start))
    }

    fn minds_lines(&self) -> bool {
        true
    }

    fn step(&self, at: u16, byte: u8) -> Option<u16> {
        next_state(self.rows, at, byte)
    }

    fn number(&self, at: u16) -> usize {
        usize::from(at)
    }

    fn accept(&self, at: u16) -> Option<RuleNo> {
        self.rows.get(usize::from(at))?.rule
    }

    fn cut(&self, rule: RuleNo) -> Cut {
        match self.cuts.get(rule.0 as usize) {
            Some(cut) => *cut,
            None => Cut::Whole,
        }
    }

    ghost stays_ended = { λ d condition line text more h. rows_ends d.rows.now d.starts.now condition line text
        more h };
}

/// The entry of a start, or 0.
fn start_entry(starts: &[[u16; 2]], condition: u32, at_line_start: bool) -> u16
    ensures { result ≡ start_entry starts.now condition at_line_start }
{
    match starts.get(condition as usize) {
        Some(pair) if at_line_start => pair[1],
        Some(pair) => pair[0],
        None => 0,
    }
}

/// The state that an entry leads to.
fn led(entry: u16) -> Option<u16>
    ensures { result ≡ led entry }
{
    entry.checked_sub(1)
}

/// The state after a byte.
fn next_state(rows: &[Row], state: u16, byte: u8) -> Option<u16>
    ensures { result ≡ next_state rows.now state byte }
{
    match rows.get(usize::from(state)) {
        Some(row) => led(row.next[usize::from(byte)]),
        None => None,
    }
}
