ghost use Rattle.std.specs.Prelude.{◌≡◌, ◌<◌, ◌≤◌, ◌+◌, ◌*◌, ◌^◌, ◌&&◌, ℕ, length, nat_eq, if◌then◌else◌};
ghost use Rattle.std.specs.Prelude.{slice_index_or, None, IfOk, OnErr, OnOk};
ghost use Rattle.std.specs.Prelude.{IfSome, option_map};
ghost use Rattle.ly_scan.specs.StateRows.{row_entry, row_width, state_at, Begins};
ghost use Rattle.ly_scan.specs.Private.StateRows.{target_in, IsStart};

use ly_base::OutOfMemory;
use std::alloc::Global;
use std::marker::Model;

/// The number of entries of a row: one for each byte, and a cache line of entries without a target. Without these the
/// entries of one byte would be 1,024 bytes apart, and for a long run of equal bytes few of them would fit into a
/// processor's cache.
const WIDTH: usize = 272;

/// The greatest number of states that can have rows.
const MOST_STATES: usize = 15 << 20;

/// The entry without a target. No row begins there.
const NOWHERE: u32 = 1;

/// The state of a walk: the index where its row begins among the entries.
#[derive(Clone, Copy, Debug, PartialEq, Eq)]
pub struct RowStart {
    /// The number of entries before the row.
    pub(crate) start: usize,
}

impl RowStart {
    /// Returns the start of the row of a state.
    pub fn of(state: u32) -> RowStart
        ensures state { state_at result ≡ state }
        ensures begins { Begins result }
    {
        RowStart {
            start: state as usize * WIDTH,
        }
    }

    /// The number of the state.
    pub fn state(self) -> usize
        ensures { result ≡ state_at self }
    {
        self.start / WIDTH
    }
}

/// The transitions of a scanner's states, spread for fast walks. Each state has a row of columns for bytes or for
/// classes of bytes. An entry is the index where the row of the next state begins, so a step is an addition and an
/// index.
#[derive(Drop)]
pub struct StateRows {
    /// The entries, row after row: the start of the next state's row, or `NOWHERE`.
    entries: Vec<u32>,
}

impl Model for StateRows {
    ghost use Rattle.std.specs.Prelude.{ℕ, List, Option, map};
    ghost use Rattle.ly_scan.specs.Private.StateRows.{target_in, AreRows};

    ghost Value = { List (Option ℕ) };

    ghost view = { λ r. map target_in r.entries.items };

    ghost invariant = { λ r. AreRows r.entries.items };
}

impl StateRows {
    /// Returns rows without transitions for this many states. Fails if memory runs out (see also `entries_of`).
    pub fn new(alloc: Global, states: usize) -> Result<StateRows, OutOfMemory>
        ensures count { IfOk result (λ r. length r ≡ states * row_width) }
        ensures none { IfOk result (λ r. (state column : ℕ) → row_entry r state column ≡ None) }
    {
        let count = entries_of(states)?;
        Ok(StateRows {
            entries: vec![in alloc; NOWHERE; count]?,
        })
    }

    /// Sets the target of a column from a state, or that it has none.
    pub fn set(&mut self, state: u32, column: usize, next: Option<u32>)
        requires next { IfSome next (λ n. n * row_width < length self.old) }
        requires column { column < 256 }
        requires there { state * row_width + column < length self.old }
        ensures count { length self.new ≡ length self.old }
        ensures entries { (s c : ℕ) → c < 256 → row_entry self.new s c
            ≡ (if nat_eq s state && nat_eq c column then next else row_entry self.old s c) }
    {
        let entry = &mut self.entries[state as usize * WIDTH + column];
        *entry = start_of(next);
    }

    /// The target of a column from a state, if there is one.
    pub fn next(&self, at: RowStart, column: u8) -> Option<RowStart>
        requires begins { Begins at }
        requires there { state_at at * row_width + column < length self.now }
        ensures is { option_map state_at result ≡ row_entry self.now (state_at at) column }
        ensures begins { IfSome result Begins }
    {
        let start = entry(&self.entries, at.start, column);
        if start == NOWHERE {
            None
        } else {
            Some(RowStart {
                start: start as usize,
            })
        }
    }
}

/// The number of entries of the rows of this many states. The start of a row has 32 bits, so the rows of more than 15
/// times 2^20 states, some 17 GB, are `OutOfMemory`. No scanner has so many: each version of the table file allows at
/// most 262,143 states, a 60th of these, and no larger scanner is made.
fn entries_of(states: usize) -> Result<usize, OutOfMemory>
    ensures count { IfOk result (λ n. n ≡ states * row_width) }
    ensures fits { OnOk result (states * row_width ≤ 2 ^ 32) }
    ensures past { OnErr result (15 * 2 ^ 20 < states) }
{
    if MOST_STATES < states {
        return Err(OutOfMemory);
    }
    Ok(states * WIDTH)
}

/// The entry of a column in the row that begins at `start`.
fn entry(entries: &[u32], start: usize, column: u8) -> u32
    requires { start + column < length entries.now }
    ensures { result ≡ slice_index_or entries.now (start + column) 0 }
{
    // the column is indexed first, so that only a load lies between two steps
    let behind = &entries[usize::from(column)..];
    behind[start]
}

/// The entry that leads to a state, or has no target.
fn start_of(next: Option<u32>) -> u32
    requires { IfSome next (λ n. n * row_width < 2 ^ 32) }
    ensures leads { target_in result ≡ next }
    ensures start { IsStart result }
{
    match next {
        Some(next) => next * WIDTH as u32,
        None => NOWHERE,
    }
}
