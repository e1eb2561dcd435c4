ghost use Rattle.std.specs.Prelude.{◌≡◌};
ghost use Rattle.std.specs.FinSet as set;
ghost use Rattle.ly_lookahead.specs.Lookaheads.{set_at, HasSet};

use ly_base::{StateNo, Sym};
use ly_sets::SetMatrix;
use std::marker::Model;

/// The lookaheads of the rules that are complete in an automaton's states.
#[derive(Drop)]
pub struct Lookaheads {
    /// For each state, the row of the first rule that is complete in it; at the end, the number of rows.
    pub(crate) first: Vec<usize>,
    /// A row for each node of includes, with what follows the transitions that it represents, and then one for each
    /// complete rule.
    pub(crate) sets: SetMatrix,
}

impl Model for Lookaheads {
    ghost use Rattle.std.specs.Prelude.{◌<◌, ◌^◌, length};
    ghost use Rattle.ly_lookahead.specs.Lookaheads as spec;
    ghost use Rattle.ly_lookahead.specs.Lookaheads.{lookaheads_code};

    ghost Value = { spec.Lookaheads };

    ghost coded = { lookaheads_code };

    ghost view = { λ l. record { first = l.first.items; sets = l.sets.sets } };

    ghost invariant = { λ l. length l.sets.sets < 2 ^ 64 };
}

impl Lookaheads {
    /// Whether a terminal is a lookahead of a complete rule. `index` is that of the rule among those complete in the
    /// state.
    pub fn contains(&self, state: StateNo, index: usize, terminal: Sym) -> bool
        requires { HasSet self.now state.0 index }
        ensures { result ≡ set.contains (set_at self.now state.0 index) terminal.0 }
    {
        let row = self.first[state.0 as usize] + index;
        (terminal.0 as usize) < self.sets.width() && self.sets.contains(row, terminal)
    }
}
