//! What transitions directly read. It is put straight into rows, because a large grammar has millions of such
//! terminals.
ghost use Rattle.std.specs.Prelude.{◌≡◌, ◌<◌, ◌≤◌, ℕ, length, map, Contains, IfOk, OnOk};
ghost use Rattle.ly_join.specs.Grammar.{terminal};
ghost use Rattle.ly_lr0.specs.Automaton.{state_at, IsLr0Automaton};
ghost use Rattle.ly_relate.specs.Related.{AreGotos};
ghost use Rattle.ly_relate.specs.Values.{goto_from};
ghost use Rattle.ly_lookahead.specs.Private.Sets.{AreDirectSets, AreInserted};

use ly_base::{OutOfMemory, StateNo, Sym};
use ly_join::Symbol;
use ly_lr0::Lr0;
use ly_relate::Goto;
use ly_sets::SetMatrix;
use std::alloc::Global;

/// The terminals that each transition directly reads, in the row with its number: those that leave the state that it
/// leads to. The end leaves the state after the start symbol, though no transition is over it.
pub(crate) fn direct_sets(
    alloc: Global,
    lr0: &Lr0<'_>,
    gotos: &[Goto],
    rows: usize,
) -> Result<SetMatrix, OutOfMemory>
    requires lawful { IsLr0Automaton lr0.now }
    requires gotos { AreGotos lr0.now (map goto_from gotos.now) }
    requires room { length gotos.now ≤ rows }
    ensures rows { IfOk result (λ m. length m.sets ≡ rows) }
    ensures direct { IfOk result (λ m. AreDirectSets lr0.now (map goto_from gotos.now) m.sets) }
{
    let grammar = lr0.reduced().grammar();
    let start = grammar.start();
    let mut sets = SetMatrix::new(alloc, rows, grammar.terminals() as usize)?;
    for (number, goto) in gotos.iter().enumerate() {
        insert_row(&mut sets, lr0, goto.target, number)?;
        if goto.from == StateNo(0) && goto.symbol == start {
            sets.insert(number, Sym(0))?;
        }
    }
    Ok(sets)
}

/// Inserts the terminals of a state's transitions into a row.
fn insert_row(
    sets: &mut SetMatrix,
    lr0: &Lr0<'_>,
    state: StateNo,
    row: usize,
) -> Result<(), OutOfMemory>
    requires state { state.0 < length lr0.now.states }
    requires row { row < length sets.old.sets }
    requires below { (t r : ℕ) → Contains (state_at lr0.now state.0).transitions
        (record { symbol = terminal t; target = r }) → t < sets.old.width }
    ensures rows { OnOk result (length sets.new.sets ≡ length sets.old.sets) }
    ensures width { OnOk result (sets.new.width ≡ sets.old.width) }
    ensures inserted { OnOk result
        (AreInserted (state_at lr0.now state.0).transitions row sets.old.sets sets.new.sets) }
{
    for transition in lr0.shifts(state) {
        if let Symbol::Terminal(terminal) = transition.symbol {
            sets.insert(row, terminal)?;
        }
    }
    Ok(())
}
