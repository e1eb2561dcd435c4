//! The possible actions in an automaton's states.
ghost use Rattle.std.specs.Prelude.{◌<◌, ◌↔◌, ℕ, length, AllPairs, Contains, IsTrue, OnOk};
ghost use Rattle.ly_lookahead.specs.Lookaheads.{AreLookaheads};
ghost use Rattle.ly_lr0.specs.Automaton.{prefix_of, IsLr0Automaton};
ghost use Rattle.ly_resolve.specs.Actions.{reduce, shift, IsRaw};

use ly_base::{OutOfMemory, StateNo, Sym};
use ly_join::Symbol;
use ly_lookahead::Lookaheads;
use ly_lr0::Lr0;

/// Whether a shift is possible in a state before a terminal. After the start symbol, that of the end is. `place` is a
/// hint: the transition at this index is tried first, and `place` becomes the index after it.
pub(crate) fn asks_shift(lr0: &Lr0<'_>, state: StateNo, terminal: Sym, place: &mut usize) -> bool
    requires lawful { IsLr0Automaton lr0.now }
    requires state { state.0 < length lr0.now.states }
    ensures { IsTrue result ↔ IsRaw lr0.now.grammar (prefix_of lr0.now state.0) terminal.0 shift }
{
    if terminal.0 == 0 {
        let start = lr0.reduced().grammar().start();
        match lr0.goto(StateNo(0), Symbol::Nonterminal(start)) {
            Some(accepting) => accepting == state,
            None => false,
        }
    } else {
        lr0.goto_near(state, Symbol::Terminal(terminal), place)
            .is_some()
    }
}

/// Puts the rules by which a reduction is possible in a state before a terminal into a list, in rising order. It fails
/// if an allocation fails, or if the number of a rule doesn't fit in 32 bits.
pub(crate) fn find_reductions(
    lr0: &Lr0<'_>,
    lookaheads: &Lookaheads,
    state: StateNo,
    terminal: Sym,
    found: &mut Vec<u32>,
) -> Result<(), OutOfMemory>
    requires lawful { IsLr0Automaton lr0.now }
    requires state { state.0 < length lr0.now.states }
    requires lookaheads { AreLookaheads lr0.now lookaheads.now }
    ensures these { OnOk result ((p : ℕ) → Contains found.new.items p
        ↔ IsRaw lr0.now.grammar (prefix_of lr0.now state.0) terminal.0 (reduce p)) }
    ensures rising { OnOk result (AllPairs (λ p q. p < q) found.new.items) }
{
    found.clear();
    for (place, rule) in lr0.complete(state).iter().enumerate() {
        if lookaheads.contains(state, place, terminal) {
            match u32::try_from(*rule) {
                Ok(number) => found.push(number)?,
                Err(_) => return Err(OutOfMemory),
            }
        }
    }
    Ok(())
}
