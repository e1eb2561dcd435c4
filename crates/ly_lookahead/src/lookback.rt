ghost use Rattle.std.specs.Prelude.{◌≡◌, ◌<◌, ◌^◌, length, slice_get, slice_index_or, AllPairs, Contains};
ghost use Rattle.std.specs.Prelude.{MatchOption, OnOk, Some};
ghost use Rattle.ly_lr0.specs.Automaton.{IsLr0Automaton};
ghost use Rattle.ly_relate.specs.Related.{AreRelations};
ghost use Rattle.ly_lookahead.specs.Private.Rows.{AreRows};
ghost use Rattle.ly_lookahead.specs.Private.Sets.{AreLookedBack};

use ly_base::OutOfMemory;
use ly_lr0::Lr0;
use ly_relate::Relations;
use ly_sets::SetMatrix;

/// Adds what follows transitions to the rows of the rules that look back to them, or to nodes that represent them.
pub(crate) fn look_back(
    lr0: &Lr0<'_>,
    relations: &Relations,
    first: &[usize],
    sets: &mut SetMatrix,
) -> Result<(), OutOfMemory>
    requires lawful { IsLr0Automaton lr0.now }
    requires relations { AreRelations lr0.now relations.now }
    requires rows { AreRows lr0.now relations.now.includes.nodes (length lr0.now.states) first.now }
    requires long { length sets.old.sets ≡ slice_index_or first.now (length lr0.now.states) 0 }
    requires few { length sets.old.sets < 2 ^ 64 }
    ensures rows { OnOk result (length sets.new.sets ≡ length sets.old.sets) }
    ensures united { OnOk result
        (AreLookedBack lr0.now first.now relations.now.lookbacks sets.old.sets sets.new.sets) }
{
    let lookbacks = relations.lookbacks();
    for index in 0..lookbacks.len() {
        let lookback = lookbacks.get(index);
        if let Some(place) = place_of(lr0.complete(lookback.state), lookback.rule as usize) {
            let row = first[lookback.state.0 as usize] + place;
            sets.union_row(row, lookback.node as usize)?;
        }
    }
    Ok(())
}

/// The index of a rule in a rising list.
fn place_of(rules: &[usize], rule: usize) -> Option<usize>
    requires { AllPairs (λ p q. p < q) rules.now }
    ensures { MatchOption result (Contains rules.now rule → ⊥) (λ k. slice_get rules.now k ≡ Some rule) }
{
    rules.binary_search(&rule).ok()
}
