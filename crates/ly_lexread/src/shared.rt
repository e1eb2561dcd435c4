ghost use Rattle.std.specs.Prelude.{ℕ, List, map, IfOk, MatchOption};
ghost use Rattle.ly_lexread.specs.Action.{AreEffects, Effect, effect_of};
ghost use Rattle.ly_lexread.specs.Private.Statements.{saying_of};

use crate::action::{LexAction, Said};
use std::alloc::{AllocError, Global};

/// Resolves the action of each rule. A rule with `|` has that of the next rule. `None` if the last rule has `|`.
pub(crate) fn share_actions(
    alloc: Global,
    mut said: Vec<Said>,
) -> Result<Option<Vec<LexAction>>, AllocError>
    ensures { IfOk result (λ shared. MatchOption shared
        ((es : List Effect) → AreEffects (map saying_of said.items) es → ⊥)
        (λ actions. AreEffects (map saying_of said.items) (map effect_of actions.items))) }
{
    let mut actions: Vec<LexAction> = Vec::new(alloc);
    while let Some(last) = said.pop() {
        let action = match last {
            Said::Own(action) => action,
            Said::Next(_) => match actions.last() {
                Some(next) => next.share()?,
                None => return Ok(None),
            },
        };
        actions.push(action)?;
    }
    actions.reverse();
    Ok(Some(actions))
}
