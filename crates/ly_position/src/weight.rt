ghost use Rattle.std.specs.Prelude.{◌≡◌, ◌<◌, ◌≤◌, IfOk, MatchOption};
ghost use Rattle.ly_ere.specs.Names.{defined};
ghost use Rattle.ly_ere.specs.Weight.{weight_of_both};
ghost use Rattle.ly_position.specs.TotalWeight.{total_weight};

use ly_ere::{Names, Rule, weigh};
use std::alloc::{AllocError, Global};

/// The weight of all patterns together, if it is at most `most`.
pub fn weigh_all(
    alloc: Global,
    rules: &[Rule],
    names: &Names,
    most: u32,
) -> Result<Option<u32>, AllocError>
    ensures { IfOk result (λ weight. MatchOption weight (most < total_weight (defined names.now) rules.now)
        (λ w. (w ≡ total_weight (defined names.now) rules.now) × (w ≤ most))) }
{
    let mut total = 0;
    for rule in rules {
        match weigh_rule(alloc, rule, names, most - total)? {
            None => return Ok(None),
            Some(weight) => total += weight,
        }
    }
    Ok(Some(total))
}

/// The weight of a rule's head and tail together, if it is at most `most`.
fn weigh_rule(
    alloc: Global,
    rule: &Rule,
    names: &Names,
    most: u32,
) -> Result<Option<u32>, AllocError>
    ensures { IfOk result (λ weight. MatchOption weight (most < weight_of_both (defined names.now)
        rule.now.pattern.head rule.now.pattern.tail)
        (λ w. (w ≡ weight_of_both (defined names.now) rule.now.pattern.head rule.now.pattern.tail)
        × (w ≤ most))) }
{
    let Some(head) = weigh(alloc, &rule.pattern.head, names, most)? else {
        return Ok(None);
    };
    match &rule.pattern.tail {
        None => Ok(Some(head)),
        Some(tail) => Ok(weigh(alloc, tail, names, most - head)?.map(|weight| head + weight)),
    }
}
