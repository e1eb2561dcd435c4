ghost use Rattle.std.specs.Prelude.{◌≡◌, ◌≢◌, ◌<◌, ◌≤◌, ◌⊎◌, ℕ, [], length, Some, IfOk, IfErr, MatchBool, OnOk};
ghost use Rattle.ly_ere.specs.Expression.{Matches};
ghost use Rattle.ly_ere.specs.Faults.{IsAtMost};
ghost use Rattle.ly_ere.specs.Lengths.{IsSound, far};
ghost use Rattle.ly_ere.specs.Names.{defined};
ghost use Rattle.ly_ere.specs.Patterns.{IsCutOf, Varies, pattern_weight, sides_of, sides_weight};
ghost use Rattle.ly_ere.specs.Private.Cuts.{AreSoundSides, IsCutOfSides, IsJudged, IsToldBy, IsUntold};
ghost use Rattle.ly_ere.specs.Private.Sides.{sides_read};
ghost use Rattle.ly_ere.specs.Weight.{weight_of};
ghost use Rattle.ly_ere.specs.declared.fault.EreFaultKind.TheVariants.{TooHeavy};

use crate::fault::{EreFault, EreFaultKind};
use crate::length::{FAR, Lengths, lengths_of};
use crate::names::Names;
use crate::pattern::Pattern;
use crate::re::Re;
use crate::sides::Uncut;
use crate::weight::weigh;
use ly_base::{Cut, Limits};
use std::alloc::{AllocError, Global};

/// Completes the sides of a pattern with their cut. Rejects a pattern whose weight is above the limit.
pub(crate) fn with_cut(
    alloc: Global,
    sides: Uncut,
    names: &Names,
    limits: &Limits,
) -> Result<Pattern, EreFault>
    requires { AreSoundSides (length names.now) (sides_read sides) }
    ensures ok { IfOk result (λ p. (sides_of p ≡ sides_read sides)
        × IsCutOfSides (defined names.now) (sides_read sides) p.cut) }
    ensures light { IfOk result (λ p. pattern_weight names.now p ≤ limits.now.pattern_weight) }
    ensures refused { IfErr result (IsJudged limits.now.pattern_weight names.now (sides_read sides)) }
    ensures within { IfErr result (IsAtMost sides.head_end) }
{
    let most = limits.pattern_weight();
    let cut = cut_of_sides(alloc, &sides, names, most)?;
    if is_heavy(alloc, &sides, names, most)? {
        return Err(EreFault::Refused {
            kind: EreFaultKind::TooHeavy,
            offset: 0,
        });
    }
    Ok(Pattern {
        line_start: sides.line_start,
        head: sides.head,
        tail: sides.tail,
        cut,
    })
}

/// Whether the sides of a pattern weigh more than `most`.
fn is_heavy(alloc: Global, sides: &Uncut, names: &Names, most: u32) -> Result<bool, AllocError>
    ensures { IfOk result (λ heavy. MatchBool heavy (most < sides_weight names.now (sides_read sides.now))
        (sides_weight names.now (sides_read sides.now) ≤ most)) }
{
    let Some(head) = weigh(alloc, &sides.head, names, most)? else {
        return Ok(true);
    };
    match &sides.tail {
        None => Ok(false),
        Some(tail) => Ok(weigh(alloc, tail, names, most - head)?.is_none()),
    }
}

/// The cut of the sides of a pattern. Sides whose lengths are too large to count weigh more than `most`.
fn cut_of_sides(alloc: Global, sides: &Uncut, names: &Names, most: u32) -> Result<Cut, EreFault>
    requires { AreSoundSides (length names.now) (sides_read sides.now) }
    ensures ok { IfOk result (IsCutOfSides (defined names.now) (sides_read sides.now)) }
    ensures refused { IfErr result (IsJudged most names.now (sides_read sides.now)) }
    ensures within { IfErr result (IsAtMost sides.now.head_end) }
{
    let Some(tail) = &sides.tail else {
        return Ok(Cut::Whole);
    };
    let head_lengths = lengths_of(alloc, &sides.head, names)?;
    let tail_lengths = lengths_of(alloc, tail, names)?;
    match told_cut(head_lengths, tail_lengths) {
        Ok(cut) => Ok(cut),
        Err(kind) => Err(EreFault::Refused {
            kind,
            offset: sides.offset_of(kind),
        }),
    }
}

/// The cut of a head and a tail with these lengths.
fn told_cut(head: Lengths, tail: Lengths) -> Result<Cut, EreFaultKind>
    ensures ok { IfOk result (IsToldBy head tail) }
    ensures refused { IfErr result (IsUntold head tail) }
{
    if head.least < head.most && tail.least < tail.most {
        return Err(EreFaultKind::TrailingBothVary);
    }
    if head.least == 0 {
        return Err(EreFaultKind::TrailingHeadEmpty);
    }
    if head.least < head.most {
        return Ok(Cut::Tail(counted(tail.least)?));
    }
    Ok(Cut::Head(counted(head.least)?))
}

/// Returns a length that could be counted. A longer one means that the pattern is too heavy.
fn counted(length: u64) -> Result<usize, EreFaultKind>
    ensures ok { IfOk result (λ n. (n ≡ length) × (length < far)) }
    ensures far { IfErr result (λ kind. (kind ≡ TooHeavy) × (far ≤ length)) }
{
    if length < FAR {
        Ok(length as usize)
    } else {
        Err(EreFaultKind::TooHeavy)
    }
}
