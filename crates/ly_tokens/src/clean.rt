//! Finds out whether every text consists of tokens.
ghost use Rattle.std.specs.Prelude.{◌≡◌, ◌<◌, ℕ};
ghost use Rattle.std.specs.Bool.{OnTrue};
ghost use Rattle.ly_scan.specs.Lexer.{Scanner};
ghost use Rattle.ly_tokens.specs.Private.Clean.{BeginsEverywhere, HasRule};

use ly_scan::Steps;

/// Whether each byte alone has a rule, in each of this many conditions.
pub(crate) fn begins_everywhere<S: Steps>(steps: &S, conditions: u32) -> bool
    ensures { let scanner : Scanner = record { walk = S.walk steps.now; cut = S.cut_of steps.now } in
        OnTrue result (BeginsEverywhere scanner conditions) }
{
    for condition in 0..conditions {
        let elsewhere = has_rules(steps, condition, false);
        let at_line = has_rules(steps, condition, true);
        if !elsewhere || !at_line {
            return false;
        }
    }
    true
}

/// Whether each byte alone has a rule in a condition.
fn has_rules<S: Steps>(steps: &S, condition: u32, line: bool) -> bool
    ensures { let scanner : Scanner = record { walk = S.walk steps.now; cut = S.cut_of steps.now } in
        OnTrue result ((b : ℕ) → b < 256 → HasRule scanner condition line b) }
{
    for byte in 0..256usize {
        if !has_rule(steps, condition, line, byte as u8) {
            return false;
        }
    }
    true
}

/// Whether a byte alone has a rule in a condition.
fn has_rule<S: Steps>(steps: &S, condition: u32, line: bool, byte: u8) -> bool
    ensures { let scanner : Scanner = record { walk = S.walk steps.now; cut = S.cut_of steps.now } in
        OnTrue result (HasRule scanner condition line byte) }
{
    let Some(start) = steps.start(condition, line) else {
        return false;
    };
    let Some(at) = steps.step(start, byte) else {
        return false;
    };
    match steps.accept(at) {
        Some(_) => true,
        None => false,
    }
}
