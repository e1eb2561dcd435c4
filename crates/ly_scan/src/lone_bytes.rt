ghost use Rattle.std.specs.Bool.{OnTrue};
ghost use Rattle.std.specs.Prelude.{◌≡◌, ◌<◌, ◌≤◌, ℕ, [], ◌∷◌, List, Bool, None, false, get_or, length, IfOk};
ghost use Rattle.ly_scan.specs.Lexer.{Scanner};
ghost use Rattle.ly_scan.specs.LoneBytes.{AreLone, IsLoneAt, IsOfPassed};

use crate::steps::Steps;
use ly_base::{Cut, OutOfMemory, Place};
use std::alloc::Global;
use std::marker::Model;

/// The bytes that are skipped lexemes by themselves, such as a blank between two words, depending on the byte after
/// them. They are recognised by two table look-ups, without a walk.
#[derive(Drop)]
pub struct LoneBytes {
    /// For each byte whether it begins such a lexeme.
    begins: Vec<bool>,
    /// For each byte whether it may extend such a lexeme.
    goes_on: Vec<bool>,
}

impl Model for LoneBytes {
    ghost use Rattle.std.specs.Prelude.{◌≡◌, List, Bool, length};

    ghost Value = { List Bool × List Bool };

    ghost view = { λ l. (l.begins.items, l.goes_on.items) };

    ghost invariant = { λ l. (length l.begins.items ≡ 256) × (length l.goes_on.items ≡ 256) };
}

impl LoneBytes {
    /// Finds the lone bytes of a walk. `passed` has for each rule whether its lexemes are skipped. Fails if memory
    /// runs out.
    pub fn find<S: Steps>(
        alloc: Global,
        steps: &S,
        passed: &[bool],
    ) -> Result<LoneBytes, OutOfMemory>
        ensures { let scanner : Scanner = record { walk = S.walk steps.now; cut = S.cut_of steps.now } in
            IfOk result (AreLone scanner passed.now) }
    {
        let mut lone = LoneBytes {
            begins: vec![in alloc; false; 256]?,
            goes_on: vec![in alloc; false; 256]?,
        };
        for byte in 0..256usize {
            lone.add(steps, passed, byte as u8);
        }
        Ok(lone)
    }

    /// Whether such a lexeme begins at a place. It may return false if one does.
    #[inline(always)] // it is only two look-ups
    pub fn at(&self, place: &Place<'_>) -> bool
        ensures lone { OnTrue result ((scanner : Scanner) (passed : List Bool) → AreLone scanner passed self.now
            → IsLoneAt scanner passed place.now) }
        ensures some { OnTrue result (1 ≤ length place.now.rest) }
    {
        let rest = place.rest();
        if place.condition() != 0 || rest.len() < 2 {
            return false;
        }
        self.begins[usize::from(rest[0])] & !self.goes_on[usize::from(rest[1])]
    }

    /// Adds a byte, if it is such a lexeme at the start of a line and elsewhere.
    fn add<S: Steps>(&mut self, steps: &S, passed: &[bool], byte: u8)
        ensures { let scanner : Scanner = record { walk = S.walk steps.now; cut = S.cut_of steps.now } in
            AreLone scanner passed.now self.old → AreLone scanner passed.now self.new }
    {
        if is_passed(steps, passed, false, byte) && is_passed(steps, passed, true, byte) {
            follow(steps, false, byte, &mut self.goes_on);
            follow(steps, true, byte, &mut self.goes_on);
            self.begins[usize::from(byte)] = true;
        }
    }
}

/// Whether a byte alone has a rule that is skipped and has no trailing context.
fn is_passed<S: Steps>(steps: &S, passed: &[bool], line: bool, byte: u8) -> bool
    ensures { let scanner : Scanner = record { walk = S.walk steps.now; cut = S.cut_of steps.now } in
        OnTrue result (IsOfPassed scanner passed.now line byte) }
{
    let Some(start) = steps.start(0, line) else {
        return false;
    };
    let Some(at) = steps.step(start, byte) else {
        return false;
    };
    let Some(rule) = steps.accept(at) else {
        return false;
    };
    match passed.get(rule.0 as usize) {
        Some(passed) => *passed && steps.cut(rule) == Cut::Whole,
        None => false,
    }
}

/// Marks the bytes that may extend a lexeme of this byte.
fn follow<S: Steps>(steps: &S, line: bool, byte: u8, goes_on: &mut Vec<bool>)
    requires { length goes_on.old.items ≡ 256 }
    ensures length { length goes_on.new.items ≡ 256 }
    ensures kept { (c : ℕ) → get_or goes_on.new.items c false ≡ false → get_or goes_on.old.items c false ≡ false }
    ensures ended { (c : ℕ) → c < 256 → get_or goes_on.new.items c false ≡ false
        → S.walk steps.now 0 line (byte ∷ c ∷ []) ≡ None }
{
    for next in 0..256usize {
        if leads_on(steps, line, byte, next as u8) {
            goes_on[next] = true;
        }
    }
}

/// Whether a walk continues over these two bytes. It may return true if it doesn't.
fn leads_on<S: Steps>(steps: &S, line: bool, byte: u8, next: u8) -> bool
    ensures { result ≡ false → S.walk steps.now 0 line (byte ∷ next ∷ []) ≡ None }
{
    let Some(start) = steps.start(0, line) else {
        return true;
    };
    let Some(at) = steps.step(start, byte) else {
        return true;
    };
    steps.step(at, next).is_some()
}
