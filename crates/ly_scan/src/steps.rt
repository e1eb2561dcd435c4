ghost use Rattle.std.specs.Prelude.{◌≡◌, ℕ, List, [], ◌∷◌, ◌++◌, Bool, true, false, Option, None, IfSome, is_some};
ghost use Rattle.std.specs.Prelude.{option_map};
ghost use Rattle.ly_base.specs.declared.cut.Cut.{Cut};
ghost use Rattle.ly_scan.specs.Walk.{Walk};

use ly_base::{Cut, RuleNo};

/// A deterministic walk over bytes, one at a time. The state of a walk is a value, so it can be kept in a register, and
/// many walks can be in progress. All memory is allocated before, and no call allocates.
pub trait Steps {
    /// The state of a walk.
    type At: Copy;

    /// The results of the walk for a text that begins in a condition, at the start of a line or not.
    ghost walk: { Self → ℕ → Bool → Walk };

    /// The results of the walk for the bytes that follow a state.
    ghost ahead: { Self → Self.At → Walk };

    /// Whether the walk can be in this state.
    ghost stands: { Self → Self.At → Type 0 };

    /// The results of the walk for the bytes that follow a state with this number.
    ghost ahead_by: { Self → ℕ → Walk };

    /// The cut of a rule.
    ghost cut_of: { Self → ℕ → Cut };

    /// The state of a new walk. `None` if there is no walk, not even over no byte.
    fn start(&self, condition: u32, at_line_start: bool) -> Option<Self::At>
        ensures alive { is_some result ≡ is_some (walk self.now condition at_line_start []) }
        ensures stands { IfSome result (stands self.now) }
        ensures there { IfSome result (λ at. (text : List ℕ)
            → ahead self.now at text ≡ walk self.now condition at_line_start text) };

    /// Whether a walk may depend on whether a line begins at its start.
    fn minds_lines(&self) -> bool
        ensures { result ≡ false
            → (condition : ℕ) → walk self.now condition true ≡ walk self.now condition false };

    /// The state after one more byte. `None` if the walk ends at this byte.
    fn step(&self, at: Self::At, byte: u8) -> Option<Self::At>
        requires { stands self.now at }
        ensures alive { is_some result ≡ is_some (ahead self.now at (byte ∷ [])) }
        ensures stands { IfSome result (stands self.now) }
        ensures there { IfSome result (λ next. (text : List ℕ)
            → ahead self.now next text ≡ ahead self.now at (byte ∷ text)) };

    /// The number of a state, which determines all results after it.
    fn number(&self, at: Self::At) -> usize
        requires { stands self.now at }
        ensures { (text : List ℕ) → ahead self.now at text ≡ ahead_by self.now result text };

    /// The rule that matches the bytes so far, if there is one.
    fn accept(&self, at: Self::At) -> Option<RuleNo>
        requires { stands self.now at }
        ensures { IfSome (ahead self.now at []) (λ rule. option_map (λ r. r.0) result ≡ rule) };

    /// The cut of a rule.
    fn cut(&self, rule: RuleNo) -> Cut
        ensures { result ≡ cut_of self.now rule.0 };

    /// A walk that has ended stays ended.
    ghost stays_ended: { (s : Self) (condition : ℕ) (line : Bool) (text more : List ℕ)
        → walk s condition line text ≡ None → walk s condition line (text ++ more) ≡ None };
}
