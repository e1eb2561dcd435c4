ghost use Rattle.std.specs.Prelude.{◌≡◌, ◌≤◌, ◌++◌, ℕ, List, codes, length};
ghost use Rattle.ly_print.specs.Text.{before_leaf, token};

use ly_base::{RuleNo, Sym};
use ly_print::Label;

/// The names for printing terms. Every number has one.
pub trait Words {
    /// The names of terminals.
    ghost terminals: { Self → ℕ → List ℕ };

    /// The constructors of rules.
    ghost constructors: { Self → ℕ → List ℕ };

    /// The text before that of a leaf: the terminal's name and a double quote.
    fn leaf_label(&self, terminal: Sym) -> &Label
        ensures { result.now ≡ before_leaf (token (terminals self.now terminal.0)) };

    /// The text before the children of a node: the rule's constructor and a parenthesis.
    fn node_label(&self, rule: RuleNo) -> &Label
        ensures { result.now ≡ constructors self.now rule.0 ++ codes "(" };

    /// A length that no label exceeds.
    fn longest(&self) -> usize
        ensures leaves { (t : ℕ) → length (before_leaf (token (terminals self.now t))) ≤ result }
        ensures nodes { (p : ℕ) → length (constructors self.now p ++ codes "(") ≤ result };
}
