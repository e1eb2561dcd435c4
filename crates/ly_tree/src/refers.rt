ghost use Rattle.std.specs.Prelude.{◌≡◌};
ghost use Rattle.ly_tree.specs.declared.forest.TermRef as code;

use crate::forest::TermRef;

/// A value that refers to a term of a forest, such as a level of a parser's stack.
pub trait Refers {
    /// The reference to the term.
    ghost referred: { Self → code.TermRef };

    /// The reference to the term.
    fn term(&self) -> TermRef
        ensures { result ≡ referred self.now };
}
