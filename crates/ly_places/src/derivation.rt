ghost use Rattle.std.specs.Prelude.{◌≡◌, map};
ghost use Rattle.ly_pack.specs.Values.{rule_from};
ghost use Rattle.ly_places.specs.Private.Derived.{IsDerived};
ghost use Rattle.ly_places.specs.Shapes.{keeping_rule};

use crate::keeping_parser::keeping_parser;
use ly_feed::{Ended, Prepared, SyntaxError, TextFault};
use ly_pack::TableRule;
use ly_spans::Span;
use ly_tree::{Forest, TermRef};

/// The derivation of a text: its tree in a forest, whose leaves are tokens, and the spans of all tokens of the text.
#[derive(Drop)]
pub(crate) struct Derivation {
    /// The terms built by rules that keep their whole bodies.
    pub(crate) forest: Forest,
    /// The term of the text in this forest.
    pub(crate) root: TermRef,
    /// The spans of the tokens, in their order.
    pub(crate) tokens: Vec<Span>,
}

/// The result of deriving a text.
#[derive(Drop)]
pub(crate) enum Derived<'t> {
    /// The text has this derivation.
    Accepted(Derivation),
    /// The text has this error.
    Refused(SyntaxError<'t>),
}

/// The derivation of a text by a prepared table set, or the error in the text. Its tokens are listed by a second run of
/// the lexer, so that the run with the parser is the same as for other results.
///
/// The rules must be those of the set, changed to keep their whole bodies. The errors are `FaultyTables` and
/// `OutOfMemory`.
pub(crate) fn derive<'t>(
    prepared: &Prepared<'_>,
    rules: &[TableRule],
    text: &'t [u8],
) -> Result<Derived<'t>, TextFault>
    requires rules { map rule_from rules.now ≡ map keeping_rule prepared.now.rules }
    ensures { IsDerived prepared.now text.now result }
{
    let set = prepared.set();
    let mut parser = keeping_parser(prepared.alloc(), set, rules);
    match prepared.run(&mut parser, text)? {
        Ended::Accepted(root) => {
            let tokens = prepared.token_spans(text)?;
            Ok(Derived::Accepted(Derivation {
                forest: parser.into_forest(),
                root,
                tokens,
            }))
        }
        Ended::Refused(syntax_error) => Ok(Derived::Refused(syntax_error)),
    }
}
