ghost use Rattle.std.specs.Prelude.{◌≡◌, ℕ, List, Err, IfErr, IfOk, map};
ghost use Rattle.ly_base.specs.Lexed.{Token};
ghost use Rattle.ly_base.specs.Trees.{Tree};
ghost use Rattle.ly_feed.specs.TableAnswer.{IsVerdict};
ghost use Rattle.ly_feed.specs.Verdict.{faulty};
ghost use Rattle.ly_pack.specs.Values.{rule_from};
ghost use Rattle.ly_places.specs.Parsing.{IsOfParsing, IsParsedAs};
ghost use Rattle.ly_places.specs.Derived.{IsDerived};
ghost use Rattle.ly_places.specs.PlacedAnswer.{IsPlacedVerdict, PlacedVerdict};
ghost use Rattle.ly_places.specs.Parts.{parts_of};
ghost use Rattle.ly_places.specs.Placed.{end_behind, placed};
ghost use Rattle.ly_parse.specs.Deriving.{shape_of_rule};
ghost use Rattle.ly_places.specs.Shapes.{keeping_rule};

use crate::derivation::{Derivation, Derived, derive};
use crate::flattening::parts_of;
use crate::keeping_parser::rules_of;
use crate::part::Part;
use ly_base::OutOfMemory;
use ly_feed::{Prepared, SyntaxError, TextFault};
use ly_pack::TableRule;
use ly_tables::TableSet;
use std::alloc::Global;

/// The result of parsing a text with a table set.
#[derive(Drop)]
pub enum Parsed<'t> {
    /// The text has a tree with these parts.
    Tree(Vec<Part>),
    /// The text has this error.
    Refused(SyntaxError<'t>),
}

/// Parses a text with a table set. Returns the parts of its tree with their spans, or the error in the text.
///
/// The errors are `FaultyTables` and `OutOfMemory` of `TextFault`.
pub fn parse<'t>(alloc: Global, set: &TableSet, text: &'t [u8]) -> Result<Parsed<'t>, TextFault>
    ensures parsed { IfOk result (λ p. (v : PlacedVerdict) × IsPlacedVerdict set.now text.now v
        × IsParsedAs text.now v p) }
    ensures faulty { result ≡ Err TextFault.FaultyTables → IsVerdict set.now text.now faulty }
    ensures ending { IfErr result IsOfParsing }
{
    let prepared = Prepared::new(alloc, set)?;
    let rules = rules_of(alloc, set)?;
    let parsed = parse_by(&prepared, &rules, text);
    drop(prepared);
    parsed
}

/// The same, with the set prepared and its rules, changed to keep their whole bodies.
pub(crate) fn parse_by<'t>(
    prepared: &Prepared<'_>,
    rules: &[TableRule],
    text: &'t [u8],
) -> Result<Parsed<'t>, TextFault>
    requires rules { map rule_from rules.now ≡ map keeping_rule prepared.now.rules }
    ensures parsed { IfOk result (λ p. (v : PlacedVerdict) × IsPlacedVerdict prepared.now text.now v
        × IsParsedAs text.now v p) }
    ensures faulty { result ≡ Err TextFault.FaultyTables → IsVerdict prepared.now text.now faulty }
    ensures ending { IfErr result IsOfParsing }
{
    let set = prepared.set();
    match derive(prepared, rules, text)? {
        Derived::Accepted(derivation) => {
            let parts = parts_by(prepared.alloc(), set, derivation)?;
            Ok(Parsed::Tree(parts))
        }
        Derived::Refused(syntax_error) => Ok(Parsed::Refused(syntax_error)),
    }
}

/// The parts of the tree that the rules of a set make of a derivation.
pub(crate) fn parts_by(
    alloc: Global,
    set: &TableSet,
    derivation: Derivation,
) -> Result<Vec<Part>, OutOfMemory>
    requires { (before : List (Token ℕ)) × (d : Tree)
        × IsDerived derivation.forest derivation.root derivation.tokens.items set.now.rules before d }
    ensures { IfOk result (λ parts. (before : List (Token ℕ)) (d : Tree)
        → IsDerived derivation.forest derivation.root derivation.tokens.items set.now.rules before d
        → parts.items ≡ parts_of (placed (shape_of_rule set.now.rules) (end_behind before) d)) }
{
    let Derivation {
        forest,
        root,
        tokens,
    } = derivation;
    let machine = set.machine();
    parts_of(alloc, &forest, root, &tokens, machine.rules())
}
