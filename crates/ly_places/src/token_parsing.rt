ghost use Rattle.std.specs.Prelude.{◌≡◌, Err, IfErr, IfOk, length, map, All};
ghost use Rattle.ly_feed.specs.Verdict.{faulty};
ghost use Rattle.ly_places.specs.Parsing.{IsOfParsing, IsParsedAs};
ghost use Rattle.ly_places.specs.PlacedAnswer.{PlacedVerdict};
ghost use Rattle.ly_places.specs.TokenAnswer.{token_over, IsPlacedTokenVerdict, IsTokenOver, IsTokenVerdict};

use crate::derivation::Derived;
use crate::keeping_parser::rules_of;
use crate::parsing::{Parsed, parts_by};
use crate::placed_token::PlacedToken;
use crate::token_derivation::derive_tokens;
use ly_feed::TextFault;
use ly_tables::TableSet;
use std::alloc::Global;

/// Parses tokens of a text with a table set. Returns the parts of their tree with their spans, or the error in them:
/// the verdict of the set's parser on exactly these tokens. Its scanner doesn't run.
///
/// The errors are `FaultyTables` and `OutOfMemory` of `TextFault`.
pub fn parse_tokens<'t>(
    alloc: Global,
    set: &TableSet,
    text: &'t [u8],
    tokens: &[PlacedToken],
) -> Result<Parsed<'t>, TextFault>
    requires { All (IsTokenOver (length set.now.terminals) (length text.now)) tokens.now }
    ensures parsed { IfOk result (λ p. (v : PlacedVerdict)
        × IsPlacedTokenVerdict set.now text.now (map (token_over text.now) tokens.now) v × IsParsedAs text.now v p) }
    ensures faulty { result ≡ Err TextFault.FaultyTables
        → IsTokenVerdict set.now text.now (map (token_over text.now) tokens.now) faulty }
    ensures ending { IfErr result IsOfParsing }
{
    let rules = rules_of(alloc, set)?;
    match derive_tokens(alloc, set, &rules, text, tokens)? {
        Derived::Accepted(derivation) => { Ok(Parsed::Tree(parts_by(alloc, set, derivation)?)) }
        Derived::Refused(syntax_error) => Ok(Parsed::Refused(syntax_error)),
    }
}
