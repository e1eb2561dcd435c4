//! The derivation of given tokens of a text.
ghost use Rattle.std.specs.Prelude.{◌≡◌, ◌<◌, [], false, length, map, All, IfOk};
ghost use Rattle.ly_pack.specs.Machine.{IsMachine};
ghost use Rattle.ly_pack.specs.Values.{rule_from};
ghost use Rattle.ly_places.specs.Private.TokenDerived.{AreReadOver, IsEndRead, IsTokenDerived};
ghost use Rattle.ly_places.specs.Shapes.{keeping_rule};
ghost use Rattle.ly_places.specs.TokenAnswer.{token_over, IsTokenOver};

use crate::derivation::{Derivation, Derived};
use crate::keeping_parser::keeping_parser;
use crate::placed_token::PlacedToken;
use ly_base::{OutOfMemory, Sym};
use ly_feed::{Ended, SyntaxError, TableParser, TextFault};
use ly_pack::TableRule;
use ly_parse::{ParseFault, Step, Token};
use ly_print::Front;
use ly_spans::Span;
use ly_tables::TableSet;
use std::alloc::Global;

/// The derivation of tokens of a text by a table set, or the error in them. The rules must be those of the set, changed
/// to keep their whole bodies.
///
/// The errors are `FaultyTables` and `OutOfMemory`.
pub(crate) fn derive_tokens<'t>(
    alloc: Global,
    set: &TableSet,
    rules: &[TableRule],
    text: &'t [u8],
    tokens: &[PlacedToken],
) -> Result<Derived<'t>, TextFault>
    requires rules { map rule_from rules.now ≡ map keeping_rule set.now.rules }
    requires tokens { All (IsTokenOver (length set.now.terminals) (length text.now)) tokens.now }
    ensures { IsTokenDerived set.now text.now (map (token_over text.now) tokens.now) result }
{
    let mut parser = keeping_parser(alloc, set, rules);
    if let Some(syntax_error) = read_tokens(&mut parser, text, tokens)? {
        return Ok(Derived::Refused(syntax_error));
    }
    match read_end(&mut parser, text)? {
        Ended::Accepted(root) => {
            let tokens = extents_of(alloc, tokens)?;
            Ok(Derived::Accepted(Derivation {
                forest: parser.into_forest(),
                root,
                tokens,
            }))
        }
        Ended::Refused(syntax_error) => Ok(Derived::Refused(syntax_error)),
    }
}

/// The spans of tokens.
fn extents_of(alloc: Global, tokens: &[PlacedToken]) -> Result<Vec<Span>, OutOfMemory>
    ensures { IfOk result (λ extents. extents.items ≡ map (λ t. t.extent) tokens.now) }
{
    Ok(tokens.iter().map(|token| token.extent).collect(alloc)?)
}

/// Feeds a parser that has read nothing with tokens of a text, up to the first one that it rejects. Returns the error
/// for that one.
fn read_tokens<'t>(
    parser: &mut TableParser<'_>,
    text: &'t [u8],
    tokens: &[PlacedToken],
) -> Result<Option<SyntaxError<'t>>, TextFault>
    requires machine { IsMachine parser.old.machine }
    requires empty { parser.old.stack ≡ [] }
    requires none { parser.old.count ≡ 0 }
    requires goes_on { parser.old.over ≡ false }
    requires tokens { All (IsTokenOver parser.old.machine.terminals (length text.now)) tokens.now }
    ensures read { AreReadOver parser.old.machine (map (token_over text.now) tokens.now) parser.new result }
    ensures machine { parser.new.machine ≡ parser.old.machine }
{
    for given in tokens {
        let token = given.over(text);
        match parser.feed(&token) {
            Ok(Step::More) => {}
            Ok(
                Step::Refused {
                    token: number,
                    expected,
                    ..
                },
            ) => {
                return Ok(Some(SyntaxError::Refused {
                    number,
                    token,
                    expected,
                }));
            }
            Err(ParseFault::FaultyTables) => return Err(TextFault::FaultyTables),
            Err(ParseFault::OutOfMemory) => return Err(TextFault::OutOfMemory),
            // only the end is accepted
            Ok(Step::Done(_)) => unreachable!(),
            // after a token that is read, the parse hasn't ended
            Err(ParseFault::Over) => unreachable!(),
        }
    }
    Ok(None)
}

/// Feeds a parser with the end of a text.
fn read_end<'t>(parser: &mut TableParser<'_>, text: &'t [u8]) -> Result<Ended<'t>, TextFault>
    requires goes_on { parser.old.over ≡ false }
    requires terminals { 0 < parser.old.machine.terminals }
    ensures { IsEndRead parser.old text.now parser.new.forest result }
{
    let at = text.len() as u64;
    match parser.end(at) {
        Ok(Step::Done(root)) => Ok(Ended::Accepted(root)),
        Ok(
            Step::Refused {
                token: number,
                expected,
                ..
            },
        ) => {
            let token = Token {
                terminal: Sym(0),
                at,
                text: Front::new(text, 0),
            };
            Ok(Ended::Refused(SyntaxError::Refused {
                number,
                token,
                expected,
            }))
        }
        Err(ParseFault::FaultyTables) => Err(TextFault::FaultyTables),
        Err(ParseFault::OutOfMemory) => Err(TextFault::OutOfMemory),
        // the end is never read, and the parse hasn't ended
        Ok(Step::More) | Err(ParseFault::Over) => unreachable!(),
    }
}
