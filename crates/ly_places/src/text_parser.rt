ghost use Rattle.std.specs.Prelude.{◌≡◌, Err, IfErr, IfOk};
ghost use Rattle.ly_feed.specs.TableAnswer.{IsVerdict};
ghost use Rattle.ly_feed.specs.Verdict.{faulty};
ghost use Rattle.ly_places.specs.Parsing.{IsOfParsing, IsParsedAs};
ghost use Rattle.ly_places.specs.PlacedAnswer.{IsPlacedVerdict, PlacedVerdict};

use crate::keeping_parser::rules_of;
use crate::parsing::{Parsed, parse_by};
use ly_base::OutOfMemory;
use ly_feed::{Prepared, TextFault};
use ly_pack::TableRule;
use ly_tables::TableSet;
use std::alloc::Global;
use std::marker::Model;

/// A parser for many texts with one table set: everything that depends only on the set is computed once.
#[derive(Drop)]
pub struct TextParser<'s> {
    /// The prepared table set.
    prepared: Prepared<'s>,
    /// The set's rules, changed to keep their whole bodies.
    rules: Vec<TableRule>,
}

impl<'s> Model for TextParser<'s> {
    ghost use Rattle.std.specs.Prelude.{◌≡◌, map};
    ghost use Rattle.ly_pack.specs.Values.{rule_from};
    ghost use Rattle.ly_places.specs.Shapes.{keeping_rule};
    ghost use Rattle.ly_tables.specs.TableSet as tables;

    ghost Value = { tables.TableSet };

    ghost view = { λ p. p.prepared };

    ghost invariant = { λ p. map rule_from p.rules.items ≡ map keeping_rule p.prepared.rules };
}

impl<'s> TextParser<'s> {
    /// A parser with this set. It fails if an allocation fails.
    pub fn new(alloc: Global, set: &'s TableSet) -> Result<TextParser<'s>, OutOfMemory>
        ensures { IfOk result (λ parser. parser ≡ set.now) }
    {
        Ok(TextParser {
            prepared: Prepared::new(alloc, set)?,
            rules: rules_of(alloc, set)?,
        })
    }

    /// Parses a text. Returns the parts of its tree with their spans, or the error in the text.
    ///
    /// The errors are `FaultyTables` and `OutOfMemory` of `TextFault`.
    pub fn parse<'t>(&self, text: &'t [u8]) -> Result<Parsed<'t>, TextFault>
        ensures parsed { IfOk result (λ p. (v : PlacedVerdict) × IsPlacedVerdict self.now text.now v
            × IsParsedAs text.now v p) }
        ensures faulty { result ≡ Err TextFault.FaultyTables → IsVerdict self.now text.now faulty }
        ensures ending { IfErr result IsOfParsing }
    {
        parse_by(&self.prepared, &self.rules, text)
    }
}
