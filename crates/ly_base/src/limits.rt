ghost use Rattle.std.specs.Prelude.{◌≡◌, min};

use crate::version::Version;
use std::marker::Model;

/// The greatest sizes that lytab accepts. A limit above version 2's counts as version 2's, so a `Limits` never holds a
/// greater one.
#[derive(Clone, Copy, Debug, PartialEq, Eq)]
pub struct Limits {
    /// The greatest number of symbols in a grammar, including `$end`, `$undef` and `$accept`.
    symbols: u32,
    /// The greatest number of rules in a yacc file, without the rule that lytab adds.
    yacc_rules: u32,
    /// The greatest number of rules in a lex file.
    lex_rules: u32,
    /// The greatest number of symbols in the body of a rule.
    body_length: u32,
    /// The greatest number of start conditions, including the initial one.
    conditions: u32,
    /// The greatest length in bytes of a symbol's or constructor's name.
    name_length: u32,
    /// The greatest number of parser states.
    parser_states: u32,
    /// The greatest number of scanner states before the DFA is minimised.
    scanner_states: u32,
    /// The greatest weight of one pattern or definition: the number of its byte sets and empty strings, with
    /// repetitions and names expanded.
    pattern_weight: u32,
    /// The greatest weight of all patterns together.
    total_weight: u32,
}

impl Model for Limits {
    ghost use Rattle.ly_base.specs.Limits.{Sizes};

    ghost Value = { Sizes };

    ghost use Rattle.ly_base.specs.Limits.{inside_of, sizes_of, version_2, AreBounded};

    ghost view = { sizes_of };

    ghost inverse = { inside_of };

    ghost invariant = { λ l. AreBounded version_2 (sizes_of l) };
}

impl Limits {
    ghost use Rattle.ly_base.specs.Limits.{least_of, sizes_in, version_1, version_2, AreBounded};

    /// The limits of version 1.
    pub const V1: Limits = Limits {
        symbols: 4095,
        yacc_rules: 8191,
        lex_rules: 8191,
        body_length: 255,
        conditions: 255,
        name_length: 255,
        parser_states: 16_383,
        scanner_states: 16_383,
        pattern_weight: 65_535,
        total_weight: 65_535,
    };

    /// The limits of version 2.
    pub const V2: Limits = Limits {
        symbols: 16_383,
        yacc_rules: 131_071,
        lex_rules: 131_071,
        body_length: 255,
        conditions: 255,
        name_length: 255,
        parser_states: 262_143,
        scanner_states: 262_143,
        pattern_weight: 1_048_575,
        total_weight: 1_048_575,
    };

    /// The limits of version 1, as a value that contracts can use.
    pub fn version_1() -> Self
        ensures { result ≡ version_1 }
    {
        Limits::V1
    }

    /// The limits of version 2, as a value that contracts can use.
    pub fn version_2() -> Self
        ensures { result ≡ version_2 }
    {
        Limits::V2
    }

    /// Lowers each limit to that of `version` if it is greater.
    pub fn within(self, version: Version) -> Self
        ensures least { result ≡ least_of self (sizes_in version) }
        ensures bounded { AreBounded (sizes_in version) result }
    {
        let most = match version {
            Version::V1 => Limits::V1,
            Version::V2 => Limits::V2,
        };
        Limits {
            symbols: self.symbols.min(most.symbols),
            yacc_rules: self.yacc_rules.min(most.yacc_rules),
            lex_rules: self.lex_rules.min(most.lex_rules),
            body_length: self.body_length.min(most.body_length),
            conditions: self.conditions.min(most.conditions),
            name_length: self.name_length.min(most.name_length),
            parser_states: self.parser_states.min(most.parser_states),
            scanner_states: self.scanner_states.min(most.scanner_states),
            pattern_weight: self.pattern_weight.min(most.pattern_weight),
            total_weight: self.total_weight.min(most.total_weight),
        }
    }

    /// Does nothing. Its contract states the invariant of the type: no limit is above version 2's.
    pub fn are_bounded(&self)
        ensures { AreBounded version_2 self.now }
    {
        let _ = &self.symbols;
    }

    /// The greatest number of symbols in a grammar, including `$end`, `$undef` and `$accept`.
    pub fn symbols(&self) -> u32
        ensures { result ≡ self.now.symbols }
    {
        self.symbols
    }

    /// Sets the limit on the symbols of a grammar, to `most` or to version 2's if that is less.
    pub fn with_symbols(self, most: u32) -> Self
        ensures { result ≡ record self { symbols = min most version_2.symbols } }
    {
        Limits {
            symbols: most.min(Limits::V2.symbols),
            ..self
        }
    }

    /// The greatest number of rules in a yacc file, without the rule that lytab adds.
    pub fn yacc_rules(&self) -> u32
        ensures { result ≡ self.now.yacc_rules }
    {
        self.yacc_rules
    }

    /// Sets the limit on the rules of a yacc file, to `most` or to version 2's if that is less.
    pub fn with_yacc_rules(self, most: u32) -> Self
        ensures { result ≡ record self { yacc_rules = min most version_2.yacc_rules } }
    {
        Limits {
            yacc_rules: most.min(Limits::V2.yacc_rules),
            ..self
        }
    }

    /// The greatest number of rules in a lex file.
    pub fn lex_rules(&self) -> u32
        ensures { result ≡ self.now.lex_rules }
    {
        self.lex_rules
    }

    /// Sets the limit on the rules of a lex file, to `most` or to version 2's if that is less.
    pub fn with_lex_rules(self, most: u32) -> Self
        ensures { result ≡ record self { lex_rules = min most version_2.lex_rules } }
    {
        Limits {
            lex_rules: most.min(Limits::V2.lex_rules),
            ..self
        }
    }

    /// The greatest number of symbols in the body of a rule.
    pub fn body_length(&self) -> u32
        ensures { result ≡ self.now.body_length }
    {
        self.body_length
    }

    /// Sets the limit on the symbols in the body of a rule, to `most` or to version 2's if that is less.
    pub fn with_body_length(self, most: u32) -> Self
        ensures { result ≡ record self { body_length = min most version_2.body_length } }
    {
        Limits {
            body_length: most.min(Limits::V2.body_length),
            ..self
        }
    }

    /// The greatest number of start conditions, including the initial one.
    pub fn conditions(&self) -> u32
        ensures { result ≡ self.now.conditions }
    {
        self.conditions
    }

    /// Sets the limit on the start conditions, to `most` or to version 2's if that is less.
    pub fn with_conditions(self, most: u32) -> Self
        ensures { result ≡ record self { conditions = min most version_2.conditions } }
    {
        Limits {
            conditions: most.min(Limits::V2.conditions),
            ..self
        }
    }

    /// The greatest length in bytes of a symbol's or constructor's name.
    pub fn name_length(&self) -> u32
        ensures { result ≡ self.now.name_length }
    {
        self.name_length
    }

    /// Sets the limit on the bytes of a name, to `most` or to version 2's if that is less.
    pub fn with_name_length(self, most: u32) -> Self
        ensures { result ≡ record self { name_length = min most version_2.name_length } }
    {
        Limits {
            name_length: most.min(Limits::V2.name_length),
            ..self
        }
    }

    /// The greatest number of parser states.
    pub fn parser_states(&self) -> u32
        ensures { result ≡ self.now.parser_states }
    {
        self.parser_states
    }

    /// Sets the limit on the states of the parser, to `most` or to version 2's if that is less.
    pub fn with_parser_states(self, most: u32) -> Self
        ensures { result ≡ record self { parser_states = min most version_2.parser_states } }
    {
        Limits {
            parser_states: most.min(Limits::V2.parser_states),
            ..self
        }
    }

    /// The greatest number of scanner states before the DFA is minimised.
    pub fn scanner_states(&self) -> u32
        ensures { result ≡ self.now.scanner_states }
    {
        self.scanner_states
    }

    /// Sets the limit on the states of the scanner, to `most` or to version 2's if that is less.
    pub fn with_scanner_states(self, most: u32) -> Self
        ensures { result ≡ record self { scanner_states = min most version_2.scanner_states } }
    {
        Limits {
            scanner_states: most.min(Limits::V2.scanner_states),
            ..self
        }
    }

    /// The greatest weight of one pattern or definition.
    pub fn pattern_weight(&self) -> u32
        ensures { result ≡ self.now.pattern_weight }
    {
        self.pattern_weight
    }

    /// Sets the limit on the weight of one pattern or definition, to `most` or to version 2's if that is less.
    pub fn with_pattern_weight(self, most: u32) -> Self
        ensures { result ≡ record self { pattern_weight = min most version_2.pattern_weight } }
    {
        Limits {
            pattern_weight: most.min(Limits::V2.pattern_weight),
            ..self
        }
    }

    /// The greatest weight of all patterns together.
    pub fn total_weight(&self) -> u32
        ensures { result ≡ self.now.total_weight }
    {
        self.total_weight
    }

    /// Sets the limit on the weight of all patterns, to `most` or to version 2's if that is less.
    pub fn with_total_weight(self, most: u32) -> Self
        ensures { result ≡ record self { total_weight = min most version_2.total_weight } }
    {
        Limits {
            total_weight: most.min(Limits::V2.total_weight),
            ..self
        }
    }
}
