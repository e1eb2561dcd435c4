ghost use Rattle.std.specs.Prelude.{◌≡◌, ◌<◌, ◌≤◌, length, map, max, MatchResult};
ghost use Rattle.ly_yaccread.specs.File.{making_of, ruling_of, written_of};
ghost use Rattle.ly_join.specs.Scanning.{scanning_of};
ghost use Rattle.ly_join.specs.Terminals.{TerminalName};
ghost use Rattle.ly_join.specs.Private.Tables.{terminal_of};
ghost use Rattle.ly_join.specs.declared.limit.Limit as spec;
ghost use Rattle.ly_join.specs.declared.limit.Limit.TheVariants as limit;
ghost use Rattle.ly_join.specs.declared.fault.JoinFault.TheVariants.{LimitPassed};
ghost use Rattle.ly_join.specs.Counts.{constructor_length, counted, greatest, limit_of, name_lengths, token_length};
ghost use Rattle.ly_join.specs.Counts.{IsWithin};
ghost use Rattle.ly_join.specs.FaultNames.{limit_name};

use crate::fault::JoinFault;
use ly_base::Limits;
use ly_lexread::LexFile;
use ly_yaccread::{Production, SymbolName, TreeAction, YaccFile};

/// A count that has a limit.
#[derive(Clone, Copy, Debug, PartialEq, Eq)]
pub enum Limit {
    /// The number of symbols of the grammar, with `$end`, `$undef` and `$accept`.
    Symbols,
    /// The number of rules of the yacc file.
    Rules,
    /// The number of rules of the lex file.
    LexRules,
    /// The number of symbols of the longest body.
    Body,
    /// The number of start conditions of the lex file, with the initial one.
    Conditions,
    /// The length in bytes of the longest name of a token, a left side or a constructor.
    Name,
}

impl Limit {
    /// The name that the limit is printed with.
    pub fn name(&self) -> &'static str
        ensures { result.now ≡ limit_name self.now }
    {
        match self {
            Limit::Symbols => "symbols",
            Limit::Rules => "rules",
            Limit::LexRules => "lexrules",
            Limit::Body => "body",
            Limit::Conditions => "conditions",
            Limit::Name => "name",
        }
    }
}

/// Returns an error for the first count, in the order of `Limit`, that is above its limit.
pub(crate) fn check_limits(
    limits: &Limits,
    lex: &LexFile,
    yacc: &YaccFile,
    symbols: usize,
) -> Result<(), JoinFault>
    requires { symbols ≡ counted limit.Symbols (scanning_of lex.now) (written_of yacc.now) }
    ensures { MatchResult result (λ _. IsWithin limits.now (scanning_of lex.now) (written_of yacc.now))
        (λ f. (which : spec.Limit) × (f ≡ LimitPassed which)
        × (limit_of which limits.now < counted which (scanning_of lex.now) (written_of yacc.now))) }
{
    check(Limit::Symbols, symbols, limits.symbols())?;
    check(Limit::Rules, yacc.rules.len(), limits.yacc_rules())?;
    check(Limit::LexRules, lex.rules.len(), limits.lex_rules())?;
    check(Limit::Body, longest_body(&yacc.rules), limits.body_length())?;
    check(
        Limit::Conditions,
        lex.conditions as usize,
        limits.conditions(),
    )?;
    check(Limit::Name, longest_name(yacc), limits.name_length())
}

/// Returns an error for a count above its limit.
fn check(which: Limit, count: usize, most: u32) -> Result<(), JoinFault>
    ensures { MatchResult result (λ _. count ≤ most) (λ f. (f ≡ LimitPassed which) × (most < count)) }
{
    if count <= most as usize {
        Ok(())
    } else {
        Err(JoinFault::LimitPassed { which })
    }
}

/// The number of symbols of the longest body.
fn longest_body(rules: &[Production]) -> usize
    ensures { result ≡ greatest (map (λ r. length r.body) (map ruling_of rules.now)) }
{
    let mut longest = 0;
    for rule in rules {
        longest = rule.body.len().max(longest);
    }
    longest
}

/// The length in bytes of the longest name of a token, a left side or a constructor.
fn longest_name(yacc: &YaccFile) -> usize
    ensures { result ≡ greatest (name_lengths (written_of yacc.now)) }
{
    let mut longest = 0;
    for declaration in &yacc.declarations {
        longest = longest_token(&declaration.symbols).max(longest);
    }
    for rule in &yacc.rules {
        longest = rule
            .left
            .len()
            .max(constructor_length(&rule.action))
            .max(longest);
    }
    longest
}

/// The length in bytes of the longest name among symbols.
fn longest_token(symbols: &[SymbolName]) -> usize
    ensures { result ≡ greatest (map token_length (map terminal_of symbols.now)) }
{
    let mut longest = 0;
    for symbol in symbols {
        longest = token_length(symbol).max(longest);
    }
    longest
}

/// The length in bytes of the name of a symbol; 0 for a literal.
fn token_length(symbol: &SymbolName) -> usize
    ensures { result ≡ token_length (terminal_of symbol.now) }
{
    match symbol {
        SymbolName::Name(name) => name.len(),
        SymbolName::Literal(_) => 0,
    }
}

/// The length in bytes of the constructor of an action; 0 if it has none.
fn constructor_length(action: &TreeAction) -> usize
    ensures { result ≡ constructor_length (making_of action.now) }
{
    match action {
        TreeAction::Build(node) => node.name.len(),
        TreeAction::Default | TreeAction::Pass(_) => 0,
    }
}
