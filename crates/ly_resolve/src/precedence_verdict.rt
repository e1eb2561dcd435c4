ghost use Rattle.std.specs.Prelude.{◌≡◌};
ghost use Rattle.ly_resolve.specs.Precedence.{between_equals, by_levels, judge_of, rule_precedence, token_precedence};
ghost use Rattle.ly_resolve.specs.Private.Verdicts.{verdict_from};

use ly_base::Sym;
use ly_join::{Associativity, Precedence, Spec};
use std::cmp::Ordering;

/// The verdict of precedence on a shift against a reduction.
#[derive(Clone, Copy, Debug, PartialEq, Eq)]
pub(crate) enum PrecedenceVerdict {
    /// The shift is chosen.
    Shift,
    /// The reduction is chosen.
    Reduce,
    /// Neither is chosen.
    Error,
    /// No verdict, because the rule or the terminal has no precedence.
    Unsettled,
}

/// The verdict of a specification's precedences on a rule against a shift of a terminal.
pub(crate) fn judge(spec: &Spec, rule: usize, terminal: Sym) -> PrecedenceVerdict
    ensures { verdict_from result ≡ judge_of spec.now rule terminal.0 }
{
    match (
        precedence_of_rule(spec, rule),
        precedence_of_token(spec, terminal),
    ) {
        (Some(rule), Some(token)) => between(rule, token),
        _ => PrecedenceVerdict::Unsettled,
    }
}

/// The precedence of a rule, if it has one.
fn precedence_of_rule(spec: &Spec, rule: usize) -> Option<Precedence>
    ensures { result ≡ rule_precedence spec.now rule }
{
    match spec.notes().get(rule) {
        Some(note) => note.precedence,
        None => None,
    }
}

/// The precedence of a terminal, if it has one.
fn precedence_of_token(spec: &Spec, terminal: Sym) -> Option<Precedence>
    ensures { result ≡ token_precedence spec.now terminal.0 }
{
    match spec.precedences().get(terminal.0 as usize) {
        Some(precedence) => *precedence,
        None => None,
    }
}

/// The higher precedence wins. If they are equal, associativity decides.
fn between(rule: Precedence, token: Precedence) -> PrecedenceVerdict
    ensures { verdict_from result ≡ by_levels rule token }
{
    match rule.level.cmp(&token.level) {
        Ordering::Greater => PrecedenceVerdict::Reduce,
        Ordering::Less => PrecedenceVerdict::Shift,
        Ordering::Equal => for_associativity(token.associativity),
    }
}

/// For equal precedences, left prefers the reduction, right the shift, and nonassociative neither.
fn for_associativity(associativity: Associativity) -> PrecedenceVerdict
    ensures { verdict_from result ≡ between_equals associativity }
{
    match associativity {
        Associativity::Left => PrecedenceVerdict::Reduce,
        Associativity::Right => PrecedenceVerdict::Shift,
        Associativity::Nonassociative => PrecedenceVerdict::Error,
    }
}
