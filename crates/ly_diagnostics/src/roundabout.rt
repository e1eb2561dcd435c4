//! Cycles of nonterminals: each one needs the next, or derives it alone, and the last one the first.
use ly_base::{OutOfMemory, Sym};
use ly_grammar::Reduced;
use ly_join::{Grammar, GrammarRule, Symbol};
use std::alloc::Global;

/// The greatest number of passes over the rules. If more are needed, nothing is found.
const PASSES: usize = 1000;

/// An edge of a cycle: the nonterminal that a nonterminal needs, or derives alone.
#[derive(Clone, Copy)]
pub(crate) struct Step {
    /// The rule with the edge. Its left side is the source.
    pub(crate) rule: usize,
    /// The target.
    pub(crate) to: Sym,
}

/// A cycle of nonterminals without a text that the start symbol leads to; exactly the `known` ones derive a text. Each
/// rule of such a nonterminal contains another one; the edge is to the first one in its first rule.
pub(crate) fn without_text(
    alloc: Global,
    grammar: &Grammar,
    known: &[bool],
) -> Result<Vec<Step>, OutOfMemory> {
    let mut steps = no_steps(alloc, grammar)?;
    for (number, rule) in grammar.rules().iter().enumerate() {
        let needed = rule.body().iter().find(|symbol| !has_text(**symbol, known));
        if let Some(Symbol::Nonterminal(to)) = needed {
            note_step(&mut steps, rule, number, *to);
        }
    }
    way_around(alloc, &steps, grammar.start())
}

/// A cycle of nonterminals that each derive the next one alone, with all other symbols empty.
pub(crate) fn derived_alone(
    alloc: Global,
    reduced: &Reduced<'_>,
) -> Result<Vec<Step>, OutOfMemory> {
    let grammar = reduced.grammar();
    let Some(endless) = leads_on(alloc, reduced)? else {
        return Ok(Vec::new(alloc));
    };
    let mut steps = no_steps(alloc, grammar)?;
    for number in 1..grammar.rules().len() {
        let rule = grammar.rule(number);
        for symbol in alone_in(reduced, number) {
            if let Symbol::Nonterminal(to) = symbol
                && is_known(&endless, *to)
            {
                note_step(&mut steps, rule, number, *to);
            }
        }
    }
    match endless.iter().position(|is_so| *is_so) {
        Some(first) => way_around(alloc, &steps, Sym(u32::try_from(first).unwrap_or(u32::MAX))),
        None => Ok(Vec::new(alloc)),
    }
}

/// Whether a rule's left side is in its own body after one or more nullable symbols.
pub(crate) fn is_behind_nothing(reduced: &Reduced<'_>, number: usize) -> bool {
    let Some(rule) = kept_rule(reduced, number) else {
        return false;
    };
    let body = rule.body();
    let empty = body
        .iter()
        .position(|symbol| !is_nullable(reduced, *symbol))
        .unwrap_or(body.len());
    body.iter()
        .take(empty.saturating_add(1))
        .skip(1)
        .any(|symbol| *symbol == Symbol::Nonterminal(rule.left()))
}

/// The nonterminals of a body that derive no text, each once; exactly the `known` ones derive one.
pub(crate) fn needed_in(
    alloc: Global,
    body: &[Symbol],
    known: &[bool],
) -> Result<Vec<Sym>, OutOfMemory> {
    let mut needed: Vec<Sym> = Vec::new(alloc);
    for symbol in body {
        if let Symbol::Nonterminal(number) = symbol
            && !has_text(*symbol, known)
            && !needed.contains(number)
        {
            needed.push(*number)?;
        }
    }
    Ok(needed)
}

/// Which nonterminals derive a text.
pub(crate) fn with_text(
    alloc: Global,
    grammar: &Grammar,
) -> Result<Option<Vec<bool>>, OutOfMemory> {
    let mut known = vec![in alloc; false; grammar.accept().0 as usize]?;
    for _ in 0..PASSES {
        let mut more = false;
        for rule in grammar.rules() {
            let left = rule.left();
            if !is_known(&known, left)
                && rule.body().iter().all(|symbol| has_text(*symbol, &known))
            {
                more = note(&mut known, left) || more;
            }
        }
        if !more {
            return Ok(Some(known));
        }
    }
    Ok(None)
}

/// Which nonterminals derive alone a nonterminal that is marked too.
fn leads_on(alloc: Global, reduced: &Reduced<'_>) -> Result<Option<Vec<bool>>, OutOfMemory> {
    let grammar = reduced.grammar();
    let count = grammar.accept().0 as usize;
    let mut known = vec![in alloc; true; count]?;
    for _ in 0..PASSES {
        let mut next = vec![in alloc; false; count]?;
        for number in 1..grammar.rules().len() {
            for symbol in alone_in(reduced, number) {
                if let Symbol::Nonterminal(to) = symbol
                    && is_known(&known, *to)
                {
                    note(&mut next, grammar.rule(number).left());
                }
            }
        }
        if next == known {
            return Ok(Some(known));
        }
        known = next;
    }
    Ok(None)
}

/// The symbols of a useful rule's body that are derived alone if the others are empty.
fn alone_in<'r>(reduced: &'r Reduced<'_>, number: usize) -> &'r [Symbol] {
    let Some(rule) = kept_rule(reduced, number) else {
        return &[];
    };
    let body = rule.body();
    let is_solid = |symbol: &Symbol| !is_nullable(reduced, *symbol);
    let Some(first) = body.iter().position(is_solid) else {
        return body;
    };
    let behind = first.saturating_add(1);
    if body.get(behind..).unwrap_or_default().iter().any(is_solid) {
        return &[];
    }
    body.get(first..behind).unwrap_or_default()
}

/// The rule with a number, if it is useful.
fn kept_rule<'r>(reduced: &'r Reduced<'_>, number: usize) -> Option<&'r GrammarRule> {
    let grammar = reduced.grammar();
    if number < grammar.rules().len() && reduced.is_kept(number) {
        Some(grammar.rule(number))
    } else {
        None
    }
}

/// Whether a symbol is nullable.
fn is_nullable(reduced: &Reduced<'_>, symbol: Symbol) -> bool {
    match symbol {
        Symbol::Terminal(_) => false,
        Symbol::Nonterminal(number) => {
            number.0 <= reduced.grammar().accept().0 && reduced.is_nullable(number)
        }
    }
}

/// Whether a symbol derives a text, if exactly the known nonterminals do.
fn has_text(symbol: Symbol, known: &[bool]) -> bool {
    match symbol {
        Symbol::Terminal(_) => true,
        Symbol::Nonterminal(number) => is_known(known, number),
    }
}

/// Whether a nonterminal is known.
fn is_known(known: &[bool], number: Sym) -> bool {
    known.get(number.0 as usize).copied().unwrap_or(false)
}

/// Makes a nonterminal known. Returns whether its number exists.
fn note(known: &mut [bool], number: Sym) -> bool {
    match known.get_mut(number.0 as usize) {
        Some(place) => {
            *place = true;
            true
        }
        None => false,
    }
}

/// No edges.
fn no_steps(alloc: Global, grammar: &Grammar) -> Result<Vec<Option<Step>>, OutOfMemory> {
    Ok(vec![in alloc; None; grammar.accept().0 as usize]?)
}

/// Sets the edge of a rule's left side, if it has none yet.
fn note_step(steps: &mut [Option<Step>], rule: &GrammarRule, number: usize, to: Sym) {
    if let Some(step) = steps.get_mut(rule.left().0 as usize)
        && step.is_none()
    {
        *step = Some(Step { rule: number, to });
    }
}

/// The cycle that the edges from a nonterminal lead to.
fn way_around(alloc: Global, steps: &[Option<Step>], from: Sym) -> Result<Vec<Step>, OutOfMemory> {
    let mut around = Vec::new(alloc);
    let mut at = from;
    for _ in 0..steps.len() {
        match step_of(steps, at) {
            Some(step) => at = step.to,
            None => return Ok(around),
        }
    }
    let first = at;
    for _ in 0..steps.len() {
        let Some(step) = step_of(steps, at) else {
            return Ok(around);
        };
        around.push(step)?;
        at = step.to;
        if at == first {
            return Ok(around);
        }
    }
    Ok(around)
}

/// The edge of a nonterminal, if it has one.
fn step_of(steps: &[Option<Step>], number: Sym) -> Option<Step> {
    steps.get(number.0 as usize).copied().flatten()
}
