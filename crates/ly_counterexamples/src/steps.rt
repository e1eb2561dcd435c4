//! The steps from a demand to the demands that imply it.
ghost use Rattle.std.specs.Prelude.{◌≡◌, ◌↔◌, ◌⊎◌, ◌+◌, ◌<◌, drop, length, Contains, IfOk, IsTrue, OnOk, Some};
ghost use Rattle.ly_join.specs.Grammar.{symbol_of, IsRule, GrammarRule};
ghost use Rattle.ly_counterexamples.specs.Demands.{ClimbsTo, IsBefore, IsBegun, IsClimb, IsPop, PopsTo};
ghost use Rattle.ly_counterexamples.specs.Private.Kept.{IsKeptClaim, IsKeptDemand, IsKeptItem};
ghost use Rattle.ly_counterexamples.specs.Private.Lists.{IsGround};
ghost use Rattle.ly_counterexamples.specs.Private.Met.{item_at};
ghost use Rattle.ly_counterexamples.specs.Private.Steps.{ArePopped, HasAhead, IsClaimOn};
ghost use Rattle.ly_counterexamples.specs.declared.claim.Claim as claim_values;
ghost use Rattle.ly_counterexamples.specs.declared.claim.Claim.TheVariants.{With as TheTerminal};
ghost use Rattle.ly_counterexamples.specs.declared.claim.Demand as demands;
ghost use Rattle.ly_lr0.specs.declared.item.Item as items;
ghost use Rattle.ly_counterexamples.specs.declared.steps.Pop as pops;

use crate::claim::{Claim, Demand};
use crate::ground::Ground;
use crate::rest::{are_nullable, begins};
use ly_base::{StateNo, Sym};
use ly_grammar::Reduced;
use ly_join::Symbol;
use ly_lr0::Item;
use std::alloc::{AllocError, Global};

/// A demand on a string without its last symbol.
#[derive(Clone, Copy)]
pub(crate) struct Pop {
    /// The symbol.
    pub(crate) symbol: Symbol,
    /// The demand.
    pub(crate) demand: Demand,
}

/// The demands on the same string that imply a demand: one of its claims is replaced by a claim that implies it.
pub(crate) fn climbs(
    alloc: Global,
    ground: &Ground<'_>,
    terminal: Sym,
    demand: Demand,
) -> Result<Vec<Demand>, AllocError>
    requires ground { IsGround ground.now }
    requires terminal { terminal.0 < ground.now.lr0.now.grammar.terminals }
    requires kept { IsKeptDemand ground.now.lr0.now demand }
    ensures { IfOk result (λ ds. (e : demands.Demand) → Contains ds.items e
        ↔ IsClimb ground.now.lr0.now terminal.0 demand e) }
{
    let mut demands = Vec::new(alloc);
    for first in &claims_above(alloc, ground, terminal, demand.state, demand.first)? {
        demands.push(Demand {
            first: *first,
            ..demand
        })?;
    }
    for second in &claims_above(alloc, ground, terminal, demand.state, demand.second)? {
        demands.push(Demand {
            second: *second,
            ..demand
        })?;
    }
    Ok(demands)
}

/// The claims that imply a claim at strings that lead to a state, if the claim's item has nothing before its dot.
fn claims_above(
    alloc: Global,
    ground: &Ground<'_>,
    terminal: Sym,
    state: StateNo,
    claim: Claim,
) -> Result<Vec<Claim>, AllocError>
    requires ground { IsGround ground.now }
    requires terminal { terminal.0 < ground.now.lr0.now.grammar.terminals }
    requires state { state.0 < length ground.now.lr0.now.states }
    requires kept { IsKeptClaim ground.now.lr0.now.grammar claim }
    ensures { IfOk result (λ cs. (c : claim_values.Claim) → Contains cs.items c
        ↔ ClimbsTo ground.now.lr0.now terminal.0 state.0 claim c) }
{
    let mut claims = Vec::new(alloc);
    match claim {
        Claim::Settled => {}
        Claim::With(item) if item.dot == 0 => {
            push_claims(ground, terminal, item.rule, &mut claims)?;
        }
        Claim::InCore(item) if item.dot == 0 && is_begun(ground, state, item.rule) => {
            claims.push(Claim::Settled)?;
        }
        _ => {}
    }
    Ok(claims)
}

/// Adds the claims that make a rule with nothing before its dot valid with a terminal. There is one for each item that
/// has the rule's left side after its dot, if the terminal begins what follows, or is inherited.
fn push_claims(
    ground: &Ground<'_>,
    terminal: Sym,
    rule: usize,
    claims: &mut Vec<Claim>,
) -> Result<(), AllocError>
    requires ground { IsGround ground.now }
    requires terminal { terminal.0 < ground.now.lr0.now.grammar.terminals }
    requires kept { (r : GrammarRule) × IsRule ground.now.lr0.now.grammar rule r }
    ensures { OnOk result ((c : claim_values.Claim) → Contains claims.new.items c ↔ (Contains claims.old.items c
        ⊎ ClimbsTo ground.now.lr0.now terminal.0 0 (TheTerminal (item_at rule 0)) c)) }
{
    let reduced = ground.lr0.reduced();
    let left = reduced.grammar().rule(rule).left();
    for item in ground.waiting.of(left.0 as usize) {
        push_claims_on(reduced, terminal, *item, claims)?;
    }
    Ok(())
}

/// Adds the claims on an item for which a terminal follows the symbol after its dot.
fn push_claims_on(
    reduced: &Reduced<'_>,
    terminal: Sym,
    item: Item,
    claims: &mut Vec<Claim>,
) -> Result<(), AllocError>
    requires terminal { terminal.0 < reduced.now.grammar.terminals }
    requires ahead { HasAhead reduced.now.grammar item }
    ensures { OnOk result ((c : claim_values.Claim) → Contains claims.new.items c ↔ (Contains claims.old.items c
        ⊎ IsClaimOn reduced.now.grammar terminal.0 item c)) }
{
    let body = reduced.grammar().rule(item.rule).body();
    let rest = behind(body, item.dot);
    if begins(reduced, rest, terminal) {
        claims.push(Claim::InCore(item))?;
    }
    if are_nullable(reduced, rest) {
        claims.push(Claim::With(item))?;
    }
    Ok(())
}

/// The symbols after an index.
fn behind(body: &[Symbol], place: usize) -> &[Symbol]
    requires { place < length body.now }
    ensures { result.now ≡ drop (place + 1) body.now }
{
    &body[place + 1..]
}

/// Whether the item of a rule with nothing before its dot is in the core of a state.
pub(crate) fn is_begun(ground: &Ground<'_>, state: StateNo, rule: usize) -> bool
    requires state { state.0 < length ground.now.lr0.now.states }
    requires kept { (r : GrammarRule) × IsRule ground.now.lr0.now.grammar rule r }
    ensures { IsTrue result ↔ IsBegun ground.now.lr0.now state.0 rule }
{
    let left = ground.lr0.reduced().grammar().rule(rule).left();
    rule == 0 && state.0 == 0 || ground.lr0.goto(state, Symbol::Nonterminal(left)).is_some()
}

/// The demands on strings without their last symbol that imply a demand, with the symbols.
pub(crate) fn pops(
    alloc: Global,
    ground: &Ground<'_>,
    demand: Demand,
) -> Result<Vec<Pop>, AllocError>
    requires ground { IsGround ground.now }
    requires kept { IsKeptDemand ground.now.lr0.now demand }
    ensures { IfOk result (λ ps. (p : pops.Pop) → Contains ps.items p
        ↔ IsPop ground.now.lr0.now (symbol_of p.symbol) demand p.demand) }
{
    let mut found = Vec::new(alloc);
    // all transitions to the state are over one symbol
    let Some(symbol) = ground.lr0.accessing_symbol(demand.state) else {
        return Ok(found);
    };
    let Some(popped) = both_popped(ground, demand, symbol) else {
        return Ok(found);
    };
    for predecessor in ground.predecessors.of(demand.state.0 as usize) {
        found.push(Pop {
            symbol,
            demand: Demand {
                state: *predecessor,
                ..popped
            },
        })?;
    }
    Ok(found)
}

/// The demand on strings without their last symbol that implies both claims of a demand.
fn both_popped(ground: &Ground<'_>, demand: Demand, symbol: Symbol) -> Option<Demand>
    requires first { IsKeptClaim ground.now.lr0.now.grammar demand.first }
    requires second { IsKeptClaim ground.now.lr0.now.grammar demand.second }
    ensures { (d : demands.Demand) → ArePopped ground.now.lr0.now.grammar (symbol_of symbol) demand d
        ↔ (result ≡ Some d) }
{
    let first = popped(ground, demand.first, symbol)?;
    let second = popped(ground, demand.second, symbol)?;
    Some(Demand {
        first,
        second,
        ..demand
    })
}

/// The claim on strings without their last symbol that implies a claim.
fn popped(ground: &Ground<'_>, claim: Claim, symbol: Symbol) -> Option<Claim>
    requires { IsKeptClaim ground.now.lr0.now.grammar claim }
    ensures { (c : claim_values.Claim) → PopsTo ground.now.lr0.now.grammar (symbol_of symbol) claim c
        ↔ (result ≡ Some c) }
{
    match claim {
        Claim::Settled => Some(Claim::Settled),
        Claim::InCore(item) => Some(Claim::InCore(before(ground, item, symbol)?)),
        Claim::With(item) => Some(Claim::With(before(ground, item, symbol)?)),
    }
}

/// The item with the dot moved back over a symbol, if that symbol precedes the dot.
fn before(ground: &Ground<'_>, item: Item, symbol: Symbol) -> Option<Item>
    requires { IsKeptItem ground.now.lr0.now.grammar item }
    ensures { (i : items.Item) → IsBefore ground.now.lr0.now.grammar (symbol_of symbol) item i ↔ (result ≡ Some i) }
{
    if item.dot == 0 {
        return None;
    }
    let dot = item.dot - 1;
    let body = ground.lr0.reduced().grammar().rule(item.rule).body();
    if body[dot] == symbol {
        Some(Item {
            rule: item.rule,
            dot,
        })
    } else {
        None
    }
}
