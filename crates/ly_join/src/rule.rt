//! The rules of a yacc file, over numbered symbols.
ghost use Rattle.std.specs.Prelude.{◌≡◌, ◌<◌, ◌∷◌, [], length, map, Contains, IfErr};
ghost use Rattle.std.specs.Prelude.{IfOk, IfSome, Some, slice_get, All};
ghost use Rattle.std.specs.List.{AllZip};
ghost use Rattle.std.specs.Option.{option_map, option_to_list};
ghost use Rattle.ly_base.specs.Shape.{shape_of};
ghost use Rattle.ly_yaccread.specs.Actions.{default};
ghost use Rattle.ly_yaccread.specs.File.{making_of, ruling_of, symbol_word, symbol_words};
ghost use Rattle.ly_join.specs.Grammar.{symbol_of};
ghost use Rattle.ly_join.specs.Terminals.{token as token_terminal};
ghost use Rattle.ly_join.specs.Joined.{last_terminal, note_of, shape_by, IsJoinedRule, IsPrecedenceOf};
ghost use Rattle.ly_join.specs.Joined.{IsRulePrecedence, IsSymbol, IsTerminal};
ghost use Rattle.ly_join.specs.Private.Rules.{table_from, AreCovered, AreJoinedWithin, HasLiteral, IsBelow};
ghost use Rattle.ly_join.specs.Private.Rules.{IsFaultOfRules, IsLeftSide, IsRuleFault, IsTokenOnLeft, IsUndefinedIn};
ghost use Rattle.ly_join.specs.Private.Rules.{IsUnknownPrecIn};

use crate::fault::JoinFault;
use crate::grammar::GrammarRule;
use crate::nonterminals::Nonterminals;
use crate::precedence::Precedence;
use crate::symbol::Symbol;
use crate::terminal::Terminals;
use ly_base::{RuleTree, Sym};
use ly_yaccread::{Production, SymbolName, TreeAction};
use std::alloc::{AllocError, Global};

/// The precedence of a rule, and the tree that it builds.
#[derive(Drop)]
pub struct RuleNote {
    /// Its precedence, if it has one.
    pub precedence: Option<Precedence>,
    /// The tree that it builds.
    pub tree: RuleTree,
}

/// The symbols of the grammar, with their numbers.
#[derive(Drop)]
pub(crate) struct SymbolTable<'t> {
    /// The terminals.
    pub(crate) terminals: Terminals<'t>,
    /// The nonterminals.
    pub(crate) nonterminals: Nonterminals<'t>,
    /// The precedence of each terminal, if it has one.
    pub(crate) precedences: Vec<Option<Precedence>>,
}

/// A left side with its number.
#[derive(Clone, Copy)]
struct LeftSide<'t> {
    /// Its name.
    name: &'t [u8],
    /// Its number.
    number: Sym,
}

/// Joins the rules over numbered symbols. Returns them with the note of each, rule 0 included. At most `most` rules are
/// stored. Beyond that the files exceed a limit, and the rules are only checked for errors.
pub(crate) fn join_rules(
    alloc: Global,
    table: &SymbolTable<'_>,
    productions: &[Production],
    most: usize,
) -> Result<(Vec<GrammarRule>, Vec<RuleNote>), JoinFault>
    requires { AreCovered (table_from table.now) (map ruling_of productions.now) }
    ensures ok { IfOk result (λ found. AreJoinedWithin most (table_from table.now) (map ruling_of productions.now)
        found.0.items (map note_of found.1.items)) }
    ensures fault { IfErr result (IsFaultOfRules (table_from table.now) (map ruling_of productions.now)) }
{
    let mut rules = Vec::new(alloc);
    let mut notes = Vec::new(alloc);
    notes.push(RuleNote {
        precedence: None,
        tree: RuleTree::Pass(1),
    })?;
    let mut last = None;
    for production in productions {
        let (rule, note) = join_rule(alloc, table, production, last)?;
        last = Some(LeftSide {
            name: &production.left,
            number: rule.left(),
        });
        if rules.len() < most {
            rules.push(rule)?;
            notes.push(note)?;
        }
    }
    Ok((rules, notes))
}

/// A rule over numbered symbols with its note. `last` is the left side of the rule before.
fn join_rule(
    alloc: Global,
    table: &SymbolTable<'_>,
    production: &Production,
    last: Option<LeftSide<'_>>,
) -> Result<(GrammarRule, RuleNote), JoinFault>
    requires covered { AreCovered (table_from table.now) (ruling_of production.now ∷ []) }
    requires last { IfSome last (IsLeftSide (table_from table.now)) }
    ensures ok { IfOk result (λ found.
        IsJoinedRule (table_from table.now) (ruling_of production.now) found.0 (note_of found.1)) }
    ensures apart { IfOk result (λ found.
        Contains table.now.terminals (token_terminal (ruling_of production.now).left) → ⊥) }
    ensures fault { IfErr result (IsRuleFault (table_from table.now) (ruling_of production.now)) }
{
    let left = left_side(alloc, table, &production.left, last)?;
    let body = join_body(alloc, table, &production.body)?;
    let precedence = rule_precedence(alloc, table, production, &body)?;
    let tree = rule_tree(alloc, &production.action, &body)?;
    Ok((GrammarRule::new(left, body), RuleNote { precedence, tree }))
}

/// The number of a left side, which must not be a token. It is looked up only if its name differs from the left side of
/// the rule before.
fn left_side(
    alloc: Global,
    table: &SymbolTable<'_>,
    name: &[u8],
    last: Option<LeftSide<'_>>,
) -> Result<Sym, JoinFault>
    requires there { Contains table.now.nonterminals name.now }
    requires last { IfSome last (IsLeftSide (table_from table.now)) }
    ensures ok { IfOk result (λ left. slice_get table.now.nonterminals left.0 ≡ Some name.now) }
    ensures apart { IfOk result (λ left. Contains table.now.terminals (token_terminal name.now) → ⊥) }
    ensures fault { IfErr result (IsTokenOnLeft (table_from table.now) name.now) }
{
    if let Some(side) = last
        && side.name == name
    {
        return Ok(side.number);
    }
    if table.terminals.token(name).is_some() {
        return Err(JoinFault::TokenOnLeft(Vec::from_slice(alloc, name)?));
    }
    Ok(table.nonterminals.number(name))
}

/// The symbols of a body.
fn join_body(
    alloc: Global,
    table: &SymbolTable<'_>,
    body: &[SymbolName],
) -> Result<Vec<Symbol>, JoinFault>
    requires { All (HasLiteral table.now.terminals) (symbol_words body.now) }
    ensures ok { IfOk result (λ joined.
        AllZip (IsSymbol (table_from table.now)) (symbol_words body.now) (map symbol_of joined.items)) }
    ensures fault { IfErr result (IsUndefinedIn (table_from table.now) (symbol_words body.now)) }
{
    let mut joined = Vec::new(alloc);
    for name in body {
        joined.push(join_symbol(alloc, table, name)?)?;
    }
    Ok(joined)
}

/// The symbol of a name or a literal in a body.
fn join_symbol(
    alloc: Global,
    table: &SymbolTable<'_>,
    symbol: &SymbolName,
) -> Result<Symbol, JoinFault>
    requires { HasLiteral table.now.terminals (symbol_word symbol.now) }
    ensures ok { IfOk result (λ joined. IsSymbol (table_from table.now) (symbol_word symbol.now) (symbol_of joined)) }
    ensures fault { IfErr result (IsUndefinedIn (table_from table.now) (symbol_word symbol.now ∷ [])) }
{
    let SymbolName::Name(name) = symbol else {
        return Ok(Symbol::Terminal(table.terminals.number(symbol)));
    };
    if let Some(terminal) = table.terminals.token(name) {
        return Ok(Symbol::Terminal(terminal));
    }
    match table.nonterminals.find(name) {
        Some(nonterminal) => Ok(Symbol::Nonterminal(nonterminal)),
        None => Err(JoinFault::UndefinedSymbol(Vec::from_slice(alloc, name)?)),
    }
}

/// The precedence of a rule: that of the symbol after its `%prec`, or else of the last terminal of its body.
fn rule_precedence(
    alloc: Global,
    table: &SymbolTable<'_>,
    production: &Production,
    body: &[Symbol],
) -> Result<Option<Precedence>, JoinFault>
    requires long { length table.now.precedences.items ≡ length table.now.terminals }
    requires literal { All (HasLiteral table.now.terminals) (option_to_list (ruling_of production.now).precedence) }
    requires within { All (IsBelow (length table.now.terminals)) (map symbol_of body.now) }
    ensures ok { IfOk result (IsRulePrecedence (table_from table.now) (ruling_of production.now).precedence
        (map symbol_of body.now)) }
    ensures fault { IfErr result (IsUnknownPrecIn (table_from table.now) (ruling_of production.now).precedence) }
{
    match &production.precedence {
        Some(symbol) => {
            let terminal = prec_terminal(alloc, table, symbol)?;
            Ok(precedence_at(&table.precedences, Some(terminal)))
        }
        None => Ok(precedence_at(&table.precedences, last_terminal(body))),
    }
}

/// The precedence of a terminal; none if there is no terminal.
fn precedence_at(precedences: &[Option<Precedence>], terminal: Option<Sym>) -> Option<Precedence>
    requires { IfSome terminal (λ t. t.0 < length precedences.now) }
    ensures { IsPrecedenceOf precedences.now (option_map (λ t. t.0) terminal) result }
{
    match terminal {
        Some(terminal) => precedences[terminal.0 as usize],
        None => None,
    }
}

/// The terminal after a `%prec`.
fn prec_terminal(
    alloc: Global,
    table: &SymbolTable<'_>,
    symbol: &SymbolName,
) -> Result<Sym, JoinFault>
    requires { HasLiteral table.now.terminals (symbol_word symbol.now) }
    ensures ok { IfOk result (λ t. IsTerminal table.now.terminals (symbol_word symbol.now) t.0) }
    ensures fault { IfErr result (IsUnknownPrecIn (table_from table.now) (Some (symbol_word symbol.now))) }
{
    let SymbolName::Name(name) = symbol else {
        return Ok(table.terminals.number(symbol));
    };
    match table.terminals.token(name) {
        Some(terminal) => Ok(terminal),
        None => Err(JoinFault::PrecUnknown(Vec::from_slice(alloc, name)?)),
    }
}

/// The last terminal of a body, if it has one.
fn last_terminal(body: &[Symbol]) -> Option<Sym>
    ensures { option_map (λ t. t.0) result ≡ last_terminal (map symbol_of body.now) }
{
    let mut last = None;
    for symbol in body {
        if let Symbol::Terminal(terminal) = symbol {
            last = Some(*terminal);
        }
    }
    last
}

/// The tree that a rule builds, from its action and its body.
fn rule_tree(alloc: Global, action: &TreeAction, body: &[Symbol]) -> Result<RuleTree, AllocError>
    ensures { IfOk result (λ tree. shape_of tree ≡ shape_by (making_of action.now) (map symbol_of body.now)) }
{
    match action {
        TreeAction::Default => Ok(default_tree(body)),
        TreeAction::Pass(place) => Ok(RuleTree::Pass(*place)),
        TreeAction::Build(node) => Ok(RuleTree::Build {
            name: Vec::from_slice(alloc, &node.name)?,
            places: Vec::from_slice(alloc, &node.places)?,
        }),
    }
}

/// The tree of a rule without an action: that of its first symbol, or nothing if the body is empty.
fn default_tree(body: &[Symbol]) -> RuleTree
    ensures { shape_of result ≡ shape_by default (map symbol_of body.now) }
{
    if body.is_empty() {
        RuleTree::Nil
    } else {
        RuleTree::Pass(1)
    }
}
