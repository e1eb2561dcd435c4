//! The moves of a parser that builds a tree, which is given by its rules.
ghost use Rattle.std.specs.Prelude.{◌≡◌, ◌∷◌, ◌++◌, [], map, IfOk, MatchOption, OnOk};
ghost use Rattle.ly_join.specs.Grammar.{symbol_of};
ghost use Rattle.ly_counterexamples.specs.Moves.{shifts};
ghost use Rattle.ly_counterexamples.specs.Private.Leftmost.{ahead_from, ahead_of, AreOfNone, AreOnlyMoves, IsPassed};
ghost use Rattle.ly_counterexamples.specs.Private.Leftmost.{moves_from, next_of};

use ly_base::Sym;
use ly_join::{Grammar, Symbol};
use std::alloc::{AllocError, Global};

/// A move of a parser.
#[derive(Clone, Copy, Debug, PartialEq, Eq)]
pub(crate) enum Move {
    /// Shift a terminal.
    Shift(Sym),
    /// Reduce by the rule with this number.
    Reduce(usize),
}

/// What is left to do to build a tree.
#[derive(Clone, Copy)]
enum Ahead {
    /// A move that is known.
    Known(Move),
    /// A nonterminal that a rule has yet to replace.
    Open(Sym),
}

/// Returns the moves of a parser that builds the tree whose leftmost derivation has these rules, if there is one.
pub(crate) fn moves_by(
    alloc: Global,
    grammar: &Grammar,
    rules: &[usize],
) -> Result<Option<Vec<Move>>, AllocError>
    ensures { IfOk result (λ found. MatchOption found (AreOfNone grammar.now rules.now)
        (λ moves. AreOnlyMoves grammar.now rules.now (moves_from moves.items))) }
{
    let mut ahead = Vec::new(alloc);
    ahead.push(Ahead::Open(grammar.start()))?;
    let mut moves = Vec::new(alloc);
    for number in rules {
        let Some(left) = next_left(&mut ahead, &mut moves)? else {
            return Ok(None);
        };
        let Some(rule) = grammar.rules().get(*number) else {
            return Ok(None);
        };
        if rule.left() != left {
            return Ok(None);
        }
        ahead.push(Ahead::Known(Move::Reduce(*number)))?;
        push_body(alloc, &mut ahead, rule.body())?;
    }
    match next_left(&mut ahead, &mut moves)? {
        None => Ok(Some(moves)),
        Some(_) => Ok(None),
    }
}

/// Makes the moves that are known, up to the next nonterminal, and removes and returns that nonterminal, if there is
/// one.
fn next_left(ahead: &mut Vec<Ahead>, moves: &mut Vec<Move>) -> Result<Option<Sym>, AllocError>
    ensures { IfOk result (IsPassed (next_of ahead.old.items) (next_of ahead.new.items)
        (moves_from moves.old.items) (moves_from moves.new.items)) }
{
    while let Some(next) = ahead.pop() {
        match next {
            Ahead::Known(known) => moves.push(known)?,
            Ahead::Open(left) => return Ok(Some(left)),
        }
    }
    Ok(None)
}

/// Puts a body before what is left to do.
fn push_body(alloc: Global, ahead: &mut Vec<Ahead>, body: &[Symbol]) -> Result<(), AllocError>
    ensures { OnOk result (next_of ahead.new.items
        ≡ map (λ x. ahead_of (symbol_of x)) body.now ++ next_of ahead.old.items) }
{
    let mut reversed = Vec::from_slice(alloc, body)?;
    reversed.reverse();
    for symbol in &reversed {
        ahead.push(Ahead::of(*symbol))?;
    }
    Ok(())
}

impl Ahead {
    /// What a symbol of a body leaves to do.
    fn of(symbol: Symbol) -> Ahead
        ensures { ahead_from result ≡ ahead_of (symbol_of symbol) }
    {
        match symbol {
            Symbol::Terminal(terminal) => Ahead::Known(Move::Shift(terminal)),
            Symbol::Nonterminal(left) => Ahead::Open(left),
        }
    }
}
