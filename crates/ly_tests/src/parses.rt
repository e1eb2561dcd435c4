//! Parsers over dense rows and over packed rows return the same, and are over after a syntax error.
//!
//! The grammar is `s : 'x' ;`, and `'x'` is terminal 2. State 0 shifts it into state 1 and goes to state 2 with `s`.
//! State 1 reduces before any terminal, and state 2 accepts the end. So only `x` is accepted, and its term is the leaf
//! of that token.

ghost use Rattle.ly_pack.specs.Steady.{IsSteady};
ghost use Rattle.std.specs.Prelude.{◌≡◌, ◌<◌};

use crate::rows::{by_hand, laid_by_hand};
use ly_base::{OutOfMemory, StateNo, Sym};
use ly_loop::steady;
use ly_pack::{Machine, Rows, TableAction};
use ly_parse::{ParseFault, Parser, Step, Token};
use ly_print::Front;
use ly_tree::TermRef;
use std::alloc::Global;
use std::test::Fail;

/// What a parser should return for a call.
#[derive(Clone, Copy)]
enum Wanted {
    /// The parse goes on.
    More,
    /// The term is the leaf of the first token.
    Leaf,
    /// The token with this number, at byte 5, is unexpected, and these terminals are expected.
    Refused(u64, &'static [Sym]),
    /// The parse is over.
    Over,
}

const MORE: Wanted = Wanted::More;

const LEAF: Wanted = Wanted::Leaf;

const OVER: Wanted = Wanted::Over;

/// The first token is unexpected, or the end in its place.
const FIRST: Wanted = Wanted::Refused(1, &[Sym(2)]);

/// The second token is unexpected, after one that is a whole text.
const SECOND: Wanted = Wanted::Refused(2, &[Sym(0)]);

/// The leaf of a token of terminal 2 with one byte. It is the first of its forest.
const FIRST_LEAF: TermRef = TermRef::ShortLeaf {
    length: 1,
    terminal: 2,
    start: 0,
};

/// Calls of one parser: each has a terminal, where 0 is the end, and what should be returned.
type Calls<'a> = &'a [(u32, Wanted)];

/// Texts of no token, of one and of two, accepted or with a syntax error at each token; and calls after the last
/// result.
const RUNS: [Calls<'static>; 9] = [
    &[(0, FIRST)],
    &[(1, FIRST)],
    &[(2, MORE), (0, LEAF)],
    &[(2, MORE), (1, SECOND)],
    &[(2, MORE), (2, SECOND)],
    &[(2, MORE), (0, LEAF), (2, OVER), (0, OVER)],
    &[
        (0, FIRST),
        (0, OVER),
        (2, OVER),
        (1, OVER),
        (2, OVER),
        (0, OVER),
    ],
    &[
        (1, FIRST),
        (2, OVER),
        (0, OVER),
        (1, OVER),
        (2, OVER),
        (0, OVER),
    ],
    &[
        (2, MORE),
        (2, SECOND),
        (2, OVER),
        (2, OVER),
        (0, OVER),
        (0, OVER),
    ],
];

/// Whether a parser over steady tables returns what it should for the calls.
fn answers_so<A: Rows<TableAction> + Drop, G: Rows<StateNo> + Drop>(
    alloc: Global,
    machine: &Machine<A, G>,
    calls: Calls<'_>,
) -> bool
    requires { IsSteady machine.now }
{
    let mut parser = Parser::new(alloc, machine.view());
    let answered = is_answered_so(&mut parser, machine.terminals(), calls);
    drop(parser);
    answered
}

/// Whether a parser over tables with this many terminals returns what it should for the calls.
fn is_answered_so<A: Rows<TableAction> + Drop, G: Rows<StateNo> + Drop>(
    parser: &mut Parser<'_, A, G>,
    terminals: usize,
    calls: Calls<'_>,
) -> bool
    requires { terminals ≡ parser.old.machine.terminals }
{
    for (terminal, wanted) in calls {
        if terminals <= *terminal as usize || !is_wanted(&call(parser, *terminal), *wanted) {
            return false;
        }
    }
    true
}

/// Whether a parser returned what it should.
fn is_wanted(answer: &Result<Step, ParseFault>, wanted: Wanted) -> bool {
    match wanted {
        Wanted::More => matches!(answer, Ok(Step::More)),
        Wanted::Leaf => matches!(answer, Ok(Step::Done(root)) if *root == FIRST_LEAF),
        Wanted::Refused(number, terminals) => is_refused(answer, number, 5, terminals),
        Wanted::Over => matches!(answer, Err(ParseFault::Over)),
    }
}

/// Whether a parser found the token with this number, at this byte, unexpected, and expects these terminals.
fn is_refused(answer: &Result<Step, ParseFault>, number: u64, at: u64, terminals: &[Sym]) -> bool {
    match answer {
        Ok(
            Step::Refused {
                token,
                byte,
                expected,
            },
        ) => *token == number && *byte == at && expected.as_slice() == terminals,
        _ => false,
    }
}

/// Calls a parser with a token of one byte, or with the end, which is terminal 0. Both are at byte 5.
fn call<A: Rows<TableAction> + Drop, G: Rows<StateNo> + Drop>(
    parser: &mut Parser<'_, A, G>,
    terminal: u32,
) -> Result<Step, ParseFault>
    requires { terminal < parser.old.machine.terminals }
    ensures { parser.new.machine ≡ parser.old.machine }
{
    if terminal == 0 {
        return parser.end(5);
    }
    parser.feed(&Token {
        terminal: Sym(terminal),
        at: 5,
        text: Front::new(b"x", 1),
    })
}

/// Whether a parser over steady tables returns what it should in each of many runs.
fn answers_all_so<A: Rows<TableAction> + Drop, G: Rows<StateNo> + Drop>(
    alloc: Global,
    machine: &Machine<A, G>,
    runs: &[Calls<'_>],
) -> bool
    requires { IsSteady machine.now }
{
    for calls in runs {
        if !answers_so(alloc, machine, calls) {
            return false;
        }
    }
    true
}

/// Whether tables are steady, and a parser over them returns what it should.
fn is_steady_and_answers<A: Rows<TableAction> + Drop, G: Rows<StateNo> + Drop>(
    alloc: Global,
    machine: &Machine<A, G>,
    runs: &[Calls<'_>],
) -> bool {
    match steady(alloc, &machine.view()) {
        Ok(()) => answers_all_so(alloc, machine, runs),
        Err(_) => false,
    }
}

/// Whether it does with dense rows.
fn apart_so(alloc: Global, runs: &[Calls<'_>]) -> Result<bool, OutOfMemory> {
    let machine = by_hand(alloc)?;
    let answered = is_steady_and_answers(alloc, &machine, runs);
    drop(machine);
    Ok(answered)
}

/// Whether it does with packed rows.
fn laid_so(alloc: Global, runs: &[Calls<'_>]) -> Result<bool, OutOfMemory> {
    let machine = laid_by_hand(alloc)?;
    let answered = is_steady_and_answers(alloc, &machine, runs);
    drop(machine);
    Ok(answered)
}

/// Whether it does with both.
fn both_so(alloc: Global, runs: &[Calls<'_>]) -> Result<bool, OutOfMemory> {
    Ok(apart_so(alloc, runs)? && laid_so(alloc, runs)?)
}

#[test]
fn rows_apart_and_laid_are_answered_alike(rt: HostRuntime) -> Result<(), Fail> {
    assert!(rt; both_so(rt.alloc(), &RUNS)? && ParseFault::Over.number() == Some(91));
    Ok(())
}
