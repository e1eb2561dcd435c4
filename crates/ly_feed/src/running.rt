ghost use Rattle.std.specs.Prelude.{◌≡◌, ◌<◌, ◌≤◌, ℕ, List, [], Bool, IfOk, IfSome, length, false};
ghost use Rattle.ly_feed.specs.LexerOf.{IsLexerOf};
ghost use Rattle.ly_feed.specs.Closed.{progress_of, CanRun, IsClosed};
ghost use Rattle.ly_feed.specs.Private.Running.{HasToken, IsLast, IsRefusalAt};
ghost use Rattle.ly_feed.specs.Private.Running.{IsRunOn, IsTaken};
ghost use Rattle.ly_feed.specs.Private.Told.{AreFactsOf};
ghost use Rattle.ly_feed.specs.ScanPart.{scan_part_of, scanner_in, terminal_by, terminal_in};
ghost use Rattle.ly_parse.specs.Parse.{IsTellable};
ghost use Rattle.ly_scan.specs.Pieces.{IsDecided};

use crate::meaning::{action, terminal};
use crate::running_told::run_told_by;
use crate::syntax_error::SyntaxError;
use crate::text_fault::TextFault;
use ly_base::{Emitted, End, Lexeme, OutOfMemory, Place, ScanAction, StateNo, Sym};
use ly_pack::{Comb, TableAction};
use ly_parse::{ParseFault, Parser, Refusal, Step, Token, TokenOutcome};
use ly_print::Front;
use ly_scan::{KnownWalks, Lexer};
use ly_tables::TableSet;
use ly_tree::TermRef;
use std::alloc::Global;

/// A parser with the tables of a table set. Its rules may build other terms than the set's.
pub type TableParser<'a> = Parser<'a, Comb<TableAction>, Comb<StateNo>>;

/// How far a run over the bytes so far gets.
#[derive(Drop)]
pub(crate) enum Halt<'t> {
    /// To this position: the next match isn't decided there, or the text has ended.
    At(Place<'t>),
    /// The text has this error.
    Stopped(SyntaxError<'t>),
}

/// Runs scanner and parser from a place over the remaining bytes, lexeme by lexeme, as long as the next one is decided,
/// whatever follows these bytes. If the text has ended after them, runs to its end. Returns an error in the text as
/// soon as it is known. If there are facts of states, this loop takes only the lexemes that they don't determine. The
/// place is passed by value, so that it stays in registers.
pub(crate) fn run_on<'t>(
    alloc: Global,
    set: &TableSet,
    lexer: &Lexer,
    facts: Option<&[u32]>,
    parser: &mut TableParser<'_>,
    mut place: Place<'t>,
    ended: bool,
) -> Result<Halt<'t>, TextFault>
    requires lexer { IsLexerOf (scan_part_of set.now) lexer.now }
    requires facts { IfSome facts (λ f. AreFactsOf (scan_part_of set.now) lexer.now.scanner f.now) }
    requires runs { CanRun (scan_part_of set.now) parser.old.machine }
    requires goes_on { parser.old.over ≡ false }
    ensures runs { IsRunOn ended (scan_part_of set.now) parser.old.machine (progress_of place.entry parser.old)
        parser.new result }
    ensures machine { parser.new.machine ≡ parser.old.machine }
{
    let mut known = KnownWalks::new(alloc);
    loop {
        let mut here = match run_told_by(set, lexer, facts, parser, place, &known)? {
            Halt::At(here) => here,
            Halt::Stopped(syntax_error) => return Ok(Halt::Stopped(syntax_error)),
        };
        let lexeme = match lexer.next(&mut here, &mut known, ended) {
            Ok(Some(lexeme)) => lexeme,
            Ok(None) => return Ok(Halt::At(here)),
            // the text has ended
            Err(End::Clean) => return Ok(Halt::At(here)),
            Err(End::Stuck { byte }) => return Ok(Halt::Stopped(SyntaxError::NoRule {
                byte: byte as u64,
            })),
            Err(End::BadCut { .. }) => return Err(TextFault::FaultyTables),
        };
        let ScanAction { begin, emits } = action(set, lexeme.rule);
        match take(set, parser, &here, lexeme, emits) {
            TokenOutcome::Reads => {
                here.advance(lexeme.taken, begin);
                place = here;
            }
            TokenOutcome::Refuses => return Ok(Halt::Stopped(refusal(set, parser, here, lexeme)?)),
            TokenOutcome::FaultyTables => return Err(TextFault::FaultyTables),
            TokenOutcome::OutOfMemory => return Err(TextFault::OutOfMemory),
            // only the end is accepted
            TokenOutcome::Accepts => unreachable!(),
            // after a token that is read, the parse hasn't ended
            TokenOutcome::Over => unreachable!(),
        }
    }
}

/// Takes a lexeme at a place: feeds the parser with its token, and returns the outcome. A lexeme of a rule without a
/// token is skipped, with the outcome of a token that is read.
#[inline(always)] // a call would cost a fifteenth more instructions per token
fn take(
    set: &TableSet,
    parser: &mut TableParser<'_>,
    place: &Place<'_>,
    lexeme: Lexeme,
    emits: Emitted,
) -> TokenOutcome
    requires runs { CanRun (scan_part_of set.now) parser.old.machine }
    requires goes_on { parser.old.over ≡ false }
    requires some { 1 ≤ lexeme.taken }
    requires within { lexeme.taken ≤ length place.now.rest }
    requires emits { (bytes : List ℕ) → terminal_by (scan_part_of set.now) bytes emits
        ≡ terminal_in (scan_part_of set.now) lexeme.rule.0 bytes }
    ensures taken { (ended : Bool) → IsDecided ended (scanner_in (scan_part_of set.now)) place.now lexeme
        → IsTaken ended (scan_part_of set.now) parser.old.machine (progress_of place.now parser.old) lexeme parser.new
        result }
    ensures machine { parser.new.machine ≡ parser.old.machine }
{
    let text = Front::new(place.rest(), lexeme.taken);
    let Some(terminal) = terminal(set, emits, text.bytes()) else {
        return TokenOutcome::Reads;
    };
    let at = place.at() as u64;
    parser.take(&Token { terminal, at, text })
}

/// The error if the token of a lexeme was rejected.
#[inline(never)] // so that a token that is read gets the registers
fn refusal<'t>(
    set: &TableSet,
    parser: &TableParser<'_>,
    place: Place<'t>,
    lexeme: Lexeme,
) -> Result<SyntaxError<'t>, OutOfMemory>
    requires some { 1 ≤ lexeme.taken }
    requires within { lexeme.taken ≤ length place.rest }
    requires token { HasToken (scan_part_of set.now) place lexeme }
    requires tellable { IsTellable parser.now }
    ensures { IfOk result (IsRefusalAt (scan_part_of set.now) place.entry lexeme parser.now) }
{
    let text = Front::new(place.rest(), lexeme.taken);
    let Some(terminal) = terminal(set, action(set, lexeme.rule).emits, text.bytes()) else {
        unreachable!();
    };
    let Refusal { number, expected } = parser.refusal()?;
    let at = place.at() as u64;
    let token = Token { terminal, at, text };
    Ok(SyntaxError::Refused {
        number,
        token,
        expected,
    })
}

/// The result of a text that has ended.
#[derive(Drop)]
pub enum Ended<'t> {
    /// It has this term in the parser's forest.
    Accepted(TermRef),
    /// It has this error.
    Refused(SyntaxError<'t>),
}

/// Runs scanner and parser from a place to the end of the text, which follows the remaining bytes, by facts of states if
/// there are any. The result is the verdict of the parser's tables on the text.
///
/// The errors are `FaultyTables` and `OutOfMemory`.
pub(crate) fn run_to_end<'t>(
    alloc: Global,
    set: &TableSet,
    lexer: &Lexer,
    facts: Option<&[u32]>,
    parser: &mut TableParser<'_>,
    place: Place<'t>,
) -> Result<Ended<'t>, TextFault>
    requires lexer { IsLexerOf (scan_part_of set.now) lexer.now }
    requires facts { IfSome facts (λ f. AreFactsOf (scan_part_of set.now) lexer.now.scanner f.now) }
    requires runs { CanRun (scan_part_of set.now) parser.old.machine }
    requires goes_on { parser.old.over ≡ false }
    ensures closed { IsClosed (scan_part_of set.now) parser.old.machine (progress_of place.entry parser.old)
        parser.new.forest result }
    ensures machine { parser.new.machine ≡ parser.old.machine }
{
    match run_on(alloc, set, lexer, facts, parser, place, true)? {
        Halt::At(place) => close(parser, &place),
        Halt::Stopped(syntax_error) => Ok(Ended::Refused(syntax_error)),
    }
}

/// Feeds a parser with the end of the text, which is at this place.
fn close<'t>(parser: &mut TableParser<'_>, place: &Place<'t>) -> Result<Ended<'t>, TextFault>
    requires goes_on { parser.old.over ≡ false }
    requires terminals { 0 < parser.old.machine.terminals }
    requires ended { place.now.rest ≡ [] }
    ensures last { IsLast parser.old place.now.at parser.new.forest result }
    ensures machine { parser.new.machine ≡ parser.old.machine }
{
    let at = place.at() as u64;
    match parser.end(at) {
        Ok(Step::Done(root)) => Ok(Ended::Accepted(root)),
        Ok(
            Step::Refused {
                token: number,
                expected,
                ..
            },
        ) => {
            let token = Token {
                terminal: Sym(0),
                at,
                text: Front::new(place.rest(), 0),
            };
            Ok(Ended::Refused(SyntaxError::Refused {
                number,
                token,
                expected,
            }))
        }
        Err(ParseFault::FaultyTables) => Err(TextFault::FaultyTables),
        Err(ParseFault::OutOfMemory) => Err(TextFault::OutOfMemory),
        // the end is never read, and the parse hasn't ended
        Ok(Step::More) | Err(ParseFault::Over) => unreachable!(),
    }
}
