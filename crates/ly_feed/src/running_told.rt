//! The run over lexemes that the final states of their scans determine.
ghost use Rattle.std.specs.Prelude.{◌≡◌, ◌<◌, ◌≤◌, Bool, IfOk, IfSome, IsSome, false, length, option_map, slice_index};
ghost use Rattle.std.specs.Prelude.{take};
ghost use Rattle.ly_base.specs.declared.lexeme.Lexeme.{Lexeme};
ghost use Rattle.ly_feed.specs.Closed.{progress_of, CanRun};
ghost use Rattle.ly_feed.specs.LexerOf.{IsLexerOf};
ghost use Rattle.ly_feed.specs.Private.Running.{IsRefusalAt, IsTaken};
ghost use Rattle.ly_feed.specs.Private.Told.{AreFactsOf, HaltsAhead, IsRunOverTold, IsToldAt};
ghost use Rattle.ly_feed.specs.ScanPart.{scan_part_of, terminal_in, ScanPart};
ghost use Rattle.ly_parse.specs.Parse.{IsTellable};
ghost use Rattle.ly_scan.specs.Beginning.{IsBegun};

use crate::running::{Halt, TableParser};
use crate::syntax_error::SyntaxError;
use crate::text_fault::TextFault;
use crate::told::told_terminal;
use ly_base::{OutOfMemory, Place, Sym};
use ly_parse::{Refusal, Token, TokenOutcome};
use ly_print::Front;
use ly_scan::{Beginning, KnownWalks, Lexer, TaggedLexeme};
use ly_tables::TableSet;

/// Runs over lexemes that facts of states determine, if there are facts, like `run_told`, unless matches are cached for
/// the remaining bytes.
pub(crate) fn run_told_by<'t>(
    set: &TableSet,
    lexer: &Lexer,
    facts: Option<&[u32]>,
    parser: &mut TableParser<'_>,
    place: Place<'t>,
    known: &KnownWalks,
) -> Result<Halt<'t>, TextFault>
    requires lexer { IsLexerOf (scan_part_of set.now) lexer.now }
    requires facts { IfSome facts (λ f. AreFactsOf (scan_part_of set.now) lexer.now.scanner f.now) }
    requires runs { CanRun (scan_part_of set.now) parser.old.machine }
    requires goes_on { parser.old.over ≡ false }
    ensures runs { (ended : Bool) → IsRunOverTold ended (scan_part_of set.now) parser.old.machine
        (progress_of place.entry parser.old) parser.new result }
    ensures ahead { HaltsAhead place.entry result }
    ensures machine { parser.new.machine ≡ parser.old.machine }
{
    let Some(facts) = facts else {
        return Ok(Halt::At(place));
    };
    // the loop only decreases the number of remaining bytes
    if known.reaches(place.rest().len()) {
        return Ok(Halt::At(place));
    }
    if let Some(anywhere) = lexer.anywhere() {
        return run_told(set, lexer, &anywhere, facts, parser, place);
    }
    match lexer.by_line() {
        Some(by_line) => run_told(set, lexer, &by_line, facts, parser, place),
        None => Ok(Halt::At(place)),
    }
}

/// Runs scanner and parser from a place, as long as the facts of states determine the lexemes. Returns the place of the
/// next one, or an error in the text as soon as it is known.
#[inline(never)] // so that its loop gets the registers
fn run_told<'t, B: Beginning>(
    set: &TableSet,
    lexer: &Lexer,
    beginning: &B,
    facts: &[u32],
    parser: &mut TableParser<'_>,
    start: Place<'t>,
) -> Result<Halt<'t>, TextFault>
    requires lexer { IsLexerOf (scan_part_of set.now) lexer.now }
    requires begun { IsBegun lexer.now.scanner (B.begun beginning.now) }
    requires facts { AreFactsOf (scan_part_of set.now) lexer.now.scanner facts.now }
    requires runs { CanRun (scan_part_of set.now) parser.old.machine }
    requires goes_on { parser.old.over ≡ false }
    ensures runs { (ended : Bool) → IsRunOverTold ended (scan_part_of set.now) parser.old.machine
        (progress_of start.entry parser.old) parser.new result }
    ensures ahead { HaltsAhead start.entry result }
    ensures machine { parser.new.machine ≡ parser.old.machine }
{
    // so that the loop needn't check
    if start.condition() != 0 {
        return Ok(Halt::At(start));
    }
    let mut place = start;
    loop {
        let Some(told) = lexer.tell_from(beginning, facts, &mut place) else {
            return Ok(Halt::At(place));
        };
        let (answer, terminal) = take_told(set, parser, &place, told);
        match answer {
            TokenOutcome::Reads => place.advance(told.taken, None),
            TokenOutcome::Refuses => {
                let syntax_error = told_refusal(parser, place, told.taken, terminal)?;
                return Ok(Halt::Stopped(syntax_error));
            }
            TokenOutcome::FaultyTables => return Err(TextFault::FaultyTables),
            TokenOutcome::OutOfMemory => return Err(TextFault::OutOfMemory),
            // only the end is accepted
            TokenOutcome::Accepts => unreachable!(),
            // after a token that is read, the parse hasn't ended
            TokenOutcome::Over => unreachable!(),
        }
    }
}

/// Takes a lexeme at a place by its facts, like `take`. Returns its terminal too, if it has one, so that the facts
/// needn't be kept for a refusal.
#[inline(always)] // like `run_told`
fn take_told(
    set: &TableSet,
    parser: &mut TableParser<'_>,
    place: &Place<'_>,
    told: TaggedLexeme,
) -> (TokenOutcome, Option<Sym>)
    requires runs { CanRun (scan_part_of set.now) parser.old.machine }
    requires goes_on { parser.old.over ≡ false }
    requires told { IsToldAt (scan_part_of set.now) place.now told }
    ensures taken { (ended : Bool) (is : IsToldAt (scan_part_of set.now) place.now told)
        → IsTaken ended (scan_part_of set.now) parser.old.machine (progress_of place.now parser.old) is.lexeme
        parser.new result.0 }
    ensures terminal { (is : IsToldAt (scan_part_of set.now) place.now told) → option_map (λ t. t.0) result.1
        ≡ terminal_in (scan_part_of set.now) is.lexeme.rule.0 (take is.lexeme.taken place.now.rest) }
    ensures machine { parser.new.machine ≡ parser.old.machine }
{
    let text = Front::new(place.rest(), told.taken);
    let Some(terminal) = told_terminal(set.literals(), told.fact, first_of(&text)) else {
        return (TokenOutcome::Reads, None);
    };
    let at = place.at() as u64;
    let answer = parser.go_on(&Token { terminal, at, text });
    (answer, Some(terminal))
}

/// The first byte.
#[inline(always)] // like `run_told`
pub(crate) fn first_of(text: &Front<'_>) -> u8
    requires { 0 < length text.now }
    ensures { result ≡ slice_index text.now 0 }
{
    text.bytes()[0]
}

/// The error if the token of a lexeme of this length was rejected. This is its terminal, which it has.
#[inline(never)] // so that a token that is read gets the registers
fn told_refusal<'t>(
    parser: &TableParser<'_>,
    place: Place<'t>,
    taken: usize,
    terminal: Option<Sym>,
) -> Result<SyntaxError<'t>, OutOfMemory>
    requires within { taken ≤ length place.rest }
    requires token { IsSome terminal }
    requires tellable { IsTellable parser.now }
    ensures { (p : ScanPart) (t : Lexeme) → t.taken ≡ taken
        → option_map (λ s. s.0) terminal ≡ terminal_in p t.rule.0 (take t.taken place.entry.rest)
        → IfOk result (IsRefusalAt p place.entry t parser.now) }
{
    let text = Front::new(place.rest(), taken);
    let Some(terminal) = terminal else {
        unreachable!();
    };
    let Refusal { number, expected } = parser.refusal()?;
    let at = place.at() as u64;
    let token = Token { terminal, at, text };
    Ok(SyntaxError::Refused {
        number,
        token,
        expected,
    })
}
