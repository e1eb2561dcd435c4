//! Texts in chunks: only the match that isn't decided is held, a feed is over once it has returned its result, and its
//! memory is used again. That the result doesn't depend on the chunks is shown by the cases, whose texts come byte by
//! byte.

ghost use Rattle.std.specs.Prelude.{◌<◌};

use crate::answers::table_set;
use crate::memory::{TRIES, give_back, hog, small_blocks};
use ly_base::OutOfMemory;
use ly_engine::{AnswerForm, Feed, FeedFault, Need, Outcome, Prepared, TableSet};
use std::alloc::Global;
use std::test::Fail;

/// The tokens of sums and products.
const WORDS: &[u8] = b"%%\n[0-9]+ return NUM;\n[ \\t\\n]+ ;\n. return yytext[0];\n";

/// Their grammar.
const SUMS: &[u8] = b"%token NUM\n%left '+'\n%left '*'\n%%\n\
    e : e '+' e { $$ = Add($1,$3); } | e '*' e { $$ = Mul($1,$3); } | '(' e ')' { $$ = $2; } | NUM ;";

/// The token `x`, and blanks.
const X: &[u8] = b"%%\n\" \" ;\nx return 'x';\n";

/// An outcome and its output.
type Answer = (Outcome, Vec<u8>);

/// A feed that has no bytes yet.
fn new_feed<'a>(prepared: &'a Prepared<'a>) -> Feed<'a> {
    Feed::new(prepared, AnswerForm::Plain)
}

/// The result for a chunk that settles the text, if it does.
fn settled(feed: &mut Feed<'_>, piece: &[u8]) -> Result<Option<Answer>, FeedFault> {
    match feed.piece(piece)? {
        Need::Settled(outcome, lines) => Ok(Some((outcome, lines))),
        Need::More => Ok(None),
    }
}

/// The result for a text that has ended.
fn finished(feed: &mut Feed<'_>) -> Result<Answer, FeedFault> {
    feed.finish()
}

/// Whether the token with this number, at this byte, is unexpected.
fn refuses(outcome: &Outcome, number: u64, at: u64) -> bool {
    matches!(outcome, Outcome::Syntax { token, byte, .. } if *token == number && *byte == at)
}

/// Whether a feed takes a chunk, needs more, and then holds this many bytes.
fn holds(feed: &mut Feed<'_>, piece: &[u8], held: usize) -> bool {
    matches!(feed.piece(piece), Ok(Need::More)) && feed.held() == held
}

/// The output for the text `123+`.
const REFUSED_END: &[u8] = b"syntax error at end, token 3, byte 4\nexpected: NUM '('\n";

/// Whether a feed of `WORDS` and `SUMS` holds the undecided bytes of `12` and `3+`, and then rejects the end.
fn holds_what_is_not_decided(feed: &mut Feed<'_>) -> Result<bool, Fail> {
    let held = feed.held() == 0 && holds(feed, b"12", 2) && holds(feed, b"3+", 1);
    let (outcome, lines) = finished(feed)?;
    Ok(held && refuses(&outcome, 3, 4) && lines.as_slice() == REFUSED_END)
}

/// Whether a new feed holds the undecided bytes, and rejects the end.
fn is_held(alloc: Global, set: &TableSet) -> Result<bool, Fail> {
    let prepared = Prepared::new(alloc, set)?;
    let mut feed = new_feed(&prepared);
    let held = holds_what_is_not_decided(&mut feed);
    drop(feed);
    drop(prepared);
    held
}

/// A text of `WORDS` and `SUMS` whose second token is unexpected, and the output for it.
const REFUSED: &[u8] = b"1 a ";

const REFUSAL: &[u8] = b"syntax error at token 2, byte 2: $undef\"a\"\nexpected: $end '+' '*'\n";

/// Whether a result is the syntax error at the second token of `REFUSED`.
fn is_refusal(answer: &Answer) -> bool {
    let (outcome, lines) = answer;
    refuses(outcome, 2, 2) && lines.as_slice() == REFUSAL
}

/// Whether a feed returns it.
fn tells_of_the_refusal(feed: &mut Feed<'_>) -> bool {
    match settled(feed, REFUSED) {
        Ok(Some(answer)) => is_refusal(&answer),
        _ => false,
    }
}

/// Whether each call of a feed returns that it is over, and nothing is held.
fn is_over(feed: &mut Feed<'_>) -> bool {
    feed.held() == 0
        && matches!(settled(feed, b"+"), Err(FeedFault::Over))
        && matches!(finished(feed), Err(FeedFault::Over))
        && feed.held() == 0
}

/// Whether a feed returns the syntax error, and is over then.
fn is_over_once_told(feed: &mut Feed<'_>) -> bool {
    tells_of_the_refusal(feed) && is_over(feed)
}

/// Whether a new feed returns the syntax error, and is over then.
fn is_over_behind_the_refusal(alloc: Global, set: &TableSet) -> Result<bool, OutOfMemory> {
    let prepared = Prepared::new(alloc, set)?;
    let mut feed = new_feed(&prepared);
    let over = is_over_once_told(&mut feed);
    drop(feed);
    drop(prepared);
    Ok(over)
}

/// Whether feeds of the set of `WORDS` and `SUMS` hold the undecided bytes, and are over once they have returned a
/// result.
fn sums_are_fed(alloc: Global) -> Result<bool, Fail> {
    let set = table_set(alloc, WORDS, SUMS)?;
    let held = is_held(alloc, &set);
    let over = is_over_behind_the_refusal(alloc, &set);
    drop(set);
    Ok(held? && over?)
}

#[test]
fn what_is_not_decided_is_held_up_to_the_answer(rt: HostRuntime) -> Result<(), Fail> {
    assert!(rt; sums_are_fed(rt.alloc())? && FeedFault::Over.number() == Some(91));
    Ok(())
}

/// The same output as JSON.
const JSON_REFUSAL: &[u8] =
    b"{\"error\":\"refused\",\"number\":2,\"byte\":2,\"token\":\"$undef\",\"text\":\"a\",\
    \"expected\":[\"$end\",\"'+'\",\"'*'\"]}\n";

/// Whether a result is, as JSON, the syntax error at the second token of `REFUSED`, which has one byte.
fn is_json_refusal(answer: &Answer) -> bool {
    let (outcome, line) = answer;
    matches!(outcome, Outcome::Syntax { length: 1, .. })
        && refuses(outcome, 2, 2)
        && line.as_slice() == JSON_REFUSAL
}

/// Whether a feed of JSON returns it.
fn tells_of_the_refusal_as_json(feed: &mut Feed<'_>) -> bool {
    match settled(feed, REFUSED) {
        Ok(Some(answer)) => is_json_refusal(&answer),
        _ => false,
    }
}

/// Whether a feed of JSON rejects what one of plain text does, at the same chunk.
fn sums_are_fed_as_json(alloc: Global) -> Result<bool, Fail> {
    let set = table_set(alloc, WORDS, SUMS)?;
    let told = json_told(alloc, &set);
    drop(set);
    Ok(told?)
}

/// Whether a new feed of JSON returns it.
fn json_told(alloc: Global, set: &TableSet) -> Result<bool, OutOfMemory> {
    let prepared = Prepared::new(alloc, set)?;
    let mut feed = Feed::new(&prepared, AnswerForm::Json);
    let told = tells_of_the_refusal_as_json(&mut feed);
    drop(feed);
    drop(prepared);
    Ok(told)
}

#[test]
fn a_refused_token_is_told_as_json(rt: HostRuntime) -> Result<(), Fail> {
    assert!(rt; sums_are_fed_as_json(rt.alloc())?);
    Ok(())
}

/// How many chunks a feed gets, and how many bytes each has.
const PIECES: u32 = 102;

const SIZE: usize = 4_096;

/// What a feed does with a chunk.
#[derive(Clone, Copy)]
enum Taking {
    /// It takes it, needs more, and then holds one byte.
    Whole,
    /// Memory runs out.
    NoRoom,
    /// Anything else.
    Otherwise,
}

/// What a feed does with a chunk of blanks, of which it must hold only the last one.
fn take(feed: &mut Feed<'_>, blanks: &[u8]) -> Taking {
    match feed.piece(blanks) {
        Ok(Need::More) if feed.held() == 1 => Taking::Whole,
        Err(FeedFault::OutOfMemory) => Taking::NoRoom,
        _ => Taking::Otherwise,
    }
}

/// How many of the chunks of blanks a feed takes before memory runs out.
fn taken(feed: &mut Feed<'_>, blanks: &[u8]) -> Result<Option<u32>, Fail> {
    for count in 0..PIECES {
        match take(feed, blanks) {
            Taking::Whole => {}
            Taking::NoRoom => return Ok(Some(count)),
            Taking::Otherwise => return Err(Fail::from("a piece of blanks was not taken")),
        }
    }
    Ok(Some(PIECES))
}

/// How many chunks a new feed takes; `None` if there is no memory for the feed.
fn taken_by_new(alloc: Global, set: &TableSet, blanks: &[u8]) -> Result<Option<u32>, Fail> {
    let Ok(prepared) = Prepared::new(alloc, set) else {
        return Ok(None);
    };
    let mut feed = new_feed(&prepared);
    let count = taken(&mut feed, blanks);
    drop(feed);
    drop(prepared);
    count
}

/// How many chunks a new feed takes, at the first try with more than one, if one block is freed before each try. Also
/// whether memory ran out before it was made, at its first chunk, and at its second one.
fn first_taken(
    alloc: Global,
    set: &TableSet,
    blanks: &[u8],
    blocks: &mut Vec<Vec<u8>>,
) -> Result<(u32, [bool; 3]), Fail> {
    let mut refused = [false; 3];
    for _ in 0..TRIES {
        match taken_by_new(alloc, set, blanks)? {
            Some(count) if count > 1 => return Ok((count, refused)),
            taken => refused[refusal(taken)] = true,
        }
        give_back(blocks);
    }
    Err(Fail::from("no room was enough"))
}

/// Where memory ran out before a feed had taken two chunks: before it was made, at its first chunk, or at its second.
fn refusal(taken: Option<u32>) -> usize
    ensures { result < 3 }
{
    match taken {
        None => 0,
        Some(0) => 1,
        Some(_) => 2,
    }
}

/// How a feed takes chunks if no memory is left at first, and one block is freed before each try.
fn taken_of_all_room(
    alloc: Global,
    set: &TableSet,
    blanks: &[u8],
) -> Result<(u32, [bool; 3]), Fail> {
    let mut blocks = small_blocks(alloc, TRIES)?;
    let _all_else = hog(alloc);
    first_taken(alloc, set, blanks, &mut blocks)
}

/// How a feed takes chunks of `SIZE` blanks if no memory is left at first.
fn pieces_taken(alloc: Global, set: &TableSet) -> Result<(u32, [bool; 3]), Fail> {
    let blanks = vec![in alloc; b' '; SIZE]?;
    taken_of_all_room(alloc, set, &blanks)
}

/// How a feed takes chunks of blanks with a set that skips them, if no memory is left at first.
fn blanks_taken(alloc: Global) -> Result<(u32, [bool; 3]), Fail> {
    let set = table_set(alloc, X, b"%%s : 'x' ;")?;
    let taken = pieces_taken(alloc, &set);
    drop(set);
    taken
}

/// No memory is left at first, and each try gets one more small block. A feed that has taken two chunks has all the
/// memory that it needs, since what it no longer holds is used again.
#[test]
fn room_for_pieces_is_used_again(rt: HostRuntime) -> Result<(), Fail> {
    assert_eq!(rt; blanks_taken(rt.alloc())?, (PIECES, [true; 3]));
    Ok(())
}
