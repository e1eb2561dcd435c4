ghost use Rattle.std.specs.Prelude.{◌≡◌, ◌≢◌, List, map, IfErr, IfOk, MatchResult};
ghost use Rattle.ly_yaccread.specs.Declarations.{Declaring};
ghost use Rattle.ly_yaccread.specs.Faults.{IsWithin, StandsAt};
ghost use Rattle.ly_yaccread.specs.File.{Written, ruling_of, written_of};
ghost use Rattle.ly_yaccread.specs.Private.Read.{Says, declaring_of, file_at};
ghost use Rattle.ly_yaccread.specs.Private.Words.{offsets_of, words_of};
ghost use Rattle.ly_yaccread.specs.Rules.{Ruling};
ghost use Rattle.ly_yaccread.specs.YaccText.{YaccText};
ghost use Rattle.ly_yaccread.specs.declared.fault.YaccFault.TheVariants as fault;
ghost use Rattle.ly_yaccread.specs.declared.refusal.Refusal.TheVariants.{OutOfMemory};
ghost use Rattle.ly_yaccread.specs.declared.standing.Standing as spec;

use crate::cursor::Cursor;
use crate::declarations::{Preamble, read_declarations};
use crate::fault::YaccFault;
use crate::file::{Production, YaccFile};
use crate::offsets::{rule_offsets, token_offsets};
use crate::refusal::Refusal;
use crate::rules::read_rules;
use crate::standing::Standing;
use crate::wording::words;
use crate::words::FileWord;
use std::alloc::{AllocError, Global};

/// Parses a yacc file (POSIX, XCU yacc): declarations, `%%` and rules. All that follows a second `%%` is ignored.
///
/// The error is that of the first word that isn't allowed where it is:
///
/// - `ErrorToken`: the name `error`, anywhere.
/// - `BadLiteral`: an invalid literal, anywhere.
/// - `UnclosedComment`: a comment, a block or a union that isn't closed.
/// - `NoRulesMark`: the file ends in the declarations.
/// - `BadDeclaration`: anything else in the declarations that isn't one, and a second `%start`.
/// - `DollarRange`: a `$` number that is no symbol of the body.
/// - `DollarTwice`: a `$` number that occurs twice in an action.
/// - `BadAction`: anything else in an action.
/// - `MidRuleAction`: a symbol or an action after an action.
/// - `BadRule`: anything else in the rules.
/// - `OutOfMemory`: an allocation failed.
pub fn read_yacc(alloc: Global, bytes: &[u8]) -> Result<YaccFile, YaccFault>
    ensures ok { IfOk result (λ file. YaccText bytes.now (written_of file)) }
    ensures refused { IfErr result
        (λ f. f ≢ fault.OutOfMemory → (w : Written) → YaccText bytes.now w → ⊥) }
    ensures within { IfErr result (IsWithin bytes.now) }
    ensures stands { IfErr result (StandsAt bytes.now) }
{
    let words = words(alloc, bytes)?;
    match read_words(alloc, bytes, &words) {
        Ok(reading) => Ok(reading.file(alloc, &words)?),
        Err(refusal) => Err(refusal.fault(bytes, &words)),
    }
}

/// The content of the words of a file, located by numbers of words.
#[derive(Drop)]
struct Reading {
    /// The content of the declarations.
    preamble: Preamble,
    /// The rules.
    rules: Vec<Production>,
    /// The location of each rule.
    standings: Vec<Standing>,
}

impl Reading {
    /// The file with these words and this content.
    fn file(self, alloc: Global, words: &[FileWord<'_>]) -> Result<YaccFile, AllocError>
        ensures { IfOk result (λ file. written_of file ≡ file_at (offsets_of words.now) (declaring_of self.preamble)
            (map ruling_of self.rules.items) self.standings.items) }
    {
        let Reading {
            preamble,
            rules,
            standings,
        } = self;
        let Preamble {
            declarations,
            start,
            tokens,
        } = preamble;
        let token_offsets = token_offsets(alloc, words, &tokens)?;
        let rule_offsets = rule_offsets(alloc, words, &standings)?;
        Ok(YaccFile {
            declarations,
            start,
            rules,
            token_offsets,
            rule_offsets,
        })
    }
}

/// Parses the words of a file: declarations, a `%%`, and rules.
fn read_words(alloc: Global, text: &[u8], words: &[FileWord<'_>]) -> Result<Reading, Refusal>
    ensures { MatchResult result
        (λ r. Says (words_of words.now) (declaring_of r.preamble) (map ruling_of r.rules.items) r.standings.items)
        (λ refusal. refusal ≢ OutOfMemory → (d : Declaring) (rs : List Ruling) (ss : List spec.Standing)
        → Says (words_of words.now) d rs ss → ⊥) }
{
    let all = Cursor { text, left: words };
    let (preamble, behind) = read_declarations(alloc, all)?;
    let (rules, standings) = read_rules(alloc, behind)?;
    Ok(Reading {
        preamble,
        rules,
        standings,
    })
}
