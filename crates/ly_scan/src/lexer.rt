ghost use Rattle.std.specs.Prelude.{◌≡◌, ◌<◌, ◌≤◌, ◌+◌, ◌^◌, ℕ, List, drop, false, true, length, IfErr, IfOk};
ghost use Rattle.std.specs.Prelude.{IfSome, MatchOption};
ghost use Rattle.ly_base.specs.Lexed as lexed;
ghost use Rattle.ly_scan.specs.Beginning.{anywhere, by_line, IsBegun};
ghost use Rattle.ly_scan.specs.Facts.{fact_by, facts_by, IsTaggedLexeme};
ghost use Rattle.ly_scan.specs.KnownWalks.{AreKnown};
ghost use Rattle.ly_scan.specs.Lexers.{scanner_of, IsUnderwayAt};
ghost use Rattle.ly_scan.specs.Pieces.{behind, EndIsDecided, IsUndecided, PassesOver, IsDecided};
ghost use Rattle.ly_scan.specs.StateTable.{ahead_at, ahead_in, StandsIn};

use crate::beginning::{Anywhere, Beginning, ByLine};
use crate::known_walks::KnownWalks;
use crate::lexeme::{line_at, next_lexeme};
use crate::lone_bytes::LoneBytes;
use crate::matcher::Matcher;
use crate::matching::walk_on;
use crate::scanner::Scanner;
use crate::state_rows::RowStart;
use crate::steps::Steps;
use crate::tagged_lexeme::TaggedLexeme;
use ly_base::{Cut, End, Lexeme, OutOfMemory, Place, RuleNo};
use std::alloc::Global;
use std::marker::Model;

/// Splits a text into lexemes by a scanner. Skipped lexemes of one byte, as most blanks are, take no walk.
#[derive(Drop)]
pub struct Lexer {
    /// The scanner.
    scanner: Scanner,
    /// For each rule whether its lexemes are skipped.
    passed: Vec<bool>,
    /// The bytes that are skipped lexemes by themselves.
    lone: LoneBytes,
}

impl Model for Lexer {
    ghost use Rattle.ly_scan.specs.LoneBytes.{AreLone};
    ghost use Rattle.ly_scan.specs.Lexers as value;
    ghost use Rattle.ly_scan.specs.Lexers.{scanner_of};

    ghost Value = { value.Lexer };

    ghost view = { λ l. record { scanner = l.scanner; passed = l.passed.items } };

    ghost invariant = { λ l. AreLone (scanner_of l.scanner) l.passed.items l.lone };
}

impl Lexer {
    /// Makes the lexer of a scanner. `passed` has for each rule whether its lexemes are skipped. Fails if memory runs
    /// out.
    pub fn new(alloc: Global, scanner: Scanner, passed: Vec<bool>) -> Result<Lexer, OutOfMemory>
        ensures { IfOk result (λ l. l ≡ record { scanner = scanner; passed = passed.items }) }
    {
        let lone = LoneBytes::find(alloc, &scanner, &passed)?;
        Ok(Lexer {
            scanner,
            passed,
            lone,
        })
    }

    /// The scanner.
    pub fn scanner(&self) -> &Scanner
        ensures { result.now ≡ self.now.scanner }
    {
        &self.scanner
    }

    /// Skips lexemes of one byte. Returns the lexeme after them, or how scanning ends there. `ended` is whether the
    /// text ends after these bytes. If not, the result holds whatever bytes follow, and is `None` if they may change
    /// it. Uses and extends the cache of walks over these bytes.
    #[inline(always)] // with a call, the loop would reload the scanner for each lexeme
    pub fn next(
        &self,
        place: &mut Place<'_>,
        known: &mut KnownWalks,
        ended: bool,
    ) -> Result<Option<Lexeme>, End>
        requires known { AreKnown (ahead_in self.now.scanner) ended place.old.rest known.old }
        ensures passed { PassesOver (scanner_of self.now.scanner) self.now.passed place.old place.new }
        ensures left { length place.new.rest ≤ length place.old.rest }
        ensures found { let s = scanner_of self.now.scanner in
            IfOk result (λ o. MatchOption o ((ended ≡ false) × IsUndecided s place.new)
            (IsDecided ended s place.new)) }
        ensures end { IfErr result (EndIsDecided ended (scanner_of self.now.scanner) place.new) }
        ensures known { (taken : ℕ) → taken ≤ length place.new.rest
            → AreKnown (ahead_in self.now.scanner) ended (drop taken place.new.rest) known.new }
    {
        self.pass_over(place);
        next_lexeme(&self.scanner, place, known, ended)
    }

    /// Computes a number, the fact, for each state. It is the number that `by_rule` gives for the state's rule, if that
    /// has no trailing context, and else 0. Fails if memory runs out.
    pub fn facts(&self, alloc: Global, by_rule: &[u32]) -> Result<Vec<u32>, OutOfMemory>
        ensures { IfOk result (λ f. f.items ≡ facts_by self.now.scanner by_rule.now) }
    {
        let rules = self.scanner.rules();
        let mut facts = Vec::with_capacity(alloc, rules.len())?;
        for rule in rules {
            facts.push(fact_of(&self.scanner, by_rule, *rule))?;
        }
        Ok(facts)
    }

    /// Skips lexemes of one byte, and determines the next lexeme from the fact of the state where its walk ends.
    /// Returns `None` in some cases although there is a lexeme: in a condition other than the initial one, if the fact
    /// is 0, if the walk reaches the end of the bytes, and if matches are cached for points after it.
    #[inline(always)] // leaves the registers to a loop over such lexemes
    pub fn tell(
        &self,
        facts: &[u32],
        place: &mut Place<'_>,
        known: &KnownWalks,
    ) -> Option<TaggedLexeme>
        requires full { length facts.now ≡ length self.now.scanner.rules }
        ensures passed { PassesOver (scanner_of self.now.scanner) self.now.passed place.old place.new }
        ensures left { length place.new.rest ≤ length place.old.rest }
        ensures told { (by_rule : List ℕ) → facts.now ≡ facts_by self.now.scanner by_rule
            → IfSome result (IsTaggedLexeme (scanner_of self.now.scanner) by_rule place.new) }
    {
        self.pass_over(place);
        let rest = place.rest();
        if place.condition() != 0 || known.reaches(rest.len()) {
            return None;
        }
        let line = line_at(&self.scanner, place);
        let start = self.scanner.start(0, line)?;
        self.tell_behind(start, facts, place)
    }

    /// The start of walks in the initial condition, if it is the same at the start of a line and elsewhere.
    pub fn anywhere(&self) -> Option<Anywhere>
        ensures { IfSome result (λ b. IsBegun self.now.scanner (anywhere b)) }
    {
        self.scanner.anywhere()
    }

    /// The starts of walks in the initial condition, if there is one both at the start of a line and elsewhere.
    pub fn by_line(&self) -> Option<ByLine>
        ensures { IfSome result (λ b. IsBegun self.now.scanner (by_line b)) }
    {
        self.scanner.by_line()
    }

    /// Determines the next lexeme as `tell` does, with a start that was looked up. The caller checks whether matches
    /// are cached for points after the place.
    #[inline(always)] // as `tell`
    pub fn tell_from<B: Beginning>(
        &self,
        beginning: &B,
        facts: &[u32],
        place: &mut Place<'_>,
    ) -> Option<TaggedLexeme>
        requires begun { IsBegun self.now.scanner (B.begun beginning.now) }
        requires full { length facts.now ≡ length self.now.scanner.rules }
        ensures passed { PassesOver (scanner_of self.now.scanner) self.now.passed place.old place.new }
        ensures left { length place.new.rest ≤ length place.old.rest }
        ensures told { (by_rule : List ℕ) → facts.now ≡ facts_by self.now.scanner by_rule
            → IfSome result (IsTaggedLexeme (scanner_of self.now.scanner) by_rule place.new) }
    {
        self.pass_over(place);
        if place.condition() != 0 {
            return None;
        }
        let start = beginning.start(place);
        self.tell_behind(start, facts, place)
    }

    /// Determines the lexeme at a place in the initial condition, whose walk begins at `start`.
    #[inline(always)] // as `tell`
    fn tell_behind(&self, start: RowStart, facts: &[u32], place: &Place<'_>) -> Option<TaggedLexeme>
        requires full { length facts.now ≡ length self.now.scanner.rules }
        requires initial { place.now.condition ≡ 0 }
        requires stands { StandsIn self.now.scanner start }
        requires there { (text : List ℕ) → ahead_at self.now.scanner start text
            ≡ (scanner_of self.now.scanner).walk 0 place.now.line text }
        ensures { (by_rule : List ℕ) → facts.now ≡ facts_by self.now.scanner by_rule
            → IfSome result (IsTaggedLexeme (scanner_of self.now.scanner) by_rule place.now) }
    {
        let rest = place.rest();
        let (taken, at) = walk_on(&self.scanner, start, rest);
        if taken == 0 || taken == rest.len() {
            return None;
        }
        let fact = facts[at.state()];
        if fact == 0 {
            return None;
        }
        Some(TaggedLexeme { fact, taken })
    }

    /// Returns the match at a place, which the bytes left don't decide. It has read all of them.
    pub fn matcher_at(&self, place: &Place<'_>) -> Matcher<RowStart>
        requires { IsUndecided (scanner_of self.now.scanner) place.now }
        ensures { IsUnderwayAt self.now place.now result }
    {
        let mut matcher = Matcher::new(&self.scanner, place.condition(), place.at_line_start());
        // these bytes don't decide it
        let _undecided = matcher.piece(&self.scanner, place.rest());
        matcher
    }

    /// Reads the next bytes of a match. Returns whether it is still undecided.
    pub fn goes_on(&self, matcher: &mut Matcher<RowStart>, bytes: &[u8]) -> bool
        requires countable { matcher.old.passed + length bytes.now < 2 ^ 64 }
        requires stands { IfSome matcher.old.at (StandsIn self.now.scanner) }
        ensures { (q : lexed.Place) → IsUnderwayAt self.now q matcher.old → result ≡ true
            → IsUnderwayAt self.now (behind q bytes.now) matcher.new
            × IsUndecided (scanner_of self.now.scanner) (behind q bytes.now) }
    {
        matcher.piece(&self.scanner, bytes).is_none()
    }

    /// Skips lexemes of one byte, as long as the place is known to have one. It uses a branch, which is mostly
    /// predicted right between the words of a text.
    #[inline(always)]
    fn pass_over(&self, place: &mut Place<'_>)
        ensures passed { PassesOver (scanner_of self.now.scanner) self.now.passed place.old place.new }
        ensures left { length place.new.rest ≤ length place.old.rest }
    {
        while self.lone.at(place) {
            place.advance(1, None);
        }
    }
}

/// The fact of a state with this rule.
fn fact_of(scanner: &Scanner, by_rule: &[u32], rule: Option<RuleNo>) -> u32
    ensures { result ≡ fact_by scanner.now by_rule.now rule }
{
    let Some(rule) = rule else {
        return 0;
    };
    match scanner.cut(rule) {
        Cut::Whole => match by_rule.get(rule.0 as usize) {
            Some(fact) => *fact,
            None => 0,
        },
        Cut::Head(_) | Cut::Tail(_) => 0,
    }
}
