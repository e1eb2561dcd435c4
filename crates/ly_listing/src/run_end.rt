//! Finds out how lexing a text ends before a line is written.
ghost use Rattle.std.specs.Prelude.{◌≡◌, ◌≤◌, ◌<◌, ◌+◌, ◌^◌, ℕ, List, length, map, true};
ghost use Rattle.ly_base.specs.Lexed.{Token};
ghost use Rattle.ly_base.specs.declared.lexeme.End.TheVariants.{Clean};
ghost use Rattle.ly_listing.specs.Labels.{begin_by, fact_of, labelling, EndsFrom, EndsSo};
ghost use Rattle.ly_listing.specs.Listings.{ArePassed};
ghost use Rattle.ly_listing.specs.Private.Marks.{AreMarked, IsMarkedTo};
ghost use Rattle.ly_listing.specs.Private.SoFar.{LeadsOn};
ghost use Rattle.ly_scan.specs.Facts.{facts_by};
ghost use Rattle.ly_scan.specs.KnownWalks.{AreKnown};
ghost use Rattle.ly_scan.specs.Lexers.{scanner_of};
ghost use Rattle.ly_scan.specs.StateTable.{ahead_in};

use crate::marks::{Marks, Walked};
use crate::rule_labels::{RuleLabels, place_of};
use crate::token_lines::first_of;
use ly_base::{End, Place};
use ly_scan::{KnownWalks, Lexer};
use std::alloc::Global;

/// Returns how lexing a text ends. If it isn't known to end cleanly, this walks over the text once and marks the tokens
/// it finds.
pub(crate) fn run_end<'t>(
    alloc: Global,
    lexer: &Lexer,
    text: &'t [u8],
    labels: &RuleLabels,
    facts: &[u32],
    clean: bool,
) -> Walked<'t>
    requires passed { ArePassed lexer.now.passed (labelling labels.now) (begin_by labels.now) }
    requires facts { facts.now ≡ facts_by lexer.now.scanner (map fact_of labels.now.rules.items) }
    requires clean { clean ≡ true → EndsSo (scanner_of lexer.now.scanner) labels.now text.now Clean }
    ensures ends { EndsSo (scanner_of lexer.now.scanner) labels.now text.now result.end }
    ensures marked { IsMarkedTo labels.now (scanner_of lexer.now.scanner) text.now result.place result.marks.items }
{
    if clean {
        return Walked {
            end: End::Clean,
            marks: Vec::new(alloc),
            place: Place::start(text),
        };
    }
    walked_end(alloc, lexer, text, labels, facts)
}

/// Walks over the text, returns how lexing ends, and marks the tokens as far as memory allows.
fn walked_end<'t>(
    alloc: Global,
    lexer: &Lexer,
    text: &'t [u8],
    labels: &RuleLabels,
    facts: &[u32],
) -> Walked<'t>
    requires passed { ArePassed lexer.now.passed (labelling labels.now) (begin_by labels.now) }
    requires facts { facts.now ≡ facts_by lexer.now.scanner (map fact_of labels.now.rules.items) }
    ensures ends { EndsSo (scanner_of lexer.now.scanner) labels.now text.now result.end }
    ensures marked { IsMarkedTo labels.now (scanner_of lexer.now.scanner) text.now result.place result.marks.items }
{
    let mut place = Place::start(text);
    let mut known = KnownWalks::new(alloc);
    let mut marks = Marks::new(alloc, text.len());
    loop {
        place = mark_told(lexer, labels, facts, place, &known, &mut marks);
        match lexer.next(&mut place, &mut known, true) {
            Ok(Some(lexeme)) => {
                let rest = place.rest();
                let label = labels.place(lexeme.rule, &rest[..lexeme.taken]);
                if !marks.note_if(rest.len(), label, lexeme.taken) {
                    return without_marks(lexer, labels, facts, place, known, marks);
                }
                place.advance(lexeme.taken, labels.begin(lexeme.rule))
            }
            Err(end) => {
                return Walked {
                    end,
                    marks: marks.marks,
                    place,
                };
            }
            // the end of the text decides each match
            Ok(None) => unreachable!(),
        }
    }
}

/// Marks lexemes from a place on. It stops at the first one that the final state alone doesn't determine, or when
/// memory runs out. Returns where the next lexeme starts.
#[inline(never)] // to leave it the registers
fn mark_told<'t>(
    lexer: &Lexer,
    labels: &RuleLabels,
    facts: &[u32],
    start: Place<'t>,
    known: &KnownWalks,
    marks: &mut Marks,
) -> Place<'t>
    requires passed { ArePassed lexer.now.passed (labelling labels.now) (begin_by labels.now) }
    requires facts { facts.now ≡ facts_by lexer.now.scanner (map fact_of labels.now.rules.items) }
    requires behind { length start.rest ≤ marks.old.left }
    ensures leads { (told : List (Token (List ℕ)))
        × LeadsOn labels.now (scanner_of lexer.now.scanner) start.entry result told }
    ensures marked { (text : List ℕ) → AreMarked labels.now (scanner_of lexer.now.scanner) text start.entry
        marks.old.marks.items marks.old.left
        → AreMarked labels.now (scanner_of lexer.now.scanner) text result marks.new.marks.items marks.new.left }
    ensures behind { length result.rest ≤ marks.new.left }
{
    let mut place = start;
    loop {
        let Some(told) = lexer.tell(facts, &mut place, known) else {
            return place;
        };
        let rest = place.rest();
        let label = place_of(told.fact, first_of(rest));
        if !marks.note_if(rest.len(), label, told.taken) {
            return place;
        }
        place.advance(told.taken, None);
    }
}

/// Returns how lexing ends from a place on, where the marks end.
fn without_marks<'t>(
    lexer: &Lexer,
    labels: &RuleLabels,
    facts: &[u32],
    place: Place<'t>,
    known: KnownWalks,
    marks: Marks,
) -> Walked<'t>
    requires passed { ArePassed lexer.now.passed (labelling labels.now) (begin_by labels.now) }
    requires facts { facts.now ≡ facts_by lexer.now.scanner (map fact_of labels.now.rules.items) }
    requires known { AreKnown (ahead_in lexer.now.scanner) true place.rest known }
    requires countable { place.at + length place.rest < 2 ^ 64 }
    ensures end { EndsFrom (scanner_of lexer.now.scanner) labels.now place.entry result.end }
    ensures marks { result.marks.items ≡ marks.marks.items }
    ensures place { result.place ≡ place.entry }
{
    let marked = Place::behind(
        place.rest(),
        place.at(),
        place.at_line_start(),
        place.condition(),
    );
    Walked {
        end: end_from(lexer, labels, facts, place, known),
        marks: marks.marks,
        place: marked,
    }
}

/// Returns how lexing ends from a place on.
fn end_from(
    lexer: &Lexer,
    labels: &RuleLabels,
    facts: &[u32],
    start: Place<'_>,
    walks: KnownWalks,
) -> End
    requires passed { ArePassed lexer.now.passed (labelling labels.now) (begin_by labels.now) }
    requires facts { facts.now ≡ facts_by lexer.now.scanner (map fact_of labels.now.rules.items) }
    requires known { AreKnown (ahead_in lexer.now.scanner) true start.rest walks }
    ensures { EndsFrom (scanner_of lexer.now.scanner) labels.now start.entry result }
{
    let mut place = start;
    let mut known = walks;
    loop {
        place = pass_told(lexer, labels, facts, place, &known);
        match lexer.next(&mut place, &mut known, true) {
            Ok(Some(lexeme)) => { place.advance(lexeme.taken, labels.begin(lexeme.rule)) }
            Err(end) => return end,
            // the end of the text decides each match
            Ok(None) => unreachable!(),
        }
    }
}

/// Skips lexemes from a place on, as long as the final state alone determines them. Returns where the next one starts.
#[inline(never)] // to leave it the registers
fn pass_told<'t>(
    lexer: &Lexer,
    labels: &RuleLabels,
    facts: &[u32],
    start: Place<'t>,
    known: &KnownWalks,
) -> Place<'t>
    requires passed { ArePassed lexer.now.passed (labelling labels.now) (begin_by labels.now) }
    requires facts { facts.now ≡ facts_by lexer.now.scanner (map fact_of labels.now.rules.items) }
    ensures { (told : List (Token (List ℕ)))
        × LeadsOn labels.now (scanner_of lexer.now.scanner) start.entry result told }
{
    let mut place = start;
    loop {
        let Some(told) = lexer.tell(facts, &mut place, known) else {
            return place;
        };
        place.advance(told.taken, None);
    }
}
