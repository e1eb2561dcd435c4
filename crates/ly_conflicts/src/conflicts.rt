//! The report of the conflicts: the resolution, why precedence doesn't settle it, and a counterexample where both
//! actions are possible.
ghost use Rattle.std.specs.Prelude.{◌≡◌, ◌<◌, ℕ, Contains, IfOk, length, OnErr, OnOk};
ghost use Rattle.ly_text_buffer.specs.TextBuffer.{SaysMore};
ghost use Rattle.ly_resolve.specs.Conflicts as spec;
ghost use Rattle.ly_resolve.specs.Values.{conflict_from, IsInside};
ghost use Rattle.ly_conflicts.specs.Groups.{AreGroups, IsGroup};
ghost use Rattle.ly_conflicts.specs.Private.Grouping.{IsAt, IsSought};
ghost use Rattle.ly_conflicts.specs.GroupReport.{AreReadings, AreTerminalsOf, AreGroupReports, IsShown, IsGroupReport};
ghost use Rattle.ly_conflicts.specs.GroupReport.{IsOtherIn};

use crate::ambiguity::{Finder, MOST};
use crate::conflict_json::write_conflict;
use crate::conflict_messages::{write_group, write_omitted};
use crate::conflict_sarif::write_results;
use crate::group_report::{GroupReport, OtherSentence, Readings, Shown, Spot};
use crate::groups::{BOUND, Group, TOLD, groups_of};
use crate::meeting::is_met;
use crate::suggestions::{Suggesting, Suggestion};
use crate::ways::Drawn;
use crate::yields::Yields;
use ly_analysis::{Analysis, Cores, Form, Options, Places, first_of, write_numbered};
use ly_base::{OutOfMemory, Sym};
use ly_counterexamples::{Budget, Example, Examples};
use ly_join::{Grammar, Spec, Symbol};
use ly_report::ConflictCounts;
use ly_resolve::{Action, Conflict, ConflictKind};
use ly_text_buffer::TextBuffer;
use std::alloc::Global;

/// The budget of all searches for counterexamples together, counted in demands and symbols after nonterminals that are
/// visited.
const LOOKS: usize = 1_000_000_000;

/// The greatest number of a group's conflicts, beside the first, for which a sentence is searched.
const OTHERS: usize = 60;

/// The data for the report of conflicts.
#[derive(Clone, Copy)]
struct Reporter<'a> {
    /// The conflicts, and the search for their counterexamples.
    examples: &'a Examples<'a>,
    /// The items of the states.
    cores: &'a Cores<'a>,
    /// The shortest token strings of nonterminals.
    yields: &'a Yields,
    /// The specification.
    spec: &'a Spec,
}

/// Prints the number of conflicts, and each conflict with a counterexample; or, for JSON, prints these as members of an
/// object, and for SARIF the conflicts as results with commas between them. Conflicts of one state that differ only in
/// the terminal, and whose searches had the same result, form a group that is printed as one.
///
/// Returns `OutOfMemory` if an allocation outside the page fails. Then the page is unchanged.
pub fn write_conflicts(
    alloc: Global,
    buffer: &mut TextBuffer,
    files: &Analysis<'_>,
    places: &Places,
    options: Options,
) -> Result<(), OutOfMemory>
    ensures ok { OnOk result (SaysMore buffer.old buffer.new) }
    ensures refused { OnErr result (buffer.new ≡ buffer.old) }
{
    let mut page = buffer.beside();
    write_page(alloc, &mut page, files, places, options)?;
    buffer.push_buffer(page);
    Ok(())
}

/// Prints the conflicts on a page of their own.
fn write_page(
    alloc: Global,
    buffer: &mut TextBuffer,
    files: &Analysis<'_>,
    places: &Places,
    options: Options,
) -> Result<(), OutOfMemory> {
    let resolved = files.resolved;
    if options.form == Form::Plain {
        write_counts(buffer, ConflictCounts::of(resolved));
        if resolved.conflicts().is_empty() {
            return Ok(());
        }
    }
    let yields = Yields::of(alloc, resolved.lr0().reduced())?;
    let reporter = Reporter {
        examples: &Examples::new(alloc, resolved)?,
        cores: &Cores::of(alloc, resolved.lr0())?,
        yields: &yields,
        spec: files.spec,
    };
    let mut budget = Budget::new(LOOKS);
    let groups = groups_of(alloc, reporter.examples, &mut budget)?;
    let suggestion = reporter.suggestion(alloc, places, &groups)?;
    let reports = reporter.reports(alloc, &groups, budget)?;
    let omitted = groups.len().saturating_sub(TOLD);
    match options.form {
        Form::Json => {
            write_json(alloc, buffer, files, places, &reports)?;
            write_rest(buffer, files.spec, suggestion, omitted);
        }
        Form::Sarif => write_results(buffer, files, places, &reports),
        Form::Plain => {
            if let Some(suggestion) = suggestion {
                suggestion.write(buffer, files.spec, groups.len());
            }
            write_all(alloc, buffer, files, places, &reports)?;
            write_omitted(buffer, omitted);
        }
    }
    Ok(())
}

/// Prints groups of conflicts.
fn write_all(
    alloc: Global,
    buffer: &mut TextBuffer,
    files: &Analysis<'_>,
    places: &Places,
    groups: &[GroupReport<'_>],
) -> Result<(), OutOfMemory> {
    for report in groups {
        write_group(alloc, buffer, files, places, report)?;
    }
    Ok(())
}

/// Prints groups of conflicts as a member of a JSON object.
fn write_json(
    alloc: Global,
    buffer: &mut TextBuffer,
    files: &Analysis<'_>,
    places: &Places,
    groups: &[GroupReport<'_>],
) -> Result<(), OutOfMemory> {
    buffer.push_json_key(b"conflicts");
    buffer.push(b"[");
    for (place, report) in groups.iter().enumerate() {
        buffer.push(if place > 0 { b"," } else { b"" });
        write_conflict(alloc, buffer, files, places, report)?;
    }
    buffer.push(b"]");
    Ok(())
}

/// Prints the number of conflicts of each kind.
fn write_counts(buffer: &mut TextBuffer, counts: ConflictCounts) {
    let before = b" shift/reduce, ";
    write_numbered(buffer, b"\nConflicts: ", counts.shift_reduce as u64, before);
    write_numbered(
        buffer,
        b"",
        counts.reduce_reduce as u64,
        b" reduce/reduce.\n",
    );
}

/// Prints as JSON the token whose precedence settles the most groups, and the number of groups that aren't printed.
fn write_rest(
    buffer: &mut TextBuffer,
    spec: &Spec,
    suggestion: Option<Suggestion>,
    omitted: usize,
) {
    buffer.push_json_key(b"suggestion");
    match suggestion {
        Some(suggestion) => {
            buffer.push(b"{\"token\":");
            let mut name = buffer.beside();
            name.push_terminal(spec, suggestion.terminal);
            buffer.push_json_buffer(name);
            buffer.push_json_number(b"groups", suggestion.resolved as u64);
            buffer.push_json_key(b"declaration");
            let mut declaration = buffer.beside();
            suggestion.write_declaration(&mut declaration, spec);
            buffer.push_json_buffer(declaration);
            buffer.push_json_number(b"remaining", suggestion.remaining as u64);
            buffer.push(b"}");
        }
        None => buffer.push(b"null"),
    }
    buffer.push_json_number(b"omitted", omitted as u64);
}

impl Reporter<'_> {
    /// The precedence that resolves the most groups, if it resolves more than one.
    fn suggestion(
        &self,
        alloc: Global,
        places: &Places,
        groups: &[Group],
    ) -> Result<Option<Suggestion>, OutOfMemory> {
        let suggesting = Suggesting {
            spec: self.spec,
            places,
            cores: self.cores,
            conflicts: self.examples.resolved().conflicts(),
            groups,
        };
        suggesting.best(alloc)
    }

    /// Collects the data of the groups of conflicts, up to a number of groups.
    fn reports<'g>(
        &self,
        alloc: Global,
        groups: &'g [Group],
        budget: Budget,
    ) -> Result<Vec<GroupReport<'g>>, OutOfMemory>
        requires { AreGroups self.now.examples.now groups.now }
        ensures { IfOk result (λ reports. AreGroupReports self.now.examples.now groups.now reports.items) }
    {
        let mut finder = Finder::new(self.examples, self.cores, self.yields, budget);
        let mut all = Vec::new(alloc);
        for group in first_of(groups, TOLD) {
            all.push(self.report(alloc, group, &mut finder)?)?;
        }
        Ok(all)
    }

    /// Collects the data of a group of conflicts.
    fn report<'g>(
        &self,
        alloc: Global,
        group: &'g Group,
        finder: &mut Finder<'_>,
    ) -> Result<GroupReport<'g>, OutOfMemory>
        requires group { IsGroup self.now.examples.now group.now }
        requires same { finder.old.examples.now ≡ self.now.examples.now }
        ensures report { IfOk result (IsGroupReport self.now.examples.now group.now.conflicts.items) }
        ensures stays { finder.new.examples ≡ finder.old.examples }
    {
        let conflict = self.conflict(group.conflicts[0]);
        let shown = self.shown(alloc, &conflict, group, finder)?;
        let other = self.other(alloc, group, &shown, finder)?;
        Ok(GroupReport {
            conflict,
            terminals: self.terminals(alloc, &group.conflicts)?,
            prefix: self.cores.prefix(alloc, conflict.state)?,
            shown,
            other,
        })
    }

    /// A sentence of another conflict of a group, if none was found for the first.
    fn other(
        &self,
        alloc: Global,
        group: &Group,
        shown: &Shown<'_>,
        finder: &mut Finder<'_>,
    ) -> Result<Option<OtherSentence>, OutOfMemory>
        requires group { IsGroup self.now.examples.now group.now }
        requires same { finder.old.examples.now ≡ self.now.examples.now }
        ensures other { IfOk result (IsOtherIn self.now.examples.now group.now.conflicts.items) }
        ensures stays { finder.new.examples ≡ finder.old.examples }
    {
        if !shown.lacks_sentence() {
            return Ok(None);
        }
        self.other_sentence(alloc, &group.conflicts, finder)
    }

    /// A sentence with two trees that take the two actions of a conflict with one of these indices, which isn't the
    /// first of them. The searches together look at about as many pairs as one for the first conflict.
    fn other_sentence(
        &self,
        alloc: Global,
        group: &[usize],
        finder: &mut Finder<'_>,
    ) -> Result<Option<OtherSentence>, OutOfMemory>
        requires indices { (i : ℕ) → Contains group.now i → i < length self.now.examples.now.conflicts }
        requires same { finder.old.examples.now ≡ self.now.examples.now }
        ensures other { IfOk result (IsOtherIn self.now.examples.now group.now) }
        ensures stays { finder.new.examples ≡ finder.old.examples }
    {
        let most = share_of(group.len());
        let mut tried = 0;
        for index in group {
            let conflict = self.conflict(*index);
            if tried > 0 && tried <= OTHERS {
                let found = finder.find_outwards(alloc, &conflict, most)?;
                if let Some(found) = found {
                    return Ok(Some(OtherSentence { conflict, found }));
                }
            }
            tried = tried.saturating_add(1);
        }
        Ok(None)
    }

    /// The conflict with this index.
    fn conflict(&self, index: usize) -> Conflict
        requires { index < length self.now.examples.now.conflicts }
        ensures { IsAt self.now.examples.now index result }
    {
        self.examples.resolved().conflicts().get(index).unwrap()
    }

    /// The terminals of the conflicts with these indices.
    fn terminals(&self, alloc: Global, group: &[usize]) -> Result<Vec<Sym>, OutOfMemory>
        requires { (i : ℕ) → Contains group.now i → i < length self.now.examples.now.conflicts }
        ensures { IfOk result (λ terminals. AreTerminalsOf self.now.examples.now group.now terminals.items) }
    {
        let mut terminals = Vec::new(alloc);
        for index in group {
            terminals.push(self.conflict(*index).terminal)?;
        }
        Ok(terminals)
    }

    /// How the conflicts of a group arise, as far as it is known. `conflict` is the first of them.
    fn shown<'g>(
        &self,
        alloc: Global,
        conflict: &Conflict,
        group: &'g Group,
        finder: &mut Finder<'_>,
    ) -> Result<Shown<'g>, OutOfMemory>
        requires inside { IsInside self.now.examples.now.automaton conflict.now }
        requires conflict { Contains self.now.examples.now.conflicts
            (conflict_from self.now.examples.now.automaton conflict.now) }
        requires example { IsSought self.now.examples.now conflict.now group.now.example }
        requires same { finder.old.examples.now ≡ self.now.examples.now }
        ensures shown { IfOk result (IsShown self.now.examples.now group.now.conflicts.items
            (conflict_from self.now.examples.now.automaton conflict.now)) }
        ensures stays { finder.new.examples ≡ finder.old.examples }
    {
        match &group.example {
            Some(Example::At(string)) => Ok(Shown::At(self.spot(alloc, conflict, string, finder)?)),
            Some(Example::Merged) => { self.merged(alloc, conflict, &group.conflicts, finder) }
            Some(Example::Unknown) => Ok(Shown::Unknown(finder.find(alloc, conflict, None)?)),
            None => Ok(Shown::Unsought),
        }
    }

    /// A string after which both actions of a conflict are possible, with what is known of it.
    fn spot<'g>(
        &self,
        alloc: Global,
        conflict: &Conflict,
        string: &'g [Symbol],
        finder: &mut Finder<'_>,
    ) -> Result<Spot<'g>, OutOfMemory>
        requires { IsInside finder.old.examples.now.automaton conflict.now }
        ensures string { IfOk result (λ spot. spot.string.now ≡ string.now) }
        ensures readings { IfOk result (λ spot. AreReadings finder.old.examples.now
            (conflict_from finder.old.examples.now.automaton conflict.now) spot.readings) }
        ensures stays { finder.new.examples ≡ finder.old.examples }
    {
        let derived = self.yields.derive(alloc, self.spec.grammar(), string)?;
        let is_met = !derived.whole
            || is_met(alloc, self.examples.resolved(), conflict, &derived.tokens)?;
        let readings = self.readings(alloc, conflict, string, finder)?;
        Ok(Spot {
            string,
            derived,
            is_met,
            readings,
        })
    }

    /// How both actions of a conflict arise after a string.
    fn readings(
        &self,
        alloc: Global,
        conflict: &Conflict,
        string: &[Symbol],
        finder: &mut Finder<'_>,
    ) -> Result<Readings, OutOfMemory>
        requires { IsInside finder.old.examples.now.automaton conflict.now }
        ensures readings { IfOk result (AreReadings finder.old.examples.now
            (conflict_from finder.old.examples.now.automaton conflict.now)) }
        ensures stays { finder.new.examples ≡ finder.old.examples }
    {
        if is_between_same(self.spec.grammar(), conflict) {
            return Ok(Readings::Same);
        }
        let ways = self.drawn(conflict).ways(alloc, string, string)?;
        let found = finder.find(alloc, conflict, Some((string, &ways)))?;
        Ok(Readings::Ways(ways, found))
    }

    /// Where each rule of a conflict applies, if the conflicts with these indices come only from the merging of states.
    fn merged<'g>(
        &self,
        alloc: Global,
        conflict: &Conflict,
        group: &[usize],
        finder: &mut Finder<'_>,
    ) -> Result<Shown<'g>, OutOfMemory>
        requires inside { IsInside self.now.examples.now.automaton conflict.now }
        requires conflict { Contains self.now.examples.now.conflicts
            (conflict_from self.now.examples.now.automaton conflict.now) }
        ensures shown { (c : spec.Conflict) → IfOk result (IsShown self.now.examples.now group.now c) }
        ensures stays { finder.new.examples ≡ finder.old.examples }
    {
        let budget = &mut finder.budget;
        if !self.examples.none_has_one(alloc, group, BOUND, budget)? {
            return Ok(Shown::Unsought);
        }
        let one = self.examples.of_choice(alloc, conflict, BOUND, budget)?;
        let other = self.examples.of_rule(alloc, conflict, BOUND, budget)?;
        if let (Some(one), Some(other)) = (one, other) {
            let ways = self.drawn(conflict).ways(alloc, &one, &other)?;
            return Ok(Shown::Merged(Some(ways)));
        }
        Ok(Shown::Merged(None))
    }

    /// The data for drawing the paths to the actions of a conflict.
    fn drawn<'c>(&'c self, conflict: &'c Conflict) -> Drawn<'c> {
        Drawn {
            cores: self.cores,
            spec: self.spec,
            conflict,
        }
    }
}

/// The number of pairs that are visited for each further conflict of a group of this size.
fn share_of(conflicts: usize) -> usize {
    let others = conflicts.saturating_sub(1).clamp(1, OTHERS);
    MOST.checked_div(others).unwrap_or(0)
}

/// Whether a conflict is between two equal rules.
fn is_between_same(grammar: &Grammar, conflict: &Conflict) -> bool {
    match (conflict.kind, conflict.choice) {
        (ConflictKind::ReduceReduce, Action::Reduce(rule)) => {
            are_same(grammar, rule.0 as usize, conflict.rule.0 as usize)
        }
        _ => false,
    }
}

/// Whether two rules have the same left side and the same body.
pub(crate) fn are_same(grammar: &Grammar, one: usize, other: usize) -> bool {
    match (grammar.rules().get(one), grammar.rules().get(other)) {
        (Some(one), Some(other)) => one.left() == other.left() && one.body() == other.body(),
        _ => false,
    }
}
