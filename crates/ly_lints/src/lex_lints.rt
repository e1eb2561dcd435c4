//! The warnings about an accepted lex file.
use crate::definitions::{definition_number, used_definitions};
use crate::hiding::hiding_of;
use crate::lint::{Lint, LintKind, Side};
use crate::lints::MOST;
use crate::patterns::pattern_lints;
use ly_analysis::{Analysis, Lines, RuleLines, first_of, is_marked};
use ly_base::{Language, Limits, Location, OutOfMemory, is_blank, leading_name};
use ly_ere::{EreFault, read_front};
use ly_join::TerminalName;
use ly_lexread::Returned;
use std::alloc::{AllocError, Global};

/// The search for warnings about a lex file.
#[derive(Drop)]
struct Finder<'a> {
    /// The files.
    files: Analysis<'a>,
    /// The warnings found so far.
    lints: Vec<Lint<'a>>,
}

/// A line with a pattern.
#[derive(Clone, Copy)]
struct Located<'a> {
    /// The line.
    line: &'a [u8],
    /// The location of its start.
    at: Location,
    /// The end of the line, which begins with the pattern.
    end: &'a [u8],
}

/// Finds the warnings about the lex file. The rules with these numbers never match.
pub(crate) fn lex_lints<'a>(
    alloc: Global,
    files: Analysis<'a>,
    unmatched: &[usize],
) -> Result<Vec<Lint<'a>>, OutOfMemory> {
    let lines = RuleLines::of(alloc, &files)?;
    let mut finder = Finder {
        files,
        lints: Vec::new(alloc),
    };
    finder.find_conditions(alloc)?;
    let defined = finder.defined_names(alloc)?;
    finder.find_unused_definitions(alloc, &defined)?;
    finder.find_pattern_lints(alloc, &defined)?;
    finder.find_indented()?;
    for rule in unmatched {
        let hiding = hiding_of(alloc, &finder.files, &lines, *rule)?;
        let line = lines.of_rule(*rule);
        finder.add(first_of_line(line), LintKind::UnmatchedRule(hiding))?;
    }
    finder.find_unnamed_literals(alloc, &lines)?;
    let Finder { lints, .. } = finder;
    Ok(lints)
}

/// The location of the start of a line.
fn first_of_line(line: u64) -> Location {
    Location { line, column: 1 }
}

impl<'a> Finder<'a> {
    /// Adds a warning at a location.
    fn add(&mut self, at: Location, kind: LintKind<'a>) -> Result<(), OutOfMemory> {
        Ok(
            self.lints.push(Lint {
                side: Side::Lex,
                at: Some(at),
                kind,
            })?,
        )
    }

    /// Finds the conditions that no action sets, those in which no rule is active, and those that no action leaves.
    fn find_conditions(&mut self, alloc: Global) -> Result<(), OutOfMemory> {
        let file = self.files.file;
        let count = file.start_conditions.len();
        let mut begun = vec![in alloc; false; count]?;
        let mut active = vec![in alloc; false; count]?;
        let mut left = vec![in alloc; false; count]?;
        for (rule, action) in file.rules.iter().zip(file.actions.iter()) {
            if let Some(condition) = action.begin {
                mark(&mut begun, condition);
            }
            for condition in rule.active.as_slice() {
                mark(&mut active, *condition);
                if action.begin.is_some_and(|next| next != *condition) {
                    mark(&mut left, *condition);
                }
            }
        }
        let mut lines = Lines::of(self.files.lex.bytes);
        for (number, condition) in file.start_conditions.iter().enumerate() {
            let Some(offset) = condition.offset else {
                continue;
            };
            let at = lines.locate(offset);
            let (is_begun, is_active) = (is_marked(&begun, number), is_marked(&active, number));
            if !is_begun {
                self.add(at, LintKind::UnsetCondition(&condition.name))?;
            }
            if !is_active {
                self.add(at, LintKind::IdleCondition(&condition.name))?;
            }
            if is_begun && is_active && !is_marked(&left, number) {
                self.add(at, LintKind::EndlessCondition(&condition.name))?;
            }
        }
        Ok(())
    }

    /// Finds the literals that are returned but not named in the yacc file.
    fn find_unnamed_literals(
        &mut self,
        alloc: Global,
        lines: &RuleLines,
    ) -> Result<(), OutOfMemory> {
        let known = self.literals(alloc)?;
        let mut found = 0;
        for (rule, action) in self.files.file.actions.iter().enumerate() {
            if let Returned::Literal(byte) = action.returns
                && !is_marked(&known, byte as usize)
                && found < MOST
            {
                self.add(
                    first_of_line(lines.of_rule(rule)),
                    LintKind::UnnamedLiteral(byte),
                )?;
                found = found.saturating_add(1);
            }
        }
        Ok(())
    }

    /// Marks the bytes whose literals are terminals.
    fn literals(&self, alloc: Global) -> Result<Vec<bool>, AllocError> {
        let mut known = vec![in alloc; false; 256]?;
        for name in self.files.spec.terminals() {
            if let TerminalName::Literal(byte) = name {
                mark(&mut known, *byte as u32);
            }
        }
        Ok(known)
    }

    /// The names that the lex file defines, in its order.
    fn defined_names(&self, alloc: Global) -> Result<Vec<&'a [u8]>, AllocError> {
        let (file, text) = (self.files.file, self.files.lex.bytes);
        let mut names = Vec::new(alloc);
        for start in &file.definition_starts {
            let line = line_from(text, *start);
            let name: &'a [u8] = match leading_name(line, Language::Lex) {
                Some((name, _)) => name,
                None => b"",
            };
            names.push(name)?;
        }
        Ok(names)
    }

    /// Finds the definitions that no rule uses. `defined` are the names of all.
    fn find_unused_definitions(
        &mut self,
        alloc: Global,
        defined: &[&'a [u8]],
    ) -> Result<(), OutOfMemory> {
        let file = self.files.file;
        let used = used_definitions(alloc, file)?;
        let mut lines = Lines::of(self.files.lex.bytes);
        let mut found = 0;
        for (name, start) in defined.iter().zip(file.definition_starts.iter()) {
            if let Some(number) = definition_number(alloc, &file.names, name)?
                && !is_marked(&used, number)
                && found < MOST
            {
                self.add(lines.locate(*start), LintKind::UnusedDefinition(name))?;
                found = found.saturating_add(1);
            }
        }
        Ok(())
    }

    /// Finds constructs in the patterns of the lex file that have another meaning than they may seem to have.
    fn find_pattern_lints(&mut self, alloc: Global, defined: &[&[u8]]) -> Result<(), OutOfMemory> {
        let (file, text) = (self.files.file, self.files.lex.bytes);
        let mut lines = Lines::of(text);
        for start in &file.definition_starts {
            let line = line_from(text, *start);
            let at = lines.locate(*start);
            let pattern = Located {
                line,
                at,
                end: behind_name(line),
            };
            self.find_pattern_lints_in(alloc, pattern, defined)?;
        }
        for start in &file.rule_starts {
            let line = line_from(text, *start);
            let at = lines.locate(*start);
            let pattern = Located {
                line,
                at,
                end: behind_conditions(line),
            };
            self.find_pattern_lints_in(alloc, pattern, defined)?;
        }
        Ok(())
    }

    /// Finds such constructs in a pattern.
    fn find_pattern_lints_in(
        &mut self,
        alloc: Global,
        pattern: Located<'a>,
        defined: &[&[u8]],
    ) -> Result<(), OutOfMemory> {
        let Located {
            line,
            at: start,
            end,
        } = pattern;
        let names = &self.files.file.names;
        let length = match read_front(alloc, end, names, &Limits::version_2()) {
            Ok((_, length)) => length,
            Err(EreFault::OutOfMemory) => return Err(OutOfMemory),
            Err(EreFault::Refused { .. }) => return Ok(()),
        };
        let before = line.len().saturating_sub(end.len());
        let text = end.get(..length).unwrap_or_default();
        for found_lint in &pattern_lints(alloc, names, defined, text)? {
            let offset = before.saturating_add(found_lint.offset);
            let column = start.column.saturating_add(offset as u64);
            let kind = LintKind::PatternLint {
                pattern_lint: found_lint.pattern_lint,
                line,
                offset,
            };
            self.add(Location { column, ..start }, kind)?;
        }
        Ok(())
    }

    /// Finds the lines among the rules of the lex file that are ignored.
    fn find_indented(&mut self) -> Result<(), OutOfMemory> {
        for line in first_of(self.files.indented, MOST) {
            self.add(first_of_line(*line), LintKind::IndentedLine)?;
        }
        Ok(())
    }
}

/// Marks a number. A number outside the list is ignored.
fn mark(marks: &mut Vec<bool>, number: u32) {
    if let Some(place) = marks.get_mut(number as usize) {
        *place = true;
    }
}

/// The line of a text that begins at an offset, without its newline.
fn line_from(text: &[u8], start: usize) -> &[u8] {
    let rest = text.get(start..).unwrap_or(b"");
    rest.split(|byte| *byte == b'\n').next().unwrap_or(rest)
}

/// What follows the conditions at the start of a rule's line.
fn behind_conditions(line: &[u8]) -> &[u8] {
    if !line.starts_with(b"<") {
        return line;
    }
    match line.iter().position(|byte| *byte == b'>') {
        Some(place) => line.get(place.saturating_add(1)..).unwrap_or_default(),
        None => line,
    }
}

/// What follows the name at the start of a definition and blanks.
fn behind_name(line: &[u8]) -> &[u8] {
    let Some((_name, rest)) = leading_name(line, Language::Lex) else {
        return line;
    };
    let blanks = rest.iter().take_while(|byte| is_blank(**byte)).count();
    rest.get(blanks..).unwrap_or_default()
}
