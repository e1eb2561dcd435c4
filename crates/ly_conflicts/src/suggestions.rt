//! The token whose precedence resolves the most groups of conflicts. A precedence is suggested only after the conflicts
//! were resolved again with it.
use crate::groups::Group;
use crate::trial::{Left, Trial, ranking_terminal, rules_ranked_by};
use ly_analysis::{Cores, Places, behind_dot, body_of, precedence_of, rank_of};
use ly_base::{OutOfMemory, Sym};
use ly_join::{Associativity, Grammar, Spec, Symbol};
use ly_resolve::{Conflict, ConflictKind, Conflicts};
use ly_text_buffer::TextBuffer;
use std::alloc::Global;

/// The least number of groups that a precedence must resolve to be suggested.
const LEAST: usize = 2;

/// The greatest number of tokens that are tried.
const TRIED: usize = 8;

/// The associativities in the order in which they are tried, with their directives.
const DIRECTIVES: [(Associativity, &[u8]); 3] = [
    (Associativity::Left, b"%left "),
    (Associativity::Right, b"%right "),
    (Associativity::Nonassociative, b"%nonassoc "),
];

/// A precedence that resolves groups of conflicts.
#[derive(Clone, Copy)]
pub(crate) struct Suggestion {
    /// The token.
    pub(crate) terminal: Sym,
    /// The directive that declares its precedence.
    directive: &'static [u8],
    /// The number of groups that are resolved.
    pub(crate) resolved: usize,
    /// The number of conflicts that remain.
    pub(crate) remaining: usize,
}

/// What a suggestion depends on.
#[derive(Clone, Copy)]
pub(crate) struct Suggesting<'s> {
    /// The specification.
    pub(crate) spec: &'s Spec,
    /// The rules with a `%prec`.
    pub(crate) places: &'s Places,
    /// The items of the states.
    pub(crate) cores: &'s Cores<'s>,
    /// The conflicts.
    pub(crate) conflicts: &'s Conflicts,
    /// Their groups.
    pub(crate) groups: &'s [Group],
}

impl Suggesting<'_> {
    /// The precedence that resolves the most groups of conflicts, if it resolves more than one. Of those that resolve
    /// as many it is the one that leaves the fewest conflicts.
    pub(crate) fn best(&self, alloc: Global) -> Result<Option<Suggestion>, OutOfMemory> {
        let mut counts: Vec<usize> = vec![in alloc; 0; self.spec.terminals().len()]?;
        for group in self.groups {
            if let Some(terminal) = self.needed_for_all(alloc, group)?
                && let Some(count) = counts.get_mut(terminal.0 as usize)
            {
                *count = count.saturating_add(1);
            }
        }
        let mut best = None;
        for _ in 0..TRIED {
            let Some(terminal) = take_greatest(&mut counts) else {
                break;
            };
            best = self.better(alloc, best, terminal)?;
        }
        Ok(best)
    }

    /// The token whose precedence each conflict of a group needs, if there is one.
    fn needed_for_all(&self, alloc: Global, group: &Group) -> Result<Option<Sym>, OutOfMemory> {
        let mut all = None;
        for index in &group.conflicts {
            let Some(conflict) = self.conflicts.get(*index) else {
                return Ok(None);
            };
            let needed = self.needed_for(alloc, &conflict)?;
            if needed.is_none() || all.is_some() && all != needed {
                return Ok(None);
            }
            all = needed;
        }
        Ok(all)
    }

    /// The token that needs a precedence to resolve a conflict, if it is the only one without. It must be an operator:
    /// a precedence of a token that stands alone, such as a name, would decide between two meanings of the name.
    fn needed_for(&self, alloc: Global, conflict: &Conflict) -> Result<Option<Sym>, OutOfMemory> {
        let rule = conflict.rule.0 as usize;
        if conflict.kind == ConflictKind::ReduceReduce || conflict.terminal.0 == 0 {
            return Ok(None);
        }
        let is_ranked = rank_of(self.spec, conflict.terminal).is_some();
        if precedence_of(self.spec, rule).is_some() {
            let needed = !is_ranked && self.is_shifted_in_operation(alloc, conflict)?;
            return Ok(needed.then_some(conflict.terminal));
        }
        let needed = ranking_terminal(self.spec, self.places, rule);
        let alone = is_ranked || needed == Some(conflict.terminal);
        Ok(if alone && is_operation(self.spec.grammar(), rule) {
            needed
        } else {
            None
        })
    }

    /// Whether the terminal of a conflict is shifted in a rule that has a nonterminal too.
    fn is_shifted_in_operation(
        &self,
        alloc: Global,
        conflict: &Conflict,
    ) -> Result<bool, OutOfMemory> {
        let grammar = self.spec.grammar();
        for item in &self.cores.items(alloc, conflict.state)? {
            if behind_dot(grammar, *item) == Some(Symbol::Terminal(conflict.terminal))
                && is_operation(grammar, item.rule)
            {
                return Ok(true);
            }
        }
        Ok(false)
    }

    /// The better one of a suggestion and those for a token.
    fn better(
        &self,
        alloc: Global,
        best: Option<Suggestion>,
        terminal: Sym,
    ) -> Result<Option<Suggestion>, OutOfMemory> {
        let mut best = best;
        let rules = rules_ranked_by(alloc, self.spec, self.places, terminal)?;
        for (associativity, directive) in DIRECTIVES {
            let trial = Trial {
                spec: self.spec,
                terminal,
                associativity,
                rules: &rules,
            };
            let left = trial.left_of(alloc, self.conflicts)?;
            let suggestion = Suggestion {
                terminal,
                directive,
                resolved: self.resolved(&left),
                remaining: left.count,
            };
            let is_better = match best {
                Some(best) => suggestion.is_better_than(&best),
                None => true,
            };
            if is_better && suggestion.resolved >= LEAST {
                best = Some(suggestion);
            }
        }
        Ok(best)
    }

    /// The number of groups of which nothing is left.
    fn resolved(&self, left: &Left) -> usize {
        let mut resolved: usize = 0;
        for group in self.groups {
            let is_left = |index: &usize| left.marks.get(*index) == Some(&true);
            if !group.conflicts.iter().any(is_left) {
                resolved = resolved.saturating_add(1);
            }
        }
        resolved
    }
}

impl Suggestion {
    /// Whether this resolves more groups than another suggestion, or as many with fewer conflicts left.
    fn is_better_than(&self, other: &Suggestion) -> bool {
        self.resolved > other.resolved
            || self.resolved == other.resolved && self.remaining < other.remaining
    }

    /// Prints the declaration.
    pub(crate) fn write_declaration(&self, buffer: &mut TextBuffer, spec: &Spec) {
        buffer.push(self.directive);
        buffer.push_terminal(spec, self.terminal);
    }

    /// Prints how many of the groups it resolves, and how many conflicts remain.
    pub(crate) fn write(&self, buffer: &mut TextBuffer, spec: &Spec, groups: usize) {
        buffer.push(b"Declaring ");
        self.write_declaration(buffer, spec);
        buffer.push(b" as the first precedence resolves ");
        buffer.push_number(self.resolved as u64);
        buffer.push(b" of these ");
        buffer.push_count(groups, b"group; ", b"groups; ");
        match self.remaining {
            0 => buffer.push(b"no conflict remains.\n"),
            count => buffer.push_count(count, b"conflict remains.\n", b"conflicts remain.\n"),
        }
    }
}

/// Whether a rule has both terminals and nonterminals, as that of an operator has.
fn is_operation(grammar: &Grammar, rule: usize) -> bool {
    let (mut terminals, mut nonterminals) = (false, false);
    for symbol in body_of(grammar, rule) {
        match symbol {
            Symbol::Terminal(_) => terminals = true,
            Symbol::Nonterminal(_) => nonterminals = true,
        }
    }
    terminals && nonterminals
}

/// The terminal with the greatest of these counts, if it is great enough. Its count becomes zero.
fn take_greatest(counts: &mut [usize]) -> Option<Sym> {
    let mut greatest = None;
    let mut most = LEAST;
    for (terminal, count) in counts.iter().enumerate() {
        if *count >= most {
            greatest = Some(terminal);
            most = count.saturating_add(1);
        }
    }
    let terminal = greatest?;
    if let Some(count) = counts.get_mut(terminal) {
        *count = 0;
    }
    Some(Sym(u32::try_from(terminal).ok()?))
}
