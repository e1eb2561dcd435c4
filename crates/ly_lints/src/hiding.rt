//! Why a rule of the lex file never matches: which rules win for its strings.
use crate::lint::Hiding;
use indexmap::IndexSet;
use ly_analysis::{Analysis, RuleLines};
use ly_base::{Limits, OutOfMemory};
use ly_position::{PosFault, positions};
use ly_subset::{Dfa, SubsetFault, subsets};
use std::alloc::Global;

/// The greatest number of pairs of states that are visited.
const MOST: usize = 2_000;

/// The rules that win for the strings of a rule.
#[derive(Drop)]
struct Winners {
    /// The winning rules, in the order in which they were found.
    rules: IndexSet<usize>,
    /// Whether all strings were covered.
    whole: bool,
}

/// Why a rule of the lex file never matches.
pub(crate) fn hiding_of(
    alloc: Global,
    files: &Analysis<'_>,
    lines: &RuleLines,
    rule: usize,
) -> Result<Hiding, OutOfMemory> {
    let Some(own) = scanner_of(alloc, files, rule)? else {
        return Ok(Hiding::Earlier);
    };
    let winners = winners_beside(alloc, &own, files.dfa)?;
    if !winners.whole {
        return Ok(Hiding::Earlier);
    }
    if winners.rules.is_empty() {
        return Ok(Hiding::EmptyAlone);
    }
    let mut found = Vec::new(alloc);
    for rule in &winners.rules {
        found.push(lines.of_rule(*rule))?;
    }
    found.sort()?;
    Ok(Hiding::Lines(found))
}

/// The DFA of one rule alone; `None` if it is too large.
fn scanner_of(
    alloc: Global,
    files: &Analysis<'_>,
    rule: usize,
) -> Result<Option<Dfa>, OutOfMemory> {
    let Some(rules) = files.file.rules.get(rule..rule.saturating_add(1)) else {
        return Ok(None);
    };
    let limits = Limits::version_2();
    let conditions = files.file.conditions;
    let nfa = match positions(alloc, rules, &files.file.names, conditions, &limits) {
        Ok(nfa) => nfa,
        Err(PosFault::TooManyPositions) => return Ok(None),
        Err(PosFault::OutOfMemory) => return Err(OutOfMemory),
    };
    match subsets(
        alloc,
        &nfa,
        conditions,
        &limits.with_scanner_states(MOST as u32),
    ) {
        Ok(dfa) => Ok(Some(dfa)),
        Err(SubsetFault::TooManyStates) => Ok(None),
        Err(SubsetFault::OutOfMemory) => Err(OutOfMemory),
    }
}

/// The rules that win for the strings of a rule, given its own DFA and that of all rules.
fn winners_beside(alloc: Global, own: &Dfa, all: &Dfa) -> Result<Winners, OutOfMemory> {
    let mut winners = Winners {
        rules: IndexSet::new(alloc),
        whole: true,
    };
    let mut pairs: IndexSet<(u32, u32)> = IndexSet::new(alloc);
    for condition in 0..u32::try_from(own.starts() / 2).unwrap_or(0) {
        for line in [false, true] {
            if let (Some(own), Some(all)) = (
                own.start(condition, line),
                all.start(condition, line),
            ) {
                pairs.insert((own, all))?;
            }
        }
    }
    for place in 0..MOST {
        let Some(pair) = pairs.get_index(place).copied() else {
            return Ok(winners);
        };
        winners.look_behind(own, all, pair, &mut pairs)?;
    }
    winners.whole = pairs.len() <= MOST;
    Ok(winners)
}

impl Winners {
    /// Visits the successors of two states by a byte.
    fn look_behind(
        &mut self,
        own: &Dfa,
        all: &Dfa,
        (from, beside): (u32, u32),
        pairs: &mut IndexSet<(u32, u32)>,
    ) -> Result<(), OutOfMemory> {
        if (from as usize) >= own.len() || (beside as usize) >= all.len() {
            return Ok(());
        }
        for byte in 0..=255u8 {
            if let (Some(to), Some(along)) = (own.step(from, byte), all.step(beside, byte)) {
                if let (Some(_), Some(winner)) = (own.rule(to), all.rule(along)) {
                    self.rules.insert(winner.0 as usize)?;
                }
                pairs.insert((to, along))?;
            }
        }
        Ok(())
    }
}
