ghost use Rattle.std.specs.Prelude.{◌≡◌, ℕ, ◌+◌, ◌*◌, ◌<◌, ◌↔◌, List, length, All, Contains, IfOk, OnOk};
ghost use Rattle.ly_ere.specs.Winner.{active_of};
ghost use Rattle.ly_position.specs.Private.Grown.{AreTwins};
ghost use Rattle.ly_position.specs.Private.Plain.{IsPlainPart};
ghost use Rattle.ly_position.specs.Private.Program.{steps_of};
ghost use Rattle.ly_position.specs.Private.Reach.{StaysInside};
ghost use Rattle.ly_position.specs.Private.Link.{IsLinkOf};
ghost use Rattle.ly_position.specs.Private.Targets.{AreEnteredLists, EntersTo, SameRoom};
ghost use Rattle.ly_position.specs.Target.{ForkWithin, TargetWithin};
ghost use Rattle.ly_position.specs.Private.Starts.{AddsIn, AddsInEach, AreBelow, AreRoots, StartsAt};
ghost use Rattle.ly_position.specs.Private.Starts.{StaysWithin};

use crate::link::Linked;
use crate::nfa::{Fork, Target};
use crate::program::Program;
use crate::roots::Roots;
use crate::set::PositionSet;
use crate::shared_lists::SharedLists;
use ly_ere::Rule;
use std::alloc::{AllocError, Global};
use std::rc::RcSlice;

/// Computes the start lists: for each condition the list within a line, then that at the start of a line.
pub fn starts(
    alloc: Global,
    rules: &[Rule],
    conditions: u32,
    program: &Program,
    linked: &Linked,
) -> Result<SharedLists, AllocError>
    requires closed { StaysInside (steps_of program.now.instructions.items) }
    requires linked { IsLinkOf (steps_of program.now.instructions.items) linked.now.targets.items
        linked.now.slots.items linked.now.forks.items }
    requires within { All (IsPlainPart (length program.now.instructions.items))
        program.now.entries.items }
    requires count { length program.now.entries.items ≡ length rules.now }
    ensures { IfOk result (StartsAt (steps_of program.now.instructions.items) rules.now
        program.now.entries.items conditions) }
{
    let roots = roots(alloc, rules, conditions, program)?;
    let twins = roots.twins(alloc)?;
    followed(alloc, &roots, &twins, linked)
}

/// For each list of instructions the positions that these reach through forks alone. A list that equals an earlier one
/// isn't followed again.
fn followed(
    alloc: Global,
    roots: &Roots,
    twins: &[usize],
    linked: &Linked,
) -> Result<SharedLists, AllocError>
    requires twins { AreTwins roots.now twins.now }
    requires within { All (All (λ p. p < length linked.now.targets.items)) roots.now }
    requires targets { All (TargetWithin (length linked.now.slots.items) (length linked.now.forks.items))
        linked.now.targets.items }
    requires forks { All (ForkWithin (length linked.now.slots.items) (length linked.now.forks.items))
        linked.now.forks.items }
    ensures { IfOk result (AreEnteredLists linked.now.targets.items linked.now.forks.items roots.now) }
{
    let mut set = PositionSet::new(alloc, linked.slots.len(), linked.forks.len())?;
    let mut list = Vec::new(alloc);
    let mut lists = SharedLists::new(alloc);
    for number in 0..twins.len() {
        if twins[number] < number {
            lists.push_again(twins[number])?;
        } else {
            roots.read(number, &mut list)?;
            fill_from(&mut set, &list, &linked.targets, &linked.forks);
            lists.push(set.members())?;
        }
    }
    Ok(lists)
}

/// Sets `set` to the positions that some instructions reach through forks alone.
fn fill_from(set: &mut PositionSet, roots: &[usize], targets: &[Target], forks: &[Fork])
    requires forks { All (ForkWithin set.old.positions.below set.old.forks.below) forks.now }
    requires targets { All (TargetWithin set.old.positions.below set.old.forks.below) targets.now }
    requires roots { All (λ p. p < length targets.now) roots.now }
    requires room { set.old.forks.below ≡ length forks.now }
    ensures room { SameRoom set.old set.new }
    ensures members { (q : ℕ) → Contains set.new.positions.members q
        ↔ EntersTo targets.now forks.now roots.now q }
{
    set.clear();
    for root in roots {
        set.put(targets[*root]);
    }
    set.follow(forks);
}

/// For each start list the instructions where its rules begin.
fn roots(
    alloc: Global,
    rules: &[Rule],
    conditions: u32,
    program: &Program,
) -> Result<Roots, AllocError>
    requires within { All (IsPlainPart (length program.now.instructions.items))
        program.now.entries.items }
    requires count { length program.now.entries.items ≡ length rules.now }
    ensures { IfOk result (λ rs. (numbers : List ℕ) × AreBelow (length rules.now) numbers
        × AreRoots rules.now program.now.entries.items numbers conditions (length program.now.instructions.items) rs) }
{
    let order = common_first(alloc, rules)?;
    let mut roots = Roots::new(alloc, conditions)?;
    for number in &order {
        if let Some(entry) = program.entries[*number] {
            add_rule(&mut roots, &rules[*number], conditions, entry)?;
        }
    }
    Ok(roots)
}

/// The numbers of all rules, those with the most common list of conditions first. If these are the rules without
/// `<..>`, the lists of most conditions stay equal while they are added, and the entries added after them are bounded
/// by the length of the lex file.
fn common_first(alloc: Global, rules: &[Rule]) -> Result<Vec<usize>, AllocError>
    ensures { IfOk result (λ numbers. AreBelow (length rules.now) numbers.items) }
{
    let common = common_list(rules);
    let mut numbers = Vec::new(alloc);
    let mut others = Vec::new(alloc);
    for (number, rule) in rules.iter().enumerate() {
        if common.is_some_and(|list| is_same(&rule.active, list)) {
            numbers.push(number)?;
        } else {
            others.push(number)?;
        }
    }
    numbers.extend_from_slice(&others)?;
    Ok(numbers)
}

/// The list of conditions that makes up more than half of the total length of the rules' lists, if there is one. It is
/// found by majority vote, weighted by length (Boyer and Moore 1991).
fn common_list(rules: &[Rule]) -> Option<&RcSlice<u32>> {
    let mut common: Option<&RcSlice<u32>> = None;
    let mut left = 0;
    for rule in rules {
        let length = rule.active.len();
        if common.is_some_and(|list| is_same(&rule.active, list)) {
            left = length.saturating_add(left);
        } else if length <= left {
            left -= length;
        } else {
            common = Some(&rule.active);
            left = length - left;
        }
    }
    common
}

/// Whether two lists of conditions are equal. Shared lists aren't read.
fn is_same(one: &RcSlice<u32>, other: &RcSlice<u32>) -> bool {
    RcSlice::ptr_eq(one, other) || one.as_slice() == other.as_slice()
}

/// Adds the start of a rule to the lists of its conditions.
fn add_rule(roots: &mut Roots, rule: &Rule, conditions: u32, entry: usize) -> Result<(), AllocError>
    requires { length roots.old ≡ 2 * conditions }
    ensures count { OnOk result (length roots.new ≡ length roots.old) }
    ensures within { OnOk result (StaysWithin roots.old roots.new entry) }
    ensures added { OnOk result (AddsInEach roots.old
        roots.new conditions (active_of rule.now) rule.now.pattern.line_start entry) }
{
    for condition in rule.active.as_slice() {
        if *condition < conditions {
            add_root(roots, *condition, rule.pattern.line_start, entry)?;
        }
    }
    Ok(())
}

/// Adds the start of a rule to the lists of a condition.
fn add_root(
    roots: &mut Roots,
    condition: u32,
    line_start: bool,
    entry: usize,
) -> Result<(), AllocError>
    requires { 2 * condition + 1 < length roots.old }
    ensures count { OnOk result (length roots.new ≡ length roots.old) }
    ensures within { OnOk result (StaysWithin roots.old roots.new entry) }
    ensures added { OnOk result (AddsIn roots.old roots.new condition
        line_start entry) }
{
    let inside = 2 * condition as usize;
    if line_start {
        return roots.put(inside + 1, entry);
    }
    roots.put(inside, entry)?;
    roots.put(inside + 1, entry)
}
