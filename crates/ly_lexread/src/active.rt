ghost use Rattle.std.specs.Prelude.{[], ◌≡◌, ◌≤◌, ◌<◌, ℕ, List, length, IfOk, IfSome, MatchOption};
ghost use Rattle.std.specs.Rc.{rc_slice_items};
ghost use Rattle.ly_lexread.specs.Conditions.{inclusive};
ghost use Rattle.ly_lexread.specs.Rules.{ActiveBefore, ConditionBefore, Listed};

use crate::conditions::Conditions;
use ly_base::{Language, leading_name};
use ly_ere::Rule;
use std::alloc::{AllocError, Global};
use std::rc::RcSlice;

/// The lists of conditions that a rule can share with other rules.
#[derive(Clone, Copy)]
pub(crate) struct Shared<'s> {
    /// The list of a rule without `<..>`.
    pub(crate) inclusive: &'s RcSlice<u32>,
    /// The rules before it. If the last of them has the same list, the rule shares it.
    pub(crate) before: &'s [Rule],
}

/// Reads the conditions in which the rule of a line is active: those that `<..>` lists at the start, or else the
/// inclusive ones. Returns them and what follows. `None` if a list is malformed or names an undeclared condition.
pub(crate) fn read_active<'t>(
    alloc: Global,
    line: &'t [u8],
    conditions: &Conditions,
    shared: Shared<'_>,
) -> Result<Option<(RcSlice<u32>, &'t [u8])>, AllocError>
    requires { rc_slice_items shared.inclusive.now ≡ inclusive conditions.now }
    ensures { IfOk result (λ read. MatchOption read
        ((active rest : List ℕ) → ActiveBefore conditions.now line.now active rest → ⊥)
        (λ found. ActiveBefore conditions.now line.now (rc_slice_items found.0) found.1.now)) }
{
    let Some(list) = line.strip_prefix(b"<") else {
        return Ok(Some((shared.inclusive.clone()?, line)));
    };
    match read_list(alloc, list, conditions)? {
        Some((numbers, body)) => Ok(Some((shared.list(numbers)?, body))),
        None => Ok(None),
    }
}

impl Shared<'_> {
    /// Returns the list of the last rule if it has the same numbers, or else a new one.
    fn list(self, numbers: Vec<u32>) -> Result<RcSlice<u32>, AllocError>
        ensures { IfOk result (λ list. rc_slice_items list ≡ numbers.items) }
    {
        match self.before.last() {
            Some(rule) if rule.active.as_slice() == numbers.as_slice() => rule.active.clone(),
            _ => RcSlice::from_vec(numbers),
        }
    }
}

/// The rest of a rule's line from the first undeclared condition of its list on, or the whole line if the list is
/// malformed.
pub(crate) fn fault_in_list<'t>(line: &'t [u8], conditions: &Conditions) -> &'t [u8] {
    let mut left = line.strip_prefix(b"<").unwrap_or(line);
    while let Some((_number, behind)) = leading_condition(left, conditions) {
        match behind.strip_prefix(b",") {
            Some(more) => left = more,
            None => return line,
        }
    }
    match leading_name(left, Language::Lex) {
        Some(_) => left,
        None => line,
    }
}

/// Reads conditions separated by commas, up to the `>`. Returns what follows it.
fn read_list<'t>(
    alloc: Global,
    list: &'t [u8],
    conditions: &Conditions,
) -> Result<Option<(Vec<u32>, &'t [u8])>, AllocError>
    ensures { IfOk result (λ read. MatchOption read
        ((active rest : List ℕ) → Listed conditions.now [] list.now active rest → ⊥)
        (λ found. Listed conditions.now [] list.now found.0.items found.1.now)) }
{
    let mut numbers = Vec::new(alloc);
    let mut left = list;
    while let Some((number, behind)) = leading_condition(left, conditions) {
        numbers.push(number)?;
        if let Some(rest) = behind.strip_prefix(b">") {
            return Ok(Some((numbers, rest)));
        }
        let Some(more) = behind.strip_prefix(b",") else {
            return Ok(None);
        };
        left = more;
    }
    Ok(None)
}

/// Reads the condition at the start, a name or `0`. Returns its number and what follows it.
fn leading_condition<'t>(text: &'t [u8], conditions: &Conditions) -> Option<(u32, &'t [u8])>
    ensures these { MatchOption result
        ((n : ℕ) (rest : List ℕ) → ConditionBefore conditions.now text.now n rest → ⊥)
        (λ found. ConditionBefore conditions.now text.now found.0 found.1.now) }
    ensures within { IfSome result (λ found. length found.1.now < length text.now) }
{
    if let Some(rest) = text.strip_prefix(b"0") {
        return Some((0, rest));
    }
    let (name, rest) = leading_name(text, Language::Lex)?;
    Some((conditions.find(name)?, rest))
}
