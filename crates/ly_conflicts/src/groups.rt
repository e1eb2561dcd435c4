//! Groups the conflicts: a group has conflicts of one state that differ only in the terminal and whose searches for
//! counterexamples had the same result.
ghost use Rattle.std.specs.Prelude.{◌≡◌, ◌<◌, ◌+◌, ◌++◌, [], ◌∷◌, Contains, IfOk, OnOk, length};
ghost use Rattle.ly_resolve.specs.Resolved.{Resolved};
ghost use Rattle.ly_resolve.specs.Values.{conflict_from, IsInside};
ghost use Rattle.ly_conflicts.specs.Groups.{AreGroups};
ghost use Rattle.ly_conflicts.specs.Private.Grouping.{AreGrouped, IsAt, IsJoinedBy, IsOpenedBy, IsSought};

use crate::common::{Common, Key, Keys};
use indexmap::IndexSet;
use ly_base::OutOfMemory;
use ly_counterexamples::{Budget, Example, Examples};
use ly_resolve::Conflict;
use std::alloc::Global;

/// The greatest number of demands that a search for a counterexample visits.
pub(crate) const BOUND: usize = 20_000;

/// The greatest number of conflicts for which a counterexample is searched.
const SEARCHES: usize = 2_000;

/// After this many conflicts with more demands, no more counterexamples are searched.
const ENDLESS: usize = 40;

/// The greatest number of groups that are printed.
pub(crate) const TOLD: usize = 100;

/// A group of conflicts that are printed as one.
#[derive(Drop)]
pub(crate) struct Group {
    /// The indices of the conflicts, ascending.
    pub(crate) conflicts: Vec<usize>,
    /// The counterexample of the first conflict; `None` if none was searched.
    pub(crate) example: Option<Example>,
}

/// The groups so far, with their keys.
#[derive(Drop)]
pub(crate) struct Groups {
    /// The groups.
    pub(crate) list: Vec<Group>,
    /// The keys of the groups, at the same indices.
    pub(crate) keys: Keys,
    /// The shared properties of the conflicts in the groups that are printed, whatever the result of their searches.
    pub(crate) told: IndexSet<Common>,
}

/// The number of searches that are left.
#[derive(Clone, Copy)]
struct Allowed {
    /// The number of conflicts that may still be searched.
    searches: usize,
    /// The number of them that may still exceed the limit of demands.
    endless: usize,
}

/// Puts all conflicts into groups, in the order of their first conflicts. Searches for counterexamples as long as there
/// is budget.
pub(crate) fn groups_of(
    alloc: Global,
    examples: &Examples<'_>,
    budget: &mut Budget,
) -> Result<Vec<Group>, OutOfMemory>
    ensures { IfOk result (λ groups. AreGroups examples.now groups.items) }
{
    let mut allowed = Allowed {
        searches: SEARCHES,
        endless: ENDLESS,
    };
    let mut groups = Groups::new(alloc);
    let resolved = examples.resolved();
    let _states = resolved.lr0().states();
    let conflicts = resolved.conflicts();
    let mut run = 0;
    for index in 0..conflicts.len() {
        let conflict = conflicts.get_near(index, &mut run).unwrap();
        let example = if groups.asks_for(&conflict) {
            example_of(alloc, examples, &conflict, &mut allowed, budget)?
        } else {
            None
        };
        groups.add(alloc, &conflict, index, example)?;
    }
    let Groups { list, .. } = groups;
    Ok(list)
}

/// The counterexample of a conflict, if it may still be searched.
fn example_of(
    alloc: Global,
    examples: &Examples<'_>,
    conflict: &Conflict,
    allowed: &mut Allowed,
    budget: &mut Budget,
) -> Result<Option<Example>, OutOfMemory>
    requires inside { IsInside examples.now.automaton conflict.now }
    requires conflict { Contains examples.now.conflicts (conflict_from examples.now.automaton conflict.now) }
    ensures { IfOk result (IsSought examples.now conflict.now) }
{
    if allowed.searches == 0 || allowed.endless == 0 || budget.is_over() {
        return Ok(None);
    }
    allowed.searches = allowed.searches.saturating_sub(1);
    let example = examples.of(alloc, conflict, BOUND, budget)?;
    if let Example::Unknown = example {
        allowed.endless = allowed.endless.saturating_sub(1);
    }
    Ok(Some(example))
}

impl Groups {
    /// Returns no groups.
    fn new(alloc: Global) -> Groups
        ensures keys { result.keys ≡ [] }
        ensures list { result.list.items ≡ [] }
    {
        Groups {
            list: Vec::new(alloc),
            keys: Keys::new(alloc),
            told: IndexSet::new(alloc),
        }
    }

    /// Whether to search for a counterexample of a conflict: it is in a group that is printed, or may be. Shift/reduce
    /// conflicts that differ only in the terminal all have counterexamples, so only one of them is searched.
    fn asks_for(&self, conflict: &Conflict) -> bool {
        let key = Key::of(conflict, &None);
        if key.common.is_shift && self.keys.find(key).is_some() {
            return false;
        }
        self.list.len() < TOLD || self.told.contains(&key.common)
    }

    /// Adds the conflict with this index to its group, or as a new group.
    fn add(
        &mut self,
        alloc: Global,
        conflict: &Conflict,
        index: usize,
        example: Option<Example>,
    ) -> Result<(), OutOfMemory>
        requires { length self.old.keys ≡ length self.old.list.items }
        ensures { OnOk result ((r : Resolved) → IsAt r index conflict.now → IsSought r conflict.now example
            → AreGrouped r index self.old → AreGrouped r (index + 1) self.new) }
    {
        let key = Key::of(conflict, &example);
        match self.keys.find(key) {
            Some(place) => self.join(place, index),
            None => self.open(alloc, key, index, example),
        }
    }

    /// Adds the conflict with this index to the group at an index.
    fn join(&mut self, place: usize, index: usize) -> Result<(), OutOfMemory>
        requires { place < length self.old.list.items }
        ensures list { OnOk result (IsJoinedBy place index self.old.list.items self.new.list.items) }
        ensures keys { self.new.keys ≡ self.old.keys }
    {
        self.list[place].conflicts.push(index)?;
        Ok(())
    }

    /// Adds a new group with the conflict with this index.
    fn open(
        &mut self,
        alloc: Global,
        key: Key,
        index: usize,
        example: Option<Example>,
    ) -> Result<(), OutOfMemory>
        requires { Contains self.old.keys key → ⊥ }
        ensures list { OnOk result (IsOpenedBy index example self.old.list.items self.new.list.items) }
        ensures keys { OnOk result (self.new.keys ≡ self.old.keys ++ key ∷ []) }
    {
        if self.list.len() < TOLD {
            self.told.insert(key.common)?;
        }
        let mut conflicts = Vec::new(alloc);
        conflicts.push(index)?;
        self.keys.push(key)?;
        self.list.push(Group { conflicts, example })?;
        Ok(())
    }
}
