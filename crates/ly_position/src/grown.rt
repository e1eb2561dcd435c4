ghost use Rattle.std.specs.Prelude.{◌≡◌, ℕ, ◌<◌, ◌≤◌, [], ◌∷◌, ◌++◌, length, slice_index_or, IfOk, IsTrue, OnOk};
ghost use Rattle.ly_position.specs.Private.Grown.{IsExtendedAt};

use std::alloc::{AllocError, Global};
use std::marker::Model;

/// A list that extends an earlier list by one entry.
#[derive(Clone, Copy)]
pub struct Extended {
    /// The number of the earlier list.
    pub before: usize,
    /// The entry at the end.
    pub last: usize,
}

/// The empty list and lists that extend one another, each with a number. Extending a list twice in a row by the same
/// entry gives the same list.
#[derive(Drop)]
pub struct Grown {
    /// All lists but the empty one, which has number 0.
    extended: Vec<Extended>,
    /// For each list the number of its latest extension.
    latest: Vec<usize>,
}

impl Model for Grown {
    ghost use Rattle.std.specs.Prelude.{ℕ, List, ◌<◌, length};
    ghost use Rattle.std.specs.Coded.{coded_list, coded_ℕ};
    ghost use Rattle.ly_position.specs.Private.Grown.{grown, AreExtended};

    ghost Value = { List (List ℕ) };

    ghost coded = { coded_list (coded_list coded_ℕ) };

    ghost view = { λ g. grown g.extended.items };

    ghost invariant = { λ g. AreExtended 1 g.extended.items × (length g.extended.items < length g.latest.items) };
}

impl Grown {
    /// Returns the empty list alone.
    pub(crate) fn new(alloc: Global) -> Result<Self, AllocError>
        ensures { IfOk result (λ g. g ≡ [] ∷ []) }
    {
        let mut latest = Vec::new(alloc);
        latest.push(0)?;
        Ok(Grown {
            extended: Vec::new(alloc),
            latest,
        })
    }

    /// The number of lists.
    pub(crate) fn len(&self) -> usize
        ensures { result ≡ length self.now }
    {
        self.extended.len() + 1
    }

    /// Returns the number of a list extended by an entry.
    pub(crate) fn longer(&mut self, list: usize, entry: usize) -> Result<usize, AllocError>
        requires { list < length self.old }
        ensures more { length self.old ≤ length self.new }
        ensures kept { (k : ℕ) → k < length self.old → slice_index_or self.new k [] ≡ slice_index_or self.old k [] }
        ensures number { IfOk result (λ n. n < length self.new) }
        ensures list { IfOk result (λ n. slice_index_or self.new n [] ≡ slice_index_or self.old list [] ++ entry ∷ []) }
    {
        let known = self.latest[list];
        if is_extended(&self.extended, known, list, entry) {
            return Ok(known);
        }
        self.latest.push(0)?;
        self.extended.push(Extended {
            before: list,
            last: entry,
        })?;
        let number = self.extended.len();
        self.latest[list] = number;
        Ok(number)
    }

    /// Copies the list with this number into `into`, replacing its contents.
    pub(crate) fn read(&self, number: usize, into: &mut Vec<usize>) -> Result<(), AllocError>
        requires { number < length self.now }
        ensures { OnOk result (into.new.items ≡ slice_index_or self.now number []) }
    {
        into.clear();
        let mut left = number;
        while left > 0 {
            let list = self.extended[left - 1];
            into.push(list.last)?;
            left = list.before;
        }
        into.reverse();
        Ok(())
    }
}

/// Whether the list with number `number` is that of `before` extended by `entry`.
fn is_extended(extended: &[Extended], number: usize, before: usize, entry: usize) -> bool
    ensures { IsTrue result → IsExtendedAt extended.now number before entry }
{
    if number == 0 || number > extended.len() {
        return false;
    }
    let list = extended[number - 1];
    list.before == before && list.last == entry
}
