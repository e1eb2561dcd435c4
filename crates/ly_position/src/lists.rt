ghost use Rattle.std.specs.Prelude.{◌≡◌, ◌<◌, ◌≤◌, ◌-◌, [], ◌∷◌, ◌++◌, length, take, drop, OnOk, OnErr, slice_index_or};
ghost use Rattle.ly_position.specs.Lists.{start_after};

use std::alloc::{AllocError, Global};
use std::marker::Model;

/// A list of lists of numbers, stored one after another in one block.
#[derive(Drop)]
pub struct Lists {
    /// The members of all lists.
    members: Vec<u32>,
    /// The end of each list among the members.
    ends: Vec<usize>,
}

impl Model for Lists {
    ghost use Rattle.std.specs.Prelude.{ℕ, List};
    ghost use Rattle.std.specs.Coded.{coded_list, coded_ℕ};

    ghost Value = { List (List ℕ) };

    ghost coded = { coded_list (coded_list coded_ℕ) };

    ghost use Rattle.ly_position.specs.Lists.{lists_from, EndsFit};
    ghost use Rattle.std.specs.Prelude.{length};

    ghost view = { λ l. lists_from 0 l.ends.items l.members.items };

    ghost invariant = { λ l. EndsFit 0 l.ends.items (length l.members.items) };
}

impl Lists {
    /// Returns no lists.
    pub fn new(alloc: Global) -> Self
        ensures { result ≡ [] }
    {
        Lists {
            members: Vec::new(alloc),
            ends: Vec::new(alloc),
        }
    }

    /// The number of lists.
    pub fn len(&self) -> usize
        ensures { result ≡ length self.now }
    {
        self.ends.len()
    }

    /// Adds a list. If the allocation fails, the lists are unchanged.
    pub fn push(&mut self, list: &[u32]) -> Result<(), AllocError>
        ensures ok { OnOk result (self.new ≡ self.old ++ list.now ∷ []) }
        ensures err { OnErr result (self.new ≡ self.old) }
    {
        let start = self.members.len();
        self.members.extend_from_slice(list)?;
        let end = self.members.len();
        match self.ends.push(end) {
            Ok(()) => Ok(()),
            Err(refused) => {
                self.members.truncate(start);
                Err(AllocError::from(refused))
            }
        }
    }

    /// The list with this number.
    pub fn list(&self, number: usize) -> &[u32]
        requires { number < length self.now }
        ensures { result.now ≡ slice_index_or self.now number [] }
    {
        let start = start_of(&self.ends, number);
        part(&self.members, start, self.ends[number])
    }
}

fn part(members: &[u32], start: usize, end: usize) -> &[u32]
    requires rises { start ≤ end }
    requires within { end ≤ length members.now }
    ensures { result.now ≡ take (end - start) (drop start members.now) }
{
    &members[start..end]
}

/// The start of a list, which is the end of the one before it.
fn start_of(ends: &[usize], number: usize) -> usize
    requires { number < length ends.now }
    ensures { result ≡ start_after 0 ends.now number }
{
    if number == 0 { 0 } else { ends[number - 1] }
}
