ghost use Rattle.std.specs.Prelude.{◌≡◌, ℕ, ◌*◌, ◌<◌, ◌≤◌, [], length, slice_index_or, IfOk, OnOk};
ghost use Rattle.ly_position.specs.Private.Grown.{AreTwins};
ghost use Rattle.ly_position.specs.Private.Starts.{PutsIn};

use crate::grown::Grown;
use std::alloc::{AllocError, Global};
use std::marker::Model;

/// Lists of the instructions where rules begin. Lists that grew in the same way are stored once.
#[derive(Drop)]
pub struct Roots {
    /// The current lists and their earlier versions.
    lists: Grown,
    /// For each list its number among those.
    numbers: Vec<usize>,
}

impl Model for Roots {
    ghost use Rattle.std.specs.Prelude.{ℕ, List, ◌<◌, length, All};
    ghost use Rattle.std.specs.Coded.{coded_list, coded_ℕ};
    ghost use Rattle.ly_position.specs.Private.Grown.{picked};

    ghost Value = { List (List ℕ) };

    ghost coded = { coded_list (coded_list coded_ℕ) };

    ghost view = { λ r. picked r.lists r.numbers.items };

    ghost invariant = { λ r. All (λ n. n < length r.lists) r.numbers.items };
}

impl Roots {
    /// Returns two empty lists for each condition.
    pub(crate) fn new(alloc: Global, conditions: u32) -> Result<Self, AllocError>
        ensures count { IfOk result (λ rs. length rs ≡ 2 * conditions) }
        ensures empty { IfOk result (λ rs. (k : ℕ) → slice_index_or rs k [] ≡ []) }
    {
        let lists = Grown::new(alloc)?;
        let numbers = vec![in alloc; 0; 2 * conditions as usize]?;
        Ok(Roots { lists, numbers })
    }

    /// Appends an entry to the list with this number.
    pub(crate) fn put(&mut self, number: usize, entry: usize) -> Result<(), AllocError>
        requires { number < length self.old }
        ensures { OnOk result (PutsIn self.old self.new number entry) }
    {
        let longer = self.lists.longer(self.numbers[number], entry)?;
        self.numbers[number] = longer;
        Ok(())
    }

    /// Copies the list with this number into `into`, replacing its contents.
    pub(crate) fn read(&self, number: usize, into: &mut Vec<usize>) -> Result<(), AllocError>
        requires { number < length self.now }
        ensures { OnOk result (into.new.items ≡ slice_index_or self.now number []) }
    {
        self.lists.read(self.numbers[number], into)
    }

    /// For each list the number of an earlier equal list that is stored for it, or its own number.
    pub(crate) fn twins(&self, alloc: Global) -> Result<Vec<usize>, AllocError>
        ensures { IfOk result (λ ts. AreTwins self.now ts.items) }
    {
        let mut latest = vec![in alloc; 0; self.lists.len()]?;
        let mut twins = Vec::new(alloc);
        for number in 0..self.numbers.len() {
            let list = self.numbers[number];
            let twin = self.twin(number, latest[list]);
            latest[list] = twin;
            twins.push(twin)?;
        }
        Ok(twins)
    }

    /// The list to store for the first of two lists: the second if it is an earlier one and equal, else the first.
    fn twin(&self, number: usize, other: usize) -> usize
        requires { number < length self.now }
        ensures less { result ≤ number }
        ensures same { slice_index_or self.now result [] ≡ slice_index_or self.now number [] }
    {
        if other < number && self.numbers[other] == self.numbers[number] {
            other
        } else {
            number
        }
    }
}
