ghost use Rattle.std.specs.Prelude.{◌≡◌, ◌≢◌, ◌<◌, ◌^◌, ◌++◌, ◌∷◌, [], ℕ, None, Some, length};
ghost use Rattle.std.specs.Prelude.{map, zip, IfOk, MatchOption};
ghost use Rattle.ly_lexread.specs.Conditions.{Condition, condition_of, inclusive, initial};
ghost use Rattle.ly_lexread.specs.LexText.{conditions_in, declared_at, said_of};

use crate::file::StartCondition;
use indexmap::IndexSet;
use std::alloc::{AllocError, Global};
use std::marker::Model;

/// The start conditions of a lex file: the initial one, then the declared ones. A condition's number is its index.
#[derive(Drop)]
pub(crate) struct Conditions {
    /// The names.
    names: IndexSet<Vec<u8>>,
    /// Whether each is exclusive.
    exclusive: Vec<bool>,
    /// For each condition the number of bytes of the file from its name's declaration on; 0 for the initial one.
    lefts: Vec<usize>,
}

impl Model for Conditions {
    ghost use Rattle.std.specs.Prelude.{◌≡◌, ◌<◌, ◌^◌, List, map, zip, length};
    ghost use Rattle.std.specs.Coded.{coded_list, coded_ℕ, coded_bool, coded×};
    ghost use Rattle.ly_lexread.specs.Conditions.{Condition};

    ghost Value = { List Condition };

    ghost coded = { coded_list (coded× (coded_list coded_ℕ) (coded× coded_bool coded_ℕ)) };

    ghost view = { λ c. zip (map (λ k. k.items) c.names.keys) (zip c.exclusive.items c.lefts.items) };

    ghost invariant = { λ c. (length c.names.keys ≡ length c.exclusive.items)
        × (length c.lefts.items ≡ length c.exclusive.items) × (length c.exclusive.items < 2 ^ 32) };
}

impl Conditions {
    /// Returns the initial condition alone.
    pub(crate) fn new(alloc: Global) -> Result<Self, AllocError>
        ensures { IfOk result (λ conditions. conditions ≡ initial ∷ []) }
    {
        let none = Conditions {
            names: IndexSet::new(alloc),
            exclusive: Vec::new(alloc),
            lefts: Vec::new(alloc),
        };
        none.with_condition(alloc, b"INITIAL", false, 0)
    }

    /// Adds a condition with a new name. `left` bytes of the file remain from its name on.
    pub(crate) fn with_condition(
        mut self,
        alloc: Global,
        name: &[u8],
        exclusive: bool,
        left: usize,
    ) -> Result<Self, AllocError>
        requires { condition_of self name.now ≡ None }
        ensures { IfOk result (λ conditions. conditions ≡ self ++ (name.now, (exclusive, left)) ∷ []) }
    {
        if self.exclusive.len() >= u32::MAX as usize {
            return Err(AllocError);
        }
        self.names.insert(Vec::from_slice(alloc, name)?)?;
        self.exclusive.push(exclusive)?;
        self.lefts.push(left)?;
        Ok(self)
    }

    /// The number of the condition with this name.
    pub(crate) fn find(&self, name: &[u8]) -> Option<u32>
        ensures { result ≡ condition_of self.now name.now }
    {
        let place = self.names.get_index_of(name)?;
        Some(place as u32)
    }

    /// The numbers of the inclusive conditions, ascending.
    pub(crate) fn inclusive(&self, alloc: Global) -> Result<Vec<u32>, AllocError>
        ensures { IfOk result (λ numbers. numbers.items ≡ inclusive self.now) }
    {
        let mut numbers = Vec::new(alloc);
        for (place, exclusive) in self.exclusive.iter().enumerate() {
            if !*exclusive {
                numbers.push(place as u32)?;
            }
        }
        Ok(numbers)
    }

    /// Returns the conditions of a file of `whole` bytes, in the order of their numbers.
    pub(crate) fn named(
        &self,
        alloc: Global,
        whole: usize,
    ) -> Result<Vec<StartCondition>, AllocError>
        ensures { IfOk result (λ all. map said_of all.items ≡ conditions_in whole self.now) }
    {
        named(alloc, &self.names, &self.lefts, whole)
    }

    /// The number of conditions.
    pub(crate) fn count(&self) -> u32
        ensures { result ≡ length self.now }
    {
        self.exclusive.len() as u32
    }
}

/// Returns the conditions with these names. For each name it is given how many bytes of the file remain from it on.
fn named(
    alloc: Global,
    names: &IndexSet<Vec<u8>>,
    lefts: &[usize],
    whole: usize,
) -> Result<Vec<StartCondition>, AllocError>
    requires { length names.now.keys ≡ length lefts.now }
    ensures { IfOk result (λ all. map said_of all.items
        ≡ zip (map (λ k. k.items) names.now.keys) (map (declared_at whole) lefts.now)) }
{
    let mut all = Vec::new(alloc);
    for (place, left) in lefts.iter().enumerate() {
        let name = names.get_index(place).unwrap();
        all.push(StartCondition {
            name: Vec::from_slice(alloc, name)?,
            offset: declared_at(whole, *left),
        })?;
    }
    Ok(all)
}

/// The offset of a name from which `left` of `whole` bytes remain; `None` if no bytes remain.
fn declared_at(whole: usize, left: usize) -> Option<usize>
    ensures { result ≡ declared_at whole left }
{
    if left == 0 {
        None
    } else {
        Some(whole.saturating_sub(left))
    }
}
