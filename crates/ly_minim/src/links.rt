ghost use Rattle.std.specs.Prelude.{◌≡◌, ℕ, ◌<◌, ◌++◌, [], ◌∷◌, length, set, IfOk, IfSome, None, OnOk, Some};
ghost use Rattle.ly_subset.specs.Automaton.{entry_at};

use ly_base::Entry;
use std::alloc::{AllocError, Global};
use std::marker::Model;

/// A list of links, each to a number or to none. A link takes four bytes, since there is one for each state and class.
#[derive(Drop)]
pub(crate) struct Links {
    /// The links.
    entries: Vec<Entry>,
}

impl Model for Links {
    ghost use Rattle.std.specs.Prelude.{ℕ, List, map, Option};
    ghost use Rattle.ly_base.specs.Entry.{target_of};

    ghost Value = { List (Option ℕ) };

    ghost view = { λ l. map target_of l.entries.items };
}

impl Links {
    /// Returns no links.
    pub(crate) fn new(alloc: Global) -> Links
        ensures { result ≡ [] }
    {
        Links {
            entries: Vec::new(alloc),
        }
    }

    /// Returns this many links, each to none.
    pub(crate) fn none(alloc: Global, count: usize) -> Result<Links, AllocError>
        ensures count { IfOk result (λ l. length l ≡ count) }
        ensures none { IfOk result (λ l. (k : ℕ) → entry_at l k ≡ None) }
    {
        Ok(Links {
            entries: vec![in alloc; Entry::none(); count]?,
        })
    }

    /// The link at an index.
    pub(crate) fn get(&self, place: usize) -> Option<u32>
        requires { place < length self.now }
        ensures { result ≡ entry_at self.now place }
    {
        self.entries[place].state()
    }

    /// Sets the link at an index.
    pub(crate) fn set(&mut self, place: usize, number: u32)
        requires place { place < length self.old }
        requires number { number < u32.MAX }
        ensures { self.new ≡ set self.old place (Some number) }
    {
        self.entries[place] = Entry::to(number);
    }

    /// Appends a link.
    pub(crate) fn push(&mut self, link: Option<u32>) -> Result<(), AllocError>
        requires { IfSome link (λ n. n < u32.MAX) }
        ensures { OnOk result (self.new ≡ self.old ++ link ∷ []) }
    {
        let entry = match link {
            Some(number) => Entry::to(number),
            None => Entry::none(),
        };
        self.entries.push(entry)?;
        Ok(())
    }
}
