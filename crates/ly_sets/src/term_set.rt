ghost use Rattle.std.specs.Prelude.{◌≡◌, ◌<◌, IfOk};
ghost use Rattle.std.specs.FinSet as set;

use crate::bits::{contains_bit, count_bits, insert_bit, words_for};
use ly_base::{OutOfMemory, Sym};
use std::alloc::Global;
use std::marker::Model;

/// A set of symbols below a width. Only `new` allocates.
#[derive(Drop)]
pub struct TermSet {
    /// The bits of the members, in whole blocks of words.
    words: Vec<u64>,
    /// All members are below this.
    width: usize,
}

impl Model for TermSet {
    ghost use Rattle.std.specs.Prelude.{◌*◌, ◌≤◌, vec_len};
    ghost use Rattle.ly_sets.specs.TermSet.{Terms, terms_code};
    ghost use Rattle.ly_sets.specs.NumberSet.{set_of, AllBelow};

    ghost Value = { Terms };

    ghost coded = { terms_code };

    ghost view = { λ s. record { width = s.width; members = set_of s.words.items } };

    ghost invariant = { λ s. (s.width ≤ 64 * vec_len s.words) × AllBelow s.width (set_of s.words.items) };
}

impl TermSet {
    ghost use Rattle.ly_sets.specs.NumberSet.{AllBelow};

    /// Makes the empty set for symbols below `width`.
    pub fn new(alloc: Global, width: usize) -> Result<TermSet, OutOfMemory>
        ensures { IfOk result (λ s. s ≡ record { width = width; members = set.empty }) }
    {
        Ok(TermSet {
            words: vec![in alloc; 0u64; words_for(width)]?,
            width,
        })
    }

    /// The width. All members are below it.
    pub fn width(&self) -> usize
        ensures value { result ≡ self.now.width }
        ensures bounds { AllBelow result self.now.members }
    {
        self.width
    }

    /// Adds a symbol.
    pub fn insert(&mut self, symbol: Sym)
        requires { symbol.0 < self.old.width }
        ensures { self.new ≡ record self.old { members = set.insert self.old.members symbol.0 } }
    {
        let len = self.words.len();
        insert_bit(&mut self.words, 0, len, symbol.0 as usize);
    }

    /// Whether a symbol is a member.
    pub fn contains(&self, symbol: Sym) -> bool
        requires { symbol.0 < self.now.width }
        ensures { result ≡ set.contains self.now.members symbol.0 }
    {
        contains_bit(&self.words, 0, self.words.len(), symbol.0 as usize)
    }

    /// The number of members.
    pub fn count(&self) -> usize
        ensures { result ≡ set.len self.now.members }
    {
        count_bits(&self.words, 0, self.words.len(), self.width)
    }
}
