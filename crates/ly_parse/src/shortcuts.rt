ghost use Rattle.std.specs.Prelude.{◌≡◌, IfSome};
ghost use Rattle.ly_pack.specs.Machine.{Machine as Tables};
ghost use Rattle.ly_pack.specs.Values.{action_from};
ghost use Rattle.ly_parse.specs.Private.Shortcuts.{AreShortcuts, IsFrom};

use crate::kept::Kept;
use crate::origin::Origin;
use crate::shortcut::Shortcut;
use ly_base::OutOfMemory;
use std::alloc::Global;
use std::marker::PhantomData;

/// The number of places for shortcuts: the range of `Numbers::place`.
const PLACES: usize = 32_768;
/// The number of shortcuts that aren't cached at first. A short text has hardly more, and then needs no memory for
/// them.
const FIRST: usize = 256;

/// The cached shortcuts, each at the place of its origin. A new one replaces the old one there.
#[derive(Drop)]
pub(crate) struct Shortcuts<O> {
    /// The places. Empty until the first shortcut is cached, which allocates all of them.
    places: Vec<Kept>,
    /// The number of uncached shortcuts so far.
    count: usize,
    /// The kind of their origins: situations, or landings.
    origins: PhantomData<O>,
}

impl<O: Origin> Shortcuts<O> {
    /// An empty cache.
    pub(crate) fn new(alloc: Global) -> Self
        ensures { (m : Tables) → AreShortcuts O.origin_of (O.leads m) result }
    {
        Shortcuts {
            places: Vec::new(alloc),
            count: 0,
            origins: PhantomData,
        }
    }

    /// The cached shortcut from an origin, if there is one.
    pub(crate) fn get(&self, from: O) -> Option<Shortcut<O>>
        ensures { (m : Tables) → AreShortcuts O.origin_of (O.leads m) self.now
            → IfSome result (λ s. IsFrom (O.leads m) from s) }
    {
        self.places.get(from.numbers().place())?.shortcut(from)
    }

    /// Caches a shortcut at its place, unless it is one of the first, or one of its numbers is above `u16::MAX`. Such a
    /// one is computed from the tables each time.
    pub(crate) fn keep(&mut self, shortcut: Shortcut<O>) -> Result<(), OutOfMemory>
        ensures { (m : Tables) → AreShortcuts O.origin_of (O.leads m) self.old
            → O.leads m shortcut.from shortcut.state.0 (action_from shortcut.action)
            → AreShortcuts O.origin_of (O.leads m) self.new }
    {
        let Some(kept) = Kept::new(shortcut) else {
            return Ok(());
        };
        if self.count < FIRST {
            self.count += 1;
            return Ok(());
        }
        if self.places.is_empty() {
            self.places.resize(PLACES, kept)?;
        }
        if let Some(there) = self.places.get_mut(shortcut.from.numbers().place()) {
            *there = kept;
        }
        Ok(())
    }
}
