ghost use Rattle.std.specs.Prelude.{◌≡◌, ℕ};
ghost use Rattle.ly_pack.specs.Machine.{Machine, TableAction};
ghost use Rattle.ly_parse.specs.declared.origin.Numbers.{Numbers as AllNumbers};

/// The origin of a shortcut: everything that it depends on, except the tables.
pub(crate) trait Origin: Copy {
    /// Whether the tables lead from here to a state with this action.
    ghost leads: { Machine → Self → ℕ → TableAction → Type 0 };

    /// The origin with these numbers.
    ghost origin_of: { AllNumbers → Self };

    /// Its numbers, which no other origin of its kind has.
    fn numbers(self) -> Numbers
        ensures { origin_of result ≡ self };
}

/// The numbers of an origin.
#[derive(Clone, Copy)]
pub(crate) struct Numbers {
    /// The number of a state.
    pub(crate) below: u32,
    /// The number of what is above it.
    pub(crate) above: u32,
    /// The number of the next terminal.
    pub(crate) terminal: u32,
}

impl Numbers {
    /// The index of a shortcut from there in a table of 2^15 places (multiplicative hashing, Knuth 1973, 6.4). Those
    /// with the same states are adjacent, by their terminals. Terminals past 2^15 may have no place.
    pub(crate) fn place(self) -> usize {
        let below = self.below.wrapping_mul(0x9e37_79b1);
        let above = self.above.wrapping_mul(0x85eb_ca77);
        ((below ^ above) >> 17) as usize ^ self.terminal as usize
    }
}
