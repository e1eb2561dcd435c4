/// The bounds of a search for repairs.
#[derive(Clone, Copy, Debug, PartialEq, Eq)]
pub struct Bounds {
    /// The greatest number of repairs that are listed.
    pub most: usize,
    /// The greatest number of places that are stored.
    pub places: usize,
    /// The greatest number of moves of all runs: reductions, and what ends the runs.
    pub moves: u64,
}

impl Bounds {
    /// The bounds that suit a person who waits: 20 repairs, 100,000 places, which take 11 MB, and 10,000,000 moves,
    /// which take a second.
    pub const USUAL: Bounds = Bounds {
        most: 20,
        places: 100_000,
        moves: 10_000_000,
    };
}
