ghost use Rattle.std.specs.Prelude.{◌≡◌, ℕ, ◌<◌, ◌≤◌, ◌↔◌, [], ◌∷◌, IsTrue, false, not, ◌||◌, ◌&&◌, nat_eq, nat_le};

/// A set of byte values, a bit for each.
#[derive(Clone, Copy, Debug, PartialEq, Eq)]
pub struct ByteSet {
    /// Byte b is bit b mod 64 of word b / 64.
    words: [u64; 4],
}

impl ByteSet {
    ghost use Rattle.ly_base.specs.ByteSet.{has, members};

    /// The set without members.
    pub fn new() -> Self
        ensures { (b : ℕ) → has result b ≡ false }
    {
        ByteSet { words: [0; 4] }
    }

    /// The set of one byte.
    pub fn of(byte: u8) -> Self
        ensures { members result ≡ byte ∷ [] }
    {
        let mut set = ByteSet::new();
        set.insert(byte);
        set
    }

    /// Whether the byte is a member.
    pub fn contains(&self, byte: u8) -> bool
        ensures { result ≡ has self.now byte }
    {
        self.words[usize::from(byte / 64)] >> (byte % 64) & 1 == 1
    }

    /// Adds a byte.
    pub fn insert(&mut self, byte: u8)
        ensures { (b : ℕ) → has self.new b ≡ (nat_eq b byte || has self.old b) }
    {
        self.words[usize::from(byte / 64)] |= 1 << (byte % 64);
    }

    /// Adds the bytes from `first` through `last`; none if `last` is less.
    pub fn insert_range(&mut self, first: u8, last: u8)
        ensures { (b : ℕ) → has self.new b ≡ (nat_le first b && nat_le b last || has self.old b) }
    {
        for byte in first..=last {
            self.insert(byte);
        }
    }

    /// The bytes that aren't members.
    pub fn complement(&self) -> Self
        ensures { (b : ℕ) → b < 256 → has result b ≡ not (has self.now b) }
    {
        let [a, b, c, d] = self.words;
        ByteSet {
            words: [!a, !b, !c, !d],
        }
    }

    /// Whether there is no member.
    pub fn is_empty(&self) -> bool
        ensures { IsTrue result ↔ (members self.now ≡ []) }
    {
        let [a, b, c, d] = self.words;
        a | b | c | d == 0
    }
}
