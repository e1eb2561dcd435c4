/// The versions of the table file. They differ in the width of their numbers, and so in the greatest sizes.
#[derive(Clone, Copy, Debug, PartialEq, Eq)]
pub enum Version {
    /// Version 1, with numbers of 16 bits.
    V1,
    /// Version 2, with numbers of 32 bits.
    V2,
}
