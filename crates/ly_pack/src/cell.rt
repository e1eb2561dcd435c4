/// An entry of a row, with its column.
#[derive(Clone, Copy, Debug, PartialEq, Eq)]
pub struct Cell<E> {
    /// The column.
    pub column: u32,
    /// The entry.
    pub entry: E,
}
