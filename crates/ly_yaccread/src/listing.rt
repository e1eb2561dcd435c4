/// The syntax of a list of symbols.
#[derive(Clone, Copy)]
pub(crate) enum Listing {
    /// Symbols only.
    Plain,
    /// Each symbol may be followed by a number, which is ignored.
    Numbered,
}
