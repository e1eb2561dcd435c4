/// The location of a rule among the words of a file.
#[derive(Clone, Copy)]
pub(crate) struct Standing {
    /// The number of words left from the name of its left side on.
    pub(crate) left: usize,
    /// The number of words left from its body on.
    pub(crate) body: usize,
}
