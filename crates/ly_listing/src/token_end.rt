/// How the tokens of a text end.
#[derive(Clone, Copy, Debug, PartialEq, Eq)]
pub enum TokenEnd {
    /// The whole text consists of tokens.
    Clean,
    /// No rule matches at this byte, counted from 0.
    Stuck {
        /// The byte's offset.
        byte: u64,
    },
}
