use ly_base::Sym;

/// The description of a token that a parser rejected.
#[derive(Debug, Drop)]
pub struct Refusal {
    /// Its number: the number of tokens up to it, including it.
    pub number: u64,
    /// The terminals that would have been read in its place, or accepted if it is the end, in rising order.
    pub expected: Vec<Sym>,
}
