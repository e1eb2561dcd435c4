use ly_base::Sym;

/// The terminals for which runs are computed.
#[derive(Clone, Copy)]
pub(crate) enum Tokens {
    /// All terminals together.
    All,
    /// One terminal.
    One(Sym),
}
