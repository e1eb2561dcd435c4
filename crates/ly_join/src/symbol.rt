use ly_base::Sym;

/// A symbol of a grammar, numbered among the terminals or among the nonterminals. Terminals come before nonterminals.
#[derive(Clone, Copy, Debug, PartialEq, Eq, PartialOrd, Ord)]
pub enum Symbol {
    /// A terminal. Terminal 0 is the end of the text, `$end`. Terminal 1, `$undef`, represents every byte that the
    /// grammar doesn't name.
    Terminal(Sym),
    /// A nonterminal. The last is `$accept`, which no file can name.
    Nonterminal(Sym),
}
