use ly_base::Sym;
use ly_print::Front;

/// A token, as given to a parser.
#[derive(Drop)]
pub struct Token<'t> {
    /// Its terminal.
    pub terminal: Sym,
    /// Its offset in the text, counted from 0.
    pub at: u64,
    /// Its bytes.
    pub text: Front<'t>,
}
