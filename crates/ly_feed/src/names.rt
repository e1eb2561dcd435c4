ghost use Rattle.std.specs.Prelude.{◌≡◌, map};
ghost use Rattle.ly_feed.specs.Private.Running.{words_of};
ghost use Rattle.ly_feed.specs.Vocabularies.{name_in, vocabulary_of};

use ly_base::Sym;
use ly_pack::TableRule;
use ly_tables::TableSet;

/// The names of a table set: those of terminals, and the constructors of rules.
#[derive(Clone, Copy)]
pub(crate) struct Names<'a> {
    /// The printed names of terminals.
    pub(crate) terminals: &'a [Vec<u8>],
    /// The rules without rule 0.
    pub(crate) rules: &'a [TableRule],
}

impl<'a> Names<'a> {
    /// The names of a table set.
    pub(crate) fn of(set: &'a TableSet) -> Names<'a>
        ensures { words_of result ≡ vocabulary_of set.now }
    {
        Names {
            terminals: set.terminals(),
            rules: set.rules(),
        }
    }
}

impl Names<'_> {
    /// The name of a terminal; empty if there is no such terminal.
    pub(crate) fn of_terminal(&self, terminal: Sym) -> &[u8]
        ensures { result.now ≡ name_in (map (λ name. name.items) self.now.terminals.now) terminal.0 }
    {
        match self.terminals.get(terminal.0 as usize) {
            Some(name) => name,
            None => b"",
        }
    }
}
