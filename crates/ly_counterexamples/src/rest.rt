ghost use Rattle.std.specs.Prelude.{◌≡◌, ◌<◌, ◌↔◌, [], ◌∷◌, map, All, IsTrue};
ghost use Rattle.ly_base.specs.Trees.{Trees};
ghost use Rattle.ly_join.specs.Grammar.{symbol_of};
ghost use Rattle.ly_grammar.specs.Derivations.{AreTrees, BeginsYield, IsNullable};
ghost use Rattle.ly_relate.specs.Private.Walks.{HasNumberTo};

use ly_base::Sym;
use ly_grammar::Reduced;
use ly_join::Symbol;

/// Whether a terminal begins a string that symbols yield.
pub(crate) fn begins(reduced: &Reduced<'_>, symbols: &[Symbol], terminal: Sym) -> bool
    requires terminal { terminal.0 < reduced.now.grammar.terminals }
    requires within { All (HasNumberTo reduced.now.grammar.accept) (map symbol_of symbols.now) }
    requires trees { (ts : Trees) × AreTrees reduced.now.grammar (map symbol_of symbols.now) ts }
    ensures { IsTrue result ↔ BeginsYield reduced.now.grammar (map symbol_of symbols.now) terminal.0 }
{
    for symbol in symbols {
        if symbol_begins(reduced, *symbol, terminal) {
            return true;
        }
        if !passes(reduced, *symbol) {
            return false;
        }
    }
    false
}

/// Whether all of these symbols are nullable.
pub(crate) fn are_nullable(reduced: &Reduced<'_>, symbols: &[Symbol]) -> bool
    requires { All (HasNumberTo reduced.now.grammar.accept) (map symbol_of symbols.now) }
    ensures { IsTrue result ↔ IsNullable reduced.now.grammar (map symbol_of symbols.now) }
{
    for symbol in symbols {
        if !passes(reduced, *symbol) {
            return false;
        }
    }
    true
}

/// Whether a terminal begins a string that a symbol yields.
fn symbol_begins(reduced: &Reduced<'_>, symbol: Symbol, terminal: Sym) -> bool
    requires terminal { terminal.0 < reduced.now.grammar.terminals }
    requires within { HasNumberTo reduced.now.grammar.accept (symbol_of symbol) }
    ensures { IsTrue result ↔ BeginsYield reduced.now.grammar (symbol_of symbol ∷ []) terminal.0 }
{
    match symbol {
        Symbol::Terminal(number) => number == terminal,
        Symbol::Nonterminal(number) => reduced.begins(number, terminal),
    }
}

/// Whether a symbol is nullable.
fn passes(reduced: &Reduced<'_>, symbol: Symbol) -> bool
    requires { HasNumberTo reduced.now.grammar.accept (symbol_of symbol) }
    ensures { IsTrue result ↔ IsNullable reduced.now.grammar (symbol_of symbol ∷ []) }
{
    match symbol {
        Symbol::Terminal(_) => false,
        Symbol::Nonterminal(number) => reduced.is_nullable(number),
    }
}
