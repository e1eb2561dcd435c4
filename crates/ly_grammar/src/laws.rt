ghost use Rattle.ly_grammar.specs.Laws.{KeepsSentences, KeepsTrees, UsefulIsLed, UsefulRulesAreOne};

/// Theorem: a rule is useful exactly if its body has trees and the start symbol leads to its left side by such rules
/// (Hopcroft and Ullman 1979, 4.4).
pub fn useful_is_led()
    ensures { UsefulIsLed }
{}

/// Theorem: removing the useless rules changes no tree of the start symbol, and so no sentence.
pub fn reduction_keeps_sentences()
    ensures trees { KeepsTrees }
    ensures sentences { KeepsSentences }
{}

/// Theorem: the useful rules of a grammar form exactly one grammar.
pub fn useful_rules_are_one()
    ensures { UsefulRulesAreOne }
{}
