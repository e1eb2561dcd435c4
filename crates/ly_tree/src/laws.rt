ghost use Rattle.ly_tree.specs.JsonLaws.{IsOfNames, SaysOneTree};
ghost use Rattle.ly_tree.specs.TermLaws.{StandsForOne};

/// Theorem: a reference represents exactly one term.
pub fn a_reference_stands_for_one()
    ensures { StandsForOne }
{}

/// Theorem: the JSON text of a term is that of its names. Whatever follows it, it is the text of no others.
pub fn a_json_text_says_one_tree()
    ensures of_names { IsOfNames }
    ensures one { SaysOneTree }
{}
