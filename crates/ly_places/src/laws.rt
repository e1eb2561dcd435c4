ghost use Rattle.ly_places.specs.PlacedJsonLaws.{IsOfNamedPlaces, SaysOnePlacedTree};
ghost use Rattle.ly_places.specs.PlacedLaws.{PartsAreNested, PlacedTreesAreNested, PlacedTreesAreOfVerdicts};
ghost use Rattle.ly_places.specs.PlacedLaws.{PlacesAreForgotten};
ghost use Rattle.ly_places.specs.TokenAnswer.{SaysTheSameOfItsTokens};

/// Theorem: without its spans, a placed term is what the rules build from the derivation.
pub fn places_are_forgotten()
    ensures { PlacesAreForgotten }
{}

/// Theorem: if tokens follow one another, the spans of a placed term's parts are within those of their nodes.
pub fn parts_are_nested()
    ensures { PartsAreNested }
{}

/// Theorem: in the tree of a text, the span of each part is within that of its node, and without the spans the tree is
/// the text's term.
pub fn placed_trees_are_of_texts()
    ensures nested { PlacedTreesAreNested }
    ensures forgotten { PlacedTreesAreOfVerdicts }
{}

/// Theorem: the JSON text of a placed term is that of its names and of the locations where its parts begin and end.
/// Whatever follows it, it is the text of no others.
pub fn a_placed_json_text_says_one_tree()
    ensures of_names { IsOfNamedPlaces }
    ensures one { SaysOnePlacedTree }
{}

/// Theorem: the verdict of a set's parser on the tokens that the set's scanner finds in a text is the set's verdict on
/// the text.
pub fn tokens_say_what_their_text_says()
    ensures { SaysTheSameOfItsTokens }
{}
