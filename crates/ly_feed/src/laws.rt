ghost use Rattle.ly_feed.specs.Laws.{BeginningSaysIt, DecidedChangesNothing, HasOneVerdict, HasSomeVerdict};

use ly_parse::a_token_is_fed_in_one_way;

/// Theorem: a table set has at most one verdict on a text.
pub fn a_text_has_one_verdict()
    ensures { HasOneVerdict }
{
    a_token_is_fed_in_one_way();
}

/// Theorem: a table set within the ranges of its file, whose parser's runs end, has a verdict on every text.
pub fn a_text_has_a_verdict()
    ensures { HasSomeVerdict }
{}

/// Theorem: the verdict on the rest of a text is the same before and after decided matches, whatever follows the known
/// bytes.
pub fn decided_matches_change_nothing()
    ensures { DecidedChangesNothing }
{
    a_token_is_fed_in_one_way();
}

/// Theorem: the verdict on the rest of a text of which nothing is read is the verdict on the text.
pub fn a_beginning_says_it()
    ensures { BeginningSaysIt }
{}
