ghost use Rattle.ly_generate.specs.Headline.{AnswersAreOfSpecification, TablesAnswerAsSpecified};
ghost use Rattle.ly_generate.specs.Laws.{RefusalIsExact};
ghost use Rattle.ly_generate.specs.SentenceAnswer.{AnswersSentences, TreesAreOfTexts};

use ly_feed::{a_text_has_a_verdict, a_text_has_one_verdict};

/// If a lex file and a yacc file are rejected for some reason, they are never accepted.
pub fn refusal_is_exact()
    ensures { RefusalIsExact }
{}

/// Generated tables give for a text the result that the specification defines, and the same output in each form.
pub fn tables_answer_as_specified()
    ensures verdicts { TablesAnswerAsSpecified }
    ensures answers { AnswersAreOfSpecification }
{}

/// Without conflicts, the one result for a text is the tree of the only derivation of its tokens. Otherwise it names
/// the first token that continues no sentence, or the byte at which no rule matches after the start of a sentence.
pub fn sentences_are_answered()
    ensures { AnswersSentences }
{
    a_text_has_one_verdict();
    a_text_has_a_verdict();
}

/// The tree of a text is a derivation of all of its tokens, whatever conflicts the grammar has.
pub fn trees_are_of_texts()
    ensures { TreesAreOfTexts }
{}
