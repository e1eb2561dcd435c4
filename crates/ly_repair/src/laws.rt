ghost use Rattle.ly_repair.specs.Examples.{OneIsDeleted, OneIsInserted};
ghost use Rattle.ly_repair.specs.Laws.{AcceptedIsRepaired, ErrorsCost, FormLosesNothing, HoldsFalls, LeastIsOfRepairs};
ghost use Rattle.ly_repair.specs.Laws.{NoSentenceIsCheaper, NoneIsAccepted, OrderLosesNothing, ReadIsNotRefused};
ghost use Rattle.ly_repair.specs.Laws.{ReadsInOneWay, RepairedIsAccepted};

/// Theorem: a terminal is read in at most one way, and isn't rejected then. So each repair of an error costs something.
pub fn reads_in_one_way()
    ensures one { ReadsInOneWay }
    ensures not_refused { ReadIsNotRefused }
    ensures costs { ErrorsCost }
{}

/// Theorem: edits after which the tables accept the text are whole, so the least cost is at most the distance to a text
/// that the tables accept.
pub fn no_sentence_is_cheaper()
    ensures whole { AcceptedIsRepaired }
    ensures least { NoSentenceIsCheaper }
    ensures accepted { RepairedIsAccepted }
    ensures none { NoneIsAccepted }
{}

/// Theorem: edits with insertions before deletions repair the same, and make the same terminals at the same cost.
pub fn order_loses_nothing()
    ensures { OrderLosesNothing }
{}

/// Theorem: the least cost of repairs in form is the least cost of all edits that repair the text.
pub fn form_loses_nothing()
    ensures form { FormLosesNothing }
    ensures least { LeastIsOfRepairs }
    ensures falls { HoldsFalls }
{}

/// Theorem: in a small grammar a missing parenthesis is inserted, and one too many is deleted.
pub fn examples()
    ensures inserted { OneIsInserted }
    ensures deleted { OneIsDeleted }
{}
