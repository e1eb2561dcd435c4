ghost use Rattle.ly_join.specs.Laws.{JoinedIsOne, NumberedByFirst};

/// Theorem: two files make at most one specification.
pub fn joined_is_one()
    ensures { JoinedIsOne }
{}

/// Theorem: symbols are numbered by their first appearance. Each symbol that appears has one number, in the order in
/// which they first appear.
pub fn numbered_by_first()
    ensures { NumberedByFirst }
{}
