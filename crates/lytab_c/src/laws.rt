ghost use Rattle.lytab_c.specs.Walks.{WalksMeetChildren};

/// Does nothing: its contract is a theorem. In a list that holds the parts of a tree, a loop from the index after a
/// node to the node's `next`, by the `next` of each part, visits the children of the node and nothing else. Other parts
/// may follow those of the tree.
pub fn walks_meet_children()
    ensures { WalksMeetChildren }
{}
