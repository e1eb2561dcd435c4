ghost use Rattle.ly_pack.specs.PlacementLaws.{DefaultIsOne, PlacementIsOne};

/// Theorem: a table has exactly one comb that is placed by first fit.
pub fn placement_is_one<E>()
    ensures { PlacementIsOne E }
{}

/// Theorem: a state has at most one default.
pub fn default_is_one()
    ensures { DefaultIsOne }
{}
