ghost use Rattle.ly_minim.specs.Smallest.{Smallest};

/// No automaton that gives the same rule for every start and string has fewer states than a reduced one.
pub fn smallest()
    ensures { Smallest }
{}
