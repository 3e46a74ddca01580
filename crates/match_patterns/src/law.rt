//! Laws of the definitions, as contracts.

ghost use Rattle.match_patterns.specs.Laws.{FitsByAncestor, FitsByParent, FitsByStep, FitsDocument};

/// Where patterns fit, by their last steps.
pub fn fitting()
    ensures document { FitsDocument }
    ensures step { FitsByStep }
    ensures parent { FitsByParent }
    ensures ancestor { FitsByAncestor }
{}
