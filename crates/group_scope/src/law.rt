//! Laws of the definitions, as contracts.

ghost use Rattle.group_scope.specs.Laws.{ChoosesTheBest, IsBetterThanOthers, IsNeverActive, IsOrdered, IsTheSameInAnyOrder};

/// What the best of alternatives is.
pub fn best()
    ensures chosen { ChoosesTheBest }
    ensures ordered { IsOrdered }
    ensures any_order { IsTheSameInAnyOrder }
{}

/// What is chosen, and what isn't.
pub fn choice()
    ensures never_active { IsNeverActive }
    ensures better { IsBetterThanOthers }
{}
