//! Laws of the definitions, as contracts.

ghost use Rattle.sheet_model.specs.Laws.{KeepsOrder};

/// In which order instructions are numbered.
pub fn order()
    ensures { KeepsOrder }
{}
