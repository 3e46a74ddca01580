//! Laws of the definitions, as contracts.
ghost use Rattle.sample_maker.specs.Laws.{HoldsEachRecord, JoinsToDocument};

/// The pieces joined are the document, and each record is a piece of its own, at its number.
pub fn pieces()
    ensures joined { JoinsToDocument }
    ensures records { HoldsEachRecord }
{}
