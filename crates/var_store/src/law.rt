//! Laws of the definitions, as contracts.
ghost use Rattle.var_store.specs.Laws.{AssignedIsRead, DeclaredIsRead, LaidOverAndTakenOff, OlderStaysAsItWas, OtherGroupsStay, OthersAreRead, SlotLeadsToValue};

/// A copy that is laid over others and taken off leaves them as they were, whatever it was given.
pub fn copies()
    ensures laid { LaidOverAndTakenOff }
    ensures older { OlderStaysAsItWas }
    ensures others { OtherGroupsStay }
{}

/// What a variable was given last is read, and of the others what they had.
pub fn variables()
    ensures declared { DeclaredIsRead }
    ensures assigned { AssignedIsRead }
    ensures others { OthersAreRead }
    ensures slot { SlotLeadsToValue }
{}
