//! Laws of the code, as contracts.

ghost use Rattle.instr_code.specs.Laws.{BodiesAreLeftWhole, BodiesRunByCode, CodeDoesNoMore, CodeDoesWhatIsLeft, CodeRunsBodies, OperationsDoWhatIsLeft};

/// Running code is running instructions, for all types of calls `Q`, of states `S`, of what is said `O` and of ends `E`.
pub fn running<Q, S, O, E>()
    ensures each { OperationsDoWhatIsLeft Q S O E }
    ensures whole { BodiesAreLeftWhole Q S O E }
    ensures left { CodeDoesWhatIsLeft Q S O E }
    ensures no_more { CodeDoesNoMore Q S O E }
    ensures bodies { BodiesRunByCode Q S O E }
    ensures bodies_only { CodeRunsBodies Q S O E }
{}
