//! Laws of the definitions, as contracts.

ghost use Rattle.event_buffers.specs.Laws.{ClosingIsShallow, DeclaredIsShallow, EventsTellTheForest, KeptIsWhatWasPut, LaidOverAndTakenOff, LayingIsShallow, OlderTakesParts, OpeningIsShallow, OtherBuffersStay, PutIsKept, PuttingIsShallow, SectionsAreTold, SectionsStay, TextsJoin, ToldIsShallow};

/// What is laid over and taken off leaves what was, what is done to one buffer leaves the others, and an older copy that is open
/// gets the parts.
pub fn copies()
    ensures laid { LaidOverAndTakenOff }
    ensures others { OtherBuffersStay }
    ensures older { OlderTakesParts }
{}

/// Texts that touch are told as one.
pub fn texts_join()
    ensures { TextsJoin }
{}

/// Where each element ends, the events are those of the nodes.
pub fn events_tell_the_forest()
    ensures { EventsTellTheForest }
{}

/// What is put into a buffer is kept, and is the nodes of the parts.
pub fn put_is_kept()
    ensures put { PutIsKept }
    ensures nodes { KeptIsWhatWasPut }
{}

/// The texts of CDATA sections stay ones.
pub fn sections()
    ensures put { SectionsStay }
    ensures told { SectionsAreTold }
{}

/// Buffers nest no deeper than what is declared, or than is allowed while they are written, whichever is greater; and so does
/// what they tell.
pub fn nesting()
    ensures declared { DeclaredIsShallow }
    ensures laying { LayingIsShallow }
    ensures opening { OpeningIsShallow }
    ensures putting { PuttingIsShallow }
    ensures closing { ClosingIsShallow }
    ensures told { ToldIsShallow }
{}
