use stx_base::{Place, RunFault, Text};

/// How a run goes on behind an event.
#[derive(Debug, Drop)]
pub enum Turn {
    /// With the next event.
    More,
    /// Not at all: it is done.
    Ended,
    /// With a document of this name, or word that there is none.
    WantDocument(Text),
    Stopped(RunFault),
    /// Not at all: the fuel of the event is spent, at this instruction.
    Spent(Place),
    Memory,
}

/// A parameter that the command gives to the sheet's root group.
#[derive(Debug, Drop)]
pub struct Param {
    /// A name without a namespace.
    pub name: Text,
    pub value: Text,
}
