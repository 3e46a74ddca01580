ghost use Rattle.std.specs.Prelude.{◌≡◌, ◌∷◌, [], None, true, IfOk};
ghost use Rattle.std.specs.List.{flat_map};
ghost use Rattle.xml_events.specs.Document.{doc_for};
ghost use Rattle.xml_events.specs.Run.{IsDrained, Tells, stop_of};
ghost use Rattle.xml_events.specs.Source.{source_for};
ghost use Rattle.xml_events.specs.Telling.{events_of, stop_in};

use crate::event::{Event, Pull};
use crate::reader::EventReader;
use std::alloc::Global;
use stx_base::{Limits, List, Memory, Spare};
use xml_tokens::Ending;

/// The events of a document, and what ends them.
#[derive(Debug, Drop)]
pub struct Run {
    pub events: List<Event>,
    pub ending: Ending,
}

/// Reads a document that comes in these pieces: its events, followed by what remains of it, are its tree, however it was cut.
pub fn read(
    alloc: Global,
    limits: Limits,
    strip: bool,
    cdata: bool,
    pieces: &[Vec<u8>],
) -> Result<Run, Memory>
    ensures tells { IfOk result (λ run. Tells (doc_for limits strip cdata (flat_map (λ piece. piece.items) pieces.now) true ∷ []) run.events run.ending) }
    // They are the events of that tree in document order, and the ending says why it goes no further.
    ensures events { IfOk result (λ run. run.events ≡ events_of (doc_for limits strip cdata (flat_map (λ piece. piece.items) pieces.now) true)) }
    ensures ending { IfOk result (λ run. stop_in (doc_for limits strip cdata (flat_map (λ piece. piece.items) pieces.now) true) ≡ stop_of run.ending) }
{
    let mut reader = EventReader::for_sheet(alloc, limits, strip, cdata);
    read_pieces(alloc, &mut reader, pieces)
}

/// The same of a reader that read nothing yet.
fn read_pieces(alloc: Global, reader: &mut EventReader, pieces: &[Vec<u8>]) -> Result<Run, Memory>
    requires { reader.old ≡ source_for reader.old.limits reader.old.strip reader.old.before.cdata }
    ensures { IfOk result (λ run. Tells (doc_for reader.old.limits reader.old.strip reader.old.before.cdata (flat_map (λ piece. piece.items) pieces.now) true ∷ []) run.events run.ending) }
{
    let mut spare = Spare::new(alloc);
    let mut events = List::new(alloc);
    for piece in pieces {
        reader.feed(piece)?;
        if let Some(ending) = drain(reader, &mut events, &mut spare)? {
            return Ok(Run { events, ending });
        }
    }
    reader.finish();
    match drain(reader, &mut events, &mut spare)? {
        Some(ending) => Ok(Run { events, ending }),
        None => unreachable!(),
    }
}

/// Appends the events that are known, and says what ends them if no more bytes must come.
fn drain(
    reader: &mut EventReader,
    events: &mut List<Event>,
    spare: &mut Spare,
) -> Result<Option<Ending>, Memory>
    ensures { IfOk result (IsDrained reader.old events.old reader.new events.new) }
{
    'giving: loop {
        match reader.next(spare) {
            Pull::Event(event) => events.push(event)?,
            Pull::Need => return Ok(None),
            Pull::End => return Ok(Some(Ending::End)),
            Pull::Bad(fault) => return Ok(Some(Ending::Bad(fault))),
            Pull::Memory => return Err(Memory),
        }
    }
}
