ghost use Rattle.std.specs.Prelude.{IfOk, ◌≡◌};
ghost use Rattle.run_engine.specs.Run.{file_of};

use std::alloc::Global;
use stx_base::{Copied, Memory, Text};
use xml_events::EventReader;

/// A document that is read.
#[derive(Debug, Drop)]
pub struct Document {
    /// The main document has none.
    pub name: Option<Text>,
    pub reader: EventReader,
}

/// What stands for the main document's name where its fault is told.
const MAIN: &str = "-";

/// The name of a document, where its fault is told.
pub fn file_of(alloc: Global, name: &Option<Text>) -> Result<Text, Memory>
    ensures { IfOk result (λ file. file ≡ file_of name.now) }
{
    match name {
        Some(name) => name.copy(alloc),
        None => Text::of(alloc, MAIN),
    }
}
