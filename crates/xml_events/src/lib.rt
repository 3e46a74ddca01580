//! Bytes to events: the nodes of a document's tree in document order, each as soon as it is ready (XML 1.0; Namespaces in XML
//! 1.0). An element is ready once its first child or its end is known, and a text once something else follows it.
#![tactic(auto)]

mod event;
mod front;
pub mod laws;
mod place;
mod reader;
mod run;
mod texts;

pub use event::{Event, Pull};
pub use reader::EventReader;
pub use run::{Run, read};
