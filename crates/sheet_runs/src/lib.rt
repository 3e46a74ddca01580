//! A run of a sheet over a host: its documents are read piece by piece, and what is settled is written before each read.
#![tactic(auto)]

mod chunk;
mod failing;
pub mod law;
mod main_document;
mod other;
mod run;
mod running;
mod writing;

pub use main_document::Main;
pub use run::{End, Ran, run_sheet};
pub use writing::{Refused, write};
