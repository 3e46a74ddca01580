//! What the files of a sheet come to: the sheet, or its first fault.
#![tactic(auto)]

mod content;
mod declared;
mod draft;
mod element;
mod frame;
mod inside;
mod item;
mod kind;
pub mod law;
mod loader;
mod making;
mod named;
mod names;
mod naming;
mod passing;
mod priority;
mod refused;
mod register;
mod rows;
mod tag;
mod tests_of_attributes;
mod value;
mod values;
mod variables;
mod waiting;
mod words;

pub use loader::{LoadStop, Loader};
