//! How a run ends: what is said of it, and the status that the program ends with.
#![tactic(auto)]

pub mod law;
mod outcome;
#[cfg(test)]
mod tests;
mod wording;

pub use outcome::{HostFault, Outcome, status};
pub use wording::{OUT_OF_MEMORY, line};
