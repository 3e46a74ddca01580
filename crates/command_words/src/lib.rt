//! The words of the command line: which are accepted, and what they ask for.
#![tactic(auto)]

mod command;
mod fault;
pub mod law;
mod numeral;
mod param;
#[cfg(test)]
mod tests;
mod uses;

pub use command::{Command, Mode, read_words};
pub use fault::WordsFault;
pub use param::Param;
