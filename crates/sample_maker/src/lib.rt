//! A large document to try the program with: a list of records, made piece by piece.
#![tactic(auto)]

pub mod law;
mod piece;
mod sample;
#[cfg(test)]
mod tests;

pub use sample::{Sample, make_sample};
