//! A run of a sheet as a pure step over pieces of its documents.
#![tactic(auto)]

mod document;
mod engine;
mod growing;
pub mod law;
mod piece;
mod run;

pub use engine::Engine;
pub use piece::{Piece, Pumped};
