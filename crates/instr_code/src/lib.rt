//! Bodies as flat code, so that a run never walks lists.
#![tactic(auto)]

mod bodies;
mod code;
mod emit;
mod inner;
pub mod law;

pub use code::{Code, Compiled, Op, compile};
