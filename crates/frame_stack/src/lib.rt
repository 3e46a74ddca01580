//! The frames of a run on one explicit stack, and how many instances each level has.
#![tactic(auto)]

mod change;
mod counted;
mod fault;
mod frame;
pub mod law;
mod locals;
mod stack;
#[cfg(test)]
mod tests;

pub use fault::FrameFault;
pub use frame::Frame;
pub use locals::{Local, Locals};
pub use stack::Frames;
