//! The path from the document node to the current node, and positions on it.
#![tactic(auto)]

mod fault;
pub mod law;
mod names;
mod node;
mod open;
mod own;
mod parked;
mod spare;
mod stack;
mod tally;
mod test;

pub use fault::StackFault;
pub use node::{Closed, Leaf, NodeView};
pub use parked::Parked;
pub use stack::NodeStack;
pub use test::passes;
