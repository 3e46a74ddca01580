//! Which template is chosen for a node.
#![tactic(auto)]

mod asking;
mod category;
mod choosing;
mod entry;
mod home;
mod key;
pub mod law;
mod marks;
mod plain;
mod rank;
mod rows;
mod scope;
mod select;
mod words;

pub use plain::choose;
pub use rank::Chosen;
pub use scope::Scope;
