//! Which patterns fit a node, and their default priorities.
#![tactic(auto)]

mod fit;
mod group;
pub mod law;
mod plain;
mod priority;
mod walk;

pub use fit::matches;
pub use group::{GroupVars, InGroup};
pub use plain::matches_plain;
pub use priority::default_priority;
