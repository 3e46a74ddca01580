//! Which sibling regions a node ends.
#![tactic(auto)]

mod condition;
pub mod law;
mod regions;

pub use regions::ends;
