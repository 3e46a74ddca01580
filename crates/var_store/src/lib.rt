//! The variables of groups: copies of each group's, one over another.
#![tactic(auto)]

mod bound;
mod copies;
mod fault;
pub mod law;
mod store;
#[cfg(test)]
mod tests;
mod variables;

pub use bound::Bound;
pub use fault::StoreFault;
pub use store::Store;
