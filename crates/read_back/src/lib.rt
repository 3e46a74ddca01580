//! What is written is read back as the result.
#![tactic(auto)]

pub mod law;
pub mod parts_law;
