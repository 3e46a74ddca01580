//! Which parts the run of a sheet puts into its output.
#![tactic(auto)]

pub mod law;
