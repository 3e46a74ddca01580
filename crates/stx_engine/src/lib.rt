//! Sheets applied to documents: `transform`, which does all that the program does over a host.
#![tactic(auto)]

mod asked;
mod driver;
pub mod law;
mod passed;
mod plain;
mod run_end;

pub use driver::transform;
