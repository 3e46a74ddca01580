//! A sheet, read from its files over a host.
#![tactic(auto)]

mod going;
mod load;
mod reading;

pub use load::{Loaded, load_sheet};
