//! A result's parts as bytes: well formed, with each prefix declared where it is used.
#![tactic(auto)]

mod allowed;
mod attributes;
mod bytes;
mod chars;
mod escape;
mod fault;
mod in_force;
pub mod law;
mod opened;
mod order;
mod steady;
mod table;
mod tables;
mod tag;
mod words;
mod writer;

pub use allowed::holds_cdata_text;
pub use fault::{ResultFault, WriteStop};
pub use opened::{Opened, Settled, SettledTag};
pub use tag::attribute_prefixes;
pub use writer::{Writer, write};
