//! What stx reads from and writes to: the one trait over the outside, a host in memory, and the real one.
#![tactic(auto)]

mod act;
mod copy;
mod faults;
mod host;
mod laws;
mod mem_host;
mod real_host;
mod table;

pub use act::{Act, Call, Doc, Fail, Got, Lane, Opened, Put};
pub use copy::{Copying, copy_main, write_all};
pub use host::Host;
pub use laws::{acts_add_up, counts_go_on, ids_come_and_go};
pub use mem_host::MemHost;
pub use real_host::RealHost;

#[cfg(test)]
mod tests;
