//! What a run of a sheet means, and the machine that does it.
#![tactic(auto)]

mod assigning;
mod bindings;
mod bodies;
mod control;
mod declaring;
mod finding;
mod heads;
mod jumps;
pub mod law;
mod lists;
mod machine;
mod names;
mod operations;
mod output;
mod processes;
mod program;
mod puts;
mod putting;
mod run;
mod scope;
mod setting;
mod sink;
mod source;
mod stop;
mod turn;
mod values;
mod vars;

pub use machine::Machine;
pub use output::Output;
pub use sink::Sink;
pub use turn::{Param, Turn};
