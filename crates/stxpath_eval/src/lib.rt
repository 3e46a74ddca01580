//! The value of an expression on a path.
#![tactic(auto)]

mod ask;
mod binary;
mod env;
mod evaluation;
mod functions;
mod held;
mod nodes;
mod steps;
mod values;

pub use ask::{eval_atoms, eval_text, eval_truth, holds};
pub use env::{Env, Vars};
pub use evaluation::eval;
pub use nodes::{atoms, text};
