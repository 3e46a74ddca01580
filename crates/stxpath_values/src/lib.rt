//! Values of the path language: arithmetic, comparisons, and the functions that see no node.
#![tactic(auto)]

mod arithmetic;
mod comparison;
mod convert;
mod fault;
mod functions;
mod joins;
pub mod law;
mod lent;
mod lists;
mod numeral;
mod places;
mod texts;
mod value;

pub use arithmetic::{arith, arith_lent};
pub use comparison::{compare, compare_lent};
pub use convert::{atom_truth, to_text, to_whole, truth, whole_of};
pub use fault::{EvalFault, EvalStop};
pub use functions::{call, call_lent, takes};
pub use joins::{join, join_lent, whole_text};
pub use lent::{AtomRef, Atoms, Sequence};
pub use value::{Atom, Item, NodeRef};
