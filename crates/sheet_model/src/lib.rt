//! What a sheet is made of: its groups, templates, procedures, buffers, variables and instructions.
#![tactic(auto)]

mod find;
mod inner;
mod instr;
pub mod law;
mod nesting;
mod pass;
mod sheet;

pub use instr::{Content, Instr, LiteralAttr, When, WithParam};
pub use nesting::nest;
pub use pass::{Kinds, Pass};
pub use sheet::{Buffer, Group, Procedure, Sheet, Template, Variable, Visibility};
