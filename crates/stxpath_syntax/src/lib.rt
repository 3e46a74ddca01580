//! The path language: its expressions, patterns and templates, how they are read and how they are printed.
#![tactic(auto)]

mod avt;
mod dialect;
mod expr;
mod fault;
mod functions;
pub mod law;
mod lex;
mod meant;
mod operand;
mod parse;
mod path;
mod print;
mod stack;
mod state;
mod step;
mod stop;
mod token;
mod words;

pub use avt::{parse_avt, read_avt};
pub use dialect::Dialect;
pub use expr::{Alternative, Avt, AvtPart, Bin, Expr, Link, PathStep, Pattern};
pub use fault::{ParseFault, PathFault, PathKind};
pub use parse::{parse_expr, parse_pattern, read_expr, read_pattern};
pub use print::print_expr;
