//! What every layer of stx speaks of: texts, lists, names, places, limits, faults and parts.
#![tactic(auto)]

mod boxed;
mod character;
mod copied;
pub mod course_law;
mod expression;
mod fault;
mod limits;
mod list;
mod memory;
mod name;
mod node;
mod part;
mod spare;
#[cfg(test)]
mod tests;
mod text;

pub use boxed::Boxed;
pub use character::{
    are_ascii_chars, is_ascii_char, is_ascii_name_byte, is_ascii_ncname_byte, is_cdata_text,
    is_char, is_name, is_name_char, is_name_start, is_ncname, is_space,
};
pub use copied::Copied;
pub use expression::{Cmp, Fun, Op};
pub use fault::{Place, RunCode, RunFault, SheetCode, SheetFault, XmlFault, XmlKind};
pub use limits::Limits;
pub use list::List;
pub use memory::Memory;
pub use name::{Attr, Binding, Name};
pub use node::{First, NodeTest};
pub use part::Part;
pub use spare::Spare;
pub use text::Text;
