use stx_base::{List, Name};
use stxpath_values::Atom;

/// A variable and its value.
#[derive(Debug, Drop)]
pub struct Bound {
    pub name: Name,
    pub value: List<Atom>,
}
