use std::alloc::Global;
use stx_base::{Copied, Memory, Text};

/// An item that is no node.
#[derive(Debug, Drop)]
pub enum Atom {
    Whole(i64),
    Chars(Text),
    Truth(bool),
}

/// A node of the path: its place from the document node, which is 0, and where it is an attribute, its number among
/// those of the element at that place, from 0.
#[derive(Clone, Copy, Debug, PartialEq, Eq)]
pub struct NodeRef {
    pub place: usize,
    pub attr: Option<usize>,
}

/// An item of a value.
#[derive(Debug, Drop)]
pub enum Item {
    Atom(Atom),
    Node(NodeRef),
}

impl Copied for Atom {
    fn copy(&self, alloc: Global) -> Result<Atom, Memory> {
        match self {
            Atom::Whole(n) => Ok(Atom::Whole(*n)),
            Atom::Chars(text) => {
                let text = text.copy(alloc)?;
                Ok(Atom::Chars(text))
            }
            Atom::Truth(b) => Ok(Atom::Truth(*b)),
        }
    }
}

impl Copied for Item {
    fn copy(&self, alloc: Global) -> Result<Item, Memory> {
        match self {
            Item::Atom(atom) => {
                let atom = atom.copy(alloc)?;
                Ok(Item::Atom(atom))
            }
            Item::Node(node) => Ok(Item::Node(*node)),
        }
    }
}
