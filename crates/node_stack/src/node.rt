ghost use Rattle.std.specs.Prelude.{◌≡◌, [], IfOk, Some, unwrap_or};
ghost use Rattle.std.specs.Option.{option_copied};

use std::alloc::Global;
use stx_base::{Attr, Binding, Copied, First, List, Memory, Name, Text};

/// A node without attributes and children.
#[derive(Debug, Drop)]
pub enum Leaf {
    Chars(Text),
    CData(Text),
    Comment(Text),
    Pi { target: Text, text: Text },
}

/// A node that has ended.
#[derive(Debug, Drop)]
pub enum Closed {
    Element {
        name: Name,
        attrs: List<Attr>,
        decls: List<Binding>,
        first: First,
    },
    Leaf(Leaf),
}

/// A node of the path.
#[derive(Clone, Copy, Debug)]
pub enum NodeView<'a> {
    Document,
    Element {
        name: &'a Name,
        attrs: &'a List<Attr>,
        /// What its tag declares.
        decls: &'a List<Binding>,
        first: &'a First,
    },
    Chars(&'a Text),
    CData(&'a Text),
    Comment(&'a Text),
    Pi {
        target: &'a Text,
        text: &'a Text,
    },
    Attribute(&'a Attr),
}

impl<'a> NodeView<'a> {
    ghost use Rattle.node_stack.specs.Open.{node_of};
    ghost use Rattle.node_stack.specs.Path.{string_value};

    /// The node's string value, where it isn't empty by the node's kind. Allocates nothing.
    pub(crate) fn text(self) -> Option<&'a Text>
        ensures { unwrap_or (option_copied result) [] ≡ string_value (node_of self.entry) }
    {
        match self {
            NodeView::Document => None,
            NodeView::Element { first, .. } => match first {
                First::Chars(text) => Some(text),
                First::Nothing | First::Other => None,
            },
            NodeView::Chars(text)
            | NodeView::CData(text)
            | NodeView::Comment(text)
            | NodeView::Pi { text, .. } => Some(text),
            NodeView::Attribute(attr) => Some(&attr.value),
        }
    }
}

impl Copied for Leaf {
    fn copy(&self, alloc: Global) -> Result<Leaf, Memory> {
        match self {
            Leaf::Chars(text) => {
                let text = text.copy(alloc)?;
                Ok(Leaf::Chars(text))
            }
            Leaf::CData(text) => {
                let text = text.copy(alloc)?;
                Ok(Leaf::CData(text))
            }
            Leaf::Comment(text) => {
                let text = text.copy(alloc)?;
                Ok(Leaf::Comment(text))
            }
            Leaf::Pi { target, text } => {
                let target = target.copy(alloc)?;
                let text = text.copy(alloc)?;
                Ok(Leaf::Pi { target, text })
            }
        }
    }
}
