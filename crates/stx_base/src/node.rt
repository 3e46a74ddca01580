use crate::copied::Copied;
use crate::memory::Memory;
use crate::name::{Binding, Name};
use crate::text::Text;
use std::alloc::Global;

/// What a step of a path asks of a node.
#[derive(Debug, Drop)]
pub enum NodeTest {
    /// The document node.
    Document,
    /// An element with this expanded name.
    Name(Name),
    /// An element in this namespace; the prefix is kept as written and doesn't count.
    Prefix(Binding),
    AnyElement,
    /// Every node but document nodes and attributes.
    AnyNode,
    /// A text node or a CDATA node.
    Chars,
    /// A CDATA node.
    CData,
    Comment,
    AnyPi,
    /// A processing instruction with this target.
    Pi(Text),
    /// An attribute with this expanded name.
    AttrName(Name),
    /// An attribute in this namespace; the prefix is kept as written and doesn't count.
    AttrPrefix(Binding),
    AnyAttr,
}

/// The first child of an element.
#[derive(Debug, Drop)]
pub enum First {
    /// There is none.
    Nothing,
    /// An element, a comment or a processing instruction.
    Other,
    /// A text node or a CDATA node, with its characters.
    Chars(Text),
}

impl Copied for NodeTest {
    fn copy(&self, alloc: Global) -> Result<NodeTest, Memory> {
        match self {
            NodeTest::Document => Ok(NodeTest::Document),
            NodeTest::Name(name) => {
                let name = name.copy(alloc)?;
                Ok(NodeTest::Name(name))
            }
            NodeTest::Prefix(binding) => {
                let binding = binding.copy(alloc)?;
                Ok(NodeTest::Prefix(binding))
            }
            NodeTest::AnyElement => Ok(NodeTest::AnyElement),
            NodeTest::AnyNode => Ok(NodeTest::AnyNode),
            NodeTest::Chars => Ok(NodeTest::Chars),
            NodeTest::CData => Ok(NodeTest::CData),
            NodeTest::Comment => Ok(NodeTest::Comment),
            NodeTest::AnyPi => Ok(NodeTest::AnyPi),
            NodeTest::Pi(target) => {
                let target = target.copy(alloc)?;
                Ok(NodeTest::Pi(target))
            }
            NodeTest::AttrName(name) => {
                let name = name.copy(alloc)?;
                Ok(NodeTest::AttrName(name))
            }
            NodeTest::AttrPrefix(binding) => {
                let binding = binding.copy(alloc)?;
                Ok(NodeTest::AttrPrefix(binding))
            }
            NodeTest::AnyAttr => Ok(NodeTest::AnyAttr),
        }
    }
}

impl Copied for First {
    fn copy(&self, alloc: Global) -> Result<First, Memory> {
        match self {
            First::Nothing => Ok(First::Nothing),
            First::Other => Ok(First::Other),
            First::Chars(text) => {
                let text = text.copy(alloc)?;
                Ok(First::Chars(text))
            }
        }
    }
}
