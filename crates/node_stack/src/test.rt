//! Which nodes pass a test.

ghost use Rattle.std.specs.Prelude.{◌≡◌};
ghost use Rattle.node_stack.specs.Path.{kind_of};
ghost use Rattle.node_stack.specs.Open.{node_of};
ghost use Rattle.node_stack.specs.Test as spec;

use crate::node::NodeView;
use stx_base::{Name, NodeTest, Text};

/// Whether a node passes a test.
pub fn passes(test: &NodeTest, node: NodeView<'_>) -> bool
    ensures { result ≡ spec.passes test.now (kind_of (node_of node.entry)) }
{
    match test {
        NodeTest::Document => matches!(node, NodeView::Document),
        NodeTest::Name(wanted) => match node {
            NodeView::Element { name, .. } => same_name(name, wanted),
            _ => false,
        },
        NodeTest::Prefix(wanted) => match node {
            NodeView::Element { name, .. } => same(&name.uri, &wanted.uri),
            _ => false,
        },
        NodeTest::AnyElement => matches!(node, NodeView::Element { .. }),
        NodeTest::AnyNode => !matches!(node, NodeView::Document | NodeView::Attribute(_)),
        NodeTest::Chars => matches!(node, NodeView::Chars(_) | NodeView::CData(_)),
        NodeTest::CData => matches!(node, NodeView::CData(_)),
        NodeTest::Comment => matches!(node, NodeView::Comment(_)),
        NodeTest::AnyPi => matches!(node, NodeView::Pi { .. }),
        NodeTest::Pi(wanted) => match node {
            NodeView::Pi { target, .. } => same(target, wanted),
            _ => false,
        },
        NodeTest::AttrName(wanted) => match node {
            NodeView::Attribute(attr) => same_name(&attr.name, wanted),
            _ => false,
        },
        NodeTest::AttrPrefix(wanted) => match node {
            NodeView::Attribute(attr) => same(&attr.name.uri, &wanted.uri),
            _ => false,
        },
        NodeTest::AnyAttr => matches!(node, NodeView::Attribute(_)),
    }
}

fn same(a: &Text, b: &Text) -> bool
    ensures { result ≡ spec.same a.now b.now }
{
    a.as_str() == b.as_str()
}

fn same_name(a: &Name, b: &Name) -> bool
    ensures { result ≡ spec.same_name a.now b.now }
{
    same(&a.uri, &b.uri) && same(&a.local, &b.local)
}
