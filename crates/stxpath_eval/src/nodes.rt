//! Nodes in values.

ghost use Rattle.std.specs.Prelude.{◌≡◌, ◌++◌, List as Items, ℕ, [], ◌∷◌, IfOk, IfSome, OnOk, option_map};
ghost use Rattle.node_stack.specs.Open.{node_of};
ghost use Rattle.node_stack.specs.Path as paths;
ghost use Rattle.node_stack.specs.Path.{attributes};
ghost use Rattle.node_stack.specs.Stack.{path};
ghost use Rattle.stxpath_eval.specs.Nodes as spec;
ghost use Rattle.stxpath_values.specs.Functions.{joined_text};
ghost use Rattle.stxpath_values.specs.Outcome.{IsAnswer};
ghost use Rattle.stxpath_values.specs.declared.value.Atom.TheVariants as atom;
ghost use Rattle.stxpath_values.specs.declared.value.Item.TheVariants as item;

use node_stack::{NodeStack, NodeView, passes};
use std::alloc::Global;
use stx_base::{Attr, Copied, Limits, List, Memory, Name, NodeTest, Text};
use stxpath_values::{Atom, EvalStop, Item, NodeRef, join};

/// The items, with string values in place of nodes.
pub fn atoms(alloc: Global, items: &List<Item>, stack: &NodeStack) -> Result<List<Atom>, Memory>
    ensures { IfOk result (λ made. made ≡ spec.atoms (path stack.now) items.now) }
{
    let mut made = List::new(alloc);
    for item in items.as_slice() {
        let atom = atom_of(alloc, item, stack)?;
        made.push(atom)?;
    }
    Ok(made)
}

/// The texts of items in a row, with a separator between each two, where nodes have their string values. It is refused,
/// and not built, where it has more characters than the limit.
pub fn text(
    alloc: Global,
    separator: &Text,
    items: &List<Item>,
    stack: &NodeStack,
    limits: &Limits,
) -> Result<Text, EvalStop>
    ensures { IsAnswer result (joined_text limits.now separator.now (spec.atoms (path stack.now) items.now)) }
{
    let atoms = atoms(alloc, items, stack)?;
    join(alloc, separator, &atoms, limits)
}

fn atom_of(alloc: Global, item: &Item, stack: &NodeStack) -> Result<Atom, Memory>
    ensures { IfOk result (λ made. made ≡ spec.atom_of (path stack.now) item.now) }
{
    match item {
        Item::Atom(atom) => atom.copy(alloc),
        Item::Node(node) => {
            let text = text_at(stack, *node).copy(alloc)?;
            Ok(Atom::Chars(text))
        }
    }
}

/// The node at a place, if the path goes so far.
pub(crate) fn node_at(stack: &NodeStack, place: usize) -> Option<NodeView<'_>>
    ensures { option_map node_of result ≡ paths.node_at (path stack.now) place }
{
    if place < stack.len() {
        Some(stack.view(place))
    } else {
        None
    }
}

/// The node that is referred to, if it is there.
pub(crate) fn referred(stack: &NodeStack, node: NodeRef) -> Option<NodeView<'_>>
    ensures { option_map node_of result ≡ spec.referred (path stack.now) node }
{
    let view = node_at(stack, node.place)?;
    match node.attr {
        None => Some(view),
        Some(index) => attribute_of(view, index),
    }
}

fn attribute_of(view: NodeView<'_>, index: usize) -> Option<NodeView<'_>>
    ensures { option_map node_of result ≡ spec.referred_at (Some index) (Some (node_of view.entry)) }
{
    match view {
        NodeView::Element { attrs, .. } => match attrs.get(index) {
            Some(attr) => Some(NodeView::Attribute(attr)),
            None => None,
        },
        _ => None,
    }
}

/// The string value of the node that is referred to; no text where it isn't there.
pub(crate) fn text_at(stack: &NodeStack, node: NodeRef) -> &Text
    ensures { result.now ≡ paths.text_of (spec.referred (path stack.now) node) }
{
    text_of(referred(stack, node), stack)
}

/// A node's string value; no text for none.
pub(crate) fn text_of<'a>(node: Option<NodeView<'a>>, stack: &'a NodeStack) -> &'a Text
    ensures { result.now ≡ paths.text_of (option_map node_of node.entry) }
{
    match node {
        Some(view) => stack.text_of(view),
        None => no_text(stack),
    }
}

/// The empty text.
pub(crate) fn no_text(stack: &NodeStack) -> &Text
    ensures { result.now ≡ [] }
{
    stack.text_of(NodeView::Document)
}

/// The one attribute of a node at a place that passes a test; `None` where it isn't found that there is one alone.
pub(crate) fn only_attribute(stack: &NodeStack, place: usize, test: &NodeTest) -> Option<NodeRef>
    ensures { IfSome result (λ node. spec.attributes_at (path stack.now) test.now place ≡ item.Node node ∷ []) }
{
    let Some(NodeView::Element { attrs, .. }) = node_at(stack, place) else {
        return None;
    };
    only_passing(attrs.as_slice(), place, test)
}

fn only_passing(attrs: &[Attr], place: usize, test: &NodeTest) -> Option<NodeRef>
    ensures { IfSome result (λ node. spec.passing_from place 0 test.now attrs.now ≡ item.Node node ∷ []) }
{
    let mut only = None;
    for (index, attr) in attrs.iter().enumerate() {
        if passes(test, NodeView::Attribute(attr)) {
            if only.is_some() {
                return None;
            }
            only = Some(NodeRef {
                place,
                attr: Some(index),
            });
        }
    }
    only
}

/// Appends the attributes of a node at a place that pass a test.
pub(crate) fn push_attributes(
    stack: &NodeStack,
    place: usize,
    test: &NodeTest,
    items: &mut List<Item>,
) -> Result<(), Memory>
    ensures { OnOk result (items.new ≡ items.old ++ spec.attributes_at (path stack.now) test.now place) }
{
    let Some(NodeView::Element { attrs, .. }) = node_at(stack, place) else {
        return Ok(());
    };
    push_passing(attrs.as_slice(), place, test, items)
}

fn push_passing(
    attrs: &[Attr],
    place: usize,
    test: &NodeTest,
    items: &mut List<Item>,
) -> Result<(), Memory>
    ensures { OnOk result (items.new ≡ items.old ++ spec.passing_from place 0 test.now attrs.now) }
{
    for (index, attr) in attrs.iter().enumerate() {
        if passes(test, NodeView::Attribute(attr)) {
            let node = NodeRef {
                place,
                attr: Some(index),
            };
            items.push(Item::Node(node))?;
        }
    }
    Ok(())
}
