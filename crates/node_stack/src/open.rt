//! Open elements, and what stands on the innermost.

ghost use Rattle.std.specs.Prelude.{◌≡◌, ◌+◌, ◌<◌, ◌≤◌, ◌^◌, [], OnOk, OnErr, Some, None, true, false, MatchOption, count_by, length, option_map, slice_get, take};
ghost use Rattle.node_stack.specs.Counts.{capped};
ghost use Rattle.node_stack.specs.Open.{at_tip, attributes_in, closed_node, earlier_of, element_of, has_leaf, leaf_of, node_of, nodes_of, tally_in, tip_node, tip_told, HasChild, KeepsOwn};
ghost use Rattle.node_stack.specs.Open as told;
ghost use Rattle.node_stack.specs.Path as node;
ghost use Rattle.node_stack.specs.Path.{position_at};
ghost use Rattle.node_stack.specs.Tally.{kind_of};
ghost use Rattle.node_stack.specs.Test as spec;
ghost use Rattle.node_stack.specs.declared.open.Tip.TheVariants as tips;

use crate::node::{Closed, Leaf, NodeView};
use crate::own::Own;
use crate::spare::SpareNames;
use crate::tally::{Child, MOST, Tally};
use crate::test::passes;
use stx_base::{Attr, Binding, First, List, Memory, Name, NodeTest};

/// An element whose end is still to come.
#[derive(Drop)]
pub(crate) struct OpenElement {
    pub name: Name,
    pub attrs: List<Attr>,
    pub decls: List<Binding>,
    pub first: First,
    /// Its children so far.
    pub children: Tally,
    /// What it kept, if it waited.
    pub own: Option<Own>,
}

impl OpenElement {
    #[inline(always)]
    pub fn view(&self) -> NodeView<'_>
        ensures { node_of result ≡ element_of self.now }
    {
        NodeView::Element {
            name: &self.name,
            attrs: &self.attrs,
            decls: &self.decls,
            first: &self.first,
        }
    }

    /// The texts and the list of its counters are kept for others.
    pub fn closed(self, spare: &mut SpareNames) -> Closed
        ensures { closed_node result ≡ element_of self }
    {
        let OpenElement {
            name,
            attrs,
            decls,
            first,
            children,
            own: _,
        } = self;
        children.give_back(spare);
        Closed::Element {
            name,
            attrs,
            decls,
            first,
        }
    }
}

/// What stands on the innermost element, or on the document node.
#[derive(Drop)]
pub(crate) enum Tip {
    /// With what it kept, if it waited.
    Leaf(Leaf, Option<Own>),
    /// An attribute of the innermost element, by its number.
    Attribute(usize),
}

/// A node that was the current one.
#[derive(Drop)]
pub(crate) enum Ended {
    Element(OpenElement),
    /// With what it kept, if it waited.
    Leaf(Leaf, Option<Own>),
}

/// Counts a node among the children of the innermost element. After a refusal nothing has changed.
#[inline(always)]
pub(crate) fn count_child(
    document: &mut Tally,
    elements: &mut [OpenElement],
    child: Child<'_>,
    spare: &mut SpareNames,
) -> Result<(), Memory>
    ensures ok { OnOk result (HasChild document.old elements.old document.new elements.new (kind_of child.entry)) }
    ensures err { OnErr result (nodes_of document.new elements.new None ≡ nodes_of document.old elements.old None) }
{
    match elements.last_mut() {
        Some(element) => element.children.add(child, spare),
        None => document.add(child, spare),
    }
}

#[inline(always)]
pub(crate) fn child_of(leaf: &Leaf) -> Child<'_>
    ensures { kind_of result ≡ node.kind_of (leaf_of leaf.now) }
{
    match leaf {
        Leaf::Chars(_) => Child::Chars,
        Leaf::CData(_) => Child::CData,
        Leaf::Comment(_) => Child::Comment,
        Leaf::Pi { target, .. } => Child::Pi(target),
    }
}

/// Whether a leaf stands there.
#[inline(always)]
pub(crate) fn is_leaf(tip: &Option<Tip>) -> bool
    ensures { result ≡ has_leaf tip.now }
{
    matches!(tip, Some(Tip::Leaf(..)))
}

/// The counters of the list in which a node stands that has so many elements outside of it.
pub(crate) fn siblings<'a>(
    document: &'a Tally,
    elements: &'a [OpenElement],
    outer: usize,
) -> &'a Tally
    requires { outer ≤ length elements.now }
    ensures { result.now ≡ tally_in document.now (take outer elements.now) }
{
    match outer.checked_sub(1) {
        Some(parent) => &elements[parent].children,
        None => document,
    }
}

/// The attributes of the innermost element.
#[inline(always)]
pub(crate) fn attributes(elements: &[OpenElement]) -> &[Attr]
    ensures { result.now ≡ attributes_in [] elements.now }
{
    match elements.last() {
        Some(element) => element.attrs.as_slice(),
        None => &[],
    }
}

/// The position of what stands there, in the list that the counters count, or among the attributes.
pub(crate) fn tip_position(
    tip: &Option<Tip>,
    siblings: &Tally,
    attrs: &[Attr],
    test: &NodeTest,
) -> u64
    requires there { 0 < length (at_tip siblings.now attrs.now tip.now) }
    requires told { tip_told tip.now test.now ≡ true }
    ensures value { result ≡ position_at test.now (slice_get (at_tip siblings.now attrs.now tip.now) 0) }
    ensures bound { result < 2 ^ 63 }
{
    match tip {
        Some(tip) => standing_position(tip, siblings, attrs, test),
        None => 1,
    }
}

fn standing_position(tip: &Tip, siblings: &Tally, attrs: &[Attr], test: &NodeTest) -> u64
    requires there { 0 < length (at_tip siblings.now attrs.now (Some tip.now)) }
    requires told { tip_told (Some tip.now) test.now ≡ true }
    ensures value { result ≡ position_at test.now (slice_get (at_tip siblings.now attrs.now (Some tip.now)) 0) }
    ensures bound { result < 2 ^ 63 }
{
    match tip {
        Tip::Leaf(leaf, own) => earlier(own, view_leaf(leaf), siblings, test) + 1,
        Tip::Attribute(index) => attribute_position(attrs, *index, test),
    }
}

/// How many earlier nodes of a node's list pass a test. One that waited is asked for tests that it passes.
pub(crate) fn earlier(
    own: &Option<Own>,
    node: NodeView<'_>,
    siblings: &Tally,
    test: &NodeTest,
) -> u64
    requires { told.has_told own.now (node_of node) test.now ≡ true }
    ensures value { result ≡ earlier_of siblings.now own.now (node_of node.entry) test.now }
    ensures bound { result ≤ 9223372036854775806 }
{
    match own {
        Some(own) => own.count(test),
        None => siblings.earlier(test, passes(test, node)),
    }
}

/// The leaf that stands there, with what it kept.
#[inline(always)]
pub(crate) fn taken_leaf(tip: Option<Tip>) -> Option<(Leaf, Option<Own>)>
    ensures { MatchOption result (has_leaf tip ≡ false) (λ taken. tip ≡ Some (tips.Leaf taken.0 taken.1)) }
{
    match tip {
        Some(Tip::Leaf(leaf, own)) => Some((leaf, own)),
        Some(Tip::Attribute(_)) | None => None,
    }
}

/// Whether a node has the counts for a test: one that waited has them for the tests that it passes.
pub(crate) fn has_told(own: &Option<Own>, node: NodeView<'_>, test: &NodeTest) -> bool
    ensures { result ≡ told.has_told own.now (node_of node.entry) test.now }
{
    own.is_none() || passes(test, node)
}

/// Whether what stands there has the counts for a test.
pub(crate) fn tip_is_told(tip: &Option<Tip>, test: &NodeTest) -> bool
    ensures { result ≡ tip_told tip.now test.now }
{
    match tip {
        Some(Tip::Leaf(leaf, own)) => has_told(own, view_leaf(leaf), test),
        Some(Tip::Attribute(_)) | None => true,
    }
}

/// What a node keeps while it waits.
pub(crate) fn kept(own: Option<Own>, node: NodeView<'_>, siblings: &Tally) -> Own
    ensures { KeepsOwn siblings.now own (node_of node.entry) result }
{
    match own {
        Some(own) => own,
        None => siblings.own(node),
    }
}

/// The position of an attribute among those of its element.
fn attribute_position(attrs: &[Attr], index: usize, test: &NodeTest) -> u64
    requires { index ≤ length attrs.now }
    ensures value { result ≡ capped (count_by (λ a. spec.passes test.now (spec.Attribute a.name)) (take index attrs.now)) + 1 }
    ensures bound { result < 2 ^ 63 }
{
    let earlier = attrs[..index]
        .iter()
        .filter(|attr| passes(test, NodeView::Attribute(attr)));
    (earlier.count() as u64).min(MOST) + 1
}

#[inline(always)]
pub(crate) fn view_leaf(leaf: &Leaf) -> NodeView<'_>
    ensures { node_of result ≡ leaf_of leaf.now }
{
    match leaf {
        Leaf::Chars(text) => NodeView::Chars(text),
        Leaf::CData(text) => NodeView::CData(text),
        Leaf::Comment(text) => NodeView::Comment(text),
        Leaf::Pi { target, text } => NodeView::Pi { target, text },
    }
}

#[inline(always)]
pub(crate) fn view_tip<'a>(tip: &'a Option<Tip>, attrs: &'a [Attr]) -> Option<NodeView<'a>>
    ensures { option_map node_of result ≡ tip_node attrs.now tip.now }
{
    match tip {
        Some(Tip::Leaf(leaf, _)) => Some(view_leaf(leaf)),
        Some(Tip::Attribute(index)) => match attrs.get(*index) {
            Some(attr) => Some(NodeView::Attribute(attr)),
            None => None,
        },
        None => None,
    }
}
