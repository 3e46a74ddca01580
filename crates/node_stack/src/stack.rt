ghost use Rattle.std.specs.Prelude.{[], true, option_map, ◌≡◌, ◌↔◌, ◌+◌, ◌<◌, ◌≤◌, ◌^◌, IsTrue, IfOk, IfErr, OnOk, OnErr, Some, length};
ghost use Rattle.node_stack.specs.declared.fault.StackFault.TheVariants.{Depth};

use crate::fault::StackFault;
use crate::node::{Closed, Leaf, NodeView};
use crate::open::{
    Ended, OpenElement, Tip, attributes, child_of, count_child, earlier, has_told, is_leaf,
    siblings, taken_leaf, tip_is_told, tip_position, view_tip,
};
use crate::parked::{Parked, Waiting, put_aside};
use crate::spare::SpareNames;
use crate::tally::{Child, Tally};
use std::alloc::Global;
use stx_base::{Attr, Binding, First, List, Memory, Name, NodeTest, Spare, Text};

/// The path from the document node to the current node. Of the nodes before those of the path it keeps how many there
/// were, by name and by kind.
#[derive(Drop)]
pub struct NodeStack {
    alloc: Global,
    limit: u32,
    /// The nodes outside of the root, and the root.
    document: Tally,
    /// The innermost last.
    elements: Vec<OpenElement>,
    tip: Option<Tip>,
    /// The string value of nodes that have none.
    empty: Text,
    spare: SpareNames,
    ghost limited: { limit + 1 < 2 ^ 32 },
    ghost bounded: { length elements.items ≤ limit },
    ghost no_text: { empty ≡ [] },
}

impl NodeStack {
    ghost use Rattle.node_stack.specs.Path.{at_attribute, attributes, can_end, can_have_children, current, depth, document_alone, entered, is_attribute, is_element, is_told, last_of, left, level, node_at, parked, position, resumed, string_value, text_of, Element};
    ghost use Rattle.node_stack.specs.Open.{closed_node, ended_in, leaf_of, node_of, open_in};
    ghost use Rattle.node_stack.specs.Stack.{innermost, path, path_node};

    /// The document node alone. At most `limit` elements may be open at once.
    pub fn new(alloc: Global, limit: u32) -> Result<NodeStack, Memory>
        requires { limit + 1 < 2 ^ 32 }
        ensures { IfOk result (λ stack. path stack ≡ document_alone limit) }
    {
        Ok(NodeStack {
            alloc,
            limit,
            document: Tally::new(alloc),
            elements: Vec::new(alloc),
            tip: None,
            empty: Text::new(alloc),
            spare: SpareNames::new(alloc),
        })
    }

    /// Makes an element the current node, a child of the one that was. After a refusal the path is the same.
    #[inline(always)]
    pub fn open(
        &mut self,
        name: Name,
        attrs: List<Attr>,
        decls: List<Binding>,
        first: First,
    ) -> Result<(), StackFault>
        requires { IsTrue (can_have_children (current (path self.old))) }
        ensures ok { OnOk result (path self.new ≡ entered (Element name attrs decls first) (path self.old)) }
        ensures err { OnErr result (path self.new ≡ path self.old) }
        // As many are open as may be.
        ensures full { IfErr result (λ fault. fault ≡ Depth → depth (path self.old) ≡ (path self.old).limit) }
        ensures room { OnOk result (depth (path self.old) < (path self.old).limit) }
    {
        if self.elements.len() >= self.limit as usize {
            return Err(StackFault::Depth);
        }
        self.elements.reserve(1)?;
        let children = Tally::new(self.alloc);
        // Nothing stands on the current node: at most a number is left there that no attribute has.
        self.tip = None;
        count_child(
            &mut self.document,
            &mut self.elements,
            Child::Element(&name),
            &mut self.spare,
        )?;
        self.elements.push_reserved(OpenElement {
            name,
            attrs,
            decls,
            first,
            children,
            own: None,
        });
        Ok(())
    }

    /// Makes a leaf the current node, a child of the one that was. After a refusal the path is the same.
    #[inline(always)]
    pub fn leaf(&mut self, leaf: Leaf) -> Result<(), Memory>
        requires { IsTrue (can_have_children (current (path self.old))) }
        ensures ok { OnOk result (path self.new ≡ entered (leaf_of leaf) (path self.old)) }
        ensures err { OnErr result (path self.new ≡ path self.old) }
    {
        self.tip = None;
        count_child(
            &mut self.document,
            &mut self.elements,
            child_of(&leaf),
            &mut self.spare,
        )?;
        self.tip = Some(Tip::Leaf(leaf, None));
        Ok(())
    }

    /// Ends the current node, and gives it back. Allocates nothing.
    pub fn close(&mut self) -> Closed
        requires { IsTrue (can_end (current (path self.old))) }
        ensures node { current (path self.old) ≡ Some (closed_node result) }
        ensures path { path self.new ≡ left (path self.old) }
    {
        match self.end() {
            Ended::Element(element) => element.closed(&mut self.spare),
            Ended::Leaf(leaf, _) => Closed::Leaf(leaf),
        }
    }

    /// Takes the current node off the path to wait, with its counts. Allocates nothing.
    pub fn park(&mut self) -> Parked
        requires { IsTrue (can_end (current (path self.old))) }
        ensures node { option_map parked (last_of (path self.old).nodes) ≡ Some (path_node result) }
        ensures path { path self.new ≡ left (path self.old) }
    {
        let ended = self.end();
        let siblings = siblings(&self.document, &self.elements, self.elements.len());
        Parked {
            node: put_aside(ended, siblings),
        }
    }

    /// Makes a node that waited the current node again, without counting it once more. After a refusal the path is the
    /// same, and the node is dropped.
    pub fn resume(&mut self, node: Parked) -> Result<(), Memory>
        requires children { IsTrue (can_have_children (current (path self.old))) }
        requires room { IsTrue (is_element (path_node node).node) → depth (path self.old) < (path self.old).limit }
        ensures ok { OnOk result (path self.new ≡ resumed (path_node node) (path self.old)) }
        ensures err { OnErr result (path self.new ≡ path self.old) }
    {
        let Parked { node } = node;
        match node {
            Waiting::Element(element, own) => {
                let mut element = element;
                element.own = Some(own);
                self.push(element)
            }
            Waiting::Leaf(leaf, own) => {
                self.tip = Some(Tip::Leaf(leaf, Some(own)));
                Ok(())
            }
        }
    }

    /// Takes the current node off the path.
    #[inline(always)]
    fn end(&mut self) -> Ended
        requires { IsTrue (can_end (current (path self.old))) }
        ensures node { last_of (path self.old).nodes ≡ Some (ended_in (innermost self.new) result) }
        ensures path { path self.new ≡ left (path self.old) }
    {
        match taken_leaf(self.tip.take()) {
            Some((leaf, own)) => Ended::Leaf(leaf, own),
            None => Ended::Element(self.elements.pop().unwrap()),
        }
    }

    /// Makes an element the current node, which isn't counted. After a refusal the path is the same.
    fn push(&mut self, element: OpenElement) -> Result<(), Memory>
        requires children { IsTrue (can_have_children (current (path self.old))) }
        requires room { depth (path self.old) < (path self.old).limit }
        ensures ok { OnOk result (path self.new ≡ resumed (open_in (innermost self.old) element) (path self.old)) }
        ensures err { OnErr result (path self.new ≡ path self.old) }
    {
        self.elements.reserve(1)?;
        self.tip = None;
        self.elements.push(element)?;
        Ok(())
    }

    /// Makes an attribute of the current element the current node, by its number from 0.
    pub fn enter_attribute(&mut self, index: usize) -> Result<(), Memory>
        requires { index < length (attributes (current (path self.old))) }
        ensures ok { OnOk result (path self.new ≡ at_attribute index (path self.old)) }
        ensures err { OnErr result (path self.new ≡ path self.old) }
    {
        self.tip = Some(Tip::Attribute(index));
        Ok(())
    }

    /// Makes the attribute's element the current node again. Allocates nothing.
    pub fn leave_attribute(&mut self)
        requires { IsTrue (is_attribute (current (path self.old))) }
        ensures { path self.new ≡ left (path self.old) }
    {
        self.tip = None;
    }

    /// The position of the node at a place by a test: one plus the number of earlier nodes of its list that pass, and at
    /// most 9223372036854775807. Allocates nothing.
    pub fn position(&self, place: usize, test: &NodeTest) -> u64
        requires place { place < length (path self.now).nodes }
        // A node that waited has the counts for the tests that it passes.
        requires told { IsTrue (is_told (path self.now) place test.now) }
        ensures value { result ≡ position (path self.now) place test.now }
        ensures bound { result < 2 ^ 63 }
    {
        let Some(outer) = place.checked_sub(1) else {
            return 1;
        };
        let siblings = siblings(&self.document, &self.elements, outer);
        match self.elements.get(outer) {
            Some(element) => earlier(&element.own, element.view(), siblings, test) + 1,
            None => tip_position(&self.tip, siblings, attributes(&self.elements), test),
        }
    }

    /// Whether fewer elements are open than may be. Allocates nothing.
    pub fn has_room(&self) -> bool
        ensures { IsTrue result ↔ (depth (path self.now) < (path self.now).limit) }
    {
        self.elements.len() < self.limit as usize
    }

    /// Whether `position` may be asked: it may of each node that didn't wait. Allocates nothing.
    pub fn is_told(&self, place: usize, test: &NodeTest) -> bool
        requires { place < length (path self.now).nodes }
        ensures { result ≡ is_told (path self.now) place test.now }
    {
        let Some(outer) = place.checked_sub(1) else {
            return true;
        };
        match self.elements.get(outer) {
            Some(element) => has_told(&element.own, element.view(), test),
            None => tip_is_told(&self.tip, test),
        }
    }

    /// The string value of the node at a place: an element has that of its first child, where that is a text. Allocates
    /// nothing.
    pub fn string_value(&self, place: usize) -> &Text
        requires { place < length (path self.now).nodes }
        ensures { result.now ≡ text_of (node_at (path self.now) place) }
    {
        self.text_of(self.view(place))
    }

    /// The string value of a node, as of an attribute of an element of the path. Allocates nothing.
    pub fn text_of<'a>(&'a self, node: NodeView<'a>) -> &'a Text
        ensures { result.now ≡ string_value (node_of node.entry) }
    {
        match node.text() {
            Some(text) => text,
            None => &self.empty,
        }
    }

    /// The number of the current node's place; an attribute has its element's. Allocates nothing.
    #[inline(always)]
    pub fn level(&self) -> u32
        ensures { result ≡ level (path self.now) }
    {
        let elements = self.elements.len() as u32;
        if is_leaf(&self.tip) {
            elements + 1
        } else {
            elements
        }
    }

    /// How many nodes the path has. Allocates nothing.
    #[inline(always)]
    pub fn len(&self) -> usize
        ensures value { result ≡ length (path self.now).nodes }
        ensures bound { result < 2 ^ 63 }
    {
        let open = self.elements.len() + 1;
        match view_tip(&self.tip, attributes(&self.elements)) {
            Some(_) => open + 1,
            None => open,
        }
    }

    /// The current node. Allocates nothing.
    #[inline(always)]
    pub fn current(&self) -> NodeView<'_>
        ensures { current (path self.now) ≡ Some (node_of result) }
    {
        self.view(self.len() - 1)
    }

    /// The node at a place, where 0 is that of the document node. Allocates nothing.
    #[inline(always)]
    pub fn view(&self, place: usize) -> NodeView<'_>
        requires { place < length (path self.now).nodes }
        ensures { node_at (path self.now) place ≡ Some (node_of result) }
    {
        let Some(inner) = place.checked_sub(1) else {
            return NodeView::Document;
        };
        match self.elements.get(inner) {
            Some(element) => element.view(),
            None => match view_tip(&self.tip, attributes(&self.elements)) {
                Some(view) => view,
                None => NodeView::Document,
            },
        }
    }
}
