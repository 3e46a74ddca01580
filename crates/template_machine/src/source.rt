//! Where nodes come from.

ghost use Rattle.std.specs.Prelude.{◌≡◌, ◌+◌, ◌-◌, ◌^◌, ◌<◌, [], ◌∷◌, IsSome, IsTrue, IfOk, IfErr, None, Some, length, option_map};
ghost use Rattle.std.specs.Option.{option_copied};
ghost use Rattle.node_stack.specs.Open.{leaf_of, node_of};
ghost use Rattle.node_stack.specs.Path as paths;
ghost use Rattle.node_stack.specs.Path.{attributes, can_end, can_have_children, current, depth, document_alone, entered, left, resumed, Element};
ghost use Rattle.node_stack.specs.Stack.{path, path_node};
ghost use Rattle.template_machine.specs.Scopes.{IsTold};
ghost use Rattle.template_machine.specs.Sources as spec;
ghost use Rattle.template_machine.specs.Sources.{HasScope, Stands};
ghost use Rattle.template_machine.specs.Well.{begun_behind};

use crate::bindings::{Bindings, Change};
use crate::stop::Stop;
use node_stack::{Closed, Leaf, NodeStack, NodeView, Parked, StackFault};
use std::alloc::Global;
use stx_base::{Attr, Binding, First, List, Memory, Name, Place, Spare};
use xml_events::Event;

/// What is known of the front of the innermost open list.
#[derive(Clone, Copy, Debug, PartialEq, Eq)]
pub enum Ahead {
    Nothing,
    /// A head that was begun is the current node of the path.
    Here,
    /// A head that was begun is held aside, while a body goes on.
    Held,
    /// The list has ended.
    Ended,
}

/// Where the nodes of a source come from.
#[derive(Clone, Copy, Debug, PartialEq, Eq)]
pub enum Origin {
    /// The main document.
    Main,
    /// A buffer, which the instruction at the place opened.
    Buffer { id: u32, at: Place },
    /// Another document.
    Document { at: Place },
}

/// A document or a buffer that is processed.
#[derive(Drop)]
pub struct Source {
    pub stack: NodeStack,
    pub bindings: Bindings,
    pub ahead: Ahead,
    /// The head that is held aside.
    held: Option<Parked>,
    pub origin: Origin,
    /// How many lists have begun in it that haven't ended: its own, and those of elements.
    pub begun: u32,
    /// Where the next event of a buffer stands.
    pub next: usize,
}

impl Source {
    /// At the document node. At most `depth` elements may be open at once.
    pub fn new(alloc: Global, depth: u32, origin: Origin) -> Result<Source, Memory>
        requires { depth + 1 < 2 ^ 32 }
        ensures { IfOk result (λ s. Stands s (document_alone depth) ([] ∷ []) Ahead.Nothing None origin × (s.begun ≡ 1) × (s.next ≡ 0)) }
    {
        Ok(Source {
            stack: NodeStack::new(alloc, depth)?,
            bindings: Bindings::new(alloc),
            ahead: Ahead::Nothing,
            held: None,
            origin,
            begun: 1,
            next: 0,
        })
    }

    /// A head that is an element becomes the current node.
    #[inline(always)]
    pub fn open(
        &mut self,
        name: Name,
        attrs: List<Attr>,
        decls: List<Binding>,
        first: First,
    ) -> Result<Change, Stop>
        requires children { IsTrue (can_have_children (current (path self.old.stack))) }
        requires room { depth (path self.old.stack) < (path self.old.stack).limit }
        ensures ok { IfOk result (λ _. Stands self.new (entered (Element name attrs decls first) (path self.old.stack)) (spec.within_node (Element name attrs decls first) self.old.bindings) Ahead.Here (spec.held_node self.old) self.old.origin) }
        ensures told { IfOk result (λ change. IsTold change self.old.bindings self.new.bindings) }
        ensures err { IfErr result (λ stop. stop ≡ Stop.Memory) }
        ensures counts { (self.new.begun ≡ self.old.begun) × (self.new.next ≡ self.old.next) }
    {
        let change = self.bindings.enter(&decls)?;
        match self.stack.open(name, attrs, decls, first) {
            Ok(()) => {
                self.ahead = Ahead::Here;
                Ok(change)
            }
            Err(StackFault::Memory) => Err(Stop::Memory),
            Err(StackFault::Depth) => unreachable!(),
        }
    }

    /// A head that is a leaf becomes the current node.
    #[inline(always)]
    pub fn leaf(&mut self, leaf: Leaf) -> Result<(), Stop>
        requires { IsTrue (can_have_children (current (path self.old.stack))) }
        ensures ok { IfOk result (λ _. Stands self.new (entered (leaf_of leaf) (path self.old.stack)) self.old.bindings Ahead.Here (spec.held_node self.old) self.old.origin) }
        ensures err { IfErr result (λ stop. stop ≡ Stop.Memory) }
        ensures counts { (self.new.begun ≡ self.old.begun) × (self.new.next ≡ self.old.next) }
    {
        self.stack.leaf(leaf)?;
        self.ahead = Ahead::Here;
        Ok(())
    }

    /// Counts an event that is told: an element begins, or the innermost list that has begun ends, if there is one. Allocates nothing.
    #[inline(always)]
    pub fn count(&mut self, event: &Event)
        requires { begun_behind event.now self.old.begun < 2 ^ 32 }
        ensures { self.new ≡ record self.old { begun = begun_behind event.now self.old.begun } }
    {
        match event {
            Event::Start { .. } => self.begun += 1,
            Event::End { .. } => self.begun = self.begun.saturating_sub(1),
            Event::DocumentEnd { .. } => self.begun = self.begun.saturating_sub(1),
            _ => {}
        }
    }

    /// How many attributes the current node has. Allocates nothing.
    pub fn attributes(&self) -> usize
        ensures { result ≡ length (attributes (current (path self.now.stack))) }
    {
        match self.stack.current() {
            NodeView::Element { attrs, .. } => attrs.len(),
            _ => 0,
        }
    }

    #[inline(always)]
    pub fn is_element(&self) -> bool
        ensures { result ≡ spec.is_in_element (path self.now.stack) }
    {
        matches!(self.stack.current(), NodeView::Element { .. })
    }

    /// Whether the current node may have children.
    #[inline(always)]
    pub fn has_list(&self) -> bool
        ensures { result ≡ can_have_children (current (path self.now.stack)) }
    {
        matches!(
            self.stack.current(),
            NodeView::Element { .. } | NodeView::Document
        )
    }

    /// Ends the current node, an element or a leaf. Its texts are done with.
    #[inline(always)]
    pub fn close(&mut self, spare: &mut Spare) -> Change
        requires end { IsTrue (can_end (current (path self.old.stack))) }
        requires scope { HasScope self.old }
        ensures closed { Stands self.new (left (path self.old.stack)) (spec.around_node (current (path self.old.stack)) self.old.bindings) self.old.ahead (spec.held_node self.old) self.old.origin }
        ensures told { IsTold result self.old.bindings self.new.bindings }
        ensures counts { (self.new.begun ≡ self.old.begun) × (self.new.next ≡ self.old.next) }
    {
        match self.stack.close() {
            Closed::Element {
                name,
                attrs,
                decls: _,
                first,
            } => {
                spare.keep_name(name);
                spare.keep_attrs(attrs);
                if let First::Chars(text) = first {
                    spare.keep(text);
                }
                self.bindings.leave()
            }
            Closed::Leaf(leaf) => {
                keep_leaf(leaf, spare);
                Change::Same
            }
        }
    }

    /// Takes the current node, a head, off the path, to be looked at again.
    pub fn hold(&mut self) -> Change
        requires end { IsTrue (can_end (current (path self.old.stack))) }
        requires scope { HasScope self.old }
        ensures held { Stands self.new (left (path self.old.stack)) (spec.around_node (current (path self.old.stack)) self.old.bindings) Ahead.Held (spec.waiting (path self.old.stack)) self.old.origin }
        ensures told { IsTold result self.old.bindings self.new.bindings }
        ensures counts { (self.new.begun ≡ self.old.begun) × (self.new.next ≡ self.old.next) }
    {
        let (node, change) = self.park();
        self.held = Some(node);
        self.ahead = Ahead::Held;
        change
    }

    /// Makes the head that is held the current node again.
    pub fn resume_held(&mut self) -> Result<Change, Stop>
        requires held { IsSome self.old.held }
        requires children { IsTrue (can_have_children (current (path self.old.stack))) }
        requires room { spec.FindsRoom (spec.held_node self.old) (path self.old.stack) }
        ensures ok { IfOk result (λ _. Stands self.new (spec.resumed_by (spec.held_node self.old) (path self.old.stack)) (spec.within_held (spec.held_node self.old) self.old.bindings) Ahead.Here None self.old.origin) }
        ensures told { IfOk result (λ change. IsTold change self.old.bindings self.new.bindings) }
        ensures err { IfErr result (λ stop. stop ≡ Stop.Memory) }
        ensures counts { (self.new.begun ≡ self.old.begun) × (self.new.next ≡ self.old.next) }
    {
        match self.held.take() {
            Some(node) => {
                let change = self.resume(node)?;
                self.ahead = Ahead::Here;
                Ok(change)
            }
            None => unreachable!(),
        }
    }

    /// Takes the current node, an element or a leaf, off the path to wait.
    pub fn park(&mut self) -> (Parked, Change)
        requires end { IsTrue (can_end (current (path self.old.stack))) }
        requires scope { HasScope self.old }
        ensures parked { Stands self.new (left (path self.old.stack)) (spec.around_node (current (path self.old.stack)) self.old.bindings) self.old.ahead (spec.held_node self.old) self.old.origin }
        ensures node { spec.waiting (path self.old.stack) ≡ Some (path_node result.0) }
        ensures told { IsTold result.1 self.old.bindings self.new.bindings }
        ensures counts { (self.new.begun ≡ self.old.begun) × (self.new.next ≡ self.old.next) }
    {
        let change = if self.is_element() {
            self.bindings.leave()
        } else {
            Change::Same
        };
        (self.stack.park(), change)
    }

    /// Makes a node that waited the current node again.
    pub fn resume(&mut self, node: Parked) -> Result<Change, Stop>
        requires children { IsTrue (can_have_children (current (path self.old.stack))) }
        requires room { spec.FindsRoom (Some (path_node node)) (path self.old.stack) }
        ensures ok { IfOk result (λ _. Stands self.new (resumed (path_node node) (path self.old.stack)) (spec.within_node (path_node node).node self.old.bindings) self.old.ahead (spec.held_node self.old) self.old.origin) }
        ensures told { IfOk result (λ change. IsTold change self.old.bindings self.new.bindings) }
        ensures err { IfErr result (λ stop. stop ≡ Stop.Memory) }
        ensures counts { (self.new.begun ≡ self.old.begun) × (self.new.next ≡ self.old.next) }
    {
        self.stack.resume(node)?;
        match declared_in(self.stack.current()) {
            Some(decls) => Ok(self.bindings.enter(decls)?),
            None => Ok(Change::Same),
        }
    }
}

/// What an element declares.
fn declared_in(node: NodeView<'_>) -> Option<&List<Binding>>
    ensures { option_copied result ≡ spec.declared_in (node_of node.entry) }
{
    match node {
        NodeView::Element { decls, .. } => Some(decls),
        _ => None,
    }
}

#[inline(always)]
fn keep_leaf(leaf: Leaf, spare: &mut Spare) {
    match leaf {
        Leaf::Chars(text) | Leaf::CData(text) | Leaf::Comment(text) => spare.keep(text),
        Leaf::Pi { target, text } => {
            spare.keep(target);
            spare.keep(text);
        }
    }
}
