//! Counters of the nodes that a list has had so far.

ghost use Rattle.std.specs.Prelude.{◌≡◌, ◌-◌, ◌^◌, min, OnOk, OnErr, None};

use crate::names::{Names, count_text, times};
use crate::node::NodeView;
use crate::own::Own;
use crate::spare::SpareNames;
use std::alloc::Global;
use std::collections::BTreeMap;
use stx_base::{Memory, Name, NodeTest, Text};

/// The greatest number of earlier nodes that a position tells.
pub(crate) const MOST: u64 = 9_223_372_036_854_775_806;

/// A node as tests see it.
#[derive(Clone, Copy)]
pub(crate) enum Child<'a> {
    Element(&'a Name),
    Chars,
    CData,
    Comment,
    Pi(&'a Text),
}

/// How many nodes of each kind a list has had. Names and targets are kept once.
#[derive(Drop)]
pub(crate) struct Tally {
    alloc: Global,
    names: Names,
    /// How often each target came again after it first came.
    targets: BTreeMap<String, u64>,
    nodes: u64,
    elements: u64,
    /// Text nodes and CDATA nodes.
    chars: u64,
    cdata: u64,
    comments: u64,
    instructions: u64,
}

impl Tally {
    ghost use Rattle.node_stack.specs.Counts.{counted, none};
    ghost use Rattle.node_stack.specs.Open.{node_of, KeepsOwn};
    ghost use Rattle.node_stack.specs.Tally.{before, count_of, counts, kind_of, without};
    ghost use Rattle.node_stack.specs.Test.{Element, CData, Chars, Comment, Pi};

    /// Allocates nothing.
    #[inline(always)]
    pub fn new(alloc: Global) -> Tally
        ensures { counts result ≡ none }
    {
        Tally {
            alloc,
            names: Names::new(alloc),
            targets: BTreeMap::new(alloc),
            nodes: 0,
            elements: 0,
            chars: 0,
            cdata: 0,
            comments: 0,
            instructions: 0,
        }
    }

    /// Counts a node. After a refusal nothing has changed.
    #[inline(always)]
    pub fn add(&mut self, child: Child<'_>, spare: &mut SpareNames) -> Result<(), Memory>
        ensures counts { OnOk result (counts self.new ≡ counted (kind_of child.entry) (counts self.old)) }
        ensures before { OnOk result (before self.new (kind_of child.entry) ≡ (counts self.old).passing) }
        ensures err { OnErr result (counts self.new ≡ counts self.old) }
    {
        match child {
            Child::Element(name) => self.add_element(name, spare),
            Child::Pi(target) => self.add_instruction(target),
            Child::Chars => {
                self.add_chars();
                Ok(())
            }
            Child::CData => {
                self.add_cdata();
                Ok(())
            }
            Child::Comment => {
                self.add_comment();
                Ok(())
            }
        }
    }

    fn add_element(&mut self, name: &Name, spare: &mut SpareNames) -> Result<(), Memory>
        ensures counts { OnOk result (counts self.new ≡ counted (Element name.now) (counts self.old)) }
        ensures before { OnOk result (before self.new (Element name.now) ≡ (counts self.old).passing) }
        ensures err { OnErr result (counts self.new ≡ counts self.old) }
    {
        self.names.count(name, spare)?;
        self.elements = self.elements.saturating_add(1);
        self.nodes = self.nodes.saturating_add(1);
        Ok(())
    }

    fn add_instruction(&mut self, target: &Text) -> Result<(), Memory>
        ensures counts { OnOk result (counts self.new ≡ counted (Pi target.now) (counts self.old)) }
        ensures before { OnOk result (before self.new (Pi target.now) ≡ (counts self.old).passing) }
        ensures err { OnErr result (counts self.new ≡ counts self.old) }
    {
        count_text(self.alloc, &mut self.targets, target)?;
        self.instructions = self.instructions.saturating_add(1);
        self.nodes = self.nodes.saturating_add(1);
        Ok(())
    }

    fn add_chars(&mut self)
        ensures counts { counts self.new ≡ counted Chars (counts self.old) }
        ensures before { before self.new Chars ≡ (counts self.old).passing }
    {
        self.chars = self.chars.saturating_add(1);
        self.nodes = self.nodes.saturating_add(1);
    }

    fn add_cdata(&mut self)
        ensures counts { counts self.new ≡ counted CData (counts self.old) }
        ensures before { before self.new CData ≡ (counts self.old).passing }
    {
        self.cdata = self.cdata.saturating_add(1);
        self.chars = self.chars.saturating_add(1);
        self.nodes = self.nodes.saturating_add(1);
    }

    fn add_comment(&mut self)
        ensures counts { counts self.new ≡ counted Comment (counts self.old) }
        ensures before { before self.new Comment ≡ (counts self.old).passing }
    {
        self.comments = self.comments.saturating_add(1);
        self.nodes = self.nodes.saturating_add(1);
    }

    /// Keeps what can be used again.
    #[inline(always)]
    pub fn give_back(self, spare: &mut SpareNames) {
        let Tally {
            alloc: _,
            names,
            targets: _,
            nodes: _,
            elements: _,
            chars: _,
            cdata: _,
            comments: _,
            instructions: _,
        } = self;
        spare.keep(names);
    }

    /// How many nodes pass a test, without the one node of the list that is asked about, where it passes too.
    pub fn earlier(&self, test: &NodeTest, is_passed: bool) -> u64
        ensures { result ≡ without is_passed (count_of self.now test.now) }
    {
        let count = self.count(test);
        let earlier = if is_passed {
            count.saturating_sub(1)
        } else {
            count
        };
        earlier.min(MOST)
    }

    /// What a node of the list, which is counted too, keeps while it waits.
    pub fn own(&self, node: NodeView<'_>) -> Own
        ensures { KeepsOwn self.now None (node_of node.entry) result }
    {
        match node {
            NodeView::Element { name, .. } => Own::beside_one(
                self.names.times(name),
                self.names.within(&name.uri),
                self.elements,
                self.nodes,
            ),
            NodeView::Chars(_) => Own::beside_one(0, 0, self.chars, self.nodes),
            NodeView::CData(_) => Own::beside_one(self.cdata, 0, self.chars, self.nodes),
            NodeView::Comment(_) => Own::beside_one(0, 0, self.comments, self.nodes),
            NodeView::Pi { target, .. } => Own::beside_one(
                times(self.targets.get(target.as_str())),
                0,
                self.instructions,
                self.nodes,
            ),
            NodeView::Document | NodeView::Attribute(_) => Own::beside_one(0, 0, 0, self.nodes),
        }
    }

    /// How many nodes pass a test, as far as 64 bits go.
    fn count(&self, test: &NodeTest) -> u64
        ensures { result ≡ min (2 ^ 64 - 1) (count_of self.now test.now) }
    {
        match test {
            NodeTest::Name(name) => self.names.times(name),
            NodeTest::Prefix(binding) => self.names.within(&binding.uri),
            NodeTest::AnyElement => self.elements,
            NodeTest::AnyNode => self.nodes,
            NodeTest::Chars => self.chars,
            NodeTest::CData => self.cdata,
            NodeTest::Comment => self.comments,
            NodeTest::AnyPi => self.instructions,
            NodeTest::Pi(target) => times(self.targets.get(target.as_str())),
            NodeTest::Document
            | NodeTest::AttrName(_)
            | NodeTest::AttrPrefix(_)
            | NodeTest::AnyAttr => 0,
        }
    }
}
