//! Numbers for the texts that the tests of a sheet name.

ghost use Rattle.std.specs.Prelude.{◌≡◌, ◌<◌, [], None, OnOk, false, is_some, string_bytes, true};
ghost use Rattle.std.specs.Bool.{OnFalse};
ghost use Rattle.std.specs.List.{list_all};
ghost use Rattle.std.specs.Str.{bytes_eq};
ghost use Rattle.indexmap.specs.IndexSet.{contains_by, index_of_by};
ghost use Rattle.group_scope.specs.Marked.{is_marked, mark_of};
ghost use Rattle.node_stack.specs.Open.{node_of};
ghost use Rattle.node_stack.specs.Path.{kind_of};

use crate::key::Test;
use indexmap::IndexSet;
use node_stack::NodeView;
use std::alloc::Global;
use stx_base::{Memory, Name, NodeTest, Text};

/// So many marks of texts are kept.
const MARKS: usize = 256;

/// The texts that tests name, each once.
#[derive(Drop)]
pub struct Words {
    texts: IndexSet<String>,
    // The number of the empty text, which is the URI of most names, so that it needn't be looked up.
    empty: Option<usize>,
    // By their first byte and their length: a text that isn't marked is none of them, so that most names needn't be looked up.
    marks: [bool; MARKS],
    ghost known: { empty ≡ index_of_by (λ word. bytes_eq [] (string_bytes word)) texts },
    ghost marked: { list_all (λ word. is_marked marks (string_bytes word)) texts.keys ≡ true },
    ghost has: { is_some empty ≡ contains_by (λ word. bytes_eq [] (string_bytes word)) texts },
}

impl Words {
    ghost use Rattle.group_scope.specs.Words as spec;

    pub fn new(alloc: Global) -> Words {
        Words {
            texts: IndexSet::new(alloc),
            empty: None,
            marks: [false; MARKS],
        }
    }

    /// Takes up the texts of a test.
    pub fn note(&mut self, alloc: Global, test: &NodeTest) -> Result<(), Memory>
        ensures numbered { OnOk result (spec.are_numbered self.new test.now ≡ true) }
        ensures kept { OnOk result (spec.Keeps self.old self.new) }
    {
        match test {
            NodeTest::Name(name) | NodeTest::AttrName(name) => self.note_name(alloc, name),
            NodeTest::Prefix(binding) | NodeTest::AttrPrefix(binding) => {
                self.note_text(alloc, &binding.uri)
            }
            NodeTest::Pi(target) => self.note_text(alloc, target),
            _ => Ok(()),
        }
    }

    fn note_name(&mut self, alloc: Global, name: &Name) -> Result<(), Memory>
        ensures uri { OnOk result (spec.has_number self.new name.now.uri ≡ true) }
        ensures local { OnOk result (spec.has_number self.new name.now.local ≡ true) }
        ensures kept { OnOk result (spec.Keeps self.old self.new) }
    {
        self.note_text(alloc, &name.uri)?;
        self.note_text(alloc, &name.local)
    }

    fn note_text(&mut self, alloc: Global, text: &Text) -> Result<(), Memory>
        ensures numbered { OnOk result (spec.has_number self.new text.now ≡ true) }
        ensures kept { OnOk result (spec.Keeps self.old self.new) }
    {
        if self.number(text).is_some() {
            return Ok(());
        }
        let word = String::from_str(alloc, text.as_str())?;
        let mark = mark_of(text.as_str());
        self.texts.insert(word)?;
        self.marks[mark] = true;
        self.empty = self.texts.get_index_of("");
        Ok(())
    }

    /// Whether a text may have a number: it is true of each that has one. It may be true of others as well, since whoever
    /// asks looks the text up then.
    #[inline(always)]
    pub fn may_have(&self, text: &Text) -> bool
        ensures number { OnFalse result (spec.number self.now text.now ≡ None) }
        ensures found { OnFalse result (spec.has_number self.now text.now ≡ false) }
    {
        self.marks[mark_of(text.as_str())]
    }

    fn number(&self, text: &Text) -> Option<usize>
        ensures number { result ≡ spec.number self.now text.now }
        ensures found { is_some result ≡ spec.has_number self.now text.now }
    {
        if text.is_empty() {
            return self.empty;
        }
        if !self.may_have(text) {
            return None;
        }
        self.texts.get_index_of(text.as_str())
    }

    /// A test by the numbers of its texts.
    pub fn numbered(&self, test: &NodeTest) -> Test
        ensures { result ≡ spec.numbered self.now test.now }
    {
        match test {
            NodeTest::Document => Test::Document,
            NodeTest::Name(name) => Test::Name(self.number(&name.uri), self.number(&name.local)),
            NodeTest::Prefix(binding) => Test::Prefix(self.number(&binding.uri)),
            NodeTest::AnyElement => Test::AnyElement,
            NodeTest::AnyNode => Test::AnyNode,
            NodeTest::Chars => Test::Chars,
            NodeTest::CData => Test::CData,
            NodeTest::Comment => Test::Comment,
            NodeTest::AnyPi => Test::AnyPi,
            NodeTest::Pi(target) => Test::Pi(self.number(target)),
            NodeTest::AttrName(name) => {
                Test::AttrName(self.number(&name.uri), self.number(&name.local))
            }
            NodeTest::AttrPrefix(binding) => Test::AttrPrefix(self.number(&binding.uri)),
            NodeTest::AnyAttr => Test::AnyAttr,
        }
    }

    /// The tests that a node can pass.
    pub fn asked(&self, node: NodeView<'_>) -> [Option<Test>; 4]
        ensures { result ≡ spec.asked self.now (kind_of (node_of node.entry)) }
    {
        match node {
            NodeView::Document => [Some(Test::Document), None, None, None],
            NodeView::Element { name, .. } => self.of_element(name),
            NodeView::Chars(_) => [Some(Test::Chars), Some(Test::AnyNode), None, None],
            NodeView::CData(_) => [
                Some(Test::CData),
                Some(Test::Chars),
                Some(Test::AnyNode),
                None,
            ],
            NodeView::Comment(_) => [Some(Test::Comment), Some(Test::AnyNode), None, None],
            NodeView::Pi { target, .. } => {
                let target = self.number(target);
                [
                    Some(Test::Pi(target)),
                    Some(Test::AnyPi),
                    Some(Test::AnyNode),
                    None,
                ]
            }
            NodeView::Attribute(attr) => self.of_attribute(&attr.name),
        }
    }

    fn of_element(&self, name: &Name) -> [Option<Test>; 4]
        ensures { result ≡ spec.of_element self.now name.now }
    {
        let uri = self.number(&name.uri);
        let local = self.number(&name.local);
        [
            Some(Test::Name(uri, local)),
            Some(Test::Prefix(uri)),
            Some(Test::AnyElement),
            Some(Test::AnyNode),
        ]
    }

    fn of_attribute(&self, name: &Name) -> [Option<Test>; 4]
        ensures { result ≡ spec.of_attribute self.now name.now }
    {
        let uri = self.number(&name.uri);
        let local = self.number(&name.local);
        [
            Some(Test::AttrName(uri, local)),
            Some(Test::AttrPrefix(uri)),
            Some(Test::AnyAttr),
            None,
        ]
    }
}

/// Where a text is marked.
#[inline(always)]
fn mark_of(text: &str) -> usize
    ensures value { result ≡ mark_of text.now }
    ensures bound { result < 256 }
{
    let bytes = text.as_bytes();
    let first = bytes.first().copied().unwrap_or(0);
    (usize::from(first) + bytes.len() % MARKS) % MARKS
}
