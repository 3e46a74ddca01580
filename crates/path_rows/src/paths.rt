//! Paths and node tests as rows write them.
//!
//! Steps along a path are parted by ` | `: `+NAME ATTRIBUTE=VALUE ..` opens an element whose first child is no text, `-NAME ..` one
//! that has no child, and `'TEXT NAME ..` one whose first child is that text; a prefix is declared where it stands. `"TEXT` is a
//! text, `[TEXT` a CDATA section, `!TEXT` a comment and `?TARGET TEXT` an instruction, and `/` ends the current node. `@NUMBER` makes
//! an attribute the current node, and `^` its element again. `>` lets the current node wait, and `<` makes the last one that waits
//! the current node again.

ghost use Rattle.std.specs.Prelude.{◌≡◌, ◌<◌, ◌↔◌, IsTrue, length};
ghost use Rattle.node_stack.specs.Path.{attributes, can_end, can_have_children, current, is_attribute};
ghost use Rattle.node_stack.specs.Stack.{path};

use crate::items::{kept, number_of};
use node_stack::{Closed, Leaf, NodeStack, NodeView, Parked, StackFault};
use rows::{Row, Setting, Trouble, name_of, text_of};
use std::alloc::Global;
use stx_base::{Attr, Binding, Copied, First, List, Name, NodeTest};

/// A node test: `@` stands before one of attributes.
pub fn test_of(alloc: Global, written: &str) -> Result<NodeTest, Trouble> {
    match written {
        "/" => return Ok(NodeTest::Document),
        "*" => return Ok(NodeTest::AnyElement),
        "@*" => return Ok(NodeTest::AnyAttr),
        "node()" => return Ok(NodeTest::AnyNode),
        "text()" => return Ok(NodeTest::Chars),
        "cdata()" => return Ok(NodeTest::CData),
        "comment()" => return Ok(NodeTest::Comment),
        "pi()" => return Ok(NodeTest::AnyPi),
        _ => {}
    }
    if let Some(target) = written.strip_prefix("pi('") {
        let target = target.strip_suffix("')").unwrap_or(target);
        return Ok(NodeTest::Pi(text_of(alloc, target)?));
    }
    match written.strip_prefix('@') {
        Some(attr) => match attr.strip_suffix('*') {
            Some(prefix) => Ok(NodeTest::AttrPrefix(namespace_of(alloc, prefix)?)),
            None => Ok(NodeTest::AttrName(name_of(alloc, attr)?)),
        },
        None => match written.strip_suffix('*') {
            Some(prefix) => Ok(NodeTest::Prefix(namespace_of(alloc, prefix)?)),
            None => Ok(NodeTest::Name(name_of(alloc, written)?)),
        },
    }
}

/// `prefix{URI}`
fn namespace_of(alloc: Global, written: &str) -> Result<Binding, Trouble> {
    let Name {
        uri,
        local: _local,
        prefix,
    } = name_of(alloc, written)?;
    Ok(Binding { prefix, uri })
}

fn attrs_of(alloc: Global, written: &str) -> Result<List<Attr>, Trouble> {
    let mut attrs = List::new(alloc);
    let done = add_attrs(alloc, written, &mut attrs);
    kept(done, attrs)
}

fn add_attrs(alloc: Global, written: &str, attrs: &mut List<Attr>) -> Result<(), Trouble> {
    for attr in written.split_whitespace() {
        attrs.push(attr_of(alloc, attr)?)?;
    }
    Ok(())
}

/// `NAME=VALUE`
fn attr_of(alloc: Global, written: &str) -> Result<Attr, Trouble> {
    let (name, value) = written.split_once('=').unwrap_or((written, ""));
    let value = text_of(alloc, value)?;
    let name = name_of(alloc, name)?;
    Ok(Attr { name, value })
}

/// The declaration of a name's prefix, if it has one.
fn decls_of(alloc: Global, name: &Name) -> Result<List<Binding>, Trouble> {
    let mut decls = List::new(alloc);
    let done = add_decl(alloc, name, &mut decls);
    kept(done, decls)
}

fn add_decl(alloc: Global, name: &Name, decls: &mut List<Binding>) -> Result<(), Trouble> {
    if name.prefix.is_empty() {
        return Ok(());
    }
    let prefix = name.prefix.copy(alloc)?;
    let uri = name.uri.copy(alloc)?;
    Ok(decls.push(Binding { prefix, uri })?)
}

fn may_have_children(stack: &NodeStack) -> bool
    ensures { result ≡ can_have_children (current (path stack.now)) }
{
    matches!(
        stack.current(),
        NodeView::Document | NodeView::Element { .. }
    )
}

fn may_end(stack: &NodeStack) -> bool
    ensures { result ≡ can_end (current (path stack.now)) }
{
    !matches!(stack.current(), NodeView::Document | NodeView::Attribute(_))
}

fn at_attribute(stack: &NodeStack) -> bool
    ensures { result ≡ is_attribute (current (path stack.now)) }
{
    matches!(stack.current(), NodeView::Attribute(_))
}

fn has_attribute(stack: &NodeStack, index: usize) -> bool
    ensures { IsTrue result ↔ (index < length (attributes (current (path stack.now)))) }
{
    match stack.current() {
        NodeView::Element { attrs, .. } => index < attrs.len(),
        _ => false,
    }
}

/// An element's name, attributes and declarations.
#[derive(Drop)]
struct Tag {
    name: Name,
    attrs: List<Attr>,
    decls: List<Binding>,
}

fn tag_of(alloc: Global, written: &str) -> Result<Tag, Trouble> {
    let (name, attrs) = written.split_once(' ').unwrap_or((written, ""));
    let attrs = attrs_of(alloc, attrs)?;
    let name = name_of(alloc, name)?;
    let decls = decls_of(alloc, &name)?;
    Ok(Tag { name, attrs, decls })
}

/// Opens an element. Whether so many may be open.
pub fn opened(
    alloc: Global,
    stack: &mut NodeStack,
    tag: &str,
    first: First,
) -> Result<bool, Trouble> {
    let Tag { name, attrs, decls } = tag_of(alloc, tag)?;
    if !may_have_children(stack) {
        return Err(Trouble::Row("an element that has no parent"));
    }
    match stack.open(name, attrs, decls, first) {
        Ok(()) => Ok(true),
        Err(StackFault::Depth) => Ok(false),
        Err(StackFault::Memory) => Err(Trouble::Memory),
    }
}

fn open(alloc: Global, stack: &mut NodeStack, tag: &str, first: First) -> Result<(), Trouble> {
    if opened(alloc, stack, tag, first)? {
        Ok(())
    } else {
        Err(Trouble::Row("a path that is too deep"))
    }
}

fn add_leaf(stack: &mut NodeStack, leaf: Leaf) -> Result<(), Trouble> {
    if !may_have_children(stack) {
        return Err(Trouble::Row("a leaf that has no parent"));
    }
    Ok(stack.leaf(leaf)?)
}

fn enter(stack: &mut NodeStack, index: &str) -> Result<(), Trouble> {
    let index = number_of(index)?;
    if !has_attribute(stack, index) {
        return Err(Trouble::Row("an attribute that isn't there"));
    }
    Ok(stack.enter_attribute(index)?)
}

fn leave(stack: &mut NodeStack) -> Result<(), Trouble> {
    if !at_attribute(stack) {
        return Err(Trouble::Row("no attribute to leave"));
    }
    stack.leave_attribute();
    Ok(())
}

/// Ends the current node, and gives it back.
pub fn closed(stack: &mut NodeStack) -> Result<Closed, Trouble> {
    if !may_end(stack) {
        return Err(Trouble::Row("a node that can't end"));
    }
    Ok(stack.close())
}

fn close(stack: &mut NodeStack) -> Result<(), Trouble> {
    drop(closed(stack)?);
    Ok(())
}

fn park(stack: &mut NodeStack, waiting: &mut Vec<Parked>) -> Result<(), Trouble> {
    if !may_end(stack) {
        return Err(Trouble::Row("a node that can't wait"));
    }
    Ok(waiting.push(stack.park())?)
}

fn resume(stack: &mut NodeStack, waiting: &mut Vec<Parked>) -> Result<(), Trouble> {
    if !may_have_children(stack) || !stack.has_room() {
        return Err(Trouble::Row("a node that has no parent, or no room"));
    }
    match waiting.pop() {
        Some(node) => Ok(stack.resume(node)?),
        None => Err(Trouble::Row("no node that waits")),
    }
}

fn instruction(alloc: Global, written: &str) -> Result<Leaf, Trouble> {
    let (target, text) = written.split_once(' ').unwrap_or((written, ""));
    let target = text_of(alloc, target)?;
    let text = text_of(alloc, text)?;
    Ok(Leaf::Pi { target, text })
}

fn leaf_of(alloc: Global, step: &str) -> Result<Option<Leaf>, Trouble> {
    if let Some(text) = step.strip_prefix('"') {
        return Ok(Some(Leaf::Chars(text_of(alloc, text)?)));
    }
    if let Some(text) = step.strip_prefix('[') {
        return Ok(Some(Leaf::CData(text_of(alloc, text)?)));
    }
    if let Some(text) = step.strip_prefix('!') {
        return Ok(Some(Leaf::Comment(text_of(alloc, text)?)));
    }
    match step.strip_prefix('?') {
        Some(written) => Ok(Some(instruction(alloc, written)?)),
        None => Ok(None),
    }
}

fn take(
    alloc: Global,
    stack: &mut NodeStack,
    waiting: &mut Vec<Parked>,
    step: &str,
) -> Result<(), Trouble> {
    match step {
        "/" => return close(stack),
        "^" => return leave(stack),
        ">" => return park(stack, waiting),
        "<" => return resume(stack, waiting),
        _ => {}
    }
    if let Some(tag) = step.strip_prefix('+') {
        return open(alloc, stack, tag, First::Other);
    }
    if let Some(tag) = step.strip_prefix('-') {
        return open(alloc, stack, tag, First::Nothing);
    }
    if let Some(both) = step.strip_prefix('\'') {
        let (text, tag) = both.split_once(' ').unwrap_or(("", both));
        let first = First::Chars(text_of(alloc, text)?);
        return open(alloc, stack, tag, first);
    }
    if let Some(leaf) = leaf_of(alloc, step)? {
        return add_leaf(stack, leaf);
    }
    match step.strip_prefix('@') {
        Some(index) => enter(stack, index),
        None => Err(Trouble::Row("a step of no known form")),
    }
}

/// Far fewer than a path counts.
const MOST: u32 = 4096;

/// The path of the steps that are set, one line of them after another.
pub fn path_of(alloc: Global, row: &Row) -> Result<NodeStack, Trouble> {
    let depth = row.limits()?.depth;
    let mut stack = NodeStack::new(alloc, depth.min(MOST))?;
    let mut waiting = Vec::new(alloc);
    let done = take_lines(alloc, &mut stack, &mut waiting, row.settings);
    drop(waiting);
    kept(done, stack)
}

fn take_lines(
    alloc: Global,
    stack: &mut NodeStack,
    waiting: &mut Vec<Parked>,
    settings: &[Setting],
) -> Result<(), Trouble> {
    for setting in settings {
        if setting.key.as_str() == "path" {
            take_all(alloc, stack, waiting, setting.value.as_str())?;
        }
    }
    Ok(())
}

fn take_all(
    alloc: Global,
    stack: &mut NodeStack,
    waiting: &mut Vec<Parked>,
    steps: &str,
) -> Result<(), Trouble> {
    if steps.is_empty() {
        return Ok(());
    }
    for step in steps.split(" | ") {
        take(alloc, stack, waiting, step)?;
    }
    Ok(())
}
