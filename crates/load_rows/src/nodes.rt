//! The path of a row: `+NAME` opens an element, `"TEXT` is a text, `!TEXT` a comment and `?TARGET` an instruction, and `/` ends the current
//! node.

ghost use Rattle.std.specs.Prelude.{◌≡◌};
ghost use Rattle.node_stack.specs.Path.{can_end, can_have_children, current};
ghost use Rattle.node_stack.specs.Stack.{path};

use node_stack::{Leaf, NodeStack, NodeView};
use rows::{Trouble, name_of, text_of};
use std::alloc::Global;
use stx_base::{First, List, Text};

/// So many elements may be open.
const DEPTH: u32 = 64;

pub fn path_of(alloc: Global, written: &str) -> Result<NodeStack, Trouble> {
    let mut stack = NodeStack::new(alloc, DEPTH)?;
    let done = take_all(alloc, &mut stack, written);
    match done {
        Ok(()) => Ok(stack),
        Err(trouble) => {
            drop(stack);
            Err(trouble)
        }
    }
}

fn take_all(alloc: Global, stack: &mut NodeStack, written: &str) -> Result<(), Trouble> {
    for step in written.split_whitespace() {
        take(alloc, stack, step)?;
    }
    Ok(())
}

fn take(alloc: Global, stack: &mut NodeStack, step: &str) -> Result<(), Trouble> {
    if step == "/" {
        return close(stack);
    }
    if let Some(name) = step.strip_prefix('+') {
        return open(alloc, stack, name);
    }
    if let Some(text) = step.strip_prefix('"') {
        return add_leaf(stack, Leaf::Chars(text_of(alloc, text)?));
    }
    if let Some(text) = step.strip_prefix('!') {
        return add_leaf(stack, Leaf::Comment(text_of(alloc, text)?));
    }
    match step.strip_prefix('?') {
        Some(target) => {
            let target = text_of(alloc, target)?;
            let text = Text::new(alloc);
            add_leaf(stack, Leaf::Pi { target, text })
        }
        None => Err(Trouble::Row("a step of no known form")),
    }
}

fn open(alloc: Global, stack: &mut NodeStack, name: &str) -> Result<(), Trouble> {
    let name = name_of(alloc, name)?;
    if !may_have_children(stack) {
        drop(name);
        return Err(Trouble::Row("an element that has no parent"));
    }
    match stack.open(name, List::new(alloc), List::new(alloc), First::Nothing) {
        Ok(()) => Ok(()),
        Err(_) => Err(Trouble::Row("a path that is too deep, or no memory")),
    }
}

fn add_leaf(stack: &mut NodeStack, leaf: Leaf) -> Result<(), Trouble> {
    if !may_have_children(stack) {
        drop(leaf);
        return Err(Trouble::Row("a leaf that has no parent"));
    }
    Ok(stack.leaf(leaf)?)
}

fn close(stack: &mut NodeStack) -> Result<(), Trouble> {
    if !may_end(stack) {
        return Err(Trouble::Row("a node that can't end"));
    }
    let closed = stack.close();
    drop(closed);
    Ok(())
}

fn may_have_children(stack: &NodeStack) -> bool
    ensures { result ≡ can_have_children (current (path stack.now)) }
{
    matches!(
        stack.current(),
        NodeView::Document | NodeView::Element { .. }
    )
}

fn may_end(stack: &NodeStack) -> bool
    ensures { result ≡ can_end (current (path stack.now)) }
{
    !matches!(stack.current(), NodeView::Document | NodeView::Attribute(_))
}
