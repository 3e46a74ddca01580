//! Questions about a path: `level`, `room` for one more element, `/` for the node that ends, a place for the node there, a place and a
//! node test for the node's position by the test, `text` and a place for a string value, and `+NAME` for an element that is opened.

ghost use Rattle.std.specs.Prelude.{◌≡◌, ◌<◌, ◌↔◌, IsTrue, length};
ghost use Rattle.node_stack.specs.Stack.{path};

use crate::items::number_of;
use crate::paths::{closed, opened, path_of, test_of};
use node_stack::{Closed, Leaf, NodeStack, NodeView};
use rows::{Row, Trouble, tell_name};
use std::alloc::Global;
use std::fmt::Write;
use stx_base::{Attr, Binding, First, List, Name, NodeTest, Text};

pub fn tell(alloc: Global, row: &Row, out: &mut String) -> Result<(), Trouble> {
    let mut stack = path_of(alloc, row)?;
    let told = answer(alloc, row.given, &mut stack, out);
    drop(stack);
    told
}

fn answer(
    alloc: Global,
    question: &str,
    stack: &mut NodeStack,
    out: &mut String,
) -> Result<(), Trouble> {
    match question {
        "level" => return Ok(write!(out, "{}", stack.level())?),
        "room" => return Ok(write!(out, "{}", stack.has_room())?),
        "/" => return close(stack, out),
        _ => {}
    }
    match question.strip_prefix('+') {
        Some(tag) => open(alloc, stack, tag, out),
        None => answer_at(alloc, question, stack, out),
    }
}

fn close(stack: &mut NodeStack, out: &mut String) -> Result<(), Trouble> {
    let node = closed(stack)?;
    let told = tell_closed(&node, out);
    drop(node);
    told
}

fn open(alloc: Global, stack: &mut NodeStack, tag: &str, out: &mut String) -> Result<(), Trouble> {
    let taken = opened(alloc, stack, tag, First::Other)?;
    Ok(out.push_str(if taken { "opened" } else { "Depth" })?)
}

/// What is told of a place, of a place and a node test, or of a string value.
fn answer_at(
    alloc: Global,
    question: &str,
    stack: &NodeStack,
    out: &mut String,
) -> Result<(), Trouble> {
    if let Some(place) = question.strip_prefix("text ") {
        return tell_string_value(stack, number_of(place)?, out);
    }
    let (place, test) = question.split_once(' ').unwrap_or((question, ""));
    let place = number_of(place)?;
    if test.is_empty() {
        return tell_node(stack, place, out);
    }
    let test = test_of(alloc, test)?;
    tell_position(stack, place, &test, out)
}

const NO_PLACE: Trouble = Trouble::Row("a place behind the path's end");

fn tell_string_value(stack: &NodeStack, place: usize, out: &mut String) -> Result<(), Trouble> {
    if place >= stack.len() {
        return Err(NO_PLACE);
    }
    Ok(out.push_str(stack.string_value(place).as_str())?)
}

fn tell_node(stack: &NodeStack, place: usize, out: &mut String) -> Result<(), Trouble> {
    if place >= stack.len() {
        return Err(NO_PLACE);
    }
    tell_view(stack.view(place), out)
}

/// A position, or `untold` where a node that waited can't tell it.
fn tell_position(
    stack: &NodeStack,
    place: usize,
    test: &NodeTest,
    out: &mut String,
) -> Result<(), Trouble> {
    if place >= stack.len() {
        return Err(NO_PLACE);
    }
    if !stack.is_told(place, test) {
        return Ok(out.push_str("untold")?);
    }
    Ok(write!(out, "{}", stack.position(place, test))?)
}

/// An element by its name, and a leaf as it was.
fn tell_closed(closed: &Closed, out: &mut String) -> Result<(), Trouble> {
    match closed {
        Closed::Element { name, .. } => tell_name(name, out),
        Closed::Leaf(Leaf::Chars(text)) => tell_view(NodeView::Chars(text), out),
        Closed::Leaf(Leaf::CData(text)) => tell_view(NodeView::CData(text), out),
        Closed::Leaf(Leaf::Comment(text)) => tell_view(NodeView::Comment(text), out),
        Closed::Leaf(Leaf::Pi { target, text }) => tell_view(NodeView::Pi { target, text }, out),
    }
}

fn tell_view(view: NodeView<'_>, out: &mut String) -> Result<(), Trouble> {
    match view {
        NodeView::Document => Ok(out.push_str("document")?),
        NodeView::Element {
            name,
            attrs,
            decls,
            first,
        } => tell_element(name, attrs, decls, first, out),
        NodeView::Chars(text) => tell_chars("text ", text, out),
        NodeView::CData(text) => tell_chars("cdata ", text, out),
        NodeView::Comment(text) => tell_chars("comment ", text, out),
        NodeView::Pi { target, text } => tell_instruction(target, text, out),
        NodeView::Attribute(attr) => {
            out.push('@')?;
            tell_attr(attr, out)
        }
    }
}

fn tell_chars(kind: &str, text: &Text, out: &mut String) -> Result<(), Trouble> {
    out.push_str(kind)?;
    Ok(out.push_str(text.as_str())?)
}

fn tell_instruction(target: &Text, text: &Text, out: &mut String) -> Result<(), Trouble> {
    Ok(write!(out, "pi {}|{}", target.as_str(), text.as_str())?)
}

fn tell_attr(attr: &Attr, out: &mut String) -> Result<(), Trouble> {
    tell_name(&attr.name, out)?;
    Ok(write!(out, "='{}'", attr.value.as_str())?)
}

fn tell_element(
    name: &Name,
    attrs: &List<Attr>,
    decls: &List<Binding>,
    first: &First,
    out: &mut String,
) -> Result<(), Trouble> {
    out.push('<')?;
    tell_name(name, out)?;
    for attr in attrs.as_slice() {
        out.push(' ')?;
        tell_attr(attr, out)?;
    }
    for decl in decls.as_slice() {
        tell_decl(decl, out)?;
    }
    tell_first(first, out)
}

fn tell_decl(decl: &Binding, out: &mut String) -> Result<(), Trouble> {
    let prefix = decl.prefix.as_str();
    let uri = decl.uri.as_str();
    Ok(write!(out, " +{prefix}={uri}")?)
}

fn tell_first(first: &First, out: &mut String) -> Result<(), Trouble> {
    match first {
        First::Nothing => Ok(out.push_str(">-")?),
        First::Other => Ok(out.push_str(">*")?),
        First::Chars(text) => Ok(write!(out, ">'{}'", text.as_str())?),
    }
}
