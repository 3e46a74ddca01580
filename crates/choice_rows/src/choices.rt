//! Choices: `BASE NODE ACTIVE ..`, where BASE is the number of a base group, NODE is `/` for the document node, `-NAME` for an element
//! below it, or `"TEXT` or `[TEXT` for a text or a CDATA node there, and each ACTIVE the number of a template. What is told is the number of the template
//! that is chosen, with a dot and the number of the alternative where its pattern has several, or `none`; behind it stands `?` where
//! looking at all templates gives another.

ghost use Rattle.std.specs.Prelude.{◌≡◌, None, IsTrue};
ghost use Rattle.node_stack.specs.Stack.{path};
ghost use Rattle.node_stack.specs.Path.{can_have_children, current};
ghost use Rattle.sheet_model.specs.Sound.{IsSound};

use crate::sheet::sheet_of;
use group_scope::{Chosen, Scope, choose};
use match_patterns::GroupVars;
use node_stack::{Leaf, NodeStack, NodeView};
use rows::{Row, Trouble, name_of, text_of};
use sheet_model::Sheet;
use std::alloc::Global;
use std::fmt::Write;
use stx_base::{First, Limits, List, Name};
use stxpath_values::Atom;

/// No variables.
#[derive(Drop)]
struct NoVars;

impl GroupVars for NoVars {
    ghost seen = { λ vars group name. None };

    fn get(&self, _group: u32, _name: &Name) -> Option<&List<Atom>> {
        None
    }
}

/// What is asked of a sheet.
#[derive(Drop)]
struct Question {
    base: u32,
    stack: NodeStack,
    active: List<u32>,
    limits: Limits,
}

pub fn tell(alloc: Global, row: &Row, out: &mut String) -> Result<(), Trouble> {
    let question = question_of(alloc, row)?;
    let sheet = sheet_of(alloc, row)?;
    let told = tell_choice(alloc, &sheet, &question, out);
    drop(sheet);
    told
}

fn number_of(written: &str) -> Result<u32, Trouble> {
    match written.parse::<u32>() {
        Ok(number) => Ok(number),
        Err(_) => Err(Trouble::Row("a number is wanted")),
    }
}

fn question_of(alloc: Global, row: &Row) -> Result<Question, Trouble> {
    let (base, rest) = row.given.split_once(' ').unwrap_or((row.given, ""));
    let (node, active) = rest.split_once(' ').unwrap_or((rest, ""));
    Ok(Question {
        base: number_of(base)?,
        stack: stack_of(alloc, node)?,
        active: numbers_of(alloc, active)?,
        limits: row.limits()?,
    })
}

fn numbers_of(alloc: Global, written: &str) -> Result<List<u32>, Trouble> {
    let mut numbers = List::new(alloc);
    for word in written.split_whitespace() {
        numbers.push(number_of(word)?)?;
    }
    Ok(numbers)
}

fn stack_of(alloc: Global, node: &str) -> Result<NodeStack, Trouble> {
    let mut stack = NodeStack::new(alloc, 8)?;
    enter(alloc, &mut stack, node)?;
    Ok(stack)
}

fn enter(alloc: Global, stack: &mut NodeStack, node: &str) -> Result<(), Trouble> {
    if !may_have_children(stack) {
        return Ok(());
    }
    if let Some(name) = node.strip_prefix('-') {
        return open(alloc, stack, name_of(alloc, name)?);
    }
    if let Some(text) = node.strip_prefix('"') {
        return Ok(stack.leaf(Leaf::Chars(text_of(alloc, text)?))?);
    }
    if let Some(text) = node.strip_prefix('[') {
        return Ok(stack.leaf(Leaf::CData(text_of(alloc, text)?))?);
    }
    Ok(())
}

fn open(alloc: Global, stack: &mut NodeStack, name: Name) -> Result<(), Trouble>
    requires { IsTrue (can_have_children (current (path stack.old))) }
{
    match stack.open(name, List::new(alloc), List::new(alloc), First::Nothing) {
        Ok(()) => Ok(()),
        Err(_) => Err(Trouble::Memory),
    }
}

fn may_have_children(stack: &NodeStack) -> bool
    ensures { result ≡ can_have_children (current (path stack.now)) }
{
    matches!(
        stack.current(),
        NodeView::Document | NodeView::Element { .. }
    )
}

fn tell_choice(
    alloc: Global,
    sheet: &Sheet,
    question: &Question,
    out: &mut String,
) -> Result<(), Trouble>
    requires { IsSound sheet.now }
{
    let Question {
        base,
        stack,
        active,
        limits,
    } = question;
    let scope = Scope::build(alloc, sheet)?;
    let chosen = scope.select(alloc, sheet, *base, stack, &NoVars, active, limits)?;
    let plain = choose(alloc, sheet, *base, stack, &NoVars, active, limits)?;
    tell_chosen(sheet, chosen, out)?;
    if chosen != plain {
        out.push_str(" ?")?;
    }
    Ok(())
}

fn tell_chosen(sheet: &Sheet, chosen: Option<Chosen>, out: &mut String) -> Result<(), Trouble> {
    let Some(chosen) = chosen else {
        return Ok(out.push_str("none")?);
    };
    write!(out, "{}", chosen.template)?;
    if has_several(sheet, chosen.template) {
        write!(out, ".{}", chosen.alternative)?;
    }
    Ok(())
}

fn has_several(sheet: &Sheet, template: u32) -> bool {
    match sheet.templates.get(template as usize) {
        Some(template) => template.pattern.alternatives.len() > 1,
        None => false,
    }
}
