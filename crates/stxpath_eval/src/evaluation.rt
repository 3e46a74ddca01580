//! Evaluation, by cases on the expression.

ghost use Rattle.std.specs.Prelude.{◌≡◌, ◌<◌, ◌≤◌, List as Items, ℕ, [], true, length, map, ◌++◌, IfOk, OnOk};
ghost use Rattle.std.specs.Result.{result_map_both};
ghost use Rattle.node_stack.specs.Path.{is_told};
ghost use Rattle.node_stack.specs.Stack.{path};
ghost use Rattle.stxpath_eval.specs.Env.{setting};
ghost use Rattle.stxpath_syntax.specs.Shape.{are_called_well, are_steps_called_well, height, is_called_well, is_step_called_well};
ghost use Rattle.stxpath_eval.specs.Held.{held_items, IsHeld};
ghost use Rattle.stxpath_eval.specs.Nodes.{attributes_at};
ghost use Rattle.stxpath_eval.specs.Steps as spec;
ghost use Rattle.stxpath_eval.specs.Value.{absolute, in_a_row, meant, nodes_at as items_at, reaching, up as up_of, value};
ghost use Rattle.stxpath_values.specs.Functions.{limited_list};
ghost use Rattle.stxpath_values.specs.Outcome.{IsAnswer, each};

use crate::binary::{decided, negated, operated};
use crate::env::{Env, Vars};
use crate::functions::applied;
use crate::held::{Held, held_holds, into_items, push_held};
use crate::nodes::{only_attribute, push_attributes};
use crate::steps::{leads_to, reachable};
use crate::values::{listed, measured, one, place_item, text_lent, truth_item, variable};
use node_stack::NodeStack;
use std::alloc::Global;
use stx_base::{Limits, List, Memory, NodeTest};
use stxpath_syntax::{Expr, PathStep};
use stxpath_values::{AtomRef, EvalStop, Item, NodeRef};

/// The value of an expression at a place of the path.
pub fn eval<V: Vars>(
    alloc: Global,
    expr: &Expr,
    stack: &NodeStack,
    env: &Env<'_, V>,
) -> Result<List<Item>, EvalStop>
    requires place { env.now.place < length (path stack.now).nodes }
    requires told { is_told (path stack.now) env.now.place env.now.test.now ≡ true }
    requires arguments { is_called_well expr.now ≡ true }
    requires height { height expr.now ≤ 64 }
    ensures { IsAnswer result (value expr.now (setting V.value_of stack.now env.now)) }
{
    let held = evaluate(alloc, expr, stack, env)?;
    let items = into_items(alloc, held)?;
    Ok(items)
}

#[cycle(evaluation)]
pub(crate) fn evaluate<'a, V: Vars>(
    alloc: Global,
    expr: &'a Expr,
    stack: &'a NodeStack,
    env: &Env<'a, V>,
) -> Result<Held<'a>, EvalStop>
    requires place { env.now.place < length (path stack.now).nodes }
    requires told { is_told (path stack.now) env.now.place env.now.test.now ≡ true }
    requires arguments { is_called_well expr.now ≡ true }
    ensures { IsHeld result (value expr.now (setting V.value_of stack.now env.now)) }
{
    match expr {
        Expr::Whole(number) => Ok(one(AtomRef::Whole(*number))),
        Expr::Literal(text) => Ok(text_lent(text)),
        Expr::Var(name) => variable(env.vars.get(name)),
        Expr::Call(fun, args) => {
            let args = arguments(alloc, args, stack, env)?;
            applied(alloc, *fun, args, stack, env)
        }
        Expr::Seq(parts) => listed(parts_joined(alloc, parts, stack, env)),
        Expr::Neg(operand) => {
            let held = evaluate(alloc, operand.get(), stack, env)?;
            negated(alloc, held, stack)
        }
        Expr::Binary(bin, left, right) => {
            let first = evaluate(alloc, left.get(), stack, env)?;
            if let Some(truth) = decided(*bin, &first)? {
                return Ok(truth_item(truth));
            }
            let second = evaluate(alloc, right.get(), stack, env)?;
            operated(alloc, *bin, first, second, stack)
        }
        Expr::Root => Ok(place_item(0)),
        Expr::Abs(steps, attrs) => listed(along(alloc, steps, attrs, stack, env)),
        Expr::Up(levels, attrs) => up(alloc, *levels, attrs, stack, env),
        Expr::Attr(test) => attributes(alloc, test, stack, env.place, env.limits),
    }
}

/// The arguments' values, from left to right.
#[cycle(evaluation)]
fn arguments<'a, V: Vars>(
    alloc: Global,
    args: &'a List<Expr>,
    stack: &'a NodeStack,
    env: &Env<'a, V>,
) -> Result<Vec<Held<'a>>, EvalStop>
    requires place { env.now.place < length (path stack.now).nodes }
    requires told { is_told (path stack.now) env.now.place env.now.test.now ≡ true }
    requires arguments { are_called_well args.now ≡ true }
    ensures { IsAnswer (result_map_both (λ v. map held_items v.items) (λ e. e) result) (each (λ m. m (setting V.value_of stack.now env.now)) (map value args.now)) }
{
    let mut values = Vec::new(alloc);
    for arg in args.as_slice() {
        let held = evaluate(alloc, arg, stack, env)?;
        values.push(held)?;
    }
    Ok(values)
}

/// Values one after another. The list is measured after each of them.
#[cycle(evaluation)]
fn parts_joined<'a, V: Vars>(
    alloc: Global,
    parts: &'a List<Expr>,
    stack: &'a NodeStack,
    env: &Env<'a, V>,
) -> Result<List<Item>, EvalStop>
    requires place { env.now.place < length (path stack.now).nodes }
    requires told { is_told (path stack.now) env.now.place env.now.test.now ≡ true }
    requires arguments { are_called_well parts.now ≡ true }
    ensures { IsAnswer result (in_a_row (setting V.value_of stack.now env.now) [] (map value parts.now)) }
{
    let mut all = List::new(alloc);
    for part in parts.as_slice() {
        let held = evaluate(alloc, part, stack, env)?;
        all = appended(alloc, env.limits, all, held)?;
    }
    Ok(all)
}

/// The nodes, or their attributes that pass, which steps from the document node reach.
#[cycle(evaluation)]
fn along<'a, V: Vars>(
    alloc: Global,
    steps: &'a List<PathStep>,
    attrs: &Option<NodeTest>,
    stack: &'a NodeStack,
    env: &Env<'a, V>,
) -> Result<List<Item>, EvalStop>
    requires place { env.now.place < length (path stack.now).nodes }
    requires arguments { are_steps_called_well steps.now ≡ true }
    ensures { IsAnswer result (absolute (setting V.value_of stack.now env.now) (map reaching steps.now) attrs.now) }
{
    let mut places = Vec::new(alloc);
    places.push(0)?;
    for step in steps.as_slice() {
        places = step_from(alloc, step, &places, stack, env)?;
    }
    let items = nodes_at(alloc, &places, attrs, stack)?;
    measured(env.limits, items)
}

/// The places that a step reaches from places, each once and in rising order.
#[cycle(evaluation)]
fn step_from<'a, V: Vars>(
    alloc: Global,
    step: &'a PathStep,
    places: &[usize],
    stack: &'a NodeStack,
    env: &Env<'a, V>,
) -> Result<Vec<usize>, EvalStop>
    requires place { env.now.place < length (path stack.now).nodes }
    requires arguments { is_step_called_well step.now ≡ true }
    ensures { IsAnswer (result_map_both (λ v. v.items) (λ e. e) result) (reaching step.now (setting V.value_of stack.now env.now) places.now) }
{
    let mut reached = Vec::new(alloc);
    let within = reachable(step.link, places, env.place);
    for place in within.from..=within.to {
        if ends_at(alloc, step, places, stack, place, env)? {
            reached.push(place)?;
        }
    }
    Ok(reached)
}

/// Whether a step from one of the places ends at a place. Predicates are asked only where it leads, with the node there
/// as the current one.
#[cycle(evaluation)]
fn ends_at<'a, V: Vars>(
    alloc: Global,
    step: &'a PathStep,
    places: &[usize],
    stack: &'a NodeStack,
    place: usize,
    env: &Env<'a, V>,
) -> Result<bool, EvalStop>
    requires place { place < length (path stack.now).nodes }
    requires arguments { is_step_called_well step.now ≡ true }
    ensures { IsAnswer result (spec.ends_at (meant step.now) (setting V.value_of stack.now env.now) places.now place) }
{
    if !leads_to(step, places, stack, place) {
        return Ok(false);
    }
    let at_step = Env {
        vars: env.vars,
        place,
        test: &step.test,
        limits: env.limits,
    };
    all_hold(alloc, &step.predicates, stack, &at_step)
}

/// Whether predicates hold of the current node. Each is asked only where the one before holds.
#[cycle(evaluation)]
fn all_hold<'a, V: Vars>(
    alloc: Global,
    predicates: &'a List<Expr>,
    stack: &'a NodeStack,
    env: &Env<'a, V>,
) -> Result<bool, EvalStop>
    requires place { env.now.place < length (path stack.now).nodes }
    requires told { is_told (path stack.now) env.now.place env.now.test.now ≡ true }
    requires arguments { are_called_well predicates.now ≡ true }
    ensures { IsAnswer result (spec.all_hold (map value predicates.now) (setting V.value_of stack.now env.now)) }
{
    for predicate in predicates.as_slice() {
        if !holds(alloc, predicate, stack, env)? {
            return Ok(false);
        }
    }
    Ok(true)
}

/// Whether a predicate holds of the current node.
#[cycle(evaluation)]
pub(crate) fn holds<'a, V: Vars>(
    alloc: Global,
    predicate: &'a Expr,
    stack: &'a NodeStack,
    env: &Env<'a, V>,
) -> Result<bool, EvalStop>
    requires place { env.now.place < length (path stack.now).nodes }
    requires told { is_told (path stack.now) env.now.place env.now.test.now ≡ true }
    requires arguments { is_called_well predicate.now ≡ true }
    ensures { IsAnswer result (spec.holds (value predicate.now) (setting V.value_of stack.now env.now)) }
{
    let held = evaluate(alloc, predicate, stack, env)?;
    let position = stack.position(env.place, env.test);
    Ok(held_holds(position, &held)?)
}

fn up<'a, V: Vars>(
    alloc: Global,
    levels: u64,
    attrs: &Option<NodeTest>,
    stack: &NodeStack,
    env: &Env<'_, V>,
) -> Result<Held<'a>, EvalStop>
    ensures { IsHeld result (up_of (setting V.value_of stack.now env.now) levels attrs.now) }
{
    if levels > env.place as u64 {
        return Ok(Held::Items(List::new(alloc)));
    }
    let place = env.place - levels as usize;
    match attrs {
        None => Ok(place_item(place)),
        Some(test) => attributes(alloc, test, stack, place, env.limits),
    }
}

/// The attributes of the node at a place that pass. One alone is no list.
fn attributes<'a>(
    alloc: Global,
    test: &NodeTest,
    stack: &NodeStack,
    place: usize,
    limits: &Limits,
) -> Result<Held<'a>, EvalStop>
    ensures { IsHeld result (limited_list limits.now (attributes_at (path stack.now) test.now place)) }
{
    if limits.sequence > 0
        && let Some(node) = only_attribute(stack, place, test)
    {
        return Ok(Held::Node(node));
    }
    let items = listed_attributes(alloc, test, stack, place, limits)?;
    Ok(Held::Items(items))
}

fn listed_attributes(
    alloc: Global,
    test: &NodeTest,
    stack: &NodeStack,
    place: usize,
    limits: &Limits,
) -> Result<List<Item>, EvalStop>
    ensures { IsAnswer result (limited_list limits.now (attributes_at (path stack.now) test.now place)) }
{
    let mut items = List::new(alloc);
    push_attributes(stack, place, test, &mut items)?;
    measured(limits, items)
}

/// Nodes at places, or their attributes that pass.
fn nodes_at(
    alloc: Global,
    places: &[usize],
    attrs: &Option<NodeTest>,
    stack: &NodeStack,
) -> Result<List<Item>, Memory>
    ensures { IfOk result (λ items. items ≡ items_at (path stack.now) attrs.now places.now) }
{
    let mut items = List::new(alloc);
    for place in places {
        match attrs {
            None => items.push(Item::Node(NodeRef {
                place: *place,
                attr: None,
            }))?,
            Some(test) => push_attributes(stack, *place, test, &mut items)?,
        }
    }
    Ok(items)
}

/// A value's items behind a list, which is measured.
fn appended(
    alloc: Global,
    limits: &Limits,
    all: List<Item>,
    held: Held<'_>,
) -> Result<List<Item>, EvalStop>
    ensures { IsAnswer result (limited_list limits.now (all ++ held_items held.entry)) }
{
    let mut all = all;
    push_held(alloc, held, &mut all)?;
    measured(limits, all)
}
