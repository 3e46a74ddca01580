//! What is asked of an expression, without its items as a list.

ghost use Rattle.std.specs.Prelude.{◌≡◌, ◌<◌, ◌≤◌, Ok, true, length};
ghost use Rattle.std.specs.Str.{chars};
ghost use Rattle.node_stack.specs.Path.{is_told};
ghost use Rattle.node_stack.specs.Stack.{path};
ghost use Rattle.stxpath_eval.specs.Env.{setting};
ghost use Rattle.stxpath_eval.specs.Nodes.{atoms as atoms_of_items};
ghost use Rattle.stxpath_eval.specs.Steps as spec;
ghost use Rattle.stxpath_eval.specs.Value.{value};
ghost use Rattle.stxpath_syntax.specs.Shape.{height, is_called_well};
ghost use Rattle.stxpath_values.specs.Conversion.{as_truth};
ghost use Rattle.stxpath_values.specs.Functions as function;
ghost use Rattle.stxpath_values.specs.Outcome.{and_then, IsAnswer};

use crate::env::{Env, Vars};
use crate::evaluation::{self, evaluate};
use crate::held::{held_truth, into_atoms};
use node_stack::NodeStack;
use std::alloc::Global;
use stx_base::{List, Text};
use stxpath_syntax::Expr;
use stxpath_values::{Atom, EvalStop, whole_text};

/// Whether a predicate holds of the node at a place: one whole number is asked for as its position, any other value for
/// its truth.
pub fn holds<V: Vars>(
    alloc: Global,
    predicate: &Expr,
    stack: &NodeStack,
    env: &Env<'_, V>,
) -> Result<bool, EvalStop>
    requires place { env.now.place < length (path stack.now).nodes }
    requires told { is_told (path stack.now) env.now.place env.now.test.now ≡ true }
    requires arguments { is_called_well predicate.now ≡ true }
    requires height { height predicate.now ≤ 64 }
    ensures { IsAnswer result (spec.holds (value predicate.now) (setting V.value_of stack.now env.now)) }
{
    evaluation::holds(alloc, predicate, stack, env)
}

/// The truth of an expression's value.
pub fn eval_truth<V: Vars>(
    alloc: Global,
    expr: &Expr,
    stack: &NodeStack,
    env: &Env<'_, V>,
) -> Result<bool, EvalStop>
    requires place { env.now.place < length (path stack.now).nodes }
    requires told { is_told (path stack.now) env.now.place env.now.test.now ≡ true }
    requires arguments { is_called_well expr.now ≡ true }
    requires height { height expr.now ≤ 64 }
    ensures { IsAnswer result (and_then (value expr.now (setting V.value_of stack.now env.now)) as_truth) }
{
    let held = evaluate(alloc, expr, stack, env)?;
    Ok(held_truth(&held)?)
}

/// The items of an expression's value, with string values in place of nodes.
pub fn eval_atoms<V: Vars>(
    alloc: Global,
    expr: &Expr,
    stack: &NodeStack,
    env: &Env<'_, V>,
) -> Result<List<Atom>, EvalStop>
    requires place { env.now.place < length (path stack.now).nodes }
    requires told { is_told (path stack.now) env.now.place env.now.test.now ≡ true }
    requires arguments { is_called_well expr.now ≡ true }
    requires height { height expr.now ≤ 64 }
    ensures { IsAnswer result (and_then (value expr.now (setting V.value_of stack.now env.now)) (λ items. Ok (atoms_of_items (path stack.now) items))) }
{
    let held = evaluate(alloc, expr, stack, env)?;
    let atoms = into_atoms(alloc, held, stack)?;
    Ok(atoms.into_list(alloc)?)
}

/// An expression's value as one text, nodes by their string values. Only where it has several items is a text made of
/// them, with a separator between each two and within the limit.
pub fn eval_text<V: Vars>(
    alloc: Global,
    separator: &str,
    expr: &Expr,
    stack: &NodeStack,
    env: &Env<'_, V>,
) -> Result<Text, EvalStop>
    requires place { env.now.place < length (path stack.now).nodes }
    requires told { is_told (path stack.now) env.now.place env.now.test.now ≡ true }
    requires arguments { is_called_well expr.now ≡ true }
    requires height { height expr.now ≤ 64 }
    ensures { IsAnswer result (and_then (value expr.now (setting V.value_of stack.now env.now)) (λ items. function.whole_text env.now.limits.now (chars separator.now) (atoms_of_items (path stack.now) items))) }
{
    let held = evaluate(alloc, expr, stack, env)?;
    let atoms = into_atoms(alloc, held, stack)?;
    whole_text(alloc, separator, atoms, env.limits)
}
