//! Expressions evaluated at `: place NUMBER` of a path, in a template that `: test TEST` chose, with each `: var NAME ITEMS`.

ghost use Rattle.std.specs.Prelude.{◌≡◌, ◌<◌, ◌≤◌, true, length, IfOk, OnOk};
ghost use Rattle.node_stack.specs.Path.{is_told};
ghost use Rattle.node_stack.specs.Stack.{path};
ghost use Rattle.stxpath_syntax.specs.Shape.{height, is_called_well};

use crate::items::{atoms_of, kept, tell_atoms, tell_items, tell_stop};
use crate::paths::{path_of, test_of};
use crate::syntax::{dialect_of, scope_of};
use crate::variables::{Variable, Variables};
use node_stack::NodeStack;
use rows::{Row, Setting, Trouble, name_of, text_of};
use std::alloc::Global;
use stx_base::{Limits, List, NodeTest};
use stxpath_eval::{Env, atoms, eval};
use stxpath_syntax::{Expr, ParseFault, read_expr};
use stxpath_values::{EvalStop, Item};

pub fn variables_of(alloc: Global, row: &Row) -> Result<Variables, Trouble> {
    let mut all = List::new(alloc);
    let done = add_variables(alloc, row.settings, &mut all);
    let all = kept(done, all)?;
    Ok(Variables { all })
}

fn add_variables(
    alloc: Global,
    settings: &[Setting],
    all: &mut List<Variable>,
) -> Result<(), Trouble> {
    for setting in settings {
        if setting.key.as_str() == "var" {
            all.push(variable_of(alloc, setting.value.as_str())?)?;
        }
    }
    Ok(())
}

fn variable_of(alloc: Global, written: &str) -> Result<Variable, Trouble> {
    let (name, items) = written.split_once(' ').unwrap_or((written, "()"));
    let name = name_of(alloc, name)?;
    let value = atoms_of(alloc, items)?;
    Ok(Variable { name, value })
}

fn expr_of(alloc: Global, row: &Row) -> Result<Expr, Trouble>
    ensures called_well { IfOk result (λ expr. is_called_well expr ≡ true) }
    ensures low { IfOk result (λ expr. height expr ≤ 64) }
{
    let text = text_of(alloc, row.given)?;
    let scope = scope_of(alloc, row)?;
    match read_expr(alloc, &text, &scope, dialect_of(row)) {
        Ok(expr) => Ok(expr),
        Err(fault) => Err(unread(fault)),
    }
}

fn unread(_fault: ParseFault) -> Trouble {
    Trouble::Row("an expression that isn't read")
}

fn place_of(row: &Row) -> Result<usize, Trouble> {
    match usize::try_from(row.number("place", 0)?) {
        Ok(place) => Ok(place),
        Err(_) => Err(Trouble::Row("a place that is too great")),
    }
}

/// What an expression is evaluated at, beside the path.
#[derive(Drop)]
struct Scene {
    vars: Variables,
    place: usize,
    test: NodeTest,
    limits: Limits,
}

fn scene_of(alloc: Global, row: &Row) -> Result<Scene, Trouble> {
    let place = place_of(row)?;
    let limits = row.limits()?;
    let test = test_of(alloc, row.setting("test").unwrap_or("/"))?;
    let vars = variables_of(alloc, row)?;
    Ok(Scene {
        vars,
        place,
        test,
        limits,
    })
}

/// Whether an expression may be evaluated there.
fn admit(scene: &Scene, stack: &NodeStack) -> Result<(), Trouble>
    ensures place { OnOk result (scene.now.place < length (path stack.now).nodes) }
    ensures told { OnOk result (is_told (path stack.now) scene.now.place scene.now.test ≡ true) }
{
    if scene.place >= stack.len() {
        return Err(Trouble::Row("a place behind the path's end"));
    }
    if !stack.is_told(scene.place, &scene.test) {
        return Err(Trouble::Row("a test that a node which waited can't tell"));
    }
    Ok(())
}

fn value_of(
    alloc: Global,
    expr: &Expr,
    stack: &NodeStack,
    scene: &Scene,
) -> Result<List<Item>, EvalStop>
    requires place { scene.now.place < length (path stack.now).nodes }
    requires told { is_told (path stack.now) scene.now.place scene.now.test ≡ true }
    requires arguments { is_called_well expr.now ≡ true }
    requires height { height expr.now ≤ 64 }
{
    let env = Env {
        vars: &scene.vars,
        place: scene.place,
        test: &scene.test,
        limits: &scene.limits,
    };
    eval(alloc, expr, stack, &env)
}

fn tell_value(value: &Result<List<Item>, EvalStop>, out: &mut String) -> Result<(), Trouble> {
    match value {
        Ok(items) => tell_items(items, out),
        Err(stop) => tell_stop(*stop, out),
    }
}

pub fn tell(alloc: Global, row: &Row, out: &mut String) -> Result<(), Trouble> {
    let stack = path_of(alloc, row)?;
    let told = tell_on(alloc, row, &stack, out);
    drop(stack);
    told
}

fn tell_on(alloc: Global, row: &Row, stack: &NodeStack, out: &mut String) -> Result<(), Trouble> {
    let value = value_on(alloc, row, stack)?;
    tell_value(&value, out)
}

/// What the row's expression gives on a path.
fn value_on(
    alloc: Global,
    row: &Row,
    stack: &NodeStack,
) -> Result<Result<List<Item>, EvalStop>, Trouble> {
    let scene = scene_of(alloc, row)?;
    let value = value_in(alloc, row, stack, &scene);
    drop(scene);
    value
}

fn value_in(
    alloc: Global,
    row: &Row,
    stack: &NodeStack,
    scene: &Scene,
) -> Result<Result<List<Item>, EvalStop>, Trouble> {
    admit(scene, stack)?;
    let expr = expr_of(alloc, row)?;
    let value = value_of(alloc, &expr, stack, scene);
    drop(expr);
    Ok(value)
}

/// Nodes in a value become their string values, and the other items stay.
fn tell_string_values(
    alloc: Global,
    value: &Result<List<Item>, EvalStop>,
    stack: &NodeStack,
    out: &mut String,
) -> Result<(), Trouble> {
    match value {
        Ok(items) => tell_atoms(&atoms(alloc, items, stack)?, out),
        Err(stop) => tell_stop(*stop, out),
    }
}

pub fn tell_texts(alloc: Global, row: &Row, out: &mut String) -> Result<(), Trouble> {
    let stack = path_of(alloc, row)?;
    let told = tell_texts_on(alloc, row, &stack, out);
    drop(stack);
    told
}

fn tell_texts_on(
    alloc: Global,
    row: &Row,
    stack: &NodeStack,
    out: &mut String,
) -> Result<(), Trouble> {
    let value = value_on(alloc, row, stack)?;
    tell_string_values(alloc, &value, stack, out)
}
