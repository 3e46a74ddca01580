//! The functions that see nodes, and what the others are handed.

ghost use Rattle.std.specs.Prelude.{◌≡◌, ◌∷◌, ◌<◌, ◌^◌, List as Items, [], length, map, option_map, Ok, true, IfOk};
ghost use Rattle.std.specs.Result.{result_map_both};
ghost use Rattle.node_stack.specs.Open.{node_of};
ghost use Rattle.node_stack.specs.Path as node;
ghost use Rattle.node_stack.specs.Path.{is_told};
ghost use Rattle.node_stack.specs.Stack.{path};
ghost use Rattle.stxpath_eval.specs.Env.{setting};
ghost use Rattle.stxpath_eval.specs.Held.{held_items, IsHeld};
ghost use Rattle.stxpath_eval.specs.Nodes as nodes;
ghost use Rattle.stx_base.specs.Functions.{permits};
ghost use Rattle.stxpath_eval.specs.Value as spec;
ghost use Rattle.stxpath_values.specs.Functions as function;
ghost use Rattle.stxpath_values.specs.Functions.{takes};
ghost use Rattle.stxpath_values.specs.Lent.{sequence_of};
ghost use Rattle.stxpath_values.specs.declared.value.Atom.{Atom};
ghost use Rattle.stxpath_values.specs.declared.value.Atom.TheVariants as atom;

use crate::env::{Env, Vars};
use crate::held::{Held, held_truth, into_atoms};
use crate::nodes::{no_text, node_at, referred, text_of};
use crate::values::{text_item, text_lent, truth_item, whole_item};
use node_stack::{NodeStack, NodeView};
use std::alloc::Global;
use stx_base::{Copied, First, Fun, Limits, Memory, Name, Text};
use stxpath_values::{AtomRef, Atoms, EvalFault, EvalStop, Item, Sequence, call_lent};

/// What a function gives of its arguments' values.
pub(crate) fn applied<'a, V: Vars>(
    alloc: Global,
    fun: Fun,
    args: Vec<Held<'a>>,
    stack: &'a NodeStack,
    env: &Env<'a, V>,
) -> Result<Held<'a>, EvalStop>
    requires place { env.now.place < length (path stack.now).nodes }
    requires told { is_told (path stack.now) env.now.place env.now.test.now ≡ true }
    requires arguments { permits fun (length args.items) ≡ true }
    ensures { IsHeld result (spec.applied (setting V.value_of stack.now env.now) fun (map held_items args.entry.items)) }
{
    match fun {
        Fun::Name => {
            let node = node_meant(&args, stack, env.place)?;
            Ok(name_of(alloc, node, stack)?)
        }
        Fun::LocalName => {
            let node = node_meant(&args, stack, env.place)?;
            Ok(text_lent(local_name_of(node, stack)))
        }
        Fun::NamespaceUri => {
            let node = node_meant(&args, stack, env.place)?;
            Ok(text_lent(uri_of(node, stack)))
        }
        Fun::Position => Ok(whole_item(stack.position(env.place, env.test))),
        Fun::Level => Ok(whole_item(level(stack, env.place))),
        Fun::HasChildNodes => Ok(truth_item(has_child(node_at(stack, env.place)))),
        Fun::Boolean => {
            let truth = held_truth(&args[0])?;
            Ok(truth_item(truth))
        }
        Fun::Not => {
            let truth = held_truth(&args[0])?;
            Ok(truth_item(!truth))
        }
        _ => {
            let args = handed(alloc, fun, args, stack, env)?;
            called(alloc, fun, &args, env.limits)
        }
    }
}

/// The arguments as atoms. The current node's string value stands for one that is left out.
fn handed<'a, V: Vars>(
    alloc: Global,
    fun: Fun,
    args: Vec<Held<'a>>,
    stack: &'a NodeStack,
    env: &Env<'a, V>,
) -> Result<Vec<Sequence<'a>>, Memory>
    ensures { IfOk result (λ made. map sequence_of made.items ≡ spec.handed (setting V.value_of stack.now env.now) fun (map (nodes.atoms (path stack.now)) (map held_items args.entry.items))) }
{
    let may_lack = matches!(fun, Fun::Str | Fun::StringLength | Fun::NormalizeSpace);
    if may_lack && args.is_empty() {
        current_text(alloc, stack, env.place)
    } else {
        as_atoms(alloc, args, stack)
    }
}

/// A call of a function that sees no node.
fn called<'a>(
    alloc: Global,
    fun: Fun,
    args: &[Sequence<'a>],
    limits: &Limits,
) -> Result<Held<'a>, EvalStop>
    requires { takes fun (length (map sequence_of args.now)) ≡ true }
    ensures { IsHeld result (spec.atom_value (function.called limits.now fun (map sequence_of args.now))) }
{
    let value = call_lent(alloc, fun, args, limits)?;
    Ok(Held::Atoms(value))
}

/// The current node's string value, in place of an argument that is left out.
fn current_text(alloc: Global, stack: &NodeStack, place: usize) -> Result<Vec<Sequence<'_>>, Memory>
    ensures { IfOk result (λ args. map sequence_of args.items ≡ (atom.Chars (node.text_of (node.node_at (path stack.now) place)) ∷ []) ∷ []) }
{
    let text = text_of(node_at(stack, place), stack);
    let mut args = Vec::new(alloc);
    args.push(Sequence::Lent(Atoms::One(AtomRef::Chars(text))))?;
    Ok(args)
}

fn as_atoms<'a>(
    alloc: Global,
    args: Vec<Held<'a>>,
    stack: &'a NodeStack,
) -> Result<Vec<Sequence<'a>>, Memory>
    ensures { IfOk result (λ made. map sequence_of made.items ≡ map (nodes.atoms (path stack.now)) (map held_items args.entry.items)) }
{
    let mut made = Vec::new(alloc);
    for arg in args {
        let atoms = into_atoms(alloc, arg, stack)?;
        made.push(atoms)?;
    }
    Ok(made)
}

/// The number of a node's place; an attribute has its element's.
fn level(stack: &NodeStack, place: usize) -> u64
    requires { place < length (path stack.now).nodes }
    ensures value { result ≡ spec.level_at (path stack.now) place }
    ensures bound { result < 2 ^ 63 }
{
    // A path has fewer than 2^63 nodes.
    prove!(place < stack.len());
    match stack.view(place) {
        NodeView::Attribute(_) => place.saturating_sub(1) as u64,
        _ => place as u64,
    }
}

fn has_child(node: Option<NodeView<'_>>) -> bool
    ensures { result ≡ nodes.has_child (option_map node_of node.entry) }
{
    match node {
        Some(NodeView::Document) => true,
        Some(NodeView::Element { first, .. }) => !matches!(first, First::Nothing),
        _ => false,
    }
}

/// The one node of an argument, if it has one, or the current node where it is left out.
fn node_meant<'a>(
    args: &[Held<'_>],
    stack: &'a NodeStack,
    place: usize,
) -> Result<Option<NodeView<'a>>, EvalFault>
    ensures { result_map_both (option_map node_of) (λ fault. fault) result ≡ spec.node_meant (path stack.now) place (map held_items args.now) }
{
    match args {
        [arg, ..] => one_node(arg, stack),
        [] => Ok(node_at(stack, place)),
    }
}

fn one_node<'a>(arg: &Held<'_>, stack: &'a NodeStack) -> Result<Option<NodeView<'a>>, EvalFault>
    ensures { result_map_both (option_map node_of) (λ fault. fault) result ≡ spec.one_node (path stack.now) (held_items arg.now) }
{
    match arg {
        Held::Node(node) => Ok(referred(stack, *node)),
        Held::Atoms(atoms) => no_node(atoms.lent().len()),
        Held::Items(items) => node_of_items(items.as_slice(), stack),
    }
}

/// What stands in place of the one node of so many atoms.
fn no_node<'a>(atoms: usize) -> Result<Option<NodeView<'a>>, EvalFault>
    ensures { (p : node.Path) → (xs : Items Atom) → length xs ≡ atoms → result_map_both (option_map node_of) (λ fault. fault) result ≡ spec.one_node p (spec.atom_items xs) }
{
    match atoms {
        0 => Ok(None),
        1 => Err(EvalFault::NotNode),
        _ => Err(EvalFault::NotOne),
    }
}

fn node_of_items<'a>(
    items: &[Item],
    stack: &'a NodeStack,
) -> Result<Option<NodeView<'a>>, EvalFault>
    ensures { result_map_both (option_map node_of) (λ fault. fault) result ≡ spec.one_node (path stack.now) items.now }
{
    match items {
        [] => Ok(None),
        [Item::Node(node)] => Ok(referred(stack, *node)),
        [Item::Atom(_)] => Err(EvalFault::NotNode),
        _ => Err(EvalFault::NotOne),
    }
}

fn name_of<'a>(
    alloc: Global,
    node: Option<NodeView<'a>>,
    stack: &'a NodeStack,
) -> Result<Held<'a>, Memory>
    ensures { IfOk result (λ held. Ok (held_items held) ≡ spec.text_item (nodes.name_of (option_map node_of node.entry))) }
{
    match node {
        Some(NodeView::Element { name, .. }) => written(alloc, name),
        Some(NodeView::Attribute(attr)) => written(alloc, &attr.name),
        Some(NodeView::Pi { target, .. }) => Ok(text_lent(target)),
        _ => Ok(text_lent(no_text(stack))),
    }
}

fn local_name_of<'a>(node: Option<NodeView<'a>>, stack: &'a NodeStack) -> &'a Text
    ensures { result.now ≡ nodes.local_name_of (option_map node_of node.entry) }
{
    match node {
        Some(NodeView::Element { name, .. }) => &name.local,
        Some(NodeView::Attribute(attr)) => &attr.name.local,
        Some(NodeView::Pi { target, .. }) => target,
        _ => no_text(stack),
    }
}

fn uri_of<'a>(node: Option<NodeView<'a>>, stack: &'a NodeStack) -> &'a Text
    ensures { result.now ≡ nodes.uri_of (option_map node_of node.entry) }
{
    match node {
        Some(NodeView::Element { name, .. }) => &name.uri,
        Some(NodeView::Attribute(attr)) => &attr.name.uri,
        _ => no_text(stack),
    }
}

/// A name with its prefix, as it is written.
fn written(alloc: Global, name: &Name) -> Result<Held<'_>, Memory>
    ensures { IfOk result (λ held. Ok (held_items held) ≡ spec.text_item (nodes.written name.now)) }
{
    if name.prefix.is_empty() {
        return Ok(text_lent(&name.local));
    }
    let mut text = name.prefix.copy(alloc)?;
    text.push(':')?;
    text.push_str(name.local.as_str())?;
    Ok(text_item(text))
}
