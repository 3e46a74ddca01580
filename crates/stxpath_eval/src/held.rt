//! Values inside an evaluation: lent or single where they are, and lists only where they were made.

ghost use Rattle.std.specs.Prelude.{◌≡◌, ◌∷◌, ◌++◌, ◌<◌, ◌^◌, [], Ok, IfOk, OnOk};
ghost use Rattle.node_stack.specs.Stack.{path};
ghost use Rattle.stxpath_eval.specs.Held.{held_items};
ghost use Rattle.stxpath_eval.specs.Nodes.{atom_of as atom_of_item, atoms as atoms_of_items};
ghost use Rattle.stxpath_eval.specs.Steps as steps;
ghost use Rattle.stxpath_eval.specs.Value.{atom_items};
ghost use Rattle.stxpath_values.specs.Conversion.{as_truth};
ghost use Rattle.stxpath_values.specs.Lent.{atom_of, atoms_of, sequence_of};
ghost use Rattle.stxpath_values.specs.declared.value.Item.TheVariants as item;

use crate::nodes::text_at;
use crate::steps::holds_by;
use node_stack::NodeStack;
use std::alloc::Global;
use stx_base::{Copied, List, Memory};
use stxpath_values::{Atom, AtomRef, Atoms, EvalFault, Item, NodeRef, Sequence, atom_truth, truth};

/// A value: one node, items among which there may be nodes, or atoms.
#[derive(Drop)]
pub(crate) enum Held<'a> {
    Atoms(Sequence<'a>),
    Node(NodeRef),
    Items(List<Item>),
}

/// A value's items as atoms, with string values in place of nodes. What is lent stays so, and what was made is moved.
pub(crate) fn into_atoms<'a>(
    alloc: Global,
    held: Held<'a>,
    stack: &'a NodeStack,
) -> Result<Sequence<'a>, Memory>
    ensures { IfOk result (λ sequence. sequence_of sequence ≡ atoms_of_items (path stack.now) (held_items held.entry)) }
{
    match held {
        Held::Atoms(sequence) => Ok(sequence),
        Held::Node(node) => Ok(string_value(node, stack)),
        Held::Items(items) => items_atoms(alloc, items, stack),
    }
}

fn string_value(node: NodeRef, stack: &NodeStack) -> Sequence<'_>
    ensures { sequence_of result ≡ atom_of_item (path stack.now) (item.Node node) ∷ [] }
{
    Sequence::Lent(Atoms::One(AtomRef::Chars(text_at(stack, node))))
}

fn items_atoms<'a>(
    alloc: Global,
    items: List<Item>,
    stack: &'a NodeStack,
) -> Result<Sequence<'a>, Memory>
    ensures { IfOk result (λ sequence. sequence_of sequence ≡ atoms_of_items (path stack.now) items) }
{
    if let [Item::Node(node)] = items.as_slice() {
        return Ok(string_value(*node, stack));
    }
    let mut made = List::new(alloc);
    for item in items.into_vec() {
        let atom = into_atom(alloc, item, stack)?;
        made.push(atom)?;
    }
    Ok(Sequence::List(made))
}

fn into_atom(alloc: Global, item: Item, stack: &NodeStack) -> Result<Atom, Memory>
    ensures { IfOk result (λ atom. atom ≡ atom_of_item (path stack.now) item) }
{
    match item {
        Item::Atom(atom) => Ok(atom),
        Item::Node(node) => {
            let text = text_at(stack, node).copy(alloc)?;
            Ok(Atom::Chars(text))
        }
    }
}

/// A value's truth.
pub(crate) fn held_truth(held: &Held<'_>) -> Result<bool, EvalFault>
    ensures { result ≡ as_truth (held_items held.now) }
{
    match held {
        Held::Atoms(sequence) => atoms_truth(sequence.lent()),
        Held::Node(_) => Ok(true),
        Held::Items(items) => truth(items),
    }
}

fn atoms_truth(atoms: Atoms<'_>) -> Result<bool, EvalFault>
    ensures { result ≡ as_truth (atom_items (atoms_of atoms.entry)) }
{
    match atoms {
        Atoms::One(atom) => Ok(atom_truth(atom)),
        Atoms::List(list) => list_truth(list),
    }
}

fn list_truth(list: &[Atom]) -> Result<bool, EvalFault>
    ensures { result ≡ as_truth (atom_items list.now) }
{
    match list {
        [] => Ok(false),
        [atom] => Ok(atom_truth(atom.lent())),
        _ => Err(EvalFault::NotOne),
    }
}

/// Whether a predicate's value holds at a position.
pub(crate) fn held_holds(position: u64, held: &Held<'_>) -> Result<bool, EvalFault>
    requires { position < 2 ^ 63 }
    ensures { result ≡ steps.holds_by position (held_items held.now) }
{
    match held {
        Held::Atoms(sequence) => atoms_hold(position, sequence.lent()),
        Held::Node(_) => Ok(true),
        Held::Items(items) => holds_by(position, items),
    }
}

fn atoms_hold(position: u64, atoms: Atoms<'_>) -> Result<bool, EvalFault>
    requires { position < 2 ^ 63 }
    ensures { result ≡ steps.holds_by position (atom_items (atoms_of atoms.entry)) }
{
    match atoms {
        Atoms::One(atom) => Ok(atom_holds(position, atom)),
        Atoms::List(list) => list_holds(position, list),
    }
}

fn list_holds(position: u64, list: &[Atom]) -> Result<bool, EvalFault>
    requires { position < 2 ^ 63 }
    ensures { result ≡ steps.holds_by position (atom_items list.now) }
{
    match list {
        [] => Ok(false),
        [atom] => Ok(atom_holds(position, atom.lent())),
        _ => Err(EvalFault::NotOne),
    }
}

fn atom_holds(position: u64, atom: AtomRef<'_>) -> bool
    requires { position < 2 ^ 63 }
    ensures { Ok result ≡ steps.holds_by position (item.Atom (atom_of atom.entry) ∷ []) }
{
    match atom {
        AtomRef::Whole(number) => number == position as i64,
        AtomRef::Chars(_) | AtomRef::Truth(_) => atom_truth(atom),
    }
}

/// Appends a value's items. What is lent is copied.
pub(crate) fn push_held(alloc: Global, held: Held<'_>, all: &mut List<Item>) -> Result<(), Memory>
    ensures { OnOk result (all.new ≡ all.old ++ held_items held.entry) }
{
    match held {
        Held::Atoms(Sequence::Lent(Atoms::One(atom))) => {
            let atom = atom.owned(alloc)?;
            all.push(Item::Atom(atom))
        }
        Held::Atoms(Sequence::Lent(Atoms::List(list))) => push_copies(alloc, list, all),
        Held::Atoms(Sequence::Text(text)) => all.push(Item::Atom(Atom::Chars(text))),
        Held::Atoms(Sequence::List(list)) => push_atoms(list, all),
        Held::Node(node) => all.push(Item::Node(node)),
        Held::Items(items) => push_items(items, all),
    }
}

fn push_copies(alloc: Global, atoms: &[Atom], all: &mut List<Item>) -> Result<(), Memory>
    ensures { OnOk result (all.new ≡ all.old ++ atom_items atoms.now) }
{
    for atom in atoms {
        let atom = atom.copy(alloc)?;
        all.push(Item::Atom(atom))?;
    }
    Ok(())
}

fn push_atoms(atoms: List<Atom>, all: &mut List<Item>) -> Result<(), Memory>
    ensures { OnOk result (all.new ≡ all.old ++ atom_items atoms) }
{
    for atom in atoms.into_vec() {
        all.push(Item::Atom(atom))?;
    }
    Ok(())
}

fn push_items(items: List<Item>, all: &mut List<Item>) -> Result<(), Memory>
    ensures { OnOk result (all.new ≡ all.old ++ items) }
{
    for item in items.into_vec() {
        all.push(item)?;
    }
    Ok(())
}

/// A value's items as a list of their own.
pub(crate) fn into_items(alloc: Global, held: Held<'_>) -> Result<List<Item>, Memory>
    ensures { IfOk result (λ items. items ≡ held_items held.entry) }
{
    match held {
        Held::Items(items) => Ok(items),
        _ => {
            let mut items = List::new(alloc);
            push_held(alloc, held, &mut items)?;
            Ok(items)
        }
    }
}
