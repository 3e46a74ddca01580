//! Values of one item, and lists that are measured.

ghost use Rattle.std.specs.Prelude.{◌≡◌, ◌∷◌, ◌<◌, ◌^◌, [], Ok};
ghost use Rattle.std.specs.Option.{option_copied};
ghost use Rattle.stxpath_eval.specs.Held.{held_answer, held_items, IsHeld};
ghost use Rattle.stxpath_eval.specs.Nodes.{node};
ghost use Rattle.stxpath_eval.specs.Value as spec;
ghost use Rattle.stxpath_values.specs.Lent.{atom_of};
ghost use Rattle.stxpath_values.specs.Functions.{limited_list};
ghost use Rattle.stxpath_values.specs.Outcome.{stopped};

use crate::held::Held;
use stx_base::{Limits, List, Text};
use stxpath_values::{Atom, AtomRef, Atoms, EvalFault, EvalStop, Item, NodeRef, Sequence};

pub(crate) fn one<'a>(atom: AtomRef<'a>) -> Held<'a>
    ensures { Ok (held_items result) ≡ spec.one (atom_of atom.entry) }
{
    Held::Atoms(Sequence::Lent(Atoms::One(atom)))
}

pub(crate) fn truth_item<'a>(truth: bool) -> Held<'a>
    ensures { Ok (held_items result) ≡ spec.truth_item truth }
{
    one(AtomRef::Truth(truth))
}

pub(crate) fn whole_item<'a>(number: u64) -> Held<'a>
    requires { number < 2 ^ 63 }
    ensures { Ok (held_items result) ≡ spec.whole_item number }
{
    one(AtomRef::Whole(number as i64))
}

pub(crate) fn text_item<'a>(text: Text) -> Held<'a>
    ensures { Ok (held_items result) ≡ spec.text_item text }
{
    Held::Atoms(Sequence::Text(text))
}

pub(crate) fn text_lent(text: &Text) -> Held<'_>
    ensures { Ok (held_items result) ≡ spec.text_item text.now }
{
    one(AtomRef::Chars(text))
}

/// The node at a place.
pub(crate) fn place_item<'a>(place: usize) -> Held<'a>
    ensures { held_items result ≡ node place ∷ [] }
{
    Held::Node(NodeRef { place, attr: None })
}

pub(crate) fn variable(value: Option<&List<Atom>>) -> Result<Held<'_>, EvalStop>
    ensures { IsHeld result (spec.variable (option_copied value.entry)) }
{
    match value {
        Some(atoms) => Ok(lent_list(atoms)),
        None => Err(EvalStop::Fault(EvalFault::NoVariable)),
    }
}

fn lent_list(atoms: &List<Atom>) -> Held<'_>
    ensures { held_items result ≡ spec.atom_items atoms.now }
{
    Held::Atoms(Sequence::Lent(Atoms::List(atoms.as_slice())))
}

/// Items that are a list.
pub(crate) fn listed<'a>(items: Result<List<Item>, EvalStop>) -> Result<Held<'a>, EvalStop>
    ensures { held_answer result ≡ items }
{
    let items = items?;
    Ok(Held::Items(items))
}

/// Refuses a list of more items than are allowed.
pub(crate) fn measured(limits: &Limits, items: List<Item>) -> Result<List<Item>, EvalStop>
    ensures { result ≡ stopped (limited_list limits.now items) }
{
    if items.len() as u64 > limits.sequence as u64 {
        return Err(EvalStop::Fault(EvalFault::SequenceTooLong));
    }
    Ok(items)
}
