//! Atoms as one text.

ghost use Rattle.std.specs.Prelude.{◌≡◌, IfOk};
ghost use Rattle.std.specs.Str.{chars};
ghost use Rattle.stxpath_values.specs.Conversion.{atom_text};
ghost use Rattle.stxpath_values.specs.Functions as spec;
ghost use Rattle.stxpath_values.specs.Lent.{atom_of, atoms_of, sequence_of};
ghost use Rattle.stxpath_values.specs.Outcome.{IsAnswer};

use crate::fault::{EvalFault, EvalStop};
use crate::lent::{AtomRef, Atoms, Sequence};
use crate::value::Atom;
use crate::{convert, texts};
use itoa::Buffer;
use std::alloc::Global;
use stx_base::{Limits, List, Memory, Text};

/// The texts of atoms in a row, with a separator between each two. It is refused, and not built, where it has more
/// characters than the limit.
pub fn join(
    alloc: Global,
    separator: &Text,
    atoms: &List<Atom>,
    limits: &Limits,
) -> Result<Text, EvalStop>
    ensures { IsAnswer result (spec.joined_text limits.now separator.now atoms.now) }
{
    joined_within(alloc, separator.as_str(), atoms.as_slice(), limits)
}

/// As `join`, of atoms that are lent.
pub fn join_lent(
    alloc: Global,
    separator: &str,
    atoms: Atoms<'_>,
    limits: &Limits,
) -> Result<Text, EvalStop>
    ensures { IsAnswer result (spec.joined_text limits.now (chars separator.now) (atoms_of atoms.entry)) }
{
    match atoms {
        Atoms::One(atom) => text_within(alloc, atom, limits),
        Atoms::List(list) => joined_within(alloc, separator, list, limits),
    }
}

fn text_within(alloc: Global, atom: AtomRef<'_>, limits: &Limits) -> Result<Text, EvalStop>
    ensures { IsAnswer result (spec.limited_text limits.now (atom_text (atom_of atom.entry))) }
{
    let mut buffer = Buffer::new();
    let text = convert::atom_text(atom, &mut buffer);
    if texts::count(text) > limits.text {
        return Err(EvalStop::Fault(EvalFault::TextTooLong));
    }
    let made = Text::of(alloc, text)?;
    Ok(made)
}

fn joined_within(
    alloc: Global,
    separator: &str,
    atoms: &[Atom],
    limits: &Limits,
) -> Result<Text, EvalStop>
    ensures { IsAnswer result (spec.joined_text limits.now (chars separator.now) atoms.now) }
{
    if texts::is_longer(limits.text, separator, atoms) {
        return Err(EvalStop::Fault(EvalFault::TextTooLong));
    }
    let text = texts::joined(alloc, separator, atoms)?;
    Ok(text)
}

/// A sequence as one text: that of its one atom, none of none, or else the texts of its atoms with a separator between
/// each two, within the limit. A text that was made is moved.
pub fn whole_text(
    alloc: Global,
    separator: &str,
    value: Sequence<'_>,
    limits: &Limits,
) -> Result<Text, EvalStop>
    ensures { IsAnswer result (spec.whole_text limits.now (chars separator.now) (sequence_of value.entry)) }
{
    match value {
        Sequence::Text(text) => Ok(text),
        Sequence::Lent(Atoms::One(atom)) => Ok(text_of(alloc, atom)?),
        Sequence::Lent(Atoms::List(list)) => list_text(alloc, separator, list, limits),
        Sequence::List(list) => list_text(alloc, separator, list.as_slice(), limits),
    }
}

fn list_text(
    alloc: Global,
    separator: &str,
    list: &[Atom],
    limits: &Limits,
) -> Result<Text, EvalStop>
    ensures { IsAnswer result (spec.whole_text limits.now (chars separator.now) list.now) }
{
    match list {
        [] => Ok(Text::new(alloc)),
        [atom] => Ok(text_of(alloc, atom.lent())?),
        _ => joined_within(alloc, separator, list, limits),
    }
}

fn text_of(alloc: Global, atom: AtomRef<'_>) -> Result<Text, Memory>
    ensures { IfOk result (λ text. text ≡ atom_text (atom_of atom.entry)) }
{
    let mut buffer = Buffer::new();
    Text::of(alloc, convert::atom_text(atom, &mut buffer))
}
