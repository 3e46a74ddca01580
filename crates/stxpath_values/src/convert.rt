ghost use Rattle.std.specs.Prelude.{◌≡◌, []};
ghost use Rattle.std.specs.Fmt.{signed_decimal};
ghost use Rattle.std.specs.Str.{chars};
ghost use Rattle.std.specs.Result.{result_map_both};
ghost use Rattle.stxpath_values.specs.Outcome.{IsAnswer};
ghost use Rattle.stxpath_values.specs.Conversion.{atom_text, as_text, as_one, as_whole, as_truth};
ghost use Rattle.stxpath_values.specs.Conversion as spec;
ghost use Rattle.stxpath_values.specs.Lent.{atom_of, atoms_of};

use crate::fault::{EvalFault, EvalStop};
use crate::lent::{AtomRef, Atoms};
use crate::numeral::text_number;
use crate::value::{Atom, Item};
use itoa::Buffer;
use std::alloc::Global;
use stx_base::{List, Text};

/// A list as a text: that of its one item, the empty text of none; else `NotOne`.
pub fn to_text(alloc: Global, atoms: &List<Atom>) -> Result<Text, EvalStop>
    ensures { IsAnswer result (as_text atoms.now) }
{
    let mut buffer = Buffer::new();
    let text = text_of(Atoms::List(atoms.as_slice()), &mut buffer)?;
    let made = Text::of(alloc, text)?;
    Ok(made)
}

/// A list as a whole number: that of its one item, else `NotOne`. A text is a numeral, or else its fault is `Overflow`
/// where it is one outside of 64 bits, `Fraction` where it writes a fraction, or `NotWhole`. Allocates nothing.
pub fn to_whole(atoms: &List<Atom>) -> Result<i64, EvalFault>
    ensures { result ≡ as_whole atoms.now }
{
    whole_of(Atoms::List(atoms.as_slice()))
}

/// Atoms that are lent as a whole number, as `to_whole` gives it. Allocates nothing.
pub fn whole_of(atoms: Atoms<'_>) -> Result<i64, EvalFault>
    ensures { result ≡ as_whole (atoms_of atoms.entry) }
{
    let atom = one_of(atoms)?;
    atom_whole(atom)
}

/// A list as a truth value: false where it is empty, true where a node is first, else that of its one item, else
/// `NotOne`. Allocates nothing.
pub fn truth(items: &List<Item>) -> Result<bool, EvalFault>
    ensures { result ≡ as_truth items.now }
{
    match items.as_slice() {
        [] => Ok(false),
        [Item::Node(_), ..] => Ok(true),
        [Item::Atom(atom)] => Ok(atom_truth(atom.lent())),
        _ => Err(EvalFault::NotOne),
    }
}

/// Atoms that are lent as a text, as `to_text` gives it. A number is written into the buffer.
pub fn text_of<'a>(atoms: Atoms<'a>, buffer: &'a mut Buffer) -> Result<&'a str, EvalFault>
    ensures { result_map_both (λ text. chars text.now) (λ fault. fault) result ≡ as_text (atoms_of atoms.entry) }
{
    match atoms {
        Atoms::One(atom) => Ok(atom_text(atom, buffer)),
        Atoms::List(list) => list_text(list, buffer),
    }
}

fn list_text<'a>(list: &'a [Atom], buffer: &'a mut Buffer) -> Result<&'a str, EvalFault>
    ensures { result_map_both (λ text. chars text.now) (λ fault. fault) result ≡ as_text list.now }
{
    match list {
        [] => Ok(no_text()),
        [atom] => Ok(atom_text(atom.lent(), buffer)),
        _ => Err(EvalFault::NotOne),
    }
}

/// The one of atoms that are lent.
pub fn one_of(atoms: Atoms<'_>) -> Result<AtomRef<'_>, EvalFault>
    ensures { result_map_both atom_of (λ fault. fault) result ≡ as_one (atoms_of atoms.entry) }
{
    match atoms {
        Atoms::One(atom) => Ok(atom),
        Atoms::List(list) => match list {
            [atom] => Ok(atom.lent()),
            _ => Err(EvalFault::NotOne),
        },
    }
}

/// An atom as a text. A number is written into the buffer.
pub fn atom_text<'a>(atom: AtomRef<'a>, buffer: &'a mut Buffer) -> &'a str
    ensures { chars result.now ≡ spec.atom_text (atom_of atom.entry) }
{
    match atom {
        AtomRef::Whole(number) => number_text(number, buffer),
        AtomRef::Chars(text) => text.as_str(),
        AtomRef::Truth(truth) => truth_text(truth),
    }
}

fn no_text() -> &'static str
    ensures { chars result.now ≡ [] }
{
    ""
}

fn number_text(n: i64, buffer: &mut Buffer) -> &str
    ensures { chars result.now ≡ signed_decimal n }
{
    buffer.format(n)
}

fn truth_text(b: bool) -> &'static str
    ensures { chars result.now ≡ spec.atom_text (Atom.Truth b) }
{
    if b { "true" } else { "false" }
}

/// An atom as a whole number.
pub fn atom_whole(atom: AtomRef<'_>) -> Result<i64, EvalFault>
    ensures { result ≡ spec.atom_whole (atom_of atom.entry) }
{
    match atom {
        AtomRef::Whole(number) => Ok(number),
        AtomRef::Chars(text) => match text_number(text.as_str())? {
            Some(number) => Ok(number),
            None => Err(EvalFault::NotWhole),
        },
        AtomRef::Truth(truth) => Ok(truth as i64),
    }
}

/// An atom as a truth value: false where it is 0, or an empty text. Allocates nothing.
pub fn atom_truth(atom: AtomRef<'_>) -> bool
    ensures { result ≡ spec.atom_truth (atom_of atom.entry) }
{
    match atom {
        AtomRef::Whole(number) => number != 0,
        AtomRef::Chars(text) => !text.is_empty(),
        AtomRef::Truth(truth) => truth,
    }
}
