ghost use Rattle.std.specs.Prelude.{◌≡◌, ◌∷◌, [], map, pos, length, ◌<◌, ◌^◌, IfOk};
ghost use Rattle.stx_base.specs.declared.expression.Cmp.TheVariants.{Eq};
ghost use Rattle.stxpath_values.specs.declared.value.Atom.TheVariants.{Whole};
ghost use Rattle.stxpath_values.specs.Outcome.{IsAnswer, and_then, each};
ghost use Rattle.stxpath_values.specs.Numeral.{whole};
ghost use Rattle.stxpath_values.specs.Conversion as convert;
ghost use Rattle.stxpath_values.specs.Comparison as comparison;
ghost use Rattle.stxpath_values.specs.Lent.{atom_of, atoms_of};
ghost use Rattle.stxpath_values.specs.Places.{places_of};
ghost use Rattle.stxpath_values.specs.Functions.{total};

use crate::comparison::pair_holds;
use crate::convert::atom_whole;
use crate::fault::{EvalFault, EvalStop};
use crate::lent::{AtomRef, Atoms};
use crate::value::Atom;
use std::alloc::Global;
use stx_base::{Cmp, Copied, List, Memory};

/// The exact total of atoms as whole numbers.
pub fn total(atoms: Atoms<'_>) -> Result<i64, EvalFault>
    ensures { result ≡ and_then (each convert.atom_whole (atoms_of atoms.entry)) (λ zs. whole (total zs)) }
{
    match atoms {
        Atoms::One(atom) => atom_whole(atom),
        Atoms::List(list) => sum(list),
    }
}

fn sum(atoms: &[Atom]) -> Result<i64, EvalFault>
    ensures { result ≡ and_then (each convert.atom_whole atoms.now) (λ zs. whole (total zs)) }
{
    let mut sum = 0i128;
    for atom in atoms {
        sum += atom_whole(atom.lent())? as i128;
    }
    i64::try_from(sum).map_err(|_| EvalFault::Overflow)
}

/// Copies of atoms.
pub fn copies(alloc: Global, atoms: &[Atom]) -> Result<List<Atom>, Memory>
    ensures { IfOk result (λ made. made ≡ atoms.now) }
{
    let mut made = List::new(alloc);
    for atom in atoms {
        let item = atom.copy(alloc)?;
        made.push(item)?;
    }
    Ok(made)
}

/// The places, from 1, of the atoms that are equal to one.
pub fn equal_places(
    alloc: Global,
    atoms: Atoms<'_>,
    one: AtomRef<'_>,
) -> Result<List<Atom>, EvalStop>
    ensures { IsAnswer result (and_then (each (λ x. comparison.pair_holds Eq x (atom_of one.entry)) (atoms_of atoms.entry)) (λ holds. Ok (map (λ p. Whole (pos p)) (places_of holds)))) }
{
    match atoms {
        Atoms::One(atom) => place_of_equal(alloc, atom, one),
        Atoms::List(list) => places_of_equal(alloc, list, one),
    }
}

fn place_of_equal(
    alloc: Global,
    atom: AtomRef<'_>,
    one: AtomRef<'_>,
) -> Result<List<Atom>, EvalStop>
    ensures { IsAnswer result (and_then (comparison.pair_holds Eq (atom_of atom.entry) (atom_of one.entry)) (λ holds. Ok (map (λ p. Whole (pos p)) (places_of (holds ∷ []))))) }
{
    let mut made = List::new(alloc);
    if pair_holds(Cmp::Eq, atom, one)? {
        made.push(Atom::Whole(1))?;
    }
    Ok(made)
}

fn places_of_equal(alloc: Global, atoms: &[Atom], one: AtomRef<'_>) -> Result<List<Atom>, EvalStop>
    requires { length atoms.now < 2 ^ 63 }
    ensures { IsAnswer result (and_then (each (λ x. comparison.pair_holds Eq x (atom_of one.entry)) atoms.now) (λ holds. Ok (map (λ p. Whole (pos p)) (places_of holds)))) }
{
    let mut made = List::new(alloc);
    let mut place = 0i64;
    for atom in atoms {
        place += 1;
        if pair_holds(Cmp::Eq, atom.lent(), one)? {
            made.push(Atom::Whole(place))?;
        }
    }
    Ok(made)
}
