//! Atoms that are lent, and sequences that are lent where they stand or made.

ghost use Rattle.std.specs.Prelude.{◌≡◌, ◌-◌, ◌<◌, ◌^◌, ◌≤◌, ◌∷◌, [], length, take, drop, IfOk};
ghost use Rattle.stxpath_values.specs.Lent.{atom_of, atoms_of, sequence_of};

use crate::lists::copies;
use crate::places::Bounds;
use crate::value::Atom;
use std::alloc::Global;
use stx_base::{Copied, List, Memory, Text};

/// An atom that is lent.
#[derive(Clone, Copy, Debug)]
pub enum AtomRef<'a> {
    Whole(i64),
    Chars(&'a Text),
    Truth(bool),
}

/// Atoms that are lent: one, or those of a list.
#[derive(Clone, Copy, Debug)]
pub enum Atoms<'a> {
    One(AtomRef<'a>),
    List(&'a [Atom]),
}

/// Atoms that are lent where they stand, or that were made.
#[derive(Debug, Drop)]
pub enum Sequence<'a> {
    Lent(Atoms<'a>),
    /// One text.
    Text(Text),
    List(List<Atom>),
}

impl Atom {
    /// Lends it. Allocates nothing.
    pub fn lent(&self) -> AtomRef<'_>
        ensures { atom_of result ≡ self.now }
    {
        match self {
            Atom::Whole(number) => AtomRef::Whole(*number),
            Atom::Chars(text) => AtomRef::Chars(text),
            Atom::Truth(truth) => AtomRef::Truth(*truth),
        }
    }
}

impl AtomRef<'_> {
    /// An atom that is owned.
    pub fn owned(self, alloc: Global) -> Result<Atom, Memory>
        ensures { IfOk result (λ made. made ≡ atom_of self.entry) }
    {
        match self {
            AtomRef::Whole(number) => Ok(Atom::Whole(number)),
            AtomRef::Chars(text) => {
                let text = text.copy(alloc)?;
                Ok(Atom::Chars(text))
            }
            AtomRef::Truth(truth) => Ok(Atom::Truth(truth)),
        }
    }
}

impl Atoms<'_> {
    /// How many they are. Allocates nothing.
    pub fn len(self) -> usize
        ensures value { result ≡ length (atoms_of self.entry) }
        ensures bound { result < 2 ^ 63 }
    {
        match self {
            Atoms::One(_) => 1,
            Atoms::List(list) => list.len(),
        }
    }
}

impl<'a> Sequence<'a> {
    /// Lends it. Allocates nothing.
    pub fn lent(&self) -> Atoms<'_>
        ensures { atoms_of result ≡ sequence_of self.now }
    {
        match self {
            Sequence::Lent(atoms) => *atoms,
            Sequence::Text(text) => Atoms::One(AtomRef::Chars(text)),
            Sequence::List(list) => Atoms::List(list.as_slice()),
        }
    }

    /// Its atoms as a list of their own. What was made is moved.
    pub fn into_list(self, alloc: Global) -> Result<List<Atom>, Memory>
        ensures { IfOk result (λ list. list ≡ sequence_of self.entry) }
    {
        match self {
            Sequence::Lent(atoms) => copied(alloc, atoms),
            Sequence::Text(text) => only(alloc, Atom::Chars(text)),
            Sequence::List(list) => Ok(list),
        }
    }

    /// Its atoms from one index up to another. They are copied only where they were made.
    pub(crate) fn part(&self, alloc: Global, bounds: Bounds) -> Result<Sequence<'a>, Memory>
        requires order { bounds.from ≤ bounds.to }
        requires size { bounds.to ≤ length (sequence_of self.now) }
        ensures { IfOk result (λ part. sequence_of part ≡ take (bounds.to - bounds.from) (drop bounds.from (sequence_of self.now))) }
    {
        if bounds.from == bounds.to {
            return Ok(Sequence::List(List::new(alloc)));
        }
        match self {
            Sequence::Lent(Atoms::One(atom)) => Ok(Sequence::Lent(Atoms::One(*atom))),
            Sequence::Lent(Atoms::List(list)) => {
                let part = &list[bounds.from..bounds.to];
                Ok(Sequence::Lent(Atoms::List(part)))
            }
            Sequence::Text(text) => {
                let text = text.copy(alloc)?;
                Ok(Sequence::Text(text))
            }
            Sequence::List(list) => {
                let part = copies(alloc, &list.as_slice()[bounds.from..bounds.to])?;
                Ok(Sequence::List(part))
            }
        }
    }
}

fn copied(alloc: Global, atoms: Atoms<'_>) -> Result<List<Atom>, Memory>
    ensures { IfOk result (λ list. list ≡ atoms_of atoms.entry) }
{
    match atoms {
        Atoms::One(atom) => {
            let atom = atom.owned(alloc)?;
            only(alloc, atom)
        }
        Atoms::List(list) => copies(alloc, list),
    }
}

fn only(alloc: Global, atom: Atom) -> Result<List<Atom>, Memory>
    ensures { IfOk result (λ list. list ≡ atom ∷ []) }
{
    let mut list = List::new(alloc);
    list.push(atom)?;
    Ok(list)
}
