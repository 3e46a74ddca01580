ghost use Rattle.std.specs.Prelude.{◌≡◌, ◌<◌, ◌^◌, ℕ, ◌++◌, ◌==◌, length, nat_lt, map, position, if◌then◌else◌, OnOk, IfOk};
ghost use Rattle.std.specs.Option.{option_or};
ghost use Rattle.std.specs.BTreeMap as tree;
ghost use Rattle.std.specs.Ordering.{nat_cmp};
ghost use Rattle.std.specs.List.{concat as concat_all};
ghost use Rattle.std.specs.Str.{chars};
ghost use Rattle.stxpath_values.specs.Outcome.{IsAnswer, and_then, each};
ghost use Rattle.stxpath_values.specs.Conversion.{as_text, atom_text as text_of_atom};
ghost use Rattle.stxpath_values.specs.Lent.{atoms_of, sequence_of};
ghost use Rattle.stxpath_values.specs.Words as spec;

use crate::convert::{atom_text, text_of};
use crate::fault::{EvalFault, EvalStop};
use crate::lent::{Atoms, Sequence};
use crate::value::Atom;
use itoa::Buffer;
use std::alloc::{AllocError, Global};
use std::collections::BTreeMap;
use stx_base::{Memory, Text, is_space};

/// The words of a text, what stands between its white space, with one space between each two.
pub fn normalized(alloc: Global, text: &str) -> Result<Text, Memory>
    ensures { IfOk result (λ made. made ≡ spec.normalized (chars text.now)) }
{
    let mut made = Text::new(alloc);
    let mut pending = false;
    for c in text.chars() {
        if is_space(c) {
            pending = !made.is_empty();
        } else {
            if pending {
                made.push(' ')?;
            }
            pending = false;
            made.push(c)?;
        }
    }
    Ok(made)
}

/// Each character of a text at its first place in `from` becomes the one of `to` there, or goes where there is none.
pub fn translation(alloc: Global, text: &str, from: &str, to: &str) -> Result<Text, Memory>
    ensures { IfOk result (λ made. made ≡ spec.translation (chars from.now) (chars to.now) (chars text.now)) }
{
    let from = chars_of(alloc, from)?;
    let to = chars_of(alloc, to)?;
    let places = first_places(alloc, &from)?;
    let mut made = Text::new(alloc);
    for c in text.chars() {
        if let Some(d) = translated(c, &places, &to) {
            made.push(d)?;
        }
    }
    Ok(made)
}

/// What a character becomes, by the first places of those that are translated.
fn translated(c: char, places: &BTreeMap<char, usize>, to: &[char]) -> Option<char>
    ensures { result ≡ spec.becomes (tree.get nat_cmp places.now c) to.now c }
{
    match places.get(&c) {
        None => Some(c),
        Some(i) => to.get(*i).copied(),
    }
}

/// The first place of each character, as an index from 0.
fn first_places(alloc: Global, chars: &[char]) -> Result<BTreeMap<char, usize>, AllocError>
    ensures { IfOk result (λ places. (c : ℕ) → tree.get nat_cmp places c ≡ position (λ d. d == c) chars.now) }
{
    let mut places = BTreeMap::new(alloc);
    for (i, c) in chars.iter().enumerate() {
        keep_first(&mut places, *c, i)?;
    }
    Ok(places)
}

/// Gives a character a place, unless it has one.
fn keep_first(places: &mut BTreeMap<char, usize>, c: char, place: usize) -> Result<(), AllocError>
    ensures { OnOk result ((d : ℕ) → tree.get nat_cmp places.new d ≡ option_or (tree.get nat_cmp places.old d) (if c == d then Some place else None)) }
{
    places.entry(c)?.or_insert(place);
    Ok(())
}

fn chars_of(alloc: Global, text: &str) -> Result<Vec<char>, AllocError>
    ensures { IfOk result (λ made. made.items ≡ chars text.now) }
{
    text.chars().collect(alloc)
}

/// The texts of lists in a row.
pub fn concat(alloc: Global, lists: &[Sequence<'_>]) -> Result<Text, EvalStop>
    ensures { IsAnswer result (and_then (each as_text (map sequence_of lists.now)) (λ parts. Ok (concat_all parts))) }
{
    let mut made = Text::new(alloc);
    for list in lists {
        push_list(&mut made, list.lent())?;
    }
    Ok(made)
}

fn push_list(made: &mut Text, list: Atoms<'_>) -> Result<(), EvalStop>
    ensures fault { IsAnswer result (and_then (as_text (atoms_of list.entry)) (λ cs. Ok tt)) }
    ensures ok { OnOk result (and_then (as_text (atoms_of list.entry)) (λ cs. Ok (made.old ++ cs)) ≡ Ok made.new) }
{
    let mut buffer = Buffer::new();
    let text = text_of(list, &mut buffer)?;
    made.push_str(text)?;
    Ok(())
}

/// Whether they have more characters than the limit. Nothing is built.
pub fn is_concat_longer(limit: u64, lists: &[Sequence<'_>]) -> Result<bool, EvalFault>
    ensures { result ≡ and_then (each as_text (map sequence_of lists.now)) (λ parts. Ok (nat_lt limit (length (concat_all parts)))) }
{
    let mut room = Some(limit);
    for list in lists {
        let len = list_len(list.lent())?;
        room = less(room, len);
    }
    Ok(room.is_none())
}

/// How many characters a list has as a text.
fn list_len(list: Atoms<'_>) -> Result<u64, EvalFault>
    ensures { result ≡ and_then (as_text (atoms_of list.entry)) (λ cs. Ok (length cs)) }
{
    let mut buffer = Buffer::new();
    let text = text_of(list, &mut buffer)?;
    Ok(count(text))
}

/// The room that is left; none where there is less than that.
fn less(room: Option<u64>, len: u64) -> Option<u64>
    ensures { result ≡ spec.less room len }
{
    room?.checked_sub(len)
}

/// The texts of atoms in a row, with one between each two.
pub fn joined(alloc: Global, separator: &str, atoms: &[Atom]) -> Result<Text, Memory>
    ensures { IfOk result (λ made. made ≡ spec.joined (chars separator.now) (map text_of_atom atoms.now)) }
{
    let mut made = Text::new(alloc);
    let Some((first, others)) = atoms.split_first() else {
        return Ok(made);
    };
    push_atom(&mut made, first)?;
    for atom in others {
        made.push_str(separator)?;
        push_atom(&mut made, atom)?;
    }
    Ok(made)
}

fn push_atom(made: &mut Text, atom: &Atom) -> Result<(), Memory>
    ensures { OnOk result (made.new ≡ made.old ++ text_of_atom atom.now) }
{
    let mut buffer = Buffer::new();
    made.push_str(atom_text(atom.lent(), &mut buffer))
}

/// Whether they have more characters than the limit. Nothing is built.
pub fn is_longer(limit: u64, separator: &str, atoms: &[Atom]) -> bool
    ensures { result ≡ nat_lt limit (length (spec.joined (chars separator.now) (map text_of_atom atoms.now))) }
{
    let Some((first, others)) = atoms.split_first() else {
        return false;
    };
    let between = count(separator);
    let mut room = less(Some(limit), atom_len(first));
    for atom in others {
        room = less(less(room, between), atom_len(atom));
    }
    room.is_none()
}

/// How many characters an atom has as a text.
fn atom_len(atom: &Atom) -> u64
    ensures { result ≡ length (text_of_atom atom.now) }
{
    let mut buffer = Buffer::new();
    count(atom_text(atom.lent(), &mut buffer))
}

/// How many characters a text has.
pub fn count(text: &str) -> u64
    ensures value { result ≡ length (chars text.now) }
    ensures bound { result < 2 ^ 63 }
{
    text.chars().count() as u64
}
