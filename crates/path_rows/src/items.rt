//! Values as rows write them: items parted by `, `, of which a text stands in quotes, a node is `#` and its place, and an
//! attribute `#`, its element's place, `@` and its number. No items are `()` where they are given, and nothing where they are told.

use rows::{Trouble, text_of};
use std::alloc::Global;
use std::fmt::Write;
use stx_base::List;
use stxpath_values::{Atom, EvalStop, Item, NodeRef};

pub fn item_of(alloc: Global, written: &str) -> Result<Item, Trouble> {
    match written.strip_prefix('#') {
        Some(node) => Ok(Item::Node(node_of(node)?)),
        None => Ok(Item::Atom(atom_of(alloc, written)?)),
    }
}

fn node_of(written: &str) -> Result<NodeRef, Trouble> {
    let (place, attr) = match written.split_once('@') {
        Some((place, attr)) => (place, Some(number_of(attr)?)),
        None => (written, None),
    };
    let place = number_of(place)?;
    Ok(NodeRef { place, attr })
}

pub fn number_of(written: &str) -> Result<usize, Trouble> {
    match written.parse::<usize>() {
        Ok(number) => Ok(number),
        Err(_) => Err(Trouble::Row("a number is wanted")),
    }
}

fn atom_of(alloc: Global, written: &str) -> Result<Atom, Trouble> {
    match written {
        "true" => return Ok(Atom::Truth(true)),
        "false" => return Ok(Atom::Truth(false)),
        _ => {}
    }
    if let Some(text) = written.strip_prefix('\'') {
        let text = text.strip_suffix('\'').unwrap_or(text);
        return Ok(Atom::Chars(text_of(alloc, text)?));
    }
    match written.parse::<i64>() {
        Ok(number) => Ok(Atom::Whole(number)),
        Err(_) => Err(Trouble::Row("no item")),
    }
}

/// What was made, where it was made to its end.
pub fn kept<T: Drop>(done: Result<(), Trouble>, made: T) -> Result<T, Trouble> {
    match done {
        Ok(()) => Ok(made),
        Err(trouble) => Err(trouble),
    }
}

pub fn items_of(alloc: Global, written: &str) -> Result<List<Item>, Trouble> {
    let mut made = List::new(alloc);
    let done = add_items(alloc, written, &mut made);
    kept(done, made)
}

fn add_items(alloc: Global, written: &str, made: &mut List<Item>) -> Result<(), Trouble> {
    if written == "()" {
        return Ok(());
    }
    for item in written.split(", ") {
        made.push(item_of(alloc, item)?)?;
    }
    Ok(())
}

pub fn atoms_of(alloc: Global, written: &str) -> Result<List<Atom>, Trouble> {
    let mut made = List::new(alloc);
    let done = add_atoms(alloc, written, &mut made);
    kept(done, made)
}

fn add_atoms(alloc: Global, written: &str, made: &mut List<Atom>) -> Result<(), Trouble> {
    if written == "()" {
        return Ok(());
    }
    for atom in written.split(", ") {
        made.push(atom_of(alloc, atom)?)?;
    }
    Ok(())
}

pub fn tell_atom(atom: &Atom, out: &mut String) -> Result<(), Trouble> {
    match atom {
        Atom::Whole(n) => Ok(write!(out, "{n}")?),
        Atom::Chars(text) => Ok(write!(out, "'{}'", text.as_str())?),
        Atom::Truth(b) => Ok(write!(out, "{b}")?),
    }
}

fn tell_item(item: &Item, out: &mut String) -> Result<(), Trouble> {
    match item {
        Item::Atom(atom) => tell_atom(atom, out),
        Item::Node(node) => match node.attr {
            Some(index) => Ok(write!(out, "#{}@{index}", node.place)?),
            None => Ok(write!(out, "#{}", node.place)?),
        },
    }
}

pub fn tell_items(items: &List<Item>, out: &mut String) -> Result<(), Trouble> {
    for item in items.as_slice() {
        if !out.is_empty() {
            out.push_str(", ")?;
        }
        tell_item(item, out)?;
    }
    Ok(())
}

pub fn tell_atoms(atoms: &List<Atom>, out: &mut String) -> Result<(), Trouble> {
    for atom in atoms.as_slice() {
        if !out.is_empty() {
            out.push_str(", ")?;
        }
        tell_atom(atom, out)?;
    }
    Ok(())
}

/// A fault is told as its name.
pub fn tell_stop(stop: EvalStop, out: &mut String) -> Result<(), Trouble> {
    match stop {
        EvalStop::Fault(fault) => Ok(write!(out, "{fault:?}")?),
        EvalStop::Memory => Err(Trouble::Memory),
    }
}
