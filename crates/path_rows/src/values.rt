//! Conversions, operations, comparisons and calls.

use crate::items::{atoms_of, items_of, kept, tell_atom, tell_atoms, tell_items, tell_stop};
use rows::{Row, Trouble};
use std::alloc::Global;
use stx_base::{Cmp, Copied, Fun, Limits, List, Op, Text};
use stxpath_syntax::{Dialect, Expr, ParseFault, read_expr};
use stxpath_values::{Atom, EvalStop, arith, call, compare, takes, to_text, to_whole, truth};

fn tell_one(value: Result<Atom, EvalStop>, out: &mut String) -> Result<(), Trouble> {
    match value {
        Ok(atom) => tell_atom(&atom, out),
        Err(stop) => tell_stop(stop, out),
    }
}

pub fn tell_text(alloc: Global, row: &Row, out: &mut String) -> Result<(), Trouble> {
    let atoms = atoms_of(alloc, row.given)?;
    tell_one(to_text(alloc, &atoms).map(Atom::Chars), out)
}

pub fn tell_whole(alloc: Global, row: &Row, out: &mut String) -> Result<(), Trouble> {
    let atoms = atoms_of(alloc, row.given)?;
    let whole = to_whole(&atoms).map(Atom::Whole);
    tell_one(whole.map_err(EvalStop::Fault), out)
}

pub fn tell_truth(alloc: Global, row: &Row, out: &mut String) -> Result<(), Trouble> {
    let items = items_of(alloc, row.given)?;
    let holds = truth(&items).map(Atom::Truth);
    tell_one(holds.map_err(EvalStop::Fault), out)
}

/// An operation of numbers, or a comparison.
#[derive(Clone, Copy)]
enum Sign {
    Number(Op),
    Order(Cmp),
}

fn sign_of(written: &str) -> Result<Sign, Trouble> {
    match written {
        "+" => Ok(Sign::Number(Op::Add)),
        "-" => Ok(Sign::Number(Op::Sub)),
        "*" => Ok(Sign::Number(Op::Mul)),
        "idiv" => Ok(Sign::Number(Op::Idiv)),
        "mod" => Ok(Sign::Number(Op::Mod)),
        "=" => Ok(Sign::Order(Cmp::Eq)),
        "!=" => Ok(Sign::Order(Cmp::Ne)),
        "<" => Ok(Sign::Order(Cmp::Lt)),
        "<=" => Ok(Sign::Order(Cmp::Le)),
        ">" => Ok(Sign::Order(Cmp::Gt)),
        ">=" => Ok(Sign::Order(Cmp::Ge)),
        _ => Err(Trouble::Row("no operation")),
    }
}

fn value_of(sign: Sign, left: &List<Atom>, right: &List<Atom>) -> Result<Atom, EvalStop> {
    match sign {
        Sign::Number(op) => arith(op, left, right),
        Sign::Order(cmp) => compare(cmp, left, right).map(Atom::Truth),
    }
}

/// `LEFT OPERATION RIGHT`, parted by ` | `.
pub fn tell_operation(alloc: Global, row: &Row, out: &mut String) -> Result<(), Trouble> {
    let (left, others) = row.given.split_once(" | ").unwrap_or((row.given, ""));
    let (sign, right) = others.split_once(" | ").unwrap_or((others, ""));
    let sign = sign_of(sign)?;
    let left = atoms_of(alloc, left)?;
    let right = atoms_of(alloc, right)?;
    tell_one(value_of(sign, &left, &right), out)
}

/// The signs of the comparisons that hold of two lists, or the names of their faults.
pub fn tell_comparisons(alloc: Global, row: &Row, out: &mut String) -> Result<(), Trouble> {
    let (left, right) = row.given.split_once(" | ").unwrap_or((row.given, ""));
    let left = atoms_of(alloc, left)?;
    let right = atoms_of(alloc, right)?;
    compare_by_all(alloc, &left, &right, out)
}

fn compare_by_all(
    alloc: Global,
    left: &List<Atom>,
    right: &List<Atom>,
    out: &mut String,
) -> Result<(), Trouble> {
    for sign in "= != < <= > >=".split(' ') {
        compare_by(alloc, sign, left, right, out)?;
    }
    Ok(())
}

fn compare_by(
    alloc: Global,
    sign: &str,
    left: &List<Atom>,
    right: &List<Atom>,
    out: &mut String,
) -> Result<(), Trouble> {
    let value = value_of(sign_of(sign)?, left, right);
    let mut answer = String::new(alloc);
    tell_one(value, &mut answer)?;
    add_sign(sign, answer.as_str(), out)
}

/// Adds the sign of a comparison that holds, or the name of a fault that isn't there yet.
fn add_sign(sign: &str, answer: &str, out: &mut String) -> Result<(), Trouble> {
    let word = match answer {
        "false" => return Ok(()),
        "true" => sign,
        fault => fault,
    };
    if out.as_str() == word {
        return Ok(());
    }
    if !out.is_empty() {
        out.push(' ')?;
    }
    out.push_str(word)?;
    Ok(())
}

/// The function of a call that was read.
fn function_in(read: &Result<Expr, ParseFault>) -> Result<Fun, Trouble> {
    match read {
        Ok(Expr::Call(fun, _)) => Ok(*fun),
        _ => Err(Trouble::Row("no function of so many arguments")),
    }
}

/// A call of a function of so many arguments.
fn call_of(alloc: Global, name: &str, count: usize) -> Result<Text, Trouble> {
    let mut text = String::from_str(alloc, name)?;
    text.push('(')?;
    for place in 0..count {
        text.push_str(if place == 0 { "1" } else { ", 1" })?;
    }
    text.push(')')?;
    Ok(Text::from_string(text))
}

/// The function of a name, which is read in a call with so many arguments.
fn function_of(alloc: Global, name: &str, count: usize) -> Result<Fun, Trouble> {
    let text = call_of(alloc, name, count)?;
    let read = read_expr(alloc, &text, &List::new(alloc), Dialect::One);
    let found = function_in(&read);
    drop(read);
    found
}

/// The lists of arguments, parted by ` | `.
fn args_of(alloc: Global, written: &str) -> Result<List<List<Atom>>, Trouble> {
    let mut args = List::new(alloc);
    let done = add_args(alloc, written, &mut args);
    kept(done, args)
}

fn add_args(alloc: Global, written: &str, args: &mut List<List<Atom>>) -> Result<(), Trouble> {
    if written.is_empty() {
        return Ok(());
    }
    for arg in written.split(" | ") {
        args.push(atoms_of(alloc, arg)?)?;
    }
    Ok(())
}

/// A function's name and its arguments.
pub fn tell_call(alloc: Global, row: &Row, out: &mut String) -> Result<(), Trouble> {
    let (name, others) = row.given.split_once(" | ").unwrap_or((row.given, ""));
    let limits = row.limits()?;
    let args = args_of(alloc, others)?;
    let fun = function_of(alloc, name, args.len())?;
    tell_called(alloc, fun, &args, &limits, out)
}

fn tell_called(
    alloc: Global,
    fun: Fun,
    args: &List<List<Atom>>,
    limits: &Limits,
    out: &mut String,
) -> Result<(), Trouble> {
    if !takes(fun, args.len()) {
        return Err(Trouble::Row("another number of arguments"));
    }
    tell_list(&call(alloc, fun, args, limits), out)
}

fn tell_list(value: &Result<List<Atom>, EvalStop>, out: &mut String) -> Result<(), Trouble> {
    match value {
        Ok(atoms) => tell_atoms(atoms, out),
        Err(stop) => tell_stop(*stop, out),
    }
}

pub fn tell_copy(alloc: Global, row: &Row, out: &mut String) -> Result<(), Trouble> {
    let items = items_of(alloc, row.given)?;
    tell_items(&items.copy(alloc)?, out)
}
