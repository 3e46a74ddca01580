//! Texts of the path language: what they are read as, and how that is printed. `(Add 1 (Mul 2 3))` is an operator or a function
//! with its operands, `(Abs /a[1]//b @x)` a path with steps, `(Up 2 @x)` one that counts parents. A fault is `Kind at PLACE`.
//! Where `: brief` is set, a tree is told as `read`.

use crate::items::kept;
use crate::show::{shown_avt, shown_expr, shown_pattern};
use rows::{Row, Setting, Trouble, binding_of, text_of};
use std::alloc::Global;
use std::fmt::Write;
use stx_base::{Binding, List, Text};
use stxpath_syntax::{
    Avt, Dialect, Expr, ParseFault, Pattern, print_expr, read_avt, read_expr, read_pattern,
};

/// The bindings that are set.
pub fn scope_of(alloc: Global, row: &Row) -> Result<List<Binding>, Trouble> {
    let mut made = List::new(alloc);
    let done = add_bindings(alloc, row.settings, &mut made);
    kept(done, made)
}

fn add_bindings(
    alloc: Global,
    settings: &[Setting],
    made: &mut List<Binding>,
) -> Result<(), Trouble> {
    for setting in settings {
        if setting.key.as_str() == "bind" {
            made.push(binding_of(alloc, setting.value.as_str())?)?;
        }
    }
    Ok(())
}

/// Of sheets of version 1.0, unless `: version 1.1` is set.
pub fn dialect_of(row: &Row) -> Dialect {
    if row.setting("version") == Some("1.1") {
        Dialect::OneOne
    } else {
        Dialect::One
    }
}

fn tell_fault(fault: ParseFault, out: &mut String) -> Result<(), Trouble> {
    match fault {
        ParseFault::Path(fault) => {
            let kind = fault.kind;
            let place = fault.place;
            Ok(write!(out, "{kind:?} at {place}")?)
        }
        ParseFault::Memory => Err(Trouble::Memory),
    }
}

fn tell_tree(row: &Row, tree: &str, out: &mut String) -> Result<(), Trouble> {
    let told = if row.is_set("brief") { "read" } else { tree };
    Ok(out.push_str(told)?)
}

/// What is told of a text is told of what was read of it, which is lent: trees are let go of in one place.
pub fn tell_expression(alloc: Global, row: &Row, out: &mut String) -> Result<(), Trouble> {
    let read = expression_in(alloc, row, &text_of(alloc, row.given)?)?;
    let told = tell_read(alloc, row, &read, out);
    drop(read);
    told
}

fn expression_in(
    alloc: Global,
    row: &Row,
    text: &Text,
) -> Result<Result<Expr, ParseFault>, Trouble> {
    let scope = scope_of(alloc, row)?;
    Ok(read_expr(alloc, text, &scope, dialect_of(row)))
}

fn tell_read(
    alloc: Global,
    row: &Row,
    read: &Result<Expr, ParseFault>,
    out: &mut String,
) -> Result<(), Trouble> {
    match read {
        Ok(expr) => {
            let tree = shown_expr(alloc, expr)?;
            tell_tree(row, tree.as_str(), out)?;
            let printed = print_expr(alloc, expr)?;
            tell_other(alloc, row, &printed, tree.as_str(), out)
        }
        Err(fault) => tell_fault(*fault, out),
    }
}

/// What is printed is read back: it is told where that is another tree.
fn tell_other(
    alloc: Global,
    row: &Row,
    printed: &Text,
    tree: &str,
    out: &mut String,
) -> Result<(), Trouble> {
    let read = expression_in(alloc, row, printed)?;
    let found = shown_read(alloc, &read);
    drop(read);
    let found = found?;
    if found.as_str() != tree {
        write!(out, ", but printed as {} it is {found}", printed.as_str())?;
    }
    Ok(())
}

fn shown_read(alloc: Global, read: &Result<Expr, ParseFault>) -> Result<String, Trouble> {
    match read {
        Ok(expr) => shown_expr(alloc, expr),
        Err(fault) => {
            let mut out = String::new(alloc);
            tell_fault(*fault, &mut out)?;
            Ok(out)
        }
    }
}

pub fn tell_printed(alloc: Global, row: &Row, out: &mut String) -> Result<(), Trouble> {
    let read = expression_in(alloc, row, &text_of(alloc, row.given)?)?;
    let told = tell_text_of(alloc, row, &read, out);
    drop(read);
    told
}

fn tell_text_of(
    alloc: Global,
    row: &Row,
    read: &Result<Expr, ParseFault>,
    out: &mut String,
) -> Result<(), Trouble> {
    match read {
        Ok(expr) => {
            let printed = print_expr(alloc, expr)?;
            out.push_str(printed.as_str())?;
            let tree = shown_expr(alloc, expr)?;
            tell_other(alloc, row, &printed, tree.as_str(), out)
        }
        Err(fault) => tell_fault(*fault, out),
    }
}

pub fn tell_pattern(alloc: Global, row: &Row, out: &mut String) -> Result<(), Trouble> {
    let scope = scope_of(alloc, row)?;
    let text = text_of(alloc, row.given)?;
    let read = read_pattern(alloc, &text, &scope, dialect_of(row));
    let told = tell_read_pattern(alloc, row, &read, out);
    drop(read);
    told
}

fn tell_read_pattern(
    alloc: Global,
    row: &Row,
    read: &Result<Pattern, ParseFault>,
    out: &mut String,
) -> Result<(), Trouble> {
    match read {
        Ok(pattern) => tell_tree(row, shown_pattern(alloc, pattern)?.as_str(), out),
        Err(fault) => tell_fault(*fault, out),
    }
}

pub fn tell_template(alloc: Global, row: &Row, out: &mut String) -> Result<(), Trouble> {
    let scope = scope_of(alloc, row)?;
    let text = text_of(alloc, row.given)?;
    let read = read_avt(alloc, &text, &scope, dialect_of(row));
    let told = tell_read_template(alloc, row, &read, out);
    drop(read);
    told
}

fn tell_read_template(
    alloc: Global,
    row: &Row,
    read: &Result<Avt, ParseFault>,
    out: &mut String,
) -> Result<(), Trouble> {
    match read {
        Ok(avt) => tell_tree(row, shown_avt(alloc, avt)?.as_str(), out),
        Err(fault) => tell_fault(*fault, out),
    }
}
