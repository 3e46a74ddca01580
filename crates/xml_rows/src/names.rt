//! Tags entered and left, and what they say. Steps are parted by ` | `: `NAME ATTRIBUTE=VALUE ..` enters an element, `/` leaves
//! the innermost one, and `?PREFIX` asks what a prefix is bound to.

use rows::{Row, Trouble, tell_name, text_of};
use std::alloc::Global;
use std::fmt::Write;
use stx_base::{List, Spare, Text};
use xml_names::{NameFault, Resolved, Scopes};
use xml_tokens::RawAttr;

/// The answers to the steps that have one. After a refusal nothing has changed, so the steps go on.
pub fn tell(alloc: Global, row: &Row, out: &mut String) -> Result<(), Trouble> {
    let mut scopes = Scopes::new(alloc);
    let mut spare = Spare::new(alloc);
    for step in row.given.split(" | ") {
        answer(alloc, &mut scopes, &mut spare, step, out)?;
    }
    Ok(())
}

fn answer(
    alloc: Global,
    scopes: &mut Scopes,
    spare: &mut Spare,
    step: &str,
    out: &mut String,
) -> Result<(), Trouble> {
    if step == "/" {
        return leave(scopes, out);
    }
    if !out.is_empty() {
        out.push_str("; ")?;
    }
    if let Some(prefix) = step.strip_prefix('?') {
        let uri = scopes.lookup(&text_of(alloc, prefix)?);
        return Ok(write!(out, "{prefix}={}", uri.unwrap_or("none"))?);
    }
    let (name, attrs) = step.split_once(' ').unwrap_or((step, ""));
    let name = text_of(alloc, name)?;
    let attrs = attrs_of(alloc, attrs)?;
    let entered = scopes.enter(name, attrs, spare);
    tell_tag(&entered, out)?;
    keep(entered, spare);
    Ok(())
}

fn leave(scopes: &mut Scopes, out: &mut String) -> Result<(), Trouble> {
    if scopes.depth() == 0 {
        return Ok(out.push_str("outside")?);
    }
    scopes.leave();
    Ok(())
}

fn attrs_of(alloc: Global, written: &str) -> Result<List<RawAttr>, Trouble> {
    let mut attrs = List::new(alloc);
    for attr in written.split_whitespace() {
        let (name, value) = attr.split_once('=').unwrap_or((attr, ""));
        let name = text_of(alloc, name)?;
        let value = text_of(alloc, value)?;
        attrs.push(RawAttr { name, value })?;
    }
    Ok(attrs)
}

/// What a start tag says, or why it is refused.
fn tell_tag(entered: &Result<Resolved, NameFault>, out: &mut String) -> Result<(), Trouble> {
    match entered {
        Ok(resolved) => tell_resolved(resolved, out),
        Err(NameFault::Xml(kind)) => Ok(write!(out, "{kind:?}")?),
        Err(NameFault::Memory) => Err(Trouble::Memory),
    }
}

fn tell_resolved(resolved: &Resolved, out: &mut String) -> Result<(), Trouble> {
    tell_name(&resolved.name, out)?;
    for attr in resolved.attrs.as_slice() {
        out.push(' ')?;
        tell_name(&attr.name, out)?;
        write!(out, "='{}'", attr.value.as_str())?;
    }
    for binding in resolved.decls.as_slice() {
        tell_declaration(&binding.prefix, &binding.uri, out)?;
    }
    Ok(())
}

pub fn tell_declaration(prefix: &Text, uri: &Text, out: &mut String) -> Result<(), Trouble> {
    Ok(write!(out, " +{}={}", prefix.as_str(), uri.as_str())?)
}

/// Takes back what a tag says, so that the next tag's names are made of it.
fn keep(entered: Result<Resolved, NameFault>, spare: &mut Spare) {
    if let Ok(Resolved { name, attrs, .. }) = entered {
        spare.keep_name(name);
        spare.keep_attrs(attrs);
    }
}
