//! Attributes that have one name.

ghost use Rattle.std.specs.Prelude.{◌≡◌, IfOk};
ghost use Rattle.std.specs.List.{list_any};
ghost use Rattle.xml_names.specs.Tag.{has_twins, same_expanded, same_written};

use std::alloc::Global;
use std::collections::BTreeSet;
use stx_base::{Attr, Memory};
use xml_tokens::RawAttr;

// Up to so many attributes it takes less time to compare each pair than to keep a set.
const FEW: usize = 8;

/// Whether two attributes of a tag have one name as written (XML 1.0, 3.1).
pub fn has_written_twins(alloc: Global, attrs: &[RawAttr]) -> Result<bool, Memory>
    ensures { IfOk result (λ found. found ≡ has_twins same_written attrs.now) }
{
    if attrs.len() < 2 {
        Ok(false)
    } else if attrs.len() <= FEW {
        Ok(has_equal_pair(attrs))
    } else {
        has_repeated(alloc, attrs)
    }
}

/// Whether two attributes have one expanded name (Namespaces in XML 1.0, 6.3).
pub fn has_expanded_twins(alloc: Global, attrs: &[Attr]) -> Result<bool, Memory>
    ensures { IfOk result (λ found. found ≡ has_twins same_expanded attrs.now) }
{
    if attrs.len() < 2 {
        Ok(false)
    } else if attrs.len() <= FEW {
        Ok(has_equal_names(attrs))
    } else {
        has_repeated_names(alloc, attrs)
    }
}

fn has_equal_pair(attrs: &[RawAttr]) -> bool
    ensures { result ≡ has_twins same_written attrs.now }
{
    for (at, attr) in attrs.iter().enumerate() {
        if is_written_in(attr, &attrs[at + 1..]) {
            return true;
        }
    }
    false
}

fn is_written_in(attr: &RawAttr, others: &[RawAttr]) -> bool
    ensures { result ≡ list_any (same_written attr.now) others.now }
{
    others.iter().any(|other| attr.name.same(&other.name))
}

fn has_equal_names(attrs: &[Attr]) -> bool
    ensures { result ≡ has_twins same_expanded attrs.now }
{
    for (at, attr) in attrs.iter().enumerate() {
        if is_expanded_in(attr, &attrs[at + 1..]) {
            return true;
        }
    }
    false
}

fn is_expanded_in(attr: &Attr, others: &[Attr]) -> bool
    ensures { result ≡ list_any (same_expanded attr.now) others.now }
{
    others.iter().any(|other| attr.name.same(&other.name))
}

#[inline(never)]
fn has_repeated(alloc: Global, attrs: &[RawAttr]) -> Result<bool, Memory>
    ensures { IfOk result (λ found. found ≡ has_twins same_written attrs.now) }
{
    let mut names: BTreeSet<&str> = BTreeSet::new(alloc);
    for attr in attrs {
        if !names.insert(attr.name.as_str())? {
            return Ok(true);
        }
    }
    Ok(false)
}

#[inline(never)]
fn has_repeated_names(alloc: Global, attrs: &[Attr]) -> Result<bool, Memory>
    ensures { IfOk result (λ found. found ≡ has_twins same_expanded attrs.now) }
{
    let mut names: BTreeSet<(&str, &str)> = BTreeSet::new(alloc);
    for attr in attrs {
        if !names.insert((attr.name.uri.as_str(), attr.name.local.as_str()))? {
            return Ok(true);
        }
    }
    Ok(false)
}
