//! The prefixes of a start tag, and what has to be declared in it.

ghost use Rattle.std.specs.Prelude.{◌≡◌, [], if◌then◌else◌, length, IfOk, OnOk};
ghost use Rattle.result_writer.specs.Allowed.{is_empty, same};
ghost use Rattle.result_writer.specs.Table.{attribute_prefix, bound, entered, free_prefix, HasPassed, has_prefix, is_new, is_taken, numbered, prefixes, with_attributes, with_scope};

use crate::in_force::InForce;
use crate::words::{is_empty, is_word, same};
use std::alloc::Global;
use std::marker::Model;
use stx_base::{Attr, Binding, Copied, List, Memory, Name, Text};

/// The prefixes that a tag uses, in the order in which they came, each with one URI.
#[derive(Debug, Drop)]
pub struct Table {
    entries: InForce,
}

impl Model for Table {
    ghost use Rattle.std.specs.Prelude.{List};
    ghost use Rattle.stx_base.specs.declared.name.Binding.{Binding};

    ghost Value = { List Binding };

    ghost use Rattle.result_writer.specs.Table.{AreApart};

    ghost view = { λ table. table.entries };

    ghost invariant = { λ table. AreApart table.entries };
}

impl Table {
    /// Allocates nothing.
    pub fn new(alloc: Global) -> Table
        ensures { result ≡ [] }
    {
        Table {
            entries: InForce::new(alloc),
        }
    }

    fn len(&self) -> usize
        ensures { result ≡ length self.now }
    {
        self.entries.len()
    }

    fn has_prefix(&self, prefix: &Text) -> bool
        ensures { result ≡ has_prefix self.now prefix.now }
    {
        self.entries.uri(prefix).is_some()
    }

    fn is_taken(&self, name: &Name) -> bool
        ensures { result ≡ is_taken self.now name.now }
    {
        match self.entries.uri(&name.prefix) {
            Some(uri) => !same(uri, &name.uri),
            None => false,
        }
    }

    /// Enters a prefix, unless it is there already.
    pub fn enter(&mut self, alloc: Global, prefix: &Text, uri: &Text) -> Result<(), Memory>
        ensures { OnOk result (self.new ≡ entered self.old prefix.now uri.now) }
    {
        if !self.has_prefix(prefix) {
            let prefix = prefix.copy(alloc)?;
            let uri = uri.copy(alloc)?;
            self.entries.push(Binding { prefix, uri })?;
        }
        Ok(())
    }

    /// Enters a prefix that has a URI.
    fn enter_bound(&mut self, alloc: Global, prefix: &Text, uri: &Text) -> Result<(), Memory>
        ensures { OnOk result (self.new ≡ (if is_empty uri.now then self.old else entered self.old prefix.now uri.now)) }
    {
        if is_empty(uri) {
            return Ok(());
        }
        self.enter(alloc, prefix, uri)
    }

    /// Its entries, in their order.
    pub fn into_list(self) -> Result<List<Binding>, Memory>
        ensures { IfOk result (λ entries. entries ≡ self) }
    {
        let Table { entries } = self;
        entries.into_list()
    }
}

fn numbered(alloc: Global, number: usize) -> Result<Text, Memory>
    ensures { IfOk result (λ prefix. prefix ≡ numbered number) }
{
    let prefix = format!(in alloc; "ns{number}")?;
    Ok(Text::from_string(prefix))
}

/// The number of the first of ns0, ns1, ns2 and so on that isn't in the table, where those before `passed` are in it.
fn first_free(alloc: Global, table: &Table, passed: usize) -> Result<usize, Memory>
    requires { HasPassed table.now passed }
    ensures free { IfOk result (λ number. numbered number ≡ free_prefix table.now) }
    ensures passed { IfOk result (λ number. HasPassed table.now number) }
{
    for number in passed..table.len() {
        let prefix = numbered(alloc, number)?;
        if !table.has_prefix(&prefix) {
            return Ok(number);
        }
    }
    Ok(table.len())
}

/// The prefix that an attribute is written with. The numbered prefixes before `passed` are in the table, so that none is
/// tried at each attribute anew.
fn attribute_prefix(
    alloc: Global,
    table: &Table,
    name: &Name,
    passed: &mut usize,
) -> Result<Text, Memory>
    requires { HasPassed table.now passed.old }
    ensures prefix { IfOk result (λ prefix. prefix ≡ attribute_prefix table.now name.now) }
    ensures passed { HasPassed table.now passed.new }
{
    if is_empty(&name.uri) || (!is_empty(&name.prefix) && !table.is_taken(name)) {
        return name.prefix.copy(alloc);
    }
    let number = first_free(alloc, table, *passed)?;
    *passed = number;
    numbered(alloc, number)
}

/// Enters the attributes' prefixes, and hands them out.
pub fn enter_attributes(
    alloc: Global,
    table: &mut Table,
    attrs: &[Attr],
) -> Result<List<Text>, Memory>
    ensures entered { OnOk result (table.new ≡ with_attributes table.old attrs.now) }
    ensures prefixes { IfOk result (λ made. made ≡ prefixes table.old attrs.now) }
{
    let mut prefixes = List::new(alloc);
    let mut passed = 0;
    for attr in attrs {
        let prefix = attribute_prefix(alloc, table, &attr.name, &mut passed)?;
        table.enter_bound(alloc, &prefix, &attr.name.uri)?;
        prefixes.push(prefix)?;
    }
    Ok(prefixes)
}

/// Enters the bindings that are in force where the element comes from.
pub fn enter_scope(alloc: Global, table: &mut Table, scope: &List<Binding>) -> Result<(), Memory>
    ensures { OnOk result (table.new ≡ with_scope table.old scope.now) }
{
    for binding in scope.as_slice() {
        table.enter_bound(alloc, &binding.prefix, &binding.uri)?;
    }
    Ok(())
}

/// Whether the last of the bindings of this prefix has this URI; none has the empty one.
#[inline(always)]
pub fn is_bound(in_force: &InForce, prefix: &Text, uri: &Text) -> bool
    ensures { result ≡ same (bound in_force.now prefix.now) uri.now }
{
    match in_force.uri(prefix) {
        Some(bound) => same(bound, uri),
        None => is_empty(uri),
    }
}

/// Whether an entry has to be declared, where these bindings are in force.
pub fn is_new(in_force: &InForce, entry: &Binding) -> bool
    ensures { result ≡ is_new in_force.now entry.now }
{
    !is_word(&entry.prefix, "xml") && !is_bound(in_force, &entry.prefix, &entry.uri)
}
