//! Tags as they are written.

ghost use Rattle.std.specs.Prelude.{◌≡◌, ◌++◌, codes, true, IfOk, OnOk};
ghost use Rattle.stx_base.specs.Course.{Begins};
ghost use Rattle.result_writer.specs.Steady.{given, keep_bindings, own_prefixes, undressed};
ghost use Rattle.result_writer.specs.Table.{prefixes, with_element};
ghost use Rattle.result_writer.specs.Tag.{attribute, attributes, declaration, dressed, end_tag, open_tag, qname, quoted};

use crate::attributes::Attributes;
use crate::bytes::{append, append_byte, append_two};
use crate::escape::{Context, append_escaped};
use crate::in_force::InForce;
use crate::order::declarations;
use crate::steady::keeps_names;
use crate::table::{Table, enter_attributes, enter_scope};
use crate::words::is_empty;
use std::alloc::Global;
use stx_base::{Attr, Binding, Copied, List, Memory, Name, Text};

/// A start tag that is held back until what follows it is known.
#[derive(Debug, Drop)]
pub struct HeldTag {
    pub name: Name,
    /// The bindings in force where the element comes from.
    pub scope: List<Binding>,
    pub attrs: Attributes,
}

/// What a tag is written with beside its names and values.
#[derive(Debug, Drop)]
pub struct Dressed {
    pub declared: List<Binding>,
    /// Those of the attributes, in their order.
    pub prefixes: List<Text>,
}

/// What a tag declares, where these bindings are in force, and the prefixes of its attributes; none where it declares
/// nothing and each attribute has its own prefix. `keeps` says that its scope is in force.
#[inline(always)]
pub fn dress(
    alloc: Global,
    in_force: &InForce,
    tag: &HeldTag,
    keeps: bool,
) -> Result<Option<Dressed>, Memory>
    requires { keeps ≡ true → keep_bindings in_force.now tag.now.scope ≡ true }
    ensures { IfOk result (λ made. given tag.now made ≡ dressed in_force.now tag.now) }
{
    if keeps && keeps_names(in_force, tag) {
        Ok(None)
    } else {
        let made = dress_by_table(alloc, in_force, tag)?;
        Ok(Some(made))
    }
}

/// The prefixes that the attributes of an element's tag are written with.
pub fn attribute_prefixes(alloc: Global, name: &Name, attrs: &[Attr]) -> Result<List<Text>, Memory>
    ensures { IfOk result (λ made. made ≡ prefixes (with_element name.now) attrs.now) }
{
    let mut table = Table::new(alloc);
    table.enter(alloc, &name.prefix, &name.uri)?;
    enter_attributes(alloc, &mut table, attrs)
}

#[inline(never)]
fn dress_by_table(alloc: Global, in_force: &InForce, tag: &HeldTag) -> Result<Dressed, Memory>
    ensures { IfOk result (λ made. made ≡ dressed in_force.now tag.now) }
{
    let mut table = Table::new(alloc);
    table.enter(alloc, &tag.name.prefix, &tag.name.uri)?;
    let prefixes = enter_attributes(alloc, &mut table, tag.attrs.as_slice())?;
    enter_scope(alloc, &mut table, &tag.scope)?;
    let declared = declarations(in_force, table)?;
    Ok(Dressed { declared, prefixes })
}

#[inline(always)]
#[tactic(auto, using(crate::proofs::Growing::begins_trans, crate::proofs::Growing::begins_self))]
fn append_qname(prefix: &Text, local: &Text, out: &mut Vec<u8>) -> Result<(), Memory>
    ensures ok { OnOk result (out.new.items ≡ out.old.items ++ qname prefix.now local.now) }
    ensures kept { Begins out.old.items out.new.items }
{
    if !is_empty(prefix) {
        append(prefix.as_str().as_bytes(), out)?;
        append_byte(b':', out)?;
    }
    append(local.as_str().as_bytes(), out)?;
    Ok(())
}

#[tactic(auto, using(crate::proofs::Growing::begins_trans, crate::proofs::Growing::begins_self))]
fn append_quoted(value: &Text, out: &mut Vec<u8>) -> Result<(), Memory>
    ensures ok { OnOk result (out.new.items ≡ out.old.items ++ quoted value.now) }
    ensures kept { Begins out.old.items out.new.items }
{
    append_two(b'=', b'"', out)?;
    append_escaped(Context::Value, value.as_str().as_bytes(), out)?;
    append_byte(b'"', out)?;
    Ok(())
}

#[tactic(auto, using(crate::proofs::Growing::begins_trans, crate::proofs::Growing::begins_self))]
fn append_declaration(binding: &Binding, out: &mut Vec<u8>) -> Result<(), Memory>
    ensures ok { OnOk result (out.new.items ≡ out.old.items ++ declaration binding.now) }
    ensures kept { Begins out.old.items out.new.items }
{
    append(b" xmlns", out)?;
    if !is_empty(&binding.prefix) {
        append_byte(b':', out)?;
        append(binding.prefix.as_str().as_bytes(), out)?;
    }
    append_quoted(&binding.uri, out)
}

#[tactic(auto, using(crate::proofs::Growing::begins_trans, crate::proofs::Growing::begins_self))]
fn append_attribute(prefix: &Text, attr: &Attr, out: &mut Vec<u8>) -> Result<(), Memory>
    ensures ok { OnOk result (out.new.items ≡ out.old.items ++ attribute prefix.now attr.now) }
    ensures kept { Begins out.old.items out.new.items }
{
    append_byte(b' ', out)?;
    append_qname(prefix, &attr.name.local, out)?;
    append_quoted(&attr.value, out)
}

#[tactic(auto, using(crate::proofs::Growing::begins_trans, crate::proofs::Growing::begins_self))]
fn append_attributes(prefixes: &[Text], attrs: &[Attr], out: &mut Vec<u8>) -> Result<(), Memory>
    ensures ok { OnOk result (out.new.items ≡ out.old.items ++ attributes prefixes.now attrs.now) }
    ensures kept { Begins out.old.items out.new.items }
{
    let mut prefixes = prefixes;
    for attr in attrs {
        let Some((prefix, others)) = prefixes.split_first() else {
            return Ok(());
        };
        append_attribute(prefix, attr, out)?;
        prefixes = others;
    }
    Ok(())
}

#[tactic(auto, using(crate::proofs::Growing::begins_trans, crate::proofs::Growing::begins_self))]
fn append_own_attributes(attrs: &[Attr], out: &mut Vec<u8>) -> Result<(), Memory>
    ensures ok { OnOk result (out.new.items ≡ out.old.items ++ attributes (own_prefixes attrs.now) attrs.now) }
    ensures kept { Begins out.old.items out.new.items }
{
    for attr in attrs {
        append_attribute(&attr.name.prefix, attr, out)?;
    }
    Ok(())
}

/// Appends a start tag without its end, which is `>` or `/>`.
#[inline(always)]
#[tactic(auto, using(crate::proofs::Growing::begins_trans, crate::proofs::Growing::begins_self))]
pub fn append_open_tag(
    tag: &HeldTag,
    dressed: &Option<Dressed>,
    out: &mut Vec<u8>,
) -> Result<(), Memory>
    ensures ok { OnOk result (out.new.items ≡ out.old.items ++ open_tag tag.now (given tag.now dressed.now)) }
    ensures kept { Begins out.old.items out.new.items }
{
    match dressed {
        None => append_undressed_tag(tag, out),
        Some(dressed) => append_dressed_tag(tag, dressed, out),
    }
}

#[tactic(auto, using(crate::proofs::Growing::begins_trans, crate::proofs::Growing::begins_self))]
fn append_undressed_tag(tag: &HeldTag, out: &mut Vec<u8>) -> Result<(), Memory>
    ensures ok { OnOk result (out.new.items ≡ out.old.items ++ open_tag tag.now (undressed tag.now.attrs)) }
    ensures kept { Begins out.old.items out.new.items }
{
    append_byte(b'<', out)?;
    append_qname(&tag.name.prefix, &tag.name.local, out)?;
    append_own_attributes(tag.attrs.as_slice(), out)
}

#[tactic(auto, using(crate::proofs::Growing::begins_trans, crate::proofs::Growing::begins_self))]
fn append_dressed_tag(tag: &HeldTag, dressed: &Dressed, out: &mut Vec<u8>) -> Result<(), Memory>
    ensures ok { OnOk result (out.new.items ≡ out.old.items ++ open_tag tag.now dressed.now) }
    ensures kept { Begins out.old.items out.new.items }
{
    append_byte(b'<', out)?;
    append_qname(&tag.name.prefix, &tag.name.local, out)?;
    for binding in dressed.declared.as_slice() {
        append_declaration(binding, out)?;
    }
    append_attributes(dressed.prefixes.as_slice(), tag.attrs.as_slice(), out)
}

#[tactic(auto, using(crate::proofs::Growing::begins_trans, crate::proofs::Growing::begins_self))]
pub fn append_end_tag(name: &Name, out: &mut Vec<u8>) -> Result<(), Memory>
    ensures ok { OnOk result (out.new.items ≡ out.old.items ++ end_tag name.now.prefix name.now.local) }
    ensures kept { Begins out.old.items out.new.items }
{
    append_two(b'<', b'/', out)?;
    append_qname(&name.prefix, &name.local, out)?;
    append_byte(b'>', out)?;
    Ok(())
}
