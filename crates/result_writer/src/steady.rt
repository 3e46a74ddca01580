//! Tags whose prefixes are all in force already: they declare nothing, and need no table.

ghost use Rattle.std.specs.Prelude.{◌≡◌, ◌↔◌, true, IfOk, IsTrue, unwrap_or};
ghost use Rattle.result_writer.specs.Steady.{is_in_force, keep_bindings, keep_prefixes, keeps_binding, keeps_names, keeps_prefix};

use crate::in_force::InForce;
use crate::table::is_bound;
use crate::tag::HeldTag;
use crate::words::{is_empty, is_word};
use std::alloc::Global;
use stx_base::{Attr, Binding, Copied, List, Memory, Name, Text};

fn is_in_force(in_force: &InForce, prefix: &Text, uri: &Text) -> bool
    ensures { result ≡ is_in_force in_force.now prefix.now uri.now }
{
    !is_word(prefix, "xml") && is_bound(in_force, prefix, uri)
}

fn keeps_prefix(in_force: &InForce, name: &Name) -> bool
    ensures { result ≡ keeps_prefix in_force.now name.now }
{
    is_empty(&name.uri)
        || (!is_empty(&name.prefix) && is_in_force(in_force, &name.prefix, &name.uri))
}

fn keeps_binding(in_force: &InForce, binding: &Binding) -> bool
    ensures { result ≡ keeps_binding in_force.now binding.now }
{
    is_empty(&binding.uri) || is_in_force(in_force, &binding.prefix, &binding.uri)
}

fn keep_prefixes(in_force: &InForce, attrs: &[Attr]) -> bool
    ensures { result ≡ keep_prefixes in_force.now attrs.now }
{
    attrs.iter().all(|attr| keeps_prefix(in_force, &attr.name))
}

/// Whether all bindings of a scope are in force.
pub fn keep_bindings(in_force: &InForce, scope: &[Binding]) -> bool
    ensures { result ≡ keep_bindings in_force.now scope.now }
{
    scope.iter().all(|binding| keeps_binding(in_force, binding))
}

/// Whether the prefixes of a tag's names are in force.
pub fn keeps_names(in_force: &InForce, tag: &HeldTag) -> bool
    ensures { result ≡ keeps_names in_force.now tag.now }
{
    is_in_force(in_force, &tag.name.prefix, &tag.name.uri)
        && keep_prefixes(in_force, tag.attrs.as_slice())
}

/// A copy of a scope, unless it is the same as another.
pub fn copy_unless_same(
    alloc: Global,
    scope: &List<Binding>,
    other: &List<Binding>,
) -> Result<Option<List<Binding>>, Memory>
    ensures { IfOk result (λ copied. unwrap_or copied other.now ≡ scope.now) }
{
    if are_same(scope.as_slice(), other.as_slice()) {
        Ok(None)
    } else {
        let copied = scope.copy(alloc)?;
        Ok(Some(copied))
    }
}

/// A scope, unless it is the same as another.
pub fn unless_same(scope: List<Binding>, other: &List<Binding>) -> Option<List<Binding>>
    ensures { unwrap_or result other.now ≡ scope }
{
    if are_same(scope.as_slice(), other.as_slice()) {
        None
    } else {
        Some(scope)
    }
}

/// Whether two scopes have the same bindings in one order.
pub fn are_same(bindings: &[Binding], others: &[Binding]) -> bool
    ensures { IsTrue result ↔ (bindings.now ≡ others.now) }
{
    if bindings.len() != others.len() {
        return false;
    }
    for (at, binding) in bindings.iter().enumerate() {
        if !is_same(binding, &others[at]) {
            return false;
        }
    }
    true
}

fn is_same(binding: &Binding, other: &Binding) -> bool
    ensures { IsTrue result ↔ (binding.now ≡ other.now) }
{
    binding.prefix.same(&other.prefix) && binding.uri.same(&other.uri)
}
