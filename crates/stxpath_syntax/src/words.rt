//! Names as they are written: what a function, a node type or a prefix means.

ghost use Rattle.std.specs.Prelude.{◌≡◌, IfOk, bytes_eq};
ghost use Rattle.std.specs.Option.{option_copied};
ghost use Rattle.stxpath_syntax.specs.Meaning as meaning;
ghost use Rattle.stxpath_syntax.specs.Words as spec;

use crate::dialect::Dialect;
use crate::fault::PathKind;
use crate::functions::function_named;
use crate::meant::{Meant, flat, of_height, refused};
use crate::token::Written;
use std::alloc::Global;
use stx_base::{Binding, Copied, Fun, List, Memory, Name, NodeTest, Text};

/// The function that a name means: one has no prefix.
pub fn function_of(name: &Written) -> Option<Fun>
    ensures { result ≡ meaning.function_of name.now }
{
    if name.prefix.is_empty() {
        function_named(name.local.as_str())
    } else {
        None
    }
}

/// What `cdata()` tests.
fn cdata_test(dialect: Dialect) -> Option<NodeTest>
    ensures { result ≡ spec.cdata_test dialect }
{
    match dialect {
        Dialect::One => None,
        Dialect::OneOne => Some(NodeTest::CData),
    }
}

/// The test that a node type with empty parentheses writes.
fn type_named(dialect: Dialect, word: &str) -> Option<NodeTest>
    ensures { result ≡ spec.type_named dialect word.now }
{
    if word == "node" {
        Some(NodeTest::AnyNode)
    } else if word == "text" {
        Some(NodeTest::Chars)
    } else if word == "cdata" {
        cdata_test(dialect)
    } else if word == "comment" {
        Some(NodeTest::Comment)
    } else if word == "processing-instruction" {
        Some(NodeTest::AnyPi)
    } else {
        None
    }
}

/// The node type that a name means: one has no prefix.
pub fn type_of(dialect: Dialect, name: &Written) -> Option<NodeTest>
    ensures { result ≡ meaning.type_of dialect name.now }
{
    if name.prefix.is_empty() {
        type_named(dialect, name.local.as_str())
    } else {
        None
    }
}

fn binds(binding: &Binding, prefix: &Text) -> bool
    ensures { result ≡ bytes_eq binding.now.prefix prefix.now }
{
    binding.prefix.same(prefix)
}

/// The URI of the last of these bindings that is one of the prefix.
fn bound_by<'a>(scope: &'a [Binding], prefix: &Text) -> Option<&'a Text>
    ensures { option_copied result ≡ spec.bound_by scope.now prefix.now }
{
    let mut found = None;
    for binding in scope {
        if binds(binding, prefix) {
            found = Some(&binding.uri);
        }
    }
    found
}

fn uri_of(alloc: Global, scope: &List<Binding>, prefix: &Text) -> Result<Option<Text>, Memory>
    ensures { IfOk result (λ uri. uri ≡ spec.uri_of scope.now prefix.now) }
{
    if prefix.as_str() == "xml" {
        let uri = Text::of(alloc, "http://www.w3.org/XML/1998/namespace")?;
        return Ok(Some(uri));
    }
    match bound_by(scope.as_slice(), prefix) {
        None => Ok(None),
        Some(uri) => {
            let uri = uri.copy(alloc)?;
            Ok(Some(uri))
        }
    }
}

/// The name that is meant by one that is written at a place.
pub fn name_of(
    alloc: Global,
    scope: &List<Binding>,
    written: Written,
    at: usize,
) -> Result<Meant<Name>, Memory>
    ensures { IfOk result (λ meant. meant ≡ meaning.name_of scope.now written at) }
{
    let Written { prefix, local } = written;
    if prefix.is_empty() {
        let uri = Text::new(alloc);
        return Ok(flat(Name { uri, local, prefix }));
    }
    match uri_of(alloc, scope, &prefix)? {
        None => Ok(refused(PathKind::Prefix, at)),
        Some(uri) => Ok(flat(Name { uri, local, prefix })),
    }
}

/// The namespace of a prefix that is written at a place.
fn binding_of(
    alloc: Global,
    scope: &List<Binding>,
    prefix: Text,
    at: usize,
) -> Result<Meant<Binding>, Memory>
    ensures { IfOk result (λ meant. meant ≡ meaning.binding_of scope.now prefix at) }
{
    match uri_of(alloc, scope, &prefix)? {
        None => Ok(refused(PathKind::Prefix, at)),
        Some(uri) => Ok(flat(Binding { prefix, uri })),
    }
}

/// The test of elements that a name writes.
pub fn element_named(
    alloc: Global,
    scope: &List<Binding>,
    name: Written,
    at: usize,
) -> Result<Meant<NodeTest>, Memory>
    ensures { IfOk result (λ test. test ≡ meaning.element_named scope.now name at) }
{
    match name_of(alloc, scope, name, at)? {
        Meant::Bad(fault) => Ok(Meant::Bad(fault)),
        Meant::High => Ok(Meant::High),
        Meant::Fine(name, height) => Ok(of_height(NodeTest::Name(name), height)),
    }
}

/// The test of elements that a prefix and `:*` write.
pub fn element_within(
    alloc: Global,
    scope: &List<Binding>,
    prefix: Text,
    at: usize,
) -> Result<Meant<NodeTest>, Memory>
    ensures { IfOk result (λ test. test ≡ meaning.element_within scope.now prefix at) }
{
    match binding_of(alloc, scope, prefix, at)? {
        Meant::Bad(fault) => Ok(Meant::Bad(fault)),
        Meant::High => Ok(Meant::High),
        Meant::Fine(binding, height) => Ok(of_height(NodeTest::Prefix(binding), height)),
    }
}

/// The test of attributes that a name writes.
pub fn attribute_named(
    alloc: Global,
    scope: &List<Binding>,
    name: Written,
    at: usize,
) -> Result<Meant<NodeTest>, Memory>
    ensures { IfOk result (λ test. test ≡ meaning.attribute_named scope.now name at) }
{
    match name_of(alloc, scope, name, at)? {
        Meant::Bad(fault) => Ok(Meant::Bad(fault)),
        Meant::High => Ok(Meant::High),
        Meant::Fine(name, height) => Ok(of_height(NodeTest::AttrName(name), height)),
    }
}

/// The test of attributes that a prefix and `:*` write.
pub fn attribute_within(
    alloc: Global,
    scope: &List<Binding>,
    prefix: Text,
    at: usize,
) -> Result<Meant<NodeTest>, Memory>
    ensures { IfOk result (λ test. test ≡ meaning.attribute_within scope.now prefix at) }
{
    match binding_of(alloc, scope, prefix, at)? {
        Meant::Bad(fault) => Ok(Meant::Bad(fault)),
        Meant::High => Ok(Meant::High),
        Meant::Fine(binding, height) => Ok(of_height(NodeTest::AttrPrefix(binding), height)),
    }
}
