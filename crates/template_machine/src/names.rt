//! Names that instructions compute (Namespaces in XML 1.0, 4 and 6).

ghost use Rattle.std.specs.Prelude.{◌≡◌, [], IfOk, bytes_eq};
ghost use Rattle.std.specs.Option.{option_copied, option_or};
ghost use Rattle.stxpath_syntax.specs.Words as words;
ghost use Rattle.template_machine.specs.Naming.{is_element_name};
ghost use Rattle.template_machine.specs.Values as spec;

use std::alloc::Global;
use stx_base::{Binding, Copied, List, Memory, Name, Text};
use xml_names::{Parts, is_qname, parts_of};

/// Whether a name without a prefix is in the default namespace.
#[derive(Clone, Copy, Debug, PartialEq, Eq)]
pub enum Bare {
    /// As an element's is.
    InDefault,
    /// As an attribute's isn't.
    InNone,
}

/// A name in a namespace that is given, or else by the bindings in force at the instruction; `None` where it is no QName or its
/// prefix isn't bound.
pub fn computed_name(
    alloc: Global,
    bare: Bare,
    scope: &List<Binding>,
    namespace: Option<Text>,
    name: &Text,
) -> Result<Option<Name>, Memory>
    ensures { IfOk result (λ made. made ≡ spec.computed_name (is_element_name bare) scope.now namespace name.now) }
{
    if !is_qname(name.as_str()) {
        return Ok(None);
    }
    let Parts { prefix, local } = parts_of(name.as_str());
    let prefix = Text::of(alloc, prefix)?;
    let Some(uri) = given_or_bound(alloc, bare, scope, namespace, &prefix)? else {
        return Ok(None);
    };
    let local = Text::of(alloc, local)?;
    Ok(Some(Name { uri, local, prefix }))
}

fn given_or_bound(
    alloc: Global,
    bare: Bare,
    scope: &List<Binding>,
    namespace: Option<Text>,
    prefix: &Text,
) -> Result<Option<Text>, Memory>
    ensures { IfOk result (λ uri. uri ≡ option_or namespace (spec.prefix_uri (is_element_name bare) scope.now prefix.now)) }
{
    match namespace {
        Some(uri) => Ok(Some(uri)),
        None => prefix_uri(alloc, bare, scope, prefix),
    }
}

/// The namespace of a prefix, or of a name without one; `None` where the prefix isn't bound.
fn prefix_uri(
    alloc: Global,
    bare: Bare,
    scope: &List<Binding>,
    prefix: &Text,
) -> Result<Option<Text>, Memory>
    ensures { IfOk result (λ uri. uri ≡ spec.prefix_uri (is_element_name bare) scope.now prefix.now) }
{
    if prefix.is_empty() {
        let uri = bare_uri(alloc, bare, scope, prefix)?;
        return Ok(Some(uri));
    }
    uri_of(alloc, scope, prefix)
}

/// The namespace of a name without a prefix.
fn bare_uri(
    alloc: Global,
    bare: Bare,
    scope: &List<Binding>,
    no_prefix: &Text,
) -> Result<Text, Memory>
    requires { no_prefix.now ≡ [] }
    ensures { IfOk result (λ uri. uri ≡ spec.bare_uri (is_element_name bare) scope.now) }
{
    match bare {
        Bare::InNone => Ok(Text::new(alloc)),
        Bare::InDefault => match uri_of(alloc, scope, no_prefix)? {
            Some(uri) => Ok(uri),
            None => Ok(Text::new(alloc)),
        },
    }
}

/// The URI of a prefix; `xml` is always bound (Namespaces in XML 1.0, 3).
fn uri_of(alloc: Global, scope: &List<Binding>, prefix: &Text) -> Result<Option<Text>, Memory>
    ensures { IfOk result (λ uri. uri ≡ words.uri_of scope.now prefix.now) }
{
    if prefix.as_str() == "xml" {
        let uri = Text::of(alloc, "http://www.w3.org/XML/1998/namespace")?;
        return Ok(Some(uri));
    }
    match bound_by(scope.as_slice(), prefix) {
        None => Ok(None),
        Some(uri) => {
            let uri = uri.copy(alloc)?;
            Ok(Some(uri))
        }
    }
}

/// The URI of the last of these bindings that is one of the prefix.
fn bound_by<'a>(scope: &'a [Binding], prefix: &Text) -> Option<&'a Text>
    ensures { option_copied result ≡ words.bound_by scope.now prefix.now }
{
    let mut found = None;
    for binding in scope {
        if binds(binding, prefix) {
            found = Some(&binding.uri);
        }
    }
    found
}

fn binds(binding: &Binding, prefix: &Text) -> bool
    ensures { result ≡ bytes_eq binding.now.prefix prefix.now }
{
    binding.prefix.same(prefix)
}
