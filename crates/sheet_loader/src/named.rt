//! Names that attributes spell (Namespaces in XML 1.0, 4).

ghost use Rattle.std.specs.Prelude.{◌≡◌, ◌==◌, [], Some, length, bytes_eq, if◌then◌else◌, IfOk};
ghost use Rattle.std.specs.Option.{option_copied};
ghost use Rattle.std.specs.Str.{chars};
ghost use Rattle.stxpath_syntax.specs.Words as words;
ghost use Rattle.sheet_loader.specs.Values as spec;

use std::alloc::Global;
use stx_base::{Binding, Copied, List, Memory, Name, Text};
use xml_names::{is_qname, parts_of};

fn binds(binding: &Binding, prefix: &Text) -> bool
    ensures { result ≡ bytes_eq binding.now.prefix prefix.now }
{
    binding.prefix.same(prefix)
}

/// The URI of the last of these bindings that is one of the prefix.
fn bound_by<'a>(scope: &'a [Binding], prefix: &Text) -> Option<&'a Text>
    ensures { option_copied result ≡ words.bound_by scope.now prefix.now }
{
    let mut found = None;
    for binding in scope {
        if binds(binding, prefix) {
            found = Some(&binding.uri);
        }
    }
    found
}

/// The URI of a prefix; `xml` is always bound (Namespaces in XML 1.0, 3).
fn uri_of(alloc: Global, scope: &List<Binding>, prefix: &Text) -> Result<Option<Text>, Memory>
    ensures { IfOk result (λ uri. uri ≡ words.uri_of scope.now prefix.now) }
{
    if prefix.as_str() == "xml" {
        let uri = Text::of(alloc, "http://www.w3.org/XML/1998/namespace")?;
        return Ok(Some(uri));
    }
    match bound_by(scope.as_slice(), prefix) {
        None => Ok(None),
        Some(uri) => {
            let uri = uri.copy(alloc)?;
            Ok(Some(uri))
        }
    }
}

/// The URI of a name with this prefix; without one it is in no namespace.
fn namespace(alloc: Global, scope: &List<Binding>, prefix: &Text) -> Result<Option<Text>, Memory>
    ensures { IfOk result (λ uri. uri ≡ (if length prefix.now == 0 then Some [] else words.uri_of scope.now prefix.now)) }
{
    if prefix.is_empty() {
        Ok(Some(Text::new(alloc)))
    } else {
        uri_of(alloc, scope, prefix)
    }
}

/// The name that a text spells, where it is a QName and its prefix is bound.
pub fn name_in(alloc: Global, scope: &List<Binding>, text: &str) -> Result<Option<Name>, Memory>
    ensures { IfOk result (λ name. name ≡ spec.name_in scope.now (chars text.now)) }
{
    if !is_qname(text) {
        return Ok(None);
    }
    let parts = parts_of(text);
    let prefix = Text::of(alloc, parts.prefix)?;
    let local = Text::of(alloc, parts.local)?;
    match namespace(alloc, scope, &prefix)? {
        None => Ok(None),
        Some(uri) => Ok(Some(Name { uri, local, prefix })),
    }
}
