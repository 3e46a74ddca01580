//! What the attributes of a tag declare (Namespaces in XML 1.0, 3).

ghost use Rattle.std.specs.Prelude.{◌≡◌, IfOk};
ghost use Rattle.std.specs.Option.{option_map};
ghost use Rattle.std.specs.Str.{chars};
ghost use Rattle.xml_names.specs.Tag as spec;

use crate::words::{agree, is_empty, is_word};
use std::alloc::Global;
use stx_base::{Binding, Copied, List, Memory, Text};
use xml_tokens::RawAttr;

pub const XML_URI: &'static str = "http://www.w3.org/XML/1998/namespace";

const XMLNS_URI: &'static str = "http://www.w3.org/2000/xmlns/";

/// The prefix that an attribute of this name declares: the empty one for `xmlns`, `p` for `xmlns:p`.
pub fn declared_prefix(name: &str) -> Option<&str>
    ensures { option_map (λ prefix. chars prefix.now) result ≡ spec.declared_prefix (chars name.now) }
{
    let rest = name.strip_prefix("xmlns")?;
    if is_empty(rest) {
        Some("")
    } else {
        rest.strip_prefix(':')
    }
}

/// Whether a prefix may be bound to a URI (Namespaces in XML 1.0, 3 and 5).
fn is_good_binding(prefix: &str, uri: &str) -> bool
    ensures { result ≡ spec.is_good_binding (chars prefix.now) (chars uri.now) }
{
    !is_word(prefix, "xmlns")
        && agree(is_word(prefix, "xml"), is_word(uri, XML_URI))
        && !is_word(uri, XMLNS_URI)
        && (is_empty(prefix) || !is_empty(uri))
}

fn is_bad_binding(attr: &RawAttr) -> bool
    ensures { result ≡ spec.is_bad_binding attr.now }
{
    match declared_prefix(attr.name.as_str()) {
        None => false,
        Some(prefix) => !is_good_binding(prefix, attr.value.as_str()),
    }
}

pub fn has_bad_binding(attrs: &[RawAttr]) -> bool
    ensures { result ≡ spec.has_bad_binding attrs.now }
{
    attrs.iter().any(|attr| is_bad_binding(attr))
}

/// What a tag declares, in its order.
pub fn declarations(alloc: Global, attrs: &[RawAttr]) -> Result<List<Binding>, Memory>
    ensures { IfOk result (λ made. made ≡ spec.declarations attrs.now) }
{
    let mut made = List::new(alloc);
    for attr in attrs {
        if let Some(prefix) = declared_prefix(attr.name.as_str()) {
            let prefix = Text::of(alloc, prefix)?;
            let uri = attr.value.copy(alloc)?;
            made.push(Binding { prefix, uri })?;
        }
    }
    Ok(made)
}
