//! What may stand in a result.

ghost use Rattle.std.specs.Prelude.{◌≡◌, ◌==◌};
ghost use Rattle.std.specs.List.{list_all, list_any};
ghost use Rattle.std.specs.Str.{chars};
ghost use Rattle.stx_base.specs.Character.{is_char};
ghost use Rattle.result_writer.specs.Allowed as spec;
ghost use Rattle.result_writer.specs.Target as spec_of_parts;
ghost use Rattle.result_writer.specs.Allowed.{has_pair, ends_in, is_good_attribute, is_good_comment, is_good_data, is_good_target, are_chars};

use crate::words::{agree, is_empty, is_word};
use stx_base::{Name, Part, Text, are_ascii_chars, is_cdata_text, is_char, is_ncname};

const XML_URI: &'static str = "http://www.w3.org/XML/1998/namespace";

const XMLNS_URI: &'static str = "http://www.w3.org/2000/xmlns/";

/// Whether a name is an NCName, or two with a colon between them (Namespaces in XML 1.0, 4).
fn is_qname(name: &Name) -> bool
    ensures { result ≡ spec.is_qname name.now }
{
    (is_empty(&name.prefix) || is_ncname(name.prefix.as_str())) && is_ncname(name.local.as_str())
}

/// Whether a name's prefix and URI may stand together (Namespaces in XML 1.0, 3).
fn is_well_bound(name: &Name) -> bool
    ensures { result ≡ spec.is_well_bound name.now }
{
    !is_word(&name.prefix, "xmlns")
        && agree(is_word(&name.prefix, "xml"), is_word(&name.uri, XML_URI))
        && !is_word(&name.uri, XMLNS_URI)
        && (is_empty(&name.prefix) || !is_empty(&name.uri))
}

pub fn is_good_name(name: &Name) -> bool
    ensures { result ≡ spec.is_good_name name.now }
{
    if is_empty(&name.prefix) && is_empty(&name.uri) {
        is_ncname(name.local.as_str())
    } else {
        is_qname(name) && is_well_bound(name)
    }
}

/// Whether an attribute may have the name: what is written `xmlns` is a declaration.
pub fn is_good_attribute(name: &Name) -> bool
    ensures { result ≡ is_good_attribute name.now }
{
    is_good_name(name) && !(is_empty(&name.prefix) && is_word(&name.local, "xmlns"))
}

/// Whether each character is a Char (XML 1.0, 2.2).
pub fn are_chars(text: &Text) -> bool
    ensures { result ≡ are_chars text.now }
{
    holds_chars(text.as_str())
}

pub fn holds_chars(text: &str) -> bool
    ensures { result ≡ list_all is_char (chars text.now) }
{
    are_ascii_chars(text.as_bytes()) || text.chars().all(|c| is_char(c))
}

fn has_pair(bytes: &[u8], first: u8, second: u8) -> bool
    ensures { result ≡ has_pair first second bytes.now }
{
    let mut behind_first = false;
    for byte in bytes {
        if behind_first && *byte == second {
            return true;
        }
        behind_first = *byte == first;
    }
    false
}

fn ends_in(bytes: &[u8], last: u8) -> bool
    ensures { result ≡ ends_in last bytes.now }
{
    match bytes.last() {
        None => false,
        Some(byte) => *byte == last,
    }
}

fn has_return(bytes: &[u8]) -> bool
    ensures { result ≡ list_any (λ b. b == 0xD) bytes.now }
{
    bytes.iter().any(|byte| *byte == b'\r')
}

/// Whether a comment may have the text (XML 1.0, 2.5), and is read back as it was (2.11).
pub fn is_good_comment(text: &Text) -> bool
    ensures { result ≡ is_good_comment text.now }
{
    let bytes = text.as_str().as_bytes();
    !has_return(bytes) && !has_pair(bytes, b'-', b'-') && !ends_in(bytes, b'-')
}

/// Whether an instruction may have the target (XML 1.0, 2.6; Namespaces in XML 1.0, 7).
pub fn is_good_target(target: &Text) -> bool
    ensures { result ≡ is_good_target target.now }
{
    is_ncname(target.as_str()) && !target.as_str().eq_ignore_ascii_case("xml")
}

/// Whether an instruction may have the data (XML 1.0, 2.6), and is read back as it was (2.11).
pub fn is_good_data(text: &Text) -> bool
    ensures { result ≡ is_good_data text.now }
{
    let bytes = text.as_str().as_bytes();
    !has_return(bytes) && !has_pair(bytes, b'?', b'>')
}

/// Whether a CDATA section has a text that it may have; of other parts nothing is asked. Calls that take parts need it.
pub fn holds_cdata_text(part: &Part) -> bool
    ensures { result ≡ spec_of_parts.holds_cdata_text part.now }
{
    match part {
        Part::CData { text } => is_cdata_text(text.as_str()),
        _ => true,
    }
}
