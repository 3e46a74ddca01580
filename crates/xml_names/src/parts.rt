ghost use Rattle.std.specs.Prelude.{◌≡◌, false, MatchOption, encode_utf8_all, take};
ghost use Rattle.std.specs.List.{position};
ghost use Rattle.std.specs.Str.{chars, IsCharBoundary};
ghost use Rattle.xml_names.specs.QName as spec;
ghost use Rattle.xml_names.specs.inside.Parts.{IsCut};

use stx_base::{Text, is_ncname};

/// A name taken apart at its first colon (Namespaces in XML 1.0, 4).
#[derive(Clone, Copy, Debug)]
pub struct Parts<'a> {
    /// Empty where the name has no colon.
    pub prefix: &'a str,
    pub local: &'a str,
}

/// Where the first colon stands.
fn colon(bytes: &[u8]) -> Option<usize>
    ensures { result ≡ position spec.is_colon bytes.now }
{
    // Names are short, so that a loop over their bytes is faster than a search for a character.
    bytes.iter().position(|b| *b == b':')
}

/// The parts of a name that has a colon.
pub fn cut(name: &str) -> Option<Parts<'_>>
    ensures { MatchOption result (spec.has_colon (chars name.now) ≡ false) (λ parts. IsCut name.now parts.prefix.now parts.local.now) }
{
    let at = colon(name.as_bytes())?;
    Some(Parts {
        prefix: &name[..at],
        local: &name[at + 1..],
    })
}

pub fn parts_of(name: &str) -> Parts<'_>
    ensures prefix { chars result.prefix.now ≡ spec.prefix_of (chars name.now) }
    ensures local { chars result.local.now ≡ spec.local_of (chars name.now) }
{
    match cut(name) {
        Some(parts) => parts,
        None => Parts {
            prefix: "",
            local: name,
        },
    }
}

/// What stands before a place of a text, without a copy.
pub fn front(text: Text, len: usize) -> Text
    requires { IsCharBoundary (encode_utf8_all text) len }
    ensures { result ≡ chars (take len (encode_utf8_all text)) }
{
    let mut string = text.into_string();
    string.truncate(len);
    Text::from_string(string)
}

/// Whether a name is an NCName, or two with a colon between them (Namespaces in XML 1.0, 4).
pub fn is_qname(name: &str) -> bool
    ensures { result ≡ spec.is_qname (chars name.now) }
{
    match cut(name) {
        Some(parts) => is_ncname(parts.prefix) && is_ncname(parts.local),
        None => is_ncname(name),
    }
}
