//! A text, or an end tag of a known name, that one look at its bytes shows whole and without fault, as most are.
ghost use Rattle.std.specs.Prelude.{◌≡◌, ◌≤◌, ◌++◌, true, length, IfSome};
ghost use Rattle.std.specs.List.{prefix_len};
ghost use Rattle.xml_tokens.specs.inside.Spans as span;
ghost use Rattle.xml_tokens.specs.inside.Simple.{end_of, IsBefore};

use crate::cut::head;
use crate::form::is_word;
use crate::tables::is_plain_byte;
use crate::tag::after_byte;

/// The end of a longer text is sought in bulk.
const NEAR: usize = 32;

/// What follows the end tag of a name, where the bytes begin with that and no white space stands in it.
#[inline]
pub fn after_end_of<'b>(name: &[u8], bytes: &'b [u8]) -> Option<&'b [u8]>
    ensures { IfSome result (λ rest. bytes.now ≡ end_of name.now ++ rest.now) }
{
    let inside = after_byte(b'<', bytes)?;
    let rest = after_byte(b'/', inside)?;
    if rest.len() < name.len() {
        return None;
    }
    let (front, behind) = rest.split_at(name.len());
    let rest = after_byte(b'>', behind)?;
    if is_word(front, name) {
        Some(rest)
    } else {
        None
    }
}

/// A text that says itself before a `<`, if the bytes begin with one.
pub fn plain_text(bytes: &[u8]) -> Option<&[u8]>
    ensures { IfSome result (λ text. (span.is_plain text.now ≡ true) × IsBefore 60 text.now bytes.now) }
{
    let len = plain_len(head(bytes, bytes.len().min(NEAR)));
    let (text, rest) = bytes.split_at(len);
    match after_byte(b'<', rest) {
        Some(_) if len > 0 => Some(text),
        _ => None,
    }
}

fn plain_len(bytes: &[u8]) -> usize
    ensures value { result ≡ prefix_len span.is_plain_byte bytes.now }
    ensures bound { result ≤ length bytes.now }
{
    bytes.iter().take_while(|b| is_plain_byte(**b)).count()
}
