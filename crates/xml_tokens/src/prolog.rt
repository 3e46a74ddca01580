//! XML declarations and document type declarations.
ghost use Rattle.std.specs.Prelude.{◌≡◌, IsUtf8};
ghost use Rattle.std.specs.Char.{is_ascii_digit};
ghost use Rattle.std.specs.List.{list_all};
ghost use Rattle.std.specs.Option.{option_map, option_copied};
ghost use Rattle.xml_tokens.specs.Prolog as spec;
ghost use Rattle.xml_tokens.specs.inside.Spans as span;

use crate::cut::tail;
use crate::form::{begins, is_word};
use crate::tag::{after_space, equated, named, quoted};

/// What an XML declaration tells, as it is written.
#[derive(Clone, Copy)]
pub struct XmlDeclaration<'a> {
    pub version: &'a [u8],
    pub encoding: Option<&'a [u8]>,
}

/// What follows a word that must come first.
fn after_word<'a>(word: &[u8], bytes: &'a [u8]) -> Option<&'a [u8]>
    ensures { option_copied result ≡ spec.after_word word.now bytes.now }
{
    if begins(bytes, word) {
        Some(tail(bytes, word.len()))
    } else {
        None
    }
}

/// What follows white space that must come first.
fn behind_space(bytes: &[u8]) -> Option<&[u8]>
    ensures { option_copied result ≡ spec.behind_space bytes.now }
{
    let rest = after_space(bytes);
    if rest.len() == bytes.len() {
        None
    } else {
        Some(rest)
    }
}

fn behind_word<'a>(word: &[u8], bytes: &'a [u8]) -> Option<&'a [u8]>
    ensures { option_copied result ≡ spec.behind_word word.now bytes.now }
{
    after_word(word, behind_space(bytes)?)
}

/// The value that is declared under a word, and what follows it.
#[tactic(auto, unfolding(crate::specs::Prolog::declared_as))]
fn declared_as<'a>(word: &[u8], bytes: &'a [u8]) -> Option<(&'a [u8], &'a [u8])>
    ensures { option_map (λ found. (found.0.now, found.1.now)) result ≡ spec.declared_as word.now bytes.now }
{
    equated(behind_word(word, bytes)?)
}

fn maybe_declared<'a>(word: &[u8], bytes: &'a [u8]) -> (Option<&'a [u8]>, &'a [u8])
    ensures { (option_copied result.0, result.1.now) ≡ spec.maybe_declared word.now bytes.now }
{
    match declared_as(word, bytes) {
        Some((value, rest)) => (Some(value), rest),
        None => (None, bytes),
    }
}

fn is_over(bytes: &[u8]) -> bool
    ensures { result ≡ spec.is_over bytes.now }
{
    after_space(bytes).is_empty()
}

fn is_standalone(told: Option<&[u8]>) -> bool
    ensures { result ≡ spec.is_standalone (option_copied told.entry) }
{
    match told {
        None => true,
        Some(value) => is_word(value, b"yes") || is_word(value, b"no"),
    }
}

/// What an XML declaration tells behind its `<?xml` (XMLDecl; XML 1.0, 2.8).
#[tactic(auto, unfolding(crate::specs::Prolog::declared))]
pub fn declared(bytes: &[u8]) -> Option<XmlDeclaration<'_>>
    ensures { option_map span.as_told result ≡ spec.declared bytes.now }
{
    let (version, rest) = declared_as(b"version", bytes)?;
    let (encoding, rest) = maybe_declared(b"encoding", rest);
    let (standalone, rest) = maybe_declared(b"standalone", rest);
    if is_standalone(standalone) && is_over(rest) {
        Some(XmlDeclaration { version, encoding })
    } else {
        None
    }
}

/// `1.` and one or more digits: each such document is read as XML 1.0.
pub fn is_version(version: &[u8]) -> bool
    ensures { result ≡ spec.is_version version.now }
{
    match after_word(b"1.", version) {
        Some(digits) => is_number(digits),
        None => false,
    }
}

/// Digits, one or more.
fn is_number(bytes: &[u8]) -> bool
    ensures { result ≡ spec.is_number bytes.now }
{
    !bytes.is_empty() && are_digits(bytes)
}

fn are_digits(bytes: &[u8]) -> bool
    ensures { result ≡ list_all is_ascii_digit bytes.now }
{
    bytes.iter().all(|b| b.is_ascii_digit())
}

/// UTF-8 or US-ASCII, in any case of letters.
pub fn is_encoding(name: &[u8]) -> bool
    ensures { result ≡ spec.is_encoding name.now }
{
    name.eq_ignore_ascii_case(b"utf-8") || name.eq_ignore_ascii_case(b"us-ascii")
}

/// What follows a literal in quotes behind white space.
fn behind_literal(bytes: &[u8]) -> Option<&[u8]>
    ensures { option_copied result ≡ spec.behind_literal bytes.now }
{
    let (_, rest) = quoted(behind_space(bytes)?)?;
    Some(rest)
}

/// What follows an external identifier, if there is one (ExternalID; XML 1.0, 4.2.2).
#[tactic(auto, unfolding(crate::specs::Prolog::behind_identifier))]
fn behind_identifier(bytes: &[u8]) -> Option<&[u8]>
    ensures { option_copied result ≡ spec.behind_identifier bytes.now }
{
    if let Some(rest) = behind_word(b"SYSTEM", bytes) {
        behind_literal(rest)
    } else if let Some(rest) = behind_word(b"PUBLIC", bytes) {
        behind_literal(behind_literal(rest)?)
    } else {
        Some(bytes)
    }
}

/// Whether a document type declaration without an internal subset stands between `<!DOCTYPE` and `>`
/// (doctypedecl; XML 1.0, 2.8).
#[tactic(auto, unfolding(crate::specs::Prolog::is_doctype))]
pub fn is_doctype(bytes: &[u8]) -> bool
    requires { IsUtf8 bytes.now }
    ensures { result ≡ spec.is_doctype bytes.now }
{
    let Some(rest) = behind_space(bytes) else {
        return false;
    };
    let Some((_, rest)) = named(rest) else {
        return false;
    };
    match behind_identifier(rest) {
        Some(rest) => is_over(rest),
        None => false,
    }
}
