ghost use Rattle.std.specs.Prelude.{◌≡◌, ◌≤◌, ◌++◌, ◌==◌, length, slice_get, suc, IfOk, IfSome, IsUtf8};
ghost use Rattle.std.specs.List.{list_any, position_or_len, prefix_len};
ghost use Rattle.std.specs.Option.{option_map, option_copied};
ghost use Rattle.std.specs.Str.{chars};
ghost use Rattle.stx_base.specs.Character.{is_space};
ghost use Rattle.xml_tokens.specs.Places as places;
ghost use Rattle.xml_tokens.specs.inside.Simple.{IsBareName};
ghost use Rattle.xml_tokens.specs.Tags as spec;
ghost use Rattle.xml_tokens.specs.inside.Spans as span;

use crate::cut::{head, tail};
use crate::lexeme::{Body, RawAttr};
use crate::text::{BadText, Context, is_name_of, said, text_of, until_byte};
use std::alloc::Global;
use stx_base::{List, Memory, is_ascii_name_byte, is_name_start, is_space};

fn name_len(bytes: &[u8]) -> usize
    ensures value { result ≡ prefix_len spec.is_name_byte bytes.now }
    ensures bound { result ≤ length bytes.now }
{
    bytes.iter().take_while(|b| is_name_byte(**b)).count()
}

fn ascii_name_len(bytes: &[u8]) -> usize
    ensures value { result ≡ prefix_len span.is_ascii_name_byte bytes.now }
    ensures bound { result ≤ length bytes.now }
{
    bytes.iter().take_while(|b| is_ascii_name_byte(**b)).count()
}

/// A byte of an ASCII NameChar, or of a character beyond ASCII.
fn is_name_byte(byte: u8) -> bool
    ensures { result ≡ spec.is_name_byte byte }
{
    is_ascii_name_byte(byte) || byte >= 0x80
}

fn space_len(bytes: &[u8]) -> usize
    ensures value { result ≡ prefix_len is_space bytes.now }
    ensures bound { result ≤ length bytes.now }
{
    bytes
        .iter()
        .take_while(|b| is_space(char::from(**b)))
        .count()
}

pub fn after_space(bytes: &[u8]) -> &[u8]
    ensures { result.now ≡ spec.after_space bytes.now }
{
    let len = space_len(bytes);
    tail(bytes, len)
}

#[inline(always)]
pub fn after_byte(byte: u8, bytes: &[u8]) -> Option<&[u8]>
    ensures { option_copied result ≡ spec.after_byte byte bytes.now }
{
    match bytes.split_first() {
        Some((first, rest)) if *first == byte => Some(rest),
        _ => None,
    }
}

/// A Name (XML 1.0, 2.3), as long as possible, and what follows it.
#[inline]
pub fn named(bytes: &[u8]) -> Option<(&[u8], &[u8])>
    requires { IsUtf8 bytes.now }
    ensures { option_map (λ found. (found.0.now, found.1.now)) result ≡ spec.named bytes.now }
{
    let len = ascii_name_len(bytes);
    if is_wide_at(bytes, len) {
        wide_named(bytes)
    } else {
        ascii_named(bytes, len)
    }
}

/// Whether a byte beyond ASCII stands at a place.
fn is_wide_at(bytes: &[u8], at: usize) -> bool
    ensures { result ≡ span.is_wide_at at bytes.now }
{
    match bytes.get(at) {
        Some(byte) => *byte >= 0x80,
        None => false,
    }
}

/// A Name that characters beyond ASCII may be in.
#[inline(never)]
#[tactic(auto, unfolding(crate::specs::Tags::named))]
fn wide_named(bytes: &[u8]) -> Option<(&[u8], &[u8])>
    requires { IsUtf8 bytes.now }
    ensures { option_map (λ found. (found.0.now, found.1.now)) result ≡ spec.named bytes.now }
{
    let (name, rest) = bytes.split_at(name_len(bytes));
    if is_name_of(name) {
        Some((name, rest))
    } else {
        None
    }
}

/// A Name of so many bytes of ASCII, each of which may stand in one.
fn ascii_named(bytes: &[u8], len: usize) -> Option<(&[u8], &[u8])>
    requires { len ≤ length bytes.now }
    ensures { option_map (λ found. (found.0.now, found.1.now)) result ≡ span.cut_name len bytes.now }
{
    match bytes {
        [first, ..] if is_name_start(char::from(*first)) => Some(bytes.split_at(len)),
        _ => None,
    }
}

/// A name of ASCII, and what follows it.
#[inline(always)]
pub fn bare_named(bytes: &[u8]) -> Option<(&[u8], &[u8])>
    ensures { IfSome result (λ found. IsBareName found.0.now × (bytes.now ≡ found.0.now ++ found.1.now)) }
{
    let len = ascii_name_len(bytes);
    let found = ascii_named(bytes, len)?;
    if len > 0 { Some(found) } else { None }
}

/// What stands in quotes, and what follows them.
#[inline(always)]
#[tactic(auto, unfolding(crate::specs::Tags::quoted))]
pub fn quoted(bytes: &[u8]) -> Option<(&[u8], &[u8])>
    ensures { option_map (λ found. (found.0.now, found.1.now)) result ≡ spec.quoted bytes.now }
{
    let Some((quote, rest)) = bytes.split_first() else {
        return None;
    };
    if is_quote(*quote) {
        until_byte(*quote, rest)
    } else {
        None
    }
}

fn is_quote(byte: u8) -> bool
    ensures { result ≡ places.is_quote byte }
{
    byte == b'"' || byte == b'\''
}

/// `=` with white space round it, and what stands in quotes behind it (Eq; XML 1.0, 2.8).
#[inline(always)]
#[tactic(auto, unfolding(crate::specs::Tags::equated))]
pub fn equated(bytes: &[u8]) -> Option<(&[u8], &[u8])>
    ensures { option_map (λ found. (found.0.now, found.1.now)) result ≡ spec.equated bytes.now }
{
    let rest = after_byte(b'=', after_space(bytes))?;
    quoted(after_space(rest))
}

fn has_byte(byte: u8, bytes: &[u8]) -> bool
    ensures { result ≡ list_any (λ b. b == byte) bytes.now }
{
    // No byte ends the loop, so that many bytes are compared at once.
    let mut found = false;
    for b in bytes {
        found = found | (*b == byte);
    }
    found
}

/// The name, the value as written, and the bytes after an attribute (Attribute; XML 1.0, 3.1).
#[inline(always)]
#[tactic(auto, unfolding(crate::specs::Tags::attribute))]
fn attribute(bytes: &[u8]) -> Option<(&[u8], &[u8], &[u8])>
    requires { IsUtf8 bytes.now }
    ensures { option_map (λ found. (found.0.now, found.1.now, found.2.now)) result ≡ spec.attribute bytes.now }
{
    let (name, rest) = named(bytes)?;
    let (value, rest) = equated(rest)?;
    if has_byte(b'<', value) {
        return None;
    }
    Some((name, value, rest))
}

/// What follows the name in a start tag, up to its `>`.
#[derive(Debug, Drop)]
struct AttributeList {
    /// Those before the first fault of a value.
    attrs: List<RawAttr>,
    fault: Option<BadText>,
    empty: bool,
}

fn attributes(alloc: Global, bytes: &[u8]) -> Result<Option<AttributeList>, Memory>
    requires { IsUtf8 bytes.now }
    ensures { IfOk result (λ found. span.AreAttributes bytes.now found) }
{
    let mut attrs = List::new(alloc);
    let mut fault = None;
    let mut rest = bytes;
    'more_attrs: loop {
        let next = after_space(rest);
        if let Some(empty) = tag_end(next) {
            return Ok(Some(AttributeList {
                attrs,
                fault,
                empty,
            }));
        }
        if next.len() == rest.len() {
            return Ok(None);
        }
        let Some((name, value, more)) = attribute(next) else {
            return Ok(None);
        };
        match attr_of(alloc, name, value)? {
            Ok(attr) => attrs.push(attr)?,
            Err(other) => fault = Some(worse(fault, other)),
        }
        rest = more;
    }
}

/// Which of two faults is told, where there is an earlier one.
fn worse(fault: Option<BadText>, other: BadText) -> BadText
    ensures { result ≡ span.worse_of fault other }
{
    match fault {
        Some(BadText::Reference) => BadText::Reference,
        Some(BadText::Entity) | None => other,
    }
}

fn attr_of(alloc: Global, name: &[u8], value: &[u8]) -> Result<Result<RawAttr, BadText>, Memory>
    requires name { IsUtf8 name.now }
    requires value { IsUtf8 value.now }
    ensures { IfOk result (λ attr. attr ≡ spec.attr_said (name.now, value.now)) }
{
    match said(alloc, value, Context::Value)? {
        Ok(value) => {
            let name = text_of(alloc, name)?;
            Ok(Ok(RawAttr { name, value }))
        }
        Err(fault) => Ok(Err(fault)),
    }
}

/// The end of a start tag: `Some(true)` where the element is empty.
fn tag_end(bytes: &[u8]) -> Option<bool>
    ensures { result ≡ spec.tag_end bytes.now }
{
    match bytes {
        [] => Some(false),
        [b'/'] => Some(true),
        _ => None,
    }
}

/// What a tag says, by the bytes between its `<` and its `>`; `None` where these are no tag.
pub fn tag(alloc: Global, inside: &[u8]) -> Result<Option<Result<Body, BadText>>, Memory>
    requires { IsUtf8 inside.now }
    ensures { IfOk result (λ body. body ≡ spec.tag inside.now) }
{
    match after_byte(b'/', inside) {
        Some(inside) => end_tag(alloc, inside),
        None => start_tag(alloc, inside),
    }
}

fn end_tag(alloc: Global, bytes: &[u8]) -> Result<Option<Result<Body, BadText>>, Memory>
    requires { IsUtf8 bytes.now }
    ensures { IfOk result (λ body. body ≡ spec.end_tag bytes.now) }
{
    let Some((name, rest)) = named(bytes) else {
        return Ok(None);
    };
    if !after_space(rest).is_empty() {
        return Ok(None);
    }
    let name = text_of(alloc, name)?;
    Ok(Some(Ok(Body::End { name })))
}

fn start_tag(alloc: Global, bytes: &[u8]) -> Result<Option<Result<Body, BadText>>, Memory>
    requires { IsUtf8 bytes.now }
    ensures { IfOk result (λ body. body ≡ spec.start_tag bytes.now) }
{
    let Some((name, rest)) = named(bytes) else {
        return Ok(None);
    };
    let Some(found) = attributes(alloc, rest)? else {
        return Ok(None);
    };
    if let Some(fault) = found.fault {
        return Ok(Some(Err(fault)));
    }
    let name = text_of(alloc, name)?;
    Ok(Some(Ok(Body::Start {
        name,
        attrs: found.attrs,
        empty: found.empty,
    })))
}
