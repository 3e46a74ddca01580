//! Start tags as most are written: one look at their bytes shows them whole and without fault.
ghost use Rattle.std.specs.Prelude.{◌≡◌, ◌≤◌, ◌++◌, ◌∷◌, length, IfOk, IfSome};
ghost use Rattle.std.specs.List.{prefix_len};
ghost use Rattle.xml_tokens.specs.inside.PlainTags as spec;
ghost use Rattle.xml_tokens.specs.inside.PlainTags.{AreFirst, BeginsWithTag, IsPlainAttribute};
ghost use Rattle.xml_tokens.specs.Spelling.{slash};

use crate::lexeme::RawAttr;
use crate::tables::is_plain_in_value;
use crate::tag::{after_byte, bare_named};
use crate::text::text_from_spare;
use std::alloc::Global;
use stx_base::{List, Memory, Spare, Text};

/// A start tag, and how many bytes it takes.
#[derive(Debug, Drop)]
pub struct PlainTag {
    pub name: Text,
    pub attrs: List<RawAttr>,
    pub empty: bool,
    pub len: usize,
}

/// The start tag that the bytes begin with, where it is whole, its names are of ASCII, and each attribute stands behind one
/// space and says itself in double quotes. Its texts are made of what is spare.
#[inline(always)]
pub fn plain_tag(alloc: Global, bytes: &[u8], spare: &mut Spare) -> Result<Option<PlainTag>, Memory>
    ensures { IfOk result (λ found. IfSome found (λ tag. BeginsWithTag tag bytes.now)) }
{
    let Some(inside) = after_byte(b'<', bytes) else {
        return Ok(None);
    };
    let Some((name, behind)) = bare_named(inside) else {
        return Ok(None);
    };
    let Some((attrs, rest)) = plain_attributes(alloc, behind, spare)? else {
        return Ok(None);
    };
    let Some((empty, rest)) = plain_end(rest) else {
        return Ok(None);
    };
    let name = text_from_spare(name, spare)?;
    Ok(Some(PlainTag {
        name,
        attrs,
        empty,
        len: bytes.len() - rest.len(),
    }))
}

/// Whether the element is empty, and what follows the tag.
#[inline(always)]
fn plain_end(bytes: &[u8]) -> Option<(bool, &[u8])>
    ensures { IfSome result (λ found. bytes.now ≡ slash found.0 ++ 62 ∷ found.1.now) }
{
    match bytes {
        [b'>', rest @ ..] => Some((false, rest)),
        [b'/', b'>', rest @ ..] => Some((true, rest)),
        _ => None,
    }
}

/// The attributes, and what follows them; `None` where one isn't written so.
#[inline(always)]
fn plain_attributes<'b>(
    alloc: Global,
    bytes: &'b [u8],
    spare: &mut Spare,
) -> Result<Option<(List<RawAttr>, &'b [u8])>, Memory>
    ensures { IfOk result (λ found. IfSome found (λ given. AreFirst given.0 given.1.now bytes.now)) }
{
    let mut attrs = List::new(alloc);
    let mut rest = bytes;
    'more_attrs: loop {
        let Some(more) = after_byte(b' ', rest) else {
            return Ok(Some((attrs, rest)));
        };
        let Some((name, value, behind)) = plain_attribute(more) else {
            return Ok(None);
        };
        let attr = RawAttr {
            name: text_from_spare(name, spare)?,
            value: text_from_spare(value, spare)?,
        };
        attrs.push(attr)?;
        rest = behind;
    }
}

/// An attribute's name and value, and what follows it.
#[inline(always)]
fn plain_attribute(bytes: &[u8]) -> Option<(&[u8], &[u8], &[u8])>
    ensures { IfSome result (λ found. IsPlainAttribute found.0.now found.1.now found.2.now bytes.now) }
{
    let (name, rest) = bare_named(bytes)?;
    let quoted = after_byte(b'"', after_byte(b'=', rest)?)?;
    let (value, rest) = quoted.split_at(plain_value_len(quoted));
    let behind = after_byte(b'"', rest)?;
    Some((name, value, behind))
}

fn plain_value_len(bytes: &[u8]) -> usize
    ensures value { result ≡ prefix_len spec.is_plain_in_value bytes.now }
    ensures bound { result ≤ length bytes.now }
{
    bytes.iter().take_while(|b| is_plain_in_value(**b)).count()
}
