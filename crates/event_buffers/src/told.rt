//! What is kept in a buffer, as events that are made one at a time.

ghost use Rattle.std.specs.Prelude.{◌≡◌, ◌+◌, ◌<◌, ◌++◌, ◌^◌, None, drop, length, slice_get, IfOk, IfSome};
ghost use Rattle.std.specs.Option.{option_copied};
ghost use Rattle.event_buffers.specs.Told as spec;
ghost use Rattle.event_buffers.specs.Told.{event_of, first_in, prefixed, text_before, told, written_attrs, IsToldAt};

use crate::kept::Kept;
use result_writer::{SettledTag, attribute_prefixes};
use std::alloc::Global;
use stx_base::{Attr, Copied, First, List, Memory, Name, Text};
use xml_events::Event;

/// An event of a buffer.
#[derive(Debug, Drop)]
pub struct Told {
    pub event: Event,
    /// The place behind it.
    pub next: usize,
}

/// The event at a place of what is kept, the declared content first; none at the end.
pub fn told_at(
    alloc: Global,
    declared: &[Kept],
    own: &[Kept],
    place: usize,
) -> Result<Option<Told>, Memory>
    requires { length declared.now + length own.now < 2 ^ 64 }
    ensures { IfOk result (λ told. IsToldAt (declared.now ++ own.now) place told) }
{
    let (text, next) = joined_text(alloc, declared, own, place)?;
    if !text.is_empty() {
        let event = Event::Chars { offset: 0, text };
        return Ok(Some(Told { event, next }));
    }
    item_told(alloc, declared, own, next)
}

/// The same where no text stands at the place.
fn item_told(
    alloc: Global,
    declared: &[Kept],
    own: &[Kept],
    place: usize,
) -> Result<Option<Told>, Memory>
    requires room { length declared.now + length own.now < 2 ^ 64 }
    requires text { spec.text_at (declared.now ++ own.now) place ≡ None }
    ensures { IfOk result (λ told. IsToldAt (declared.now ++ own.now) place told) }
{
    match item(declared, own, place) {
        None => Ok(None),
        Some(item) => {
            let next = place + 1;
            let event = event(alloc, item, declared, own, next)?;
            Ok(Some(Told { event, next }))
        }
    }
}

/// What is kept at a place.
fn item<'a>(declared: &'a [Kept], own: &'a [Kept], place: usize) -> Option<&'a Kept>
    requires { length declared.now + length own.now < 2 ^ 64 }
    ensures item { option_copied result ≡ slice_get (declared.now ++ own.now) place }
    ensures within { IfSome result (λ item. place + 1 < 2 ^ 64) }
{
    if place < declared.len() {
        declared.get(place)
    } else {
        own.get(place - declared.len())
    }
}

/// The text at a place.
fn text<'a>(declared: &'a [Kept], own: &'a [Kept], place: usize) -> Option<&'a Text>
    requires { length declared.now + length own.now < 2 ^ 64 }
    ensures text { option_copied result ≡ spec.text_at (declared.now ++ own.now) place }
    ensures within { IfSome result (λ text. place < length declared.now + length own.now) }
{
    match item(declared, own, place) {
        Some(Kept::Chars(text)) => Some(text),
        _ => None,
    }
}

/// The texts from a place on, joined, and the place behind them.
fn joined_text(
    alloc: Global,
    declared: &[Kept],
    own: &[Kept],
    place: usize,
) -> Result<(Text, usize), Memory>
    requires { length declared.now + length own.now < 2 ^ 64 }
    ensures joined { IfOk result (λ found. told (drop place (declared.now ++ own.now)) ≡ text_before found.0 (told (drop found.1 (declared.now ++ own.now)))) }
    ensures behind { IfOk result (λ found. spec.text_at (declared.now ++ own.now) found.1 ≡ None) }
{
    let mut joined = Text::new(alloc);
    let mut next = place;
    while let Some(more) = text(declared, own, next) {
        joined.push_str(more.as_str())?;
        next += 1;
    }
    Ok((joined, next))
}

/// The event of what is kept before a place.
fn event(
    alloc: Global,
    item: &Kept,
    declared: &[Kept],
    own: &[Kept],
    behind: usize,
) -> Result<Event, Memory>
    requires { length declared.now + length own.now < 2 ^ 64 }
    ensures { IfOk result (λ event. event ≡ event_of (first_in (told (drop behind (declared.now ++ own.now)))) item.now) }
{
    match item {
        Kept::Start(tag) => {
            let first = first_at(alloc, declared, own, behind)?;
            start(alloc, tag, first)
        }
        Kept::End => Ok(Event::End { offset: 0 }),
        Kept::Chars(text) => {
            let text = text.copy(alloc)?;
            Ok(Event::Chars { offset: 0, text })
        }
        Kept::CData(text) => {
            let text = text.copy(alloc)?;
            Ok(Event::CData { offset: 0, text })
        }
        Kept::Comment(text) => {
            let text = text.copy(alloc)?;
            Ok(Event::Comment { offset: 0, text })
        }
        Kept::Pi { target, text } => {
            let target = target.copy(alloc)?;
            let text = text.copy(alloc)?;
            Ok(Event::Pi {
                offset: 0,
                target,
                text,
            })
        }
    }
}

/// The event of a start tag, with the first child of its element.
fn start(alloc: Global, tag: &SettledTag, first: First) -> Result<Event, Memory>
    ensures { IfOk result (λ event. event ≡ spec.start tag.now first) }
{
    let name = tag.name.copy(alloc)?;
    let attrs = written_attrs(alloc, tag)?;
    let decls = tag.declared.copy(alloc)?;
    Ok(Event::Start {
        offset: 0,
        name,
        attrs,
        decls,
        first,
    })
}

/// The first child of an element whose content begins at a place.
fn first_at(alloc: Global, declared: &[Kept], own: &[Kept], place: usize) -> Result<First, Memory>
    requires { length declared.now + length own.now < 2 ^ 64 }
    ensures { IfOk result (λ first. first ≡ first_in (told (drop place (declared.now ++ own.now)))) }
{
    let (text, next) = joined_text(alloc, declared, own, place)?;
    if !text.is_empty() {
        return Ok(First::Chars(text));
    }
    first_of(alloc, item(declared, own, next))
}

/// The first child of an element in which no text stands before this.
fn first_of(alloc: Global, item: Option<&Kept>) -> Result<First, Memory>
    ensures { IfOk result (λ first. first ≡ spec.first_of (option_copied item.entry)) }
{
    match item {
        None | Some(Kept::End) => Ok(First::Nothing),
        Some(Kept::Chars(text) | Kept::CData(text)) => {
            let text = text.copy(alloc)?;
            Ok(First::Chars(text))
        }
        Some(Kept::Start(_) | Kept::Comment(_) | Kept::Pi { .. }) => Ok(First::Other),
    }
}

/// The attributes of a tag with the prefixes that they are written with.
fn written_attrs(alloc: Global, tag: &SettledTag) -> Result<List<Attr>, Memory>
    ensures { IfOk result (λ attrs. attrs ≡ written_attrs tag.now) }
{
    if tag.attrs.is_empty() {
        return Ok(List::new(alloc));
    }
    let prefixes = attribute_prefixes(alloc, &tag.name, tag.attrs.as_slice())?;
    prefixed(alloc, prefixes, tag.attrs.as_slice())
}

/// Attributes with other prefixes.
fn prefixed(alloc: Global, prefixes: List<Text>, attrs: &[Attr]) -> Result<List<Attr>, Memory>
    ensures { IfOk result (λ made. made ≡ prefixed prefixes attrs.now) }
{
    let mut made = List::new(alloc);
    let mut prefixes = prefixes.into_vec().into_iter();
    for attr in attrs {
        let Some(prefix) = prefixes.next() else {
            return Ok(made);
        };
        let uri = attr.name.uri.copy(alloc)?;
        let local = attr.name.local.copy(alloc)?;
        let value = attr.value.copy(alloc)?;
        let name = Name { uri, local, prefix };
        made.push(Attr { name, value })?;
    }
    Ok(made)
}
