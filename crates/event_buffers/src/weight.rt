//! What parts weigh: one more than the characters of their names, values and texts.

ghost use Rattle.std.specs.Prelude.{◌≡◌, ◌+◌, ◌<◌, ◌≤◌, ◌^◌, length, min, IfOk};
ghost use Rattle.std.specs.Str.{chars};
ghost use Rattle.event_buffers.specs.Weight as spec;
ghost use Rattle.event_buffers.specs.Weight.{attribute_weight, attributes_weight, held_weight, kept_weight, name_weight, replaced_weight};

use crate::kept::Kept;
use result_writer::Opened;
use stx_base::{Attr, Memory, Name, Part, Text};

fn len(text: &Text) -> u128
    ensures count { result ≡ length text.now }
    ensures bound { result < 2 ^ 64 }
{
    count(text.as_str()) as u128
}

fn count(text: &str) -> u64
    ensures { result ≡ length (chars text.now) }
{
    text.chars().count() as u64
}

fn name_weight(name: &Name) -> u128
    ensures count { result ≡ name_weight name.now }
    ensures bound { result < 2 ^ 66 }
{
    len(&name.prefix) + len(&name.local) + len(&name.uri)
}

fn attribute_weight(name: &Name, value: &Text) -> u128
    ensures count { result ≡ attribute_weight name.now value.now }
    ensures bound { result < 2 ^ 67 }
{
    1 + name_weight(name) + len(value)
}

/// What a part weighs by itself.
fn part_weight(part: &Part) -> u128
    ensures count { result ≡ spec.part_weight part.now }
    ensures bound { result < 2 ^ 67 }
{
    match part {
        Part::Start { name, .. } => 1 + name_weight(name),
        Part::Attribute { name, value } => attribute_weight(name, value),
        Part::End { .. } => 1,
        Part::Chars { text } | Part::CData { text } | Part::Comment { text } => 1 + len(text),
        Part::Pi { target, text } => 1 + len(target) + len(text),
    }
}

/// What an attribute weighs with its earlier value, whose place it takes.
fn replaced_weight(target: &Opened, part: &Part) -> Result<u128, Memory>
    ensures { IfOk result (λ weight. weight ≡ replaced_weight target.now.left part.now) }
{
    let Part::Attribute { name, .. } = part else {
        return Ok(0);
    };
    match target.held_value(name)? {
        None => Ok(0),
        Some(value) => Ok(attribute_weight(name, value)),
    }
}

/// What weighs so much weighs this with a part more.
pub fn weight_behind(weight: u64, target: &Opened, part: &Part) -> Result<u128, Memory>
    requires { held_weight target.now.left.held ≤ weight }
    ensures count { IfOk result (λ behind. behind + replaced_weight target.now.left part.now ≡ weight + spec.part_weight part.now) }
    ensures bound { IfOk result (λ behind. behind < 2 ^ 68) }
{
    let replaced = replaced_weight(target, part)?;
    Ok(weight as u128 + part_weight(part) - replaced)
}

/// What all of these weigh, up to a bound that is over every limit.
pub fn kept_weight(items: &[Kept]) -> u128
    ensures { result ≡ min (kept_weight items.now) (2 ^ 64) }
{
    let mut weight = 0;
    for item in items {
        weight = plus(weight, item_weight(item));
    }
    weight
}

fn item_weight(item: &Kept) -> u128
    ensures { result ≡ min (spec.weight item.now) (2 ^ 64) }
{
    match item {
        Kept::Start(tag) => {
            let name = 1 + name_weight(&tag.name);
            plus(attributes_weight(tag.attrs.as_slice()), name)
        }
        Kept::End => 1,
        Kept::Chars(text) | Kept::CData(text) | Kept::Comment(text) => plus(1, len(text)),
        Kept::Pi { target, text } => plus(1, len(target) + len(text)),
    }
}

fn attributes_weight(attrs: &[Attr]) -> u128
    ensures { result ≡ min (attributes_weight attrs.now) (2 ^ 64) }
{
    let mut weight = 0;
    for attr in attrs {
        weight = plus(weight, attribute_weight(&attr.name, &attr.value));
    }
    weight
}

/// The sum, up to the bound.
fn plus(weight: u128, more: u128) -> u128
    requires weight { weight ≤ 2 ^ 64 }
    requires more { more < 2 ^ 67 }
    ensures { result ≡ min (weight + more) (2 ^ 64) }
{
    (weight + more).min(1 << 64)
}
