//! Parts that are judged before they are put: what is written of them without a second judgement, and what is settled with each.

ghost use Rattle.std.specs.Prelude.{◌≡◌, true, OnOk};
ghost use Rattle.result_writer.specs.Target.{holds_cdata_text};

use super::{Told, finished, kept, part_of};
use result_writer::{Opened, Settled, SettledTag, Writer, attribute_prefixes, holds_cdata_text};
use rows::{Row, Trouble, name_of, tell_name};
use std::alloc::Global;
use std::fmt::Write;
use stx_base::{Name, Part, Text};

/// Two targets that took the same parts. One judges, so that the other needn't.
#[derive(Drop)]
struct Both {
    judge: Opened,
    writer: Writer,
}

/// What is written of parts that aren't judged again when they are put.
pub(super) fn written(alloc: Global, row: &Row) -> Result<Told, Trouble> {
    let limit = row.limits()?.elements;
    let mut both = Both {
        judge: Opened::new(alloc, limit),
        writer: Writer::new(alloc, limit),
    };
    let mut told = Told::new(alloc);
    let done = put_all(alloc, &mut both, row.given, &mut told);
    drop(both);
    kept(done, told)
}

fn put_all(alloc: Global, both: &mut Both, parts: &str, told: &mut Told) -> Result<(), Trouble>
    requires { both.old.judge ≡ both.old.writer }
{
    for part in parts.split(" | ") {
        put_written(alloc, both, part, told)?;
    }
    told.end(finished(&mut both.writer))
}

fn put_written(alloc: Global, both: &mut Both, part: &str, told: &mut Told) -> Result<(), Trouble>
    requires { both.old.judge ≡ both.old.writer }
    ensures { OnOk result (both.new.judge ≡ both.new.writer) }
{
    if part.is_empty() {
        return Ok(());
    }
    let part = part_of(alloc, part)?;
    if !holds_cdata_text(&part) {
        drop(part);
        return Err(Trouble::Row("a text that no CDATA section has"));
    }
    put(both, part, told)
}

fn put(both: &mut Both, part: Part, told: &mut Told) -> Result<(), Trouble>
    requires text { holds_cdata_text part ≡ true }
    requires same { both.old.judge ≡ both.old.writer }
    ensures { OnOk result (both.new.judge ≡ both.new.writer) }
{
    let answer = both.judge.accept(&part);
    if answer.is_err() {
        drop(part);
        return told.answer(answer);
    }
    both.writer.put_judged(part, &mut told.bytes)?;
    told.answer(answer)
}

/// What is settled with each part, `.` where nothing is: the tag before it, with what it declares and the prefixes of its attributes,
/// and the part itself. Behind it stands the value of the attribute `: asked`, of x otherwise, that is held back then.
pub fn tell_settled_tags(alloc: Global, row: &Row, out: &mut String) -> Result<(), Trouble> {
    let asked = name_of(alloc, row.setting("asked").unwrap_or("x"))?;
    let mut target = Opened::new(alloc, row.limits()?.elements);
    let done = take_all(alloc, &mut target, &asked, row.given, out);
    drop(target);
    drop(asked);
    done
}

fn take_all(
    alloc: Global,
    target: &mut Opened,
    asked: &Name,
    parts: &str,
    out: &mut String,
) -> Result<(), Trouble> {
    for part in parts.split(" | ") {
        if !out.is_empty() {
            out.push_str(" | ")?;
        }
        take(alloc, target, part_of(alloc, part)?, out)?;
        tell_held(target, asked, out)?;
    }
    Ok(())
}

fn take(alloc: Global, target: &mut Opened, part: Part, out: &mut String) -> Result<(), Trouble> {
    if let Some(fault) = target.fault(&part) {
        drop(part);
        return Ok(write!(out, "{fault:?}")?);
    }
    let settled = target.take_settling(part)?;
    let done = tell_settled(alloc, &settled, out);
    drop(settled);
    done
}

fn tell_settled(alloc: Global, settled: &Settled, out: &mut String) -> Result<(), Trouble> {
    match (&settled.tag, &settled.part) {
        (None, None) => Ok(out.push('.')?),
        (Some(tag), None) => tell_tag(alloc, tag, out),
        (None, Some(part)) => tell_part(part, out),
        (Some(tag), Some(part)) => {
            tell_tag(alloc, tag, out)?;
            out.push(' ')?;
            tell_part(part, out)
        }
    }
}

fn tell_tag(alloc: Global, tag: &SettledTag, out: &mut String) -> Result<(), Trouble> {
    let prefixes = attribute_prefixes(alloc, &tag.name, tag.attrs.as_slice())?;
    let done = tell_tag_with(tag, prefixes.as_slice(), out);
    drop(prefixes);
    done
}

fn tell_tag_with(tag: &SettledTag, prefixes: &[Text], out: &mut String) -> Result<(), Trouble> {
    out.push('<')?;
    tell_name(&tag.name, out)?;
    for binding in tag.declared.as_slice() {
        write!(out, " {}={}", binding.prefix.as_str(), binding.uri.as_str())?;
    }
    for (attr, prefix) in tag.attrs.as_slice().iter().zip(prefixes) {
        let local = attr.name.local.as_str();
        write!(out, " @{}:{local} {}", prefix.as_str(), attr.value.as_str())?;
    }
    Ok(out.push('>')?)
}

fn tell_part(part: &Part, out: &mut String) -> Result<(), Trouble> {
    match part {
        Part::End { name } => {
            out.push('/')?;
            tell_name(name, out)
        }
        Part::Chars { text } => Ok(write!(out, "\"{}", text.as_str())?),
        Part::CData { text } => Ok(write!(out, "[{}", text.as_str())?),
        Part::Comment { text } => Ok(write!(out, "!{}", text.as_str())?),
        Part::Pi { target, text } => Ok(write!(out, "?{} {}", target.as_str(), text.as_str())?),
        Part::Start { .. } | Part::Attribute { .. } => Err(Trouble::Row("a part of a tag")),
    }
}

fn tell_held(target: &Opened, asked: &Name, out: &mut String) -> Result<(), Trouble> {
    match target.held_value(asked)? {
        Some(value) => Ok(write!(out, " ({})", value.as_str())?),
        None => Ok(()),
    }
}
