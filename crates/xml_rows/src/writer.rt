//! Results, part by part. Parts are parted by ` | `: `<NAME PREFIX=URI ..` is a start tag and the bindings in force where it comes
//! from, `<<NAME` a start tag with those of the one before, `@NAME VALUE` an attribute, `/NAME` an end tag, `"TEXT` a text, `[TEXT`
//! a CDATA section, `!TEXT` a comment and `?TARGET TEXT` an instruction. Told are the bytes of those that are taken, and behind ` !! ` the faults
//! of the others, each with the number of the part.

ghost use Rattle.std.specs.Prelude.{◌≡◌, true};
ghost use Rattle.result_writer.specs.Target.{holds_cdata_text};
ghost use Rattle.stx_base.specs.Character.{is_cdata_text};

pub mod judged;

use result_writer::{Opened, ResultFault, WriteStop, Writer, holds_cdata_text};
use rows::{Row, Trouble, binding_of, name_of, text_of};
use std::alloc::Global;
use std::fmt::Write;
use stx_base::{Attr, Binding, List, Name, Part, Spare, Text};

/// What is put into a result.
#[derive(Drop)]
enum Put {
    Part(Part),
    /// A start with the bindings of the start before it.
    Again(Name),
}

fn bindings_of(alloc: Global, written: &str) -> Result<List<Binding>, Trouble> {
    let mut made = List::new(alloc);
    for binding in written.split_whitespace() {
        made.push(binding_of(alloc, binding)?)?;
    }
    Ok(made)
}

fn start_of(alloc: Global, written: &str) -> Result<Part, Trouble> {
    let (name, scope) = written.split_once(' ').unwrap_or((written, ""));
    let name = name_of(alloc, name)?;
    let scope = bindings_of(alloc, scope)?;
    Ok(Part::Start { name, scope })
}

fn attribute_of(alloc: Global, written: &str) -> Result<Attr, Trouble> {
    let (name, value) = written.split_once(' ').unwrap_or((written, ""));
    let name = name_of(alloc, name)?;
    let value = text_of(alloc, value)?;
    Ok(Attr { name, value })
}

fn instruction_of(alloc: Global, written: &str) -> Result<Part, Trouble> {
    let (target, text) = written.split_once(' ').unwrap_or((written, ""));
    let target = text_of(alloc, target)?;
    let text = text_of(alloc, text)?;
    Ok(Part::Pi { target, text })
}

fn put_of(alloc: Global, written: &str) -> Result<Put, Trouble> {
    match written.strip_prefix("<<") {
        Some(name) => Ok(Put::Again(name_of(alloc, name)?)),
        None => Ok(Put::Part(part_of(alloc, written)?)),
    }
}

pub fn part_of(alloc: Global, written: &str) -> Result<Part, Trouble> {
    if let Some(start) = written.strip_prefix('<') {
        return start_of(alloc, start);
    }
    if let Some(attribute) = written.strip_prefix('@') {
        let Attr { name, value } = attribute_of(alloc, attribute)?;
        return Ok(Part::Attribute { name, value });
    }
    if let Some(name) = written.strip_prefix('/') {
        let name = name_of(alloc, name)?;
        return Ok(Part::End { name });
    }
    text_part_of(alloc, written)
}

fn text_part_of(alloc: Global, written: &str) -> Result<Part, Trouble> {
    if let Some(text) = written.strip_prefix('"') {
        let text = text_of(alloc, text)?;
        return Ok(Part::Chars { text });
    }
    if let Some(text) = written.strip_prefix('[') {
        let text = text_of(alloc, text)?;
        return Ok(Part::CData { text });
    }
    if let Some(text) = written.strip_prefix('!') {
        let text = text_of(alloc, text)?;
        return Ok(Part::Comment { text });
    }
    match written.strip_prefix('?') {
        Some(instruction) => instruction_of(alloc, instruction),
        None => Err(Trouble::Row("a part of no known form")),
    }
}

/// A result, and the faults of the parts that it doesn't have.
#[derive(Drop)]
struct Told {
    bytes: Vec<u8>,
    faults: String,
    /// How many parts were answered.
    place: u64,
}

impl Told {
    fn new(alloc: Global) -> Told {
        Told {
            bytes: Vec::new(alloc),
            faults: String::new(alloc),
            place: 0,
        }
    }

    /// Adds `FAULT at PLACE`, where the next part is refused.
    fn answer(&mut self, answer: Result<(), WriteStop>) -> Result<(), Trouble> {
        let place = self.place;
        self.place = place.saturating_add(1);
        match answer {
            Ok(()) => Ok(()),
            Err(WriteStop::Fault(fault)) => {
                self.fault(fault)?;
                Ok(write!(&mut self.faults, " at {place}")?)
            }
            Err(WriteStop::Memory) => Err(Trouble::Memory),
        }
    }

    fn fault(&mut self, fault: ResultFault) -> Result<(), Trouble> {
        if !self.faults.is_empty() {
            self.faults.push_str(", ")?;
        }
        Ok(write!(&mut self.faults, "{fault:?}")?)
    }

    fn end(&mut self, answer: Result<(), ResultFault>) -> Result<(), Trouble> {
        match answer {
            Ok(()) => Ok(()),
            Err(fault) => self.fault(fault),
        }
    }

    fn text(&self, alloc: Global) -> Result<String, Trouble> {
        let bytes = std::str::from_utf8(self.bytes.as_slice()).unwrap_or("bytes that are no text");
        let mut out = String::from_str(alloc, bytes)?;
        if !self.faults.is_empty() {
            let gap = if out.is_empty() { "" } else { " " };
            write!(&mut out, "{gap}!! {}", self.faults)?;
        }
        Ok(out)
    }
}

/// How parts are handed to a writer.
#[derive(Clone, Copy)]
enum Handed {
    Lent,
    Over,
    /// By the call of its kind.
    ByKind,
    /// The same, but for ends, which end the innermost element, and for starts in the scope of the start before.
    Innermost,
}

fn handed_of(word: &str) -> Result<Handed, Trouble> {
    match word {
        "lent" => Ok(Handed::Lent),
        "over" => Ok(Handed::Over),
        "kind" => Ok(Handed::ByKind),
        "innermost" => Ok(Handed::Innermost),
        _ => Err(Trouble::Row("no way to hand a part over")),
    }
}

// The writer's contract says all of a result. Nothing of it is needed here, and without it the rest is quicker to prove.

fn begun(alloc: Global, row: &Row) -> Result<Writer, Trouble> {
    Ok(Writer::new(alloc, row.limits()?.elements))
}

fn put_lent(writer: &mut Writer, part: &Part, out: &mut Vec<u8>) -> Result<(), WriteStop>
    requires { holds_cdata_text part.now ≡ true }
{
    writer.put(part, out)
}

fn put_over(writer: &mut Writer, part: Part, out: &mut Vec<u8>) -> Result<(), WriteStop>
    requires { holds_cdata_text part ≡ true }
{
    writer.put_owned(part, out)
}

fn put_start(
    writer: &mut Writer,
    name: Name,
    scope: &List<Binding>,
    out: &mut Vec<u8>,
) -> Result<(), WriteStop> {
    writer.put_start(name, scope, out)
}

fn put_again(
    writer: &mut Writer,
    name: Name,
    spare: &mut Spare,
    out: &mut Vec<u8>,
) -> Result<(), WriteStop> {
    writer.put_start_again(name, spare, out)
}

/// A start, which is put again where it is in the scope of the start before.
fn put_start_in(
    writer: &mut Writer,
    name: Name,
    scope: &List<Binding>,
    spare: &mut Spare,
    out: &mut Vec<u8>,
) -> Result<(), WriteStop> {
    if writer.is_last_scope(scope) {
        return put_again(writer, name, spare, out);
    }
    put_start(writer, name, scope, out)
}

fn put_attribute(writer: &mut Writer, name: Name, value: Text) -> Result<(), WriteStop> {
    writer.put_attribute(name, value)
}

fn put_end(writer: &mut Writer, name: &Name, out: &mut Vec<u8>) -> Result<(), WriteStop> {
    writer.put_end(name, out)
}

fn end_innermost(
    writer: &mut Writer,
    spare: &mut Spare,
    out: &mut Vec<u8>,
) -> Result<(), WriteStop> {
    writer.end_innermost(spare, out)
}

fn put_chars(writer: &mut Writer, text: &Text, out: &mut Vec<u8>) -> Result<(), WriteStop> {
    writer.put_chars(text, out)
}

fn put_cdata(writer: &mut Writer, text: &Text, out: &mut Vec<u8>) -> Result<(), WriteStop>
    requires { is_cdata_text text.now ≡ true }
{
    Ok(writer.put_cdata(text, out)?)
}

fn put_comment(writer: &mut Writer, text: &Text, out: &mut Vec<u8>) -> Result<(), WriteStop> {
    writer.put_comment(text, out)
}

fn put_instruction(
    writer: &mut Writer,
    target: &Text,
    text: &Text,
    out: &mut Vec<u8>,
) -> Result<(), WriteStop> {
    writer.put_instruction(target, text, out)
}

fn finished(writer: &mut Writer) -> Result<(), ResultFault> {
    writer.finish()
}

fn put_by_kind(writer: &mut Writer, part: Part, out: &mut Vec<u8>) -> Result<(), WriteStop>
    requires { holds_cdata_text part ≡ true }
{
    match part {
        Part::Start { name, scope } => put_start(writer, name, &scope, out),
        Part::Attribute { name, value } => put_attribute(writer, name, value),
        Part::End { name } => put_end(writer, &name, out),
        Part::Chars { text } => put_chars(writer, &text, out),
        Part::CData { text } => put_cdata(writer, &text, out),
        Part::Comment { text } => put_comment(writer, &text, out),
        Part::Pi { target, text } => put_instruction(writer, &target, &text, out),
    }
}

fn put_innermost(
    writer: &mut Writer,
    part: Part,
    spare: &mut Spare,
    out: &mut Vec<u8>,
) -> Result<(), WriteStop>
    requires { holds_cdata_text part ≡ true }
{
    match part {
        Part::Start { name, scope } => put_start_in(writer, name, &scope, spare, out),
        Part::End { name: _name } => end_innermost(writer, spare, out),
        part => put_by_kind(writer, part, out),
    }
}

impl Handed {
    fn put(
        self,
        writer: &mut Writer,
        part: Part,
        spare: &mut Spare,
        out: &mut Vec<u8>,
    ) -> Result<(), WriteStop>
        requires { holds_cdata_text part ≡ true }
    {
        match self {
            Handed::Lent => put_lent(writer, &part, out),
            Handed::Over => put_over(writer, part, out),
            Handed::ByKind => put_by_kind(writer, part, out),
            Handed::Innermost => put_innermost(writer, part, spare, out),
        }
    }

    fn put_any(
        self,
        writer: &mut Writer,
        put: Put,
        spare: &mut Spare,
        out: &mut Vec<u8>,
    ) -> Result<Result<(), WriteStop>, Trouble> {
        match put {
            Put::Again(name) => Ok(put_again(writer, name, spare, out)),
            Put::Part(part) if holds_cdata_text(&part) => Ok(self.put(writer, part, spare, out)),
            Put::Part(_) => Err(Trouble::Row("a text that no CDATA section has")),
        }
    }
}

/// A result while parts are put.
#[derive(Drop)]
struct Writing {
    writer: Writer,
    spare: Spare,
    told: Told,
}

impl Writing {
    fn new(alloc: Global, row: &Row) -> Result<Writing, Trouble> {
        Ok(Writing {
            writer: begun(alloc, row)?,
            spare: Spare::new(alloc),
            told: Told::new(alloc),
        })
    }

    fn put(&mut self, handed: Handed, put: Put) -> Result<(), Trouble> {
        let out = &mut self.told.bytes;
        let answer = handed.put_any(&mut self.writer, put, &mut self.spare, out)?;
        self.told.answer(answer)
    }

    /// Puts a part as it is written. Only the one of an empty row is empty.
    fn put_written(&mut self, alloc: Global, handed: Handed, part: &str) -> Result<(), Trouble> {
        if part.is_empty() {
            return Ok(());
        }
        self.put(handed, put_of(alloc, part)?)
    }

    /// Puts parts one after another. One that is refused changes nothing, so those behind it are put as if it weren't there.
    fn put_all(&mut self, alloc: Global, handed: Handed, parts: &str) -> Result<(), Trouble> {
        for part in parts.split(" | ") {
            self.put_written(alloc, handed, part)?;
        }
        self.end()
    }

    fn end(&mut self) -> Result<(), Trouble> {
        let answer = finished(&mut self.writer);
        self.told.end(answer)
    }

    /// The same, with a bar behind the bytes of each part.
    fn put_apart(&mut self, alloc: Global, parts: &str) -> Result<(), Trouble> {
        self.told.bytes.extend_from_slice(b"<?head?>")?;
        for part in parts.split(" | ") {
            self.put_written(alloc, Handed::Lent, part)?;
            self.told.bytes.push(b'|')?;
        }
        self.end()
    }

    /// What was told, where all of it was.
    fn told(self, put: Result<(), Trouble>) -> Result<Told, Trouble> {
        let Writing {
            writer,
            spare,
            told,
        } = self;
        drop(writer);
        drop(spare);
        kept(put, told)
    }
}

/// What was made, where it was made to its end.
fn kept<T: Drop>(done: Result<(), Trouble>, made: T) -> Result<T, Trouble> {
    match done {
        Ok(()) => Ok(made),
        Err(trouble) => Err(trouble),
    }
}

fn written(alloc: Global, row: &Row, handed: Handed) -> Result<Told, Trouble> {
    let mut writing = Writing::new(alloc, row)?;
    let put = writing.put_all(alloc, handed, row.given);
    writing.told(put)
}

fn accept(alloc: Global, opened: &mut Opened, part: &str, told: &mut Told) -> Result<(), Trouble> {
    if part.is_empty() {
        return Ok(());
    }
    let part = part_of(alloc, part)?;
    let done = accept_part(opened, &part, told);
    drop(part);
    done
}

fn accept_part(opened: &mut Opened, part: &Part, told: &mut Told) -> Result<(), Trouble> {
    if !holds_cdata_text(part) {
        return Err(Trouble::Row("a text that no CDATA section has"));
    }
    told.answer(opened.accept(part))
}

/// The same without bytes.
fn accepted(alloc: Global, row: &Row) -> Result<Told, Trouble> {
    let mut opened = Opened::new(alloc, row.limits()?.elements);
    let mut told = Told::new(alloc);
    let done = accept_all(alloc, &mut opened, row.given, &mut told);
    drop(opened);
    kept(done, told)
}

fn accept_all(
    alloc: Global,
    opened: &mut Opened,
    parts: &str,
    told: &mut Told,
) -> Result<(), Trouble> {
    for part in parts.split(" | ") {
        accept(alloc, opened, part, told)?;
    }
    if opened.closed() {
        return Ok(());
    }
    told.fault(ResultFault::UnclosedResult)
}

/// What comes of the parts in a way to hand them over.
fn told_by(alloc: Global, row: &Row, way: &str) -> Result<Told, Trouble> {
    match way {
        "accepted" => accepted(alloc, row),
        "judged" => judged::written(alloc, row),
        _ => written(alloc, row, handed_of(way)?),
    }
}

/// What is written of the parts in the ways that `: handed` names, and told again where it isn't the same.
pub fn tell(alloc: Global, row: &Row, out: &mut String) -> Result<(), Trouble> {
    let ways = row
        .setting("handed")
        .unwrap_or("lent over kind judged accepted");
    let (way, others) = ways.split_once(' ').unwrap_or((ways, ""));
    let first = told_by(alloc, row, way)?;
    out.push_str(first.text(alloc)?.as_str())?;
    for way in others.split_whitespace() {
        tell_other(alloc, &first, &told_by(alloc, row, way)?, way, out)?;
    }
    Ok(())
}

fn tell_other(
    alloc: Global,
    first: &Told,
    told: &Told,
    way: &str,
    out: &mut String,
) -> Result<(), Trouble> {
    let same = way == "accepted" || first.bytes.as_slice() == told.bytes.as_slice();
    if !same || first.faults.as_str() != told.faults.as_str() {
        write!(out, ", but {way}: {}", told.text(alloc)?)?;
    }
    Ok(())
}

/// The bytes that each part adds, with a bar behind them. They are appended to what is there.
pub fn tell_settled(alloc: Global, row: &Row, out: &mut String) -> Result<(), Trouble> {
    let mut writing = Writing::new(alloc, row)?;
    let put = writing.put_apart(alloc, row.given);
    let told = writing.told(put)?;
    Ok(out.push_str(told.text(alloc)?.as_str())?)
}

fn attributes_of(alloc: Global, written: &str) -> Result<List<Attr>, Trouble> {
    let mut attrs = List::new(alloc);
    if written.is_empty() {
        return Ok(attrs);
    }
    for attr in written.split(" | ") {
        attrs.push(attribute_of(alloc, attr.strip_prefix('@').unwrap_or(attr))?)?;
    }
    Ok(attrs)
}

fn put_at_once(
    alloc: Global,
    writer: &mut Writer,
    attrs: List<Attr>,
    told: &mut Told,
) -> Result<(), Trouble> {
    if !writer.takes_at_once(attrs.as_slice()) {
        return Ok(told.faults.push_str("not at once")?);
    }
    told.end(writer.put_attributes(attrs))?;
    if told.faults.is_empty() {
        let answer = end_innermost(writer, &mut Spare::new(alloc), &mut told.bytes);
        told.answer(answer)?;
    }
    Ok(())
}

/// Attributes that are put at once are written, or refused, as they are one after another. They are put so where a tag is held
/// back, and not before the first one.
pub fn tell_at_once(alloc: Global, row: &Row, out: &mut String) -> Result<(), Trouble> {
    let mut writer = begun(alloc, row)?;
    let mut told = Told::new(alloc);
    let done = tell_attributes(alloc, row.given, &mut writer, &mut told, out);
    drop(writer);
    let told = kept(done, told)?;
    Ok(out.push_str(told.text(alloc)?.as_str())?)
}

fn tell_attributes(
    alloc: Global,
    written: &str,
    writer: &mut Writer,
    told: &mut Told,
    out: &mut String,
) -> Result<(), Trouble> {
    if takes(writer, &attributes_of(alloc, written)?) {
        out.push_str("at once before a start, ")?;
    }
    start(alloc, writer, told)?;
    put_at_once(alloc, writer, attributes_of(alloc, written)?, told)
}

fn takes(writer: &Writer, attrs: &List<Attr>) -> bool {
    writer.takes_at_once(attrs.as_slice())
}

/// Starts an element.
fn start(alloc: Global, writer: &mut Writer, told: &mut Told) -> Result<(), Trouble> {
    let name = Name {
        uri: Text::new(alloc),
        local: Text::of(alloc, "e")?,
        prefix: Text::new(alloc),
    };
    let put = put_start(writer, name, &List::new(alloc), &mut told.bytes);
    told.answer(put)
}

/// What is written of one text.
fn text_written(alloc: Global, text: &str) -> Result<String, Trouble> {
    let mut told = Told::new(alloc);
    let text = Text::of(alloc, text)?;
    let answer = put_chars(&mut Writer::new(alloc, 1), &text, &mut told.bytes);
    told.answer(answer)?;
    told.text(alloc)
}

fn padded(alloc: Global, text: &str, before: usize, behind: usize) -> Result<String, Trouble> {
    let mut out = String::new(alloc);
    for _ in 0..before {
        out.push('x')?;
    }
    out.push_str(text)?;
    for _ in 0..behind {
        out.push('x')?;
    }
    Ok(out)
}

/// What is written of a character alone. What is written of it at each place of longer texts is told where it is something else.
/// Few bytes are looked up one by one, and more are looked at together.
pub fn tell_character(alloc: Global, row: &Row, out: &mut String) -> Result<(), Trouble> {
    let given = text_of(alloc, row.given)?;
    let alone = text_written(alloc, given.as_str())?;
    out.push_str(alone.as_str())?;
    let refused = alone.starts_with("!! ");
    for others in 0..20usize {
        for before in 0..=others {
            let behind = others.saturating_sub(before);
            let text = padded(alloc, given.as_str(), before, behind)?;
            let found = text_written(alloc, text.as_str())?;
            let same = if refused {
                found.as_str() == alone.as_str()
            } else {
                found.as_str() == padded(alloc, alone.as_str(), before, behind)?.as_str()
            };
            if !same {
                write!(
                    out,
                    ", but behind {before} and before {behind} others: {found}"
                )?;
            }
        }
    }
    Ok(())
}
