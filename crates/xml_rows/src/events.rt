//! Documents read to events. A start is `PLACE<NAME ATTRIBUTES DECLARATIONS>FIRST`, where FIRST tells the first child: `-` for
//! none, `*` for one that is no text, else the text in quotes. Where `: brief` is set, the events are only counted.

ghost use Rattle.std.specs.Prelude.{◌≡◌, false, IfOk};

use crate::lexemes::tell_fault;
use crate::names::tell_declaration;
use crate::reading::Reads;
use rows::{Row, Trouble, tell_name};
use std::alloc::Global;
use std::fmt::Write;
use stx_base::{Attr, Binding, First, Limits, List, Name, Spare, Text};
use xml_events::{Event, EventReader, Pull};

pub struct Events;

/// What was told, and texts of events that were told, which the next ones are made of.
#[derive(Drop)]
struct Telling {
    text: String,
    spare: Spare,
    events: u64,
    brief: bool,
}

impl Telling {
    fn new(alloc: Global, row: &Row) -> Telling {
        Telling {
            text: String::new(alloc),
            spare: Spare::new(alloc),
            events: 0,
            brief: row.is_set("brief"),
        }
    }

    /// Ends a document's first answers.
    fn over(&mut self) -> Result<(), Trouble> {
        if self.brief {
            write!(&mut self.text, ", {} events", self.events)?;
        }
        Ok(())
    }

    /// Hands on what was told, where all of it was.
    fn end(self, told: Result<(), Trouble>, out: &mut String) -> Result<(), Trouble> {
        let handed = match told {
            Ok(()) => hand_on(self.text.as_str(), out),
            Err(trouble) => Err(trouble),
        };
        drop(self);
        handed
    }
}

fn hand_on(text: &str, out: &mut String) -> Result<(), Trouble> {
    Ok(out.push_str(text)?)
}

impl Reads for Events {
    fn tell(
        alloc: Global,
        row: &Row,
        pieces: &[&[u8]],
        marked: bool,
        out: &mut String,
    ) -> Result<(), Trouble> {
        let mut reader = begun_for(alloc, row)?;
        let mut telling = Telling::new(alloc, row);
        let told = tell_document(&mut reader, pieces, marked, &mut telling);
        drop(reader);
        telling.end(told, out)
    }

    fn tell_again(
        alloc: Global,
        row: &Row,
        document: &[u8],
        out: &mut String,
    ) -> Result<(), Trouble> {
        let mut reader = begun_for(alloc, row)?;
        let mut telling = Telling::new(alloc, row);
        let told = tell_document_again(&mut reader, document, &mut telling);
        drop(reader);
        telling.end(told, out)
    }
}

fn tell_document(
    reader: &mut EventReader,
    pieces: &[&[u8]],
    marked: bool,
    out: &mut Telling,
) -> Result<(), Trouble>
    requires { reader.old.lexer.ended ≡ false }
{
    tell_pieces(reader, pieces, marked, out)?;
    out.over()
}

fn tell_pieces(
    reader: &mut EventReader,
    pieces: &[&[u8]],
    marked: bool,
    out: &mut Telling,
) -> Result<(), Trouble>
    requires { reader.old.lexer.ended ≡ false }
{
    for piece in pieces {
        if take(reader, piece, out)? {
            return Ok(());
        }
        if marked {
            out.text.push_str("? ")?;
        }
    }
    end(reader, out)
}

fn tell_document_again(
    reader: &mut EventReader,
    document: &[u8],
    out: &mut Telling,
) -> Result<(), Trouble>
    requires { reader.old.lexer.ended ≡ false }
{
    take(reader, document, out)?;
    out.text.push_str("; ")?;
    drain(reader, out)?;
    out.text.push_str("; ")?;
    take(reader, b"<a/>", out)?;
    out.text.push_str("; ")?;
    end(reader, out)
}

// The reader's contract says all of a document; these say what the rows need, which is quicker to prove from.

/// Where `cdata` is set, CDATA sections are nodes.
pub fn begun(alloc: Global, limits: Limits, strip: bool, cdata: bool) -> EventReader
    ensures { result.lexer.ended ≡ false }
{
    EventReader::for_sheet(alloc, limits, strip, cdata)
}

fn begun_for(alloc: Global, row: &Row) -> Result<EventReader, Trouble>
    ensures { IfOk result (λ reader. reader.lexer.ended ≡ false) }
{
    let limits = row.limits()?;
    let strip = row.is_set("strip");
    let cdata = row.is_set("cdata");
    Ok(begun(alloc, limits, strip, cdata))
}

pub fn answer(reader: &mut EventReader, spare: &mut Spare) -> Pull
    ensures { reader.new.lexer.ended ≡ reader.old.lexer.ended }
{
    reader.next(spare)
}

/// Tells the answers behind a document's next bytes. Whether the reader is over.
fn take(reader: &mut EventReader, piece: &[u8], out: &mut Telling) -> Result<bool, Trouble>
    requires { reader.old.lexer.ended ≡ false }
    ensures { reader.new.lexer.ended ≡ false }
{
    reader.feed(piece)?;
    drain(reader, out)
}

/// Tells the answers at a document's end, and what comes behind them if anything does.
fn end(reader: &mut EventReader, out: &mut Telling) -> Result<(), Trouble> {
    reader.finish();
    drain(reader, out)?;
    let pull = answer(reader, &mut out.spare);
    let is_over = matches!(pull, Pull::End | Pull::Bad(_));
    drop(pull);
    if is_over {
        return Ok(());
    }
    Ok(out.text.push_str(", and more")?)
}

/// Whether the reader is over.
fn drain(reader: &mut EventReader, out: &mut Telling) -> Result<bool, Trouble>
    ensures { reader.new.lexer.ended ≡ reader.old.lexer.ended }
{
    for _ in 0..u64::MAX {
        let pull = answer(reader, &mut out.spare);
        if let Some(over) = tell_pull(pull, out)? {
            return Ok(over);
        }
    }
    Ok(true)
}

/// Tells an answer. None where another may be asked for, else whether the reader is over.
fn tell_pull(pull: Pull, out: &mut Telling) -> Result<Option<bool>, Trouble> {
    match pull {
        Pull::Event(event) => tell_event(event, out),
        Pull::Need => Ok(Some(false)),
        Pull::End => Ok(Some(true)),
        Pull::Bad(fault) => {
            tell_fault(fault, &mut out.text)?;
            Ok(Some(true))
        }
        Pull::Memory => Err(Trouble::Memory),
    }
}

fn tell_event(event: Event, out: &mut Telling) -> Result<Option<bool>, Trouble> {
    let told = if out.brief {
        Ok(())
    } else {
        tell(&event, &mut out.text)
    };
    out.events = out.events.saturating_add(1);
    event.give_back(&mut out.spare);
    match told {
        Ok(()) => Ok(None),
        Err(trouble) => Err(trouble),
    }
}

pub fn tell(event: &Event, out: &mut String) -> Result<(), Trouble> {
    match event {
        Event::Start {
            offset,
            name,
            attrs,
            decls,
            first,
        } => {
            write!(out, "{offset}<")?;
            tell_tag(name, attrs, decls, out)?;
            tell_first(first, out)
        }
        Event::End { offset } => Ok(write!(out, "{offset}</> ")?),
        Event::Chars { offset, text } => tell_text(*offset, "", text, out),
        Event::CData { offset, text } => tell_text(*offset, "cdata", text, out),
        Event::Comment { offset, text } => tell_text(*offset, "comment", text, out),
        Event::Pi {
            offset,
            target,
            text,
        } => tell_instruction(*offset, target, text, out),
        Event::DocumentEnd { offset } => Ok(write!(out, "{offset}end")?),
    }
}

fn tell_text(offset: u64, kind: &str, text: &Text, out: &mut String) -> Result<(), Trouble> {
    Ok(write!(out, "{offset}{kind}[{}] ", text.as_str())?)
}

fn tell_instruction(
    offset: u64,
    target: &Text,
    text: &Text,
    out: &mut String,
) -> Result<(), Trouble> {
    let target = target.as_str();
    Ok(write!(out, "{offset}pi[{target}|{}] ", text.as_str())?)
}

fn tell_tag(
    name: &Name,
    attrs: &List<Attr>,
    decls: &List<Binding>,
    out: &mut String,
) -> Result<(), Trouble> {
    tell_name(name, out)?;
    for attr in attrs.as_slice() {
        out.push(' ')?;
        tell_name(&attr.name, out)?;
        write!(out, "='{}'", attr.value.as_str())?;
    }
    for binding in decls.as_slice() {
        tell_declaration(&binding.prefix, &binding.uri, out)?;
    }
    Ok(())
}

fn tell_first(first: &First, out: &mut String) -> Result<(), Trouble> {
    match first {
        First::Nothing => Ok(out.push_str(">- ")?),
        First::Other => Ok(out.push_str(">* ")?),
        First::Chars(text) => Ok(write!(out, ">'{}' ", text.as_str())?),
    }
}
