ghost use Rattle.std.specs.Prelude.{◌≡◌, false};

use crate::reading::Reads;
use rows::{Row, Trouble};
use std::alloc::Global;
use std::fmt::Write;
use stx_base::{Limits, List, Spare, Text, XmlFault};
use xml_tokens::{Body, Ending, Lexeme, Lexer, RawAttr, Run, Step, lex};

/// Tells lexemes in one of the ways that there are.
pub trait Drains {
    /// Tells the answers up to the first that is repeated. Whether the lexer is over.
    fn drain(
        lexer: &mut Lexer,
        row: &Row,
        out: &mut String,
        spare: &mut Spare,
    ) -> Result<bool, Trouble>
        ensures { lexer.new.ended ≡ lexer.old.ended };
}

// The lexer's contract says all of a document; these say what the rows need, which is quicker to prove from.

fn begun(alloc: Global, limits: Limits) -> Lexer
    ensures { result.ended ≡ false }
{
    Lexer::new(alloc, limits)
}

fn feed(lexer: &mut Lexer, piece: &[u8]) -> Result<(), Trouble>
    requires { lexer.old.ended ≡ false }
    ensures { lexer.new.ended ≡ false }
{
    Ok(lexer.feed(piece)?)
}

fn finish(lexer: &mut Lexer) {
    lexer.finish();
}

pub fn answer(lexer: &mut Lexer, spare: &mut Spare) -> Step
    ensures { lexer.new.ended ≡ lexer.old.ended }
{
    lexer.next(spare)
}

/// Tells the answers behind a document's next bytes. Whether the lexer is over.
fn take<D: Drains>(
    lexer: &mut Lexer,
    row: &Row,
    piece: &[u8],
    out: &mut String,
    spare: &mut Spare,
) -> Result<bool, Trouble>
    requires { lexer.old.ended ≡ false }
    ensures { lexer.new.ended ≡ false }
{
    feed(lexer, piece)?;
    D::drain(lexer, row, out, spare)
}

/// Tells the answers on the pieces up to the first that is repeated, with `? ` where more bytes must come if `marked`.
pub fn tell<D: Drains>(
    alloc: Global,
    row: &Row,
    pieces: &[&[u8]],
    marked: bool,
    out: &mut String,
) -> Result<(), Trouble> {
    let mut lexer = begun(alloc, row.limits()?);
    let mut spare = Spare::new(alloc);
    let told = tell_pieces::<D>(&mut lexer, row, pieces, marked, out, &mut spare);
    drop(lexer);
    drop(spare);
    told
}

fn tell_pieces<D: Drains>(
    lexer: &mut Lexer,
    row: &Row,
    pieces: &[&[u8]],
    marked: bool,
    out: &mut String,
    spare: &mut Spare,
) -> Result<(), Trouble>
    requires { lexer.old.ended ≡ false }
{
    for piece in pieces {
        if take::<D>(lexer, row, piece, out, spare)? {
            return Ok(());
        }
        if marked {
            out.push_str("? ")?;
        }
    }
    finish(lexer);
    D::drain(lexer, row, out, spare)?;
    Ok(())
}

pub struct Lexemes;

impl Drains for Lexemes {
    fn drain(
        lexer: &mut Lexer,
        _row: &Row,
        out: &mut String,
        spare: &mut Spare,
    ) -> Result<bool, Trouble> {
        for _ in 0..u64::MAX {
            if let Some(over) = tell_step(answer(lexer, spare), out, spare)? {
                return Ok(over);
            }
        }
        Ok(true)
    }
}

impl Reads for Lexemes {
    fn tell(
        alloc: Global,
        row: &Row,
        pieces: &[&[u8]],
        marked: bool,
        out: &mut String,
    ) -> Result<(), Trouble> {
        tell::<Lexemes>(alloc, row, pieces, marked, out)
    }

    fn tell_again(
        alloc: Global,
        row: &Row,
        document: &[u8],
        out: &mut String,
    ) -> Result<(), Trouble> {
        let mut lexer = begun(alloc, row.limits()?);
        let mut spare = Spare::new(alloc);
        let told = tell_document_again(&mut lexer, row, document, out, &mut spare);
        drop(lexer);
        drop(spare);
        told
    }
}

fn tell_document_again(
    lexer: &mut Lexer,
    row: &Row,
    document: &[u8],
    out: &mut String,
    spare: &mut Spare,
) -> Result<(), Trouble>
    requires { lexer.old.ended ≡ false }
{
    take::<Lexemes>(lexer, row, document, out, spare)?;
    out.push_str("; ")?;
    take::<Lexemes>(lexer, row, b"", out, spare)?;
    out.push_str("; ")?;
    take::<Lexemes>(lexer, row, b"<a/>", out, spare)?;
    out.push_str("; ")?;
    finish(lexer);
    Lexemes::drain(lexer, row, out, spare)?;
    Ok(())
}

/// Tells an answer. None where another may be asked for, else whether the lexer is over.
fn tell_step(step: Step, out: &mut String, spare: &mut Spare) -> Result<Option<bool>, Trouble> {
    match step {
        Step::Lexeme(lexeme) => {
            let told = tell_lexeme(&lexeme, out);
            give_back(lexeme.body, spare);
            match told {
                Ok(()) => Ok(None),
                Err(trouble) => Err(trouble),
            }
        }
        Step::Need => Ok(Some(false)),
        Step::End => tell_over(out),
        Step::Bad(fault) => {
            tell_fault(fault, out)?;
            Ok(Some(true))
        }
        Step::Memory => Err(Trouble::Memory),
    }
}

fn tell_lexeme(lexeme: &Lexeme, out: &mut String) -> Result<(), Trouble> {
    write!(out, "{}", lexeme.offset)?;
    tell_body(&lexeme.body, out)
}

pub fn tell_over(out: &mut String) -> Result<Option<bool>, Trouble> {
    out.push_str("end")?;
    Ok(Some(true))
}

/// Tells all at a document's end, where nothing is asked before, and then once more.
pub fn tell_at_end<D: Drains>(
    alloc: Global,
    row: &Row,
    document: &[u8],
    out: &mut String,
) -> Result<(), Trouble> {
    let mut lexer = begun(alloc, row.limits()?);
    let mut spare = Spare::new(alloc);
    let told = tell_last::<D>(&mut lexer, row, document, out, &mut spare);
    drop(lexer);
    drop(spare);
    told
}

fn tell_last<D: Drains>(
    lexer: &mut Lexer,
    row: &Row,
    document: &[u8],
    out: &mut String,
    spare: &mut Spare,
) -> Result<(), Trouble>
    requires { lexer.old.ended ≡ false }
{
    feed(lexer, document)?;
    finish(lexer);
    D::drain(lexer, row, out, spare)?;
    out.push_str("; ")?;
    D::drain(lexer, row, out, spare)?;
    Ok(())
}

pub fn tell_fault(fault: XmlFault, out: &mut String) -> Result<(), Trouble> {
    let kind = fault.kind;
    Ok(write!(out, "{kind:?} at {}", fault.offset)?)
}

/// Lets the next lexemes be made of this one's texts.
fn give_back(body: Body, spare: &mut Spare) {
    match body {
        Body::Chars { text, .. } | Body::CData { text } | Body::Comment { text } => {
            spare.keep(text);
        }
        Body::End { name } => spare.keep(name),
        Body::Pi { target, text } => {
            spare.keep(target);
            spare.keep(text);
        }
        Body::Start { name, attrs, .. } => {
            spare.keep(name);
            for attr in attrs.into_vec() {
                let RawAttr { name, value } = attr;
                spare.keep(name);
                spare.keep(value);
            }
        }
        Body::Doctype | Body::Declaration => {}
    }
}

fn tell_body(body: &Body, out: &mut String) -> Result<(), Trouble> {
    match body {
        Body::Chars { text, blank } => {
            let mark = if *blank { "~" } else { "" };
            Ok(write!(out, "[{}{mark}] ", text.as_str())?)
        }
        Body::End { name } => Ok(write!(out, "</{}> ", name.as_str())?),
        Body::CData { text } => tell_text("cdata", text, out),
        Body::Comment { text } => tell_text("comment", text, out),
        Body::Pi { target, text } => tell_instruction(target, text, out),
        Body::Doctype => Ok(out.push_str("doctype ")?),
        Body::Declaration => Ok(out.push_str("declaration ")?),
        Body::Start { name, attrs, empty } => tell_start(name, attrs, *empty, out),
    }
}

fn tell_text(kind: &str, text: &Text, out: &mut String) -> Result<(), Trouble> {
    Ok(write!(out, "{kind}[{}] ", text.as_str())?)
}

fn tell_instruction(target: &Text, text: &Text, out: &mut String) -> Result<(), Trouble> {
    Ok(write!(out, "pi[{}|{}] ", target.as_str(), text.as_str())?)
}

fn tell_start(
    name: &Text,
    attrs: &List<RawAttr>,
    empty: bool,
    out: &mut String,
) -> Result<(), Trouble> {
    write!(out, "<{}", name.as_str())?;
    for attr in attrs.as_slice() {
        write!(out, " {}='{}'", attr.name.as_str(), attr.value.as_str())?;
    }
    Ok(out.push_str(if empty { "/> " } else { "> " })?)
}

/// How many lexemes a document has, cut into pieces of one byte, and what ends them.
pub fn tell_run(alloc: Global, row: &Row, out: &mut String) -> Result<(), Trouble> {
    let limits = row.limits()?;
    let run = run_of(alloc, limits, row.bytes(alloc)?.as_slice())?;
    let told = tell_ending(&run, out);
    drop(run);
    told
}

fn run_of(alloc: Global, limits: Limits, document: &[u8]) -> Result<Run, Trouble> {
    let pieces = bytes_apart(alloc, document)?;
    Ok(lex(alloc, limits, &pieces)?)
}

fn bytes_apart(alloc: Global, document: &[u8]) -> Result<Vec<Vec<u8>>, Trouble> {
    let mut pieces = Vec::new(alloc);
    for byte in document {
        pieces.push(Vec::from_slice(alloc, &[*byte])?)?;
    }
    Ok(pieces)
}

fn tell_ending(run: &Run, out: &mut String) -> Result<(), Trouble> {
    write!(out, "{} ", run.lexemes.len())?;
    match run.ending {
        Ending::End => Ok(out.push_str("end")?),
        Ending::Bad(fault) => tell_fault(fault, out),
        Ending::Memory => Err(Trouble::Memory),
    }
}
