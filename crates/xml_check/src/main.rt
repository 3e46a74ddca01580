//! Writes the lexemes of documents, for a check beside another parser: each document on standard input ends with a NUL.
//!
//! A lexeme is its form and its texts, each behind U+001F, and ends with U+001E; behind a document's lexemes stand what ends
//! them and U+001D. None of these is a Char, so no text holds them.
#![tactic(auto)]

use std::alloc::Global;
use std::io;
use std::io::{BufRead, BufReader, BufWriter, Write};
use stx_base::Limits;
use xml_tokens::{Body, Ending, Run, lex};

fn main(rt: HostRuntime) -> io::Result<()> {
    let alloc = rt.alloc();
    let mut out = BufWriter::new(alloc, rt.stdout())?;
    for document in BufReader::new(alloc, rt.stdin())?.split(alloc, 0) {
        report(alloc, document?, &mut out)?;
    }
    out.flush()
}

fn report<W: Write>(alloc: Global, document: Vec<u8>, out: &mut W) -> io::Result<()> {
    match lex(alloc, Limits::standard(), &[document]) {
        Ok(run) => write_run(&run, out),
        Err(_) => out.write_all(b"memory\x1D"),
    }
}

fn write_run<W: Write>(run: &Run, out: &mut W) -> io::Result<()> {
    for lexeme in run.lexemes.as_slice() {
        write_body(&lexeme.body, out)?;
        out.write_all(b"\x1E")?;
    }
    match run.ending {
        Ending::End => out.write_all(b"end")?,
        Ending::Bad(fault) => {
            let kind = fault.kind;
            write!(out, "{kind:?}")?;
        }
        Ending::Memory => out.write_all(b"memory")?,
    }
    out.write_all(b"\x1D")
}

fn write_body<W: Write>(body: &Body, out: &mut W) -> io::Result<()> {
    match body {
        Body::Chars { text, blank } => {
            let form = if *blank { "space" } else { "text" };
            write!(out, "{form}\x1F{}", text.as_str())
        }
        Body::CData { text } => write!(out, "cdata\x1F{}", text.as_str()),
        Body::Start { name, attrs, empty } => {
            let form = if *empty { "empty" } else { "start" };
            write!(out, "{form}\x1F{}", name.as_str())?;
            for attr in attrs.as_slice() {
                write!(out, "\x1F{}\x1F{}", attr.name.as_str(), attr.value.as_str())?;
            }
            Ok(())
        }
        Body::End { name } => write!(out, "end\x1F{}", name.as_str()),
        Body::Comment { text } => write!(out, "comment\x1F{}", text.as_str()),
        Body::Pi { target, text } => write!(out, "pi\x1F{}\x1F{}", target.as_str(), text.as_str()),
        Body::Doctype => out.write_all(b"doctype"),
        Body::Declaration => out.write_all(b"declaration"),
    }
}
