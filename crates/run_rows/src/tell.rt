//! What is told of runs: what was written behind the head, and behind ` !! ` the status and the note.

use crate::given::{Given, set_faults};
use crate::ran::{Ran, text};
use rows::{Row, Trouble, bytes_of, string_of};
use std::alloc::Global;
use std::fmt::Write;

fn told(alloc: Global, row: &Row, given: &Given) -> Result<String, Trouble> {
    let ran = given.run(alloc, row)?;
    let mut told = String::new(alloc);
    ran.tell_out(alloc, row, &mut told)?;
    ran.tell_end(&mut told)?;
    Ok(told)
}

/// A document under these words.
fn told_twice(alloc: Global, row: &Row, words: &str, main: Vec<u8>) -> Result<String, Trouble> {
    let mut given = Given::of(alloc, row, main)?;
    given.words = String::from_str(alloc, words)?;
    told_of_both(alloc, row, &mut given)
}

/// What comes of the main document as a whole, and of its single bytes where that is something else.
pub fn told_of_both(alloc: Global, row: &Row, given: &mut Given) -> Result<String, Trouble> {
    let mut whole = told(alloc, row, given)?;
    given.in_bytes = true;
    let parted = told(alloc, row, given)?;
    if parted.as_str() != whole.as_str() {
        write!(&mut whole, ", but of single bytes {parted}")?;
    }
    Ok(whole)
}

pub fn tell_run(alloc: Global, row: &Row, out: &mut String) -> Result<(), Trouble> {
    let words = row.setting("words").unwrap_or("");
    let told = told_twice(alloc, row, words, row.bytes(alloc)?)?;
    Ok(out.push_str(told.as_str())?)
}

/// A document under the sheets `all.stx`, `text.stx` and `none.stx`: all, and behind ` || ` the text, with one end of the three.
pub fn tell_copies(alloc: Global, row: &Row, out: &mut String) -> Result<(), Trouble> {
    let all = told_twice(alloc, row, "all.stx", row.bytes(alloc)?)?;
    let texts = told_twice(alloc, row, "text.stx", row.bytes(alloc)?)?;
    let none = told_twice(alloc, row, "none.stx", row.bytes(alloc)?)?;
    join(out, content(all.as_str()))?;
    join(out, "||")?;
    join(out, texts.as_str())?;
    if !texts.ends_with(none.as_str()) || !all.ends_with(none.as_str()) {
        write!(out, ", but {all} and {none}")?;
    }
    if none.is_empty() {
        tell_copied_again(alloc, row, all.as_str(), out)?;
    }
    Ok(())
}

/// Adds a text that may be empty, behind a blank where something stands before it.
fn join(out: &mut String, text: &str) -> Result<(), Trouble> {
    if !out.is_empty() && !text.is_empty() {
        out.push(' ')?;
    }
    Ok(out.push_str(text)?)
}

fn content(told: &str) -> &str {
    match told.split_once("!! ") {
        Some((content, _)) => content.strip_suffix(' ').unwrap_or(content),
        None => told,
    }
}

/// What was copied, copied again, is the same bytes.
fn tell_copied_again(alloc: Global, row: &Row, all: &str, out: &mut String) -> Result<(), Trouble> {
    let head = string_of(alloc, row.setting("head").unwrap_or(""))?;
    let copy = format!(in alloc; "{head}{all}")?;
    let main = Vec::from_slice(alloc, copy.as_bytes())?;
    let again = told_twice(alloc, row, "all.stx", main)?;
    if again.as_str() != all {
        write!(out, ", but copied again {again}")?;
    }
    Ok(())
}

/// A run on `: main` where calls fail, with the names that were opened and the number of reads of the main document.
pub fn tell_host(alloc: Global, row: &Row, out: &mut String) -> Result<(), Trouble> {
    let main = bytes_of(alloc, row.setting("main").unwrap_or(""))?;
    let mut given = Given::of(alloc, row, main)?;
    given.in_bytes = row.is_set("bytes");
    set_faults(&mut given, row.given)?;
    let ran = given.run(alloc, row)?;
    ran.tell_opened(out)?;
    write!(out, "{} reads: ", ran.reads(alloc)?.len())?;
    ran.tell_out(alloc, row, out)?;
    ran.tell_end(out)
}

/// How many bytes each read of the main document gave.
pub fn tell_reads(alloc: Global, row: &Row, out: &mut String) -> Result<(), Trouble> {
    let ran = Given::of(alloc, row, row.bytes(alloc)?)?.run(alloc, row)?;
    for read in &ran.reads(alloc)? {
        let gap = if out.is_empty() { "" } else { " " };
        write!(out, "{gap}{read}")?;
    }
    ran.tell_end(out)
}

/// A document whose pieces end with bars, read one byte at a time. What is written once a piece is read, and before the next read,
/// has a bar behind it; what is written earlier is told in brackets.
pub fn tell_settled(alloc: Global, row: &Row, out: &mut String) -> Result<(), Trouble> {
    let mut ends = Vec::new(alloc);
    let mut main = Vec::new(alloc);
    for piece in row.given.strip_suffix('|').unwrap_or(row.given).split('|') {
        main.extend_from_slice(bytes_of(alloc, piece)?.as_slice())?;
        ends.push(main.len())?;
    }
    let mut given = Given::of(alloc, row, main)?;
    given.in_bytes = true;
    let ran = given.run(alloc, row)?;
    tell_parts(alloc, row, &ran, ends.as_slice(), out)?;
    ran.tell_end(out)
}

fn tell_parts(
    alloc: Global,
    row: &Row,
    ran: &Ran,
    ends: &[usize],
    out: &mut String,
) -> Result<(), Trouble> {
    let head = string_of(alloc, row.setting("head").unwrap_or(""))?;
    let told = text(ran.host.out.as_slice());
    let mut from = head.len();
    for (read, taken) in ran.taken(alloc)?.iter().enumerate() {
        let part = told.get(from..*taken).unwrap_or("what isn't there");
        from = *taken;
        if ends.contains(&read) {
            write!(out, "{part}|")?;
        } else if !part.is_empty() {
            write!(out, "[{part}]")?;
        }
    }
    Ok(())
}
