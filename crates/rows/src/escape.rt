//! Backslashes in rows: `\n`, `\r`, `\t`, `\s` for a blank, `\\`, `\xHH` for a byte, `\u{H}` for a character, and `\N{TEXT}` for
//! a text that stands N times there, in which `\#` is the number of those before it.

use crate::trouble::Trouble;
use std::alloc::Global;
use std::fmt::Write;
use stx_base::Text;

/// A line with its repetitions written out. The other escapes stay.
pub fn expanded(alloc: Global, line: &str) -> Result<String, Trouble> {
    let mut out = String::new(alloc);
    let mut rest = line;
    for _ in 0..=line.len() {
        let Some((before, behind)) = rest.split_once('\\') else {
            break;
        };
        out.push_str(before)?;
        rest = expand(alloc, behind, &mut out)?;
    }
    out.push_str(rest)?;
    Ok(out)
}

/// Writes out the repetition that stands behind a backslash, or passes on what else stands there. What comes behind it.
fn expand<'a>(alloc: Global, behind: &'a str, out: &mut String) -> Result<&'a str, Trouble> {
    let Some((count, body)) = behind.split_once('{') else {
        return pass(behind, out);
    };
    let Ok(count) = count.parse::<u32>() else {
        return pass(behind, out);
    };
    let Some((body, rest)) = body.split_once('}') else {
        return Err(Trouble::Row("a repetition has no end"));
    };
    for number in 0..count {
        let number = format!(in alloc; "{number}")?;
        let copy = body.replace(alloc, "\\#", number.as_str())?;
        out.push_str(copy.as_str())?;
    }
    Ok(rest)
}

/// Passes on a backslash and the character behind it.
fn pass<'a>(behind: &'a str, out: &mut String) -> Result<&'a str, Trouble> {
    let mut chars = behind.chars();
    out.push('\\')?;
    if let Some(c) = chars.next() {
        out.push(c)?;
    }
    Ok(chars.as_str())
}

/// The bytes that a text of a row stands for.
pub fn bytes_of(alloc: Global, written: &str) -> Result<Vec<u8>, Trouble> {
    let mut out = Vec::new(alloc);
    let mut rest = written;
    for _ in 0..=written.len() {
        let Some((before, behind)) = rest.split_once('\\') else {
            break;
        };
        out.extend_from_slice(before.as_bytes())?;
        rest = escaped(alloc, behind, &mut out)?;
    }
    out.extend_from_slice(rest.as_bytes())?;
    Ok(out)
}

/// Adds what an escape stands for. What comes behind it.
fn escaped<'a>(alloc: Global, behind: &'a str, out: &mut Vec<u8>) -> Result<&'a str, Trouble> {
    if let Some(code) = behind.strip_prefix("u{") {
        return character(alloc, code, out);
    }
    let mut chars = behind.chars();
    match chars.next() {
        Some('n') => out.push(b'\n')?,
        Some('r') => out.push(b'\r')?,
        Some('t') => out.push(b'\t')?,
        Some('s') => out.push(b' ')?,
        Some('\\') => out.push(b'\\')?,
        Some('x') => {
            let high = digit(chars.next())?;
            let low = digit(chars.next())?;
            out.push(high.wrapping_mul(16).wrapping_add(low))?;
        }
        _ => return Err(Trouble::Row("a backslash with nothing known behind it")),
    }
    Ok(chars.as_str())
}

fn digit(c: Option<char>) -> Result<u8, Trouble> {
    let value = match c {
        Some(c) => c.to_digit(16),
        None => None,
    };
    match value.map(u8::try_from) {
        Some(Ok(value)) => Ok(value),
        _ => Err(Trouble::Row("a byte without its two digits")),
    }
}

fn character<'a>(alloc: Global, code: &'a str, out: &mut Vec<u8>) -> Result<&'a str, Trouble> {
    let Some((digits, rest)) = code.split_once('}') else {
        return Err(Trouble::Row("a character's number has no end"));
    };
    let Ok(number) = u32::from_str_radix(digits, 16) else {
        return Err(Trouble::Row("a character without its number"));
    };
    let Some(c) = char::from_u32(number) else {
        return Err(Trouble::Row("a number that no character has"));
    };
    let mut text = String::new(alloc);
    text.push(c)?;
    out.extend_from_slice(text.as_bytes())?;
    Ok(rest)
}

/// The same where the bytes are text.
pub fn string_of(alloc: Global, written: &str) -> Result<String, Trouble> {
    let bytes = bytes_of(alloc, written)?;
    match std::str::from_utf8(bytes.as_slice()) {
        Ok(text) => Ok(String::from_str(alloc, text)?),
        Err(_) => Err(Trouble::Row("bytes that are no text")),
    }
}

/// The same as a `Text`.
pub fn text_of(alloc: Global, written: &str) -> Result<Text, Trouble> {
    Ok(Text::from_string(string_of(alloc, written)?))
}

/// A text as a row writes it.
pub fn written(alloc: Global, text: &str) -> Result<String, Trouble> {
    let mut out = String::new(alloc);
    for c in text.chars() {
        match c {
            '\n' => out.push_str("\\n")?,
            '\r' => out.push_str("\\r")?,
            '\t' => out.push_str("\\t")?,
            '\\' => out.push_str("\\\\")?,
            c if c < ' ' => write!(out, "\\x{:02X}", u32::from(c))?,
            c => out.push(c)?,
        }
    }
    Ok(out)
}
