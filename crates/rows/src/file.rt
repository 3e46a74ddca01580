//! A file of rows, line by line. `: KEY VALUE` sets something for the rows beneath, `== TABLE` begins a table, `# ..` is a
//! comment, and every other line is a row.

use crate::escape::{bytes_of, expanded};
use crate::trouble::Trouble;
use std::alloc::Global;
use stx_base::Limits;

/// What is set for the rows beneath, as it is written.
#[derive(Drop)]
pub struct Setting {
    pub key: String,
    pub value: String,
}

/// A row, and what holds for it.
#[derive(Clone, Copy)]
pub struct Row<'a> {
    pub table: &'a str,
    /// Those above the first table, and then those of the row's table.
    pub settings: &'a [Setting],
    /// What is given, as it is written.
    pub given: &'a str,
}

impl Row<'_> {
    /// The last value that is set under a key.
    pub fn setting(&self, key: &str) -> Option<&str> {
        let mut found = None;
        for setting in self.settings {
            if setting.key.as_str() == key {
                found = Some(setting.value.as_str());
            }
        }
        found
    }

    pub fn is_set(&self, key: &str) -> bool {
        self.setting(key).is_some()
    }

    /// A number that is set, or else the one at hand.
    pub fn number(&self, key: &str, otherwise: u64) -> Result<u64, Trouble> {
        let Some(value) = self.setting(key) else {
            return Ok(otherwise);
        };
        match value.parse::<u64>() {
            Ok(number) => Ok(number),
            Err(_) => Err(Trouble::Row("a setting that is no number")),
        }
    }

    fn short(&self, key: &str, otherwise: u32) -> Result<u32, Trouble> {
        match u32::try_from(self.number(key, u64::from(otherwise))?) {
            Ok(number) => Ok(number),
            Err(_) => Err(Trouble::Row("a setting that is too great")),
        }
    }

    /// The standard limits, but for those that are set.
    pub fn limits(&self) -> Result<Limits, Trouble> {
        let standard = Limits::standard();
        Ok(Limits {
            lexeme: self.number("lexeme", standard.lexeme)?,
            text: self.number("text", standard.text)?,
            depth: self.short("depth", standard.depth)?,
            sequence: self.short("sequence", standard.sequence)?,
            elements: self.short("elements", standard.elements)?,
            input: self.number("input", standard.input)?,
            ..standard
        })
    }

    /// What is given.
    pub fn bytes(&self, alloc: Global) -> Result<Vec<u8>, Trouble> {
        bytes_of(alloc, self.given)
    }
}

/// A line of a file, and its number.
#[derive(Drop)]
pub struct Line {
    pub number: u64,
    pub text: String,
}

/// The lines of a file without comments and empty ones. A line that begins with a blank goes on with the one before it.
pub fn lines(alloc: Global, file: &str) -> Result<Vec<Line>, Trouble> {
    let mut lines: Vec<Line> = Vec::new(alloc);
    let mut number = 0u64;
    for text in file.lines() {
        number = number.saturating_add(1);
        if text.is_empty() || text == "#" || text.starts_with("# ") {
            continue;
        }
        match (text.strip_prefix(' '), lines.last_mut()) {
            (Some(more), Some(last)) => {
                last.text.push('\n')?;
                last.text.push_str(more)?;
            }
            _ => lines.push(make_line(alloc, number, text)?)?,
        }
    }
    Ok(lines)
}

fn make_line(alloc: Global, number: u64, text: &str) -> Result<Line, Trouble> {
    let text = String::from_str(alloc, text)?;
    Ok(Line { number, text })
}

/// What a line is, with its repetitions written out.
#[derive(Drop)]
pub enum Entry {
    Table(String),
    Set(Setting),
    Row(String),
}

impl Line {
    pub fn entry(&self, alloc: Global) -> Result<Entry, Trouble> {
        let text = expanded(alloc, self.text.as_str())?;
        if let Some(table) = text.strip_prefix("== ") {
            return Ok(Entry::Table(String::from_str(alloc, table)?));
        }
        if let Some(setting) = text.strip_prefix(": ") {
            let (key, value) = setting.split_once(' ').unwrap_or((setting, ""));
            let key = String::from_str(alloc, key)?;
            let value = String::from_str(alloc, value)?;
            return Ok(Entry::Set(Setting { key, value }));
        }
        Ok(Entry::Row(text))
    }
}

/// The two sides of `GIVEN => WANTED`, either of which may be empty. None where nothing is said to be wanted.
pub fn sides(text: &str) -> (&str, Option<&str>) {
    if let Some(wanted) = text.strip_prefix("=>") {
        return ("", Some(wanted.strip_prefix(' ').unwrap_or(wanted)));
    }
    match text.split_once(" =>") {
        Some((given, wanted)) => (given, Some(wanted.strip_prefix(' ').unwrap_or(wanted))),
        None => (text, None),
    }
}
