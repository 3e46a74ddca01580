//! What words ask for: the sheet and, each behind a bar, the parameters, the limits that aren't the standard ones, and what is to be
//! done where it is no plain run.

use crate::given::words_of;
use command_words::{Command, Mode, WordsFault, read_words};
use rows::{Row, Trouble};
use std::alloc::Global;
use std::fmt::Write;
use stx_base::{Limits, Memory};

/// Words, parted by blanks.
pub fn tell(alloc: Global, row: &Row, out: &mut String) -> Result<(), Trouble> {
    let words = words_of(alloc, row.given)?;
    match read_words(alloc, words.as_slice()) {
        Ok(command) => tell_command(&command, out),
        Err(WordsFault::Usage) => Ok(out.push_str("refused")?),
        Err(WordsFault::Memory) => Err(Trouble::from(Memory)),
    }
}

fn tell_command(command: &Command, out: &mut String) -> Result<(), Trouble> {
    out.push_str(command.sheet.as_str())?;
    for param in command.params.as_slice() {
        let (name, value) = (param.name.as_str(), param.value.as_str());
        write!(out, " | {name}={value}")?;
    }
    tell_limits(command.limits, out)?;
    match command.mode {
        Mode::Run => Ok(()),
        Mode::Check => Ok(out.push_str(" | check")?),
        Mode::Sample(records) => Ok(write!(out, " | sample {records}")?),
    }
}

fn tell_limits(limits: Limits, out: &mut String) -> Result<(), Trouble> {
    let standard = Limits::standard();
    if limits.fuel != standard.fuel {
        write!(out, " | fuel {}", limits.fuel)?;
    }
    if limits.lexeme != standard.lexeme {
        write!(out, " | lexeme {}", limits.lexeme)?;
    }
    if limits.instances != standard.instances {
        write!(out, " | instances {}", limits.instances)?;
    }
    Ok(())
}
