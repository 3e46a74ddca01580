//! End tags of a known name, which are taken without a lexeme: the place of each lexeme, with `!` where it is such an end tag
//! and with the name where it is another end tag.

ghost use Rattle.std.specs.Prelude.{◌≡◌};

use crate::lexemes::{Drains, answer, tell, tell_at_end, tell_fault, tell_over};
use crate::reading::Reads;
use rows::{Row, Trouble};
use std::alloc::Global;
use std::fmt::Write;
use stx_base::{Spare, is_name};
use xml_tokens::{Body, Lexeme, Lexer, Step};

pub struct Ends;

impl Reads for Ends {
    fn tell(
        alloc: Global,
        row: &Row,
        pieces: &[&[u8]],
        marked: bool,
        out: &mut String,
    ) -> Result<(), Trouble> {
        tell::<Ends>(alloc, row, pieces, marked, out)
    }

    /// Nothing is asked before the end.
    fn tell_again(
        alloc: Global,
        row: &Row,
        document: &[u8],
        out: &mut String,
    ) -> Result<(), Trouble> {
        tell_at_end::<Ends>(alloc, row, document, out)
    }
}

impl Drains for Ends {
    fn drain(
        lexer: &mut Lexer,
        row: &Row,
        out: &mut String,
        spare: &mut Spare,
    ) -> Result<bool, Trouble> {
        let name = row.setting("name").unwrap_or("");
        for _ in 0..u64::MAX {
            if let Some(offset) = taken(lexer, name) {
                tell_end(offset, out)?;
            } else if let Some(over) = tell_answer(lexer, out, spare)? {
                return Ok(over);
            }
        }
        Ok(true)
    }
}

/// Tells the next answer. None where another may be asked for, else whether the lexer is over.
fn tell_answer(
    lexer: &mut Lexer,
    out: &mut String,
    spare: &mut Spare,
) -> Result<Option<bool>, Trouble>
    ensures { lexer.new.ended ≡ lexer.old.ended }
{
    let step = answer(lexer, spare);
    let told = tell_step(&step, out);
    drop(step);
    told
}

fn taken(lexer: &mut Lexer, name: &str) -> Option<u64>
    ensures { lexer.new.ended ≡ lexer.old.ended }
{
    if is_name(name) {
        lexer.take_end(name)
    } else {
        None
    }
}

fn tell_end(offset: u64, out: &mut String) -> Result<(), Trouble> {
    Ok(write!(out, "{offset}! ")?)
}

fn tell_lexeme(lexeme: &Lexeme, out: &mut String) -> Result<(), Trouble> {
    write!(out, "{}", lexeme.offset)?;
    if let Body::End { name } = &lexeme.body {
        write!(out, "</{}>", name.as_str())?;
    }
    out.push_str(" ")?;
    Ok(())
}

fn tell_step(step: &Step, out: &mut String) -> Result<Option<bool>, Trouble> {
    match step {
        Step::Lexeme(lexeme) => {
            tell_lexeme(lexeme, out)?;
            Ok(None)
        }
        Step::Need => Ok(Some(false)),
        Step::End => tell_over(out),
        Step::Bad(fault) => {
            tell_fault(*fault, out)?;
            Ok(Some(true))
        }
        Step::Memory => Err(Trouble::Memory),
    }
}
