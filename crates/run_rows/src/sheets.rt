//! What comes of runs of sheets, each given by its row.

use crate::given::Given;
use crate::tell::told_of_both;
use rows::{Row, Trouble, bytes_of, string_of};
use std::alloc::Global;

/// A run of the sheet, as `s.stx`, on `: main`: what was written behind the head, and behind ` !! ` the status and the note.
pub fn tell(alloc: Global, row: &Row, out: &mut String) -> Result<(), Trouble> {
    let main = bytes_of(alloc, row.setting("main").unwrap_or(""))?;
    let mut given = Given::of(alloc, row, main)?;
    given.sheet = Some(row.bytes(alloc)?);
    given.words = string_of(alloc, row.setting("words").unwrap_or("s.stx"))?;
    let told = told_of_both(alloc, row, &mut given)?;
    Ok(out.push_str(told.as_str())?)
}
