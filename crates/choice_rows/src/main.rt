//! Rows of choices: of which template is chosen for a node, by the scope of a sheet and by looking at all its templates.
#![tactic(auto)]

mod choices;
mod parts;
mod sheet;

use rows::{Row, Tables, Trouble, run_rows};
use std::alloc::Global;
use std::io;
use std::process::ExitCode;

struct ChoiceRows;

impl Tables for ChoiceRows {
    fn tell(&self, alloc: Global, row: &Row, out: &mut String) -> Result<(), Trouble> {
        match row.table {
            "choices" => choices::tell(alloc, row, out),
            _ => Err(Trouble::Row("a table that isn't there")),
        }
    }
}

fn main(rt: HostRuntime) -> io::Result<ExitCode> {
    run_rows(&rt, &ChoiceRows)
}
