//! Rows of sheets: whether each is accepted, or its first fault, and the names of the files that are opened; the code of those that are accepted, and
//! the sibling regions that nodes end.
#![tactic(auto)]

mod code;
mod frames;
mod given;
mod nodes;
mod regions;
mod told;

use rows::{Row, Tables, Trouble, run_rows};
use std::alloc::Global;
use std::io;
use std::process::ExitCode;

struct LoadRows;

impl Tables for LoadRows {
    fn tell(&self, alloc: Global, row: &Row, out: &mut String) -> Result<(), Trouble> {
        match row.table {
            "loads" => told::tell(alloc, row, out),
            "code" => code::tell(alloc, row, out),
            "regions" => regions::tell(alloc, row, out),
            _ => Err(Trouble::Row("a table that isn't there")),
        }
    }
}

fn main(rt: HostRuntime) -> io::Result<ExitCode> {
    run_rows(&rt, &LoadRows)
}
