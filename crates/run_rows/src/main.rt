//! Rows of whole runs, from words and documents to output, note and status, over a host in memory: what comes of each is compared
//! with what is wanted.
#![tactic(auto)]

mod given;
mod ran;
mod sheets;
mod tell;
mod wanting;
mod words;

use rows::{Row, Tables, Trouble, run_rows};
use std::alloc::Global;
use std::io;
use std::process::ExitCode;

struct Runs;

impl Tables for Runs {
    fn tell(&self, alloc: Global, row: &Row, out: &mut String) -> Result<(), Trouble> {
        match row.table {
            "runs" => tell::tell_run(alloc, row, out),
            "copies" => tell::tell_copies(alloc, row, out),
            "hosts" => tell::tell_host(alloc, row, out),
            "settled" => tell::tell_settled(alloc, row, out),
            "reads" => tell::tell_reads(alloc, row, out),
            "sheets" => sheets::tell(alloc, row, out),
            "words" => words::tell(alloc, row, out),
            "wanting memory" => wanting::tell(alloc, row, out),
            _ => Err(Trouble::Row("a table that isn't there")),
        }
    }
}

fn main(rt: HostRuntime) -> io::Result<ExitCode> {
    run_rows(&rt, &Runs)
}
