//! Rows of lexemes, names, events, results and buffers: what comes of each is compared with what is wanted.
#![tactic(auto)]

mod buffers;
mod ends;
mod events;
mod lexemes;
mod names;
mod reading;
mod writer;

use reading::{tell_again, tell_cuts, tell_pieces};
use rows::{Row, Tables, Trouble, run_rows};
use std::alloc::Global;
use std::io;
use std::process::ExitCode;

struct Xml;

impl Tables for Xml {
    fn tell(&self, alloc: Global, row: &Row, out: &mut String) -> Result<(), Trouble> {
        match row.table {
            "lexemes" => tell_cuts::<lexemes::Lexemes>(alloc, row, out),
            "lexemes of pieces" => tell_pieces::<lexemes::Lexemes>(alloc, row, out),
            "last lexemes" => tell_again::<lexemes::Lexemes>(alloc, row, out),
            "runs of lexemes" => lexemes::tell_run(alloc, row, out),
            "ends of pieces" => tell_pieces::<ends::Ends>(alloc, row, out),
            "last ends" => tell_again::<ends::Ends>(alloc, row, out),
            "names" => names::tell(alloc, row, out),
            "events" => tell_cuts::<events::Events>(alloc, row, out),
            "events of pieces" => tell_pieces::<events::Events>(alloc, row, out),
            "last events" => tell_again::<events::Events>(alloc, row, out),
            "results" => writer::tell(alloc, row, out),
            "settled" => writer::tell_settled(alloc, row, out),
            "settled tags" => writer::judged::tell_settled_tags(alloc, row, out),
            "at once" => writer::tell_at_once(alloc, row, out),
            "buffers" => buffers::tell(alloc, row, out),
            "characters" => writer::tell_character(alloc, row, out),
            _ => Err(Trouble::Row("a table that isn't there")),
        }
    }
}

fn main(rt: HostRuntime) -> io::Result<ExitCode> {
    run_rows(&rt, &Xml)
}
