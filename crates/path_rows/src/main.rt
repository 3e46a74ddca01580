//! Rows of values, texts of the path language, paths and evaluations: what comes of each is compared with what is wanted.
#![tactic(auto)]

mod evaluation;
mod items;
mod nodes;
mod paths;
mod patterns;
mod show;
mod syntax;
mod values;
mod variables;

use rows::{Row, Tables, Trouble, run_rows};
use std::alloc::Global;
use std::io;
use std::process::ExitCode;
pub use variables::{Variable, Variables};

struct PathRows;

impl Tables for PathRows {
    fn tell(&self, alloc: Global, row: &Row, out: &mut String) -> Result<(), Trouble> {
        match row.table {
            "texts" => values::tell_text(alloc, row, out),
            "whole numbers" => values::tell_whole(alloc, row, out),
            "truths" => values::tell_truth(alloc, row, out),
            "operations" => values::tell_operation(alloc, row, out),
            "comparisons" => values::tell_comparisons(alloc, row, out),
            "calls" => values::tell_call(alloc, row, out),
            "copies" => values::tell_copy(alloc, row, out),
            "expressions" => syntax::tell_expression(alloc, row, out),
            "patterns" => syntax::tell_pattern(alloc, row, out),
            "templates" => syntax::tell_template(alloc, row, out),
            "printed expressions" => syntax::tell_printed(alloc, row, out),
            "nodes" => nodes::tell(alloc, row, out),
            "evaluations" => evaluation::tell(alloc, row, out),
            "string values" => evaluation::tell_texts(alloc, row, out),
            "fits" => patterns::tell_fit(alloc, row, out),
            "priorities" => patterns::tell_priorities(alloc, row, out),
            _ => Err(Trouble::Row("a table that isn't there")),
        }
    }
}

fn main(rt: HostRuntime) -> io::Result<ExitCode> {
    run_rows(&rt, &PathRows)
}
