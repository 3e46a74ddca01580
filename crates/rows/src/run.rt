use crate::case::{Case, cases};
use crate::escape::{string_of, written};
use crate::file::{Entry, Line, Row, Setting, lines};
use crate::trouble::Trouble;
use std::alloc::Global;
use std::env::Env;
use std::io::ErrorKind;
use std::process::ExitCode;
use std::rt::Files;
use std::{env, fs, io};

/// What a program tells of rows.
pub trait Tables {
    /// Tells what comes of a row.
    fn tell(&self, alloc: Global, row: &Row, out: &mut String) -> Result<(), Trouble>;
}

/// How many rows came as they are wanted, and how many didn't.
#[derive(Clone, Copy)]
struct Counts {
    passed: u64,
    failed: u64,
}

impl Counts {
    fn none() -> Counts {
        Counts {
            passed: 0,
            failed: 0,
        }
    }

    fn add(&mut self, other: Counts) {
        self.passed = self.passed.saturating_add(other.passed);
        self.failed = self.failed.saturating_add(other.failed);
    }
}

/// What holds at a line of a file.
#[derive(Drop)]
struct State {
    table: String,
    settings: Vec<Setting>,
    /// How many of the settings stand above the first table.
    shared: Option<usize>,
}

impl State {
    fn new(alloc: Global) -> State {
        State {
            table: String::new(alloc),
            settings: Vec::new(alloc),
            shared: None,
        }
    }

    fn begin(&mut self, table: String) {
        let shared = self.shared.unwrap_or(self.settings.len());
        self.settings.truncate(shared);
        self.shared = Some(shared);
        self.table = table;
    }

    fn row<'a>(&'a self, given: &'a str) -> Row<'a> {
        Row {
            table: self.table.as_str(),
            settings: self.settings.as_slice(),
            given,
        }
    }
}

/// Runs the rows of the files that the words name, and writes those that come otherwise than they are wanted.
pub fn run_rows<T: Tables>(
    rt: &(impl Env + Files + Print + AllocGlobal),
    tables: &T,
) -> io::Result<ExitCode> {
    let mut all = Counts::none();
    for name in env::args(rt)?.skip(1) {
        let counts = run_file(rt, tables, name.as_str())?;
        println!(rt;
            "{name}: {} passed, {} failed",
            counts.passed, counts.failed
        )?;
        all.add(counts);
    }
    println!(rt; "{} passed, {} failed", all.passed, all.failed)?;
    let good = all.failed == 0 && all.passed > 0;
    Ok(if good {
        ExitCode::SUCCESS
    } else {
        ExitCode::FAILURE
    })
}

fn run_file<T: Tables>(
    rt: &(impl Files + Print + AllocGlobal),
    tables: &T,
    name: &str,
) -> io::Result<Counts> {
    let alloc = rt.alloc();
    let file = fs::read_to_string(rt, name)?;
    let mut state = State::new(alloc);
    let mut counts = Counts::none();
    for line in &lines(alloc, file.as_str()).map_err(io_error)? {
        match line.entry(alloc).map_err(io_error)? {
            Entry::Table(table) => state.begin(table),
            Entry::Set(setting) => push(&mut state.settings, setting)?,
            Entry::Row(text) => {
                let row = state.row(text.as_str());
                counts.add(run_row(rt, tables, name, line, row)?);
            }
        }
    }
    Ok(counts)
}

fn push(settings: &mut Vec<Setting>, setting: Setting) -> io::Result<()> {
    match settings.push(setting) {
        Ok(()) => Ok(()),
        Err(_) => Err(io::Error::from(ErrorKind::OutOfMemory)),
    }
}

fn run_row<T: Tables>(
    rt: &(impl Print + AllocGlobal),
    tables: &T,
    name: &str,
    line: &Line,
    row: Row,
) -> io::Result<Counts> {
    let alloc = rt.alloc();
    let mut counts = Counts::none();
    for case in &cases(alloc, &row).map_err(io_error)? {
        let told = told(alloc, tables, &row, case).map_err(io_error)?;
        let wanted = wanted(alloc, case).map_err(io_error)?;
        if told.as_str() == wanted.as_str() {
            counts.passed = counts.passed.saturating_add(1);
        } else {
            counts.failed = counts.failed.saturating_add(1);
            report(rt, name, line.number, case, told.as_str())?;
        }
    }
    Ok(counts)
}

/// What comes of a row, or why nothing does.
fn told<T: Tables>(alloc: Global, tables: &T, row: &Row, case: &Case) -> Result<String, Trouble> {
    let row = Row {
        given: case.given.as_str(),
        ..*row
    };
    let mut out = String::new(alloc);
    match tables.tell(alloc, &row, &mut out) {
        Ok(()) => Ok(out),
        Err(Trouble::Row(why)) => Ok(format!(in alloc; "no row: {why}")?),
        Err(Trouble::Memory) => Err(Trouble::Memory),
    }
}

fn wanted(alloc: Global, case: &Case) -> Result<String, Trouble> {
    match string_of(alloc, case.wanted.as_str()) {
        Err(Trouble::Row(why)) => Ok(format!(in alloc; "nothing, since it is no row: {why}")?),
        wanted => wanted,
    }
}

fn report(
    rt: &(impl Print + AllocGlobal),
    name: &str,
    line: u64,
    case: &Case,
    told: &str,
) -> io::Result<()> {
    let told = written(rt.alloc(), told).map_err(io_error)?;
    println!(rt; "{name}:{line}: {}", case.given)?;
    println!(rt; "  wanted: {}", case.wanted)?;
    println!(rt; "  came:   {told}")
}

fn io_error(trouble: Trouble) -> io::Error {
    match trouble {
        Trouble::Memory => io::Error::from(ErrorKind::OutOfMemory),
        Trouble::Row(_) => io::Error::from(ErrorKind::InvalidData),
    }
}
