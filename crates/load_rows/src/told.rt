use crate::given::{OWN, host_of};
use fault_report::Outcome;
use rows::{Row, Trouble};
use sheet_files::load_sheet;
use std::alloc::Global;
use std::fmt::Write;
use stx_base::{Limits, Text};
use stx_host::{Act, MemHost};

/// Whether the sheet is accepted, or its first fault, or where the host failed; and the names that were opened, where they are more than its
/// own. No file stays open.
pub fn tell(alloc: Global, row: &Row, out: &mut String) -> Result<(), Trouble> {
    let mut limits = Limits::standard();
    limits.sheet = row.number("sheet", limits.sheet)?;
    let mut host = host_of(alloc, row)?;
    let name = Text::of(alloc, OWN)?;
    match load_sheet(alloc, &mut host, &name, limits) {
        Ok(loaded) => {
            drop(loaded);
            out.push_str("accepted")?;
        }
        Err(Outcome::Sheet(fault)) => {
            let (file, code, offset) = (fault.file.as_str(), fault.code, fault.offset);
            write!(out, "{file}: {code:?} at {offset}")?;
        }
        Err(
            Outcome::Host {
                file,
                fault,
                offset,
            },
        ) => {
            let file = file.as_str();
            write!(out, "{file}: {fault:?} at {offset}")?;
        }
        Err(outcome) => {
            drop(outcome);
            return Err(Trouble::Row("the sheet isn't read to its end"));
        }
    }
    if given_out(&host) != given_back(&host) {
        return Err(Trouble::Row("a file stays open"));
    }
    tell_opened(alloc, &host, out)
}

/// How many ids were given out, and how many given back.
fn given_out(host: &MemHost) -> usize {
    let opened = |act: &&Act| matches!(act, Act::Open { doc: Some(_), .. });
    host.log.iter().filter(opened).count()
}

fn given_back(host: &MemHost) -> usize {
    let closed = |act: &&Act| matches!(act, Act::Close(_));
    host.log.iter().filter(closed).count()
}

fn tell_opened(alloc: Global, host: &MemHost, out: &mut String) -> Result<(), Trouble> {
    let mut opened = String::new(alloc);
    let mut files = 0u64;
    for act in &host.log {
        if let Act::Open { doc, .. } = act {
            files = files.saturating_add(1);
            opened.push(' ')?;
            opened.push_str(name_at(host, *doc))?;
        }
    }
    if files > 1 {
        write!(out, " ||{opened}")?;
    }
    Ok(())
}

/// The name of the document at this place of the host's.
fn name_at(host: &MemHost, place: Option<usize>) -> &str {
    match place.and_then(|at| host.docs.get(at)) {
        Some(doc) => doc.name.as_str(),
        None => "(absent)",
    }
}
