//! A sheet's documents in memory: the file that a row gives, and those that `: doc NAME BYTES` sets. `: fails Open 2, ReadDoc 3` sets the
//! calls that fail.

use rows::{Row, Trouble, bytes_of, string_of};
use std::alloc::Global;
use stx_base::{List, Text};
use stx_host::{Call, Doc, Fail, MemHost};

/// The name of the file that is given.
pub const OWN: &'static str = "s.stx";

/// Room for so many acts.
const ACTS: usize = 4096;

/// A host that has the documents of a row.
pub fn host_of(alloc: Global, row: &Row) -> Result<MemHost, Trouble> {
    let docs = documents(alloc, row)?;
    let fails = fails_of(alloc, row.setting("fails").unwrap_or(""))?;
    let (main, cuts) = (List::new(alloc), List::new(alloc));
    Ok(MemHost::new(alloc, main, docs, cuts, fails, ACTS, 0)?)
}

fn fails_of(alloc: Global, written: &str) -> Result<List<Fail>, Trouble> {
    let mut fails = List::new(alloc);
    if written.is_empty() {
        return Ok(fails);
    }
    for fault in written.split(", ") {
        fails.push(fail_of(fault)?)?;
    }
    Ok(fails)
}

fn fail_of(written: &str) -> Result<Fail, Trouble> {
    let (word, number) = written.split_once(' ').unwrap_or((written, ""));
    let call = match word {
        "Open" => Call::Open,
        "ReadDoc" => Call::ReadDoc,
        _ => return Err(Trouble::Row("no call of this name can fail")),
    };
    match number.parse::<u64>() {
        Ok(nth) => Ok(Fail { call, nth }),
        Err(_) => Err(Trouble::Row("the number of a call that is no number")),
    }
}

fn documents(alloc: Global, row: &Row) -> Result<List<Doc>, Trouble> {
    let mut docs = List::new(alloc);
    docs.push(document(alloc, OWN, row.bytes(alloc)?)?)?;
    for setting in row.settings {
        if setting.key.as_str() == "doc" {
            let written = setting.value.as_str();
            let (name, bytes) = written.split_once(' ').unwrap_or((written, ""));
            let name = string_of(alloc, name)?;
            docs.push(document(alloc, name.as_str(), bytes_of(alloc, bytes)?)?)?;
        }
    }
    Ok(docs)
}

fn document(alloc: Global, name: &str, bytes: Vec<u8>) -> Result<Doc, Trouble> {
    Ok(Doc {
        name: Text::of(alloc, name)?,
        bytes: List::from_vec(bytes),
    })
}
