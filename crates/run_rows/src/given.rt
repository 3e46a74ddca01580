use crate::ran::Ran;
use rows::{Row, Trouble, bytes_of, string_of, text_of};
use std::alloc::Global;
use stx_base::List;
use stx_engine::transform;
use stx_host::{Call, Doc, Fail, Host, MemHost};

/// A run over a host in memory.
#[derive(Drop)]
pub struct Given {
    /// Parted by blanks, as they are written.
    pub words: String,
    pub main: Vec<u8>,
    /// The document `s.stx`, where the row itself gives it.
    pub sheet: Option<Vec<u8>>,
    /// Whether the main document is read one byte at a time.
    pub in_bytes: bool,
    /// The calls that fail.
    pub fails: Vec<Fail>,
    /// Room for this many acts.
    pub acts: usize,
    /// Room for this many bytes in each lane.
    pub bytes: usize,
}

impl Given {
    /// The words that are set, and a document, where nothing fails and room is enough.
    pub fn of(alloc: Global, row: &Row, main: Vec<u8>) -> Result<Given, Trouble> {
        Ok(Given {
            words: String::from_str(alloc, row.setting("words").unwrap_or(""))?,
            sheet: None,
            in_bytes: false,
            fails: Vec::new(alloc),
            acts: main.len().saturating_mul(3).saturating_add(4000),
            bytes: main.len().saturating_mul(3).saturating_add(200_000),
            main,
        })
    }

    fn cuts(&self, alloc: Global) -> Result<List<u32>, Trouble> {
        let mut cuts = List::new(alloc);
        if self.in_bytes {
            for _ in 0..=self.main.len() {
                cuts.push(1u32)?;
            }
        }
        Ok(cuts)
    }

    fn host(&self, alloc: Global, row: &Row) -> Result<MemHost, Trouble> {
        let main = List::from_vec(self.main.clone()?);
        let fails = List::from_vec(Vec::from_slice(alloc, self.fails.as_slice())?);
        let mut docs = docs_of(alloc, row)?;
        if let Some(sheet) = &self.sheet {
            let name = text_of(alloc, "s.stx")?;
            let bytes = List::from_vec(sheet.clone()?);
            docs.push(Doc { name, bytes })?;
        }
        let cuts = self.cuts(alloc)?;
        let host = MemHost::new(alloc, main, docs, cuts, fails, self.acts, self.bytes)?;
        Ok(host)
    }

    pub fn run(&self, alloc: Global, row: &Row) -> Result<Ran, Trouble> {
        let mut host = self.host(alloc, row)?;
        let words = words_of(alloc, self.words.as_str())?;
        let status = run(alloc, words.as_slice(), &mut host);
        Ok(Ran { status, host })
    }
}

/// The other documents: `: doc NAME BYTES`.
fn docs_of(alloc: Global, row: &Row) -> Result<List<Doc>, Trouble> {
    let mut docs = List::new(alloc);
    for setting in row.settings {
        if setting.key.as_str() == "doc" {
            docs.push(doc_of(alloc, setting.value.as_str())?)?;
        }
    }
    Ok(docs)
}

fn doc_of(alloc: Global, written: &str) -> Result<Doc, Trouble> {
    let (name, bytes) = written.split_once(' ').unwrap_or((written, ""));
    let name = text_of(alloc, name)?;
    let bytes = List::from_vec(bytes_of(alloc, bytes)?);
    Ok(Doc { name, bytes })
}

pub fn words_of(alloc: Global, written: &str) -> Result<Vec<String>, Trouble> {
    let mut words = Vec::new(alloc);
    for word in written.split_whitespace() {
        words.push(string_of(alloc, word)?)?;
    }
    Ok(words)
}

/// The contract says all of a run; nothing of it is needed here.
pub fn run<H: Host>(alloc: Global, words: &[String], host: &mut H) -> u8 {
    transform(alloc, words, host)
}

/// Calls that fail, as `Open 1`, and `room ACTS BYTES`, parted by `, `.
pub fn set_faults(given: &mut Given, written: &str) -> Result<(), Trouble> {
    if written.is_empty() {
        return Ok(());
    }
    for fault in written.split(", ") {
        let (word, number) = fault.split_once(' ').unwrap_or((fault, ""));
        if word == "room" {
            set_room(given, number)?;
        } else {
            let call = call_of(word)?;
            let nth = number_of(number)?;
            given.fails.push(Fail { call, nth })?;
        }
    }
    Ok(())
}

fn set_room(given: &mut Given, written: &str) -> Result<(), Trouble> {
    let (acts, bytes) = written.split_once(' ').unwrap_or((written, ""));
    given.acts = size_of(acts)?;
    given.bytes = size_of(bytes)?;
    Ok(())
}

fn call_of(word: &str) -> Result<Call, Trouble> {
    match word {
        "Open" => Ok(Call::Open),
        "ReadDoc" => Ok(Call::ReadDoc),
        "ReadMain" => Ok(Call::ReadMain),
        "Write" => Ok(Call::Write),
        _ => Err(Trouble::Row("no call that may fail")),
    }
}

fn number_of(written: &str) -> Result<u64, Trouble> {
    match written.parse::<u64>() {
        Ok(number) => Ok(number),
        Err(_) => Err(Trouble::Row("a number is wanted")),
    }
}

fn size_of(written: &str) -> Result<usize, Trouble> {
    match written.parse::<usize>() {
        Ok(number) => Ok(number),
        Err(_) => Err(Trouble::Row("a number is wanted")),
    }
}
