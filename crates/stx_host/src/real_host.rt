ghost use Rattle.std.specs.Prelude.{◌≡◌, ◌↔◌, ◌⊎◌, ◌<◌, ◌≤◌, length};
ghost use Rattle.stx_host.specs.Outside.{IsReadable, MayRead, Reads, MayWrite, Writes};
ghost use Rattle.stx_host.specs.RealHost.{outside_of, nothing_told, ReadsSome, WritesSome, IsGot};
ghost use Rattle.stx_host.specs.Table.{ids_of};

use crate::act::{Got, Lane, Opened, Put};
use crate::faults::{Faults, raised};
use crate::host::Host;
use crate::table::Table;
use std::alloc::Global;
use std::fs::File;
use std::io::{ErrorKind, Read, Write};
use std::rt::Files;
use stx_base::Text;

/// The outside of a program: files, an input, and two streams for output. It tells which ids are
/// open, and no bytes.
#[derive(Drop)]
pub struct RealHost<R: Files, I, O, N> {
    files: R,
    /// Where the main document comes from.
    pub input: I,
    /// Where `Lane::Out` goes.
    pub out: O,
    /// Where `Lane::Note` goes.
    pub note: N,
    table: Table<R::File>,
    pub(crate) faults: Faults,
}

impl<R: Files, I: Read, O: Write, N: Write> RealHost<R, I, O, N> {
    /// Reads documents from `files` and the main document from `input`, and writes `Lane::Out` to
    /// `out` and `Lane::Note` to `note`, each without a buffer.
    pub fn new(alloc: Global, files: R, input: I, out: O, note: N) -> RealHost<R, I, O, N>
        ensures { ⟦<RealHost<R, I, O, N> as Host>⟧.outside result ≡ nothing_told }
    {
        RealHost {
            files,
            input,
            out,
            note,
            table: Table::new(alloc),
            faults: Faults::NONE,
        }
    }
}

/// The answer to a file that can't be opened: absent exactly where it isn't found.
fn unopened(kind: ErrorKind) -> Opened
    ensures absent { (result ≡ Opened.Absent) ↔ (kind ≡ ErrorKind.NotFound) }
    ensures memory { (result ≡ Opened.Memory) ↔ (kind ≡ ErrorKind.OutOfMemory) }
    ensures other { (result ≡ Opened.Absent) ⊎ (result ≡ Opened.Memory) ⊎ (result ≡ Opened.Failed) }
{
    match kind {
        ErrorKind::NotFound => Opened::Absent,
        ErrorKind::OutOfMemory => Opened::Memory,
        _ => Opened::Failed,
    }
}

/// One read, tried again where a signal interrupts it.
fn read_some<S: Read>(source: &mut S, room: &mut [u8]) -> Got
    requires { 0 < length room.old }
    ensures { ReadsSome (S.remaining source.old) (S.remaining source.new) result room.new }
{
    for _ in 0..u64::MAX {
        match source.read(room) {
            Ok(0) => return Got::End,
            Ok(count) => return Got::Bytes(count),
            Err(error) if error.kind() == ErrorKind::Interrupted => {}
            Err(_) => return Got::Failed,
        }
    }
    Got::Failed
}

/// The same of what is open under an id. An id that isn't open fails.
fn read_open<F: Read + Drop>(table: &mut Table<F>, id: u32, room: &mut [u8]) -> Got
    requires { 0 < length room.old }
    ensures got { IsGot result room.new }
    ensures ids { ids_of table.new.slots.items ≡ ids_of table.old.slots.items }
{
    let Some(at) = table.position(id) else {
        return Got::Failed;
    };
    let slot = &mut table.slots[at];
    read_some(&mut slot.held, room)
}

/// One write, tried again where a signal interrupts it.
fn write_some<S: Write>(sink: &mut S, bytes: &[u8]) -> Put
    ensures { WritesSome (S.contents sink.old) (S.contents sink.new) bytes.now result }
{
    for _ in 0..u64::MAX {
        match sink.write(bytes) {
            Ok(0) => return Put::Failed,
            Ok(count) => return Put::Took(count),
            Err(error) if error.kind() == ErrorKind::Interrupted => {}
            Err(_) => return Put::Failed,
        }
    }
    Put::Failed
}

impl<R: Files, I: Read, O: Write, N: Write> Host for RealHost<R, I, O, N> {
    ghost outside = { λ host. outside_of host.table.slots.items host.faults };

    fn open(&mut self, name: &Text) -> Opened {
        if self.table.reserve().is_err() {
            return Opened::Memory;
        }
        match File::open(&self.files, name.as_str()) {
            Ok(file) => match self.table.take(file) {
                Some(id) => Opened::Id(id),
                None => {
                    self.faults.doc = raised(self.faults.doc);
                    Opened::Failed
                }
            },
            Err(error) => {
                let answer = unopened(error.kind());
                if answer == Opened::Failed {
                    self.faults.doc = raised(self.faults.doc);
                }
                answer
            }
        }
    }

    fn read(&mut self, id: u32, room: &mut [u8]) -> Got
        requires open { IsReadable (⟦<RealHost<R, I, O, N> as Host>⟧.outside self.old).open_ids id }
        requires room { 0 < length room.old }
        ensures answer { MayRead (⟦<RealHost<R, I, O, N> as Host>⟧.outside self.old) id result room.new }
        ensures change { Reads (⟦<RealHost<R, I, O, N> as Host>⟧.outside self.old) id result (⟦<RealHost<R, I, O, N> as Host>⟧.outside self.new) }
        ensures main { id ≡ 0 → ReadsSome (I.remaining self.old.input) (I.remaining self.new.input) result room.new }
        ensures lanes { (self.new.out ≡ self.old.out) × (self.new.note ≡ self.old.note) }
    {
        if id == 0 {
            let got = read_some(&mut self.input, room);
            if got == Got::Failed {
                self.faults.main = raised(self.faults.main);
            }
            return got;
        }
        let got = read_open(&mut self.table, id, room);
        if got == Got::Failed {
            self.faults.doc = raised(self.faults.doc);
        }
        got
    }

    fn close(&mut self, id: u32) {
        self.table.remove(id);
    }

    fn write(&mut self, lane: Lane, bytes: &[u8]) -> Put
        requires { 0 < length bytes.now }
        ensures answer { MayWrite (⟦<RealHost<R, I, O, N> as Host>⟧.outside self.old) lane bytes.now result }
        ensures change { Writes (⟦<RealHost<R, I, O, N> as Host>⟧.outside self.old) lane bytes.now result (⟦<RealHost<R, I, O, N> as Host>⟧.outside self.new) }
        ensures out { lane ≡ Lane.Out → WritesSome (O.contents self.old.out) (O.contents self.new.out) bytes.now result × (self.new.note ≡ self.old.note) }
        ensures note { lane ≡ Lane.Note → WritesSome (N.contents self.old.note) (N.contents self.new.note) bytes.now result × (self.new.out ≡ self.old.out) }
        ensures main { self.new.input ≡ self.old.input }
    {
        match lane {
            Lane::Out => {
                let put = write_some(&mut self.out, bytes);
                if put == Put::Failed {
                    self.faults.out = raised(self.faults.out);
                }
                put
            }
            Lane::Note => {
                let put = write_some(&mut self.note, bytes);
                if put == Put::Failed {
                    self.faults.note = raised(self.faults.note);
                }
                put
            }
        }
    }
}
