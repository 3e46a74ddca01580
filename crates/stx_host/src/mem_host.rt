ghost use Rattle.std.specs.Prelude.{◌≡◌, ◌≢◌, ◌-◌, ◌⊎◌, ℕ, ◌+◌, ◌<◌, ◌≤◌, ◌∷◌, [], ◌++◌, length, take, drop, min, ◌==◌, true, false, IfOk, IfSome, IfNone, Some, None, position, bytes_eq, vec_len, vec_capacity, ◌↔◌, IsTrue, option_map, Contains};
ghost use Rattle.stx_host.specs.Outside.{one_more, with_bytes, IsOpen, IsReadable, MayOpen, Opens, MayRead, Reads, Closes, MayWrite, Writes, place};
ghost use Rattle.stx_host.specs.MemHost.{start_of, calls_so_far, HasRoom, next_call, read_faults, write_faults, read_call, cut_at, outside_of, rest_of, rest_of_id, Gives, Puts, GivesMost, IsFull, CallFails, OpenFails, ReadFails, WriteFails, LeavesAct, KeepsPlan, IsCounted};
ghost use Rattle.stx_host.specs.Table.{ids_of, IsLeastFree};

use crate::act::{Act, Call, Doc, Fail, Got, Lane, Opened, Put};
use crate::faults::{Faults, raised};
use crate::host::Host;
use crate::table::Table;
use std::alloc::Global;
use stx_base::{List, Memory, Text};

/// How far an open document was read.
#[derive(Clone, Copy, Debug)]
pub(crate) struct Reading {
    pub(crate) doc: usize,
    pub(crate) at: usize,
}

/// How many calls of each kind there were, up to the last value of u64.
#[derive(Clone, Copy, Debug)]
pub(crate) struct Calls {
    pub(crate) open: u64,
    pub(crate) read_doc: u64,
    pub(crate) read_main: u64,
    pub(crate) write: u64,
}

/// A host in memory, which tells everything, and what it has room for where `fails` lists no call.
///
/// Room is kept in advance, so its calls take no memory. A call for which the room is too small
/// fails, as one that `fails` lists does.
#[derive(Debug, Drop)]
pub struct MemHost {
    /// The main document.
    pub main: List<u8>,
    /// The other documents; of two with one name the first counts.
    pub docs: List<Doc>,
    /// The largest length of each read of the main document in turn, where 0 counts as 1. After
    /// its end the room's length counts.
    pub cuts: List<u32>,
    /// The calls that are to fail.
    pub fails: List<Fail>,
    pub log: Vec<Act>,
    /// The bytes that `Lane::Out` took.
    pub out: Vec<u8>,
    /// The bytes that `Lane::Note` took.
    pub note: Vec<u8>,
    pub(crate) main_at: usize,
    pub(crate) table: Table<Reading>,
    pub(crate) calls: Calls,
    pub(crate) faults: Faults,
}

impl MemHost {
    /// A host with room for exactly this many acts, as many open ids, and this many bytes in each lane.
    pub fn new(
        alloc: Global,
        main: List<u8>,
        docs: List<Doc>,
        cuts: List<u32>,
        fails: List<Fail>,
        acts: usize,
        bytes: usize,
    ) -> Result<MemHost, Memory>
        ensures starts { IfOk result (λ host. outside_of host ≡ start_of main docs fails acts bytes) }
        ensures plan { IfOk result (λ host. (host.main ≡ main) × (host.docs ≡ docs) × (host.cuts ≡ cuts) × (host.fails ≡ fails)) }
        ensures calls { IfOk result (λ host. (call : Call) → calls_so_far host call ≡ 0) }
        ensures room { IfOk result (λ host. HasRoom host acts bytes) }
    {
        Ok(MemHost {
            main,
            docs,
            cuts,
            fails,
            log: Vec::with_capacity(alloc, acts)?,
            out: Vec::with_capacity(alloc, bytes)?,
            note: Vec::with_capacity(alloc, bytes)?,
            main_at: 0,
            table: Table::with_room(alloc, acts)?,
            calls: Calls {
                open: 0,
                read_doc: 0,
                read_main: 0,
                write: 0,
            },
            faults: Faults::NONE,
        })
    }
}

/// Whether nothing more can be pushed without taking memory.
fn is_full(log: &Vec<Act>) -> bool
    ensures { IsTrue result ↔ IsFull log.now }
{
    log.capacity() <= log.len()
}

/// Adds an act.
fn add_act(log: &mut Vec<Act>, act: Act)
    requires { vec_len log.old < vec_capacity log.old }
    ensures added { log.new.items ≡ log.old.items ++ act ∷ [] }
    ensures room { vec_capacity log.new ≡ vec_capacity log.old }
{
    log.push_reserved(act);
}

/// Adds bytes. Of `extend_from_slice` it isn't known that the room stays as it is.
fn add_bytes(taken: &mut Vec<u8>, bytes: &[u8])
    requires { vec_len taken.old + length bytes.now ≤ vec_capacity taken.old }
    ensures added { taken.new.items ≡ taken.old.items ++ bytes.now }
    ensures room { vec_capacity taken.new ≡ vec_capacity taken.old }
{
    for byte in bytes {
        taken.push_reserved(*byte);
    }
}

/// Where the first document of a name stands.
fn find_doc(docs: &List<Doc>, name: &Text) -> Option<usize>
    ensures { result ≡ place docs.now name.now }
{
    docs.as_slice().iter().position(|doc| doc.name.same(name))
}

/// Puts the next bytes into the room, at most so many, and says how many.
fn give(bytes: &[u8], at: usize, most: usize, room: &mut [u8]) -> usize
    ensures count { result ≡ min most (min (length room.old) (length (drop at bytes.now))) }
    ensures given { take result room.new ≡ take result (drop at bytes.now) }
    ensures len { length room.new ≡ length room.old }
{
    let rest = if at <= bytes.len() { &bytes[at..] } else { &[] };
    let count = most.min(room.len().min(rest.len()));
    room[..count].copy_from_slice(&rest[..count]);
    count
}

/// Counts a call, and says whether it is one that is to fail, or for which the log has no room.
fn must_fail(calls: &mut u64, fails: &List<Fail>, call: Call, log: &Vec<Act>) -> bool
    ensures number { calls.new ≡ next_call calls.old }
    ensures fails { IsTrue result ↔ (Contains fails.now (record { call = call; nth = next_call calls.old }) ⊎ IsFull log.now) }
{
    *calls = calls.saturating_add(1);
    fails.as_slice().contains(&Fail { call, nth: *calls }) || is_full(log)
}

/// The largest length of the nth read of the main document, counted from 1.
fn cut(cuts: &List<u32>, nth: u64, room: usize) -> usize
    ensures { result ≡ cut_at cuts.now nth room }
{
    match cuts.get(nth.saturating_sub(1) as usize) {
        Some(most) => (*most).max(1) as usize,
        None => room,
    }
}

/// Gives the next bytes of a document, as many as there are and as fit, and says how many.
fn give_doc(docs: &List<Doc>, reading: &mut Reading, room: &mut [u8]) -> usize
    ensures given { Gives (rest_of docs.now reading.old) result room.new }
    ensures moved { reading.new ≡ record { doc = reading.old.doc; at = reading.old.at + result } }
    ensures len { length room.new ≡ length room.old }
{
    let Some(doc) = docs.get(reading.doc) else {
        return 0;
    };
    let count = give(doc.bytes.as_slice(), reading.at, room.len(), room);
    reading.at += count;
    count
}

/// The same for what is open under an id.
fn give_open(docs: &List<Doc>, table: &mut Table<Reading>, id: u32, room: &mut [u8]) -> usize
    ensures given { Gives (rest_of_id docs.now table.old.slots.items id) result room.new }
    ensures moved { rest_of_id docs.now table.new.slots.items ≡ with_bytes (rest_of_id docs.now table.old.slots.items) id
        (option_map (λ bytes. drop result bytes) (rest_of_id docs.now table.old.slots.items id)) }
    ensures ids { ids_of table.new.slots.items ≡ ids_of table.old.slots.items }
    ensures room { vec_capacity table.new.slots ≡ vec_capacity table.old.slots }
    ensures len { length room.new ≡ length room.old }
{
    let Some(at) = table.position(id) else {
        return 0;
    };
    let slot = &mut table.slots[at];
    give_doc(docs, &mut slot.held, room)
}

/// Writes all of the bytes to a lane, or fails.
fn put(
    must_fail: bool,
    log: &mut Vec<Act>,
    taken: &mut Vec<u8>,
    faults: &mut u64,
    lane: Lane,
    bytes: &[u8],
) -> Put
    requires { IsFull log.old → IsTrue must_fail }
    ensures change { Puts log.old.items taken.old.items faults.old lane bytes.now result log.new.items taken.new.items faults.new }
    ensures fails { (result ≡ Put.Failed) ↔ (IsTrue must_fail ⊎ (vec_capacity taken.old - vec_len taken.old < length bytes.now)) }
    ensures room { (vec_capacity log.new ≡ vec_capacity log.old) × (vec_capacity taken.new ≡ vec_capacity taken.old) }
{
    if must_fail || taken.capacity() - taken.len() < bytes.len() {
        *faults = raised(*faults);
        return Put::Failed;
    }
    add_bytes(taken, bytes);
    let len = bytes.len();
    add_act(log, Act::Write { lane, len });
    Put::Took(len)
}

impl MemHost {
    fn read_main(&mut self, room: &mut [u8]) -> Got
        requires { 0 < length room.old }
        ensures answer { MayRead (outside_of self.old) 0 result room.new }
        ensures change { Reads (outside_of self.old) 0 result (outside_of self.new) }
        ensures fails { (result ≡ Got.Failed) ↔ CallFails self.old Call.ReadMain }
        ensures raised { result ≡ Got.Failed → (outside_of self.new).main_faults ≡ one_more (outside_of self.old).main_faults }
        ensures most { GivesMost self.old 0 result (length room.old) }
        ensures plan { KeepsPlan self.old self.new }
        ensures counted { IsCounted Call.ReadMain self.old self.new }
    {
        let fails = must_fail(
            &mut self.calls.read_main,
            &self.fails,
            Call::ReadMain,
            &self.log,
        );
        if fails {
            self.faults.main = raised(self.faults.main);
            return Got::Failed;
        }
        let most = cut(&self.cuts, self.calls.read_main, room.len());
        let count = give(self.main.as_slice(), self.main_at, most, room);
        add_act(&mut self.log, Act::Read { id: 0, got: count });
        if count == 0 {
            return Got::End;
        }
        self.main_at += count;
        Got::Bytes(count)
    }

    fn read_doc(&mut self, id: u32, room: &mut [u8]) -> Got
        requires id { 0 < id }
        requires room { 0 < length room.old }
        ensures answer { MayRead (outside_of self.old) id result room.new }
        ensures change { Reads (outside_of self.old) id result (outside_of self.new) }
        ensures fails { (result ≡ Got.Failed) ↔ CallFails self.old Call.ReadDoc }
        ensures raised { result ≡ Got.Failed → (outside_of self.new).doc_faults ≡ one_more (outside_of self.old).doc_faults }
        ensures most { GivesMost self.old id result (length room.old) }
        ensures plan { KeepsPlan self.old self.new }
        ensures counted { IsCounted Call.ReadDoc self.old self.new }
    {
        let fails = must_fail(
            &mut self.calls.read_doc,
            &self.fails,
            Call::ReadDoc,
            &self.log,
        );
        if fails {
            self.faults.doc = raised(self.faults.doc);
            return Got::Failed;
        }
        let count = give_open(&self.docs, &mut self.table, id, room);
        add_act(&mut self.log, Act::Read { id, got: count });
        if count == 0 {
            return Got::End;
        }
        Got::Bytes(count)
    }
}

impl Host for MemHost {
    ghost outside = { outside_of };

    /// Fails exactly where the call is listed in `fails`, the log has no room, or an id is needed
    /// and there is no room for one more or every number above 0 is open.
    fn open(&mut self, name: &Text) -> Opened
        ensures answer { MayOpen (outside_of self.old) name.now result }
        ensures change { Opens (outside_of self.old) name.now result (outside_of self.new) }
        ensures fails { (result ≡ Opened.Failed) ↔ OpenFails self.old name.now }
        ensures no_memory { result ≢ Opened.Memory }
        ensures raised { result ≡ Opened.Failed → (outside_of self.new).doc_faults ≡ one_more (outside_of self.old).doc_faults }
        ensures least { (id : ℕ) → result ≡ Opened.Id id → IfSome (outside_of self.old).open_ids (λ ids. IsLeastFree ids id) }
        ensures plan { KeepsPlan self.old self.new }
        ensures counted { IsCounted Call.Open self.old self.new }
    {
        let fails = must_fail(&mut self.calls.open, &self.fails, Call::Open, &self.log);
        if fails {
            self.faults.doc = raised(self.faults.doc);
            return Opened::Failed;
        }
        let Some(doc) = find_doc(&self.docs, name) else {
            add_act(&mut self.log, Act::Open { doc: None, id: 0 });
            return Opened::Absent;
        };
        let Some(id) = self.table.take(Reading { doc, at: 0 }) else {
            self.faults.doc = raised(self.faults.doc);
            return Opened::Failed;
        };
        add_act(&mut self.log, Act::Open { doc: Some(doc), id });
        Opened::Id(id)
    }

    /// Fails exactly where the call is listed in `fails`, or the log has no room.
    fn read(&mut self, id: u32, room: &mut [u8]) -> Got
        requires open { IsReadable (outside_of self.old).open_ids id }
        requires room { 0 < length room.old }
        ensures answer { MayRead (outside_of self.old) id result room.new }
        ensures change { Reads (outside_of self.old) id result (outside_of self.new) }
        ensures fails { (result ≡ Got.Failed) ↔ ReadFails self.old id }
        ensures raised { result ≡ Got.Failed → read_faults (outside_of self.new) id ≡ one_more (read_faults (outside_of self.old) id) }
        ensures most { GivesMost self.old id result (length room.old) }
        ensures plan { KeepsPlan self.old self.new }
        ensures counted { IsCounted (read_call id) self.old self.new }
    {
        if id == 0 {
            self.read_main(room)
        } else {
            self.read_doc(id, room)
        }
    }

    /// Leaves an act exactly where the log has room for it.
    fn close(&mut self, id: u32)
        requires { IsOpen (outside_of self.old).open_ids id }
        ensures change { Closes (outside_of self.old) id (outside_of self.new) }
        ensures act { LeavesAct self.old id self.new }
        ensures plan { KeepsPlan self.old self.new }
        ensures calls { self.new.calls ≡ self.old.calls }
    {
        self.table.remove(id);
        if !is_full(&self.log) {
            add_act(&mut self.log, Act::Close(id));
        }
    }

    /// Takes all of the bytes, or fails: exactly where the call is listed in `fails`, the log has no
    /// room, or the lane has too little.
    fn write(&mut self, lane: Lane, bytes: &[u8]) -> Put
        requires { 0 < length bytes.now }
        ensures answer { MayWrite (outside_of self.old) lane bytes.now result }
        ensures change { Writes (outside_of self.old) lane bytes.now result (outside_of self.new) }
        ensures fails { (result ≡ Put.Failed) ↔ WriteFails self.old lane bytes.now }
        ensures raised { result ≡ Put.Failed → write_faults (outside_of self.new) lane ≡ one_more (write_faults (outside_of self.old) lane) }
        ensures all { (result ≡ Put.Failed) ⊎ (result ≡ Put.Took (length bytes.now)) }
        ensures plan { KeepsPlan self.old self.new }
        ensures counted { IsCounted Call.Write self.old self.new }
    {
        let fails = must_fail(&mut self.calls.write, &self.fails, Call::Write, &self.log);
        match lane {
            Lane::Out => put(
                fails,
                &mut self.log,
                &mut self.out,
                &mut self.faults.out,
                lane,
                bytes,
            ),
            Lane::Note => put(
                fails,
                &mut self.log,
                &mut self.note,
                &mut self.faults.note,
                lane,
                bytes,
            ),
        }
    }
}
