//! A run over a host, step by step.

ghost use Rattle.std.specs.Prelude.{◌≡◌, ◌+◌, ◌<◌, ◌≤◌, ◌^◌, ◌++◌, ◌∷◌, [], List, IsSome, OnErr, OnOk, length};
ghost use Rattle.stx_host.specs.Outside.{Closes, MayOpen, Opens, Outside};
ghost use Rattle.stx_host.specs.declared.act.Opened.TheVariants as answer;
ghost use Rattle.fault_report.specs.declared.outcome.HostFault.TheVariants as fault;
ghost use Rattle.fault_report.specs.declared.outcome.Outcome.TheVariants as outcome;
ghost use Rattle.run_engine.specs.Run.{MayCome, Run, outcome_in};
ghost use Rattle.run_engine.specs.declared.piece.Pumped.{Pumped};
ghost use Rattle.run_engine.specs.declared.piece.Pumped.TheVariants as asks;
ghost use Rattle.sheet_runs.specs.Runs.{IsBegun};
ghost use Rattle.sheet_runs.specs.inside.Left.{LeavesLess, Pumps, WantsMain, main_left};
ghost use Rattle.sheet_runs.specs.inside.Running.{AreOpen, Driving, Halted, Handing, HandingBytes, HandingChunk, HaltsAs, IsDriven, IsFresh, IsOpened, IsWritten, StepsTo, WroteTo, ids_of};
ghost use Rattle.sheet_runs.specs.declared.main_document.Main.{Main};
ghost use Rattle.sheet_runs.specs.declared.main_document.Main.TheVariants as main;
ghost use Rattle.sheet_runs.specs.declared.other.Other.{Other};
ghost use Rattle.sheet_runs.specs.declared.running.Halt.{Halt};
ghost use Rattle.sheet_runs.specs.declared.running.Halt.TheVariants as halts;

use crate::chunk::{PIECE, next_chunk};
use crate::failing::failure;
use crate::main_document::Main;
use crate::other::Other;
use crate::run::{End, Ran};
use crate::writing::write;
use fault_report::{HostFault, Outcome};
use run_engine::{Engine, Piece, Pumped};
use std::alloc::Global;
use std::mem;
use stx_base::{Memory, Text};
use stx_host::{Got, Host, Lane, Opened};

/// Why nothing more is read.
#[derive(Debug, Drop)]
pub enum Halt {
    /// The engine is done, or was stopped.
    Over,
    /// The host failed, or memory is wanting.
    Failed(Outcome),
    /// The host failed on the lane `Note`.
    Unnoted,
}

/// A run over a host.
#[derive(Drop)]
pub struct Running {
    alloc: Global,
    engine: Engine,
    main: Main,
    /// The documents that are read beside the main one, the newest last.
    others: Vec<Other>,
    /// What is settled and not written yet.
    out: Vec<u8>,
    notes: Vec<u8>,
    /// How many bytes of the main document were handed in.
    input: u64,
    /// How many bytes `Out` took.
    output: u64,
}

impl Running {
    pub fn new(alloc: Global, engine: Engine, main: Main) -> Running
        ensures { IsFresh engine main result }
    {
        Running {
            alloc,
            engine,
            main,
            others: Vec::new(alloc),
            out: Vec::new(alloc),
            notes: Vec::new(alloc),
            input: 0,
            output: 0,
        }
    }

    /// Runs as far as it goes. Documents may be open then.
    pub fn go<H: Host>(&mut self, host: &mut H) -> Halt
        requires begun { IsBegun self.old.engine }
        requires input { self.old.engine.limits.input ≤ 2 ^ 50 }
        requires fresh { IsFresh self.old.engine self.old.main self.old }
        ensures { Halted self.old.engine self.old.main (H.outside host.old) (H.outside host.new) self.new result }
    {
        let mut pumped = self.pump(Piece::Start);
        loop {
            pumped = match self.advance(pumped, host) {
                Ok(next) => next,
                Err(halt) => return halt,
            };
        }
    }

    /// Gives all documents back.
    pub fn close_all<H: Host>(&mut self, host: &mut H)
        requires { AreOpen (H.outside host.old).open_ids self.old.others.items }
        ensures halted { (start : Run) (whole : Main) (old : Outside) (halt : Halt) → Halted start whole old (H.outside host.old) self.old halt → Halted start whole old (H.outside host.new) self.new halt }
        ensures closed { self.new.others.items ≡ [] }
    {
        while let Some(other) = self.others.pop() {
            host.close(other.id);
        }
    }

    /// What came of it.
    pub fn ran(self, halt: Halt) -> Ran
        requires { (halt ≡ halts.Over) → IsSome (outcome_in self.engine.stage) }
        ensures end { HaltsAs self.engine halt result.end }
        ensures input { result.input ≡ self.input }
        ensures output { result.output ≡ self.output }
    {
        let Running {
            engine,
            input,
            output,
            ..
        } = self;
        Ran {
            end: end_of(engine, halt),
            input,
            output,
        }
    }

    // Goes on until the main document is asked for, and hands in what comes next of it.
    fn advance<H: Host>(&mut self, pumped: Pumped, host: &mut H) -> Result<Pumped, Halt>
        requires { IsDriven (H.outside host.old) self.old pumped }
        ensures driven { (start : Run) (whole : Main) (old : Outside) → Driving start whole old (H.outside host.old) self.old pumped → StepsTo start whole old (H.outside host.new) self.new result }
        ensures less { OnOk result (main_left self.new < main_left self.old) }
    {
        self.reach_main(pumped, host)?;
        self.read_main(host)
    }

    // Writes what is settled and serves the other documents, until the main one is asked for.
    fn reach_main<H: Host>(&mut self, mut pumped: Pumped, host: &mut H) -> Result<(), Halt>
        requires { IsDriven (H.outside host.old) self.old pumped }
        ensures driven { (start : Run) (whole : Main) (old : Outside) → Driving start whole old (H.outside host.old) self.old pumped → WroteTo start whole old (H.outside host.new) self.new asks.Main (IsWritten self.new) result }
        ensures more { OnOk result (main_left self.new ≤ main_left self.old) }
    {
        loop {
            self.write_settled(host)?;
            pumped = match pumped {
                Pumped::Main => return Ok(()),
                Pumped::Document => self.read_other(host)?,
                Pumped::Open(name) => self.open(name, host)?,
                Pumped::Done | Pumped::Stopped => return Err(Halt::Over),
            };
        }
    }

    // Hands a piece to the engine, and keeps what it settles.
    fn pump(&mut self, piece: Piece<'_>) -> Pumped
        requires { MayCome self.old.engine.stage piece }
        ensures driven { (start : Run) (whole : Main) (old now : Outside) → Handing start whole old now self.old piece.entry → Driving start whole old now self.new result }
        ensures pumps { Pumps self.old piece.entry self.new }
    {
        self.engine.pump(piece, &mut self.out, &mut self.notes)
    }

    // Writes all that is settled, the bytes before the messages.
    fn write_settled<H: Host>(&mut self, host: &mut H) -> Result<(), Halt>
        ensures driven { (start : Run) (whole : Main) (old : Outside) (asked : Pumped) → Driving start whole old (H.outside host.old) self.old asked → WroteTo start whole old (H.outside host.new) self.new asked (IsWritten self.new) result }
        ensures written { OnOk result (IsWritten self.new) }
        ensures kept { self.new ≡ record self.old { out = self.new.out; notes = self.new.notes; output = self.new.output } }
    {
        self.write_out(host)?;
        self.write_notes(host)
    }

    // Writes the bytes that are settled, and counts those that were taken.
    fn write_out<H: Host>(&mut self, host: &mut H) -> Result<(), Halt>
        ensures driven { (start : Run) (whole : Main) (old : Outside) (asked : Pumped) → Driving start whole old (H.outside host.old) self.old asked → WroteTo start whole old (H.outside host.new) self.new asked (self.new.out.items ≡ []) result }
        ensures written { OnOk result (self.new.out.items ≡ []) }
        ensures kept { self.new ≡ record self.old { out = self.new.out; notes = self.new.notes; output = self.new.output } }
    {
        match write(host, Lane::Out, self.out.as_slice()) {
            Ok(()) => {
                self.output = self.output.saturating_add(self.out.len() as u64);
                self.out.clear();
                Ok(())
            }
            Err(refused) => {
                self.output = self.output.saturating_add(refused.taken as u64);
                Err(Halt::Failed(failure(self.alloc, HostFault::Write, self.output)))
            }
        }
    }

    // Writes the messages.
    fn write_notes<H: Host>(&mut self, host: &mut H) -> Result<(), Halt>
        requires { self.old.out.items ≡ [] }
        ensures driven { (start : Run) (whole : Main) (old : Outside) (asked : Pumped) → Driving start whole old (H.outside host.old) self.old asked → WroteTo start whole old (H.outside host.new) self.new asked (IsWritten self.new) result }
        ensures written { OnOk result (IsWritten self.new) }
        ensures kept { self.new ≡ record self.old { out = self.new.out; notes = self.new.notes; output = self.new.output } }
    {
        match write(host, Lane::Note, self.notes.as_slice()) {
            Ok(()) => {
                self.notes.clear();
                Ok(())
            }
            Err(_) => Err(Halt::Unnoted),
        }
    }

    // Hands in what comes next of the main document.
    fn read_main<H: Host>(&mut self, host: &mut H) -> Result<Pumped, Halt>
        requires driven { IsDriven (H.outside host.old) self.old asks.Main }
        requires written { IsWritten self.old }
        ensures driven { (start : Run) (whole : Main) (old : Outside) → Driving start whole old (H.outside host.old) self.old asks.Main → StepsTo start whole old (H.outside host.new) self.new result }
        ensures less { OnOk result (main_left self.new < main_left self.old) }
    {
        match &mut self.main {
            Main::Host => self.read_on(host),
            Main::Sample(sample) => match next_chunk(self.alloc, sample) {
                Ok(chunk) => Ok(self.hand_chunk(chunk)),
                Err(Memory) => Err(Halt::Failed(Outcome::Memory)),
            },
        }
    }

    // Reads on in the main document of the host.
    fn read_on<H: Host>(&mut self, host: &mut H) -> Result<Pumped, Halt>
        requires driven { IsDriven (H.outside host.old) self.old asks.Main }
        requires written { IsWritten self.old }
        requires host { self.old.main ≡ main.Host }
        ensures driven { (start : Run) (whole : Main) (old : Outside) → Driving start whole old (H.outside host.old) self.old asks.Main → StepsTo start whole old (H.outside host.new) self.new result }
        ensures less { OnOk result (main_left self.new < main_left self.old) }
    {
        let mut room = [0; PIECE];
        match host.read(0, &mut room) {
            Got::Bytes(got) => Ok(self.hand_main(&room[..got])),
            Got::End => Ok(self.pump(Piece::End)),
            Got::Failed => Err(Halt::Failed(failure(self.alloc, HostFault::Read, self.input))),
        }
    }

    // Hands in bytes of the main document.
    fn hand_main(&mut self, bytes: &[u8]) -> Pumped
        requires { WantsMain self.old.engine }
        ensures driven { (start : Run) (whole : Main) (old now : Outside) → HandingBytes start whole old now self.old bytes.now → Driving start whole old now self.new result }
        ensures more { main_left self.new ≤ main_left self.old }
        ensures less { 0 < length bytes.now → main_left self.new < main_left self.old }
    {
        self.input = self.input.saturating_add(bytes.len() as u64);
        self.pump(Piece::Bytes(bytes))
    }

    // Hands in what comes next of the sample.
    fn hand_chunk(&mut self, chunk: Option<Text>) -> Pumped
        requires { WantsMain self.old.engine }
        ensures driven { (start : Run) (whole : Main) (old now : Outside) → HandingChunk start whole old now self.old chunk → Driving start whole old now self.new result }
        ensures more { main_left self.new ≤ main_left self.old }
        ensures less { chunk ≡ None → main_left self.new < main_left self.old }
    {
        match chunk {
            Some(chunk) => self.hand_main(chunk.as_str().as_bytes()),
            None => self.pump(Piece::End),
        }
    }

    // Reads on in the newest of the other documents.
    fn read_other<H: Host>(&mut self, host: &mut H) -> Result<Pumped, Halt>
        requires driven { IsDriven (H.outside host.old) self.old asks.Document }
        requires written { IsWritten self.old }
        ensures driven { (start : Run) (whole : Main) (old : Outside) → Driving start whole old (H.outside host.old) self.old asks.Document → StepsTo start whole old (H.outside host.new) self.new result }
        ensures less { OnOk result (LeavesLess self.old self.new) }
    {
        let mut room = [0; PIECE];
        match host.read(self.newest_id(), &mut room) {
            Got::Bytes(got) => {
                self.count(got);
                Ok(self.pump(Piece::Bytes(&room[..got])))
            }
            Got::End => {
                self.close(host);
                Ok(self.pump(Piece::End))
            }
            Got::Failed => Err(Halt::Failed(self.unread())),
        }
    }

    // The id of the newest of the other documents.
    fn newest_id(&self) -> u32
        requires { 0 < length self.now.others.items }
        ensures { (front : List Other) (o : Other) → self.now.others.items ≡ front ++ o ∷ [] → result ≡ o.id }
    {
        match self.others.last() {
            Some(other) => other.id,
            None => unreachable!(),
        }
    }

    // So many bytes more of it were read.
    fn count(&mut self, got: usize)
        requires some { 0 < length self.old.others.items }
        requires within { (front : List Other) (o : Other) → self.old.others.items ≡ front ++ o ∷ [] → o.read + got < 2 ^ 64 }
        ensures others { self.new ≡ record self.old { others = self.new.others } }
        ensures more { (front : List Other) (o : Other) → self.old.others.items ≡ front ++ o ∷ [] → self.new.others.items ≡ front ++ record o { read = o.read + got } ∷ [] }
    {
        match self.others.last_mut() {
            Some(other) => other.read += got as u64,
            None => unreachable!(),
        }
    }

    // It is read no more, and given back.
    fn close<H: Host>(&mut self, host: &mut H)
        requires some { 0 < length self.old.others.items }
        requires open { AreOpen (H.outside host.old).open_ids self.old.others.items }
        ensures others { self.new ≡ record self.old { others = self.new.others } }
        ensures gone { (front : List Other) (o : Other) → self.old.others.items ≡ front ++ o ∷ [] → (self.new.others.items ≡ front) × Closes (H.outside host.old) o.id (H.outside host.new) }
    {
        match self.others.pop() {
            Some(other) => host.close(other.id),
            None => unreachable!(),
        }
    }

    // The host failed on it, after all that was read of it.
    fn unread(&mut self) -> Outcome
        requires { 0 < length self.old.others.items }
        ensures outcome { (front : List Other) (o : Other) → self.old.others.items ≡ front ++ o ∷ [] → result ≡ outcome.Host o.name fault.Doc o.read }
        ensures others { self.new ≡ record self.old { others = self.new.others } }
        ensures ids { ids_of self.new.others.items ≡ ids_of self.old.others.items }
    {
        match self.others.last_mut() {
            Some(other) => Outcome::Host {
                file: mem::replace(&mut other.name, Text::new(self.alloc)),
                fault: HostFault::Doc,
                offset: other.read,
            },
            None => unreachable!(),
        }
    }

    // Opens the document that the engine asked for.
    fn open<H: Host>(&mut self, name: Text, host: &mut H) -> Result<Pumped, Halt>
        requires driven { IsDriven (H.outside host.old) self.old (asks.Open name) }
        requires written { IsWritten self.old }
        ensures driven { (start : Run) (whole : Main) (old : Outside) → Driving start whole old (H.outside host.old) self.old (asks.Open name) → StepsTo start whole old (H.outside host.new) self.new result }
        ensures less { OnOk result (LeavesLess self.old self.new) }
    {
        match host.open(&name) {
            Opened::Id(id) => self.add(id, name, host),
            Opened::Absent => Ok(self.pump(Piece::Absent)),
            Opened::Failed => Err(Halt::Failed(Outcome::Host {
                file: name,
                fault: HostFault::Doc,
                offset: 0,
            })),
            Opened::Memory => Err(Halt::Failed(Outcome::Memory)),
        }
    }

    // A document that was opened is read next. Where memory is wanting it is given back.
    fn add<H: Host>(&mut self, id: u32, name: Text, host: &mut H) -> Result<Pumped, Halt>
        requires opened { IsOpened (H.outside host.old) self.old id name }
        requires written { IsWritten self.old }
        ensures driven { (start : Run) (whole : Main) (old before : Outside) → Driving start whole old before self.old (asks.Open name) → MayOpen before name (answer.Id id) → Opens before name (answer.Id id) (H.outside host.old) → StepsTo start whole old (H.outside host.new) self.new result }
        ensures less { OnOk result (LeavesLess self.old self.new) }
    {
        match self.keep(Other { id, name, read: 0 }) {
            Ok(()) => Ok(self.pump(Piece::Opened)),
            Err(Memory) => {
                host.close(id);
                Err(Halt::Failed(Outcome::Memory))
            }
        }
    }

    // A document stands behind those that are read.
    fn keep(&mut self, other: Other) -> Result<(), Memory>
        ensures others { self.new ≡ record self.old { others = self.new.others } }
        ensures ok { OnOk result (self.new.others.items ≡ self.old.others.items ++ other ∷ []) }
        ensures err { OnErr result (self.new.others.items ≡ self.old.others.items) }
    {
        self.others.push(other)?;
        Ok(())
    }
}

// How a run ended that is read no more.
fn end_of(engine: Engine, halt: Halt) -> End
    requires { (halt ≡ halts.Over) → IsSome (outcome_in engine.stage) }
    ensures { HaltsAs engine halt result }
{
    match halt {
        Halt::Over => match engine.into_outcome() {
            Some(outcome) => End::Told(outcome),
            None => unreachable!(),
        },
        Halt::Failed(outcome) => {
            drop(engine);
            End::Told(outcome)
        }
        Halt::Unnoted => {
            drop(engine);
            End::Unnoted
        }
    }
}
