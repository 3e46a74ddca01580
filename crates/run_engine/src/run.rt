//! What an engine does with a piece.

ghost use Rattle.std.specs.Prelude.{◌≡◌, ◌⊎◌, true, suc, ◌+◌, ◌<◌, ◌^◌, [], None, Some, IsSome, IfOk, OnOk, OnErr};
ghost use Rattle.std.specs.Option.{option_copied};
ghost use Rattle.stx_base.specs.declared.fault.RunCode.TheVariants.{NoDocument};
ghost use Rattle.sheet_model.specs.Sound.{IsSound};
ghost use Rattle.template_machine.specs.Ending.{Done, Faulted, Malformed, Spent};
ghost use Rattle.run_engine.specs.Does.{InOrder};
ghost use Rattle.run_engine.specs.Run as spec;
ghost use Rattle.run_engine.specs.Run.{Absents, HasBegun, Says, begun_with, StopsWith, file_at, file_of, outcome_in};
ghost use Rattle.run_engine.specs.Asks.{AsksFewer, asks_handed};
ghost use Rattle.run_engine.specs.Taking.{Takes, ended_first, fed_first, handed};
ghost use Rattle.run_engine.specs.inside.Cores.{Adds, Advances, Answers, Closes, Hands, HasFault, HasTold, IsBegun, IsFed, IsSame, IsKept, IsTurned, IsUnended, IsWanting, MayTake, Opens, Pulls, Reads, Settles, Waits, asks_asked, asks_of, documents_in, is_main, most_at, opens_of, run_of, stage_of};
ghost use Rattle.run_engine.specs.inside.Gives.{Gives, GivesAfter, GivesFrom, GivesPiece, ReadsInOrder, Runs, TellsEnd, TellsIn, gives_on, stage_after};
ghost use Rattle.run_engine.specs.declared.run.Stage.TheVariants as stage;
ghost use Rattle.run_engine.specs.declared.document.Document.{Document};
ghost use Rattle.run_engine.specs.declared.piece.Pumped.TheVariants as pumped;
ghost use Rattle.fault_report.specs.declared.outcome.Outcome.TheVariants as ended;

use crate::document::{Document, file_of};
use crate::law;
use crate::piece::{Piece, Pumped};
use fault_report::Outcome;
use sheet_model::Sheet;
use std::alloc::Global;
use std::mem;
use stx_base::{Copied, Limits, List, Memory, Place, RunFault, Spare, Text, XmlFault};
use template_machine::{Machine, Output, Param, Turn, law as machine_law};
use xml_events::{Event, EventReader, Pull};

/// What a result begins with.
const HEAD: &[u8] = b"<?xml version=\"1.0\" encoding=\"UTF-8\"?>\n";

/// How far a run is.
#[derive(Debug, Drop)]
enum Stage {
    /// It hasn't begun.
    New,
    /// It asks for bytes of the main document.
    Main,
    /// It asks for bytes of another document.
    Document,
    /// It asks for a document of this name.
    Wants(Text),
    Over(Outcome),
}

/// A run and the documents that are open. One that has ended is none of them.
#[derive(Drop)]
pub struct Core {
    alloc: Global,
    limits: Limits,
    strip: bool,
    cdata: bool,
    /// The names of the sheet's files.
    files: List<Text>,
    machine: Machine,
    /// The document that is read.
    newest: Option<Document>,
    /// The documents that are read once it has ended, the next one last.
    outer: Vec<Document>,
    stage: Stage,
    /// Texts that are done with, of which readers make others.
    spare: Spare,
    pub out: Output,
}

impl Core {
    pub fn new(
        alloc: Global,
        sheet: Sheet,
        params: List<Param>,
        limits: Limits,
    ) -> Result<Core, Memory>
        requires sound { IsSound sheet }
        requires depth { limits.depth + 1 < 2 ^ 32 }
        requires elements { limits.elements + 1 < 2 ^ 32 }
        ensures { IfOk result (IsBegun sheet params limits) }
    {
        match sheet.files.copy(alloc) {
            Ok(files) => Core::with_files(alloc, files, sheet, params, limits),
            Err(Memory) => {
                drop(sheet);
                drop(params);
                Err(Memory)
            }
        }
    }

    // A run of a sheet with these files.
    fn with_files(
        alloc: Global,
        files: List<Text>,
        sheet: Sheet,
        params: List<Param>,
        limits: Limits,
    ) -> Result<Core, Memory>
        requires sound { IsSound sheet }
        requires depth { limits.depth + 1 < 2 ^ 32 }
        requires elements { limits.elements + 1 < 2 ^ 32 }
        requires files { files ≡ sheet.files }
        ensures { IfOk result (IsBegun sheet params limits) }
    {
        law::documents();
        let (strip, cdata) = (sheet.strip, sheet.cdata);
        let machine = Machine::new(alloc, sheet, limits, params)?;
        let main = Document {
            name: None,
            reader: EventReader::for_sheet(alloc, limits, strip, cdata),
        };
        Ok(Core {
            alloc,
            limits,
            strip,
            cdata,
            files,
            machine,
            newest: Some(main),
            outer: Vec::new(alloc),
            stage: Stage::New,
            spare: Spare::new(alloc),
            out: Output::new(alloc, limits.elements),
        })
    }

    pub fn outcome(&self) -> Option<&Outcome>
        ensures { option_copied result ≡ outcome_in (stage_of self.now.stage) }
    {
        match &self.stage {
            Stage::Over(outcome) => Some(outcome),
            _ => None,
        }
    }

    pub fn into_outcome(mut self) -> Option<Outcome>
        ensures { result ≡ outcome_in (stage_of self.stage) }
    {
        let outcome = self.take_outcome();
        drop(self);
        outcome
    }

    // How the run ended, of which nothing else is asked any more.
    fn take_outcome(&mut self) -> Option<Outcome>
        ensures { result ≡ outcome_in (stage_of self.old.stage) }
    {
        match &mut self.stage {
            Stage::Over(outcome) => Some(mem::replace(outcome, Outcome::Memory)),
            _ => None,
        }
    }

    /// Takes a piece. Where it is the start, the head of the result is appended to `out`.
    pub fn step(&mut self, piece: Piece<'_>, out: &mut Vec<u8>) -> Pumped
        requires { MayTake self.old piece }
        ensures takes { Says result (stage_of self.new.stage) }
        ensures sound { IsKept self.new }
        ensures same { IsSame self.old self.new }
        ensures took { Takes (stage_of self.new.stage) (handed (run_of self.old) piece.entry) (opens_of self.new) }
        ensures asks { AsksFewer (stage_of self.new.stage) (asks_handed (run_of self.old) piece.entry) (asks_of self.new) }
        ensures absent { Absents piece.entry (stage_of self.new.stage) }
        ensures out { HasBegun piece.entry out.old.items (stage_of self.new.stage) out.new.items }
        // Where memory was wanting for the head, nothing else was done.
        ensures begun { (out.new.items ≡ begun_with piece.entry out.old.items) ⊎ ((out.new.items ≡ out.old.items) × (self.new.out ≡ self.old.out)) }
        ensures gives { InOrder (run_of self.old) → GivesPiece piece.entry (stage_of self.new.stage) self.old self.new }
    {
        match begin(piece, out) {
            Ok(()) => self.take(piece),
            Err(Memory) => self.lack(),
        }
    }

    fn take(&mut self, piece: Piece<'_>) -> Pumped
        requires { MayTake self.old piece }
        ensures takes { Says result (stage_of self.new.stage) }
        ensures sound { IsKept self.new }
        ensures same { IsSame self.old self.new }
        ensures took { Takes (stage_of self.new.stage) (handed (run_of self.old) piece.entry) (opens_of self.new) }
        ensures asks { AsksFewer (stage_of self.new.stage) (asks_handed (run_of self.old) piece.entry) (asks_of self.new) }
        ensures absent { Absents piece.entry (stage_of self.new.stage) }
        ensures gives { InOrder (run_of self.old) → GivesPiece piece.entry (stage_of self.new.stage) self.old self.new }
    {
        match piece {
            Piece::Start => {
                let turn = self.machine.start(&mut self.out);
                self.go_from(turn)
            }
            Piece::Bytes(bytes) => match self.feed(bytes) {
                Ok(()) => self.go_on(),
                Err(Memory) => self.lack(),
            },
            Piece::End => {
                self.finish();
                self.go_on()
            }
            Piece::Opened => match self.open() {
                Ok(()) => {
                    let turn = self.machine.document_opened(&mut self.out);
                    self.go_from(turn)
                }
                Err(Memory) => self.lack(),
            },
            Piece::Absent => self.miss(),
        }
    }

    // The newest document goes on with a piece.
    fn feed(&mut self, piece: &[u8]) -> Result<(), Memory>
        requires reads { Reads self.old }
        requires unended { IsUnended self.old }
        ensures reads { OnOk result (Reads self.new) }
        ensures given { OnOk result (opens_of self.new ≡ fed_first piece.now (opens_of self.old)) }
        ensures same { IsSame self.old self.new }
        ensures machine { self.new.machine ≡ self.old.machine }
        ensures out { self.new.out ≡ self.old.out }
    {
        match &mut self.newest {
            Some(document) => document.reader.feed(piece),
            None => unreachable!(),
        }
    }

    // The newest document ends.
    fn finish(&mut self)
        requires reads { Reads self.old }
        requires unended { IsUnended self.old }
        ensures reads { Reads self.new }
        ensures given { opens_of self.new ≡ ended_first (opens_of self.old) }
        ensures same { IsSame self.old self.new }
        ensures machine { self.new.machine ≡ self.old.machine }
        ensures out { self.new.out ≡ self.old.out }
    {
        match &mut self.newest {
            Some(document) => document.reader.finish(),
            None => unreachable!(),
        }
    }

    // The wanted document becomes the newest.
    fn open(&mut self) -> Result<(), Memory>
        requires wants { IsWanting self.old }
        requires bare { self.old.newest ≡ None → self.old.outer.items ≡ [] }
        ensures opens { OnOk result (Opens self.old self.new) }
        ensures same { IsSame self.old self.new }
    {
        law::documents();
        let name = Some(self.take_wanted());
        let reader = EventReader::for_sheet(self.alloc, self.limits, self.strip, self.cdata);
        self.add(Document { name, reader })
    }

    // The name of the wanted document.
    fn take_wanted(&mut self) -> Text
        requires { IsWanting self.old }
        ensures name { stage_of self.old.stage ≡ spec.Wants result }
        ensures others { self.new ≡ record self.old { stage = self.new.stage } }
    {
        match mem::replace(&mut self.stage, Stage::Document) {
            Stage::Wants(name) => name,
            _ => unreachable!(),
        }
    }

    // A document becomes the newest.
    fn add(&mut self, document: Document) -> Result<(), Memory>
        requires { self.old.newest ≡ None → self.old.outer.items ≡ [] }
        ensures adds { OnOk result (Adds document self.old self.new) }
        ensures same { IsSame self.old self.new }
    {
        match self.newest.replace(document) {
            Some(outer) => {
                self.outer.push(outer)?;
                Ok(())
            }
            None => Ok(()),
        }
    }

    // There is no wanted document.
    fn miss(&mut self) -> Pumped
        requires { Waits self.old }
        ensures answers { Answers 0 self.old result self.new }
        ensures code { StopsWith NoDocument (stage_of self.new.stage) }
    {
        match self.machine.document_absent() {
            Turn::Stopped(fault) => self.stop(fault),
            _ => unreachable!(),
        }
    }

    fn go_from(&mut self, turn: Turn) -> Pumped
        requires { IsTurned turn self.old }
        ensures answers { Answers (most_at turn (asks_of self.old)) self.old result self.new }
        ensures gives { GivesAfter turn (stage_of self.new.stage) self.old self.new }
    {
        match self.settle(turn) {
            Some(pumped) => pumped,
            None => self.go_on(),
        }
    }

    // Takes all events that are ready.
    fn go_on(&mut self) -> Pumped
        requires { Reads self.old }
        ensures answers { Answers (asks_of self.old) self.old result self.new }
        ensures gives { ReadsInOrder self.old → Gives (stage_of self.new.stage) self.old self.new }
    {
        loop {
            if let Some(pumped) = self.advance() {
                return pumped;
            }
        }
    }

    // Takes the next event, if one is ready.
    #[inline(always)]
    fn advance(&mut self) -> Option<Pumped>
        requires { Reads self.old }
        ensures advances { Advances self.old result self.new }
        ensures gives { ReadsInOrder self.old → Gives (stage_after result (stage_of self.new.stage)) self.old self.new }
    {
        machine_law::waiting();
        match self.pull() {
            Pull::Event(event) => self.hand(event),
            Pull::Need => Some(self.ask()),
            Pull::End => unreachable!(),
            Pull::Bad(fault) => Some(self.fail(fault)),
            Pull::Memory => Some(self.lack()),
        }
    }

    // Hands an event of the newest document to the machine.
    #[inline(always)]
    fn hand(&mut self, event: Event) -> Option<Pumped>
        requires { HasTold event self.old }
        ensures hands { Hands self.old result self.new }
        ensures gives { ReadsInOrder self.old → GivesFrom (λ given. Runs given self.old) (gives_on event self.old) (stage_after result (stage_of self.new.stage)) self.old self.new }
    {
        self.close(&event);
        let turn = self.machine.on_event(event, &mut self.out);
        self.settle(turn)
    }

    // A document that has ended is read no more.
    fn close(&mut self, event: &Event)
        requires { self.old.newest ≡ None → self.old.outer.items ≡ [] }
        ensures { Closes event.now self.old self.new }
    {
        if let Event::DocumentEnd { .. } = event {
            self.newest = self.outer.pop();
        }
    }

    // The next event of the newest document.
    #[inline(always)]
    fn pull(&mut self) -> Pull
        requires { Reads self.old }
        ensures { Pulls self.old result self.new }
    {
        machine_law::asking();
        self.machine.exchange_spare(&mut self.spare);
        match &mut self.newest {
            Some(document) => document.reader.next(&mut self.spare),
            None => unreachable!(),
        }
    }

    // More of the newest document must come.
    fn ask(&mut self) -> Pumped
        requires reads { Reads self.old }
        requires hungry { IsFed self.old }
        ensures answers { Answers (asks_asked self.old) self.old result self.new }
        ensures kept { self.new ≡ record self.old { stage = self.new.stage } }
        ensures main { is_main self.old.newest ≡ true → stage_of self.new.stage ≡ spec.Main }
    {
        if self.reads_main() {
            self.stage = Stage::Main;
            Pumped::Main
        } else {
            self.stage = Stage::Document;
            Pumped::Document
        }
    }

    fn reads_main(&self) -> bool
        ensures { result ≡ is_main self.now.newest }
    {
        matches!(&self.newest, Some(Document { name: None, .. }))
    }

    // How the run goes on behind an answer of the machine, where not with the next event.
    #[inline(always)]
    fn settle(&mut self, turn: Turn) -> Option<Pumped>
        requires { IsTurned turn self.old }
        ensures settles { Settles turn self.old result self.new }
        ensures kept { self.new ≡ record self.old { stage = self.new.stage } }
        ensures tells { TellsIn self.old.files turn result (stage_of self.new.stage) }
    {
        match turn {
            Turn::More => None,
            Turn::Ended => Some(self.done()),
            Turn::WantDocument(name) => Some(self.want(name)),
            Turn::Stopped(fault) => Some(self.stop(fault)),
            Turn::Spent(at) => Some(self.spend(at)),
            Turn::Memory => Some(self.lack()),
        }
    }

    fn want(&mut self, name: Text) -> Pumped
        requires { Waits self.old }
        ensures answers { Answers (suc (asks_of self.old)) self.old result self.new }
        ensures kept { self.new ≡ record self.old { stage = self.new.stage } }
    {
        match name.copy(self.alloc) {
            Ok(wanted) => {
                self.stage = Stage::Wants(wanted);
                Pumped::Open(name)
            }
            Err(Memory) => self.lack(),
        }
    }

    // An instruction has a fault.
    fn stop(&mut self, fault: RunFault) -> Pumped
        ensures answers { Answers 0 self.old result self.new }
        ensures code { StopsWith fault.code (stage_of self.new.stage) }
        ensures kept { self.new ≡ record self.old { stage = self.new.stage } }
        ensures tells { TellsEnd self.old.files (Faulted fault) (stage_of self.new.stage) }
    {
        let RunFault { code, at } = fault;
        match self.file(at) {
            Ok(file) => self.end(Outcome::Run {
                file,
                code,
                offset: at.offset,
            }),
            Err(Memory) => self.lack(),
        }
    }

    // An instruction needs more fuel than there is.
    fn spend(&mut self, at: Place) -> Pumped
        ensures answers { Answers 0 self.old result self.new }
        ensures kept { self.new ≡ record self.old { stage = self.new.stage } }
        ensures tells { TellsEnd self.old.files (Spent at) (stage_of self.new.stage) }
    {
        match self.file(at) {
            Ok(file) => self.end(Outcome::Fuel {
                file,
                offset: at.offset,
            }),
            Err(Memory) => self.lack(),
        }
    }

    // The name of the file in which an instruction stands.
    fn file(&self, at: Place) -> Result<Text, Memory>
        ensures { IfOk result (λ file. file ≡ file_at self.now.files at) }
    {
        match self.files.get(at.file as usize) {
            Some(name) => name.copy(self.alloc),
            None => Ok(Text::new(self.alloc)),
        }
    }

    // The newest document has a fault.
    fn fail(&mut self, fault: XmlFault) -> Pumped
        requires { HasFault fault self.old }
        ensures answers { Answers 0 self.old result self.new }
        ensures kept { self.new ≡ record self.old { stage = self.new.stage } }
        ensures tells { (d : Document) → self.old.newest ≡ Some d → TellsEnd self.old.files (Malformed d.name fault) (stage_of self.new.stage) }
    {
        match self.newest_file() {
            Ok(file) => self.end(Outcome::Xml { file, fault }),
            Err(Memory) => self.lack(),
        }
    }

    // The name of the newest document, where its fault is told.
    fn newest_file(&self) -> Result<Text, Memory>
        requires { IsSome self.now.newest }
        ensures { (d : Document) → self.now.newest ≡ Some d → IfOk result (λ file. file ≡ file_of d.name) }
    {
        match &self.newest {
            Some(document) => file_of(self.alloc, &document.name),
            None => unreachable!(),
        }
    }

    // Memory is wanting.
    pub fn lack(&mut self) -> Pumped
        ensures answer { result ≡ pumped.Stopped }
        ensures over { self.new ≡ record self.old { stage = stage.Over ended.Memory } }
    {
        self.end(Outcome::Memory)
    }

    fn done(&mut self) -> Pumped
        requires { documents_in self.old ≡ [] }
        ensures answers { Answers 0 self.old result self.new }
        ensures kept { self.new ≡ record self.old { stage = self.new.stage } }
        ensures tells { TellsEnd self.old.files Done (stage_of self.new.stage) }
    {
        self.stage = Stage::Over(Outcome::Done);
        Pumped::Done
    }

    // The run was stopped.
    fn end(&mut self, outcome: Outcome) -> Pumped
        ensures answer { result ≡ pumped.Stopped }
        ensures over { self.new ≡ record self.old { stage = stage.Over outcome } }
    {
        self.stage = Stage::Over(outcome);
        Pumped::Stopped
    }
}

// A result begins with its head.
fn begin(piece: Piece<'_>, out: &mut Vec<u8>) -> Result<(), Memory>
    ensures ok { OnOk result (out.new.items ≡ begun_with piece.entry out.old.items) }
    ensures err { OnErr result (out.new.items ≡ out.old.items) }
{
    match piece {
        Piece::Start => match out.extend_from_slice(HEAD) {
            Ok(()) => Ok(()),
            Err(_) => Err(Memory),
        },
        _ => Ok(()),
    }
}
