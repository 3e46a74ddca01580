//! A run of a sheet, event by event.

ghost use Rattle.std.specs.Prelude.{◌≡◌, ◌+◌, ◌<◌, ◌^◌, [], ◌∷◌, true, false, ℕ, IfOk, OnOk, List as Items, map};
ghost use Rattle.result_writer.specs.Target.{Left};
ghost use Rattle.sheet_model.specs.Sound.{IsSound};
ghost use Rattle.sheet_model.specs.declared.sheet.Sheet.{Sheet as Sheets};
ghost use Rattle.stx_base.specs.declared.limits.Limits.{Limits as Limit};
ghost use Rattle.xml_events.specs.Tree.{Future};
ghost use Rattle.template_machine.specs.Between.{Burns, Continues, GoesOn, IsAbsent, IsAsking, IsAskingForDocument, IsNew, IsOf, behind, depth_of, documents_of, fuel_at, fuel_limit_of, fuel_of, mains_behind, mains_of, spare_of};
ghost use Rattle.template_machine.specs.Commands.{given_by};
ghost use Rattle.template_machine.specs.Giving.{AsksForNone, BeginsDocument, HasOrdinarySheet, RunsInOrder, TakesEvent, params_of, rest};
ghost use Rattle.template_machine.specs.Job.{Given};
ghost use Rattle.template_machine.specs.Moments.{Follows};
ghost use Rattle.template_machine.specs.Onward.{StartsWith};
ghost use Rattle.template_machine.specs.Work.{AsksNone, means_of};

use crate::program::Program;
use crate::run::{Asker, Run, Step};
use crate::sink::Sink;
use crate::stop::Stop;
use crate::turn::{Param, Turn};
use sheet_model::Sheet;
use std::alloc::Global;
use std::mem;
use stx_base::{Limits, List, Memory, RunCode, Spare};
use xml_events::Event;

/// A run of a sheet. What it puts goes to what takes it.
#[derive(Drop)]
pub struct Machine {
    program: Program,
    run: Run,
}

impl Machine {
    pub fn new(
        alloc: Global,
        sheet: Sheet,
        limits: Limits,
        params: List<Param>,
    ) -> Result<Machine, Memory>
        requires sound { IsSound sheet }
        requires depth { limits.depth + 1 < 2 ^ 32 }
        requires elements { limits.elements + 1 < 2 ^ 32 }
        ensures new { IfOk result IsNew }
        ensures runs { IfOk result (IsOf sheet limits) }
        ensures depth { IfOk result (λ m. depth_of m ≡ limits.depth) }
        ensures fuel { IfOk result (λ m. fuel_of m ≡ limits.fuel) }
        ensures fuel_limit { IfOk result (λ m. fuel_limit_of m ≡ limits.fuel) }
        ensures params { IfOk result (λ m. params_of m ≡ map given_by params) }
    {
        let program = Program::new(alloc, sheet, limits, params)?;
        let run = Run::new(alloc, &program)?;
        Ok(Machine { program, run })
    }

    /// Begins the main document node.
    pub fn start<S: Sink>(&mut self, out: &mut S) -> Turn
        requires { IsNew self.old }
        ensures more { result ≡ Turn.More → IsAsking self.new }
        ensures want { (name : Items ℕ) → result ≡ Turn.WantDocument name → IsAskingForDocument self.new }
        ensures ended { result ≡ Turn.Ended → documents_of self.new ≡ [] }
        ensures documents { GoesOn result → documents_of self.new ≡ 1 ∷ [] }
        ensures depth { depth_of self.new ≡ depth_of self.old }
        ensures mains { GoesOn result → mains_of self.new ≡ true ∷ [] }
        ensures fuel { Burns result (fuel_of self.old) (fuel_of self.new) }
        ensures fuel_limit { fuel_limit_of self.new ≡ fuel_limit_of self.old }
        ensures of { (sheet : Sheets) (limits : Limit) → IsOf sheet limits self.old → IsOf sheet limits self.new }
        // Where the sheet takes the nodes of the main document alone, each list in order: what it still does on that document, whatever
        // it is. It asks for no other.
        ensures gives { HasOrdinarySheet self.old → BeginsDocument S.output S.told result self.old self.new out.old out.new }
        ensures alone { HasOrdinarySheet self.old → AsksForNone result }
        ensures params { params_of self.new ≡ params_of self.old }
    {
        match self.begin(out) {
            Ok(step) => self.run.go_on_behind(&self.program, step, out),
            Err(stop) => stop.turn(),
        }
    }

    #[inline(never)]
    fn begin<S: Sink>(&mut self, out: &mut S) -> Result<Step, Stop>
        requires { IsNew self.old }
        ensures follows { IfOk result (λ step. Follows self.new.program step self.new.run) }
        ensures asks { IfOk result AsksNone }
        ensures means { OnOk result (means_of self.new.run ≡ means_of self.old.run) }
        ensures program { self.new.program ≡ self.old.program }
        ensures starts { StartsWith S.output S.told self.old result self.new.run out.old out.new }
    {
        self.run.make_all(&self.program)?;
        self.run.take(&self.program, Asker::Root, out)
    }

    /// Takes the next event of the newest open document.
    #[inline(always)]
    pub fn on_event<S: Sink>(&mut self, event: Event, out: &mut S) -> Turn
        requires asking { IsAsking self.old }
        requires event { Continues self.old event }
        ensures more { result ≡ Turn.More → IsAsking self.new }
        ensures want { (name : Items ℕ) → result ≡ Turn.WantDocument name → IsAskingForDocument self.new }
        ensures ended { result ≡ Turn.Ended → documents_of self.new ≡ [] }
        ensures documents { GoesOn result → documents_of self.new ≡ behind event (documents_of self.old) }
        ensures depth { depth_of self.new ≡ depth_of self.old }
        ensures mains { GoesOn result → mains_of self.new ≡ mains_behind event (mains_of self.old) }
        ensures fuel { Burns result (fuel_at (mains_of self.old) (fuel_limit_of self.old) (fuel_of self.old)) (fuel_of self.new) }
        ensures fuel_limit { fuel_limit_of self.new ≡ fuel_limit_of self.old }
        ensures of { (sheet : Sheets) (limits : Limit) → IsOf sheet limits self.old → IsOf sheet limits self.new }
        ensures gives { RunsInOrder self.old → TakesEvent S.output S.told event result self.old self.new out.old out.new }
        ensures alone { RunsInOrder self.old → AsksForNone result }
        ensures params { params_of self.new ≡ params_of self.old }
    {
        self.run.source.count(&event);
        match self.run.arrive(&self.program, event) {
            Ok(()) => self.run.go_on(&self.program, out),
            Err(stop) => stop.turn(),
        }
    }

    /// The wanted document is there: its events come next.
    pub fn document_opened<S: Sink>(&mut self, out: &mut S) -> Turn
        requires { IsAskingForDocument self.old }
        ensures more { result ≡ Turn.More → IsAsking self.new }
        ensures want { (name : Items ℕ) → result ≡ Turn.WantDocument name → IsAskingForDocument self.new }
        ensures ended { result ≡ Turn.Ended → documents_of self.new ≡ [] }
        ensures documents { GoesOn result → documents_of self.new ≡ 1 ∷ documents_of self.old }
        ensures depth { depth_of self.new ≡ depth_of self.old }
        ensures mains { GoesOn result → mains_of self.new ≡ false ∷ mains_of self.old }
        ensures fuel { Burns result (fuel_of self.old) (fuel_of self.new) }
        ensures fuel_limit { fuel_limit_of self.new ≡ fuel_limit_of self.old }
        ensures params { params_of self.new ≡ params_of self.old }
    {
        match self.run.begin_document(&self.program) {
            Ok(()) => self.run.go_on_behind(&self.program, Step::More, out),
            Err(stop) => stop.turn(),
        }
    }

    /// There is no wanted document. Allocates nothing.
    pub fn document_absent(&mut self) -> Turn
        requires { IsAskingForDocument self.old }
        ensures same { self.new ≡ self.old }
        ensures stopped { IsAbsent result }
    {
        let at = self.run.place_of_wanted(&self.program);
        Stop::fault(RunCode::NoDocument, at).turn()
    }

    /// Exchanges texts that are done with, for the next events, for others. Allocates nothing.
    pub fn exchange_spare(&mut self, spare: &mut Spare)
        ensures taken { spare.new ≡ spare_of self.old }
        ensures left { spare_of self.new ≡ spare.old }
        ensures asking { IsAsking self.old → IsAsking self.new }
        ensures documents { documents_of self.new ≡ documents_of self.old }
        ensures depth { depth_of self.new ≡ depth_of self.old }
        ensures mains { mains_of self.new ≡ mains_of self.old }
        ensures fuel { fuel_of self.new ≡ fuel_of self.old }
        ensures fuel_limit { fuel_limit_of self.new ≡ fuel_limit_of self.old }
        ensures of { (sheet : Sheets) (limits : Limit) → IsOf sheet limits self.old → IsOf sheet limits self.new }
        ensures order { (HasOrdinarySheet self.old → HasOrdinarySheet self.new) × (RunsInOrder self.old → RunsInOrder self.new) }
        ensures params { params_of self.new ≡ params_of self.old }
        ensures rest { (given : Given) (left : Left) (f : Future) → rest given self.old left f ≡ rest given self.new left f }
    {
        mem::swap(&mut self.run.putting.spare, spare);
    }

    /// How many frames wait. Allocates nothing.
    pub fn frames(&self) -> usize {
        self.run.frames.count()
    }

    /// How many lists of nodes are open. Allocates nothing.
    pub fn levels(&self) -> usize {
        self.run.levels(&self.program)
    }

    /// How many other documents are open. Allocates nothing.
    pub fn sources(&self) -> u32 {
        self.run.documents()
    }
}
