//! All of a run that changes, and what its steps have in common.

ghost use Rattle.std.specs.Prelude.{◌≡◌, ◌≢◌, ◌⊎◌, ◌+◌, ◌-◌, ◌<◌, ◌≤◌, ◌^◌, ℕ, List as Items, [], ◌∷◌, ◌++◌, IfOk, IfErr, OnOk, OnErr, IsSome, None, Some, Ok, true, length, reverse, slice_get};
ghost use Rattle.std.specs.Option.{option_and_then};
ghost use Rattle.frame_stack.specs.Change.{locals_of};
ghost use Rattle.frame_stack.specs.Frame.{instance_of};
ghost use Rattle.frame_stack.specs.Level.{instances};
ghost use Rattle.frame_stack.specs.Stack.{IsFull, with_frames};
ghost use Rattle.stx_base.specs.declared.fault.RunCode.TheVariants.{Instances};
ghost use Rattle.stx_base.specs.declared.node.NodeTest.TheVariants.{Document};
ghost use Rattle.node_stack.specs.Path.{document_alone};
ghost use Rattle.node_stack.specs.Stack.{path};
ghost use Rattle.template_machine.specs.Asking.{HasAsker, HasBase, IsAsker, IsBodyAsking, WaitsFor, base_by, place_by};
ghost use Rattle.template_machine.specs.Between.{Burns, GoesOn};
ghost use Rattle.template_machine.specs.Behind.{MovesFrom, instr_done};
ghost use Rattle.template_machine.specs.Bodies as bodies;
ghost use Rattle.template_machine.specs.Closing.{ClosesStream, IsOpenStream};
ghost use Rattle.template_machine.specs.Documents.{documents};
ghost use Rattle.template_machine.specs.Evaluating.{seen};
ghost use Rattle.template_machine.specs.Giving.{AsksForNone};
ghost use Rattle.template_machine.specs.Saying.{sight};
ghost use Rattle.template_machine.specs.Onward.{EndsWith, GoesOnTo, StepsOn};
ghost use Rattle.template_machine.specs.Ordinary.{IsAlone, IsOrdinary};
ghost use Rattle.template_machine.specs.Seen.{ParentsStandBefore};
ghost use Rattle.template_machine.specs.Shifting.{TakesBack};
ghost use Rattle.template_machine.specs.Sources.{Stands};
ghost use Rattle.template_machine.specs.Standing.{standing_of};
ghost use Rattle.template_machine.specs.Stops.{fault};
ghost use Rattle.template_machine.specs.Starting.{IsFresh, IsReady};
ghost use Rattle.template_machine.specs.Steps as spec;
ghost use Rattle.template_machine.specs.Steps.{Sees};
ghost use Rattle.template_machine.specs.Moments.{Follows, ListIsOver, WantsEvent};
ghost use Rattle.template_machine.specs.Well.{IsWaiting, IsWell};
ghost use Rattle.template_machine.specs.Work.{AsksNone, Begins, Falls, load, means_of};
ghost use Rattle.template_machine.specs.Working.{EntersSource};

use crate::bindings::Change;
use crate::bodies::{body_below, locals_at, pc_at, spent_at, take_off, template_below};
use crate::program::{Program, handed, place_of};
use crate::putting::Putting;
use crate::sink::Sink;
use crate::source::{Origin, Source};
use crate::stop::{Stop, pushed};
use crate::turn::Turn;
use crate::values::Setting;
use crate::vars::{InBody, InGroups};
use frame_stack::{Frame, Frames};
use node_stack::Parked;
use std::alloc::Global;
use std::mem;
use stx_base::{List, Memory, NodeTest, Place, Text};
use stxpath_eval::Vars;
use var_store::Store;

/// What goes on.
#[derive(Clone, Copy, Debug, PartialEq, Eq)]
pub enum Doing {
    /// The innermost body.
    Body,
    /// The innermost open list.
    List,
}

/// What comes of a step.
#[derive(Clone, Copy, Debug, PartialEq, Eq)]
pub enum Step {
    /// There is more to do.
    More,
    /// An event is wanted.
    Wait,
    /// A document is wanted.
    Want,
    /// The run is done.
    Over,
}

/// Who asked for the nodes of the innermost open list.
#[derive(Clone, Copy, Debug, PartialEq, Eq)]
pub enum Asker {
    /// The root group, for the document node.
    Root,
    /// A node without a template, for its children.
    Pass { base: u32 },
    /// A process instruction, by the place of its operation, of the body at a place of the frames.
    Instr { asked: u32, body: usize },
}

/// A body, by its place among the frames, and its next operation.
#[derive(Clone, Copy, Debug, PartialEq, Eq)]
pub struct Running {
    pub body: usize,
    pub pc: u32,
}

/// A body, by its place among the frames, and the place of the instruction that it runs.
#[derive(Clone, Copy, Debug, PartialEq, Eq)]
pub struct Spot {
    pub body: usize,
    pub at: Place,
}

/// All of a run that changes.
#[derive(Drop)]
pub struct Run {
    pub alloc: Global,
    pub frames: Frames,
    pub store: Store,
    pub putting: Putting,
    /// The innermost one.
    pub source: Source,
    /// Those around it, the main document first.
    pub outer: Vec<Source>,
    /// The nodes of bodies that wait for siblings, one for each region, which has none as long as the node is on the path.
    pub aside: Vec<Option<Parked>>,
    pub doing: Doing,
    /// What is left of it for the event.
    pub fuel: u64,
    /// The name of the document that is wanted.
    pub wanted: Text,
}

impl Run {
    /// At the document node of the main document.
    pub fn new(alloc: Global, program: &Program) -> Result<Run, Memory>
        requires { IsReady program.now }
        ensures { IfOk result (IsFresh program.now) }
    {
        let limits = &program.limits;
        let sheet = &program.sheet;
        let frames = Frames::new(alloc);
        let store = Store::new(alloc, sheet.groups.len() as u32)?;
        let putting = Putting::new(alloc, sheet, limits)?;
        let source = Source::new(alloc, limits.depth, Origin::Main)?;
        Ok(Run {
            alloc,
            frames,
            store,
            putting,
            source,
            outer: Vec::new(alloc),
            aside: Vec::new(alloc),
            doing: Doing::List,
            fuel: limits.fuel,
            wanted: Text::new(alloc),
        })
    }

    /// Goes on until an event or a document is wanted, or the run is over.
    #[inline(always)]
    pub fn go_on<S: Sink>(&mut self, program: &Program, out: &mut S) -> Turn
        requires { IsWell program.now self.old }
        ensures more { result ≡ Turn.More → WantsEvent program.now self.new }
        ensures want { (name : Items ℕ) → result ≡ Turn.WantDocument name → IsWaiting program.now self.new }
        ensures ended { result ≡ Turn.Ended → documents self.new ≡ [] }
        ensures fuel { Burns result self.old.fuel self.new.fuel }
        ensures documents { GoesOn result → documents self.new ≡ documents self.old }
        ensures goes { IsAlone program.now self.old → IsOrdinary program.now.code → GoesOnTo S.output S.told program.now result self.old self.new out.old out.new }
        ensures alone { IsOrdinary program.now.code → AsksForNone result }
    {
        loop {
            match self.step(program, out) {
                Ok(Step::More) => {}
                Ok(Step::Wait) => return Turn::More,
                Ok(Step::Want) => return self.want_document(),
                Ok(Step::Over) => return self.finish(program, out),
                Err(stop) => return stop.turn(),
            }
        }
    }

    /// Goes on behind a step.
    #[inline(never)]
    pub fn go_on_behind<S: Sink>(&mut self, program: &Program, step: Step, out: &mut S) -> Turn
        requires follows { Follows program.now step self.old }
        requires asks { AsksNone step }
        requires root { 0 < length program.now.sheet.groups }
        ensures more { result ≡ Turn.More → WantsEvent program.now self.new }
        ensures want { (name : Items ℕ) → result ≡ Turn.WantDocument name → IsWaiting program.now self.new }
        ensures ended { result ≡ Turn.Ended → documents self.new ≡ [] }
        ensures fuel { Burns result self.old.fuel self.new.fuel }
        ensures documents { GoesOn result → documents self.new ≡ documents self.old }
        ensures goes { IsAlone program.now self.old → IsOrdinary program.now.code → (step ≡ Step.Over → reverse self.old.frames.frames ≡ []) → GoesOnTo S.output S.told program.now result self.old self.new out.old out.new }
        ensures alone { IsOrdinary program.now.code → AsksForNone result }
    {
        match step {
            Step::More => self.go_on(program, out),
            Step::Wait => Turn::More,
            Step::Want => unreachable!(),
            Step::Over => self.finish(program, out),
        }
    }

    #[inline(always)]
    fn step<S: Sink>(&mut self, program: &Program, out: &mut S) -> Result<Step, Stop>
        requires { IsWell program.now self.old }
        ensures stands { IfOk result (λ step. Follows program.now step self.new) }
        ensures works { IfOk result (λ step. Falls program.now self.old step self.new) }
        ensures steps { IsAlone program.now self.old → IsOrdinary program.now.code → StepsOn S.output S.told program.now result self.old self.new out.old out.new }
    {
        match self.doing {
            Doing::Body => self.operate(program, out),
            Doing::List => self.look(program, out),
        }
    }

    fn want_document(&mut self) -> Turn
        ensures name { result ≡ Turn.WantDocument self.old.wanted }
        ensures rest { self.new ≡ record self.old { wanted = [] } }
    {
        Turn::WantDocument(mem::replace(&mut self.wanted, Text::new(self.alloc)))
    }

    fn finish<S: Sink>(&mut self, program: &Program, out: &mut S) -> Turn
        requires { 0 < length program.now.sheet.groups }
        ensures more { result ≢ Turn.More }
        ensures want { (name : Items ℕ) → result ≢ Turn.WantDocument name }
        ensures fuel { self.new.fuel ≡ self.old.fuel }
        ensures documents { documents self.new ≡ documents self.old }
        ensures unsaid { S.told out.old out.new [] }
        ensures ends { EndsWith program.now (S.output out.old).left result }
    {
        match self.putting.finish(program.group(0).at, out) {
            Ok(()) => Turn::Ended,
            Err(stop) => stop.turn(),
        }
    }

    // Fuel.

    /// Spends a unit at an instruction.
    #[inline(always)]
    pub fn spend(&mut self, at: Place) -> Result<(), Stop>
        ensures ok { OnOk result (spec.one_less self.old.fuel ≡ Some self.new.fuel) }
        ensures same { self.new ≡ record self.old { fuel = self.new.fuel } }
        ensures spent { IfErr result (λ stop. stop ≡ Stop.Spent at) }
        ensures err { OnErr result (self.old.fuel ≡ 0) }
    {
        match self.fuel.checked_sub(1) {
            Some(less) => {
                self.fuel = less;
                Ok(())
            }
            None => Err(Stop::Spent(at)),
        }
    }

    /// A node of the innermost source is begun.
    #[inline(always)]
    pub fn begin(&mut self, program: &Program) -> Result<(), Stop>
        ensures ok { OnOk result (spec.fuel_begun program.now.limits.fuel self.old.fuel self.old.source.origin ≡ Some self.new.fuel) }
        ensures same { self.new ≡ record self.old { fuel = self.new.fuel } }
        ensures spent { IfErr result (λ stop. (at : Place) → spec.opened_at self.old.source.origin ≡ Some at → stop ≡ Stop.Spent at) }
        ensures err { OnErr result (spec.fuel_begun program.now.limits.fuel self.old.fuel self.old.source.origin ≡ None) }
    {
        match self.source.origin {
            Origin::Main => {
                self.fuel = program.limits.fuel;
                Ok(())
            }
            Origin::Buffer { at, .. } | Origin::Document { at } => self.spend(at),
        }
    }

    /// A list of the innermost source is found ended.
    #[inline(always)]
    pub fn end_list(&mut self, program: &Program)
        ensures { self.new ≡ record self.old { fuel = spec.fuel_ended program.now.limits.fuel self.old.fuel self.old.source.origin } }
    {
        if self.source.origin == Origin::Main {
            self.fuel = program.limits.fuel;
        }
    }

    // Frames.

    /// The innermost body, below loops that stand over it.
    #[inline(always)]
    pub fn running(&self) -> Running
        requires { IsSome (bodies.pc_in (reverse self.now.frames.frames)) }
        ensures body { bodies.body_in (reverse self.now.frames.frames) ≡ Some result.body }
        ensures pc { bodies.pc_in (reverse self.now.frames.frames) ≡ Some result.pc }
    {
        let body = body_below(&self.frames, self.frames.count()).unwrap();
        Running {
            body,
            pc: pc_at(&self.frames, body),
        }
    }

    /// The body on which the top frame stands, below loops that stand over it.
    #[inline(always)]
    pub fn body_under_top(&self) -> usize
        requires { IsSome (bodies.body_in (bodies.below (length self.now.frames.frames - 1) self.now.frames.frames)) }
        ensures { bodies.body_in (bodies.below (length self.now.frames.frames - 1) self.now.frames.frames) ≡ Some result }
    {
        let top = self.frames.count().saturating_sub(1);
        body_below(&self.frames, top).unwrap()
    }

    /// Whether the children of the node of the innermost body are processed or skipped.
    pub fn is_spent(&self) -> bool
        requires { IsSome (bodies.spent_in (reverse self.now.frames.frames)) }
        ensures { bodies.spent_in (reverse self.now.frames.frames) ≡ Some result }
    {
        let template = template_below(&self.frames, self.frames.count()).unwrap();
        spent_at(&self.frames, template)
    }

    #[inline(always)]
    pub fn push(&mut self, program: &Program, frame: Frame, at: Place) -> Result<(), Stop>
        ensures ok { OnOk result (self.new ≡ record self.old { frames = with_frames (self.old.frames.frames ++ frame ∷ []) self.old.frames }) }
        ensures err { OnErr result (self.new ≡ self.old) }
        ensures room { OnOk result ((level : ℕ) → instance_of frame ≡ Some level → instances level self.old.frames.frames < program.now.limits.instances) }
        ensures full { IfErr result (λ stop. (stop ≡ Stop.Memory) ⊎ ((stop ≡ fault Instances at) × IsFull program.now.limits.instances frame self.old.frames.frames)) }
    {
        pushed(self.frames.push(program.limits.instances, frame), at)
    }

    // Who asks.

    /// Who asked for the nodes of the innermost open list.
    #[inline(always)]
    pub fn asker(&self, program: &Program) -> Asker
        requires { HasAsker program.now (reverse self.now.frames.frames) }
        ensures { IsAsker program.now result (reverse self.now.frames.frames) }
    {
        match self.frames.top() {
            None => Asker::Root,
            Some(Frame::Pass { base, .. }) => Asker::Pass { base: *base },
            Some(Frame::Region { asked, .. }) => self.top_asks(*asked),
            Some(Frame::Attributes { asked, .. }) => self.top_asks(*asked),
            Some(Frame::Source { asked, .. }) => self.top_asks(*asked),
            Some(Frame::Body { .. }) => self.body_asks(),
            Some(Frame::Call { .. }) => self.body_asks(),
            Some(Frame::Loop { .. }) => self.body_asks(),
            Some(Frame::Skip { .. }) => unreachable!(),
        }
    }

    /// The innermost body, with the instruction for which it waits.
    fn body_asks(&self) -> Asker
        requires { (asked : ℕ) × WaitsFor asked (reverse self.now.frames.frames) }
        ensures { IsBodyAsking result (reverse self.now.frames.frames) }
    {
        let Running { body, pc } = self.running();
        Asker::Instr {
            asked: pc - 1,
            body,
        }
    }

    /// The body on which the top frame stands, with the instruction that asked.
    fn top_asks(&self, asked: u32) -> Asker
        requires { WaitsFor asked (bodies.below (length self.now.frames.frames - 1) self.now.frames.frames) }
        ensures { IsBodyAsking result (bodies.below (length self.now.frames.frames - 1) self.now.frames.frames) }
    {
        Asker::Instr {
            asked,
            body: self.body_under_top(),
        }
    }

    /// The instruction is over for which the innermost body waits: the values that it handed don't wait any more, and the body goes on.
    pub fn end_process(&mut self, program: &Program)
        requires { IsWaiting program.now self.old }
        ensures stands { IsWell program.now self.new }
        ensures works { Begins 0 self.old self.new }
        ensures back { TakesBack program.now self.old self.new }
        ensures moves { IsAlone program.now self.old → MovesFrom program.now (λ given left f. instr_done given program.now self.old left f) (Ok Step.More) self.new }
    {
        let Running { body, pc } = self.running();
        let count = handed(program.instr_asked(pc - 1)).len();
        let len = locals_at(&self.frames, body).len() - count;
        self.frames.cut_locals(body, len);
        self.doing = Doing::Body;
    }

    // What is seen.

    #[inline(always)]
    pub fn seen<'a>(&'a self, program: &'a Program) -> InGroups<'a>
        requires parents { ParentsStandBefore program.now.sheet.groups }
        requires sized { length self.now.store ≡ length program.now.sheet.groups }
        ensures store { result.store.now ≡ self.now.store }
        ensures groups { result.groups.now ≡ program.now.sheet.groups }
    {
        InGroups {
            store: &self.store,
            groups: &program.sheet.groups,
        }
    }

    /// The group in which a body stands.
    pub fn group_of(&self, program: &Program, body: usize) -> u32
        requires { IsSome (option_and_then (spec.group_of program.now.sheet) (slice_get self.now.frames.frames body)) }
        ensures { option_and_then (spec.group_of program.now.sheet) (slice_get self.now.frames.frames body) ≡ Some result }
    {
        match self.frames.at(body) {
            Frame::Body { template, .. } => {
                program.sheet.templates.as_slice()[*template as usize].group
            }
            Frame::Call { procedure, .. } => {
                program.sheet.procedures.as_slice()[*procedure as usize].group
            }
            _ => unreachable!(),
        }
    }

    /// The test by which positions count in a body: that of its template, or of its procedure's caller.
    pub fn test_of<'a>(&self, program: &'a Program, body: usize) -> &'a NodeTest
        requires there { body < length self.now.frames.frames }
        requires test { IsSome (spec.test_in program.now.sheet (bodies.below (body + 1) self.now.frames.frames)) }
        requires root { program.now.test_of_root ≡ Document }
        ensures { spec.test_in program.now.sheet (bodies.below (body + 1) self.now.frames.frames) ≡ Some result.now }
    {
        prove!(body < self.frames.count());
        let place = template_below(&self.frames, body + 1).unwrap();
        match self.frames.at(place) {
            Frame::Body {
                template,
                alternative,
                ..
            } => program.test(*template, *alternative),
            _ => unreachable!(),
        }
    }

    /// What the expressions of a body see.
    pub fn setting<'a>(&'a self, program: &'a Program, body: usize) -> Setting<'a, InBody<'a>>
        requires { Sees program.now self.now body }
        ensures { bodies.body_in (reverse self.now.frames.frames) ≡ Some body → seen ⟦<InBody<'a> as Vars>⟧.value_of result ≡ sight program.now self.now }
    {
        Setting {
            alloc: self.alloc,
            stack: &self.source.stack,
            vars: InBody {
                locals: locals_at(&self.frames, body),
                group: self.group_of(program, body),
                all: self.seen(program),
            },
            test: self.test_of(program, body),
            limits: &program.limits,
        }
    }

    // Sources.

    /// A source begins within the one that was the innermost.
    pub fn enter_source(&mut self, depth: u32, origin: Origin) -> Result<(), Stop>
        requires { depth + 1 < 2 ^ 32 }
        ensures { OnOk result (EntersSource depth origin self.old self.new) }
    {
        let source = Source::new(self.alloc, depth, origin)?;
        self.outer.reserve(1)?;
        let outer = mem::replace(&mut self.source, source);
        self.outer.push(outer)?;
        self.putting.see(Change::Other);
        Ok(())
    }

    /// The list of the innermost source is over, and so is the source: the body that asked for it waits in the one around it.
    pub fn leave_source(&mut self, program: &Program)
        requires over { ListIsOver program.now self.old }
        requires source { bodies.is_source_in (reverse self.old.frames.frames) ≡ true }
        ensures stands { IsWaiting program.now self.new }
        ensures works { (means_of self.new ≡ means_of self.old) × (load self.new + 1 ≤ load self.old) }
    {
        take_off(&mut self.frames);
        self.close_stream();
        self.source = self.outer.pop().unwrap();
        self.putting.see(Change::Other);
    }

    /// Where the innermost source is a buffer, it is read no more. Allocates nothing.
    fn close_stream(&mut self)
        requires { IsOpenStream self.old.source.origin (standing_of self.old).shelves }
        ensures run { self.new ≡ record self.old { putting = self.new.putting } }
        ensures closed { ClosesStream self.old.source.origin self.old.putting self.new.putting }
    {
        match self.source.origin {
            Origin::Buffer { id, .. } => self.putting.buffers.close_read(id),
            Origin::Main => {}
            Origin::Document { .. } => {}
        }
    }

    /// How many other documents are open.
    pub fn documents(&self) -> u32 {
        let mut documents: u32 = 0;
        if let Origin::Document { .. } = self.source.origin {
            documents = 1;
        }
        for source in &self.outer {
            if let Origin::Document { .. } = source.origin {
                documents = documents.saturating_add(1);
            }
        }
        documents
    }

    /// How many lists of nodes are open.
    pub fn levels(&self, program: &Program) -> usize {
        let mut levels: usize = 1;
        for place in 0..self.frames.count() {
            if self.has_open_list(program, place) {
                levels = levels.saturating_add(1);
            }
        }
        levels
    }

    /// Whether a list of nodes is open over the frame at a place.
    fn has_open_list(&self, program: &Program, place: usize) -> bool
        requires { place < length self.now.frames.frames }
    {
        match self.frames.at(place) {
            Frame::Pass { .. } | Frame::Source { .. } | Frame::Attributes { .. } => true,
            Frame::Body { pc, .. } | Frame::Call { pc, .. } => { program.is_behind_children(*pc) }
            Frame::Loop { .. } | Frame::Region { .. } | Frame::Skip { .. } => false,
        }
    }

    /// The place of the instruction that asks for the nodes of the innermost list, or of the group that does.
    #[inline(always)]
    pub fn place_of(&self, program: &Program, asker: Asker) -> Place
        requires { HasBase program.now asker }
        ensures { result ≡ place_by program.now asker }
    {
        match asker {
            Asker::Root => program.group(0).at,
            Asker::Pass { base } => program.group(base).at,
            Asker::Instr { asked, .. } => place_of(program.instr_asked(asked)),
        }
    }

    #[inline(always)]
    pub fn base_of(&self, program: &Program, asker: Asker) -> u32
        requires { HasBase program.now asker }
        ensures within { result < length program.now.sheet.groups }
        ensures value { result ≡ base_by program.now asker }
    {
        match asker {
            Asker::Root => 0,
            Asker::Pass { base } => base,
            Asker::Instr { asked, .. } => program.link_asked(asked).base,
        }
    }
}
