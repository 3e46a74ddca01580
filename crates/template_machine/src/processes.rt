//! Instructions that process nodes.

ghost use Rattle.std.specs.Prelude.{◌≡◌, ◌<◌, ◌∷◌, Some, false, IfOk, OnOk, length, slice_get, ◌^◌};
ghost use Rattle.node_stack.specs.Path.{can_end, current};
ghost use Rattle.node_stack.specs.Stack.{path};
ghost use Rattle.sheet_model.specs.declared.instr.Instr.{Instr as Instruction};
ghost use Rattle.sheet_model.specs.declared.instr.Instr.TheViews.{out-Instr};
ghost use Rattle.template_machine.specs.Behind.{MovesFrom, StepsFrom, instr_acts};
ghost use Rattle.template_machine.specs.Contexts.{HasForm, Single};
ghost use Rattle.template_machine.specs.Documents.{documents};
ghost use Rattle.template_machine.specs.Evaluating.{TemplateCanBeEvaluated};
ghost use Rattle.template_machine.specs.Moments.{Follows, IsAtOp};
ghost use Rattle.template_machine.specs.Ordinary.{IsAlone, IsOrdinary};
ghost use Rattle.template_machine.specs.Reached.{AsksForAttributes, AsksForChildren, AsksForItself};
ghost use Rattle.template_machine.specs.Shifting.{Hands};
ghost use Rattle.template_machine.specs.Well.{IsWaiting, IsWell};
ghost use Rattle.template_machine.specs.Work.{Begins};
ghost use Rattle.template_machine.specs.Working.{Awaits, CanBeSkipped, HasBuffer, PushesWaiting};

use crate::bodies::{level_at, spend_children};
use crate::program::{Program, handed, place_of};
use crate::run::{Doing, Run, Running, Spot, Step};
use crate::sink::Sink;
use crate::source::Origin;
use crate::stop::{Stop, buffered, evaluated};
use frame_stack::Frame;
use instr_code::Op;
use node_stack::NodeView;
use stx_base::{List, Memory, Place, RunCode};
use stxpath_syntax::Avt;
use stxpath_values::Atom;

impl Run {
    /// The values that an instruction hands to parameters wait among its body's locals until it is over.
    fn hand(
        &mut self,
        program: &Program,
        running: Running,
        number: u32,
        at: Place,
    ) -> Result<(), Stop>
        requires op { IsAtOp program.now self.old running (Op.Do number) }
        requires form { HasForm program.now.code number Single }
        ensures stands { OnOk result (Awaits program.now self.new running.pc running.body) }
        ensures works { OnOk result (Begins 0 self.old self.new) }
        ensures hands { (instr : Instruction) → slice_get program.now.code.instrs number ≡ Some instr → Hands program.now instr at running.pc result self.old self.new }
    {
        let spot = Spot {
            body: running.body,
            at,
        };
        let values = self.values(program, handed(program.instr(number)), spot)?;
        self.frames.set_pc(running.body, running.pc + 1);
        self.push_waiting(running.body, values)?;
        Ok(())
    }

    fn push_waiting(&mut self, body: usize, values: List<List<Atom>>) -> Result<(), Memory>
        requires { body < length self.old.frames.frames }
        ensures pushes { OnOk result (PushesWaiting values body self.old self.new) }
        ensures rest { self.new ≡ record self.old { frames = self.new.frames } }
    {
        for value in values.into_vec() {
            let name = self.no_name();
            self.frames.push_local(body, name, value)?;
        }
        Ok(())
    }

    /// The children of the current node, unless they are gone.
    pub fn process_children(
        &mut self,
        program: &Program,
        running: Running,
        number: u32,
        at: Place,
    ) -> Result<Step, Stop>
        requires op { IsAtOp program.now self.old running (Op.Do number) }
        requires form { HasForm program.now.code number Single }
        ensures stands { IfOk result (λ step. Follows program.now step self.new) }
        ensures works { OnOk result (Begins (2 ^ 68) self.old self.new) }
        ensures moves { (instr : Instruction) → slice_get program.now.code.instrs number ≡ Some instr → AsksForChildren at (out-Instr instr) → IsAlone program.now self.old → MovesFrom program.now (λ given left f. instr_acts given program.now instr running.pc self.old left f) result self.new }
    {
        self.hand(program, running, number, at)?;
        if !self.source.has_list() {
            self.end_process(program);
            return Ok(Step::More);
        }
        if self.is_spent() {
            return Err(Stop::fault(RunCode::ChildrenTwice, at));
        }
        let level = level_at(&self.frames, running.body);
        spend_children(&mut self.frames, level);
        self.doing = Doing::List;
        Ok(Step::More)
    }

    pub fn process_attributes(
        &mut self,
        program: &Program,
        running: Running,
        number: u32,
        at: Place,
    ) -> Result<Step, Stop>
        requires op { IsAtOp program.now self.old running (Op.Do number) }
        requires form { HasForm program.now.code number Single }
        ensures stands { IfOk result (λ step. Follows program.now step self.new) }
        ensures works { OnOk result (Begins (2 ^ 68) self.old self.new) }
        ensures moves { (instr : Instruction) → slice_get program.now.code.instrs number ≡ Some instr → AsksForAttributes at (out-Instr instr) → IsAlone program.now self.old → MovesFrom program.now (λ given left f. instr_acts given program.now instr running.pc self.old left f) result self.new }
    {
        self.hand(program, running, number, at)?;
        if !self.source.is_element() {
            self.end_process(program);
            return Ok(Step::More);
        }
        let frame = Frame::Attributes {
            next: 0,
            asked: running.pc,
        };
        self.push(program, frame, at)?;
        self.doing = Doing::List;
        Ok(Step::More)
    }

    /// The next template for the current node.
    pub fn process_self<S: Sink>(
        &mut self,
        program: &Program,
        running: Running,
        number: u32,
        at: Place,
        out: &mut S,
    ) -> Result<Step, Stop>
        requires op { IsAtOp program.now self.old running (Op.Do number) }
        requires form { HasForm program.now.code number Single }
        ensures stands { IfOk result (λ step. Follows program.now step self.new) }
        ensures works { OnOk result (Begins (2 ^ 68) self.old self.new) }
        ensures steps { (instr : Instruction) → slice_get program.now.code.instrs number ≡ Some instr → AsksForItself at (out-Instr instr) → IsAlone program.now self.old → StepsFrom S.output S.told program.now (λ given left f. instr_acts given program.now instr running.pc self.old left f) result self.new out.old out.new }
    {
        self.hand(program, running, number, at)?;
        let spot = Spot {
            body: running.body,
            at,
        };
        self.again(program, running.pc, spot, out)
    }

    /// The siblings behind the current node, whose children are skipped where they aren't gone.
    pub fn process_siblings(
        &mut self,
        program: &Program,
        running: Running,
        number: u32,
        at: Place,
    ) -> Result<Step, Stop>
        requires op { IsAtOp program.now self.old running (Op.Do number) }
        requires form { HasForm program.now.code number Single }
        ensures stands { IfOk result (λ step. Follows program.now step self.new) }
        ensures works { OnOk result (Begins (2 ^ 68) self.old self.new) }
    {
        self.hand(program, running, number, at)?;
        if !self.can_wait() {
            self.end_process(program);
            return Ok(Step::More);
        }
        let spent = self.is_spent();
        if self.is_open(spent) {
            return self.skip_to_siblings(program, running, at);
        }
        let level = level_at(&self.frames, running.body);
        self.push(
            program,
            Frame::Region {
                asked: running.pc,
                level,
            },
            at,
        )?;
        self.aside.push(None)?;
        self.put_aside(program);
        Ok(Step::More)
    }

    /// Whether the current node can wait for its siblings, as elements and leaves can.
    fn can_wait(&self) -> bool
        ensures { result ≡ can_end (current (path self.now.source.stack)) }
    {
        match self.source.stack.current() {
            NodeView::Document => false,
            NodeView::Attribute(_) => false,
            _ => true,
        }
    }

    /// The children of the current node are skipped, and then it waits for its siblings.
    fn skip_to_siblings(
        &mut self,
        program: &Program,
        running: Running,
        at: Place,
    ) -> Result<Step, Stop>
        requires awaits { Awaits program.now self.old running.pc running.body }
        requires unspent { CanBeSkipped self.old }
        ensures stands { IfOk result (λ step. Follows program.now step self.new) }
        ensures works { OnOk result (Begins (2 ^ 68) self.old self.new) }
    {
        let level = level_at(&self.frames, running.body);
        spend_children(&mut self.frames, level);
        self.push(
            program,
            Frame::Region {
                asked: running.pc,
                level,
            },
            at,
        )?;
        self.aside.push(None)?;
        self.push(program, Frame::Skip { depth: 0 }, at)?;
        self.doing = Doing::List;
        Ok(Step::More)
    }

    /// The nodes of a buffer.
    pub fn process_buffer(
        &mut self,
        program: &Program,
        running: Running,
        number: u32,
        at: Place,
    ) -> Result<Step, Stop>
        requires op { IsAtOp program.now self.old running (Op.Do number) }
        requires form { HasForm program.now.code number Single }
        requires buffer { HasBuffer program.now number }
        ensures stands { IfOk result (λ step. Follows program.now step self.new) }
        ensures works { OnOk result (Begins (2 ^ 68) self.old self.new) }
    {
        self.hand(program, running, number, at)?;
        let id = program.link(number).named;
        buffered(self.putting.buffers.open_read(id), at)?;
        self.ask_for_source(program, at)?;
        let frame = Frame::Source {
            buffer: Some(id),
            next: 0,
            asked: running.pc,
        };
        self.push(program, frame, at)?;
        self.enter_source(program.buffer_depth, Origin::Buffer { id, at })?;
        self.doing = Doing::List;
        Ok(Step::More)
    }

    /// One more source, unless there are as many as may be.
    fn ask_for_source(&self, program: &Program, at: Place) -> Result<(), Stop> {
        if (self.outer.len() as u64) < u64::from(program.limits.sources) {
            Ok(())
        } else {
            Err(Stop::fault(RunCode::TooManySources, at))
        }
    }

    /// The nodes of another document, which is wanted first.
    pub fn process_document(
        &mut self,
        program: &Program,
        running: Running,
        number: u32,
        href: &Avt,
        at: Place,
    ) -> Result<Step, Stop>
        requires op { IsAtOp program.now self.old running (Op.Do number) }
        requires form { HasForm program.now.code number Single }
        requires href { TemplateCanBeEvaluated href.now }
        requires sheet { IsOrdinary program.now.code → ⊥ }
        ensures stands { IfOk result (λ step. Follows program.now step self.new) }
        ensures works { OnOk result (Begins (2 ^ 68) self.old self.new) }
    {
        let name = evaluated(self.setting(program, running.body).template(href), at)?;
        self.hand(program, running, number, at)?;
        self.ask_for_source(program, at)?;
        self.wanted = name;
        Ok(Step::Want)
    }

    /// The document that was wanted is there.
    pub fn begin_document(&mut self, program: &Program) -> Result<(), Stop>
        requires { IsWaiting program.now self.old }
        ensures stands { IfOk result (λ _. IsWell program.now self.new) }
        ensures fuel { OnOk result (self.new.fuel ≡ self.old.fuel) }
        ensures documents { OnOk result (documents self.new ≡ record { main = false; limit = program.now.limits.depth; lists = 1 } ∷ documents self.old) }
    {
        let asked = self.running().pc - 1;
        let at = place_of(program.instr_asked(asked));
        let frame = Frame::Source {
            buffer: None,
            next: 0,
            asked,
        };
        self.push(program, frame, at)?;
        self.enter_source(program.limits.depth, Origin::Document { at })?;
        self.doing = Doing::List;
        Ok(())
    }

    /// The place of the instruction that wants a document.
    pub fn place_of_wanted(&self, program: &Program) -> Place
        requires { IsWaiting program.now self.now }
    {
        place_of(program.instr_asked(self.running().pc - 1))
    }
}
