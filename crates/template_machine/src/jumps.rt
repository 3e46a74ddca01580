//! Operations of a body that cost no fuel and lead to one place.

ghost use Rattle.std.specs.Prelude.{◌≡◌, ◌∷◌, ◌+◌, if◌then◌else◌, IfErr, OnOk, reverse};
ghost use Rattle.frame_stack.specs.Change.{with_pc};
ghost use Rattle.frame_stack.specs.Locals.{local};
ghost use Rattle.frame_stack.specs.declared.frame.Frame.TheVariants.{Loop};
ghost use Rattle.template_machine.specs.Bodies.{on_body};
ghost use Rattle.template_machine.specs.Contexts.{Declares, HasForm, Repeats, Single, Walks};
ghost use Rattle.template_machine.specs.Moments.{IsAtOp, IsBranch};
ghost use Rattle.template_machine.specs.Ordinary.{StaysThere};
ghost use Rattle.template_machine.specs.Saying.{CarriesOn, LosesLoop};
ghost use Rattle.template_machine.specs.Shifting.{BindsItem, HasItems, LosesWalk, OpensWalk, with_more};
ghost use Rattle.template_machine.specs.Well.{IsWell};
ghost use Rattle.template_machine.specs.Work.{Begins, Lessens};
ghost use Rattle.template_machine.specs.Working.{IsChoice, IsWalk, Runs};

use crate::bodies::{count_turn, locals_at, take_off, turn_at};
use crate::program::Program;
use crate::run::{Run, Running};
use frame_stack::{Frame, FrameFault};
use instr_code::Op;
use stx_base::{List, Memory, Name};
use stxpath_values::Atom;

impl Run {
    /// Goes on at another operation.
    pub fn jump(&mut self, program: &Program, running: Running, to: u32)
        requires { IsAtOp program.now self.old running (Op.Jump to) }
        ensures stands { IsWell program.now self.new }
        ensures works { Lessens program.now self.old self.new }
        ensures goes { CarriesOn program.now self.old self.new }
        ensures keeps { StaysThere self.old self.new }
    {
        self.frames.set_pc(running.body, to);
    }

    /// Takes the last locals off, at the end of a list.
    pub fn drop_locals(&mut self, program: &Program, running: Running, count: u32)
        requires { IsAtOp program.now self.old running (Op.Drop count) }
        ensures stands { IsWell program.now self.new }
        ensures works { Lessens program.now self.old self.new }
        ensures goes { CarriesOn program.now self.old self.new }
        ensures keeps { StaysThere self.old self.new }
    {
        self.frames.set_pc(running.body, running.pc + 1);
        let len = locals_at(&self.frames, running.body).len() - count as usize;
        self.frames.cut_locals(running.body, len);
    }

    /// Goes on where the test of an `if` or of a branch leads.
    pub fn branch(
        &mut self,
        program: &Program,
        running: Running,
        number: u32,
        arm: u32,
        to: u32,
        holds: bool,
    )
        requires op { IsAtOp program.now self.old running (Op.Test number arm to) }
        requires form { IsBranch program.now.code number }
        ensures stands { IsWell program.now self.new }
        ensures works { Begins 0 self.old self.new }
        ensures chooses { IsChoice program.now.code number → Lessens program.now self.old self.new }
        ensures behind { reverse self.new.frames.frames ≡ on_body (with_pc (if holds then running.pc + 1 else to)) (reverse self.old.frames.frames) }
        ensures rest { self.new ≡ record self.old { frames = self.new.frames } }
    {
        if holds {
            self.frames.set_pc(running.body, running.pc + 1);
            return;
        }
        self.frames.set_pc(running.body, to);
    }

    /// A loop by a test goes on with a turn.
    pub fn begin_turn(
        &mut self,
        program: &Program,
        running: Running,
        number: u32,
        arm: u32,
        to: u32,
    )
        requires op { IsAtOp program.now self.old running (Op.Test number arm to) }
        requires form { HasForm program.now.code number Repeats }
        ensures stands { IsWell program.now self.new }
        ensures works { Begins 0 self.old self.new }
        ensures behind { reverse self.new.frames.frames ≡ on_body (with_pc (running.pc + 1)) (reverse self.old.frames.frames) }
        ensures rest { self.new ≡ record self.old { frames = self.new.frames } }
    {
        self.frames.set_pc(running.body, running.pc + 1);
    }

    /// A loop by a test is over.
    pub fn end_loop(&mut self, program: &Program, running: Running, number: u32, arm: u32, to: u32)
        requires op { IsAtOp program.now self.old running (Op.Test number arm to) }
        requires form { HasForm program.now.code number Repeats }
        ensures stands { IsWell program.now self.new }
        ensures works { Lessens program.now self.old self.new }
        ensures behind { LosesLoop to self.old self.new }
        ensures rest { self.new ≡ record self.old { frames = self.new.frames } }
    {
        take_off(&mut self.frames);
        self.frames.set_pc(running.body, to);
    }

    /// A loop by a test is open from here on, if memory allows.
    pub fn begin_loop(
        &mut self,
        program: &Program,
        running: Running,
        number: u32,
    ) -> Result<(), FrameFault>
        requires op { IsAtOp program.now self.old running (Op.Begin number) }
        requires form { HasForm program.now.code number Repeats }
        ensures stands { OnOk result (IsWell program.now self.new) }
        ensures works { OnOk result (Begins 1 self.old self.new) }
        ensures memory { IfErr result (λ fault. fault ≡ FrameFault.Memory) }
        ensures behind { OnOk result (reverse self.new.frames.frames ≡ Loop 0 ∷ on_body (with_pc (running.pc + 1)) (reverse self.old.frames.frames)) }
        ensures rest { self.new ≡ record self.old { frames = self.new.frames } }
    {
        self.frames.set_pc(running.body, running.pc + 1);
        self.frames
            .push(program.limits.instances, Frame::Loop { turn: 0 })
    }

    /// Goes on behind an instruction that declares nothing.
    #[inline(always)]
    pub fn pass_on(&mut self, program: &Program, running: Running, number: u32)
        requires op { IsAtOp program.now self.old running (Op.Do number) }
        requires form { HasForm program.now.code number Single }
        ensures stands { Runs program.now self.new running.body }
        ensures works { Begins 0 self.old self.new }
        ensures behind { reverse self.new.frames.frames ≡ on_body (with_pc (running.pc + 1)) (reverse self.old.frames.frames) }
        ensures rest { self.new ≡ record self.old { frames = self.new.frames } }
    {
        self.frames.set_pc(running.body, running.pc + 1);
    }

    /// Goes on behind the declaration of a variable, if memory allows.
    pub fn pass_declared(
        &mut self,
        program: &Program,
        running: Running,
        number: u32,
        name: Name,
        value: List<Atom>,
    ) -> Result<(), Memory>
        requires op { IsAtOp program.now self.old running (Op.Do number) }
        requires form { HasForm program.now.code number (Declares name) }
        ensures stands { OnOk result (IsWell program.now self.new) }
        ensures works { OnOk result (Begins 0 self.old self.new) }
        ensures behind { OnOk result (reverse self.new.frames.frames ≡ on_body (with_more (local name value) (running.pc + 1)) (reverse self.old.frames.frames)) }
        ensures rest { self.new ≡ record self.old { frames = self.new.frames } }
    {
        self.frames.set_pc(running.body, running.pc + 1);
        self.frames.push_local(running.body, name, value)
    }

    /// Goes on at the first test of a choice.
    pub fn begin_choice(&mut self, program: &Program, running: Running, number: u32)
        requires op { IsAtOp program.now self.old running (Op.Begin number) }
        requires form { IsChoice program.now.code number }
        ensures stands { IsWell program.now self.new }
        ensures works { Begins 0 self.old self.new }
        ensures behind { reverse self.new.frames.frames ≡ on_body (with_pc (running.pc + 1)) (reverse self.old.frames.frames) }
        ensures rest { self.new ≡ record self.old { frames = self.new.frames } }
    {
        self.frames.set_pc(running.body, running.pc + 1);
    }

    /// A loop over items is open from here on, if memory allows: they wait as a local.
    pub fn begin_walk(
        &mut self,
        program: &Program,
        running: Running,
        number: u32,
        items: List<Atom>,
    ) -> Result<(), FrameFault>
        requires op { IsAtOp program.now self.old running (Op.Begin number) }
        requires form { IsWalk program.now.code number }
        ensures stands { OnOk result (IsWell program.now self.new) }
        ensures works { OnOk result (Begins 1 self.old self.new) }
        ensures memory { IfErr result (λ fault. fault ≡ FrameFault.Memory) }
        ensures behind { OnOk result (OpensWalk items (running.pc + 1) self.old self.new) }
        ensures rest { self.new ≡ record self.old { frames = self.new.frames } }
    {
        let name = self.no_name();
        self.frames.set_pc(running.body, running.pc + 1);
        self.frames.push_local(running.body, name, items)?;
        self.frames
            .push(program.limits.instances, Frame::Loop { turn: 0 })
    }

    /// A loop over items goes on with the next one, if memory allows.
    pub fn bind_item(
        &mut self,
        program: &Program,
        running: Running,
        number: u32,
        to: u32,
        turn: usize,
        name: Name,
        value: List<Atom>,
    ) -> Result<(), Memory>
        requires op { IsAtOp program.now self.old running (Op.Turn number to) }
        requires form { HasForm program.now.code number (Walks name) }
        ensures stands { OnOk result (IsWell program.now self.new) }
        ensures works { OnOk result (Begins 0 self.old self.new) }
        ensures behind { OnOk result (BindsItem turn name value (running.pc + 1) self.old self.new) }
        ensures rest { self.new ≡ record self.old { frames = self.new.frames } }
    {
        count_turn(&mut self.frames, turn);
        self.frames.set_pc(running.body, running.pc + 1);
        self.frames.push_local(running.body, name, value)
    }

    /// A loop over items is over, and its items are done with.
    pub fn end_walk(&mut self, program: &Program, running: Running, number: u32, to: u32)
        requires op { IsAtOp program.now self.old running (Op.Turn number to) }
        requires form { IsWalk program.now.code number }
        ensures stands { IsWell program.now self.new }
        ensures works { Lessens program.now self.old self.new }
        ensures behind { LosesWalk to self.old self.new }
        ensures rest { self.new ≡ record self.old { frames = self.new.frames } }
    {
        let last = locals_at(&self.frames, running.body).len() - 1;
        self.frames.cut_locals(running.body, last);
        take_off(&mut self.frames);
        self.frames.set_pc(running.body, to);
    }

    /// How many items the loop of an operation has bound, and those that it is over.
    pub fn items_of(
        &self,
        program: &Program,
        running: Running,
        number: u32,
        to: u32,
    ) -> (usize, &List<Atom>)
        requires op { IsAtOp program.now self.now running (Op.Turn number to) }
        requires form { IsWalk program.now.code number }
        ensures { HasItems self.now result.0 result.1.now }
    {
        let locals = locals_at(&self.frames, running.body);
        (
            turn_at(&self.frames, self.frames.count() - 1),
            locals.value(locals.len() - 1),
        )
    }
}
