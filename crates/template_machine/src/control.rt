//! Tests, loops, variables of a body, and calls of procedures.

ghost use Rattle.std.specs.Prelude.{◌≡◌, ◌+◌, [], All, IfOk, OnOk, Some, length, reverse, slice_get, ◌^◌};
ghost use Rattle.std.specs.Option.{ForSome};
ghost use Rattle.frame_stack.specs.Change.{with_pc};
ghost use Rattle.sheet_model.specs.Parts.{handed};
ghost use Rattle.sheet_model.specs.declared.instr.Instr.{Instr as Instruction};
ghost use Rattle.sheet_model.specs.declared.instr.Instr.TheViews.{out-Instr};
ghost use Rattle.stxpath_syntax.specs.Shape.{CanBeEvaluated};
ghost use Rattle.template_machine.specs.Behind.{MovesFrom, instr_acts};
ghost use Rattle.template_machine.specs.Bodies.{body_in};
ghost use Rattle.template_machine.specs.Contexts.{Declares, HasForm, Single};
ghost use Rattle.template_machine.specs.Steps.{Sees};
ghost use Rattle.template_machine.specs.Moments.{Follows, IsAtOp};
ghost use Rattle.template_machine.specs.Ordinary.{IsAlone, StaysBehind};
ghost use Rattle.template_machine.specs.Reached.{CallsProcedure};
ghost use Rattle.template_machine.specs.Saying.{Carries, Gave, sight};
ghost use Rattle.stxpath_values.specs.Outcome.{each};
ghost use Rattle.template_machine.specs.Shifting.{Sets, handed_value, local_at};
ghost use Rattle.template_machine.specs.Still.{still};
ghost use Rattle.template_machine.specs.Values.{atoms_of, truth_of};
ghost use Rattle.template_machine.specs.Well.{IsWell};
ghost use Rattle.template_machine.specs.Work.{Begins, Falls};
ghost use Rattle.template_machine.specs.Working.{HasProcedure};

use crate::bodies::{level_at, take_off};
use crate::program::{Program, place_of};
use crate::run::{Run, Running, Spot, Step};
use crate::stop::{Stop, evaluated, pushed};
use frame_stack::{Frame, Locals};
use instr_code::Op;
use sheet_model::{Instr, When, WithParam};
use stx_base::{Copied, List, Name, Place, Text};
use stxpath_syntax::Expr;
use stxpath_values::Atom;

impl Run {
    // Values.

    /// The value of an expression in a body.
    fn value(&self, program: &Program, select: &Expr, spot: Spot) -> Result<List<Atom>, Stop>
        requires sees { Sees program.now self.now spot.body }
        requires select { CanBeEvaluated select.now }
        ensures { body_in (reverse self.now.frames.frames) ≡ Some spot.body → Gave spot.at result (atoms_of select.now (sight program.now self.now)) }
    {
        evaluated(self.setting(program, spot.body).value(select), spot.at)
    }

    fn holds(&self, program: &Program, test: &Expr, spot: Spot) -> Result<bool, Stop>
        requires sees { Sees program.now self.now spot.body }
        requires test { CanBeEvaluated test.now }
        ensures { body_in (reverse self.now.frames.frames) ≡ Some spot.body → Gave spot.at result (truth_of test.now (sight program.now self.now)) }
    {
        evaluated(self.setting(program, spot.body).truth(test), spot.at)
    }

    /// The values that an instruction hands to parameters.
    pub fn values(
        &self,
        program: &Program,
        params: &[WithParam],
        spot: Spot,
    ) -> Result<List<List<Atom>>, Stop>
        requires sees { Sees program.now self.now spot.body }
        requires params { All (λ p. CanBeEvaluated p.select) params.now }
        ensures many { IfOk result (λ values. length values ≡ length params.now) }
        ensures gave { body_in (reverse self.now.frames.frames) ≡ Some spot.body → Gave spot.at result (each (handed_value (sight program.now self.now)) params.now) }
    {
        let mut values = List::new(self.alloc);
        for param in params {
            let value = self.value(program, &param.select, spot)?;
            values.push(value)?;
        }
        Ok(values)
    }

    /// The name of a value that waits, which no expression can say.
    pub fn no_name(&self) -> Name
        ensures { result.local ≡ [] }
    {
        Name {
            uri: Text::new(self.alloc),
            local: Text::new(self.alloc),
            prefix: Text::new(self.alloc),
        }
    }

    // Choices and loops.

    /// The begin of a choice or a loop.
    pub fn begin_round(
        &mut self,
        program: &Program,
        running: Running,
        number: u32,
    ) -> Result<Step, Stop>
        requires { IsAtOp program.now self.old running (Op.Begin number) }
        ensures stands { IfOk result (λ step. Follows program.now step self.new) }
        ensures works { IfOk result (λ step. Falls program.now self.old step self.new) }
        ensures goes { Carries program.now result self.old self.new }
        ensures keeps { StaysBehind result self.old self.new }
    {
        let instr = program.instr(number);
        let at = place_of(instr);
        self.spend(at)?;
        match instr {
            Instr::Choose { .. } => {
                self.begin_choice(program, running, number);
                Ok(Step::More)
            }
            Instr::While { .. } => {
                pushed(self.begin_loop(program, running, number), at)?;
                Ok(Step::More)
            }
            Instr::ForEachItem { select, .. } => {
                let spot = Spot {
                    body: running.body,
                    at,
                };
                let items = self.value(program, select, spot)?;
                pushed(self.begin_walk(program, running, number, items), at)?;
                Ok(Step::More)
            }
            _ => unreachable!(),
        }
    }

    /// A test, which leads on by whether it holds.
    pub fn test(
        &mut self,
        program: &Program,
        running: Running,
        number: u32,
        arm: u32,
        to: u32,
    ) -> Result<Step, Stop>
        requires { IsAtOp program.now self.old running (Op.Test number arm to) }
        ensures stands { IfOk result (λ step. Follows program.now step self.new) }
        ensures works { IfOk result (λ step. Falls program.now self.old step self.new) }
        ensures goes { Carries program.now result self.old self.new }
        ensures keeps { StaysBehind result self.old self.new }
    {
        let instr = program.instr(number);
        let spot = Spot {
            body: running.body,
            at: place_of(instr),
        };
        match instr {
            Instr::If { test, .. } => {
                self.spend(spot.at)?;
                let holds = self.holds(program, test, spot)?;
                self.branch(program, running, number, arm, to, holds);
                Ok(Step::More)
            }
            Instr::Choose { whens, .. } => {
                let When { test, .. } = &whens.as_slice()[arm as usize];
                let holds = self.holds(program, test, spot)?;
                self.branch(program, running, number, arm, to, holds);
                Ok(Step::More)
            }
            Instr::While { test, .. } => {
                let holds = self.holds(program, test, spot)?;
                if holds {
                    self.spend(spot.at)?;
                    self.begin_turn(program, running, number, arm, to);
                    return Ok(Step::More);
                }
                self.end_loop(program, running, number, arm, to);
                Ok(Step::More)
            }
            _ => unreachable!(),
        }
    }

    /// The next turn of a loop over items, if one is left.
    pub fn turn(
        &mut self,
        program: &Program,
        running: Running,
        number: u32,
        to: u32,
    ) -> Result<Step, Stop>
        requires { IsAtOp program.now self.old running (Op.Turn number to) }
        ensures stands { IfOk result (λ step. Follows program.now step self.new) }
        ensures works { IfOk result (λ step. Falls program.now self.old step self.new) }
        ensures goes { Carries program.now result self.old self.new }
        ensures keeps { StaysBehind result self.old self.new }
    {
        let Instr::ForEachItem { name, at, .. } = program.instr(number) else {
            unreachable!();
        };
        let (turn, items) = self.items_of(program, running, number, to);
        if turn >= items.len() {
            self.end_walk(program, running, number, to);
            return Ok(Step::More);
        }
        let item = items.as_slice()[turn].copy(self.alloc)?;
        self.spend(*at)?;
        let mut value = List::new(self.alloc);
        value.push(item)?;
        let name = name.copy(self.alloc)?;
        self.bind_item(program, running, number, to, turn + 1, name, value)?;
        Ok(Step::More)
    }

    // Variables.

    /// A variable of a body.
    pub fn declare(
        &mut self,
        program: &Program,
        running: Running,
        number: u32,
        name: &Name,
        select: &Option<Expr>,
        spot: Spot,
    ) -> Result<(), Stop>
        requires op { IsAtOp program.now self.old running (Op.Do number) }
        requires form { HasForm program.now.code number (Declares name.now) }
        requires place { spot.body ≡ running.body }
        requires select { ForSome select.now CanBeEvaluated }
        ensures stands { OnOk result (IsWell program.now self.new) }
        ensures works { OnOk result (Begins 0 self.old self.new) }
        ensures sets { Sets program.now (local_at name.now select.now spot.at) (with_pc (running.pc + 1)) result self.old self.new }
    {
        let setting = self.setting(program, spot.body);
        let value = evaluated(setting.value_or_empty(select), spot.at)?;
        let name = name.copy(self.alloc)?;
        self.pass_declared(program, running, number, name, value)?;
        Ok(())
    }

    // Procedures.

    /// The body of a procedure is entered, for the current node.
    pub fn call(
        &mut self,
        program: &Program,
        running: Running,
        number: u32,
        params: &[WithParam],
        at: Place,
    ) -> Result<Step, Stop>
        requires op { IsAtOp program.now self.old running (Op.Do number) }
        requires form { HasForm program.now.code number Single }
        requires procedure { HasProcedure program.now number }
        requires params { All (λ p. CanBeEvaluated p.select) params.now }
        ensures stands { IfOk result (λ step. Follows program.now step self.new) }
        ensures works { OnOk result (Begins (2 ^ 68) self.old self.new) }
        ensures moves { (instr : Instruction) → slice_get program.now.code.instrs number ≡ Some instr → CallsProcedure at (out-Instr instr) → params.now ≡ handed (out-Instr instr) → IsAlone program.now self.old → MovesFrom program.now (λ given left f. instr_acts given program.now instr running.pc self.old left f) result self.new }
    {
        let spot = Spot {
            body: running.body,
            at,
        };
        let values = self.values(program, params, spot)?;
        self.pass_on(program, running, number);
        let level = level_at(&self.frames, running.body);
        let procedure = program.link(number).named;
        let frame = Frame::Call {
            procedure,
            pc: program.start_of_procedure(procedure),
            locals: Locals::new(self.alloc),
            level,
        };
        self.push(program, frame, at)?;
        let declared = &program.sheet.procedures.as_slice()[procedure as usize];
        self.bind_handed(program, &declared.params, params, &values)?;
        Ok(Step::More)
    }

    /// A body is over.
    pub fn end_body(&mut self, program: &Program, running: Running) -> Result<Step, Stop>
        requires { IsAtOp program.now self.old running Op.Return }
        ensures stands { IfOk result (λ step. Follows program.now step self.new) }
        ensures works { IfOk result (λ step. Falls program.now self.old step self.new) }
        ensures moves { IsAlone program.now self.old → MovesFrom program.now (λ given left f. still given program.now self.old left f) result self.new }
    {
        match self.frames.at(running.body) {
            Frame::Body {
                template,
                level,
                spent,
                ..
            } => {
                let (template, level, spent) = (*template, *level, *spent);
                self.end_template(program, running, template, level, spent)
            }
            Frame::Call { .. } => {
                take_off(&mut self.frames);
                Ok(Step::More)
            }
            _ => unreachable!(),
        }
    }
}
