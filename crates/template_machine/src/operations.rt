//! The operations of a body, one at a time.

ghost use Rattle.std.specs.Prelude.{◌≡◌, ◌+◌, IfOk, Some, slice_get, ◌^◌, OnOk};
ghost use Rattle.frame_stack.specs.Change.{with_pc};
ghost use Rattle.sheet_model.specs.declared.instr.Instr.TheViews.{out-Instr};
ghost use Rattle.template_machine.specs.Moments.{Follows, IsAtOp};
ghost use Rattle.template_machine.specs.Onward.{StepsOn};
ghost use Rattle.template_machine.specs.Ordinary.{IsAlone, IsOrdinary};
ghost use Rattle.template_machine.specs.Saying.{Acts, GivesText, GivesValue, Passes};
ghost use Rattle.template_machine.specs.Shifting.{Sets};
ghost use Rattle.template_machine.specs.Well.{IsWell};
ghost use Rattle.template_machine.specs.Work.{Begins, Falls};
ghost use Rattle.template_machine.specs.Working.{StaysHere};

use crate::program::{Program, place_of};
use crate::run::{Doing, Run, Running, Spot, Step};
use crate::sink::Sink;
use crate::stop::Stop;
use instr_code::Op;
use sheet_model::Instr;

impl Run {
    /// The next operation of the innermost body.
    pub fn operate<S: Sink>(&mut self, program: &Program, out: &mut S) -> Result<Step, Stop>
        requires well { IsWell program.now self.old }
        requires body { self.old.doing ≡ Doing.Body }
        ensures stands { IfOk result (λ step. Follows program.now step self.new) }
        ensures works { IfOk result (λ step. Falls program.now self.old step self.new) }
        ensures steps { IsAlone program.now self.old → IsOrdinary program.now.code → StepsOn S.output S.told program.now result self.old self.new out.old out.new }
    {
        let running = self.running();
        match program.op(running.pc) {
            Op::Do { instr } => self.instruct(program, running, instr, out),
            Op::Open { instr, to } => {
                self.open_list(program, running, instr, to, out)?;
                Ok(Step::More)
            }
            Op::Close { instr } => {
                self.close_list(program, running, instr, out)?;
                Ok(Step::More)
            }
            Op::Begin { instr } => self.begin_round(program, running, instr),
            Op::Test { instr, arm, to } => self.test(program, running, instr, arm, to),
            Op::Turn { instr, to } => self.turn(program, running, instr, to),
            Op::Jump { to } => {
                self.jump(program, running, to);
                Ok(Step::More)
            }
            Op::Drop { count } => {
                self.drop_locals(program, running, count);
                Ok(Step::More)
            }
            Op::Return => self.end_body(program, running),
        }
    }

    /// An instruction that has no list inside.
    fn instruct<S: Sink>(
        &mut self,
        program: &Program,
        running: Running,
        number: u32,
        out: &mut S,
    ) -> Result<Step, Stop>
        requires { IsAtOp program.now self.old running (Op.Do number) }
        ensures stands { IfOk result (λ step. Follows program.now step self.new) }
        ensures works { IfOk result (λ step. Falls program.now self.old step self.new) }
        ensures steps { IsAlone program.now self.old → IsOrdinary program.now.code → StepsOn S.output S.told program.now result self.old self.new out.old out.new }
    {
        let instr = program.instr(number);
        let at = place_of(instr);
        self.spend(at)?;
        match instr {
            Instr::CallProcedure { params, .. } => {
                self.call(program, running, number, params.as_slice(), at)
            }
            Instr::ProcessChildren { .. } => self.process_children(program, running, number, at),
            Instr::ProcessAttributes { .. } => {
                self.process_attributes(program, running, number, at)
            }
            Instr::ProcessSelf { .. } => self.process_self(program, running, number, at, out),
            Instr::ProcessSiblings { .. } => self.process_siblings(program, running, number, at),
            Instr::ProcessBuffer { .. } => self.process_buffer(program, running, number, at),
            Instr::ProcessDocument { href, .. } => {
                self.process_document(program, running, number, href, at)
            }
            _ => self.act(program, running, number, instr, out),
        }
    }

    /// An instruction that stays at the current node and in its body.
    fn act<S: Sink>(
        &mut self,
        program: &Program,
        running: Running,
        number: u32,
        instr: &Instr,
        out: &mut S,
    ) -> Result<Step, Stop>
        requires op { IsAtOp program.now self.old running (Op.Do number) }
        requires instr { slice_get program.now.code.instrs number ≡ Some instr.now }
        requires stays { StaysHere (out-Instr instr.now) }
        ensures stands { IfOk result (λ step. Follows program.now step self.new) }
        ensures works { OnOk result (Begins (2 ^ 68) self.old self.new) }
        ensures acts { GivesText (out-Instr instr.now) → Acts S.output S.told program.now (out-Instr instr.now) result self.old self.new out.old out.new }
        ensures passes { GivesText (out-Instr instr.now) → Passes running.pc result self.old self.new }
        ensures sets { GivesValue (out-Instr instr.now) → Sets program.now (out-Instr instr.now) (with_pc (running.pc + 1)) result self.old self.new }
        ensures same { GivesValue (out-Instr instr.now) → out.new ≡ out.old }
        ensures more { IfOk result (λ step. step ≡ Step.More) }
    {
        let spot = Spot {
            body: running.body,
            at: place_of(instr),
        };
        match instr {
            Instr::Local { name, select, .. } => {
                self.declare(program, running, number, name, select, spot)?;
                Ok(Step::More)
            }
            Instr::Assign { name, select, .. } => {
                self.pass_on(program, running, number);
                self.assign(program, name, select, spot)?;
                Ok(Step::More)
            }
            _ => {
                self.pass_on(program, running, number);
                self.put(program, instr, spot, out)?;
                Ok(Step::More)
            }
        }
    }
}
