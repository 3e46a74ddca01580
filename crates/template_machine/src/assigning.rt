//! Variables that are set.

ghost use Rattle.std.specs.Prelude.{◌≡◌, ◌<◌, ℕ, Some, IfSome, OnOk, length, reverse, slice_get, unwrap_or};
ghost use Rattle.std.specs.Option.{option_and_then, option_map};
ghost use Rattle.frame_stack.specs.Change.{locals_of, with_locals};
ghost use Rattle.frame_stack.specs.Locals.{with_value};
ghost use Rattle.sheet_model.specs.Groups.{around};
ghost use Rattle.stxpath_syntax.specs.Shape.{CanBeEvaluated};
ghost use Rattle.template_machine.specs.Bodies.{on_body};
ghost use Rattle.template_machine.specs.Made.{IsNamedLocal};
ghost use Rattle.template_machine.specs.Seen.{place_of};
ghost use Rattle.template_machine.specs.Shifting.{Sets, assign_at};
ghost use Rattle.template_machine.specs.Steps.{Sees, group_of};
ghost use Rattle.template_machine.specs.Variables.{assigned_in, holder_in};
ghost use Rattle.template_machine.specs.Well.{IsWell};
ghost use Rattle.template_machine.specs.Work.{Begins};
ghost use Rattle.template_machine.specs.Working.{Runs};

use crate::bodies::locals_at;
use crate::program::Program;
use crate::run::{Run, Spot};
use crate::stop::{Stop, evaluated};
use crate::vars::local_named;
use stx_base::{List, Name};
use stxpath_syntax::Expr;
use stxpath_values::Atom;

impl Run {
    /// Another value for the nearest local of a name, or else for the variable of the nearest group.
    pub fn assign(
        &mut self,
        program: &Program,
        name: &Name,
        select: &Expr,
        spot: Spot,
    ) -> Result<(), Stop>
        requires runs { Runs program.now self.old spot.body }
        requires select { CanBeEvaluated select.now }
        ensures stands { OnOk result (IsWell program.now self.new) }
        ensures works { OnOk result (Begins 0 self.old self.new) }
        ensures sets { Sets program.now (assign_at name.now select.now spot.at) (λ frame. frame) result self.old self.new }
    {
        let value = evaluated(self.setting(program, spot.body).value(select), spot.at)?;
        match self.local_set(program, name, spot.body) {
            Some(index) => {
                self.set_local(program, spot.body, index, name, value);
                Ok(())
            }
            None => {
                self.set_in_groups(program, name, value, spot.body);
                Ok(())
            }
        }
    }

    /// The local of a body that is set by a name.
    fn local_set(&self, program: &Program, name: &Name, body: usize) -> Option<usize>
        requires { Sees program.now self.now body }
        ensures named { IfSome result (λ index. IsNamedLocal self.now body index name.now) }
        ensures place { option_map (λ frame. place_of name.now (locals_of frame)) (slice_get self.now.frames.frames body) ≡ Some result }
    {
        local_named(locals_at(&self.frames, body), name)
    }

    /// Another value for a local.
    fn set_local(
        &mut self,
        program: &Program,
        body: usize,
        index: usize,
        name: &Name,
        value: List<Atom>,
    )
        requires runs { Runs program.now self.old body }
        requires local { IsNamedLocal self.old body index name.now }
        ensures stands { IsWell program.now self.new }
        ensures works { Begins 0 self.old self.new }
        ensures behind { reverse self.new.frames.frames ≡ on_body (with_locals (with_value index value)) (reverse self.old.frames.frames) }
        ensures rest { self.new ≡ record self.old { frames = self.new.frames } }
    {
        self.frames.set_local(body, index, value);
    }

    /// Another value for the variable of the nearest group that has the name.
    fn set_in_groups(&mut self, program: &Program, name: &Name, value: List<Atom>, body: usize)
        requires { Runs program.now self.old body }
        ensures stands { IsWell program.now self.new }
        ensures works { Begins 0 self.old self.new }
        ensures store { (group : ℕ) → option_and_then (group_of program.now.sheet) (slice_get self.old.frames.frames body) ≡ Some group → self.new ≡ record self.old { store = assigned_in (around program.now.sheet.groups group) self.old.store name.now value } }
    {
        let Some(number) = self.holder(program, name, body) else {
            return;
        };
        // The copy has the name.
        let _ = self.store.assign(number, name, value);
    }

    /// The nearest group that has a variable of the name, from that of a body outwards.
    fn holder(&self, program: &Program, name: &Name, body: usize) -> Option<u32>
        requires { Sees program.now self.now body }
        ensures there { IfSome result (λ number. number < length self.now.store) }
        ensures first { result ≡ holder_in (around program.now.sheet.groups (unwrap_or (option_and_then (group_of program.now.sheet) (slice_get self.now.frames.frames body)) 0)) self.now.store name.now }
    {
        let mut group = Some(self.group_of(program, body));
        while let Some(number) = group {
            let there = program.sheet.groups.get(number as usize)?;
            if self.store.slot(number, name).is_some() {
                return Some(number);
            }
            group = there.parent;
        }
        None
    }
}
