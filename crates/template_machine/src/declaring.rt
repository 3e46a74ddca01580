//! How variables are made: all at the start, those of a group anew for a template with a scope of its own, and parameters.

ghost use Rattle.std.specs.Prelude.{◌==◌, ◌≡◌, ◌-◌, ◌+◌, ◌<◌, ◌≤◌, [], ◌∷◌, true, All, IfErr, IfOk, IfSome, OnOk, Some, length, position, reverse, slice_get};
ghost use Rattle.std.specs.Option.{ForSome};
ghost use Rattle.node_stack.specs.Path.{is_told};
ghost use Rattle.node_stack.specs.Stack.{path};
ghost use Rattle.sheet_model.specs.Names.{is_same};
ghost use Rattle.sheet_model.specs.declared.instr.WithParam.{WithParam as WithParams};
ghost use Rattle.sheet_model.specs.declared.sheet.Variable.{Variable as Declared};
ghost use Rattle.stxpath_syntax.specs.Shape.{CanBeEvaluated};
ghost use Rattle.template_machine.specs.Bodies.{body_in};
ghost use Rattle.template_machine.specs.Commands.{HasParams, given_by};
ghost use Rattle.template_machine.specs.Declaring.{commanded, kept, parameter_value};
ghost use Rattle.template_machine.specs.Job.{Given, State};
ghost use Rattle.template_machine.specs.Made.{AreEvaluable, BindsParams, CanDeclare, HandsValues, IsMade, LaysScope, LeavesScope, OnlyStores, WaitFor};
ghost use Rattle.template_machine.specs.Parameters.{Binds, CanBind, PushesLocal, handed_by, named_values};
ghost use Rattle.template_machine.specs.Saying.{Gave, sight};
ghost use Rattle.template_machine.specs.Seen.{ParentsStandBefore};
ghost use Rattle.template_machine.specs.Standing.{standing_of};
ghost use Rattle.template_machine.specs.Steps.{Sees, test_in};
ghost use Rattle.template_machine.specs.Values.{selected};
ghost use Rattle.template_machine.specs.Variables.{newest};
ghost use Rattle.template_machine.specs.Varying.{GaveNew, Makes, MakesOne, MakesScope, PassesTest};
ghost use Rattle.template_machine.specs.Well.{CanTakeOff, IsSteady};
ghost use Rattle.template_machine.specs.declared.turn.Param.{Param as Params};
ghost use Rattle.stx_base.specs.declared.node.NodeTest.{NodeTest as Tests};
ghost use Rattle.var_store.specs.Variables.{is_called, slot_of, value_of};

use crate::bodies::locals_at;
use crate::finding::is_same;
use crate::program::{Program, handed};
use crate::run::{Asker, Run};
use crate::stop::{Stop, evaluated};
use crate::turn::Param;
use crate::values::{Setting, text_value};
use crate::vars::Earlier;
use sheet_model::{Variable, WithParam};
use stx_base::{Copied, List, Name, NodeTest};
use stxpath_values::Atom;

impl Run {
    /// Makes the variables of all groups.
    pub fn make_all(&mut self, program: &Program) -> Result<(), Stop>
        requires steady { IsSteady program.now self.old }
        requires told { is_told (path self.old.source.stack) (length (path self.old.source.stack).nodes - 1) program.now.test_of_root ≡ true }
        requires none { All (λ copies. copies ≡ [] ∷ []) self.old.store }
        ensures stores { OnOk result (OnlyStores self.old self.new) }
        ensures makes { PassesTest program.now.test_of_root self.old → Makes program.now (λ (v : Declared). true) program.now.test_of_root result self.old self.new }
    {
        for place in 0..program.sheet.variables.len() {
            self.make(program, place, program.root_test())?;
        }
        Ok(())
    }

    /// Lays new copies over the variables and the buffers of a group, for the template whose body is entered.
    pub fn enter_scope(&mut self, program: &Program, group: u32) -> Result<(), Stop>
        requires steady { IsSteady program.now self.old }
        requires sees { Sees program.now self.old (length self.old.frames.frames - 1) }
        requires frames { 0 < length self.old.frames.frames }
        requires group { group < length program.now.sheet.groups }
        ensures lays { OnOk result (LaysScope group self.old self.new) }
        ensures makes { (t : Tests) → test_in program.now.sheet (reverse self.old.frames.frames) ≡ Some t → PassesTest t self.old → MakesScope program.now group t result self.old self.new }
    {
        self.store.enter_group(group)?;
        self.putting.buffers.shadow(group)?;
        self.make_group(program, group)
    }

    /// Makes the variables of a group, in its newest copy, which has none yet.
    fn make_group(&mut self, program: &Program, group: u32) -> Result<(), Stop>
        requires steady { IsSteady program.now self.old }
        requires sees { Sees program.now self.old (length self.old.frames.frames - 1) }
        requires frames { 0 < length self.old.frames.frames }
        requires group { group < length program.now.sheet.groups }
        requires none { newest self.old.store group ≡ [] }
        ensures stores { OnOk result (OnlyStores self.old self.new) }
        ensures makes { (t : Tests) → test_in program.now.sheet (reverse self.old.frames.frames) ≡ Some t → PassesTest t self.old → Makes program.now (λ (v : Declared). v.group == group) t result self.old self.new }
    {
        let test = self.test_of(program, self.frames.count() - 1);
        for place in 0..program.sheet.variables.len() {
            if program.sheet.variables.as_slice()[place].group == group {
                self.make(program, place, test)?;
            }
        }
        Ok(())
    }

    /// The older copies stand again.
    pub fn leave_scope(&mut self, group: u32)
        requires group { group < length self.old.store }
        requires laid { CanTakeOff group (standing_of self.old) }
        ensures { LeavesScope group self.old self.new }
    {
        self.store.leave_group(group);
        self.putting.buffers.unshadow(group);
    }

    /// Makes the variable at a place of the sheet, in the newest copy of its group.
    fn make(&mut self, program: &Program, place: usize, test: &NodeTest) -> Result<(), Stop>
        requires steady { IsSteady program.now self.old }
        requires told { is_told (path self.old.source.stack) (length (path self.old.source.stack).nodes - 1) test.now ≡ true }
        requires place { place < length program.now.sheet.variables }
        requires new { (v : Declared) → slice_get program.now.sheet.variables place ≡ Some v → CanDeclare v self.old.store }
        ensures made { (v : Declared) → slice_get program.now.sheet.variables place ≡ Some v → OnOk result (IsMade v self.old self.new) }
        ensures makes { (v : Declared) → slice_get program.now.sheet.variables place ≡ Some v → MakesOne program.now place v test.now result self.old self.new }
    {
        let variable = &program.sheet.variables.as_slice()[place];
        let value = self.new_value(program, place, variable, test)?;
        let name = variable.name.copy(self.alloc)?;
        self.store.declare(variable.group, name, value)?;
        Ok(())
    }

    /// The value that the command gives, or the copy below where it is kept, or else that of the expression.
    fn new_value(
        &self,
        program: &Program,
        place: usize,
        variable: &Variable,
        test: &NodeTest,
    ) -> Result<List<Atom>, Stop>
        requires steady { IsSteady program.now self.now }
        requires told { is_told (path self.now.source.stack) (length (path self.now.source.stack).nodes - 1) test.now ≡ true }
        requires there { slice_get program.now.sheet.variables place ≡ Some variable.now }
        ensures { GaveNew program.now self.now place variable.now test.now result }
    {
        if let Some(value) = self.commanded(program, variable)? {
            return Ok(value);
        }
        if let Some(value) = self.kept(variable)? {
            return Ok(value);
        }
        let setting = Setting {
            alloc: self.alloc,
            stack: &self.source.stack,
            vars: Earlier {
                store: &self.store,
                sheet: &program.sheet,
                count: place,
                group: variable.group,
            },
            test,
            limits: &program.limits,
        };
        evaluated(setting.value_or_empty(&variable.select), variable.at)
    }

    /// The value that the command gives a parameter.
    fn commanded(&self, program: &Program, variable: &Variable) -> Result<Option<List<Atom>>, Stop>
        ensures value { (given : Given) → HasParams program.now given → IfOk result (λ value. value ≡ commanded given variable.now) }
        ensures memory { IfErr result (λ stop. stop ≡ Stop.Memory) }
    {
        if !variable.param {
            return Ok(None);
        }
        let Some(place) = place_of_given(program.params.as_slice(), &variable.name) else {
            return Ok(None);
        };
        let text = program.params.as_slice()[place].value.copy(self.alloc)?;
        Ok(Some(text_value(self.alloc, text)?))
    }

    /// The value that is kept from the copy below.
    fn kept(&self, variable: &Variable) -> Result<Option<List<Atom>>, Stop>
        requires { variable.now.group < length self.now.store }
        ensures value { (given : Given) (st : State) → st.variables ≡ self.now.store → IfOk result (λ value. value ≡ kept given variable.now st) }
        ensures memory { IfErr result (λ stop. stop ≡ Stop.Memory) }
    {
        if !variable.keep {
            return Ok(None);
        }
        match self.store.older(variable.group, &variable.name) {
            Some(value) => {
                let copy = value.copy(self.alloc)?;
                Ok(Some(copy))
            }
            None => Ok(None),
        }
    }

    /// The parameters of the template whose body is entered become its first locals: those that wait at the instruction that asked
    /// have their values from there.
    pub fn bind_waiting(
        &mut self,
        program: &Program,
        params: &List<Variable>,
        asker: Asker,
    ) -> Result<(), Stop>
        requires sees { Sees program.now self.old (length self.old.frames.frames - 1) }
        requires frames { 0 < length self.old.frames.frames }
        requires params { AreEvaluable params.now }
        requires waits { WaitFor program.now self.old asker }
        ensures binds { OnOk result (BindsParams params.now self.old self.new) }
        ensures takes { CanBind program.now params.now self.old → Binds program.now params.now (λ given. handed_by given program.now self.old asker) result self.old self.new }
    {
        for param in params.as_slice() {
            let value = self.param_value(program, param, asker)?;
            self.bind(param, value)?;
        }
        Ok(())
    }

    /// The value for a parameter: the one that waits at the instruction that asked, or else that of its expression.
    fn param_value(
        &self,
        program: &Program,
        param: &Variable,
        asker: Asker,
    ) -> Result<List<Atom>, Stop>
        requires sees { Sees program.now self.now (length self.now.frames.frames - 1) }
        requires frames { 0 < length self.now.frames.frames }
        requires param { ForSome param.now.select CanBeEvaluated }
        requires waits { WaitFor program.now self.now asker }
        ensures { (given : Given) → body_in (reverse self.now.frames.frames) ≡ Some (length self.now.frames.frames - 1) → Gave param.now.at result (parameter_value given (value_of param.now.name (handed_by given program.now self.now asker)) param.now (sight program.now self.now)) }
    {
        match self.waiting(program, param, asker)? {
            Some(value) => Ok(value),
            None => self.default_value(program, param),
        }
    }

    /// The same of a procedure, of values that are at hand.
    pub fn bind_handed(
        &mut self,
        program: &Program,
        params: &List<Variable>,
        names: &[WithParam],
        values: &List<List<Atom>>,
    ) -> Result<(), Stop>
        requires sees { Sees program.now self.old (length self.old.frames.frames - 1) }
        requires frames { 0 < length self.old.frames.frames }
        requires params { AreEvaluable params.now }
        ensures binds { OnOk result (BindsParams params.now self.old self.new) }
        ensures takes { length names.now ≤ length values.now → CanBind program.now params.now self.old → Binds program.now params.now (λ given. named_values names.now values.now) result self.old self.new }
    {
        for param in params.as_slice() {
            let value = self.given_value(program, names, values, param)?;
            self.bind(param, value)?;
        }
        Ok(())
    }

    /// The value for a parameter: the one that is given to it, or else that of its expression.
    fn given_value(
        &self,
        program: &Program,
        names: &[WithParam],
        values: &List<List<Atom>>,
        param: &Variable,
    ) -> Result<List<Atom>, Stop>
        requires sees { Sees program.now self.now (length self.now.frames.frames - 1) }
        requires frames { 0 < length self.now.frames.frames }
        requires param { ForSome param.now.select CanBeEvaluated }
        ensures { (given : Given) → length names.now ≤ length values.now → body_in (reverse self.now.frames.frames) ≡ Some (length self.now.frames.frames - 1) → Gave param.now.at result (parameter_value given (value_of param.now.name (named_values names.now values.now)) param.now (sight program.now self.now)) }
    {
        match self.given(names, values, param)? {
            Some(value) => Ok(value),
            None => self.default_value(program, param),
        }
    }

    /// A copy of the value that is given to a parameter.
    fn given(
        &self,
        names: &[WithParam],
        values: &List<List<Atom>>,
        param: &Variable,
    ) -> Result<Option<List<Atom>>, Stop>
        ensures value { length names.now ≤ length values.now → IfOk result (λ value. value ≡ value_of param.now.name (named_values names.now values.now)) }
        ensures memory { IfErr result (λ stop. stop ≡ Stop.Memory) }
    {
        let Some(place) = place_of_param(names, param) else {
            return Ok(None);
        };
        match values.get(place) {
            Some(value) => Ok(Some(value.copy(self.alloc)?)),
            None => Ok(None),
        }
    }

    fn bind(&mut self, param: &Variable, value: List<Atom>) -> Result<(), Stop>
        requires { 0 < length self.old.frames.frames }
        ensures binds { OnOk result (BindsParams (param.now ∷ []) self.old self.new) }
        ensures pushes { OnOk result (PushesLocal param.now.name value self.old self.new) }
        ensures rest { self.new ≡ record self.old { frames = self.new.frames } }
        ensures memory { IfErr result (λ stop. stop ≡ Stop.Memory) }
    {
        let name = param.name.copy(self.alloc)?;
        let body = self.frames.count() - 1;
        self.frames.push_local(body, name, value)?;
        Ok(())
    }

    /// The value of a parameter's expression, which sees the parameters before it.
    fn default_value(&self, program: &Program, param: &Variable) -> Result<List<Atom>, Stop>
        requires sees { Sees program.now self.now (length self.now.frames.frames - 1) }
        requires frames { 0 < length self.now.frames.frames }
        requires param { ForSome param.now.select CanBeEvaluated }
        ensures { body_in (reverse self.now.frames.frames) ≡ Some (length self.now.frames.frames - 1) → Gave param.now.at result (selected param.now.select (sight program.now self.now)) }
    {
        let setting = self.setting(program, self.frames.count() - 1);
        evaluated(setting.value_or_empty(&param.select), param.at)
    }

    /// The value for a parameter that waits at the instruction that asked.
    fn waiting(
        &self,
        program: &Program,
        param: &Variable,
        asker: Asker,
    ) -> Result<Option<List<Atom>>, Stop>
        requires { WaitFor program.now self.now asker }
        ensures value { (given : Given) → IfOk result (λ value. value ≡ value_of param.now.name (handed_by given program.now self.now asker)) }
        ensures memory { IfErr result (λ stop. stop ≡ Stop.Memory) }
    {
        match asker {
            Asker::Root => Ok(None),
            Asker::Pass { .. } => Ok(None),
            Asker::Instr { asked, body } => self.waiting_at(program, param, asked, body),
        }
    }

    /// The same at the instruction of a place, among the locals of its body.
    fn waiting_at(
        &self,
        program: &Program,
        param: &Variable,
        asked: u32,
        body: usize,
    ) -> Result<Option<List<Atom>>, Stop>
        requires { HandsValues program.now self.now asked body }
        ensures value { (given : Given) → IfOk result (λ value. value ≡ value_of param.now.name (handed_by given program.now self.now (Asker.Instr asked body))) }
        ensures memory { IfErr result (λ stop. stop ≡ Stop.Memory) }
    {
        let names = handed(program.instr_asked(asked));
        let Some(place) = place_of_param(names, param) else {
            return Ok(None);
        };
        let locals = locals_at(&self.frames, body);
        let value = locals.value(locals.len() - names.len() + place);
        Ok(Some(value.copy(self.alloc)?))
    }
}

/// Where a variable's name stands among those that the command gives.
fn place_of_given(params: &[Param], name: &Name) -> Option<usize>
    ensures within { IfSome result (λ place. place < length params.now) }
    ensures place { result ≡ position (λ (p : Params). is_called name.now (given_by p)) params.now }
{
    params.iter().position(|it| is_given(it, name))
}

fn is_given(param: &Param, name: &Name) -> bool
    ensures { result ≡ is_called name.now (given_by param.now) }
{
    let bare = name.uri.is_empty();
    let same = param.name.same(&name.local);
    bare && same
}

/// Where a parameter's name stands among those of handed values.
fn place_of_param(names: &[WithParam], param: &Variable) -> Option<usize>
    ensures within { IfSome result (λ place. place < length names.now) }
    ensures place { result ≡ position (λ (w : WithParams). is_same w.name param.now.name) names.now }
{
    names.iter().position(|it| is_same(&it.name, &param.name))
}
