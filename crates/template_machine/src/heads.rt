//! What is done with a node: its template's body, or, without one, what its base group passes through.

ghost use Rattle.std.specs.Prelude.{◌≡◌, ◌<◌, ◌&&◌, IfOk, IfSome, OnOk, false, length, not, reverse, slice_get, true, IfErr, Some, ◌^◌};
ghost use Rattle.node_stack.specs.Path.{Node, can_have_children, current};
ghost use Rattle.sheet_model.specs.Passing.{kinds};
ghost use Rattle.sheet_model.specs.declared.sheet.Group.{Group as Grouped};
ghost use Rattle.stx_base.specs.declared.fault.Place.{Place as Places};
ghost use Rattle.template_machine.specs.Passing.{parts_behind};
ghost use Rattle.template_machine.specs.Saying.{Puts};
ghost use Rattle.template_machine.specs.Scopes.{in_force};
ghost use Rattle.node_stack.specs.Stack.{path};
ghost use Rattle.template_machine.specs.Asking.{AsksOn, IsAsker, place_by};
ghost use Rattle.template_machine.specs.Behind.{DocumentIsLast, MovesFrom, StepsFrom, asked_again, body_done, head_taken, list_done};
ghost use Rattle.template_machine.specs.Bodies.{spent_in};
ghost use Rattle.template_machine.specs.Choosing.{ChoosesAs};
ghost use Rattle.template_machine.specs.Entering.{Enters, IsUncounted, first_parts, head_passed, pass_opened};
ghost use Rattle.template_machine.specs.Moments.{BodyIsOver, Follows, HasHead, IsAtOp, IsPass, ListIsOver, StandsAsBefore, CanPut};
ghost use Rattle.template_machine.specs.Ordinary.{IsAlone};
ghost use Rattle.template_machine.specs.Still.{still};
ghost use Rattle.template_machine.specs.Well.{IsSourceWell, IsSteady, IsWell, is_again};
ghost use Rattle.template_machine.specs.Work.{AsksNone, Begins, Falls};
ghost use Rattle.template_machine.specs.Working.{Awaits, CanEnter, IsChosen, IsTemplateBody};

use crate::bodies::{active, body_below, level_at, spend_children, take_off};
use crate::program::Program;
use crate::run::{Asker, Doing, Run, Running, Spot, Step};
use crate::sink::Sink;
use crate::stop::Stop;
use frame_stack::{Frame, Locals};
use group_scope::Chosen;
use instr_code::Op;
use node_stack::NodeView;
use stx_base::{List, Place, RunCode};

impl Run {
    /// Takes the current node, a head that somebody asked for.
    #[inline(always)]
    pub fn take<S: Sink>(
        &mut self,
        program: &Program,
        asker: Asker,
        out: &mut S,
    ) -> Result<Step, Stop>
        requires head { HasHead program.now self.old }
        requires asker { IsAsker program.now asker (reverse self.old.frames.frames) }
        ensures stands { IfOk result (λ step. Follows program.now step self.new) }
        ensures asks { IfOk result AsksNone }
        ensures works { OnOk result (Begins 5 self.old self.new) }
        ensures takes { IsAlone program.now self.old → IsUncounted self.old → StepsFrom S.output S.told program.now (λ given left f. head_taken given program.now self.old left f) result self.new out.old out.new }
    {
        let base = self.base_of(program, asker);
        let none = List::new(self.alloc);
        match self.chosen(program, base, &none)? {
            Some(chosen) => {
                let at = self.place_of(program, asker);
                self.enter(program, chosen, asker, false, at)?;
                Ok(Step::More)
            }
            None => self.pass_through(program, base, out),
        }
    }

    /// The current node has no template.
    #[inline(always)]
    fn pass_through<S: Sink>(
        &mut self,
        program: &Program,
        base: u32,
        out: &mut S,
    ) -> Result<Step, Stop>
        requires head { HasHead program.now self.old }
        requires base { base < length program.now.sheet.groups }
        ensures stands { IfOk result (λ step. Follows program.now step self.new) }
        ensures asks { IfOk result AsksNone }
        ensures works { OnOk result (Begins 5 self.old self.new) }
        ensures passes { IsAlone program.now self.old → IsUncounted self.old → (twice : Places) → StepsFrom S.output S.told program.now (λ given left f. head_passed given program.now twice base self.old left f) result self.new out.old out.new }
    {
        self.pass(program, base, out)?;
        if self.source.has_list() {
            return self.open_pass(program, base);
        }
        self.leave_node(program)
    }

    /// The template for the current node, of those that aren't active.
    #[inline(always)]
    fn chosen(
        &self,
        program: &Program,
        base: u32,
        active: &List<u32>,
    ) -> Result<Option<Chosen>, Stop>
        requires { IsSteady program.now self.now }
        ensures fits { IfOk result (λ choice. IfSome choice (λ c. IsChosen program.now self.now c.template c.alternative)) }
        ensures chooses { IfOk result (ChoosesAs program.now self.now base active.now) }
        ensures memory { IfErr result (λ stop. stop ≡ Stop.Memory) }
    {
        let vars = self.seen(program);
        let chosen = program.scope.select(
            self.alloc,
            &program.sheet,
            base,
            &self.source.stack,
            &vars,
            active,
            &program.limits,
        )?;
        Ok(chosen)
    }

    /// Enters the body of a template for the current node.
    fn enter(
        &mut self,
        program: &Program,
        chosen: Chosen,
        asker: Asker,
        spent: bool,
        at: Place,
    ) -> Result<(), Stop>
        requires node { CanEnter program.now spent self.old }
        requires chosen { IsChosen program.now self.old chosen.template chosen.alternative }
        requires asker { AsksOn asker (reverse self.old.frames.frames) }
        ensures stands { OnOk result (IsWell program.now self.new) }
        ensures works { OnOk result (Begins 5 self.old self.new) }
        ensures enters { Enters program.now chosen.template chosen.alternative asker spent at result self.old self.new }
    {
        let Chosen {
            template,
            alternative,
        } = chosen;
        let frame = Frame::Body {
            template,
            alternative,
            pc: program.start_of_template(template),
            locals: Locals::new(self.alloc),
            level: self.source.stack.level(),
            spent,
        };
        self.push(program, frame, at)?;
        self.doing = Doing::Body;
        let declared = &program.sheet.templates.as_slice()[template as usize];
        if !declared.new_scope {
            return self.bind_waiting(program, &declared.params, asker);
        }
        self.enter_scope(program, declared.group)?;
        self.bind_waiting(program, &declared.params, asker)
    }

    /// What a base group passes through of the current node before its children, if it has some, or all of it.
    fn pass<S: Sink>(&mut self, program: &Program, base: u32, out: &mut S) -> Result<(), Stop>
        requires base { base < length program.now.sheet.groups }
        requires puts { CanPut self.old.putting }
        requires source { IsSourceWell self.old.source }
        ensures run { self.new ≡ record self.old { putting = self.new.putting } }
        ensures puts { StandsAsBefore self.old.putting self.new.putting }
        ensures parts { (g : Grouped) → slice_get program.now.sheet.groups base ≡ Some g → (n : Node) → current (path self.old.source.stack) ≡ Some n → Puts S.output S.told g.at (first_parts (kinds g.pass) (in_force self.old.source.bindings) n) result self.old.putting self.new.putting out.old out.new }
    {
        let group = program.group(base);
        let kinds = group.pass.kinds();
        let at = group.at;
        match self.source.stack.current() {
            NodeView::Document => Ok(()),
            NodeView::Element { name, attrs, .. } => {
                let bindings = &self.source.bindings;
                self.putting
                    .pass_start(kinds, name, attrs, bindings, at, out)
            }
            NodeView::Chars(text) => {
                if kinds.text {
                    return self.putting.chars(text, at, out);
                }
                Ok(())
            }
            NodeView::CData(text) => {
                if kinds.text || kinds.cdata {
                    return self.putting.cdata(text, at, out);
                }
                Ok(())
            }
            NodeView::Comment(text) => {
                if kinds.comments {
                    return self.putting.comment(text, at, out);
                }
                Ok(())
            }
            NodeView::Pi { target, text } => {
                if kinds.instructions {
                    return self.putting.instruction(target, text, at, out);
                }
                Ok(())
            }
            NodeView::Attribute(attr) => {
                if kinds.attributes {
                    return self.putting.attribute_of(attr, at, out);
                }
                Ok(())
            }
        }
    }

    /// The children of the current node, which is passed through, are processed.
    #[inline(always)]
    fn open_pass(&mut self, program: &Program, base: u32) -> Result<Step, Stop>
        requires head { HasHead program.now self.old }
        requires base { base < length program.now.sheet.groups }
        requires list { can_have_children (current (path self.old.source.stack)) ≡ true }
        ensures stands { IfOk result (λ step. Follows program.now step self.new) }
        ensures asks { IfOk result AsksNone }
        ensures works { OnOk result (Begins 5 self.old self.new) }
        ensures opens { IsAlone program.now self.old → IsUncounted self.old → (twice : Places) → MovesFrom program.now (λ given left f. pass_opened given program.now twice base self.old left f) result self.new }
    {
        let frame = Frame::Pass {
            base,
            level: self.source.stack.level(),
            spent: true,
        };
        self.push(program, frame, program.group(base).at)?;
        Ok(self.list_goes_on())
    }

    /// The children of a node that is passed through are over.
    #[inline(always)]
    pub fn end_pass<S: Sink>(
        &mut self,
        program: &Program,
        base: u32,
        level: u32,
        out: &mut S,
    ) -> Result<Step, Stop>
        requires over { ListIsOver program.now self.old }
        requires pass { IsPass base level (reverse self.old.frames.frames) }
        ensures stands { IfOk result (λ step. Follows program.now step self.new) }
        ensures asks { IfOk result AsksNone }
        ensures works { OnOk result (Begins 0 self.old self.new) }
        ensures steps { IsAlone program.now self.old → StepsFrom S.output S.told program.now (λ given left f. list_done given program.now self.old left f) result self.new out.old out.new }
    {
        take_off(&mut self.frames);
        self.pass_end(program, base, out)?;
        if self.is_asked_again(level) {
            self.end_process(program);
            return Ok(Step::More);
        }
        self.leave_node(program)
    }

    /// The end of the current node, where elements are passed through.
    fn pass_end<S: Sink>(&mut self, program: &Program, base: u32, out: &mut S) -> Result<(), Stop>
        requires base { base < length program.now.sheet.groups }
        requires puts { CanPut self.old.putting }
        ensures run { self.new ≡ record self.old { putting = self.new.putting } }
        ensures puts { StandsAsBefore self.old.putting self.new.putting }
        ensures parts { (g : Grouped) → slice_get program.now.sheet.groups base ≡ Some g → (n : Node) → current (path self.old.source.stack) ≡ Some n → Puts S.output S.told g.at (parts_behind (kinds g.pass) n) result self.old.putting self.new.putting out.old out.new }
    {
        let group = program.group(base);
        if !group.pass.kinds().elements {
            return Ok(());
        }
        match self.source.stack.current() {
            NodeView::Element { name, .. } => self.putting.end(name, group.at, out),
            _ => Ok(()),
        }
    }

    /// Whether a node of this level was taken for a body of it, which asked for it again.
    #[inline(always)]
    pub fn is_asked_again(&self, level: u32) -> bool
        ensures { result ≡ is_again level (reverse self.now.frames.frames) }
    {
        match body_below(&self.frames, self.frames.count()) {
            Some(body) => level_at(&self.frames, body) == level,
            None => false,
        }
    }

    /// The body of a template is over.
    pub fn end_template(
        &mut self,
        program: &Program,
        running: Running,
        template: u32,
        level: u32,
        spent: bool,
    ) -> Result<Step, Stop>
        requires op { IsAtOp program.now self.old running Op.Return }
        requires body { IsTemplateBody template level spent (slice_get self.old.frames.frames running.body) }
        ensures stands { IfOk result (λ step. Follows program.now step self.new) }
        ensures works { IfOk result (λ step. Falls program.now self.old step self.new) }
        ensures moves { IsAlone program.now self.old → MovesFrom program.now (λ given left f. still given program.now self.old left f) result self.new }
    {
        let declared = &program.sheet.templates.as_slice()[template as usize];
        take_off(&mut self.frames);
        if declared.new_scope {
            self.leave_scope(declared.group);
            return self.leave_body(program, level, spent, declared.at);
        }
        self.leave_body(program, level, spent, declared.at)
    }

    /// A node of this level is left by its body, unless another body of it goes on.
    fn leave_body(
        &mut self,
        program: &Program,
        level: u32,
        spent: bool,
        at: Place,
    ) -> Result<Step, Stop>
        requires { BodyIsOver program.now level spent self.old }
        ensures stands { IfOk result (λ step. Follows program.now step self.new) }
        ensures asks { IfOk result AsksNone }
        ensures works { OnOk result (Begins 4 self.old self.new) }
        ensures moves { IsAlone program.now self.old → (is_again level (reverse self.old.frames.frames) ≡ true → spent_in (reverse self.old.frames.frames) ≡ Some spent) → MovesFrom program.now (λ given left f. body_done given program.now (is_again level (reverse self.old.frames.frames)) spent self.old left f) result self.new }
    {
        if self.is_asked_again(level) {
            self.end_process(program);
            return Ok(Step::More);
        }
        if self.is_open(spent) {
            return self.skip_children(program, level, spent, at);
        }
        self.leave_node(program)
    }

    /// Whether the current node has children that aren't gone for its body.
    pub fn is_open(&self, spent: bool) -> bool
        ensures { result ≡ (can_have_children (current (path self.now.source.stack)) && not spent) }
    {
        if spent {
            return false;
        }
        self.source.has_list()
    }

    /// The children of the current node, which its body has left, are skipped.
    fn skip_children(
        &mut self,
        program: &Program,
        level: u32,
        spent: bool,
        at: Place,
    ) -> Result<Step, Stop>
        requires over { BodyIsOver program.now level spent self.old }
        requires apart { is_again level (reverse self.old.frames.frames) ≡ false }
        requires open { (can_have_children (current (path self.old.source.stack)) && not spent) ≡ true }
        ensures stands { IfOk result (λ step. Follows program.now step self.new) }
        ensures asks { IfOk result AsksNone }
        ensures works { OnOk result (Begins 4 self.old self.new) }
        ensures moves { IsAlone program.now self.old → MovesFrom program.now (λ given left f. body_done given program.now false spent self.old left f) result self.new }
    {
        self.push(program, Frame::Skip { depth: 0 }, at)?;
        self.doing = Doing::List;
        Ok(Step::More)
    }

    /// The current node again, as `process-self` asks: the next template for it, or else it is passed through.
    pub fn again<S: Sink>(
        &mut self,
        program: &Program,
        asked: u32,
        spot: Spot,
        out: &mut S,
    ) -> Result<Step, Stop>
        requires { Awaits program.now self.old asked spot.body }
        ensures stands { IfOk result (λ step. Follows program.now step self.new) }
        ensures works { OnOk result (Begins (2 ^ 68) self.old self.new) }
        ensures steps { IsAlone program.now self.old → spot.at ≡ place_by program.now (Asker.Instr asked spot.body) → StepsFrom S.output S.told program.now (λ given left f. asked_again given program.now asked self.old left f) result self.new out.old out.new }
    {
        let base = program.link_asked(asked).base;
        let level = level_at(&self.frames, spot.body);
        let active = active(self.alloc, &self.frames, level)?;
        let spent = self.is_spent();
        if let Some(chosen) = self.chosen(program, base, &active)? {
            let asker = Asker::Instr {
                asked,
                body: spot.body,
            };
            self.enter(program, chosen, asker, spent, spot.at)?;
            return Ok(Step::More);
        }
        self.pass(program, base, out)?;
        if !self.source.has_list() {
            self.end_process(program);
            return Ok(Step::More);
        }
        if spent {
            return Err(Stop::fault(RunCode::ChildrenTwice, spot.at));
        }
        spend_children(&mut self.frames, level);
        let frame = Frame::Pass {
            base,
            level,
            spent: true,
        };
        self.push(program, frame, program.group(base).at)?;
        Ok(self.list_goes_on())
    }
}
