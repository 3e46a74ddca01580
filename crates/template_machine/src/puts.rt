//! Instructions that put parts, and those around lists.

ghost use Rattle.std.specs.Prelude.{◌≡◌, ◌∷◌, ◌+◌, [], true, All, IfOk, IsTrue, OnOk, None, Some, List as Items, if◌then◌else◌, reverse, slice_get};
ghost use Rattle.std.specs.Option.{ForSome};
ghost use Rattle.frame_stack.specs.Change.{with_pc};
ghost use Rattle.instr_code.specs.Steps.{Holds};
ghost use Rattle.sheet_model.specs.Parts.{place};
ghost use Rattle.sheet_model.specs.declared.instr.Instr.{Instr as Instruction};
ghost use Rattle.sheet_model.specs.declared.instr.Instr.TheViews.{out-Instr};
ghost use Rattle.stxpath_syntax.specs.Shape.{CanBeEvaluated};
ghost use Rattle.stxpath_syntax.specs.declared.expr.Expr.TheVariants as expr;
ghost use Rattle.stx_base.specs.declared.name.Binding.{Binding};
ghost use Rattle.stx_base.specs.declared.part.Part.TheVariants as parts;
ghost use Rattle.stxpath_values.specs.Outcome.{each};
ghost use Rattle.template_machine.specs.Acting.{attribute_of, without_space};
ghost use Rattle.template_machine.specs.Bodies.{body_in, on_body};
ghost use Rattle.template_machine.specs.Contexts.{Around, AroundBuffer, AroundTag, HasForm};
ghost use Rattle.template_machine.specs.Evaluating.{ContentCanBeEvaluated, TemplateCanBeEvaluated};
ghost use Rattle.template_machine.specs.Opening.{BeginsCopy, EndsCopy, IsElementAt, Opens, PutsAside, literal_at};
ghost use Rattle.template_machine.specs.Puts.{OnlyPuts};
ghost use Rattle.template_machine.specs.Ordinary.{StaysThere};
ghost use Rattle.template_machine.specs.Saying.{Acts, ClosesShown, Gave, NamesAs, OpensShown, Puts, Steps, attribute_at, comment_at, end_at, message_at, pi_at, sight, start_at, value_at};
ghost use Rattle.template_machine.specs.Steps.{Sees};
ghost use Rattle.template_machine.specs.Stepwise.{tag_of};
ghost use Rattle.template_machine.specs.Moments.{IsAtOp, CanPut};
ghost use Rattle.template_machine.specs.Values.{content_text, namespace_text, template_text};
ghost use Rattle.template_machine.specs.Well.{AreTexts, IsSourceWell, IsWell};
ghost use Rattle.template_machine.specs.Work.{Begins, Lessens};
ghost use Rattle.template_machine.specs.Working as working;
ghost use Rattle.template_machine.specs.Working.{CanBeRun, Runs};

use crate::bodies::locals_at;
use crate::names::{Bare, computed_name};
use crate::program::{Program, place_of};
use crate::run::{Run, Running, Spot};
use crate::sink::Sink;
use crate::stop::{Stop, evaluated};
use instr_code::Op;
use node_stack::NodeView;
use sheet_model::{Content, Instr, LiteralAttr};
use std::alloc::Global;
use stx_base::{Attr, Binding, List, Memory, Name, Place, RunCode, Text, is_space};
use stxpath_syntax::{Avt, Expr, Pattern};
use stxpath_values::Atom;

impl Run {
    /// An instruction that puts parts and has no list inside.
    pub fn put<S: Sink>(
        &mut self,
        program: &Program,
        instr: &Instr,
        spot: Spot,
        out: &mut S,
    ) -> Result<(), Stop>
        requires runs { Runs program.now self.old spot.body }
        requires can { CanBeRun instr.now }
        requires puts { working.puts (out-Instr instr.now) ≡ true }
        ensures stands { OnOk result (IsWell program.now self.new) }
        ensures works { OnOk result (Begins 0 self.old self.new) }
        ensures rest { self.new ≡ record self.old { putting = self.new.putting } }
        ensures acts { body_in (reverse self.old.frames.frames) ≡ Some spot.body → spot.at ≡ place (out-Instr instr.now) → Acts S.output S.told program.now (out-Instr instr.now) result self.old self.new out.old out.new }
    {
        self.put_parts(program, instr, spot, out)
    }

    fn put_parts<S: Sink>(
        &mut self,
        program: &Program,
        instr: &Instr,
        spot: Spot,
        out: &mut S,
    ) -> Result<(), Stop>
        requires target { CanPut self.old.putting }
        requires sees { Sees program.now self.old spot.body }
        requires can { CanBeRun instr.now }
        requires puts { working.puts (out-Instr instr.now) ≡ true }
        ensures only { OnlyPuts self.old self.new }
        ensures acts { body_in (reverse self.old.frames.frames) ≡ Some spot.body → spot.at ≡ place (out-Instr instr.now) → Acts S.output S.told program.now (out-Instr instr.now) result self.old self.new out.old out.new }
    {
        match instr {
            Instr::ValueOf {
                select,
                separator,
                ..
            } => self.put_value(program, select, separator, spot, out),
            Instr::Chars { text, .. } => self.putting.text(text, spot.at, out),
            Instr::LiteralChars { text, .. } => self.putting.text(text, spot.at, out),
            Instr::StartElement {
                name,
                namespace,
                scope,
                ..
            } => self.put_start(program, name, namespace, scope, spot, out),
            Instr::EndElement {
                name,
                namespace,
                scope,
                ..
            } => self.put_end(program, name, namespace, scope, spot, out),
            Instr::Attribute {
                name,
                namespace,
                scope,
                content,
                ..
            } => self.put_attribute(program, name, namespace, scope, content, spot, out),
            Instr::Comment { content, .. } => self.put_comment(program, content, spot, out),
            Instr::Pi { name, content, .. } => {
                self.put_instruction(program, name, content, spot, out)
            }
            Instr::Message { content, .. } => self.say(program, content, spot, out),
            _ => unreachable!(),
        }
    }

    fn put_value<S: Sink>(
        &mut self,
        program: &Program,
        select: &Expr,
        separator: &Option<Avt>,
        spot: Spot,
        out: &mut S,
    ) -> Result<(), Stop>
        requires target { CanPut self.old.putting }
        requires sees { Sees program.now self.old spot.body }
        requires select { CanBeEvaluated select.now }
        requires separator { ForSome separator.now TemplateCanBeEvaluated }
        ensures only { OnlyPuts self.old self.new }
        ensures acts { body_in (reverse self.old.frames.frames) ≡ Some spot.body → Acts S.output S.told program.now (value_at select.now separator.now spot.at) result self.old self.new out.old out.new }
    {
        match separator {
            None => {
                // The string value of the current node is put as it stands.
                if is_current(select) {
                    let stack = &self.source.stack;
                    let text = stack.text_of(stack.current());
                    return self.putting.text(text, spot.at, out);
                }
                let text = evaluated(self.setting(program, spot.body).text(select), spot.at)?;
                self.putting.text(&text, spot.at, out)
            }
            Some(separator) => {
                let text = self
                    .setting(program, spot.body)
                    .parted_text(select, separator);
                let text = evaluated(text, spot.at)?;
                self.putting.text(&text, spot.at, out)
            }
        }
    }

    fn put_start<S: Sink>(
        &mut self,
        program: &Program,
        name: &Avt,
        namespace: &Option<Avt>,
        scope: &List<Binding>,
        spot: Spot,
        out: &mut S,
    ) -> Result<(), Stop>
        requires target { CanPut self.old.putting }
        requires sees { Sees program.now self.old spot.body }
        requires name { TemplateCanBeEvaluated name.now }
        requires namespace { ForSome namespace.now TemplateCanBeEvaluated }
        ensures only { OnlyPuts self.old self.new }
        ensures acts { body_in (reverse self.old.frames.frames) ≡ Some spot.body → Acts S.output S.told program.now (start_at name.now namespace.now scope.now spot.at) result self.old self.new out.old out.new }
    {
        let name = self.element_name(program, name, namespace, scope, spot)?;
        self.putting.start_named(name, spot.at, out)
    }

    fn put_end<S: Sink>(
        &mut self,
        program: &Program,
        name: &Avt,
        namespace: &Option<Avt>,
        scope: &List<Binding>,
        spot: Spot,
        out: &mut S,
    ) -> Result<(), Stop>
        requires target { CanPut self.old.putting }
        requires sees { Sees program.now self.old spot.body }
        requires name { TemplateCanBeEvaluated name.now }
        requires namespace { ForSome namespace.now TemplateCanBeEvaluated }
        ensures only { OnlyPuts self.old self.new }
        ensures acts { body_in (reverse self.old.frames.frames) ≡ Some spot.body → Acts S.output S.told program.now (end_at name.now namespace.now scope.now spot.at) result self.old self.new out.old out.new }
    {
        let name = self.element_name(program, name, namespace, scope, spot)?;
        self.putting.end(&name, spot.at, out)
    }

    fn put_attribute<S: Sink>(
        &mut self,
        program: &Program,
        name: &Avt,
        namespace: &Option<Avt>,
        scope: &List<Binding>,
        content: &Content,
        spot: Spot,
        out: &mut S,
    ) -> Result<(), Stop>
        requires target { CanPut self.old.putting }
        requires sees { Sees program.now self.old spot.body }
        requires name { TemplateCanBeEvaluated name.now }
        requires namespace { ForSome namespace.now TemplateCanBeEvaluated }
        requires content { ContentCanBeEvaluated content.now }
        ensures only { OnlyPuts self.old self.new }
        ensures acts { body_in (reverse self.old.frames.frames) ≡ Some spot.body → Acts S.output S.told program.now (attribute_at name.now namespace.now scope.now content.now spot.at) result self.old self.new out.old out.new }
    {
        let name = self.template(program, name, spot)?;
        let namespace = self.namespace(program, namespace, spot)?;
        let value = self.content(program, content, spot)?;
        match computed_name(self.alloc, Bare::InNone, scope, namespace, &name)? {
            Some(name) => self.putting.attribute(name, value, spot.at, out),
            None => Err(Stop::fault(RunCode::BadName, spot.at)),
        }
    }

    fn put_comment<S: Sink>(
        &mut self,
        program: &Program,
        content: &Content,
        spot: Spot,
        out: &mut S,
    ) -> Result<(), Stop>
        requires target { CanPut self.old.putting }
        requires sees { Sees program.now self.old spot.body }
        requires content { ContentCanBeEvaluated content.now }
        ensures only { OnlyPuts self.old self.new }
        ensures acts { body_in (reverse self.old.frames.frames) ≡ Some spot.body → Acts S.output S.told program.now (comment_at content.now spot.at) result self.old self.new out.old out.new }
    {
        let text = self.content(program, content, spot)?;
        self.putting.comment(&text, spot.at, out)
    }

    fn put_instruction<S: Sink>(
        &mut self,
        program: &Program,
        name: &Avt,
        content: &Content,
        spot: Spot,
        out: &mut S,
    ) -> Result<(), Stop>
        requires target { CanPut self.old.putting }
        requires sees { Sees program.now self.old spot.body }
        requires name { TemplateCanBeEvaluated name.now }
        requires content { ContentCanBeEvaluated content.now }
        ensures only { OnlyPuts self.old self.new }
        ensures acts { (scope : Items Binding) → body_in (reverse self.old.frames.frames) ≡ Some spot.body → Acts S.output S.told program.now (pi_at name.now scope content.now spot.at) result self.old self.new out.old out.new }
    {
        let target = self.template(program, name, spot)?;
        let text = self.content(program, content, spot)?;
        let text = self.without_space(&text)?;
        self.putting.instruction(&target, &text, spot.at, out)
    }

    /// A message is said.
    fn say<S: Sink>(
        &self,
        program: &Program,
        content: &Content,
        spot: Spot,
        out: &mut S,
    ) -> Result<(), Stop>
        requires sees { Sees program.now self.now spot.body }
        requires content { ContentCanBeEvaluated content.now }
        ensures { body_in (reverse self.now.frames.frames) ≡ Some spot.body → Acts S.output S.told program.now (message_at content.now spot.at) result self.now self.now out.old out.new }
    {
        let text = self.content(program, content, spot)?;
        out.note(&text)?;
        Ok(())
    }

    fn element_name(
        &self,
        program: &Program,
        name: &Avt,
        namespace: &Option<Avt>,
        scope: &List<Binding>,
        spot: Spot,
    ) -> Result<Name, Stop>
        requires sees { Sees program.now self.now spot.body }
        requires name { TemplateCanBeEvaluated name.now }
        requires namespace { ForSome namespace.now TemplateCanBeEvaluated }
        ensures { body_in (reverse self.now.frames.frames) ≡ Some spot.body → NamesAs spot.at name.now namespace.now scope.now program.now self.now result }
    {
        let name = self.template(program, name, spot)?;
        let namespace = self.namespace(program, namespace, spot)?;
        match computed_name(self.alloc, Bare::InDefault, scope, namespace, &name)? {
            Some(name) => Ok(name),
            None => Err(Stop::fault(RunCode::BadName, spot.at)),
        }
    }

    pub fn template(&self, program: &Program, template: &Avt, spot: Spot) -> Result<Text, Stop>
        requires sees { Sees program.now self.now spot.body }
        requires template { TemplateCanBeEvaluated template.now }
        ensures { body_in (reverse self.now.frames.frames) ≡ Some spot.body → Gave spot.at result (template_text template.now (sight program.now self.now)) }
    {
        evaluated(self.setting(program, spot.body).template(template), spot.at)
    }

    fn namespace(
        &self,
        program: &Program,
        namespace: &Option<Avt>,
        spot: Spot,
    ) -> Result<Option<Text>, Stop>
        requires sees { Sees program.now self.now spot.body }
        requires namespace { ForSome namespace.now TemplateCanBeEvaluated }
        ensures { body_in (reverse self.now.frames.frames) ≡ Some spot.body → Gave spot.at result (namespace_text namespace.now (sight program.now self.now)) }
    {
        evaluated(
            self.setting(program, spot.body)
                .optional_template(namespace),
            spot.at,
        )
    }

    fn content(&self, program: &Program, content: &Content, spot: Spot) -> Result<Text, Stop>
        requires sees { Sees program.now self.now spot.body }
        requires content { ContentCanBeEvaluated content.now }
        ensures { body_in (reverse self.now.frames.frames) ≡ Some spot.body → Gave spot.at result (content_text content.now (sight program.now self.now)) }
    {
        evaluated(self.setting(program, spot.body).content(content), spot.at)
    }

    /// A text without the white space that it begins with (XML 1.0, 2.6).
    fn without_space(&self, text: &Text) -> Result<Text, Memory>
        ensures { IfOk result (λ made. made ≡ without_space text.now) }
    {
        let mut made = Text::new(self.alloc);
        for c in text.as_str().chars() {
            if made.is_empty() && is_space(c) {
                continue;
            }
            made.push(c)?;
        }
        Ok(made)
    }

    // Instructions around lists.

    /// The begin of an instruction around a list.
    pub fn open_list<S: Sink>(
        &mut self,
        program: &Program,
        running: Running,
        number: u32,
        to: u32,
        out: &mut S,
    ) -> Result<(), Stop>
        requires { IsAtOp program.now self.old running (Op.Open number to) }
        ensures stands { OnOk result (IsWell program.now self.new) }
        ensures works { OnOk result (Lessens program.now self.old self.new) }
        ensures goes { ((i : Instruction) → slice_get program.now.code.instrs number ≡ Some i → OpensShown (out-Instr i)) → Steps S.output S.told program.now result self.old self.new out.old out.new }
        ensures keeps { ((i : Instruction) → slice_get program.now.code.instrs number ≡ Some i → OpensShown (out-Instr i)) → OnOk result (StaysThere self.old self.new) }
    {
        let instr = program.instr(number);
        let spot = Spot {
            body: running.body,
            at: place_of(instr),
        };
        self.spend(spot.at)?;
        match instr {
            Instr::Literal { name, attrs, .. } => {
                self.open_literal(program, name, attrs.as_slice(), spot, out)?;
                self.enter_list(program, running, number, to);
                Ok(())
            }
            Instr::Copy { attributes, .. } => {
                let inside = self.open_copy(attributes, spot.at, out)?;
                self.enter_or_pass(program, running, number, to, inside);
                Ok(())
            }
            Instr::Element {
                name,
                namespace,
                scope,
                ..
            } => {
                let name = self.element_name(program, name, namespace, scope, spot)?;
                self.open_element(&name, spot, out)?;
                self.enter_tagged(program, running, number, to, name)?;
                Ok(())
            }
            Instr::ResultBuffer { clear, .. } => {
                self.enter_buffer(program, running, number, to, *clear, spot.at)
            }
            _ => unreachable!(),
        }
    }

    /// The end of an instruction around a list.
    pub fn close_list<S: Sink>(
        &mut self,
        program: &Program,
        running: Running,
        number: u32,
        out: &mut S,
    ) -> Result<(), Stop>
        requires { IsAtOp program.now self.old running (Op.Close number) }
        ensures stands { OnOk result (IsWell program.now self.new) }
        ensures works { OnOk result (Lessens program.now self.old self.new) }
        ensures goes { ((i : Instruction) → slice_get program.now.code.instrs number ≡ Some i → ClosesShown (out-Instr i)) → Steps S.output S.told program.now result self.old self.new out.old out.new }
        ensures keeps { ((i : Instruction) → slice_get program.now.code.instrs number ≡ Some i → ClosesShown (out-Instr i)) → OnOk result (StaysThere self.old self.new) }
    {
        match program.instr(number) {
            Instr::Literal { name, at, .. } => {
                self.putting.end(name, *at, out)?;
                self.leave_list(program, running, number);
                Ok(())
            }
            Instr::Copy { at, .. } => {
                self.close_copy(*at, out)?;
                self.leave_list(program, running, number);
                Ok(())
            }
            Instr::Element { at, .. } => self.leave_tagged(program, running, number, *at, out),
            Instr::ResultBuffer { at, .. } => self.leave_buffer(program, running, number, *at),
            _ => unreachable!(),
        }
    }

    /// A literal element's start, with its attributes.
    fn open_literal<S: Sink>(
        &mut self,
        program: &Program,
        name: &Name,
        attrs: &[LiteralAttr],
        spot: Spot,
        out: &mut S,
    ) -> Result<(), Stop>
        requires target { CanPut self.old.putting }
        requires sees { Sees program.now self.old spot.body }
        requires attrs { All (λ attr. TemplateCanBeEvaluated attr.value) attrs.now }
        ensures only { OnlyPuts self.old self.new }
        ensures opens { (body : Items Instruction) → body_in (reverse self.old.frames.frames) ≡ Some spot.body → Opens S.output S.told program.now (literal_at name.now attrs.now body spot.at) (λ w. Holds [] w) result self.old self.new out.old out.new }
    {
        if attrs.is_empty() {
            return self.putting.start(name, spot.at, out);
        }
        let made = self.literal_attrs(program, attrs, spot)?;
        self.putting.start(name, spot.at, out)?;
        self.putting.attributes(made, spot.at, out)
    }

    /// The attributes of a literal element.
    fn literal_attrs(
        &mut self,
        program: &Program,
        attrs: &[LiteralAttr],
        spot: Spot,
    ) -> Result<List<Attr>, Stop>
        requires sees { Sees program.now self.old spot.body }
        requires attrs { All (λ attr. TemplateCanBeEvaluated attr.value) attrs.now }
        ensures only { OnlyPuts self.old self.new }
        ensures rest { self.new ≡ record self.old { putting = record self.old.putting { spare = self.new.putting.spare } } }
        ensures gave { body_in (reverse self.old.frames.frames) ≡ Some spot.body → Gave spot.at result (each (attribute_of (sight program.now self.old)) attrs.now) }
    {
        let mut made = self.putting.spare.attrs();
        for attr in attrs {
            let value = self.template(program, &attr.value, spot)?;
            let name = self.putting.copied_name(&attr.name)?;
            made.push(Attr { name, value })?;
        }
        Ok(made)
    }

    /// The start of an element whose name was computed.
    fn open_element<S: Sink>(&mut self, name: &Name, spot: Spot, out: &mut S) -> Result<(), Stop>
        requires { CanPut self.old.putting }
        ensures only { OnlyPuts self.old self.new }
        ensures puts { Puts S.output S.told spot.at (parts.Start name.now [] ∷ []) result self.old.putting self.new.putting out.old out.new }
    {
        self.putting.start(name, spot.at, out)
    }

    /// A copy of the current node, without its children. The answer is whether the list inside is run.
    fn open_copy<S: Sink>(
        &mut self,
        attributes: &Option<Pattern>,
        at: Place,
        out: &mut S,
    ) -> Result<bool, Stop>
        requires can { CanPut self.old.putting }
        requires source { IsSourceWell self.old.source }
        ensures only { OnlyPuts self.old self.new }
        ensures begins { BeginsCopy S.output S.told attributes.now at result self.old self.new out.old out.new }
    {
        let node = self.source.stack.current();
        self.putting
            .open_copy(node, &self.source.bindings, attributes, at, out)
    }

    fn close_copy<S: Sink>(&mut self, at: Place, out: &mut S) -> Result<(), Stop>
        requires { CanPut self.old.putting }
        ensures only { OnlyPuts self.old self.new }
        ensures ends { EndsCopy S.output S.told at result self.old self.new out.old out.new }
    {
        match self.source.stack.current() {
            NodeView::Element { name, .. } => self.putting.end(name, at, out),
            _ => Ok(()),
        }
    }

    // Where the body goes on.

    /// The list inside an instruction is run, or it isn't.
    fn enter_or_pass(
        &mut self,
        program: &Program,
        running: Running,
        number: u32,
        to: u32,
        inside: bool,
    )
        requires op { IsAtOp program.now self.old running (Op.Open number to) }
        requires form { HasForm program.now.code number Around }
        ensures stands { IsWell program.now self.new }
        ensures works { Begins 0 self.old self.new }
        ensures behind { reverse self.new.frames.frames ≡ on_body (with_pc (if inside then running.pc + 1 else to)) (reverse self.old.frames.frames) }
        ensures rest { self.new ≡ record self.old { frames = self.new.frames } }
    {
        if inside {
            self.enter_list(program, running, number, to);
            return;
        }
        self.pass_list(program, running, number, to);
    }

    /// The list inside an instruction is run.
    fn enter_list(&mut self, program: &Program, running: Running, number: u32, to: u32)
        requires op { IsAtOp program.now self.old running (Op.Open number to) }
        requires form { HasForm program.now.code number Around }
        ensures stands { IsWell program.now self.new }
        ensures works { Begins 0 self.old self.new }
        ensures behind { reverse self.new.frames.frames ≡ on_body (with_pc (running.pc + 1)) (reverse self.old.frames.frames) }
        ensures rest { self.new ≡ record self.old { frames = self.new.frames } }
    {
        self.frames.set_pc(running.body, running.pc + 1);
    }

    /// It isn't run.
    fn pass_list(&mut self, program: &Program, running: Running, number: u32, to: u32)
        requires { IsAtOp program.now self.old running (Op.Open number to) }
        ensures stands { IsWell program.now self.new }
        ensures works { Begins 0 self.old self.new }
        ensures behind { reverse self.new.frames.frames ≡ on_body (with_pc to) (reverse self.old.frames.frames) }
        ensures rest { self.new ≡ record self.old { frames = self.new.frames } }
    {
        self.frames.set_pc(running.body, to);
    }

    /// It is over.
    fn leave_list(&mut self, program: &Program, running: Running, number: u32)
        requires op { IsAtOp program.now self.old running (Op.Close number) }
        requires form { HasForm program.now.code number Around }
        ensures stands { IsWell program.now self.new }
        ensures works { Lessens program.now self.old self.new }
        ensures behind { reverse self.new.frames.frames ≡ on_body (with_pc (running.pc + 1)) (reverse self.old.frames.frames) }
        ensures rest { self.new ≡ record self.old { frames = self.new.frames } }
    {
        self.frames.set_pc(running.body, running.pc + 1);
    }

    /// The list inside an element is run, whose name waits for its end.
    fn enter_tagged(
        &mut self,
        program: &Program,
        running: Running,
        number: u32,
        to: u32,
        name: Name,
    ) -> Result<(), Memory>
        requires op { IsAtOp program.now self.old running (Op.Open number to) }
        requires form { HasForm program.now.code number AroundTag }
        ensures stands { OnOk result (IsWell program.now self.new) }
        ensures works { OnOk result (Begins 0 self.old self.new) }
        ensures behind { OnOk result (PutsAside (tag_of name) (running.pc + 1) self.old self.new) }
        ensures rest { self.new ≡ record self.old { frames = self.new.frames } }
    {
        let value = self.name_value(name)?;
        let nameless = nameless(self.alloc);
        self.frames.set_pc(running.body, running.pc + 1);
        self.frames.push_local(running.body, nameless, value)
    }

    /// A name as a value.
    fn name_value(&self, name: Name) -> Result<List<Atom>, Memory>
        ensures texts { IfOk result AreTexts }
        ensures tag { IfOk result (λ value. value ≡ tag_of name) }
    {
        let Name { uri, local, prefix } = name;
        let mut value = List::new(self.alloc);
        value.push(Atom::Chars(uri))?;
        value.push(Atom::Chars(local))?;
        value.push(Atom::Chars(prefix))?;
        Ok(value)
    }

    /// Such an element ends.
    fn leave_tagged<S: Sink>(
        &mut self,
        program: &Program,
        running: Running,
        number: u32,
        at: Place,
        out: &mut S,
    ) -> Result<(), Stop>
        requires op { IsAtOp program.now self.old running (Op.Close number) }
        requires form { HasForm program.now.code number AroundTag }
        ensures stands { OnOk result (IsWell program.now self.new) }
        ensures works { OnOk result (Lessens program.now self.old self.new) }
        ensures goes { (i : Instruction) → slice_get program.now.code.instrs number ≡ Some i → IsElementAt (out-Instr i) at → Steps S.output S.told program.now result self.old self.new out.old out.new }
        ensures keeps { OnOk result (StaysThere self.old self.new) }
    {
        let locals = locals_at(&self.frames, running.body);
        let last = locals.len() - 1;
        let name = self.putting.waiting_name(locals.value(last))?;
        self.putting.end(&name, at, out)?;
        self.frames.set_pc(running.body, running.pc + 1);
        self.frames.cut_locals(running.body, last);
        Ok(())
    }

    /// Parts go into a buffer from here on.
    fn enter_buffer(
        &mut self,
        program: &Program,
        running: Running,
        number: u32,
        to: u32,
        clear: bool,
        at: Place,
    ) -> Result<(), Stop>
        requires op { IsAtOp program.now self.old running (Op.Open number to) }
        requires form { HasForm program.now.code number AroundBuffer }
        ensures stands { OnOk result (IsWell program.now self.new) }
        ensures works { OnOk result (Begins 0 self.old self.new) }
    {
        let buffer = program.link(number).named;
        self.putting.begin_writing(buffer, clear, at)?;
        self.frames.set_pc(running.body, running.pc + 1);
        Ok(())
    }

    /// Parts go where they went before.
    fn leave_buffer(
        &mut self,
        program: &Program,
        running: Running,
        number: u32,
        at: Place,
    ) -> Result<(), Stop>
        requires op { IsAtOp program.now self.old running (Op.Close number) }
        requires form { HasForm program.now.code number AroundBuffer }
        ensures stands { OnOk result (IsWell program.now self.new) }
        ensures works { OnOk result (Lessens program.now self.old self.new) }
    {
        self.putting.end_writing(at)?;
        self.frames.set_pc(running.body, running.pc + 1);
        Ok(())
    }
}

/// Whether it is the current node.
fn is_current(select: &Expr) -> bool
    ensures { IsTrue result → select.now ≡ expr.Up 0 None }
{
    matches!(select, Expr::Up(0, None))
}

/// The name of a value that waits, which no expression can say.
fn nameless(alloc: Global) -> Name
    ensures { result.local ≡ [] }
{
    Name {
        uri: Text::new(alloc),
        local: Text::new(alloc),
        prefix: Text::new(alloc),
    }
}
