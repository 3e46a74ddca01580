//! Where parts go: into the innermost buffer that is written, or else into the output.

ghost use Rattle.std.specs.Prelude.{◌≡◌, ◌<◌, ℕ, [], ◌∷◌, true, false, IfErr, IfOk, IsSome, OnOk, Some, length, map};
ghost use Rattle.std.specs.List.{list_any};
ghost use Rattle.stx_base.specs.Character.{is_cdata_text};
ghost use Rattle.match_patterns.specs.Fits.{test_of};
ghost use Rattle.node_stack.specs.Open.{node_of};
ghost use Rattle.node_stack.specs.Test as kind;
ghost use Rattle.node_stack.specs.Test.{passes as passes_test};
ghost use Rattle.sheet_model.specs.Sound.{BuffersAreWhole, IsSmall};
ghost use Rattle.stx_base.specs.declared.part.Part.TheVariants as parts;
ghost use Rattle.result_writer.specs.Target.{Left, holds_cdata_text, is_closed};
ghost use Rattle.stx_base.specs.declared.fault.RunCode.TheVariants.{UnclosedResult};
ghost use Rattle.event_buffers.specs.Buffers.{copies_of};
ghost use Rattle.event_buffers.specs.Declaring.{declared_by};
ghost use Rattle.template_machine.specs.Finding.{passing};
ghost use Rattle.template_machine.specs.Job.{Does, Given, State};
ghost use Rattle.template_machine.specs.Acting.{has_list};
ghost use Rattle.template_machine.specs.Putting.{attribute_part, put_in, puts, text_parts};
ghost use Rattle.template_machine.specs.Puts as spec;
ghost use Rattle.template_machine.specs.Puts.{BeginsWriting, EndsWriting};
ghost use Rattle.template_machine.specs.Saying.{GoesAs, Puts, placed};
ghost use Rattle.template_machine.specs.Sections.{HoldsSection};
ghost use Rattle.template_machine.specs.Stepwise.{tagged};
ghost use Rattle.template_machine.specs.Scopes.{in_force};
ghost use Rattle.template_machine.specs.Starts.{copy_start, passed_start};
ghost use Rattle.template_machine.specs.Stops.{fault};
ghost use Rattle.template_machine.specs.Moments.{StandsAsBefore, CanPut};
ghost use Rattle.template_machine.specs.Well.{AreTexts};

use crate::bindings::{Bindings, Change};
use crate::sink::Sink;
use crate::stop::{Stop, buffered, written};
use event_buffers::Buffers;
use node_stack::{NodeView, passes};
use sheet_model::{Kinds, Sheet};
use std::alloc::Global;
use stx_base::{
    Attr, Binding, Copied, Limits, List, Memory, Name, Part, Place, RunCode, Spare, Text,
};
use stxpath_syntax::{Alternative, Pattern};
use stxpath_values::Atom;

/// Where parts go, and what texts are made of.
#[derive(Debug, Drop)]
pub struct Putting {
    alloc: Global,
    pub buffers: Buffers,
    /// The buffers that are written, the innermost last.
    targets: List<u32>,
    /// Texts that are done with.
    pub spare: Spare,
    /// Whether the output's last start may have been in the scope of the current node. So that is worth asking.
    is_told: bool,
}

impl Putting {
    pub fn new(alloc: Global, sheet: &Sheet, limits: &Limits) -> Result<Putting, Memory>
        requires whole { BuffersAreWhole sheet.now }
        requires small { IsSmall sheet.now }
        ensures targets { IfOk result (λ made. made.targets ≡ []) }
        ensures buffers { IfOk result (λ made. made.buffers ≡ record { limit = limits.now.buffer; elements = limits.now.elements; buffers = map declared_by sheet.now.buffers }) }
    {
        Ok(Putting {
            alloc,
            buffers: Buffers::new(alloc, sheet, limits)?,
            targets: List::new(alloc),
            spare: Spare::new(alloc),
            is_told: false,
        })
    }

    /// The bindings in force at the current node are others, or may be.
    #[inline(always)]
    pub fn see(&mut self, change: Change)
        ensures stands { StandsAsBefore self.old self.new }
        ensures rest { self.new ≡ record self.old { is_told = self.new.is_told } }
    {
        self.is_told = self.is_told && change == Change::Same;
    }

    /// Parts go into a buffer from here on.
    pub fn begin_writing(&mut self, buffer: u32, clear: bool, at: Place) -> Result<(), Stop>
        requires id { buffer < length self.old.buffers.buffers }
        requires copy { 0 < length (copies_of self.old.buffers buffer) }
        ensures { OnOk result (BeginsWriting buffer self.old self.new) }
    {
        buffered(self.buffers.open_write(buffer, clear), at)?;
        self.targets.push(buffer)?;
        Ok(())
    }

    /// Parts go where they went before.
    pub fn end_writing(&mut self, at: Place) -> Result<(), Stop>
        requires written { CanPut self.old }
        requires some { IsSome (spec.target_of self.old) }
        ensures { (id : ℕ) → spec.target_of self.old ≡ Some id → OnOk result (EndsWriting id self.old self.new) }
    {
        let buffer = self.targets.pop().unwrap();
        buffered(self.buffers.close_write(buffer), at)
    }

    /// The innermost buffer that is written. Allocates nothing.
    #[inline(always)]
    fn target(&self) -> Option<u32>
        ensures { result ≡ spec.target_of self.now }
    {
        self.targets.last().copied()
    }

    /// A part goes into the innermost buffer that is written.
    fn keep(&mut self, buffer: u32, part: Part, at: Place) -> Result<(), Stop>
        requires can { CanPut self.old }
        requires target { spec.target_of self.old ≡ Some buffer }
        requires text { holds_cdata_text part ≡ true }
        ensures stands { StandsAsBefore self.old self.new }
        ensures keeps { (left : Left) (st : State) (go : State → Does) → GoesAs result (put_in buffer at part (placed self.old left st) go) [] (go (placed self.new left st)) }
    {
        buffered(self.buffers.put(buffer, part), at)
    }

    /// A copy of a text, made of one that is done with.
    #[inline(always)]
    pub fn copied(&mut self, text: &Text) -> Result<Text, Memory>
        ensures same { StandsAsBefore self.old self.new }
        ensures rest { self.new ≡ record self.old { spare = self.new.spare } }
        ensures copy { IfOk result (λ made. made ≡ text.now) }
    {
        if text.is_empty() {
            return Ok(Text::new(self.alloc));
        }
        self.spare.text(text.as_str())
    }

    #[inline(always)]
    pub fn copied_name(&mut self, name: &Name) -> Result<Name, Memory>
        ensures same { StandsAsBefore self.old self.new }
        ensures rest { self.new ≡ record self.old { spare = self.new.spare } }
        ensures copy { IfOk result (λ made. made ≡ name.now) }
    {
        let uri = self.copied(&name.uri)?;
        let local = self.copied(&name.local)?;
        let prefix = self.copied(&name.prefix)?;
        Ok(Name { uri, local, prefix })
    }

    /// An element's start in an empty scope.
    pub fn start<S: Sink>(&mut self, name: &Name, at: Place, out: &mut S) -> Result<(), Stop>
        requires { CanPut self.old }
        ensures stands { StandsAsBefore self.old self.new }
        ensures puts { Puts S.output S.told at (parts.Start name.now [] ∷ []) result self.old self.new out.old out.new }
    {
        let name = self.copied_name(name)?;
        self.start_named(name, at, out)
    }

    /// The same of a name that is handed over.
    pub fn start_named<S: Sink>(&mut self, name: Name, at: Place, out: &mut S) -> Result<(), Stop>
        requires { CanPut self.old }
        ensures stands { StandsAsBefore self.old self.new }
        ensures puts { Puts S.output S.told at (parts.Start name [] ∷ []) result self.old self.new out.old out.new }
    {
        if let Some(buffer) = self.target() {
            let scope = List::new(self.alloc);
            return self.keep(buffer, Part::Start { name, scope }, at);
        }
        self.is_told = false;
        let none = List::new(self.alloc);
        written(out.start(name, &none, &mut self.spare), at)
    }

    /// The start of an element of the document that is current.
    #[inline(always)]
    pub fn start_there<S: Sink>(
        &mut self,
        name: &Name,
        bindings: &Bindings,
        at: Place,
        out: &mut S,
    ) -> Result<(), Stop>
        requires { CanPut self.old }
        ensures stands { StandsAsBefore self.old self.new }
        ensures puts { Puts S.output S.told at (parts.Start name.now (in_force bindings.now) ∷ []) result self.old self.new out.old out.new }
    {
        let name = self.copied_name(name)?;
        if let Some(buffer) = self.target() {
            let scope = bindings.in_force().copy(self.alloc)?;
            return self.keep(buffer, Part::Start { name, scope }, at);
        }
        if self.is_told && out.is_last_scope(bindings.in_force()) {
            return written(out.start_again(name, &mut self.spare), at);
        }
        written(out.start(name, bindings.in_force(), &mut self.spare), at)?;
        self.is_told = true;
        Ok(())
    }

    pub fn attribute<S: Sink>(
        &mut self,
        name: Name,
        value: Text,
        at: Place,
        out: &mut S,
    ) -> Result<(), Stop>
        requires { CanPut self.old }
        ensures stands { StandsAsBefore self.old self.new }
        ensures puts { Puts S.output S.told at (parts.Attribute name value ∷ []) result self.old self.new out.old out.new }
    {
        match self.target() {
            Some(buffer) => self.keep(buffer, Part::Attribute { name, value }, at),
            None => written(out.attribute(name, value), at),
        }
    }

    /// Attributes, one after another.
    #[inline(always)]
    pub fn attributes<S: Sink>(
        &mut self,
        attrs: List<Attr>,
        at: Place,
        out: &mut S,
    ) -> Result<(), Stop>
        requires { CanPut self.old }
        ensures stands { StandsAsBefore self.old self.new }
        ensures puts { Puts S.output S.told at (map attribute_part attrs) result self.old self.new out.old out.new }
    {
        match self.target() {
            Some(buffer) => self.keep_attributes(buffer, attrs, at),
            None => written(out.attributes(attrs), at),
        }
    }

    /// Attributes go into a buffer, one after another.
    fn keep_attributes(&mut self, buffer: u32, attrs: List<Attr>, at: Place) -> Result<(), Stop>
        requires can { CanPut self.old }
        requires target { spec.target_of self.old ≡ Some buffer }
        ensures stands { StandsAsBefore self.old self.new }
        ensures keeps { (given : Given) (left : Left) (st : State) (go : State → Does) → GoesAs result (puts given at (map attribute_part attrs) (placed self.old left st) go) [] (go (placed self.new left st)) }
    {
        for attr in attrs.into_vec() {
            let Attr { name, value } = attr;
            self.keep(buffer, Part::Attribute { name, value }, at)?;
        }
        Ok(())
    }

    /// The start of an element that is passed through, with its attributes where those are too.
    #[inline(always)]
    pub fn pass_start<S: Sink>(
        &mut self,
        kinds: Kinds,
        name: &Name,
        attrs: &List<Attr>,
        bindings: &Bindings,
        at: Place,
        out: &mut S,
    ) -> Result<(), Stop>
        requires { CanPut self.old }
        ensures stands { StandsAsBefore self.old self.new }
        ensures puts { Puts S.output S.told at (passed_start kinds (in_force bindings.now) name.now attrs.now) result self.old self.new out.old out.new }
    {
        if !kinds.elements {
            return Ok(());
        }
        self.start_there(name, bindings, at, out)?;
        if !kinds.attributes {
            return Ok(());
        }
        self.attributes_of(attrs, at, out)
    }

    /// Copies of an element's attributes.
    #[inline(always)]
    pub fn attributes_of<S: Sink>(
        &mut self,
        attrs: &List<Attr>,
        at: Place,
        out: &mut S,
    ) -> Result<(), Stop>
        requires { CanPut self.old }
        ensures stands { StandsAsBefore self.old self.new }
        ensures puts { Puts S.output S.told at (map attribute_part attrs.now) result self.old self.new out.old out.new }
    {
        if attrs.is_empty() {
            return Ok(());
        }
        let copies = self.copied_attrs(attrs)?;
        self.attributes(copies, at, out)
    }

    #[inline(always)]
    fn copied_attrs(&mut self, attrs: &List<Attr>) -> Result<List<Attr>, Memory>
        ensures same { StandsAsBefore self.old self.new }
        ensures rest { self.new ≡ record self.old { spare = self.new.spare } }
        ensures copies { IfOk result (λ made. made ≡ attrs.now) }
    {
        let mut copies = self.spare.attrs();
        for attr in attrs.as_slice() {
            let copy = self.copied_attr(attr)?;
            copies.push(copy)?;
        }
        Ok(copies)
    }

    /// A copy of an attribute.
    #[inline(always)]
    pub fn attribute_of<S: Sink>(&mut self, attr: &Attr, at: Place, out: &mut S) -> Result<(), Stop>
        requires { CanPut self.old }
        ensures stands { StandsAsBefore self.old self.new }
        ensures puts { Puts S.output S.told at (attribute_part attr.now ∷ []) result self.old self.new out.old out.new }
    {
        let copy = self.copied_attr(attr)?;
        self.attribute(copy.name, copy.value, at, out)
    }

    #[inline(always)]
    pub fn copied_attr(&mut self, attr: &Attr) -> Result<Attr, Memory>
        ensures same { StandsAsBefore self.old self.new }
        ensures rest { self.new ≡ record self.old { spare = self.new.spare } }
        ensures copy { IfOk result (λ made. made ≡ attr.now) }
    {
        let name = self.copied_name(&attr.name)?;
        let value = self.copied(&attr.value)?;
        Ok(Attr { name, value })
    }

    #[inline(always)]
    pub fn end<S: Sink>(&mut self, name: &Name, at: Place, out: &mut S) -> Result<(), Stop>
        requires { CanPut self.old }
        ensures stands { StandsAsBefore self.old self.new }
        ensures puts { Puts S.output S.told at (parts.End name.now ∷ []) result self.old self.new out.old out.new }
    {
        if let Some(buffer) = self.target() {
            let name = name.copy(self.alloc)?;
            return self.keep(buffer, Part::End { name }, at);
        }
        written(out.end(name, &mut self.spare), at)
    }

    #[inline(always)]
    pub fn chars<S: Sink>(&mut self, text: &Text, at: Place, out: &mut S) -> Result<(), Stop>
        requires { CanPut self.old }
        ensures stands { StandsAsBefore self.old self.new }
        ensures puts { Puts S.output S.told at (parts.Chars text.now ∷ []) result self.old self.new out.old out.new }
    {
        if let Some(buffer) = self.target() {
            let text = text.copy(self.alloc)?;
            return self.keep(buffer, Part::Chars { text }, at);
        }
        written(out.chars(text), at)
    }

    /// A text that an instruction gives, which is no part where it is empty.
    pub fn text<S: Sink>(&mut self, text: &Text, at: Place, out: &mut S) -> Result<(), Stop>
        requires { CanPut self.old }
        ensures stands { StandsAsBefore self.old self.new }
        ensures puts { Puts S.output S.told at (text_parts text.now) result self.old self.new out.old out.new }
    {
        if text.is_empty() {
            return Ok(());
        }
        self.chars(text, at, out)
    }

    pub fn cdata<S: Sink>(&mut self, text: &Text, at: Place, out: &mut S) -> Result<(), Stop>
        requires can { CanPut self.old }
        requires text { is_cdata_text text.now ≡ true }
        ensures stands { StandsAsBefore self.old self.new }
        ensures puts { Puts S.output S.told at (parts.CData text.now ∷ []) result self.old self.new out.old out.new }
    {
        if let Some(buffer) = self.target() {
            let text = text.copy(self.alloc)?;
            return self.keep(buffer, Part::CData { text }, at);
        }
        written(out.cdata(text), at)
    }

    pub fn comment<S: Sink>(&mut self, text: &Text, at: Place, out: &mut S) -> Result<(), Stop>
        requires { CanPut self.old }
        ensures stands { StandsAsBefore self.old self.new }
        ensures puts { Puts S.output S.told at (parts.Comment text.now ∷ []) result self.old self.new out.old out.new }
    {
        if let Some(buffer) = self.target() {
            let text = text.copy(self.alloc)?;
            return self.keep(buffer, Part::Comment { text }, at);
        }
        written(out.comment(text), at)
    }

    pub fn instruction<S: Sink>(
        &mut self,
        target: &Text,
        text: &Text,
        at: Place,
        out: &mut S,
    ) -> Result<(), Stop>
        requires { CanPut self.old }
        ensures stands { StandsAsBefore self.old self.new }
        ensures puts { Puts S.output S.told at (parts.Pi target.now text.now ∷ []) result self.old self.new out.old out.new }
    {
        if let Some(buffer) = self.target() {
            let target = target.copy(self.alloc)?;
            let text = text.copy(self.alloc)?;
            return self.keep(buffer, Part::Pi { target, text }, at);
        }
        written(out.instruction(target, text), at)
    }

    /// A copy of a node, without its children. The answer is whether the node has an inside.
    pub fn open_copy<S: Sink>(
        &mut self,
        node: NodeView<'_>,
        bindings: &Bindings,
        attributes: &Option<Pattern>,
        at: Place,
        out: &mut S,
    ) -> Result<bool, Stop>
        requires can { CanPut self.old }
        requires text { HoldsSection (node_of node) }
        ensures stands { StandsAsBefore self.old self.new }
        ensures puts { Puts S.output S.told at (copy_start (in_force bindings.now) attributes.now (node_of node.entry)) result self.old self.new out.old out.new }
        ensures inside { IfOk result (λ inside. inside ≡ has_list (node_of node.entry)) }
    {
        match node {
            NodeView::Document => Ok(true),
            NodeView::Element { name, attrs, .. } => {
                self.start_there(name, bindings, at, out)?;
                self.passing_attributes(attrs, attributes, at, out)?;
                Ok(true)
            }
            NodeView::Chars(text) => {
                self.text(text, at, out)?;
                Ok(false)
            }
            NodeView::CData(text) => {
                self.cdata(text, at, out)?;
                Ok(false)
            }
            NodeView::Comment(text) => {
                self.comment(text, at, out)?;
                Ok(false)
            }
            NodeView::Pi { target, text } => {
                self.instruction(target, text, at, out)?;
                Ok(false)
            }
            NodeView::Attribute(attr) => {
                self.attribute_of(attr, at, out)?;
                Ok(false)
            }
        }
    }

    /// Copies of those of an element's attributes that a pattern's tests pass.
    fn passing_attributes<S: Sink>(
        &mut self,
        attrs: &List<Attr>,
        pattern: &Option<Pattern>,
        at: Place,
        out: &mut S,
    ) -> Result<(), Stop>
        requires { CanPut self.old }
        ensures stands { StandsAsBefore self.old self.new }
        ensures puts { Puts S.output S.told at (map attribute_part (passing pattern.now attrs.now)) result self.old self.new out.old out.new }
    {
        let Some(pattern) = pattern else {
            return Ok(());
        };
        let copies = self.copied_passing(attrs, pattern)?;
        self.attributes(copies, at, out)
    }

    fn copied_passing(
        &mut self,
        attrs: &List<Attr>,
        pattern: &Pattern,
    ) -> Result<List<Attr>, Memory>
        ensures same { StandsAsBefore self.old self.new }
        ensures rest { self.new ≡ record self.old { spare = self.new.spare } }
        ensures copies { IfOk result (λ made. made ≡ passing (Some pattern.now) attrs.now) }
    {
        let mut copies = self.spare.attrs();
        for attr in attrs.as_slice() {
            if !passes_some(pattern, attr) {
                continue;
            }
            let copy = self.copied_attr(attr)?;
            copies.push(copy)?;
        }
        Ok(copies)
    }

    /// A copy of the name that waits for the end of its element.
    pub fn waiting_name(&mut self, value: &List<Atom>) -> Result<Name, Memory>
        requires { AreTexts value.now }
        ensures same { StandsAsBefore self.old self.new }
        ensures rest { self.new ≡ record self.old { spare = self.new.spare } }
        ensures name { IfOk result (λ made. made ≡ tagged value.now) }
    {
        match value.as_slice() {
            [Atom::Chars(uri), Atom::Chars(local), Atom::Chars(prefix)] => {
                let uri = self.copied(uri)?;
                let local = self.copied(local)?;
                let prefix = self.copied(prefix)?;
                Ok(Name { uri, local, prefix })
            }
            _ => unreachable!(),
        }
    }

    /// The output ends, at the root of the sheet.
    pub fn finish<S: Sink>(&self, at: Place, out: &mut S) -> Result<(), Stop>
        ensures closed { OnOk result (is_closed (S.output out.old).left.elements (S.output out.old).left.held ≡ true) }
        ensures unclosed { IfErr result (λ stop. (stop ≡ fault UnclosedResult at) × (is_closed (S.output out.old).left.elements (S.output out.old).left.held ≡ false)) }
        ensures unsaid { S.told out.old out.new [] }
    {
        match out.finish() {
            Ok(()) => Ok(()),
            Err(_) => Err(Stop::fault(RunCode::UnclosedResult, at)),
        }
    }
}

/// Whether the test of some alternative passes an attribute.
fn passes_some(pattern: &Pattern, attr: &Attr) -> bool
    ensures { result ≡ list_any (λ x. passes_test (test_of x) (kind.Attribute attr.now.name)) pattern.now.alternatives }
{
    let alternatives = pattern.alternatives.as_slice();
    alternatives
        .iter()
        .any(|alternative| passes_attr(alternative, attr))
}

fn passes_attr(alternative: &Alternative, attr: &Attr) -> bool
    ensures { result ≡ passes_test (test_of alternative.now) (kind.Attribute attr.now.name) }
{
    match alternative {
        Alternative::Root => false,
        Alternative::Steps(steps) => match steps.last() {
            Some(step) => passes(&step.test, NodeView::Attribute(attr)),
            None => false,
        },
    }
}
