ghost use Rattle.std.specs.Prelude.{◌≡◌, ◌↔◌, ◌<◌, ◌+◌, ◌++◌, ◌∷◌, [], ℕ, None, Some, false, true, List as Items, codes, IfOk, IfErr, IfSome, IsTrue, MatchOption, OnOk, OnErr, is_some, length, map, slice_get, slice_set, unwrap_or, vec_capacity, vec_len, ◌≤◌};
ghost use Rattle.std.specs.Option.{option_copied};
ghost use Rattle.stx_base.specs.declared.name.Attr.{Attr};
ghost use Rattle.stx_base.specs.declared.name.Name.{Name};
ghost use Rattle.stx_base.specs.declared.part.Part.TheVariants.{Start, Attribute, End, Chars, CData, Comment, Pi};
ghost use Rattle.result_writer.specs.Allowed.{is_good_name};
ghost use Rattle.stx_base.specs.Character.{is_cdata_text};
ghost use Rattle.stx_base.specs.Course.{Begins};
ghost use Rattle.result_writer.specs.Nodes as nodes;
ghost use Rattle.result_writer.specs.Nodes.{attribute_part};
ghost use Rattle.result_writer.specs.Opened.{beside_tags, declared_in, dressing, held, held_value, settled_by, settled_tag, SameAround, Settles};
ghost use Rattle.result_writer.specs.Steady.{keep_bindings};
ghost use Rattle.result_writer.specs.Target as spec;
ghost use Rattle.result_writer.specs.Target.{behind, cdata_text, comment_text, data_text, depth, dressed_in, end_text, fresh, holds_cdata_text, innermost, instruction_text, is_closed, left_by, tag_text, with_attribute, IsCause, TakesAtOnce};

use crate::allowed::{
    are_chars, is_good_attribute, is_good_comment, is_good_data, is_good_name, is_good_target,
};
use crate::attributes::Attributes;
use crate::bytes::{append, append_byte, append_two};
use crate::fault::{ResultFault, WriteStop};
use crate::in_force::InForce;
use crate::steady::{are_same, copy_unless_same, keep_bindings, keeps_names, unless_same};
use crate::tag::{Dressed, HeldTag, append_end_tag, append_open_tag, dress};
use crate::words::{is_empty, same_name};
use std::alloc::Global;
use std::marker::Model;
use std::mem;
use stx_base::{Attr, Binding, Copied, List, Memory, Name, Part, Spare, Text};

/// An element whose start tag is settled, and whose end is still to come.
#[derive(Debug, Drop)]
pub struct OpenElement {
    name: Name,
    /// How many bindings its tag declared.
    declared: usize,
}

/// A start tag that is settled, as it is written.
#[derive(Debug, Drop)]
pub struct SettledTag {
    pub name: Name,
    /// In their order, each of another name, with the prefixes that they were put with.
    pub attrs: List<Attr>,
    /// What the tag declares, in the order of the prefixes.
    pub declared: List<Binding>,
}

/// What is known whole once a part is taken.
#[derive(Debug, Drop)]
pub struct Settled {
    /// The start tag before the part, where it was held back until then.
    pub tag: Option<SettledTag>,
    /// The part itself, unless it belongs to a tag that is still held back.
    pub part: Option<Part>,
}

/// What is open around the next part.
#[derive(Debug, Drop)]
pub struct Around {
    /// The innermost last.
    elements: Vec<OpenElement>,
    /// What they declared, the innermost last. So a prefix is looked up among the changes alone.
    bindings: InForce,
    /// The last tag. Once it is settled it stays for its scope, with which the next one often comes, and for its room.
    tag: HeldTag,
    /// Whether it is held back.
    holds: bool,
    /// Whether its scope is known to be in force.
    keeps: bool,
}

/// The open elements of one target, and what they declared.
#[derive(Debug, Drop)]
pub struct Opened {
    alloc: Global,
    limit: u32,
    around: Around,
}

impl Model for Opened {
    ghost use Rattle.result_writer.specs.Target.{Target};

    ghost Value = { Target };

    ghost use Rattle.result_writer.specs.Opened.{target_of, IsSound};

    ghost view = { target_of };

    ghost invariant = { IsSound };
}

impl Opened {
    /// A target in which no element is open, and at most `limit` may be at once. Allocates nothing.
    pub fn new(alloc: Global, limit: u32) -> Opened
        ensures { result ≡ fresh limit }
    {
        Opened {
            alloc,
            limit,
            around: Around {
                elements: Vec::new(alloc),
                bindings: InForce::new(alloc),
                tag: no_tag(alloc),
                holds: false,
                keeps: true,
            },
        }
    }

    /// Takes a part, of which no text is copied that needn't be kept. After a refusal all is unchanged.
    pub fn accept(&mut self, part: &Part) -> Result<(), WriteStop>
        requires { holds_cdata_text part.now ≡ true }
        // It is taken only where it has no fault.
        ensures taken { OnOk result (spec.fault self.old.limit self.old.left part.now ≡ None) }
        ensures fault { IfErr result (IsCause (spec.fault self.old.limit self.old.left part.now)) }
        ensures ok { OnOk result (self.new ≡ behind self.old part.now) }
        ensures err { OnErr result (self.new ≡ self.old) }
    {
        match part {
            Part::Start { name, scope } => self.accept_start(name, scope),
            Part::Attribute { name, value } => self.accept_attribute(name, value),
            Part::End { name } => Ok(self.accept_end(name)?),
            Part::Chars { text } => self.accept_chars(text),
            Part::CData { text } => Ok(self.accept_cdata(text)?),
            Part::Comment { text } => self.accept_comment(text),
            Part::Pi { target, text } => self.accept_instruction(target, text),
        }
    }

    /// The same of an element's start, whose scope is copied only where it isn't that of the start before.
    pub fn accept_start(&mut self, name: &Name, scope: &List<Binding>) -> Result<(), WriteStop>
        ensures taken { OnOk result (spec.fault self.old.limit self.old.left (Start name.now scope.now) ≡ None) }
        ensures fault { IfErr result (IsCause (spec.fault self.old.limit self.old.left (Start name.now scope.now))) }
        ensures ok { OnOk result (self.new ≡ behind self.old (Start name.now scope.now)) }
        ensures err { OnErr result (self.new ≡ self.old) }
    {
        if let Some(fault) = self.start_fault(name) {
            return Err(WriteStop::Fault(fault));
        }
        let name = name.copy(self.alloc)?;
        let other = self.other_scope(scope)?;
        let dressed = self.dressed()?;
        self.start(name, other, dressed)?;
        Ok(())
    }

    /// The same of an attribute.
    pub fn accept_attribute(&mut self, name: &Name, value: &Text) -> Result<(), WriteStop>
        ensures taken { OnOk result (spec.fault self.old.limit self.old.left (Attribute name.now value.now) ≡ None) }
        ensures fault { IfErr result (IsCause (spec.fault self.old.limit self.old.left (Attribute name.now value.now))) }
        ensures ok { OnOk result (self.new ≡ behind self.old (Attribute name.now value.now)) }
        ensures err { OnErr result (self.new ≡ self.old) }
    {
        if let Some(fault) = self.attribute_fault(name, value) {
            return Err(WriteStop::Fault(fault));
        }
        let name = name.copy(self.alloc)?;
        let value = value.copy(self.alloc)?;
        self.add_attribute(name, value)?;
        Ok(())
    }

    /// The same of an element's end. Allocates nothing.
    pub fn accept_end(&mut self, name: &Name) -> Result<(), ResultFault>
        ensures taken { OnOk result (spec.fault self.old.limit self.old.left (End name.now) ≡ None) }
        ensures fault { IfErr result (λ fault. spec.fault self.old.limit self.old.left (End name.now) ≡ Some fault) }
        ensures ok { OnOk result (self.new ≡ behind self.old (End name.now)) }
        ensures err { OnErr result (self.new ≡ self.old) }
    {
        if let Some(fault) = self.end_fault(name) {
            return Err(fault);
        }
        let _ended = self.end();
        Ok(())
    }

    /// The same of characters.
    pub fn accept_chars(&mut self, text: &Text) -> Result<(), WriteStop>
        ensures taken { OnOk result (spec.fault self.old.limit self.old.left (Chars text.now) ≡ None) }
        ensures fault { IfErr result (IsCause (spec.fault self.old.limit self.old.left (Chars text.now))) }
        ensures ok { OnOk result (self.new ≡ behind self.old (Chars text.now)) }
        ensures err { OnErr result (self.new ≡ self.old) }
    {
        if let Some(fault) = chars_fault(text) {
            return Err(WriteStop::Fault(fault));
        }
        self.settle_held()?;
        Ok(())
    }

    /// The same of a CDATA section, which has no fault.
    pub fn accept_cdata(&mut self, text: &Text) -> Result<(), Memory>
        requires { is_cdata_text text.now ≡ true }
        ensures ok { OnOk result (self.new ≡ behind self.old (CData text.now)) }
        ensures err { OnErr result (self.new ≡ self.old) }
    {
        self.settle_held()
    }

    /// The same of a comment.
    pub fn accept_comment(&mut self, text: &Text) -> Result<(), WriteStop>
        ensures taken { OnOk result (spec.fault self.old.limit self.old.left (Comment text.now) ≡ None) }
        ensures fault { IfErr result (IsCause (spec.fault self.old.limit self.old.left (Comment text.now))) }
        ensures ok { OnOk result (self.new ≡ behind self.old (Comment text.now)) }
        ensures err { OnErr result (self.new ≡ self.old) }
    {
        if let Some(fault) = comment_fault(text) {
            return Err(WriteStop::Fault(fault));
        }
        self.settle_held()?;
        Ok(())
    }

    /// The same of a processing instruction.
    pub fn accept_instruction(&mut self, target: &Text, text: &Text) -> Result<(), WriteStop>
        ensures taken { OnOk result (spec.fault self.old.limit self.old.left (Pi target.now text.now) ≡ None) }
        ensures fault { IfErr result (IsCause (spec.fault self.old.limit self.old.left (Pi target.now text.now))) }
        ensures ok { OnOk result (self.new ≡ behind self.old (Pi target.now text.now)) }
        ensures err { OnErr result (self.new ≡ self.old) }
    {
        if let Some(fault) = instruction_fault(target, text) {
            return Err(WriteStop::Fault(fault));
        }
        self.settle_held()?;
        Ok(())
    }

    /// Takes a part that has no fault, which isn't judged again, and hands out what of it and of the parts before is settled. After
    /// a refusal the part is dropped, and all else is unchanged.
    pub fn take_settling(&mut self, part: Part) -> Result<Settled, Memory>
        requires { spec.fault self.old.limit self.old.left part ≡ None }
        ensures ok { OnOk result (self.new ≡ behind self.old part) }
        ensures tag { IfOk result (λ settled. settled.tag ≡ settled_by self.old.left part) }
        ensures part { IfOk result (λ settled. settled.part ≡ beside_tags part) }
        ensures err { OnErr result (self.new ≡ self.old) }
    {
        match part {
            Part::Start { name, scope } => {
                let other = self.unless_last(scope);
                let tag = self.settle_tag()?;
                self.hold(name, other);
                Ok(Settled { tag, part: None })
            }
            Part::Attribute { name, value } => {
                self.add_attribute(name, value)?;
                Ok(Settled {
                    tag: None,
                    part: None,
                })
            }
            Part::End { name } => {
                let tag = self.settle_tag()?;
                let _ended = self.end();
                let part = Some(Part::End { name });
                Ok(Settled { tag, part })
            }
            leaf => {
                let tag = self.settle_tag()?;
                let part = Some(leaf);
                Ok(Settled { tag, part })
            }
        }
    }

    /// The value of an attribute that was put already, where its tag is held back.
    pub fn held_value(&self, name: &Name) -> Result<Option<&Text>, Memory>
        ensures { IfOk result (λ value. option_copied value ≡ held_value self.now.left.held name.now) }
    {
        if self.around.holds {
            self.around.tag.attrs.value(name)
        } else {
            Ok(None)
        }
    }

    /// Whether no element is open.
    pub fn closed(&self) -> bool
        ensures { result ≡ is_closed self.now.left.elements self.now.left.held }
    {
        !self.around.holds && self.around.elements.is_empty()
    }

    /// The first fault of a part, which is judged without taking it. Allocates nothing.
    pub fn fault(&self, part: &Part) -> Option<ResultFault>
        ensures { result ≡ spec.fault self.now.limit self.now.left part.now }
    {
        match part {
            Part::Start { name, .. } => self.start_fault(name),
            Part::Attribute { name, value } => self.attribute_fault(name, value),
            Part::End { name } => self.end_fault(name),
            Part::Chars { text } => chars_fault(text),
            Part::CData { .. } => None,
            Part::Comment { text } => comment_fault(text),
            Part::Pi { target, text } => instruction_fault(target, text),
        }
    }

    pub(crate) fn start_fault(&self, name: &Name) -> Option<ResultFault>
        ensures { result ≡ spec.start_fault self.now.limit self.now.left name.now }
    {
        if !is_good_name(name) {
            Some(ResultFault::BadName)
        } else if self.depth() < self.limit as usize {
            None
        } else {
            Some(ResultFault::ResultDepth)
        }
    }

    pub(crate) fn attribute_fault(&self, name: &Name, value: &Text) -> Option<ResultFault>
        ensures { result ≡ spec.attribute_fault self.now.left name.now value.now }
    {
        if !is_good_attribute(name) {
            Some(ResultFault::BadName)
        } else if !are_chars(value) {
            Some(ResultFault::BadChar)
        } else if self.around.holds {
            None
        } else {
            Some(ResultFault::LateAttribute)
        }
    }

    pub(crate) fn end_fault(&self, name: &Name) -> Option<ResultFault>
        ensures { result ≡ spec.end_fault self.now.left name.now }
    {
        let innermost = self.innermost();
        // Most ends have the very name of their start, which was judged there.
        if is_name(innermost, name) {
            return None;
        }
        if !is_good_name(name) {
            return Some(ResultFault::BadName);
        }
        match innermost {
            None => Some(ResultFault::UnmatchedEnd),
            Some(innermost) if same_name(innermost, name) => None,
            Some(_) => Some(ResultFault::WrongEnd),
        }
    }

    /// Whether an element is open. An end with the name of the innermost one has no fault, since names are judged where
    /// elements start.
    pub(crate) fn has_open(&self) -> bool
        ensures none { result ≡ false → innermost self.now.left.elements self.now.left.held ≡ None }
        ensures some { result ≡ true → is_some (innermost self.now.left.elements self.now.left.held) ≡ true }
        ensures good { (name : Name) → innermost self.now.left.elements self.now.left.held ≡ Some name → spec.end_fault self.now.left name ≡ None }
    {
        self.innermost().is_some()
    }

    /// How many elements are open.
    fn depth(&self) -> usize
        ensures { result ≡ depth self.now.left.elements self.now.left.held }
    {
        if self.around.holds {
            self.around.elements.len() + 1
        } else {
            self.around.elements.len()
        }
    }

    /// The name of the innermost element, which is a good one.
    fn innermost(&self) -> Option<&Name>
        ensures name { option_copied result ≡ innermost self.now.left.elements self.now.left.held }
        ensures good { IfSome result (λ name. is_good_name name.now ≡ true) }
    {
        if self.around.holds {
            return Some(&self.around.tag.name);
        }
        match self.around.elements.last() {
            Some(element) => Some(&element.name),
            None => None,
        }
    }

    /// Whether nothing more than its names and values is written with the tag that is held back, if there is one. So no
    /// list need be moved.
    #[inline(always)]
    pub(crate) fn is_undressed(&self) -> bool
        ensures { result ≡ true → dressing self.now.left.held None ≡ dressed_in self.now.left.elements self.now.left.held }
    {
        let around = &self.around;
        !around.holds || around.keeps && keeps_names(&around.bindings, &around.tag)
    }

    /// What is written with the tag that is held back, where that is more than its names and values.
    #[inline(always)]
    pub(crate) fn dressed(&self) -> Result<Option<Dressed>, Memory>
        ensures { IfOk result (λ d. dressing self.now.left.held d ≡ dressed_in self.now.left.elements self.now.left.held) }
    {
        let around = &self.around;
        if !around.holds {
            return Ok(None);
        }
        let dressed = dress(self.alloc, &around.bindings, &around.tag, around.keeps)?;
        Ok(dressed)
    }

    /// Appends the tag that is held back, if there is one.
    #[inline(always)]
    #[tactic(auto, using(crate::proofs::Growing::begins_trans, crate::proofs::Growing::begins_self))]
    pub(crate) fn append_tag(
        &self,
        dressed: &Option<Dressed>,
        out: &mut Vec<u8>,
    ) -> Result<(), Memory>
        requires { dressing self.now.left.held dressed.now ≡ dressed_in self.now.left.elements self.now.left.held }
        ensures ok { OnOk result (out.new.items ≡ out.old.items ++ tag_text self.now.left.elements self.now.left.held (codes ">")) }
        ensures kept { Begins out.old.items out.new.items }
    {
        if !self.around.holds {
            return Ok(());
        }
        append_open_tag(&self.around.tag, dressed, out)?;
        append_byte(b'>', out)
    }

    /// The same of one that has nothing in it.
    #[inline(always)]
    #[tactic(auto, using(crate::proofs::Growing::begins_trans, crate::proofs::Growing::begins_self))]
    fn append_empty_tag(&self, dressed: &Option<Dressed>, out: &mut Vec<u8>) -> Result<(), Memory>
        requires { dressing self.now.left.held dressed.now ≡ dressed_in self.now.left.elements self.now.left.held }
        ensures ok { OnOk result (out.new.items ≡ out.old.items ++ tag_text self.now.left.elements self.now.left.held (codes "/>")) }
        ensures kept { Begins out.old.items out.new.items }
    {
        if !self.around.holds {
            return Ok(());
        }
        append_open_tag(&self.around.tag, dressed, out)?;
        append_two(b'/', b'>', out)
    }

    /// Appends the end of the innermost element.
    #[inline(always)]
    #[tactic(auto, using(crate::proofs::Growing::begins_trans, crate::proofs::Growing::begins_self))]
    pub(crate) fn append_end(
        &self,
        dressed: &Option<Dressed>,
        out: &mut Vec<u8>,
    ) -> Result<(), Memory>
        requires { dressing self.now.left.held dressed.now ≡ dressed_in self.now.left.elements self.now.left.held }
        ensures ok { OnOk result (out.new.items ≡ out.old.items ++ end_text self.now.left.elements self.now.left.held) }
        ensures kept { Begins out.old.items out.new.items }
    {
        if self.around.holds {
            return self.append_empty_tag(dressed, out);
        }
        match self.around.elements.last() {
            None => Ok(()),
            Some(element) => append_end_tag(&element.name, out),
        }
    }

    /// The tag that is held back is settled, if there is one. After a refusal all is unchanged.
    fn settle_held(&mut self) -> Result<(), Memory>
        ensures ok { OnOk result (self.new ≡ behind self.old (Chars [])) }
        ensures err { OnErr result (self.new ≡ self.old) }
    {
        let dressed = self.dressed()?;
        self.settle(dressed)
    }

    /// The same, where the tag is handed out.
    fn settle_tag(&mut self) -> Result<Option<SettledTag>, Memory>
        ensures ok { OnOk result (self.new ≡ behind self.old (Chars [])) }
        ensures tag { IfOk result (λ tag. tag ≡ settled_tag self.old.left.elements self.old.left.held) }
        ensures err { OnErr result (self.new ≡ self.old) }
    {
        if !self.around.holds {
            return Ok(None);
        }
        let name = self.around.tag.name.copy(self.alloc)?;
        let dressed = self.dressed()?;
        let declared = declared_in(self.alloc, &dressed)?;
        self.around.settle(self.alloc, dressed)?;
        let attrs = self.around.tag.attrs.take();
        Ok(Some(SettledTag {
            name,
            attrs,
            declared,
        }))
    }

    /// Takes the start of an element that is accepted, where no tag is held back.
    fn hold(&mut self, name: Name, other: Option<List<Binding>>)
        requires none { self.old.left.held ≡ None }
        requires good { is_good_name name ≡ true }
        ensures { self.new ≡ behind self.old (Start name (unwrap_or other self.old.last)) }
    {
        self.around.tag.attrs.clear();
        self.around.hold(name, other);
    }

    /// Whether a scope is that of the start before. Allocates nothing.
    pub(crate) fn is_last_scope(&self, scope: &List<Binding>) -> bool
        ensures { IsTrue result ↔ (scope.now ≡ self.now.last) }
    {
        are_same(scope.as_slice(), self.around.tag.scope.as_slice())
    }

    /// A copy of a scope, unless it is that of the start before.
    pub(crate) fn other_scope(&self, scope: &List<Binding>) -> Result<Option<List<Binding>>, Memory>
        ensures { IfOk result (λ other. unwrap_or other self.now.last ≡ scope.now) }
    {
        copy_unless_same(self.alloc, scope, &self.around.tag.scope)
    }

    /// A scope, unless it is that of the start before. Allocates nothing.
    pub(crate) fn unless_last(&self, scope: List<Binding>) -> Option<List<Binding>>
        ensures { unwrap_or result self.now.last ≡ scope }
    {
        unless_same(scope, &self.around.tag.scope)
    }

    /// Takes the start of an element that is accepted, in the scope of the start before unless it is in another. After a
    /// refusal all is unchanged.
    #[inline(always)]
    pub(crate) fn start(
        &mut self,
        name: Name,
        other: Option<List<Binding>>,
        dressed: Option<Dressed>,
    ) -> Result<(), Memory>
        requires dressed { dressing self.old.left.held dressed ≡ dressed_in self.old.left.elements self.old.left.held }
        requires good { is_good_name name ≡ true }
        ensures ok { OnOk result (self.new ≡ behind self.old (Start name (unwrap_or other self.old.last))) }
        ensures err { OnErr result (self.new ≡ self.old) }
    {
        self.around.settle(self.alloc, dressed)?;
        self.around.tag.attrs.clear();
        self.around.hold(name, other);
        Ok(())
    }

    /// The same of a start in the scope of the start before. The texts of the tag before are kept for others.
    #[inline(always)]
    pub(crate) fn start_again(
        &mut self,
        name: Name,
        dressed: Option<Dressed>,
        spare: &mut Spare,
    ) -> Result<(), Memory>
        requires dressed { dressing self.old.left.held dressed ≡ dressed_in self.old.left.elements self.old.left.held }
        requires good { is_good_name name ≡ true }
        ensures ok { OnOk result (self.new ≡ behind self.old (Start name self.old.last)) }
        ensures err { OnErr result (self.new ≡ self.old) }
    {
        self.around.settle(self.alloc, dressed)?;
        self.around.tag.attrs.give_back(spare);
        self.around.hold(name, None);
        Ok(())
    }

    pub(crate) fn add_attribute(&mut self, name: Name, value: Text) -> Result<(), Memory>
        ensures ok { OnOk result (self.new ≡ behind self.old (Attribute name value)) }
        ensures err { OnErr result (self.new ≡ self.old) }
    {
        if self.around.holds {
            self.around.tag.attrs.set(name, value)
        } else {
            Ok(())
        }
    }

    /// Whether attributes can be taken at once.
    pub(crate) fn takes_at_once(&self, attrs: &[Attr]) -> bool
        ensures { result ≡ true → TakesAtOnce self.now.left attrs.now }
    {
        self.around.holds && self.around.tag.attrs.can_fill(attrs)
    }

    /// Takes attributes at once. Allocates nothing.
    pub(crate) fn add_attributes(&mut self, attrs: List<Attr>)
        requires { TakesAtOnce self.old.left attrs }
        ensures { self.new ≡ record self.old { left = left_by self.old.left (map attribute_part attrs) } }
    {
        self.around.tag.attrs.fill(attrs);
    }

    /// Ends the innermost element, and gives its name back.
    #[inline(always)]
    pub(crate) fn end(&mut self) -> Option<Name>
        ensures { (name : Name) → self.new ≡ behind self.old (End name) }
    {
        if self.around.holds {
            self.around.holds = false;
            return Some(mem::replace(&mut self.around.tag.name, no_name(self.alloc)));
        }
        let OpenElement { name, declared } = self.around.elements.pop()?;
        let outer = self.around.bindings.len() - declared;
        self.around.bindings.truncate(outer);
        self.around.keeps = self.around.keeps && declared == 0;
        Some(name)
    }

    /// The tag that is held back is settled: its element is open. After a refusal all is unchanged.
    #[inline(always)]
    pub(crate) fn settle(&mut self, dressed: Option<Dressed>) -> Result<(), Memory>
        requires { dressing self.old.left.held dressed ≡ dressed_in self.old.left.elements self.old.left.held }
        ensures ok { OnOk result (self.new ≡ behind self.old (Chars [])) }
        ensures err { OnErr result (self.new ≡ self.old) }
    {
        self.around.settle(self.alloc, dressed)
    }
}

impl Around {
    /// The tag that is held back is settled: its element is open. After a refusal all is unchanged.
    #[inline(always)]
    fn settle(&mut self, alloc: Global, dressed: Option<Dressed>) -> Result<(), Memory>
        requires { self.old.keeps ≡ true → keep_bindings self.old.bindings self.old.tag.scope ≡ true }
        ensures ok { OnOk result (Settles self.old (dressing (held self.old) dressed) self.new) }
        ensures err { OnErr result (SameAround self.old self.new) }
    {
        if !self.holds {
            return Ok(());
        }
        match dressed {
            None => self.settle_undressed(alloc),
            Some(dressed) => self.settle_dressed(alloc, dressed),
        }
    }

    /// The same of a tag that is written with its names and values alone.
    #[inline(always)]
    fn settle_undressed(&mut self, alloc: Global) -> Result<(), Memory>
        requires holds { self.old.holds ≡ true }
        requires keeps { self.old.keeps ≡ true → keep_bindings self.old.bindings self.old.tag.scope ≡ true }
        ensures ok { OnOk result (Settles self.old (dressing (held self.old) None) self.new) }
        ensures err { OnErr result (SameAround self.old self.new) }
    {
        self.elements.reserve(1)?;
        self.open(alloc, 0);
        Ok(())
    }

    /// The same of a tag that is written with more.
    #[inline(never)]
    fn settle_dressed(&mut self, alloc: Global, dressed: Dressed) -> Result<(), Memory>
        requires { self.old.holds ≡ true }
        ensures ok { OnOk result (Settles self.old (dressing (held self.old) (Some dressed)) self.new) }
        ensures err { OnErr result (SameAround self.old self.new) }
    {
        let Dressed {
            declared,
            prefixes: _prefixes,
        } = dressed;
        self.elements.reserve(1)?;
        let count = declared.len();
        self.bindings.extend(declared)?;
        self.open(alloc, count);
        // What the tag declares is in force from here on, and most elements in it have its scope.
        self.keeps = keep_bindings(&self.bindings, self.tag.scope.as_slice());
        Ok(())
    }

    /// Opens the element of the tag, which declares so many bindings.
    #[inline(always)]
    fn open(&mut self, alloc: Global, declared: usize)
        requires room { vec_len self.old.elements < vec_capacity self.old.elements }
        ensures elements { self.new.elements.items ≡ self.old.elements.items ++ record { name = self.old.tag.name; declared = declared } ∷ [] }
        ensures bindings { self.new.bindings ≡ self.old.bindings }
        ensures scope { self.new.tag.scope ≡ self.old.tag.scope }
        ensures attrs { self.new.tag.attrs ≡ self.old.tag.attrs }
        ensures holds { self.new.holds ≡ false }
        ensures keeps { self.new.keeps ≡ self.old.keeps }
    {
        let name = mem::replace(&mut self.tag.name, no_name(alloc));
        self.elements.push_reserved(OpenElement { name, declared });
        self.holds = false;
    }

    /// Holds back a tag without attributes, of which the scope is the last one unless it is another. Those of the tag before are
    /// dropped already.
    #[inline(always)]
    fn hold(&mut self, name: Name, other: Option<List<Binding>>)
        requires { self.old.tag.attrs ≡ [] }
        ensures tag { self.new.tag ≡ record { name = name; scope = unwrap_or other self.old.tag.scope; attrs = [] } }
        ensures holds { self.new.holds ≡ true }
        ensures keeps { self.new.keeps ≡ true → (other ≡ None → self.old.keeps ≡ true) × (is_some other ≡ true → keep_bindings self.old.bindings self.new.tag.scope ≡ true) }
        ensures elements { self.new.elements ≡ self.old.elements }
        ensures bindings { self.new.bindings ≡ self.old.bindings }
    {
        if let Some(other) = other {
            self.keeps = keep_bindings(&self.bindings, other.as_slice());
            self.tag.scope = other;
        }
        self.tag.name = name;
        self.holds = true;
    }
}

/// A copy of what a tag declares.
fn declared_in(alloc: Global, dressed: &Option<Dressed>) -> Result<List<Binding>, Memory>
    ensures { IfOk result (λ made. made ≡ declared_in dressed.now) }
{
    match dressed {
        None => Ok(List::new(alloc)),
        Some(dressed) => dressed.declared.copy(alloc),
    }
}

fn no_tag(alloc: Global) -> HeldTag
    ensures scope { result.scope ≡ [] }
{
    HeldTag {
        name: no_name(alloc),
        scope: List::new(alloc),
        attrs: Attributes::new(alloc),
    }
}

fn no_name(alloc: Global) -> Name {
    Name {
        uri: Text::new(alloc),
        local: Text::new(alloc),
        prefix: Text::new(alloc),
    }
}

/// Whether the innermost element's name is this one, in its prefix too.
fn is_name(innermost: Option<&Name>, name: &Name) -> bool
    ensures { result ≡ true → option_copied innermost.entry ≡ Some name.now }
{
    match innermost {
        None => false,
        Some(innermost) => innermost.same(name) && innermost.prefix.same(&name.prefix),
    }
}

/// The first fault of attributes of a tag that is held back.
pub fn attributes_fault(attrs: &[Attr]) -> Option<ResultFault>
    ensures { result ≡ nodes.attributes_fault attrs.now }
{
    for attr in attrs {
        if !is_good_attribute(&attr.name) {
            return Some(ResultFault::BadName);
        }
        if !are_chars(&attr.value) {
            return Some(ResultFault::BadChar);
        }
    }
    None
}

pub fn chars_fault(text: &Text) -> Option<ResultFault>
    ensures { result ≡ spec.chars_fault text.now }
{
    if are_chars(text) {
        None
    } else {
        Some(ResultFault::BadChar)
    }
}

pub fn comment_fault(text: &Text) -> Option<ResultFault>
    ensures { result ≡ spec.comment_fault text.now }
{
    if !are_chars(text) {
        Some(ResultFault::BadChar)
    } else if is_good_comment(text) {
        None
    } else {
        Some(ResultFault::BadComment)
    }
}

pub fn instruction_fault(target: &Text, text: &Text) -> Option<ResultFault>
    ensures { result ≡ spec.instruction_fault target.now text.now }
{
    if !are_chars(text) {
        Some(ResultFault::BadChar)
    } else if is_good_target(target) && is_good_data(text) {
        None
    } else {
        Some(ResultFault::BadPi)
    }
}

#[tactic(auto, using(crate::proofs::Growing::begins_trans, crate::proofs::Growing::begins_self))]
pub fn append_cdata(text: &Text, out: &mut Vec<u8>) -> Result<(), Memory>
    ensures ok { OnOk result (out.new.items ≡ out.old.items ++ cdata_text text.now) }
    ensures kept { Begins out.old.items out.new.items }
{
    append(b"<![CDATA[", out)?;
    append(text.as_str().as_bytes(), out)?;
    append(b"]]>", out)?;
    Ok(())
}

#[tactic(auto, using(crate::proofs::Growing::begins_trans, crate::proofs::Growing::begins_self))]
pub fn append_comment(text: &Text, out: &mut Vec<u8>) -> Result<(), Memory>
    ensures ok { OnOk result (out.new.items ≡ out.old.items ++ comment_text text.now) }
    ensures kept { Begins out.old.items out.new.items }
{
    append(b"<!--", out)?;
    append(text.as_str().as_bytes(), out)?;
    append(b"-->", out)?;
    Ok(())
}

#[tactic(auto, using(crate::proofs::Growing::begins_trans, crate::proofs::Growing::begins_self))]
pub fn append_instruction(target: &Text, text: &Text, out: &mut Vec<u8>) -> Result<(), Memory>
    ensures ok { OnOk result (out.new.items ≡ out.old.items ++ instruction_text target.now text.now) }
    ensures kept { Begins out.old.items out.new.items }
{
    append(b"<?", out)?;
    append(target.as_str().as_bytes(), out)?;
    append_data(text, out)?;
    append(b"?>", out)
}

#[tactic(auto, using(crate::proofs::Growing::begins_trans, crate::proofs::Growing::begins_self))]
fn append_data(text: &Text, out: &mut Vec<u8>) -> Result<(), Memory>
    ensures ok { OnOk result (out.new.items ≡ out.old.items ++ data_text text.now) }
    ensures kept { Begins out.old.items out.new.items }
{
    if is_empty(text) {
        return Ok(());
    }
    append_byte(b' ', out)?;
    append(text.as_str().as_bytes(), out)
}
