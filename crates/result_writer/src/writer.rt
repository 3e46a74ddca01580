ghost use Rattle.std.specs.Prelude.{◌≡◌, ◌↔◌, ◌++◌, [], true, false, None, Some, Err, IfOk, IfErr, IsTrue, MatchResult, OnOk, OnErr, map, unwrap_or};
ghost use Rattle.stx_base.specs.declared.part.Part.TheVariants.{Start, Attribute, End, Chars, CData, Comment, Pi};
ghost use Rattle.stx_base.specs.declared.name.Name.{Name as Spelled};
ghost use Rattle.result_writer.specs.Allowed.{is_good_name};
ghost use Rattle.std.specs.List.{list_all};
ghost use Rattle.stx_base.specs.Character.{is_cdata_text};
ghost use Rattle.stx_base.specs.Course.{Begins};
ghost use Rattle.result_writer.specs.Nodes.{attribute_part};
ghost use Rattle.result_writer.specs.Opened.{dressing};
ghost use Rattle.result_writer.specs.Target as spec;
ghost use Rattle.result_writer.specs.Target.{behind, chars_fault, holds_cdata_text, dressed_in, end_text, first_fault, fresh, innermost, is_closed, left_by, settles, text, whole_fault, IsCause, PutsInTurn, TakesAtOnce};

use crate::chars::append_chars;
use crate::escape::{Context, append_escaped};
use crate::fault::{ResultFault, WriteStop};
use crate::opened::{
    Opened, append_cdata, append_comment, append_instruction, attributes_fault, comment_fault,
    instruction_fault,
};
use crate::tag::Dressed;
use std::alloc::Global;
use std::marker::Model;
use stx_base::{Attr, Binding, Copied, List, Memory, Name, Part, Spare, Text};

/// Writes the parts of a result.
#[derive(Debug, Drop)]
pub struct Writer {
    alloc: Global,
    opened: Opened,
}

impl Model for Writer {
    ghost use Rattle.result_writer.specs.Target.{Target};

    ghost Value = { Target };

    ghost view = { λ writer. writer.opened };
}

impl Writer {
    /// A writer of a result in which at most `limit` elements may be open at once. Allocates nothing.
    pub fn new(alloc: Global, limit: u32) -> Writer
        ensures { result ≡ fresh limit }
    {
        Writer {
            alloc,
            opened: Opened::new(alloc, limit),
        }
    }

    /// Appends the bytes that a part settles. After a refusal all is unchanged.
    pub fn put(&mut self, part: &Part, out: &mut Vec<u8>) -> Result<(), WriteStop>
        requires { holds_cdata_text part.now ≡ true }
        // It is taken only where it has no fault.
        ensures taken { OnOk result (spec.fault self.old.limit self.old.left part.now ≡ None) }
        ensures fault { IfErr result (IsCause (spec.fault self.old.limit self.old.left part.now)) }
        ensures ok { OnOk result (self.new ≡ behind self.old part.now) }
        ensures err { OnErr result (self.new ≡ self.old) }
        ensures written { OnOk result (out.new.items ≡ out.old.items ++ settles self.old.left part.now) }
        ensures unwritten { OnErr result (out.new.items ≡ out.old.items) }
    {
        match part {
            Part::Start { name, scope } => {
                let name = name.copy(self.alloc)?;
                self.put_start(name, scope, out)
            }
            Part::Attribute { name, value } => {
                let name = name.copy(self.alloc)?;
                let value = value.copy(self.alloc)?;
                self.put_attribute(name, value)
            }
            Part::End { name } => self.put_end(name, out),
            Part::Chars { text } => self.put_chars(text, out),
            Part::CData { text } => Ok(self.put_cdata(text, out)?),
            Part::Comment { text } => self.put_comment(text, out),
            Part::Pi { target, text } => self.put_instruction(target, text, out),
        }
    }

    /// The same of a part that is handed over, whose name and attributes needn't be copied. After a refusal the part is
    /// dropped, and all else is unchanged.
    pub fn put_owned(&mut self, part: Part, out: &mut Vec<u8>) -> Result<(), WriteStop>
        requires { holds_cdata_text part ≡ true }
        ensures taken { OnOk result (spec.fault self.old.limit self.old.left part ≡ None) }
        ensures fault { IfErr result (IsCause (spec.fault self.old.limit self.old.left part)) }
        ensures ok { OnOk result (self.new ≡ behind self.old part) }
        ensures err { OnErr result (self.new ≡ self.old) }
        ensures written { OnOk result (out.new.items ≡ out.old.items ++ settles self.old.left part) }
        ensures unwritten { OnErr result (out.new.items ≡ out.old.items) }
    {
        match part {
            Part::Start { name, scope } => self.put_owned_start(name, scope, out),
            Part::Attribute { name, value } => self.put_attribute(name, value),
            Part::End { name } => self.put_end(&name, out),
            Part::Chars { text } => self.put_chars(&text, out),
            Part::CData { text } => Ok(self.put_cdata(&text, out)?),
            Part::Comment { text } => self.put_comment(&text, out),
            Part::Pi { target, text } => self.put_instruction(&target, &text, out),
        }
    }

    /// The same of a part that has no fault, which isn't judged again.
    pub fn put_judged(&mut self, part: Part, out: &mut Vec<u8>) -> Result<(), Memory>
        requires judged { spec.fault self.old.limit self.old.left part ≡ None }
        requires text { holds_cdata_text part ≡ true }
        ensures ok { OnOk result (self.new ≡ behind self.old part) }
        ensures err { OnErr result (self.new ≡ self.old) }
        ensures written { OnOk result (out.new.items ≡ out.old.items ++ settles self.old.left part) }
        ensures unwritten { OnErr result (out.new.items ≡ out.old.items) }
    {
        match part {
            Part::Start { name, scope } => {
                let other = self.opened.unless_last(scope);
                self.write_start(name, other, out)
            }
            Part::Attribute { name, value } => self.opened.add_attribute(name, value),
            Part::End { name: _name } => self.write_end(out),
            Part::Chars { text } => self.write_chars(&text, out),
            Part::CData { text } => self.put_cdata(&text, out),
            Part::Comment { text } => self.write_comment(&text, out),
            Part::Pi { target, text } => self.write_instruction(&target, &text, out),
        }
    }

    /// The same of an element's start, whose scope is copied only where it isn't that of the start before. After a refusal
    /// the name is dropped, and all else is unchanged.
    pub fn put_start(
        &mut self,
        name: Name,
        scope: &List<Binding>,
        out: &mut Vec<u8>,
    ) -> Result<(), WriteStop>
        ensures taken { OnOk result (spec.fault self.old.limit self.old.left (Start name scope.now) ≡ None) }
        ensures fault { IfErr result (IsCause (spec.fault self.old.limit self.old.left (Start name scope.now))) }
        ensures ok { OnOk result (self.new ≡ behind self.old (Start name scope.now)) }
        ensures err { OnErr result (self.new ≡ self.old) }
        ensures written { OnOk result (out.new.items ≡ out.old.items ++ settles self.old.left (Start name scope.now)) }
        ensures unwritten { OnErr result (out.new.items ≡ out.old.items) }
    {
        if let Some(fault) = self.opened.start_fault(&name) {
            return Err(WriteStop::Fault(fault));
        }
        let other = self.opened.other_scope(scope)?;
        self.write_start(name, other, out)?;
        Ok(())
    }

    /// The same of one that is accepted, in the scope of the start before unless it is in another.
    fn write_start(
        &mut self,
        name: Name,
        other: Option<List<Binding>>,
        out: &mut Vec<u8>,
    ) -> Result<(), Memory>
        requires { is_good_name name ≡ true }
        ensures ok { OnOk result (self.new ≡ behind self.old (Start name (unwrap_or other self.old.last))) }
        ensures err { OnErr result (self.new ≡ self.old) }
        ensures written { OnOk result (out.new.items ≡ out.old.items ++ settles self.old.left (Start name (unwrap_or other self.old.last))) }
        ensures unwritten { OnErr result (out.new.items ≡ out.old.items) }
    {
        let len = out.len();
        if start(&mut self.opened, name, other, out).is_err() {
            out.truncate(len);
            return Err(Memory);
        }
        Ok(())
    }

    /// The same of a start whose scope is handed over.
    fn put_owned_start(
        &mut self,
        name: Name,
        scope: List<Binding>,
        out: &mut Vec<u8>,
    ) -> Result<(), WriteStop>
        ensures taken { OnOk result (spec.fault self.old.limit self.old.left (Start name scope) ≡ None) }
        ensures fault { IfErr result (IsCause (spec.fault self.old.limit self.old.left (Start name scope))) }
        ensures ok { OnOk result (self.new ≡ behind self.old (Start name scope)) }
        ensures err { OnErr result (self.new ≡ self.old) }
        ensures written { OnOk result (out.new.items ≡ out.old.items ++ settles self.old.left (Start name scope)) }
        ensures unwritten { OnErr result (out.new.items ≡ out.old.items) }
    {
        if let Some(fault) = self.opened.start_fault(&name) {
            return Err(WriteStop::Fault(fault));
        }
        let other = self.opened.unless_last(scope);
        self.write_start(name, other, out)?;
        Ok(())
    }

    /// Whether a scope is that of the start before, or has no bindings where there was none. So a start in it can be put as one in
    /// that. Allocates nothing.
    pub fn is_last_scope(&self, scope: &List<Binding>) -> bool
        ensures { IsTrue result ↔ (scope.now ≡ self.now.last) }
    {
        self.opened.is_last_scope(scope)
    }

    /// The same of a start in the scope of the start before, or in one without bindings where there was none. The texts of the
    /// tag before are kept in `spare`.
    #[inline(always)]
    pub fn put_start_again(
        &mut self,
        name: Name,
        spare: &mut Spare,
        out: &mut Vec<u8>,
    ) -> Result<(), WriteStop>
        ensures taken { OnOk result (spec.fault self.old.limit self.old.left (Start name self.old.last) ≡ None) }
        ensures fault { IfErr result (IsCause (spec.fault self.old.limit self.old.left (Start name self.old.last))) }
        ensures ok { OnOk result (self.new ≡ behind self.old (Start name self.old.last)) }
        ensures err { OnErr result (self.new ≡ self.old) }
        ensures written { OnOk result (out.new.items ≡ out.old.items ++ settles self.old.left (Start name self.old.last)) }
        ensures unwritten { OnErr result (out.new.items ≡ out.old.items) }
    {
        if let Some(fault) = self.opened.start_fault(&name) {
            return Err(WriteStop::Fault(fault));
        }
        let len = out.len();
        if start_again(&mut self.opened, name, spare, out).is_err() {
            out.truncate(len);
            return Err(WriteStop::Memory);
        }
        Ok(())
    }

    /// The same of an attribute, which settles nothing. After a refusal it is dropped, and all else is unchanged.
    pub fn put_attribute(&mut self, name: Name, value: Text) -> Result<(), WriteStop>
        ensures taken { OnOk result (spec.fault self.old.limit self.old.left (Attribute name value) ≡ None) }
        ensures fault { IfErr result (IsCause (spec.fault self.old.limit self.old.left (Attribute name value))) }
        ensures ok { OnOk result (self.new ≡ behind self.old (Attribute name value)) }
        ensures err { OnErr result (self.new ≡ self.old) }
    {
        if let Some(fault) = self.opened.attribute_fault(&name, &value) {
            return Err(WriteStop::Fault(fault));
        }
        self.opened.add_attribute(name, value)?;
        Ok(())
    }

    /// Whether attributes can be put at once.
    #[inline(always)]
    pub fn takes_at_once(&self, attrs: &[Attr]) -> bool
        ensures { result ≡ true → TakesAtOnce self.now.left attrs.now }
    {
        self.opened.takes_at_once(attrs)
    }

    /// The same of all attributes of a tag, without moving each of them. Allocates nothing. After a refusal they are dropped,
    /// and all else is unchanged.
    #[inline(always)]
    pub fn put_attributes(&mut self, attrs: List<Attr>) -> Result<(), ResultFault>
        requires { TakesAtOnce self.old.left attrs }
        ensures taken { OnOk result (first_fault self.old.limit self.old.left (map attribute_part attrs) ≡ None) }
        ensures fault { IfErr result (λ fault. first_fault self.old.limit self.old.left (map attribute_part attrs) ≡ Some fault) }
        ensures ok { OnOk result (self.new ≡ record self.old { left = left_by self.old.left (map attribute_part attrs) }) }
        ensures err { OnErr result (self.new ≡ self.old) }
    {
        if let Some(fault) = attributes_fault(attrs.as_slice()) {
            return Err(fault);
        }
        self.opened.add_attributes(attrs);
        Ok(())
    }

    /// The same of attributes one after another, up to the first that has a fault; those before it are taken. Most are taken at
    /// once, which spares to move each of them.
    pub fn put_attributes_in_turn(&mut self, attrs: List<Attr>) -> Result<(), WriteStop>
        ensures { PutsInTurn (map attribute_part attrs) result self.old self.new }
    {
        let lent = attrs.as_slice();
        if self.opened.takes_at_once(lent) && attributes_fault(lent).is_none() {
            self.opened.add_attributes(attrs);
            return Ok(());
        }
        self.put_each_attribute(attrs)
    }

    /// The same without trying to take them at once.
    #[inline(never)]
    fn put_each_attribute(&mut self, attrs: List<Attr>) -> Result<(), WriteStop>
        ensures { PutsInTurn (map attribute_part attrs) result self.old self.new }
    {
        for attr in attrs.into_vec() {
            let Attr { name, value } = attr;
            self.put_attribute(name, value)?;
        }
        Ok(())
    }

    /// The same of an element's end. After a refusal all is unchanged.
    pub fn put_end(&mut self, name: &Name, out: &mut Vec<u8>) -> Result<(), WriteStop>
        ensures taken { OnOk result (spec.fault self.old.limit self.old.left (End name.now) ≡ None) }
        ensures fault { IfErr result (IsCause (spec.fault self.old.limit self.old.left (End name.now))) }
        ensures ok { OnOk result (self.new ≡ behind self.old (End name.now)) }
        ensures err { OnErr result (self.new ≡ self.old) }
        ensures written { OnOk result (out.new.items ≡ out.old.items ++ settles self.old.left (End name.now)) }
        ensures unwritten { OnErr result (out.new.items ≡ out.old.items) }
    {
        if let Some(fault) = self.opened.end_fault(name) {
            return Err(WriteStop::Fault(fault));
        }
        self.write_end(out)?;
        Ok(())
    }

    /// The same of one that is accepted.
    fn write_end(&mut self, out: &mut Vec<u8>) -> Result<(), Memory>
        ensures ok { (name : Spelled) → OnOk result (self.new ≡ behind self.old (End name)) }
        ensures err { OnErr result (self.new ≡ self.old) }
        ensures written { OnOk result (out.new.items ≡ out.old.items ++ end_text self.old.left.elements self.old.left.held) }
        ensures unwritten { OnErr result (out.new.items ≡ out.old.items) }
    {
        let len = out.len();
        if end(&mut self.opened, out).is_err() {
            out.truncate(len);
            return Err(Memory);
        }
        Ok(())
    }

    /// Ends the innermost element as `put_end` does, whose name needn't be known, and is kept in `spare`. After a refusal all is
    /// unchanged.
    #[inline(always)]
    pub fn end_innermost(&mut self, spare: &mut Spare, out: &mut Vec<u8>) -> Result<(), WriteStop>
        ensures unmatched { innermost self.old.left.elements self.old.left.held ≡ None → result ≡ Err (WriteStop.Fault ResultFault.UnmatchedEnd) }
        ensures memory { (name : Spelled) → innermost self.old.left.elements self.old.left.held ≡ Some name → IfErr result (λ stop. stop ≡ WriteStop.Memory) }
        ensures good { (name : Spelled) → innermost self.old.left.elements self.old.left.held ≡ Some name → spec.fault self.old.limit self.old.left (End name) ≡ None }
        ensures ok { (name : Spelled) → OnOk result (self.new ≡ behind self.old (End name)) }
        ensures err { OnErr result (self.new ≡ self.old) }
        ensures written { (name : Spelled) → OnOk result (out.new.items ≡ out.old.items ++ settles self.old.left (End name)) }
        ensures unwritten { OnErr result (out.new.items ≡ out.old.items) }
    {
        if !self.opened.has_open() {
            return Err(WriteStop::Fault(ResultFault::UnmatchedEnd));
        }
        let len = out.len();
        let Ok(ended) = end(&mut self.opened, out) else {
            out.truncate(len);
            return Err(WriteStop::Memory);
        };
        if let Some(name) = ended {
            spare.keep_name(name);
        }
        Ok(())
    }

    /// The same of an end by its name, as `put_end` has it. The name of the element is kept in `spare`. After a refusal all is
    /// unchanged.
    pub fn put_end_keeping(
        &mut self,
        name: &Name,
        spare: &mut Spare,
        out: &mut Vec<u8>,
    ) -> Result<(), WriteStop>
        ensures taken { OnOk result (spec.fault self.old.limit self.old.left (End name.now) ≡ None) }
        ensures fault { IfErr result (IsCause (spec.fault self.old.limit self.old.left (End name.now))) }
        ensures ok { OnOk result (self.new ≡ behind self.old (End name.now)) }
        ensures err { OnErr result (self.new ≡ self.old) }
        ensures written { OnOk result (out.new.items ≡ out.old.items ++ settles self.old.left (End name.now)) }
        ensures unwritten { OnErr result (out.new.items ≡ out.old.items) }
    {
        match self.opened.end_fault(name) {
            Some(fault) => Err(WriteStop::Fault(fault)),
            None => self.end_innermost(spare, out),
        }
    }

    /// The same of characters. After a refusal all is unchanged.
    #[inline(always)]
    pub fn put_chars(&mut self, text: &Text, out: &mut Vec<u8>) -> Result<(), WriteStop>
        ensures taken { OnOk result (spec.fault self.old.limit self.old.left (Chars text.now) ≡ None) }
        ensures fault { IfErr result (IsCause (spec.fault self.old.limit self.old.left (Chars text.now))) }
        ensures ok { OnOk result (self.new ≡ behind self.old (Chars text.now)) }
        ensures err { OnErr result (self.new ≡ self.old) }
        ensures written { OnOk result (out.new.items ≡ out.old.items ++ settles self.old.left (Chars text.now)) }
        ensures unwritten { OnErr result (out.new.items ≡ out.old.items) }
    {
        let len = out.len();
        if let Err(stop) = chars(&mut self.opened, text, out) {
            out.truncate(len);
            return Err(stop);
        }
        Ok(())
    }

    /// The same of characters that are accepted.
    fn write_chars(&mut self, text: &Text, out: &mut Vec<u8>) -> Result<(), Memory>
        ensures ok { OnOk result (self.new ≡ behind self.old (Chars text.now)) }
        ensures err { OnErr result (self.new ≡ self.old) }
        ensures written { OnOk result (out.new.items ≡ out.old.items ++ settles self.old.left (Chars text.now)) }
        ensures unwritten { OnErr result (out.new.items ≡ out.old.items) }
    {
        let len = out.len();
        if judged_chars(&mut self.opened, text, out).is_err() {
            out.truncate(len);
            return Err(Memory);
        }
        Ok(())
    }

    /// The same of a CDATA section, which has no fault. After a refusal all is unchanged.
    pub fn put_cdata(&mut self, text: &Text, out: &mut Vec<u8>) -> Result<(), Memory>
        requires { is_cdata_text text.now ≡ true }
        ensures ok { OnOk result (self.new ≡ behind self.old (CData text.now)) }
        ensures err { OnErr result (self.new ≡ self.old) }
        ensures written { OnOk result (out.new.items ≡ out.old.items ++ settles self.old.left (CData text.now)) }
        ensures unwritten { OnErr result (out.new.items ≡ out.old.items) }
    {
        let len = out.len();
        if cdata(&mut self.opened, text, out).is_err() {
            out.truncate(len);
            return Err(Memory);
        }
        Ok(())
    }

    /// The same of a comment. After a refusal all is unchanged.
    pub fn put_comment(&mut self, text: &Text, out: &mut Vec<u8>) -> Result<(), WriteStop>
        ensures taken { OnOk result (spec.fault self.old.limit self.old.left (Comment text.now) ≡ None) }
        ensures fault { IfErr result (IsCause (spec.fault self.old.limit self.old.left (Comment text.now))) }
        ensures ok { OnOk result (self.new ≡ behind self.old (Comment text.now)) }
        ensures err { OnErr result (self.new ≡ self.old) }
        ensures written { OnOk result (out.new.items ≡ out.old.items ++ settles self.old.left (Comment text.now)) }
        ensures unwritten { OnErr result (out.new.items ≡ out.old.items) }
    {
        if let Some(fault) = comment_fault(text) {
            return Err(WriteStop::Fault(fault));
        }
        self.write_comment(text, out)?;
        Ok(())
    }

    /// The same of one that is accepted.
    fn write_comment(&mut self, text: &Text, out: &mut Vec<u8>) -> Result<(), Memory>
        ensures ok { OnOk result (self.new ≡ behind self.old (Comment text.now)) }
        ensures err { OnErr result (self.new ≡ self.old) }
        ensures written { OnOk result (out.new.items ≡ out.old.items ++ settles self.old.left (Comment text.now)) }
        ensures unwritten { OnErr result (out.new.items ≡ out.old.items) }
    {
        let len = out.len();
        if comment(&mut self.opened, text, out).is_err() {
            out.truncate(len);
            return Err(Memory);
        }
        Ok(())
    }

    /// The same of a processing instruction. After a refusal all is unchanged.
    pub fn put_instruction(
        &mut self,
        target: &Text,
        text: &Text,
        out: &mut Vec<u8>,
    ) -> Result<(), WriteStop>
        ensures taken { OnOk result (spec.fault self.old.limit self.old.left (Pi target.now text.now) ≡ None) }
        ensures fault { IfErr result (IsCause (spec.fault self.old.limit self.old.left (Pi target.now text.now))) }
        ensures ok { OnOk result (self.new ≡ behind self.old (Pi target.now text.now)) }
        ensures err { OnErr result (self.new ≡ self.old) }
        ensures written { OnOk result (out.new.items ≡ out.old.items ++ settles self.old.left (Pi target.now text.now)) }
        ensures unwritten { OnErr result (out.new.items ≡ out.old.items) }
    {
        if let Some(fault) = instruction_fault(target, text) {
            return Err(WriteStop::Fault(fault));
        }
        self.write_instruction(target, text, out)?;
        Ok(())
    }

    /// The same of one that is accepted.
    fn write_instruction(
        &mut self,
        target: &Text,
        text: &Text,
        out: &mut Vec<u8>,
    ) -> Result<(), Memory>
        ensures ok { OnOk result (self.new ≡ behind self.old (Pi target.now text.now)) }
        ensures err { OnErr result (self.new ≡ self.old) }
        ensures written { OnOk result (out.new.items ≡ out.old.items ++ settles self.old.left (Pi target.now text.now)) }
        ensures unwritten { OnErr result (out.new.items ≡ out.old.items) }
    {
        let len = out.len();
        if instruction(&mut self.opened, target, text, out).is_err() {
            out.truncate(len);
            return Err(Memory);
        }
        Ok(())
    }

    /// Ends the result. The writer is unchanged. Allocates nothing.
    pub fn finish(&mut self) -> Result<(), ResultFault>
        ensures closed { MatchResult result
            (λ _. is_closed self.old.left.elements self.old.left.held ≡ true)
            (λ fault. (fault ≡ ResultFault.UnclosedResult) × (is_closed self.old.left.elements self.old.left.held ≡ false)) }
        ensures unchanged { self.new ≡ self.old }
    {
        if self.opened.closed() {
            Ok(())
        } else {
            Err(ResultFault::UnclosedResult)
        }
    }
}

/// Settles what a start does, and takes it, in the scope of the start before unless it is in another. After a refusal some
/// bytes may be appended.
#[tactic(auto, using(crate::proofs::Growing::begins_trans, crate::proofs::Growing::begins_self))]
fn start(
    opened: &mut Opened,
    name: Name,
    other: Option<List<Binding>>,
    out: &mut Vec<u8>,
) -> Result<(), Memory>
    requires { is_good_name name ≡ true }
    ensures ok { OnOk result (opened.new ≡ behind opened.old (Start name (unwrap_or other opened.old.last))) }
    ensures err { OnErr result (opened.new ≡ opened.old) }
    ensures written { OnOk result (out.new.items ≡ out.old.items ++ settles opened.old.left (Start name (unwrap_or other opened.old.last))) }
    ensures kept { Begins out.old.items out.new.items }
{
    if opened.is_undressed() {
        return start_dressed(opened, name, other, None, out);
    }
    let dressed = opened.dressed()?;
    start_dressed(opened, name, other, dressed, out)
}

/// The same, where the tag that is held back is written so.
#[inline(always)]
#[tactic(auto, using(crate::proofs::Growing::begins_trans, crate::proofs::Growing::begins_self))]
fn start_dressed(
    opened: &mut Opened,
    name: Name,
    other: Option<List<Binding>>,
    dressed: Option<Dressed>,
    out: &mut Vec<u8>,
) -> Result<(), Memory>
    requires dressed { dressing opened.old.left.held dressed ≡ dressed_in opened.old.left.elements opened.old.left.held }
    requires good { is_good_name name ≡ true }
    ensures ok { OnOk result (opened.new ≡ behind opened.old (Start name (unwrap_or other opened.old.last))) }
    ensures err { OnErr result (opened.new ≡ opened.old) }
    ensures written { OnOk result (out.new.items ≡ out.old.items ++ settles opened.old.left (Start name (unwrap_or other opened.old.last))) }
    ensures kept { Begins out.old.items out.new.items }
{
    opened.append_tag(&dressed, out)?;
    opened.start(name, other, dressed)
}

/// The same of a start in the scope of the start before.
#[inline(always)]
#[tactic(auto, using(crate::proofs::Growing::begins_trans, crate::proofs::Growing::begins_self))]
fn start_again(
    opened: &mut Opened,
    name: Name,
    spare: &mut Spare,
    out: &mut Vec<u8>,
) -> Result<(), Memory>
    requires { is_good_name name ≡ true }
    ensures ok { OnOk result (opened.new ≡ behind opened.old (Start name opened.old.last)) }
    ensures err { OnErr result (opened.new ≡ opened.old) }
    ensures written { OnOk result (out.new.items ≡ out.old.items ++ settles opened.old.left (Start name opened.old.last)) }
    ensures kept { Begins out.old.items out.new.items }
{
    if opened.is_undressed() {
        return start_again_dressed(opened, name, None, spare, out);
    }
    let dressed = opened.dressed()?;
    start_again_dressed(opened, name, dressed, spare, out)
}

/// The same, where the tag that is held back is written so.
#[inline(always)]
#[tactic(auto, using(crate::proofs::Growing::begins_trans, crate::proofs::Growing::begins_self))]
fn start_again_dressed(
    opened: &mut Opened,
    name: Name,
    dressed: Option<Dressed>,
    spare: &mut Spare,
    out: &mut Vec<u8>,
) -> Result<(), Memory>
    requires dressed { dressing opened.old.left.held dressed ≡ dressed_in opened.old.left.elements opened.old.left.held }
    requires good { is_good_name name ≡ true }
    ensures ok { OnOk result (opened.new ≡ behind opened.old (Start name opened.old.last)) }
    ensures err { OnErr result (opened.new ≡ opened.old) }
    ensures written { OnOk result (out.new.items ≡ out.old.items ++ settles opened.old.left (Start name opened.old.last)) }
    ensures kept { Begins out.old.items out.new.items }
{
    opened.append_tag(&dressed, out)?;
    opened.start_again(name, dressed, spare)
}

/// The same of the end of the innermost element, whose name is given back.
#[inline(always)]
#[tactic(auto, using(crate::proofs::Growing::begins_trans, crate::proofs::Growing::begins_self))]
fn end(opened: &mut Opened, out: &mut Vec<u8>) -> Result<Option<Name>, Memory>
    ensures ok { (name : Spelled) → OnOk result (opened.new ≡ behind opened.old (End name)) }
    ensures err { OnErr result (opened.new ≡ opened.old) }
    ensures written { OnOk result (out.new.items ≡ out.old.items ++ end_text opened.old.left.elements opened.old.left.held) }
    ensures kept { Begins out.old.items out.new.items }
{
    let dressed = opened.dressed()?;
    opened.append_end(&dressed, out)?;
    Ok(opened.end())
}

/// The same of characters.
#[inline(always)]
#[tactic(auto, using(crate::proofs::Growing::begins_trans, crate::proofs::Growing::begins_self))]
fn chars(opened: &mut Opened, text: &Text, out: &mut Vec<u8>) -> Result<(), WriteStop>
    ensures taken { OnOk result (chars_fault text.now ≡ None) }
    ensures fault { IfErr result (IsCause (chars_fault text.now)) }
    ensures ok { OnOk result (opened.new ≡ behind opened.old (Chars text.now)) }
    ensures err { OnErr result (opened.new ≡ opened.old) }
    ensures written { OnOk result (out.new.items ≡ out.old.items ++ settles opened.old.left (Chars text.now)) }
    ensures kept { Begins out.old.items out.new.items }
{
    if opened.is_undressed() {
        return chars_dressed(opened, text, None, out);
    }
    let dressed = opened.dressed()?;
    chars_dressed(opened, text, dressed, out)
}

/// The same, where the tag that is held back is written so.
#[inline(always)]
#[tactic(auto, using(crate::proofs::Growing::begins_trans, crate::proofs::Growing::begins_self))]
fn chars_dressed(
    opened: &mut Opened,
    text: &Text,
    dressed: Option<Dressed>,
    out: &mut Vec<u8>,
) -> Result<(), WriteStop>
    requires { dressing opened.old.left.held dressed ≡ dressed_in opened.old.left.elements opened.old.left.held }
    ensures taken { OnOk result (chars_fault text.now ≡ None) }
    ensures fault { IfErr result (IsCause (chars_fault text.now)) }
    ensures ok { OnOk result (opened.new ≡ behind opened.old (Chars text.now)) }
    ensures err { OnErr result (opened.new ≡ opened.old) }
    ensures written { OnOk result (out.new.items ≡ out.old.items ++ settles opened.old.left (Chars text.now)) }
    ensures kept { Begins out.old.items out.new.items }
{
    opened.append_tag(&dressed, out)?;
    append_chars(text.as_str(), out)?;
    opened.settle(dressed)?;
    Ok(())
}

/// The same of characters that are accepted.
#[tactic(auto, using(crate::proofs::Growing::begins_trans, crate::proofs::Growing::begins_self))]
fn judged_chars(opened: &mut Opened, text: &Text, out: &mut Vec<u8>) -> Result<(), Memory>
    ensures ok { OnOk result (opened.new ≡ behind opened.old (Chars text.now)) }
    ensures err { OnErr result (opened.new ≡ opened.old) }
    ensures written { OnOk result (out.new.items ≡ out.old.items ++ settles opened.old.left (Chars text.now)) }
    ensures kept { Begins out.old.items out.new.items }
{
    let dressed = opened.dressed()?;
    opened.append_tag(&dressed, out)?;
    append_escaped(Context::Content, text.as_str().as_bytes(), out)?;
    opened.settle(dressed)
}

/// The same of a CDATA section.
#[tactic(auto, using(crate::proofs::Growing::begins_trans, crate::proofs::Growing::begins_self))]
fn cdata(opened: &mut Opened, text: &Text, out: &mut Vec<u8>) -> Result<(), Memory>
    ensures ok { OnOk result (opened.new ≡ behind opened.old (CData text.now)) }
    ensures err { OnErr result (opened.new ≡ opened.old) }
    ensures written { OnOk result (out.new.items ≡ out.old.items ++ settles opened.old.left (CData text.now)) }
    ensures kept { Begins out.old.items out.new.items }
{
    let dressed = opened.dressed()?;
    opened.append_tag(&dressed, out)?;
    append_cdata(text, out)?;
    opened.settle(dressed)
}

/// The same of a comment.
#[tactic(auto, using(crate::proofs::Growing::begins_trans, crate::proofs::Growing::begins_self))]
fn comment(opened: &mut Opened, text: &Text, out: &mut Vec<u8>) -> Result<(), Memory>
    ensures ok { OnOk result (opened.new ≡ behind opened.old (Comment text.now)) }
    ensures err { OnErr result (opened.new ≡ opened.old) }
    ensures written { OnOk result (out.new.items ≡ out.old.items ++ settles opened.old.left (Comment text.now)) }
    ensures kept { Begins out.old.items out.new.items }
{
    let dressed = opened.dressed()?;
    opened.append_tag(&dressed, out)?;
    append_comment(text, out)?;
    opened.settle(dressed)
}

/// The same of a processing instruction.
#[tactic(auto, using(crate::proofs::Growing::begins_trans, crate::proofs::Growing::begins_self))]
fn instruction(
    opened: &mut Opened,
    target: &Text,
    text: &Text,
    out: &mut Vec<u8>,
) -> Result<(), Memory>
    ensures ok { OnOk result (opened.new ≡ behind opened.old (Pi target.now text.now)) }
    ensures err { OnErr result (opened.new ≡ opened.old) }
    ensures written { OnOk result (out.new.items ≡ out.old.items ++ settles opened.old.left (Pi target.now text.now)) }
    ensures kept { Begins out.old.items out.new.items }
{
    let dressed = opened.dressed()?;
    opened.append_tag(&dressed, out)?;
    append_instruction(target, text, out)?;
    opened.settle(dressed)
}

/// The bytes of a whole result.
pub fn write(alloc: Global, limit: u32, parts: &List<Part>) -> Result<Vec<u8>, WriteStop>
    requires { list_all holds_cdata_text parts.now ≡ true }
    ensures text { IfOk result (λ out. out.items ≡ text parts.now) }
    ensures accepted { OnOk result (whole_fault limit parts.now ≡ None) }
    ensures fault { IfErr result (IsCause (whole_fault limit parts.now)) }
{
    let mut writer = Writer::new(alloc, limit);
    let mut out = Vec::new(alloc);
    for part in parts.as_slice() {
        writer.put(part, &mut out)?;
    }
    writer.finish()?;
    Ok(out)
}
