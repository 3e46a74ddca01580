ghost use Rattle.std.specs.Prelude.{◌≡◌, ◌≤◌, ◌<◌, ◌^◌, ◌+◌, ◌&&◌, ℕ, List, [], ◌∷◌, nat_lt, nat_le, true, false, length, IfOk, IfErr, MatchOption};
ghost use Rattle.std.specs.Str.{chars, IsAscii};
ghost use Rattle.xml_events.specs.Before as spec;
ghost use Rattle.xml_events.specs.Document.{text_items};
ghost use Rattle.xml_tokens.specs.declared.lexeme.Body.TheVariants as body;

use crate::texts::Texts;
use std::alloc::{AllocError, Global};
use stx_base::{Limits, List, Memory, Spare, Text, XmlKind};
use xml_names::{NameFault, Resolved, Scopes};
use xml_tokens::{Body, RawAttr};

/// What a lexeme is in a document's tree.
#[derive(Debug, Drop)]
pub enum Word {
    /// A start tag.
    Open(Resolved),
    /// An empty-element tag.
    Empty(Resolved),
    /// An end tag.
    Close,
    /// Characters inside the root.
    Text(Text),
    /// A CDATA section that is a node of its own.
    CData(Text),
    Comment(Text),
    Pi { target: Text, text: Text },
    /// No part of the tree.
    Nothing,
}

/// Why a lexeme is not taken.
#[derive(Clone, Copy, Debug, PartialEq, Eq)]
pub enum Refusal {
    Xml(XmlKind),
    Memory,
}

impl From<Memory> for Refusal {
    ghost use Rattle.std.specs.Prelude.{◌≡◌};
    ghost use Rattle.xml_events.specs.declared.place.Refusal.TheVariants as refusal;

    ghost from_gives = { λ memory answer. answer ≡ refusal.Memory };

    fn from(_memory: Memory) -> Refusal {
        Refusal::Memory
    }
}

impl From<NameFault> for Refusal {
    ghost use Rattle.std.specs.Prelude.{◌≡◌};
    ghost use Rattle.xml_events.specs.inside.Taking.{refused};

    ghost from_gives = { λ fault answer. answer ≡ refused fault };

    fn from(fault: NameFault) -> Refusal {
        match fault {
            NameFault::Xml(kind) => Refusal::Xml(kind),
            NameFault::Memory => Refusal::Memory,
        }
    }
}

/// What stands before a lexeme.
#[derive(Debug, Drop)]
pub struct Place {
    limits: Limits,
    // The names of the open elements as written, the innermost last.
    names: Texts,
    scopes: Scopes,
    // The root's start tag was read.
    rooted: bool,
    // A document type declaration was read.
    typed: bool,
    // So many characters has the text that stands directly before.
    chars: u64,
    // CDATA sections are nodes of their own.
    cdata: bool,
    ghost counted: { chars ≤ limits.text },
}

impl Place {
    ghost use Rattle.xml_events.specs.inside.Taking.{before_of, names_of, IsClosed, IsFit, IsLeft, Refuses, StartsAs, Takes, TakesFitting, Took, text_fault, unfit_at};

    pub fn new(alloc: Global, limits: Limits, cdata: bool) -> Place
        ensures { StartsAs limits cdata result }
    {
        Place {
            limits,
            names: Texts::new(alloc),
            scopes: Scopes::new(alloc),
            rooted: false,
            typed: false,
            chars: 0,
            cdata,
        }
    }

    /// Whether the root was read to its end.
    pub fn is_complete(&self) -> bool
        ensures { result ≡ spec.is_complete (before_of self.now) }
    {
        self.rooted && !self.is_inside()
    }

    /// Takes a lexeme, unless it has a fault here. Where it has one nothing has changed.
    pub fn take(&mut self, body: Body, spare: &mut Spare) -> Result<Word, Refusal>
        requires { IsFit self.old }
        ensures ok { IfOk result (Takes self.old body self.new) }
        ensures err { IfErr result (Refuses (spec.fault_of self.old.limits (before_of self.old) body) self.old self.new) }
        ensures limits { self.new.limits ≡ self.old.limits }
    {
        if self.is_misplaced(&body) {
            return Err(Refusal::Xml(XmlKind::Misplaced));
        }
        match body {
            Body::Chars {
                text,
                blank: _blank,
            } => self.take_text(text),
            Body::CData { text } => self.take_cdata(text),
            Body::Start { name, attrs, empty } => self.take_start(name, attrs, empty, spare),
            Body::End { name } => {
                let taken = self.take_end(&name);
                spare.keep(name);
                taken
            }
            Body::Comment { text } => {
                self.chars = 0;
                Ok(Word::Comment(text))
            }
            Body::Pi { target, text } => {
                self.chars = 0;
                Ok(Word::Pi { target, text })
            }
            Body::Doctype => {
                self.typed = true;
                Ok(Word::Nothing)
            }
            Body::Declaration => Ok(Word::Nothing),
        }
    }

    // An element is open.
    fn is_inside(&self) -> bool
        ensures { result ≡ spec.is_inside (names_of self.now) }
    {
        self.names.len() > 0
    }

    fn is_misplaced(&self, body: &Body) -> bool
        ensures { result ≡ spec.is_misplaced (before_of self.now) body.now }
    {
        match body {
            Body::Chars { blank, .. } => !(self.is_inside() || *blank),
            Body::CData { .. } => !self.is_inside(),
            Body::Start { .. } => self.is_complete(),
            Body::Doctype => self.rooted || self.typed,
            Body::End { .. } => false,
            Body::Comment { .. } => false,
            Body::Pi { .. } => false,
            Body::Declaration => false,
        }
    }

    fn take_text(&mut self, text: Text) -> Result<Word, Refusal>
        requires { IsFit self.old }
        ensures ok { IfOk result (Took (text_fault self.old text) (spec.behind_text (before_of self.old) text) (λ offset. text_items (before_of self.old) offset text) self.old self.new) }
        ensures err { IfErr result (Refuses (text_fault self.old text) self.old self.new) }
        ensures limits { self.new.limits ≡ self.old.limits }
    {
        if !self.is_inside() {
            return Ok(Word::Nothing);
        }
        let count = char_count(&text) as u64;
        if count > self.limits.text - self.chars {
            return Err(Refusal::Xml(XmlKind::TextTooLong));
        }
        self.chars += count;
        Ok(Word::Text(text))
    }

    // Inside the root alone; outside of it a CDATA section is misplaced.
    fn take_cdata(&mut self, text: Text) -> Result<Word, Refusal>
        requires fit { IsFit self.old }
        requires inside { spec.is_inside (names_of self.old) ≡ true }
        ensures ok { IfOk result (TakesFitting self.old (body.CData text) self.new) }
        ensures err { IfErr result (Refuses (unfit_at self.old (body.CData text)) self.old self.new) }
        ensures limits { self.new.limits ≡ self.old.limits }
    {
        if !self.cdata {
            return self.take_text(text);
        }
        if char_count(&text) as u64 > self.limits.text {
            return Err(Refusal::Xml(XmlKind::TextTooLong));
        }
        self.chars = 0;
        Ok(Word::CData(text))
    }

    fn take_start(
        &mut self,
        name: Text,
        attrs: List<RawAttr>,
        empty: bool,
        spare: &mut Spare,
    ) -> Result<Word, Refusal>
        requires { IsFit self.old }
        ensures ok { IfOk result (TakesFitting self.old (body.Start name attrs empty) self.new) }
        ensures err { IfErr result (Refuses (unfit_at self.old (body.Start name attrs empty)) self.old self.new) }
        ensures limits { self.new.limits ≡ self.old.limits }
    {
        self.names.push(name.as_str())?;
        let tag = match self.scopes.enter(name, attrs, spare) {
            Ok(tag) => tag,
            Err(fault) => {
                self.names.pop();
                return Err(Refusal::from(fault));
            }
        };
        if self.is_overfull() {
            self.leave();
            return Err(Refusal::Xml(XmlKind::TooDeep));
        }
        self.rooted = true;
        self.chars = 0;
        if empty {
            self.leave();
            return Ok(Word::Empty(tag));
        }
        Ok(Word::Open(tag))
    }

    // More elements are open than may be.
    fn is_overfull(&self) -> bool
        ensures { result ≡ nat_lt self.now.limits.depth (length (names_of self.now)) }
    {
        self.names.len() > self.limits.depth as usize
    }

    #[inline]
    fn leave(&mut self)
        requires names { 0 < length self.old.names }
        requires scopes { 0 < length self.old.scopes }
        ensures { IsLeft self.old self.new }
    {
        self.names.pop();
        self.scopes.leave();
    }

    fn take_end(&mut self, name: &Text) -> Result<Word, Refusal>
        requires { IsFit self.old }
        ensures ok { IfOk result (TakesFitting self.old (body.End name.now) self.new) }
        ensures err { IfErr result (Refuses (unfit_at self.old (body.End name.now)) self.old self.new) }
        ensures limits { self.new.limits ≡ self.old.limits }
    {
        if !self.is_innermost(name) {
            return Err(Refusal::Xml(XmlKind::Mismatch));
        }
        self.close();
        Ok(Word::Close)
    }

    /// Takes the end tag of the innermost open element.
    #[inline]
    pub fn close(&mut self)
        requires fit { IsFit self.old }
        requires inside { spec.is_inside (names_of self.old) ≡ true }
        ensures closed { IsClosed self.old self.new }
        ensures limits { self.new.limits ≡ self.old.limits }
    {
        self.leave();
        self.chars = 0;
    }

    /// The name of the innermost open element as written.
    #[inline]
    pub fn innermost(&self) -> Option<&str>
        ensures { MatchOption result (names_of self.now ≡ []) (λ name. (others : List (List ℕ)) × (names_of self.now ≡ chars name.now ∷ others)) }
    {
        self.names.last()
    }

    // The innermost open element has this name.
    fn is_innermost(&self, name: &Text) -> bool
        ensures { result ≡ spec.is_innermost name.now (names_of self.now) }
    {
        match self.names.last() {
            Some(innermost) => innermost == name.as_str(),
            None => false,
        }
    }
}

fn char_count(text: &Text) -> usize
    ensures count { result ≡ length text.now }
    ensures small { result < 2 ^ 63 }
{
    let text = text.as_str();
    if is_ascii(text.as_bytes()) {
        // Each byte is a character; to find that out takes less than to count characters.
        text.len()
    } else {
        text.chars().count()
    }
}

fn is_ascii(bytes: &[u8]) -> bool
    ensures { result ≡ true → IsAscii bytes.now }
{
    // No byte ends the loop, so that many bytes are compared at once.
    let mut ascii = true;
    for b in bytes {
        ascii = ascii & (*b < 0x80);
    }
    ascii
}
