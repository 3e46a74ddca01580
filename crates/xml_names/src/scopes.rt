ghost use Rattle.std.specs.Prelude.{◌≡◌, ◌<◌, ◌-◌, ◌++◌, ◌∷◌, [], None, true, false, not, ◌&&◌, codes, IfOk, IfErr, MatchOption, OnOk, OnErr, length, map, take, unwrap_or};
ghost use Rattle.std.specs.List.{list_all};
ghost use Rattle.std.specs.Option.{option_map};
ghost use Rattle.std.specs.Str.{chars};
ghost use Rattle.xml_names.specs.QName.{is_qname};
ghost use Rattle.xml_names.specs.Scope as scope;
ghost use Rattle.xml_names.specs.Scope.{bound, same};
ghost use Rattle.xml_names.specs.Tag as spec;
ghost use Rattle.xml_names.specs.inside.Plain as plain;
ghost use Rattle.xml_names.specs.Tag.{declarations, name_fault, resolved, scope_fault, IsCause};

use crate::declaration::{XML_URI, declarations, declared_prefix, has_bad_binding};
use crate::in_force::InForce;
use crate::parts::{cut, front, is_qname, parts_of};
use crate::resolved::{NameFault, Resolved};
use crate::twins::{has_expanded_twins, has_written_twins};
use crate::words::{is_empty, is_word};
use std::alloc::Global;
use std::marker::Model;
use stx_base::{Attr, Binding, List, Memory, Name, Spare, Text, XmlKind, is_ncname};
use xml_tokens::RawAttr;

/// The elements from the document's root to where it is read, with what each of them declares.
#[derive(Debug, Drop)]
pub struct Scopes {
    alloc: Global,
    in_force: InForce,
    /// How many of these each element declares, the innermost last.
    counts: List<usize>,
}

impl Model for Scopes {
    ghost use Rattle.std.specs.Prelude.{List};
    ghost use Rattle.stx_base.specs.declared.name.Binding.{Binding};

    ghost Value = { List (List Binding) };

    ghost use Rattle.xml_names.specs.inside.Scopes.{path_of, IsCounted};

    ghost view = { path_of };

    ghost invariant = { IsCounted };
}

impl Scopes {
    /// No element is entered. Allocates nothing.
    pub fn new(alloc: Global) -> Scopes
        ensures { result ≡ [] }
    {
        Scopes {
            alloc,
            in_force: InForce::new(alloc),
            counts: List::new(alloc),
        }
    }

    /// How many elements are entered.
    pub fn depth(&self) -> usize
        ensures { result ≡ length self.now }
    {
        self.counts.len()
    }

    /// Enters an element by its start tag. After a refusal the scopes are unchanged, and the attributes are dropped.
    #[inline(always)]
    pub fn enter(
        &mut self,
        name: Text,
        attrs: List<RawAttr>,
        spare: &mut Spare,
    ) -> Result<Resolved, NameFault>
        // It is taken only where it has no fault.
        ensures taken { OnOk result (name_fault self.old name attrs ≡ None) }
        ensures fault { IfErr result (IsCause (name_fault self.old name attrs)) }
        ensures value { IfOk result (λ tag. tag ≡ resolved self.old name attrs) }
        ensures ok { OnOk result (self.new ≡ self.old ++ declarations attrs ∷ []) }
        ensures err { OnErr result (self.new ≡ self.old) }
    {
        if is_plain(&name, attrs.as_slice()) {
            self.enter_plain(name, attrs, spare)
        } else {
            self.enter_judged(name, attrs, spare)
        }
    }

    /// Most tags declare nothing and have no prefix, so that nothing has to be looked up in them but the default namespace.
    #[inline(always)]
    fn enter_plain(
        &mut self,
        name: Text,
        attrs: List<RawAttr>,
        spare: &mut Spare,
    ) -> Result<Resolved, NameFault>
        requires { plain.is_plain name attrs ≡ true }
        ensures taken { OnOk result (name_fault self.old name attrs ≡ None) }
        ensures fault { IfErr result (IsCause (name_fault self.old name attrs)) }
        ensures value { IfOk result (λ tag. tag ≡ resolved self.old name attrs) }
        ensures ok { OnOk result (self.new ≡ self.old ++ declarations attrs ∷ []) }
        ensures err { OnErr result (self.new ≡ self.old) }
    {
        if has_written_twins(self.alloc, attrs.as_slice())? {
            return Err(NameFault::Xml(XmlKind::DuplicateAttribute));
        }
        let name = self.plain_name(name, spare)?;
        let attrs = plain_attributes(self.alloc, attrs, spare)?;
        let decls = List::new(self.alloc);
        self.declare_nothing()?;
        Ok(Resolved { name, attrs, decls })
    }

    /// Asks a tag for its faults one by one.
    #[inline(never)]
    fn enter_judged(
        &mut self,
        name: Text,
        attrs: List<RawAttr>,
        spare: &mut Spare,
    ) -> Result<Resolved, NameFault>
        ensures taken { OnOk result (name_fault self.old name attrs ≡ None) }
        ensures fault { IfErr result (IsCause (name_fault self.old name attrs)) }
        ensures value { IfOk result (λ tag. tag ≡ resolved self.old name attrs) }
        ensures ok { OnOk result (self.new ≡ self.old ++ declarations attrs ∷ []) }
        ensures err { OnErr result (self.new ≡ self.old) }
    {
        if has_bad_name(&name, attrs.as_slice()) {
            return Err(NameFault::Xml(XmlKind::BadName));
        }
        if has_bad_binding(attrs.as_slice()) {
            return Err(NameFault::Xml(XmlKind::BadBinding));
        }
        let decls = declarations(self.alloc, attrs.as_slice())?;
        self.declare(&decls)?;
        match self.resolve(name, attrs, decls, spare) {
            Ok(tag) => Ok(tag),
            Err(fault) => {
                self.leave();
                Err(fault)
            }
        }
    }

    /// Leaves the innermost element. Allocates nothing.
    pub fn leave(&mut self)
        requires { 0 < length self.old }
        ensures { self.new ≡ take (length self.old - 1) self.old }
    {
        if let Some(count) = self.counts.pop() {
            let len = self.in_force.len() - count;
            self.in_force.truncate(len);
        }
    }

    /// The URI that a prefix is bound to now, and the empty prefix that of the default namespace. Allocates nothing.
    pub fn lookup(&self, prefix: &Text) -> Option<&str>
        ensures { option_map (λ uri. chars uri.now) result ≡ bound self.now prefix.now }
    {
        self.uri(prefix.as_str())
    }

    fn uri(&self, prefix: &str) -> Option<&str>
        ensures { option_map (λ uri. chars uri.now) result ≡ bound self.now (chars prefix.now) }
    {
        if is_word(prefix, "xml") {
            return Some(XML_URI);
        }
        let uri = self.in_force.uri(prefix)?.as_str();
        if is_empty(uri) {
            // It takes the default namespace away.
            None
        } else {
            Some(uri)
        }
    }

    /// Enters an element that declares these. After a refusal all is unchanged.
    fn declare(&mut self, decls: &List<Binding>) -> Result<(), Memory>
        ensures ok { OnOk result (self.new ≡ self.old ++ decls.now ∷ []) }
        ensures err { OnErr result (self.new ≡ self.old) }
    {
        let len = self.in_force.len();
        self.in_force.extend(decls.as_slice())?;
        match self.counts.push(decls.len()) {
            Ok(()) => Ok(()),
            Err(_) => {
                self.in_force.truncate(len);
                Err(Memory)
            }
        }
    }

    /// Enters an element that declares nothing. After a refusal all is unchanged.
    #[inline(always)]
    fn declare_nothing(&mut self) -> Result<(), Memory>
        ensures ok { OnOk result (self.new ≡ self.old ++ [] ∷ []) }
        ensures err { OnErr result (self.new ≡ self.old) }
    {
        self.counts.push(0)?;
        Ok(())
    }

    /// What the tag of the innermost element says.
    fn resolve(
        &self,
        name: Text,
        attrs: List<RawAttr>,
        decls: List<Binding>,
        spare: &mut Spare,
    ) -> Result<Resolved, NameFault>
        ensures taken { OnOk result (scope_fault self.now name attrs ≡ None) }
        ensures fault { IfErr result (IsCause (scope_fault self.now name attrs)) }
        ensures value { IfOk result (λ tag. tag ≡ spec.said self.now name attrs decls) }
    {
        if !self.are_prefixes_bound(name.as_str(), attrs.as_slice()) {
            return Err(NameFault::Xml(XmlKind::UndeclaredPrefix));
        }
        self.expand(name, attrs, decls, spare)
    }

    /// The same of a tag whose prefixes are bound.
    #[inline(always)]
    fn expand(
        &self,
        name: Text,
        attrs: List<RawAttr>,
        decls: List<Binding>,
        spare: &mut Spare,
    ) -> Result<Resolved, NameFault>
        requires { spec.has_undeclared_prefix self.now name attrs ≡ false }
        ensures taken { OnOk result (scope_fault self.now name attrs ≡ None) }
        ensures fault { IfErr result (IsCause (scope_fault self.now name attrs)) }
        ensures value { IfOk result (λ tag. tag ≡ spec.said self.now name attrs decls) }
    {
        if has_written_twins(self.alloc, attrs.as_slice())? {
            return Err(NameFault::Xml(XmlKind::DuplicateAttribute));
        }
        let attrs = self.attributes(attrs, spare)?;
        if has_expanded_twins(self.alloc, attrs.as_slice())? {
            return Err(NameFault::Xml(XmlKind::DuplicateAttribute));
        }
        let name = self.element_name(name, spare)?;
        Ok(Resolved { name, attrs, decls })
    }

    #[inline(always)]
    fn is_prefix_bound(&self, prefix: &str) -> bool
        ensures { result ≡ spec.is_prefix_bound self.now (chars prefix.now) }
    {
        is_empty(prefix) || self.uri(prefix).is_some()
    }

    #[inline(always)]
    fn is_element_bound(&self, prefix: &str) -> bool
        ensures { result ≡ (not (same (chars prefix.now) (codes "xmlns")) && spec.is_prefix_bound self.now (chars prefix.now)) }
    {
        !is_word(prefix, "xmlns") && self.is_prefix_bound(prefix)
    }

    fn is_attribute_bound(&self, name: &str) -> bool
        ensures { result ≡ spec.is_attribute_bound self.now (chars name.now) }
    {
        declared_prefix(name).is_some() || self.is_prefix_bound(parts_of(name).prefix)
    }

    fn are_attributes_bound(&self, attrs: &[RawAttr]) -> bool
        ensures { result ≡ list_all (λ a. spec.is_attribute_bound self.now a.name) attrs.now }
    {
        attrs
            .iter()
            .all(|attr| self.is_attribute_bound(attr.name.as_str()))
    }

    fn are_prefixes_bound(&self, name: &str, attrs: &[RawAttr]) -> bool
        ensures { result ≡ not (spec.has_undeclared_prefix self.now (chars name.now) attrs.now) }
    {
        self.is_element_bound(parts_of(name).prefix) && self.are_attributes_bound(attrs)
    }

    /// The URI that a prefix is bound to, and the empty text where it isn't.
    fn bound_uri(&self, prefix: &str) -> &str
        ensures { chars result.now ≡ unwrap_or (bound self.now (chars prefix.now)) [] }
    {
        match self.uri(prefix) {
            Some(uri) => uri,
            None => "",
        }
    }

    /// Only the local part behind a prefix is copied.
    #[inline(always)]
    fn element_name(&self, name: Text, spare: &mut Spare) -> Result<Name, Memory>
        ensures { IfOk result (λ made. made ≡ scope.element_name self.now name) }
    {
        let Some(parts) = cut(name.as_str()) else {
            return self.plain_name(name, spare);
        };
        let uri = self.text(self.bound_uri(parts.prefix), spare)?;
        let local = self.text(parts.local, spare)?;
        let len = parts.prefix.len();
        let prefix = front(name, len);
        Ok(Name { uri, local, prefix })
    }

    /// The name of an element without prefix, which takes no copy.
    #[inline(always)]
    fn plain_name(&self, name: Text, spare: &mut Spare) -> Result<Name, Memory>
        ensures { IfOk result (λ made. made ≡ record { uri = unwrap_or (bound self.now []) []; local = name; prefix = [] }) }
    {
        let uri = self.text(self.bound_uri(""), spare)?;
        Ok(Name {
            uri,
            local: name,
            prefix: Text::new(self.alloc),
        })
    }

    fn attribute_uri(&self, prefix: &str) -> &str
        ensures { chars result.now ≡ scope.attribute_uri self.now (chars prefix.now) }
    {
        if is_empty(prefix) {
            ""
        } else {
            self.bound_uri(prefix)
        }
    }

    /// Only the local part behind a prefix is copied.
    #[inline(always)]
    fn attribute_name(&self, name: Text, spare: &mut Spare) -> Result<Name, Memory>
        ensures { IfOk result (λ made. made ≡ scope.attribute_name self.now name) }
    {
        let Some(parts) = cut(name.as_str()) else {
            return Ok(Name {
                uri: Text::new(self.alloc),
                local: name,
                prefix: Text::new(self.alloc),
            });
        };
        let uri = self.text(self.attribute_uri(parts.prefix), spare)?;
        let local = self.text(parts.local, spare)?;
        let len = parts.prefix.len();
        let prefix = front(name, len);
        Ok(Name { uri, local, prefix })
    }

    /// The same characters. Most names have neither URI nor prefix, and the empty text is made without a copy.
    #[inline(always)]
    fn text(&self, text: &str, spare: &mut Spare) -> Result<Text, Memory>
        ensures { IfOk result (λ made. made ≡ chars text.now) }
    {
        if is_empty(text) {
            Ok(Text::new(self.alloc))
        } else {
            spare.text(text)
        }
    }

    #[inline(always)]
    fn attributes(&self, attrs: List<RawAttr>, spare: &mut Spare) -> Result<List<Attr>, Memory>
        ensures { IfOk result (λ made. made ≡ spec.attributes self.now attrs) }
    {
        if attrs.is_empty() {
            return Ok(List::new(self.alloc));
        }
        let mut made = spare.attrs();
        for attr in attrs.into_vec() {
            let RawAttr { name, value } = attr;
            if declared_prefix(name.as_str()).is_none() {
                let name = self.attribute_name(name, spare)?;
                made.push(Attr { name, value })?;
            }
        }
        Ok(made)
    }
}

fn are_qnames(attrs: &[RawAttr]) -> bool
    ensures { result ≡ list_all (λ a. is_qname a.name) attrs.now }
{
    attrs.iter().all(|attr| is_qname(attr.name.as_str()))
}

fn has_bad_name(name: &Text, attrs: &[RawAttr]) -> bool
    ensures { result ≡ spec.has_bad_name name.now attrs.now }
{
    !(is_qname(name.as_str()) && are_qnames(attrs))
}

/// Whether a tag has no prefix and declares nothing.
fn is_plain(name: &Text, attrs: &[RawAttr]) -> bool
    ensures { result ≡ plain.is_plain name.now attrs.now }
{
    is_ncname(name.as_str()) && are_plain(attrs)
}

fn are_plain(attrs: &[RawAttr]) -> bool
    ensures { result ≡ list_all (λ a. plain.is_plain_name a.name) attrs.now }
{
    attrs.iter().all(|attr| is_plain_name(attr.name.as_str()))
}

fn is_plain_name(name: &str) -> bool
    ensures { result ≡ plain.is_plain_name (chars name.now) }
{
    is_ncname(name) && !is_word(name, "xmlns")
}

/// The attributes of a tag that has no prefix and declares nothing.
#[inline(always)]
fn plain_attributes(
    alloc: Global,
    attrs: List<RawAttr>,
    spare: &mut Spare,
) -> Result<List<Attr>, Memory>
    ensures { IfOk result (λ made. made ≡ map plain.plain_attribute attrs) }
{
    if attrs.is_empty() {
        return Ok(List::new(alloc));
    }
    let mut made = spare.attrs();
    for attr in attrs.into_vec() {
        let RawAttr { name, value } = attr;
        let name = Name {
            uri: Text::new(alloc),
            local: name,
            prefix: Text::new(alloc),
        };
        made.push(Attr { name, value })?;
    }
    Ok(made)
}
