//! The attributes of a start tag that is held back.

ghost use Rattle.std.specs.Prelude.{◌≡◌, ◌<◌, ◌≤◌, true, ◌++◌, ◌∷◌, [], ℕ, false, IfOk, MatchOption, OnOk, OnErr, drop, encode_utf8_all, length, map, slice_get, slice_set, string_bytes, vec_len};
ghost use Rattle.std.specs.List.{list_any};
ghost use Rattle.std.specs.Option.{option_copied};
ghost use Rattle.stx_base.specs.declared.name.Attr.{Attr};
ghost use Rattle.result_writer.specs.Attributes.{place_of, value_of, IsFirst};
ghost use Rattle.result_writer.specs.Target.{same_name, with_attribute, AreDistinct};

use crate::words::same_name;
use std::alloc::Global;
use std::collections::BTreeMap;
use std::marker::Model;
use std::mem;
use stx_base::{Attr, Copied, List, Memory, Name, Spare, Text};

// Up to so many attributes it takes less time to compare each than to look a name up.
const FEW: usize = 16;

/// Attributes in the order in which they came. Those behind the first few are found by their names.
#[derive(Debug, Drop)]
pub struct Attributes {
    alloc: Global,
    list: List<Attr>,
    /// Where each attribute behind the first few stands, by its URI and its local part.
    places: BTreeMap<(String, String), usize>,
}

impl Model for Attributes {
    ghost use Rattle.std.specs.Prelude.{List};
    ghost use Rattle.stx_base.specs.declared.name.Attr.{Attr};

    ghost Value = { List Attr };

    ghost use Rattle.result_writer.specs.Attributes.{IsIndexed};

    ghost view = { λ attributes. attributes.list };

    ghost invariant = { IsIndexed };
}

impl Attributes {
    /// Allocates nothing.
    pub fn new(alloc: Global) -> Attributes
        ensures { result ≡ [] }
    {
        Attributes {
            alloc,
            list: List::new(alloc),
            places: BTreeMap::new(alloc),
        }
    }

    pub fn as_slice(&self) -> &[Attr]
        ensures { result.now ≡ self.now }
    {
        self.list.as_slice()
    }

    /// Gives an attribute its value: in its place where there is one of the name, else behind the others. After a refusal
    /// all is unchanged.
    pub fn set(&mut self, name: Name, value: Text) -> Result<(), Memory>
        ensures ok { OnOk result (self.new ≡ with_attribute self.old name value) }
        ensures err { OnErr result (self.new ≡ self.old) }
    {
        match self.place(&name)? {
            Some(at) => {
                self.replace(at, value);
                Ok(())
            }
            None => self.append(Attr { name, value }),
        }
    }

    /// The value of the attribute of the name.
    pub fn value(&self, name: &Name) -> Result<Option<&Text>, Memory>
        ensures { IfOk result (λ value. option_copied value ≡ value_of self.now name.now) }
    {
        match self.place(name)? {
            None => Ok(None),
            Some(at) => Ok(Some(&self.list.as_slice()[at].value)),
        }
    }

    /// Whether all attributes of a list can be taken as they are: there are none yet, and they are few, each of another name.
    pub fn can_fill(&self, attrs: &[Attr]) -> bool
        ensures none { result ≡ true → self.now ≡ [] }
        ensures few { result ≡ true → length attrs.now ≤ 16 }
        ensures distinct { result ≡ true → AreDistinct attrs.now }
    {
        self.list.is_empty() && attrs.len() <= FEW && are_distinct(attrs)
    }

    /// Takes all attributes of a list as they are. Allocates nothing.
    pub fn fill(&mut self, list: List<Attr>)
        requires none { self.old ≡ [] }
        requires few { length list ≤ 16 }
        ensures { self.new ≡ list }
    {
        self.list = list;
    }

    /// Moves all attributes out. Allocates nothing.
    pub fn take(&mut self) -> List<Attr>
        ensures taken { result ≡ self.old }
        ensures left { self.new ≡ [] }
    {
        self.places.clear();
        mem::replace(&mut self.list, List::new(self.alloc))
    }

    /// Drops all attributes. Allocates nothing.
    pub fn clear(&mut self)
        ensures { self.new ≡ [] }
    {
        if self.list.len() > FEW {
            self.places.clear();
        }
        self.list.truncate(0);
    }

    /// Drops all attributes, but for their texts.
    #[inline(always)]
    pub fn give_back(&mut self, spare: &mut Spare)
        ensures { self.new ≡ [] }
    {
        if self.list.is_empty() {
            return;
        }
        if self.list.len() > FEW {
            self.places.clear();
        }
        spare.keep_attrs(mem::replace(&mut self.list, List::new(self.alloc)));
    }

    /// Where the first attribute of the name stands.
    fn place(&self, name: &Name) -> Result<Option<usize>, Memory>
        ensures { IfOk result (λ place. MatchOption place (list_any (λ a. same_name a.name name.now) self.now ≡ false) (IsFirst self.now name.now)) }
    {
        for (at, attr) in self.list.as_slice().iter().enumerate() {
            if at == FEW {
                return self.place_behind(name);
            }
            if same_name(&attr.name, name) {
                return Ok(Some(at));
            }
        }
        Ok(None)
    }

    /// The same among those behind the first few.
    fn place_behind(&self, name: &Name) -> Result<Option<usize>, Memory>
        ensures { IfOk result (λ place. place ≡ place_of 16 (drop 16 (map (λ a. a.name) self.now)) (encode_utf8_all name.now.uri) (encode_utf8_all name.now.local)) }
    {
        let key = key_of(self.alloc, name)?;
        Ok(self.places.get(&key).copied())
    }

    /// Gives the attribute at a place its value. Allocates nothing.
    fn replace(&mut self, at: usize, value: Text)
        requires { at < length self.old }
        ensures { (a : Attr) → slice_get self.old at ≡ Some a → self.new ≡ slice_set self.old at (record a { value = value }) }
    {
        let list = mem::replace(&mut self.list, List::new(self.alloc));
        let mut attrs = list.into_vec();
        set_value(&mut attrs, at, value);
        self.list = List::from_vec(attrs);
    }

    /// Appends an attribute of another name. After a refusal all is unchanged.
    fn append(&mut self, attr: Attr) -> Result<(), Memory>
        requires { list_any (λ a. same_name a.name attr.name) self.old ≡ false }
        ensures ok { OnOk result (self.new ≡ self.old ++ attr ∷ []) }
        ensures err { OnErr result (self.new ≡ self.old) }
    {
        let place = self.list.len();
        if place < FEW {
            self.list.push(attr)?;
            return Ok(());
        }
        let key = key_of(self.alloc, &attr.name)?;
        self.list.push(attr)?;
        match self.places.insert(key, place) {
            Ok(_) => Ok(()),
            Err(_) => {
                self.list.truncate(place);
                Err(Memory)
            }
        }
    }
}

/// Leaves the name where it is.
fn set_value(attrs: &mut Vec<Attr>, at: usize, value: Text)
    requires { at < vec_len attrs.old }
    ensures { (a : Attr) → slice_get attrs.old.items at ≡ Some a → attrs.new.items ≡ slice_set attrs.old.items at (record a { value = value }) }
{
    attrs[at].value = value;
}

/// Whether no two attributes have one name.
fn are_distinct(attrs: &[Attr]) -> bool
    ensures { result ≡ true → AreDistinct attrs.now }
{
    let mut rest = attrs;
    while let Some((attr, others)) = rest.split_first() {
        if has_name(others, &attr.name) {
            return false;
        }
        rest = others;
    }
    true
}

fn has_name(attrs: &[Attr], name: &Name) -> bool
    ensures { result ≡ list_any (λ a. same_name a.name name.now) attrs.now }
{
    attrs.iter().any(|attr| same_name(&attr.name, name))
}

fn key_of(alloc: Global, name: &Name) -> Result<(String, String), Memory>
    ensures uri { IfOk result (λ key. string_bytes key.0 ≡ encode_utf8_all name.now.uri) }
    ensures local { IfOk result (λ key. string_bytes key.1 ≡ encode_utf8_all name.now.local) }
{
    let uri = String::from_str(alloc, name.uri.as_str())?;
    let local = String::from_str(alloc, name.local.as_str())?;
    Ok((uri, local))
}
