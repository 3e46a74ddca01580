//! How often names came in a list: the first few are compared, the others are found by a map.

ghost use Rattle.std.specs.Prelude.{◌≡◌, ◌+◌, ◌-◌, ◌<◌, ◌^◌, ◌++◌, ◌∷◌, [], ℕ, true, List as Items, min, OnOk, OnErr, IfOk, MatchOption, encode_utf8_all, length, slice_index_or as get_or, slice_set};
ghost use Rattle.std.specs.BTreeMap.{btree_map_len, IsUnchanged};
ghost use Rattle.std.specs.Option.{option_copied};
ghost use Rattle.node_stack.specs.Few.{few_times, few_within, is_named, is_within};
ghost use Rattle.node_stack.specs.declared.names.Named.{Named as CountedName};
ghost use Rattle.node_stack.specs.Times as spec;
ghost use Rattle.node_stack.specs.Times.{more, CountsText};
ghost use Rattle.node_stack.specs.Names.{again_of, elements_of, CountsName, SameNames};

use crate::spare::SpareNames;
use std::alloc::Global;
use std::collections::BTreeMap;
use stx_base::{Memory, Name, Text};

// So many names are compared before a map is made for others.
const FEW: usize = 8;

/// A name, and how often it came again after it first came.
#[derive(Drop)]
pub(crate) struct Named {
    pub uri: Text,
    pub local: Text,
    again: u64,
}

/// The other elements of one namespace.
#[derive(Drop)]
pub(crate) struct Namespace {
    elements: u64,
    /// How often each local part came again after it first came.
    names: BTreeMap<String, u64>,
}

/// How often names came. Each is kept once.
#[derive(Drop)]
pub(crate) struct Names {
    alloc: Global,
    /// The first names that came, but not many.
    few: Vec<Named>,
    /// The others.
    many: BTreeMap<String, Namespace>,
}

impl Names {
    ghost use Rattle.node_stack.specs.Few.{elements_among, names_among, times_among, CountsOne, SameCounts};

    /// None yet. Allocates nothing.
    #[inline(always)]
    pub fn new(alloc: Global) -> Names
        ensures times { (cs ds : Items ℕ) → times_among result cs ds ≡ 0 }
        ensures elements { (cs : Items ℕ) → elements_among result cs ≡ 0 }
        ensures names { names_among result ≡ 0 }
    {
        Names {
            alloc,
            few: Vec::new(alloc),
            many: BTreeMap::new(alloc),
        }
    }

    /// Counts a name. After a refusal nothing has changed.
    pub fn count(&mut self, name: &Name, spare: &mut SpareNames) -> Result<(), Memory>
        ensures ok { OnOk result (CountsOne self.old self.new (encode_utf8_all name.now.uri) (encode_utf8_all name.now.local)) }
        ensures err { OnErr result (SameCounts self.old self.new) }
    {
        match place(&self.few, name) {
            Some(at) => {
                count_again(&mut self.few, at);
                Ok(())
            }
            None if self.few.len() < FEW && self.many.is_empty() => self.append(name, spare),
            None => count_name(self.alloc, &mut self.many, name),
        }
    }

    /// Counts one of the first names, which is new. After a refusal nothing has changed.
    fn append(&mut self, name: &Name, spare: &mut SpareNames) -> Result<(), Memory>
        requires others { btree_map_len self.old.many ≡ 0 }
        requires none { few_times self.old.few.items (encode_utf8_all name.now.uri) (encode_utf8_all name.now.local) ≡ 0 }
        ensures ok { OnOk result (CountsOne self.old self.new (encode_utf8_all name.now.uri) (encode_utf8_all name.now.local)) }
        ensures err { OnErr result (SameCounts self.old self.new) }
    {
        take_room(&mut self.few, spare);
        let named = spare.named(name)?;
        self.few.push(named)?;
        Ok(())
    }

    /// How often a name came, as far as 64 bits go.
    pub fn times(&self, name: &Name) -> u64
        ensures { result ≡ min (2 ^ 64 - 1) (times_among self.now (encode_utf8_all name.now.uri) (encode_utf8_all name.now.local)) }
    {
        few_times(&self.few, name).saturating_add(times_named(&self.many, name))
    }

    /// How many elements of a namespace came, as far as 64 bits go.
    pub fn within(&self, uri: &Text) -> u64
        ensures { result ≡ min (2 ^ 64 - 1) (elements_among self.now (encode_utf8_all uri.now)) }
    {
        few_within(&self.few, uri).saturating_add(elements_within(&self.many, uri))
    }

    /// Gives the list of the first few back.
    pub fn into_few(self) -> Vec<Named> {
        let Names {
            alloc: _,
            few,
            many: _,
        } = self;
        few
    }
}

impl Named {
    /// A name that came once.
    pub fn new(uri: Text, local: Text) -> Named
        ensures uri { result.uri ≡ uri }
        ensures local { result.local ≡ local }
        ensures again { result.again ≡ 0 }
    {
        Named {
            uri,
            local,
            again: 0,
        }
    }

    fn has(&self, name: &Name) -> bool
        ensures { result ≡ is_named (encode_utf8_all name.now.uri) (encode_utf8_all name.now.local) self.now }
    {
        self.uri.as_str() == name.uri.as_str() && self.local.as_str() == name.local.as_str()
    }

    fn is_within(&self, uri: &Text) -> bool
        ensures { result ≡ is_within (encode_utf8_all uri.now) self.now }
    {
        self.uri.as_str() == uri.as_str()
    }
}

/// Many lists have no names, so a list takes its room with the first of them.
fn take_room(few: &mut Vec<Named>, spare: &mut SpareNames)
    ensures { few.new.items ≡ few.old.items }
{
    if few.is_empty() {
        *few = spare.list();
    }
}

fn few_times(few: &[Named], name: &Name) -> u64
    ensures { result ≡ min (2 ^ 64 - 1) (few_times few.now (encode_utf8_all name.now.uri) (encode_utf8_all name.now.local)) }
{
    let mut times: u64 = 0;
    for named in few {
        if named.has(name) {
            times = times.saturating_add(named.again).saturating_add(1);
        }
    }
    times
}

fn few_within(few: &[Named], uri: &Text) -> u64
    ensures { result ≡ min (2 ^ 64 - 1) (few_within few.now (encode_utf8_all uri.now)) }
{
    let mut elements: u64 = 0;
    for named in few {
        if named.is_within(uri) {
            elements = elements.saturating_add(named.again).saturating_add(1);
        }
    }
    elements
}

/// Where a name stands among others.
fn place(few: &[Named], name: &Name) -> Option<usize>
    ensures { MatchOption result (few_times few.now (encode_utf8_all name.now.uri) (encode_utf8_all name.now.local) ≡ 0) (λ at. (at < length few.now) × ((d : CountedName) → is_named (encode_utf8_all name.now.uri) (encode_utf8_all name.now.local) (get_or few.now at d) ≡ true)) }
{
    for (at, named) in few.iter().enumerate() {
        if named.has(name) {
            return Some(at);
        }
    }
    None
}

/// Counts the name at a place.
fn count_again(few: &mut [Named], at: usize)
    requires { at < length few.old }
    ensures { (d : CountedName) → let n = get_or few.old at d in few.new ≡ slice_set few.old at (record n { again = more n.again }) }
{
    let named = &mut few[at];
    named.again = named.again.saturating_add(1);
}

/// How often something came that came again so often.
pub(crate) fn times(again: Option<&u64>) -> u64
    ensures { result ≡ min (2 ^ 64 - 1) (spec.times (option_copied again.entry)) }
{
    match again {
        Some(again) => again.saturating_add(1),
        None => 0,
    }
}

fn times_named(namespaces: &BTreeMap<String, Namespace>, name: &Name) -> u64
    ensures { result ≡ min (2 ^ 64 - 1) (spec.times (again_of namespaces.now (encode_utf8_all name.now.uri) (encode_utf8_all name.now.local))) }
{
    match namespaces.get(name.uri.as_str()) {
        Some(namespace) => times(namespace.names.get(name.local.as_str())),
        None => 0,
    }
}

fn elements_within(namespaces: &BTreeMap<String, Namespace>, uri: &Text) -> u64
    ensures { result ≡ elements_of namespaces.now (encode_utf8_all uri.now) }
{
    match namespaces.get(uri.as_str()) {
        Some(namespace) => namespace.elements,
        None => 0,
    }
}

/// Counts a name. After a refusal nothing has changed.
fn count_name(
    alloc: Global,
    namespaces: &mut BTreeMap<String, Namespace>,
    name: &Name,
) -> Result<(), Memory>
    ensures ok { OnOk result (CountsName namespaces.old namespaces.new (encode_utf8_all name.now.uri) (encode_utf8_all name.now.local)) }
    ensures err { OnErr result (SameNames namespaces.old namespaces.new) }
{
    if let Some(namespace) = namespaces.get_mut(name.uri.as_str()) {
        return count_local(alloc, namespace, &name.local);
    }
    let mut namespace = Namespace {
        elements: 0,
        names: BTreeMap::new(alloc),
    };
    count_local(alloc, &mut namespace, &name.local)?;
    let uri = String::from_str(alloc, name.uri.as_str())?;
    namespaces.insert(uri, namespace)?;
    Ok(())
}

fn count_local(alloc: Global, namespace: &mut Namespace, local: &Text) -> Result<(), Memory>
    ensures elements { OnOk result (namespace.new.elements ≡ more namespace.old.elements) }
    ensures names { OnOk result (CountsText namespace.old.names namespace.new.names (encode_utf8_all local.now)) }
    ensures same_elements { OnErr result (namespace.new.elements ≡ namespace.old.elements) }
    ensures same_names { OnErr result (IsUnchanged namespace.old.names namespace.new.names) }
{
    count_text(alloc, &mut namespace.names, local)?;
    namespace.elements = namespace.elements.saturating_add(1);
    Ok(())
}

pub(crate) fn count_text(
    alloc: Global,
    counts: &mut BTreeMap<String, u64>,
    text: &Text,
) -> Result<(), Memory>
    ensures ok { OnOk result (CountsText counts.old counts.new (encode_utf8_all text.now)) }
    ensures err { OnErr result (IsUnchanged counts.old counts.new) }
{
    if let Some(again) = counts.get_mut(text.as_str()) {
        *again = again.saturating_add(1);
        return Ok(());
    }
    let text = String::from_str(alloc, text.as_str())?;
    counts.insert(text, 0)?;
    Ok(())
}
