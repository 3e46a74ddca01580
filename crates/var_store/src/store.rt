ghost use Rattle.std.specs.Prelude.{◌≡◌, ◌-◌, ◌^◌, ◌<◌, [], ◌∷◌, ◌++◌, length, replicate, map, IfOk, IsSome, OnOk, OnErr, None, Some, slice_get};
ghost use Rattle.std.specs.Option.{option_copied};
ghost use Rattle.var_store.specs.Copies.{below, copies_of, newest, on_group, on_newest, taken_off};
ghost use Rattle.var_store.specs.Variables.{bound, slot_of, value_of, with_value};

use crate::bound::Bound;
use crate::copies::Copies;
use crate::fault::StoreFault;
use std::alloc::Global;
use std::marker::Model;
use stx_base::{List, Memory, Name};
use stxpath_values::Atom;

/// The variables of all groups. Each group, named by its number from 0, has one copy of its variables or more, one laid
/// over another. Contracts see the list of the groups: of each its copies, the newest first, and of each copy its
/// variables in the order of their declaration. Names are compared by URI and local part.
#[derive(Debug, Drop)]
pub struct Store {
    alloc: Global,
    groups: Vec<Copies>,
}

impl Model for Store {
    ghost use Rattle.std.specs.Prelude.{List};
    ghost use Rattle.var_store.specs.declared.bound.Bound.{Bound};

    ghost Value = { List (List (List Bound)) };

    ghost view = { λ store. store.groups.items };
}

impl Store {
    /// So many groups, each with one copy that has no variables.
    pub fn new(alloc: Global, groups: u32) -> Result<Store, Memory>
        ensures { IfOk result (λ store. store ≡ replicate groups ([] ∷ [])) }
    {
        let mut copies = Vec::with_capacity(alloc, groups as usize)?;
        'groups: for _group in 0..groups {
            copies.push(Copies::new(alloc))?;
        }
        Ok(Store {
            alloc,
            groups: copies,
        })
    }

    /// Lays a copy without variables over those of a group. After a refusal nothing has changed.
    pub fn enter_group(&mut self, group: u32) -> Result<(), Memory>
        requires { group < length self.old }
        ensures ok { OnOk result (self.new ≡ on_group (λ copies. [] ∷ copies) group self.old) }
        ensures err { OnErr result (self.new ≡ self.old) }
    {
        let copies = &mut self.groups[group as usize];
        copies.lay(self.alloc)
    }

    /// Takes the newest copy of a group off, which is laid over another. Allocates nothing.
    pub fn leave_group(&mut self, group: u32)
        requires group { group < length self.old }
        requires laid { 1 < length (copies_of self.old group) }
        ensures { self.new ≡ on_group taken_off group self.old }
    {
        let copies = &mut self.groups[group as usize];
        copies.take_off();
    }

    /// Adds a variable to the newest copy of a group. After a refusal nothing has changed.
    pub fn declare(&mut self, group: u32, name: Name, value: List<Atom>) -> Result<(), Memory>
        requires group { group < length self.old }
        requires new { slot_of name (newest (copies_of self.old group)) ≡ None }
        requires room { length (newest (copies_of self.old group)) < 2 ^ 32 - 1 }
        ensures ok { OnOk result (self.new ≡ on_group (on_newest (λ bounds. bounds ++ bound name value ∷ [])) group self.old) }
        ensures err { OnErr result (self.new ≡ self.old) }
    {
        let copies = &mut self.groups[group as usize];
        copies.declare(Bound { name, value })
    }

    /// The value of a variable in the newest copy of a group. Allocates nothing.
    pub fn get(&self, group: u32, name: &Name) -> Option<&List<Atom>>
        requires { group < length self.now }
        ensures { option_copied result ≡ value_of name.now (newest (copies_of self.now group)) }
    {
        let copies = &self.groups[group as usize];
        copies.newest().get(name)
    }

    /// The value of a variable in the copy below the newest one of a group. Allocates nothing.
    pub fn older(&self, group: u32, name: &Name) -> Option<&List<Atom>>
        requires { group < length self.now }
        ensures { option_copied result ≡ value_of name.now (below (copies_of self.now group)) }
    {
        let copies = &self.groups[group as usize];
        let below = copies.below()?;
        below.get(name)
    }

    /// Gives a variable another value in the newest copy of a group. It is refused exactly where that copy lacks the name,
    /// and then nothing has changed. Allocates nothing.
    pub fn assign(&mut self, group: u32, name: &Name, value: List<Atom>) -> Result<(), StoreFault>
        requires { group < length self.old }
        ensures ok { OnOk result (self.new ≡ on_group (on_newest (with_value name.now value)) group self.old) }
        ensures there { OnOk result (IsSome (slot_of name.now (newest (copies_of self.old group)))) }
        ensures err { OnErr result (self.new ≡ self.old) }
        ensures absent { OnErr result (slot_of name.now (newest (copies_of self.old group)) ≡ None) }
    {
        let copies = &mut self.groups[group as usize];
        copies.assign(name, value)
    }

    /// The place of a name among the declarations of a group's newest copy. Allocates nothing.
    pub fn slot(&self, group: u32, name: &Name) -> Option<u32>
        requires { group < length self.now }
        ensures { result ≡ slot_of name.now (newest (copies_of self.now group)) }
    {
        let copies = &self.groups[group as usize];
        copies.newest().slot(name)
    }

    /// The value of the variable at a place of a group's newest copy. Allocates nothing.
    pub fn at(&self, group: u32, slot: u32) -> &List<Atom>
        requires group { group < length self.now }
        requires slot { slot < length (newest (copies_of self.now group)) }
        ensures { slice_get (map (λ b. b.value) (newest (copies_of self.now group))) slot ≡ Some result.now }
    {
        let copies = &self.groups[group as usize];
        copies.newest().at(slot)
    }
}
