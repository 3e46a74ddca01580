ghost use Rattle.std.specs.Prelude.{◌≡◌, ◌-◌, ◌^◌, ◌<◌, [], ◌∷◌, ◌++◌, length, map, IfSome, IsSome, OnOk, OnErr, None, Some, slice_get};
ghost use Rattle.std.specs.Option.{option_copied};
ghost use Rattle.var_store.specs.Variables.{is_called, slot_of, value_of, with_value};

use crate::bound::Bound;
use crate::fault::StoreFault;
use std::alloc::Global;
use std::marker::Model;
use stx_base::{List, Memory, Name};
use stxpath_values::Atom;

/// One copy of a group's variables, in the order of their declaration.
#[derive(Debug, Drop)]
pub struct Variables {
    bounds: Vec<Bound>,
}

impl Model for Variables {
    ghost use Rattle.std.specs.Prelude.{List, length, ◌<◌, ◌^◌};
    ghost use Rattle.var_store.specs.declared.bound.Bound.{Bound};

    ghost Value = { List Bound };

    ghost view = { λ variables. variables.bounds.items };

    ghost invariant = { λ variables. length variables.bounds.items < 2 ^ 32 };
}

impl Variables {
    /// None yet. Allocates nothing.
    pub fn new(alloc: Global) -> Variables
        ensures { result ≡ [] }
    {
        Variables {
            bounds: Vec::new(alloc),
        }
    }

    /// The place of the name among the declarations.
    pub fn slot(&self, name: &Name) -> Option<u32>
        ensures value { result ≡ slot_of name.now self.now }
        ensures bound { IfSome result (λ slot. slot < length self.now) }
    {
        match position(&self.bounds, name) {
            Some(slot) => Some(slot as u32),
            None => None,
        }
    }

    pub fn get(&self, name: &Name) -> Option<&List<Atom>>
        ensures { option_copied result ≡ value_of name.now self.now }
    {
        match self.slot(name) {
            Some(slot) => Some(self.at(slot)),
            None => None,
        }
    }

    pub fn at(&self, slot: u32) -> &List<Atom>
        requires { slot < length self.now }
        ensures { slice_get (map (λ b. b.value) self.now) slot ≡ Some result.now }
    {
        &self.bounds[slot as usize].value
    }

    /// Adds a variable. After a refusal nothing has changed.
    pub fn declare(&mut self, bound: Bound) -> Result<(), Memory>
        requires { length self.old < 2 ^ 32 - 1 }
        ensures ok { OnOk result (self.new ≡ self.old ++ bound ∷ []) }
        ensures err { OnErr result (self.new ≡ self.old) }
    {
        self.bounds.push(bound)?;
        Ok(())
    }

    /// Gives the variable of this name another value. After a refusal nothing has changed.
    pub fn assign(&mut self, name: &Name, value: List<Atom>) -> Result<(), StoreFault>
        ensures ok { OnOk result (self.new ≡ with_value name.now value self.old) }
        ensures there { OnOk result (IsSome (slot_of name.now self.old)) }
        ensures err { OnErr result (self.new ≡ self.old) }
        ensures absent { OnErr result (slot_of name.now self.old ≡ None) }
    {
        let Some(slot) = self.slot(name) else {
            return Err(StoreFault::NoVariable);
        };
        let bound = &mut self.bounds[slot as usize];
        bound.value = value;
        Ok(())
    }
}

fn position(bounds: &[Bound], name: &Name) -> Option<usize>
    ensures value { result ≡ slot_of name.now bounds.now }
    ensures bound { IfSome result (λ slot. slot < length bounds.now) }
{
    bounds.iter().position(|bound| is_called(name, bound))
}

fn is_called(name: &Name, bound: &Bound) -> bool
    ensures { result ≡ is_called name.now bound.now }
{
    bound.name.same(name)
}
