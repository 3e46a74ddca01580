ghost use Rattle.std.specs.Prelude.{◌≡◌, ◌-◌, ◌^◌, ◌<◌, [], ◌∷◌, ◌++◌, length, IsSome, OnOk, OnErr, None, slice_get};
ghost use Rattle.std.specs.Option.{option_copied};
ghost use Rattle.var_store.specs.Variables.{slot_of, with_value};
ghost use Rattle.var_store.specs.Copies.{newest, on_newest, taken_off};

use crate::bound::Bound;
use crate::fault::StoreFault;
use crate::variables::Variables;
use std::alloc::Global;
use std::marker::Model;
use stx_base::{List, Memory, Name};
use stxpath_values::Atom;

/// The copies of one group's variables.
#[derive(Debug, Drop)]
pub struct Copies {
    newest: Variables,
    /// The ones that it is laid over, the oldest first.
    older: Vec<Variables>,
}

impl Model for Copies {
    ghost use Rattle.std.specs.Prelude.{List, ◌∷◌, reverse};
    ghost use Rattle.var_store.specs.declared.bound.Bound.{Bound};

    ghost Value = { List (List Bound) };

    ghost view = { λ copies. copies.newest ∷ reverse copies.older.items };
}

impl Copies {
    /// One copy without variables. Allocates nothing.
    pub fn new(alloc: Global) -> Copies
        ensures { result ≡ [] ∷ [] }
    {
        Copies {
            newest: Variables::new(alloc),
            older: Vec::new(alloc),
        }
    }

    pub fn newest(&self) -> &Variables
        ensures { result.now ≡ newest self.now }
    {
        &self.newest
    }

    /// The copy below the newest one.
    pub fn below(&self) -> Option<&Variables>
        ensures { option_copied result ≡ slice_get self.now 1 }
    {
        self.older.last()
    }

    /// Lays a copy without variables over the others. After a refusal nothing has changed.
    pub fn lay(&mut self, alloc: Global) -> Result<(), Memory>
        ensures ok { OnOk result (self.new ≡ [] ∷ self.old) }
        ensures err { OnErr result (self.new ≡ self.old) }
    {
        self.older.reserve(1)?;
        let newest = std::mem::replace(&mut self.newest, Variables::new(alloc));
        self.older.push(newest)?;
        Ok(())
    }

    /// Takes the newest copy off. Allocates nothing.
    pub fn take_off(&mut self)
        requires { 1 < length self.old }
        ensures { self.new ≡ taken_off self.old }
    {
        if let Some(newest) = self.older.pop() {
            self.newest = newest;
        }
    }

    /// Adds a variable to the newest copy. After a refusal nothing has changed.
    pub fn declare(&mut self, bound: Bound) -> Result<(), Memory>
        requires { length (newest self.old) < 2 ^ 32 - 1 }
        ensures ok { OnOk result (self.new ≡ on_newest (λ bounds. bounds ++ bound ∷ []) self.old) }
        ensures err { OnErr result (self.new ≡ self.old) }
    {
        self.newest.declare(bound)
    }

    /// Gives the variable of this name another value in the newest copy. After a refusal nothing has changed.
    pub fn assign(&mut self, name: &Name, value: List<Atom>) -> Result<(), StoreFault>
        ensures ok { OnOk result (self.new ≡ on_newest (with_value name.now value) self.old) }
        ensures there { OnOk result (IsSome (slot_of name.now (newest self.old))) }
        ensures err { OnErr result (self.new ≡ self.old) }
        ensures absent { OnErr result (slot_of name.now (newest self.old) ≡ None) }
    {
        self.newest.assign(name, value)
    }
}
