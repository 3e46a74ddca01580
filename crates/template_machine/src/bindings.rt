//! The bindings in force where a node stands.

ghost use Rattle.std.specs.Prelude.{◌≡◌, [], ◌∷◌, ◌<◌, IfOk, OnOk, OnErr, length};
ghost use Rattle.template_machine.specs.Lists.{rest_of};
ghost use Rattle.template_machine.specs.Scopes as spec;
ghost use Rattle.template_machine.specs.Scopes.{IsTold};
ghost use Rattle.template_machine.specs.Trail as trail;

use crate::scope::scope_within;
use std::alloc::Global;
use std::marker::Model;
use std::mem;
use stx_base::{Binding, List, Memory};

/// The bindings in force at the current node of a source, and those around each element that declares some. Contracts see what is
/// in force in each open element, the innermost first, and last in the document node.
#[derive(Debug, Drop)]
pub struct Bindings {
    alloc: Global,
    in_force: List<Binding>,
    /// Of each open element what was in force around it, where it declares something; the innermost last.
    around: Vec<Option<List<Binding>>>,
}

impl Model for Bindings {
    ghost use Rattle.std.specs.Prelude.{List, reverse};
    ghost use Rattle.stx_base.specs.declared.name.Binding.{Binding};

    ghost Value = { List (List Binding) };

    ghost use Rattle.template_machine.specs.Scopes.{scopes_by};

    ghost view = { λ b. scopes_by b.in_force (reverse b.around.items) };
}

/// Whether what is in force is other than before.
#[derive(Clone, Copy, Debug, PartialEq, Eq)]
pub enum Change {
    Same,
    Other,
}

impl Bindings {
    /// None in force. Allocates nothing.
    pub fn new(alloc: Global) -> Bindings
        ensures { result ≡ [] ∷ [] }
    {
        Bindings {
            alloc,
            in_force: List::new(alloc),
            around: Vec::new(alloc),
        }
    }

    /// In the order of their prefixes.
    #[inline(always)]
    pub fn in_force(&self) -> &List<Binding>
        ensures { result.now ≡ spec.in_force self.now }
    {
        &self.in_force
    }

    /// What an element declares is in force in it. After a refusal nothing has changed.
    #[inline(always)]
    pub fn enter(&mut self, decls: &List<Binding>) -> Result<Change, Memory>
        ensures ok { OnOk result (self.new ≡ trail.scope_within (spec.in_force self.old) decls.now ∷ self.old) }
        ensures told { IfOk result (λ change. IsTold change self.old self.new) }
        ensures err { OnErr result (self.new ≡ self.old) }
    {
        if decls.is_empty() {
            self.around.push(None)?;
            return Ok(Change::Same);
        }
        self.around.reserve(1)?;
        let within = scope_within(self.alloc, &self.in_force, decls)?;
        let outer = mem::replace(&mut self.in_force, within);
        self.around.push(Some(outer))?;
        Ok(Change::Other)
    }

    /// What was in force before the innermost element is again. Allocates nothing.
    #[inline(always)]
    pub fn leave(&mut self) -> Change
        requires { 1 < length self.old }
        ensures left { self.new ≡ rest_of self.old }
        ensures told { IsTold result self.old self.new }
    {
        match self.around.pop() {
            Some(Some(outer)) => {
                self.in_force = outer;
                Change::Other
            }
            Some(None) | None => Change::Same,
        }
    }
}
