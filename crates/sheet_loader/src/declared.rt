//! What the sheet declares so far, by names.

ghost use Rattle.std.specs.Prelude.{◌≡◌, [], OnOk, IfOk};
ghost use Rattle.std.specs.List.{list_any};
ghost use Rattle.std.specs.Option.{option_copied};
ghost use Rattle.sheet_model.specs.Groups.{around, parent_of};
ghost use Rattle.sheet_model.specs.declared.sheet.Sheet.{Sheet};
ghost use Rattle.sheet_loader.specs.Judging.{is_taken};
ghost use Rattle.sheet_loader.specs.Known.{Knows, known_of};
ghost use Rattle.sheet_loader.specs.Meant.{kind_of};
ghost use Rattle.sheet_loader.specs.Making.{bare, nameless, or_else};
ghost use Rattle.sheet_loader.specs.Keys.{has_own, name_of, names_in, own_of, owned_in, with_own};

use crate::kind::Kind;
use crate::names::{Expanded, NameSet};
use indexmap::IndexSet;
use sheet_model::Group;
use std::alloc::Global;
use stx_base::{List, Memory, Name};

/// A name in a group.
#[derive(Debug, PartialEq, Eq, Hash, Drop)]
pub struct Own {
    pub group: u32,
    pub name: Expanded,
}

impl Own {
    /// A name in a group. What stands for the lack of one that is required never comes.
    pub fn of(alloc: Global, group: u32, name: Option<&Name>) -> Result<Own, Memory>
        ensures { IfOk result (λ own. own_of own ≡ record { group = group; name = bare (or_else nameless (option_copied name.entry)) }) }
    {
        let name = match name {
            Some(name) => Expanded::of(alloc, name)?,
            None => Expanded {
                uri: String::new(alloc),
                local: String::new(alloc),
            },
        };
        Ok(Own { group, name })
    }

    /// The same name in the same group.
    pub fn again(&self, alloc: Global) -> Result<Own, Memory>
        ensures { IfOk result (λ own. own_of own ≡ own_of self.now) }
    {
        let name = self.name.again(alloc)?;
        Ok(Own {
            group: self.group,
            name,
        })
    }
}

/// Names of one kind, each in its group.
#[derive(Drop)]
pub struct Table {
    names: IndexSet<Own>,
}

impl Table {
    pub fn new(alloc: Global) -> Table
        ensures { owned_in result ≡ [] }
    {
        Table {
            names: IndexSet::new(alloc),
        }
    }

    /// Whether the group itself has the name.
    pub fn has(&self, own: &Own) -> bool
        ensures { result ≡ has_own (owned_in self.now) own.now.group (name_of own.now.name) }
    {
        self.names.contains(own)
    }

    pub fn add(&mut self, own: Own) -> Result<(), Memory>
        ensures { OnOk result (owned_in self.new ≡ with_own (owned_in self.old) (own_of own)) }
    {
        self.names.insert(own)?;
        Ok(())
    }

    /// Whether the group or one around it has the name.
    pub fn is_seen(&self, groups: &List<Group>, own: Own) -> bool
        ensures { result ≡ list_any (λ g. has_own (owned_in self.now) g (name_of own.name)) (around groups.now own.group) }
    {
        let mut own = own;
        // No group is further out than there are groups.
        for level in 0..groups.len() {
            if self.has(&own) {
                return true;
            }
            match parent(groups, own.group) {
                None => return false,
                Some(group) => own.group = group,
            }
        }
        self.has(&own)
    }
}

/// The group around a group.
fn parent(groups: &List<Group>, group: u32) -> Option<u32>
    ensures { result ≡ parent_of groups.now group }
{
    groups.get(group as usize)?.parent
}

/// What the sheet declares so far.
#[derive(Drop)]
pub struct Declared {
    pub groups: NameSet,
    pub procedures: Table,
    pub buffers: Table,
    /// Variables and parameters.
    pub variables: Table,
}

impl Declared {
    pub fn new(alloc: Global) -> Declared
        ensures groups { names_in result.groups ≡ [] }
        ensures procedures { owned_in result.procedures ≡ [] }
        ensures buffers { owned_in result.buffers ≡ [] }
        ensures variables { owned_in result.variables ≡ [] }
    {
        Declared {
            groups: NameSet::new(alloc),
            procedures: Table::new(alloc),
            buffers: Table::new(alloc),
            variables: Table::new(alloc),
        }
    }

    /// Whether a name that stands once in each group, or once in all the sheet, is there already.
    pub fn has(&self, kind: Kind, own: &Own) -> bool
        ensures { (sheet : Sheet) → Knows (known_of self.now) sheet → result ≡ is_taken sheet own.now.group (kind_of kind) (name_of own.now.name) }
    {
        match kind {
            Kind::Group => self.groups.has(&own.name),
            Kind::Procedure => self.procedures.has(own),
            Kind::Buffer => self.buffers.has(own),
            Kind::Variable | Kind::Param => self.variables.has(own),
            _ => false,
        }
    }
}
