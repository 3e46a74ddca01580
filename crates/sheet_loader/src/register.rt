//! The names of a sheet: what is declared, what is in scope, and what is referred to.

ghost use Rattle.std.specs.Prelude.{◌≡◌, ◌++◌, [], ◌∷◌, List, true, codes, length, map, take, OnOk, IfOk};
ghost use Rattle.std.specs.List.{flat_map};
ghost use Rattle.std.specs.Option.{option_copied, option_map};
ghost use Rattle.stx_base.specs.declared.name.Name as base;
ghost use Rattle.sheet_model.specs.Names.{is_among, template_variables};
ghost use Rattle.sheet_model.specs.declared.instr.LiteralAttr as model;
ghost use Rattle.sheet_model.specs.declared.sheet.Sheet.{Sheet};
ghost use Rattle.sheet_loader.specs.Gathering.{values_in};
ghost use Rattle.sheet_loader.specs.Judging as judging;
ghost use Rattle.sheet_loader.specs.Keys.{name_of, names_in, own_of};
ghost use Rattle.sheet_loader.specs.Known as spec;
ghost use Rattle.sheet_loader.specs.Known.{HasLocals, AreGiven, Knows, KnowsAt, known, refers_to};
ghost use Rattle.sheet_loader.specs.Making.{bare, name};
ghost use Rattle.sheet_loader.specs.Meant.{kind_of};
ghost use Rattle.sheet_loader.specs.Reading.{Context, Item};
ghost use Rattle.sheet_loader.specs.Referring as referring;

use crate::declared::{Declared, Own};
use crate::kind::Kind;
use crate::names::{Expanded, NameSet};
use crate::naming::{named_in, named_in_attrs, named_in_patterns};
use crate::values::Values;
use crate::waiting::{Reference, Wanted};
use sheet_model::{Group, LiteralAttr};
use std::alloc::Global;
use std::mem;
use stx_base::{List, Memory, Name, Place, SheetCode};

#[derive(Drop)]
pub struct Register {
    alloc: Global,
    declared: Declared,
    /// The locals in scope, the innermost last.
    locals: NameSet,
    /// In document order.
    references: List<Reference>,
}

impl Register {
    pub fn new(alloc: Global) -> Register
        ensures { known result ≡ spec.nothing_known }
    {
        Register {
            alloc,
            declared: Declared::new(alloc),
            locals: NameSet::new(alloc),
            references: List::new(alloc),
        }
    }

    /// Whether an element may not have the name, since something has it already. `given` are the parameters that have a value in the
    /// list in which it stands.
    pub fn is_taken(&self, kind: Kind, is_declared: bool, own: &Own, given: &NameSet) -> bool
        ensures { (here : Context) (before : List Item) (sheet : Sheet) → KnowsAt (known self.now) own.now.group is_declared here before sheet → AreGiven (names_in given.now) before → result ≡ judging.is_duplicate here before sheet (kind_of kind) (name_of own.now.name) }
    {
        if is_declared {
            self.declared.has(kind, own)
        } else {
            self.is_in_scope(kind, &own.name, given)
        }
    }

    fn is_in_scope(&self, kind: Kind, name: &Expanded, given: &NameSet) -> bool
        ensures { (locals : List base.Name) (before : List Item) → HasLocals (known self.now) locals → AreGiven (names_in given.now) before → result ≡ judging.is_taken_in_body locals before (kind_of kind) (name_of name.now) }
    {
        match kind {
            Kind::Variable | Kind::Param | Kind::ForEachItem => self.locals.has(name),
            Kind::WithParam => given.has(name),
            _ => false,
        }
    }

    /// No group has a name any more.
    pub fn forget_groups(&mut self)
        ensures { known self.new ≡ spec.without_groups (known self.old) }
    {
        self.declared.groups.truncate(0);
    }

    /// Takes the name of a group, where it has one.
    pub fn declare_group(&mut self, name: Option<&Name>) -> Result<(), Memory>
        ensures { OnOk result (known self.new ≡ spec.with_group (option_map bare (option_copied name.entry)) (known self.old)) }
    {
        match name {
            None => Ok(()),
            Some(name) => {
                let name = Expanded::of(self.alloc, name)?;
                self.declared.groups.add(name)
            }
        }
    }

    /// Takes the name of a procedure, buffer, variable or parameter of a group.
    pub fn declare(&mut self, kind: Kind, own: Own) -> Result<(), Memory>
        ensures { OnOk result (known self.new ≡ spec.with_declared (kind_of kind) (own_of own) (known self.old)) }
    {
        match kind {
            Kind::Procedure => self.declared.procedures.add(own),
            Kind::Buffer => self.declared.buffers.add(own),
            Kind::Variable | Kind::Param => self.declared.variables.add(own),
            _ => Ok(()),
        }
    }

    /// How many locals are in scope.
    pub fn locals(&self) -> usize
        ensures { result ≡ length (known self.now).locals }
    {
        self.locals.len()
    }

    /// The item of a loop is a local of its body.
    pub fn bring_by_loop(&mut self, kind: Kind, name: &Expanded) -> Result<(), Memory>
        ensures { OnOk result (known self.new ≡ spec.within_loop (kind_of kind) (name_of name.now) (known self.old)) }
    {
        match kind {
            Kind::ForEachItem => {
                let name = name.again(self.alloc)?;
                self.locals.add(name)
            }
            _ => Ok(()),
        }
    }

    /// Takes the name of an item of a list that what comes behind it sees.
    pub fn bring_by_item(&mut self, kind: Kind, name: Expanded) -> Result<(), Memory>
        ensures { OnOk result (known self.new ≡ spec.behind_item (kind_of kind) (name_of name) (known self.old)) }
    {
        match kind {
            Kind::Variable | Kind::Param => self.locals.add(name),
            _ => Ok(()),
        }
    }

    /// The locals but for the first so many are out of scope.
    pub fn leave(&mut self, locals: usize)
        ensures { known self.new ≡ record (known self.old) { locals = take locals (known self.old).locals } }
    {
        self.locals.truncate(locals);
    }

    /// What a tag refers to: groups, procedures, buffers and variables, in this order. `own` is its name.
    pub fn refer_by_tag(
        &mut self,
        at: Place,
        kind: Kind,
        is_declared: bool,
        own: &Own,
        values: &Values,
        groups: &List<Group>,
    ) -> Result<(), Memory>
        ensures { OnOk result ((here : Context) (before : List Item) (sheet : Sheet) → KnowsAt (known self.old) own.now.group is_declared here before sheet → groups.now ≡ sheet.groups → name_of own.now.name ≡ bare (name (values_in values.now)) → known self.new ≡ refers_to (referring.references at here before sheet (kind_of kind) (values_in values.now)) (known self.old)) }
    {
        self.refer_to_group(at, values.named("group"))?;
        self.refer_by_name(at, kind, own)?;
        let named = named_in_patterns(self.alloc, values)?;
        self.refer_to_variables_of_groups(at, own.group, named)?;
        let named = named_in(self.alloc, values)?;
        if is_declared {
            self.refer_to_earlier(at, own.group, named, groups)
        } else {
            self.refer_to_variables(at, own.group, named)
        }
    }

    /// What the attributes of a literal element refer to.
    pub fn refer_by_literal(
        &mut self,
        at: Place,
        group: u32,
        attrs: &List<LiteralAttr>,
    ) -> Result<(), Memory>
        ensures { OnOk result ((locals : List base.Name) → HasLocals (known self.old) locals → known self.new ≡ refers_to (referring.to_variables at locals group (flat_map (λ (a : model.LiteralAttr). template_variables a.value) attrs.now)) (known self.old)) }
    {
        let named = named_in_attrs(self.alloc, attrs)?;
        self.refer_to_variables(at, group, named)
    }

    /// The first reference that finds nothing in the whole sheet. No reference is left then.
    pub fn first_lost(&mut self, groups: &List<Group>) -> Option<(SheetCode, Place)>
        ensures { (sheet : Sheet) → Knows (known self.old).declares sheet → groups.now ≡ sheet.groups → result ≡ spec.first_lost_of (known self.old) sheet }
    {
        let references = mem::replace(&mut self.references, List::new(self.alloc));
        for reference in references.into_vec() {
            let Reference { at, wanted } = reference;
            let code = wanted.code();
            if !wanted.is_found(&self.declared, groups) {
                return Some((code, at));
            }
        }
        None
    }

    fn refer(&mut self, at: Place, wanted: Wanted) -> Result<(), Memory>
        ensures { OnOk result (known self.new ≡ refers_to (spec.reference_of (record { at = at; wanted = wanted }) ∷ []) (known self.old)) }
    {
        self.references.push(Reference { at, wanted })
    }

    fn refer_to_group(&mut self, at: Place, name: Option<&Name>) -> Result<(), Memory>
        ensures { OnOk result (known self.new ≡ refers_to (referring.to_group at (option_copied name.entry)) (known self.old)) }
    {
        match name {
            None => Ok(()),
            Some(name) => {
                let name = Expanded::of(self.alloc, name)?;
                self.refer(at, Wanted::Group(name))
            }
        }
    }

    fn refer_by_name(&mut self, at: Place, kind: Kind, own: &Own) -> Result<(), Memory>
        ensures { OnOk result ((here : Context) (before : List Item) (n : base.Name) → own.now.group ≡ here.group → HasLocals (known self.old) (judging.locals_at here before) → name_of own.now.name ≡ bare n → known self.new ≡ refers_to (referring.by_name at here before (kind_of kind) n) (known self.old)) }
    {
        match kind {
            Kind::CallProcedure => {
                let own = own.again(self.alloc)?;
                self.refer(at, Wanted::Procedure(own))
            }
            Kind::ProcessBuffer | Kind::ResultBuffer => {
                let own = own.again(self.alloc)?;
                self.refer(at, Wanted::Buffer(own))
            }
            Kind::Assign => {
                let own = own.again(self.alloc)?;
                self.refer_to_variable(at, own)
            }
            _ => Ok(()),
        }
    }

    /// A local has the name, or else a variable of the group or of one around it.
    fn refer_to_variable(&mut self, at: Place, own: Own) -> Result<(), Memory>
        ensures { OnOk result (known self.new ≡ refers_to (referring.to_variables at (known self.old).locals own.group (name_of own.name ∷ [])) (known self.old)) }
    {
        if self.locals.has(&own.name) {
            Ok(())
        } else {
            self.refer(at, Wanted::Variable(own))
        }
    }

    fn refer_to_variables(
        &mut self,
        at: Place,
        group: u32,
        names: List<Expanded>,
    ) -> Result<(), Memory>
        ensures { OnOk result (known self.new ≡ refers_to (referring.to_variables at (known self.old).locals group (map name_of names)) (known self.old)) }
    {
        for name in names.into_vec() {
            self.refer_to_variable(at, Own { group, name })?;
        }
        Ok(())
    }

    /// Patterns see the variables of groups alone.
    fn refer_to_variables_of_groups(
        &mut self,
        at: Place,
        group: u32,
        names: List<Expanded>,
    ) -> Result<(), Memory>
        ensures { OnOk result (known self.new ≡ refers_to (referring.to_variables at [] group (map name_of names)) (known self.old)) }
    {
        for name in names.into_vec() {
            self.refer(at, Wanted::Variable(Own { group, name }))?;
        }
        Ok(())
    }

    /// A declaration sees only what stands earlier in the sheet.
    fn refer_to_earlier(
        &mut self,
        at: Place,
        group: u32,
        names: List<Expanded>,
        groups: &List<Group>,
    ) -> Result<(), Memory>
        ensures { OnOk result ((sheet : Sheet) → Knows (known self.old).declares sheet → groups.now ≡ sheet.groups → known self.new ≡ refers_to (referring.to_earlier at sheet group (map name_of names)) (known self.old)) }
    {
        for name in names.into_vec() {
            self.refer_to_one_earlier(at, Own { group, name }, groups)?;
        }
        Ok(())
    }

    fn refer_to_one_earlier(
        &mut self,
        at: Place,
        own: Own,
        groups: &List<Group>,
    ) -> Result<(), Memory>
        ensures { OnOk result ((sheet : Sheet) → Knows (known self.old).declares sheet → groups.now ≡ sheet.groups → known self.new ≡ refers_to (referring.to_earlier at sheet own.group (name_of own.name ∷ [])) (known self.old)) }
    {
        let variables = &self.declared.variables;
        if variables.is_seen(groups, own) {
            Ok(())
        } else {
            self.refer(at, Wanted::NoVariable)
        }
    }
}
