//! The variables that expressions and patterns see.

ghost use Rattle.std.specs.Prelude.{◌≡◌, ◌<◌, ◌≤◌, if◌then◌else◌, IfSome, None, length, take};
ghost use Rattle.std.specs.Option.{option_copied, option_or};
ghost use Rattle.sheet_model.specs.Groups.{around};
ghost use Rattle.template_machine.specs.Declaring.{is_declared_in, seen_before};
ghost use Rattle.template_machine.specs.Seen as locally;
ghost use Rattle.template_machine.specs.Seen.{bounds_of, local_of, ParentsStandBefore};
ghost use Rattle.template_machine.specs.Variables.{newest, seen_in};
ghost use Rattle.var_store.specs.Variables.{slot_of, value_of};

use crate::finding::{is_same, same_name};
use frame_stack::Locals;
use match_patterns::GroupVars;
use sheet_model::{Group, Sheet, Variable};
use stx_base::{List, Name};
use stxpath_eval::Vars;
use stxpath_values::Atom;
use var_store::Store;

/// The variables of all groups: those of a group, and of the groups around it.
#[derive(Clone, Copy)]
pub struct InGroups<'a> {
    pub store: &'a Store,
    pub groups: &'a List<Group>,
    ghost parents: { ParentsStandBefore groups.now },
    ghost sized: { length store.now ≡ length groups.now },
}

impl GroupVars for InGroups<'_> {
    ghost seen = { λ v group name. seen_in (around v.groups.now group) v.store.now name };

    fn get(&self, group: u32, name: &Name) -> Option<&List<Atom>> {
        let mut outwards = Some(group);
        while let Some(number) = outwards {
            let there = self.groups.get(number as usize)?;
            match self.store.get(number, name) {
                Some(value) => return Some(value),
                None => outwards = there.parent,
            }
        }
        None
    }
}

/// The variables of a body: its locals, and then those of its group.
#[derive(Clone, Copy)]
pub struct InBody<'a> {
    pub locals: &'a Locals,
    pub group: u32,
    pub all: InGroups<'a>,
}

impl Vars for InBody<'_> {
    ghost value_of = { λ v name. option_or (local_of name v.locals.now) (seen_in (around v.all.groups.now v.group) v.all.store.now name) };

    fn get(&self, name: &Name) -> Option<&List<Atom>> {
        match local_named(self.locals, name) {
            Some(index) => Some(self.locals.value(index)),
            None => self.all.get(self.group, name),
        }
    }
}

/// Where the first local of a name stands. One that only waits has none.
pub fn local_named(locals: &Locals, name: &Name) -> Option<usize>
    ensures value { result ≡ locally.place_of name.now locals.now }
    ensures within { IfSome result (λ index. index < length locals.now) }
{
    if name.local.is_empty() {
        return None;
    }
    first_called(locals, name)
}

/// The same of one that is called so.
fn first_called(locals: &Locals, name: &Name) -> Option<usize>
    ensures value { result ≡ slot_of name.now (bounds_of locals.now) }
    ensures within { IfSome result (λ index. index < length locals.now) }
{
    for index in 0..locals.len() {
        if is_same(locals.name(index), name) {
            return Some(index);
        }
    }
    None
}

/// The variables that a declaration sees: those that stand before it in the sheet, in its group and the groups around it.
#[derive(Clone, Copy)]
pub struct Earlier<'a> {
    pub store: &'a Store,
    pub sheet: &'a Sheet,
    /// How many stand before it.
    pub count: usize,
    pub group: u32,
    ghost parents: { ParentsStandBefore sheet.now.groups },
    ghost sized: { length store.now ≡ length sheet.now.groups },
    ghost before: { count ≤ length sheet.now.variables },
}

impl Vars for Earlier<'_> {
    ghost value_of = { λ v name. seen_before v.sheet.now (take v.count v.sheet.now.variables) v.group v.store.now name };

    fn get(&self, name: &Name) -> Option<&List<Atom>> {
        let earlier = &self.sheet.variables.as_slice()[..self.count];
        let mut outwards = Some(self.group);
        while let Some(number) = outwards {
            let there = self.sheet.groups.get(number as usize)?;
            match value_in(self.store, earlier, number, name) {
                Some(value) => return Some(value),
                None => outwards = there.parent,
            }
        }
        None
    }
}

/// The value that a group has under a name that one of these variables of it has.
fn value_in<'a>(
    store: &'a Store,
    variables: &[Variable],
    group: u32,
    name: &Name,
) -> Option<&'a List<Atom>>
    requires { group < length store.now }
    ensures { option_copied result ≡ (if is_declared_in variables.now group name.now then value_of name.now (newest store.now group) else None) }
{
    if is_declared(variables, group, name) {
        store.get(group, name)
    } else {
        None
    }
}

fn is_declared(variables: &[Variable], group: u32, name: &Name) -> bool
    ensures { result ≡ is_declared_in variables.now group name.now }
{
    variables
        .iter()
        .any(|it| it.group == group && same_name(&it.name, name))
}
