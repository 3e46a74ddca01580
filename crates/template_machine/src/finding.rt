//! What the names in instructions lead to.

ghost use Rattle.std.specs.Prelude.{◌≡◌, position};
ghost use Rattle.node_stack.specs.Test as names;
ghost use Rattle.sheet_model.specs.Groups as groups_;
ghost use Rattle.sheet_model.specs.Names as declared;
ghost use Rattle.sheet_model.specs.Sound.{IsSmall};
ghost use Rattle.sheet_model.specs.declared.sheet.Group.{Group as Groups};
ghost use Rattle.template_machine.specs.Finding as spec;
ghost use Rattle.template_machine.specs.Seen.{ParentsStandBefore};

use sheet_model::{Buffer, Group, Procedure, Sheet};
use stx_base::{List, Name, Text};

/// The group of a name; the root, if there were none.
pub fn group_named(sheet: &Sheet, name: &Name) -> u32
    requires { IsSmall sheet.now }
    ensures { result ≡ spec.group_named sheet.now name.now }
{
    match group_place(sheet.groups.as_slice(), name) {
        Some(place) => place as u32,
        None => 0,
    }
}

fn group_place(groups: &[Group], name: &Name) -> Option<usize>
    ensures { result ≡ position (λ (g : Groups). spec.is_named name.now g.name) groups.now }
{
    groups.iter().position(|group| is_named(name, &group.name))
}

fn is_named(name: &Name, other: &Option<Name>) -> bool
    ensures { result ≡ spec.is_named name.now other.now }
{
    match other {
        Some(other) => same_name(other, name),
        None => false,
    }
}

/// The procedure of a name in a group, or else in the nearest group around it.
pub fn procedure_seen(sheet: &Sheet, group: u32, name: &Name) -> Option<u32>
    requires parents { ParentsStandBefore sheet.now.groups }
    requires small { IsSmall sheet.now }
    ensures { result ≡ spec.procedure_seen sheet.now group name.now }
{
    let mut outwards = Some(group);
    while let Some(number) = outwards {
        match procedure_in(sheet, number, name) {
            Some(found) => return Some(found),
            None => outwards = parent_of(&sheet.groups, number),
        }
    }
    None
}

fn procedure_in(sheet: &Sheet, group: u32, name: &Name) -> Option<u32>
    requires { IsSmall sheet.now }
    ensures { result ≡ spec.procedure_in sheet.now.procedures name.now group }
{
    match procedure_place(sheet.procedures.as_slice(), group, name) {
        Some(place) => Some(place as u32),
        None => None,
    }
}

fn procedure_place(procedures: &[Procedure], group: u32, name: &Name) -> Option<usize>
    ensures { result ≡ spec.procedure_in procedures.now name.now group }
{
    procedures
        .iter()
        .position(|it| it.group == group && same_name(&it.name, name))
}

/// The buffer of a name in a group, or else in the nearest group around it.
pub fn buffer_seen(sheet: &Sheet, group: u32, name: &Name) -> Option<u32>
    requires parents { ParentsStandBefore sheet.now.groups }
    requires small { IsSmall sheet.now }
    ensures { result ≡ spec.buffer_seen sheet.now group name.now }
{
    let mut outwards = Some(group);
    while let Some(number) = outwards {
        match buffer_in(sheet, number, name) {
            Some(found) => return Some(found),
            None => outwards = parent_of(&sheet.groups, number),
        }
    }
    None
}

fn buffer_in(sheet: &Sheet, group: u32, name: &Name) -> Option<u32>
    requires { IsSmall sheet.now }
    ensures { result ≡ spec.buffer_in sheet.now.buffers name.now group }
{
    match buffer_place(sheet.buffers.as_slice(), group, name) {
        Some(place) => Some(place as u32),
        None => None,
    }
}

fn buffer_place(buffers: &[Buffer], group: u32, name: &Name) -> Option<usize>
    ensures { result ≡ spec.buffer_in buffers.now name.now group }
{
    buffers
        .iter()
        .position(|it| it.group == group && same_name(&it.name, name))
}

pub fn parent_of(groups: &List<Group>, group: u32) -> Option<u32>
    ensures { result ≡ groups_.parent_of groups.now group }
{
    groups.get(group as usize)?.parent
}

/// Whether expanded names agree, by the words of sheets.
pub fn is_same(name: &Name, other: &Name) -> bool
    ensures { result ≡ declared.is_same name.now other.now }
{
    name.same(other)
}

/// Whether expanded names agree, by the words of paths.
pub fn same_name(name: &Name, other: &Name) -> bool
    ensures { result ≡ names.same_name name.now other.now }
{
    same(&name.uri, &other.uri) && same(&name.local, &other.local)
}

fn same(text: &Text, other: &Text) -> bool
    ensures { result ≡ names.same text.now other.now }
{
    text.as_str() == other.as_str()
}
