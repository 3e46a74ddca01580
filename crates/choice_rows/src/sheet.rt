//! A sheet of groups and templates alone, which have no bodies.

ghost use Rattle.std.specs.Prelude.{◌≡◌, ◌<◌, ◌+◌, ◌^◌, All, true, IfOk, length};
ghost use Rattle.choice_rows.specs.Bare.{IsBare, IsUnnamed, is_behind, are_behind, are_a_tree};
ghost use Rattle.sheet_model.specs.Sound.{IsSound};

use crate::parts::{groups_of, templates_of};
use rows::{Row, Trouble};
use sheet_model::{Group, Sheet, Template};
use std::alloc::Global;
use stx_base::{List, Memory, Text};

/// The sheet that a row sets.
pub fn sheet_of(alloc: Global, row: &Row) -> Result<Sheet, Trouble>
    ensures { IfOk result IsSound }
{
    let groups = groups_of(alloc, row)?;
    let templates = templates_of(alloc, row, groups.len())?;
    if groups.len() > 4096 || templates.len() > 4096 {
        return refused(groups, templates);
    }
    if !are_a_tree(groups.as_slice()) {
        return refused(groups, templates);
    }
    Ok(whole(alloc, groups, templates)?)
}

fn refused(groups: List<Group>, templates: List<Template>) -> Result<Sheet, Trouble>
    ensures { IfOk result IsSound }
{
    drop(groups);
    drop(templates);
    Err(Trouble::Row("groups that don't stand behind their parents, or too many"))
}

fn whole(alloc: Global, groups: List<Group>, templates: List<Template>) -> Result<Sheet, Memory>
    requires tree { are_a_tree groups ≡ true }
    requires unnamed { All IsUnnamed groups }
    requires bare { All (IsBare (length groups)) templates }
    requires few_groups { length groups < 4097 }
    requires few_templates { length templates < 4097 }
    ensures { IfOk result IsSound }
{
    let files = files(alloc)?;
    Ok(Sheet {
        groups,
        templates,
        procedures: List::new(alloc),
        buffers: List::new(alloc),
        variables: List::new(alloc),
        strip: false,
        cdata: true,
        files,
    })
}

/// One file.
fn files(alloc: Global) -> Result<List<Text>, Memory>
    ensures { IfOk result (λ files. length files ≡ 1) }
{
    let mut files = List::new(alloc);
    files.push(Text::new(alloc))?;
    Ok(files)
}

/// Whether the first has no parent and each other stands behind its parent.
fn are_a_tree(groups: &[Group]) -> bool
    requires { length groups.now < 2 ^ 32 }
    ensures { result ≡ are_a_tree groups.now }
{
    match groups.split_first() {
        Some((root, others)) => root.parent.is_none() && are_behind(1, others),
        None => false,
    }
}

/// Whether each stands behind its parent, where the first of them has a number.
fn are_behind(number: u32, groups: &[Group]) -> bool
    requires { number + length groups.now < 2 ^ 32 }
    ensures { result ≡ are_behind number groups.now }
{
    match groups.split_first() {
        Some((group, others)) => is_behind(number, group) && are_behind(number + 1, others),
        None => true,
    }
}

fn is_behind(number: u32, group: &Group) -> bool
    ensures { result ≡ is_behind number group.now.parent }
{
    match group.parent {
        Some(parent) => parent < number,
        None => false,
    }
}
