//! Sibling regions: at which place of the frames that `: frames` sets the outermost region stands that the current node of `: path` ends, or
//! `none`. Every variable of a group has one more than the group's number as its value.

ghost use Rattle.std.specs.Prelude.{slice_get};
ghost use Rattle.sibling_regions.specs.Standing.{ConditionsCanBeEvaluated};

use crate::code::compiled_of;
use crate::frames::frames_of;
use crate::nodes::path_of;
use instr_code::Compiled;
use match_patterns::GroupVars;
use node_stack::NodeStack;
use rows::{Row, Trouble};
use sibling_regions::ends;
use std::alloc::Global;
use std::fmt::Write;
use stx_base::{Limits, List, Name};
use stxpath_values::Atom;

/// By the numbers of groups, the value of each variable.
#[derive(Drop)]
struct Numbers {
    values: List<List<Atom>>,
}

impl GroupVars for Numbers {
    ghost seen = { λ numbers group name. slice_get numbers.values group };

    fn get(&self, group: u32, _name: &Name) -> Option<&List<Atom>> {
        self.values.get(group as usize)
    }
}

fn values_of(alloc: Global, groups: usize) -> Result<Numbers, Trouble> {
    let mut values = List::new(alloc);
    let mut number = 0i64;
    for _ in 0..groups {
        number = number.saturating_add(1);
        let mut value = List::new(alloc);
        value.push(Atom::Whole(number))?;
        values.push(value)?;
    }
    Ok(Numbers { values })
}

pub fn tell(alloc: Global, row: &Row, out: &mut String) -> Result<(), Trouble> {
    let compiled = compiled_of(alloc, row)?;
    let told = tell_code(alloc, row, &compiled, out);
    drop(compiled);
    told
}

fn tell_code(alloc: Global, row: &Row, compiled: &Compiled, out: &mut String) -> Result<(), Trouble>
    requires { ConditionsCanBeEvaluated compiled.now.code }
{
    let stack = path_of(alloc, row.setting("path").unwrap_or(""))?;
    let told = tell_node(alloc, row, compiled, &stack, out);
    drop(stack);
    told
}

fn tell_node(
    alloc: Global,
    row: &Row,
    compiled: &Compiled,
    stack: &NodeStack,
    out: &mut String,
) -> Result<(), Trouble>
    requires { ConditionsCanBeEvaluated compiled.now.code }
{
    let (sheet, code) = (&compiled.sheet, &compiled.code);
    let vars = values_of(alloc, sheet.groups.len())?;
    let frames = frames_of(alloc, row.setting("frames").unwrap_or(""))?;
    let limits = Limits::standard();
    let place = ends(alloc, &frames, sheet, code, stack, &vars, &limits);
    drop(frames);
    match place? {
        Some(place) => write!(out, "{place}")?,
        None => out.push_str("none")?,
    }
    Ok(())
}
