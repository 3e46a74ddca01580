//! Declarations, ordered by their prefixes.

ghost use Rattle.std.specs.Prelude.{◌≡◌, [], IfOk, OnOk, filter};
ghost use Rattle.result_writer.specs.Table.{declarations, in_order, is_new};

use crate::in_force::InForce;
use crate::table::{Table, is_new};
use stx_base::{Binding, List, Memory};

/// Puts bindings in the order of their prefixes.
fn sort(bindings: &mut Vec<Binding>) -> Result<(), Memory>
    ensures { OnOk result (bindings.new.items ≡ in_order [] bindings.old.items) }
{
    bindings.sort_by(|first, second| first.prefix.as_str().cmp(second.prefix.as_str()))?;
    Ok(())
}

/// Drops the bindings that are in force.
fn keep_new(in_force: &InForce, bindings: &mut Vec<Binding>)
    ensures { bindings.new.items ≡ filter (is_new in_force.now) bindings.old.items }
{
    bindings.retain(|binding| is_new(in_force, binding));
}

/// What a tag with this table has to declare, where these bindings are in force.
pub fn declarations(in_force: &InForce, table: Table) -> Result<List<Binding>, Memory>
    ensures { IfOk result (λ made. made ≡ declarations in_force.now table) }
{
    let mut bindings = table.into_list()?.into_vec();
    keep_new(in_force, &mut bindings);
    sort(&mut bindings)?;
    Ok(List::from_vec(bindings))
}
