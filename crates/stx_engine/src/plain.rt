//! Sheets that have nothing but a pass-through.

ghost use Rattle.std.specs.Prelude.{◌≡◌};
ghost use Rattle.stx_engine.specs.Plain.{pass_of, runnable};

use sheet_model::{Kinds, Sheet};
use std::alloc::Global;
use stx_base::List;

/// The pass-through of a sheet that has no templates and no variables, and takes documents as they are.
fn pass_of(sheet: &Sheet) -> Option<Kinds>
    ensures { result ≡ pass_of sheet.now }
{
    if sheet.strip || sheet.cdata || !sheet.templates.is_empty() || !sheet.variables.is_empty() {
        return None;
    }
    match sheet.groups.get(0) {
        Some(root) => Some(root.pass.kinds()),
        None => None,
    }
}

/// What can be run of a sheet: all of it, but where it has nothing but a pass-through its procedures, which nothing calls.
pub fn runnable(alloc: Global, sheet: Sheet) -> Sheet
    ensures { result ≡ runnable sheet }
{
    let mut sheet = sheet;
    if pass_of(&sheet).is_some() {
        sheet.procedures = List::new(alloc);
    }
    sheet
}
