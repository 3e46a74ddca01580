//! How deep instructions nest.

ghost use Rattle.std.specs.Prelude.{◌≡◌, ◌≤◌};
ghost use Rattle.std.specs.List.{flat_map};
ghost use Rattle.sheet_model.specs.Body.{body_nesting, nesting, sheet_nesting};
ghost use Rattle.sheet_model.specs.declared.instr.When.{When};

use crate::inner::{Within, inner};
use crate::instr::{Instr, When as Branch};
use crate::sheet::Sheet;
use stx_base::List;

/// The deepest nesting of instructions in one body of a sheet.
pub fn nest(sheet: &Sheet) -> u32
    requires { sheet_nesting sheet.now ≤ 512 }
    ensures { result ≡ sheet_nesting sheet.now }
{
    let mut deepest = 0;
    for template in sheet.templates.as_slice() {
        deepest = deepest.max(nesting_of_body(&template.body));
    }
    for procedure in sheet.procedures.as_slice() {
        deepest = deepest.max(nesting_of_body(&procedure.body));
    }
    deepest
}

#[cycle(nesting)]
fn nesting_of_body(body: &List<Instr>) -> u32
    requires { body_nesting body.now ≤ 512 }
    ensures { result ≡ body_nesting body.now }
{
    let mut deepest = 0;
    for instr in body.as_slice() {
        deepest = deepest.max(nesting_of(instr));
    }
    deepest
}

#[cycle(nesting)]
fn nesting_of(instr: &Instr) -> u32
    requires { nesting instr.now ≤ 512 }
    ensures { result ≡ nesting instr.now }
{
    let within = match inner(instr) {
        Within::Nothing => 0,
        Within::Body(body) => nesting_of_body(body),
        Within::Bodies(body, other) => nesting_of_body(body).max(nesting_of_body(other)),
        Within::Branches(whens, other) => nesting_of_branches(whens).max(nesting_of_body(other)),
    };
    within + 1
}

#[cycle(nesting)]
fn nesting_of_branches(whens: &List<Branch>) -> u32
    requires { body_nesting (flat_map (λ (w : When). w.body) whens.now) ≤ 512 }
    ensures { result ≡ body_nesting (flat_map (λ (w : When). w.body) whens.now) }
{
    let mut deepest = 0;
    for when in whens.as_slice() {
        deepest = deepest.max(nesting_of_body(&when.body));
    }
    deepest
}
