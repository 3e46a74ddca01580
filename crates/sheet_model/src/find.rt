//! Instructions by their numbers.

ghost use Rattle.std.specs.Prelude.{◌≡◌, ◌≤◌, ℕ, suc, slice_get};
ghost use Rattle.std.specs.List.{flat_map};
ghost use Rattle.std.specs.Option.{option_copied};
ghost use Rattle.sheet_model.specs.Body.{body_nesting, children, in_order, instructions, nesting};
ghost use Rattle.sheet_model.specs.Searching.{Searches};
ghost use Rattle.sheet_model.specs.declared.instr.When.{When};

use crate::inner::{Within, inner};
use crate::instr::{Instr, When as Branch};
use crate::sheet::Sheet;
use stx_base::List;

/// How far a search for a number came.
pub(crate) enum Outcome<'a> {
    Found(&'a Instr),
    /// So many are still to be passed.
    Behind(u32),
}

impl Sheet {
    /// The instruction with a number. All are counted from 0, the templates' first and then the procedures', within a
    /// body in the order of the text.
    pub fn find(&self, number: u32) -> Option<&Instr>
        ensures { option_copied result ≡ slice_get (instructions self.now) number }
    {
        let mut left = number;
        for template in self.templates.as_slice() {
            match search(&template.body, left) {
                Outcome::Found(instr) => return Some(instr),
                Outcome::Behind(behind) => left = behind,
            }
        }
        for procedure in self.procedures.as_slice() {
            match search(&procedure.body, left) {
                Outcome::Found(instr) => return Some(instr),
                Outcome::Behind(behind) => left = behind,
            }
        }
        None
    }
}

#[cycle(search)]
fn search(body: &List<Instr>, number: u32) -> Outcome<'_>
    ensures { (n : ℕ) → body_nesting body.now ≤ n → Searches (in_order n body.now) number result }
{
    let mut left = number;
    for instr in body.as_slice() {
        let Some(less) = left.checked_sub(1) else {
            return Outcome::Found(instr);
        };
        match search_within(instr, less) {
            Outcome::Found(instr) => return Outcome::Found(instr),
            Outcome::Behind(behind) => left = behind,
        }
    }
    Outcome::Behind(left)
}

#[cycle(search)]
fn search_within(instr: &Instr, number: u32) -> Outcome<'_>
    ensures { (n : ℕ) → nesting instr.now ≤ suc n → Searches (in_order n (children instr.now)) number result }
{
    match inner(instr) {
        Within::Nothing => Outcome::Behind(number),
        Within::Body(body) => search(body, number),
        Within::Bodies(body, other) => match search(body, number) {
            Outcome::Found(instr) => Outcome::Found(instr),
            Outcome::Behind(left) => search(other, left),
        },
        Within::Branches(whens, other) => match search_branches(whens, number) {
            Outcome::Found(instr) => Outcome::Found(instr),
            Outcome::Behind(left) => search(other, left),
        },
    }
}

#[cycle(search)]
fn search_branches(whens: &List<Branch>, number: u32) -> Outcome<'_>
    ensures { (n : ℕ) → body_nesting (flat_map (λ (w : When). w.body) whens.now) ≤ n → Searches (in_order n (flat_map (λ (w : When). w.body) whens.now)) number result }
{
    let mut left = number;
    for when in whens.as_slice() {
        match search(&when.body, left) {
            Outcome::Found(instr) => return Outcome::Found(instr),
            Outcome::Behind(behind) => left = behind,
        }
    }
    Outcome::Behind(left)
}
