ghost use Rattle.std.specs.Prelude.{◌≡◌, [], IfOk, OnOk, map};
ghost use Rattle.instr_code.specs.Bare.{bare, bare_when};
ghost use Rattle.instr_code.specs.Emitting.{inner_of, inner_locals};
ghost use Rattle.sheet_model.specs.declared.instr.When.{When as Branch};

use sheet_model::{Instr, When};
use std::alloc::Global;
use std::mem::replace;
use stx_base::{List, Memory};

/// The lists that stand inside an instruction.
#[derive(Drop)]
pub enum Inner {
    Nothing,
    /// None, in an instruction that leaves a local.
    Local,
    Round(List<Instr>),
    Choice(List<Instr>, List<Instr>),
    /// The bodies of branches, and a body behind them.
    Choices(List<List<Instr>>, List<Instr>),
    While(List<Instr>),
    ForEach(List<Instr>),
}

impl Inner {
    /// How many locals the instruction leaves.
    pub fn locals(&self) -> u32
        ensures { result ≡ inner_locals self.now }
    {
        match self {
            Inner::Local => 1,
            Inner::Nothing
            | Inner::Round(_)
            | Inner::Choice(..)
            | Inner::Choices(..)
            | Inner::While(_)
            | Inner::ForEach(_) => 0,
        }
    }
}

/// Takes the lists that stand inside an instruction out of it, and leaves empty ones there.
pub fn take_inner(alloc: Global, instr: &mut Instr) -> Result<Inner, Memory>
    ensures bare { OnOk result (instr.new ≡ bare instr.old) }
    ensures inner { IfOk result (λ inner. inner ≡ inner_of instr.old) }
{
    match instr {
        Instr::Copy { body, .. } => Ok(Inner::Round(take(alloc, body))),
        Instr::Element { body, .. } => Ok(Inner::Round(take(alloc, body))),
        Instr::ResultBuffer { body, .. } => Ok(Inner::Round(take(alloc, body))),
        Instr::Literal { body, .. } => Ok(Inner::Round(take(alloc, body))),
        Instr::If { body, other, .. } => Ok(Inner::Choice(take(alloc, body), take(alloc, other))),
        Instr::Choose { whens, other, .. } => {
            let (bare, bodies) = part_whens(alloc, take(alloc, whens))?;
            *whens = bare;
            Ok(Inner::Choices(bodies, take(alloc, other)))
        }
        Instr::While { body, .. } => Ok(Inner::While(take(alloc, body))),
        Instr::ForEachItem { body, .. } => Ok(Inner::ForEach(take(alloc, body))),
        Instr::Local { .. } => Ok(Inner::Local),
        _ => Ok(Inner::Nothing),
    }
}

/// Takes a list out of its place, and leaves an empty one there.
fn take<T: Drop>(alloc: Global, list: &mut List<T>) -> List<T>
    ensures taken { result ≡ list.old }
    ensures left { list.new ≡ [] }
{
    replace(list, List::new(alloc))
}

/// Branches with empty bodies, and their bodies.
fn part_whens(alloc: Global, whens: List<When>) -> Result<(List<When>, List<List<Instr>>), Memory>
    ensures bare { IfOk result (λ parts. parts.0 ≡ map bare_when whens) }
    ensures bodies { IfOk result (λ parts. parts.1 ≡ map (λ (w : Branch). w.body) whens) }
{
    let mut bare = List::new(alloc);
    let mut bodies = List::new(alloc);
    for when in whens.into_vec() {
        let When { test, body } = when;
        bare.push(When {
            test,
            body: List::new(alloc),
        })?;
        bodies.push(body)?;
    }
    Ok((bare, bodies))
}
