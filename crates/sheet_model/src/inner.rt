//! What stands within an instruction.

ghost use Rattle.std.specs.Prelude.{◌≡◌};
ghost use Rattle.sheet_model.specs.Body.{children};
ghost use Rattle.sheet_model.specs.Standing.{listed};

use crate::instr::{Instr, When};
use stx_base::List;

/// What stands directly within an instruction.
pub enum Within<'a> {
    Nothing,
    Body(&'a List<Instr>),
    /// One body behind another.
    Bodies(&'a List<Instr>, &'a List<Instr>),
    /// Branches, and a body behind them.
    Branches(&'a List<When>, &'a List<Instr>),
}

pub fn inner(instr: &Instr) -> Within<'_>
    ensures { children instr.now ≡ listed result }
{
    match instr {
        Instr::Copy { body, .. }
        | Instr::Element { body, .. }
        | Instr::ForEachItem { body, .. }
        | Instr::While { body, .. }
        | Instr::ResultBuffer { body, .. }
        | Instr::Literal { body, .. } => Within::Body(body),
        Instr::If { body, other, .. } => Within::Bodies(body, other),
        Instr::Choose { whens, other, .. } => Within::Branches(whens, other),
        Instr::ValueOf { .. }
        | Instr::Chars { .. }
        | Instr::StartElement { .. }
        | Instr::EndElement { .. }
        | Instr::Attribute { .. }
        | Instr::Comment { .. }
        | Instr::Pi { .. }
        | Instr::Message { .. }
        | Instr::Assign { .. }
        | Instr::CallProcedure { .. }
        | Instr::ProcessChildren { .. }
        | Instr::ProcessAttributes { .. }
        | Instr::ProcessSelf { .. }
        | Instr::ProcessSiblings { .. }
        | Instr::ProcessBuffer { .. }
        | Instr::ProcessDocument { .. }
        | Instr::LiteralChars { .. }
        | Instr::Local { .. } => Within::Nothing,
    }
}
