ghost use Rattle.std.specs.Prelude.{◌≡◌, IfOk};
ghost use Rattle.instr_code.specs.Code.{compiled_of};
ghost use Rattle.sheet_model.specs.Sound.{IsFlat, IsSmall};

use crate::bodies::Bodies;
use sheet_model::{Instr, Sheet};
use std::alloc::Global;
use stx_base::{List, Memory};

/// One step of a body. `instr` is the number of its instruction, and `to` a place in the same body.
#[derive(Clone, Copy, Debug, PartialEq, Eq)]
pub enum Op {
    /// Runs an instruction that has no list inside.
    Do { instr: u32 },
    /// Begins a `choose` or a loop.
    Begin { instr: u32 },
    /// Begins an instruction round a list; one whose list isn't run goes to `to`, behind its end.
    Open { instr: u32, to: u32 },
    /// Ends an instruction round a list.
    Close { instr: u32 },
    /// Asks a test, and goes to `to` where it fails. `arm` is the number of a `when` in its `choose`, from 0, else 0.
    Test { instr: u32, arm: u32, to: u32 },
    /// Takes the next turn of a `for-each-item`, and goes to `to` after the last.
    Turn { instr: u32, to: u32 },
    Jump { to: u32 },
    /// Takes the last locals off, at the end of a list.
    Drop { count: u32 },
    /// Ends the body.
    Return,
}

/// The bodies of a sheet as operations.
#[derive(Drop)]
pub struct Code {
    /// One body behind another.
    pub ops: List<Op>,
    /// Where each body begins: those of the templates in order, and then those of the procedures.
    pub starts: List<u32>,
    /// The instructions by their numbers, each with empty lists in place of those inside.
    pub instrs: List<Instr>,
}

/// A sheet with empty bodies, and its code.
#[derive(Drop)]
pub struct Compiled {
    pub sheet: Sheet,
    pub code: Code,
}

/// Lays the bodies of a sheet out as code, and moves the instructions out of it. It recurses as deep as instructions nest.
pub fn compile(alloc: Global, sheet: Sheet) -> Result<Compiled, Memory>
    requires small { IsSmall sheet }
    requires flat { IsFlat sheet }
    ensures { IfOk result (λ compiled. compiled ≡ compiled_of sheet) }
{
    let Sheet {
        groups,
        templates,
        procedures,
        buffers,
        variables,
        strip,
        cdata,
        files,
    } = sheet;
    let mut bodies = Bodies::new(alloc);
    let templates = bodies.put_templates(templates)?;
    let procedures = bodies.put_procedures(procedures)?;
    let sheet = Sheet {
        groups,
        templates,
        procedures,
        buffers,
        variables,
        strip,
        cdata,
        files,
    };
    let code = bodies.into_code();
    Ok(Compiled { sheet, code })
}
