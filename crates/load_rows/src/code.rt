//! The code of sheets: the operations of all bodies, each with its place, and a bar before each body but the first. An instruction is told as
//! its kind and number.

ghost use Rattle.std.specs.Prelude.{IfOk};
ghost use Rattle.sheet_model.specs.Sound.{IsSound};
ghost use Rattle.sibling_regions.specs.Standing.{ConditionsCanBeEvaluated};

use crate::given::{OWN, host_of};
use instr_code::{Code, Compiled, Op, compile};
use rows::{Row, Trouble};
use sheet_files::{Loaded, load_sheet};
use sheet_model::Instr;
use sibling_regions::law;
use std::alloc::Global;
use std::fmt::Write;
use stx_base::{Limits, Text};

pub fn tell(alloc: Global, row: &Row, out: &mut String) -> Result<(), Trouble> {
    let compiled = compiled_of(alloc, row)?;
    let told = tell_bodies(&compiled.code, out);
    drop(compiled);
    told
}

/// The code of a sheet that is accepted.
pub fn compiled_of(alloc: Global, row: &Row) -> Result<Compiled, Trouble>
    ensures { IfOk result (λ compiled. ConditionsCanBeEvaluated compiled.code) }
{
    let mut host = host_of(alloc, row)?;
    let name = Text::of(alloc, OWN)?;
    match load_sheet(alloc, &mut host, &name, Limits::standard()) {
        Ok(loaded) => compiled(alloc, loaded),
        Err(outcome) => {
            drop(outcome);
            Err(Trouble::Row("a sheet that isn't accepted"))
        }
    }
}

fn compiled(alloc: Global, loaded: Loaded) -> Result<Compiled, Trouble>
    requires { IsSound loaded.sheet }
    ensures { IfOk result (λ compiled. ConditionsCanBeEvaluated compiled.code) }
{
    law::standing();
    let Loaded { sheet, files } = loaded;
    drop(files);
    Ok(compile(alloc, sheet)?)
}

fn tell_bodies(code: &Code, out: &mut String) -> Result<(), Trouble> {
    for (number, start) in code.starts.as_slice().iter().enumerate() {
        if number > 0 {
            out.push_str(" | ")?;
        }
        let behind = code.starts.get(number.saturating_add(1));
        let end = match behind {
            Some(next) => *next as usize,
            None => code.ops.len(),
        };
        tell_body(code, *start as usize, end, out)?;
    }
    Ok(())
}

/// The operations from a place to another.
fn tell_body(code: &Code, start: usize, end: usize, out: &mut String) -> Result<(), Trouble> {
    for place in start..end {
        if place > start {
            out.push_str(", ")?;
        }
        write!(out, "{place} ")?;
        match code.ops.get(place) {
            Some(op) => tell_op(code, *op, out)?,
            None => out.push_str("nothing")?,
        }
    }
    Ok(())
}

fn tell_op(code: &Code, op: Op, out: &mut String) -> Result<(), Trouble> {
    match op {
        Op::Do { instr } => write!(out, "do {}{instr}", kind_at(code, instr))?,
        Op::Begin { instr } => write!(out, "begin {}{instr}", kind_at(code, instr))?,
        Op::Open { instr, to } => write!(out, "open {}{instr}>{to}", kind_at(code, instr))?,
        Op::Close { instr } => write!(out, "close {}{instr}", kind_at(code, instr))?,
        Op::Test { instr, arm, to } => {
            write!(out, "test {}{instr}.{arm}>{to}", kind_at(code, instr))?
        }
        Op::Turn { instr, to } => write!(out, "turn {}{instr}>{to}", kind_at(code, instr))?,
        Op::Jump { to } => write!(out, "jump>{to}")?,
        Op::Drop { count } => write!(out, "drop {count}")?,
        Op::Return => out.push_str("return")?,
    }
    Ok(())
}

fn kind_at(code: &Code, number: u32) -> &'static str {
    match code.instrs.get(number as usize) {
        Some(instr) => kind(instr),
        None => "absent",
    }
}

/// An instruction by its element; a literal element or text as such.
fn kind(instr: &Instr) -> &'static str {
    match instr {
        Instr::ValueOf { .. } => "value-of",
        Instr::Chars { .. } => "text",
        Instr::Copy { .. } => "copy",
        Instr::Element { .. } => "element",
        Instr::StartElement { .. } => "start-element",
        Instr::EndElement { .. } => "end-element",
        Instr::Attribute { .. } => "attribute",
        Instr::Comment { .. } => "comment",
        Instr::Pi { .. } => "processing-instruction",
        Instr::Message { .. } => "message",
        Instr::If { .. } => "if",
        Instr::Choose { .. } => "choose",
        Instr::ForEachItem { .. } => "for-each-item",
        Instr::While { .. } => "while",
        Instr::Assign { .. } => "assign",
        Instr::CallProcedure { .. } => "call-procedure",
        Instr::ProcessChildren { .. } => "process-children",
        Instr::ProcessAttributes { .. } => "process-attributes",
        Instr::ProcessSelf { .. } => "process-self",
        Instr::ProcessSiblings { .. } => "process-siblings",
        Instr::ProcessBuffer { .. } => "process-buffer",
        Instr::ProcessDocument { .. } => "process-document",
        Instr::ResultBuffer { .. } => "result-buffer",
        Instr::Literal { .. } => "literal",
        Instr::LiteralChars { .. } => "chars",
        Instr::Local { .. } => "variable",
    }
}
