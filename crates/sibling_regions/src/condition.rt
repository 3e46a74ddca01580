ghost use Rattle.std.specs.Prelude.{◌≡◌, ◌≤◌, ◌<◌, All, IfOk, length, reverse, take};
ghost use Rattle.std.specs.Option.{ForSome, option_copied};
ghost use Rattle.match_patterns.specs.Fits.{at_current};
ghost use Rattle.node_stack.specs.Stack.{path};
ghost use Rattle.sheet_model.specs.Parts.{conditions};
ghost use Rattle.sheet_model.specs.declared.instr.Instr.TheViews.{out-Instr};
ghost use Rattle.sibling_regions.specs.Ends as spec;
ghost use Rattle.sibling_regions.specs.Standing.{ConditionsCanBeEvaluated};
ghost use Rattle.stxpath_syntax.specs.Shape.{PredicatesCanBeEvaluated};
ghost use Rattle.stxpath_syntax.specs.declared.expr.Pattern.{Pattern as Patterns};

use frame_stack::{Frame, Frames};
use instr_code::{Code, Op};
use match_patterns::{GroupVars, InGroup, matches};
use node_stack::NodeStack;
use sheet_model::{Instr, Sheet};
use std::alloc::Global;
use stx_base::{Limits, Memory};
use stxpath_eval::Vars;
use stxpath_syntax::Pattern;

/// Whether the current node ends the siblings that the operation at `asked` asked for, in the innermost body below a place.
pub fn asked_ends<G: GroupVars>(
    alloc: Global,
    asked: u32,
    frames: &Frames,
    place: usize,
    sheet: &Sheet,
    code: &Code,
    stack: &NodeStack,
    vars: &G,
    limits: &Limits,
) -> Result<bool, Memory>
    requires place { place < length frames.now.frames }
    requires conditions { ConditionsCanBeEvaluated code.now }
    ensures { IfOk result (λ b. b ≡ spec.asked_ends (record { sheet = sheet.now; code = code.now; path = path stack.now; vars = G.seen vars.now; limits = limits.now }) (take place frames.now.frames) asked) }
{
    let Some(group) = group_below(sheet, frames, place) else {
        return Ok(false);
    };
    let Some(instr) = instruction_at(code, asked) else {
        return Ok(false);
    };
    instruction_ends(alloc, instr, stack, &InGroup { all: vars, group }, limits)
}

/// The group of the innermost body below a place.
fn group_below(sheet: &Sheet, frames: &Frames, place: usize) -> Option<u32>
    requires { place < length frames.now.frames }
    ensures { result ≡ spec.innermost_group sheet.now (reverse (take place frames.now.frames)) }
{
    let mut below = place;
    while below > 0 {
        below -= 1;
        if let Some(group) = group_of(sheet, frames.at(below)) {
            return Some(group);
        }
    }
    None
}

/// The group of the body that a frame runs.
fn group_of(sheet: &Sheet, frame: &Frame) -> Option<u32>
    ensures { result ≡ spec.group_of sheet.now frame.now }
{
    match frame {
        Frame::Body { template, .. } => Some(sheet.templates.get(*template as usize)?.group),
        Frame::Call { procedure, .. } => Some(sheet.procedures.get(*procedure as usize)?.group),
        Frame::Attributes { .. } => None,
        Frame::Loop { .. } => None,
        Frame::Region { .. } => None,
        Frame::Source { .. } => None,
        Frame::Skip { .. } => None,
        Frame::Pass { .. } => None,
    }
}

/// The instruction whose operation stands at a place.
fn instruction_at(code: &Code, place: u32) -> Option<&Instr>
    ensures { option_copied result ≡ spec.instruction_at code.now place }
{
    match code.ops.get(place as usize)? {
        Op::Do { instr } => code.instrs.get(*instr as usize),
        Op::Begin { .. } => None,
        Op::Open { .. } => None,
        Op::Close { .. } => None,
        Op::Test { .. } => None,
        Op::Turn { .. } => None,
        Op::Jump { .. } => None,
        Op::Drop { .. } => None,
        Op::Return => None,
    }
}

/// Whether the current node ends the siblings that an instruction asked for.
fn instruction_ends<V: Vars>(
    alloc: Global,
    instr: &Instr,
    stack: &NodeStack,
    vars: &V,
    limits: &Limits,
) -> Result<bool, Memory>
    requires { All (λ (p : Patterns). All PredicatesCanBeEvaluated p.alternatives) (conditions (out-Instr instr.now)) }
    ensures { IfOk result (λ b. b ≡ spec.instruction_ends (at_current (V.value_of vars.now) limits.now (path stack.now)) instr.now) }
{
    let Instr::ProcessSiblings { going, until, .. } = instr else {
        return Ok(false);
    };
    if !fits_there(alloc, going, true, stack, vars, limits)? {
        return Ok(true);
    }
    fits_there(alloc, until, false, stack, vars, limits)
}

/// Whether the current node fits a pattern; `otherwise` where there is none.
fn fits_there<V: Vars>(
    alloc: Global,
    pattern: &Option<Pattern>,
    otherwise: bool,
    stack: &NodeStack,
    vars: &V,
    limits: &Limits,
) -> Result<bool, Memory>
    requires { ForSome pattern.now (λ p. All PredicatesCanBeEvaluated p.alternatives) }
    ensures { IfOk result (λ b. b ≡ spec.fits_there (at_current (V.value_of vars.now) limits.now (path stack.now)) otherwise pattern.now) }
{
    let Some(pattern) = pattern else {
        return Ok(otherwise);
    };
    for alternative in pattern.alternatives.as_slice() {
        if matches(alloc, alternative, stack, vars, limits)? {
            return Ok(true);
        }
    }
    Ok(false)
}
