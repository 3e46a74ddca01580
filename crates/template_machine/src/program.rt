//! A sheet that is ready to run.

ghost use Rattle.std.specs.Prelude.{◌≡◌, ◌+◌, ◌^◌, ◌<◌, ◌≤◌, ℕ, false, IfOk, IsSome, Some, length, option_map, slice_get};
ghost use Rattle.std.specs.Option.{option_copied, option_map_or};
ghost use Rattle.stx_base.specs.declared.node.NodeTest.TheVariants.{Document};
ghost use Rattle.match_patterns.specs.Fits.{test_of};
ghost use Rattle.sheet_model.specs.Parts as parts;
ghost use Rattle.sheet_model.specs.Sound.{IsSmall, IsSound};
ghost use Rattle.sheet_model.specs.declared.instr.Instr.TheViews.{out-Instr};
ghost use Rattle.template_machine.specs.Finding as finding;
ghost use Rattle.template_machine.specs.Programs as spec;
ghost use Rattle.template_machine.specs.Programs.{AreLinked, IsLaidOut, IsLinked, IsOf, IsProgramOf};
ghost use Rattle.template_machine.specs.Seen.{ParentsStandBefore};

use crate::finding::{buffer_seen, group_named, procedure_seen};
use crate::turn::Param;
use group_scope::Scope;
use instr_code::{Code, Compiled, Op, compile};
use sheet_model::{Group, Instr, Sheet, WithParam};
use std::alloc::Global;
use stx_base::{Limits, List, Memory, Name, NodeTest, Part, Place};
use stxpath_syntax::Alternative;

/// What an instruction leads to.
#[derive(Clone, Copy, Debug, PartialEq, Eq)]
pub struct Link {
    /// The base group for the nodes that it processes.
    pub base: u32,
    /// The procedure or the buffer that it names.
    pub named: u32,
}

/// All of a run that stays as it is.
#[derive(Drop)]
pub struct Program {
    /// Without its bodies.
    pub sheet: Sheet,
    pub code: Code,
    pub scope: Scope,
    /// By the instructions' numbers.
    pub links: List<Link>,
    pub limits: Limits,
    /// How many elements of a buffer may be open at once.
    pub buffer_depth: u32,
    pub test_of_root: NodeTest,
    /// What the command gives for the parameters of the root group.
    pub params: List<Param>,
}

impl Program {
    pub fn new(
        alloc: Global,
        sheet: Sheet,
        limits: Limits,
        params: List<Param>,
    ) -> Result<Program, Memory>
        requires { IsSound sheet }
        ensures program { IfOk result (IsProgramOf sheet limits) }
        ensures params { IfOk result (λ p. p.params ≡ params) }
    {
        let compiled = compile(alloc, sheet)?;
        let scope = Scope::build(alloc, &compiled.sheet)?;
        let links = links(alloc, &compiled.sheet, &compiled.code)?;
        let buffer_depth = buffer_depth(&compiled.sheet, &limits);
        let Compiled { sheet, code } = compiled;
        Ok(Program {
            sheet,
            code,
            scope,
            links,
            limits,
            buffer_depth,
            test_of_root: NodeTest::Document,
            params,
        })
    }

    #[inline(always)]
    pub fn op(&self, pc: u32) -> Op
        requires { pc < length self.now.code.ops }
        ensures { slice_get self.now.code.ops pc ≡ Some result }
    {
        self.code.ops.as_slice()[pc as usize]
    }

    #[inline(always)]
    pub fn instr(&self, number: u32) -> &Instr
        requires { number < length self.now.code.instrs }
        ensures { slice_get self.now.code.instrs number ≡ Some result.now }
    {
        &self.code.instrs.as_slice()[number as usize]
    }

    #[inline(always)]
    pub fn link(&self, number: u32) -> Link
        requires { number < length self.now.links }
        ensures { slice_get self.now.links number ≡ Some result }
    {
        self.links.as_slice()[number as usize]
    }

    #[inline(always)]
    pub fn group(&self, number: u32) -> &Group
        requires { number < length self.now.sheet.groups }
        ensures { slice_get self.now.sheet.groups number ≡ Some result.now }
    {
        &self.sheet.groups.as_slice()[number as usize]
    }

    /// The process instruction that the operation at a place runs.
    pub fn instr_asked(&self, asked: u32) -> &Instr
        requires { IsSome (spec.instr_at self.now.code asked) }
        ensures { spec.instr_at self.now.code asked ≡ Some result.now }
    {
        self.instr_at(asked).unwrap()
    }

    /// What it leads to.
    pub fn link_asked(&self, asked: u32) -> Link
        requires { IsSome (spec.link_at self.now asked) }
        ensures { spec.link_at self.now asked ≡ Some result }
    {
        self.link_at(asked).unwrap()
    }

    /// Whether the operation before a place asks for the children of a node.
    pub fn is_behind_children(&self, pc: u32) -> bool
        ensures { result ≡ spec.is_behind_children self.now.code pc }
    {
        match pc.checked_sub(1) {
            Some(before) => self.asks_for_children(before),
            None => false,
        }
    }

    fn asks_for_children(&self, place: u32) -> bool
        ensures { result ≡ option_map_or (λ i. spec.asks_for_children (out-Instr i)) (spec.instr_at self.now.code place) false }
    {
        match self.instr_at(place) {
            Some(instr) => asks_for_children(instr),
            None => false,
        }
    }

    /// The instruction that the operation at a place runs, if it runs one.
    fn instr_at(&self, place: u32) -> Option<&Instr>
        ensures { option_copied result ≡ spec.instr_at self.now.code place }
    {
        let number = self.number_at(place)?;
        self.code.instrs.get(number as usize)
    }

    fn link_at(&self, place: u32) -> Option<Link>
        ensures { result ≡ spec.link_at self.now place }
    {
        let number = self.number_at(place)?;
        self.links.get(number as usize).copied()
    }

    fn number_at(&self, place: u32) -> Option<u32>
        ensures { result ≡ spec.number_at self.now.code place }
    {
        let op = self.code.ops.get(place as usize)?;
        done_by(*op)
    }

    /// Where a template's body begins.
    pub fn start_of_template(&self, template: u32) -> u32
        requires { template < length self.now.code.starts }
        ensures { slice_get self.now.code.starts template ≡ Some result }
    {
        self.code.starts.as_slice()[template as usize]
    }

    pub fn start_of_procedure(&self, procedure: u32) -> u32
        requires { length self.now.sheet.templates + procedure < length self.now.code.starts }
        ensures { slice_get self.now.code.starts (length self.now.sheet.templates + procedure) ≡ Some result }
    {
        self.code.starts.as_slice()[self.sheet.templates.len() + procedure as usize]
    }

    /// The test by which the node of a template that was chosen by an alternative counts its position.
    pub fn test(&self, template: u32, alternative: u32) -> &NodeTest
        requires template { template < length self.now.sheet.templates }
        requires alternative { alternative < length (spec.alternatives_of self.now.sheet template) }
        requires root { self.now.test_of_root ≡ Document }
        ensures { option_map test_of (slice_get (spec.alternatives_of self.now.sheet template) alternative) ≡ Some result.now }
    {
        let template = &self.sheet.templates.as_slice()[template as usize];
        match &template.pattern.alternatives.as_slice()[alternative as usize] {
            Alternative::Root => &self.test_of_root,
            Alternative::Steps(steps) => match steps.last() {
                Some(step) => &step.test,
                None => &self.test_of_root,
            },
        }
    }

    pub fn root_test(&self) -> &NodeTest
        ensures { result.now ≡ self.now.test_of_root }
    {
        &self.test_of_root
    }
}

/// The instruction that an operation runs, if it runs one.
fn done_by(op: Op) -> Option<u32>
    ensures { result ≡ spec.done_by op }
{
    match op {
        Op::Do { instr } => Some(instr),
        Op::Begin { .. } => None,
        Op::Open { .. } => None,
        Op::Close { .. } => None,
        Op::Test { .. } => None,
        Op::Turn { .. } => None,
        Op::Jump { .. } => None,
        Op::Drop { .. } => None,
        Op::Return => None,
    }
}

fn asks_for_children(instr: &Instr) -> bool
    ensures { result ≡ spec.asks_for_children (out-Instr instr.now) }
{
    matches!(instr, Instr::ProcessChildren { .. })
}

/// The values that an instruction hands to parameters.
pub fn handed(instr: &Instr) -> &[WithParam]
    ensures { result.now ≡ parts.handed (out-Instr instr.now) }
{
    match instr {
        Instr::CallProcedure { params, .. }
        | Instr::ProcessChildren { params, .. }
        | Instr::ProcessAttributes { params, .. }
        | Instr::ProcessSelf { params, .. }
        | Instr::ProcessSiblings { params, .. }
        | Instr::ProcessBuffer { params, .. }
        | Instr::ProcessDocument { params, .. } => params.as_slice(),
        _ => &[],
    }
}

/// The instruction's place in the sheet.
pub fn place_of(instr: &Instr) -> Place
    ensures { result ≡ parts.place (out-Instr instr.now) }
{
    match instr {
        Instr::ValueOf { at, .. }
        | Instr::Chars { at, .. }
        | Instr::Copy { at, .. }
        | Instr::Element { at, .. }
        | Instr::StartElement { at, .. }
        | Instr::EndElement { at, .. }
        | Instr::Attribute { at, .. }
        | Instr::Comment { at, .. }
        | Instr::Pi { at, .. }
        | Instr::Message { at, .. }
        | Instr::If { at, .. }
        | Instr::Choose { at, .. }
        | Instr::ForEachItem { at, .. }
        | Instr::While { at, .. }
        | Instr::Assign { at, .. }
        | Instr::CallProcedure { at, .. }
        | Instr::ProcessChildren { at, .. }
        | Instr::ProcessAttributes { at, .. }
        | Instr::ProcessSelf { at, .. }
        | Instr::ProcessSiblings { at, .. }
        | Instr::ProcessBuffer { at, .. }
        | Instr::ProcessDocument { at, .. }
        | Instr::ResultBuffer { at, .. }
        | Instr::Literal { at, .. }
        | Instr::LiteralChars { at, .. }
        | Instr::Local { at, .. } => *at,
    }
}

/// What each instruction leads to, by the group in which its body stands.
fn links(alloc: Global, sheet: &Sheet, code: &Code) -> Result<List<Link>, Memory>
    requires parents { ParentsStandBefore sheet.now.groups }
    requires small { IsSmall sheet.now }
    requires laid_out { IsLaidOut sheet.now code.now }
    ensures all { IfOk result (λ links. length links ≡ length code.now.instrs) }
    ensures linked { IfOk result (AreLinked sheet.now code.now) }
{
    let mut links = unlinked(alloc, code.instrs.len())?;
    for body in 0..code.starts.len() {
        link_body(&mut links, sheet, code, body);
    }
    Ok(links)
}

/// So many links that lead nowhere yet.
fn unlinked(alloc: Global, count: usize) -> Result<List<Link>, Memory>
    ensures { IfOk result (λ links. length links ≡ count) }
{
    let mut links = List::new(alloc);
    'links: for _link in 0..count {
        links.push(Link { base: 0, named: 0 })?;
    }
    Ok(links)
}

/// Links the instructions of a body.
fn link_body(links: &mut List<Link>, sheet: &Sheet, code: &Code, body: usize)
    requires parents { ParentsStandBefore sheet.now.groups }
    requires small { IsSmall sheet.now }
    requires laid_out { IsLaidOut sheet.now code.now }
    requires body { body < length code.now.starts }
    requires all { length links.old ≡ length code.now.instrs }
    ensures all { length links.new ≡ length code.now.instrs }
    ensures linked { (group number : ℕ) → slice_get (spec.groups_of sheet.now) body ≡ Some group → IsOf code.now body number → IsLinked sheet.now code.now links.new group number }
    ensures others { (number : ℕ) → ¬ IsOf code.now body number → slice_get links.new number ≡ slice_get links.old number }
{
    let group = group_of_body(sheet, body);
    let start = start_of(code, body);
    let end = end_of(code, body);
    'places: for place in start..end {
        link_op(links, sheet, code, group, code.ops.as_slice()[place]);
    }
}

/// Links the instruction that an operation is for, if it is for one.
fn link_op(links: &mut List<Link>, sheet: &Sheet, code: &Code, group: u32, op: Op)
    requires parents { ParentsStandBefore sheet.now.groups }
    requires small { IsSmall sheet.now }
    requires numbered { (number : ℕ) → spec.instr_of op ≡ Some number → number < length code.now.instrs }
    requires all { length links.old ≡ length code.now.instrs }
    ensures all { length links.new ≡ length code.now.instrs }
    ensures linked { (number : ℕ) → spec.instr_of op ≡ Some number → IsLinked sheet.now code.now links.new group number }
    ensures others { (number : ℕ) → (spec.instr_of op ≡ Some number → ⊥) → slice_get links.new number ≡ slice_get links.old number }
{
    if let Some(number) = instr_of(op) {
        let instr = &code.instrs.as_slice()[number as usize];
        links.set(number as usize, link_from(sheet, group, instr));
    }
}

/// Where the code of a body begins.
fn start_of(code: &Code, body: usize) -> usize
    requires { body < length code.now.starts }
    ensures { slice_get code.now.starts body ≡ Some result }
{
    code.starts.as_slice()[body] as usize
}

/// Where it ends.
fn end_of(code: &Code, body: usize) -> usize
    requires { body < length code.now.starts }
    ensures { result ≡ spec.end_of code.now body }
{
    let bodies = code.starts.len();
    if body + 1 < bodies {
        code.starts.as_slice()[body + 1] as usize
    } else {
        code.ops.len()
    }
}

/// The number of the instruction that an operation is for.
fn instr_of(op: Op) -> Option<u32>
    ensures { result ≡ spec.instr_of op }
{
    match op {
        Op::Do { instr } => Some(instr),
        Op::Begin { instr } => Some(instr),
        Op::Open { instr, .. } => Some(instr),
        Op::Close { instr } => Some(instr),
        Op::Test { instr, .. } => Some(instr),
        Op::Turn { instr, .. } => Some(instr),
        Op::Jump { .. } => None,
        Op::Drop { .. } => None,
        Op::Return => None,
    }
}

/// The group in which a body stands.
fn group_of_body(sheet: &Sheet, body: usize) -> u32
    requires { body < length (spec.groups_of sheet.now) }
    ensures { slice_get (spec.groups_of sheet.now) body ≡ Some result }
{
    match sheet.templates.get(body) {
        Some(template) => template.group,
        None => {
            let procedure = body - sheet.templates.len();
            sheet.procedures.as_slice()[procedure].group
        }
    }
}

/// What an instruction leads to that stands in a group.
fn link_from(sheet: &Sheet, stands_in: u32, instr: &Instr) -> Link
    requires parents { ParentsStandBefore sheet.now.groups }
    requires small { IsSmall sheet.now }
    ensures { result ≡ spec.link_of sheet.now stands_in instr.now }
{
    match instr {
        Instr::ProcessChildren { group, .. } => to_base(sheet, group, stands_in),
        Instr::ProcessAttributes { group, .. } => to_base(sheet, group, stands_in),
        Instr::ProcessSelf { group, .. } => to_base(sheet, group, stands_in),
        Instr::ProcessSiblings { group, .. } => to_base(sheet, group, stands_in),
        Instr::ProcessDocument { group, .. } => to_base(sheet, group, stands_in),
        Instr::ProcessBuffer { name, group, .. } => Link {
            base: base_of(sheet, group, stands_in),
            named: buffer_seen(sheet, stands_in, name).unwrap_or(0),
        },
        Instr::ResultBuffer { name, .. } => Link {
            base: stands_in,
            named: buffer_seen(sheet, stands_in, name).unwrap_or(0),
        },
        Instr::CallProcedure { name, .. } => Link {
            base: stands_in,
            named: procedure_seen(sheet, stands_in, name).unwrap_or(0),
        },
        _ => Link {
            base: stands_in,
            named: 0,
        },
    }
}

/// The link of an instruction that names no more than a base group.
fn to_base(sheet: &Sheet, named: &Option<Name>, stands_in: u32) -> Link
    requires { IsSmall sheet.now }
    ensures { result ≡ record { base = finding.base_of sheet.now named.now stands_in; named = 0 } }
{
    Link {
        base: base_of(sheet, named, stands_in),
        named: 0,
    }
}

/// The group that a process instruction names, or else the one in which it stands.
fn base_of(sheet: &Sheet, named: &Option<Name>, stands_in: u32) -> u32
    requires { IsSmall sheet.now }
    ensures { result ≡ finding.base_of sheet.now named.now stands_in }
{
    match named {
        None => stands_in,
        Some(name) => group_named(sheet, name),
    }
}

/// As many elements as parts that are put may leave open, or as declared content has.
fn buffer_depth(sheet: &Sheet, limits: &Limits) -> u32
    requires { IsSmall sheet.now }
    ensures { result ≡ spec.buffer_depth sheet.now limits.now }
{
    let mut deepest = limits.elements;
    for buffer in sheet.buffers.as_slice() {
        deepest = deepest.max(depth_of(&buffer.content));
    }
    deepest
}

/// How deep the elements of parts nest.
fn depth_of(parts: &List<Part>) -> u32
    requires { length parts.now < 2 ^ 32 }
    ensures { result ≡ spec.deepest parts.now }
{
    let mut open = 0u32;
    let mut deepest = 0u32;
    for part in parts.as_slice() {
        open = open_behind(open, part);
        deepest = deepest.max(open);
    }
    deepest
}

/// How many elements are open behind a part.
fn open_behind(count: u32, part: &Part) -> u32
    requires { count + 1 < 2 ^ 32 }
    ensures { result ≡ spec.open_behind count part.now }
{
    match part {
        Part::Start { .. } => count + 1,
        Part::End { .. } => count.saturating_sub(1),
        _ => count,
    }
}
