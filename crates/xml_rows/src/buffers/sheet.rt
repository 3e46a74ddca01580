//! A sheet of three buffers and nothing else: two of the group 0, and one of the group 1.

ghost use Rattle.std.specs.Prelude.{◌≡◌, ◌<◌, ◌++◌, ◌∷◌, ◌^◌, [], true, length, IfOk, OnOk};
ghost use Rattle.std.specs.List.{list_all};
ghost use Rattle.result_writer.specs.Target.{holds_cdata_text};
ghost use Rattle.sheet_model.specs.Sound.{BuffersAreWhole, IsContent, IsSmall};
ghost use Rattle.xml_rows.specs.Laid.{groups, AreShort};

use crate::writer::part_of;
use result_writer::{WriteStop, holds_cdata_text, write};
use rows::{Row, Trouble};
use sheet_model::{Buffer, Sheet};
use std::alloc::Global;
use stx_base::{List, Name, Part, Place, Text};

/// The sheet whose buffers begin with what a row sets under their names.
pub fn sheet_of(alloc: Global, row: &Row) -> Result<Sheet, Trouble>
    ensures whole { IfOk result (λ sheet. BuffersAreWhole sheet) }
    ensures small { IfOk result (λ sheet. IsSmall sheet) }
    ensures groups { IfOk result (λ sheet. groups sheet.buffers ≡ 0 ∷ 0 ∷ 1 ∷ []) }
{
    let mut buffers = List::new(alloc);
    match add_all(alloc, row, &mut buffers) {
        Ok(()) => Ok(sheet_with(alloc, buffers)),
        Err(trouble) => {
            drop(buffers);
            Err(trouble)
        }
    }
}

fn sheet_with(alloc: Global, buffers: List<Buffer>) -> Sheet
    requires short { AreShort buffers }
    requires groups { groups buffers ≡ 0 ∷ 0 ∷ 1 ∷ [] }
    ensures whole { BuffersAreWhole result }
    ensures small { IsSmall result }
    ensures buffers { result.buffers ≡ buffers }
{
    Sheet {
        groups: List::new(alloc),
        templates: List::new(alloc),
        procedures: List::new(alloc),
        buffers,
        variables: List::new(alloc),
        strip: false,
        cdata: true,
        files: List::new(alloc),
    }
}

fn add_all(alloc: Global, row: &Row, buffers: &mut List<Buffer>) -> Result<(), Trouble>
    requires { buffers.old ≡ [] }
    ensures short { OnOk result (AreShort buffers.new) }
    ensures groups { OnOk result (groups buffers.new ≡ 0 ∷ 0 ∷ 1 ∷ []) }
{
    add(alloc, row, "a", 0, buffers)?;
    add(alloc, row, "b", 0, buffers)?;
    add(alloc, row, "c", 1, buffers)
}

fn add(
    alloc: Global,
    row: &Row,
    name: &str,
    group: u32,
    buffers: &mut List<Buffer>,
) -> Result<(), Trouble>
    requires { AreShort buffers.old }
    ensures short { OnOk result (AreShort buffers.new) }
    ensures groups { OnOk result (groups buffers.new ≡ groups buffers.old ++ group ∷ []) }
{
    let content = content_of(alloc, row.setting(name).unwrap_or(""))?;
    Ok(buffers.push(buffer(alloc, group, content))?)
}

fn buffer(alloc: Global, group: u32, content: List<Part>) -> Buffer
    ensures group { result.group ≡ group }
    ensures content { result.content ≡ content }
{
    Buffer {
        group,
        name: Name {
            uri: Text::new(alloc),
            local: Text::new(alloc),
            prefix: Text::new(alloc),
        },
        content,
        at: Place { file: 0, offset: 0 },
    }
}

/// Parts with which a buffer may begin.
fn content_of(alloc: Global, written: &str) -> Result<List<Part>, Trouble>
    ensures content { IfOk result (λ parts. IsContent parts) }
    ensures few { IfOk result (λ parts. length parts < 2 ^ 20) }
{
    let parts = parts_of(alloc, written)?;
    match judge(alloc, &parts) {
        Ok(()) => Ok(parts),
        Err(trouble) => {
            drop(parts);
            Err(trouble)
        }
    }
}

fn parts_of(alloc: Global, written: &str) -> Result<List<Part>, Trouble> {
    let mut parts = List::new(alloc);
    let done = add_parts(alloc, written, &mut parts);
    match done {
        Ok(()) => Ok(parts),
        Err(trouble) => {
            drop(parts);
            Err(trouble)
        }
    }
}

fn add_parts(alloc: Global, written: &str, parts: &mut List<Part>) -> Result<(), Trouble> {
    if written.is_empty() {
        return Ok(());
    }
    for part in written.split(" | ") {
        parts.push(part_of(alloc, part)?)?;
    }
    Ok(())
}

/// Refuses parts with which no buffer may begin.
fn judge(alloc: Global, parts: &List<Part>) -> Result<(), Trouble>
    ensures content { OnOk result (IsContent parts.now) }
    ensures few { OnOk result (length parts.now < 2 ^ 20) }
{
    if parts.len() >= 1 << 20 || !hold_cdata_texts(parts.as_slice()) {
        return Err(Trouble::Row("content that is too long, or no text of a CDATA section"));
    }
    match write(alloc, parts.len() as u32, parts) {
        Ok(written) => {
            drop(written);
            Ok(())
        }
        Err(WriteStop::Fault(_)) => Err(Trouble::Row("content with a fault")),
        Err(WriteStop::Memory) => Err(Trouble::Memory),
    }
}

fn hold_cdata_texts(parts: &[Part]) -> bool
    ensures { result ≡ list_all holds_cdata_text parts.now }
{
    parts.iter().all(|part| holds_cdata_text(part))
}
