//! A sheet of which the front is read.

ghost use Rattle.std.specs.Prelude.{◌≡◌, ◌∷◌, [], ◌++◌, IfOk, OnOk};
ghost use Rattle.sheet_loader.specs.Drafts.{loading_of};
ghost use Rattle.sheet_loader.specs.Events.{stage_of};
ghost use Rattle.sheet_loader.specs.Judging as judging;
ghost use Rattle.sheet_loader.specs.Known as known;
ghost use Rattle.sheet_loader.specs.Levels.{name_at};
ghost use Rattle.sheet_loader.specs.Named.{names_of};
ghost use Rattle.sheet_loader.specs.Meant.{inside_of};
ghost use Rattle.sheet_loader.specs.Remaining as remaining;
ghost use Rattle.sheet_loader.specs.Sound.{IsSound};

mod ending;
mod starting;

use crate::frame::{Frame, OpenFile};
use crate::register::Register;
use indexmap::IndexSet;
use sheet_model::Sheet;
use std::alloc::Global;
use std::mem;
use stx_base::{List, Memory, Part, Place, SheetCode, Text};

/// The sheet so far, and where its files are being read.
#[derive(Drop)]
pub struct Draft {
    alloc: Global,
    /// The name of the sheet's own file.
    own: Text,
    /// With the names of the files that were included, in the order of opening.
    sheet: Sheet,
    register: Register,
    /// What the content of a buffer came to so far.
    parts: List<Part>,
    /// The innermost list, and those around it, the innermost last.
    top: Frame,
    below: Vec<Frame>,
    /// The file that is read.
    file: OpenFile,
    /// The names of the files that are read, but for the sheet's own.
    reading: IndexSet<String>,
}

impl Draft {
    /// Begins with the sheet's own file.
    pub fn new(alloc: Global, own: Text) -> Draft
        ensures sound { IsSound result }
        ensures beginning { remaining.Reads_on (stage_of result) ≡ remaining.beginning own }
    {
        let sheet = Sheet {
            groups: List::new(alloc),
            templates: List::new(alloc),
            procedures: List::new(alloc),
            buffers: List::new(alloc),
            variables: List::new(alloc),
            strip: false,
            cdata: false,
            files: List::new(alloc),
        };
        Draft {
            alloc,
            own,
            sheet,
            register: Register::new(alloc),
            parts: List::new(alloc),
            top: Frame::of_sheet(alloc),
            below: Vec::new(alloc),
            file: OpenFile::new(alloc, 0),
            reading: IndexSet::new(alloc),
        }
    }

    /// A place of the file that is read.
    pub fn place(&self, offset: u64) -> Place
        ensures { result ≡ record { file = self.now.file.number; offset = offset } }
    {
        Place {
            file: self.file.number,
            offset,
        }
    }

    /// The first reference that finds nothing in the whole sheet.
    pub fn first_lost(&mut self) -> Option<(SheetCode, Place)>
        requires { IsSound self.old }
        ensures lost { result ≡ known.first_lost_of (known.known self.old.register) (loading_of self.old).sheet }
        ensures others { self.new ≡ record self.old { register = self.new.register } }
    {
        self.register.first_lost(&self.sheet.groups)
    }

    fn is_declared(&self) -> bool
        ensures { result ≡ judging.is_declared_here (inside_of self.now.top.inside) }
    {
        self.top.inside.is_of_declarations()
    }

    /// Begins a list within the innermost one.
    fn push(&mut self, frame: Frame) -> Result<(), Memory>
        ensures { OnOk result (self.new ≡ record self.old { top = frame; below = self.new.below } × (self.new.below.items ≡ self.old.below.items ++ self.old.top ∷ [])) }
    {
        let around = mem::replace(&mut self.top, frame);
        self.below.push(around)?;
        Ok(())
    }

    /// The content of a buffer has a part more.
    fn take_part(&mut self, part: Part) -> Result<(), Memory>
        ensures { OnOk result (self.new ≡ record self.old { parts = self.old.parts ++ part ∷ [] }) }
    {
        self.parts.push(part)
    }

    /// What was read, where all is read.
    pub fn into_sheet(self) -> Result<Sheet, Memory>
        ensures { IfOk result (λ sheet. sheet ≡ (loading_of self).sheet) }
    {
        let Draft {
            alloc,
            own,
            sheet,
            register,
            parts,
            top,
            below,
            file,
            reading,
        } = self;
        drop(register);
        drop(parts);
        drop(top);
        drop(below);
        drop(file);
        drop(reading);
        with_own(alloc, sheet, own)
    }

    /// The name of a file by its number: the sheet's own has the first. Past the last it is empty.
    pub fn into_file_name(self, file: u32) -> Text
        ensures { result ≡ name_at (names_of self) file }
    {
        let Draft {
            alloc,
            own,
            sheet,
            ..
        } = self;
        let Sheet { files, .. } = sheet;
        file_named(alloc, own, files, file)
    }
}

fn file_named(alloc: Global, own: Text, included: List<Text>, file: u32) -> Text
    ensures { result ≡ name_at (own ∷ included) file }
{
    match file.checked_sub(1) {
        None => own,
        Some(place) => {
            drop(own);
            nth(alloc, included, place)
        }
    }
}

/// A text by its place; past the last it is empty.
fn nth(alloc: Global, texts: List<Text>, place: u32) -> Text
    ensures { result ≡ name_at texts place }
{
    let mut texts = texts.into_vec();
    let place = place as usize;
    if place < texts.len() {
        texts.swap_remove(place)
    } else {
        Text::new(alloc)
    }
}

/// The sheet, with the name of its own file before those of the others.
fn with_own(alloc: Global, sheet: Sheet, own: Text) -> Result<Sheet, Memory>
    ensures { IfOk result (λ made. made ≡ record sheet { files = own ∷ sheet.files }) }
{
    let mut sheet = sheet;
    let included = mem::replace(&mut sheet.files, List::new(alloc));
    match add_files(&mut sheet.files, own, included) {
        Ok(()) => Ok(sheet),
        Err(error) => {
            drop(sheet);
            Err(error)
        }
    }
}

fn add_files(files: &mut List<Text>, own: Text, included: List<Text>) -> Result<(), Memory>
    ensures { OnOk result (files.new ≡ files.old ++ own ∷ included) }
{
    files.push(own)?;
    for name in included.into_vec() {
        files.push(name)?;
    }
    Ok(())
}
