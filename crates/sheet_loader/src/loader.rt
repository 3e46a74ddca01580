//! Reads a sheet from events: where its files are read, and what comes next.

ghost use Rattle.std.specs.Prelude.{◌≡◌, ◌∷◌, [], true, Some, None, List, Option, IfOk, IfErr, IsErr, IsOk, IsSome, OnErr, OnOk};
ghost use Rattle.std.specs.Option.{option_copied};
ghost use Rattle.stx_base.specs.declared.fault.Place as place;
ghost use Rattle.sheet_loader.specs.Events.{progress_at_end};
ghost use Rattle.sheet_loader.specs.Load.{sheet_of};
ghost use Rattle.sheet_loader.specs.Levels.{name_at};
ghost use Rattle.sheet_loader.specs.Lists.{FilesAre, KeepsLists, OpensList};
ghost use Rattle.sheet_loader.specs.Named.{names_of};
ghost use Rattle.sheet_loader.specs.Loaders.{EndsAtLimit, EndsBad, EndsInFault, GivesSheet, MissesIt, OpensIt, OpensName, TakesEvent, is_over as over, is_refused, stopped_at, wanted_in};
ghost use Rattle.sheet_loader.specs.Progress as stands;
ghost use Rattle.sheet_loader.specs.Reading.{File};
ghost use Rattle.sheet_loader.specs.Remaining.{Spent, beginning, remaining};
ghost use Rattle.sheet_loader.specs.Sound.{IsSound};
ghost use Rattle.sheet_loader.specs.Values.{Reads};
ghost use Rattle.sheet_loader.specs.Versions.{language, version_of};
ghost use Rattle.stx_base.specs.Course.{Say};

use crate::draft::Draft;
use crate::refused::Stop;
use sheet_model::Sheet;
use std::alloc::Global;
use std::marker::Model;
use std::mem;
use stx_base::{Limits, Memory, Place, SheetCode, SheetFault, Text, XmlFault};
use thiserror::Error;
use xml_events::Event;

/// Why there is no sheet.
#[derive(Debug, Drop, Error)]
pub enum LoadStop {
    #[error("{0}")]
    Fault(SheetFault),
    #[error("out of memory")]
    Memory,
}

/// How far reading came.
#[derive(Drop)]
enum Progress {
    Reads,
    /// An include, whose start tag is here, wants this file.
    Wants(Text, Place),
    /// The sheet's own file was read to its end.
    Ended,
    Refused(SheetCode, Place),
    /// Want of memory.
    Spent,
}

/// Reads a sheet from the events of its files.
#[derive(Drop)]
pub struct Loader {
    draft: Draft,
    progress: Progress,
}

impl Progress {
    /// Why nothing more is read, where a fault was found or memory was wanting.
    fn stop(&self) -> Option<Stop>
        ensures { result ≡ stands.stop_of self.now }
    {
        match self {
            Progress::Refused(code, at) => Some(Stop::Fault(*code, *at)),
            Progress::Spent => Some(Stop::Memory),
            _ => None,
        }
    }

    fn turn_to(&mut self, next: Progress)
        ensures { self.new ≡ next }
    {
        *self = next;
    }
}

impl Model for Loader {
    ghost use Rattle.sheet_loader.specs.Loaders.{Standing};

    ghost Value = { Standing };

    ghost use Rattle.std.specs.Coded.{codes};
    ghost use Rattle.stxpath_syntax.specs.contracts.expr.Expr as expr;
    ghost use Rattle.sheet_model.specs.contracts.instr.Instr as instr;

    ghost coded = { Prim.hlevel (codes, expr.the_row.coded, instr.the_row.coded) };

    ghost use Rattle.sheet_loader.specs.Standings.{standing_of, IsSoundLoader};

    ghost view = { standing_of };

    ghost invariant = { IsSoundLoader };
}

/// Where a loader stands behind a tag that is here.
fn behind_tag(at: Place, wanted: Result<Option<Text>, Stop>) -> Progress
    ensures { result ≡ stands.behind_tag at wanted }
{
    match wanted {
        Ok(None) => Progress::Reads,
        Ok(Some(name)) => Progress::Wants(name, at),
        Err(stop) => Progress::from(stop),
    }
}

fn behind_end(ended: Result<bool, Stop>) -> Progress
    ensures { result ≡ stands.behind_end ended }
{
    match ended {
        Ok(true) => Progress::Ended,
        Ok(false) => Progress::Reads,
        Err(stop) => Progress::from(stop),
    }
}

fn behind_node(taken: Result<(), Stop>) -> Progress
    ensures { result ≡ stands.behind_node taken }
{
    match taken {
        Ok(()) => Progress::Reads,
        Err(stop) => Progress::from(stop),
    }
}

impl From<Stop> for Progress {
    ghost use Rattle.std.specs.Prelude.{◌≡◌};
    ghost use Rattle.sheet_loader.specs.Progress.{stopped};

    ghost from_gives = { λ stop made. made ≡ stopped stop };

    fn from(stop: Stop) -> Progress {
        match stop {
            Stop::Fault(code, at) => Progress::Refused(code, at),
            Stop::Memory => Progress::Spent,
        }
    }
}

/// Takes the next event of the file that is read, where the loader reads on.
fn take(draft: &mut Draft, event: Event) -> Progress
    requires { IsSound draft.old }
    ensures { stands.TakesOr event draft.old draft.new result }
{
    match event {
        Event::Start {
            offset,
            name,
            attrs,
            decls,
            ..
        } => {
            let at = draft.place(offset);
            behind_tag(at, draft.start(offset, name, attrs, decls))
        }
        Event::End { .. } => behind_end(draft.end()),
        Event::DocumentEnd { .. } => behind_end(draft.end()),
        Event::Chars { offset, text } => behind_node(draft.text(offset, text)),
        Event::CData { offset, text } => behind_node(draft.text(offset, text)),
        Event::Comment { .. } => Progress::Reads,
        Event::Pi { .. } => Progress::Reads,
    }
}

/// The same, where want of memory is told apart.
fn advance(draft: &mut Draft, event: Event) -> Result<Progress, Memory>
    requires { IsSound draft.old }
    ensures { IfOk result (λ progress. stands.Takes event draft.old draft.new progress) }
{
    match take(draft, event) {
        Progress::Spent => Err(Memory),
        progress => Ok(progress),
    }
}

impl Loader {
    /// Begins with the sheet's own file.
    pub fn new(alloc: Global, _limits: Limits, file: Text) -> Loader
        ensures names { result.names ≡ file ∷ [] }
        ensures beginning { result.progress ≡ beginning file }
        ensures sheet { (reads : Reads) (own : File) (others : List (Option File)) → own.version ≡ version_of language own.nodes → sheet_of reads file (Some own ∷ others) ≡ Say file (remaining reads (Some own ∷ others) result.progress (own.nodes ∷ [])) }
    {
        Loader {
            draft: Draft::new(alloc, file),
            progress: Progress::Reads,
        }
    }

    /// Takes the next event of the file that is read.
    pub fn feed_event(&mut self, event: Event) -> Result<(), Memory>
        requires { wanted_in self.old.progress ≡ None }
        ensures takes { OnOk result (TakesEvent event self.old.progress self.new.progress) }
        ensures names { OnOk result (self.new.names ≡ self.old.names) }
        ensures lists { OnOk result (KeepsLists event self.old.progress self.new.progress) }
        ensures files { OnOk result (FilesAre self.new.names self.new.progress) }
        ensures memory { OnErr result (self.new.progress ≡ Spent) }
        ensures spent { self.old.progress ≡ Spent → IsErr result }
    {
        match self.progress {
            Progress::Spent => Err(Memory),
            Progress::Reads => match advance(&mut self.draft, event) {
                Ok(progress) => {
                    self.progress.turn_to(progress);
                    Ok(())
                }
                Err(Memory) => {
                    self.progress.turn_to(Progress::Spent);
                    Err(Memory)
                }
            },
            _ => Ok(()),
        }
    }

    /// The file that is to be opened next.
    pub fn wanted(&self) -> Option<&Text>
        ensures { option_copied result ≡ wanted_in self.now.progress }
    {
        match &self.progress {
            Progress::Wants(name, _) => Some(name),
            _ => None,
        }
    }

    /// The wanted file is there, and its events come next. Where none is wanted, nothing changes.
    pub fn opened(&mut self) -> Result<(), Memory>
        ensures opens { OnOk result (OpensIt self.old self.new) }
        ensures names { OnOk result (OpensName (wanted_in self.old.progress) self.old.names self.new.names) }
        ensures list { OnOk result (OpensList self.old self.new) }
        ensures memory { OnErr result (self.new.progress ≡ Spent) }
        ensures other { wanted_in self.old.progress ≡ None → (IsOk result) × (self.new ≡ self.old) }
    {
        match mem::replace(&mut self.progress, Progress::Reads) {
            Progress::Wants(name, _) => match self.draft.include(name) {
                Ok(()) => Ok(()),
                Err(error) => {
                    self.progress.turn_to(Progress::Spent);
                    Err(error)
                }
            },
            other => {
                self.progress.turn_to(other);
                Ok(())
            }
        }
    }

    /// The wanted file is absent. Where none is wanted, nothing changes.
    pub fn absent(&mut self)
        ensures misses { MissesIt self.old self.new }
        ensures names { self.new.names ≡ self.old.names }
        ensures over { IsSome (wanted_in self.old.progress) → over self.new.progress ≡ true }
        ensures other { wanted_in self.old.progress ≡ None → self.new ≡ self.old }
    {
        match self.progress {
            Progress::Wants(_, at) => self
                .progress
                .turn_to(Progress::Refused(SheetCode::NoDocument, at)),
            _ => {}
        }
    }

    /// The file that is read isn't well-formed.
    pub fn bad(&mut self, fault: XmlFault)
        ensures ends { EndsBad fault self.old.progress self.new.progress }
        ensures names { self.new.names ≡ self.old.names }
        ensures over { wanted_in self.old.progress ≡ None → over self.new.progress ≡ true }
    {
        let at = self.draft.place(fault.offset);
        self.refuse(SheetCode::BadXml, at);
    }

    /// The limit on sheets is reached at this byte of the file that is read.
    pub fn too_large(&mut self, offset: u64)
        ensures ends { EndsAtLimit offset self.old.progress self.new.progress }
        ensures names { self.new.names ≡ self.old.names }
        ensures over { wanted_in self.old.progress ≡ None → over self.new.progress ≡ true }
    {
        let at = self.draft.place(offset);
        self.refuse(SheetCode::SheetTooLarge, at);
    }

    /// Where the loader reads on, it stops.
    fn refuse(&mut self, code: SheetCode, at: Place)
        ensures stops { self.new.progress ≡ stopped_at at code self.old.progress }
        ensures names { self.new.names ≡ self.old.names }
    {
        match self.progress {
            Progress::Reads => self.progress.turn_to(Progress::Refused(code, at)),
            _ => {}
        }
    }

    /// Whether a fault was found, other than a reference that finds nothing.
    pub fn failed(&self) -> bool
        ensures { result ≡ is_refused self.now.progress }
    {
        matches!(self.progress, Progress::Refused(_, _))
    }

    /// Whether there is nothing more to take: a fault was found, or the sheet's own file was read to its end, or memory was wanting.
    pub fn is_over(&self) -> bool
        ensures { result ≡ over self.now.progress }
    {
        match self.progress {
            Progress::Reads | Progress::Wants(_, _) => false,
            Progress::Ended | Progress::Refused(_, _) | Progress::Spent => true,
        }
    }

    /// The sheet, or its first fault.
    pub fn finish(self) -> Result<Sheet, LoadStop>
        requires { over self.progress ≡ true }
        ensures sheet { IfOk result (λ sheet. GivesSheet self sheet) }
        ensures fault { IfErr result (λ stop. (fault : SheetFault) → stop ≡ LoadStop.Fault fault → EndsInFault self fault) }
    {
        let Loader { draft, progress } = self;
        let why = progress.stop();
        drop(progress);
        match why {
            Some(Stop::Fault(code, at)) => Err(fault(draft, code, at)),
            Some(Stop::Memory) => {
                drop(draft);
                Err(LoadStop::Memory)
            }
            None => whole(draft),
        }
    }
}

/// The sheet whose own file was read to its end, or the first of its references that finds nothing.
fn whole(draft: Draft) -> Result<Sheet, LoadStop>
    requires { IsSound draft }
    ensures sheet { IfOk result (λ sheet. GivesSheet (record { names = names_of draft; progress = progress_at_end true draft }) sheet) }
    ensures fault { IfErr result (λ stop. (fault : SheetFault) → stop ≡ LoadStop.Fault fault → EndsInFault (record { names = names_of draft; progress = progress_at_end true draft }) fault) }
{
    let mut draft = draft;
    match draft.first_lost() {
        Some((code, at)) => Err(fault(draft, code, at)),
        None => match draft.into_sheet() {
            Ok(sheet) => Ok(sheet),
            Err(Memory) => Err(LoadStop::Memory),
        },
    }
}

/// A fault in a file that is told by its name.
fn fault(draft: Draft, code: SheetCode, at: Place) -> LoadStop
    ensures { result ≡ LoadStop.Fault (record { file = name_at (names_of draft) at.file; code = code; offset = at.offset }) }
{
    LoadStop::Fault(SheetFault {
        file: draft.into_file_name(at.file),
        code,
        offset: at.offset,
    })
}
