//! A sheet while its files are read.

ghost use Rattle.std.specs.Prelude.{◌≡◌, ◌+◌, ◌<◌, [], List, ℕ, None, Some, false, true, length, IfSome, OnErr, OnOk, slice_get};
ghost use Rattle.stx_host.specs.Outside.{Outside};
ghost use Rattle.stx_host.specs.declared.act.Act.{Act};
ghost use Rattle.sheet_loader.specs.Levels.{name_at};
ghost use Rattle.sheet_loader.specs.Loaders.{is_over, wanted_in};
ghost use Rattle.sheet_files.specs.Held as held;
ghost use Rattle.sheet_files.specs.Reading as spec;
ghost use Rattle.sheet_files.specs.Steps as steps;
ghost use Rattle.sheet_files.specs.declared.going.Going.{Going};

use crate::going::{Going, Next};
use sheet_loader::Loader;
use std::alloc::{AllocError, Global};
use std::mem;
use stx_base::{Copied, Limits, List, Memory, Spare, Text};
use stx_host::{Doc, Host, Opened};
use xml_events::{Event, Pull};

/// Why a sheet isn't read on, although nothing is wrong with it.
#[derive(Drop)]
pub(crate) enum Halt {
    /// A file that is wanted can't be opened.
    Unopened(Text),
    /// The innermost file can't be read.
    Unread,
    Memory,
}

impl From<Memory> for Halt {
    ghost use Rattle.std.specs.Prelude.{◌≡◌};
    ghost use Rattle.sheet_files.specs.declared.reading.Halt.TheVariants as halt;

    ghost from_gives = { λ error made. made ≡ halt.Memory };

    fn from(_: Memory) -> Halt {
        Halt::Memory
    }
}

impl From<AllocError> for Halt {
    ghost use Rattle.std.specs.Prelude.{◌≡◌};
    ghost use Rattle.sheet_files.specs.declared.reading.Halt.TheVariants as halt;

    ghost from_gives = { λ error made. made ≡ halt.Memory };

    fn from(_: AllocError) -> Halt {
        Halt::Memory
    }
}

/// A sheet that is being read.
#[derive(Drop)]
pub(crate) struct Reading {
    alloc: Global,
    limits: Limits,
    pub(crate) loader: Loader,
    /// The files that are being read, each of them included by the one before it.
    going: Vec<Going>,
    /// All files that were opened, in order; the bytes of one that is being read still stand in `going`.
    pub(crate) files: Vec<Doc>,
    spare: Spare,
    /// How many bytes may still be handed over, of all files.
    left: u64,
}

impl Reading {
    /// Nothing is read yet, and no file is open.
    pub(crate) fn new(alloc: Global, limits: Limits, own: Text) -> Reading
        ensures { steps.IsEmpty limits own result }
    {
        Reading {
            alloc,
            limits,
            loader: Loader::new(alloc, limits, own),
            going: Vec::new(alloc),
            files: Vec::new(alloc),
            spare: Spare::new(alloc),
            left: limits.sheet,
        }
    }

    /// Reads to the end of the sheet's own file, or to the first fault.
    pub(crate) fn run<H: Host>(&mut self, host: &mut H) -> Result<(), Halt>
        requires held { held.IsHeld (H.outside host.old) self.old }
        requires read { (name : List ℕ) × spec.IsRead name self.old [] }
        requires none { wanted_in self.old.loader.progress ≡ None }
        ensures held { held.IsHeld (H.outside host.new) self.new }
        ensures steps { (name : List ℕ) → spec.IsRead name self.old [] → steps.StepsTo name (H.outside host.old) (H.outside host.new) self.old self.new result }
        ensures limits { self.new.limits ≡ self.old.limits }
        ensures over { OnOk result (is_over self.new.loader.progress ≡ true) }
    {
        while !self.loader.is_over() {
            self.step(host)?;
        }
        Ok(())
    }

    /// Takes what the innermost file has next.
    fn step<H: Host>(&mut self, host: &mut H) -> Result<(), Halt>
        requires held { held.IsHeld (H.outside host.old) self.old }
        requires read { (name : List ℕ) × spec.IsRead name self.old [] }
        requires none { wanted_in self.old.loader.progress ≡ None }
        requires on { is_over self.old.loader.progress ≡ false }
        ensures held { held.IsHeld (H.outside host.new) self.new }
        ensures steps { (name : List ℕ) → spec.IsRead name self.old [] → steps.StepsTo name (H.outside host.old) (H.outside host.new) self.old self.new result }
        ensures fewer { steps.Lessens self.old self.new (held.turns_of self.old) result }
    {
        let Some(going) = self.going.last_mut() else {
            unreachable!()
        };
        match going.reader.next(&mut self.spare) {
            Pull::Event(event) => self.take(event, host),
            Pull::Need => self.go_on(host),
            Pull::End => {
                self.leave(host);
                Ok(())
            }
            Pull::Bad(fault) => {
                self.loader.bad(fault);
                Ok(())
            }
            Pull::Memory => Err(Halt::Memory),
        }
    }

    /// Hands an event to the loader, and opens the file that is wanted then, if one is.
    fn take<H: Host>(&mut self, event: Event, host: &mut H) -> Result<(), Halt>
        requires held { held.IsHeld (H.outside host.old) self.old }
        requires told { (name : List ℕ) × (before : Reading) × steps.IsTold event before self.old × spec.IsRead name before [] }
        ensures held { held.IsHeld (H.outside host.new) self.new }
        ensures steps { (name : List ℕ) (before : Reading) → steps.IsTold event before self.old → spec.IsRead name before [] → steps.StepsTo name (H.outside host.old) (H.outside host.new) self.old self.new result }
        ensures fewer { steps.Lessens self.old self.new (held.turns_of self.old + 1) result }
    {
        self.loader.feed_event(event)?;
        match self.loader.wanted() {
            None => Ok(()),
            Some(wanted) => {
                let name = wanted.copy(self.alloc)?;
                self.include(name, host)
            }
        }
    }

    /// Opens the file that is wanted.
    fn include<H: Host>(&mut self, name: Text, host: &mut H) -> Result<(), Halt>
        requires held { held.IsHeld (H.outside host.old) self.old }
        requires read { (name : List ℕ) × spec.IsRead name self.old [] }
        requires wanted { wanted_in self.old.loader.progress ≡ Some name }
        requires includes { spec.WantsFile self.old.going.items self.old.loader }
        ensures held { held.IsHeld (H.outside host.new) self.new }
        ensures steps { (name : List ℕ) → spec.IsRead name self.old [] → steps.StepsTo name (H.outside host.old) (H.outside host.new) self.old self.new result }
        ensures fewer { steps.Lessens self.old self.new (held.turns_of self.old) result }
    {
        match host.open(&name) {
            Opened::Id(id) => match self.included(name, id) {
                Ok(()) => Ok(()),
                Err(Memory) => {
                    host.close(id);
                    Err(Halt::Memory)
                }
            },
            Opened::Absent => {
                self.loader.absent();
                Ok(())
            }
            Opened::Failed => Err(Halt::Unopened(name)),
            Opened::Memory => Err(Halt::Memory),
        }
    }

    fn included(&mut self, name: Text, id: u32) -> Result<(), Memory>
        ensures { steps.Includes name id self.old self.new result }
    {
        self.loader.opened()?;
        self.enter(name, id)
    }

    /// A file that was opened is read next. After a refusal the files that are being read are those of before.
    pub(crate) fn enter(&mut self, name: Text, id: u32) -> Result<(), Memory>
        ensures { steps.Enters name id self.old self.new result }
    {
        let number = self.files.len();
        self.files.push(Doc {
            name,
            bytes: List::new(self.alloc),
        })?;
        self.going
            .push(Going::new(self.alloc, self.limits, id, number))?;
        Ok(())
    }

    /// The innermost file goes on by a byte, or ends; or the limit on sheets is reached in it.
    fn go_on<H: Host>(&mut self, host: &mut H) -> Result<(), Halt>
        requires held { held.IsHeld (H.outside host.old) self.old }
        requires read { (name : List ℕ) × spec.IsRead name self.old [] }
        requires none { wanted_in self.old.loader.progress ≡ None }
        requires on { is_over self.old.loader.progress ≡ false }
        requires wants { spec.WantsBytes self.old.going.items }
        ensures held { held.IsHeld (H.outside host.new) self.new }
        ensures steps { (name : List ℕ) → spec.IsRead name self.old [] → steps.StepsTo name (H.outside host.old) (H.outside host.new) self.old self.new result }
        ensures fewer { OnOk result (is_over self.new.loader.progress ≡ false → held.turns_of self.new + held.kept_most self.old.limits < held.turns_of self.old) }
        ensures limits { self.new.limits ≡ self.old.limits }
    {
        let Some(going) = self.going.last_mut() else {
            unreachable!()
        };
        match going.look(host)? {
            Next::End => {
                going.reader.finish();
                Ok(())
            }
            Next::Byte if self.left == 0 => {
                self.loader.too_large(going.taken as u64);
                Ok(())
            }
            Next::Byte => {
                going.hand_over()?;
                self.left -= 1;
                Ok(())
            }
        }
    }

    /// Gives the innermost file back.
    fn leave<H: Host>(&mut self, host: &mut H)
        requires held { held.IsHeld (H.outside host.old) self.old }
        requires some { 0 < length self.old.going.items }
        ensures leaves { steps.Leaves (H.outside host.old) (H.outside host.new) self.old self.new }
        ensures held { held.IsHeld (H.outside host.new) self.new }
    {
        let Some(going) = self.going.pop() else {
            unreachable!()
        };
        let Going {
            id,
            number,
            reader,
            bytes,
            ..
        } = going;
        drop(reader);
        host.close(id);
        self.files[number].bytes = List::from_vec(bytes);
    }

    /// Gives all files back.
    pub(crate) fn leave_all<H: Host>(&mut self, host: &mut H)
        requires { held.IsHeld (H.outside host.old) self.old }
        ensures leaves { steps.LeavesAll (H.outside host.old) (H.outside host.new) self.old self.new }
    {
        while !self.going.is_empty() {
            self.leave(host);
        }
    }

    /// The name of the innermost file, and how many of its bytes the host gave.
    pub(crate) fn take_innermost(&mut self) -> Option<(Text, u64)>
        requires { held.AreNumbered 0 self.old.going.items (length self.old.files.items) }
        ensures told { IfSome result (λ told. spec.HasLast self.old.going.items (λ g. (told.0 ≡ name_at (held.names_of self.old.files.items) g.number) × (told.1 ≡ length g.bytes.items))) }
        ensures some { result ≡ None → self.old.going.items ≡ [] }
        ensures kept { steps.KeepsFiles self.old self.new }
    {
        let going = self.going.last()?;
        let name = Text::new(self.alloc);
        let file = mem::replace(&mut self.files[going.number].name, name);
        Some((file, going.bytes.len() as u64))
    }
}
