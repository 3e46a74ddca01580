//! A run as a pure step over pieces of its documents.

ghost use Rattle.std.specs.Prelude.{◌≡◌, ◌+◌, ◌<◌, ◌^◌, IfOk};
ghost use Rattle.std.specs.Option.{option_copied};
ghost use Rattle.sheet_model.specs.Sound.{IsSound};
ghost use Rattle.stx_base.specs.Course.{Begins};
ghost use Rattle.run_engine.specs.Does.{Does, InOrder};
ghost use Rattle.run_engine.specs.Run.{Absents, HasHead, IsAtStart, IsSameRun, MayCome, Says, Stands, outcome_in};
ghost use Rattle.run_engine.specs.Asks.{AsksFewer, asks_handed, asks_left};
ghost use Rattle.run_engine.specs.Taking.{Takes, handed};

use crate::growing::append_both;
use crate::piece::{Piece, Pumped};
use crate::run::Core;
use fault_report::Outcome;
use sheet_model::Sheet;
use std::alloc::Global;
use std::marker::Model;
use stx_base::{Limits, List, Memory};
use template_machine::{Param, law as machine_law};

/// A run of a sheet, which takes the documents that it reads piece by piece. It does nothing but answer.
#[derive(Drop)]
pub struct Engine {
    core: Core,
    /// What was settled since the last piece; empty between pieces.
    bytes: Vec<u8>,
    notes: Vec<u8>,
}

impl Model for Engine {
    ghost use Rattle.run_engine.specs.Run.{Run};

    ghost Value = { Run };

    ghost use Rattle.std.specs.Coded.{codes};
    ghost use Rattle.template_machine.specs.contracts.machine.Machine as machine;

    ghost coded = { Prim.hlevel (codes, machine.the_row.coded) };

    ghost use Rattle.run_engine.specs.inside.Engines.{IsSoundIn, run_in};

    ghost view = { run_in };

    ghost invariant = { IsSoundIn };
}

impl Engine {
    /// A run that hasn't begun.
    pub fn new(
        alloc: Global,
        sheet: Sheet,
        params: List<Param>,
        limits: Limits,
    ) -> Result<Engine, Memory>
        requires sound { IsSound sheet }
        requires depth { limits.depth + 1 < 2 ^ 32 }
        requires elements { limits.elements + 1 < 2 ^ 32 }
        ensures { IfOk result (IsAtStart sheet params limits) }
    {
        Ok(Engine {
            core: Core::new(alloc, sheet, params, limits)?,
            bytes: Vec::new(alloc),
            notes: Vec::new(alloc),
        })
    }

    /// How the run ended, once it is over. Allocates nothing.
    pub fn outcome(&self) -> Option<&Outcome>
        ensures { option_copied result ≡ outcome_in self.now.stage }
    {
        self.core.outcome()
    }

    /// The same, where nothing else is wanted of the run any more.
    pub fn into_outcome(self) -> Option<Outcome>
        ensures { result ≡ outcome_in self.stage }
    {
        let Engine { core, bytes, notes } = self;
        drop(bytes);
        drop(notes);
        core.into_outcome()
    }

    /// Takes a piece, and appends to `out` and to `notes` all bytes and messages that are settled. Where memory is wanting, the
    /// run is over, and what was appended is a beginning.
    pub fn pump(&mut self, piece: Piece<'_>, out: &mut Vec<u8>, notes: &mut Vec<u8>) -> Pumped
        requires { MayCome self.old.stage piece }
        ensures says { Says result self.new.stage }
        ensures stands { Stands self.new }
        ensures same { IsSameRun self.old self.new }
        // The piece goes to the document that was asked for, and documents that were read to their end are gone.
        ensures took { Takes self.new.stage (handed self.old piece.entry) self.new.documents }
        // There is an end to the documents that it asks for before more of the main document comes.
        ensures asks { AsksFewer self.new.stage (asks_handed self.old piece.entry) (asks_left self.new) }
        // Where no wanted document is, the run stops for that at an instruction.
        ensures absent { Absents piece.entry self.new.stage }
        ensures out { Begins out.old.items out.new.items }
        ensures notes { Begins notes.old.items notes.new.items }
        // A result begins with its head, before all else.
        ensures head { HasHead piece.entry out.old.items self.new.stage out.new.items }
        // Where the sheet takes the nodes of the main document alone, each list in order: what was appended, and then what is still to come,
        // is what was to come of the piece and all that follows it.
        ensures does { InOrder self.old → Does piece.entry self.old self.new out.old.items out.new.items notes.old.items notes.new.items }
    {
        machine_law::waiting();
        let pumped = self.core.step(piece, out);
        self.core.out.exchange(&mut self.bytes, &mut self.notes);
        match append_both(out, &mut self.bytes, notes, &mut self.notes) {
            Ok(()) => pumped,
            Err(Memory) => {
                drop(pumped);
                self.core.lack()
            }
        }
    }
}
