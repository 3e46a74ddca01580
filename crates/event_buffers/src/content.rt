ghost use Rattle.std.specs.Prelude.{◌≡◌, ◌<◌, ◌^◌, None, length, min, IfOk};
ghost use Rattle.event_buffers.specs.Kept.{kept_of};
ghost use Rattle.event_buffers.specs.Weight as spec;
ghost use Rattle.result_writer.specs.Target.{whole_fault};

use crate::kept::{Kept, keep};
use crate::weight::kept_weight;
use result_writer::Opened;
use std::alloc::Global;
use std::marker::Model;
use stx_base::{Copied, List, Memory, Part};

/// What a sheet declares of a buffer, which its copies begin with. They share it.
#[derive(Debug, Drop)]
pub struct Content {
    kept: Vec<Kept>,
    /// Up to a bound that is over every limit.
    weight: u128,
}

impl Model for Content {
    ghost use Rattle.std.specs.Prelude.{◌≡◌, ◌^◌, List, min};
    ghost use Rattle.event_buffers.specs.Weight.{kept_weight};
    ghost use Rattle.event_buffers.specs.declared.kept.Kept.{Kept};

    ghost Value = { List Kept };

    ghost view = { λ content. content.kept.items };

    ghost invariant = { λ content. content.weight ≡ min (kept_weight content.kept.items) (2 ^ 64) };
}

impl Content {
    /// What parts make that have no fault and leave nothing open.
    pub fn of(alloc: Global, parts: &List<Part>) -> Result<Content, Memory>
        requires few { length parts.now < 2 ^ 32 }
        requires whole { whole_fault (length parts.now) parts.now ≡ None }
        ensures { IfOk result (λ content. content ≡ kept_of parts.now) }
    {
        let mut kept = Vec::new(alloc);
        let mut target = Opened::new(alloc, parts.len() as u32);
        for part in parts.as_slice() {
            let part = part.copy(alloc)?;
            keep(&mut kept, &mut target, part)?;
        }
        let weight = kept_weight(&kept);
        Ok(Content { kept, weight })
    }

    pub fn as_slice(&self) -> &[Kept]
        ensures items { result.now ≡ self.now }
        ensures len { length result.now < 2 ^ 63 }
    {
        &self.kept
    }

    /// What it weighs, up to a bound that is over every limit.
    pub fn weight(&self) -> u128
        ensures { result ≡ min (spec.kept_weight self.now) (2 ^ 64) }
    {
        self.weight
    }
}
