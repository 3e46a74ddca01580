//! Frames as rows write them, from the outermost on: `template:N` and `procedure:N` are bodies of these, `region:N` is what the operation at place N
//! asked for, and `pass`, `source`, `attributes`, `loop` and `skip` are themselves. Behind each `>` the level is greater by one; the first is 0.

ghost use Rattle.std.specs.Prelude.{◌≡◌, IfOk, IfSome, OnOk};
ghost use Rattle.load_rows.specs.Levels.{AreRising};
ghost use Rattle.sibling_regions.specs.Standing.{LevelsRise, level_of};

use frame_stack::{Frame, Frames, Locals};
use rows::Trouble;
use sibling_regions::law;
use std::alloc::Global;

/// So many bodies of one level may be open.
const INSTANCES: u32 = 4096;

/// Frames, and the level of the next one.
#[derive(Drop)]
struct Rising {
    frames: Frames,
    level: u32,
}

pub fn frames_of(alloc: Global, written: &str) -> Result<Frames, Trouble>
    ensures { IfOk result (λ frames. LevelsRise frames.frames) }
{
    let mut rising = Rising {
        frames: Frames::new(alloc),
        level: 0,
    };
    match rising.put_all(alloc, written) {
        Ok(()) => {
            let Rising { frames, .. } = rising;
            Ok(frames)
        }
        Err(trouble) => {
            drop(rising);
            Err(trouble)
        }
    }
}

impl Rising {
    fn put_all(&mut self, alloc: Global, written: &str) -> Result<(), Trouble>
        requires { AreRising self.old.level self.old.frames.frames }
        ensures { OnOk result (AreRising self.new.level self.new.frames.frames) }
    {
        for word in written.split_whitespace() {
            self.put(alloc, word)?;
        }
        Ok(())
    }

    fn put(&mut self, alloc: Global, word: &str) -> Result<(), Trouble>
        requires { AreRising self.old.level self.old.frames.frames }
        ensures { OnOk result (AreRising self.new.level self.new.frames.frames) }
    {
        if word == ">" {
            self.level = self.level.saturating_add(1);
            return Ok(());
        }
        let frame = frame_of(alloc, word, self.level)?;
        self.push(frame)
    }

    fn push(&mut self, frame: Frame) -> Result<(), Trouble>
        requires rising { AreRising self.old.level self.old.frames.frames }
        requires own { IfSome (level_of frame) (λ own. own ≡ self.old.level) }
        ensures { OnOk result (AreRising self.new.level self.new.frames.frames) }
    {
        law::standing();
        match self.frames.push(INSTANCES, frame) {
            Ok(()) => Ok(()),
            Err(_) => Err(Trouble::Row("too many frames, or no memory")),
        }
    }
}

fn frame_of(alloc: Global, word: &str, level: u32) -> Result<Frame, Trouble>
    ensures { IfOk result (λ frame. IfSome (level_of frame) (λ own. own ≡ level)) }
{
    let (kind, number) = word.split_once(':').unwrap_or((word, "0"));
    let number = number_of(number)?;
    match kind {
        "template" => Ok(Frame::Body {
            template: number,
            alternative: 0,
            pc: 0,
            locals: Locals::new(alloc),
            level,
            spent: false,
        }),
        "procedure" => Ok(Frame::Call {
            procedure: number,
            pc: 0,
            locals: Locals::new(alloc),
            level,
        }),
        "region" => Ok(Frame::Region {
            asked: number,
            level,
        }),
        "pass" => Ok(Frame::Pass {
            base: 0,
            level,
            spent: false,
        }),
        "source" => Ok(Frame::Source {
            buffer: None,
            next: 0,
            asked: 0,
        }),
        "attributes" => Ok(Frame::Attributes { next: 0, asked: 0 }),
        "loop" => Ok(Frame::Loop { turn: 0 }),
        "skip" => Ok(Frame::Skip { depth: 0 }),
        _ => Err(Trouble::Row("an unknown frame")),
    }
}

fn number_of(written: &str) -> Result<u32, Trouble> {
    match written.parse::<u32>() {
        Ok(number) => Ok(number),
        Err(_) => Err(Trouble::Row("a number is wanted")),
    }
}
