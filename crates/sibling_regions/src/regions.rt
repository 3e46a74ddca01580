ghost use Rattle.std.specs.Prelude.{◌≡◌, ◌<◌, IfOk};
ghost use Rattle.node_stack.specs.Stack.{path};
ghost use Rattle.sibling_regions.specs.Ends.{outermost_ended};
ghost use Rattle.sibling_regions.specs.Looking.{seen_as, within};
ghost use Rattle.sibling_regions.specs.Standing.{ConditionsCanBeEvaluated, LevelsRise};

use crate::condition::asked_ends;
use frame_stack::{Frame, Frames};
use instr_code::Code;
use match_patterns::GroupVars;
use node_stack::NodeStack;
use sheet_model::Sheet;
use std::alloc::Global;
use stx_base::{Limits, Memory};

/// The place of the outermost region of the current level that the current node ends; `None` exactly where it ends none.
/// Only the frames of the level are looked at.
pub fn ends<G: GroupVars>(
    alloc: Global,
    frames: &Frames,
    sheet: &Sheet,
    code: &Code,
    stack: &NodeStack,
    vars: &G,
    limits: &Limits,
) -> Result<Option<usize>, Memory>
    requires levels { LevelsRise frames.now.frames }
    requires conditions { ConditionsCanBeEvaluated code.now }
    ensures { IfOk result (λ place. place ≡ outermost_ended (record { sheet = sheet.now; code = code.now; path = path stack.now; vars = G.seen vars.now; limits = limits.now }) frames.now.frames) }
{
    let level = stack.level();
    let mut outermost = None;
    let mut place = frames.count();
    while place > 0 {
        place -= 1;
        match see(frames.at(place), level) {
            Seen::Outside => return Ok(outermost),
            Seen::Within => {}
            Seen::Region(asked) => {
                if asked_ends(
                    alloc, asked, frames, place, sheet, code, stack, vars, limits,
                )? {
                    outermost = Some(place);
                }
            }
        }
    }
    Ok(outermost)
}

/// What a frame is to a level.
enum Seen {
    /// It and all below stand outside the level.
    Outside,
    Within,
    /// A region of the level, by the operation that asked for it.
    Region(u32),
}

fn see(frame: &Frame, level: u32) -> Seen
    ensures { result ≡ seen_as level frame.now }
{
    match frame {
        Frame::Attributes { .. } => Seen::Outside,
        Frame::Source { .. } => Seen::Outside,
        Frame::Region { asked, level: own } => {
            if *own == level {
                Seen::Region(*asked)
            } else {
                see_level(*own, level)
            }
        }
        Frame::Body { level: own, .. } => see_level(*own, level),
        Frame::Call { level: own, .. } => see_level(*own, level),
        Frame::Pass { level: own, .. } => see_level(*own, level),
        Frame::Loop { .. } => Seen::Within,
        Frame::Skip { .. } => Seen::Within,
    }
}

fn see_level(own: u32, level: u32) -> Seen
    ensures { result ≡ within level own }
{
    if own < level {
        Seen::Outside
    } else {
        Seen::Within
    }
}
