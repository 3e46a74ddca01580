//! Bodies among the frames.

ghost use Rattle.std.specs.Prelude.{◌≡◌, ◌+◌, ◌<◌, ◌≤◌, ◌∷◌, ℕ, List as Items, IfOk, IsSome, Some, length, reverse, slice_get};
ghost use Rattle.std.specs.Option.{option_and_then, option_map};
ghost use Rattle.frame_stack.specs.Change.{locals_of};
ghost use Rattle.frame_stack.specs.declared.frame.Frame.TheVariants.{Loop};
ghost use Rattle.template_machine.specs.Bodies as spec;
ghost use Rattle.template_machine.specs.Bodies.{below, body_in, template_in};

use frame_stack::{Frame, Frames, Locals};
use std::alloc::Global;
use stx_base::{List, Memory};

/// What a frame is to a body.
enum Role {
    /// A loop that is open in it.
    Loop,
    Template,
    Procedure,
    Other,
}

fn role_of(frame: &Frame) -> Role
    ensures { result ≡ spec.role_of frame.now }
{
    match frame {
        Frame::Loop { .. } => Role::Loop,
        Frame::Body { .. } => Role::Template,
        Frame::Call { .. } => Role::Procedure,
        _ => Role::Other,
    }
}

/// The place of the innermost body among the frames below a place, under loops that stand over it. Allocates nothing.
#[inline(always)]
pub fn body_below(frames: &Frames, place: usize) -> Option<usize>
    requires { place ≤ length frames.now.frames }
    ensures { result ≡ body_in (below place frames.now.frames) }
{
    let mut top = place;
    while let Some(under) = top.checked_sub(1) {
        match role_of(frames.at(under)) {
            Role::Loop => top = under,
            Role::Template => return Some(under),
            Role::Procedure => return Some(under),
            Role::Other => return None,
        }
    }
    None
}

/// The next operation of the body at a place. Allocates nothing.
#[inline(always)]
pub fn pc_at(frames: &Frames, body: usize) -> u32
    requires { IsSome (option_and_then spec.pc_of (slice_get frames.now.frames body)) }
    ensures { option_and_then spec.pc_of (slice_get frames.now.frames body) ≡ Some result }
{
    match frames.at(body) {
        Frame::Body { pc, .. } => *pc,
        Frame::Call { pc, .. } => *pc,
        _ => unreachable!(),
    }
}

/// The level of the body at a place. Allocates nothing.
#[inline(always)]
pub fn level_at(frames: &Frames, body: usize) -> u32
    requires { IsSome (option_and_then spec.level_of (slice_get frames.now.frames body)) }
    ensures { option_and_then spec.level_of (slice_get frames.now.frames body) ≡ Some result }
{
    match frames.at(body) {
        Frame::Body { level, .. } => *level,
        Frame::Call { level, .. } => *level,
        _ => unreachable!(),
    }
}

/// Whether the children of the node of the template's body at a place are gone. Allocates nothing.
pub fn spent_at(frames: &Frames, body: usize) -> bool
    requires { IsSome (option_and_then spec.spent_of (slice_get frames.now.frames body)) }
    ensures { option_and_then spec.spent_of (slice_get frames.now.frames body) ≡ Some result }
{
    match frames.at(body) {
        Frame::Body { spent, .. } => *spent,
        _ => unreachable!(),
    }
}

/// The locals of the body at a place. Allocates nothing.
pub fn locals_at(frames: &Frames, body: usize) -> &Locals
    requires { IsSome (option_and_then spec.level_of (slice_get frames.now.frames body)) }
    ensures { option_map locals_of (slice_get frames.now.frames body) ≡ Some result.now }
{
    match frames.at(body) {
        Frame::Body { locals, .. } => locals,
        Frame::Call { locals, .. } => locals,
        _ => unreachable!(),
    }
}

/// The place of the template's body to whose node the innermost body belongs. Allocates nothing.
pub fn template_below(frames: &Frames, place: usize) -> Option<usize>
    requires { place ≤ length frames.now.frames }
    ensures { result ≡ template_in (below place frames.now.frames) }
{
    let mut top = place;
    while let Some(under) = top.checked_sub(1) {
        match role_of(frames.at(under)) {
            Role::Loop => top = under,
            Role::Procedure => top = under,
            Role::Template => return Some(under),
            Role::Other => return None,
        }
    }
    None
}

/// Takes the top frame off, which is done with. Allocates nothing.
pub fn take_off(frames: &mut Frames)
    ensures { (top : Frame) (others : Items Frame) → reverse frames.old.frames ≡ top ∷ others → reverse frames.new.frames ≡ others }
{
    drop(frames.pop());
}

/// How many items the loop at a place has bound. Allocates nothing.
pub fn turn_at(frames: &Frames, place: usize) -> usize
    requires { IsSome (option_and_then spec.turn_of (slice_get frames.now.frames place)) }
    ensures { option_and_then spec.turn_of (slice_get frames.now.frames place) ≡ Some result }
{
    match frames.at(place) {
        Frame::Loop { turn } => *turn,
        _ => unreachable!(),
    }
}

/// The loop on top has bound so many items. Allocates nothing.
pub fn count_turn(frames: &mut Frames, bound: usize)
    requires { 0 < length frames.old.frames }
    ensures { (turn : ℕ) (others : Items Frame) → reverse frames.old.frames ≡ Loop turn ∷ others → reverse frames.new.frames ≡ Loop bound ∷ others }
{
    let top = frames.count() - 1;
    frames.set_turn(top, bound);
}

/// What a frame is to the node of a level.
enum Seen {
    /// The body of a template.
    Template(u32),
    Within,
    /// It and all below belong to other nodes.
    Outside,
}

fn see(frame: &Frame, level: u32) -> Seen
    ensures { result ≡ spec.seen_as level frame.now }
{
    match frame {
        Frame::Loop { .. } => Seen::Within,
        Frame::Body {
            template,
            level: own,
            ..
        } => {
            if *own == level {
                Seen::Template(*template)
            } else {
                Seen::Outside
            }
        }
        Frame::Call { level: own, .. } => {
            if *own == level {
                Seen::Within
            } else {
                Seen::Outside
            }
        }
        _ => Seen::Outside,
    }
}

/// The children of the innermost body's node, which is of this level, are gone: each of the node's bodies says so. Allocates nothing.
pub fn spend_children(frames: &mut Frames, level: u32)
    ensures { reverse frames.new.frames ≡ spec.all_spent level (reverse frames.old.frames) }
{
    let mut top = frames.count();
    while let Some(under) = top.checked_sub(1) {
        match see(frames.at(under), level) {
            Seen::Template(_) => frames.set_spent(under, true),
            Seen::Within => {}
            Seen::Outside => return,
        }
        top = under;
    }
}

/// The templates that are active for the node of the innermost body, which is of this level.
pub fn active(alloc: Global, frames: &Frames, level: u32) -> Result<List<u32>, Memory>
    ensures { IfOk result (λ templates. templates ≡ spec.active_in level (reverse frames.now.frames)) }
{
    let mut active = List::new(alloc);
    let mut top = frames.count();
    while let Some(under) = top.checked_sub(1) {
        match see(frames.at(under), level) {
            Seen::Template(template) => active.push(template)?,
            Seen::Within => {}
            Seen::Outside => return Ok(active),
        }
        top = under;
    }
    Ok(active)
}
