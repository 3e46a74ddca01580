ghost use Rattle.std.specs.Prelude.{◌≡◌, ℕ, ◌≤◌, ◌<◌, ◌^◌, ◌∷◌, ◌++◌, [], IfErr, IfOk, None, Some};
ghost use Rattle.frame_stack.specs.Counted.{AreCounted, IsCounted, frames_of};
ghost use Rattle.frame_stack.specs.Frame.{instance_of};
ghost use Rattle.frame_stack.specs.Level.{instances};
ghost use Rattle.frame_stack.specs.Stack.{IsFull};

use crate::fault::FrameFault;
use crate::frame::Frame;

/// A frame, and what is kept so that a push looks at few frames.
#[derive(Debug, Drop)]
pub struct Entry {
    pub frame: Frame,
    /// How many instances its level has, itself among them; 0 where it is no instance.
    pub count: u32,
    /// Levels from here on have no instance up to this frame.
    pub below: u64,
}

/// How many instances the level has.
pub fn instances(entries: &[Entry], level: u32) -> u32
    requires { AreCounted entries.now }
    ensures { result ≡ instances level (frames_of entries.now) }
{
    let mut inner = entries;
    'inward: while let Some((entry, outer)) = inner.split_last() {
        if u64::from(level) >= entry.below {
            return 0;
        }
        if entry.frame.is_instance(level) {
            return entry.count;
        }
        inner = outer;
    }
    0
}

/// No level from here on has an instance.
fn below(entries: &[Entry]) -> u64
    requires { AreCounted entries.now }
    ensures { (level : ℕ) → result ≤ level → instances level (frames_of entries.now) ≡ 0 }
{
    match entries.split_last() {
        Some((entry, _)) => entry.below,
        None => 0,
    }
}

/// The frame with what is kept beside it on top of the others, unless its level has as many instances as it may have.
pub fn counted(entries: &[Entry], limit: u32, frame: Frame) -> Result<Entry, FrameFault>
    requires { AreCounted entries.now }
    ensures frame { IfOk result (λ entry. entry.frame ≡ frame) }
    ensures counted { IfOk result (λ entry. IsCounted (frames_of entries.now ++ frame ∷ []) entry) }
    ensures room { IfOk result (λ entry. (level : ℕ) → instance_of frame ≡ Some level → instances level (frames_of entries.now) < limit) }
    ensures full { IfErr result (λ fault. (fault ≡ FrameFault.Instances) × IsFull limit frame (frames_of entries.now)) }
{
    match frame.instance() {
        Some(level) => {
            let count = instances(entries, level);
            if count >= limit {
                return Err(FrameFault::Instances);
            }
            Ok(Entry {
                frame,
                count: count + 1,
                below: below(entries).max(u64::from(level) + 1),
            })
        }
        None => Ok(uncounted(entries, frame)),
    }
}

/// A frame that is no instance.
fn uncounted(entries: &[Entry], frame: Frame) -> Entry
    requires counted { AreCounted entries.now }
    requires none { instance_of frame ≡ None }
    ensures frame { result.frame ≡ frame }
    ensures counted { IsCounted (frames_of entries.now ++ frame ∷ []) result }
{
    if frame.opens_list() {
        return Entry {
            frame,
            count: 0,
            below: 0,
        };
    }
    Entry {
        frame,
        count: 0,
        below: below(entries),
    }
}
