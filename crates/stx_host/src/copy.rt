//! Code over any host, proved from the trait alone: that the trait says enough.
ghost use Rattle.std.specs.Prelude.{◌≡◌, ◌≤◌, List, ℕ, length};
ghost use Rattle.stx_host.specs.Outside.{TellsMain};
ghost use Rattle.stx_host.specs.Copy.{WritesAll, Copies, CopyFault};

use crate::act::{Got, Lane, Put};
use crate::host::Host;

/// How a copy of the main document ended.
#[derive(Clone, Copy, Debug, PartialEq, Eq)]
pub enum Copying {
    /// It was read to its end, and all was written.
    Whole,
    /// A read failed.
    Unread,
    /// A write failed.
    Unwritten,
    /// It has more bytes than are counted.
    Unended,
}

/// Writes on until all of the bytes are taken or a write fails, and says whether all were.
pub fn write_all<H: Host>(host: &mut H, lane: Lane, bytes: &[u8]) -> bool
    ensures { WritesAll (H.outside host.old) lane bytes.now result (H.outside host.new) }
{
    let mut done = 0;
    while done < bytes.len() {
        match host.write(lane, &bytes[done..]) {
            Put::Took(count) => done += count,
            Put::Failed => return false,
        }
    }
    true
}

/// Copies the main document to `Lane::Out`. What a read gave is written before the next read.
pub fn copy_main<H: Host>(host: &mut H) -> Copying
    ensures copy { (main : List ℕ) → TellsMain (H.outside host.old) main → Copies (H.outside host.old) (H.outside host.new) main result }
    ensures fault { CopyFault (H.outside host.old) result (H.outside host.new) }
    ensures unended { (main : List ℕ) → TellsMain (H.outside host.old) main → result ≡ Copying.Unended → u64.MAX ≤ length main }
{
    let mut room = [0u8; 4096];
    for _ in 0..u64::MAX {
        match host.read(0, &mut room) {
            Got::Bytes(count) => {
                if !write_all(host, Lane::Out, &room[..count]) {
                    return Copying::Unwritten;
                }
            }
            Got::End => return Copying::Whole,
            Got::Failed => return Copying::Unread,
        }
    }
    Copying::Unended
}
