//! Writing to a host.

ghost use Rattle.sheet_runs.specs.Writing.{WritesOn};

use stx_host::{Host, Lane, Put};

/// A write failed, after `taken` of the bytes were taken.
#[derive(Clone, Copy, Debug)]
pub struct Refused {
    pub taken: usize,
}

/// Writes on until all bytes are taken.
pub fn write<H: Host>(host: &mut H, lane: Lane, bytes: &[u8]) -> Result<(), Refused>
    ensures { WritesOn (H.outside host.old) lane bytes.now result (H.outside host.new) }
{
    let mut taken = 0;
    while taken < bytes.len() {
        match host.write(lane, &bytes[taken..]) {
            Put::Took(count) => taken += count,
            Put::Failed => return Err(Refused { taken }),
        }
    }
    Ok(())
}
