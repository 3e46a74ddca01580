ghost use Rattle.std.specs.Prelude.{IfOk};
ghost use Rattle.sheet_runs.specs.Reading.{TakesPieces};

use sample_maker::Sample;
use std::alloc::Global;
use stx_base::{Memory, Text};

/// How many bytes a read asks for at most.
pub const PIECE: usize = 4096;

/// The next pieces of the sample, joined to about as many bytes as a read asks for; none after its last.
pub fn next_chunk(alloc: Global, sample: &mut Sample) -> Result<Option<Text>, Memory>
    ensures { IfOk result (λ chunk. TakesPieces sample.old sample.new chunk) }
{
    let Some(mut chunk) = sample.next(alloc)? else {
        return Ok(None);
    };
    while chunk.as_str().len() < PIECE {
        match sample.next(alloc)? {
            Some(piece) => chunk.push_str(piece.as_str())?,
            None => break,
        }
    }
    Ok(Some(chunk))
}
