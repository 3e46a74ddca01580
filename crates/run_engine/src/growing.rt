//! Bytes that only become more.

ghost use Rattle.std.specs.Prelude.{◌≡◌, ◌++◌, [], OnOk, OnErr};
ghost use Rattle.stx_base.specs.Course.{Begins};

use std::mem;
use stx_base::Memory;

/// Moves bytes and messages behind others. After a refusal what stands there may have become more.
pub fn append_both(
    bytes: &mut Vec<u8>,
    more: &mut Vec<u8>,
    notes: &mut Vec<u8>,
    others: &mut Vec<u8>,
) -> Result<(), Memory>
    ensures bytes { Begins bytes.old.items bytes.new.items }
    ensures notes { Begins notes.old.items notes.new.items }
    // All of them are.
    ensures all_bytes { OnOk result (bytes.new.items ≡ bytes.old.items ++ more.old.items) }
    ensures all_notes { OnOk result (notes.new.items ≡ notes.old.items ++ others.old.items) }
    // After a refusal a beginning of them is.
    ensures some_bytes { OnErr result (Begins bytes.new.items (bytes.old.items ++ more.old.items)) }
    ensures some_notes { OnErr result (Begins notes.new.items (notes.old.items ++ others.old.items)) }
    // None is left to be appended once more.
    ensures no_bytes { OnOk result (more.new.items ≡ []) }
    ensures no_notes { OnOk result (others.new.items ≡ []) }
{
    match append(bytes, more) {
        Ok(()) => append(notes, others),
        Err(Memory) => Err(Memory),
    }
}

// Moves bytes behind others. After a refusal nothing has changed.
fn append(bytes: &mut Vec<u8>, more: &mut Vec<u8>) -> Result<(), Memory>
    ensures ok { OnOk result (bytes.new.items ≡ bytes.old.items ++ more.old.items) }
    ensures rest { OnOk result (more.new.items ≡ []) }
    ensures err { OnErr result (bytes.new.items ≡ bytes.old.items) }
{
    // In most calls nothing stands there, and nothing is copied.
    if bytes.is_empty() {
        mem::swap(bytes, more);
        return Ok(());
    }
    if bytes.extend_from_slice(more.as_slice()).is_err() {
        return Err(Memory);
    }
    more.clear();
    Ok(())
}
