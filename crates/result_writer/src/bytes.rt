//! Bytes that are appended one after another. Where one step is refused, what was there before all of them is still there.

ghost use Rattle.std.specs.Prelude.{◌≡◌, ◌++◌, ◌∷◌, [], OnOk};
ghost use Rattle.stx_base.specs.Course.{Begins};

use stx_base::Memory;

/// So many bytes are appended one by one.
const SHORT: usize = 12;

#[inline(always)]
#[tactic(auto, using(crate::proofs::Growing::begins_self, crate::proofs::Growing::begins_append))]
pub fn append(bytes: &[u8], out: &mut Vec<u8>) -> Result<(), Memory>
    ensures ok { OnOk result (out.new.items ≡ out.old.items ++ bytes.now) }
    ensures kept { Begins out.old.items out.new.items }
{
    // Most are names, and so short that a loop over their bytes is faster than a call.
    if bytes.len() > SHORT {
        out.extend_from_slice(bytes)?;
        return Ok(());
    }
    out.reserve(bytes.len())?;
    for byte in bytes {
        out.push_reserved(*byte);
    }
    Ok(())
}

#[inline(always)]
#[tactic(auto, using(crate::proofs::Growing::begins_self, crate::proofs::Growing::begins_append))]
pub fn append_byte(byte: u8, out: &mut Vec<u8>) -> Result<(), Memory>
    ensures ok { OnOk result (out.new.items ≡ out.old.items ++ byte ∷ []) }
    ensures kept { Begins out.old.items out.new.items }
{
    out.reserve(1)?;
    out.push_reserved(byte);
    Ok(())
}

/// Two bytes at once, as many marks have.
#[inline(always)]
#[tactic(auto, using(crate::proofs::Growing::begins_self, crate::proofs::Growing::begins_append))]
pub fn append_two(first: u8, second: u8, out: &mut Vec<u8>) -> Result<(), Memory>
    ensures ok { OnOk result (out.new.items ≡ out.old.items ++ first ∷ second ∷ []) }
    ensures kept { Begins out.old.items out.new.items }
{
    out.reserve(2)?;
    out.push_reserved(first);
    out.push_reserved(second);
    Ok(())
}
