//! Which bytes of ASCII stand for themselves, told by one load from a table, where the ranges take several comparisons.

ghost use Rattle.std.specs.Prelude.{◌≡◌};
ghost use Rattle.result_writer.specs.Escape.{is_plain_ascii};

// Each byte that stands for itself stands at its own place, and `<`, which is none, at every other place.
static PLAIN_BYTES: [u8; 256] = *b"\
    <<<<<<<<<\t\n<<<<<<<<<<<<<<<<<<<<<\
    \x20!\"#$%<'()*+,-./0123456789:;<=<?\
    @ABCDEFGHIJKLMNOPQRSTUVWXYZ[\\]^_\
    `abcdefghijklmnopqrstuvwxyz{|}~\x7f\
    <<<<<<<<<<<<<<<<<<<<<<<<<<<<<<<<\
    <<<<<<<<<<<<<<<<<<<<<<<<<<<<<<<<\
    <<<<<<<<<<<<<<<<<<<<<<<<<<<<<<<<\
    <<<<<<<<<<<<<<<<<<<<<<<<<<<<<<<<";

/// Whether a byte is a Char of ASCII that stands for itself in content.
#[inline(always)]
pub fn is_plain_byte(byte: u8) -> bool
    ensures { result ≡ is_plain_ascii byte }
{
    PLAIN_BYTES[byte as usize] != b'<'
}
