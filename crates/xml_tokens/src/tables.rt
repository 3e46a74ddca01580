//! Which bytes of ASCII may stand where, each told by one load from a table, where the ranges take several comparisons.
ghost use Rattle.std.specs.Prelude.{◌≡◌};
ghost use Rattle.xml_tokens.specs.inside.PlainTags as tags;
ghost use Rattle.xml_tokens.specs.inside.Spans as span;

// Each byte of a text that says itself stands at its own place, and `<`, which is none, at every other place.
static PLAIN_BYTES: [u8; 256] = *b"\
    <<<<<<<<<\t\n<<<<<<<<<<<<<<<<<<<<<\
    \x20!\"#$%<'()*+,-./0123456789:;<=>?\
    @ABCDEFGHIJKLMNOPQRSTUVWXYZ[\\<^_\
    `abcdefghijklmnopqrstuvwxyz{|}~\x7f\
    <<<<<<<<<<<<<<<<<<<<<<<<<<<<<<<<\
    <<<<<<<<<<<<<<<<<<<<<<<<<<<<<<<<\
    <<<<<<<<<<<<<<<<<<<<<<<<<<<<<<<<\
    <<<<<<<<<<<<<<<<<<<<<<<<<<<<<<<<";

// The same for values in double quotes.
static VALUE_BYTES: [u8; 256] = *b"\
    <<<<<<<<<<<<<<<<<<<<<<<<<<<<<<<<\
    \x20!<#$%<'()*+,-./0123456789:;<=>?\
    @ABCDEFGHIJKLMNOPQRSTUVWXYZ[\\]^_\
    `abcdefghijklmnopqrstuvwxyz{|}~\x7f\
    <<<<<<<<<<<<<<<<<<<<<<<<<<<<<<<<\
    <<<<<<<<<<<<<<<<<<<<<<<<<<<<<<<<\
    <<<<<<<<<<<<<<<<<<<<<<<<<<<<<<<<\
    <<<<<<<<<<<<<<<<<<<<<<<<<<<<<<<<";

/// A Char of ASCII but for `<`, `&`, `]` and a carriage return.
#[inline(always)]
pub fn is_plain_byte(byte: u8) -> bool
    ensures { result ≡ span.is_plain_byte byte }
{
    PLAIN_BYTES[byte as usize] != b'<'
}

/// A Char of ASCII that says itself in a value in double quotes.
#[inline(always)]
pub fn is_plain_in_value(byte: u8) -> bool
    ensures { result ≡ tags.is_plain_in_value byte }
{
    VALUE_BYTES[byte as usize] != b'<'
}
