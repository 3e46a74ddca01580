ghost use Rattle.std.specs.Prelude.{◌≡◌, ◌≤◌, length, take, drop};
ghost use Rattle.memchr.specs.Find.{is_byte, IsFirstByte, Nowhere, Passes};

use memchr::memchr;

/// So many bytes are looked at one by one before a search in bulk, which costs more than these.
const NEAR: usize = 24;

/// The first bytes.
pub fn head(bytes: &[u8], len: usize) -> &[u8]
    requires { len ≤ length bytes.now }
    ensures { result.now ≡ take len bytes.now }
{
    &bytes[..len]
}

/// The bytes from a place on.
pub fn tail(bytes: &[u8], from: usize) -> &[u8]
    requires { from ≤ length bytes.now }
    ensures { result.now ≡ drop from bytes.now }
{
    &bytes[from..]
}

/// The first place of a byte, which mostly stands near.
pub fn place_of(byte: u8, bytes: &[u8]) -> Option<usize>
    ensures { IsFirstByte (is_byte byte) bytes.now result }
{
    let near = bytes.len().min(NEAR);
    for i in 0..near {
        if bytes[i] == byte {
            return Some(i);
        }
    }
    far_place_of(byte, bytes, near)
}

/// The first place of a byte that doesn't stand near.
fn far_place_of(byte: u8, bytes: &[u8], near: usize) -> Option<usize>
    requires within { near ≤ length bytes.now }
    requires none { Nowhere (Passes (is_byte byte) bytes.now) 0 near }
    ensures { IsFirstByte (is_byte byte) bytes.now result }
{
    match memchr(byte, &bytes[near..]) {
        Some(skipped) => Some(near + skipped),
        None => None,
    }
}
