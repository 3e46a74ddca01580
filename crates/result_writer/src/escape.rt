ghost use Rattle.std.specs.Prelude.{◌≡◌, ◌++◌, ◌∷◌, ◌≤◌, [], length, take, true, OnOk};
ghost use Rattle.std.specs.Option.{option_copied};
ghost use Rattle.stx_base.specs.Course.{Begins};
ghost use Rattle.result_writer.specs.Escape.{reference_of, written, escaped};
ghost use Rattle.result_writer.specs.declared.escape.Context.TheVariants.{Content, Value};

use crate::bytes::{append, append_byte};
use stx_base::Memory;

/// So many bytes of a long text are looked at together.
const MANY: usize = 64;

/// Where characters are written: that decides which of them are written as references.
#[derive(Clone, Copy, Debug, PartialEq, Eq)]
pub enum Context {
    /// The content of an element.
    Content,
    /// The value of an attribute, between double quotes.
    Value,
}

// The reference that stands for a byte, where the byte can't stand for itself.
fn reference(context: Context, byte: u8) -> Option<&'static [u8]>
    ensures { option_copied result ≡ reference_of context byte }
{
    match (context, byte) {
        (_, b'&') => Some(b"&amp;"),
        (_, b'<') => Some(b"&lt;"),
        (Context::Content, b'>') => Some(b"&gt;"),
        (Context::Value, b'"') => Some(b"&quot;"),
        (Context::Value, b'\t') => Some(b"&#9;"),
        (Context::Value, b'\n') => Some(b"&#10;"),
        (_, b'\r') => Some(b"&#13;"),
        _ => None,
    }
}

// Whether a byte stands for itself.
#[inline(always)]
fn is_plain(context: Context, byte: u8) -> bool
    ensures { result ≡ true → written context byte ≡ byte ∷ [] }
{
    // One value without branches, as bytes that are compared together need it.
    let is_mark = (byte == b'&') | (byte == b'<');
    match context {
        Context::Content => !(is_mark | (byte == b'>') | (byte == b'\r')),
        Context::Value => {
            let is_space = (byte == b'\t') | (byte == b'\n') | (byte == b'\r');
            !(is_mark | (byte == b'"') | is_space)
        }
    }
}

// How many bytes at the front stand for themselves.
fn plain_len(context: Context, bytes: &[u8]) -> usize
    ensures within { result ≤ length bytes.now }
    ensures plain { escaped context (take result bytes.now) ≡ take result bytes.now }
{
    if bytes.len() < MANY {
        return few_plain_len(context, bytes);
    }
    let many = many_plain_len(context, bytes);
    let (_, others) = bytes.split_at(many);
    many + few_plain_len(context, others)
}

// How many bytes at the front were looked at together and stand for themselves.
fn many_plain_len(context: Context, bytes: &[u8]) -> usize
    ensures within { result ≤ length bytes.now }
    ensures plain { escaped context (take result bytes.now) ≡ take result bytes.now }
{
    let mut len = 0;
    while len < bytes.len() {
        let (_, rest) = bytes.split_at(len);
        let (front, _) = rest.split_at(rest.len().min(MANY));
        if !are_plain(context, front) {
            return len;
        }
        len = len + front.len();
    }
    len
}

fn are_plain(context: Context, bytes: &[u8]) -> bool
    ensures { result ≡ true → escaped context bytes.now ≡ bytes.now }
{
    match context {
        Context::Content => are_plain_in_content(bytes),
        Context::Value => are_plain_in_value(bytes),
    }
}

// A function of its own, whose loop is then taken for one over many bytes.
#[inline(never)]
fn are_plain_in_content(bytes: &[u8]) -> bool
    ensures { result ≡ true → escaped Content bytes.now ≡ bytes.now }
{
    // No byte ends the loop, so that many bytes are compared at once.
    let mut plain = true;
    for byte in bytes {
        plain = plain & is_plain(Context::Content, *byte);
    }
    plain
}

#[inline(never)]
fn are_plain_in_value(bytes: &[u8]) -> bool
    ensures { result ≡ true → escaped Value bytes.now ≡ bytes.now }
{
    let mut plain = true;
    for byte in bytes {
        plain = plain & is_plain(Context::Value, *byte);
    }
    plain
}

// The same, one byte after another.
fn few_plain_len(context: Context, bytes: &[u8]) -> usize
    ensures within { result ≤ length bytes.now }
    ensures plain { escaped context (take result bytes.now) ≡ take result bytes.now }
{
    for (at, byte) in bytes.iter().enumerate() {
        if !is_plain(context, *byte) {
            return at;
        }
    }
    bytes.len()
}

#[tactic(auto, using(crate::proofs::Growing::begins_trans, crate::proofs::Growing::begins_self))]
pub fn append_written(context: Context, byte: u8, out: &mut Vec<u8>) -> Result<(), Memory>
    ensures ok { OnOk result (out.new.items ≡ out.old.items ++ written context byte) }
    ensures kept { Begins out.old.items out.new.items }
{
    match reference(context, byte) {
        Some(reference) => append(reference, out)?,
        None => append_byte(byte, out)?,
    }
    Ok(())
}

/// Appends `bytes`, with references for the bytes that can't stand for themselves.
#[tactic(auto, using(crate::proofs::Growing::begins_trans, crate::proofs::Growing::begins_self))]
pub fn append_escaped(context: Context, bytes: &[u8], out: &mut Vec<u8>) -> Result<(), Memory>
    ensures ok { OnOk result (out.new.items ≡ out.old.items ++ escaped context bytes.now) }
    ensures kept { Begins out.old.items out.new.items }
{
    let mut rest = bytes;
    loop {
        let (plain, others) = rest.split_at(plain_len(context, rest));
        append(plain, out)?;
        let Some((byte, others)) = others.split_first() else {
            return Ok(());
        };
        append_written(context, *byte, out)?;
        rest = others;
    }
}
