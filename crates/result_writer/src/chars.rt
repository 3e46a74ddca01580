//! Characters as they are written. Most of them are ASCII and stand for themselves, which one look at each shows.

ghost use Rattle.std.specs.Prelude.{◌≡◌, ◌++◌, ◌≤◌, None, length, take, true, IfErr, OnOk};
ghost use Rattle.std.specs.List.{list_all, prefix_len};
ghost use Rattle.std.specs.Str.{chars};
ghost use Rattle.stx_base.specs.Character.{is_char};
ghost use Rattle.stx_base.specs.Course.{Begins};
ghost use Rattle.result_writer.specs.Escape.{escaped, is_plain_ascii};
ghost use Rattle.result_writer.specs.Target.{unless, IsCause};
ghost use Rattle.result_writer.specs.declared.escape.Context.TheVariants.{Content};
ghost use Rattle.result_writer.specs.declared.fault.ResultFault.TheVariants.{BadChar};

use crate::allowed::holds_chars;
use crate::bytes::append;
use crate::escape::{Context, append_escaped, append_written};
use crate::fault::{ResultFault, WriteStop};
use crate::tables::is_plain_byte;
use stx_base::is_ascii_char;

/// So many bytes are looked at together.
const MANY: u8 = 64;

/// Fewer bytes are looked up one by one.
const FEW: usize = 16;

/// Appends characters, with references for those that can't stand for themselves, where each is a Char.
#[tactic(auto, using(crate::proofs::Growing::begins_trans, crate::proofs::Growing::begins_self))]
pub fn append_chars(text: &str, out: &mut Vec<u8>) -> Result<(), WriteStop>
    ensures sound { OnOk result (list_all is_char (chars text.now) ≡ true) }
    ensures fault { IfErr result (IsCause (unless (list_all is_char (chars text.now)) BadChar None)) }
    ensures written { OnOk result (out.new.items ≡ out.old.items ++ escaped Content text.now) }
    ensures kept { Begins out.old.items out.new.items }
{
    let mut rest = text.as_bytes();
    loop {
        let (plain, others) = rest.split_at(plain_ascii_len(rest));
        append(plain, out)?;
        let Some((byte, behind)) = others.split_first() else {
            return Ok(());
        };
        if !is_ascii_char(*byte) {
            return append_judged(text, others, out);
        }
        append_written(Context::Content, *byte, out)?;
        rest = behind;
    }
}

/// Appends the rest of characters of which some aren't ASCII.
#[tactic(auto, using(crate::proofs::Growing::begins_trans, crate::proofs::Growing::begins_self))]
fn append_judged(text: &str, rest: &[u8], out: &mut Vec<u8>) -> Result<(), WriteStop>
    ensures sound { OnOk result (list_all is_char (chars text.now) ≡ true) }
    ensures fault { IfErr result (IsCause (unless (list_all is_char (chars text.now)) BadChar None)) }
    ensures written { OnOk result (out.new.items ≡ out.old.items ++ escaped Content rest.now) }
    ensures kept { Begins out.old.items out.new.items }
{
    if !holds_chars(text) {
        return Err(WriteStop::Fault(ResultFault::BadChar));
    }
    append_escaped(Context::Content, rest, out)?;
    Ok(())
}

// How many bytes at the front are ASCII Chars that stand for themselves.
fn plain_ascii_len(bytes: &[u8]) -> usize
    ensures within { result ≤ length bytes.now }
    ensures plain { list_all is_plain_ascii (take result bytes.now) ≡ true }
{
    if bytes.len() < FEW {
        return short_plain_ascii_len(bytes);
    }
    let mut len = 0;
    while len < bytes.len() {
        let (_, rest) = bytes.split_at(len);
        let (front, _) = rest.split_at(rest.len().min(MANY as usize));
        if !are_plain_ascii(front) {
            return len + front_len(front);
        }
        len = len + front.len();
    }
    len
}

// The same of few bytes, where looking at many together takes longer than it saves.
#[inline(always)]
fn short_plain_ascii_len(bytes: &[u8]) -> usize
    ensures value { result ≡ prefix_len is_plain_ascii bytes.now }
    ensures bound { result ≤ length bytes.now }
{
    bytes.iter().take_while(|b| is_plain_byte(**b)).count()
}

// A function of its own, whose loop is then taken for one over many bytes.
#[inline(never)]
fn are_plain_ascii(bytes: &[u8]) -> bool
    ensures { result ≡ list_all is_plain_ascii bytes.now }
{
    // No byte ends the loop, so that many bytes are compared at once.
    let mut plain = true;
    for byte in bytes {
        plain = plain & is_plain_ascii(*byte);
    }
    plain
}

// The same as `plain_ascii_len` of few bytes. No byte ends the loop: where it would end is hard to foresee for a processor.
#[inline(never)]
fn front_len(bytes: &[u8]) -> usize
    requires { length bytes.now ≤ 64 }
    ensures within { result ≤ length bytes.now }
    ensures plain { list_all is_plain_ascii (take result bytes.now) ≡ true }
{
    let mut len = MANY;
    for (at, byte) in bytes.iter().enumerate() {
        let here = if is_plain_ascii(*byte) {
            MANY
        } else {
            at as u8
        };
        len = len.min(here);
    }
    bytes.len().min(len as usize)
}

#[inline(always)]
fn is_plain_ascii(byte: u8) -> bool
    ensures { result ≡ is_plain_ascii byte }
{
    // One value without branches, as bytes that are compared together need it.
    let is_space = (byte == b'\t') | (byte == b'\n');
    let is_mark = (byte == b'&') | (byte == b'<') | (byte == b'>');
    (((byte >= b' ') & (byte < 0x80)) | is_space) & !is_mark
}
