ghost use Rattle.std.specs.Prelude.{◌≡◌, ◌≤◌, ◌<◌, ◌++◌, ◌==◌, ◌||◌, ◌&&◌, Bool, not, true, length, encode_utf8, IfOk, IfSome, IsUtf8};
ghost use Rattle.std.specs.Char.{IsScalar, is_digit};
ghost use Rattle.std.specs.List.{list_all, list_any};
ghost use Rattle.std.specs.Option.{option_copied, option_map, SomeIff};
ghost use Rattle.std.specs.Str.{chars};
ghost use Rattle.std.specs.Str.Parse.{digits_value};
ghost use Rattle.stx_base.specs.Character as class;
ghost use Rattle.xml_tokens.specs.Texts as spec;
ghost use Rattle.xml_tokens.specs.inside.Spans as span;
ghost use Rattle.xml_tokens.specs.inside.Spans.{IsKept};
ghost use Rattle.xml_tokens.specs.declared.text.Context.{Context as Spelled};
ghost use Rattle.xml_tokens.specs.declared.text.Context.TheVariants as context;

use crate::cut::{head, place_of, tail};
use crate::form::{begins, is_word};
use memchr::{memchr, memchr2, memchr3};
use std::alloc::{AllocError, Global};
use stx_base::{Memory, Spare, Text, is_char, is_name};

/// Where bytes stand that say a text.
#[derive(Clone, Copy, Debug, PartialEq, Eq)]
pub enum Context {
    /// Between tags.
    Content,
    /// In the quotes of an attribute.
    Value,
}

/// Why a text has no meaning. A bad reference is told before an unknown entity, wherever they stand.
#[derive(Clone, Copy, Debug, PartialEq, Eq)]
pub enum BadText {
    /// An `&` begins no reference, or a number names no Char.
    Reference,
    /// The entity is not one of the five that XML predefines.
    Entity,
}

/// A text of UTF-8.
pub fn text_of(alloc: Global, bytes: &[u8]) -> Result<Text, Memory>
    requires { IsUtf8 bytes.now }
    ensures { IfOk result (λ text. text ≡ chars bytes.now) }
{
    Text::of(alloc, str_of(bytes))
}

/// The same, made of what is spare.
pub fn text_from_spare(bytes: &[u8], spare: &mut Spare) -> Result<Text, Memory>
    requires { IsUtf8 bytes.now }
    ensures { IfOk result (λ text. text ≡ chars bytes.now) }
{
    spare.text(str_of(bytes))
}

/// UTF-8 as it stands.
fn str_of(bytes: &[u8]) -> &str
    requires { IsUtf8 bytes.now }
    ensures { result.now ≡ bytes.now }
{
    // What the caller owes is proved at each call.
    unsafe { std::str::from_utf8_unchecked(bytes) }
}

/// A text of which the line ends are read (XML 1.0, 2.11).
pub fn lines_of(alloc: Global, bytes: &[u8]) -> Result<Text, Memory>
    requires { IsUtf8 bytes.now }
    ensures { IfOk result (λ text. text ≡ chars (spec.lines bytes.now)) }
{
    match next_break(bytes, Context::Content) {
        None => text_of(alloc, bytes),
        Some(_) => changed_lines_of(alloc, bytes),
    }
}

fn changed_lines_of(alloc: Global, bytes: &[u8]) -> Result<Text, Memory>
    requires { IsUtf8 bytes.now }
    ensures { IfOk result (λ text. text ≡ chars (spec.lines bytes.now)) }
{
    let mut out = Vec::with_capacity(alloc, bytes.len())?;
    push_literal(&mut out, bytes, Context::Content)?;
    Ok(made(out))
}

/// The text that bytes say in which references may stand.
#[inline]
pub fn said(alloc: Global, bytes: &[u8], context: Context) -> Result<Result<Text, BadText>, Memory>
    requires { IsUtf8 bytes.now }
    ensures { IfOk result (λ said. said ≡ span.text_said context bytes.now) }
{
    if is_literal(bytes, context) {
        let text = text_of(alloc, bytes)?;
        return Ok(Ok(text));
    }
    resolved(alloc, bytes, context, true)
}

/// The text that bytes of content say in which references stand, but no carriage return.
pub fn unbroken_said(alloc: Global, bytes: &[u8]) -> Result<Result<Text, BadText>, Memory>
    requires utf8 { IsUtf8 bytes.now }
    requires unbroken { list_all (λ b. not (b == 13)) bytes.now ≡ true }
    ensures { IfOk result (λ said. said ≡ span.text_said context.Content bytes.now) }
{
    resolved(alloc, bytes, Context::Content, false)
}

/// The same, reference by reference. `broken` says that bytes may have to be changed where no reference stands.
fn resolved(
    alloc: Global,
    bytes: &[u8],
    context: Context,
    broken: bool,
) -> Result<Result<Text, BadText>, Memory>
    requires utf8 { IsUtf8 bytes.now }
    requires broken { IsKept broken context bytes.now }
    ensures { IfOk result (λ said. said ≡ span.text_said context bytes.now) }
{
    match resolve(alloc, bytes, context, broken)? {
        Ok(out) => Ok(Ok(made(out))),
        Err(fault) => Ok(Err(fault)),
    }
}

/// Whether each byte says itself.
fn is_literal(bytes: &[u8], context: Context) -> bool
    ensures { result ≡ span.is_literal context bytes.now }
{
    match context {
        Context::Content => memchr2(b'&', b'\r', bytes).is_none(),
        // Most values are too short for a search in bulk to pay.
        Context::Value => !has_unsaid(bytes),
    }
}

fn has_unsaid(bytes: &[u8]) -> bool
    ensures { result ≡ list_any (λ b. spec.is_ampersand b || span.is_break b) bytes.now }
{
    bytes.iter().any(|b| is_unsaid(*b))
}

/// Whether a byte of a value doesn't say itself.
fn is_unsaid(byte: u8) -> bool
    ensures { result ≡ (spec.is_ampersand byte || span.is_break byte) }
{
    // Most bytes of values are letters and digits, so these come first.
    byte <= b'&' && matches!(byte, b'&' | b'\r' | b'\n' | b'\t')
}

fn made(out: Vec<u8>) -> Text
    requires { IsUtf8 out.items }
    ensures { result ≡ chars out.items }
{
    Text::from_string(unsafe { String::from_utf8_unchecked(out) })
}

/// The bytes of what bytes say in which references stand.
#[inline(never)]
fn resolve(
    alloc: Global,
    bytes: &[u8],
    context: Context,
    broken: bool,
) -> Result<Result<Vec<u8>, BadText>, Memory>
    requires utf8 { IsUtf8 bytes.now }
    requires broken { IsKept broken context bytes.now }
    ensures said { IfOk result (λ said. span.bytes_of said ≡ spec.said context bytes.now) }
    ensures utf8 { IfOk result (λ said. IfOk said (λ out. IsUtf8 out.items)) }
{
    let mut out = Vec::with_capacity(alloc, bytes.len())?;
    let mut is_known = true;
    let (literal, mut next) = cut_at_ampersand(bytes);
    push_piece(&mut out, literal, context, broken)?;
    while let Some(more) = next {
        let (part, later) = cut_at_ampersand(more);
        match push_part(&mut out, part, context, broken)? {
            Ok(()) => {}
            Err(BadText::Reference) => return Ok(Err(BadText::Reference)),
            Err(BadText::Entity) => is_known = false,
        }
        next = later;
    }
    if is_known {
        Ok(Ok(out))
    } else {
        Ok(Err(BadText::Entity))
    }
}

/// What stands before the first `&`, and what follows it.
fn cut_at_ampersand(bytes: &[u8]) -> (&[u8], Option<&[u8]>)
    ensures first { result.0.now ≡ spec.first_part spec.is_ampersand bytes.now }
    ensures later { spec.later_parts spec.is_ampersand bytes.now ≡ span.parts_of (option_copied result.1) }
    ensures utf8 { IsUtf8 bytes.now → IsUtf8 result.0.now × IfSome result.1 (λ later. IsUtf8 later.now) }
    ensures shorter { IfSome result.1 (λ later. length later.now < length bytes.now) }
    ensures kept { (broken : Bool) (place : Spelled) → IsKept broken place bytes.now → IsKept broken place result.0.now × IfSome result.1 (λ later. IsKept broken place later.now) }
{
    match until_far_byte(b'&', bytes) {
        Some((first, later)) => (first, Some(later)),
        None => (bytes, None),
    }
}

/// What stands before the first such byte, and what follows it.
#[inline(always)]
pub fn until_byte(byte: u8, bytes: &[u8]) -> Option<(&[u8], &[u8])>
    ensures { option_map (λ found. (found.0.now, found.1.now)) result ≡ span.cut_at (λ b. b == byte) bytes.now }
{
    let at = place_of(byte, bytes)?;
    Some((head(bytes, at), tail(bytes, at + 1)))
}

/// The same of a byte that mostly doesn't stand near.
#[inline(always)]
fn until_far_byte(byte: u8, bytes: &[u8]) -> Option<(&[u8], &[u8])>
    ensures { option_map (λ found. (found.0.now, found.1.now)) result ≡ span.cut_at (λ b. b == byte) bytes.now }
{
    let at = memchr(byte, bytes)?;
    Some((head(bytes, at), tail(bytes, at + 1)))
}

/// Appends what a part behind an `&` says.
fn push_part(
    out: &mut Vec<u8>,
    part: &[u8],
    context: Context,
    broken: bool,
) -> Result<Result<(), BadText>, AllocError>
    requires utf8 { IsUtf8 part.now }
    requires broken { IsKept broken context part.now }
    ensures said { IfOk result (λ done. span.IsPushed out.old.items out.new.items (spec.after_ampersand context part.now) done) }
    ensures utf8 { IsUtf8 out.old.items → IfOk result (λ done. IsUtf8 out.new.items) }
{
    let Some((name, literal)) = until_byte(b';', part) else {
        return Ok(Err(BadText::Reference));
    };
    match referred(name) {
        Ok(c) => {
            push_char(out, c)?;
            push_piece(out, literal, context, broken)?;
            Ok(Ok(()))
        }
        Err(fault) => Ok(Err(fault)),
    }
}

fn push_char(out: &mut Vec<u8>, c: char) -> Result<(), AllocError>
    ensures said { IfOk result (λ done. out.new.items ≡ out.old.items ++ encode_utf8 c) }
    ensures utf8 { IsUtf8 out.old.items → IfOk result (λ done. IsUtf8 out.new.items) }
{
    if c.is_ascii() {
        out.push(c as u8)?;
        return Ok(());
    }
    let mut room = [0; 4];
    out.extend_from_slice(c.encode_utf8(&mut room).as_bytes())
}

/// Appends what bytes without references say, which is themselves where they aren't `broken`.
fn push_piece(
    out: &mut Vec<u8>,
    bytes: &[u8],
    context: Context,
    broken: bool,
) -> Result<(), AllocError>
    requires utf8 { IsUtf8 bytes.now }
    requires broken { IsKept broken context bytes.now }
    ensures said { IfOk result (λ done. out.new.items ≡ out.old.items ++ spec.literal context bytes.now) }
    ensures utf8 { IsUtf8 out.old.items → IfOk result (λ done. IsUtf8 out.new.items) }
{
    if broken {
        push_literal(out, bytes, context)
    } else {
        out.extend_from_slice(bytes)
    }
}

/// Appends what bytes without references say.
fn push_literal(out: &mut Vec<u8>, bytes: &[u8], context: Context) -> Result<(), AllocError>
    requires { IsUtf8 bytes.now }
    ensures said { IfOk result (λ done. out.new.items ≡ out.old.items ++ spec.literal context bytes.now) }
    ensures utf8 { IsUtf8 out.old.items → IfOk result (λ done. IsUtf8 out.new.items) }
{
    let mut rest = bytes;
    while let Some(at) = next_break(rest, context) {
        out.extend_from_slice(head(rest, at))?;
        out.push(break_as(context))?;
        rest = behind_break(tail(rest, at));
    }
    out.extend_from_slice(rest)
}

/// The place of the next byte that doesn't say itself.
fn next_break(bytes: &[u8], context: Context) -> Option<usize>
    ensures { span.IsFirstOf (span.is_changed context) bytes.now result }
{
    match context {
        Context::Content => memchr(b'\r', bytes),
        Context::Value => memchr3(b'\r', b'\n', b'\t', bytes),
    }
}

fn break_as(context: Context) -> u8
    ensures { result ≡ span.break_as context }
{
    match context {
        Context::Content => b'\n',
        Context::Value => b' ',
    }
}

/// What follows a line end, or a tab.
fn behind_break(bytes: &[u8]) -> &[u8]
    ensures { result.now ≡ span.behind_break bytes.now }
{
    match bytes {
        [b'\r', b'\n', rest @ ..] => rest,
        [_, rest @ ..] => rest,
        [] => bytes,
    }
}

/// The character that the bytes between `&` and `;` name (XML 1.0, 4.1 and 4.6).
#[tactic(auto, unfolding(crate::specs::Texts::referred))]
fn referred(name: &[u8]) -> Result<char, BadText>
    requires { IsUtf8 name.now }
    ensures { result ≡ spec.referred name.now }
{
    if let Some(c) = predefined(name) {
        Ok(c)
    } else if begins(name, b"#x") {
        character(tail(name, 2), 16)
    } else if begins(name, b"#") {
        character(tail(name, 1), 10)
    } else if is_name_of(name) {
        Err(BadText::Entity)
    } else {
        Err(BadText::Reference)
    }
}

/// The character of a predefined entity.
fn predefined(name: &[u8]) -> Option<char>
    ensures { result ≡ spec.predefined name.now }
{
    match name {
        [b'l', b't'] => Some('<'),
        [b'g', b't'] => Some('>'),
        [b'a', b'm', b'p'] => Some('&'),
        [b'a', b'p', b'o', b's'] => Some('\''),
        [b'q', b'u', b'o', b't'] => Some('"'),
        _ => None,
    }
}

/// Whether UTF-8 is a Name.
pub fn is_name_of(bytes: &[u8]) -> bool
    requires { IsUtf8 bytes.now }
    ensures { result ≡ class.is_name (chars bytes.now) }
{
    is_name(str_of(bytes))
}

/// The Char whose number these digits write.
fn character(digits: &[u8], radix: u32) -> Result<char, BadText>
    requires utf8 { IsUtf8 digits.now }
    requires radix { (2 ≤ radix) × (radix ≤ 36) }
    ensures { result ≡ spec.character radix digits.now }
{
    if digits.is_empty() || !are_digits(digits, radix) {
        return Err(BadText::Reference);
    }
    match number(digits, radix) {
        Some(c) if is_char(c) => Ok(c),
        _ => Err(BadText::Reference),
    }
}

fn are_digits(digits: &[u8], radix: u32) -> bool
    requires { (2 ≤ radix) × (radix ≤ 36) }
    ensures { result ≡ list_all (λ b. is_digit b radix) digits.now }
{
    digits.iter().all(|b| char::from(*b).is_digit(radix))
}

/// The character whose number these digits write.
fn number(digits: &[u8], radix: u32) -> Option<char>
    requires utf8 { IsUtf8 digits.now }
    requires digits { list_all (λ b. is_digit b radix) digits.now ≡ true }
    requires some { 0 < length digits.now }
    requires radix { (2 ≤ radix) × (radix ≤ 36) }
    ensures { SomeIff result (IsScalar (digits_value radix digits.now)) (digits_value radix digits.now) }
{
    match u32::from_str_radix(str_of(digits), radix) {
        Ok(number) => char::from_u32(number),
        Err(_) => None,
    }
}
