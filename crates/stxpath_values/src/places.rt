ghost use Rattle.std.specs.Prelude.{◌≡◌, ◌≤◌, ℕ, pos, ◌+◌, ◌<◌, ◌&&◌, nat_le, nat_lt, nat_eq, is_some, slice_range, take, drop, string_bytes, IfOk};
ghost use Rattle.std.specs.List.{starts_with as list_starts_with};
ghost use Rattle.std.specs.List.{ends_with as list_ends_with};
ghost use Rattle.std.specs.Str.{chars};
ghost use Rattle.stxpath_values.specs.Places.{is_within, before_word, after_word, first_occurrence};
ghost use Rattle.stxpath_values.specs.Places as spec;

use std::alloc::{AllocError, Global};
use stx_base::{Memory, Text};

/// Items of a list, from one index up to another.
#[derive(Clone, Copy, Debug, PartialEq, Eq)]
pub struct Bounds {
    pub from: usize,
    pub to: usize,
}

/// The places p, from 1, with start <= p and, where there is a length, p < start + length, of a list of `size` items, as
/// indices from 0. The sum isn't bounded to 64 bits.
pub fn selected(start: i64, len: Option<i64>, size: usize) -> Bounds
    ensures order { result.from ≤ result.to }
    ensures size { result.to ≤ size }
    ensures within { (i : ℕ) → i < size → is_within start len (pos (i + 1)) ≡ (nat_le result.from i && nat_lt i result.to) }
{
    let from = index_of_start(start, size);
    let to = index_of_end(start, len, size);
    Bounds {
        from,
        to: to.max(from),
    }
}

/// How many indices below `size` have a place below the start.
fn index_of_start(start: i64, size: usize) -> usize
    ensures size { result ≤ size }
    ensures below { (i : ℕ) → i < size → nat_lt i result ≡ spec.is_before start i }
{
    index_of_place(start as i128, size)
}

/// How many indices below `size` have a place below the end.
fn index_of_end(start: i64, len: Option<i64>, size: usize) -> usize
    ensures size { result ≤ size }
    ensures below { (i : ℕ) → i < size → nat_lt i result ≡ spec.is_before_end start len (pos (i + 1)) }
{
    match len {
        Some(len) => index_of_place(start as i128 + len as i128, size),
        None => size,
    }
}

/// How many indices below `size` have a place below this one.
fn index_of_place(place: i128, size: usize) -> usize
    ensures size { result ≤ size }
    ensures below { (i : ℕ) → i < size → nat_lt i result ≡ spec.is_before place i }
{
    if place <= 1 {
        0
    } else if place - 1 >= size as i128 {
        size
    } else {
        (place - 1) as usize
    }
}

/// The characters from one index up to another.
pub fn chars_between(alloc: Global, text: &str, bounds: Bounds) -> Result<Text, Memory>
    requires { bounds.from ≤ bounds.to }
    ensures { IfOk result (λ made. made ≡ slice_range (chars text.now) bounds.from bounds.to) }
{
    let string = collect_between(alloc, text, bounds.from, bounds.to - bounds.from)?;
    Ok(Text::from_string(string))
}

fn collect_between(
    alloc: Global,
    text: &str,
    skipped: usize,
    len: usize,
) -> Result<String, AllocError>
    ensures { IfOk result (λ made. chars (string_bytes made) ≡ take len (drop skipped (chars text.now))) }
{
    text.chars().skip(skipped).take(len).collect(alloc)
}

/// The characters before the first occurrence of a word; none where it doesn't occur.
pub fn before<'a>(text: &'a str, word: &str) -> &'a str
    ensures { chars result.now ≡ before_word (chars word.now) (chars text.now) }
{
    match text.find(word) {
        Some(i) => &text[..i],
        None => "",
    }
}

/// The characters after the first occurrence of a word; none where it doesn't occur.
pub fn after<'a>(text: &'a str, word: &str) -> &'a str
    ensures { chars result.now ≡ after_word (chars word.now) (chars text.now) }
{
    match text.find(word) {
        Some(i) => &text[i + word.len()..],
        None => "",
    }
}

pub fn contains(text: &str, word: &str) -> bool
    ensures { result ≡ is_some (first_occurrence (chars word.now) (chars text.now)) }
{
    text.find(word).is_some()
}

pub fn starts_with(text: &str, word: &str) -> bool
    ensures { result ≡ list_starts_with nat_eq (chars text.now) (chars word.now) }
{
    text.starts_with(word)
}

pub fn ends_with(text: &str, word: &str) -> bool
    ensures { result ≡ list_ends_with nat_eq (chars text.now) (chars word.now) }
{
    text.ends_with(word)
}
