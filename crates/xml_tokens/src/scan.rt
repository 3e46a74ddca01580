ghost use Rattle.std.specs.Prelude.{◌≡◌, ◌≤◌, ◌<◌, ◌+◌, ◌++◌, ℕ, List, length, drop, slice_index, is_some};
ghost use Rattle.std.specs.List.{prefix_len};
ghost use Rattle.xml_tokens.specs.Places as places;
ghost use Rattle.xml_tokens.specs.Places.{first_outside, first_word};
ghost use Rattle.xml_tokens.specs.inside.Resume as resume;
ghost use Rattle.xml_tokens.specs.inside.Resume.{AlwaysResumes, IsFound, IsTextFound, IsWordFound, IsOutsideFound, IsUnmarked, ending_test};

use crate::cut::place_of;
use crate::form::{Form, begins, form_of};

/// How far an unended lexeme was searched for its end, so that no search begins again.
#[derive(Clone, Copy, Debug, PartialEq, Eq)]
pub struct Scan {
    /// Bytes from the lexeme's first one.
    pub searched: usize,
    /// The quote that is open there, in a tag.
    pub quote: Option<u8>,
}

impl Scan {
    pub const START: Scan = Scan {
        searched: 0,
        quote: None,
    };
}

/// What a search for a lexeme's end gives.
#[derive(Clone, Copy, Debug, PartialEq, Eq)]
pub enum Found {
    /// The length of the first shape.
    Whole(usize),
    Unended(Scan),
}

/// Goes on with the search for the end of the shape that the bytes begin with. Kept out of line, so that the code that most
/// lexemes run lies close together.
#[inline(never)]
pub fn search(bytes: &[u8], ended: bool, scan: Scan) -> Found
    requires { AlwaysResumes scan bytes.now }
    ensures { IsFound ended bytes.now result }
{
    match form_of(bytes) {
        Form::Undecided => Found::Unended(Scan::START),
        Form::Text => search_text(bytes, ended, scan.searched),
        Form::Comment => search_word(bytes, scan.searched.max(4), b"-->"),
        Form::CData => search_word(bytes, scan.searched.max(9), b"]]>"),
        Form::Instruction => search_word(bytes, scan.searched.max(2), b"?>"),
        Form::Declaration => search_outside(bytes, scan, true),
        Form::Tag => search_outside(bytes, scan, false),
    }
}

/// Text ends before the next `<`, or with the input.
fn search_text(bytes: &[u8], ended: bool, from: usize) -> Found
    requires { from ≤ length bytes.now }
    ensures { IsTextFound from ended bytes.now result }
{
    match place_of(b'<', &bytes[from..]) {
        Some(skipped) => Found::Whole(from + skipped),
        None if ended => Found::Whole(bytes.len()),
        None => unended_at(bytes.len()),
    }
}

/// A comment, a CDATA section and a processing instruction end with the first such word.
fn search_word(bytes: &[u8], from: usize, word: &[u8]) -> Found
    requires within { from ≤ length bytes.now }
    requires nonempty { 0 < length word.now }
    ensures { IsWordFound word.now from bytes.now result }
{
    let mut at = from;
    while at < bytes.len() {
        let Some(skipped) = place_of(word[0], &bytes[at..]) else {
            return unended_at(bytes.len());
        };
        at += skipped;
        if bytes.len() - at < word.len() {
            return unended_at(at);
        }
        if begins(&bytes[at..], word) {
            return Found::Whole(at + word.len());
        }
        at += 1;
    }
    unended_at(bytes.len())
}

fn unended_at(searched: usize) -> Found
    ensures { result ≡ Found.Unended (record { searched = searched; quote = None }) }
{
    Found::Unended(Scan {
        searched,
        quote: None,
    })
}

/// Whether the word stands somewhere.
pub fn has_word(bytes: &[u8], word: &[u8]) -> bool
    requires { 0 < length word.now }
    ensures { result ≡ is_some (first_word word.now 0 bytes.now) }
{
    match search_word(bytes, 0, word) {
        Found::Whole(_) => true,
        Found::Unended(_) => false,
    }
}

/// Other markup ends with the first `>` outside quotes, or, where it is no tag, with a `[`.
fn search_outside(bytes: &[u8], scan: Scan, bracket: bool) -> Found
    requires { scan.searched ≤ length bytes.now }
    ensures { IsOutsideFound (ending_test bracket) scan bytes.now result }
{
    let mut quote = scan.quote;
    let mut at = pass(bytes, scan.searched, quote, bracket);
    while at < bytes.len() {
        let byte = bytes[at];
        if is_outside(quote) && ends(byte, bracket) {
            return Found::Whole(at + 1);
        }
        quote = quote_after(quote, byte);
        at = pass(bytes, at + 1, quote, bracket);
    }
    Found::Unended(Scan {
        searched: bytes.len(),
        quote,
    })
}

/// Passes over bytes that neither end a shape nor open or close a quote.
fn pass(bytes: &[u8], at: usize, quote: Option<u8>, bracket: bool) -> usize
    requires { at ≤ length bytes.now }
    ensures low { at ≤ result }
    ensures high { result ≤ length bytes.now }
    ensures same { (more : List ℕ) → first_outside (ending_test bracket) quote at (drop at (bytes.now ++ more))
        ≡ first_outside (ending_test bracket) quote result (drop result (bytes.now ++ more)) }
{
    at + unmarked_len(&bytes[at..], quote)
}

/// How many bytes neither end a shape nor open or close a quote.
fn unmarked_len(bytes: &[u8], quote: Option<u8>) -> usize
    ensures bound { result ≤ length bytes.now }
    ensures passed { (i : ℕ) → i < result → IsUnmarked quote (slice_index bytes.now i) }
{
    match quote {
        None => outside_len(bytes),
        Some(open) => place_of(open, bytes).unwrap_or(bytes.len()),
    }
}

fn outside_len(bytes: &[u8]) -> usize
    ensures value { result ≡ prefix_len resume.is_unmarked bytes.now }
    ensures bound { result ≤ length bytes.now }
{
    bytes.iter().take_while(|b| is_unmarked(**b)).count()
}

/// Whether a byte outside quotes neither ends a shape nor opens a quote.
fn is_unmarked(byte: u8) -> bool
    ensures { result ≡ resume.is_unmarked byte }
{
    // Most bytes are small letters, so these come first.
    byte > b'[' || !matches!(byte, b'[' | b'>' | b'"' | b'\'')
}

fn ends(byte: u8, bracket: bool) -> bool
    ensures { result ≡ ending_test bracket byte }
{
    byte == b'>' || bracket && byte == b'['
}

fn is_outside(quote: Option<u8>) -> bool
    ensures { result ≡ places.is_outside quote }
{
    quote.is_none()
}

/// The quote that is open behind a byte.
fn quote_after(quote: Option<u8>, byte: u8) -> Option<u8>
    ensures { result ≡ places.quote_after quote byte }
{
    match quote {
        None if byte == b'"' || byte == b'\'' => Some(byte),
        None => None,
        Some(open) if byte == open => None,
        Some(open) => Some(open),
    }
}
