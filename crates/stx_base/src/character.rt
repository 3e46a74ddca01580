ghost use Rattle.std.specs.Prelude.{◌≡◌, ◌≤◌, ◌&&◌, nat_lt, false, true, length, slice_get};
ghost use Rattle.std.specs.List.{list_all, prefix_len};
ghost use Rattle.std.specs.Option.{option_map_or};
ghost use Rattle.std.specs.Str.{chars};
ghost use Rattle.stx_base.specs.Character as class;

// From so many bytes on a loop over all of them is faster than one that ends early.
const MANY: usize = 32;

// Which bytes of ASCII are NameChars is told by one load, where their ranges take several comparisons.
// Each of them stands at its own place, and a comma, which is none, at every other place.
static NAME_BYTES: [u8; 256] = *b"\
    ,,,,,,,,,,,,,,,,,,,,,,,,,,,,,,,,\
    ,,,,,,,,,,,,,-.,0123456789:,,,,,\
    ,ABCDEFGHIJKLMNOPQRSTUVWXYZ,,,,_\
    ,abcdefghijklmnopqrstuvwxyz,,,,,\
    ,,,,,,,,,,,,,,,,,,,,,,,,,,,,,,,,\
    ,,,,,,,,,,,,,,,,,,,,,,,,,,,,,,,,\
    ,,,,,,,,,,,,,,,,,,,,,,,,,,,,,,,,\
    ,,,,,,,,,,,,,,,,,,,,,,,,,,,,,,,,";

// The same without the colon.
static NCNAME_BYTES: [u8; 256] = *b"\
    ,,,,,,,,,,,,,,,,,,,,,,,,,,,,,,,,\
    ,,,,,,,,,,,,,-.,0123456789,,,,,,\
    ,ABCDEFGHIJKLMNOPQRSTUVWXYZ,,,,_\
    ,abcdefghijklmnopqrstuvwxyz,,,,,\
    ,,,,,,,,,,,,,,,,,,,,,,,,,,,,,,,,\
    ,,,,,,,,,,,,,,,,,,,,,,,,,,,,,,,,\
    ,,,,,,,,,,,,,,,,,,,,,,,,,,,,,,,,\
    ,,,,,,,,,,,,,,,,,,,,,,,,,,,,,,,,";

/// Whether `c` is a Char (XML 1.0, 2.2).
#[inline]
pub fn is_char(c: char) -> bool
    ensures { result ≡ class.is_char c }
{
    matches!(
        c,
        '\t' | '\n' | '\r' | ' '..='\u{D7FF}' | '\u{E000}'..='\u{FFFD}' | '\u{10000}'..='\u{10FFFF}'
    )
}

/// Whether each byte is an ASCII character and a Char (XML 1.0, 2.2).
pub fn are_ascii_chars(bytes: &[u8]) -> bool
    ensures { result ≡ list_all (λ b. nat_lt b 128 && class.is_char b) bytes.now }
{
    if bytes.len() < MANY {
        bytes.iter().all(|b| is_ascii_char(*b))
    } else {
        are_many_ascii_chars(bytes)
    }
}

fn are_many_ascii_chars(bytes: &[u8]) -> bool
    ensures { result ≡ list_all (λ b. nat_lt b 128 && class.is_char b) bytes.now }
{
    // No byte ends the loop, so that many bytes are compared at once.
    let mut chars = true;
    for b in bytes {
        chars = chars & is_ascii_char(*b);
    }
    chars
}

/// Whether a byte is an ASCII character and a Char (XML 1.0, 2.2).
#[inline(always)]
pub fn is_ascii_char(byte: u8) -> bool
    ensures { result ≡ (nat_lt byte 128 && class.is_char byte) }
{
    // One value without branches, as bytes that are compared together need it.
    let is_space = (byte == b'\t') | (byte == b'\n') | (byte == b'\r');
    ((byte >= b' ') & (byte < 0x80)) | is_space
}

/// Whether `c` is white space, S (XML 1.0, 2.3).
#[inline]
pub fn is_space(c: char) -> bool
    ensures { result ≡ class.is_space c }
{
    matches!(c, ' ' | '\t' | '\r' | '\n')
}

/// Whether `c` is a NameStartChar (XML 1.0, 2.3).
#[inline(always)]
pub fn is_name_start(c: char) -> bool
    ensures { result ≡ class.is_name_start c }
{
    if c.is_ascii() {
        matches!(c, 'a'..='z' | 'A'..='Z' | ':' | '_')
    } else {
        is_wide_name_start(c)
    }
}

/// Whether a character beyond ASCII is a NameStartChar.
fn is_wide_name_start(c: char) -> bool
    requires { 128 ≤ c }
    ensures { result ≡ class.is_name_start c }
{
    matches!(
        c,
        '\u{C0}'..='\u{D6}'
            | '\u{D8}'..='\u{F6}'
            | '\u{F8}'..='\u{2FF}'
            | '\u{370}'..='\u{37D}'
            | '\u{37F}'..='\u{1FFF}'
            | '\u{200C}'..='\u{200D}'
            | '\u{2070}'..='\u{218F}'
            | '\u{2C00}'..='\u{2FEF}'
            | '\u{3001}'..='\u{D7FF}'
            | '\u{F900}'..='\u{FDCF}'
            | '\u{FDF0}'..='\u{FFFD}'
            | '\u{10000}'..='\u{EFFFF}'
    )
}

/// Whether `c` is a NameChar (XML 1.0, 2.3).
#[inline(always)]
pub fn is_name_char(c: char) -> bool
    ensures { result ≡ class.is_name_char c }
{
    if c.is_ascii() {
        matches!(c, 'a'..='z' | 'A'..='Z' | '0'..=':' | '-' | '.' | '_')
    } else {
        is_wide_name_char(c)
    }
}

/// Whether a character beyond ASCII is a NameChar.
fn is_wide_name_char(c: char) -> bool
    requires { 128 ≤ c }
    ensures { result ≡ class.is_name_char c }
{
    is_wide_name_start(c) || matches!(c, '\u{B7}' | '\u{300}'..='\u{36F}' | '\u{203F}'..='\u{2040}')
}

/// Whether a byte is an ASCII character and a NameChar (XML 1.0, 2.3).
#[inline(always)]
pub fn is_ascii_name_byte(byte: u8) -> bool
    ensures { result ≡ (nat_lt byte 128 && class.is_name_char byte) }
{
    NAME_BYTES[byte as usize] != b','
}

/// Whether a byte is an ASCII character and a NameChar other than a colon.
#[inline(always)]
pub fn is_ascii_ncname_byte(byte: u8) -> bool
    ensures { result ≡ (nat_lt byte 128 && class.is_ncname_char byte) }
{
    NCNAME_BYTES[byte as usize] != b','
}

/// Whether `text` is a Name (XML 1.0, 2.3).
pub fn is_name(text: &str) -> bool
    ensures { result ≡ class.is_name (chars text.now) }
{
    begins_as_name(text) && holds_name_chars(text)
}

/// Whether `text` can be what a CDATA section holds: Chars alone, no carriage return, which reading would turn into a line
/// feed, and no `]]>`, which ends the section (XML 1.0, 2.7 and 2.11).
pub fn is_cdata_text(text: &str) -> bool
    ensures { result ≡ class.is_cdata_text (chars text.now) }
{
    holds_chars_of_cdata(text) && !has_cdata_end(text)
}

/// Whether each character is a Char and no carriage return.
fn holds_chars_of_cdata(text: &str) -> bool
    ensures { result ≡ list_all class.is_char_of_cdata (chars text.now) }
{
    text.chars().all(|c| is_char(c) && c != '\r')
}

/// Whether the mark that ends a CDATA section stands anywhere in `text`.
fn has_cdata_end(text: &str) -> bool
    ensures { result ≡ class.has_cdata_end (chars text.now) }
{
    // How many brackets stand directly before, where two stand for more.
    let mut brackets = 0usize;
    for c in text.chars() {
        if c == ']' {
            brackets = (brackets + 1).min(2);
        } else if c == '>' && brackets == 2 {
            return true;
        } else {
            brackets = 0;
        }
    }
    false
}

/// Whether `text` is an NCName: a Name without colon (Namespaces in XML 1.0, 3).
pub fn is_ncname(text: &str) -> bool
    ensures { result ≡ class.is_ncname (chars text.now) }
{
    let bytes = text.as_bytes();
    let (_, rest) = bytes.split_at(ascii_ncname_len(bytes));
    match rest.first() {
        // Most names are of ASCII characters alone,
        None => begins_as_ascii_name(bytes),
        // and what is none has mostly another one, a colon above all.
        Some(byte) if *byte < 0x80 => false,
        Some(_) => is_wide_ncname(text),
    }
}

fn ascii_ncname_len(bytes: &[u8]) -> usize
    ensures value { result ≡ prefix_len (λ b. nat_lt b 128 && class.is_ncname_char b) bytes.now }
    ensures bound { result ≤ length bytes.now }
{
    bytes
        .iter()
        .take_while(|b| is_ascii_ncname_byte(**b))
        .count()
}

fn begins_as_ascii_name(bytes: &[u8]) -> bool
    requires { list_all (λ b. nat_lt b 128 && class.is_ncname_char b) bytes.now ≡ true }
    ensures { result ≡ option_map_or class.is_name_start (slice_get bytes.now 0) false }
{
    match bytes.first() {
        // No hyphen, dot or digit begins a name, and no other NameChar comes before `9`.
        Some(first) => *first > b'9',
        None => false,
    }
}

/// The same of text that characters beyond ASCII may be in.
fn is_wide_ncname(text: &str) -> bool
    ensures { result ≡ class.is_ncname (chars text.now) }
{
    begins_as_name(text) && holds_ncname_chars(text)
}

fn begins_as_name(text: &str) -> bool
    ensures { result ≡ option_map_or class.is_name_start (slice_get (chars text.now) 0) false }
{
    match text.chars().next() {
        None => false,
        Some(first) => is_name_start(first),
    }
}

fn holds_name_chars(text: &str) -> bool
    ensures { result ≡ list_all class.is_name_char (chars text.now) }
{
    are_ascii_name_chars(text.as_bytes()) || text.chars().all(|c| is_name_char(c))
}

fn holds_ncname_chars(text: &str) -> bool
    ensures { result ≡ list_all class.is_ncname_char (chars text.now) }
{
    text.chars().all(|c| is_name_char(c) && c != ':')
}

fn are_ascii_name_chars(bytes: &[u8]) -> bool
    ensures { result ≡ list_all (λ b. nat_lt b 128 && class.is_name_char b) bytes.now }
{
    bytes.iter().all(|b| is_ascii_name_byte(*b))
}
