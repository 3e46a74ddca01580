//! Priorities of templates.

ghost use Rattle.std.specs.Prelude.{◌≡◌, ◌≤◌, ◌<◌, ◌&&◌, ◌+◌, ◌*◌, Some, None, IfSome, pos, neg_ℤ, length, true, if◌then◌else◌};
ghost use Rattle.std.specs.List.{list_all, position};
ghost use Rattle.std.specs.Option.{option_map};
ghost use Rattle.sheet_loader.specs.Values as spec;

use stx_base::Text;

fn is_digit(byte: u8) -> bool
    ensures { result ≡ spec.is_digit byte }
{
    byte >= b'0' && byte <= b'9'
}

fn are_all_digits(bytes: &[u8]) -> bool
    ensures { result ≡ list_all spec.is_digit bytes.now }
{
    bytes.iter().all(|b| is_digit(*b))
}

/// Whether there are digits, up to `most` of them, and nothing else.
fn are_digits(bytes: &[u8], most: usize) -> bool
    ensures { result ≡ spec.are_digits 1 most bytes.now }
{
    1 <= bytes.len() && bytes.len() <= most && are_all_digits(bytes)
}

/// The number that digits write.
fn number(digits: &[u8]) -> u32
    requires { length digits.now ≤ 6 }
    ensures { result ≡ spec.number 0 digits.now }
{
    let mut number = 0u32;
    for digit in digits {
        number = number * 10 + u32::from(digit.saturating_sub(b'0'));
    }
    number
}

/// One to six digits.
fn whole(digits: &[u8]) -> Option<u32>
    ensures value { result ≡ (if spec.are_digits 1 6 digits.now then Some (spec.number 0 digits.now) else None) }
    ensures bound { IfSome result (λ n. n < 1000000) }
{
    if are_digits(digits, 6) {
        Some(number(digits))
    } else {
        None
    }
}

/// Two digits, of which the second may be left out.
fn hundredths(digits: &[u8]) -> u32
    requires { spec.are_digits 1 2 digits.now ≡ true }
    ensures value { result ≡ spec.hundredths digits.now }
    ensures bound { result < 1000 }
{
    if digits.len() == 1 {
        number(digits) * 10
    } else {
        number(digits)
    }
}

/// One or two digits behind a dot.
fn part(digits: &[u8]) -> Option<u32>
    ensures value { result ≡ (if spec.are_digits 1 2 digits.now then Some (spec.hundredths digits.now) else None) }
    ensures bound { IfSome result (λ n. n < 1000) }
{
    if are_digits(digits, 2) {
        Some(hundredths(digits))
    } else {
        None
    }
}

fn with_part(digits: &[u8], behind: &[u8]) -> Option<u32>
    ensures value { result ≡ (if spec.are_digits 1 6 digits.now && spec.are_digits 1 2 behind.now then Some (spec.number 0 digits.now * 100 + spec.hundredths behind.now) else None) }
    ensures bound { IfSome result (λ n. n < 200000000) }
{
    match (whole(digits), part(behind)) {
        (Some(whole), Some(part)) => Some(whole * 100 + part),
        _ => None,
    }
}

fn without_part(digits: &[u8]) -> Option<u32>
    ensures value { result ≡ (if spec.are_digits 1 6 digits.now then Some (spec.number 0 digits.now * 100) else None) }
    ensures bound { IfSome result (λ n. n < 200000000) }
{
    match whole(digits) {
        Some(whole) => Some(whole * 100),
        None => None,
    }
}

/// Where the first dot stands.
fn dot(bytes: &[u8]) -> Option<usize>
    ensures { result ≡ position spec.is_dot bytes.now }
{
    bytes.iter().position(|b| *b == b'.')
}

/// One to six digits, and then perhaps a dot and one or two more, in hundredths.
fn unsigned(text: &[u8]) -> Option<u32>
    ensures value { result ≡ spec.unsigned_priority text.now }
    ensures bound { IfSome result (λ n. n < 200000000) }
{
    match dot(text) {
        None => without_part(text),
        Some(at) => with_part(&text[..at], &text[at + 1..]),
    }
}

fn positive(priority: Option<u32>) -> Option<i32>
    requires { IfSome priority (λ n. n < 200000000) }
    ensures { result ≡ option_map pos priority }
{
    match priority {
        None => None,
        Some(priority) => Some(priority as i32),
    }
}

fn negative(priority: Option<u32>) -> Option<i32>
    requires { IfSome priority (λ n. n < 200000000) }
    ensures { result ≡ option_map (λ n. neg_ℤ (pos n)) priority }
{
    match priority {
        None => None,
        Some(priority) => Some(0 - priority as i32),
    }
}

fn signed(text: &str) -> Option<i32>
    ensures { result ≡ spec.priority_of text.now }
{
    let bytes = text.as_bytes();
    match bytes.split_first() {
        None => None,
        Some((first, rest)) => if *first == b'-' {
            negative(unsigned(rest))
        } else {
            positive(unsigned(bytes))
        },
    }
}

/// A priority in hundredths: one without a sign, perhaps behind a minus.
pub fn priority_of(text: &Text) -> Option<i32>
    ensures { result ≡ spec.priority_of text.now }
{
    signed(text.as_str())
}
