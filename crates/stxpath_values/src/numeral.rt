ghost use Rattle.std.specs.Prelude.{◌≡◌, ◌≤◌, true, length, nat_lt, count_by};
ghost use Rattle.std.specs.List.{list_all, suffix_len, prefix_len};
ghost use Rattle.std.specs.Char as ascii;
ghost use Rattle.std.specs.Str.{chars, IsAscii};
ghost use Rattle.std.specs.Str.Parse as parse;
ghost use Rattle.stx_base.specs.Character as class;
ghost use Rattle.stxpath_values.specs.Numeral as spec;

use crate::fault::EvalFault;
use stx_base::is_space;

/// The number that a text writes, with white space round it or none; `None` where it is neither a numeral nor a
/// fraction.
pub fn text_number(text: &str) -> Result<Option<i64>, EvalFault>
    ensures { result ≡ spec.text_number (chars text.now) }
{
    // White space, signs, digits and the dot are ASCII.
    if !text.is_ascii() {
        return Ok(None);
    }
    stripped_number(stripped(text.as_bytes()))
}

#[tactic(auto, unfolding(crate::specs::Numeral::stripped_number))]
fn stripped_number(bytes: &[u8]) -> Result<Option<i64>, EvalFault>
    requires { IsAscii bytes.now }
    ensures { result ≡ spec.stripped_number bytes.now }
{
    if is_numeral(bytes) {
        let n = number(bytes)?;
        Ok(Some(n))
    } else if is_fraction(bytes) {
        Err(EvalFault::Fraction)
    } else {
        Ok(None)
    }
}

fn number(bytes: &[u8]) -> Result<i64, EvalFault>
    requires ascii { IsAscii bytes.now }
    requires numeral { spec.is_numeral bytes.now ≡ true }
    ensures { result ≡ spec.whole (spec.number bytes.now) }
{
    let Ok(text) = std::str::from_utf8(bytes) else {
        unreachable!()
    };
    match i64::from_str_radix(text, 10) {
        Ok(n) => Ok(n),
        Err(_) => Err(EvalFault::Overflow),
    }
}

#[tactic(auto, unfolding(crate::specs::Numeral::is_numeral))]
fn is_numeral(bytes: &[u8]) -> bool
    ensures { result ≡ spec.is_numeral bytes.now }
{
    let digits = without_sign(bytes);
    has_more(digits, 0) && are_digits(digits)
}

#[tactic(auto, unfolding(crate::specs::Numeral::is_fraction))]
fn is_fraction(bytes: &[u8]) -> bool
    ensures { result ≡ spec.is_fraction bytes.now }
{
    let digits = without_sign(bytes);
    has_more(digits, 1) && are_digits_or_dots(digits) && dots(digits) == 1
}

fn has_more(bytes: &[u8], n: usize) -> bool
    ensures { result ≡ nat_lt n (length bytes.now) }
{
    n < bytes.len()
}

fn are_digits(bytes: &[u8]) -> bool
    ensures { result ≡ list_all ascii.is_ascii_digit bytes.now }
{
    bytes.iter().all(|b| b.is_ascii_digit())
}

fn are_digits_or_dots(bytes: &[u8]) -> bool
    ensures { result ≡ list_all spec.is_digit_or_dot bytes.now }
{
    bytes.iter().all(|b| is_digit_or_dot(*b))
}

fn dots(bytes: &[u8]) -> usize
    ensures { result ≡ count_by spec.is_dot bytes.now }
{
    bytes.iter().filter(|b| **b == b'.').count()
}

fn is_digit_or_dot(byte: u8) -> bool
    ensures { result ≡ spec.is_digit_or_dot byte }
{
    byte.is_ascii_digit() || byte == b'.'
}

fn without_sign(bytes: &[u8]) -> &[u8]
    ensures { result.now ≡ parse.without_leading_sign bytes.now }
{
    match bytes.split_first() {
        Some((sign, rest)) if *sign == b'-' || *sign == b'+' => rest,
        _ => bytes,
    }
}

/// The bytes without white space at their front and their end.
fn stripped(bytes: &[u8]) -> &[u8]
    ensures { result.now ≡ spec.stripped bytes.now }
{
    without_space_behind(without_space_before(bytes))
}

fn without_space_before(bytes: &[u8]) -> &[u8]
    ensures { result.now ≡ spec.without_space_before bytes.now }
{
    let len = space_before(bytes);
    &bytes[len..]
}

fn without_space_behind(bytes: &[u8]) -> &[u8]
    ensures { result.now ≡ spec.without_space_behind bytes.now }
{
    let len = bytes.len() - space_behind(bytes);
    &bytes[..len]
}

fn space_before(bytes: &[u8]) -> usize
    ensures value { result ≡ prefix_len class.is_space bytes.now }
    ensures bound { result ≤ length bytes.now }
{
    bytes
        .iter()
        .take_while(|b| is_space(char::from(**b)))
        .count()
}

fn space_behind(bytes: &[u8]) -> usize
    ensures value { result ≡ suffix_len class.is_space bytes.now }
    ensures bound { result ≤ length bytes.now }
{
    bytes
        .iter()
        .rev()
        .take_while(|b| is_space(char::from(**b)))
        .count()
}
