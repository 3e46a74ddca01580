ghost use Rattle.std.specs.Prelude.{◌≡◌, ◌≤◌, ◌&&◌, IfOk, IfSome, SomeIff, length, map, nat_le, nat_lt, true};
ghost use Rattle.std.specs.Char.{is_ascii_digit};
ghost use Rattle.std.specs.List.{list_all};
ghost use Rattle.std.specs.Str.Parse.{digits_value};
ghost use Rattle.command_words.specs.Finding.{words_in};
ghost use Rattle.command_words.specs.Words.{Reads, is_digits, is_numeral, number_in};

use crate::fault::WordsFault;

/// The most digits of a number.
const DIGITS: usize = 19;

/// The numbers that an option takes.
#[derive(Clone, Copy, Debug)]
pub(crate) struct Range {
    pub(crate) least: u64,
    pub(crate) most: u64,
}

/// The number of an option by its uses: it is given once, as a numeral in the range, or not at all.
pub(crate) fn number(uses: Option<&[&str]>, range: Range) -> Result<Option<u64>, WordsFault>
    ensures reads { Reads (number_in range.least range.most (words_in uses.entry)) result }
    ensures within { IfOk result (λ given. IfSome given (λ number. number ≤ range.most)) }
{
    match uses {
        None => Ok(None),
        Some(words) => one_number(words, range),
    }
}

fn one_number(words: &[&str], range: Range) -> Result<Option<u64>, WordsFault>
    ensures reads { Reads (number_in range.least range.most (map (λ word. word.now) words.now)) result }
    ensures within { IfOk result (λ given. IfSome given (λ number. number ≤ range.most)) }
{
    match words {
        [] => Ok(None),
        [word] => match numeral(word, range) {
            Some(number) => Ok(Some(number)),
            None => Err(WordsFault::Usage),
        },
        _ => Err(WordsFault::Usage),
    }
}

fn numeral(word: &str, range: Range) -> Option<u64>
    ensures value { SomeIff result (is_numeral range.least range.most word.now ≡ true) (digits_value 10 word.now) }
    ensures within { IfSome result (λ number. number ≤ range.most) }
{
    if !is_digits(word.as_bytes()) {
        return None;
    }
    match word.parse::<u64>() {
        Ok(number) if range.least <= number && number <= range.most => Some(number),
        _ => None,
    }
}

// One to nineteen digits.
fn is_digits(bytes: &[u8]) -> bool
    ensures { result ≡ is_digits bytes.now }
{
    has_length(bytes) && are_digits(bytes)
}

fn has_length(bytes: &[u8]) -> bool
    ensures { result ≡ (nat_lt 0 (length bytes.now) && nat_le (length bytes.now) 19) }
{
    let count = bytes.len();
    0 < count && count <= DIGITS
}

fn are_digits(bytes: &[u8]) -> bool
    ensures { result ≡ list_all is_ascii_digit bytes.now }
{
    bytes.iter().all(|byte| is_digit(*byte))
}

fn is_digit(byte: u8) -> bool
    ensures { result ≡ is_ascii_digit byte }
{
    byte.is_ascii_digit()
}
