//! Texts beside words.

ghost use Rattle.std.specs.Prelude.{◌≡◌, bytes_eq, nat_lt, true};
ghost use Rattle.std.specs.List.{list_all};
ghost use Rattle.std.specs.Str.{chars};

use stx_base::Text;

/// Whether a text has these characters.
pub fn is_spelled(text: &Text, other: &str) -> bool
    ensures { result ≡ bytes_eq text.now (chars other.now) }
{
    text.as_str() == other
}

/// Whether a text is a word of ASCII.
pub fn is_word(text: &Text, word: &str) -> bool
    requires { list_all (λ b. nat_lt b 128) word.now ≡ true }
    ensures { result ≡ bytes_eq text.now word.now }
{
    text.as_str() == word
}

/// Whether two texts have the same characters.
pub fn are_same(one: &str, other: &str) -> bool
    ensures { result ≡ bytes_eq (chars one.now) (chars other.now) }
{
    one == other
}
