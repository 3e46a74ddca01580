ghost use Rattle.std.specs.Prelude.{◌≡◌, true, nat_lt};
ghost use Rattle.std.specs.List.{list_all};
ghost use Rattle.std.specs.Str.{chars};
ghost use Rattle.xml_names.specs.Scope.{is_empty, same};
ghost use Rattle.xml_names.specs.Tag.{agree};

use stx_base::Text;

/// Whether a text is a word of ASCII.
pub fn is_word(text: &str, word: &str) -> bool
    requires { list_all (λ b. nat_lt b 128) word.now ≡ true }
    ensures { result ≡ same (chars text.now) word.now }
{
    // Most words differ in length, and that is seen without a call.
    text.len() == word.len() && text == word
}

/// Whether a text has the characters of another.
pub fn is_spelled(text: &Text, other: &str) -> bool
    ensures { result ≡ same text.now (chars other.now) }
{
    text.as_str().len() == other.len() && text.as_str() == other
}

pub fn is_empty(text: &str) -> bool
    ensures { result ≡ is_empty (chars text.now) }
{
    text.is_empty()
}

/// Whether both hold, or neither does.
pub fn agree(a: bool, b: bool) -> bool
    ensures { result ≡ agree a b }
{
    a == b
}
