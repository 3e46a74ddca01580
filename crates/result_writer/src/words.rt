ghost use Rattle.std.specs.Prelude.{◌≡◌};
ghost use Rattle.result_writer.specs.Allowed.{agree, is_empty, is_word, same};
ghost use Rattle.result_writer.specs.Target as spec;

use stx_base::{Name, Text};

/// Whether two texts have the same characters.
pub fn same(a: &Text, b: &Text) -> bool
    ensures { result ≡ same a.now b.now }
{
    // Most texts that are compared differ in length, and that is seen without a call.
    a.as_str().len() == b.as_str().len() && a.same(b)
}

/// Whether a text is spelled as `word` is.
pub fn is_word(text: &Text, word: &str) -> bool
    ensures { result ≡ is_word text.now word.now }
{
    text.as_str().len() == word.len() && text.as_str() == word
}

pub fn is_empty(text: &Text) -> bool
    ensures { result ≡ is_empty text.now }
{
    text.is_empty()
}

/// Whether both hold, or neither does.
pub fn agree(a: bool, b: bool) -> bool
    ensures { result ≡ agree a b }
{
    a == b
}

/// Whether two names have one URI and one local part.
pub fn same_name(name: &Name, other: &Name) -> bool
    ensures { result ≡ spec.same_name name.now other.now }
{
    same(&name.uri, &other.uri) && same(&name.local, &other.local)
}
