ghost use Rattle.std.specs.Prelude.{◌≡◌, bytes_eq};
ghost use Rattle.xml_tokens.specs.Places as places;
ghost use Rattle.xml_tokens.specs.Shape.{form};

/// What kind of shape the bytes begin, by their first bytes alone.
#[derive(Clone, Copy, Debug, PartialEq, Eq)]
pub enum Form {
    Text,
    Comment,
    CData,
    Instruction,
    /// Other markup that begins with `<!`.
    Declaration,
    Tag,
    /// More bytes decide between a comment or a CDATA section and other markup.
    Undecided,
}

#[inline]
pub fn form_of(bytes: &[u8]) -> Form
    ensures { result ≡ form bytes.now }
{
    match bytes {
        [b'<', b'!', ..] => form_by_words(bytes),
        [b'<', b'?', ..] => Form::Instruction,
        [b'<', _, ..] => Form::Tag,
        [] | [b'<'] => Form::Undecided,
        _ => Form::Text,
    }
}

fn form_by_words(bytes: &[u8]) -> Form
    ensures { result ≡ form bytes.now }
{
    if is_part(bytes, b"<!--") || is_part(bytes, b"<![CDATA[") {
        Form::Undecided
    } else if begins(bytes, b"<!--") {
        Form::Comment
    } else if begins(bytes, b"<![CDATA[") {
        Form::CData
    } else if begins(bytes, b"<?") {
        Form::Instruction
    } else if begins(bytes, b"<!") {
        Form::Declaration
    } else if begins(bytes, b"<") {
        Form::Tag
    } else {
        Form::Text
    }
}

/// Whether the bytes begin with the word.
pub fn begins(bytes: &[u8], word: &[u8]) -> bool
    ensures { result ≡ places.begins bytes.now word.now }
{
    bytes.starts_with(word)
}

/// Whether the bytes are the word.
pub fn is_word(bytes: &[u8], word: &[u8]) -> bool
    ensures { result ≡ bytes_eq bytes.now word.now }
{
    bytes == word
}

/// Whether the word goes on after the bytes.
pub fn is_part(bytes: &[u8], word: &[u8]) -> bool
    ensures { result ≡ places.is_part bytes.now word.now }
{
    bytes.len() < word.len() && word.starts_with(bytes)
}
