//! What is passed through, as an attribute says it.

ghost use Rattle.std.specs.Prelude.{◌≡◌, ◌≤◌, ◌<◌, IfSome, Some, false, length, drop, []};
ghost use Rattle.std.specs.List.{position, prefix_len};
ghost use Rattle.std.specs.Option.{option_map};
ghost use Rattle.stx_base.specs.Character as character;
ghost use Rattle.sheet_loader.specs.Values as spec;

use sheet_model::{Kinds, Pass};
use stx_base::Text;
use stxpath_syntax::Dialect;

const NO_KINDS: Kinds = Kinds {
    elements: false,
    text: false,
    cdata: false,
    comments: false,
    instructions: false,
    attributes: false,
};

/// Kinds with one more, where the word names one that isn't there yet.
fn with_kind(kinds: Kinds, word: &[u8]) -> Option<Kinds>
    ensures { result ≡ spec.with_kind word.now kinds }
{
    if word == b"elements".as_slice() && !kinds.elements {
        Some(Kinds {
            elements: true,
            ..kinds
        })
    } else if word == b"text".as_slice() && !kinds.text {
        Some(Kinds {
            text: true,
            ..kinds
        })
    } else if word == b"cdata".as_slice() && !kinds.cdata {
        Some(Kinds {
            cdata: true,
            ..kinds
        })
    } else if word == b"comments".as_slice() && !kinds.comments {
        Some(Kinds {
            comments: true,
            ..kinds
        })
    } else if word == b"processing-instructions".as_slice() && !kinds.instructions {
        Some(Kinds {
            instructions: true,
            ..kinds
        })
    } else if word == b"attributes".as_slice() && !kinds.attributes {
        Some(Kinds {
            attributes: true,
            ..kinds
        })
    } else {
        None
    }
}

fn is_space(byte: u8) -> bool
    ensures { result ≡ character.is_space byte }
{
    matches!(byte, b' ' | b'\t' | b'\r' | b'\n')
}

/// How many bytes of white space stand at the front.
fn space_len(text: &[u8]) -> usize
    ensures value { result ≡ prefix_len character.is_space text.now }
    ensures bound { result ≤ length text.now }
{
    text.iter().take_while(|b| is_space(**b)).count()
}

/// What stands behind the white space at the front.
fn behind_space(text: &[u8]) -> &[u8]
    ensures { result.now ≡ drop (prefix_len character.is_space text.now) text.now }
{
    let (_, rest) = text.split_at(space_len(text));
    rest
}

/// Where the first white space stands.
fn space(text: &[u8]) -> Option<usize>
    ensures value { result ≡ position character.is_space text.now }
    ensures bound { IfSome result (λ i. i < length text.now) }
{
    text.iter().position(|b| is_space(*b))
}

/// The kinds that words name, between which white space stands and none at the ends.
fn kinds_named(text: &[u8]) -> Option<Kinds>
    ensures { option_map Pass.Kinds result ≡ spec.kinds_named (Some NO_KINDS) (spec.words_of [] (spec.single_spaced false text.now)) }
{
    let mut kinds = NO_KINDS;
    let mut rest = text;
    while let Some(end) = space(rest) {
        let (word, behind) = rest.split_at(end);
        kinds = with_kind(kinds, word)?;
        rest = behind_space(behind);
    }
    with_kind(kinds, rest)
}

/// The words for what is passed through that both versions have.
fn plain_pass(text: &str) -> Option<Pass>
    ensures { result ≡ spec.plain_pass text.now }
{
    if text == "none" {
        Some(Pass::None)
    } else if text == "text" {
        Some(Pass::Chars)
    } else if text == "all" {
        Some(Pass::All)
    } else {
        None
    }
}

/// One of these words, or from version 1.1 on a list of kinds.
fn pass_of(dialect: Dialect, text: &str) -> Option<Pass>
    ensures { result ≡ spec.pass_in dialect text.now }
{
    match plain_pass(text) {
        Some(pass) => Some(pass),
        None => match dialect {
            Dialect::One => None,
            Dialect::OneOne => kinds_of(text.as_bytes()),
        },
    }
}

fn kinds_of(text: &[u8]) -> Option<Pass>
    ensures { result ≡ spec.kinds_named (Some NO_KINDS) (spec.words_of [] (spec.single_spaced false text.now)) }
{
    match kinds_named(text) {
        None => None,
        Some(kinds) => Some(Pass::Kinds(kinds)),
    }
}

/// What a text says that is passed through.
pub fn pass_in(dialect: Dialect, text: &Text) -> Option<Pass>
    ensures { result ≡ spec.pass_in dialect text.now }
{
    pass_of(dialect, text.as_str())
}
